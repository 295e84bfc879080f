// Named files in memory, and how far each unit has read its own.
ghost use Rattle.std.specs.Prelude.{◌≡◌, ◌≢◌, ◌≤◌, ◌<◌, ◌+◌, ◌^◌, [], length, take, drop, min, true, false, slice_index_or, OnOk, OnErr};
ghost use Rattle.std.specs.Option.{option_copied};
ghost use Rattle.outside_io.specs.World.{is_input, place, sectors_of, pack_sector_text};
ghost use Rattle.outside_io.specs.declared.host.TheConstants.{ALL_SECTORS};

use crate::Unit;
use crate::host::{SECTOR_LENGTH, UNIT_COUNT};
use crate::names::BoundNames;
use std::alloc::{AllocError, Global};

// A file and its name.
#[derive(Drop)]
pub(crate) struct NamedFile {
    name: String,
    bytes: Vec<u8>,
}

// The files, and for each unit: whether it is in use, its name, its file's place in the list, how many bytes of the file it has
// read, how many bytes its last reading gave, and how many readings found no more.
#[derive(Drop)]
pub(crate) struct Files {
    alloc: Global,
    named: Vec<NamedFile>,
    bound: [bool; UNIT_COUNT],
    names: BoundNames,
    opened: [usize; UNIT_COUNT],
    position: [usize; UNIT_COUNT],
    last: [usize; UNIT_COUNT],
    ends: [u64; UNIT_COUNT],
}

impl Files {
    ghost use Rattle.outside_io.specs.Names.{name_of, HasNoName};
    ghost use Rattle.outside_io.specs.Files.{bytes_at, bytes_named, file_bytes, flag_of, rest_of, pack_of, Gives, Opens, IsIdle, IsUnasked, AddsFile, SameFiles};

    // No file, and no unit in use.
    pub(crate) fn new(alloc: Global) -> Self
        ensures named { result.named.items ≡ [] }
        ensures unbound { IsIdle result }
        ensures unnamed { HasNoName result.names }
        ensures unasked { IsUnasked result }
    {
        Files {
            alloc,
            named: Vec::new(alloc),
            bound: [false; UNIT_COUNT],
            names: BoundNames::new(),
            opened: [0; UNIT_COUNT],
            position: [0; UNIT_COUNT],
            last: [0; UNIT_COUNT],
            ends: [0; UNIT_COUNT],
        }
    }

    // Adds a file in front of older files of its name; nothing is done if the newest of these has these bytes.
    pub(crate) fn add(&mut self, name: &str, bytes: &[u8]) -> Result<(), AllocError>
        requires { IsIdle self.old }
        ensures ok { OnOk result (AddsFile self.old self.new name.now bytes.now) }
        ensures err { OnErr result (SameFiles self.old self.new) }
        ensures grew { OnErr result (file_bytes self.old name.now ≢ bytes.now) }
        ensures flags { flag_of self.new ≡ flag_of self.old }
    {
        if self.bytes(name) == bytes {
            return Ok(());
        }
        let name = String::from_str(self.alloc, name)?;
        let bytes = Vec::from_slice(self.alloc, bytes)?;
        self.named.insert(0, NamedFile { name, bytes })?;
        Ok(())
    }

    // The place of the first file of this name, or past the end.
    fn find(&self, name: &str) -> usize
        ensures { bytes_at self.now.named.items result ≡ bytes_named self.now.named.items name.now }
    {
        for (i, file) in self.named.iter().enumerate() {
            if file.name.as_str() == name {
                return i;
            }
        }
        self.named.len()
    }

    // The bytes of the first file of this name, none if there is no such file.
    fn bytes(&self, name: &str) -> &[u8]
        ensures { result.now ≡ file_bytes self.now name.now }
    {
        let place = self.find(name);
        if place < self.named.len() {
            &self.named[place].bytes
        } else {
            &[]
        }
    }

    // Lets the unit read the file of this name from its start, and keeps the name.
    pub(crate) fn bind(&mut self, unit: Unit, name: &str)
        ensures { Opens self.old self.new unit name.now }
    {
        let place = unit.place();
        let file = self.find(name);
        self.opened[place] = file;
        self.position[place] = 0;
        self.bound[place] = true;
        self.names.set(unit, name);
    }

    // The name that is kept for the unit, if any.
    pub(crate) fn name(&self, unit: Unit) -> Option<&[u8]>
        ensures { option_copied result ≡ name_of self.now.names unit }
    {
        self.names.get(unit)
    }

    // Copies the unit's next bytes into the buffer, and gives their number.
    fn copy(&self, unit: Unit, buf: &mut [u8]) -> usize
        requires input { is_input unit ≡ true }
        requires room { 0 < length buf.old }
        ensures fits { result ≤ length buf.new }
        ensures copied { take result buf.new ≡ take result (rest_of self.now unit) }
        ensures within { result ≤ length (rest_of self.now unit) }
        ensures none { result ≡ 0 → rest_of self.now unit ≡ [] }
        ensures small { slice_index_or self.now.position (place unit) 0 + result < 2 ^ 64 }
    {
        let place = unit.place();
        let start = self.position[place];
        if !self.bound[place] {
            return 0;
        }
        let opened = self.opened[place];
        if opened >= self.named.len() {
            return 0;
        }
        let file = &self.named[opened];
        copy_from(&file.bytes, start, buf)
    }

    // Takes bytes of the unit into the buffer, gives their number, and counts the reading.
    pub(crate) fn take(&mut self, unit: Unit, buf: &mut [u8]) -> usize
        requires input { is_input unit ≡ true }
        requires room { 0 < length buf.old }
        ensures { Gives self.old self.new unit buf.new result }
    {
        let n = self.copy(unit, buf);
        let place = unit.place();
        self.position[place] += n;
        self.last[place] = n;
        self.ends[place] = self.ends[place].saturating_add(u64::from(n == 0));
        n
    }

    // Reads a sector of the pack's file, or a blank one if no pack is bound.
    pub(crate) fn read_sector(&self, a: u32, into: &mut [u8; SECTOR_LENGTH])
        requires { a < ALL_SECTORS }
        ensures { into.new ≡ pack_sector_text (pack_of self.now) a }
    {
        let place = Unit::Pack.place();
        let opened = self.opened[place];
        if self.bound[place] && opened < self.named.len() {
            copy_sector(&self.named[opened].bytes, a, into);
        } else {
            *into = [b'0'; SECTOR_LENGTH];
        }
    }
}

// Copies the bytes from `start` on into the buffer, as many as fit, and gives their number.
fn copy_from(bytes: &[u8], start: usize, buf: &mut [u8]) -> usize
    requires { 0 < length buf.old }
    ensures fits { result ≤ length buf.new }
    ensures within { result ≤ length (drop start bytes.now) }
    ensures copied { take result buf.new ≡ take result (drop start bytes.now) }
    ensures none { result ≡ 0 → drop start bytes.now ≡ [] }
    ensures small { start + result < 2 ^ 64 }
    ensures most { result ≡ min (length buf.new) (length (drop start bytes.now)) }
    ensures behind { drop result buf.new ≡ drop result buf.old }
{
    if start >= bytes.len() {
        return 0;
    }
    let rest = &bytes[start..];
    let n = rest.len().min(buf.len());
    buf[..n].copy_from_slice(&rest[..n]);
    n
}

// Copies a sector of the file, with zeros for its missing bytes.
fn copy_sector(bytes: &[u8], a: u32, into: &mut [u8; SECTOR_LENGTH])
    requires { a < ALL_SECTORS }
    ensures { into.new ≡ pack_sector_text (sectors_of bytes.now) a }
{
    *into = [b'0'; SECTOR_LENGTH];
    copy_from(bytes, SECTOR_LENGTH * a as usize, into);
}
