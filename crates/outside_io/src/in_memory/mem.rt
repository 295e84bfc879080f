// A host in memory: it reveals everything, and fails at chosen calls.
// Source: this project's own, for tests.
ghost use Rattle.std.specs.Prelude.{◌≡◌, ◌≢◌, ◌<◌, ◌≤◌, [], ◌||◌, false, true, length, IfOk, IfSome, OnOk, OnErr};
ghost use Rattle.std.specs.Option.{option_copied};
ghost use Rattle.outside_io.specs.declared.host.Unit as unit;
ghost use Rattle.outside_io.specs.World.{Seen, Rose, Binds, Takes, Puts, ReadsSector, WritesSector, IsFree, IsFresh, with_sector_written, sector_in, pack_sector_text, GainsFile, is_input, is_output, one_more, bind_failed, take_failed, put_failed, drive_failed};
ghost use Rattle.outside_io.specs.CallCounts.{FailsNowhere, FaultsHaveCauses};
ghost use Rattle.outside_io.specs.declared.host.TheConstants.{ALL_SECTORS};

use crate::host::SECTOR_LENGTH;
use crate::in_memory::files::Files;
use crate::in_memory::pack::Sectors;
use crate::in_memory::texts::OutputTexts;
use crate::{Bound, Drive, Host, Put, Take, Unit, host};
use std::alloc::{AllocError, Global};

// The calls of the trait: how many were made, the numbers of the calls that are to fail, and the count of faults.
#[derive(Drop)]
pub(crate) struct Calls {
    failing: Vec<u64>,
    made: u64,
    faults: u64,
}

impl Calls {
    ghost use Rattle.outside_io.specs.CallCounts.{next_fails, CountsCall};

    // Counts a call, and a fault if the call is to fail.
    fn fails(&mut self) -> bool
        ensures listed { result ≡ next_fails self.old }
        ensures call { CountsCall self.old self.new }
        ensures calm { result ≡ false → self.new.faults ≡ self.old.faults }
        ensures rose { result ≡ true → Rose self.old.faults self.new.faults }
    {
        self.made = self.made.saturating_add(1);
        let listed = self.failing.contains(&self.made);
        if listed {
            self.faults = host::one_more(self.faults);
        }
        listed
    }

    // Counts a fault.
    fn fault(&mut self)
        ensures rose { Rose self.old.faults self.new.faults }
        ensures later { self.old.faults ≤ self.new.faults }
        ensures made { self.new.made ≡ self.old.made }
        ensures failing { self.new.failing ≡ self.old.failing }
    {
        self.faults = host::one_more(self.faults);
    }
}

/// A host in memory, which reveals everything: named files, the names that units are bound to, the bytes written, how inputs
/// were read, and the pack.
///
/// A sector of the pack has the bytes that were last written to it since the pack's file was bound. A sector that was not written
/// has the file's bytes, or none if no pack is bound; missing bytes read as the character 0.
///
/// One of its calls fails exactly if its number is in the list of calls that are to fail, or if it is a `put` on an output that has no
/// room left. Bytes take room also if a binding empties the output later. The host reveals that list and the room that is left, so that
/// a caller can see by them that no call failed. Its calls as a `Host` take no memory.
#[derive(Drop)]
pub struct MemHost {
    files: Files,
    texts: OutputTexts,
    sectors: Sectors,
    calls: Calls,
    ghost causes: { FaultsHaveCauses texts calls },
}

impl MemHost {
    ghost use Rattle.outside_io.specs.Mem.{mem_world, mem_seen, first_seen, with_failing_call, pack_of_host, failing_calls, calls_made, room_of_unit, is_listed, HasRoom, Counts, KeepsCalls};

    /// A host without files, without calls that are to fail, with no unit in use and nothing written.
    ///
    /// `room` is how many bytes each output takes, over all its bindings. This call takes the memory for these bytes, and about
    /// eight million bytes for the 80,000 sectors of the pack. The error is want of memory.
    pub fn new(alloc: Global, room: usize) -> Result<Self, AllocError>
        ensures seen { IfOk result (λ host. mem_seen host ≡ first_seen room) }
        ensures fresh { IfOk result (λ host. IsFresh (mem_world host)) }
        ensures calls { IfOk result (λ host. (failing_calls host ≡ []) × (calls_made host ≡ 0)) }
        ensures room { IfOk result (HasRoom room) }
    {
        Ok(MemHost {
            files: Files::new(alloc),
            texts: OutputTexts::new(alloc, room)?,
            sectors: Sectors::new(alloc)?,
            calls: Calls {
                failing: Vec::new(alloc),
                made: 0,
                faults: 0,
            },
        })
    }

    /// Adds a named file, or replaces the bytes of the file of this name.
    ///
    /// No unit is in use. Nothing is done if the file of this name has these bytes; a name without a file counts as an empty
    /// file. The error is want of memory for a change, and nothing has changed then.
    pub fn file(&mut self, name: &str, bytes: &[u8]) -> Result<(), AllocError>
        requires { IsFree (mem_world self.old) }
        ensures ok { OnOk result (GainsFile mem_world self.old self.new name.now bytes.now) }
        ensures err { OnErr result (mem_world self.new ≡ mem_world self.old) }
        ensures grew { OnErr result ((mem_world self.old).file name.now ≢ Some bytes.now) }
        ensures keeps { KeepsCalls self.old self.new }
        ensures fresh { IsFresh (mem_world self.old) → IsFresh (mem_world self.new) }
    {
        self.files.add(name, bytes)
    }

    /// Lets the call of that number fail.
    ///
    /// All calls of the trait are counted, from 1; the count stays at 2^64 - 1. The error is want of memory, and nothing has
    /// changed then.
    pub fn fail(&mut self, call: u64) -> Result<(), AllocError>
        ensures ok { OnOk result (mem_seen self.new ≡ with_failing_call call (mem_seen self.old)) }
        ensures err { OnErr result (mem_seen self.new ≡ mem_seen self.old) }
        ensures fresh { IsFresh (mem_world self.old) → IsFresh (mem_world self.new) }
        ensures calls { calls_made self.new ≡ calls_made self.old }
        ensures room { (u : unit.Unit) → room_of_unit self.new u ≡ room_of_unit self.old u }
    {
        self.calls.failing.push(call)?;
        Ok(())
    }

    /// A law: if no call is to fail and each output has room, no fault was counted. The call does nothing.
    pub fn fault_law(&self)
        ensures { IfSome (mem_world self.now).limits (λ l. FailsNowhere l → (mem_seen self.now).faults ≡ 0) }
    {}

    /// The bytes that were written to an output, never more than its room.
    pub fn shown(&self, unit: Unit) -> &[u8]
        requires { is_output unit ≡ true }
        ensures is { (mem_world self.now).written unit ≡ Some result.now }
        ensures within { length result.now ≤ room_of_unit self.now unit }
    {
        self.texts.text(unit)
    }

    /// The name that a unit is bound to; None if it isn't bound, or its name has over 255 bytes.
    pub fn bound_name(&self, unit: Unit) -> Option<&[u8]>
        ensures { option_copied result ≡ (mem_world self.now).names unit }
    {
        self.files.name(unit)
    }

    /// Writes the bytes to a sector of the pack, 0 to 79,999; all other sectors stay.
    ///
    /// This is not a call of the trait: it isn't counted and never fails, and it takes no memory. After a pack is bound, all
    /// sectors are the file's.
    pub fn set_sector(&mut self, a: u32, text: &[u8; SECTOR_LENGTH])
        requires { a < ALL_SECTORS }
        ensures world { mem_world self.new ≡ with_sector_written a text.now (mem_world self.old) }
        ensures keeps { KeepsCalls self.old self.new }
        ensures fresh { IsFresh (mem_world self.old) → IsFresh (mem_world self.new) }
    {
        self.sectors.set(a, text);
    }

    /// The text of a sector of the pack, 0 to 79,999: 100 bytes, with the character 0 for each missing byte.
    pub fn sector(&self, a: u32) -> [u8; SECTOR_LENGTH]
        requires { a < ALL_SECTORS }
        ensures { sector_in (mem_world self.now) a ≡ Some result }
    {
        let mut text = [0; SECTOR_LENGTH];
        self.copy_sector(a, &mut text);
        text
    }

    // Copies a sector: the written one, or else the pack file's.
    fn copy_sector(&self, a: u32, into: &mut [u8; SECTOR_LENGTH])
        requires { a < ALL_SECTORS }
        ensures { into.new ≡ pack_sector_text (pack_of_host self.now) a }
    {
        match self.sectors.get(a) {
            Some(text) => *into = text,
            None => self.files.read_sector(a, into),
        }
    }
}

impl Host for MemHost {
    ghost use Rattle.outside_io.specs.Mem.{mem_seen, is_listed, Counts, KeepsFaults, IsWithinRoom, is_unit_full};

    ghost seen = { mem_seen };

    fn bind(&mut self, unit: Unit, name: &str) -> Bound
        ensures answer { Binds (mem_seen self.old) (mem_seen self.new) unit name.now result }
        ensures fails { bind_failed result ≡ is_listed self.old }
        ensures calm { is_listed self.old ≡ false → KeepsFaults self.old self.new }
        ensures counts { Counts self.old self.new }
    {
        if self.calls.fails() {
            return Bound::Failed;
        }
        self.files.bind(unit, name);
        if unit.is_output() {
            self.texts.clear(unit);
        } else if unit.is_pack() {
            self.sectors.clear();
        }
        Bound::Yes
    }

    fn take(&mut self, unit: Unit, buf: &mut [u8]) -> Take
        requires input { is_input unit ≡ true }
        requires room { 0 < length buf.old }
        ensures answer { Takes (mem_seen self.old) (mem_seen self.new) unit buf.new result }
        ensures fails { take_failed result ≡ is_listed self.old }
        ensures calm { is_listed self.old ≡ false → KeepsFaults self.old self.new }
        ensures counts { Counts self.old self.new }
    {
        if self.calls.fails() {
            return Take::Failed;
        }
        match self.files.take(unit, buf) {
            0 => Take::End,
            n => Take::Got(n),
        }
    }

    fn put(&mut self, unit: Unit, piece: &[u8]) -> Put
        requires output { is_output unit ≡ true }
        requires some { 0 < length piece.now }
        ensures answer { Puts (mem_seen self.old) (mem_seen self.new) unit piece.now result }
        ensures fails { put_failed result ≡ (is_listed self.old || is_unit_full self.old unit) }
        ensures calm { is_listed self.old ≡ false → is_unit_full self.old unit ≡ false → KeepsFaults self.old self.new }
        ensures within { IsWithinRoom self.new }
        ensures counts { Counts self.old self.new }
    {
        if self.calls.fails() {
            return Put::Failed;
        }
        match self.texts.add(unit, piece) {
            0 => {
                self.calls.fault();
                Put::Failed
            }
            n => Put::Taken(n),
        }
    }

    fn read_sector(&mut self, a: u32, into: &mut [u8; SECTOR_LENGTH]) -> Drive
        requires { a < ALL_SECTORS }
        ensures answer { ReadsSector (mem_seen self.old) (mem_seen self.new) a into.new result }
        ensures fails { drive_failed result ≡ is_listed self.old }
        ensures calm { is_listed self.old ≡ false → KeepsFaults self.old self.new }
        ensures counts { Counts self.old self.new }
    {
        if self.calls.fails() {
            return Drive::Failed;
        }
        self.copy_sector(a, into);
        Drive::Done
    }

    fn write_sector(&mut self, a: u32, from: &[u8; SECTOR_LENGTH]) -> Drive
        requires { a < ALL_SECTORS }
        ensures answer { WritesSector (mem_seen self.old) (mem_seen self.new) a from.now result }
        ensures fails { drive_failed result ≡ is_listed self.old }
        ensures calm { is_listed self.old ≡ false → KeepsFaults self.old self.new }
        ensures counts { Counts self.old self.new }
    {
        if self.calls.fails() {
            return Drive::Failed;
        }
        self.sectors.set(a, from);
        Drive::Done
    }
}
