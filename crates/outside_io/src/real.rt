// The host over real files and the standard output: it reveals no bytes.
// Source: this project's own.
ghost use Rattle.std.specs.Prelude.{◌≡◌, ◌≤◌, ◌<◌, length, false, true, None, option_copied, IfOk, IfSome};
ghost use Rattle.outside_io.specs.World.{IsFree, IsUnnamed, Fails, Binds, Takes, Puts, ReadsSector, WritesSector, is_input, is_output, put_failed};
ghost use Rattle.outside_io.specs.Real.{real_seen, last_trouble, pack_room, TellsNothing, IsAllEmptied};
ghost use Rattle.outside_io.specs.Old.{HasNoOldBytes};
ghost use Rattle.outside_io.specs.declared.host.TheConstants.{ALL_SECTORS};
ghost use Rattle.outside_io.specs.declared.host.Unit.TheVariants.{Pack, Report};
ghost use Rattle.outside_io.specs.declared.host.Drive.TheVariants.{Done};

use crate::host::{SECTOR_LENGTH, UNIT_COUNT};
use crate::names::BoundNames;
use crate::opened::OpenFiles;
use crate::scratch::{PackRoom, ScratchPack};
use crate::trouble::{Cause, Doing, Faults, Trouble};
use crate::{Bound, Drive, Host, Lockable, Put, Take, Unit, again, pack_file};
use std::io;
use std::os::unix::fs::FileExt;
use std::rt::{Clock, Files};

// Writes to the standard output or to the unit's file.
fn write_some<R: Files + Print + Clock>(
    rt: &R,
    files: &mut OpenFiles<R::File>,
    on_screen: bool,
    unit: Unit,
    piece: &[u8],
) -> io::Result<usize>
where
    R::File: Lockable,
    ensures fits { IfOk result (λ n. n ≤ length piece.now) }
    ensures old { files.new.is_old ≡ files.old.is_old }
{
    if on_screen {
        again::write_screen(rt, piece)
    } else {
        files.write(unit, piece)
    }
}

// Removes old bytes, then writes as `write_some`; if no byte is taken, that is an error.
fn write_out<R: Files + Print + Clock>(
    rt: &R,
    files: &mut OpenFiles<R::File>,
    on_screen: bool,
    unit: Unit,
    piece: &[u8],
) -> Result<usize, Trouble>
where
    R::File: Lockable,
    ensures some { IfOk result (λ n. 1 ≤ n) }
    ensures fits { IfOk result (λ n. n ≤ length piece.now) }
    ensures emptied { IfOk result (λ _. unit ≡ Report → HasNoOldBytes files.new) }
{
    files.make_way(unit)?;
    let cause = match write_some(rt, files, on_screen, unit, piece) {
        Ok(0) => Cause::NothingTaken,
        Ok(n) => return Ok(n),
        Err(error) => Cause::System(error),
    };
    Err(Trouble {
        unit,
        doing: Doing::Write,
        cause,
    })
}

/// The host of the program that a user runs: files by their names, and the standard output.
///
/// It reveals which units are in use and under which names, but no bytes. The bytes of Typed and Report go to the standard output
/// if these units are not bound; the bytes of another output that is not bound are dropped. Each failure counts as a fault, and
/// `trouble` gives the last one.
///
/// The file of an output or of the pack is made if it does not exist. An old file of an output keeps its bytes until the first
/// byte is given to this output or to Report; then it is emptied. So if a job fails before its report, an output that was given
/// no byte keeps its old file. After the first byte of the report no file is left to be emptied. If a file can't be emptied the
/// `put` fails, and gives no byte.
///
/// A file that another unit has is refused, under any name or symbolic link, unless both units are inputs. The file that the
/// standard output goes to is refused for any unit. A refused file loses no byte; if it was made for this call, it may stay,
/// empty. Devices and pipes are never refused.
///
/// If a pack's file can't be opened for writing, it is opened only for reading: then the writing of a sector fails. Sector a of
/// the pack begins at byte 100a of its file, and bytes that the file lacks read as the character 0. The file is locked as long as
/// the host exists: a second run is refused if it or the first run has the file for writing. If the file ends before a sector
/// that is written, it is filled up to there with the character 0. A writing that fails may leave these characters, and a first
/// part of the sector, in the file.
///
/// If no file is bound to the pack, it is a blank one in memory, which ends with the host. A host that was given the room for it
/// takes no memory, and no writing of a sector fails there. Any other host takes memory for the sectors up to the last one that
/// is written, at most 8,000,000 bytes, and a writing fails if there is no memory for it.
///
/// The host waits while a standard output that doesn't block is full. It repeats a call that a signal interrupted.
/// The behavior of files and the standard output is trusted.
#[derive(Drop)]
pub struct RealHost<'a, R: Files> {
    rt: &'a R,
    files: OpenFiles<R::File>,
    // How many bytes the pack's file is known to have, at least.
    pack_has: u64,
    scratch: ScratchPack,
    bound: [bool; UNIT_COUNT],
    names: BoundNames,
    faults: Faults,
}

impl<'a, R: Files + Print + Clock + AllocGlobal> RealHost<'a, R>
where
    R::File: Lockable,
{
    /// A host with no unit in use, over the runtime `rt`. It takes memory for sectors written while no file is bound to the pack.
    pub fn new(rt: &'a R) -> Self
        ensures faults { (real_seen result).faults ≡ 0 }
        ensures free { IsFree (real_seen result).world }
        ensures unnamed { IsUnnamed (real_seen result).world }
        ensures untold { TellsNothing (real_seen result).world }
    {
        RealHost::with_pack_room(rt, None)
    }

    /// A host with no unit in use, over the runtime `rt` and the room for a blank pack. With room it takes no memory, even if
    /// sectors are written while no file is bound to the pack; without room it is the host of `new`.
    pub fn with_pack_room(rt: &'a R, room: Option<PackRoom>) -> Self
        ensures faults { (real_seen result).faults ≡ 0 }
        ensures free { IsFree (real_seen result).world }
        ensures unnamed { IsUnnamed (real_seen result).world }
        ensures untold { TellsNothing (real_seen result).world }
        ensures room { IfSome room (λ _. ALL_SECTORS ≤ pack_room result) }
    {
        RealHost {
            rt,
            files: OpenFiles::new(),
            pack_has: 0,
            scratch: ScratchPack::new(rt.alloc(), room),
            bound: [false; UNIT_COUNT],
            names: BoundNames::new(),
            faults: Faults::new(),
        }
    }

    /// The last failure of a call; None only if no call failed.
    pub fn trouble(&self) -> Option<&Trouble>
        ensures is { option_copied result ≡ last_trouble self.now }
        ensures none { result ≡ None → (real_seen self.now).faults ≡ 0 }
    {
        self.faults.last()
    }

    // Counts a fault, and keeps its description.
    fn fail(&mut self, trouble: Trouble)
        ensures fails { Fails (real_seen self.old) (real_seen self.new) }
        ensures room { pack_room self.new ≡ pack_room self.old }
    {
        self.faults.add(trouble);
    }

    // Whether the unit's bytes go to the standard output.
    fn is_on_screen(&self, unit: Unit) -> bool {
        matches!(unit, Unit::Typed | Unit::Report) && !self.bound[unit.place()]
    }

    // Whether the unit's bytes go nowhere.
    fn is_dropped(&self, unit: Unit) -> bool
        ensures { unit ≡ Report → result ≡ false }
    {
        !matches!(unit, Unit::Typed | Unit::Report) && !self.bound[unit.place()]
    }
}

impl<'a, R: Files + Print + Clock + AllocGlobal> Host for RealHost<'a, R>
where
    R::File: Lockable + FileExt,
{
    ghost seen = { real_seen };

    fn bind(&mut self, unit: Unit, name: &str) -> Bound
        requires { (real_seen self.old).world.in_use unit ≡ false }
        ensures answer { Binds (real_seen self.old) (real_seen self.new) unit name.now result }
        ensures room { pack_room self.new ≡ pack_room self.old }
    {
        match self.files.open(self.rt, unit, name) {
            Err(cause) => {
                self.fail(Trouble {
                    unit,
                    doing: Doing::Open,
                    cause,
                });
                Bound::Failed
            }
            Ok(()) => {
                self.bound[unit.place()] = true;
                self.names.set(unit, name);
                Bound::Yes
            }
        }
    }

    fn take(&mut self, unit: Unit, buf: &mut [u8]) -> Take
        requires input { is_input unit ≡ true }
        requires room { 0 < length buf.old }
        ensures answer { Takes (real_seen self.old) (real_seen self.new) unit buf.new result }
        ensures room { pack_room self.new ≡ pack_room self.old }
    {
        match self.files.read(unit, buf) {
            Err(error) => {
                self.fail(Trouble::of_system(unit, Doing::Read, error));
                Take::Failed
            }
            Ok(0) => Take::End,
            Ok(n) => Take::Got(n),
        }
    }

    fn put(&mut self, unit: Unit, piece: &[u8]) -> Put
        requires output { is_output unit ≡ true }
        requires some { 0 < length piece.now }
        ensures answer { Puts (real_seen self.old) (real_seen self.new) unit piece.now result }
        ensures emptied { unit ≡ Report → put_failed result ≡ false → IsAllEmptied self.new }
        ensures room { pack_room self.new ≡ pack_room self.old }
    {
        if self.is_dropped(unit) {
            return Put::Taken(piece.len());
        }
        let on_screen = self.is_on_screen(unit);
        match write_out(self.rt, &mut self.files, on_screen, unit, piece) {
            Err(trouble) => {
                self.fail(trouble);
                Put::Failed
            }
            Ok(n) => Put::Taken(n),
        }
    }

    fn read_sector(&mut self, a: u32, into: &mut [u8; SECTOR_LENGTH]) -> Drive
        requires { a < ALL_SECTORS }
        ensures answer { ReadsSector (real_seen self.old) (real_seen self.new) a into.new result }
        ensures room { pack_room self.new ≡ pack_room self.old }
    {
        match pack_file::read_sector(
            self.bound[Unit::Pack.place()],
            self.files.pack(),
            &self.scratch,
            a,
            into,
        ) {
            Err(cause) => {
                self.fail(Trouble {
                    unit: Unit::Pack,
                    doing: Doing::ReadSector,
                    cause,
                });
                Drive::Failed
            }
            Ok(()) => Drive::Done,
        }
    }

    fn write_sector(&mut self, a: u32, from: &[u8; SECTOR_LENGTH]) -> Drive
        requires { a < ALL_SECTORS }
        ensures answer { WritesSector (real_seen self.old) (real_seen self.new) a from.now result }
        ensures within { (real_seen self.old).world.in_use Pack ≡ false → a < pack_room self.old → result ≡ Done }
        ensures room { pack_room self.old ≤ pack_room self.new }
    {
        match pack_file::write_sector(
            self.bound[Unit::Pack.place()],
            self.files.pack(),
            &mut self.pack_has,
            &mut self.scratch,
            a,
            from,
        ) {
            Err(cause) => {
                self.fail(Trouble {
                    unit: Unit::Pack,
                    doing: Doing::WriteSector,
                    cause,
                });
                Drive::Failed
            }
            Ok(()) => Drive::Done,
        }
    }
}
