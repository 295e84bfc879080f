// The files that units are bound to: how each is opened, which file it is, and whether it still has old bytes.
ghost use Rattle.std.specs.Prelude.{◌≡◌, ◌≤◌, length, false, IfOk, OnOk};
ghost use Rattle.outside_io.specs.World.{IsUnmarked};
ghost use Rattle.outside_io.specs.declared.host.Unit.TheVariants.{Report};

use crate::host::UNIT_COUNT;
use crate::trouble::{Cause, Doing, Trouble};
use crate::{Lockable, Sharing, Unit, again};
use std::array;
use std::fs::{self, Metadata, OpenFile, OpenOptions};
use std::io::{self, Read, Write};
use std::os::unix::fs::MetadataExt;
use std::rt::Files;

// The system's path to the standard output's file.
const STANDARD_OUTPUT: &str = "/dev/stdout";

// Tells one regular file from another, whatever their names.
#[derive(Clone, Copy, PartialEq, Eq)]
pub(crate) struct Identity {
    device: u64,
    inode: u64,
}

impl Identity {
    // None for devices, pipes and folders.
    pub(crate) fn new(metadata: &Metadata) -> Option<Self> {
        if metadata.is_file() {
            Some(Identity {
                device: metadata.dev(),
                inode: metadata.ino(),
            })
        } else {
            None
        }
    }
}

// Opens a unit's file, whose bytes stay. For a pack the answer has also who else may have the file.
fn open_file<R: Files>(rt: &R, unit: Unit, name: &str) -> io::Result<(R::File, Option<Sharing>)> {
    if unit.is_input() {
        Ok((fs::open(rt, name)?, None))
    } else if unit.is_output() {
        let mut options = OpenOptions::new();
        options.write(true).create(true);
        Ok((options.open(rt, name)?, None))
    } else {
        let (file, sharing) = open_pack(rt, name)?;
        Ok((file, Some(sharing)))
    }
}

// Opens a pack's file for reading and writing, or only for reading if that fails.
fn open_pack<R: Files>(rt: &R, name: &str) -> io::Result<(R::File, Sharing)> {
    let mut options = OpenOptions::new();
    options.read(true).write(true).create(true);
    match options.open(rt, name) {
        Ok(file) => Ok((file, Sharing::Alone)),
        Err(error) => match open_to_read(rt, name) {
            Ok(file) => Ok((file, Sharing::WithReaders)),
            Err(_) => Err(error),
        },
    }
}

// Locks the file for this run if it is a pack's.
fn hold<F: Lockable>(file: &F, sharing: Option<Sharing>) -> Result<(), Cause> {
    match sharing {
        Some(sharing) if !file.hold(sharing) => Err(Cause::InUse),
        _ => Ok(()),
    }
}

// Opens a file for reading; a folder is an error.
fn open_to_read<R: Files>(rt: &R, name: &str) -> io::Result<R::File> {
    let file = fs::open(rt, name)?;
    if file.metadata()?.is_dir() {
        return Err(io::Error::from(io::ErrorKind::IsADirectory));
    }
    Ok(file)
}

// By each unit's place: its file, None if the unit is not bound; the identity of a regular file; whether the file is an output's
// that was not emptied yet, so that it has its old bytes; and whether it is a regular file that was read to its end. `may_be_old`
// is false after all old bytes were removed, until the next file is bound: then `empty_all` isn't needed.
#[derive(Drop)]
pub(crate) struct OpenFiles<F> {
    files: [Option<F>; UNIT_COUNT],
    identities: [Option<Identity>; UNIT_COUNT],
    is_old: [bool; UNIT_COUNT],
    is_read: [bool; UNIT_COUNT],
    may_be_old: bool,
    ghost emptied: { may_be_old ≡ false → IsUnmarked is_old },
}

impl<F: Read + Write + OpenFile + Lockable + Drop> OpenFiles<F> {
    ghost use Rattle.outside_io.specs.Old.{HasNoOldBytes, LosesOldBytes};

    // No unit is bound.
    pub(crate) fn new() -> Self {
        OpenFiles {
            files: array::from_fn(|_| None),
            identities: [None; UNIT_COUNT],
            is_old: [false; UNIT_COUNT],
            is_read: [false; UNIT_COUNT],
            may_be_old: true,
        }
    }

    // Opens the unit's file and binds it, unless another use of the file could lose bytes.
    pub(crate) fn open<R: Files<File = F>>(
        &mut self,
        rt: &R,
        unit: Unit,
        name: &str,
    ) -> Result<(), Cause> {
        let (file, sharing) = open_file(rt, unit, name)?;
        let identity = Identity::new(&file.metadata()?);
        if let Some(identity) = identity {
            self.permit(rt, unit, identity)?;
        }
        hold(&file, sharing)?;
        self.set(unit, file, identity);
        Ok(())
    }

    // Refuses a file that another unit has, unless both units are inputs. Also refuses the standard output's file.
    fn permit<R: Files>(&self, rt: &R, unit: Unit, identity: Identity) -> Result<(), Cause> {
        if let Some(other) = self.rival(unit, identity) {
            return Err(Cause::SameFile(other));
        }
        match rt.metadata(STANDARD_OUTPUT) {
            Ok(screen) if Identity::new(&screen) == Some(identity) => Err(Cause::StandardOutput),
            _ => Ok(()),
        }
    }

    // Binds a file to the unit. A file without an identity is never emptied.
    fn set(&mut self, unit: Unit, file: F, identity: Option<Identity>) {
        let place = unit.place();
        self.may_be_old = true;
        self.files[place] = Some(file);
        self.identities[place] = identity;
        self.is_old[place] = unit.is_output() && identity.is_some();
        self.is_read[place] = false;
    }

    // A unit that has this file already, unless both units are inputs.
    fn rival(&self, unit: Unit, identity: Identity) -> Option<Unit> {
        for other in Unit::ALL {
            let is_read = unit.is_input() && other.is_input();
            if self.identities[other.place()] == Some(identity) && !is_read {
                return Some(other);
            }
        }
        None
    }

    // How many bytes were read: 0 at the end, or if no file is bound. A regular file is not read again after its end.
    pub(crate) fn read(&mut self, unit: Unit, buf: &mut [u8]) -> io::Result<usize>
        ensures { IfOk result (λ n. n ≤ length buf.new) }
    {
        let place = unit.place();
        if self.is_read[place] {
            return Ok(0);
        }
        match &mut self.files[place] {
            None => Ok(0),
            Some(file) => {
                let n = again::read(file, buf)?;
                self.is_read[place] = n == 0 && self.identities[place].is_some();
                Ok(n)
            }
        }
    }

    // How many bytes were written: all if no file is bound.
    pub(crate) fn write(&mut self, unit: Unit, piece: &[u8]) -> io::Result<usize>
        ensures fits { IfOk result (λ n. n ≤ length piece.now) }
        ensures old { self.new.is_old ≡ self.old.is_old }
    {
        let place = unit.place();
        match &mut self.files[place] {
            None => Ok(piece.len()),
            Some(file) => again::write(file, piece),
        }
    }

    // Removes the old bytes that must go before the unit is given a byte: its own file's, or before Report every output's.
    pub(crate) fn make_way(&mut self, unit: Unit) -> Result<(), Trouble>
        ensures { OnOk result (unit ≡ Report → HasNoOldBytes self.new) }
    {
        match unit {
            Unit::Report if self.may_be_old => self.empty_all(),
            Unit::Report => Ok(()),
            _ => self.empty(unit),
        }
    }

    // Removes the old bytes of the unit's file, if they are still there.
    fn empty(&mut self, unit: Unit) -> Result<(), Trouble>
        ensures { OnOk result (LosesOldBytes self.old self.new unit) }
    {
        let place = unit.place();
        if self.is_old[place] {
            if let Some(file) = &self.files[place] {
                if let Err(error) = file.set_len(0) {
                    return Err(Trouble::of_system(unit, Doing::Empty, error));
                }
            }
            self.is_old[place] = false;
        }
        Ok(())
    }

    // Removes the old bytes of all outputs, up to the first output at which that fails.
    fn empty_all(&mut self) -> Result<(), Trouble>
        ensures { OnOk result (HasNoOldBytes self.new) }
    {
        for unit in Unit::ALL {
            self.empty(unit)?;
        }
        self.may_be_old = false;
        Ok(())
    }

    // The pack's file, None if no pack is bound.
    pub(crate) fn pack(&mut self) -> &mut Option<F> {
        let place = Unit::Pack.place();
        &mut self.files[place]
    }
}
