// A host that never fails: it reveals its inputs, and drops the bytes that are written.
// Source: this project's own, for tests.
ghost use Rattle.std.specs.Prelude.{◌≡◌, ◌≢◌, false, OnOk, OnErr};
ghost use Rattle.outside_io.specs.World.{ReadsSector, IsFree, IsFresh, blank_pack, no_files, GainsFile};

use crate::host::SECTOR_LENGTH;
use crate::in_memory::files::Files;
use crate::{Bound, Drive, Host, Put, Take, Unit};
use std::alloc::{AllocError, Global};

/// A host in memory that never fails: its count of faults stays at 0.
///
/// It holds named files and reveals the bytes that its inputs have left, and how they were read. It drops the bytes that are
/// written, and reveals neither texts nor sectors. Each sector reads as a hundred times the character 0, even if a pack is bound.
/// Its calls as a `Host` take no memory.
#[derive(Drop)]
pub struct QuietHost {
    files: Files,
}

impl QuietHost {
    ghost use Rattle.outside_io.specs.Quiet.{quiet_world};

    /// A host without files, with no unit in use.
    pub fn new(alloc: Global) -> Self
        ensures world { quiet_world result ≡ no_files false }
        ensures fresh { IsFresh (quiet_world result) }
    {
        QuietHost {
            files: Files::new(alloc),
        }
    }

    /// Adds a named file, or replaces the bytes of the file of this name.
    ///
    /// No unit is in use. Nothing is done if the file of this name has these bytes; a name without a file counts as an empty
    /// file. The error is want of memory for a change, and nothing has changed then.
    pub fn file(&mut self, name: &str, bytes: &[u8]) -> Result<(), AllocError>
        requires { IsFree (quiet_world self.old) }
        ensures ok { OnOk result (GainsFile quiet_world self.old self.new name.now bytes.now) }
        ensures err { OnErr result (quiet_world self.new ≡ quiet_world self.old) }
        ensures grew { OnErr result ((quiet_world self.old).file name.now ≢ Some bytes.now) }
        ensures fresh { IsFresh (quiet_world self.old) → IsFresh (quiet_world self.new) }
    {
        self.files.add(name, bytes)
    }
}

impl Host for QuietHost {
    ghost use Rattle.outside_io.specs.Quiet.{quiet_seen};

    ghost seen = { quiet_seen };

    fn bind(&mut self, unit: Unit, name: &str) -> Bound {
        self.files.bind(unit, name);
        Bound::Yes
    }

    fn take(&mut self, unit: Unit, buf: &mut [u8]) -> Take {
        match self.files.take(unit, buf) {
            0 => Take::End,
            n => Take::Got(n),
        }
    }

    fn put(&mut self, _unit: Unit, piece: &[u8]) -> Put {
        Put::Taken(piece.len())
    }

    fn read_sector(&mut self, a: u32, into: &mut [u8; SECTOR_LENGTH]) -> Drive
        ensures answer { ReadsSector (quiet_seen self.old) (quiet_seen self.new) a into.new result }
        ensures blank { into.new ≡ blank_pack a }
    {
        *into = [b'0'; SECTOR_LENGTH];
        Drive::Done
    }

    fn write_sector(&mut self, _a: u32, _from: &[u8; SECTOR_LENGTH]) -> Drive {
        Drive::Done
    }
}
