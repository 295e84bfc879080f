// What the host over files was doing when it failed, and why.
// Source: this project's own.
ghost use Rattle.std.specs.Prelude.{◌≡◌, ◌≤◌, None, option_copied};
ghost use Rattle.outside_io.specs.World.{Rose};
ghost use Rattle.outside_io.specs.declared.trouble.Cause.TheVariants.{System};

use crate::Unit;
use crate::host::one_more;
use std::io::Error;

/// What the host over files was doing when it failed.
#[derive(Clone, Copy, Debug, PartialEq, Eq)]
pub enum Doing {
    /// It opened the file that a unit was to be bound to.
    Open,
    /// It emptied an output's file, which had old bytes.
    Empty,
    /// It read from an input.
    Read,
    /// It wrote to an output.
    Write,
    /// It read a sector of the pack.
    ReadSector,
    /// It wrote a sector of the pack.
    WriteSector,
}

/// Why the host over files failed.
#[derive(Debug, Drop)]
pub enum Cause {
    /// The system's error. If there is no memory for the blank pack, its kind is out of memory.
    System(Error),
    /// The file is already bound to this other unit, and the two units are not both inputs.
    SameFile(Unit),
    /// The standard output goes to this file.
    StandardOutput,
    /// Another run has the pack's file, and one of the two would write it.
    InUse,
    /// The system took none of the bytes to be written.
    NothingTaken,
}

impl From<Error> for Cause {
    ghost from_gives = { λ error cause. cause ≡ System error };

    fn from(error: Error) -> Self {
        Cause::System(error)
    }
}

/// A failure of the host over files: the unit, the action that failed, and the cause.
#[derive(Debug, Drop)]
pub struct Trouble {
    /// The unit of the call; if an output's file could not be emptied before the report, that output.
    pub unit: Unit,
    /// The action that failed.
    pub doing: Doing,
    /// Why it failed.
    pub cause: Cause,
}

impl Trouble {
    // A failure whose cause is the system's error.
    pub(crate) fn of_system(unit: Unit, doing: Doing, error: Error) -> Self {
        Trouble {
            unit,
            doing,
            cause: Cause::System(error),
        }
    }
}

// How many calls failed, and what failed last.
#[derive(Drop)]
pub(crate) struct Faults {
    pub(crate) count: u64,
    last: Option<Trouble>,
    ghost kept: { last ≡ None → count ≡ 0 },
}

impl Faults {
    pub(crate) fn new() -> Self
        ensures { result.count ≡ 0 }
    {
        Faults {
            count: 0,
            last: None,
        }
    }

    pub(crate) fn last(&self) -> Option<&Trouble>
        ensures is { option_copied result ≡ self.now.last }
        ensures none { result ≡ None → self.now.count ≡ 0 }
    {
        self.last.as_ref()
    }

    pub(crate) fn add(&mut self, trouble: Trouble)
        ensures rose { Rose self.old.count self.new.count }
        ensures later { self.old.count ≤ self.new.count }
    {
        self.count = one_more(self.count);
        self.last = Some(trouble);
    }
}
