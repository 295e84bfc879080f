// Hosts that reveal their last failure.
ghost use Rattle.std.specs.Prelude.{◌≡◌, Option, None, option_copied};
ghost use Rattle.outside_io.specs.declared.trouble.Trouble.{Trouble};

use outside_io::{Host, Lockable, MemHost, RealHost, Trouble};
use std::os::unix::fs::FileExt;
use std::rt::{Clock, Files};

/// A host that reveals its last failure.
///
/// Source: this project's own.
pub trait TellsTrouble: Host {
    /// The last failure that the host kept.
    ghost trouble_of: { Self → Option Trouble };

    /// The last failure of a call; None if no call failed, or the host keeps no failure.
    fn trouble(&self) -> Option<&Trouble>
        ensures { option_copied result ≡ trouble_of self.now };
}

impl<'a, R: Files + Print + Clock + AllocGlobal> TellsTrouble for RealHost<'a, R>
where
    R::File: Lockable + FileExt,
{
    ghost use Rattle.outside_io.specs.Real.{last_trouble};

    ghost trouble_of = { last_trouble };

    fn trouble(&self) -> Option<&Trouble> {
        RealHost::trouble(self)
    }
}

impl TellsTrouble for MemHost {
    ghost trouble_of = { λ host. None };

    fn trouble(&self) -> Option<&Trouble> {
        None
    }
}
