// A unit that is read whole.
ghost use Rattle.std.specs.Prelude.{◌≡◌, true};
ghost use Rattle.outside_io.specs.World.{is_input};
ghost use Rattle.ibm1620_cli.specs.Parts.{ReadsText};

use crate::status::Status;
use outside_io::{Host, ReadAll, Unit, read_all};
use std::alloc::Global;

// Reads all bytes of a unit, at most `longest` of them; the error is the status of a job without them.
pub(crate) fn read_text<H: Host>(
    alloc: Global,
    host: &mut H,
    unit: Unit,
    longest: usize,
) -> Result<Vec<u8>, Status>
    requires { is_input unit ≡ true }
    ensures { ReadsText unit longest (H.seen host.old) (H.seen host.new) result }
{
    match read_all(alloc, host, unit, longest) {
        Ok(bytes) => Ok(bytes),
        Err(ReadAll::TooLong) => Err(Status::TooLong { unit }),
        Err(ReadAll::Failed) => Err(Status::HostFault),
        Err(ReadAll::Memory) => Err(Status::OutOfMemory),
    }
}
