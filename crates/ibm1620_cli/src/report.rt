// The report at the end of a job.
ghost use Rattle.ibm1620_cli.specs.Parts.{Reports};

use crate::status::Status;
use outside_io::{Host, Sent, Unit, write_all};

// Writes the status's line, and answers the status, or `HostFault` if the host failed.
pub(crate) fn report<H: Host>(host: &mut H, status: Status) -> Status
    ensures { Reports (H.seen host.old) (H.seen host.new) status result }
{
    match write_all(host, Unit::Report, status.line().as_bytes()) {
        Sent::Done => status,
        Sent::Failed => Status::HostFault,
    }
}
