// The job generate: a source is made from two numbers.
ghost use Rattle.std.specs.Prelude.{◌≤◌};
ghost use Rattle.ibm1620_cli.specs.GenerateJob.{MakesSource};
ghost use Rattle.command_line.specs.Numbers.{AreNumbers};
ghost use Rattle.ibm1620_cli.specs.Inputs.{reads_nothing};
ghost use Rattle.ibm1620_cli.specs.Parts.{LeavesUnread};

use crate::answer::Answer;
use crate::report::report;
use crate::status::Status;
use command_line::Settings;
use outside_io::{Host, Sent, Unit, write_all};
use sps_generator::generate;
use std::alloc::Global;

// Makes a source from two numbers, writes it, and reports how many statements it has.
pub(crate) fn make_source<H: Host>(alloc: Global, host: &mut H, settings: Settings) -> Answer
    requires fits { AreNumbers settings.statements settings.number }
    ensures promise { MakesSource settings (H.seen host.old) (H.seen host.new) result }
    ensures stays { LeavesUnread reads_nothing (H.seen host.old).world (H.seen host.new).world }
{
    let statements = settings.statements;
    let source = match generate(alloc, statements, settings.number) {
        Ok(source) => source,
        Err(_) => return Answer::of(Status::OutOfMemory),
    };
    match write_all(host, Unit::Made, &source) {
        Sent::Done => Answer::of(report(host, Status::Generated { statements })),
        Sent::Failed => Answer::of(Status::HostFault),
    }
}
