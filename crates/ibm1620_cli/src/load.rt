// The job load: the script is read, the Load key is pressed over the deck, and the machine runs.
ghost use Rattle.std.specs.Prelude.{All};
ghost use Rattle.digit_core.specs.Size.{IsSize, size};
ghost use Rattle.operator_script.specs.Scripts.{IsLine, lines_left};
ghost use Rattle.ibm1620_cli.specs.LoadJob.{LoadPromise, LoadedPromise};
ghost use Rattle.ibm1620_cli.specs.Inputs.{load_reads, reads_feed};
ghost use Rattle.ibm1620_cli.specs.Parts.{ReadsScript, LeavesUnread};

use crate::answer::Answer;
use crate::execute::execute;
use crate::reading::read_text;
use crate::report::report;
use crate::status::Status;
use card_unit::Hopper;
use command_line::Settings;
use digit_core::MODULE;
use operator_script::{Script, ScriptFault};
use outside_io::{Host, Unit};
use std::alloc::Global;

// How many bytes a script has at most.
const LONGEST_SCRIPT: usize = 1_000_000;

// Reads the script, loads the deck and runs the machine.
pub(crate) fn load<const M: u32, H: Host>(alloc: Global, host: &mut H, settings: Settings) -> Answer
    requires size { IsSize M }
    ensures promise { LoadPromise M settings (H.seen host.old) (H.seen host.new) result }
    ensures stays { LeavesUnread load_reads (H.seen host.old).world (H.seen host.new).world }
{
    match read_script::<M, H>(alloc, host) {
        Ok(script) => load_deck::<M, H>(alloc, host, script, settings),
        Err(status) => Answer::of(report(host, status)),
    }
}

// Reads the operator's script; the error is the status of a job without one.
pub(crate) fn read_script<const M: u32, H: Host>(
    alloc: Global,
    host: &mut H,
) -> Result<Script, Status>
    requires { IsSize M }
    ensures { ReadsScript M (H.seen host.old) (H.seen host.new) result }
{
    let bytes = match read_text(alloc, host, Unit::Script, LONGEST_SCRIPT) {
        Ok(bytes) => bytes,
        Err(status) => return Err(status),
    };
    match Script::read(alloc, &bytes, M * MODULE) {
        Ok(script) => Ok(script),
        Err(ScriptFault::BadLine(line)) => Err(Status::BadScript { line }),
        Err(ScriptFault::Memory) => Err(Status::OutOfMemory),
    }
}

// Runs the machine over the cards of Deck and Data: the turns begin after the Load key.
fn load_deck<const M: u32, H: Host>(
    alloc: Global,
    host: &mut H,
    script: Script,
    settings: Settings,
) -> Answer
    requires size { IsSize M }
    requires lines { All (IsLine (size M)) (lines_left script) }
    ensures promise { LoadedPromise M settings script (H.seen host.old) (H.seen host.new) result }
    ensures stays { LeavesUnread reads_feed (H.seen host.old).world (H.seen host.new).world }
{
    execute::<M, H>(alloc, host, Hopper::of_units(), 0, script, settings.limit)
}
