// The middle of load and of run: a machine over a hopper is loaded, and takes its turns.
ghost use Rattle.std.specs.Prelude.{◌≡◌, [], All, IfOk, false};
ghost use Rattle.digit_core.specs.Size.{IsSize, size};
ghost use Rattle.cpu_step.specs.Machine.{is_faulted};
ghost use Rattle.operator_script.specs.Scripts.{IsLine, lines_left};
ghost use Rattle.ibm1620_cli.specs.Turns.{status_of};
ghost use Rattle.ibm1620_cli.specs.Parts.{Executes, TakesTurns};

use crate::answer::Answer;
use crate::report::report;
use crate::status::Status;
use card_unit::Hopper;
use cpu_step::{Machine, Turned};
use operator_script::{Ended, Ending, Script, ScriptFault, run};
use outside_io::Host;
use std::alloc::{AllocError, Global};

// Powers a machine on over the hopper, presses the Load key, makes the steps of the deck, takes the turns under the script, up to
// the limit, and reports how they ended. The deck's steps are a run of their own: it has no script, and `steps` is its limit.
// `steps` is 0 if the script and the limit count from the Load key on.
pub(crate) fn execute<const M: u32, H: Host>(
    alloc: Global,
    host: &mut H,
    hopper: Hopper,
    steps: u64,
    script: Script,
    limit: u64,
) -> Answer
    requires size { IsSize M }
    requires lines { All (IsLine (size M)) (lines_left script) }
    ensures { Executes M steps limit hopper script (H.seen host.old) (H.seen host.new) result }
{
    let mut none = match no_script(alloc) {
        Ok(none) => none,
        Err(_) => return Answer::of(Status::OutOfMemory),
    };
    let mut machine = match Machine::<M>::power_on(alloc, hopper) {
        Ok(machine) => machine,
        Err(_) => return Answer::of(Status::OutOfMemory),
    };
    match machine.load_key(host) {
        Turned::Failed => return Answer::with_console(Status::HostFault, machine.shown()),
        _ => {}
    }
    let loaded = run(&mut machine, &mut none, steps, host);
    match loaded.how {
        Ending::Failed => return Answer::with_console(Status::HostFault, machine.shown()),
        _ => {}
    }
    take_turns(host, &mut machine, script, limit)
}

// A script without a line.
pub(crate) fn no_script(alloc: Global) -> Result<Script, AllocError>
    ensures { IfOk result (λ script. lines_left script ≡ []) }
{
    match Script::read(alloc, b"", 0) {
        Ok(script) => Ok(script),
        Err(ScriptFault::BadLine(_)) => unreachable!(),
        Err(ScriptFault::Memory) => Err(AllocError),
    }
}

// Takes the turns of a machine under the script, up to the limit, and reports how they ended.
fn take_turns<const M: u32, H: Host>(
    host: &mut H,
    machine: &mut Machine<M>,
    script: Script,
    limit: u64,
) -> Answer
    requires size { IsSize M }
    requires mode { is_faulted machine.old.mode ≡ false }
    requires lines { All (IsLine (size M)) (lines_left script) }
    ensures { TakesTurns M limit machine.old script (H.seen host.old) (H.seen host.new) result }
{
    let mut script = script;
    let ended = run(machine, &mut script, limit, host);
    let status = report(host, status_of(ended));
    Answer::with_console(status, machine.shown())
}

// The status of a run that ended so.
fn status_of(ended: Ended) -> Status
    ensures { result ≡ status_of ended.steps ended.how }
{
    let steps = ended.steps;
    match ended.how {
        Ending::Halted { at } => Status::Halted { at, steps },
        Ending::Stopped { kind, at } => Status::CheckStop { kind, at, steps },
        Ending::Limit => Status::Limit { steps },
        Ending::NeedCards { at } => Status::NeedCards { at, steps },
        Ending::NeedKeys { at } => Status::NeedKeys { at, steps },
        Ending::Jam { unit, line } => Status::Jam { unit, line },
        Ending::Failed => Status::HostFault,
    }
}
