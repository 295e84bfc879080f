// The job run: the script and the source are read, the source is assembled, and its program is loaded and runs.
ghost use Rattle.std.specs.Prelude.{All};
ghost use Rattle.digit_core.specs.Size.{IsSize, size};
ghost use Rattle.operator_script.specs.Scripts.{IsLine, lines_left};
ghost use Rattle.ibm1620_cli.specs.RunJob.{RunPromise, ScriptPromise, TurnedPromise};
ghost use Rattle.ibm1620_cli.specs.Inputs.{reads_feed, reads_program, run_reads};
ghost use Rattle.ibm1620_cli.specs.Parts.{IsSoundSource, LeavesUnread};

use crate::answer::Answer;
use crate::load::read_script;
use crate::program::run_program;
use crate::report::report;
use crate::source::{SoundSource, read_source, write_source};
use crate::standing::with_statement;
use command_line::Settings;
use operator_script::Script;
use outside_io::Host;
use std::alloc::Global;

// Reads the script and the source, assembles it, and runs its program.
pub(crate) fn run_source<const M: u32, H: Host>(
    alloc: Global,
    host: &mut H,
    settings: Settings,
) -> Answer
    requires size { IsSize M }
    ensures promise { RunPromise M settings (H.seen host.old) (H.seen host.new) result }
    ensures stays { LeavesUnread run_reads (H.seen host.old).world (H.seen host.new).world }
{
    match read_script::<M, H>(alloc, host) {
        Ok(script) => run_under::<M, H>(alloc, host, script, settings),
        Err(status) => Answer::of(report(host, status)),
    }
}

// Reads the source, assembles it, runs its program under the script, and answers with the statement at IR.
fn run_under<const M: u32, H: Host>(
    alloc: Global,
    host: &mut H,
    script: Script,
    settings: Settings,
) -> Answer
    requires size { IsSize M }
    requires lines { All (IsLine (size M)) (lines_left script) }
    ensures promise { ScriptPromise M settings script
        (H.seen host.old) (H.seen host.new) result }
    ensures stays { LeavesUnread reads_program (H.seen host.old).world (H.seen host.new).world }
{
    match read_source::<M, H>(alloc, host) {
        Ok(sound) => {
            let answer = run_assembled::<M, H>(alloc, host, &sound, script, settings);
            with_statement(&sound, answer)
        }
        Err(answer) => answer,
    }
}

// Writes the texts of a source that breaks no rule, and then runs its program. The cards of the deck are those in the hopper.
fn run_assembled<const M: u32, H: Host>(
    alloc: Global,
    host: &mut H,
    sound: &SoundSource,
    script: Script,
    settings: Settings,
) -> Answer
    requires size { IsSize M }
    requires is { IsSoundSource M sound.now }
    requires lines { All (IsLine (size M)) (lines_left script) }
    ensures promise { TurnedPromise M settings script sound.now.source.items
        (H.seen host.old) (H.seen host.new) result }
    ensures stays { LeavesUnread reads_feed (H.seen host.old).world (H.seen host.new).world }
{
    match write_source::<M, H>(alloc, host, sound, settings.form) {
        Ok(cards) => run_program::<M, H>(alloc, host, cards, script, settings),
        Err(status) => Answer::of(status),
    }
}
