// The job debug: the script, the commands and the source are read, the source is assembled, its deck is loaded, and the commands are
// carried out.
ghost use Rattle.std.specs.Prelude.{All};
ghost use Rattle.digit_core.specs.Size.{IsSize, size};
ghost use Rattle.operator_script.specs.Scripts.{IsLine, lines_left};
ghost use Rattle.sps_listing.specs.Listing.{placed_texts};
ghost use Rattle.ibm1620_cli.specs.DebugJob.{DebugsSource, DebugsUnder, DebugsBy, DebugsAssembled};
ghost use Rattle.ibm1620_cli.specs.Inputs.{debug_reads, reads_feed, reads_program, reads_session};
ghost use Rattle.ibm1620_cli.specs.Parts.{IsSoundSource, ReadsCommands, AreReady, HoldsSession, LeavesUnread};

use crate::answer::Answer;
use crate::load::read_script;
use crate::reading::read_text;
use crate::report::report;
use crate::source::{SoundSource, read_source, write_source};
use crate::standing::with_statement;
use crate::status::Status;
use card_unit::Hopper;
use command_line::Settings;
use console_debug::{CommandFault, Commands, SessionEnd, session};
use cpu_step::{Machine, Turned};
use digit_core::MODULE;
use operator_script::Script;
use outside_io::{Host, Unit};
use rewind_log::Rewind;
use sps_pass_two::Assembled;
use std::alloc::Global;

// How many bytes commands have at most.
const LONGEST_COMMANDS: usize = 1_000_000;

// The inputs of a session next to its program: the operator's script, the debugger's commands, and the settings.
#[derive(Drop)]
struct Given {
    script: Script,
    commands: Commands,
    settings: Settings,
}

// Reads the script, the commands and the source, assembles it, and carries the commands out over its program.
pub(crate) fn debug_source<const M: u32, H: Host>(
    alloc: Global,
    host: &mut H,
    settings: Settings,
) -> Answer
    requires size { IsSize M }
    ensures promise { DebugsSource M settings (H.seen host.old) (H.seen host.new) result }
    ensures stays { LeavesUnread debug_reads (H.seen host.old).world (H.seen host.new).world }
{
    match read_script::<M, H>(alloc, host) {
        Ok(script) => debug_under::<M, H>(alloc, host, script, settings),
        Err(status) => Answer::of(report(host, status)),
    }
}

// Reads the commands and the source, assembles it, and carries the commands out under the script.
fn debug_under<const M: u32, H: Host>(
    alloc: Global,
    host: &mut H,
    script: Script,
    settings: Settings,
) -> Answer
    requires size { IsSize M }
    requires lines { All (IsLine (size M)) (lines_left script) }
    ensures promise { DebugsUnder M settings script
        (H.seen host.old) (H.seen host.new) result }
    ensures stays { LeavesUnread reads_session (H.seen host.old).world (H.seen host.new).world }
{
    match read_commands::<M, H>(alloc, host) {
        Ok(commands) => {
            let given = Given {
                script,
                commands,
                settings,
            };
            debug_by::<M, H>(alloc, host, given)
        }
        Err(status) => Answer::of(report(host, status)),
    }
}

// Reads the debugger's commands; the error is the status of a job without them.
fn read_commands<const M: u32, H: Host>(alloc: Global, host: &mut H) -> Result<Commands, Status>
    requires { IsSize M }
    ensures { ReadsCommands M (H.seen host.old) (H.seen host.new) result }
{
    let bytes = match read_text(alloc, host, Unit::Commands, LONGEST_COMMANDS) {
        Ok(bytes) => bytes,
        Err(status) => return Err(status),
    };
    match Commands::read(alloc, &bytes, M * MODULE) {
        Ok(commands) => Ok(commands),
        Err(CommandFault::BadLine(line)) => Err(Status::BadCommand { line }),
        Err(CommandFault::Memory) => Err(Status::OutOfMemory),
    }
}

// Reads the source, assembles it, carries the commands out over its program, and answers with the statement at IR.
fn debug_by<const M: u32, H: Host>(alloc: Global, host: &mut H, given: Given) -> Answer
    requires size { IsSize M }
    requires lines { All (IsLine (size M)) (lines_left given.script) }
    requires ready { AreReady M given.commands }
    ensures promise { DebugsBy M given.settings given.script given.commands
        (H.seen host.old) (H.seen host.new) result }
    ensures stays { LeavesUnread reads_program (H.seen host.old).world (H.seen host.new).world }
{
    match read_source::<M, H>(alloc, host) {
        Ok(sound) => {
            let answer = debug_assembled::<M, H>(alloc, host, &sound, given);
            with_statement(&sound, answer)
        }
        Err(answer) => answer,
    }
}

// Writes the texts of a source that breaks no rule, and then carries the commands out over its program. The cards of the deck are those in
// the hopper.
fn debug_assembled<const M: u32, H: Host>(
    alloc: Global,
    host: &mut H,
    sound: &SoundSource,
    given: Given,
) -> Answer
    requires size { IsSize M }
    requires is { IsSoundSource M sound.now }
    requires lines { All (IsLine (size M)) (lines_left given.script) }
    requires ready { AreReady M given.commands }
    ensures promise { DebugsAssembled M given.settings given.script given.commands sound.now.source.items
        (H.seen host.old) (H.seen host.new) result }
    ensures stays { LeavesUnread reads_feed (H.seen host.old).world (H.seen host.new).world }
{
    match write_source::<M, H>(alloc, host, sound, given.settings.form) {
        Ok(cards) => {
            let hopper = Hopper::of_cards(cards);
            hold_session::<M, H>(alloc, host, hopper, &sound.assembled, given)
        }
        Err(status) => Answer::of(status),
    }
}

// Takes memory for the places that a session keeps, powers a machine on over the hopper, presses the Load key, carries the commands out, and
// reports that the session has ended.
fn hold_session<const M: u32, H: Host>(
    alloc: Global,
    host: &mut H,
    hopper: Hopper,
    assembled: &Assembled,
    given: Given,
) -> Answer
    requires size { IsSize M }
    requires lines { All (IsLine (size M)) (lines_left given.script) }
    requires ready { AreReady M given.commands }
    ensures { HoldsSession M given.settings.limit (placed_texts assembled.now) hopper given.script given.commands
        (H.seen host.old) (H.seen host.new) result }
{
    let Given {
        mut script,
        mut commands,
        settings,
    } = given;
    let mut rewind = match Rewind::<M>::new(alloc) {
        Ok(rewind) => rewind,
        Err(_) => return Answer::of(Status::OutOfMemory),
    };
    let mut machine = match Machine::<M>::power_on(alloc, hopper) {
        Ok(machine) => machine,
        Err(_) => return Answer::of(Status::OutOfMemory),
    };
    match machine.load_key(host) {
        Turned::Failed => return Answer::with_console(Status::HostFault, machine.shown()),
        _ => {}
    }
    match session(
        &mut machine,
        &mut script,
        settings.limit,
        assembled,
        &mut commands,
        &mut rewind,
        host,
    ) {
        SessionEnd::Ended => {
            let status = report(host, Status::SessionEnded);
            Answer::with_console(status, machine.shown())
        }
        SessionEnd::Failed => Answer::with_console(Status::HostFault, machine.shown()),
    }
}
