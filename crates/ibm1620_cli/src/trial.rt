// The job trial: a source is made from two numbers, assembled and run, and a line reports its numbers, cards and steps.
ghost use Rattle.std.specs.Prelude.{◌≡◌};
ghost use Rattle.digit_core.specs.Size.{size};
ghost use Rattle.ibm1620_cli.specs.TrialJob.{TriesSource, TriesAssembled, trial_line, trial_modules, steps_of};
ghost use Rattle.command_line.specs.Numbers.{AreNumbers};
ghost use Rattle.ibm1620_cli.specs.Inputs.{reads_feed};
ghost use Rattle.ibm1620_cli.specs.Parts.{IsSoundSource, ReportsTrial, LeavesUnread};

use crate::answer::Answer;
use crate::execute::no_script;
use crate::program::run_program;
use crate::source::{SoundSource, assemble_or_refuse, write_source};
use crate::standing::with_statement;
use crate::status::Status;
use arrayvec::ArrayString;
use command_line::{STANDARD_LIMIT, Settings};
use deck_punch::DeckForm;
use outside_io::{Host, Sent, Unit, write_all};
use report_lines::{LONGEST_LINE, push_count, push_number};
use sps_generator::generate;
use std::alloc::Global;

// Makes a source from two numbers, assembles it, runs its program, and answers with the statement at IR.
pub(crate) fn try_source<H: Host>(alloc: Global, host: &mut H, settings: Settings) -> Answer
    requires fits { AreNumbers settings.statements settings.number }
    ensures promise { TriesSource settings (H.seen host.old) (H.seen host.new) result }
    ensures stays { LeavesUnread reads_feed (H.seen host.old).world (H.seen host.new).world }
{
    let source = match generate(alloc, settings.statements, settings.number) {
        Ok(source) => source,
        Err(_) => return Answer::of(Status::OutOfMemory),
    };
    match assemble_or_refuse::<1, H>(alloc, host, source) {
        Ok(sound) => {
            let answer = try_assembled(alloc, host, &sound, settings);
            with_statement(&sound, answer)
        }
        Err(answer) => answer,
    }
}

// Writes the texts of a source that breaks no rule, runs its program, and adds the line of the trial.
fn try_assembled<H: Host>(
    alloc: Global,
    host: &mut H,
    sound: &SoundSource,
    settings: Settings,
) -> Answer
    requires is { IsSoundSource trial_modules sound.now }
    ensures promise { TriesAssembled settings sound.now.source.items
        (H.seen host.old) (H.seen host.new) result }
    ensures stays { LeavesUnread reads_feed (H.seen host.old).world (H.seen host.new).world }
{
    let script = match no_script(alloc) {
        Ok(script) => script,
        Err(_) => return Answer::of(Status::OutOfMemory),
    };
    let run = Settings {
        limit: STANDARD_LIMIT,
        form: DeckForm::SelfLoading,
        ..settings
    };
    match write_source::<1, H>(alloc, host, sound, run.form) {
        Ok(cards) => {
            let count = cards.len() as u32;
            let ran = run_program::<1, H>(alloc, host, cards, script, run);
            let status = report_trial(host, ran.status, settings, count);
            Answer { status, ..ran }
        }
        Err(status) => Answer::of(status),
    }
}

// Adds the line of a trial after the report line of a status that counts steps.
fn report_trial<H: Host>(host: &mut H, status: Status, settings: Settings, cards: u32) -> Status
    ensures { ReportsTrial settings cards
        (H.seen host.old) (H.seen host.new) status result }
{
    let Some(steps) = steps_of(status) else {
        return status;
    };
    let line = trial_line(settings, cards, steps);
    match write_all(host, Unit::Report, line.as_bytes()) {
        Sent::Done => status,
        Sent::Failed => Status::HostFault,
    }
}

// The steps that a status counts.
fn steps_of(status: Status) -> Option<u64>
    ensures { result ≡ steps_of status }
{
    match status {
        Status::Halted { steps, .. }
        | Status::CheckStop { steps, .. }
        | Status::Limit { steps }
        | Status::NeedCards { steps, .. }
        | Status::NeedKeys { steps, .. } => Some(steps),
        _ => None,
    }
}

// The line of a trial.
fn trial_line(settings: Settings, cards: u32, steps: u64) -> ArrayString<LONGEST_LINE>
    ensures { result.bytes ≡ trial_line settings cards steps }
{
    let mut line = ArrayString::new();
    line.push_str("TRIAL STATEMENTS ");
    push_number(&mut line, settings.statements);
    line.push_str(" NUMBER ");
    push_number(&mut line, settings.number);
    line.push_str(" CARDS ");
    push_number(&mut line, cards);
    line.push_str(" STEPS ");
    push_count(&mut line, steps);
    line
}
