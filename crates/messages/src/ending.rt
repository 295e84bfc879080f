// The message about a job.
// Source: this project's own.
ghost use Rattle.std.specs.Prelude.{◌≡◌, ◌≤◌, ◌<◌, ◌++◌, true, length, option_copied};
ghost use Rattle.arrayvec.specs.ArrayString.{array_string_len};
ghost use Rattle.messages.specs.Said.{is_whole};
ghost use Rattle.messages.specs.Ending.{cards_were, has_no_bad, is_good, is_quiet, last_lines, leaves_machine, lost_line, shown_line, shown_of, IsMessageOf};

use crate::console::{LAST_ROOM, LastLines, console_line, push_count};
use crate::mistaken::{say_deck, say_source};
use crate::said::{FRONT_ROOM, Said};
use crate::statuses::say_status;
use crate::words::{Cells, Named, SOME_FILE};
use arrayvec::ArrayString;
use card_code::Tally;
use command_line::Read;
use cpu_step::Console;
use ibm1620_cli::{Answer, Status};
use outside_io::{Trouble, Unit};

/// How many bytes a message has at most.
pub const ROOM: usize = FRONT_ROOM + LAST_ROOM;

/// The ending of a job: all that a message depends on, except its words.
#[derive(Clone, Copy)]
pub struct JobEnding<'a> {
    /// How the job ended.
    pub status: Status,
    /// The answer of the program's call.
    pub answer: &'a Answer,
    /// The last failure of the host, if a call failed.
    pub trouble: Option<&'a Trouble>,
    /// Whether the user asks for the console, however the job ended.
    pub asks_console: bool,
    /// How many cards were punched to no file.
    pub lost_cards: u64,
}

/// The message about a job, by the words in `read`: whole lines, or None if there is nothing to say.
///
/// There is nothing to say if the job went well, read no bad character and lost no card, and no console is shown. Otherwise the message has at least
/// one line: what happened and what to do next, the bad characters, and the statement at IR. The last lines are the console's line, if the job leaves
/// a machine for its operator or the user asks for the console, and how many cards were punched to no file. The call takes no memory.
pub fn message(ending: &JobEnding<'_>, read: &Read<'_>) -> Option<ArrayString<ROOM>>
    ensures { IsMessageOf ending.now result }
{
    if is_quiet(ending) {
        return None;
    }
    let last = last_lines(ending);
    let first = first_lines(ending, read, last.is_empty());
    let mut text = ArrayString::new();
    text.push_str(first.as_str());
    text.push_str(last.as_str());
    Some(text)
}

// The lines before the last lines. If there are no last lines (`are_all`), there is at least one line.
fn first_lines(ending: &JobEnding<'_>, read: &Read<'_>, are_all: bool) -> Said
    ensures { are_all ≡ true → 0 < length result.text.bytes }
{
    let mut said = front_of(ending, read);
    if are_all && said.is_empty() {
        let code = ending.status.code();
        said.line(format_args!("the job ended with code {code}"));
    }
    said
}

/// Whether there is nothing to say about a job.
pub fn is_quiet(ending: &JobEnding<'_>) -> bool
    ensures { result ≡ is_quiet ending.now }
{
    is_good(ending.status)
        && has_no_bad(&ending.answer.console)
        && shown_console(ending).is_none()
        && ending.lost_cards == 0
}

// Whether no bad character was read.
fn has_no_bad(console: &Option<Console>) -> bool
    ensures { result ≡ has_no_bad console.now }
{
    match console {
        Some(console) => console.bad_cards.first.is_none() && console.bad_keys.first.is_none(),
        None => true,
    }
}

// Whether a job with this status went well.
fn is_good(status: Status) -> bool
    ensures { result ≡ is_good status }
{
    matches!(
        status,
        Status::Halted { .. }
            | Status::Assembled { .. }
            | Status::Generated { .. }
            | Status::Placed { .. }
            | Status::SessionEnded
    )
}

// Whether a job with this status leaves a machine for its operator: the machine neither halted nor ended a session.
fn leaves_machine(status: Status) -> bool
    ensures { result ≡ leaves_machine status }
{
    matches!(
        status,
        Status::CheckStop { .. }
            | Status::Limit { .. }
            | Status::NeedCards { .. }
            | Status::NeedKeys { .. }
            | Status::Jam { .. }
            | Status::HostFault
    )
}

// The console, if it is shown: the job leaves a machine for its operator, or the user asks for the console.
fn shown_console<'a>(ending: &JobEnding<'a>) -> Option<&'a Console>
    ensures { option_copied result ≡ shown_of ending.now }
{
    match &ending.answer.console {
        Some(shown) if ending.asks_console || leaves_machine(ending.status) => Some(shown),
        _ => None,
    }
}

// What happened, a file of another kind, bad characters, and the statement at IR. Rows (docs/program-rows.txt) fix these lines.
fn front_of(ending: &JobEnding<'_>, read: &Read<'_>) -> Said {
    let mut said = Said::new();
    say_status(&mut said, ending, read);
    say_mistaken(&mut said, ending.status, ending.answer, read);
    if let Some(console) = &ending.answer.console {
        say_bad(&mut said, console.bad_cards, read);
        say_bad(&mut said, console.bad_keys, read);
    }
    if let (Some(_), Some(line)) = (shown_console(ending), &ending.answer.statement) {
        let statement = line.statement;
        let cells = Cells(line.text.as_slice());
        said.line(format_args!("statement {statement} stands at IR:"));
        said.line(cells);
    }
    said
}

// Says that a file looks like a file of another kind, if it does.
fn say_mistaken(said: &mut Said, status: Status, answer: &Answer, read: &Read<'_>) {
    match (status, &answer.refusal, &answer.console) {
        (Status::Refused { .. }, Some(line), _) => {
            say_deck(said, read.file(Unit::Source).unwrap_or(SOME_FILE), line);
        }
        (
            Status::CheckStop {
                at: 0,
                steps: 1,
                ..
            },
            _,
            Some(console),
        ) => {
            if let (Some(file), Some(cells)) = (read.file(Unit::Deck), console.cells) {
                say_source(said, file, cells, console.bad_cards.first);
            }
        }
        _ => (),
    }
}

// Says which bad characters were read: the first of them, and how many more there were.
fn say_bad(said: &mut Said, tally: Tally, read: &Read<'_>) {
    if let Some(first) = tally.first {
        let named = Named::of(read, first.unit);
        let line = first.line;
        let column = first.column;
        let bytes = [first.byte];
        let cell = Cells(&bytes);
        let more = tally.count.saturating_sub(1);
        said.line(format_args!(
            "{named}: line {line}, column {column}: the machine has no {cell} as it was read there: it read zeros, and turned 06 on"
        ));
        if more != 0 {
            said.line(format_args!("{more} more such characters were read there"));
        }
    }
}

// The last lines of a message: the console's line, if the console is shown, and the line of lost cards.
fn last_lines(ending: &JobEnding<'_>) -> LastLines
    ensures is { result.bytes ≡ last_lines ending.now }
    ensures whole { is_whole result.bytes ≡ true }
{
    let mut lines = shown_line(shown_console(ending));
    push_lost(&mut lines, ending.lost_cards);
    lines
}

// The console's line, if the console is shown.
#[tactic(auto, unfolding(crate::specs::Said::is_whole))]
fn shown_line(shown: Option<&Console>) -> LastLines
    ensures is { result.bytes ≡ shown_line (option_copied shown.entry) }
    ensures len { array_string_len result ≤ 700 }
    ensures whole { is_whole result.bytes ≡ true }
{
    match shown {
        None => LastLines::new(),
        Some(console) => console_line(console),
    }
}

// Adds the line that says how many cards were punched to no file; nothing if `cards` is 0.
fn push_lost(lines: &mut LastLines, cards: u64)
    requires { array_string_len lines.old ≤ 700 }
    ensures bytes { lines.new.bytes ≡ lines.old.bytes ++ lost_line cards }
    ensures whole { is_whole lines.old.bytes ≡ true → is_whole lines.new.bytes ≡ true }
{
    if cards == 0 {
        return;
    }
    lines.push_str("ibm1620: ");
    push_count(lines, cards);
    lines.push_str(cards_were(cards));
    lines.push_str(" punched to no file: --punched FILE keeps them");
    lines.push_str("\n");
}

// The words after the count of lost cards.
fn cards_were(cards: u64) -> &'static str
    ensures is { result.now ≡ cards_were cards }
    ensures short { length result.now ≤ 11 }
{
    if cards == 1 {
        " card was"
    } else {
        " cards were"
    }
}
