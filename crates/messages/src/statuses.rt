// What the message says about the end of a job, by its status.
// Source: this project's own.
use crate::checks::{meaning, say_part, what_to_look_at};
use crate::ending::JobEnding;
use crate::faults::say_trouble;
use crate::misuse::say_misuse;
use crate::refused::say_refused;
use crate::said::Said;
use crate::words::{Escaped, Named, SOME_FILE};
use addr_indirect::Stop;
use command_line::{CoreSize, Read};
use digit_core::MODULE;
use ibm1620_cli::Status;
use outside_io::Unit;
use sps_ops::{Rule, Sentence};

// Says how a job ended, and what to do next; nothing if the job went well.
pub(crate) fn say_status(said: &mut Said, ending: &JobEnding<'_>, read: &Read<'_>) {
    match ending.status {
        Status::Halted { .. }
        | Status::Assembled { .. }
        | Status::Generated { .. }
        | Status::Placed { .. }
        | Status::SessionEnded => (),
        Status::Usage => say_misuse(said, read.words),
        Status::OutOfMemory => said.line("there was not enough memory: free some and try again"),
        Status::HostFault => match ending.trouble {
            None => said.line("a file could not be opened, read or written"),
            Some(trouble) => say_trouble(said, trouble, fault_file(read, trouble.unit)),
        },
        Status::Limit { steps } => say_limit(said, steps, read),
        Status::NeedCards { at, .. } => say_need_cards(said, at, read),
        Status::NeedKeys { at, .. } => {
            let keys = Named::of(read, Unit::Keys);
            said.line(format_args!("no line of the keyboard was left to be read, at {at:05}"));
            said.line(format_args!("put more lines into {keys}"));
        }
        Status::Jam { unit, line } => {
            let file = Named::of(read, unit);
            said.line(format_args!("{file}: line {line} is over 80 bytes"));
            said.line("cut it: a card, or a line of the keyboard, has no more than 80");
        }
        Status::BadScript { line } => {
            let file = Named::of(read, Unit::Script);
            said.line(format_args!("{file}: line {line} is no line of a script"));
            said.line("write it like AT 0 SWITCH 1 ON or HALT START; see docs/formats.md");
        }
        Status::BadCommand { line } => {
            let file = Named::of(read, Unit::Commands);
            said.line(format_args!("{file}: line {line} is no command of the debugger"));
            said.line("write it like BREAK 7, GO or SHOW 402 12; see docs/debugger.md");
        }
        Status::TooLong { unit } => {
            let file = Named::of(read, unit);
            let most = match unit {
                Unit::Script | Unit::Commands => "1,000,000",
                _ => "4,000,000",
            };
            said.line(format_args!("{file}: has too many bytes"));
            said.line(format_args!("shorten it: it may have {most} bytes"));
        }
        Status::CheckStop { kind, at, .. } => say_check(said, kind, at, ending, read),
        Status::Refused { statement, rule } => say_refusal(said, statement, rule, ending, read),
    }
}

// The name of the file at which the host failed. If memory was lacking to read the words, the name is not known: the answer is FILE.
fn fault_file<'a>(read: &Read<'a>, unit: Unit) -> Option<&'a str> {
    match &read.said {
        Ok(_) => read.file(unit),
        Err(_) => Some(SOME_FILE),
    }
}

// Says that the program reached the limit, and how to see the last steps, if the words name a deck or a source.
fn say_limit(said: &mut Said, steps: u64, read: &Read<'_>) {
    said.line(format_args!("the limit of {steps} steps was reached, and the program would run on"));
    said.line("--limit N sets a greater one, if the program does not loop");
    if let Some(deck) = read.file(Unit::Deck) {
        let deck = Escaped(deck);
        said.line(format_args!("bin/trace --deck {deck} --last 10 shows the last steps"));
    } else if let Some(source) = read.file(Unit::Source) {
        let source = Escaped(source);
        said.line(format_args!("bin/trace {source} --last 10 shows the last steps"));
    }
}

// Says that no card was left, and into which file more cards can go.
fn say_need_cards(said: &mut Said, at: u32, read: &Read<'_>) {
    let cards = Named::of(read, Unit::Data);
    said.line(format_args!("no card was left to be read, at {at:05}"));
    match read.file(Unit::Deck) {
        None => said.line(format_args!("put more cards into {cards}")),
        Some(deck) => {
            let deck = Escaped(deck);
            said.line(format_args!(
                "put more cards behind those of --deck {deck}, or into {cards}"
            ));
        }
    }
}

// Says which check stopped the machine, which part of the instruction it is about, and what to look at.
fn say_check(said: &mut Said, kind: Stop, at: u32, ending: &JobEnding<'_>, read: &Read<'_>) {
    let number = kind.number();
    let meaning = meaning(kind);
    let advice = what_to_look_at(kind);
    match kind {
        Stop::Parity(cell) | Stop::Value(cell) => {
            said.line(format_args!(
                "check {number:02}: {meaning} in the cell {cell:05}, at {at:05}"
            ));
        }
        _ => said.line(format_args!("check {number:02}: {meaning}, at {at:05}")),
    }
    if let Some(console) = &ending.answer.console {
        if let Some(part) = console.part {
            say_part(said, kind, at, part);
        }
    }
    said.line(advice);
    match (kind, read.core()) {
        (Stop::Address, CoreSize::OneModule) => {
            said.line("where the address lies in a larger core, give --core 40000 or --core 60000");
        }
        (Stop::Address, CoreSize::TwoModules) => {
            said.line("where the address lies in a larger core, give --core 60000");
        }
        _ => (),
    }
}

// Says which statement breaks which rule, shows the statement, and names the page that has the rule.
fn say_refusal(
    said: &mut Said,
    statement: u32,
    rule: Rule,
    ending: &JobEnding<'_>,
    read: &Read<'_>,
) {
    let source = Named::of(read, Unit::Source);
    match rule.sentence() {
        Sentence::Plain(words) => said.line(format_args!(
            "{source}: statement {statement}: {words}"
        )),
        Sentence::WithLast(words, digits) => {
            let last = positions_of(read.core()).saturating_sub(digits);
            said.line(format_args!("{source}: statement {statement}: {words}{last}"));
        }
    }
    if let Some(line) = &ending.answer.refusal {
        say_refused(said, line);
    }
    if let (Rule::UnknownOperation | Rule::UndefinedSymbol, Some(file)) = (
        rule,
        read.file(Unit::Source),
    ) {
        let file = Escaped(file);
        said.line(format_args!("bin/lint {file} shows what else may be the matter"));
    }
    let number = rule.number();
    let name = rule.name();
    said.line(format_args!("mend it; docs/assembler.md has the rule: {number:02} {name}"));
}

fn positions_of(core: CoreSize) -> u32 {
    match core {
        CoreSize::OneModule => MODULE,
        CoreSize::TwoModules => 2 * MODULE,
        CoreSize::ThreeModules => 3 * MODULE,
    }
}
