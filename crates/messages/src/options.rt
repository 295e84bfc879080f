// The options as the usage shows them: the placeholder of the value, the kind of value, the commands that take the option, and what it is.
use command_line::Command;

// What the value of an option has to be.
#[derive(Clone, Copy)]
pub(crate) enum ValueKind {
    // A file that is read.
    Input,
    // A file that is written.
    Output,
    // The file of the disk's pack.
    Pack,
    // A number from the least to the most.
    Number(u64, u64),
    // The form of an object deck.
    Form,
    // A size of core.
    Core,
}

use ValueKind::{Core, Form, Input, Number, Output, Pack};

// An option: its word without the two hyphens, the placeholder of its value, the kind of value, a mark for each command, and what the option is.
// The marks are in the order of `COMMANDS`: `R` if the command needs the option, `o` if it may have the option, and `.` if it does not take it.
pub(crate) type OptionRow = (
    &'static str,
    &'static str,
    ValueKind,
    &'static str,
    &'static str,
);

const LIMIT: ValueKind = Number(0, 999_999_999_999_999);

// All options, in the order in which the usage of a command shows them.
pub(crate) static OPTIONS: [OptionRow; 25] = [
    ("source", "FILE", Input, "R.RR..R", "the source"),
    (
        "commands",
        "FILE",
        Input,
        "...R...",
        "the debugger's commands, one on a line",
    ),
    ("deck", "FILE", Input, ".R.....", "the cards of the deck"),
    (
        "statements",
        "N",
        Number(8, 1_600),
        "....RR.",
        "how many statements, 8 to 1600",
    ),
    (
        "number",
        "K",
        Number(0, 999_999),
        "....RR.",
        "what it is made by, 0 to 999999",
    ),
    (
        "pack",
        "FILE",
        Pack,
        "......R",
        "takes the sectors; made if it is not there",
    ),
    (
        "object",
        "FILE",
        Output,
        "o.oo...",
        "gets the object deck; without it the deck is dropped",
    ),
    (
        "object",
        "FILE",
        Output,
        "......o",
        "gets the bootstrap deck; without it the deck is dropped",
    ),
    (
        "image",
        "FILE",
        Output,
        "o.oo..o",
        "gets the image; without it the image is dropped",
    ),
    (
        "listing",
        "FILE",
        Output,
        "o.oo...",
        "gets the listing; without it the listing is dropped",
    ),
    (
        "form",
        "FORM",
        Form,
        "o.oo...",
        "the form of the object deck, self or dense; self without it",
    ),
    (
        "core",
        "N",
        Core,
        "o.oo..o",
        "core's positions: 20000, 40000 or 60000; 20000 without it",
    ),
    (
        "data",
        "FILE",
        Input,
        ".ooo...",
        "the cards behind the deck",
    ),
    (
        "limit",
        "N",
        LIMIT,
        "..o....",
        "the most steps of the program; 1000000 without it",
    ),
    (
        "limit",
        "N",
        LIMIT,
        "...o...",
        "the greatest number of steps, those of the deck included",
    ),
    (
        "keys",
        "FILE",
        Input,
        ".ooo...",
        "the lines of the keyboard",
    ),
    (
        "script",
        "FILE",
        Input,
        ".ooo...",
        "the operator's script; without it the operator does nothing",
    ),
    (
        "pack",
        "FILE",
        Pack,
        ".ooo...",
        "the disk's pack, read and written; made if it is not there",
    ),
    (
        "limit",
        "N",
        LIMIT,
        ".o.....",
        "the greatest number of steps; 1000000 without it",
    ),
    (
        "core",
        "N",
        Core,
        ".o.....",
        "core's positions: 20000, 40000 or 60000; 20000 without it",
    ),
    (
        "punched",
        "FILE",
        Output,
        ".ooo...",
        "gets the punched cards; without it they are dropped",
    ),
    (
        "typed",
        "FILE",
        Output,
        ".ooo...",
        "gets what the machine types",
    ),
    (
        "made",
        "FILE",
        Output,
        "....o..",
        "gets the source; without it the source is dropped",
    ),
    ("report", "FILE", Output, "ooo.ooo", "gets the report line"),
    (
        "report",
        "FILE",
        Output,
        "...o...",
        "gets what the commands print, and the report line",
    ),
];

// Whether a command needs the option.
pub(crate) fn is_needed(row: &OptionRow, command: Command) -> bool {
    mark_of(row, command) == b'R'
}

// Whether a command takes the option.
pub(crate) fn is_taken(row: &OptionRow, command: Command) -> bool {
    mark_of(row, command) != b'.'
}

fn mark_of(row: &OptionRow, command: Command) -> u8 {
    match row.3.as_bytes().get(place_of(command)) {
        Some(mark) => *mark,
        None => b'.',
    }
}

// The place of a command in `COMMANDS`, from 0.
fn place_of(command: Command) -> usize {
    match command {
        Command::Assemble => 0,
        Command::Load => 1,
        Command::Run => 2,
        Command::Debug => 3,
        Command::Generate => 4,
        Command::Trial => 5,
        Command::Disk => 6,
    }
}

// The word of a command.
pub(crate) fn word_of(command: Command) -> &'static str {
    match command {
        Command::Assemble => "assemble",
        Command::Load => "load",
        Command::Run => "run",
        Command::Debug => "debug",
        Command::Generate => "generate",
        Command::Trial => "trial",
        Command::Disk => "disk",
    }
}

// The option of this word that a command takes.
pub(crate) fn option_of(command: Command, word: &str) -> Option<&'static OptionRow> {
    for row in &OPTIONS {
        if row.0 == word && is_taken(row, command) {
            return Some(row);
        }
    }
    None
}

// Whether some command takes an option of this word.
pub(crate) fn is_option(word: &str) -> bool {
    for row in &OPTIONS {
        if row.0 == word {
            return true;
        }
    }
    false
}
