// The options: the slot that each fills, its word, and which of them a command takes.
ghost use Rattle.std.specs.Prelude.{◌≡◌, ◌<◌, ◌++◌, find, option_map, option_and_then};
ghost use Rattle.std.specs.Str.{bytes_eq};
ghost use Rattle.clap.specs.Lexer.{strip_byte};
ghost use Rattle.outside_io.specs.World.{place};
ghost use Rattle.command_line.specs.Options.{slot_place, slot_word, required, optional};
ghost use Rattle.command_line.specs.Words.{slot_of};

use crate::words::Command;
use outside_io::{UNIT_COUNT, Unit};

// A slot: the file or the value that an option gives.
#[derive(Clone, Copy)]
pub(crate) enum Slot {
    // The name of the file of a unit.
    File(Unit),
    // The limit of steps.
    Limit,
    // How many statements a source is to have.
    Statements,
    // The number that a source is made by.
    Number,
    // The form of the object deck.
    Form,
    // The size of core.
    Core,
}

pub(crate) const SLOT_COUNT: usize = UNIT_COUNT + 5;

impl Slot {
    // The slot's place in the map.
    pub(crate) fn place(self) -> usize
        ensures is { result ≡ slot_place self }
        ensures below { result < SLOT_COUNT }
    {
        match self {
            Slot::File(unit) => unit.place(),
            Slot::Limit => UNIT_COUNT,
            Slot::Statements => UNIT_COUNT + 1,
            Slot::Number => UNIT_COUNT + 2,
            Slot::Form => UNIT_COUNT + 3,
            Slot::Core => UNIT_COUNT + 4,
        }
    }

    // The word of its option, without the two hyphens.
    pub(crate) fn word(self) -> &'static str
        ensures { result.now ≡ slot_word self }
    {
        match self {
            Slot::File(unit) => unit.word(),
            Slot::Limit => "limit",
            Slot::Statements => "statements",
            Slot::Number => "number",
            Slot::Form => "form",
            Slot::Core => "core",
        }
    }
}

// The slot at a place of the map.
pub(crate) fn slot_at(place: usize) -> Slot
    requires { place < SLOT_COUNT }
    ensures { slot_place result ≡ place }
{
    if place < UNIT_COUNT {
        return Slot::File(Unit::ALL[place]);
    }
    match place - UNIT_COUNT {
        0 => Slot::Limit,
        1 => Slot::Statements,
        2 => Slot::Number,
        3 => Slot::Form,
        _ => Slot::Core,
    }
}

// The slots of an assembly, next to the source.
const ASSEMBLY: [Slot; 4] = [
    Slot::File(Unit::Object),
    Slot::File(Unit::Image),
    Slot::File(Unit::Listing),
    Slot::Form,
];

// The slots of the machine, next to the deck.
const MACHINE: [Slot; 7] = [
    Slot::File(Unit::Data),
    Slot::File(Unit::Keys),
    Slot::File(Unit::Script),
    Slot::File(Unit::Pack),
    Slot::File(Unit::Punched),
    Slot::File(Unit::Typed),
    Slot::Limit,
];

// A report, and the size of core.
const COMMON: [Slot; 2] = [Slot::File(Unit::Report), Slot::Core];

const SOURCE: [Slot; 1] = [Slot::File(Unit::Source)];

const DECK: [Slot; 1] = [Slot::File(Unit::Deck)];

const SOURCE_AND_COMMANDS: [Slot; 2] = [Slot::File(Unit::Source), Slot::File(Unit::Commands)];

const SOURCE_AND_PACK: [Slot; 2] = [Slot::File(Unit::Source), Slot::File(Unit::Pack)];

const BOTH_NUMBERS: [Slot; 2] = [Slot::Statements, Slot::Number];

const MADE_AND_REPORT: [Slot; 2] = [Slot::File(Unit::Made), Slot::File(Unit::Report)];

const REPORT: [Slot; 1] = [Slot::File(Unit::Report)];

const OBJECT_AND_IMAGE: [Slot; 2] = [Slot::File(Unit::Object), Slot::File(Unit::Image)];

const NONE: [Slot; 0] = [];

// The slots that the words must fill.
pub(crate) fn required(command: Command) -> &'static [Slot]
    ensures { result.now ≡ required command }
{
    match command {
        Command::Assemble | Command::Run => &SOURCE,
        Command::Load => &DECK,
        Command::Debug => &SOURCE_AND_COMMANDS,
        Command::Generate | Command::Trial => &BOTH_NUMBERS,
        Command::Disk => &SOURCE_AND_PACK,
    }
}

// The slots that the words may fill, by groups.
#[derive(Clone, Copy)]
pub(crate) struct Groups {
    pub(crate) assembly: &'static [Slot],
    pub(crate) machine: &'static [Slot],
    pub(crate) others: &'static [Slot],
}

pub(crate) fn optional(command: Command) -> Groups
    ensures { result.assembly.now ++ (result.machine.now ++ result.others.now)
        ≡ optional command }
{
    match command {
        Command::Assemble => Groups {
            assembly: &ASSEMBLY,
            machine: &NONE,
            others: &COMMON,
        },
        Command::Load => Groups {
            assembly: &NONE,
            machine: &MACHINE,
            others: &COMMON,
        },
        Command::Run | Command::Debug => Groups {
            assembly: &ASSEMBLY,
            machine: &MACHINE,
            others: &COMMON,
        },
        Command::Generate => Groups {
            assembly: &NONE,
            machine: &NONE,
            others: &MADE_AND_REPORT,
        },
        Command::Trial => Groups {
            assembly: &NONE,
            machine: &NONE,
            others: &REPORT,
        },
        Command::Disk => Groups {
            assembly: &OBJECT_AND_IMAGE,
            machine: &NONE,
            others: &COMMON,
        },
    }
}

// The word after a first hyphen.
fn without_hyphen(word: &str) -> Option<&str>
    ensures { option_map (λ s. s.now) result ≡ strip_byte 45 word.now }
{
    word.strip_prefix('-')
}

// The word after the two hyphens of an option.
fn without_hyphens(option: &str) -> Option<&str>
    ensures { option_map (λ s. s.now) result
        ≡ option_and_then (strip_byte 45) (strip_byte 45 option.now) }
{
    without_hyphen(without_hyphen(option)?)
}

// The slot of a word among these.
fn slot_among(slots: &[Slot], word: &str) -> Option<Slot>
    ensures { result ≡ find (λ slot. bytes_eq (slot_word slot) word.now) slots.now }
{
    for slot in slots {
        if slot.word() == word {
            return Some(*slot);
        }
    }
    None
}

// The slot of an option that the command takes.
pub(crate) fn slot_of(command: Command, option: &str) -> Option<Slot>
    ensures { result ≡ slot_of command option.now }
{
    let word = without_hyphens(option)?;
    let groups = optional(command);
    let needed = slot_among(required(command), word);
    let assembly = slot_among(groups.assembly, word);
    let machine = slot_among(groups.machine, word);
    let others = slot_among(groups.others, word);
    needed.or(assembly).or(machine).or(others)
}
