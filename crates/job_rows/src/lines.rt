// The lines of a row.
use outside_io::{ALL_SECTORS, Unit};

// A line of a row, with its text or number.
pub(crate) enum RowLine<'a> {
    // What the row shows, in plain words.
    Row(&'a str),
    // The words of the command line.
    Words(&'a str),
    // A line of the file of a unit.
    Text(Unit, &'a str),
    // A line of the file of a unit, a number of times, each with its number.
    Times(u32, Unit, &'a str),
    // The object deck of the row before is added to the deck.
    Object,
    // The pack's file has the sectors that the row before left on its pack.
    Sectors,
    // A sector that is written before the job begins.
    Sector(u32, &'a str),
    // The bytes that each output takes.
    Room(u32),
    // The number of the call that fails.
    Fail(u32),
    // The outputs whose texts are shown.
    Show(&'a str),
    // The outputs whose bytes are counted.
    Count(&'a str),
    // The parts of the answer that are shown in addition to its status.
    Answer(&'a str),
    // The user asks for the console.
    AsksConsole,
    // The host reveals nothing.
    Quiet,
    // Each call fails, one after another.
    Turns,
}

impl<'a> RowLine<'a> {
    // The line of a text; None if it is not known.
    pub(crate) fn read(text: &'a str) -> Option<RowLine<'a>> {
        let (name, text) = text.split_once('|')?;
        match name {
            "row" => Some(RowLine::Row(text)),
            "words" => Some(RowLine::Words(text)),
            "times" => times(text),
            "sector" => sector(text),
            "room" => Some(RowLine::Room(text.parse().ok()?)),
            "fail" => Some(RowLine::Fail(text.parse().ok()?)),
            "show" => Some(RowLine::Show(text)),
            "count" => Some(RowLine::Count(text)),
            "object" | "sectors" | "quiet" | "turns" if !text.is_empty() => None,
            "answer" => Some(RowLine::Answer(text)),
            "asks" if text == "console" => Some(RowLine::AsksConsole),
            "object" => Some(RowLine::Object),
            "sectors" => Some(RowLine::Sectors),
            "quiet" => Some(RowLine::Quiet),
            "turns" => Some(RowLine::Turns),
            _ => Some(RowLine::Text(file_named(name)?, text)),
        }
    }
}

// A line of a file, after the number of times that it is there.
fn times(text: &str) -> Option<RowLine<'_>> {
    let (times, line) = text.split_once('|')?;
    let (name, text) = line.split_once('|')?;
    Some(RowLine::Times(times.parse().ok()?, file_named(name)?, text))
}

// The text of a sector, after its number.
fn sector(text: &str) -> Option<RowLine<'_>> {
    let (number, text) = text.split_once('|')?;
    let number: u32 = number.parse().ok()?;
    if (number as usize) < ALL_SECTORS {
        Some(RowLine::Sector(number, text))
    } else {
        None
    }
}

// The file of this name, for an input or the pack; the row and the words both name it by its unit's word.
fn file_named(name: &str) -> Option<Unit> {
    for unit in Unit::ALL {
        if !unit.is_output() && unit.word() == name {
            return Some(unit);
        }
    }
    None
}

// The output of this name, which is the unit's word.
pub(crate) fn output_named(name: &str) -> Option<Unit> {
    for unit in Unit::ALL {
        if unit.is_output() && unit.word() == name {
            return Some(unit);
        }
    }
    None
}
