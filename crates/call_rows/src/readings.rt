// Bad characters, the counts of cards and lines that were read, and the console of a machine.
//
// - `bad digits|`, `bad pairs|` shows how many of the 256 bytes are bad as digits or as pairs, and the printable bytes among these
// - `tally|` begins a new tally; `digits of|UNIT|N|TEXT`, `pairs of|UNIT|N|TEXT` adds the bad characters of card or line N of the unit,
//   `deck`, `data` or `keys`, read as digits or as pairs
// - `read|` shows how many cards and lines the machine has read, and their bad characters
// - `console|` shows the console, each of the twelve cells as a number
use crate::desk::Desk;
use crate::lines::{RowLine, number};
use crate::panel::lamps;
use crate::texts::front;
use card_code::{ReadAs, Tally, is_bad};
use cpu_step::Machine;
use outside_io::Unit;
use std::alloc::{AllocError, Global};
use std::io;

// The unit of a name.
fn unit_named(name: &str) -> Option<Unit> {
    match name {
        "deck" => Some(Unit::Deck),
        "data" => Some(Unit::Data),
        "keys" => Some(Unit::Keys),
        _ => None,
    }
}

// Begins a new tally, or adds the bad characters of a text; None if the line is not known.
fn take_up<const M: u32>(desk: &mut Desk<M>, line: &RowLine<'_>) -> Option<()> {
    let how = match line.name {
        "tally" => {
            desk.tally = Tally::new();
            return Some(());
        }
        "digits of" => ReadAs::Digit,
        "pairs of" => ReadAs::Pair,
        _ => return None,
    };
    let unit = unit_named(line.first)?;
    let (at, text) = line.second.split_once('|')?;
    let at = u64::from(number(at)?);
    if text.len() > 80 {
        return None;
    }
    desk.tally.take_up(unit, at, how, text.as_bytes());
    Some(())
}

// How many bad characters there were, and the first of them.
fn tally_text(alloc: Global, tally: &Tally) -> Result<String, AllocError> {
    let count = tally.count;
    match tally.first {
        Some(bad) => {
            let (unit, line, column) = (bad.unit, bad.line, bad.column);
            let shown = front(alloc, &[bad.byte], 1)?;
            format!(in alloc; "{count} first {unit:?} {line} {column} {shown}")
        }
        None => format!(in alloc; "{count}"),
    }
}

// Prints how many bytes are bad as digits or as pairs, and the printable bytes among these.
fn show_bad(rt: &impl Print, alloc: Global, name: &str, how: ReadAs) -> io::Result<()> {
    let mut count: u32 = 0;
    let mut printable = Vec::new(alloc);
    for byte in 0u8..=255 {
        if is_bad(how, byte) {
            count = count.saturating_add(1);
            if (b' '..=b'~').contains(&byte) {
                printable.push(byte)?;
            }
        }
    }
    let printable = front(alloc, &printable, printable.len())?;
    println!(rt; "{name}|{count}|{printable}")
}

// Prints the counts of cards and lines that a machine has read, and their bad characters.
fn show_read<const M: u32>(rt: &impl Print, alloc: Global, machine: &Machine<M>) -> io::Result<()> {
    let cards = machine.hopper.cards_read();
    let (deck, behind, lines) = (cards.of_deck, cards.of_data, machine.keys.handed_out());
    let bad_cards = tally_text(alloc, &machine.hopper.bad_characters())?;
    let bad_lines = tally_text(alloc, &machine.keys.bad_characters())?;
    print!(rt; "read|deck {deck} data {behind} keys {lines}")?;
    println!(rt; "|cards {bad_cards}|keys {bad_lines}")
}

// Prints the console of a machine.
fn show_console<const M: u32>(
    rt: &impl Print,
    alloc: Global,
    machine: &Machine<M>,
) -> io::Result<()> {
    let console = machine.shown();
    let (ir, ir2, arms) = (console.regs.ir, console.regs.ir2, console.arms);
    print!(rt; "console|ir {ir} ir2 {ir2}|")?;
    match console.cells {
        Some(cells) => {
            for cell in cells {
                print!(rt; " {cell}")?;
            }
        }
        None => print!(rt; " none")?,
    }
    print!(rt; "|{}|{arms:?}", lamps(alloc, &console.panel)?)?;
    let (deck, behind, lines) = (console.cards.of_deck, console.cards.of_data, console.lines);
    let bad_cards = tally_text(alloc, &console.bad_cards)?;
    let bad_lines = tally_text(alloc, &console.bad_keys)?;
    print!(rt; "|deck {deck} data {behind} keys {lines}")?;
    println!(rt; "|cards {bad_cards}|keys {bad_lines}")
}

// Prints bad characters, counts or the console; false if the line is not known.
pub(crate) fn show<const M: u32>(
    rt: &impl Print,
    desk: &mut Desk<M>,
    line: &RowLine<'_>,
) -> io::Result<bool> {
    let alloc = desk.alloc;
    if let Some(()) = take_up(desk, line) {
        println!(rt; "{}|{}", line.text, tally_text(alloc, &desk.tally)?)?;
        return Ok(true);
    }
    match line.name {
        "bad digits" => show_bad(rt, alloc, line.name, ReadAs::Digit)?,
        "bad pairs" => show_bad(rt, alloc, line.name, ReadAs::Pair)?,
        "read" => show_read(rt, alloc, &desk.machine)?,
        "console" => show_console(rt, alloc, &desk.machine)?,
        _ => return Ok(false),
    }
    Ok(true)
}
