// Stores and searches in the cells of core.
//
// - `table|` stores the standard add table, `tables|` all standard tables
// - `core|AT|TEXT` stores a text; `flip|AT|BIT` inverts a bit of a cell
// - `keep|` keeps a copy of core; `takes words|I|END` copies the words from I up to END from this copy
// - `copies cells|P|Q|N`
// - `flag below|A`, `mark above|A`, `first bad|A|B`, `changed words|` compared with the kept copy
// - `show|AT|N` shows N digits, `cell|AT` a cell and its bits as a number, `changed|` the cells that differ from the kept copy
// - `zero words|` how many words core has, and how many of them are ten zeros
// - `fills|FROM|TO` the digit of all cells from FROM up to, but not including, TO; `?` if the digits differ
use crate::desk::Desk;
use crate::lines::{RowLine, number, place, two_numbers};
use card_code::object_char;
use core_texts::write;
use digit_core::{Core, standard_digit};
use std::alloc::{AllocError, Global};
use std::io;

// Stores the standard tables from a place on.
fn store_tables<const M: u32>(core: &mut Core<M>, from: u32) -> Option<()> {
    core.size_law();
    for a in 100..400 {
        if a >= from {
            core.put(a, standard_digit(a));
        }
    }
    Some(())
}

// Inverts a bit of a cell; None if there is no such bit.
fn turn<const M: u32>(core: &mut Core<M>, line: &RowLine<'_>) -> Option<()> {
    let at = place(core, line.first)?;
    let bit = number(line.second)?;
    if bit > 5 {
        return None;
    }
    core.flip(at, bit as u8);
    Some(())
}

// Copies cells from one place of core to another.
fn copy<const M: u32>(core: &mut Core<M>, line: &RowLine<'_>) -> Option<()> {
    let size = core.size();
    let p = number(line.first)?;
    let (q, n) = two_numbers(line.second)?;
    if p >= size || q >= size || n == 0 || n > p + 1 || n > q + 1 {
        return None;
    }
    core.copy_cells(p, q, n);
    Some(())
}

// Copies words from the kept copy of core.
fn take_words<const M: u32>(desk: &mut Desk<M>, line: &RowLine<'_>) -> Option<()> {
    let words = desk.kept.size() / 10;
    let i = number(line.first)?;
    let end = number(line.second)?;
    if i > end || end > words {
        return None;
    }
    desk.machine.core.copy_words(&desk.kept, i, end);
    Some(())
}

// Stores something in core; None if the line is not known.
pub(crate) fn set<const M: u32>(desk: &mut Desk<M>, line: &RowLine<'_>) -> Option<()> {
    let core = &mut desk.machine.core;
    match line.name {
        "table" => store_tables(core, 300),
        "tables" => store_tables(core, 100),
        "core" => write(core, number(line.first)?, line.second.as_bytes()).ok(),
        "flip" => turn(core, line),
        "copies cells" => copy(core, line),
        "takes words" => take_words(desk, line),
        "keep" => {
            desk.kept.copy_from(&desk.machine.core);
            Some(())
        }
        _ => None,
    }
}

// The place that a search finds.
fn found<const M: u32>(core: &Core<M>, line: &RowLine<'_>) -> Option<Option<u32>> {
    let a = place(core, line.first)?;
    match line.name {
        "flag below" => Some(core.flag_below(a)),
        "mark above" => Some(core.mark_above(a)),
        "first bad" => Some(core.first_bad(a, place(core, line.second)?)),
        _ => None,
    }
}

// The character of a cell's digit; ? if it can't be read.
pub(crate) fn char_at<const M: u32>(core: &Core<M>, at: u32) -> char {
    if at >= core.size() {
        return '?';
    }
    match core.get(at) {
        Ok(digit) => char::from(object_char(digit)),
        Err(_) => '?',
    }
}

// The characters of the cells from one place up to another.
fn chars<const M: u32>(
    alloc: Global,
    core: &Core<M>,
    from: u32,
    to: u32,
) -> Result<String, AllocError> {
    let mut text = String::new(alloc);
    for at in from..to {
        text.push(char_at(core, at))?;
    }
    Ok(text)
}

// The character of all cells from one place up to another; ? if the characters differ.
fn filled_with<const M: u32>(core: &Core<M>, from: u32, to: u32) -> char {
    let first = char_at(core, from);
    for at in from..to {
        if char_at(core, at) != first {
            return '?';
        }
    }
    first
}

// Prints a cell's digit, or its error, and its bits as a number.
fn show_cell<const M: u32>(rt: &impl Print, core: &Core<M>, text: &str, at: u32) -> io::Result<()> {
    if at >= core.size() {
        return println!(rt; "{text}|no place");
    }
    let bits = core.raw(at);
    match core.get(at) {
        Ok(digit) => println!(rt; "{text}|{}|{bits}", char::from(object_char(digit))),
        Err(fault) => println!(rt; "{text}|{fault:?}|{bits}"),
    }
}

// Whether the cell at a place is as in the kept copy.
fn is_kept<const M: u32>(desk: &Desk<M>, at: u32) -> bool {
    let size = desk.machine.core.size();
    let _same = desk.kept.size();
    at >= size || desk.machine.core.raw(at) == desk.kept.raw(at)
}

// How many words are ten zeros.
fn zero_words(words: &[u64]) -> usize {
    let mut count: usize = 0;
    for w in words {
        if *w == 0x0820_8208_2082_0820 {
            count = count.saturating_add(1);
        }
    }
    count
}

// Prints the cells that differ from the kept copy, adjacent cells in one line.
fn show_changed<const M: u32>(rt: &impl Print, desk: &Desk<M>) -> io::Result<()> {
    let core = &desk.machine.core;
    let mut from = 0;
    for at in 0..core.size() + 1 {
        if is_kept(desk, at) {
            if from < at {
                println!(rt; "changed|{from}|{}", chars(desk.alloc, core, from, at)?)?;
            }
            from = at + 1;
        }
    }
    Ok(())
}

// Prints cells of core; false if the line is not known.
pub(crate) fn show<const M: u32>(
    rt: &impl Print,
    desk: &Desk<M>,
    line: &RowLine<'_>,
) -> io::Result<bool> {
    let core = &desk.machine.core;
    if let Some(at) = found(core, line) {
        println!(rt; "{}|{at:?}", line.text)?;
        return Ok(true);
    }
    let p = number(line.first).unwrap_or(0);
    let q = number(line.second).unwrap_or(0);
    match line.name {
        "show" => {
            let text = chars(desk.alloc, core, p, p.saturating_add(q))?;
            println!(rt; "show|{p}|{text}")?;
        }
        "cell" => show_cell(rt, core, line.text, p)?,
        "fills" => println!(rt; "{}|{}", line.text, filled_with(core, p, q))?,
        "zero words" => {
            let words = core.words();
            println!(rt; "{}|{}|{}", line.text, words.len(), zero_words(words))?;
        }
        "changed" => show_changed(rt, desk)?,
        "changed words" => println!(rt; "{}|{:?}", line.text, core.changed_words(&desk.kept))?,
        _ => return Ok(false),
    }
    Ok(true)
}
