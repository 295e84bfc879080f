// Words of ten cells.
//
// - `ten|A` the ten cells from A, `word of|I` the cells of word I: each cell's digit, and the lengths of its field and its record
// - `twelve|A` the digits of twelve cells
//
// A digit over 9 has a `+` before it, and a cell that is not good is a `?`.
use crate::lines::{RowLine, number};
use card_code::object_char;
use digit_core::{
    Core, are_decimal, are_good, are_good_at, digit_in, field_in, ones_below, ones_from, record_in,
};
use std::alloc::{AllocError, Global};
use std::io;

// The mask of a word that names one cell.
fn one(j: u32) -> u64 {
    let j = j.min(9);
    ones_from(j) & ones_below(j + 1)
}

// The characters of the lowest `n` cells of a word.
fn chars(alloc: Global, w: u64, n: u32) -> Result<String, AllocError> {
    let mut text = String::new(alloc);
    for j in 0..n.min(10) {
        if !are_good_at(w, one(j)) {
            text.push('?')?;
        } else if are_decimal(w, one(j)) {
            text.push(char_in(w, j))?;
        } else {
            text.push('+')?;
            text.push(char_in(w, j))?;
        }
    }
    Ok(text)
}

// The character of a word's cell; `.` unless all its cells are good.
fn char_in(w: u64, j: u32) -> char {
    if j < 10 && are_good(w) {
        char::from(object_char(digit_in(w, j)))
    } else {
        '.'
    }
}

// The word that a line names.
fn word<const M: u32>(core: &Core<M>, line: &RowLine<'_>) -> Option<u64> {
    let size = core.size();
    let at = number(line.first)?;
    match line.name {
        "ten" if at <= size - 10 => Some(core.ten(at)),
        "word of" if at < size / 10 => Some(core.word(at)),
        _ => None,
    }
}

// Prints the twelve cells from an even place on.
fn show_twelve<const M: u32>(
    rt: &impl Print,
    alloc: Global,
    core: &Core<M>,
    line: &RowLine<'_>,
) -> io::Result<bool> {
    let size = core.size();
    match number(line.first) {
        Some(at) if at % 2 == 0 && at <= size - 12 => {
            let (low, high) = core.twelve(at);
            let lower = chars(alloc, low, 10)?;
            println!(rt; "{}|{lower} {}", line.text, chars(alloc, high, 2)?)?;
            Ok(true)
        }
        _ => Ok(false),
    }
}

// Prints a word; false if the line is not known.
pub(crate) fn show<const M: u32>(
    rt: &impl Print,
    alloc: Global,
    core: &Core<M>,
    line: &RowLine<'_>,
) -> io::Result<bool> {
    if line.name == "twelve" {
        return show_twelve(rt, alloc, core, line);
    }
    let Some(w) = word(core, line) else {
        return Ok(false);
    };
    let (field, record) = (field_in(w), record_in(w));
    println!(rt;
        "{}|{} field {field:?} record {record:?}",
        line.text,
        chars(alloc, w, 10)?
    )?;
    Ok(true)
}
