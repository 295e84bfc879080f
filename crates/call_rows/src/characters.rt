// Characters of digits, of pairs and of ten cells at once, and texts that are stored.
//
// - `characters|` shows each byte that can be read: its digit as an object character, its digit as it is read, the character as which
//   this digit is punched, the byte's pair, and the pair's character
// - `pairs|` how many pairs have a character; `pair|A` the character of the two cells from A
// - `chars|A` the object characters of the ten cells from A, and the characters as which they are punched
// - `word|A|TEXT` stores ten object characters, `digits|A|TEXT` a text as digits, `alphas|A|TEXT` a text as pairs
use crate::lines::{RowLine, number, place};
use addr_indirect::Stop;
use card_code::{
    alpha_of, char_of_pair, num_of, object_chars, object_digit, object_word, punch_alpha,
    punch_chars, punch_num, store_digits, store_pairs,
};
use cpu_step::Machine;
use digit_core::{Core, Digit};
use std::io;

// Prints a bar and a digit, with `F` before a flagged digit; the bar alone if there is no digit.
fn show_digit(rt: &impl Print, digit: Option<Digit>) -> io::Result<()> {
    match digit {
        Some(digit) if digit.flag => print!(rt; "|F{}", digit.value),
        Some(digit) => print!(rt; "|{}", digit.value),
        None => print!(rt; "|"),
    }
}

// Prints the digits and the pair of a byte.
fn show_byte(rt: &impl Print, c: u8) -> io::Result<()> {
    print!(rt; "{c}|{}", char::from(c))?;
    show_digit(rt, object_digit(c))?;
    show_digit(rt, num_of(c))?;
    match num_of(c) {
        Some(digit) => print!(rt; "|{}", char::from(punch_num(digit)))?,
        None => print!(rt; "|")?,
    }
    match alpha_of(c) {
        Some((zone, value)) => match punch_alpha(zone, value) {
            Some(back) => println!(rt; "|{zone} {value}|{}", char::from(back)),
            None => println!(rt; "|{zone} {value}|"),
        },
        None => println!(rt; "||"),
    }
}

// Prints all bytes that are read as a digit or as a pair.
fn show_bytes(rt: &impl Print) -> io::Result<()> {
    println!(rt; "characters|")?;
    for c in 0u8..=255 {
        if object_digit(c).is_some() || num_of(c).is_some() || alpha_of(c).is_some() {
            show_byte(rt, c)?;
        }
    }
    Ok(())
}

// How many pairs have a character.
fn pairs() -> u32 {
    let mut count: u32 = 0;
    for zone in 0u8..=255 {
        for value in 0u8..=255 {
            if punch_alpha(zone, value).is_some() {
                count = count.saturating_add(1);
            }
        }
    }
    count
}

// Prints a bar and ten characters, or `none`.
fn show_chars(rt: &impl Print, chars: Option<[u8; 10]>) -> io::Result<()> {
    match chars {
        Some(chars) => {
            print!(rt; "|")?;
            for c in chars {
                print!(rt; "{}", char::from(c))?;
            }
            Ok(())
        }
        None => print!(rt; "|none"),
    }
}

// Prints characters; false if the line is not known.
pub(crate) fn show<const M: u32>(
    rt: &impl Print,
    core: &Core<M>,
    line: &RowLine<'_>,
) -> io::Result<bool> {
    let size = core.size();
    match line.name {
        "characters" => show_bytes(rt)?,
        "pairs" => println!(rt; "pairs|{}", pairs())?,
        "chars" => match number(line.first) {
            Some(at) if at <= size - 10 => {
                let w = core.ten(at);
                print!(rt; "{}", line.text)?;
                show_chars(rt, object_chars(w))?;
                show_chars(rt, punch_chars(w))?;
                println!(rt; "")?;
            }
            _ => return Ok(false),
        },
        _ => return Ok(false),
    }
    Ok(true)
}

// Stores the cells of ten characters; None if they are not ten, or not in core.
fn store_word<const M: u32>(core: &mut Core<M>, line: &RowLine<'_>) -> Option<Result<(), Stop>> {
    let size = core.size();
    let at = number(line.first)?;
    let text = line.second.as_bytes();
    if at > size - 10 || text.len() != 10 {
        return None;
    }
    match object_word(text) {
        Some(w) => {
            core.put_digits(at, 10, w);
            Some(Ok(()))
        }
        None => Some(Err(Stop::Digit)),
    }
}

// Stores a text; None if the line is not known.
pub(crate) fn call<const M: u32>(
    machine: &mut Machine<M>,
    line: &RowLine<'_>,
) -> Option<Result<(), Stop>> {
    let (core, panel) = (&mut machine.core, &mut machine.panel);
    let at = place(core, line.first)?;
    let text = line.second.as_bytes();
    match line.name {
        "word" => store_word(core, line),
        "digits" if text.len() <= 80 => Some(store_digits(core, at, text, panel)),
        "alphas" if text.len() <= 80 => Some(store_pairs(core, at, text, panel)),
        _ => None,
    }
}

// The character of the pair at a place; None if the line is not known, or a cell is bad.
pub(crate) fn pair<const M: u32>(machine: &mut Machine<M>, line: &RowLine<'_>) -> Option<char> {
    if line.name != "pair" {
        return None;
    }
    let size = machine.core.size();
    let at = number(line.first)?;
    if at > size - 2 {
        return None;
    }
    let zone = machine.core.get(at).ok()?;
    let value = machine.core.get(at + 1).ok()?;
    Some(char::from(char_of_pair(zone, value, &mut machine.panel)))
}
