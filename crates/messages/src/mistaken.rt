// A deck that is given as a source, and a source that is given as a deck.
// Source: this project's own.
use crate::said::Said;
use crate::sheet::{OPERATION, SheetColumns};
use crate::words::Escaped;
use card_code::{BadCharacter, object_digit};
use outside_io::Unit;
use sps_listing::RefusedLine;
use sps_ops::lookup;

// The last statement that can be the first card of a deck.
const LAST_STATEMENT: u32 = 3;

// The fewest digits that a deck's first card has in its first instruction.
const FEWEST_DIGITS: usize = 8;

const INSTRUCTION: SheetColumns = SheetColumns { first: 1, last: 12 };

// Says that the refused source in this file looks like a deck, if it does: the refused statement is one of the first three, has object characters
// in columns 1 to 12, at least eight of them digits, and no operation.
pub(crate) fn say_deck(said: &mut Said, file: &str, refused: &RefusedLine) {
    let line = refused.text.as_slice();
    let instruction = INSTRUCTION.of(line);
    let digits = instruction.iter().filter(|b| b.is_ascii_digit()).count();
    if refused.statement <= LAST_STATEMENT
        && digits >= FEWEST_DIGITS
        && instruction.iter().all(|b| object_digit(*b).is_some())
        && lookup(OPERATION.of(line)).is_none()
    {
        let file = Escaped(file);
        said.line(format_args!(
            "--source {file}: this looks like a deck, and not like a source: give it to load, by --deck"
        ));
    }
}

// Says that the deck in this file looks like a source, if it does. `cells` are the twelve cells at 00000, at which its first instruction stopped the
// machine, and `bad` is the first bad character of its cards. The cells look like a comment, or like blanks or numbers of page and line, blanks or a
// label, and the first letter of an operation. They are the first twelve columns of the first card, read as digits: a blank is a zero, a letter is a
// digit 1 to 9, with a flag for J to R, and a `*` is a numerical blank with a flag.
pub(crate) fn say_source(said: &mut Said, file: &str, cells: [u8; 12], bad: Option<BadCharacter>) {
    if is_statement(cells, bad) {
        let file = Escaped(file);
        said.line(format_args!(
            "--deck {file}: this looks like a source, and not like a deck: give it to run, by --source"
        ));
    }
}

fn is_statement(cells: [u8; 12], bad: Option<BadCharacter>) -> bool {
    let (page, label, operation) = (&cells[..5], &cells[5..11], cells[11]);
    if !is_page(page) {
        return false;
    }
    if is_star(label[0]) {
        return true;
    }
    (is_letter(label[0]) || is_blank(label))
        && is_letter(operation)
        && (is_blank(page) || cells.iter().any(|cell| is_flagged(*cell)) || has_comma(bad))
}

// Whether the first bad character is a comma or another mark of operands, from column 16 on of the deck's first card.
fn has_comma(bad: Option<BadCharacter>) -> bool {
    match bad {
        Some(bad) => {
            bad.unit == Unit::Deck
                && bad.line == 1
                && bad.column >= FIRST_OPERAND
                && matches!(bad.byte, b',' | b'.' | b'(' | b')' | b'=' | b'$')
        }
        None => false,
    }
}

// The value of a numerical blank in a cell.
const NUMERICAL_BLANK: u8 = 12;

// The column in which operands begin.
const FIRST_OPERAND: u32 = 16;

// The value of a cell, without its flag and its check bit.
fn value_of(cell: u8) -> u8 {
    cell % 16
}

// Whether the cell has a flag.
fn is_flagged(cell: u8) -> bool {
    cell / 16 % 2 == 1
}

// Whether the cell may be a letter.
fn is_letter(cell: u8) -> bool {
    matches!(value_of(cell), 1..=9)
}

// Whether the cell may be a `*`.
fn is_star(cell: u8) -> bool {
    value_of(cell) == NUMERICAL_BLANK && is_flagged(cell)
}

// Whether the cells may be blanks.
fn is_blank(cells: &[u8]) -> bool {
    cells
        .iter()
        .all(|cell| value_of(*cell) == 0 && !is_flagged(*cell))
}

// Whether the cells may be blanks, or numbers of a page up to 09 and of a line. No operation code that is built here begins with a 0.
fn is_page(cells: &[u8]) -> bool {
    cells.first().is_some_and(|cell| value_of(*cell) == 0)
        && cells
            .iter()
            .all(|cell| value_of(*cell) <= 9 && !is_flagged(*cell))
}
