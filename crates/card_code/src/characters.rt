// The characters of single digits.

ghost use Rattle.std.specs.Prelude.{◌≡◌, ◌<◌, IfSome};
ghost use Rattle.digit_core.specs.Cell.{IsGood};
ghost use Rattle.card_code.specs.Characters.{num_of, object_digit, object_char, punch_num};
ghost use Rattle.card_code.specs.Words.{digit_entry, char_entry};

use crate::tables::{NO_CELL, NO_CHAR, NUM_CELLS, OBJECT_CELLS, OBJECT_CHARS, PUNCH_CHARS};
use digit_core::Digit;

/// The digit of a character of a card or a keyboard line, read numerically.
///
/// An object character is read as its digit; letters, a blank and some signs are read by their holes, as `A` and `S`, which are 1 and
/// 2. docs/formats.md has the table. `None` for a byte that is not in the table: a reading instruction stores an unflagged 0 for it,
/// and turns on the read check.
/// Source: CPU manual, card codes; the characters that no manual has, and which bytes have no digit, are this project's own.
pub fn num_of(c: u8) -> Option<Digit>
    ensures is { result ≡ num_of c }
    ensures good { IfSome result IsGood }
{
    digit_entry(&NUM_CELLS, c)
}

/// The digit of an object character: a character that a digit is typed, punched or printed as.
///
/// `0` to `9` are themselves, `]` and `J` to `R` the flagged 0 to 9, `|`, `@` and `}` the record mark, the numerical blank and the
/// group mark, and `!`, `*` and `"` these three with a flag. `None` for any other byte.
/// Source: CPU manual, typewriter codes; the characters of flags and marks are this project's own.
pub fn object_digit(c: u8) -> Option<Digit>
    ensures is { result ≡ object_digit c }
    ensures good { IfSome result IsGood }
{
    digit_entry(&OBJECT_CELLS, c)
}

/// The object character of a digit that a cell can hold.
///
/// It is the only character that [`object_digit`] reads as this digit, and [`num_of`] reads it as this digit too.
/// Source: CPU manual, typewriter codes; the characters of flags and marks are this project's own.
pub fn object_char(d: Digit) -> u8
    requires { IsGood d }
    ensures { result ≡ object_char d }
{
    char_entry(&OBJECT_CHARS, d)
}

/// The character that a digit that a cell can hold is punched as.
///
/// It is the digit's object character, but an unflagged numerical blank is punched as a blank, a column without holes. A flagged
/// numerical blank is punched as `*`.
/// Source: 1622 manual, numerical writing; the characters of flags and marks are this project's own.
pub fn punch_num(d: Digit) -> u8
    requires { IsGood d }
    ensures { result ≡ punch_num d }
{
    char_entry(&PUNCH_CHARS, d)
}

// The digit of a character by a table of cells, if it has one.
#[inline(always)]
fn digit_entry(table: &[u8; 256], c: u8) -> Option<Digit>
    ensures { result ≡ digit_entry table.now c }
{
    let cell = table[c as usize];
    if cell == NO_CELL {
        return None;
    }
    Some(Digit {
        flag: cell / 16 % 2 == 1,
        value: cell % 16,
    })
}

// The character of a digit by a table. Of the two cells with the digit's flag and value one is good; the other has no character.
#[inline(always)]
fn char_entry(table: &[u8; 64], d: Digit) -> u8
    requires { d.value < 16 }
    ensures { result ≡ char_entry table.now d }
{
    let low = if d.flag { 16 + d.value } else { d.value };
    let char = table[low as usize];
    // The remainder changes nothing. By it the compiler learns that the character is below 128, and so one byte of a text.
    if char < NO_CHAR {
        char
    } else {
        table[low as usize + 32] % NO_CHAR
    }
}
