//! Ten characters, and the word of their ten cells.

ghost use Rattle.std.specs.Prelude.{◌≡◌, MatchOption, length};
ghost use Rattle.card_code.specs.Characters.{num_of, object_digit, object_char, punch_num};
ghost use Rattle.digit_core.specs.Within.{HasBad};
ghost use Rattle.card_code.specs.Words.{AreCells, HasNoDigit, AreSixes, AreEntries, HasNoEntry, AreChars, PutsChars, PutsEntries};

use crate::tables::{NO_CHAR, NUM_CELLS, OBJECT_CELLS, OBJECT_CHARS, PUNCH_CHARS};
use digit_core::are_good;

/// The word of the cells of ten object characters, the first as its lowest cell.
///
/// `text` has ten characters. `None` if one of them is not an object character.
/// Source: CPU manual, typewriter codes; the characters of flags and marks are this project's own.
#[inline]
pub fn object_word(text: &[u8]) -> Option<u64>
    requires { length text.now ≡ 10 }
    ensures { MatchOption result
        (HasNoDigit object_digit text.now)
        (AreCells object_digit text.now) }
{
    word_by(&OBJECT_CELLS, text)
}

// The word of the cells of ten characters that are read numerically, the first as its lowest cell; `None` if one of them is bad.
#[inline]
pub(crate) fn num_word(text: &[u8]) -> Option<u64>
    requires { length text.now ≡ 10 }
    ensures { MatchOption result (HasNoDigit num_of text.now) (AreCells num_of text.now) }
{
    word_by(&NUM_CELLS, text)
}

// The word of ten characters' cells by a table, if each has one.
#[inline]
fn word_by(table: &[u8; 256], text: &[u8]) -> Option<u64>
    requires sixes { AreSixes table.now }
    requires ten { length text.now ≡ 10 }
    ensures { MatchOption result (HasNoEntry table.now text.now) (AreEntries table.now text.now) }
{
    let mut word = 0;
    // A character without a cell leaves a bad cell in the word.
    for j in 0..10 {
        word |= u64::from(table[text[j] as usize]) << (6 * j);
    }
    if are_good(word) { Some(word) } else { None }
}

/// The object characters of a word's ten cells, the lowest cell's first.
///
/// `None` if one of the cells is bad.
/// Source: CPU manual, typewriter codes; the characters of flags and marks are this project's own.
#[inline]
pub fn object_chars(word: u64) -> Option<[u8; 10]>
    ensures { MatchOption result (HasBad word) (AreChars object_char word) }
{
    let mut chars = [0; 10];
    if put_object_chars(word, &mut chars) {
        Some(chars)
    } else {
        None
    }
}

/// Puts the object characters of a word's ten cells into a text of ten bytes, the lowest cell's first.
///
/// `false` if one of the cells is bad; then the bytes of the text are not defined.
/// Source: CPU manual, typewriter codes; the characters of flags and marks are this project's own.
#[inline]
pub fn put_object_chars(word: u64, into: &mut [u8]) -> bool
    requires { length into.old ≡ 10 }
    ensures puts { PutsChars object_char word into.new result }
    ensures ten { length into.new ≡ 10 }
{
    put_by(&OBJECT_CHARS, word, into)
}

/// The characters that the digits of a word's ten cells are punched as, the lowest cell's first.
///
/// `None` if one of the cells is bad.
/// Source: 1622 manual, numerical writing; the characters of flags and marks are this project's own.
#[inline]
pub fn punch_chars(word: u64) -> Option<[u8; 10]>
    ensures { MatchOption result (HasBad word) (AreChars punch_num word) }
{
    let mut chars = [0; 10];
    if put_punch_chars(word, &mut chars) {
        Some(chars)
    } else {
        None
    }
}

/// Puts the characters that the digits of a word's ten cells are punched as into a text of ten bytes, the lowest cell's first.
///
/// `false` if one of the cells is bad; then the bytes of the text are not defined.
/// Source: 1622 manual, numerical writing; the characters of flags and marks are this project's own.
#[inline]
pub fn put_punch_chars(word: u64, into: &mut [u8]) -> bool
    requires { length into.old ≡ 10 }
    ensures puts { PutsChars punch_num word into.new result }
    ensures ten { length into.new ≡ 10 }
{
    put_by(&PUNCH_CHARS, word, into)
}

// Puts the characters of a word's ten cells by a table into a text, the lowest cell's first. Whether each cell has a character.
#[inline]
fn put_by(table: &[u8; 64], word: u64, into: &mut [u8]) -> bool
    requires { length into.old ≡ 10 }
    ensures puts { PutsEntries table.now word into.new result }
    ensures ten { length into.new ≡ 10 }
{
    // All characters' bits together.
    let mut bits = 0;
    for j in 0..10 {
        let char = table[((word >> (6 * j)) % 64) as usize];
        bits |= char;
        into[j] = char;
    }
    bits < NO_CHAR
}
