//! Cards and lines: the characters of digits, the lines of a unit, and a tally of bad characters.
//!
//! A card has 80 columns, each with one character. Read numerically, a character is one digit with its flag. A digit is typed, punched
//! or printed as its object character. Decks, data and keyboard input are lines of bytes: a line is a card, or the characters that are
//! typed before the release key.
#![tactic(auto)]

mod characters;
mod lines;
mod pair_words;
mod pairs;
mod storing;
mod tables;
mod tally;
mod text;
mod words;

pub use characters::{num_of, object_char, object_digit, punch_num};
pub use lines::{LineAnswer, Lines, More};
pub use pairs::{alpha_of, char_of_pair, punch_alpha};
pub use storing::{store_digits, store_pairs};
pub use tally::{BadCharacter, ReadAs, Tally, is_bad};
pub use text::Line;
pub use words::{object_chars, object_word, punch_chars, put_object_chars, put_punch_chars};

/// The text of a card: 80 columns, a byte for each.
///
/// Source: 1622 manual, card format.
#[derive(Clone, Copy, Debug, PartialEq, Eq)]
pub struct Card(pub [u8; 80]);
