//! Words and numbers of a line of text, as scripts, commands and the command line have them, the blanks at a text's ends, and tables of
//! names.
//!
//! A line's words are parted by single blanks. A number is a word of 1 to 15 decimal digits. A blank is byte 32 and nothing else.
#![tactic(auto)]

mod arguments;
mod blanks;
mod rows;
mod words;

pub use arguments::{Span, alone, number_below, one_of, one_word, span_below, two_words};
pub use blanks::trimmed;
pub use rows::find;
pub use words::{LARGEST_NUMBER, cut_word, number, number_in};
