//! The card reader and the card punch: the cards in the reader's hopper, how they are read into core, and how core is punched.
#![tactic(auto)]

mod counts;
mod front;
mod hopper;
mod pile;
mod punch;
mod reader;

pub use counts::CardsRead;
pub use hopper::{CardAnswer, Hopper};
pub use punch::{dump, punch_alpha, punch_num};
pub use reader::{CardIo, read_alpha, read_num};
