//! The object deck of a program, and how it loads itself: the Load key and its cards' own instructions bring the program into any core.
#![tactic(auto)]

mod deck;

pub use deck::{deck_steps, object_deck};
pub use deck_punch::DeckForm;
