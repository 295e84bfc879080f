//! The columns of a card, filled from its left with digits, addresses and instructions.
#![tactic(auto)]

mod columns;

pub use columns::{CARD_COLUMNS, Columns};
