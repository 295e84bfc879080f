//! Programs on disk: the sectors of an image, and the short deck that loads it from there.
//!
//! Core is divided into hundreds; each goes to the sector with its number on drive 1. A program needs the hundreds in which
//! it declares a digit, and the hundreds of the standard tables. A card of the bootstrap deck seeks, reads the sectors of
//! hundreds that follow one another, and reads the next card over itself.
#![tactic(auto)]

mod deck;
mod hundreds;
mod writing;

pub use deck::{bootstrap, stretch_law};
pub use hundreds::sector_text;
pub use writing::{sector_count, write_sectors};
