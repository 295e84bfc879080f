//! The second pass of the assembler: the rules, the refusal and the image.
#![tactic(auto)]

mod assembled;
mod cells;
mod digits;
mod image;
mod laws;
mod made;
mod operands;
mod outcome;
mod refuse;
mod second_pass;
mod statement;
mod task;

pub use assembled::{AsmFault, Assembled, Placed, PlacedList};
pub use cells::{image_law, kept_law, pieces_law};
pub use image::{Digits, Image, Piece, Pieces};
pub use laws::{characters_law, parts_law};
pub use second_pass::assemble;
