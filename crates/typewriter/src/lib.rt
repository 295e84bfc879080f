//! The console typewriter: what is typed, and how the lines of its keyboard are read into core.
#![tactic(auto)]

mod reading;
mod typing;

pub use reading::{read_alpha, read_num};
pub use typing::{TypeIo, control, dump, write_alpha, write_num};
