//! Source decks by numbers, for trials of the assembler and of the machine.
//!
//! Each of the statements that differ from deck to deck has a state: the one before, times 1,103,515,245, and 12,345 more, modulo
//! 2,147,483,648. The state before the first is the number. A state divided by 65,536, rounded down, is the statement's draw: modulo 3 it
//! gives the operation (0 `AM`, 1 `SM`, 2 `CM`), and divided by 3, rounded down, and modulo 1000 the value.
#![tactic(auto)]

mod deck;
mod lines;
mod operations;

pub use deck::generate;
