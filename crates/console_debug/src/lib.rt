//! The debugger: its commands, and how they are carried out.
//!
//! The commands are a text of lines; each line is a command. A text with a bad line gives no commands: the error is the number of the
//! first bad line. `Commands` also has the breakpoints that the commands set, with room for each of them from the beginning.
//!
//! A session carries out the commands, one after another, while a machine runs under the operator's script. It moves over the places
//! of that run, and prints its lines on Report. It keeps the last places: it can go back to one of them, and over them again.
#![tactic(auto)]

mod breaks;
mod commands;
mod debugger;
mod going;
mod keeping;
mod lines;
mod moves;
mod walking;

pub use commands::{CommandFault, Commands, DebugCommand};
pub use debugger::{SessionEnd, session};
pub use lines::ending_line;
