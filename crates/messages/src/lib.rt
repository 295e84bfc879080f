//! The message about the end of a job, for the standard error: what happened, what to do next, and the console of the job's machine.
//!
//! The call is `message`. Its contract says when there is a message, and that the message is whole lines. It also fixes the last lines: the console's
//! line and the line of lost cards. Rows (docs/program-rows.txt) fix the other lines and their words.
#![tactic(auto)]

mod checks;
mod console;
mod ending;
mod faults;
mod marks;
mod mistaken;
mod misuse;
mod options;
mod placing;
mod refused;
mod said;
mod sheet;
mod statuses;
mod words;

pub use ending::{JobEnding, ROOM, is_quiet, message};
