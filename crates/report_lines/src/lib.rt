//! The lines of reports: numbers, the names of units, and how a run of the machine ended.
//!
//! A line is built in memory of its own, and has its LF. Each function says which text it makes or adds.
#![tactic(auto)]

mod endings;
mod lines;
mod numbers;
mod units;

pub use endings::{check_line, halt_line, jam_line, limit_line, need_cards_line, need_keys_line};
pub use lines::{counted_line, steps_line, text_line, unit_line};
pub use numbers::{LONGEST_LINE, push_at_steps, push_count, push_long, push_number, push_padded};
