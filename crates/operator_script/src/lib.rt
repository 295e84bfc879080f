//! The operator: a script of what is done at the console, and the turns of a run.
//!
//! A script is a text of lines. Each line says when it is due, after n steps or at a halt, and
//! what the operator does then: press a key, turn a switch, or flip a bit of core
//! to show what the parity check does. A text with a bad line is not a script: the error is the number
//! of the first bad line. `read_lines` reads the lines of a text by a grammar: the script's, or the debugger's.
//!
//! A run is a list of turns. In a turn the operator acts by the front line of the script, if that line is due; otherwise the machine makes
//! one step. `run` makes turns until one ends the run; every run ends, for every script and every limit of steps. `Run` is a run
//! under way; it makes its turns one by one.
#![tactic(auto)]

mod lines;
mod runs;
mod script;
mod turns;

pub use lines::{LineFault, LineGrammar, read_lines};
pub use runs::Run;
pub use script::{Action, Due, Script, ScriptFault, ScriptLine};
pub use turns::{Ended, Ending, TurnEnd, run, turn};
