//! The words of the command line: which are plain, and what plain words say.
//!
//! Plain words are a command and then pairs of an option and a value. Each option fills a slot: the name of a file, a number, the
//! form of a deck or the size of core. One file has the slots, their words, and the slots that each command takes. The words give
//! one map from slot to text, and another file reads the texts into types. All other words are not plain; the program answers
//! them with its usage.
//!
//! The grammar here is tried first, and refuses words that are not plain. Plain words are then read with `clap`, which is set up
//! with their command alone and its options; its matches give the map that is read. A `Read` has the words with their meaning:
//! they are read once, for the job and for its message.
#![tactic(auto)]

mod given;
mod grammar;
mod matched;
mod names;
mod options;
mod reading;
mod said;
mod values;
mod words;

pub use given::Plain;
pub use names::Names;
pub use reading::Settings;
pub use said::Read;
pub use words::{COMMANDS, Command, CoreSize, STANDARD_LIMIT, command_of, plain_words};
