//! Hosts: where the program's input comes from and where its output goes.
//!
//! All that the program reads and writes goes through the trait `Host`: bytes one after another, and the sectors of the pack by
//! their numbers. A host has a count of its faults, and may reveal its files, its units and the pack's sectors. The contract of
//! each call says what the call changes of these, and that all else stays. `MemHost` reveals everything and fails at the calls
//! that a test chooses. `QuietHost` never fails and reveals only its inputs. `RealHost` works on files and the standard output,
//! and reveals no bytes.
//!
//! A text is bytes: `write_all` and `read_all` carry it whole, and `split_line` takes its lines off one after another.
#![tactic(auto)]

mod again;
mod hold;
mod host;
mod in_memory;
mod lines;
mod names;
mod opened;
mod pack_file;
mod real;
mod scratch;
mod trouble;
mod whole;

pub use hold::{Lockable, Sharing};
pub use host::{ALL_SECTORS, Bound, Drive, Host, Put, SECTOR_LENGTH, Take, UNIT_COUNT, Unit};
pub use in_memory::mem::MemHost;
pub use in_memory::quiet::QuietHost;
pub use lines::{split_line, without_return};
pub use real::RealHost;
pub use scratch::PackRoom;
pub use trouble::{Cause, Doing, Trouble};
pub use whole::{ReadAll, Sent, read_all, write_all};
