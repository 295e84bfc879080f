//! A whole job: it is done over a host, its message is written, and its code is answered.
//!
//! A host that reports its last failure is a `TellsTrouble`. Messages are written on a `Sink`: the standard error, or
//! `MemorySink` in memory. The host is inside a `Counting`, which counts the cards that are punched to no file. The contract of
//! `do_job` defines the status, the code and the message of a job.
#![tactic(auto)]

mod counting;
mod job;
mod sink;
mod trouble;

pub use counting::Counting;
pub use job::{do_job, do_read_job};
pub use sink::{MemorySink, OnErrors, Sink};
pub use trouble::TellsTrouble;
