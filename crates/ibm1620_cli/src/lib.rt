//! The program over any host: its files, its jobs and what it reports.
//!
//! The call of the program, `ibm1620_answer`, does what the words say. The words and the bytes of a job's inputs define a status,
//! and one list of all that the job does outside. The call answers that status after the whole list was done. After a fault of
//! the host, exactly a first part of the list was done. If memory is lacking, the call ends before a machine is powered on. The
//! answer also has the console of the machine, the statement that a source was refused for, and the statement at IR. The contract
//! says too which inputs the job leaves alone. `ibm1620` answers the status alone, and `ibm1620_read` takes words that were read
//! before.
//! `generate` makes a source from two numbers, as the job with that name does.
#![tactic(auto)]

mod answer;
mod assembly;
mod binding;
mod debug;
mod disk;
mod execute;
mod load;
mod making;
mod program;
mod reading;
mod report;
mod run;
mod source;
mod standing;
mod status;
mod top;
mod trial;

pub use answer::Answer;
pub use disk::{disk_trip_law, placing_law};
pub use program::{headline_law, headline_over_memory, prompt_law, trip_law};
pub use sps_generator::generate;
pub use sps_listing::{OtherStatement, RefusedLine, StandingLine};
pub use status::Status;
pub use top::{ibm1620, ibm1620_answer, ibm1620_read};
