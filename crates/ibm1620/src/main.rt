//! The IBM 1620 Model 1 as a card system: the program that a user runs.
//!
//! `finished_job` does a job over any host, with its code and its message. This crate gives it the system: the words, the
//! standard streams, the files and the standard output as the job's host, and the environment.
#![tactic(auto)]

mod asked;
mod fresh;
mod job;
mod standard;
mod start;
#[cfg(test)]
mod tests;

use crate::job::do_over_files;
use crate::standard::hold_standard;
use crate::start::{NoStart, words_of};
use finished_job::OnErrors;
use std::process::ExitCode;

fn main(rt: HostRuntime) -> ExitCode {
    let code = match answered(&rt) {
        Ok(code) => code,
        Err(failure) => {
            let _ = rt.eprint(&failure);
            failure.code()
        }
    };
    ExitCode::from(code)
}

// Does what the words say, with each standard stream open, and answers the code.
fn answered(rt: &HostRuntime) -> Result<u8, NoStart> {
    let _held = hold_standard(rt)?;
    let words = words_of(rt)?;
    do_over_files(rt, &words, &mut OnErrors::new(rt.stderr()))
}
