//! Jobs over hosts in memory, as rows of a text: the settings of each job, and its results.
//!
//! A row of the input has a line for each setting of its job, a name and a text, and ends at an empty line. `docs/rows.md` has
//! the lines and the output of a row.
#![tactic(auto)]

mod answers;
mod files;
mod jobs;
mod lines;
mod shown;
mod texts;
mod turns;

use crate::jobs::Job;
use std::io;

fn main(rt: HostRuntime) -> io::Result<()> {
    let alloc = rt.alloc();
    let mut job = Job::behind(alloc, None);
    for line in rt.lines(alloc) {
        let line = line?;
        if line.is_empty() {
            let host = shown::show(&rt, &job)?;
            job = Job::behind(alloc, host);
        } else {
            job.add(line.as_str())?;
        }
    }
    Ok(())
}
