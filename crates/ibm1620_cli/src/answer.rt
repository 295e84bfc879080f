// What a call of the program answers.
ghost use Rattle.std.specs.Prelude.{◌≡◌};
ghost use Rattle.ibm1620_cli.specs.Promise.{answer_of, answer_with};

use crate::status::Status;
use cpu_step::Console;
use sps_listing::{RefusedLine, StandingLine};

/// How a call of the program ends, with the machine's console, the refused statement and the statement at IR.
///
/// Source: this project's own.
#[derive(Drop)]
pub struct Answer {
    /// How it ends.
    pub status: Status,
    /// The console of the machine at the end: for a session, at its place in the run; after a fault of the host, as the fault
    /// left the machine. `None` if no machine was powered on.
    pub console: Option<Console>,
    /// The statement that a source was refused for, as the source has it; `None` if no source was refused, or if the refusal
    /// could not be reported.
    pub refusal: Option<RefusedLine>,
    /// The statement at IR of the console, if the machine runs the program of a source and a statement is there; `None` for
    /// `load`, after a fault of the host, and if no machine was powered on.
    pub statement: Option<StandingLine>,
}

impl Answer {
    // An answer with a status alone.
    pub(crate) fn of(status: Status) -> Answer
        ensures { result ≡ answer_of status }
    {
        Answer {
            status,
            console: None,
            refusal: None,
            statement: None,
        }
    }

    // An answer with a status and the console of a machine.
    pub(crate) fn with_console(status: Status, console: Console) -> Answer
        ensures { result ≡ answer_with status console }
    {
        Answer {
            status,
            console: Some(console),
            refusal: None,
            statement: None,
        }
    }
}
