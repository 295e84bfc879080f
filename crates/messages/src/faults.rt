// What the message says about a failure of the host.
// Source: this project's own.
use crate::said::Said;
use crate::words::Named;
use outside_io::{Cause, Doing, Trouble, Unit};
use std::fmt;

// Says where the host failed, why, and what to do. `file` is the file that the words name for the unit; without a file, the unit is the standard
// output, or the blank pack.
pub(crate) fn say_trouble(said: &mut Said, trouble: &Trouble, file: Option<&str>) {
    let unit = trouble.unit;
    let place = FaultPlace { unit, file };
    match &trouble.cause {
        Cause::System(error) => {
            let failed = failed(trouble.doing);
            said.line(format_args!("{place}: {failed}: {error}"));
            say_what_to_see(said, trouble, file.is_some());
        }
        Cause::NothingTaken => {
            said.line(format_args!("{place}: took no byte"));
            say_what_to_see(said, trouble, file.is_some());
        }
        Cause::StandardOutput => {
            said.line(format_args!("{place}: is the file that the standard output goes to"));
            said.line("name another file, or send the standard output somewhere else");
        }
        Cause::InUse => {
            said.line(format_args!("{place}: is in use by another run"));
            said.line("wait until that run has ended, or name another file");
        }
        Cause::SameFile(other) => {
            let other = other.word();
            said.line(format_args!(
                "{place}: is the same file as that of --{other}: name another file for one of them"
            ));
        }
    }
}

// The place of a failure.
#[derive(Clone, Copy)]
struct FaultPlace<'a> {
    unit: Unit,
    file: Option<&'a str>,
}

impl fmt::Display for FaultPlace<'_> {
    fn fmt<W: fmt::Write>(&self, f: &mut fmt::Formatter<W>) -> fmt::Result {
        match (self.file, self.unit) {
            (Some(_), unit) => {
                let file = self.file;
                f.write(Named { unit, file })
            }
            (None, Unit::Pack) => f.write_str("the blank pack"),
            (None, _) => f.write_str("the standard output"),
        }
    }
}

// Says what to check or to do after the system failed, or took no byte.
fn say_what_to_see(said: &mut Said, trouble: &Trouble, is_named: bool) {
    let option = trouble.unit.word();
    if is_named {
        let thing = thing_to_see(trouble.doing, trouble.unit.is_input());
        said.line(format_args!("see that {thing}"));
    } else if trouble.unit == Unit::Pack {
        said.line("free some memory, or name a file by --pack FILE");
    } else {
        said.line(format_args!(
            "see that it is open and has room, or name a file by --{option} FILE"
        ));
    }
}

// What the system could not do.
fn failed(doing: Doing) -> &'static str {
    match doing {
        Doing::Open => "cannot be opened",
        Doing::Empty => "cannot be emptied",
        Doing::Read => "cannot be read",
        Doing::Write => "cannot be written",
        Doing::ReadSector => "a sector cannot be read",
        Doing::WriteSector => "a sector cannot be written",
    }
}

// What to check.
fn thing_to_see(doing: Doing, is_input: bool) -> &'static str {
    match (doing, is_input) {
        (Doing::Open, true) => "the name is right and the file may be read",
        (Doing::Open, false) => {
            "the name is right, the folder is there, and the file may be written"
        }
        (Doing::Empty, _) => "the file may be written",
        (Doing::Read | Doing::ReadSector, _) => "it is a file that may be read",
        (Doing::Write | Doing::WriteSector, _) => "there is room and the file may be written",
    }
}
