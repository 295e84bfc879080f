// Jobs that are done over real files, in the folder where the test runs.
use ibm1620_cli::{Status, ibm1620};
use outside_io::{Cause, Doing, RealHost, Trouble, Unit};
use std::alloc::{AllocError, Global};
use std::fs;
use std::io::ErrorKind;
use std::test::Fail;

// How a job ended over files that fail.
#[derive(Clone, Copy)]
pub(crate) struct Failure {
    pub(crate) status: Status,
    // the last failure, if it is a system error: its unit, the action that failed, and the error's kind
    pub(crate) system_error: Option<(Unit, Doing, ErrorKind)>,
    // the last failure, if it is a refused file: the unit that was refused it, and the unit that has the file
    pub(crate) refused: Option<(Unit, Unit)>,
}

// The words of a line, as the program gets them.
fn words_of(alloc: Global, line: &str) -> Result<Vec<String>, AllocError> {
    let mut words = Vec::new(alloc);
    for word in line.split_whitespace() {
        words.push(String::from_str(alloc, word)?)?;
    }
    Ok(words)
}

// Does the job of a line's words over the files of this folder, and gives its status and the host with its last failure.
fn done<'a>(
    rt: &'a HostRuntime,
    line: &str,
) -> Result<(Status, RealHost<'a, HostRuntime>), AllocError> {
    let words = words_of(rt.alloc(), line)?;
    let mut host = RealHost::new(rt);
    let status = ibm1620(rt.alloc(), &words, &mut host);
    Ok((status, host))
}

// The status of the job of a line's words.
pub(crate) fn answered(rt: &HostRuntime, line: &str) -> Result<Status, AllocError> {
    let (status, _host) = done(rt, line)?;
    Ok(status)
}

// The status of the job of a line's words, None if the host had a failure.
pub(crate) fn untroubled(rt: &HostRuntime, line: &str) -> Result<Option<Status>, AllocError> {
    let (status, host) = done(rt, line)?;
    if host.trouble().is_none() {
        Ok(Some(status))
    } else {
        Ok(None)
    }
}

// The status of the job of a line's words, and the host's last failure.
pub(crate) fn failed(rt: &HostRuntime, line: &str) -> Result<Failure, AllocError> {
    let (status, host) = done(rt, line)?;
    Ok(Failure {
        status,
        system_error: system_error(host.trouble()),
        refused: refused(host.trouble()),
    })
}

// A system error: its unit, the action that failed, and the error's kind.
fn system_error(trouble: Option<&Trouble>) -> Option<(Unit, Doing, ErrorKind)> {
    match trouble {
        Some(
            Trouble {
                unit,
                doing,
                cause: Cause::System(error),
            },
        ) => Some((*unit, *doing, error.kind())),
        _ => None,
    }
}

// A refused file: the unit that was refused it, and the unit that has the file.
fn refused(trouble: Option<&Trouble>) -> Option<(Unit, Unit)> {
    match trouble {
        Some(
            Trouble {
                unit,
                doing: Doing::Open,
                cause: Cause::SameFile(other),
            },
        ) => Some((*unit, *other)),
        _ => None,
    }
}

// Whether the file holds these bytes.
pub(crate) fn holds(rt: &HostRuntime, name: &str, bytes: &[u8]) -> Result<bool, Fail> {
    Ok(fs::read(rt, name)?.as_slice() == bytes)
}
