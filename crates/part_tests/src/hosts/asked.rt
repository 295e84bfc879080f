// Questions that tests ask of the hosts and of their files.
use crate::hosts::fake::Outside;
use outside_io::{
    ALL_SECTORS, Bound, Cause, Doing, Drive, Host, Lockable, Put, RealHost, SECTOR_LENGTH, Take,
    Trouble, Unit,
};
use std::fs;
use std::io::ErrorKind;
use std::os::unix::fs::FileExt;
use std::rt::{Clock, Files};

// Whether the sector is read, and begins with `front`.
pub(crate) fn reads<H: Host>(host: &mut H, a: u32, front: &[u8]) -> bool {
    let mut text = [0; SECTOR_LENGTH];
    (a as usize) < ALL_SECTORS
        && host.read_sector(a, &mut text) == Drive::Done
        && text.starts_with(front)
}

// Whether writing a sector full of this character ends so.
pub(crate) fn writes<H: Host>(host: &mut H, a: u32, c: u8, end: Drive) -> bool {
    (a as usize) < ALL_SECTORS && host.write_sector(a, &[c; SECTOR_LENGTH]) == end
}

// Whether writing a sector with the bytes that it has ends so.
fn rewrites<H: Host>(host: &mut H, a: u32, end: Drive) -> bool {
    let mut text = [0; SECTOR_LENGTH];
    (a as usize) < ALL_SECTORS
        && host.read_sector(a, &mut text) == Drive::Done
        && host.write_sector(a, &text) == end
}

// Whether giving this piece to an output ends so.
fn gives<H: Host>(host: &mut H, unit: Unit, piece: &[u8], end: Put) -> bool {
    unit.is_output() && !piece.is_empty() && host.put(unit, piece) == end
}

// Whether taking up to ten bytes from an input ends so.
fn takes<H: Host>(host: &mut H, unit: Unit, end: Take) -> bool {
    unit.is_input() && host.take(unit, &mut [0; 10]) == end
}

// Whether the file has this text.
pub(crate) fn holds<R: Files + AllocGlobal>(rt: &R, name: &str, text: &[u8]) -> bool {
    match fs::read(rt, name) {
        Ok(bytes) => bytes.as_slice() == text,
        Err(_) => false,
    }
}

// Whether the file was made with this text.
pub(crate) fn made<R: Files>(rt: &R, name: &str, text: &[u8]) -> bool {
    fs::write(rt, name, text).is_ok()
}

// Why a host over files failed, with the kind of the system's error.
#[derive(Clone, Copy)]
pub(crate) enum Reason {
    System(ErrorKind),
    SameFile(Unit),
    StandardOutput,
    InUse,
    NothingTaken,
}

// A question that a test asks of a host over files, with the expected answer.
#[derive(Clone, Copy)]
pub(crate) enum Ask<'a> {
    // Bytes are given to an output.
    Put(Unit, &'a [u8], Put),
    // Up to ten bytes are taken from an input.
    Take(Unit, Take),
    // A sector is read, and begins with these bytes.
    Read(u32, &'a [u8]),
    // A sector is written, full of a character.
    Write(u32, u8, Drive),
    // A sector is written with the bytes that it has.
    Rewrite(u32, Drive),
    // The file of this name has this text.
    Holds(&'a str, &'a [u8]),
    // What failed last, if anything.
    Trouble(Option<(Unit, Doing)>),
    // Why it failed.
    Reason(Reason),
}

// The unit of the last failure, and what the host was doing.
fn place_of(trouble: Option<&Trouble>) -> Option<(Unit, Doing)> {
    match trouble {
        Some(trouble) => Some((trouble.unit, trouble.doing)),
        None => None,
    }
}

// Whether something failed, and the last failure had this reason.
fn is_reason(trouble: Option<&Trouble>, reason: Reason) -> bool {
    let Some(trouble) = trouble else {
        return false;
    };
    match (&trouble.cause, reason) {
        (Cause::System(error), Reason::System(kind)) => error.kind() == kind,
        (Cause::SameFile(rival), Reason::SameFile(unit)) => *rival == unit,
        (Cause::StandardOutput, Reason::StandardOutput) => true,
        (Cause::InUse, Reason::InUse) => true,
        (Cause::NothingTaken, Reason::NothingTaken) => true,
        _ => false,
    }
}

// Whether the host answers the question as expected.
fn answers<R: Files + Print + Clock + AllocGlobal>(
    rt: &R,
    host: &mut RealHost<'_, R>,
    ask: Ask<'_>,
) -> bool
where
    R::File: Lockable + FileExt,
{
    match ask {
        Ask::Put(unit, piece, end) => gives(host, unit, piece, end),
        Ask::Take(unit, end) => takes(host, unit, end),
        Ask::Read(a, front) => reads(host, a, front),
        Ask::Write(a, c, end) => writes(host, a, c, end),
        Ask::Rewrite(a, end) => rewrites(host, a, end),
        Ask::Holds(name, text) => holds(rt, name, text),
        Ask::Trouble(last) => place_of(host.trouble()) == last,
        Ask::Reason(reason) => is_reason(host.trouble(), reason),
    }
}

// Whether the host answers all questions as expected.
pub(crate) fn answers_all<R: Files + Print + Clock + AllocGlobal>(
    rt: &R,
    host: &mut RealHost<'_, R>,
    asks: &[Ask<'_>],
) -> bool
where
    R::File: Lockable + FileExt,
{
    for &ask in asks {
        if !answers(rt, host, ask) {
            return false;
        }
    }
    true
}

// Whether a new host binds this file, if there is one, as expected, and then answers all questions as expected.
pub(crate) fn host_answers(
    rt: &HostRuntime,
    file: Option<(Unit, &str, Bound)>,
    asks: &[Ask<'_>],
) -> bool {
    let mut host = RealHost::new(rt);
    let as_wanted = match file {
        Some((unit, name, end)) => host.bind(unit, name) == end,
        None => true,
    };
    as_wanted && answers_all(rt, &mut host, asks)
}

// Whether a new host over the runtime for tests binds and answers as expected.
pub(crate) fn outside_answers(
    outside: &Outside<'_>,
    file: Option<(Unit, &str, Bound)>,
    asks: &[Ask<'_>],
) -> bool {
    let mut host = RealHost::new(outside);
    let as_wanted = match file {
        Some((unit, name, end)) => host.bind(unit, name) == end,
        None => true,
    };
    as_wanted && answers_all(outside, &mut host, asks)
}
