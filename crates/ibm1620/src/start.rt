// The words and the memory that the program needs before its job begins.
use command_line::{Command, Read};
use outside_io::{PackRoom, Unit};
use std::fmt;
use std::io::{self, ErrorKind};

// Why no job began.
#[derive(Debug, Drop)]
pub(crate) enum NoStart {
    // No file can replace a closed standard stream.
    NoNull(io::Error),
    // The system does not give the words as text.
    NoText,
    // There is no memory for the words, or for a blank pack.
    NoMemory,
}

impl NoStart {
    // The code that the program ends with.
    pub(crate) fn code(&self) -> u8 {
        match self {
            NoStart::NoNull(_) => 7,
            NoStart::NoMemory => 8,
            NoStart::NoText => 15,
        }
    }
}

impl fmt::Display for NoStart {
    fn fmt<W: fmt::Write>(&self, f: &mut fmt::Formatter<W>) -> fmt::Result {
        match self {
            NoStart::NoNull(error) => write!(
                f,
                "ibm1620: /dev/null: cannot be opened: {error}\n\
                 ibm1620: see that it may be read: it stands in for a closed standard output\n"
            ),
            NoStart::NoText => f.write_str(
                "ibm1620: a word of the command line is not text in UTF-8\n\
                 ibm1620: give the files names in UTF-8\n",
            ),
            NoStart::NoMemory => {
                f.write_str("ibm1620: there was not enough memory: free some and try again\n")
            }
        }
    }
}

// The words after the program's name.
pub(crate) fn words_of(rt: &HostRuntime) -> Result<Vec<String>, NoStart> {
    let arguments = std::env::args(rt).map_err(no_words)?;
    let mut words = Vec::new(rt.alloc());
    for word in arguments.skip(1) {
        if words.push(word).is_err() {
            return Err(NoStart::NoMemory);
        }
    }
    Ok(words)
}

// Why the system gives no words.
fn no_words(error: io::Error) -> NoStart {
    match error.kind() {
        ErrorKind::OutOfMemory => NoStart::NoMemory,
        _ => NoStart::NoText,
    }
}

// The room for the blank pack of the job that the words say, if it has one, so that its machine takes no memory after power on.
pub(crate) fn room_for(rt: &HostRuntime, read: &Read<'_>) -> Result<Option<PackRoom>, NoStart> {
    if !has_blank_pack(read) {
        return Ok(None);
    }
    match PackRoom::reserve(rt.alloc()) {
        Ok(room) => Ok(Some(room)),
        Err(_) => Err(NoStart::NoMemory),
    }
}

// Whether the job that the words say has a machine, and no file for its pack.
fn has_blank_pack(read: &Read<'_>) -> bool {
    match &read.said {
        Ok(Some(plain)) => has_machine(plain.command) && plain.names.get(Unit::Pack).is_none(),
        _ => false,
    }
}

// Whether the job of a command turns a machine on.
fn has_machine(command: Command) -> bool {
    match command {
        Command::Load | Command::Run | Command::Debug | Command::Trial => true,
        Command::Assemble | Command::Generate | Command::Disk => false,
    }
}
