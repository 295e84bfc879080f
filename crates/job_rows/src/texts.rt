// Texts as lines of printable characters.
use std::alloc::{AllocError, AllocFailed, Global};
use std::io;

// Why a line of a row is not taken.
#[derive(Drop)]
pub(crate) enum NotTaken {
    // A row can't have this line.
    Unknown,
    // There was no memory for it.
    Memory,
}

impl From<AllocError> for NotTaken {
    fn from(_: AllocError) -> Self {
        NotTaken::Memory
    }
}

impl<T: Drop> From<AllocFailed<T>> for NotTaken {
    fn from(_: AllocFailed<T>) -> Self {
        NotTaken::Memory
    }
}

// The value of a digit of base 16.
fn digit_of(byte: u8) -> Option<u8> {
    match byte {
        b'0'..=b'9' => Some(byte - b'0'),
        b'a'..=b'f' => Some(byte - b'a' + 10),
        _ => None,
    }
}

// The byte of the two digits of base 16 at the front of a text, and the rest of the text.
fn byte_in_front(text: &[u8]) -> Option<(u8, &[u8])> {
    match text {
        [tens, units, rest @ ..] => Some(((digit_of(*tens)? << 4) | digit_of(*units)?, rest)),
        _ => None,
    }
}

// Adds the bytes of a text: `\` and two digits of base 16 are a byte, and a `\` at its end is dropped.
pub(crate) fn add_bytes(bytes: &mut Vec<u8>, text: &str) -> Result<(), NotTaken> {
    let text = text.strip_suffix('\\').unwrap_or(text);
    let mut escaped = false;
    for piece in text.split('\\') {
        let mut rest = piece.as_bytes();
        if escaped {
            let (byte, behind) = byte_in_front(rest).ok_or(NotTaken::Unknown)?;
            bytes.push(byte)?;
            rest = behind;
        }
        bytes.extend_from_slice(rest)?;
        escaped = true;
    }
    Ok(())
}

// Adds the bytes of a line, and a line end unless it ends with `\`.
pub(crate) fn add_line(bytes: &mut Vec<u8>, line: &str) -> Result<(), NotTaken> {
    add_bytes(bytes, line)?;
    if !line.ends_with('\\') {
        bytes.push(b'\n')?;
    }
    Ok(())
}

// Adds a byte to a line as it is shown: as itself if it is printable, but not `\`.
fn add_shown(alloc: Global, line: &mut String, byte: u8) -> Result<(), AllocError> {
    if byte == b'\\' || !(b' '..=b'~').contains(&byte) {
        let digits = format!(in alloc; "\\{byte:02x}")?;
        line.push_str(digits.as_str())
    } else {
        line.push(char::from(byte))
    }
}

// The bytes of a line as they are shown.
pub(crate) fn shown_line(alloc: Global, text: &[u8]) -> Result<String, AllocError> {
    let mut line = String::new(alloc);
    for &byte in text {
        add_shown(alloc, &mut line, byte)?;
    }
    Ok(line)
}

// Prints a text in lines after a name, in the form that `add_line` takes.
pub(crate) fn show_text(rt: &impl Print, alloc: Global, name: &str, text: &[u8]) -> io::Result<()> {
    let mut line = String::new(alloc);
    for &byte in text {
        if byte == b'\n' {
            println!(rt; "{name}|{line}")?;
            line.clear();
        } else {
            add_shown(alloc, &mut line, byte)?;
        }
    }
    if !line.is_empty() {
        println!(rt; "{name}|{line}\\")?;
    }
    Ok(())
}
