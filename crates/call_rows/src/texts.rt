// Texts as lines of printable characters.
use std::alloc::{AllocError, Global};
use std::io;

// The value of a digit of base 16; of any other byte 0.
fn digit_of(byte: u8) -> u8 {
    match byte {
        b'0'..=b'9' => byte - b'0',
        b'a'..=b'f' => byte - b'a' + 10,
        _ => 0,
    }
}

// Adds a line to a text: `\` and two digits of base 16 are a byte, and `\` at its end leaves the line end out.
//
// The error is a lack of memory.
pub(crate) fn add_line(text: &mut Vec<u8>, line: &str) -> Result<(), AllocError> {
    let mut digits: u8 = 0;
    let mut value: u8 = 0;
    for &byte in line.as_bytes() {
        if digits == 2 {
            value = digit_of(byte);
            digits = 1;
        } else if digits == 1 {
            text.push(value.wrapping_mul(16) | digit_of(byte))?;
            digits = 0;
        } else if byte == b'\\' {
            digits = 2;
        } else {
            text.push(byte)?;
        }
    }
    if digits == 0 {
        text.push(b'\n')?;
    }
    Ok(())
}

// Adds a byte to a line as it is shown: as itself if it is printable, but not `\`.
fn add_shown(alloc: Global, line: &mut String, byte: u8) -> Result<(), AllocError> {
    if byte == b'\\' || !(b' '..=b'~').contains(&byte) {
        let digits = format!(in alloc; "\\{byte:02x}")?;
        line.push_str(digits.as_str())
    } else {
        line.push(char::from(byte))
    }
}

// The first bytes of a text, as they are shown.
pub(crate) fn front(alloc: Global, text: &[u8], n: usize) -> Result<String, AllocError> {
    let mut line = String::new(alloc);
    for &byte in &text[..n.min(text.len())] {
        add_shown(alloc, &mut line, byte)?;
    }
    Ok(line)
}

// Prints a text in lines after a name, in the form that `add_line` takes.
pub(crate) fn show_text(rt: &impl Print, alloc: Global, name: &str, text: &[u8]) -> io::Result<()> {
    let mut line = String::new(alloc);
    for &byte in text {
        if byte == b'\n' {
            println!(rt; "{name}|{line}")?;
            line.clear();
        } else {
            add_shown(alloc, &mut line, byte)?;
        }
    }
    if !line.is_empty() {
        println!(rt; "{name}|{line}\\")?;
    }
    Ok(())
}
