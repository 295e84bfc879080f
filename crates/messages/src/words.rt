// Texts that users wrote, and the names of files, as the program shows them: none of their control characters gets to a terminal.
// Source: this project's own.
use command_line::Read;
use outside_io::Unit;
use std::fmt;

// The placeholder for a file whose name is not known.
pub(crate) const SOME_FILE: &str = "FILE";

// The most characters that are shown of a user's text.
const MOST_SHOWN: usize = 400;

// A user's text, with control characters in the form `\x1b`. A longer text is cut here, so that the line keeps what follows the text.
#[derive(Clone, Copy)]
pub(crate) struct Escaped<'a>(pub(crate) &'a str);

impl fmt::Display for Escaped<'_> {
    fn fmt<W: fmt::Write>(&self, f: &mut fmt::Formatter<W>) -> fmt::Result {
        for (place, c) in self.0.chars().enumerate() {
            if place == MOST_SHOWN {
                return f.write_str("...");
            }
            if c.is_control() {
                let byte = c as u8;
                write!(f, "\\x{byte:02x}")?;
            } else {
                f.write_char(c)?;
            }
        }
        Ok(())
    }
}

// The bytes of a line, column by column: a printing ASCII character as it is, any other byte in the form `\x1b`. A letter with an accent is shown as
// two bytes, since it takes two columns for the assembler.
#[derive(Clone, Copy)]
pub(crate) struct Cells<'s>(pub(crate) &'s [u8]);

impl fmt::Display for Cells<'_> {
    fn fmt<W: fmt::Write>(&self, f: &mut fmt::Formatter<W>) -> fmt::Result {
        for byte in self.0 {
            let byte = *byte;
            if width_of(byte) == 1 {
                f.write_char(char::from(byte))?;
            } else {
                write!(f, "\\x{byte:02x}")?;
            }
        }
        Ok(())
    }
}

// How many characters show a byte.
pub(crate) fn width_of(byte: u8) -> usize {
    if b' ' <= byte && byte <= b'~' { 1 } else { 4 }
}

// A unit as the words name it: its option, and its file, or FILE if the file is not known.
#[derive(Clone, Copy)]
pub(crate) struct Named<'a> {
    pub(crate) unit: Unit,
    pub(crate) file: Option<&'a str>,
}

impl<'a> Named<'a> {
    // The unit with the file that the words name for it.
    pub(crate) fn of(read: &Read<'a>, unit: Unit) -> Named<'a> {
        Named {
            unit,
            file: read.file(unit),
        }
    }
}

impl fmt::Display for Named<'_> {
    fn fmt<W: fmt::Write>(&self, f: &mut fmt::Formatter<W>) -> fmt::Result {
        let option = self.unit.word();
        let file = Escaped(self.file.unwrap_or(SOME_FILE));
        write!(f, "--{option} {file}")
    }
}
