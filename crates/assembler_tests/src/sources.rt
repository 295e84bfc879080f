// Sources of a few lines, and their results as texts.
use card_code::object_char;
use digit_core::Digit;
use sps_ops::Rule;
use sps_pass_two::{AsmFault, Assembled, Image, assemble};
use std::alloc::{AllocError, Global};

// The lines after a source that is to have a start and an end.
pub(crate) const HALT_AND_END: &[&str] = &["START H", "      DENDSTART"];

// The statement and the rule for which a source is refused; None if it is accepted.
pub(crate) type Refused = Option<(u32, Rule)>;

// The source of lines from column 6 on: label in columns 6 to 11, operation in 12 to 15, operands from 16 on.
pub(crate) fn source_of(alloc: Global, lines: &[&str]) -> Result<Vec<u8>, AllocError> {
    let mut source = Vec::new(alloc);
    for line in lines {
        source.extend_from_slice(b"     ")?;
        source.extend_from_slice(line.as_bytes())?;
        source.push(b'\n')?;
    }
    Ok(source)
}

// The program of lines from column 6 on, for a core of 20,000 positions.
pub(crate) fn program_of(alloc: Global, lines: &[&str]) -> Result<Assembled, AsmFault> {
    let source = source_of(alloc, lines)?;
    assemble(alloc, &source, 20_000)
}

// The refusal of a source, for a core of 20,000 positions.
pub(crate) fn refusal(alloc: Global, source: &[u8]) -> Result<Refused, AsmFault> {
    match assemble(alloc, source, 20_000) {
        Ok(_) => Ok(None),
        Err(
            AsmFault::Broken {
                statement,
                rule,
                ..
            },
        ) => Ok(Some((statement, rule))),
        Err(AsmFault::Memory) => Err(AsmFault::Memory),
    }
}

// The object character of a digit; `?` if no cell can hold it.
fn character(digit: Digit) -> char {
    if digit.value <= 10 || digit.value == 12 || digit.value == 15 {
        char::from(object_char(digit))
    } else {
        '?'
    }
}

// Digits as object characters.
pub(crate) fn digits_text(alloc: Global, digits: &[Digit]) -> Result<String, AllocError> {
    let mut text = String::new(alloc);
    for digit in digits {
        text.push(character(*digit))?;
    }
    Ok(text)
}

// A line for each piece: its address in five digits, a blank, and its digits.
pub(crate) fn image_text(alloc: Global, image: &Image) -> Result<String, AllocError> {
    let mut text = String::new(alloc);
    for piece in image.pieces.as_slice() {
        let digits = digits_text(alloc, piece.digits.as_slice())?;
        let line = format!(in alloc; "{:05} {digits}\n", piece.from)?;
        text.push_str(&line)?;
    }
    Ok(text)
}
