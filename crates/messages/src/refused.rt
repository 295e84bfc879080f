// The refused statement of a source, as the source has it, and what may help to correct it.
// Source: this project's own.
use crate::marks::{bad_column, marked};
use crate::placing::say_place;
use crate::said::Said;
use crate::sheet::{LABEL, OPERANDS, SheetColumns, say_picture};
use crate::words::Cells;
use line_words::trimmed;
use sps_listing::{OtherStatement, RefusedLine};
use sps_ops::Rule;
use sps_pass_one::part_at;
use sps_scan::{SPECIALS, most_parts, scan};
use std::str;

// The most letters and digits that a name has.
pub(crate) const LONGEST_NAME: usize = 6;

// Shows a refused statement with what may help to correct it; nothing if its line has no byte, for example if the source has no DEND. If a line has
// over 80 bytes, the first 80 are shown.
pub(crate) fn say_refused(said: &mut Said, refused: &RefusedLine) {
    if refused.bytes == 0 {
        return;
    }
    let rule = refused.rule;
    let line = refused.text.as_slice();
    say_picture(said, line, marked(rule, refused.part, line));
    // no other advice helps with a file or a line of another kind
    if let Some(words) = encoding_of(refused.statement, line) {
        return said.line(words);
    }
    if let Some(opening) = opening_of(rule, line) {
        return said.line(format_args!(
            "a comment does not begin with {opening} here, but with a * in column 6"
        ));
    }
    say_place(said, rule, line);
    say_line(said, rule, line, refused.bytes);
    say_slip(said, rule, refused.part, line);
    if let Some(other) = &refused.other {
        say_other(said, other);
    }
}

// Says that an earlier statement already has the label, or that the part lacks the label of another statement, which breaks a rule itself.
fn say_other(said: &mut Said, other: &OtherStatement) {
    let statement = other.statement;
    let line = other.text.as_slice();
    match other.rule {
        None => said.line(format_args!("it is the label of statement {statement} already")),
        Some(rule) => {
            let name = Cells(trimmed(LABEL.of(line)));
            let number = rule.number();
            said.line(format_args!(
                "{name} is the label of statement {statement}, which breaks rule {number:02} itself"
            ));
            say_picture(said, line, marked(rule, None, line));
            say_line(said, rule, line, other.bytes);
        }
    }
}

// The advice for a file that begins with a byte order mark, in UTF-16 or UTF-8. Only the first statement of a source can have the mark.
// Source: the Unicode standard, byte order mark.
fn encoding_of(statement: u32, line: &[u8]) -> Option<&'static str> {
    if statement != 1 {
        return None;
    }
    if line.starts_with(b"\xff\xfe") || line.starts_with(b"\xfe\xff") {
        Some("the file is in UTF-16: save it as ASCII, or as UTF-8 without a byte order mark")
    } else if line.starts_with(b"\xef\xbb\xbf") {
        Some(
            "the file begins with a byte order mark (BOM), three bytes in columns 1 to 3: save it without one",
        )
    } else {
        None
    }
}

// The characters that begin a comment of another language, if the line begins with them and breaks a rule that these comments break.
fn opening_of(rule: Rule, line: &[u8]) -> Option<&'static str> {
    if !matches!(
        rule,
        Rule::BadColumn | Rule::LongCard | Rule::BadLabel | Rule::UnknownOperation
    ) {
        return None;
    }
    let blanks = line.iter().take_while(|b| **b == b' ').count();
    match line.get(blanks..).unwrap_or(line) {
        [b'/', b'/', ..] => Some("//"),
        [b'/', b'*', ..] => Some("/*"),
        [b'-', b'-', ..] => Some("--"),
        [b'#', ..] => Some("#"),
        [b';', ..] => Some(";"),
        _ if is_fortran(line) => Some("C"),
        _ => None,
    }
}

// Whether the line is a comment of FORTRAN: a C in column 1, a blank, and more. A C with blanks in columns 2 to 4 is the operation C.
fn is_fortran(line: &[u8]) -> bool {
    match line {
        [b'C', b' ', third, fourth, ..] => *third != b' ' || *fourth != b' ',
        _ => false,
    }
}

// Says how a line breaks rule 1 or 2: its first character that is not a character of the assembler, or how many bytes it has.
fn say_line(said: &mut Said, rule: Rule, line: &[u8], bytes: usize) {
    match rule {
        Rule::LongCard => said.line(format_args!("the line has {bytes} bytes")),
        Rule::BadColumn => {
            if let Some(column) = bad_column(line) {
                if let Some(rest) = line.get(column.saturating_sub(1)..) {
                    say_character(said, rest, column);
                }
            }
        }
        _ => (),
    }
}

// Says which invalid character a text begins with, and what to write. A no-break space looks like a blank.
fn say_character(said: &mut Said, text: &[u8], column: usize) {
    match character_at(text) {
        Some('\u{a0}') => said.line(format_args!(
            "a no-break space in column {column}: write a blank"
        )),
        Some(character) => said.line(format_args!(
            "the character {character} in column {column}: write blanks, A to Z, 0 to 9 or{SPECIALS}"
        )),
        None => match text.first() {
            None => (),
            Some(b'\t') => said.line(format_args!(
                "a tab in column {column}: write blanks (bin/sheet puts tabs into the sheet's columns)"
            )),
            Some(b'|') => said.line(format_args!(
                "a | in column {column}: a source has @ for the record mark"
            )),
            Some(byte) => {
                let bytes = [*byte];
                let cell = Cells(&bytes);
                if byte.is_ascii_lowercase() {
                    said.line(format_args!(
                        "a small letter, {cell}, in column {column}: write capitals"
                    ));
                } else {
                    said.line(format_args!(
                        "a byte {cell} in column {column}: write blanks, A to Z, 0 to 9 or{SPECIALS}"
                    ));
                }
            }
        },
    }
}

// The character of several bytes in UTF-8 with which a text begins, if it may be shown.
fn character_at(text: &[u8]) -> Option<char> {
    for length in 2..5usize {
        if let Some(character) = character_of(text, length) {
            return Some(character);
        }
    }
    None
}

// The character of `length` bytes in UTF-8 with which a text begins, if it may be shown.
fn character_of(text: &[u8], length: usize) -> Option<char> {
    let (bytes, _) = text.split_at_checked(length)?;
    let character = str::from_utf8(bytes).ok()?.chars().next()?;
    if character.is_ascii() || character.is_control() {
        return None;
    }
    Some(character)
}

// Says what may be wrong in the operands, by the part that the refusal names: a remark among them, a name that is too long, or an invalid length.
fn say_slip(said: &mut Said, rule: Rule, part: Option<u8>, line: &[u8]) {
    let s = scan(line);
    let operation = trimmed(s.operation);
    let shown = Cells(operation);
    let text = match (rule, part) {
        (Rule::BadColumn, _) => up_to_bad_column(line),
        (
            Rule::BadExpression
            | Rule::UndefinedSymbol
            | Rule::BadConstant
            | Rule::BadFlags
            | Rule::BadLength,
            Some(place),
        ) => Some(part_at(&s, place)),
        _ => None,
    };
    if let Some(text) = text {
        if !matches!(operation, b"DAC") && has_words(text) {
            let commas = most_parts(operation);
            let ending = plural(commas);
            return said.line(format_args!(
                "is there a remark? one of {shown} stands behind {commas} comma{ending}, those between its operands among them"
            ));
        }
        match rule {
            Rule::BadExpression => {
                if let Some(name) = long_name(text) {
                    say_long_name(said, name);
                }
            }
            Rule::BadLength => {
                if let Some(most) = most_length(operation) {
                    said.line(format_args!("behind {shown} it is 1 to {most}"));
                }
            }
            _ => (),
        }
    } else if rule == Rule::MissingOperand
        && s.count == 1
        && !trimmed(part_at(&s, 0)).is_empty()
        && matches!(operation, b"DC" | b"DSC" | b"DAC" | b"DSB")
    {
        said.line(format_args!("no comma stands behind the length of {shown}"));
    }
}

// Says that a name has too many letters and digits.
pub(crate) fn say_long_name(said: &mut Said, name: &[u8]) {
    let letters = name.len();
    let shown = Cells(name);
    said.line(format_args!(
        "{shown} has {letters} letters and digits: a name has {LONGEST_NAME} at most"
    ));
}

// The `s` of a plural.
pub(crate) fn plural(count: usize) -> &'static str {
    if count == 1 { "" } else { "s" }
}

// The greatest length or count of an operation, if it has a length or a count.
fn most_length(operation: &[u8]) -> Option<u32> {
    match operation {
        b"DC" | b"DSC" | b"DAC" | b"DNB" => Some(50),
        b"DS" | b"DSS" | b"DAS" | b"DSB" => Some(99_999),
        _ => None,
    }
}

// The operand text that ends with the bad column: from after the last comma on, or from column 16.
fn up_to_bad_column(line: &[u8]) -> Option<&[u8]> {
    let column = bad_column(line)?;
    if column < OPERANDS.first {
        return None;
    }
    let front = SheetColumns {
        first: OPERANDS.first,
        last: column,
    }
    .of(line);
    front.rsplit(|b| *b == b',').next()
}

// Whether a part has two words: a letter or a digit, blanks, and a letter or a digit. Small letters count too.
fn has_words(part: &[u8]) -> bool {
    let mut was_word = false;
    let mut is_behind_word = false;
    for byte in part {
        let is_word = byte.is_ascii_alphanumeric();
        if *byte == b' ' {
            is_behind_word = is_behind_word || was_word;
        } else if is_behind_word && is_word {
            return true;
        } else {
            is_behind_word = false;
        }
        was_word = is_word;
    }
    false
}

// The first name in a part that is too long; a number is not a name.
fn long_name(part: &[u8]) -> Option<&[u8]> {
    part.split(|b| !b.is_ascii_alphanumeric()).find(|name| name.len() > LONGEST_NAME
        && !name.iter().all(|b| b.is_ascii_digit()))
}
