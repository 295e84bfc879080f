// Operands, divided into parts by commas, and the remark after them.
ghost use Rattle.std.specs.Prelude.{◌≡◌, ◌≤◌, length, map};
ghost use Rattle.sps_scan.specs.Columns.{before_comma, after_comma};
ghost use Rattle.sps_scan.specs.Numbers.{short_number};
ghost use Rattle.sps_scan.specs.Operands.{operands_of, most_parts, ten_parts, parts_of, remark_of, dac_operands};
ghost use Rattle.sps_scan.specs.Statement.{now_of};
ghost use Rattle.line_words.specs.Blanks.{trimmed};

use crate::columns::split_comma;
use line_words::{find, trimmed};

// The operations whose greatest number of parts is not three, each with this number.
static PART_COUNTS: [(&str, usize); 9] = [
    ("DS", 2),
    ("DSS", 2),
    ("DAS", 2),
    ("DSA", 10),
    ("DNB", 2),
    ("DGM", 1),
    ("DDA", 4),
    ("DORG", 1),
    ("DEND", 1),
];

// The parts of the operands, the number of parts, and the remark.
#[derive(Clone, Copy)]
pub(crate) struct OperandParts<'a> {
    pub(crate) parts: [&'a [u8]; 10],
    pub(crate) count: usize,
    pub(crate) remark: &'a [u8],
}

// The operands in columns 16 to 75, by the operation in columns 12 to 15.
pub(crate) fn operands_of<'a>(operation: &[u8], text: &'a [u8]) -> OperandParts<'a>
    ensures parts { map now_of result.parts
        ≡ ten_parts (operands_of (trimmed operation.now) text.now).parts }
    ensures count { result.count ≡ length (operands_of (trimmed operation.now) text.now).parts }
    ensures few { result.count ≤ 10 }
    ensures remark { result.remark.now ≡ (operands_of (trimmed operation.now) text.now).remark }
{
    match operation {
        // Only names that begin with a D have a text, or a greatest number of parts other than three.
        [first, ..] if *first != b'D' && *first != b' ' => parted(3, text),
        _ => named_operands(trimmed(operation), text),
    }
}

// The operands, by the name of the operation.
fn named_operands<'a>(name: &[u8], text: &'a [u8]) -> OperandParts<'a>
    ensures parts { map now_of result.parts ≡ ten_parts (operands_of name.now text.now).parts }
    ensures count { result.count ≡ length (operands_of name.now text.now).parts }
    ensures few { result.count ≤ 10 }
    ensures remark { result.remark.now ≡ (operands_of name.now text.now).remark }
{
    if name == b"DAC".as_slice() {
        dac_operands(text)
    } else {
        parted(most_parts(name), text)
    }
}

/// The greatest number of parts that the operands of a statement have, by the name of its operation: 3 for an instruction, and for a text
/// that names no operation.
///
/// Source: SPS manual, declarative operations; the numbers are this project's own.
pub fn most_parts(name: &[u8]) -> usize
    ensures is { result ≡ most_parts name.now }
    ensures some { 1 ≤ result }
    ensures ten { result ≤ 10 }
{
    find(&PART_COUNTS, name).unwrap_or(3)
}

// At most `most` parts, each up to a comma or to the end of the text, and the remark after them.
fn parted<'a>(most: usize, text: &'a [u8]) -> OperandParts<'a>
    requires some { 1 ≤ most }
    requires ten { most ≤ 10 }
    ensures parts { map now_of result.parts ≡ ten_parts (parts_of most text.now) }
    ensures count { result.count ≡ length (parts_of most text.now) }
    ensures few { result.count ≤ 10 }
    ensures remark { result.remark.now ≡ remark_of most text.now }
{
    let nothing = &text[..0];
    let mut parts = [nothing; 10];
    let mut count = 0;
    let mut rest = text;
    while count < most {
        let (part, behind) = split_comma(rest);
        parts[count] = part;
        count += 1;
        match behind {
            None => {
                return OperandParts {
                    parts,
                    count,
                    remark: nothing,
                };
            }
            Some(behind) => rest = behind,
        }
    }
    OperandParts {
        parts,
        count,
        remark: rest,
    }
}

// The parts of a DAC: a number of columns, the text of those columns, and an address.
fn dac_operands<'a>(text: &'a [u8]) -> OperandParts<'a>
    ensures parts { map now_of result.parts ≡ ten_parts (dac_operands text.now).parts }
    ensures count { result.count ≡ length (dac_operands text.now).parts }
    ensures few { result.count ≤ 10 }
    ensures remark { result.remark.now ≡ (dac_operands text.now).remark }
{
    let nothing = &text[..0];
    let mut parts = [nothing; 10];
    let (first, behind) = split_comma(text);
    parts[0] = first;
    let Some(rest) = behind else {
        return OperandParts {
            parts,
            count: 1,
            remark: nothing,
        };
    };
    let Some(n) = short_number(first) else {
        return OperandParts {
            parts,
            count: 2,
            remark: rest,
        };
    };
    let n = usize::from(n);
    let (second, behind) = rest.split_at(rest.len().min(n));
    parts[1] = second;
    match behind {
        [comma, behind @ ..] if *comma == b',' => {
            let (third, remark) = last_part(behind);
            parts[2] = third;
            OperandParts {
                parts,
                count: 3,
                remark,
            }
        }
        _ => OperandParts {
            parts,
            count: 2,
            remark: behind,
        },
    }
}

/// The number that one or two digits stand for; `None` for any other text.
///
/// The assembler reads the first part of a DAC with it.
/// Source: this project's own.
pub fn short_number(text: &[u8]) -> Option<u8>
    ensures { result ≡ short_number text.now }
{
    match text {
        [a] if a.is_ascii_digit() => Some(*a - b'0'),
        [a, b] if a.is_ascii_digit() && b.is_ascii_digit() => {
            Some(10 * (*a - b'0') + (*b - b'0'))
        }
        _ => None,
    }
}

// The text before the first comma, and the text after that comma, or nothing without a comma.
fn last_part<'a>(text: &'a [u8]) -> (&'a [u8], &'a [u8])
    ensures part { result.0.now ≡ before_comma text.now }
    ensures behind { result.1.now ≡ after_comma text.now }
{
    match split_comma(text) {
        (part, Some(behind)) => (part, behind),
        (part, None) => (part, &text[..0]),
    }
}
