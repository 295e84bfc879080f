// The refused statement of a source, as a value.
// Source: this project's own.
ghost use Rattle.std.specs.Prelude.{◌≡◌, take, IfOk};
ghost use Rattle.sps_listing.specs.Others.{other_text, other_statement};
ghost use Rattle.sps_listing.specs.Refused.{refused_text, ShowsOtherText, ShowsOther, ShowsRefused};

use crate::other_statement::other_of;
use crate::shown::line_at;
use arrayvec::ArrayVec;
use sps_ops::Rule;
use std::alloc::{AllocError, Global};

/// The refused statement of a source, with its line.
#[derive(Clone, Drop)]
pub struct RefusedLine {
    /// Its number, counted from 1.
    pub statement: u32,
    /// The least rule that it breaks.
    pub rule: Rule,
    /// The place, from 0, of the operand part that breaks the rule; `None` if the rule is not about a part.
    pub part: Option<u8>,
    /// The bytes of its line, up to 80.
    pub text: ArrayVec<u8, 80>,
    /// How many bytes its line has.
    pub bytes: usize,
    /// The other statement that the refusal is about, if any.
    pub other: Option<OtherStatement>,
}

/// Another statement that a refusal is about: the first statement with the label, or one whose label a part lacks because it
/// breaks rule 1 or 2 itself.
#[derive(Clone, Drop)]
pub struct OtherStatement {
    /// Its number, counted from 1.
    pub statement: u32,
    /// The rule, 1 or 2, that it breaks itself, so that its label is lost; `None` if it is the first statement with the label.
    pub rule: Option<Rule>,
    /// The bytes of its line, up to 80.
    pub text: ArrayVec<u8, 80>,
    /// How many bytes its line has.
    pub bytes: usize,
}

// The first 80 bytes of a line, or all.
pub(crate) fn first_bytes(line: &[u8]) -> ArrayVec<u8, 80>
    ensures { result.items ≡ take 80 line.now }
{
    let first = &line[..line.len().min(80)];
    let mut text = ArrayVec::new();
    for byte in first {
        text.push(*byte);
    }
    text
}

// The value for a statement of a source, by its number and the rule that it breaks itself.
fn shown(source: &[u8], number: u32, rule: Option<Rule>) -> OtherStatement
    ensures { ShowsOtherText (other_text source.now (number, rule)) result }
{
    let line = line_at(source, number);
    OtherStatement {
        statement: number,
        rule,
        text: first_bytes(line),
        bytes: line.len(),
    }
}

// The other statement that the refusal of a statement is about.
fn other_statement(
    alloc: Global,
    source: &[u8],
    statement: u32,
    rule: Rule,
    part: Option<u8>,
) -> Result<Option<OtherStatement>, AllocError>
    ensures { IfOk result (λ other. ShowsOther (other_statement source.now statement rule part) other) }
{
    match other_of(alloc, source, statement, rule, part)? {
        Some((number, rule)) => Ok(Some(shown(source, number, rule))),
        None => Ok(None),
    }
}

/// The refused statement of a source: the given number, rule and operand part, the first 80 bytes of its line, how many bytes the
/// line has, and the other statement that the refusal is about.
///
/// `source` is the source deck of the statement, and `statement` its number, the first being 1. The line is without its LF, and without
/// one CR before that. It is empty for a statement that the source does not have.
///
/// For `DuplicateLabel`, the other statement is the first statement with the label. For `UndefinedSymbol`, a name in the part has
/// no symbol. The label of a statement that breaks rule 1 or 2 is lost: it gives no symbol. Then the other statement is the first
/// whose lost label, together with the earlier lost labels, suffices for all names in the part. Otherwise it is `None`.
///
/// It takes memory; the error is a lack of memory.
pub fn refused_line(
    alloc: Global,
    source: &[u8],
    statement: u32,
    rule: Rule,
    part: Option<u8>,
) -> Result<RefusedLine, AllocError>
    ensures { IfOk result (λ line. ShowsRefused (refused_text source.now statement rule part) line) }
{
    let line = line_at(source, statement);
    let other = other_statement(alloc, source, statement, rule, part)?;
    Ok(RefusedLine {
        statement,
        rule,
        part,
        text: first_bytes(line),
        bytes: line.len(),
        other,
    })
}
