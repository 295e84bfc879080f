//! Statements: the lines of a source deck, by the columns of the coding sheet.
//!
//! Columns 6 to 11 of a line are its label, columns 12 to 15 its operation, and columns 16 to 75 its operands, separated by commas,
//! and its remark. Columns 1 to 5 and 76 to 80 are free. A statement copies nothing: its texts are slices of the line.
#![tactic(auto)]

ghost use Rattle.std.specs.Prelude.{◌≡◌, [], ◌∷◌};
ghost use Rattle.sps_scan.specs.Statement.{statement_text, statement_of, with_operation, without_parts, shape_of, all_allowed, is_comment, holds_nothing};
ghost use Rattle.sps_scan.specs.Spans.{AreInPlace};

mod characters;
mod columns;
mod operands;
mod statement;

pub use characters::SPECIALS;
use characters::is_allowed;
use columns::{columns, is_blank};
use operands::operands_of;
pub use operands::{most_parts, short_number};
pub use statement::{Shape, Statement};

/// The statement of a line. The function accepts any line: only the statement's shape shows an error in the line.
///
/// Commas divide the operands into at most as many parts as the operation may have: 10 for DSA, 4 for DDA, 2 for DS, DSS, DAS and
/// DNB, 1 for DGM, DORG and DEND, and 3 for any other operation, known or not. The first part of a DAC gives the number of
/// columns of its second part, a text that may have commas and blanks. If the first part is not one or two digits, the second is
/// empty and the rest is the remark. Label, operation, parts and remark are in the line in this order; between the parts there
/// are only commas.
/// Source: SPS manual, coding sheet; the parting of operands and remark is this project's own.
#[tactic(auto, unfolding(crate::specs::Statement::statement_of))]
pub fn scan<'a>(card: &'a [u8]) -> Statement<'a>
    ensures is { statement_text result ≡ statement_of card.now }
    ensures placed { AreInPlace card.now (statement_text result) }
{
    if card.len() > 80 {
        return without_parts(Shape::Long, card);
    }
    if is_comment(card) {
        return without_parts(Shape::Comment, card);
    }
    if is_blank(columns(6, 75, card)) {
        return without_parts(Shape::Blank, card);
    }
    with_parts(card)
}

/// Whether a line holds no statement: it is a comment or blank.
///
/// The answer agrees with the shape of the line's statement, but the function does not divide the operands into parts.
/// Source: SPS manual, coding sheet.
pub fn holds_nothing(card: &[u8]) -> bool
    ensures { result ≡ holds_nothing (statement_of card.now).shape }
{
    card.len() <= 80 && (is_comment(card) || is_blank(columns(6, 75, card)))
}

// The line has a `*` in column 6.
fn is_comment(card: &[u8]) -> bool
    ensures { result ≡ is_comment card.now }
{
    card.len() > 5 && card[5] == b'*'
}

// A statement of empty texts.
fn without_parts<'a>(shape: Shape, card: &'a [u8]) -> Statement<'a>
    ensures { statement_text result ≡ without_parts shape }
{
    let nothing = &card[..0];
    Statement {
        shape,
        label: nothing,
        operation: nothing,
        parts: [nothing; 10],
        count: 0,
        remark: nothing,
    }
}

// The statement of a line with an operation.
fn with_parts<'a>(card: &'a [u8]) -> Statement<'a>
    ensures { statement_text result ≡ with_operation card.now }
{
    let operation = columns(12, 15, card);
    let text = columns(16, 75, card);
    let operands = operands_of(operation, text);
    let front = &text[..text.len() - operands.remark.len()];
    Statement {
        shape: shape_of(columns(6, 15, card), front),
        label: columns(6, 11, card),
        operation,
        parts: operands.parts,
        count: operands.count,
        remark: operands.remark,
    }
}

// The shape of a line with an operation: plain if columns 6 to 15 and the operands before the remark, with their commas, have
// only characters of the assembler.
fn shape_of(columns: &[u8], operands: &[u8]) -> Shape
    ensures { result ≡ shape_of columns.now (operands.now ∷ []) }
{
    if all_allowed(columns) && all_allowed(operands) {
        Shape::Plain
    } else {
        Shape::BadColumn
    }
}

/// Whether each byte of a text is a character of the assembler: a blank, a letter, a digit or one of [`SPECIALS`].
///
/// Source: SPS manual, character set; that `]`, `}` and `|` are left out is this project's own.
pub fn all_allowed(text: &[u8]) -> bool
    ensures { result ≡ all_allowed text.now }
{
    text.iter().all(|b| is_allowed(*b))
}
