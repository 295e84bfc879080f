// The statement of a line, and its shape.
ghost use Rattle.std.specs.Prelude.{◌≤◌};

/// The kind of a line. If several kinds fit, it is the first of `Long`, `Comment`, `Blank`, `BadColumn` and `Plain`.
///
/// Source: SPS manual, coding sheet; that a line has at most 80 bytes, and what comes first, are this project's own.
#[derive(Clone, Copy, Debug, PartialEq, Eq)]
pub enum Shape {
    /// Column 6 is a `*`: the line is a comment.
    Comment,
    /// Columns 6 to 75 have only blanks.
    Blank,
    /// The line has over 80 bytes.
    Long,
    /// A byte of columns 6 to 15 or of an operand part is not a character of the assembler. The assembler has the characters that
    /// have a pair of digits on cards, except `]`, `}` and `|`.
    BadColumn,
    /// Any other line: a statement with an operation.
    Plain,
}

/// A line as a statement, as far as the line has its columns. All texts are slices of the line.
///
/// If the shape is Comment, Blank or Long, all texts are empty, and the count is 0.
/// Source: SPS manual, coding sheet; the parting of operands and remark is this project's own.
#[derive(Clone, Copy, Debug)]
pub struct Statement<'a> {
    /// The kind of the line.
    pub shape: Shape,
    /// Columns 6 to 11, with their blanks.
    pub label: &'a [u8],
    /// Columns 12 to 15, with their blanks.
    pub operation: &'a [u8],
    /// The parts of the operands, from the first on; the slices after the first `count` are empty.
    pub parts: [&'a [u8]; 10],
    /// The number of parts, 1 to 10: one more than the commas between them.
    pub count: usize,
    /// The text after the comma that ends the last part that the operation may have.
    pub remark: &'a [u8],
    ghost few: { count ≤ 10 },
}
