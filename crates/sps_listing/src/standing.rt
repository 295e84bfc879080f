// A statement of a source, as a value.
// Source: this project's own.
ghost use Rattle.sps_listing.specs.Standing.{standing_text, ShowsStanding};

use crate::refused_statement::first_bytes;
use crate::shown::line_at;
use arrayvec::ArrayVec;

/// A statement of a source, with its line.
#[derive(Clone, Drop)]
pub struct StandingLine {
    /// Its number, counted from 1.
    pub statement: u32,
    /// The bytes of its line, up to 80.
    pub text: ArrayVec<u8, 80>,
    /// How many bytes its line has.
    pub bytes: usize,
}

/// A statement of a source: the given number, the first 80 bytes of its line, and how many bytes the line has.
///
/// `source` is the source deck of the statement, and `statement` its number, the first being 1. The line is without its LF, and without
/// one CR before that. It is empty for a statement that the source does not have. The call takes no memory.
pub fn standing_line(source: &[u8], statement: u32) -> StandingLine
    ensures { ShowsStanding (standing_text source.now statement) result }
{
    let line = line_at(source, statement);
    StandingLine {
        statement,
        text: first_bytes(line),
        bytes: line.len(),
    }
}
