// One walk over the statements of a source.
ghost use Rattle.std.specs.Prelude.{◌≤◌};

use crate::layout::{MOST_STATEMENTS, counts_if, ends_if, head_after};
use crate::looked_up::LookedUp;
use outside_io::split_line;
use std::marker::Model;

/// A line of a source, as a walk gives it.
///
/// Source: this project's own.
#[derive(Clone, Copy)]
pub struct SourceLine<'a> {
    /// The number of its statement, 1 to 20,001; the first line of a source has 1.
    pub number: u32,
    /// The line, without its LF and without one CR at its end.
    pub text: &'a [u8],
    ghost few: { number ≤ 20001 },
}

/// A walk over the lines of a source in their order, up to statement 20,001; it ignores the lines after that statement.
///
/// `next` gives a line. A caller that needs `head` or `ended` scans the line, and gives its statement to the walk by `pass`. The
/// walk does not scan lines itself, since a statement is too large to hand on.
///
/// Contracts see the number of the next line, the head in force, whether a DEND that counts was passed, and the lines left.
/// Source: SPS manual, HEAD and DEND; how many statements are looked at is this project's own.
#[derive(Drop)]
pub struct Walk<'a> {
    number: u32,
    head: Option<u8>,
    ended: bool,
    rest: &'a [u8],
}

impl<'a> Model for Walk<'a> {
    ghost use Rattle.std.specs.Prelude.{◌≤◌};
    ghost use Rattle.sps_pass_one.specs.Walk.{WalkText, source_lines_left};

    ghost Value = { WalkText };

    ghost view = { λ w. record { number = w.number; head = w.head; ended = w.ended; lines = source_lines_left w.number w.rest.now } };

    ghost invariant = { λ w. w.number ≤ 20002 };
}

impl<'a> Walk<'a> {
    ghost use Rattle.std.specs.Prelude.{◌≡◌};
    ghost use Rattle.sps_scan.specs.Statement.{statement_text};
    ghost use Rattle.sps_pass_one.specs.Walk.{walk_of, walk_past};

    /// A walk before the first line of a source; no head is in force there.
    ///
    /// Source: SPS manual, HEAD.
    #[inline(always)]
    pub fn new(source: &'a [u8]) -> Walk<'a>
        ensures { result ≡ walk_of source.now }
    {
        Walk {
            number: 1,
            head: None,
            ended: false,
            rest: source,
        }
    }

    /// The number of the next line, also if no line is left.
    ///
    /// Source: this project's own.
    #[inline(always)]
    pub fn number(&self) -> u32
        ensures { result ≡ self.now.number }
    {
        self.number
    }

    /// The head in force after the statements that were passed.
    ///
    /// Source: SPS manual, HEAD.
    #[inline(always)]
    pub fn head(&self) -> Option<u8>
        ensures { result ≡ self.now.head }
    {
        self.head
    }

    /// Whether a DEND that counts is one of the statements that were passed.
    ///
    /// Source: SPS manual, DEND.
    #[inline(always)]
    pub fn ended(&self) -> bool
        ensures { result ≡ self.now.ended }
    {
        self.ended
    }

    /// Passes the statement of the line that the walk gave last.
    ///
    /// Source: SPS manual, HEAD and DEND; which statements count is this project's own.
    #[inline(always)]
    pub fn pass(&mut self, s: &LookedUp<'_>)
        ensures { self.new ≡ walk_past self.old (statement_text s.now.scanned.now) }
    {
        let active = counts_if(self.ended, s.scanned.shape);
        self.head = head_after(self.head, active, s);
        self.ended = ends_if(self.ended, active, s);
    }
}

impl<'a> Iterator for Walk<'a> {
    ghost use Rattle.std.specs.Prelude.{length};
    ghost use Rattle.std.specs.Iterator.{at_most};
    ghost use Rattle.sps_pass_one.specs.Walk.{WalksOn};

    type Item = SourceLine<'a>;

    ghost next_gives = { WalksOn };

    ghost remaining = { λ w. at_most (length w.lines) };

    /// The next line, or `None` if no line is left or statement 20,001 was the last.
    ///
    /// Source: this project's own.
    #[inline(always)]
    fn next(&mut self) -> Option<SourceLine<'a>> {
        if self.number > MOST_STATEMENTS + 1 {
            return None;
        }
        let (text, behind) = split_line(self.rest)?;
        let line = SourceLine {
            number: self.number,
            text,
        };
        self.number += 1;
        self.rest = behind;
        Some(line)
    }
}
