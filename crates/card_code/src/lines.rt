// The lines of a unit, read through a buffer of fixed size.
// Source: this project's own.
ghost use Rattle.std.specs.Prelude.{◌≡◌, ◌≤◌, ◌<◌, ℕ, [], length, true};
ghost use Rattle.outside_io.specs.World.{is_input, World};
ghost use Rattle.outside_io.specs.Lines.{HasNoEnd};
ghost use Rattle.card_code.specs.declared.lines.TheConstants.{LINE_ROOM, PIECE_ROOM};

use crate::tally::{ReadAs, Tally};
use crate::text::Line;
use arrayvec::ArrayVec;
use memchr::memchr;
use outside_io::{Host, Take, Unit, without_return};

/// The answer of a call that reads a line.
#[derive(Clone, Copy, Debug)]
pub enum LineAnswer {
    /// The next line. It is taken.
    Line(Line),
    /// No line is left.
    End,
    /// The next line is over 80 bytes, and is not taken. This is its number in its unit, counted from 1.
    Jam(u64),
    /// The host failed.
    Failed,
}

/// Whether anything is left to be read.
#[derive(Clone, Copy, Debug, PartialEq, Eq)]
pub enum More {
    /// A byte is left.
    Yes,
    /// Nothing is left.
    No,
    /// The host failed.
    Failed,
}

// The room for a line: its 80 bytes, a CR, and one byte more, which shows that the line is too long.
const LINE_ROOM: usize = 82;

// The room for the bytes that one call takes from the host. With `LINE_ROOM` it is 4,096 bytes.
const PIECE_ROOM: usize = 4014;

/// The lines of an input unit, handed out one after another.
///
/// A LF ends a line; a last line without LF counts if it has a byte. One CR at the end of a line is dropped. However the host cuts the
/// unit's bytes into pieces, the lines are the same. At most 4,096 bytes are taken from the unit and not handed out yet.
///
/// A caller that stores characters of a line tallies the bad ones with [`Lines::take_up`].
#[derive(Drop)]
pub struct Lines {
    unit: Unit,
    number: u64,
    bad: Tally,
    held: ArrayVec<u8, LINE_ROOM>,
    piece: [u8; PIECE_ROOM],
    start: usize,
    end: usize,
    ghost input: { is_input unit ≡ true },
    ghost in_order: { start ≤ end },
    ghost in_piece: { end ≤ PIECE_ROOM },
    ghost in_room: { length held.items ≤ LINE_ROOM },
    ghost no_end: { HasNoEnd held.items },
}

impl Lines {
    ghost use Rattle.card_code.specs.Reader.{bytes_held, unit_of, lines_handed_out, lines_tally, with_bad_stored, lines_rest, entries_left, NextLine, NextOf, HasMore, MoreOf, HasWhole, TakesNeeded, AsksOnce, IsInTurn, IsOneAhead};
    ghost use Rattle.card_code.specs.declared.lines.More.TheVariants as more;
    ghost use Rattle.card_code.specs.Entries.{unit_entries};
    ghost use Rattle.card_code.specs.Readings.{no_bad};
    ghost use Rattle.card_code.specs.Holding.{HoldsMore, HandsOut, EndsNext};

    /// The lines that a unit has left. No line is handed out yet, and the host was not asked for any.
    ///
    /// `unit` is an input.
    pub fn new(unit: Unit) -> Lines
        requires { is_input unit ≡ true }
        ensures unit { unit_of result ≡ unit }
        ensures number { lines_handed_out result ≡ 0 }
        ensures tally { lines_tally result ≡ no_bad }
        ensures left { (w : World) → lines_rest result w ≡ w.left unit }
        ensures entries { (w : World) → entries_left result w ≡ unit_entries unit w }
        ensures held { bytes_held result ≡ [] }
        ensures turn { (w : World) → IsInTurn result w }
    {
        Lines {
            unit,
            number: 0,
            bad: Tally::new(),
            held: ArrayVec::new(),
            piece: [0; PIECE_ROOM],
            start: 0,
            end: 0,
        }
    }

    /// Hands out the next line, which is then gone.
    ///
    /// `End` exactly if nothing is left. `Jam` exactly if the next line is over 80 bytes; the line stays, so each later call answers
    /// `Jam` too. `Failed` only if the host's count of faults rose; the lines that are left are then as before.
    ///
    /// No byte is taken early: the host is asked only while the bytes held have no LF and are fewer than 82, more than any line has. So a
    /// line is handed out before the host is asked for bytes after the piece that ends it, and a call does not ask again after the host
    /// found the unit's end. This holds for all calls since the reader was made: the unit was asked only when the lines handed out or the
    /// next line needed bytes, and once by [`Lines::more`] after each line.
    #[tactic(auto, using(crate::proofs::Readers::short))]
    pub fn next_line<H: Host>(&mut self, host: &mut H) -> LineAnswer
        ensures line { NextLine self.old self.new (H.seen host.old) (H.seen host.new) result }
        ensures entry { NextOf self.old self.new (H.seen host.old) (H.seen host.new) result }
        ensures still { HasWhole (bytes_held self.old) → H.seen host.new ≡ H.seen host.old }
        ensures needed { TakesNeeded self.old (H.seen host.old) (H.seen host.new) }
        ensures turn { IsOneAhead self.old (H.seen host.old).world
            → IsInTurn self.new (H.seen host.new).world }
        ensures held { length (bytes_held self.new) ≤ 4096 }
        ensures tally { lines_tally self.new ≡ lines_tally self.old }
    {
        loop {
            if self.hold_more() {
                return self.hand_out(true);
            }
            if self.held.is_full() {
                return self.hand_out(false);
            }
            match host.take(self.unit, &mut self.piece) {
                Take::Got(n) => {
                    self.start = 0;
                    self.end = n;
                }
                Take::End => {
                    if self.held.is_empty() {
                        return LineAnswer::End;
                    }
                    return self.hand_out(false);
                }
                Take::Failed => return LineAnswer::Failed,
            }
        }
    }

    /// Whether a byte is left. The lines that are left stay as they are.
    ///
    /// `Failed` only if the host's count of faults rose. If a byte is held, the host isn't asked; otherwise it is asked once.
    #[tactic(auto, using(crate::proofs::Readers::short))]
    pub fn more<H: Host>(&mut self, host: &mut H) -> More
        ensures more { HasMore self.old self.new (H.seen host.old) (H.seen host.new) result }
        ensures entry { MoreOf self.old self.new (H.seen host.old) (H.seen host.new) result }
        ensures still { 0 < length (bytes_held self.old) → H.seen host.new ≡ H.seen host.old }
        ensures once { AsksOnce self.old (H.seen host.old) (H.seen host.new) }
        ensures ahead { IsOneAhead self.old (H.seen host.old).world
            → IsOneAhead self.new (H.seen host.new).world }
        ensures turn { (result ≡ more.Yes → ⊥) → IsInTurn self.old (H.seen host.old).world
            → IsInTurn self.new (H.seen host.new).world }
        ensures held { length (bytes_held self.new) ≤ 4096 }
        ensures tally { lines_tally self.new ≡ lines_tally self.old }
    {
        if !self.held.is_empty() || self.start < self.end {
            return More::Yes;
        }
        match host.take(self.unit, &mut self.piece) {
            Take::Got(n) => {
                self.start = 0;
                self.end = n;
                More::Yes
            }
            Take::End => More::No,
            Take::Failed => More::Failed,
        }
    }

    /// How many lines were handed out since the reader was made: the number that the last of them has in its unit. The count stops at
    /// 2^64 - 1.
    pub fn handed_out(&self) -> u64
        ensures { result ≡ lines_handed_out self.now }
    {
        self.number
    }

    /// The bad characters that were tallied: the first of them with its line and column, and how many they are.
    pub fn bad_characters(&self) -> Tally
        ensures { result ≡ lines_tally self.now }
    {
        self.bad
    }

    /// Tallies the bad characters among those that were stored of the line that was handed out last.
    ///
    /// `stored` has its first characters, at most 80, and `how` says how they were read.
    pub fn take_up(&mut self, how: ReadAs, stored: &[u8])
        requires { length stored.now ≤ 80 }
        ensures { self.new ≡ with_bad_stored how stored.now self.old }
    {
        self.bad.take_up(self.unit, self.number, how, stored);
    }

    // Holds bytes of the piece, up to the end of the line and as far as there is room. Whether it was found.
    fn hold_more(&mut self) -> bool
        ensures { HoldsMore self.old self.new result }
    {
        let held = &mut self.held;
        let piece = self.piece.as_slice();
        let ahead = &piece[self.start..self.end];
        let ahead = &ahead[..ahead.len().min(held.remaining_capacity())];
        let found = memchr(b'\n', ahead);
        let count = found.unwrap_or(ahead.len());
        // There is room for all of them.
        let _ = held.try_extend_from_slice(&ahead[..count]);
        self.start += count;
        found.is_some()
    }

    // Hands out `held` as a line, and skips the LF after it if `ends` says that it is next.
    fn hand_out(&mut self, ends: bool) -> LineAnswer
        requires { EndsNext self.old ends }
        ensures { HandsOut self.old self.new ends result }
    {
        let text = without_return(&self.held);
        let number = self.number.saturating_add(1);
        if text.len() > 80 {
            return LineAnswer::Jam(number);
        }
        let line = Line::new(text);
        self.held.clear();
        self.number = number;
        if ends {
            self.start += 1;
        }
        LineAnswer::Line(line)
    }
}
