// A tally of the bad characters that were read. The machine shows only that there was one, by the read check 06.
ghost use Rattle.std.specs.Prelude.{◌≡◌, ◌≤◌, length};
ghost use Rattle.card_code.specs.Readings.{is_bad, bad_from, no_bad, with_bad, with_one};

use crate::characters::num_of;
use crate::pairs::alpha_of;
use outside_io::Unit;

/// How a character goes into core.
///
/// Source: CPU manual, read numerically and read alphamerically.
#[derive(Clone, Copy, Debug, PartialEq, Eq)]
pub enum ReadAs {
    /// As one digit.
    Digit,
    /// As two digits, the zone and the number.
    Pair,
}

/// A character that was read, and that has no digit, or no pair of digits, as it was read.
///
/// Source: this project's own.
#[derive(Clone, Copy, Debug, PartialEq, Eq)]
pub struct BadCharacter {
    /// The unit of its card or line: Deck, Data or Keys.
    pub unit: Unit,
    /// The number of its card or line there, counted from 1.
    pub line: u64,
    /// Its column, 1 to 80.
    pub column: u32,
    /// The character.
    pub byte: u8,
}

/// The bad characters that were read.
///
/// Source: this project's own.
#[derive(Clone, Copy, Debug, PartialEq, Eq)]
pub struct Tally {
    /// The first of them, if there was one.
    pub first: Option<BadCharacter>,
    /// How many there were. The count stops at 2^64 - 1.
    pub count: u64,
}

impl Tally {
    /// The tally before anything is read.
    ///
    /// Source: this project's own.
    pub fn new() -> Tally
        ensures { result ≡ no_bad }
    {
        Tally {
            first: None,
            count: 0,
        }
    }

    /// Tallies the bad ones of some characters, from column 1 on, one after another.
    ///
    /// `how` says how they were read. `unit` and `line` are the unit of their card or keyboard line, and its number there.
    /// Source: this project's own.
    pub fn take_up(&mut self, unit: Unit, line: u64, how: ReadAs, text: &[u8])
        requires { length text.now ≤ 80 }
        ensures { self.new ≡ with_bad (bad_from unit line how 1 text.now) self.old }
    {
        let mut column = 1;
        for &byte in text {
            if is_bad(how, byte) {
                self.add(BadCharacter {
                    unit,
                    line,
                    column,
                    byte,
                });
            }
            column += 1;
        }
    }

    // Tallies one bad character.
    fn add(&mut self, bad: BadCharacter)
        ensures { self.new ≡ with_one bad self.old }
    {
        if self.first.is_none() {
            self.first = Some(bad);
        }
        self.count = self.count.saturating_add(1);
    }
}

/// Whether a character has no digit, or no pair of digits, as it is read: the machine stores zeros for it.
///
/// Source: 1622 manual, numerical reading and alphameric reading; which bytes are bad is this project's own.
pub fn is_bad(how: ReadAs, c: u8) -> bool
    ensures { result ≡ is_bad how c }
{
    match how {
        ReadAs::Digit => num_of(c).is_none(),
        ReadAs::Pair => alpha_of(c).is_none(),
    }
}
