// The columns of a card, filled from its left.
ghost use Rattle.std.specs.Prelude.{◌≡◌, ◌+◌, ◌<◌, ◌≤◌, ◌/◌, ◌%◌, [], ◌∷◌, ◌++◌, length, map, replicate, All};
ghost use Rattle.digit_core.specs.Cell.{IsGood, unflagged_digit};
ghost use Rattle.card_code.specs.Characters.{object_char};
ghost use Rattle.card_columns.specs.Orders.{address, address_count, instruction_columns};

use card_code::{Card, object_char};
use digit_core::Digit;
use std::marker::Model;

/// How many columns a card has.
///
/// Source: 1622 manual, card format.
pub const CARD_COLUMNS: usize = 80;

/// A card that is being filled from its left. Contracts see the bytes of the columns filled so far.
///
/// Source: this project's own.
#[derive(Drop)]
pub struct Columns {
    bytes: [u8; CARD_COLUMNS],
    count: usize,
}

impl Model for Columns {
    ghost use Rattle.std.specs.Prelude.{ℕ, List, ◌≤◌, take};
    ghost use Rattle.card_columns.specs.declared.columns.TheConstants.{CARD_COLUMNS};

    ghost Value = { List ℕ };

    ghost view = { λ c. take c.count c.bytes };

    ghost invariant = { λ c. c.count ≤ CARD_COLUMNS };
}

impl Columns {
    /// A card with no column filled yet.
    ///
    /// Source: this project's own.
    pub fn new() -> Columns
        ensures { result ≡ [] }
    {
        Columns {
            bytes: [b'0'; CARD_COLUMNS],
            count: 0,
        }
    }

    /// Adds a digit that a cell can hold; there is room for it.
    ///
    /// Source: this project's own.
    pub fn digit(&mut self, digit: Digit)
        requires room { length self.old < CARD_COLUMNS }
        requires good { IsGood digit }
        ensures { self.new ≡ self.old ++ object_char digit ∷ [] }
    {
        self.bytes[self.count] = object_char(digit);
        self.count += 1;
    }

    // Adds a decimal digit without a flag.
    fn plain(&mut self, value: u8)
        requires room { length self.old < CARD_COLUMNS }
        requires decimal { value ≤ 9 }
        ensures { self.new ≡ self.old ++ object_char (unflagged_digit value) ∷ [] }
    {
        self.digit(Digit { flag: false, value });
    }

    /// Adds digits that cells can hold; there is room for them.
    ///
    /// Source: this project's own.
    pub fn digits(&mut self, digits: &[Digit])
        requires room { length self.old + length digits.now ≤ CARD_COLUMNS }
        requires good { All IsGood digits.now }
        ensures { self.new ≡ self.old ++ map object_char digits.now }
    {
        for digit in digits {
            self.digit(*digit);
        }
    }

    /// Adds `count` zeros; there is room for them.
    ///
    /// Source: this project's own.
    pub fn zeros(&mut self, count: usize)
        requires room { length self.old + count ≤ CARD_COLUMNS }
        ensures { self.new ≡ self.old ++ map object_char (replicate count (unflagged_digit 0)) }
    {
        for _i in 0..count {
            self.plain(0);
        }
    }

    /// Adds the five digits of an address, 00000 to 99999; there is room for them.
    ///
    /// Source: this project's own.
    pub fn address(&mut self, at: u32)
        requires room { length self.old + 5 ≤ CARD_COLUMNS }
        requires below { at < address_count }
        ensures { self.new ≡ self.old ++ map object_char (address at []) }
    {
        self.plain((at / 10_000 % 10) as u8);
        self.plain((at / 1_000 % 10) as u8);
        self.plain((at / 100 % 10) as u8);
        self.plain((at / 10 % 10) as u8);
        self.plain((at % 10) as u8);
    }

    /// Adds an instruction, by its opcode of two digits and its P and Q addresses; there is room for its 12 digits.
    ///
    /// Source: this project's own.
    pub fn order(&mut self, opcode: u8, p: u32, q: u32)
        requires room { length self.old + 12 ≤ CARD_COLUMNS }
        requires opcode { opcode < 100 }
        requires p { p < address_count }
        requires q { q < address_count }
        ensures { self.new ≡ self.old ++ map object_char (instruction_columns opcode p q []) }
    {
        self.plain(opcode / 10);
        self.plain(opcode % 10);
        self.address(p);
        self.address(q);
    }

    /// The card, once all its columns are filled.
    ///
    /// Source: this project's own.
    pub fn card(&self) -> Card
        requires { length self.now ≡ CARD_COLUMNS }
        ensures { result.0 ≡ self.now }
    {
        Card(self.bytes)
    }
}
