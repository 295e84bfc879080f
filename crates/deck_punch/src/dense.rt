// The cards of the dense object deck.
// Source: this project's own.
ghost use Rattle.std.specs.Prelude.{◌≡◌, ℕ, ◌+◌, ◌<◌, ◌≤◌, [], ◌∷◌, ◌++◌, length, map, position, All};
ghost use Rattle.digit_core.specs.Cell.{IsGood};
ghost use Rattle.card_code.specs.Characters.{object_char};
ghost use Rattle.card_columns.specs.declared.columns.TheConstants.{CARD_COLUMNS};
ghost use Rattle.deck_punch.specs.Cut.{DENSE_DIGITS};
ghost use Rattle.card_columns.specs.Orders.{address_count};
ghost use Rattle.deck_punch.specs.Dense.{dense_card_of, dense_digits, repair, repair_digits, digits_on_card, place_of_repair, loader_card, bridge_card};
ghost use Rattle.deck_punch.specs.Types.{segment_run};

use crate::segment::{DENSE_DIGITS, DenseSegment};
use card_code::Card;
use card_columns::Columns;
use digit_core::Digit;

// The last position of the buffer into which the loader card reads, 00100 to 00179.
const BUFFER_END: u32 = 179;

// The position of the repair digit in the buffer; it moves to itself if no digit needs a repair.
const REPAIR_DIGIT: u32 = 110;

// A zero without a flag, and one with a flag.
const ZERO: Digit = Digit {
    flag: false,
    value: 0,
};

const FLAGGED_ZERO: Digit = Digit {
    flag: true,
    value: 0,
};

/// The dense card of a segment: its digits at the right end, and in front of them the addresses that they go to.
///
/// The loader card reads it into its buffer. It moves the field that ends in the last column to the segment's highest address,
/// which the first five columns have. It moves the digit in column 11 to the repair address, which the next five columns have. A
/// field ends at a flag, so only its leftmost digit, and perhaps its last, has a flag. The digit in column 11 replaces the digit
/// whose flag is not as in the image.
///
/// The segment's addresses are 00000 to 99999, and each of its digits is one that a cell can hold.
pub fn dense_card_of(segment: &DenseSegment) -> Card
    requires below { segment.now.from + length segment.now.digits.items ≤ address_count }
    requires good { All IsGood segment.now.digits.items }
    ensures { result.0 ≡ dense_card_of (segment_run segment.now) }
{
    let digits = segment.digits.as_slice();
    if digits.len() == 1 {
        single_card(segment.from, digits[0])
    } else {
        several_card(segment.from, digits)
    }
}

// The card of one digit, which is its own repair; a field of two zeros moves to itself.
fn single_card(from: u32, digit: Digit) -> Card
    requires below { from < address_count }
    requires good { IsGood digit }
    ensures { result.0 ≡ map object_char (dense_digits from (digit ∷ [])) }
{
    let mut columns = Columns::new();
    columns.address(BUFFER_END);
    columns.address(from);
    columns.digit(digit);
    columns.zeros(67);
    columns.digit(FLAGGED_ZERO);
    columns.digit(ZERO);
    columns.card()
}

// The card of two digits or more.
fn several_card(from: u32, digits: &[Digit]) -> Card
    requires some { 2 ≤ length digits.now }
    requires most { length digits.now ≤ DENSE_DIGITS }
    requires below { from + length digits.now ≤ address_count }
    requires good { All IsGood digits.now }
    ensures { result.0 ≡ map object_char (dense_digits from digits.now) }
{
    let mut columns = Columns::new();
    columns.address(from + (digits.len() - 1) as u32);
    put_right(&mut columns, from, digits);
    columns.zeros(DENSE_DIGITS - digits.len());
    punch(&mut columns, digits);
    columns.card()
}

// Adds the repair address and the repair digit.
fn put_right(columns: &mut Columns, from: u32, digits: &[Digit])
    requires some { 1 ≤ length digits.now }
    requires room { length columns.old + 6 ≤ CARD_COLUMNS }
    requires below { from + length digits.now ≤ address_count }
    requires good { All IsGood digits.now }
    ensures { columns.new ≡ columns.old
        ++ map object_char (repair_digits (repair from digits.now)) }
{
    match place_of_repair(digits) {
        Some(i) => {
            columns.address(from + i as u32);
            columns.digit(digits[i]);
        }
        None => {
            columns.address(REPAIR_DIGIT);
            columns.digit(ZERO);
        }
    }
}

// The digit whose flag on the card differs from the image: the first if it has no flag, else the first flagged digit after it.
fn place_of_repair(digits: &[Digit]) -> Option<usize>
    requires { 1 ≤ length digits.now }
    ensures { result ≡ place_of_repair digits.now }
{
    if !digits[0].flag {
        return Some(0);
    }
    let inner = first_flagged(&digits[1..])?;
    Some(inner + 1)
}

// The place of the first digit with a flag.
fn first_flagged(digits: &[Digit]) -> Option<usize>
    ensures { result ≡ position (λ d. d.flag) digits.now }
{
    digits.iter().position(|d| d.flag)
}

// Adds the digits as the card has them: the leftmost has a flag, and the digit to repair has none unless it is the leftmost.
fn punch(columns: &mut Columns, digits: &[Digit])
    requires some { 1 ≤ length digits.now }
    requires room { length columns.old + length digits.now ≤ CARD_COLUMNS }
    requires good { All IsGood digits.now }
    ensures { (low : ℕ) → columns.new ≡ columns.old ++ map object_char (digits_on_card low digits.now) }
{
    columns.digit(Digit {
        flag: true,
        value: digits[0].value,
    });
    let mut due = digits[0].flag;
    for digit in &digits[1..] {
        columns.digit(Digit {
            flag: digit.flag & !due,
            value: digit.value,
        });
        due &= !digit.flag;
    }
}

/// The loader card, the first card of a dense deck: it stays in 00000 to 00079 and loads the dense cards, one after another.
pub fn loader_card() -> Card
    ensures { result.0 ≡ loader_card }
{
    Card(*b"360010000500260010M00179250010R0011049000000000000000000000000000000000000000000")
}

/// The bridge card, after the last dense card: it leads from the loader card to the self-loading cards of the tables.
pub fn bridge_card() -> Card
    ensures { result.0 ≡ bridge_card }
{
    Card(*b"000420011000360000000500490000000000000000000000000000000000000000000000000]0112")
}
