// The cards of the object deck.
ghost use Rattle.std.specs.Prelude.{◌≡◌, ◌+◌, ◌<◌, ◌≤◌, [], ◌∷◌, ◌++◌, length, map, All};
ghost use Rattle.digit_core.specs.Cell.{IsGood};
ghost use Rattle.card_code.specs.Characters.{object_char};
ghost use Rattle.card_columns.specs.declared.columns.TheConstants.{CARD_COLUMNS};
ghost use Rattle.deck_punch.specs.Cut.{SEGMENT_DIGITS};
ghost use Rattle.card_columns.specs.Orders.{address_count};
ghost use Rattle.deck_punch.specs.Cards.{segment_digits, card_of, transfer_card, unflagging, read_and_go};
ghost use Rattle.deck_punch.specs.Types.{segment_run};

use crate::segment::{SEGMENT_DIGITS, Segment};
use card_code::Card;
use card_columns::Columns;
use digit_core::Digit;

// The opcodes of the cards' instructions that no other deck has.
const TRANSMIT_DIGIT: u8 = 25;

const TRANSMIT_FIELD: u8 = 26;

const CLEAR_FLAG: u8 = 33;

const NO_OPERATION: u8 = 41;

/// The opcode of a card's instruction that reads the next card, or reads from another device; its Q address names the device.
///
/// Source: CPU manual, read numerically.
pub const READ_NUMERICALLY: u8 = 36;

/// The opcode of a card's instruction that branches.
///
/// Source: CPU manual, branch.
pub const BRANCH: u8 = 49;

// The address of a card's last column, if the card is read into 00000.
const LAST_COLUMN: u32 = 79;

/// The Q address of an instruction for the card reader, device 05.
///
/// Source: CPU manual, read numerically.
pub const CARD_READER: u32 = 500;

/// The card that loads a segment: four instructions, and the segment's digits at its right end.
///
/// Read into 00000 to 00079 and started there, it copies its one digit, or moves the field of its digits, to the segment's
/// address. A field needs a flag at its lowest digit; if the image has no flag there, the second instruction clears it. The third
/// reads the next card over this one, and the fourth goes to that card's first instruction.
///
/// The segment's addresses are 00000 to 99999, and each of its digits is one that a cell can hold.
/// Source: this project's own.
pub fn card_of(segment: &Segment) -> Card
    requires below { segment.now.from + length segment.now.digits.items ≤ address_count }
    requires good { All IsGood segment.now.digits.items }
    ensures { result.0 ≡ card_of (segment_run segment.now) }
{
    let digits = segment.digits.as_slice();
    if digits.len() == 1 {
        digit_card(segment.from, digits[0])
    } else {
        field_card(segment.from, digits)
    }
}

// The card of one digit.
fn digit_card(from: u32, digit: Digit) -> Card
    requires below { from < address_count }
    requires good { IsGood digit }
    ensures { result.0 ≡ map object_char (segment_digits from (digit ∷ [])) }
{
    let mut columns = Columns::new();
    columns.order(TRANSMIT_DIGIT, from, LAST_COLUMN);
    columns.order(NO_OPERATION, 0, 0);
    read_and_go(&mut columns);
    columns.zeros(31);
    columns.digit(digit);
    columns.card()
}

// The card of two digits or more.
fn field_card(from: u32, digits: &[Digit]) -> Card
    requires some { 2 ≤ length digits.now }
    requires most { length digits.now ≤ SEGMENT_DIGITS }
    requires below { from + length digits.now ≤ address_count }
    requires good { All IsGood digits.now }
    ensures { result.0 ≡ map object_char (segment_digits from digits.now) }
{
    let lowest = digits[0];
    let mut columns = Columns::new();
    columns.order(
        TRANSMIT_FIELD,
        from + (digits.len() - 1) as u32,
        LAST_COLUMN,
    );
    unflag(&mut columns, lowest.flag, from);
    read_and_go(&mut columns);
    columns.zeros(SEGMENT_DIGITS - digits.len());
    columns.digit(Digit {
        flag: true,
        value: lowest.value,
    });
    columns.digits(&digits[1..]);
    columns.card()
}

// Adds the instruction that clears the flag of the lowest digit, or one that does nothing if the image has that flag.
fn unflag(card: &mut Columns, flagged: bool, low: u32)
    requires room { length card.old + 12 ≤ CARD_COLUMNS }
    requires below { low < address_count }
    ensures { card.new ≡ card.old ++ map object_char (unflagging flagged low []) }
{
    if flagged {
        card.order(NO_OPERATION, 0, 0);
    } else {
        card.order(CLEAR_FLAG, low, 0);
    }
}

// Adds the instructions that read the next card over this one and go to its first instruction.
fn read_and_go(card: &mut Columns)
    requires room { length card.old + 24 ≤ CARD_COLUMNS }
    ensures { card.new ≡ card.old ++ map object_char (read_and_go []) }
{
    card.order(READ_NUMERICALLY, 0, CARD_READER);
    card.order(BRANCH, 0, 0);
}

/// The transfer card, the last card of a deck: it goes to the start.
///
/// The card before reads it over itself and goes on at 00036. So a jump to 00000 is at 00036, and the jump to the start at 00000.
/// `start` is 00000 to 99999.
/// Source: this project's own.
pub fn transfer_card(start: u32) -> Card
    requires { start < address_count }
    ensures { result.0 ≡ transfer_card start }
{
    let mut columns = Columns::new();
    columns.order(BRANCH, start, 0);
    columns.zeros(24);
    columns.order(BRANCH, 0, 0);
    columns.zeros(SEGMENT_DIGITS);
    columns.card()
}
