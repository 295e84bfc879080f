// The columns of the listing before a line.
ghost use Rattle.std.specs.Prelude.{◌≡◌, ◌≤◌, ◌+◌, ◌++◌, length};
ghost use Rattle.arrayvec.specs.ArrayString.{array_string_len};
ghost use Rattle.card_code.specs.Characters.{object_char};
ghost use Rattle.digit_core.specs.Cell.{is_cell_value};
ghost use Rattle.sps_scan.specs.Statement.{statement_of};
ghost use Rattle.sps_pass_two.specs.Making.{text_of_placed};
ghost use Rattle.sps_listing.specs.Texts.{object_text};
ghost use Rattle.sps_listing.specs.Listing.{has_no_address, listed_address, listed_columns, twelve_columns};

use arrayvec::ArrayString;
use card_code::object_char;
use digit_core::Digit;
use report_lines::{LONGEST_LINE, push_long, push_padded};
use sps_pass_two::Placed;
use sps_scan::holds_nothing;

// A cell can hold the value.
fn is_value(value: u8) -> bool
    ensures { result ≡ is_cell_value value }
{
    value <= 10 || value == 12 || value == 15
}

// The object character of a digit; a blank for one that no cell can hold.
fn shown_char(digit: Digit) -> u8
    ensures { result ≡ object_char digit }
{
    if is_value(digit.value) {
        object_char(digit)
    } else {
        b' '
    }
}

// Adds digits as object characters.
fn push_digits(line: &mut ArrayString<LONGEST_LINE>, digits: &[Digit])
    requires { array_string_len line.old + length digits.now ≤ 80 }
    ensures bytes { line.new.bytes ≡ line.old.bytes ++ object_text digits.now }
    ensures len { array_string_len line.new ≡ array_string_len line.old + length digits.now }
{
    for digit in digits {
        line.push(char::from(shown_char(*digit)));
    }
}

// Adds the first twelve digits; blanks fill up at the right.
fn push_columns(line: &mut ArrayString<LONGEST_LINE>, digits: &[Digit])
    requires { array_string_len line.old ≤ 60 }
    ensures bytes { line.new.bytes ≡ line.old.bytes ++ twelve_columns digits.now }
    ensures len { array_string_len line.new ≡ array_string_len line.old + 12 }
{
    let first = &digits[..digits.len().min(12)];
    push_digits(line, first);
    for _blank in 0..12 - first.len() {
        line.push(' ');
    }
}

// A comment and a blank line have no address.
fn has_no_address(card: &[u8]) -> bool
    ensures { result ≡ has_no_address (statement_of card.now).shape }
{
    holds_nothing(card)
}

// Adds the address of a statement, or five blanks for a comment and a blank line.
fn push_address(line: &mut ArrayString<LONGEST_LINE>, card: &[u8], placed: &Placed)
    requires { array_string_len line.old ≤ 20 }
    ensures bytes { line.new.bytes ≡ line.old.bytes ++ listed_address (statement_of card.now).shape (text_of_placed placed.now) }
    ensures len { array_string_len line.new ≤ array_string_len line.old + 20 }
{
    if has_no_address(card) {
        line.push_str("     ");
    } else {
        push_long(line, placed.address.unsigned_abs());
    }
}

// The columns before a line: its number, its address and its first digits, each followed by a blank.
pub(crate) fn listed_columns(number: u32, card: &[u8], placed: &Placed) -> ArrayString<LONGEST_LINE>
    ensures { result.bytes
        ≡ listed_columns number (statement_of card.now).shape (text_of_placed placed.now) }
{
    let mut line = ArrayString::new();
    push_padded(&mut line, 5, number);
    line.push(' ');
    push_address(&mut line, card, placed);
    line.push(' ');
    push_columns(&mut line, placed.digits.as_slice());
    line.push(' ');
    line
}
