// The characters of pairs of digits.
ghost use Rattle.std.specs.Prelude.{◌≡◌, IfSome, option_map};
ghost use Rattle.card_code.specs.Pairs.{alpha_of, punch_alpha, digits, IsGoodPair};
ghost use Rattle.card_code.specs.Words.{pair_entry, pair_char_entry};
ghost use Rattle.card_code.specs.TextOut.{pair_char, written_char, panel_after_pair};

use crate::tables::{NO_CHAR, NO_PAIR, PAIR_CELLS, PAIR_CHARS};
use digit_core::Digit;
use indicators::{Panel, WRITE_CHECK};

/// The zone digit and the numeric digit of a character that is read alphamerically.
///
/// `None` for a byte that has no pair: a reading instruction stores 00 for it, and turns on the read check.
/// Source: 1622 manual, card codes; the characters that no manual has, and which bytes have no pair, are this project's own.
pub fn alpha_of(c: u8) -> Option<(u8, u8)>
    ensures is { result ≡ option_map digits (alpha_of c) }
    ensures good { IfSome result IsGoodPair }
{
    pair_entry(&PAIR_CELLS, c)
}

/// The character of a pair of digits, the zone `z` and the number `n`.
///
/// `None` for a pair that has no character: a writing instruction writes a blank for it, and turns on the write check.
/// Source: 1622 manual, card codes; the characters that no manual has, and which pairs have none, are this project's own.
pub fn punch_alpha(z: u8, n: u8) -> Option<u8>
    ensures { result ≡ punch_alpha z n }
{
    pair_char_entry(&PAIR_CHARS, z, n)
}

/// The character that two digits are written as, after both were read. Their flags are ignored.
///
/// A pair that has no character is written as a blank, and turns on the write check 07.
/// Source: 1622 manual, alphameric writing and write check; that a bad pair is written as a blank is this project's own.
pub fn char_of_pair(zone: Digit, number: Digit, panel: &mut Panel) -> u8
    ensures is { result ≡ written_char (pair_char zone number) }
    ensures seen { panel.new ≡ panel_after_pair (pair_char zone number) panel.old }
{
    match punch_alpha(zone.value, number.value) {
        Some(c) => c,
        None => {
            panel.set(WRITE_CHECK, true);
            b' '
        }
    }
}

// The two digits of a character by a table of the cells of pairs, if it has a pair.
#[inline(always)]
fn pair_entry(table: &[u16; 256], c: u8) -> Option<(u8, u8)>
    ensures { result ≡ pair_entry table.now c }
{
    let pair = table[c as usize];
    if pair >= NO_PAIR {
        return None;
    }
    Some(((pair % 16) as u8, (pair / 64 % 16) as u8))
}

// The character of a zone and a number by a table, if they have one.
#[inline(always)]
fn pair_char_entry(table: &[u8; 128], z: u8, n: u8) -> Option<u8>
    ensures { result ≡ pair_char_entry table.now z n }
{
    if z >= 8 || n >= 16 {
        return None;
    }
    let char = table[(16 * z + n) as usize];
    if char < NO_CHAR { Some(char) } else { None }
}
