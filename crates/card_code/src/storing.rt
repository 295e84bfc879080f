// Texts that are stored in core.
ghost use Rattle.std.specs.Prelude.{◌≡◌, ◌≤◌, ◌<◌, ◌+◌, ◌*◌, ℕ, take, drop, length, IfSome, OnErr, IsTrue, Ok};
ghost use Rattle.digit_core.specs.{size, is_cell_value, unflagged_digit, IsGood};
ghost use Rattle.traces.specs.Change.{Changed};
ghost use Rattle.card_code.specs.Characters.{num_of};
ghost use Rattle.card_code.specs.Words.{AreCells, ArePairCells};
ghost use Rattle.card_code.specs.TextIn.{store_digits, store_pairs, digit_trace, pair_trace};

use crate::pair_words::pair_word;
use crate::words::num_word;
use crate::{alpha_of, num_of};
use addr_indirect::Stop;
use digit_core::{Core, Digit};
use indicators::{Panel, READ_CHECK};

// The digit that is stored for a bad character.
const ZERO: Digit = Digit {
    flag: false,
    value: 0,
};

/// Stores the digits of a text that is read numerically from `a` upwards, one digit for each character.
///
/// `a` is below the size of core, and the text has at most 80 characters. A bad character is stored as an unflagged 0, and turns on the
/// read check 06 at once; 06 stays on also if a later digit stops.
///
/// Stops: 2 if a digit's position is past the end of core; the digits before it stay.
/// Source: 1622 manual, numerical reading; what a bad character is stored as, and the order, are this project's own.
pub fn store_digits<const M: u32>(
    core: &mut Core<M>,
    a: u32,
    text: &[u8],
    panel: &mut Panel,
) -> Result<(), Stop>
    requires in_core { a < size M }
    requires short { length text.now ≤ 80 }
    ensures changed { Changed core.old panel.old
        (store_digits (size M) a text.now)
        core.new panel.new result }
    ensures room { OnErr result (size M < a + length text.now) }
{
    let mut k = 0;
    while k < text.len() {
        let size = core.size();
        let at = a + k as u32;
        match word_from(text, k, at, size) {
            Some(word) => {
                core.put_digits(at, 10, word);
                k += 10;
            }
            None => {
                store_digit(core, at, text[k], panel)?;
                k += 1;
            }
        }
    }
    Ok(())
}

// The word of the ten characters from number `k` on, which are to be stored from `at` upwards in a core that ends at `end`: if the text
// has them, core has room for them, and none is bad.
#[inline]
fn word_from(text: &[u8], k: usize, at: u32, end: u32) -> Option<u64>
    requires within { k ≤ length text.now }
    ensures more { IfSome result (λ _. k + 10 ≤ length text.now) }
    ensures room { IfSome result (λ _. at + 10 ≤ end) }
    ensures cells { IfSome result (AreCells num_of (take 10 (drop k text.now))) }
{
    if text.len() - k < 10 || end < 10 || end - 10 < at {
        return None;
    }
    num_word(&text[k..k + 10])
}

// Stores the digit of one character at `at`.
fn store_digit<const M: u32>(
    core: &mut Core<M>,
    at: u32,
    c: u8,
    panel: &mut Panel,
) -> Result<(), Stop>
    ensures changed { Changed core.old panel.old
        (digit_trace (size M) at c)
        core.new panel.new result }
    ensures room { OnErr result (size M ≤ at) }
{
    if at >= core.size() {
        return Err(Stop::Address);
    }
    match num_of(c) {
        Some(d) => core.put(at, d),
        None => {
            core.put(at, ZERO);
            panel.set(READ_CHECK, true);
        }
    }
    Ok(())
}

/// Stores the pairs of a text that is read alphamerically from `a` upwards, two digits for each character, the zone first.
///
/// `a` is below the size of core, and the text has at most 80 characters. The digits are stored without flags. A bad character is
/// stored as 00, and turns on the read check 06 as its first digit is stored; 06 stays on also if a later digit stops.
///
/// Stops: 2 if a digit's position is past the end of core; the digits before it stay.
/// Source: 1622 manual, alphameric reading; that the digits have no flag, what a bad character is stored as, and the order, are this project's own.
pub fn store_pairs<const M: u32>(
    core: &mut Core<M>,
    a: u32,
    text: &[u8],
    panel: &mut Panel,
) -> Result<(), Stop>
    requires in_core { a < size M }
    requires short { length text.now ≤ 80 }
    ensures { Changed core.old panel.old
        (store_pairs (size M) a text.now)
        core.new panel.new result }
{
    let mut at = a;
    let mut k = 0;
    while k < text.len() {
        let end = core.size();
        match pairs_from(text, k, at, end) {
            Some(cells) => {
                core.put_digits(at, 10, cells);
                at += 10;
                k += 5;
            }
            None => {
                store_pair(core, end, at, text[k], panel)?;
                at += 2;
                k += 1;
            }
        }
    }
    Ok(())
}

// The word of the pairs of the five characters from number `k` on, which are to be stored from `at` upwards in a core that ends at
// `end`: if the text has them, core has room for them, and each has a pair.
#[inline]
fn pairs_from(text: &[u8], k: usize, at: u32, end: u32) -> Option<u64>
    requires within { k ≤ length text.now }
    ensures more { IfSome result (λ _. k + 5 ≤ length text.now) }
    ensures room { IfSome result (λ _. at + 10 ≤ end) }
    ensures cells { IfSome result (ArePairCells (take 5 (drop k text.now))) }
{
    if text.len() - k < 5 || end < 10 || end - 10 < at {
        return None;
    }
    pair_word(&text[k..k + 5])
}

// Stores the pair of one character at `at` and `at + 1`, in a core that ends at `end`.
fn store_pair<const M: u32>(
    core: &mut Core<M>,
    end: u32,
    at: u32,
    c: u8,
    panel: &mut Panel,
) -> Result<(), Stop>
    requires ends { end ≡ size M }
    requires near { at ≤ 60200 }
    ensures { Changed core.old panel.old (pair_trace (size M) at c) core.new panel.new result }
{
    if at >= end {
        return Err(Stop::Address);
    }
    let number = match alpha_of(c) {
        Some((zone, number)) => {
            core.put(at, unflagged_digit(zone));
            unflagged_digit(number)
        }
        None => {
            core.put(at, ZERO);
            panel.set(READ_CHECK, true);
            ZERO
        }
    };
    if at + 1 >= end {
        return Err(Stop::Address);
    }
    core.put(at + 1, number);
    Ok(())
}

// An unflagged digit.
fn unflagged_digit(value: u8) -> Digit
    requires { IsTrue (is_cell_value value) }
    ensures is { result ≡ unflagged_digit value }
    ensures good { IsGood result }
{
    Digit { flag: false, value }
}
