//! Moves of flags, and conversions of numbers between two forms: one digit per position, and digits with zones, as in characters.
//!
//! A field has one digit per position, and ends with a flag. In the other form each digit lies at an odd position, with its zone at
//! the even position below it: 7 for a number's digit, and 5 at the units of a negative number. Both are addressed at their units.
//! A conversion works one digit after another; if the two forms overlap, this order decides the result. If the next digits are good
//! and the two share no cell, a pass takes ten or five digits at a time, with the same result. One pass may take fewer, so that the next
//! passes store whole words; the last pass takes the digits that are left in the field.
//!
//! Source: this project's own.
#![tactic(auto)]

ghost use Rattle.std.specs.Prelude.{◌≡◌, ℕ, ◌+◌, ◌*◌, ◌<◌, ◌≤◌, ◌%◌, List, true};
ghost use Rattle.digit_core.specs.{IsGood, unflagged_digit, size};
ghost use Rattle.addr_indirect.specs.Reading.{read_at};
ghost use Rattle.traces.specs.Stored.{Did};
ghost use Rattle.feature_ops.specs.Feature.{feature_of, takes_pairs, move_flag, strip, strip_cycles, fill, fill_cycles, core_with_pair};

mod fives;

use addr_indirect::{Stop, read_at};
use digit_core::{Core, Digit};
use fives::{are_still_apart, next_stripped, next_ten, rest_of_word, turn_filled};
use instruction_table::FeatureOp;

/// The zone of a number's digit.
pub const NUMBER_ZONE: u8 = 7;

/// The zone at the units of a negative number.
pub const NEGATIVE_ZONE: u8 = 5;

/// Carries out an operation of a special feature.
///
/// `p` and `q` are below the size of core; for TNS and TNF `p` is odd. Changes and stops are as for `move_flag`, `strip` or `fill`.
#[inline(never)]
pub fn do_feature<const M: u32>(
    core: &mut Core<M>,
    op: FeatureOp,
    p: u32,
    q: u32,
) -> Result<(), Stop>
    requires p { p < size M }
    requires odd { takes_pairs op ≡ true → p % 2 ≡ 1 }
    requires q { q < size M }
    ensures { Did core.old (feature_of op core.old p q) core.new result }
{
    match op {
        FeatureOp::Mf => move_flag(core, p, q),
        FeatureOp::Tns => strip(core, p, q),
        FeatureOp::Tnf => fill(core, p, q),
    }
}

/// Moves the flag of the digit at `q` to the digit at `p`: the instruction MF.
///
/// The digit at `p` gets a flag if the digit at `q` has one, else loses its own. Then the digit at `q` loses its flag.
/// `p` and `q` are below the size of core. Both values and all other cells stay.
/// Stops: as for `read_at` at `q`, then at `p`; core then stays.
pub fn move_flag<const M: u32>(core: &mut Core<M>, p: u32, q: u32) -> Result<(), Stop>
    requires p { p < size M }
    requires q { q < size M }
    ensures { Did core.old (move_flag core.old p q) core.new result }
{
    let from = read_at(core, q)?;
    let to = read_at(core, p)?;
    core.put(
        p,
        Digit {
            flag: from.flag,
            value: to.value,
        },
    );
    core.put(
        q,
        Digit {
            flag: false,
            value: from.value,
        },
    );
    Ok(())
}

/// Strips the digits at `p` of their zones, into the field at `q`: the instruction TNS.
///
/// The field keeps its flags, except at its units: these get a flag if the zone of P's units is 5, else none. The field ends with its
/// first flagged digit that is not the units. `p` and `q` are below the size of core, and `p` is odd.
/// Stops: as for `read_at` at the zone of P's units. Then in each cycle: 2 if P's or Q's position would go below 00000, then as for
/// `read_at` at P's position, then at Q's. The digits stored before stay.
#[inline(never)]
pub fn strip<const M: u32>(core: &mut Core<M>, p: u32, q: u32) -> Result<(), Stop>
    requires p { p < size M }
    requires odd { p % 2 ≡ 1 }
    requires q { q < size M }
    ensures { Did core.old (strip core.old p q) core.new result }
{
    core.size_law();
    let zone = read_at(core, p - 1)?;
    let units = read_at(core, p)?;
    let _old = read_at(core, q)?;
    let negative = zone.value == NEGATIVE_ZONE;
    core.put(
        q,
        Digit {
            flag: negative,
            value: units.value,
        },
    );
    let mut pairs = p / 2;
    let mut left = q;
    let mut whole = rest_of_word(left, 10);
    while let Some(turn) = next_stripped(core, pairs, left, whole) {
        core.put_digits(left - turn.count, turn.count, turn.cells);
        if turn.ends {
            return Ok(());
        }
        pairs -= turn.count;
        left -= turn.count;
        whole = 10;
    }
    strip_digits(core, pairs, left)
}

// The cycles of a strip, one after another, with `pairs` pairs of P and `left` positions of Q left.
#[cold]
#[inline(never)]
fn strip_digits<const M: u32>(core: &mut Core<M>, pairs: u32, left: u32) -> Result<(), Stop>
    requires pairs { 2 * pairs ≤ size M }
    requires left { left ≤ size M }
    ensures { Did core.old (strip_cycles core.old pairs left) core.new result }
{
    core.size_law();
    let cycles = pairs.min(left);
    for i in 0..cycles {
        let from = read_at(core, 2 * (pairs - i - 1) + 1)?;
        let to = read_at(core, left - i - 1)?;
        let d = Digit {
            flag: to.flag,
            value: from.value,
        };
        core.put(left - i - 1, d);
        if to.flag {
            return Ok(());
        }
    }
    Err(Stop::Address)
}

/// Stores the digits of the field at `q` with zones, as the pairs at `p`: the instruction TNF.
///
/// Each digit is stored without its flag, and its zone below it: 7, or 5 at the units if these have a flag. The field ends with its
/// first flagged digit that is not the units. `p` and `q` are below the size of core, and `p` is odd.
/// Stops: 2 if P's or Q's position would go below 00000, then as for `read_at` at Q's position; the digits stored before stay.
#[inline(never)]
pub fn fill<const M: u32>(core: &mut Core<M>, p: u32, q: u32) -> Result<(), Stop>
    requires p { p < size M }
    requires odd { p % 2 ≡ 1 }
    requires q { q < size M }
    ensures { Did core.old (fill core.old p q) core.new result }
{
    core.size_law();
    let units = read_at(core, q)?;
    let zone = if units.flag {
        NEGATIVE_ZONE
    } else {
        NUMBER_ZONE
    };
    put_pair(core, p - 1, zone, units.value);
    let mut pairs = p / 2;
    let mut left = q;
    // P's place in its word, which the store of the units has found already, gives how many pairs are left in that word.
    let mut whole = rest_of_word((p - 1) % 10 / 2, 5);
    while let Some(olds) = next_ten(core, pairs, left) {
        let first = turn_filled(olds >> 30, 5);
        pairs -= first.count;
        left -= first.count;
        core.put_digits(2 * pairs, 2 * first.count, first.cells);
        if first.ends {
            return Ok(());
        }
        if are_still_apart(pairs, left) {
            let second = turn_filled(olds % (1 << 30), whole);
            pairs -= second.count;
            left -= second.count;
            core.put_digits(2 * pairs, 2 * second.count, second.cells);
            if second.ends {
                return Ok(());
            }
            whole = 5;
        }
    }
    fill_digits(core, pairs, left)
}

// The cycles of a fill, one after another, with `pairs` pairs of P and `left` positions of Q left.
#[cold]
#[inline(never)]
fn fill_digits<const M: u32>(core: &mut Core<M>, pairs: u32, left: u32) -> Result<(), Stop>
    requires pairs { 2 * pairs ≤ size M }
    requires left { left ≤ size M }
    ensures { Did core.old (fill_cycles core.old pairs left) core.new result }
{
    core.size_law();
    let cycles = pairs.min(left);
    for i in 0..cycles {
        let d = read_at(core, left - i - 1)?;
        put_pair(core, 2 * (pairs - i - 1), NUMBER_ZONE, d.value);
        if d.flag {
            return Ok(());
        }
    }
    Err(Stop::Address)
}

// Stores a digit above `at`, and then its zone at `at`.
fn put_pair<const M: u32>(core: &mut Core<M>, at: u32, zone: u8, value: u8)
    requires at { at + 1 < size M }
    requires zone { IsGood (unflagged_digit zone) }
    requires value { IsGood (unflagged_digit value) }
    ensures { core.new ≡ core_with_pair core.old at zone value }
{
    core.size_law();
    core.put(at + 1, Digit { flag: false, value });
    core.put(
        at,
        Digit {
            flag: false,
            value: zone,
        },
    );
}
