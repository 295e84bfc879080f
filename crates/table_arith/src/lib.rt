//! Sums and comparisons of two fields, digit by digit through the add table in core.
//!
//! A field is addressed at its units, which is its highest position, and runs down to a flagged digit that is not the units; a flag
//! on the units means negative. A sum replaces the field at P and keeps its flags; a comparison stores nothing.
//!
//! Each cycle reads P's digit x, then Q's digit y, which is 0 after the end of Q's field. It looks up row x of the add table, in
//! column y plus the carry or, if it complements, 9 - y plus the carry; column 10 is column 0 and forces a carry. The cell's
//! value is the new digit and its flag the new carry, whatever core has there: the table from 00300 to 00399 is part of core.
//!
//! A complement addition is made if the signs differ to add, and if they agree to subtract or compare; its first carry is 1. If
//! it leaves no carry, Q's number is the greater one: a sum then takes the complement of each digit in a second pass, and
//! reverses the sign.
#![tactic(auto)]

ghost use Rattle.std.specs.Prelude.{◌≡◌, ◌<◌, Ok};
ghost use Rattle.digit_core.specs.Size.{size};
ghost use Rattle.table_arith.specs.Sum.{Sums, Compares, panel_shown};
ghost use Rattle.table_arith.specs.Laws.{SumLaw, ComparisonLaw};

use addr_indirect::Stop;
use digit_core::Core;
use indicators::{OVERFLOW, Panel};
use numbers::{quick_comparison, quick_sum};
use sums::{comparison, sum_cycles};

mod cycles;
mod numbers;
mod passes;
mod sums;
mod words;

/// Addition or subtraction.
///
/// Source: CPU manual, add and subtract.
#[derive(Clone, Copy, Debug, PartialEq, Eq)]
pub enum Kind {
    /// The field at Q is added to the field at P.
    Add,
    /// The field at Q is subtracted from the field at P.
    Subtract,
}

/// What an add cycle gives.
///
/// Source: CPU manual, add table.
#[derive(Clone, Copy, Debug, PartialEq, Eq)]
pub struct Cycle {
    /// The digit that the table has, 0 to 9.
    pub digit: u8,
    /// The carry into the next cycle, 0 or 1.
    pub carry: u8,
}

/// The result of the cycles of a pass over P's field so far.
///
/// Source: the digit cycles of a sum are this project's own.
#[derive(Clone, Copy, Debug, PartialEq, Eq)]
pub struct Passed {
    /// The carry into the next cycle, 0 or 1.
    pub carry: u8,
    /// Whether each new digit was 0.
    pub all_zero: bool,
    /// Whether Q's field has not ended.
    pub q_goes_on: bool,
}

/// What a sum or a comparison shows on the panel.
///
/// Source: CPU manual, arithmetic indicators; when they are set is this project's own.
#[derive(Clone, Copy, Debug, PartialEq, Eq)]
pub struct Shown {
    /// The sum is zero, or the two numbers are equal: 12 is on.
    pub zero: bool,
    /// The sum is negative, or the number at P is the lower one. 11 is on if this and `zero` are false.
    pub negative: bool,
    /// Q's field is longer than P's, or a true addition left a carry: 14 is turned on.
    pub overflow: bool,
}

// Shows a result on the panel.
#[inline(always)]
fn show(panel: &mut Panel, shown: Shown)
    ensures { panel.new ≡ panel_shown panel.old (Ok shown) }
{
    panel.set_result(shown.zero, shown.negative);
    if shown.overflow {
        panel.set(OVERFLOW, true);
    }
}

// Makes a sum by its cycles, and shows it on the panel. A stop shows nothing.
#[cold]
#[inline(never)]
fn add_by_cycles<const M: u32>(
    core: &mut Core<M>,
    p: u32,
    q: u32,
    kind: Kind,
    panel: &mut Panel,
) -> Result<(), Stop>
    requires p { p < size M }
    requires q { q < size M }
    ensures { Sums kind core.old panel.old p q core.new panel.new result }
{
    let shown = sum_cycles(core, p, q, kind)?;
    show(panel, shown);
    Ok(())
}

// Makes a comparison by its cycles, and shows it on the panel. A stop shows nothing.
#[cold]
#[inline(never)]
fn compare_by_cycles<const M: u32>(
    core: &Core<M>,
    p: u32,
    q: u32,
    panel: &mut Panel,
) -> Result<(), Stop>
    requires p { p < size M }
    requires q { q < size M }
    ensures { Compares core.now panel.old p q panel.new result }
{
    let shown = comparison(core, p, q)?;
    show(panel, shown);
    Ok(())
}

/// Adds the field at `q` to the field at `p`, or subtracts it: the instructions A and S.
///
/// `p` and `q` are units positions below the size of core. The digits of P's field are replaced and keep their flags; only the sign
/// is reversed if Q's number is the greater one in a complement addition. 12 is on if every digit of P's field is 0; 11 is on if
/// some digit isn't 0 and the units have no flag. 14 is turned on if Q's field is longer than P's or a true addition leaves a
/// carry, and else stays.
/// Stops: as `read_at` at P's, Q's and the table's positions, 2 if a field would go below 00000, and 3 for a value over 9;
/// the digits of the cycles completed before stay stored, and the panel is as before.
/// Source: CPU manual, add, subtract and add table; the order of readings in a cycle and when the indicators are set are this
/// project's own.
#[inline(always)]
pub fn add<const M: u32>(
    core: &mut Core<M>,
    p: u32,
    q: u32,
    kind: Kind,
    panel: &mut Panel,
) -> Result<(), Stop>
    requires p { p < size M }
    requires q { q < size M }
    ensures cycles { Sums kind core.old panel.old p q core.new panel.new result }
    ensures values { SumLaw kind core.old panel.old p q core.new panel.new result }
{
    match quick_sum(core, p, q, kind) {
        Some(shown) => {
            show(panel, shown);
            Ok(())
        }
        None => add_by_cycles(core, p, q, kind, panel),
    }
}

/// Compares the field at `p` with the field at `q`: the instruction C.
///
/// `p` and `q` are units positions below the size of core. 12 is on if the numbers are equal, 11 if the number at P is greater.
/// 14 is turned on if Q's field is longer than P's, and else stays; only as many digits of Q's field count as P's field has.
/// Stops: as `add`; the panel is as before.
/// Source: CPU manual, compare and add table; the order of readings in a cycle, and that 14 is set, are this project's own.
#[inline(always)]
pub fn compare<const M: u32>(core: &Core<M>, p: u32, q: u32, panel: &mut Panel) -> Result<(), Stop>
    requires p { p < size M }
    requires q { q < size M }
    ensures cycles { Compares core.now panel.old p q panel.new result }
    ensures values { ComparisonLaw core.now panel.old p q panel.new result }
{
    match quick_comparison(core, p, q) {
        Some(shown) => {
            show(panel, shown);
            Ok(())
        }
        None => compare_by_cycles(core, p, q, panel),
    }
}
