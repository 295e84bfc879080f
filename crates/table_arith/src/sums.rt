//! The cycles of sums and comparisons, apart from what the panel shows.

ghost use Rattle.std.specs.Prelude.{◌≡◌, ◌<◌};
ghost use Rattle.digit_core.specs.Size.{size};
ghost use Rattle.traces.specs.Stored.{Did};
ghost use Rattle.table_arith.specs.Sum.{complements, falls_below, overflows, turn_sign, sum_completion, sum, comparison_result, comparison};

use crate::passes::{comparison_pass, second_pass, sum_pass};
use crate::{Kind, Passed, Shown};
use addr_indirect::{Stop, decimal_at, read_at};
use digit_core::{Core, Digit};

// Whether a complement addition is made: if the signs differ to add, and if they agree to subtract.
pub(crate) fn complements(kind: Kind, p_sign: bool, q_sign: bool) -> bool
    ensures { result ≡ complements kind p_sign q_sign }
{
    match kind {
        Kind::Add => p_sign != q_sign,
        Kind::Subtract => p_sign == q_sign,
    }
}

// Whether a complement addition ended without a carry, so that Q's number is the greater one.
fn falls_below(complement: bool, r: Passed) -> bool
    ensures { result ≡ falls_below complement r }
{
    complement && r.carry == 0
}

// Whether Q's field goes on, or a true addition leaves a carry.
fn overflows(complement: bool, r: Passed) -> bool
    ensures { result ≡ overflows complement r }
{
    r.q_goes_on || (!complement && r.carry == 1)
}

// Reverses the flag of P's units.
fn turn_sign<const M: u32>(
    core: &mut Core<M>,
    p: u32,
    zero: bool,
    overflow: bool,
) -> Result<Shown, Stop>
    requires { p < size M }
    ensures { Did core.old (turn_sign core.old p zero overflow) core.new result }
{
    let d = read_at(core, p)?;
    let negative = !d.flag;
    core.put(
        p,
        Digit {
            flag: negative,
            value: d.value,
        },
    );
    Ok(Shown {
        zero,
        negative,
        overflow,
    })
}

// A sum after its first pass: a second pass and the other sign, if a complement addition ended without a carry.
fn completed<const M: u32>(
    core: &mut Core<M>,
    p: u32,
    sign: bool,
    complement: bool,
    r: Passed,
) -> Result<Shown, Stop>
    requires { p < size M }
    ensures { Did core.old (sum_completion core.old p sign complement r) core.new result }
{
    let overflow = overflows(complement, r);
    if falls_below(complement, r) {
        let zero = second_pass(core, p)?;
        return turn_sign(core, p, zero, overflow);
    }
    Ok(Shown {
        zero: r.all_zero,
        negative: sign,
        overflow,
    })
}

// The cycles of a sum.
pub(crate) fn sum_cycles<const M: u32>(
    core: &mut Core<M>,
    p: u32,
    q: u32,
    kind: Kind,
) -> Result<Shown, Stop>
    requires p { p < size M }
    requires q { q < size M }
    ensures { Did core.old (sum kind core.old p q) core.new result }
{
    let x = decimal_at(core, p)?;
    let y = decimal_at(core, q)?;
    let complement = complements(kind, x.flag, y.flag);
    let r = sum_pass(core, p, q, complement)?;
    completed(core, p, x.flag, complement, r)
}

// What a comparison's pass shows.
fn comparison_result(sign: bool, complement: bool, r: Passed) -> Shown
    ensures { result ≡ comparison_result sign complement r }
{
    Shown {
        zero: r.all_zero && (complement || r.carry == 0),
        negative: sign != falls_below(complement, r),
        overflow: r.q_goes_on,
    }
}

// The cycles of a comparison.
#[tactic(auto, unfolding(crate::specs::Sum::comparison))]
pub(crate) fn comparison<const M: u32>(core: &Core<M>, p: u32, q: u32) -> Result<Shown, Stop>
    requires p { p < size M }
    requires q { q < size M }
    ensures { result ≡ comparison core.now p q }
{
    let p_units = decimal_at(core, p)?;
    let q_units = decimal_at(core, q)?;
    let complement = complements(Kind::Subtract, p_units.flag, q_units.flag);
    let r = comparison_pass(core, p, q, complement)?;
    Ok(comparison_result(p_units.flag, complement, r))
}
