// Which part of an instruction a check is about.
ghost use Rattle.std.specs.Prelude.{◌≡◌, ◌+◌, ◌<◌, ◌≤◌, length, slice_index, IfOk, IfSome};
ghost use Rattle.digit_core.specs.Size.{size};
ghost use Rattle.digit_core.specs.Search.{first_up};
ghost use Rattle.addr_indirect.specs.Operand.{number_down};
ghost use Rattle.cpu_step.specs.Rows.{instruction_row};
ghost use Rattle.cpu_step.specs.Checks.{action_cell, cell_over_nine, chain_end, check_part, fetched_part, field_after, field_length, first_unread, is_over_nine, nearer, operands_or_part, over_nine_down, over_nine_in_control, over_nine_in_step, p_or_part, p_part, part_of, q_or_part, q_part, q_used, unfetched_cell, wants_odd, worked_part};
ghost use Rattle.addr_indirect.specs.Fetch.{fetch};

use crate::rows::{Found, InOutRow, Row, instruction_row};
use addr_indirect::{
    Instr, LOWEST_UNITS, Stop, decimal_at, fetch, immediate_q, p_operand, q_operand, read_at,
};
use branch_ops::{Operands, Uses};
use digit_core::Core;

/// Which part of an instruction a check stop is about, by core at the stop.
///
/// The machine fetches an instruction and works out its operands before the instruction changes anything. So core still has the
/// cells at which it stopped, unless an action has stored over its own instruction, or over a field of its operands' chains,
/// before it stopped.
/// Source: this project's own, over the CPU manual's instruction format and indirect addressing.
#[derive(Clone, Copy, Debug, PartialEq, Eq)]
pub enum CheckPart {
    /// The instruction itself: its first cell that can't be read, or its address if that is odd or no operation has these digits.
    Instruction {
        /// The cell's address.
        cell: u32,
    },
    /// P, whose own field has its units at IR + 6.
    P {
        /// The units position of the field at which P's chain ended.
        units: u32,
    },
    /// Q, whose own field has its units at IR + 11.
    Q {
        /// The units position of the field at which Q's chain ended.
        units: u32,
    },
    /// The action of the operation over its operands.
    Action {
        /// P's address, 0 if the operation doesn't use P.
        p: u32,
        /// Q's address, if the operation uses Q; for an immediate Q the address of the instruction's own Q11.
        q: Option<u32>,
        /// The cell that the check is about, if it can be found: for stops 4 and 5 the bad cell; for stop 3 the first cell over 9
        /// in the two fields of a sum or a comparison, or in the disk's control field.
        cell: Option<u32>,
    },
}

// How many cells an instruction has.
pub(crate) const CELLS: u32 = 12;

// How many cells the disk's control field has.
const CONTROL_CELLS: u32 = 14;

// The part that a check of the instruction at `ir` is about.
#[cold]
#[inline(never)]
#[tactic(auto, unfolding(crate::specs::Checks::check_part))]
pub(crate) fn check_part<const M: u32>(core: &Core<M>, why: Stop, ir: u32) -> Option<CheckPart>
    ensures { result ≡ check_part why core.now ir }
{
    match why {
        Stop::Overflow | Stop::InOut => None,
        _ => Some(part_of(core, why, ir)),
    }
}

// The part that a stop is about, if the stop isn't by a check switch.
fn part_of<const M: u32>(core: &Core<M>, why: Stop, ir: u32) -> CheckPart
    ensures { result ≡ part_of why (fetch core.now ir) core.now ir }
{
    match fetch(core, ir) {
        Ok(i) => fetched_part(core, why, ir, &i),
        Err(_) => CheckPart::Instruction {
            cell: unfetched_cell(core, ir),
        },
    }
}

// The cell at which the instruction at `ir` can't be fetched.
fn unfetched_cell<const M: u32>(core: &Core<M>, ir: u32) -> u32
    ensures { result ≡ unfetched_cell core.now ir }
{
    if ir % 2 == 1 {
        ir
    } else {
        first_unread(core, ir)
    }
}

// The first of the twelve cells from `a` upwards that can't be read.
fn first_unread<const M: u32>(core: &Core<M>, a: u32) -> u32
    ensures { result ≡ first_unread core.now a 12 }
{
    if a >= core.size() {
        return a;
    }
    for k in 0..CELLS {
        match read_at(core, a + k) {
            Ok(_) => {}
            Err(_) => return a + k,
        }
    }
    a + CELLS
}

// The part of an instruction that was fetched.
fn fetched_part<const M: u32>(core: &Core<M>, why: Stop, ir: u32, i: &Instr) -> CheckPart
    requires inside { ir + 12 ≤ size M }
    requires twelve { length i.now.cells ≡ 12 }
    ensures { result ≡ fetched_part why (instruction_row i.now) core.now ir }
{
    match instruction_row(i) {
        Ok(found) => worked_part(core, why, ir, found),
        Err(_) => CheckPart::Instruction { cell: ir },
    }
}

// The part of an instruction that was fetched and found.
fn worked_part<const M: u32>(core: &Core<M>, why: Stop, ir: u32, found: Found) -> CheckPart
    requires { ir + 12 ≤ size M }
    ensures { result ≡ worked_part why found core.now ir }
{
    let Found { row, uses, .. } = found;
    match operands_or_part(core, ir, uses) {
        Ok(o) => CheckPart::Action {
            p: o.p,
            q: q_used(uses, o.q),
            cell: action_cell(core, why, row, o),
        },
        Err(part) => part,
    }
}

// The operands of the instruction at `ir`, or the part at which they stop.
fn operands_or_part<const M: u32>(
    core: &Core<M>,
    ir: u32,
    uses: Uses,
) -> Result<Operands, CheckPart>
    requires { ir + 12 ≤ size M }
    ensures is { result ≡ operands_or_part uses core.now ir }
    ensures p { IfOk result (λ o. o.p < size M) }
    ensures q { IfOk result (λ o. o.q < size M) }
{
    let p = p_or_part(core, ir, uses)?;
    let q = q_or_part(core, ir, uses)?;
    if wants_odd(uses) && p % 2 == 0 {
        Err(p_part(core, ir))
    } else {
        Ok(Operands { p, q })
    }
}

// P's address, 0 if P isn't used; or the field at which P's chain ends.
fn p_or_part<const M: u32>(core: &Core<M>, ir: u32, uses: Uses) -> Result<u32, CheckPart>
    requires { ir + 12 ≤ size M }
    ensures is { result ≡ p_or_part uses core.now ir }
    ensures in_core { IfOk result (λ p. p < size M) }
{
    core.size_law();
    match uses {
        Uses::Neither => Ok(0),
        _ => match p_operand(core, ir) {
            Ok(p) => Ok(p),
            Err(_) => Err(p_part(core, ir)),
        },
    }
}

// Q's address, 0 if Q isn't used, Q11 for an immediate Q; or the field at which Q's chain ends.
fn q_or_part<const M: u32>(core: &Core<M>, ir: u32, uses: Uses) -> Result<u32, CheckPart>
    requires { ir + 12 ≤ size M }
    ensures is { result ≡ q_or_part uses core.now ir }
    ensures in_core { IfOk result (λ q. q < size M) }
{
    core.size_law();
    match uses {
        Uses::Both | Uses::OddBoth => match q_operand(core, ir) {
            Ok(q) => Ok(q),
            Err(_) => Err(q_part(core, ir)),
        },
        Uses::Immediate => Ok(immediate_q(ir)),
        _ => Ok(0),
    }
}

// Whether P must be odd.
fn wants_odd(uses: Uses) -> bool
    ensures { result ≡ wants_odd uses }
{
    matches!(uses, Uses::OddBoth | Uses::OddFirst)
}

// Q's address, if Q is used.
fn q_used(uses: Uses, q: u32) -> Option<u32>
    ensures { result ≡ q_used uses q }
{
    match uses {
        Uses::First | Uses::OddFirst | Uses::Neither => None,
        _ => Some(q),
    }
}

// The field at which P's chain ends, for the instruction at `ir`.
fn p_part<const M: u32>(core: &Core<M>, ir: u32) -> CheckPart
    requires { ir + 12 ≤ size M }
    ensures { result ≡ p_part core.now ir }
{
    core.size_law();
    CheckPart::P {
        units: chain_end(core, ir + 6),
    }
}

// The field at which Q's chain ends, for the instruction at `ir`.
fn q_part<const M: u32>(core: &Core<M>, ir: u32) -> CheckPart
    requires { ir + 12 ≤ size M }
    ensures { result ≡ q_part core.now ir }
{
    core.size_law();
    CheckPart::Q {
        units: chain_end(core, ir + 11),
    }
}

// The units position of the last field of the chain from `at`; if the chain never ends, of some field in it.
fn chain_end<const M: u32>(core: &Core<M>, at: u32) -> u32
    requires field { 4 ≤ at }
    requires in_core { at < size M }
    ensures { result ≡ chain_end (length core.now) core.now at }
{
    let size = core.size();
    let mut u = at;
    for _field in 0..size {
        match field_after(core, u) {
            Some(v) => u = v,
            None => return u,
        }
    }
    u
}

// The units position to which the field of five digits at `u` leads on.
fn field_after<const M: u32>(core: &Core<M>, u: u32) -> Option<u32>
    requires field { 4 ≤ u }
    requires in_core { u < size M }
    ensures is { result ≡ field_after core.now u }
    ensures field { IfSome result (λ v. 4 ≤ v) }
    ensures in_core { IfSome result (λ v. v < size M) }
{
    let size = core.size();
    match decimal_at(core, u) {
        Ok(d) => match five_digits(core, u) {
            Ok(v) => {
                if d.flag && LOWEST_UNITS <= v && v < size {
                    Some(v)
                } else {
                    None
                }
            }
            Err(_) => None,
        },
        Err(_) => None,
    }
}

// The number of the five digits from `u` downwards, `u` the units.
#[tactic(auto, unfolding(addr_indirect::specs::Operand::number_down))]
pub(crate) fn five_digits<const M: u32>(core: &Core<M>, u: u32) -> Result<u32, Stop>
    requires { 4 ≤ u }
    ensures { result ≡ number_down core.now u 5 }
{
    let a = decimal_at(core, u)?;
    let b = decimal_at(core, u - 1)?;
    let c = decimal_at(core, u - 2)?;
    let d = decimal_at(core, u - 3)?;
    let e = decimal_at(core, u - 4)?;
    let above = u32::from(c.value) + 10 * (u32::from(d.value) + 10 * u32::from(e.value));
    Ok(u32::from(a.value) + 10 * (u32::from(b.value) + 10 * above))
}

// The cell that a check of an action is about, if it can be found.
fn action_cell<const M: u32>(core: &Core<M>, why: Stop, row: Row, o: Operands) -> Option<u32>
    requires p { o.p < size M }
    requires q { o.q < size M }
    ensures { result ≡ action_cell why row core.now o }
{
    match why {
        Stop::Parity(a) | Stop::Value(a) => Some(a),
        Stop::Digit => cell_over_nine(core, row, o),
        _ => None,
    }
}

// The cell over 9 at which a row stops, if it can be found.
fn cell_over_nine<const M: u32>(core: &Core<M>, row: Row, o: Operands) -> Option<u32>
    requires p { o.p < size M }
    requires q { o.q < size M }
    ensures { result ≡ cell_over_nine row core.now o }
{
    match row {
        Row::Sum(_) | Row::Compare => over_nine_in_step(core, o.p, o.q),
        Row::InOut(InOutRow::Disk(_)) => over_nine_in_control(core, o.p),
        _ => None,
    }
}

// The first cell over 9 of the fields at `p` and at `q`, from their units on.
fn over_nine_in_step<const M: u32>(core: &Core<M>, p: u32, q: u32) -> Option<u32>
    requires p { p < size M }
    requires q { q < size M }
    ensures { result ≡ over_nine_in_step core.now p q }
{
    let digits = field_length(core, p);
    let of_p = over_nine_down(core, p, digits);
    let of_q = over_nine_down(core, q, digits.min(field_length(core, q)));
    nearer(p, q, of_p, of_q)
}

// The nearer to its units of two cells, one in the field at `p` and one in the field at `q`; P's cell if both are equally near.
fn nearer(p: u32, q: u32, of_p: Option<u32>, of_q: Option<u32>) -> Option<u32>
    ensures { result ≡ nearer p q of_p of_q }
{
    match of_p {
        Some(a) => match of_q {
            Some(b) => {
                if p.saturating_sub(a) <= q.saturating_sub(b) {
                    Some(a)
                } else {
                    Some(b)
                }
            }
            None => Some(a),
        },
        None => of_q,
    }
}

// How many digits the field at `p` has.
fn field_length<const M: u32>(core: &Core<M>, p: u32) -> u32
    requires { p < size M }
    ensures is { result ≡ field_length core.now p }
    ensures in_core { result ≤ p + 1 }
{
    core.size_law();
    let flag = core.flag_below(p).unwrap_or(0);
    p.saturating_sub(flag) + 1
}

// Whether the cell at `a` is over 9.
fn is_over_nine<const M: u32>(core: &Core<M>, a: u32) -> bool
    requires { a < size M }
    ensures { result ≡ is_over_nine (slice_index core.now a) }
{
    core.raw(a) % 16 > 9
}

// The first cell over 9 of the `n` digits from `a` downwards.
fn over_nine_down<const M: u32>(core: &Core<M>, a: u32, n: u32) -> Option<u32>
    requires a { a < size M }
    requires n { n ≤ a + 1 }
    ensures { result ≡ over_nine_down core.now a n }
{
    for k in 0..n {
        if is_over_nine(core, a - k) {
            return Some(a - k);
        }
    }
    None
}

// The first cell over 9 of the disk's control field at `p`.
fn over_nine_in_control<const M: u32>(core: &Core<M>, p: u32) -> Option<u32>
    requires { p < size M }
    ensures { result ≡ over_nine_in_control core.now p }
{
    let size = core.size();
    over_nine_up(core, p, CONTROL_CELLS.min(size - p))
}

// The first cell over 9 of the `n` digits from `a` upwards.
fn over_nine_up<const M: u32>(core: &Core<M>, a: u32, n: u32) -> Option<u32>
    requires { a + n ≤ size M }
    ensures { result ≡ first_up is_over_nine core.now a n }
{
    core.size_law();
    for k in 0..n {
        if is_over_nine(core, a + k) {
            return Some(a + k);
        }
    }
    None
}
