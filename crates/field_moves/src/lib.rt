//! Moves within core: a digit, a field or a record is copied, a flag is set or cleared.
//!
//! A field is addressed at its units, which is its highest position, and runs down to a flagged digit that is not the units. A
//! record is addressed at its lowest position and runs up to a record mark. Both move one digit at a time: a digit is read at Q and
//! stored at P before the next digit is read. If a move stores over its own field or record, this order decides the result.
#![tactic(auto)]

ghost use Rattle.std.specs.Prelude.{◌≡◌, ℕ, ◌*◌, ◌<◌, List, IfSome, Ok, true, false};
ghost use Rattle.digit_core.specs.{IsGood, size};
ghost use Rattle.addr_indirect.specs.Reading.{read_at};
ghost use Rattle.traces.specs.Stored.{Did};
ghost use Rattle.field_moves.specs.Move.{copy_digit, move_field, move_of, move_record};
ghost use Rattle.field_moves.specs.Flag.{set_flag, clear_flag};
ghost use Rattle.field_moves.specs.Whole.{FieldMoves, RecordMoves, MovesWholeDown, MovesWholeUp, ReadsFirstDown, ReadsFirstUp};

use addr_indirect::{Stop, read_at};
use digit_core::{
    Core, Digit, RECORD_MARK, are_good_at, field_in, ones_below, ones_from, record_in,
};
use instruction_table::MoveOp;

/// Carries out an operation that moves digits within core or changes a flag.
///
/// `p` and `q` are below the size of core; SF and CF don't use `q`. Changes and stops are as for `td`, `tf`, `tr`, `sf` or `cf`.
/// Source: CPU manual, internal data transmission.
#[inline(always)]
pub fn make_move<const M: u32>(core: &mut Core<M>, op: MoveOp, p: u32, q: u32) -> Result<(), Stop>
    requires p { p < size M }
    requires q { q < size M }
    ensures { Did core.old (move_of op core.old p q) core.new result }
{
    match op {
        MoveOp::Td => td(core, p, q),
        MoveOp::Tf => tf(core, p, q),
        MoveOp::Tr => tr(core, p, q),
        MoveOp::Sf => sf(core, p),
        MoveOp::Cf => cf(core, p),
    }
}

/// Copies the digit at `q` with its flag to `p`: the instruction TD.
///
/// `p` and `q` are below the size of core. All other cells stay.
/// Stops: as for `read_at` at `q`; core then stays.
/// Source: CPU manual, transmit digit.
pub fn td<const M: u32>(core: &mut Core<M>, p: u32, q: u32) -> Result<(), Stop>
    requires p { p < size M }
    requires q { q < size M }
    ensures { Did core.old (copy_digit core.old p q) core.new result }
{
    let d = read_at(core, q)?;
    core.put(p, d);
    Ok(())
}

/// Moves the field whose units are at `q` to `p`, with its flags, from the units downwards: the instruction TF.
///
/// The field ends with the first flagged digit that is not the units, which is moved too. `p` and `q` are below the size of core.
/// Stops: 2 if P's or Q's position would go below 00000, then as for `read_at` at Q's position; the digits moved before stay.
/// Source: CPU manual, transmit field; that a digit is stored before the next one is read is this project's own.
pub fn tf<const M: u32>(core: &mut Core<M>, p: u32, q: u32) -> Result<(), Stop>
    requires p { p < size M }
    requires q { q < size M }
    ensures { Did core.old (move_field core.old p q) core.new result }
{
    if short_field(core, p, q) {
        return Ok(());
    }
    long_field(core, p, q)
}

// Moves the field at `q` to `p` as one word, if it ends within ten cells and moves as a whole. If the answer is false, core stays.
#[inline]
fn short_field<const M: u32>(core: &mut Core<M>, p: u32, q: u32) -> bool
    requires p { p < size M }
    requires q { q < size M }
    ensures moves { result ≡ true → Did core.old (move_field core.old p q) core.new (Ok tt) }
    ensures stays { result ≡ false → core.new ≡ core.old }
{
    core.size_law();
    if q < 9 {
        return false;
    }
    let w = core.ten(q - 9);
    let Some(n) = field_in(w) else {
        return false;
    };
    let low = 10 - n;
    if n > p + 1 || !reads_first_down(p, q, n) || !are_good_at(w, ones_from(low)) {
        return false;
    }
    core.put_field(p + 1 - n, n, w >> (6 * low));
    true
}

// Moves the field at `q`, of any length, to `p`.
#[inline(never)]
fn long_field<const M: u32>(core: &mut Core<M>, p: u32, q: u32) -> Result<(), Stop>
    requires p { p < size M }
    requires q { q < size M }
    ensures { Did core.old (move_field core.old p q) core.new result }
{
    core.size_law();
    if let Some(n) = whole_field(core, p, q) {
        core.copy_cells(p, q, n);
        return Ok(());
    }
    field_digits(core, p, q)
}

// Whether a move downwards reads each of `n` cells at `q` before it stores over it.
fn reads_first_down(p: u32, q: u32, n: u32) -> bool
    ensures { result ≡ true → ReadsFirstDown p q n }
{
    if q <= p {
        return true;
    }
    q - p >= n
}

// Whether a move upwards reads each of `n` cells at `q` before it stores over it.
fn reads_first_up(p: u32, q: u32, n: u32) -> bool
    ensures { result ≡ true → ReadsFirstUp p q n }
{
    if p <= q {
        return true;
    }
    p - q >= n
}

// How many digits the field at `q` has, if it moves as a whole: it ends, all its digits are good, P's place lies in core, and each of
// its cells is read before it is stored over.
fn whole_field<const M: u32>(core: &Core<M>, p: u32, q: u32) -> Option<u32>
    requires p { p < size M }
    requires q { q < size M }
    ensures { IfSome result (MovesWholeDown core.now p q) }
{
    core.size_law();
    let end = core.flag_below(q)?;
    let n = q - end + 1;
    if n > p + 1 || !reads_first_down(p, q, n) {
        return None;
    }
    match core.first_bad(end, q) {
        None => Some(n),
        Some(_) => None,
    }
}

// Moves the field at `q` to `p`, one digit after another.
#[cold]
#[inline(never)]
fn field_digits<const M: u32>(core: &mut Core<M>, p: u32, q: u32) -> Result<(), Stop>
    requires p { p < size M }
    requires q { q < size M }
    ensures { Did core.old (move_field core.old p q) core.new result }
{
    core.size_law();
    let units = read_at(core, q)?;
    core.put(p, units);
    let cycles = p.min(q) + 1;
    for i in 1..cycles {
        let d = read_at(core, q - i)?;
        core.put(p - i, d);
        if d.flag {
            return Ok(());
        }
    }
    Err(Stop::Address)
}

/// The law of whole fields: `tf` moves a field. It does not stop, P's cells get the contents of Q's at the start, and all others stay.
///
/// The field has two digits or more, all in good cells, and P's place lies in core. The law holds if each cell of Q's field is read
/// before it is stored over; so it holds if the two share no position. The call does nothing; the law is its contract.
/// Source: CPU manual, transmit field.
pub fn field_move_law()
    ensures { FieldMoves }
{}

/// Moves the record at `q` to `p`, with its flags, from its lowest position upwards: the instruction TR.
///
/// The record ends with the first record mark, which is moved too. `p` and `q` are below the size of core.
/// Stops: 2 if P's or Q's position would go past the end of core, then as for `read_at` at Q's position; the digits moved
/// before stay.
/// Source: CPU manual, transmit record; that a digit is stored before the next one is read is this project's own.
pub fn tr<const M: u32>(core: &mut Core<M>, p: u32, q: u32) -> Result<(), Stop>
    requires p { p < size M }
    requires q { q < size M }
    ensures { Did core.old (move_record core.old p q) core.new result }
{
    if short_record(core, p, q) {
        return Ok(());
    }
    long_record(core, p, q)
}

// Moves the record at `q` to `p` as one word, if it ends within ten cells and moves as a whole. If the answer is false, core stays.
#[inline]
fn short_record<const M: u32>(core: &mut Core<M>, p: u32, q: u32) -> bool
    requires p { p < size M }
    requires q { q < size M }
    ensures moves { result ≡ true → Did core.old (move_record core.old p q) core.new (Ok tt) }
    ensures stays { result ≡ false → core.new ≡ core.old }
{
    let size = core.size();
    if q > size - 10 {
        return false;
    }
    let w = core.ten(q);
    let Some(n) = record_in(w) else {
        return false;
    };
    if n > size - p || !reads_first_up(p, q, n) || !are_good_at(w, ones_below(n)) {
        return false;
    }
    core.put_field(p, n, w);
    true
}

// Moves the record at `q`, of any length, to `p`.
#[inline(never)]
fn long_record<const M: u32>(core: &mut Core<M>, p: u32, q: u32) -> Result<(), Stop>
    requires p { p < size M }
    requires q { q < size M }
    ensures { Did core.old (move_record core.old p q) core.new result }
{
    core.size_law();
    if let Some(n) = whole_record(core, p, q) {
        core.copy_cells(p + n - 1, q + n - 1, n);
        return Ok(());
    }
    record_digits(core, p, q)
}

// How many digits the record at `q` has, if it moves as a whole: it ends, all its digits are good, P's place lies in core, and each of
// its cells is read before it is stored over.
fn whole_record<const M: u32>(core: &Core<M>, p: u32, q: u32) -> Option<u32>
    requires p { p < size M }
    requires q { q < size M }
    ensures { IfSome result (MovesWholeUp core.now p q) }
{
    let size = core.size();
    let mark = core.mark_above(q)?;
    let n = mark - q + 1;
    if n > size - p || !reads_first_up(p, q, n) {
        return None;
    }
    match core.first_bad(q, mark) {
        None => Some(n),
        Some(_) => None,
    }
}

// Moves the record at `q` to `p`, one digit after another.
#[cold]
#[inline(never)]
fn record_digits<const M: u32>(core: &mut Core<M>, p: u32, q: u32) -> Result<(), Stop>
    requires p { p < size M }
    requires q { q < size M }
    ensures { Did core.old (move_record core.old p q) core.new result }
{
    let size = core.size();
    let cycles = size - p.max(q);
    for i in 0..cycles {
        let d = read_at(core, q + i)?;
        core.put(p + i, d);
        if d.value == RECORD_MARK {
            return Ok(());
        }
    }
    Err(Stop::Address)
}

/// The law of whole records: `tr` moves a record. It does not stop, P's cells get the contents of Q's at the start, and all others stay.
///
/// The record has one digit or more, all in good cells, and P's place lies in core. The law holds if each cell of Q's record is read
/// before it is stored over; so it holds if the two share no position. The call does nothing; the law is its contract.
/// Source: CPU manual, transmit record.
pub fn record_move_law()
    ensures { RecordMoves }
{}

/// Sets the flag of the digit at `p`: the instruction SF.
///
/// `p` is below the size of core. The digit's value and all other cells stay.
/// Stops: as for `read_at` at `p`; core then stays.
/// Source: CPU manual, set flag.
pub fn sf<const M: u32>(core: &mut Core<M>, p: u32) -> Result<(), Stop>
    requires { p < size M }
    ensures { Did core.old (set_flag core.old p) core.new result }
{
    let d = read_at(core, p)?;
    core.put(
        p,
        Digit {
            flag: true,
            value: d.value,
        },
    );
    Ok(())
}

/// Clears the flag of the digit at `p`: the instruction CF.
///
/// `p` is below the size of core. The digit's value and all other cells stay.
/// Stops: as for `read_at` at `p`; core then stays.
/// Source: CPU manual, clear flag.
pub fn cf<const M: u32>(core: &mut Core<M>, p: u32) -> Result<(), Stop>
    requires { p < size M }
    ensures { Did core.old (clear_flag core.old p) core.new result }
{
    let d = read_at(core, p)?;
    core.put(
        p,
        Digit {
            flag: false,
            value: d.value,
        },
    );
    Ok(())
}
