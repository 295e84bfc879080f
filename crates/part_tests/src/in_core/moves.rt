//! Moves, each compared with the same move one digit after another.

ghost use Rattle.std.specs.Prelude.{◌≡◌, ◌≤◌, ◌+◌, true};

use addr_indirect::{Stop, read_at};
use core_texts::write;
use digit_core::Core;
use field_moves::{field_move_law, record_move_law, tf, tr};
use std::alloc::Global;

// A field moved one digit after another.
fn field_by_digits(core: &mut Core<1>, p: u32, q: u32) -> Result<(), Stop> {
    let size = core.size();
    if p >= size || q >= size {
        return Err(Stop::Address);
    }
    for i in 0..p.min(q) + 1 {
        let d = read_at(core, q - i)?;
        core.put(p - i, d);
        if d.flag && i > 0 {
            return Ok(());
        }
    }
    Err(Stop::Address)
}

// A record moved one digit after another.
fn record_by_digits(core: &mut Core<1>, p: u32, q: u32) -> Result<(), Stop> {
    let size = core.size();
    if p >= size || q >= size {
        return Err(Stop::Address);
    }
    for i in 0..size - p.max(q) {
        let d = read_at(core, q + i)?;
        core.put(p + i, d);
        if d.value == 10 {
            return Ok(());
        }
    }
    Err(Stop::Address)
}

// Whether `n` digits may be at `a` and move to `p`.
fn may_move(size: u32, a: u32, n: u32, p: u32) -> bool
    requires { 40 ≤ size }
    ensures few { result ≡ true → n ≤ 12 }
    ensures some { result ≡ true → 2 ≤ n }
    ensures a { result ≡ true → a + 20 ≤ size }
    ensures p { result ≡ true → p + 20 ≤ size }
{
    n >= 2 && n <= 12 && a <= size - 20 && p <= size - 20
}

// Stores a text in both cores.
fn both_take(one: &mut Core<1>, other: &mut Core<1>, a: u32, text: &[u8]) -> bool {
    write(one, a, text).is_ok() && write(other, a, text).is_ok()
}

// Whether two equal cores stay equal if a field of `n` digits at `a` moves to `p`: in one core by the instruction, in the other
// one digit after another.
fn fields_agree(one: &mut Core<1>, other: &mut Core<1>, a: u32, n: u32, p: u32) -> bool {
    if !may_move(one.size(), a, n, p) {
        return false;
    }
    let digits = b"23456789012";
    let below = &digits[(12 - n) as usize..];
    both_take(one, other, a, b"J")
        && both_take(one, other, a + 1, below)
        && tf(one, p + n - 1, a + n - 1) == field_by_digits(other, p + n - 1, a + n - 1)
        && one.words() == other.words()
}

// Whether two equal cores stay equal if a record of `n` digits at `a` moves to `p` in these two ways.
fn records_agree(one: &mut Core<1>, other: &mut Core<1>, a: u32, n: u32, p: u32) -> bool {
    if !may_move(one.size(), a, n, p) {
        return false;
    }
    let digits = b"K98765432J1|";
    let record = &digits[(12 - n) as usize..];
    both_take(one, other, a, record)
        && tr(one, p, a) == record_by_digits(other, p, a)
        && one.words() == other.words()
}

// Whether moves of `n` digits from ten places agree.
fn moves_agree(one: &mut Core<1>, other: &mut Core<1>, n: u32) -> bool
    requires some { 2 ≤ n }
    requires few { n ≤ 12 }
{
    for a in 500..510 {
        // apart below and above, wholly over itself, over itself by one and by all but one
        for p in [303, 708, a, a + 1, a - 1, a + n - 1, a + 1 - n] {
            if !fields_agree(one, other, a, n, p) || !records_agree(one, other, a, n, p) {
                return false;
            }
        }
    }
    true
}

// Whether moves agree for each number of digits from 2 to 12.
fn all_agree(alloc: Global) -> bool {
    let (Ok(mut one), Ok(mut other)) = (Core::<1>::new(alloc), Core::<1>::new(alloc)) else {
        return false;
    };
    let mut same = true;
    for n in 2..13 {
        same = same && moves_agree(&mut one, &mut other, n);
    }
    same
}

#[test]
fn moves_of_2_to_12_digits_at_each_place_of_a_word(rt: HostRuntime) {
    field_move_law();
    record_move_law();
    assert!(rt; all_agree(rt.alloc()));
}
