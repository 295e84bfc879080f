//! Sums and comparisons by the numbers of whole fields, if the standard add table is in core.
//!
//! With the standard table the cycles of a sum give the sum of the two numbers. So if both fields are short and good, a
//! comparison uses their numbers. A sum does so if P's field also lies apart from Q's and from the table.

ghost use Rattle.std.specs.Prelude.{◌≡◌, ◌+◌, ◌%◌, ◌<◌, ◌≤◌, ◌||◌, nat_lt, true, Ok, None, IfSome, ℕ, ◌^◌};
ghost use Rattle.digit_core.specs.Size.{size};
ghost use Rattle.traces.specs.Stored.{Did};
ghost use Rattle.table_arith.specs.Sum.{sum, comparison, StoresSum};
ghost use Rattle.table_arith.specs.Values.{IsStandard, AreApart, magnitude_of, minus_of, has_carry};
ghost use Rattle.table_arith.specs.Numbers.{HasNumber, HoldsNumber, equal_test, compared_numbers};

use crate::sums::complements;
use crate::words::{field_cells, is_minus, magnitude_from};
use crate::{Kind, Shown};
use digit_core::{Core, are_decimal, field_in, ones_from};

// The number of a field: how many digits it has, their power of ten, its magnitude and its sign.
#[derive(Clone, Copy)]
pub(crate) struct Number {
    pub(crate) digits: u32,
    pub(crate) power: u64,
    pub(crate) magnitude: u64,
    pub(crate) negative: bool,
}

// The powers of ten up to the tenth.
const POWERS: [u64; 11] = [
    1,
    10,
    100,
    1_000,
    10_000,
    100_000,
    1_000_000,
    10_000_000,
    100_000_000,
    1_000_000_000,
    10_000_000_000,
];

// A power of ten.
#[inline(always)]
fn power_of(n: u32) -> u64
    requires { n ≤ 10 }
    ensures { result ≡ 10 ^ n }
{
    POWERS[n as usize]
}

// The number of the field whose units are at `p`, if `p` is at least 9 and the field has at most ten digits, all decimal.
#[inline(always)]
fn number_at<const M: u32>(core: &Core<M>, p: u32) -> Option<Number>
    requires { p < size M }
    ensures { IfSome result (HasNumber core.now p) }
{
    core.size_law();
    if p < 9 {
        return None;
    }
    let w = core.ten(p - 9);
    let n = field_in(w)?;
    let below = 10 - n;
    if !are_decimal(w, ones_from(below)) {
        return None;
    }
    Some(Number {
        digits: n,
        power: power_of(n),
        magnitude: magnitude_from(w, below),
        negative: is_minus(w),
    })
}

// Whether P's field of n digits shares no position with Q's of m digits, and none with the add table.
#[inline(always)]
fn are_apart(p: u32, n: u32, q: u32, m: u32) -> bool
    requires p { p < 100000 }
    requires q { q < 100000 }
    requires n { n ≤ 10 }
    requires m { m ≤ 10 }
    ensures { result ≡ true → AreApart p n q m }
{
    if p + m > q && q + n > p {
        return false;
    }
    p < 300 || p >= 399 + n
}

// Stores a number's digits and its sign in the field of n digits whose units are at `p`.
#[inline(always)]
fn store_number<const M: u32>(core: &mut Core<M>, p: u32, n: u32, magnitude: u64, minus: bool)
    requires p { p < size M }
    requires n { n ≤ p + 1 }
    requires two { 2 ≤ n }
    requires ten { n ≤ 10 }
    requires magnitude { magnitude < 10 ^ 10 }
    ensures { HoldsNumber core.old p n magnitude minus core.new }
{
    core.size_law();
    let cells = field_cells(magnitude, n, minus);
    core.put_field(p + 1 - n, n, cells);
}

// The number at Q within as many digits as P's field has.
#[inline(always)]
fn within(x: Number, y: Number) -> u64
    requires power { 0 < x.power }
    ensures is { result ≡ y.magnitude % x.power }
    ensures below { result < x.power }
{
    if y.magnitude < x.power {
        return y.magnitude;
    }
    y.magnitude % x.power
}

// The magnitude of a sum.
#[inline(always)]
fn magnitude_of(complement: bool, a: u64, b: u64, power: u64) -> u64
    requires a { a < power }
    requires b { b < power }
    requires power { power < 2 ^ 40 }
    ensures is { result ≡ magnitude_of complement a b power }
    ensures below { result < power }
{
    if complement {
        if a < b { b - a } else { a - b }
    } else if a + b < power {
        a + b
    } else {
        a + b - power
    }
}

// The sign of a sum.
#[inline(always)]
fn minus_of(complement: bool, sign: bool, a: u64, b: u64) -> bool
    ensures { result ≡ minus_of complement sign a b }
{
    if complement && a < b { !sign } else { sign }
}

// Whether a sum overflows: Q's field is longer, or a true addition has a carry.
#[inline(always)]
fn overflow_of(complement: bool, x: Number, m: u32, b: u64) -> bool
    requires a { x.magnitude < 2 ^ 40 }
    requires b { b < 2 ^ 40 }
    ensures { result ≡ (nat_lt x.digits m || has_carry complement x.power (x.magnitude + b)) }
{
    x.digits < m || (!complement && x.power <= x.magnitude + b)
}

// Makes a sum by the numbers of its fields.
#[inline(always)]
fn store_sum<const M: u32>(
    core: &mut Core<M>,
    p: u32,
    q: u32,
    kind: Kind,
    x: Number,
    y: Number,
) -> Shown
    requires p { p < size M }
    requires standard { IsStandard core.old }
    requires x { HasNumber core.old p x }
    requires y { HasNumber core.old q y }
    requires apart { AreApart p x.digits q y.digits }
    ensures { Did core.old (sum kind core.old p q) core.new (Ok result) }
{
    let b = within(x, y);
    let complement = complements(kind, x.negative, y.negative);
    let magnitude = magnitude_of(complement, x.magnitude, b, x.power);
    let minus = minus_of(complement, x.negative, x.magnitude, b);
    let overflow = overflow_of(complement, x, y.digits, b);
    store_number(core, p, x.digits, magnitude, minus);
    Shown {
        zero: magnitude == 0,
        negative: minus,
        overflow,
    }
}

// Makes a sum by numbers, if both fields and the table allow it; else nothing is done.
#[inline(always)]
pub(crate) fn quick_sum<const M: u32>(
    core: &mut Core<M>,
    p: u32,
    q: u32,
    kind: Kind,
) -> Option<Shown>
    requires p { p < size M }
    requires q { q < size M }
    ensures made { IfSome result (StoresSum kind core.old p q core.new) }
    ensures not_made { result ≡ None → core.new ≡ core.old }
{
    core.size_law();
    if !core.find_add_table() {
        return None;
    }
    let x = match number_at(core, p) {
        Some(x) => x,
        None => return None,
    };
    let y = match number_at(core, q) {
        Some(y) => y,
        None => return None,
    };
    if !are_apart(p, x.digits, q, y.digits) {
        return None;
    }
    Some(store_sum(core, p, q, kind, x, y))
}

// Makes a comparison by numbers, if both fields and the table allow it.
#[inline(always)]
pub(crate) fn quick_comparison<const M: u32>(core: &Core<M>, p: u32, q: u32) -> Option<Shown>
    requires p { p < size M }
    requires q { q < size M }
    ensures { IfSome result (λ shown. comparison core.now p q ≡ Ok shown) }
{
    core.size_law();
    if !core.has_add_table() {
        return None;
    }
    let x = match number_at(core, p) {
        Some(x) => x,
        None => return None,
    };
    let y = match number_at(core, q) {
        Some(y) => y,
        None => return None,
    };
    Some(compared_numbers(x, y))
}

// What a comparison of two numbers shows.
#[inline(always)]
fn compared_numbers(x: Number, y: Number) -> Shown
    requires { 0 < x.power }
    ensures { result ≡ compared_numbers x y }
{
    let b = within(x, y);
    let complement = complements(Kind::Subtract, x.negative, y.negative);
    let zero = equal_test(complement, x.magnitude, b);
    let below = complement && x.magnitude < b;
    let negative = x.negative != below;
    Shown {
        zero,
        negative,
        overflow: x.digits < y.digits,
    }
}

// Whether two numbers are equal, by their magnitudes and whether their signs agree.
#[inline(always)]
fn equal_test(complement: bool, a: u64, b: u64) -> bool
    ensures { result ≡ equal_test complement a b }
{
    if complement { a == b } else { a == 0 && b == 0 }
}
