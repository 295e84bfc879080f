//! A word of ten cells, six bits each.

ghost use Rattle.std.specs.Prelude.{◌≡◌, ℕ, ◌+◌, ◌*◌, ◌/◌, ◌^◌, ◌<◌, true, false, bit_and, bit_xor, Ok, IfSome, ◌%◌, ◌≤◌, ◌≢◌, ◌⊎◌, None, All, length, slice_set};
ghost use Rattle.digit_core.specs.Packed.{six, cells_of, with_six, with_part};
ghost use Rattle.digit_core.specs.Cell.{IsGood, read_cell, has_flag};
ghost use Rattle.digit_core.specs.Search.{has_mark, has_eight_and_two, is_bad_cell, is_undecimal, one_if};
ghost use Rattle.digit_core.specs.Within.{EndsField, EndsRecord, IsLowest, IsHighest};
ghost use Rattle.digit_core.specs.Within.{AreGood, AreGoodAt, AreDecimalAt, HasBad, HasBadAt, HasUndecimalAt};

use crate::Digit;

// The cell number `j` of a word.
#[inline]
pub(crate) fn six(w: u64, j: u32) -> u8
    requires { j < 10 }
    ensures is { result ≡ six w j }
    ensures small { result < 64 }
{
    ((w >> (6 * j)) % 64) as u8
}

// A word with its cell number `j` replaced.
#[inline]
fn with_six(w: u64, j: u32, v: u8) -> u64
    requires word { w < 2 ^ 60 }
    requires place { j < 10 }
    requires cell { v < 64 }
    ensures is { result ≡ with_six w j v }
    ensures word { result < 2 ^ 60 }
{
    let k = 6 * j;
    let old = (w >> k) % 64;
    w - (old << k) + ((v as u64) << k)
}

// Replaces the cell at `a`.
#[inline]
pub(crate) fn put_six(words: &mut [u64], a: u32, v: u8)
    requires cell { v < 64 }
    requires room { a < 10 * length words.old }
    requires sixty_bits { All (λ w. w < 2 ^ 60) words.old }
    ensures cells { cells_of words.new ≡ slice_set (cells_of words.old) a v }
    ensures length { length words.new ≡ length words.old }
    ensures sixty_bits { All (λ w. w < 2 ^ 60) words.new }
{
    let w = words[(a / 10) as usize];
    words[(a / 10) as usize] = with_six(w, a % 10, v);
}

// A word with its `n` cells from number `j` upwards replaced by the lowest `n` cells of another.
#[inline]
pub(crate) fn with_part(w: u64, j: u32, n: u32, v: u64) -> u64
    requires word { w < 2 ^ 60 }
    requires within { j + n ≤ 10 }
    ensures is { result ≡ with_part w j n v }
    ensures word { result < 2 ^ 60 }
{
    let k = 6 * j;
    let end = 1 << (6 * n);
    // The bits in which these cells of the two words differ are inverted.
    let changed = ((w >> k) ^ v) % end;
    w ^ (changed << k)
}

// The lowest bit of each of the ten cells.
const ONES: u64 = 0x0041_0410_4104_1041;

// One bit of each cell, as the cell's lowest.
#[inline]
fn plane(w: u64, bit: u32) -> u64
    requires { bit < 6 }
    ensures { result ≡ bit_and (w / 2 ^ bit) ONES }
{
    (w >> bit) & ONES
}

// A word with 1 in each cell that has a flag, and 0 in the others.
#[inline]
pub(crate) fn flags(w: u64) -> u64
    ensures { (j : ℕ) → j < 10 → six result j ≡ one_if (has_flag (six w j)) }
{
    plane(w, 4)
}

// A word with 1 in each cell that is a record mark, and 0 in the others.
#[inline]
pub(crate) fn marks(w: u64) -> u64
    ensures { (j : ℕ) → j < 10 → six result j ≡ one_if (has_mark (six w j)) }
{
    // At bit 2 of a cell: 8 and 2. At its lowest bit: 4 or 1.
    let both = w & (w >> 2);
    let either = w | (w >> 2);
    (both >> 1) & (either ^ ONES) & ONES
}

// The bit 2 of each of the ten cells.
const TWOS: u64 = 0x0082_0820_8208_2082;

// A word with bit 2 of each cell that has both 8 and 2, as a record mark has, and with no other bit.
#[inline]
pub(crate) fn twos_with_eight(w: u64) -> u64
    ensures { result ≡ 0 → (j : ℕ) → j < 10 → has_eight_and_two (six w j) ≡ false }
{
    w & (w >> 2) & TWOS
}

// The lowest bit of each cell is the parity of its bits 1, 2 and 4. The bit three above is the parity of its bits 8, F and C.
#[inline]
fn half_parities(w: u64) -> u64
    ensures { result ≡ bit_xor (bit_xor w (w / 2 ^ 1)) (w / 2 ^ 2) }
{
    w ^ (w >> 1) ^ (w >> 2)
}

// A word with 1 in each cell that holds no digit, and 0 in the others.
#[inline]
pub(crate) fn bads(w: u64) -> u64
    ensures cells { (j : ℕ) → j < 10 → six result j ≡ one_if (is_bad_cell (six w j)) }
    ensures word { result < 2 ^ 60 }
{
    let half = half_parities(w);
    let odd = half ^ (half >> 3);
    // Finds 11, 13 and 14 among the odd cells: bit 8, an odd number of the bits 8, F and C, and bit 1 or 2. Then the number of
    // the bits 4, 2 and 1 is even, and so two.
    let wrong = ((w & half) >> 3) & (w | (w >> 1));
    ((odd ^ ONES) | wrong) & ONES
}

// A word with 1 in each cell that holds no decimal digit, and 0 in the others.
#[inline]
fn undecimals(w: u64) -> u64
    ensures cells { (j : ℕ) → j < 10 → six result j ≡ one_if (is_undecimal (six w j)) }
    ensures word { result < 2 ^ 60 }
{
    let half = half_parities(w);
    let odd = half ^ (half >> 3);
    let over_nine = (w >> 3) & ((w >> 2) | (w >> 1));
    ((odd ^ ONES) | over_nine) & ONES
}

/// Whether each of a word's ten cells holds a digit.
///
/// Source: this project's own.
#[inline]
pub fn are_good(w: u64) -> bool
    ensures yes { result ≡ true → AreGood w }
    ensures no { result ≡ false → HasBad w }
{
    bads(w) == 0
}

/// Whether each cell of a word that `mask` names holds a decimal digit.
///
/// `mask` has 1 at each cell that it names and 0 at the others; only the lowest bit of a cell counts.
/// Source: this project's own.
#[inline]
pub fn are_decimal(w: u64, mask: u64) -> bool
    ensures yes { result ≡ true → AreDecimalAt w mask }
    ensures no { result ≡ false → HasUndecimalAt w mask }
{
    undecimals(w) & mask == 0
}

/// Whether each cell of a word that `mask` names holds a digit.
///
/// `mask` has 1 at each cell that it names and 0 at the others; only the lowest bit of a cell counts.
/// Source: this project's own.
#[inline]
pub fn are_good_at(w: u64, mask: u64) -> bool
    ensures yes { result ≡ true → AreGoodAt w mask }
    ensures no { result ≡ false → HasBadAt w mask }
{
    bads(w) & mask == 0
}

/// A mask that names the cells from number `j` on, and no others.
///
/// `j` is at most 10.
/// Source: this project's own.
#[inline]
pub fn ones_from(j: u32) -> u64
    requires { j ≤ 10 }
    ensures named { (i : ℕ) → j ≤ i → i < 10 → six result i ≡ 1 }
    ensures others { (i : ℕ) → i < j → six result i ≡ 0 }
    ensures word { result < 2 ^ 60 }
{
    (ONES << (6 * j)) % (1 << 60)
}

/// A mask that names the cells below number `j`, and no others.
///
/// `j` is at most 10.
/// Source: this project's own.
#[inline]
pub fn ones_below(j: u32) -> u64
    requires { j ≤ 10 }
    ensures named { (i : ℕ) → i < j → six result i ≡ 1 }
    ensures others { (i : ℕ) → j ≤ i → i < 10 → six result i ≡ 0 }
    ensures word { result < 2 ^ 60 }
{
    ONES % (1 << (6 * j))
}

// A mask that names the cells from number `from` on that are below number `to`, and no others.
#[inline]
pub(crate) fn ones_between(from: u32, to: u32) -> u64
    requires from { from ≤ 10 }
    requires to { to ≤ 10 }
    ensures named { (i : ℕ) → from ≤ i → i < to → six result i ≡ 1 }
    ensures others { (i : ℕ) → i < 10 → (i < from) ⊎ (to ≤ i) → six result i ≡ 0 }
{
    ones_from(from) & ones_below(to)
}

// The lowest cell that is 1.
#[inline]
pub(crate) fn lowest(ones: u64) -> Option<u32>
    ensures is { IfSome result (IsLowest ones) }
    ensures none { result ≡ None → (j : ℕ) → j < 10 → six ones j ≢ 1 }
{
    if ones == 0 {
        return None;
    }
    let mut j = 0;
    while j < 10 {
        if six(ones, j) == 1 {
            return Some(j);
        }
        j += 1;
    }
    None
}

// The highest cell that is 1.
#[inline]
pub(crate) fn highest(ones: u64) -> Option<u32>
    ensures is { IfSome result (IsHighest ones) }
    ensures none { result ≡ None → (j : ℕ) → j < 10 → six ones j ≢ 1 }
{
    if ones == 0 {
        return None;
    }
    let mut j = 10;
    while j > 0 {
        j -= 1;
        if six(ones, j) == 1 {
            return Some(j);
        }
    }
    None
}

// The highest cell that is 1, of a word whose cells are 0 and 1.
#[inline(always)]
fn top(ones: u64) -> Option<u32>
    requires word { ones < 2 ^ 60 }
    requires bits { (j : ℕ) → j < 10 → six ones j ≤ 1 }
    ensures is { IfSome result (IsHighest ones) }
    ensures none { result ≡ None → (j : ℕ) → j < 10 → six ones j ≢ 1 }
{
    if ones == 0 {
        return None;
    }
    Some((63 - ones.leading_zeros()) / 6)
}

/// The number of digits of the field whose units are a word's highest cell; `None` if the field doesn't end within the word.
///
/// A flag at the units doesn't end the field.
/// Source: CPU manual, data representation.
#[inline(always)]
pub fn field_in(w: u64) -> Option<u32>
    ensures is { IfSome result (EndsField w) }
    ensures none { result ≡ None → (j : ℕ) → j < 9 → has_flag (six w j) ≡ false }
{
    match top(flags(w) & ones_below(9)) {
        Some(j) => Some(10 - j),
        None => None,
    }
}

/// The number of digits, with the record mark, of the record whose first digit is a word's lowest cell; `None` if the record
/// doesn't end within the word.
///
/// Source: CPU manual, data representation.
#[inline]
pub fn record_in(w: u64) -> Option<u32>
    ensures is { IfSome result (EndsRecord w) }
    ensures none { result ≡ None → (j : ℕ) → j < 10 → has_mark (six w j) ≡ false }
{
    match lowest(marks(w)) {
        Some(j) => Some(j + 1),
        None => None,
    }
}

/// The digit of a word's cell number `j`.
///
/// `j` is below 10, and the cell holds a digit.
/// Source: CPU manual, core storage.
#[inline]
#[tactic(auto, unfolding(crate::specs::Cell::read_cell))]
pub fn digit_in(w: u64, j: u32) -> Digit
    requires place { j < 10 }
    requires good { is_bad_cell (six w j) ≡ false }
    ensures is { read_cell (six w j) ≡ Ok result }
    ensures good { IsGood result }
{
    let c = six(w, j);
    Digit {
        flag: c / 16 % 2 == 1,
        value: c % 16,
    }
}
