// Digits five and ten at a time, by the words that hold them.
ghost use Rattle.std.specs.Prelude.{◌≡◌, ◌≢◌, ℕ, ◌+◌, ◌*◌, ◌/◌, ◌≤◌, ◌<◌, ◌^◌, true, false, IfSome, bit_xor};
ghost use Rattle.digit_core.specs.{size, six, has_flag};
ghost use Rattle.feature_ops.specs.Five.{AreOdd, AreZoned, FiveAreGood, AreUnflagged, ArePairsApart, AreStillApart, Strips, StripsOf, IsNextTen, FillsOf};

use digit_core::{Core, are_good, field_in};

// The cells of five zones of numbers, each with room for its digit above it.
const FIVE_ZONES: u64 = 0x0007_0070_0700_7007;

// The cells that the next cycles leave, the count of their digits, and whether the field ends with the lowest digit.
#[derive(Clone, Copy)]
pub(crate) struct Turn {
    pub(crate) count: u32,
    pub(crate) cells: u64,
    pub(crate) ends: bool,
}

// The cells that the next cycles of a strip leave at Q: `whole` or five cells, or those down to the field's end. None unless the next
// digits of both are good, P's digits are unflagged, and the two share no cell.
#[inline]
pub(crate) fn next_stripped<const M: u32>(
    core: &Core<M>,
    pairs: u32,
    left: u32,
    whole: u32,
) -> Option<Turn>
    requires pairs { 2 * pairs ≤ size M }
    requires left { left ≤ size M }
    requires some { 1 ≤ whole }
    requires most { whole ≤ 10 }
    ensures { IfSome result (Strips core.now pairs left) }
{
    core.size_law();
    if !are_apart(pairs, left, 5) {
        return None;
    }
    let olds = core.ten(left - 10);
    let high = odd_cells(core.ten(2 * pairs - 10));
    if !are_unflagged(high) {
        return None;
    }
    if are_unflagged(olds >> 30) && are_apart(pairs, left, 10) {
        let low = odd_cells(core.ten(2 * pairs - 20));
        let digits = low + (high << 30);
        if are_unflagged(low) && are_good(olds) && are_good(digits) {
            return Some(turn_stripped(10, whole, olds, digits));
        }
    }
    if !both_are_good(olds, high) {
        return None;
    }
    Some(turn_stripped(5, 5, olds >> 30, high))
}

// The pass of a strip over `n` cells of Q, the lowest of a word, which get the digits of another word: those down to the field's end,
// or only the highest `whole` if the end isn't among them.
#[inline(always)]
fn turn_stripped(n: u32, whole: u32, olds: u64, digits: u64) -> Turn
    requires n { 5 ≤ n }
    requires ten { n ≤ 10 }
    requires some { 1 ≤ whole }
    requires most { whole ≤ n }
    requires olds { olds < 2 ^ (6 * n) }
    requires highest { has_flag (six olds 9) ≡ false }
    requires digits { digits < 2 ^ 60 }
    ensures { StripsOf n olds digits result }
{
    match field_in(olds) {
        None => Turn {
            count: whole,
            cells: digits >> (6 * (n - whole)),
            ends: false,
        },
        Some(m) => Turn {
            count: m + n - 10,
            cells: flag_turned(digits >> (6 * (10 - m))),
            ends: true,
        },
    }
}

// The next ten cells of Q, if they are good and the highest five share no cell with the next five pairs of P.
#[inline]
pub(crate) fn next_ten<const M: u32>(core: &Core<M>, pairs: u32, left: u32) -> Option<u64>
    requires pairs { 2 * pairs ≤ size M }
    requires left { left ≤ size M }
    ensures { IfSome result (IsNextTen core.now pairs left) }
{
    core.size_law();
    if !are_apart(pairs, left, 5) {
        return None;
    }
    let olds = core.ten(left - 10);
    if are_good(olds) { Some(olds) } else { None }
}

// The pass of a fill over five good cells of Q, the lowest of a word: those down to the field's end, or only the highest `whole` if the
// end isn't among them.
#[inline(always)]
pub(crate) fn turn_filled(five: u64, whole: u32) -> Turn
    requires five { five < 2 ^ 30 }
    requires good { FiveAreGood five }
    requires some { 1 ≤ whole }
    requires most { whole ≤ 5 }
    ensures { FillsOf five whole result }
{
    match field_in(five) {
        None => Turn {
            count: whole,
            cells: with_zones(five >> (6 * (5 - whole))),
            ends: false,
        },
        Some(n) => Turn {
            count: n - 5,
            cells: with_zones(flag_turned(five >> (6 * (10 - n)))),
            ends: true,
        },
    }
}

// How many of `n` positions or pairs, counted from the start of a word, lie in the last word, if each word holds `word` of them.
// After that many, each pass stores whole words. If `n` fills whole words, the answer is `word`.
#[inline(always)]
pub(crate) fn rest_of_word(n: u32, word: u32) -> u32
    requires { 1 ≤ word }
    ensures some { 1 ≤ result }
    ensures most { result ≤ word }
{
    let rest = n % word;
    if rest == 0 { word } else { rest }
}

// Whether `n` pairs of P and ten positions of Q are left, and the next `n` of each share no cell.
#[inline]
fn are_apart(pairs: u32, left: u32, n: u32) -> bool
    requires pairs { 2 * pairs < 2 ^ 32 }
    requires ten { n ≤ 10 }
    ensures apart { result ≡ true → ArePairsApart pairs left n }
    ensures ten { result ≡ true → 10 ≤ left }
{
    if pairs < n || left < 10 {
        return false;
    }
    left <= 2 * pairs - 2 * n || 2 * pairs <= left - n
}

// Whether five pairs of P are left, and the next five positions of Q share no cell with them, nor with the five pairs above them.
#[inline]
pub(crate) fn are_still_apart(pairs: u32, left: u32) -> bool
    requires pairs { 2 * pairs < 2 ^ 31 }
    requires left { left < 2 ^ 31 }
    requires five { 5 ≤ left }
    ensures { result ≡ true → AreStillApart pairs left }
{
    pairs >= 5 && (left + 10 <= 2 * pairs || 2 * pairs + 15 <= left)
}

// Whether none of the lowest nine cells of a word has a flag.
#[inline]
fn are_unflagged(w: u64) -> bool
    ensures { result ≡ true → AreUnflagged w }
{
    match field_in(w) {
        Some(_) => false,
        None => true,
    }
}

// Whether each of the highest five cells of one word and of the lowest five of another holds a digit.
#[inline]
fn both_are_good(olds: u64, five: u64) -> bool
    requires olds { olds < 2 ^ 60 }
    requires five { five < 2 ^ 30 }
    ensures olds { result ≡ true → FiveAreGood (olds / 2 ^ 30) }
    ensures five { result ≡ true → FiveAreGood five }
{
    are_good((olds >> 30 << 30) + five)
}

// A word whose lowest cell has its flag inverted, and its parity kept.
#[inline]
fn flag_turned(w: u64) -> u64
    requires { w < 2 ^ 60 }
    ensures lowest { six result 0 ≡ bit_xor (six w 0) 48 }
    ensures others { (j : ℕ) → 0 < j → six result j ≡ six w j }
{
    let c = w % 64;
    (w >> 6 << 6) + (c ^ 48)
}

// The odd cells of a word, as the lowest five of another word.
#[inline]
fn odd_cells(w: u64) -> u64
    requires { w < 2 ^ 60 }
    ensures cells { AreOdd result w }
    ensures small { result < 2 ^ 30 }
{
    let c0 = (w >> 6) % 64;
    let c1 = (w >> 18) % 64;
    let c2 = (w >> 30) % 64;
    let c3 = (w >> 42) % 64;
    let c4 = (w >> 54) % 64;
    c0 + (c1 << 6) + (c2 << 12) + (c3 << 18) + (c4 << 24)
}

// The lowest five cells of a word as the odd cells of another word, whose even cells are zones of numbers.
#[inline]
fn with_zones(five: u64) -> u64
    ensures { AreZoned result five }
{
    let c0 = five % 64;
    let c1 = (five >> 6) % 64;
    let c2 = (five >> 12) % 64;
    let c3 = (five >> 18) % 64;
    let c4 = (five >> 24) % 64;
    FIVE_ZONES + (c0 << 6) + (c1 << 18) + (c2 << 30) + (c3 << 42) + (c4 << 54)
}
