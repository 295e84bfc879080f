//! Fields of at most ten digits as words: the ten cells that end at the units, the units highest.

ghost use Rattle.std.specs.Prelude.{◌≡◌, ℕ, ◌-◌, ◌/◌, ◌%◌, ◌^◌, ◌<◌, ◌≤◌, if◌then◌else◌, bit_xor};
ghost use Rattle.digit_core.specs.{six, cell, unflagged_digit, has_flag};
ghost use Rattle.table_arith.specs.Words.{number_within, pairs_within, number_of_pairs, HasDigits, HasField};

// The digit of every other cell, from the lowest on.
const DIGITS: u64 = 0x000f_00f0_0f00_f00f;

// Two of four pairs of cells, from the lowest on.
const PAIRS: u64 = 0x0000_000f_ff00_0fff;

// The good cells of a number below 100, the tens in the lower cell.
const CELLS: [u16; 100] = [
    0x820, 0x060, 0x0a0, 0x8e0, 0x120, 0x960, 0x9a0, 0x1e0, 0x220, 0xa60, 0x801, 0x041, 0x081,
    0x8c1, 0x101, 0x941, 0x981, 0x1c1, 0x201, 0xa41, 0x802, 0x042, 0x082, 0x8c2, 0x102, 0x942,
    0x982, 0x1c2, 0x202, 0xa42, 0x823, 0x063, 0x0a3, 0x8e3, 0x123, 0x963, 0x9a3, 0x1e3, 0x223,
    0xa63, 0x804, 0x044, 0x084, 0x8c4, 0x104, 0x944, 0x984, 0x1c4, 0x204, 0xa44, 0x825, 0x065,
    0x0a5, 0x8e5, 0x125, 0x965, 0x9a5, 0x1e5, 0x225, 0xa65, 0x826, 0x066, 0x0a6, 0x8e6, 0x126,
    0x966, 0x9a6, 0x1e6, 0x226, 0xa66, 0x807, 0x047, 0x087, 0x8c7, 0x107, 0x947, 0x987, 0x1c7,
    0x207, 0xa47, 0x808, 0x048, 0x088, 0x8c8, 0x108, 0x948, 0x988, 0x1c8, 0x208, 0xa48, 0x829,
    0x069, 0x0a9, 0x8e9, 0x129, 0x969, 0x9a9, 0x1e9, 0x229, 0xa69,
];

// The bits that a flag reverses in the good cell of a decimal digit: F and C.
const FLAG: u64 = 0x30;

// The same bits in a word's highest cell.
const HIGHEST_FLAG: u64 = 0x0c00_0000_0000_0000;

// A word with zeros in its lowest `below` cells.
#[inline(always)]
fn cleared_below(w: u64, below: u32) -> u64
    requires word { w < 2 ^ 60 }
    requires below { below ≤ 10 }
    ensures kept { (j : ℕ) → below ≤ j → six result j ≡ six w j }
    ensures cleared { (j : ℕ) → j < below → six result j ≡ 0 }
    ensures word { result < 2 ^ 60 }
{
    w >> (6 * below) << (6 * below)
}

// The numbers of a word's five pairs of digits, twelve bits each.
#[inline(always)]
fn pairs_within(w: u64) -> u64
    requires { w < 2 ^ 60 }
    ensures { result ≡ pairs_within w }
{
    10 * (w & DIGITS) + (w >> 6 & DIGITS)
}

// The number that five pairs make.
#[inline(always)]
fn number_of_pairs(pairs: u64) -> u64
    requires { pairs < 2 ^ 60 }
    ensures { result ≡ number_of_pairs pairs }
{
    let fours = 100 * (pairs & PAIRS) + (pairs >> 12 & PAIRS);
    (fours % (1 << 24) * 10_000 + (fours >> 24)) * 100 + (pairs >> 48)
}

// The number of the digits from a word's cell number `below` to its highest.
#[inline(always)]
pub(crate) fn magnitude_from(w: u64, below: u32) -> u64
    requires word { w < 2 ^ 60 }
    requires below { below ≤ 10 }
    ensures { result ≡ number_within w (10 - below) }
{
    let field = cleared_below(w, below);
    let pairs = pairs_within(field);
    number_of_pairs(pairs)
}

// Whether a word's highest cell has a flag.
#[inline(always)]
pub(crate) fn is_minus(w: u64) -> bool
    ensures { result ≡ has_flag (six w 9) }
{
    (w >> 58) % 2 == 1
}

// The good cells of two digits.
#[inline(always)]
fn pair_cells(number: u32) -> u64
    requires { number < 100 }
    ensures tens { six result 0 ≡ cell (unflagged_digit (number / 10)) }
    ensures units { six result 1 ≡ cell (unflagged_digit (number % 10)) }
    ensures small { result < 2 ^ 12 }
{
    CELLS[number as usize] as u64
}

// The good cells of the ten digits of a number, the units in the highest cell.
#[inline(always)]
fn digit_cells(magnitude: u64) -> u64
    requires { magnitude < 10 ^ 10 }
    ensures digits { HasDigits result magnitude }
    ensures word { result < 2 ^ 60 }
{
    let above = (magnitude / 100) as u32;
    let low = above % 10_000;
    let high = above / 10_000;
    let c0 = pair_cells(high / 100);
    let c1 = pair_cells(high % 100);
    let c2 = pair_cells(low / 100);
    let c3 = pair_cells(low % 100);
    let c4 = pair_cells((magnitude % 100) as u32);
    c0 + (c1 << 12) + (c2 << 24) + (c3 << 36) + (c4 << 48)
}

// The cells of a field of n digits, its leftmost in the lowest cell.
#[inline(always)]
pub(crate) fn field_cells(magnitude: u64, n: u32, minus: bool) -> u64
    requires magnitude { magnitude < 10 ^ 10 }
    requires two { 2 ≤ n }
    requires ten { n ≤ 10 }
    ensures { HasField result n magnitude minus }
{
    let digits = digit_cells(magnitude);
    let signed = with_sign(digits, minus);
    signed >> (60 - 6 * n) ^ FLAG
}

// The cells of a number with its sign.
#[inline(always)]
fn with_sign(digits: u64, minus: bool) -> u64
    requires { digits < 2 ^ 60 }
    ensures units { six result 9 ≡ (if minus then bit_xor (six digits 9) 48 else six digits 9) }
    ensures others { (j : ℕ) → j < 9 → six result j ≡ six digits j }
{
    if minus { digits ^ HIGHEST_FLAG } else { digits }
}
