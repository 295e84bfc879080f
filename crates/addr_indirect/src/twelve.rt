// The twelve digits of an instruction, from words of core.
ghost use Rattle.std.specs.Prelude.{◌≡◌, IfSome, None, true, false};
ghost use Rattle.addr_indirect.specs.Twelve.{digits_in, TwelveAreGood};

use digit_core::{Digit, are_decimal, are_good, are_good_at, digit_in, ones_below};

/// The digits of twelve cells, the ten of one word and the lowest two of another, or `None` if one of the twelve holds no digit.
///
/// The other cells of `high` mean nothing.
/// Source: CPU manual, instruction format; that it is read by words is this project's own.
#[inline]
pub fn good_digits(low: u64, high: u64) -> Option<[Digit; 12]>
    ensures is { IfSome result (λ cells. cells ≡ digits_in low high) }
    ensures good { IfSome result (λ _. TwelveAreGood low high) }
    ensures bad { result ≡ None → TwelveAreGood low high → ⊥ }
{
    if !twelve_are_good(low, high) {
        return None;
    }
    let d0 = digit_in(low, 0);
    let d1 = digit_in(low, 1);
    let d2 = digit_in(low, 2);
    let d3 = digit_in(low, 3);
    let d4 = digit_in(low, 4);
    let d5 = digit_in(low, 5);
    let d6 = digit_in(low, 6);
    let d7 = digit_in(low, 7);
    let d8 = digit_in(low, 8);
    let d9 = digit_in(low, 9);
    let d10 = digit_in(high, 0);
    let d11 = digit_in(high, 1);
    Some([d0, d1, d2, d3, d4, d5, d6, d7, d8, d9, d10, d11])
}

// All ten cells of a word.
const TEN: u64 = 0x0041_0410_4104_1041;

// Whether each of the twelve cells holds a digit. The shorter test for decimal digits comes first: most instructions pass it.
#[inline]
fn twelve_are_good(low: u64, high: u64) -> bool
    ensures yes { result ≡ true → TwelveAreGood low high }
    ensures no { result ≡ false → TwelveAreGood low high → ⊥ }
{
    let two = ones_below(2);
    if are_decimal(low, TEN) {
        if are_decimal(high, two) {
            return true;
        }
    }
    if !are_good(low) {
        return false;
    }
    are_good_at(high, two)
}
