// The digits that one card loads.
// Source: this project's own.
ghost use Rattle.std.specs.Prelude.{◌≤◌, length};

use arrayvec::ArrayVec;
use digit_core::Digit;

/// How many digits a self-loading card has room for, after its four instructions.
pub const SEGMENT_DIGITS: usize = 32;

/// How many digits a dense card has room for, after two addresses and the repair digit.
pub const DENSE_DIGITS: usize = 69;

/// The digits that a self-loading card loads: 1 to 32 digits at neighbouring addresses.
pub type Segment = SegmentOf<SEGMENT_DIGITS>;

/// The digits that a dense card loads: 1 to 69 digits at neighbouring addresses.
pub type DenseSegment = SegmentOf<DENSE_DIGITS>;

/// Digits at neighbouring addresses that one card of an object deck loads, 1 to `N` of them: `N` is how many digits a card of the
/// deck's form has room for, as in a [`Segment`] or a [`DenseSegment`].
#[derive(Drop)]
pub struct SegmentOf<const N: usize> {
    /// Its lowest address; in a segment of an image 00000 to 59999.
    pub from: u32,
    /// Its digits, rising by address.
    pub digits: ArrayVec<Digit, N>,
    ghost some: { 1 ≤ length digits.items },
}
