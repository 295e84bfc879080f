//! The tests on cells that searches make.
//!
//! Source: this project's own.

ghost use Rattle.std.specs.Prelude.{◌≡◌, ℕ, ◌<◌, Bool, false};
ghost use Rattle.digit_core.specs.Packed.{six};
ghost use Rattle.digit_core.specs.Cell.{has_flag};
ghost use Rattle.digit_core.specs.Search.{has_mark, is_bad_cell, one_if};

use crate::words;

// A test on cells: a search finds the first cell that passes.
pub(crate) trait Sought {
    ghost passes: { ℕ → Bool };

    // A word with 1 in each cell that passes, and 0 in the others.
    fn ones(w: u64) -> u64
        ensures { (j : ℕ) → j < 10 → six result j ≡ one_if (passes (six w j)) };

    // A word that is 0 only if no cell passes. It may also have bits for cells that don't pass.
    #[inline]
    fn hints(w: u64) -> u64
        ensures { result ≡ 0 → (j : ℕ) → j < 10 → passes (six w j) ≡ false }
    {
        Self::ones(w)
    }
}

// A cell with a flag, good or not.
pub(crate) struct Flag;

impl Sought for Flag {
    ghost passes = { has_flag };

    #[inline]
    fn ones(w: u64) -> u64 {
        words::flags(w)
    }
}

// A record mark, flagged or not.
pub(crate) struct AnyRecordMark;

impl Sought for AnyRecordMark {
    ghost passes = { has_mark };

    #[inline]
    fn ones(w: u64) -> u64 {
        words::marks(w)
    }

    // A test of the bits 8 and 2 takes fewer steps; a group mark also has them.
    #[inline]
    fn hints(w: u64) -> u64 {
        words::twos_with_eight(w)
    }
}

// A cell that holds no digit.
pub(crate) struct BadCell;

impl Sought for BadCell {
    ghost passes = { is_bad_cell };

    #[inline]
    fn ones(w: u64) -> u64 {
        words::bads(w)
    }
}
