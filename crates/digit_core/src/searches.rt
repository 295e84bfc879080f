//! Searches over the cells, by whole words. A search for flags or record marks skips eight words at once if no cell of them
//! passes.
//!
//! Source: this project's own.

ghost use Rattle.std.specs.Prelude.{◌≡◌, ◌+◌, ◌-◌, ◌*◌, ◌<◌, ◌≤◌, ℕ, All, false};
ghost use Rattle.digit_core.specs.Size.{size};
ghost use Rattle.digit_core.specs.Search.{is_bad_cell, flag_below, mark_above, first_bad, first_up, first_down};
ghost use Rattle.digit_core.specs.Search.{NonePasses, AgreeUp, AgreeDown, first_up_words, first_down_words};

use crate::sought::{AnyRecordMark, BadCell, Flag, Sought};
use crate::words::{highest, lowest, ones_between};
use crate::{Core, MODULE_WORDS};

impl<const M: u32> Core<M> {
    /// The greatest position below `a` whose cell, good or not, has a flag; `None` if there is no such position.
    ///
    /// `a` is below the size of core.
    pub fn flag_below(&self, a: u32) -> Option<u32>
        requires { a < size M }
        ensures { result ≡ flag_below self.now a }
    {
        if let Some(at) = self.down_in::<Flag>(a / 10, 0, a % 10) {
            return Some(at);
        }
        let at = self.down_eights::<Flag>(a / 10, 0);
        self.down_words::<Flag>(at, 0)
    }

    /// The least position from `a` on whose cell is a record mark, flagged or not; `None` if there is no such position.
    ///
    /// `a` is below the size of core.
    pub fn mark_above(&self, a: u32) -> Option<u32>
        requires { a < size M }
        ensures { result ≡ mark_above self.now a }
    {
        self.size_law();
        if let Some(at) = self.up_in::<AnyRecordMark>(a / 10, a % 10, 10) {
            return Some(at);
        }
        let at = self.up_eights::<AnyRecordMark>(a / 10 + 1, M * MODULE_WORDS);
        self.up_words::<AnyRecordMark>(at, M * MODULE_WORDS)
    }

    /// The first cell on the way from `a` to `b`, both included, that holds no digit; `None` if there is no such cell.
    ///
    /// `a` and `b` are below the size of core. If `a` is above `b` the way goes down. No cell's number is 64 or more.
    pub fn first_bad(&self, a: u32, b: u32) -> Option<u32>
        requires a { a < size M }
        requires b { b < size M }
        ensures is { result ≡ first_bad self.now a b }
        ensures six_bits { All (λ c. c < 64) self.now }
    {
        if self.sound {
            return None;
        }
        if a <= b {
            self.first_bad_up(a, b)
        } else {
            self.first_bad_down(a, b)
        }
    }

    // The first bad cell from `a` upwards to `b`: in the first word, in the words between, or in the last. The search takes one
    // word after the other: it is made only after a bit of core has failed.
    fn first_bad_up(&self, a: u32, b: u32) -> Option<u32>
        requires order { a ≤ b }
        requires b { b < size M }
        ensures { result ≡ first_up is_bad_cell self.now a (b + 1 - a) }
    {
        let first = a / 10;
        let last = b / 10;
        if first == last {
            return self.up_in::<BadCell>(first, a % 10, b % 10 + 1);
        }
        if let Some(at) = self.up_in::<BadCell>(first, a % 10, 10) {
            return Some(at);
        }
        if let Some(at) = self.up_words::<BadCell>(first + 1, last) {
            return Some(at);
        }
        self.up_in::<BadCell>(last, 0, b % 10 + 1)
    }

    // The first bad cell from `a` downwards to `b`, likewise.
    fn first_bad_down(&self, a: u32, b: u32) -> Option<u32>
        requires order { b ≤ a }
        requires a { a < size M }
        ensures { result ≡ first_down is_bad_cell self.now (a + 1) (a + 1 - b) }
    {
        let first = a / 10;
        let last = b / 10;
        if first == last {
            return self.down_in::<BadCell>(first, b % 10, a % 10 + 1);
        }
        if let Some(at) = self.down_in::<BadCell>(first, 0, a % 10 + 1) {
            return Some(at);
        }
        if let Some(at) = self.down_words::<BadCell>(first, last + 1) {
            return Some(at);
        }
        self.down_in::<BadCell>(last, b % 10, 10)
    }

    // The lowest cell that passes among the cells of word `i` from number `from` on, below `to`.
    #[inline]
    fn up_in<S: Sought>(&self, i: u32, from: u32, to: u32) -> Option<u32>
        requires in_core { i < M * 2000 }
        requires order { from ≤ to }
        requires to { to ≤ 10 }
        ensures { result ≡ first_up S.passes self.now (10 * i + from) (to - from) }
    {
        self.size_law();
        match lowest(S::ones(self.word(i)) & ones_between(from, to)) {
            Some(j) => Some(10 * i + j),
            None => None,
        }
    }

    // The highest cell that passes among the cells of word `i` from number `from` on, below `to`.
    #[inline]
    fn down_in<S: Sought>(&self, i: u32, from: u32, to: u32) -> Option<u32>
        requires in_core { i < M * 2000 }
        requires order { from ≤ to }
        requires to { to ≤ 10 }
        ensures { result ≡ first_down S.passes self.now (10 * i + to) (to - from) }
    {
        self.size_law();
        match highest(S::ones(self.word(i)) & ones_between(from, to)) {
            Some(j) => Some(10 * i + j),
            None => None,
        }
    }

    // In the words from `i` on, before word `end`, one by one: the lowest cell that passes.
    fn up_words<S: Sought>(&self, i: u32, end: u32) -> Option<u32>
        requires order { i ≤ end }
        requires end { end ≤ M * 2000 }
        ensures { result ≡ first_up_words S.passes self.now i end }
    {
        let mut at = i;
        while at < end {
            if let Some(found) = self.up_in::<S>(at, 0, 10) {
                return Some(found);
            }
            at += 1;
        }
        None
    }

    // In the words below word `i`, downwards to word `end`, one by one: the highest cell that passes.
    fn down_words<S: Sought>(&self, i: u32, end: u32) -> Option<u32>
        requires order { end ≤ i }
        requires i { i ≤ M * 2000 }
        ensures { result ≡ first_down_words S.passes self.now i end }
    {
        let mut at = i;
        while at > end {
            at -= 1;
            if let Some(found) = self.down_in::<S>(at, 0, 10) {
                return Some(found);
            }
        }
        None
    }

    // Whether a cell may pass in the eight words from `i` on; if the answer is no, no cell passes.
    #[inline]
    fn in_eight<S: Sought>(&self, i: u32) -> bool
        requires { i + 8 ≤ M * 2000 }
        ensures { result ≡ false → NonePasses S.passes self.now (10 * i) 80 }
    {
        let first = i as usize;
        let mut all = 0;
        let mut k = 0;
        while k < 8 {
            all |= S::hints(self.word_at(first + k));
            k += 1;
        }
        all != 0
    }

    // The word from which a search downwards goes on, after it skipped words in which no cell passes, eight at a time.
    #[inline]
    fn down_eights<S: Sought>(&self, i: u32, end: u32) -> u32
        requires order { end ≤ i }
        requires i { i ≤ M * 2000 }
        ensures within { result ≤ i }
        ensures before { end ≤ result }
        ensures rest { AgreeDown S.passes self.now end result i }
    {
        let mut at = i;
        while at - end >= 8 {
            if self.in_eight::<S>(at - 8) {
                return at;
            }
            at -= 8;
        }
        at
    }

    // The word from which a search upwards goes on, after it skipped words in which no cell passes, eight at a time.
    #[inline]
    fn up_eights<S: Sought>(&self, i: u32, end: u32) -> u32
        requires order { i ≤ end }
        requires end { end ≤ M * 2000 }
        ensures within { i ≤ result }
        ensures before { result ≤ end }
        ensures rest { AgreeUp S.passes self.now end result i }
    {
        let mut at = i;
        while end - at >= 8 {
            if self.in_eight::<S>(at) {
                return at;
            }
            at += 8;
        }
        at
    }
}
