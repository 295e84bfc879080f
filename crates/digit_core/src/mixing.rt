//! Two cores: a copy of one to the other, whole or by some words, and the words in which they differ.
//!
//! Source: this project's own.

ghost use Rattle.std.specs.Prelude.{◌≡◌, ℕ, ◌*◌, ◌^◌, ◌<◌, ◌≤◌, ◌+◌, length, slice_index, All, List, true};
ghost use Rattle.digit_core.specs.Packed.{cells_of};
ghost use Rattle.digit_core.specs.Mixed.{AgreeOutside, core_mixture};

use crate::Core;
use crate::standard_tables::AddTable;

// How many words are compared at a time.
const AT_A_TIME: usize = 64;

// Copies the words from number `i` on, below number `end`, of `from`.
fn copy_between(words: &mut [u64], from: &[u64], i: usize, end: usize)
    requires order { i ≤ end }
    requires room { end ≤ length words.old }
    requires same_length { length from.now ≡ length words.old }
    requires sixty_bits { All (λ w. w < 2 ^ 60) words.old }
    requires from_sixty_bits { All (λ w. w < 2 ^ 60) from.now }
    ensures cells { cells_of words.new ≡ core_mixture (cells_of words.old) (cells_of from.now) (10 * i) (10 * end) }
    ensures length { length words.new ≡ length words.old }
    ensures sixty_bits { All (λ w. w < 2 ^ 60) words.new }
{
    let mut k = i;
    while k < end {
        words[k] = from[k];
        k += 1;
    }
}

// Whether the `n` words from number `k` on are equal in both lists.
fn are_same(words: &[u64], others: &[u64], k: usize, n: usize) -> bool
    requires room { k + n ≤ length words.now }
    requires same_length { length others.now ≡ length words.now }
    ensures { result ≡ true → (i : ℕ) → k ≤ i → i < k + n → slice_index words.now i ≡ slice_index others.now i }
{
    words[k..k + n] == others[k..k + n]
}

// How many words at the front are equal in both lists.
fn same_front(words: &[u64], others: &[u64]) -> usize
    requires same_length { length others.now ≡ length words.now }
    ensures within { result ≤ length words.now }
    ensures same { (i : ℕ) → i < result → slice_index words.now i ≡ slice_index others.now i }
{
    let n = words.len();
    let mut k = 0;
    while AT_A_TIME <= n - k && are_same(words, others, k, AT_A_TIME) {
        k += AT_A_TIME;
    }
    while k < n && words[k] == others[k] {
        k += 1;
    }
    k
}

// The number, at least `least`, from which on all words are equal in both lists.
fn same_back(words: &[u64], others: &[u64], least: usize) -> usize
    requires same_length { length others.now ≡ length words.now }
    requires least { least ≤ length words.now }
    ensures least { least ≤ result }
    ensures within { result ≤ length words.now }
    ensures same { (i : ℕ) → result ≤ i → i < length words.now → slice_index words.now i ≡ slice_index others.now i }
{
    let mut k = words.len();
    while AT_A_TIME <= k - least && are_same(words, others, k - AT_A_TIME, AT_A_TIME) {
        k -= AT_A_TIME;
    }
    while least < k && words[k - 1] == others[k - 1] {
        k -= 1;
    }
    k
}

impl<const M: u32> Core<M> {
    /// Copies all cells of another core, good or not.
    pub fn copy_from(&mut self, from: &Core<M>)
        ensures { self.new ≡ from.now }
    {
        self.words.copy_from_slice(&from.words);
        self.sound = from.sound;
        self.add_table = from.add_table;
    }

    /// Copies the words from number `i` on, below number `end`, of another core, good or not. All other cells stay.
    ///
    /// `i` is no more than `end`, and `end` no more than the number of words.
    pub fn copy_words(&mut self, from: &Core<M>, i: u32, end: u32)
        requires order { i ≤ end }
        requires room { end ≤ M * 2000 }
        ensures { self.new ≡ core_mixture self.old from.now (10 * i) (10 * end) }
    {
        self.sound = self.sound && from.sound;
        self.add_table = AddTable::Unseen;
        copy_between(&mut self.words, &from.words, i as usize, end as usize);
    }

    /// Two numbers: all words that differ from another core's lie from the first number on, below the second.
    ///
    /// If no word differs, the two numbers are equal.
    pub fn changed_words(&self, other: &Core<M>) -> (u32, u32)
        ensures order { result.0 ≤ result.1 }
        ensures room { result.1 ≤ M * 2000 }
        ensures outside { AgreeOutside self.now other.now (10 * result.0) (10 * result.1) }
    {
        let first = same_front(&self.words, &other.words);
        let end = same_back(&self.words, &other.words, first);
        (first as u32, end as u32)
    }
}
