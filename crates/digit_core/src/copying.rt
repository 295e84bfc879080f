//! Copies of many cells, most of them by whole words.
//!
//! Source: this project's own.

ghost use Rattle.std.specs.Prelude.{◌≡◌, ℕ, ◌+◌, ◌-◌, ◌*◌, ◌/◌, ◌%◌, ◌^◌, ◌<◌, ◌≤◌, ◌⊎◌, slice_index, length, All, true};
ghost use Rattle.digit_core.specs.Size.{size};
ghost use Rattle.digit_core.specs.Packed.{six, cells_of, ten_across, HasCells};
ghost use Rattle.digit_core.specs.Search.{IsSound};
ghost use Rattle.digit_core.specs.Within.{AreGoodUpTo};
ghost use Rattle.digit_core.specs.Cell.{zero_cell};
ghost use Rattle.digit_core.specs.Copied.{core_after_copy, cells_after_copy};
ghost use Rattle.digit_core.specs.Written.{core_with_word};

use crate::Core;
use crate::standard_tables::AddTable;
use crate::words::with_part;

// Eight unflagged zeros above two cells.
const EIGHT_ZEROS: u64 = 0x0820_8208_2082_0000;

/// The ten cells from cell number `j` of a word on, in it and in the next, as one word.
///
/// `j` is below 10. `low` is a word of core, whose top four bits are 0. `high` is the next word; only its lowest `j` cells count.
#[inline]
pub fn ten_across(low: u64, high: u64, j: u32) -> u64
    requires place { j < 10 }
    requires word { low < 2 ^ 60 }
    ensures is { result ≡ ten_across low high j }
    ensures word { result < 2 ^ 60 }
{
    (low >> (6 * j)) + (high << (60 - 6 * j)) % (1 << 60)
}

// Copies whole words, the lowest first.
fn whole_up(words: &mut [u64], i: usize, s: usize, count: usize)
    requires order { i ≤ s }
    requires room { s + count ≤ length words.old }
    requires sixty_bits { All (λ w. w < 2 ^ 60) words.old }
    ensures cells { cells_of words.new ≡ cells_after_copy words.old i (10 * s) count }
    ensures length { length words.new ≡ length words.old }
    ensures sixty_bits { All (λ w. w < 2 ^ 60) words.new }
{
    let mut t = 0;
    while t < count {
        words[i + t] = words[s + t];
        t += 1;
    }
}

// Copies words from cell number `j` of word `s` on, the lowest first.
fn across_up(words: &mut [u64], i: usize, s: usize, j: u32, count: usize)
    requires place { j < 10 }
    requires order { i ≤ s }
    requires room { s + count < length words.old }
    requires sixty_bits { All (λ w. w < 2 ^ 60) words.old }
    ensures cells { cells_of words.new ≡ cells_after_copy words.old i (10 * s + j) count }
    ensures length { length words.new ≡ length words.old }
    ensures sixty_bits { All (λ w. w < 2 ^ 60) words.new }
{
    let mut t = 0;
    while t < count {
        words[i + t] = ten_across(words[s + t], words[s + t + 1], j);
        t += 1;
    }
}

// Copies whole words, the highest first.
fn whole_down(words: &mut [u64], i: usize, s: usize, count: usize)
    requires order { s ≤ i }
    requires room { i + count ≤ length words.old }
    requires sixty_bits { All (λ w. w < 2 ^ 60) words.old }
    ensures cells { cells_of words.new ≡ cells_after_copy words.old i (10 * s) count }
    ensures length { length words.new ≡ length words.old }
    ensures sixty_bits { All (λ w. w < 2 ^ 60) words.new }
{
    let mut t = count;
    while t > 0 {
        t -= 1;
        words[i + t] = words[s + t];
    }
}

// Copies words from cell number `j` of word `s` on, the highest first.
fn across_down(words: &mut [u64], i: usize, s: usize, j: u32, count: usize)
    requires place { j < 10 }
    requires order { s < i }
    requires room { i + count ≤ length words.old }
    requires sixty_bits { All (λ w. w < 2 ^ 60) words.old }
    ensures cells { cells_of words.new ≡ cells_after_copy words.old i (10 * s + j) count }
    ensures length { length words.new ≡ length words.old }
    ensures sixty_bits { All (λ w. w < 2 ^ 60) words.new }
{
    let mut t = count;
    while t > 0 {
        t -= 1;
        words[i + t] = ten_across(words[s + t], words[s + t + 1], j);
    }
}

// Replaces the `n` cells of word `i` from its cell number `j` upwards by the lowest `n` cells of `w`.
#[inline]
fn put_part(words: &mut [u64], i: usize, j: u32, n: u32, w: u64)
    requires within { j + n ≤ 10 }
    requires room { i < length words.old }
    requires sixty_bits { All (λ w. w < 2 ^ 60) words.old }
    ensures cells { cells_of words.new ≡ core_with_word (cells_of words.old) (10 * i + j) n w }
    ensures length { length words.new ≡ length words.old }
    ensures sixty_bits { All (λ w. w < 2 ^ 60) words.new }
{
    let old = words[i];
    words[i] = with_part(old, j, n, w);
}

// Replaces all ten cells of word `i`, whatever it was.
#[inline(always)]
fn put_word(words: &mut [u64], i: usize, w: u64)
    requires room { i < length words.old }
    requires sixty_bits { All (λ w. w < 2 ^ 60) words.old }
    ensures cells { cells_of words.new ≡ core_with_word (cells_of words.old) (10 * i) 10 w }
    ensures length { length words.new ≡ length words.old }
    ensures sixty_bits { All (λ w. w < 2 ^ 60) words.new }
{
    words[i] = w % (1 << 60);
}

// Replaces ten cells from cell number `j` of word `i` upwards.
#[inline(always)]
fn put_ten(words: &mut [u64], i: u32, j: u32, w: u64)
    requires place { j < 10 }
    requires room { 10 * i + j + 10 ≤ 10 * length words.old }
    requires sixty_bits { All (λ w. w < 2 ^ 60) words.old }
    ensures cells { cells_of words.new ≡ core_with_word (cells_of words.old) (10 * i + j) 10 w }
    ensures length { length words.new ≡ length words.old }
    ensures sixty_bits { All (λ w. w < 2 ^ 60) words.new }
{
    let i = i as usize;
    if j == 0 {
        put_word(words, i, w);
        return;
    }
    let low = 10 - j;
    put_part(words, i, j, low, w);
    put_part(words, i + 1, 0, j, w >> (6 * low));
}

// Replaces some cells from `a` upwards, at most ten.
#[inline]
fn put_few(words: &mut [u64], a: u32, n: u32, w: u64)
    requires some { 1 ≤ n }
    requires few { n ≤ 10 }
    requires near { a < 65536 }
    requires room { a + n ≤ 10 * length words.old }
    requires sixty_bits { All (λ w. w < 2 ^ 60) words.old }
    ensures cells { cells_of words.new ≡ core_with_word (cells_of words.old) a n w }
    ensures length { length words.new ≡ length words.old }
    ensures sixty_bits { All (λ w. w < 2 ^ 60) words.new }
{
    // An address has at most 16 bits, so that its division by 10 is one multiplication.
    let a = a as u16;
    let i = (a / 10) as usize;
    let j = u32::from(a % 10);
    if j + n <= 10 {
        put_part(words, i, j, n, w);
    } else {
        let low = 10 - j;
        put_part(words, i, j, low, w);
        put_part(words, i + 1, 0, n - low, w >> (6 * low));
    }
}

impl<const M: u32> Core<M> {
    /// Copies the `n` cells that end at `q`, good or not, to the `n` cells that end at `p`, as if all were read first. All other
    /// cells stay.
    ///
    /// `p` and `q` are below the size of core. `n` is 1 or more, and no more than `p + 1` and `q + 1`.
    pub fn copy_cells(&mut self, p: u32, q: u32, n: u32)
        requires p { p < size M }
        requires q { q < size M }
        requires some { 1 ≤ n }
        requires p_room { n ≤ p + 1 }
        requires q_room { n ≤ q + 1 }
        ensures { self.new ≡ core_after_copy self.old (p + 1 - n) (q + 1 - n) n }
    {
        self.size_law();
        if p <= q {
            self.copy_up(p + 1 - n, q + 1 - n, n);
        } else {
            self.copy_down(p + 1 - n, q + 1 - n, n);
        }
    }

    // Copies the lowest cells first: up to the edge of a word, then whole words, then the rest.
    fn copy_up(&mut self, to: u32, from: u32, n: u32)
        requires order { to ≤ from }
        requires room { from + n ≤ size M }
        ensures { self.new ≡ core_after_copy self.old to from n }
    {
        self.size_law();
        if n <= 10 {
            self.copy_few(to, from, n);
            return;
        }
        let head = 10 - to % 10;
        let tail = (n - head) % 10;
        self.copy_few(to, from, head);
        self.copy_words_up(to / 10 + 1, from + head, (n - head) / 10);
        self.copy_few(to + n - tail, from + n - tail, tail);
    }

    // Copies the highest cells first: down to the edge of a word, then whole words, then the rest.
    fn copy_down(&mut self, to: u32, from: u32, n: u32)
        requires order { from ≤ to }
        requires room { to + n ≤ size M }
        ensures { self.new ≡ core_after_copy self.old to from n }
    {
        self.size_law();
        if n <= 10 {
            self.copy_few(to, from, n);
            return;
        }
        let tail = (to + n) % 10;
        let head = (n - tail) % 10;
        self.copy_few(to + n - tail, from + n - tail, tail);
        self.copy_words_down((to + head) / 10, from + head, (n - tail) / 10);
        self.copy_few(to, from, head);
    }

    // At most ten cells in one piece: all are read before any is stored.
    fn copy_few(&mut self, to: u32, from: u32, n: u32)
        requires few { n ≤ 10 }
        requires to_room { to + n ≤ size M }
        requires from_room { from + n ≤ size M }
        ensures { self.new ≡ core_after_copy self.old to from n }
    {
        if n == 0 {
            return;
        }
        self.size_law();
        let w = self.few(from, n);
        self.put_digits(to, n, w);
    }

    // The `n` cells from `a` upwards as the lowest of a word.
    #[inline]
    fn few(&self, a: u32, n: u32) -> u64
        requires some { 1 ≤ n }
        requires few { n ≤ 10 }
        requires room { a + n ≤ size M }
        ensures { HasCells result self.now a n }
    {
        let k = 6 * (a % 10);
        let low = self.words[(a / 10) as usize];
        if a % 10 + n <= 10 {
            return low >> k;
        }
        let high = self.words[(a / 10 + 1) as usize];
        (low >> k) + (high << (60 - k)) % (1 << 60)
    }

    // Copies to whole words from word `i` on, the lowest first: each from one word, or from parts of two.
    fn copy_words_up(&mut self, i: u32, from: u32, count: u32)
        requires order { 10 * i ≤ from }
        requires room { from + 10 * count ≤ size M }
        ensures { self.new ≡ core_after_copy self.old (10 * i) from (10 * count) }
    {
        self.add_table = AddTable::Unseen;
        let s = (from / 10) as usize;
        if from % 10 == 0 {
            whole_up(&mut self.words, i as usize, s, count as usize);
        } else {
            across_up(&mut self.words, i as usize, s, from % 10, count as usize);
        }
    }

    // Copies to whole words from word `i` on, the highest first: each from one word, or from parts of two.
    fn copy_words_down(&mut self, i: u32, from: u32, count: u32)
        requires order { from ≤ 10 * i }
        requires room { 10 * i + 10 * count ≤ size M }
        ensures { self.new ≡ core_after_copy self.old (10 * i) from (10 * count) }
    {
        self.add_table = AddTable::Unseen;
        let s = (from / 10) as usize;
        if from % 10 == 0 {
            whole_down(&mut self.words, i as usize, s, count as usize);
        } else {
            across_down(&mut self.words, i as usize, s, from % 10, count as usize);
        }
    }

    // The ten cells from cell number `j` of word `s` on, which lie in two words.
    #[inline]
    fn across(&self, s: u32, j: u32) -> u64
        requires some { 1 ≤ j }
        requires place { j < 10 }
        requires room { s + 1 < M * 2000 }
        ensures cells { HasCells result self.now (10 * s + j) 10 }
        ensures word { result < 2 ^ 60 }
    {
        ten_across(self.words[s as usize], self.words[(s + 1) as usize], j)
    }

    /// The word of the ten cells from `10 * i` upwards.
    ///
    /// `i` is below the number of words.
    #[inline]
    pub fn word(&self, i: u32) -> u64
        requires { i < M * 2000 }
        ensures cells { HasCells result self.now (10 * i) 10 }
        ensures word { result < 2 ^ 60 }
    {
        self.word_at(i as usize)
    }

    // The word of `word` by an index of type `usize`, so that adjacent words are read together.
    #[inline]
    pub(crate) fn word_at(&self, i: usize) -> u64
        requires { i < M * 2000 }
        ensures cells { HasCells result self.now (10 * i) 10 }
        ensures word { result < 2 ^ 60 }
    {
        self.words[i]
    }

    /// The ten cells from `a` upwards as one word, from its lowest bits upwards.
    ///
    /// All ten lie in core.
    #[inline]
    pub fn ten(&self, a: u32) -> u64
        requires { a + 10 ≤ size M }
        ensures cells { HasCells result self.now a 10 }
        ensures word { result < 2 ^ 60 }
    {
        self.size_law();
        // An address has at most 16 bits, so that its division by 10 is one multiplication.
        let a = a as u16;
        let i = u32::from(a / 10);
        let j = u32::from(a % 10);
        if j == 0 {
            return self.word(i);
        }
        self.across(i, j)
    }

    /// The ten cells from cell number `j` of word number `i` upwards, as one word, from its lowest bits upwards.
    ///
    /// `j` is below 10, and all ten lie in core. For a place ten cells higher, `i` is one more and `j` stays.
    #[inline(always)]
    pub fn ten_of(&self, i: u32, j: u32) -> u64
        requires place { j < 10 }
        requires room { 10 * i + j + 10 ≤ size M }
        ensures cells { HasCells result self.now (10 * i + j) 10 }
        ensures word { result < 2 ^ 60 }
    {
        if j == 0 {
            return self.word(i);
        }
        self.across(i, j)
    }

    /// Replaces the ten cells from cell number `j` of word number `i` upwards by the cells of a word, without a check for digits.
    /// All other cells stay.
    ///
    /// `j` is below 10, and the ten cells lie in core. For a place ten cells higher, `i` is one more and `j` stays. Each cell of
    /// the word holds a digit, unless a cell of core holds none.
    #[inline(always)]
    pub fn put_ten_digits_of(&mut self, i: u32, j: u32, w: u64)
        requires place { j < 10 }
        requires room { 10 * i + j + 10 ≤ size M }
        requires sound { IsSound self.old → AreGoodUpTo w 10 }
        ensures { self.new ≡ core_with_word self.old (10 * i + j) 10 w }
    {
        self.add_table = AddTable::Unseen;
        put_ten(&mut self.words, i, j, w);
    }

    /// The twelve cells from `a` upwards as two words: the lower ten, and the others with unflagged zeros above them.
    ///
    /// `a` is even, and all twelve lie in core.
    #[inline]
    pub fn twelve(&self, a: u32) -> (u64, u64)
        requires even { a % 2 ≡ 0 }
        requires room { a + 12 ≤ size M }
        ensures low { HasCells result.0 self.now a 10 }
        ensures high { HasCells result.1 self.now (a + 10) 2 }
        ensures rest { (j : ℕ) → 2 ≤ j → j < 10 → six result.1 j ≡ zero_cell }
    {
        let k = 6 * (a % 10);
        let low = self.words[(a / 10) as usize];
        let high = self.words[(a / 10 + 1) as usize];
        (
            (low >> k) + (high << (60 - k)) % (1 << 60),
            (high >> k) % (1 << 12) + EIGHT_ZEROS,
        )
    }

    /// Replaces the `n` cells from `a` upwards by the lowest `n` cells of a word, with no check for digits. All others stay.
    ///
    /// `n` is at most 10, and the cells lie in core. Each of these cells holds a digit, unless a cell of core holds none.
    pub fn put_digits(&mut self, a: u32, n: u32, w: u64)
        requires few { n ≤ 10 }
        requires room { a + n ≤ size M }
        requires sound { IsSound self.old → AreGoodUpTo w n }
        ensures { self.new ≡ core_with_word self.old a n w }
    {
        self.size_law();
        if n == 0 {
            return;
        }
        self.add_table = AddTable::Unseen;
        put_few(&mut self.words, a, n, w);
    }

    /// Does the same as `put_digits`, for a whole field or record: the answer of `find_add_table` is forgotten only if these
    /// cells may be part of the add table.
    ///
    /// `n` is 1 to 10.
    pub fn put_field(&mut self, a: u32, n: u32, w: u64)
        requires some { 1 ≤ n }
        requires few { n ≤ 10 }
        requires room { a + n ≤ size M }
        requires sound { IsSound self.old → AreGoodUpTo w n }
        ensures { self.new ≡ core_with_word self.old a n w }
    {
        self.size_law();
        self.add_table.note_store(a);
        put_few(&mut self.words, a, n, w);
    }
}
