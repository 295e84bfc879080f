// The words after a command, by the kinds of arguments that they are.
// Source: this project's own.
ghost use Rattle.std.specs.Prelude.{◌≡◌, ◌+◌, ◌<◌, ◌≤◌, IfSome, option_map};
ghost use Rattle.std.specs.Option.{option_copied};
ghost use Rattle.line_words.specs.Arguments.{alone, number_below, one_of, one_word, span_below, span_within, two_words};
ghost use Rattle.line_words.specs.Words.{words_behind};

use crate::words::{cut_word, number, number_in};

/// Numbers that follow one another.
#[derive(Clone, Copy, Debug, PartialEq, Eq)]
pub struct Span {
    /// The first of them.
    pub first: u32,
    /// How many they are.
    pub count: u32,
}

/// The item itself, if no word follows its own word; else `None`.
pub fn alone<T: Drop>(item: T, behind: Option<&[u8]>) -> Option<T>
    ensures { result ≡ alone item (words_behind (option_copied behind.entry)) }
{
    match behind {
        None => Some(item),
        Some(_) => None,
    }
}

/// The one word that follows another word; `None` if none follows, or more than one.
pub fn one_word(behind: Option<&[u8]>) -> Option<&[u8]>
    ensures { option_copied result ≡ one_word (words_behind (option_copied behind.entry)) }
{
    match cut_word(behind?) {
        (word, None) => Some(word),
        (_, Some(_)) => None,
    }
}

/// The two words that follow another word; `None` if fewer follow, or more.
pub fn two_words(behind: Option<&[u8]>) -> Option<(&[u8], &[u8])>
    ensures { option_map (λ words. (words.0.now, words.1.now)) result ≡ two_words (words_behind (option_copied behind.entry)) }
{
    let (first, behind) = cut_word(behind?);
    let second = one_word(behind)?;
    Some((first, second))
}

/// Which of two words this word is: true for the first, false for the second; `None` for any other word.
pub fn one_of(yes_word: &[u8], no_word: &[u8], word: &[u8]) -> Option<bool>
    ensures { result ≡ one_of yes_word.now no_word.now word.now }
{
    if word == yes_word {
        Some(true)
    } else if word == no_word {
        Some(false)
    } else {
        None
    }
}

/// The number that a word of 1 to 15 decimal digits is, if it is below a limit, as an address in a core of `limit` positions;
/// `None` for any other word.
pub fn number_below(limit: u32, word: &[u8]) -> Option<u32>
    ensures value { result ≡ number_below limit word.now }
    ensures below { IfSome result (λ n. n < limit) }
{
    let n = number(word)?;
    if n < u64::from(limit) {
        Some(n as u32)
    } else {
        None
    }
}

/// The numbers that two words give: the first of them, and how many, 1 to `most`; `None` if one of them is not below the limit,
/// and for any other words.
pub fn span_below(limit: u32, most: u32, first: &[u8], count: &[u8]) -> Option<Span>
    ensures value { result ≡ span_below limit most first.now count.now }
    ensures some { IfSome result (λ span. 1 ≤ span.count) }
    ensures most { IfSome result (λ span. span.count ≤ most) }
    ensures below { IfSome result (λ span. span.first + span.count ≤ limit) }
{
    let first = number(first)?;
    let count = number_in(1, u64::from(most), count)?;
    span_within(limit, first, count)
}

// `count` numbers from `first` on, if all of them are below a limit.
fn span_within(limit: u32, first: u64, count: u64) -> Option<Span>
    ensures value { result ≡ span_within limit first count }
    ensures same { IfSome result (λ span. span.count ≡ count) }
    ensures below { IfSome result (λ span. span.first + span.count ≤ limit) }
{
    let last = u64::from(limit).checked_sub(count)?;
    if first > last {
        return None;
    }
    Some(Span {
        first: first as u32,
        count: count as u32,
    })
}
