// Words and numbers of a line.
// Source: this project's own.
ghost use Rattle.std.specs.Prelude.{◌≡◌, ◌==◌, ◌≤◌, ◌∷◌, position, IfSome};
ghost use Rattle.std.specs.Option.{option_copied};
ghost use Rattle.line_words.specs.Words.{largest_number, number, number_in, words_behind, words_of};

/// The greatest number that a word of a line can be: 15 digits.
pub const LARGEST_NUMBER: u64 = 999_999_999_999_999;

// The place of the first blank.
fn first_blank(text: &[u8]) -> Option<usize>
    ensures { result ≡ position (λ b. b == 32) text.now }
{
    text.iter().position(|b| *b == b' ')
}

/// The first word of a text, and the text after the blank that ends it; `None` if no blank does.
///
/// Each blank ends a word, which may be empty: a text begins with an empty word if its first byte is a blank.
pub fn cut_word(text: &[u8]) -> (&[u8], Option<&[u8]>)
    ensures { words_of text.now ≡ result.0.now ∷ words_behind (option_copied result.1) }
{
    match first_blank(text) {
        Some(end) => (&text[..end], Some(&text[end + 1..])),
        None => (text, None),
    }
}

/// The number that a word of 1 to 15 decimal digits is, with any leading zeros; `None` for any other word.
pub fn number(word: &[u8]) -> Option<u64>
    ensures value { result ≡ number word.now }
    ensures most { IfSome result (λ n. n ≤ largest_number) }
{
    if word.is_empty() || word.len() > 15 {
        return None;
    }
    let mut n = 0;
    for c in word {
        if !c.is_ascii_digit() {
            return None;
        }
        n = 10 * n + u64::from(*c - b'0');
    }
    Some(n)
}

/// The number that a word of 1 to 15 decimal digits is, if it is from `least` to `most`; `None` for any other word.
pub fn number_in(least: u64, most: u64, word: &[u8]) -> Option<u64>
    ensures value { result ≡ number_in least most word.now }
    ensures least { IfSome result (λ n. least ≤ n) }
    ensures most { IfSome result (λ n. n ≤ most) }
{
    let n = number(word)?;
    if least <= n && n <= most {
        Some(n)
    } else {
        None
    }
}
