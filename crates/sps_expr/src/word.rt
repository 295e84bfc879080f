// A run of letters, digits and `$`, as a number and as a name.
ghost use Rattle.std.specs.Prelude.{◌≡◌, ℕ, ◌≤◌, true, min};
ghost use Rattle.std.specs.List.{list_all};
ghost use Rattle.std.specs.Char.{is_ascii_digit};
ghost use Rattle.sps_scan.specs.Numbers.{with_digit};
ghost use Rattle.sps_expr.specs.Grammar.{is_letter_or_digit, is_name};
ghost use Rattle.sps_expr.specs.Reading.{is_run_byte};

use arrayvec::ArrayVec;

// A run as a number and as a text. `number` is valid if all characters are digits, and stops at 10,000,000,000. `text` is the
// first seven characters, enough for a head, a `$` and a name of five; `long` says whether there are more.
#[derive(Drop)]
pub(crate) struct Word {
    pub all_digits: bool,
    pub number: u64,
    pub text: ArrayVec<u8, 7>,
    pub long: bool,
    ghost small: { number ≤ 10000000000 },
}

impl Word {
    ghost use Rattle.std.specs.Prelude.{List, [], ◌∷◌, ◌++◌};
    ghost use Rattle.sps_expr.specs.Steps.{IsWord};

    pub(crate) fn new() -> Word
        ensures { IsWord result [] }
    {
        Word {
            all_digits: true,
            number: 0,
            text: ArrayVec::new(),
            long: false,
        }
    }

    pub(crate) fn push(&mut self, b: u8)
        requires { is_run_byte b ≡ true }
        ensures { (text : List ℕ) → IsWord self.old text → IsWord self.new (text ++ b ∷ []) }
    {
        self.number = with_digit(self.number, b);
        self.all_digits = self.all_digits && b.is_ascii_digit();
        if self.text.is_full() {
            self.long = true;
        } else {
            self.text.push(b);
        }
    }
}

// The number with one more digit, up to 10,000,000,000. Another character gives some number, which is not used.
fn with_digit(n: u64, b: u8) -> u64
    requires below { n ≤ 10000000000 }
    ensures { result ≡ min (with_digit n b) 10000000000 }
{
    let next = 10 * n + u64::from(b.saturating_sub(b'0'));
    next.min(10_000_000_000)
}

pub(crate) fn is_letter_or_digit(b: u8) -> bool
    ensures { result ≡ is_letter_or_digit b }
{
    b.is_ascii_digit() || b'A' <= b && b <= b'Z'
}

// A letter, a digit or a `$`.
pub(crate) fn is_run_byte(b: u8) -> bool
    ensures { result ≡ is_run_byte b }
{
    is_letter_or_digit(b) || b == b'$'
}

/// Whether a text is a name: letters and digits with a letter among them.
///
/// Letters are `A` to `Z`. The function doesn't check the length.
/// Source: SPS manual, labels; which characters a name may have is this project's own.
pub fn is_name(text: &[u8]) -> bool
    ensures { result ≡ is_name text.now }
{
    !text.is_empty() && all_letters_or_digits(text) && !all_digits(text)
}

// Whether each byte is one of `A` to `Z` or `0` to `9`.
fn all_letters_or_digits(text: &[u8]) -> bool
    ensures { result ≡ list_all is_letter_or_digit text.now }
{
    text.iter()
        .all(|b| b.is_ascii_digit() || b'A' <= *b && *b <= b'Z')
}

// Whether each byte is one of `0` to `9`.
fn all_digits(text: &[u8]) -> bool
    ensures { result ≡ list_all is_ascii_digit text.now }
{
    text.iter().all(|b| b.is_ascii_digit())
}
