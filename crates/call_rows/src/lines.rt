// A line of a row, and its words.
ghost use Rattle.std.specs.Prelude.{◌<◌, IfSome};
ghost use Rattle.digit_core.specs.Size.{size};

use digit_core::Core;

// A line: its name, the first word after the name, and all the text after this word.
#[derive(Clone, Copy)]
pub(crate) struct RowLine<'a> {
    pub(crate) text: &'a str,
    pub(crate) name: &'a str,
    pub(crate) first: &'a str,
    pub(crate) second: &'a str,
}

impl<'a> RowLine<'a> {
    pub(crate) fn new(text: &'a str) -> RowLine<'a> {
        let (name, rest) = text.split_once('|').unwrap_or((text, ""));
        let (first, second) = rest.split_once('|').unwrap_or((rest, ""));
        RowLine {
            text,
            name,
            first,
            second,
        }
    }
}

// The number of a word.
pub(crate) fn number(word: &str) -> Option<u32> {
    word.parse::<u32>().ok()
}

// The two numbers of two words.
pub(crate) fn two_numbers(words: &str) -> Option<(u32, u32)> {
    let (first, second) = words.split_once('|')?;
    Some((number(first)?, number(second)?))
}

// The place in core that a word names.
pub(crate) fn place<const M: u32>(core: &Core<M>, word: &str) -> Option<u32>
    ensures { IfSome result (λ a. a < size M) }
{
    let size = core.size();
    match word.parse::<u32>() {
        Ok(at) if at < size => Some(at),
        _ => None,
    }
}
