// The grammar of the words after a command: options, each with its value after it.
ghost use Rattle.std.specs.Prelude.{◌≡◌, map, string_bytes};
ghost use Rattle.command_line.specs.Given.{values_in, KeepsJust};
ghost use Rattle.command_line.specs.Words.{has_required, is_value, setting, values_in_words, with_one_setting};

use crate::options::{required, slot_of};
use crate::values::Values;
use crate::words::Command;

// Whether the word can be a value: it is not empty and does not begin with '-'.
fn is_value(word: &str) -> bool
    ensures { result ≡ is_value word.now }
{
    match word.as_bytes() {
        [] => false,
        [first, ..] => *first != b'-',
    }
}

// With one more option that the command takes, and its value.
fn with_setting<'a>(
    command: Command,
    values: Values<'a>,
    option: &str,
    value: &'a str,
) -> Option<Values<'a>>
    ensures { KeepsJust (with_one_setting (values_in values.entry) (setting command option.now value.now))
        result }
{
    if !is_value(value) {
        return None;
    }
    let slot = slot_of(command, option)?;
    if values.get(slot).is_some() {
        return None;
    }
    Some(values.with(slot, value))
}

// Whether all required options were given.
fn has_required(command: Command, values: &Values<'_>) -> bool
    ensures { result ≡ has_required command (values_in values.now) }
{
    let slots = required(command);
    for slot in slots {
        if values.get(*slot).is_none() {
            return false;
        }
    }
    true
}

// The values that the words give, each option at most once, and the required ones among them.
pub(crate) fn values_of<'a>(command: Command, words: &'a [String]) -> Option<Values<'a>>
    ensures { KeepsJust (values_in_words command (map string_bytes words.now)) result }
{
    let mut values = Values::new();
    let mut rest = words;
    while let [option, value, after @ ..] = rest {
        match with_setting(command, values, option.as_str(), value.as_str()) {
            None => return None,
            Some(more) => values = more,
        }
        rest = after;
    }
    if !rest.is_empty() {
        return None;
    }
    if !has_required(command, &values) {
        return None;
    }
    Some(values)
}
