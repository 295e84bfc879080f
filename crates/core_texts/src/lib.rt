//! Cores that tests write and show by characters.
//!
//! Each digit has its character on cards: `0` to `9`, `|` for the record mark, `@` for the numerical blank, `}` for the group mark, and
//! `]`, `J` to `R`, `!`, `*` and `"` for these with a flag. A test that names another character or a place outside core, or binds a file that
//! cannot be bound, has an error, and so fails.
//!
//! Source: this project's own.
#![tactic(auto)]

ghost use Rattle.std.specs.Prelude.{IfOk};
ghost use Rattle.digit_core.specs.Cell.{IsGood};

use card_code::object_digit;
use digit_core::{Core, Digit};
use outside_io::Bound;

/// The error of a test that writes or shows core.
#[derive(Debug, Drop)]
pub enum TextFault {
    /// The byte is no character of a digit.
    Character(u8),
    /// The address is past the end of core.
    Address(u32),
    /// A unit could not be bound.
    Binding,
}

/// The digit of a character.
///
/// The error is a byte that is no character of a digit.
pub fn digit_of_char(c: u8) -> Result<Digit, TextFault>
    ensures { IfOk result IsGood }
{
    object_digit(c).ok_or(TextFault::Character(c))
}

/// Stores a text from `a` upwards.
///
/// The error is a byte that is no character of a digit, or a place past the end of core; the digits before it are stored.
pub fn write<const M: u32>(core: &mut Core<M>, a: u32, text: &[u8]) -> Result<(), TextFault> {
    let size = core.size();
    let mut at = a;
    for c in text {
        if at >= size {
            return Err(TextFault::Address(at));
        }
        core.put(at, digit_of_char(*c)?);
        at += 1;
    }
    Ok(())
}

/// Whether core holds a text from `a` upwards.
///
/// The error is a byte that is no character of a digit, or a place past the end of core.
pub fn shows<const M: u32>(core: &Core<M>, a: u32, text: &[u8]) -> Result<bool, TextFault> {
    let size = core.size();
    let mut at = a;
    for c in text {
        if at >= size {
            return Err(TextFault::Address(at));
        }
        if core.get(at) != Ok(digit_of_char(*c)?) {
            return Ok(false);
        }
        at += 1;
    }
    Ok(true)
}

/// Whether each place from `from` up to, but not including, `to` holds the digit of a character.
///
/// The error is a byte that is no character of a digit, or a place past the end of core.
pub fn all<const M: u32>(core: &Core<M>, from: u32, to: u32, c: u8) -> Result<bool, TextFault> {
    let size = core.size();
    let want = digit_of_char(c)?;
    for at in from..to {
        if at >= size {
            return Err(TextFault::Address(at));
        }
        if core.get(at) != Ok(want) {
            return Ok(false);
        }
    }
    Ok(true)
}

/// Inverts a bit of the cell at `a`, which makes the parity of a good cell even.
///
/// The error is a place past the end of core.
pub fn damage<const M: u32>(core: &mut Core<M>, a: u32) -> Result<(), TextFault> {
    if a >= core.size() {
        return Err(TextFault::Address(a));
    }
    core.flip(a, 0);
    Ok(())
}

/// Ok if a unit was bound.
///
/// The error is a unit that could not be bound.
pub fn bound(answer: Bound) -> Result<(), TextFault> {
    match answer {
        Bound::Yes => Ok(()),
        Bound::Failed => Err(TextFault::Binding),
    }
}
