// The conditions on the operands of a declarative.
ghost use Rattle.std.specs.Prelude.{◌≡◌, ◌≤ℤ◌, pos};
ghost use Rattle.sps_pass_one.specs.Measure.{form_of, length_ask, text_length_ask, address_ask, form_with, IsSmall, IsSmallForm};

use sps_ops::{Declarative, Rule};

/// How the text of an operand is read as a number.
///
/// Source: this project's own.
#[derive(Clone, Copy, Debug, PartialEq, Eq)]
pub enum OperandReading {
    /// As an expression.
    Expression,
    /// As one or two digits and nothing else, like the n of a DAC.
    TwoDigits,
}

/// The conditions on an operand: its place, how it is read, and which values are valid.
///
/// Source: this project's own.
#[derive(Clone, Copy, Debug, PartialEq, Eq)]
pub struct Ask {
    /// The place of its part, from 0.
    pub place: u8,
    /// How it is read.
    pub reading: OperandReading,
    /// The least value.
    pub low: i64,
    /// The greatest value.
    pub high: i64,
    /// The rule that a value below `low` or above `high` breaks.
    pub over: Rule,
    /// Whether an empty part breaks rule 6.
    pub needed: bool,
    /// Whether an even value breaks rule 20.
    pub odd: bool,
}

/// The conditions on those operands of a declarative that set its layout: its length n, its count k and its address A.
///
/// Source: this project's own.
#[derive(Clone, Copy, Debug, PartialEq, Eq)]
pub struct Form {
    /// The length n, if the declarative has a length.
    pub n: Option<Ask>,
    /// The count k, if the declarative has a count.
    pub k: Option<Ask>,
    /// The explicit address A, if the declarative may have an address.
    pub a: Option<Ask>,
    /// Whether the statement breaks rule 6 if its first two parts are both empty.
    pub either: bool,
    /// Whether the second part is a text, so that the statement breaks rule 6 if no comma follows the first part.
    pub text: bool,
}

// A length or a count of 1 to `high`.
fn length_ask(place: u8, high: i64, needed: bool) -> Ask
    requires { high ≤ℤ pos 99999 }
    ensures is { result ≡ length_ask place high needed }
    ensures small { IsSmall result }
{
    Ask {
        place,
        reading: OperandReading::Expression,
        low: 1,
        high,
        over: Rule::BadLength,
        needed,
        odd: false,
    }
}

// The n of a DAC: one or two digits, 1 to 50.
fn text_length_ask() -> Ask
    ensures is { result ≡ text_length_ask }
    ensures small { IsSmall result }
{
    Ask {
        place: 0,
        reading: OperandReading::TwoDigits,
        low: 1,
        high: 50,
        over: Rule::BadLength,
        needed: true,
        odd: false,
    }
}

// An address of five digits.
fn address_ask(place: u8, needed: bool, odd: bool) -> Ask
    ensures is { result ≡ address_ask place needed odd }
    ensures small { IsSmall result }
{
    Ask {
        place,
        reading: OperandReading::Expression,
        low: 0,
        high: 99_999,
        over: Rule::ValueTooLarge,
        needed,
        odd,
    }
}

// A form with at most a length and an address.
fn form_with(n: Option<Ask>, a: Option<Ask>) -> Form
    ensures { result ≡ form_with n a }
{
    Form {
        n,
        k: None,
        a,
        either: false,
        text: false,
    }
}

/// The conditions on the length n, the count k and the explicit address A of a declarative.
///
/// n of DC, DSC, DAC and DNB is 1 to 50, and n of DS, DSS, DAS and DSB and k are 1 to 99,999; other values break rule 11. A is 0
/// to 99,999, and other values break rule 10; an even A of DAS or DAC breaks rule 20. DSA, DDA, DEND and HEAD have no conditions.
/// Source: SPS manual, declarative operations; the operand lists and their ranges are this project's own.
pub fn form_of(d: Declarative) -> Form
    ensures is { result ≡ form_of d }
    ensures small { IsSmallForm result }
{
    match d {
        Declarative::Ds | Declarative::Dss => Form {
            n: Some(length_ask(0, 99_999, false)),
            k: None,
            a: Some(address_ask(1, false, false)),
            either: true,
            text: false,
        },
        Declarative::Das => form_with(
            Some(length_ask(0, 99_999, true)),
            Some(address_ask(1, false, true)),
        ),
        Declarative::Dc | Declarative::Dsc => form_with(
            Some(length_ask(0, 50, true)),
            Some(address_ask(2, false, false)),
        ),
        Declarative::Dac => Form {
            n: Some(text_length_ask()),
            k: None,
            a: Some(address_ask(2, false, true)),
            either: false,
            text: true,
        },
        Declarative::Dsb => Form {
            n: Some(length_ask(0, 99_999, true)),
            k: Some(length_ask(1, 99_999, true)),
            a: Some(address_ask(2, false, false)),
            either: false,
            text: false,
        },
        Declarative::Dnb => form_with(
            Some(length_ask(0, 50, true)),
            Some(address_ask(1, false, false)),
        ),
        Declarative::Dgm => form_with(None, Some(address_ask(0, false, false))),
        Declarative::Dorg => form_with(None, Some(address_ask(0, true, false))),
        Declarative::Dsa | Declarative::Dda | Declarative::Dend | Declarative::Head => {
            form_with(None, None)
        },
    }
}
