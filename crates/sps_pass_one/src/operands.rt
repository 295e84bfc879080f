// The values of operands, and the rules that they break.
// Source: this project's own.
ghost use Rattle.std.specs.Prelude.{◌≡◌, ◌≤◌};
ghost use Rattle.sps_scan.specs.Statement.{statement_text};
ghost use Rattle.sps_scan.specs.Columns.{is_blank};
ghost use Rattle.sps_expr.specs.Value.{scope_now};
ghost use Rattle.sps_pass_one.specs.Faults.{least};
ghost use Rattle.sps_pass_one.specs.Measure.{part_at, lacks, short_value, read_as, is_even, in_bounds, answer_in, if_asked, measure_in, lacking_faults, size_of, size_or_0, natural_address, IsSmall, IsSmallForm};
ghost use Rattle.std.specs.Option.{ForSome};

use crate::ask::{Ask, Form, OperandReading};
use crate::fault::{Fault, broken_at_if, broken_if};
use sps_expr::Scope;
use sps_ops::Rule;
use sps_scan::{Statement, short_number};

/// The value of an operand, and the least fault of its statement so far.
#[derive(Clone, Copy)]
pub struct Answered {
    /// The least fault, or `None` if no rule is broken.
    pub worst: Option<Fault>,
    /// The value, or `None` if the part is empty or breaks a rule.
    pub value: Option<i64>,
}

/// The length, the count and the explicit address of a declarative, and the least fault of its statement so far.
///
/// A length or a count that breaks a rule is 0 too, and an address that breaks a rule is `None`.
#[derive(Clone, Copy)]
pub struct Measured {
    /// The least fault, or `None` if no rule is broken.
    pub worst: Option<Fault>,
    /// The length, or 0 if there is no length.
    pub n: u64,
    /// The count, or 0 if there is no count.
    pub k: u64,
    /// The explicit address, if there is one.
    pub a: Option<u64>,
}

/// The part of a statement at a place.
///
/// Places count from 0; a place after the ten parts gives an empty text.
pub fn part_at<'a>(s: &Statement<'a>, place: u8) -> &'a [u8]
    ensures { result.now ≡ part_at (statement_text s.now) place }
{
    let place = usize::from(place);
    if place < s.parts.len() {
        s.parts[place]
    } else {
        &[]
    }
}

/// Whether the part at a place is empty: it has only blanks.
///
/// Places count from 0.
pub fn lacks(s: &Statement<'_>, place: u8) -> bool
    ensures { result ≡ lacks (statement_text s.now) place }
{
    is_blank(part_at(s, place))
}

/// Whether a text has only blanks.
///
/// A blank is byte 32. A text without a byte is blank.
pub fn is_blank(text: &[u8]) -> bool
    ensures { result ≡ is_blank text.now }
{
    text.iter().all(|b| *b == b' ')
}

// The number that one or two digits stand for; any other text breaks rule 11.
fn short_value(text: &[u8]) -> Result<i64, Rule>
    ensures { result ≡ short_value text.now }
{
    match short_number(text) {
        None => Err(Rule::BadLength),
        Some(n) => Ok(i64::from(n)),
    }
}

// The value of a part, read as an expression or as two digits.
fn read_as(reading: OperandReading, part: &[u8], scope: &Scope<'_>) -> Result<i64, Rule>
    ensures { result ≡ read_as reading (scope_now scope.now) part.now }
{
    match reading {
        OperandReading::Expression => scope.value(part),
        OperandReading::TwoDigits => short_value(part),
    }
}

// Whether a number is even; 0 is.
fn is_even(v: i64) -> bool
    ensures { result ≡ is_even v }
{
    v.unsigned_abs() % 2 == 0
}

/// The answer for an operand whose value, or whose broken rule, is known.
///
/// A value outside its range breaks the rule `over`. Only a value within the range is checked for being odd. `worst` is the least
/// fault of the statement so far, and the `worst` of the answer includes this operand.
#[tactic(auto, unfolding(crate::specs::Faults::least))]
pub fn in_bounds(worst: Option<Fault>, q: Ask, found: Result<i64, Rule>) -> Answered
    ensures small { IsSmall q → size_of result.value ≤ 99999 }
    ensures worst { result.worst ≡ least worst (in_bounds q found).faults }
    ensures value { result.value ≡ (in_bounds q found).value }
{
    match found {
        Err(rule) => Answered {
            worst: broken_at_if(worst, true, rule, q.place),
            value: None,
        },
        Ok(v) => {
            if !(q.low <= v && v <= q.high) {
                Answered {
                    worst: broken_at_if(worst, true, q.over, q.place),
                    value: None,
                }
            } else if q.odd && is_even(v) {
                Answered {
                    worst: broken_at_if(worst, true, Rule::EvenAddress, q.place),
                    value: None,
                }
            } else {
                Answered {
                    worst,
                    value: Some(v),
                }
            }
        }
    }
}

/// The answer for an operand of a statement: its value, or the least rule that it breaks.
///
/// Its part is evaluated in `scope`. An empty part has no value, and breaks rule 6 if it is needed. `worst` is the least fault of
/// the statement so far, and the `worst` of the answer includes this operand.
#[tactic(auto, unfolding(crate::specs::Measure::answer))]
pub fn answer(worst: Option<Fault>, s: &Statement<'_>, q: Ask, scope: &Scope<'_>) -> Answered
    ensures small { IsSmall q → size_of result.value ≤ 99999 }
    ensures worst { result.worst ≡ least worst (answer_in scope.now s.now q).faults }
    ensures value { result.value ≡ (answer_in scope.now s.now q).value }
{
    if lacks(s, q.place) {
        return Answered {
            worst: broken_if(worst, q.needed, Rule::MissingOperand),
            value: None,
        };
    }
    in_bounds(worst, q, read_as(q.reading, part_at(s, q.place), scope))
}

// The answer for an operand; it has no value and no fault if the declarative does not have the operand.
#[tactic(auto, unfolding(crate::specs::Faults::least))]
fn answer_if(worst: Option<Fault>, s: &Statement<'_>, q: Option<Ask>, scope: &Scope<'_>) -> Answered
    requires { ForSome q IsSmall }
    ensures small { size_of result.value ≤ 99999 }
    ensures worst { result.worst ≡ least worst (if_asked scope.now s.now q).faults }
    ensures value { result.value ≡ (if_asked scope.now s.now q).value }
{
    match q {
        None => Answered { worst, value: None },
        Some(q) => answer(worst, s, q, scope),
    }
}

// A value as a length.
fn size_of(v: Option<i64>) -> u64
    ensures { result ≡ size_of v }
{
    match v {
        None => 0,
        Some(v) => v.unsigned_abs(),
    }
}

// A value as an address.
fn natural_address(v: Option<i64>) -> Option<u64>
    ensures { result ≡ natural_address v }
{
    match v {
        None => None,
        Some(v) => Some(v.unsigned_abs()),
    }
}

// Whether n and A are both empty but one of them is needed, or a text has no comma before it.
#[tactic(auto, using(crate::proofs::Least::least_append))]
fn lacking_faults(worst: Option<Fault>, s: &Statement<'_>, f: Form) -> Option<Fault>
    ensures { result ≡ least worst (lacking_faults (statement_text s.now) f) }
{
    let worst = broken_if(
        worst,
        f.either && lacks(s, 0) && lacks(s, 1),
        Rule::MissingOperand,
    );
    broken_if(worst, f.text && s.count == 1, Rule::MissingOperand)
}

/// The length, the count and the explicit address of a declarative, and the least rule that one of them breaks.
///
/// Their parts are evaluated in `scope`. `worst` is the least fault of the statement so far, and the `worst` of the result
/// includes these operands.
#[tactic(auto, unfolding(crate::specs::Measure::measure))]
pub fn measure(worst: Option<Fault>, s: &Statement<'_>, f: Form, scope: &Scope<'_>) -> Measured
    requires { IsSmallForm f }
    ensures small_n { result.n ≤ 99999 }
    ensures small_k { result.k ≤ 99999 }
    ensures small_a { size_or_0 result.a ≤ 99999 }
    ensures worst { result.worst ≡ least worst (measure_in scope.now s.now f).faults }
    ensures n { result.n ≡ (measure_in scope.now s.now f).n }
    ensures k { result.k ≡ (measure_in scope.now s.now f).k }
    ensures a { result.a ≡ (measure_in scope.now s.now f).a }
{
    let worst = lacking_faults(worst, s, f);
    let n = answer_if(worst, s, f.n, scope);
    let k = answer_if(n.worst, s, f.k, scope);
    let a = answer_if(k.worst, s, f.a, scope);
    Measured {
        worst: a.worst,
        n: size_of(n.value),
        k: size_of(k.value),
        a: natural_address(a.value),
    }
}
