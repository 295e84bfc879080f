// The faults of a statement, and which of them the assembler reports.
// Source: this project's own.
ghost use Rattle.std.specs.Prelude.{◌≡◌, ◌<◌};
ghost use Rattle.sps_pass_one.specs.Faults.{part_order, fault_order, lesser, least, broken_if, broken_at_if};

use sps_ops::Rule;

/// A rule that a statement breaks, and the part that breaks it.
///
/// The lesser of two faults has the lower rule. Within a rule, a fault without a part comes first, and then the earlier part.
#[derive(Clone, Copy, Debug, PartialEq, Eq)]
pub struct Fault {
    /// The rule.
    pub rule: Rule,
    /// The place of the part among the statement's parts, from 0, for a rule about a part; `None` for any other rule.
    pub part: Option<u8>,
}

// A fault without a part comes before a fault with a part.
fn part_order(part: Option<u8>) -> u32
    ensures is { result ≡ part_order part }
    ensures small { result < 1000 }
{
    match part {
        None => 0,
        Some(place) => u32::from(place) + 1,
    }
}

// The order of faults: first by the number of the rule, then by the part.
fn fault_order(fault: Fault) -> u32
    ensures { result ≡ fault_order fault }
{
    1000 * u32::from(fault.rule.number()) + part_order(fault.part)
}

// The lesser of two faults, or the first of them if they are equal.
pub(crate) fn lesser(worst: Option<Fault>, fault: Fault) -> Option<Fault>
    ensures { result ≡ lesser worst fault }
{
    match worst {
        None => Some(fault),
        Some(other) => {
            if fault_order(fault) < fault_order(other) {
                Some(fault)
            } else {
                Some(other)
            }
        }
    }
}

/// The least fault of a statement after one more check: if the test holds, the statement breaks this rule.
///
/// `worst` is the least fault of the checks before, or `None` if they found no fault.
#[tactic(auto, unfolding(crate::specs::Faults::least))]
pub fn broken_if(worst: Option<Fault>, test: bool, rule: Rule) -> Option<Fault>
    ensures { result ≡ least worst (broken_if test rule) }
{
    if test {
        lesser(worst, Fault { rule, part: None })
    } else {
        worst
    }
}

/// The least fault of a statement after one more check: if the test holds, the part at a place breaks this rule.
///
/// `worst` is the least fault of the checks before, or `None` if they found no fault. `place` counts the parts from 0.
#[tactic(auto, unfolding(crate::specs::Faults::least))]
pub fn broken_at_if(worst: Option<Fault>, test: bool, rule: Rule, place: u8) -> Option<Fault>
    ensures { result ≡ least worst (broken_at_if test rule place) }
{
    if test {
        lesser(
            worst,
            Fault {
                rule,
                part: Some(place),
            },
        )
    } else {
        worst
    }
}
