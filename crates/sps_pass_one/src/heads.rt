// HEAD: the head of the symbols that follow.
ghost use Rattle.std.specs.Prelude.{◌≡◌};
ghost use Rattle.sps_scan.specs.Statement.{statement_text};
ghost use Rattle.sps_pass_one.specs.Faults.{least};
ghost use Rattle.sps_pass_one.specs.Heads.{is_head_text, head_text, head_faults, head_in};

use crate::fault::{Fault, broken_at_if};
use crate::operands::{lacks, part_at};
use line_words::trimmed;
use sps_ops::Rule;
use sps_scan::Statement;

// The first part of a HEAD without the blanks at its ends.
fn head_text<'a>(s: &Statement<'a>) -> &'a [u8]
    ensures { result.now ≡ head_text (statement_text s.now) }
{
    trimmed(part_at(s, 0))
}

// One letter or digit, or nothing.
fn is_head_text(text: &[u8]) -> bool
    ensures { result ≡ is_head_text text.now }
{
    match text {
        [] => true,
        [h] => h.is_ascii_digit() || b'A' <= *h && *h <= b'Z',
        _ => false,
    }
}

/// The least fault of a HEAD after the check of its parts: the first is one letter or digit, or empty; the others are empty.
///
/// `worst` is the least fault of the statement so far.
/// Source: this project's own.
#[tactic(auto, using(crate::proofs::Least::least_append))]
pub fn head_faults(worst: Option<Fault>, s: &Statement<'_>) -> Option<Fault>
    ensures { result ≡ least worst (head_faults (statement_text s.now)) }
{
    let good = is_head_text(head_text(s));
    let worst = broken_at_if(worst, !good, Rule::BadExpression, 0);
    let worst = broken_at_if(worst, !lacks(s, 1), Rule::BadExpression, 1);
    broken_at_if(worst, !lacks(s, 2), Rule::BadExpression, 2)
}

// The head that a HEAD sets, or `None` if its first part is empty.
pub(crate) fn head_in(s: &Statement<'_>) -> Option<u8>
    ensures { result ≡ head_in (statement_text s.now) }
{
    head_text(s).first().copied()
}
