// The line of a refusal.
// Source: this project's own.
ghost use Rattle.std.specs.Prelude.{◌≡◌, ◌≤◌, ◌++◌};
ghost use Rattle.arrayvec.specs.ArrayString.{array_string_len};
ghost use Rattle.sps_listing.specs.Texts.{refusal_head, behind_blank, short_refusal_line};
ghost use Rattle.sps_listing.specs.Sending.{Refuses};

use crate::shown::{line_at, shown_text};
use crate::two_parts::write_ended;
use arrayvec::ArrayString;
use outside_io::{Host, Sent, Unit};
use report_lines::{LONGEST_LINE, push_padded};
use sps_ops::Rule;
use sps_scan::scan;

// `REFUSED`, the statement, and the number and the name of the rule.
fn refusal_head(statement: u32, rule: Rule) -> ArrayString<LONGEST_LINE>
    ensures bytes { result.bytes ≡ refusal_head statement rule }
    ensures len { array_string_len result ≤ 47 }
{
    let mut line = ArrayString::new();
    line.push_str("REFUSED ");
    push_padded(&mut line, 5, statement);
    line.push_str(" ");
    push_padded(&mut line, 2, u32::from(rule.number()));
    line.push_str(" ");
    line.push_str(rule.name());
    line
}

/// The line of a refusal, with its LF, as `refusal` writes it, but without any text of the statement: `REFUSED`, the statement in
/// at least five digits, and the rule's number in two digits and its name.
///
/// `statement` is the number of the refused statement, the first being 1.
#[tactic(auto, unfolding(crate::specs::Texts::short_refusal_line))]
pub fn short_refusal_line(statement: u32, rule: Rule) -> ArrayString<LONGEST_LINE>
    ensures { result.bytes ≡ short_refusal_line statement rule }
{
    let mut line = refusal_head(statement, rule);
    line.push_str("\n");
    line
}

// The line up to the shown text; it ends with a blank if the shown text is not empty.
fn refusal_front(statement: u32, rule: Rule, shown: &[u8]) -> ArrayString<LONGEST_LINE>
    ensures { result.bytes ++ shown.now ≡ refusal_head statement rule ++ behind_blank shown.now }
{
    let mut front = refusal_head(statement, rule);
    if !shown.is_empty() {
        front.push_str(" ");
    }
    front
}

/// Writes the line of a refusal on Report: `REFUSED`, the statement in at least five digits, the rule's number in two digits and its
/// name, and then a blank and the text in the statement that breaks the rule.
///
/// `source` is the source deck of the statement, `statement` its number, the first being 1, `rule` the rule that it breaks, and
/// `part` the place, from 0, of the operand part that breaks it. The text is the label for the rules 3 and 5, the operation for
/// 4, and the part for 7 to 13 and 20, without the blanks at both ends. The line ends after the rule's name if this text is
/// empty, for other rules, without a part, for a part of 10 or more, and for a statement that the source does not have.
///
/// The call scans the statement once more, and takes no memory.
/// `Failed` only if the host's count of faults rose: Report has received a first part of the line, which may be empty or all.
pub fn refusal<H: Host>(
    source: &[u8],
    statement: u32,
    rule: Rule,
    part: Option<u8>,
    host: &mut H,
) -> Sent
    ensures { Refuses (H.seen host.old) (H.seen host.new) source.now statement rule part result }
{
    let shown = shown_text(rule, part, &scan(line_at(source, statement)));
    let front = refusal_front(statement, rule, shown);
    write_ended(Unit::Report, front.as_bytes(), shown, host)
}
