// The text that a refusal shows of its statement.
ghost use Rattle.std.specs.Prelude.{◌≡◌};
ghost use Rattle.sps_scan.specs.Statement.{statement_text};
ghost use Rattle.sps_listing.specs.Texts.{source_line_at, shows_part, part_text, shown_text};

use line_words::trimmed;
use outside_io::split_line;
use sps_ops::Rule;
use sps_pass_one::part_at;
use sps_scan::Statement;

// The line of a statement, by its number; empty if the source has no statement with that number.
pub(crate) fn line_at(source: &[u8], statement: u32) -> &[u8]
    ensures { result.now ≡ source_line_at source.now statement }
{
    if statement == 0 {
        return &[];
    }
    let mut rest = source;
    for _earlier in 1..statement {
        let Some((_, behind)) = split_line(rest) else {
            return &[];
        };
        rest = behind;
    }
    match split_line(rest) {
        Some((line, _)) => line,
        None => &[],
    }
}

// Whether a refusal for the rule shows an operand part, if the part is given.
fn shows_part(rule: Rule) -> bool
    ensures { result ≡ shows_part rule }
{
    matches!(rule.number(), 7..=13 | 20..)
}

// The part at a place without the blanks at its ends; empty if no place is given.
fn part_text<'a>(s: &Statement<'a>, part: Option<u8>) -> &'a [u8]
    ensures { result.now ≡ part_text (statement_text s.now) part }
{
    match part {
        Some(place) => trimmed(part_at(s, place)),
        None => &[],
    }
}

// The text that a refusal shows of its statement: the label, the operation or a part, without the blanks at its ends.
pub(crate) fn shown_text<'a>(rule: Rule, part: Option<u8>, s: &Statement<'a>) -> &'a [u8]
    ensures { result.now ≡ shown_text rule part (statement_text s.now) }
{
    match rule {
        Rule::BadLabel | Rule::DuplicateLabel => trimmed(s.label),
        Rule::UnknownOperation => trimmed(s.operation),
        _ if shows_part(rule) => part_text(s, part),
        _ => &[],
    }
}
