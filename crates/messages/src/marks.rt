// Which columns of a statement break its rule.
// Source: SPS manual, coding sheet; which columns are marked is this project's own.
use crate::sheet::{LABEL, OPERANDS, OPERATION, SheetColumns};
use line_words::trimmed;
use sps_ops::Rule;
use sps_scan::{Shape, scan};

// The columns to mark in a line; None if the rule needs a part and the refusal has no part, or if the text to mark is blank. `part` is the place,
// from 0, of the operand part that breaks the rule.
pub(crate) fn marked(rule: Rule, part: Option<u8>, line: &[u8]) -> Option<SheetColumns> {
    match rule {
        Rule::BadColumn => {
            let column = bad_column(line)?;
            Some(SheetColumns {
                first: column,
                last: column,
            })
        }
        Rule::LongCard => Some(SheetColumns {
            first: 81,
            last: line.len(),
        }),
        Rule::BadLabel | Rule::DuplicateLabel => written(LABEL.first, LABEL.of(line)),
        Rule::UnknownOperation => written(OPERATION.first, OPERATION.of(line)),
        _ => part_columns(line, part?),
    }
}

// The column of the first byte that breaks rule 1: it is not a character of the assembler. This byte ends the shortest beginning of the line that
// breaks the rule, since later bytes don't change how the assembler reads it.
pub(crate) fn bad_column(line: &[u8]) -> Option<usize> {
    for place in 0..line.len() {
        if scan(&line[..place + 1]).shape == Shape::BadColumn {
            return Some(place + 1);
        }
    }
    None
}

// The columns of an operand part. The earlier parts lie before it, each with a comma after it.
fn part_columns(line: &[u8], place: u8) -> Option<SheetColumns> {
    let s = scan(line);
    let place = usize::from(place);
    let part = s.parts.get(place)?;
    let mut first = OPERANDS.first;
    for earlier in s.parts.iter().take(place) {
        first = first.saturating_add(earlier.len()).saturating_add(1);
    }
    written(first, part)
}

// The columns of a text without the blanks at its ends, if the text begins in the column `first`; None if it is blank.
fn written(first: usize, text: &[u8]) -> Option<SheetColumns> {
    let written = trimmed(text).len();
    if written == 0 {
        return None;
    }
    let blanks = text.iter().take_while(|b| **b == b' ').count();
    let first = first.saturating_add(blanks);
    Some(SheetColumns {
        first,
        last: first.saturating_add(written - 1),
    })
}
