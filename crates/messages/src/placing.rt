// Advice for a statement without an operation in columns 12 to 15: its line may lie a few columns too far to the left or to the right.
// Source: this project's own.
use crate::refused::{plural, say_long_name};
use crate::said::Said;
use crate::sheet::{LABEL, OPERANDS, OPERATION, SheetColumns};
use line_words::trimmed;
use sps_ops::{Rule, lookup};
use sps_pass_one::is_label;

// The columns of label and operation in a line that begins five columns too far to the left.
const LABEL_FROM_ONE: SheetColumns = SheetColumns { first: 1, last: 6 };

const OPERATION_FROM_ONE: SheetColumns = SheetColumns { first: 7, last: 10 };

// The greatest distance, in columns, between a line and its place.
const FARTHEST: usize = 10;

// Says where a line belongs if it has no operation in columns 12 to 15.
pub(crate) fn say_place(said: &mut Said, rule: Rule, line: &[u8]) {
    if !matches!(
        rule,
        Rule::BadColumn | Rule::BadLabel | Rule::UnknownOperation
    ) || lookup(OPERATION.of(line)).is_some()
    {
        return;
    }
    if line.first() == Some(&b'*') {
        return said.line(
            "columns 1 to 5 are for page and line: begin a comment with a * in column 6",
        );
    }
    if let Some(column) = star_column(line) {
        return said.line(format_args!(
            "the * of a comment stands in column {column}: begin a comment with a * in column 6"
        ));
    }
    if begins_in_column_one(line) {
        return said.line(
            "columns 1 to 5 are for page and line: begin the label in column 6, the operation in column 12",
        );
    }
    for columns in 1..FARTHEST + 1 {
        if let Some((what, way)) = shift_by(line, columns) {
            let ending = plural(columns);
            return said.line(format_args!(
                "the {what} stands {columns} column{ending} too far to the {way}: begin the label in column 6, the operation in column 12"
            ));
        }
    }
    if rule == Rule::UnknownOperation {
        say_operation(said, line);
    }
}

// Says what is wrong in the columns of the operation.
fn say_operation(said: &mut Said, line: &[u8]) {
    let operation = trimmed(OPERATION.of(line));
    if operation.is_empty() {
        said.line("no operation stands in columns 12 to 15");
    } else if let Some(column) = early_operands(line) {
        said.line(format_args!("the operands begin in column {column}: begin them in column 16"));
    } else if let Some(name) = long_label(line) {
        say_long_name(said, name);
    } else if let Some(absent) = absent_of(operation) {
        said.line(format_args!(
            "operations of {absent} are not built here: docs/assembler.md, Not built, says what to do without"
        ));
    }
}

// The feature to which the operation of this name belongs in the manuals, if the operation is not built here.
// Source: CPU manual and SPS manual, operations.
fn absent_of(name: &[u8]) -> Option<&'static str> {
    match name {
        b"M" | b"MM" => Some("multiplication"),
        b"LD" | b"LDM" | b"D" | b"DM" => Some("division"),
        b"FADD" | b"FSUB" | b"FMUL" | b"FDIV" | b"FSL" | b"FSR" | b"TFL" | b"BTFL" => {
            Some("floating point")
        }
        b"RNPT" | b"RAPT" | b"WNPT" | b"WAPT" | b"DNPT" => Some("paper tape"),
        b"TCD" | b"TRA" => Some("programs in parts"),
        _ => None,
    }
}

// What lies off by this many columns, the line or its operation, and which way; None if no move by them brings an operation into columns 12 to 15.
fn shift_by(line: &[u8], columns: usize) -> Option<(&'static str, &'static str)> {
    if is_right(line, columns) {
        Some(("line", "right"))
    } else if is_left(line, columns) {
        Some(("line", "left"))
    } else if has_operation_right(line, columns) {
        Some(("operation", "right"))
    } else if has_operation_left(line, columns) {
        Some(("operation", "left"))
    } else {
        None
    }
}

// Whether the line is a statement after a move by `by` columns to the left.
fn is_right(line: &[u8], by: usize) -> bool {
    let first = LABEL.first.saturating_add(by);
    let last = LABEL.last.saturating_add(by);
    let before = between(LABEL.first, first, line);
    is_blank(before)
        && is_label_or_blank(SheetColumns { first, last }.of(line))
        && begins_operation(line, last.saturating_add(1))
}

// Whether the line is a statement after a move by `by` columns to the right. If `by` is over five, the line has no room for a label.
fn is_left(line: &[u8], by: usize) -> bool {
    let operation = OPERATION.first.saturating_sub(by);
    if by < LABEL.first {
        let first = LABEL.first.saturating_sub(by);
        is_blank(between(1, first, line))
            && is_label_or_blank(between(first, operation, line))
            && begins_operation(line, operation)
    } else {
        is_blank(between(1, operation, line)) && begins_operation(line, operation)
    }
}

// Whether the label is in its place, and the operation `by` columns too far to the right.
fn has_operation_right(line: &[u8], by: usize) -> bool {
    let operation = OPERATION.first.saturating_add(by);
    is_own_label(LABEL.of(line))
        && is_blank(between(OPERATION.first, operation, line))
        && begins_operation(line, operation)
}

// Whether the label is in its place, and the operation `by` columns too far to the left, after a blank.
fn has_operation_left(line: &[u8], by: usize) -> bool {
    let operation = OPERATION.first.saturating_sub(by);
    let label = between(LABEL.first, operation, line);
    label.last() == Some(&b' ') && is_own_label(label) && begins_operation(line, operation)
}

// The text from the column `first` up to the column before `behind`.
fn between(first: usize, behind: usize, line: &[u8]) -> &[u8] {
    let last = behind.saturating_sub(1);
    SheetColumns { first, last }.of(line)
}

// Whether an operation begins in this column.
fn begins_operation(line: &[u8], first: usize) -> bool {
    let last = first.saturating_add(3);
    let text = SheetColumns { first, last }.of(line);
    match text.first() {
        Some(byte) => byte.is_ascii_alphanumeric() && lookup(text).is_some(),
        None => false,
    }
}

// Whether the text is empty or all blanks.
fn is_blank(text: &[u8]) -> bool {
    trimmed(text).is_empty()
}

// Whether the text is a label, with no blank before it.
fn is_own_label(text: &[u8]) -> bool {
    text.first() != Some(&b' ') && is_label(trimmed(text))
}

fn is_label_or_blank(text: &[u8]) -> bool {
    is_blank(text) || is_own_label(text)
}

// The column of the `*` with which the line begins, if it is not column 6 and not past column 16.
fn star_column(line: &[u8]) -> Option<usize> {
    let blanks = line.iter().take_while(|b| **b == b' ').count();
    let column = blanks.checked_add(1)?;
    if line.get(blanks) == Some(&b'*') && column != LABEL.first && column <= OPERANDS.first {
        Some(column)
    } else {
        None
    }
}

// The column in which the operands begin, if columns 12 to 15 have an operation, a blank and the beginning of the operands, in this order.
fn early_operands(line: &[u8]) -> Option<usize> {
    let text = OPERATION.of(line);
    let end = text.iter().position(|b| *b == b' ')?;
    let (operation, behind) = text.split_at_checked(end)?;
    lookup(operation)?;
    let blanks = behind.iter().take_while(|b| **b == b' ').count();
    if trimmed(behind).is_empty() {
        return None;
    }
    OPERATION.first.checked_add(end)?.checked_add(blanks)
}

// The name from column 6 on that is too long for a label, if an operation follows it.
fn long_label(line: &[u8]) -> Option<&[u8]> {
    for more in 1..5usize {
        let behind = OPERATION.first.saturating_add(more);
        let name = between(LABEL.first, behind, line);
        if name.iter().all(|b| b.is_ascii_alphanumeric()) && begins_operation(line, behind) {
            return Some(name);
        }
    }
    None
}

// Whether the line would have an operation, and a label or blanks before it, if it began five columns further to the right. Numbers of page
// and line are not a label.
fn begins_in_column_one(line: &[u8]) -> bool {
    let label = LABEL_FROM_ONE.of(line);
    let may_be = trimmed(label).is_empty()
        || label.first() != Some(&b' ') && is_label(trimmed(label));
    may_be && lookup(OPERATION_FROM_ONE.of(line)).is_some()
}
