// A statement of a source, as if it were refused.
//
// - `refused|N|PART` shows statement N of the row's source as refused for `UndefinedSymbol`, with the operand part at place PART, from 0;
//   without PART no part
use crate::desk::Desk;
use crate::lines::{RowLine, number};
use crate::texts::front;
use sps_listing::refused_line;
use sps_ops::Rule;
use std::io;

// The place of an operand part.
fn part_of(word: &str) -> Option<u8> {
    word.parse::<u8>().ok()
}

// Prints a refused statement; false if the line is not known.
pub(crate) fn show<const M: u32>(
    rt: &impl Print,
    desk: &Desk<M>,
    line: &RowLine<'_>,
) -> io::Result<bool> {
    if line.name != "refused" {
        return Ok(false);
    }
    let Some(statement) = number(line.first) else {
        return Ok(false);
    };
    let rule = Rule::UndefinedSymbol;
    let part = part_of(line.second);
    let refused = refused_line(desk.alloc, &desk.source, statement, rule, part)?;
    let text = front(desk.alloc, &refused.text, refused.text.len())?;
    println!(rt;
        "{}|{} {:?} {:?}|{} bytes|{text}",
        line.text, refused.statement, refused.rule, refused.part, refused.bytes
    )?;
    Ok(true)
}
