// Names of operations.
//
// - `operation|NAME` the operation that a statement's columns 12 to 15 name: an instruction by its opcode, with `flag` if the assembler
//   sets a flag on Q7, or with the Q of a unique mnemonic; a declarative; or `none`
use crate::lines::RowLine;
use sps_ops::{Operation, lookup};
use std::io;

// Prints the operation of a name; false if the line is not known.
pub(crate) fn show(rt: &impl Print, line: &RowLine<'_>) -> io::Result<bool> {
    if line.name != "operation" {
        return Ok(false);
    }
    print!(rt; "{}|", line.text)?;
    match lookup(line.first.as_bytes()) {
        Some(
            Operation::Instruction {
                opcode,
                q: Some(q),
                immediate: _,
            },
        ) => println!(rt; "{opcode} {q:05}")?,
        Some(
            Operation::Instruction {
                opcode,
                q: None,
                immediate,
            },
        ) => println!(rt; "{opcode}{}", if immediate { " flag" } else { "" })?,
        Some(Operation::Declare(declarative)) => println!(rt; "{declarative:?}")?,
        None => println!(rt; "none")?,
    }
    Ok(true)
}
