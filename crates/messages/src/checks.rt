// What a check stop means, which part of an instruction it is about, and what to look at.
// Source: this project's own.
use crate::said::Said;
use addr_indirect::Stop;
use cpu_step::CheckPart;

// The meaning of a stop; for a bad cell, without the cell's address.
pub(crate) fn meaning(stop: Stop) -> &'static str {
    match stop {
        Stop::OddInstruction => "the address of the instruction is odd",
        Stop::Address => "an address outside core",
        Stop::Digit => "no decimal digit where one is needed",
        Stop::Parity(_) => "an even count of one-bits",
        Stop::Value(_) => "the value 11, 13 or 14",
        Stop::Opcode => "no such operation code",
        Stop::Device => "no such device for this instruction",
        Stop::IndirectLoop => "a chain of addresses that never ends",
        Stop::EvenAlpha => "an alphameric field at an even address",
        Stop::Overflow => "overflow, with its check switch at STOP",
        Stop::InOut => "a read or write check, with the I/O check switch at STOP",
    }
}

// What to look at after a stop.
pub(crate) fn what_to_look_at(stop: Stop) -> &'static str {
    match stop {
        Stop::OddInstruction => "look at the branch to it: instructions stand at even addresses",
        Stop::Address => "look at P and Q, and for a missing flag or record mark at a field's end",
        Stop::Digit => "look at the instruction's digits, at its fields, and at the add table",
        Stop::Parity(_) | Stop::Value(_) => {
            "look for a FLIP of that cell in --script: no deck makes a bad cell"
        }
        Stop::Opcode => "look at the instruction's first two digits (docs/machine.md)",
        Stop::Device => "look at Q8 and Q9, at Q11, and at a control field's drive",
        Stop::IndirectLoop => "look at the flags on the units of P, of Q, and of the chain",
        Stop::EvenAlpha => "look at P: it is the second digit of a pair, at an odd address",
        Stop::Overflow => "test 14 by BI behind the sum, or leave OVERFLOW STOP out of --script",
        Stop::InOut => "look for a character of no digit, or leave IO STOP out of --script",
    }
}

// How far to the right of an instruction's first cell the units of P lie, and the units of Q.
const UNITS_OF_P: u32 = 6;

const UNITS_OF_Q: u32 = 11;

// Says which part of the instruction at an address a check is about.
pub(crate) fn say_part(said: &mut Said, kind: Stop, at: u32, part: CheckPart) {
    match part {
        CheckPart::Instruction { cell } => {
            said.line(format_args!("it is about the instruction itself, at the cell {cell:05}"));
        }
        CheckPart::P { units } => say_field(said, "P", at.saturating_add(UNITS_OF_P), units),
        CheckPart::Q { units } => say_field(said, "Q", at.saturating_add(UNITS_OF_Q), units),
        CheckPart::Action { p, q, cell } => {
            // the place of a digit over 9; for a bad cell, the line of the check already has its address
            match (q, kind, cell) {
                (Some(q), Stop::Digit, Some(cell)) => said.line(format_args!(
                    "P is {p:05}, Q is {q:05}; a digit over 9 stands at {cell:05}"
                )),
                (None, Stop::Digit, Some(cell)) => {
                    said.line(format_args!("P is {p:05}; a digit over 9 stands at {cell:05}"));
                }
                (Some(q), Stop::Digit, None) => said.line(format_args!(
                    "P is {p:05}, Q is {q:05}; a digit over 9 stands in the add table, 00300 to 00399"
                )),
                (None, Stop::Digit, None) => said.line(format_args!(
                    "P is {p:05}; a digit over 9 stands in the add table, 00300 to 00399"
                )),
                (Some(q), _, _) => said.line(format_args!("P is {p:05}, Q is {q:05}")),
                (None, _, _) => said.line(format_args!("P is {p:05}")),
            }
        }
    }
}

// Says at which field an operand's chain of addresses ended, and from which field it began, if the two differ.
fn say_field(said: &mut Said, operand: &str, from: u32, units: u32) {
    if from == units {
        said.line(format_args!("it is about {operand}: the field whose units stand at {units:05}"));
    } else {
        said.line(format_args!(
            "it is about {operand}: the field whose units stand at {units:05}, in the chain from {from:05}"
        ));
    }
}
