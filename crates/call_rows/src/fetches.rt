// Reads of core for an instruction, and branches.
//
// - `digit|AT` the digit there, read as any digit and as a decimal digit; `operand|AT` the operand whose field ends there
// - `fetch|IR` the instruction's address, opcode, device or indicator, and twelve digits; `P|IR`, `Q|IR`, `immediate Q|IR` its operands
// - `stops|` the number of each stop; `code|CODE` the row of an operation code in the table of instructions
// - `branch|` carries out the branch at IR, with the registers that `ir|` and `ir2|` set
use crate::lines::{RowLine, number, place};
use addr_indirect::{
    Instr, Stop, decimal_at, fetch, immediate_q, operand, p_operand, q_operand, read_at,
};
use branch_ops::{Regs, branch, branch_of};
use card_code::object_char;
use cpu_step::Machine;
use digit_core::{Core, Digit};
use indicators::Panel;
use instruction_table::{instruction_law, instruction_of};
use std::alloc::{AllocError, Global};
use std::io;

// An operand that a line names; None if the line is not known.
fn operand_of<const M: u32>(core: &Core<M>, line: &RowLine<'_>) -> Option<Result<u32, Stop>> {
    let size = core.size();
    let at = place(core, line.first)?;
    match line.name {
        "operand" if at >= 4 => Some(operand(core, at)),
        "P" if at <= size - 12 => Some(p_operand(core, at)),
        "Q" if at <= size - 12 => Some(q_operand(core, at)),
        "immediate Q" => Some(Ok(immediate_q(at))),
        _ => None,
    }
}

// The character of a digit that was read, or the stop.
fn shown(alloc: Global, digit: Result<Digit, Stop>) -> Result<String, AllocError> {
    match digit {
        Ok(digit) => {
            let mut text = String::new(alloc);
            text.push(char_of(digit))?;
            Ok(text)
        }
        Err(stop) => format!(in alloc; "{stop:?}"),
    }
}

// The character of a digit; ? if no cell can hold it.
fn char_of(digit: Digit) -> char {
    if digit.value <= 10 || digit.value == 12 || digit.value == 15 {
        char::from(object_char(digit))
    } else {
        '?'
    }
}

// The digits of an instruction.
fn digits(alloc: Global, instr: &Instr) -> Result<String, AllocError> {
    let mut text = String::new(alloc);
    for digit in instr.cells {
        text.push(char_of(digit))?;
    }
    Ok(text)
}

// Prints the instruction at an address.
fn show_instruction<const M: u32>(
    rt: &impl Print,
    alloc: Global,
    core: &Core<M>,
    line: &RowLine<'_>,
) -> io::Result<bool> {
    let Some(ir) = number(line.first) else {
        return Ok(false);
    };
    match fetch(core, ir) {
        Ok(instr) => {
            let (opcode, q8_q9) = (instr.opcode(), instr.q8_q9());
            let digits = digits(alloc, &instr)?;
            println!(rt;
                "{}|at {} {opcode:?} {q8_q9:?} {digits}",
                line.text, instr.at
            )?;
        }
        Err(stop) => println!(rt; "{}|{stop:?}", line.text)?,
    }
    Ok(true)
}

// Each stop, in the order of their numbers.
const STOPS: [Stop; 11] = [
    Stop::OddInstruction,
    Stop::Address,
    Stop::Digit,
    Stop::Parity(7),
    Stop::Value(7),
    Stop::Opcode,
    Stop::Device,
    Stop::IndirectLoop,
    Stop::EvenAlpha,
    Stop::Overflow,
    Stop::InOut,
];

// Prints the number of each stop.
fn show_stops(rt: &impl Print) -> io::Result<()> {
    for stop in STOPS {
        println!(rt; "stops|{stop:?} {}", stop.number())?;
    }
    Ok(())
}

// Prints the row of an operation code; false if the line names no code.
fn show_code(rt: &impl Print, line: &RowLine<'_>) -> io::Result<bool> {
    instruction_law();
    match number(line.first) {
        Some(code) if code < 100 => {
            println!(rt; "{}|{:?}", line.text, instruction_of(code as u8))?;
            Ok(true)
        }
        _ => Ok(false),
    }
}

// Prints a read of core, a stop or a table row; false if the line is not known.
pub(crate) fn show<const M: u32>(
    rt: &impl Print,
    alloc: Global,
    core: &Core<M>,
    line: &RowLine<'_>,
) -> io::Result<bool> {
    match line.name {
        "stops" => show_stops(rt)?,
        "code" => return show_code(rt, line),
        "fetch" => return show_instruction(rt, alloc, core, line),
        "digit" => {
            let at = number(line.first).unwrap_or(0);
            let any = shown(alloc, read_at(core, at))?;
            println!(rt;
                "{}|{any}|{}",
                line.text,
                shown(alloc, decimal_at(core, at))?
            )?;
        }
        _ => match operand_of(core, line) {
            Some(Ok(at)) => println!(rt; "{}|{at:05}", line.text)?,
            Some(Err(stop)) => println!(rt; "{}|{stop:?}", line.text)?,
            None => return Ok(false),
        },
    }
    Ok(true)
}

// Carries out the branch at IR: the address to which it goes. If there is no branch, a stop that no branch has.
fn branched<const M: u32>(
    core: &mut Core<M>,
    regs: &mut Regs,
    panel: &mut Panel,
) -> Result<u32, Stop> {
    let instr = fetch(core, regs.ir)?;
    let Some(code) = instr.opcode() else {
        return Err(Stop::Opcode);
    };
    if branch_of(code).is_none() {
        return Err(Stop::Opcode);
    }
    branch(core, regs, panel, &instr)
}

// Carries out a branch; None if the line is not known.
pub(crate) fn call<const M: u32>(
    machine: &mut Machine<M>,
    line: &RowLine<'_>,
) -> Option<Result<u32, Stop>> {
    match line.name {
        "branch" => Some(branched(&mut machine.core, &mut machine.regs, &mut machine.panel)),
        _ => None,
    }
}
