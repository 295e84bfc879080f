//! Branches: the address of the next instruction.
//!
//! A branch goes to P's operand always or by a test, of a digit in core or of an indicator; else the machine goes on with the next
//! instruction. The operands that the table of instructions names for it are worked out, whether or not it is taken. BT and BTM
//! also move a field to P-1 and keep the next instruction's address in IR-2, to which BB goes back.
//!
//! The operands of all other instructions are worked out in the same way, from the fields of their own digits: the machine does it by these
//! calls too.
#![tactic(auto)]

ghost use Rattle.std.specs.Prelude.{◌≡◌};
ghost use Rattle.branch_ops.specs.Branch.{branch_of_op, branch_of};

mod fields;
mod rows;

pub use fields::{FieldKind, Fields, Operands, Uses, uses_by};
use instruction_table::{BranchOp, InstructionRow, Op, instruction_of};
pub use rows::{BranchOperands, branch, branch_known, tested_code};

/// The two registers of addresses.
///
/// Source: CPU manual, instruction register and branch back register.
#[derive(Clone, Copy, Debug, PartialEq, Eq)]
pub struct Regs {
    /// IR: the address of the next instruction; while an instruction is carried out, its own address.
    pub ir: u32,
    /// IR-2: the address that BB goes back to. BT and BTM keep the address of the instruction after them here.
    pub ir2: u32,
}

/// The branch of an opcode, or `None` if the opcode is not 17, 27, 42 to 47, 49 or 55.
///
/// Source: CPU manual, operation codes.
pub fn branch_of(code: u8) -> Option<BranchOp>
    ensures { result ≡ branch_of code }
{
    match instruction_of(code) {
        Some(InstructionRow(_, op, _, _)) => branch_of_op(op),
        None => None,
    }
}

// The branch that an operation is.
fn branch_of_op(op: Op) -> Option<BranchOp>
    ensures { result ≡ branch_of_op op }
{
    match op {
        Op::Branch(b) => Some(b),
        _ => None,
    }
}
