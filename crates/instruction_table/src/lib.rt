//! The table of instructions: each with its code, mnemonic, operation, the operands that it uses and the cells that it may store.
//!
//! The machine and the assembler use this one table, and their definitions use the rows of `specs/Table.antt`:
//! [`instruction_law`] says that both have the same rows. The table doesn't say how an operation works.
#![tactic(auto)]

ghost use Rattle.std.specs.Prelude.{◌≡◌, map};
ghost use Rattle.instruction_table.specs.declared.TheConstants.{INSTRUCTIONS};
ghost use Rattle.instruction_table.specs.Table.{named_instructions, instruction_of, row_in, codes_once, mnemonics_once, codes_with_a_field_in_q, flagged_by_the_assembler};

use crate::BranchOp::{B, Bb, Bd, Bi, Bnf, Bng, Bni, Bnr, Bt};
use crate::FeatureOp::{Mf, Tnf, Tns};
use crate::MayStore::{Anywhere, ByDevice, Cell, Down, DownBelow, DownFromQ, Nothing, Up};
use crate::MoveOp::{Cf, Sf, Td, Tf, Tr};
use crate::Op::{Branch, Feature, Move};
use crate::OperandUse::{
    Both, Digit, Field, First, FirstByDevice, Indicator, Neither, OddBoth, OddFirst,
};

/// The operations of the machine, each by its mnemonic. Instructions that differ only in the place of their second operand, as A
/// and AM, have one operation; the table's column of operands gives this place.
///
/// Source: CPU manual, operation codes.
#[derive(Clone, Copy, Debug, PartialEq, Eq)]
pub enum Op {
    /// Add.
    A,
    /// Subtract.
    S,
    /// Compare.
    C,
    /// Moves digits within core, or changes a flag.
    Move(MoveOp),
    /// An operation of a special feature.
    Feature(FeatureOp),
    /// A branch: goes to another address, always or after a test.
    Branch(BranchOp),
    /// Control: of the typewriter, or a seek of the disk.
    K,
    /// Dump numerically.
    Dn,
    /// Read numerically.
    Rn,
    /// Read alphamerically.
    Ra,
    /// Write numerically.
    Wn,
    /// Write alphamerically.
    Wa,
    /// No operation.
    Nop,
    /// Halt.
    H,
}

/// The operations that move digits within core or change a flag.
///
/// Source: CPU manual, internal data transmission.
#[derive(Clone, Copy, Debug, PartialEq, Eq)]
pub enum MoveOp {
    /// Transmit digit: the digit at Q is copied to P.
    Td,
    /// Transmit field: the field at Q is copied to P.
    Tf,
    /// Transmit record: the record at Q is copied to P.
    Tr,
    /// Set flag: the digit at P gets a flag.
    Sf,
    /// Clear flag: the digit at P loses its flag.
    Cf,
}

/// The operations of the special features.
///
/// Source: this project's own, after special features of the machine.
#[derive(Clone, Copy, Debug, PartialEq, Eq)]
pub enum FeatureOp {
    /// Move flag: the flag of the digit at Q moves to P.
    Mf,
    /// Transmit numerical strip: the pairs at P become the field at Q, without their zones.
    Tns,
    /// Transmit numerical fill: the field at Q becomes the pairs at P.
    Tnf,
}

/// The branches.
///
/// Source: CPU manual, branch instructions.
#[derive(Clone, Copy, Debug, PartialEq, Eq)]
pub enum BranchOp {
    /// Branch and transmit: copies the field at Q to P-1, keeps the next instruction's address in IR-2, and goes to P.
    Bt,
    /// Branch back: goes to the address in IR-2.
    Bb,
    /// Branch on digit: goes to P if the value at Q is not 0.
    Bd,
    /// Branch no flag: goes to P if the digit at Q has no flag.
    Bnf,
    /// Branch no record mark: goes to P if the value at Q is not 10.
    Bnr,
    /// Branch no group mark: goes to P if the value at Q is not 15.
    Bng,
    /// Branch indicator: tests the indicator Q8 Q9, and goes to P if it was on.
    Bi,
    /// Branch no indicator: tests the indicator Q8 Q9, and goes to P if it was off.
    Bni,
    /// Branch: goes to P.
    B,
}

/// The operands that an instruction uses.
///
/// Source: CPU manual, operation codes; that P of 72 and 73 is odd is this project's own.
#[derive(Clone, Copy, Debug, PartialEq, Eq)]
pub enum OperandUse {
    /// P and Q, each worked out through its chain.
    Both,
    /// P and Q, each worked out through its chain; P must be odd.
    OddBoth,
    /// P, and as the second a field whose units are Q11, in the instruction itself.
    Field,
    /// P, and as the second the digit Q11 of the instruction itself.
    Digit,
    /// P, and the indicator that Q8 and Q9 name.
    Indicator,
    /// Only P.
    First,
    /// Only P, which must be odd.
    OddFirst,
    /// Neither.
    Neither,
    /// P or neither, by the device that Q8 and Q9 name.
    FirstByDevice,
}

/// The cells that an instruction may store, as far as its operands determine them.
///
/// Source: CPU manual, operation codes; the special features are this project's own.
#[derive(Clone, Copy, Debug, PartialEq, Eq)]
pub enum MayStore {
    /// None.
    Nothing,
    /// The cell at P.
    Cell,
    /// A field downwards from P.
    Down,
    /// A field downwards from P - 1.
    DownBelow,
    /// A field downwards from Q.
    DownFromQ,
    /// A record upwards from P.
    Up,
    /// Any: the operands do not determine them.
    Anywhere,
    /// None or any, by the device that Q8 and Q9 name.
    ByDevice,
}

/// The row of an instruction, to the right of its mnemonic: its operation code, 11 to 73; its operation; the operands that it
/// uses; and the cells that it may store.
///
/// Source: CPU manual, operation codes; the special features are this project's own.
#[derive(Clone, Copy, Debug, PartialEq, Eq)]
pub struct InstructionRow(pub u8, pub Op, pub OperandUse, pub MayStore);

/// The table of instructions, each under its mnemonic, in the order of the manual.
///
/// Source: CPU manual, operation codes; the special features are this project's own.
pub static INSTRUCTIONS: [(&str, InstructionRow); 34] = [
    ("A", InstructionRow(21, Op::A, Both, Down)),
    ("AM", InstructionRow(11, Op::A, Field, Down)),
    ("S", InstructionRow(22, Op::S, Both, Down)),
    ("SM", InstructionRow(12, Op::S, Field, Down)),
    ("C", InstructionRow(24, Op::C, Both, Nothing)),
    ("CM", InstructionRow(14, Op::C, Field, Nothing)),
    ("TD", InstructionRow(25, Move(Td), Both, Cell)),
    ("TDM", InstructionRow(15, Move(Td), Digit, Cell)),
    ("TF", InstructionRow(26, Move(Tf), Both, Down)),
    ("TFM", InstructionRow(16, Move(Tf), Field, Down)),
    ("BT", InstructionRow(27, Branch(Bt), Both, DownBelow)),
    ("BTM", InstructionRow(17, Branch(Bt), Field, DownBelow)),
    ("TR", InstructionRow(31, Move(Tr), Both, Up)),
    ("SF", InstructionRow(32, Move(Sf), First, Cell)),
    ("CF", InstructionRow(33, Move(Cf), First, Cell)),
    ("K", InstructionRow(34, Op::K, FirstByDevice, ByDevice)),
    ("DN", InstructionRow(35, Op::Dn, First, Nothing)),
    ("RN", InstructionRow(36, Op::Rn, First, Anywhere)),
    ("RA", InstructionRow(37, Op::Ra, OddFirst, Anywhere)),
    ("WN", InstructionRow(38, Op::Wn, First, ByDevice)),
    ("WA", InstructionRow(39, Op::Wa, OddFirst, Nothing)),
    ("NOP", InstructionRow(41, Op::Nop, Neither, Nothing)),
    ("BB", InstructionRow(42, Branch(Bb), Neither, Nothing)),
    ("BD", InstructionRow(43, Branch(Bd), Both, Nothing)),
    ("BNF", InstructionRow(44, Branch(Bnf), Both, Nothing)),
    ("BNR", InstructionRow(45, Branch(Bnr), Both, Nothing)),
    ("BNG", InstructionRow(55, Branch(Bng), Both, Nothing)),
    ("BI", InstructionRow(46, Branch(Bi), Indicator, Nothing)),
    ("BNI", InstructionRow(47, Branch(Bni), Indicator, Nothing)),
    ("H", InstructionRow(48, Op::H, Neither, Nothing)),
    ("B", InstructionRow(49, Branch(B), First, Nothing)),
    ("MF", InstructionRow(71, Feature(Mf), Both, Anywhere)),
    ("TNS", InstructionRow(72, Feature(Tns), OddBoth, DownFromQ)),
    ("TNF", InstructionRow(73, Feature(Tnf), OddBoth, Down)),
];

/// The row of an operation code, or `None` if the table has no such code.
///
/// Source: CPU manual, operation codes; the special features are this project's own.
pub fn instruction_of(code: u8) -> Option<InstructionRow>
    ensures { result ≡ instruction_of code }
{
    row_in(&INSTRUCTIONS, code)
}

// The first row that has the code.
fn row_in(rows: &[(&str, InstructionRow)], code: u8) -> Option<InstructionRow>
    ensures { result ≡ row_in (map (λ r. r.1) rows.now) code }
{
    for (_, row) in rows {
        if row.0 == code {
            return Some(*row);
        }
    }
    None
}

/// The law of the table: its rows equal the rows of the definition, and no code and no mnemonic occurs twice. The instructions
/// whose Q is a field in the instruction are AM, SM, CM, TFM and BTM: if their flag operand is empty, the assembler sets a flag
/// on their Q7.
///
/// Source: CPU manual, operation codes; which codes get a flag on Q7 is this project's own.
pub fn instruction_law()
    ensures rows { map (λ r. (r.0.now, r.1)) INSTRUCTIONS ≡ named_instructions }
    ensures codes { codes_once }
    ensures mnemonics { mnemonics_once }
    ensures fields { codes_with_a_field_in_q ≡ flagged_by_the_assembler }
{}
