// The branches, one after another.
ghost use Rattle.std.specs.Prelude.{◌≡◌, ◌+◌, ◌<◌, ◌≤◌, ◌^◌, if◌then◌else◌, IsSome, OnErr, OnOk, Ok, List, ℕ};
ghost use Rattle.digit_core.specs.Size.{size};
ghost use Rattle.addr_indirect.specs.Fetch.{fetch};
ghost use Rattle.branch_ops.specs.Branch.{go_if};
ghost use Rattle.instruction_table.specs.declared.BranchOp.TheVariants.{Bd, Bnf, Bnr, Bng, Bi, Bni};
ghost use Rattle.branch_ops.specs.Carried.{branch_in, processor, Carries, CarriesKnown, CarriesOut, GoesByDigit, GoesByTest, Transmits};
ghost use Rattle.branch_ops.specs.Operands.{code_by, column_by, operands_used, tested_code};

use crate::fields::{Fields, Uses, uses_by};
use crate::{Regs, branch_of};
use addr_indirect::{Instr, Stop, read_at};
use digit_core::{Core, GROUP_MARK, RECORD_MARK};
use field_moves::tf;
use indicators::Panel;
use instruction_table::{BranchOp, InstructionRow, MayStore, OperandUse, instruction_of};

/// Carries a branch out, and gives the address of the next instruction: P's operand, IR-2, or `regs.ir + 12`.
///
/// The machine itself doesn't call it: it has worked out the operands already, and calls [`branch_known`].
/// `instr` was fetched from this core at `regs.ir`, and its opcode is 17, 27, 42 to 47, 49 or 55. 17 and 27 move a field and set
/// `regs.ir2`; 46 and 47 turn the indicator off if a test does so. All else stays, and the caller sets `regs.ir` to the answer.
/// Stops: as `operand` at P and then at Q, if the row uses the operand, whether or not the branch is taken; then as `read_at` at
/// the digit that is tested; for 17 and 27, 2 if P is 00000, and then as `tf`; digits that were moved before stay. After a stop
/// `regs` and `panel` are as before.
/// Source: CPU manual, branch instructions; the order of the checks, and that P of 17 and 27 is not 00000, is this project's own.
pub fn branch<const M: u32>(
    core: &mut Core<M>,
    regs: &mut Regs,
    panel: &mut Panel,
    instr: &Instr,
) -> Result<u32, Stop>
    requires opcode { IsSome (branch_in instr.now) }
    requires fetched { fetch core.old regs.old.ir ≡ Ok instr.now }
    ensures row { let before = processor core.old panel.old regs.old in
        let after = processor core.new panel.new regs.new in
        CarriesOut instr.now before after result }
    ensures stop { OnErr result ((regs.new ≡ regs.old) × (panel.new ≡ panel.old)) }
{
    core.size_law();
    match branch_in(instr) {
        Some(op) => carry_out(op, core, regs, panel, instr),
        None => unreachable!(),
    }
}

/// The operands of a branch and the indicator that it tests, 0 if it tests none.
///
/// Source: CPU manual, branch instructions.
#[derive(Clone, Copy, Debug, PartialEq, Eq)]
pub struct BranchOperands {
    /// The operand at P.
    pub p: u32,
    /// The operand at Q; for 17 the units of the field, which are the instruction's own Q11.
    pub q: u32,
    /// The indicator that Q8 Q9 name, 0 if they name none.
    pub code: u8,
}

/// Carries out a branch whose operands are known: the part of [`branch`] after the operands are worked out.
///
/// `o` has the operands that the branch at `regs.ir` uses, each below the size of core. The same things change as in `branch`.
/// Stops: as `branch` after the operands are worked out.
/// Source: CPU manual, branch instructions; that P of 17 and 27 is not 00000 is this project's own.
#[inline(always)]
pub fn branch_known<const M: u32>(
    op: BranchOp,
    o: BranchOperands,
    core: &mut Core<M>,
    regs: &mut Regs,
    panel: &mut Panel,
) -> Result<u32, Stop>
    requires p { o.p < size M }
    requires q { o.q < size M }
    requires next { regs.old.ir + 12 ≤ size M }
    ensures row { let before = processor core.old panel.old regs.old in
        let after = processor core.new panel.new regs.new in
        CarriesKnown op o before after result }
    ensures stop { OnErr result ((regs.new ≡ regs.old) × (panel.new ≡ panel.old)) }
{
    core.size_law();
    match op {
        BranchOp::Bt => transmit(core, regs, o.p, o.q),
        BranchOp::Bb => Ok(regs.ir2),
        BranchOp::Bd => bd(core, regs, o.p, o.q),
        BranchOp::Bnf => bnf(core, regs, o.p, o.q),
        BranchOp::Bnr => bnr(core, regs, o.p, o.q),
        BranchOp::Bng => bng(core, regs, o.p, o.q),
        BranchOp::Bi => Ok(bi(regs, panel, o.p, o.code)),
        BranchOp::Bni => Ok(bni(regs, panel, o.p, o.code)),
        BranchOp::B => Ok(o.p),
    }
}

// The row of each branch: its operands are worked out, whether or not it is taken, and then its action is done.
fn carry_out<const M: u32>(
    op: BranchOp,
    core: &mut Core<M>,
    regs: &mut Regs,
    panel: &mut Panel,
    i: &Instr,
) -> Result<u32, Stop>
    requires inside { regs.old.ir + 12 ≤ size M }
    requires fetched { fetch core.old regs.old.ir ≡ Ok i.now }
    ensures row { let before = processor core.old panel.old regs.old in
        let after = processor core.new panel.new regs.new in
        Carries op i.now before after result }
    ensures stop { OnErr result ((regs.new ≡ regs.old) × (panel.new ≡ panel.old)) }
{
    core.size_law();
    let column = operands_used(i);
    let fields = Fields::of(uses_by(column, Uses::Neither), MayStore::Anywhere, i);
    match fields.operands(core, regs.ir) {
        Ok(o) => branch_known(op, o.tested(code_by(column, i)), core, regs, panel),
        Err(stop) => Err(stop),
    }
}

// The branch that an instruction is.
fn branch_in(instr: &Instr) -> Option<BranchOp>
    ensures { result ≡ branch_in instr.now }
{
    branch_of(instr.opcode()?)
}

// The column of an instruction, by its row of the table of instructions.
fn operands_used(instr: &Instr) -> OperandUse
    ensures { result ≡ operands_used instr.now }
{
    match instr.opcode() {
        Some(code) => column_by(instruction_of(code)),
        None => OperandUse::Neither,
    }
}

// The column of a row; an opcode without a row uses no operand.
fn column_by(row: Option<InstructionRow>) -> OperandUse
    ensures { result ≡ column_by row }
{
    match row {
        Some(InstructionRow(_, _, uses, _)) => uses,
        None => OperandUse::Neither,
    }
}

// The indicator that a branch tests, by its column; 0 if it tests none.
fn code_by(column: OperandUse, i: &Instr) -> u8
    ensures { result ≡ code_by column i.now }
{
    match column {
        OperandUse::Indicator => tested_code(i),
        _ => 0,
    }
}

/// The indicator that Q8 Q9 of an instruction name; 0, which is no indicator, if one of them is over 9.
///
/// Source: CPU manual, branch indicator.
pub fn tested_code(instr: &Instr) -> u8
    ensures { result ≡ tested_code instr.now }
{
    instr.q8_q9().unwrap_or(0)
}

// BT, BTM: the field at Q moves to P-1, IR-2 keeps the next instruction's address, and the branch goes to P.
fn transmit<const M: u32>(core: &mut Core<M>, regs: &mut Regs, p: u32, q: u32) -> Result<u32, Stop>
    requires p { p < size M }
    requires q { q < size M }
    requires next { regs.old.ir + 12 ≤ size M }
    ensures row { Transmits core.old regs.old p q core.new regs.new result }
    ensures stop { OnErr result (regs.new ≡ regs.old) }
{
    core.size_law();
    if p == 0 {
        return Err(Stop::Address);
    }
    tf(core, p - 1, q)?;
    regs.ir2 = regs.ir + 12;
    Ok(p)
}

// BD: the branch goes to P if the value at Q is not 0.
fn bd<const M: u32>(core: &Core<M>, regs: &Regs, p: u32, q: u32) -> Result<u32, Stop>
    requires { regs.now.ir + 12 ≤ size M }
    ensures { GoesByDigit Bd core.now regs.now p q result }
{
    core.size_law();
    let d = read_at(core, q)?;
    Ok(go_if(regs, d.value != 0, p))
}

// BNF: the branch goes to P if the digit at Q has no flag.
fn bnf<const M: u32>(core: &Core<M>, regs: &Regs, p: u32, q: u32) -> Result<u32, Stop>
    requires { regs.now.ir + 12 ≤ size M }
    ensures { GoesByDigit Bnf core.now regs.now p q result }
{
    core.size_law();
    let d = read_at(core, q)?;
    Ok(go_if(regs, !d.flag, p))
}

// BNR: the branch goes to P if there is no record mark at Q.
fn bnr<const M: u32>(core: &Core<M>, regs: &Regs, p: u32, q: u32) -> Result<u32, Stop>
    requires { regs.now.ir + 12 ≤ size M }
    ensures { GoesByDigit Bnr core.now regs.now p q result }
{
    core.size_law();
    let d = read_at(core, q)?;
    Ok(go_if(regs, d.value != RECORD_MARK, p))
}

// BNG: the branch goes to P if there is no group mark at Q.
fn bng<const M: u32>(core: &Core<M>, regs: &Regs, p: u32, q: u32) -> Result<u32, Stop>
    requires { regs.now.ir + 12 ≤ size M }
    ensures { GoesByDigit Bng core.now regs.now p q result }
{
    core.size_law();
    let d = read_at(core, q)?;
    Ok(go_if(regs, d.value != GROUP_MARK, p))
}

// BI: the branch goes to P if the tested indicator was on.
fn bi(regs: &Regs, panel: &mut Panel, p: u32, code: u8) -> u32
    requires { regs.now.ir + 12 < 2 ^ 32 }
    ensures { (core : List ℕ) → GoesByTest Bi core panel.old regs.now p code panel.new result }
{
    let on = panel.test(code);
    go_if(regs, on, p)
}

// BNI: the branch goes to P if the tested indicator was off.
fn bni(regs: &Regs, panel: &mut Panel, p: u32, code: u8) -> u32
    requires { regs.now.ir + 12 < 2 ^ 32 }
    ensures { (core : List ℕ) → GoesByTest Bni core panel.old regs.now p code panel.new result }
{
    let was_on = panel.test(code);
    go_if(regs, !was_on, p)
}

// P if the test holds, else the address of the next instruction.
fn go_if(regs: &Regs, test: bool, to: u32) -> u32
    requires { regs.now.ir + 12 < 2 ^ 32 }
    ensures { result ≡ (go_if regs.now test to).ir }
{
    if test { to } else { regs.ir + 12 }
}
