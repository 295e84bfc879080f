// The operands of an instruction, from the fields of its own digits: for branches here, and for all instructions in the machine.
ghost use Rattle.std.specs.Prelude.{◌≡◌, ◌+◌, ◌<◌, ◌≤◌, ◌%◌, IfOk, true};
ghost use Rattle.digit_core.specs.Size.{size};
ghost use Rattle.digit_core.specs.declared.TheConstants.{MOST_POSITIONS};
ghost use Rattle.branch_ops.specs.Fields.{ComeTo, decimal_part, field_from, fields_used, is_chained, part_number, field_operand, fields_at, fields_operands};
ghost use Rattle.branch_ops.specs.Operands.{operands_tested, uses_by};

use crate::rows::BranchOperands;
use addr_indirect::{Instr, LOWEST_UNITS, Stop, further, immediate_q};
use digit_core::Core;
use instruction_table::{MayStore, OperandUse};

/// The operands that an instruction works out, by the column of its row and, for some rows, by its device.
///
/// Source: CPU manual, operation codes; that P of 72 and 73 is odd is this project's own.
#[derive(Clone, Copy, Debug, PartialEq, Eq)]
pub enum Uses {
    /// P and Q.
    Both,
    /// P and Q; P must be odd.
    OddBoth,
    /// P, and Q in the instruction itself.
    Immediate,
    /// P alone.
    First,
    /// P alone, which must be odd.
    OddFirst,
    /// Neither.
    Neither,
}

/// The operands that an instruction works out, by its column of the table of instructions, or `device` if the column says so.
///
/// Source: CPU manual, operation codes.
pub fn uses_by(column: OperandUse, device: Uses) -> Uses
    ensures { result ≡ uses_by column device }
{
    match column {
        OperandUse::Both => Uses::Both,
        OperandUse::OddBoth => Uses::OddBoth,
        OperandUse::Field | OperandUse::Digit => Uses::Immediate,
        OperandUse::Indicator | OperandUse::First => Uses::First,
        OperandUse::OddFirst => Uses::OddFirst,
        OperandUse::Neither => Uses::Neither,
        OperandUse::FirstByDevice => device,
    }
}

/// The operands of an instruction: an address each, 0 if the operand isn't used.
///
/// Source: CPU manual, instruction descriptions.
#[derive(Clone, Copy, Debug, PartialEq, Eq)]
pub struct Operands {
    /// The operand at P.
    pub p: u32,
    /// The operand at Q; for an immediate Q the address of the instruction's own Q11.
    pub q: u32,
}

impl Operands {
    /// The operands of a branch that tests the indicator `code`.
    ///
    /// Source: CPU manual, branch instructions.
    #[inline(always)]
    pub fn tested(self, code: u8) -> BranchOperands
        ensures { result ≡ operands_tested self code }
    {
        let Operands { p, q } = self;
        BranchOperands { p, q, code }
    }
}

/// What an instruction's field holds of an operand.
///
/// Source: CPU manual, instruction format, immediate instructions and indirect addressing.
#[derive(Clone, Copy, Debug, PartialEq, Eq)]
pub enum FieldKind {
    /// The operand itself, whose units are the instruction's own Q11.
    Immediate,
    /// The address of the operand.
    Address,
    /// The units position of a further field: its units digit has a flag, and a chain begins there.
    Chain,
    /// No number: one of its digits is over 9.
    Undecimal,
}

impl FieldKind {
    /// The operand that a field of this kind with the number `v` holds, for the instruction at `ir`. A chain is followed in core.
    ///
    /// The operand is below the size of core. Stops: 3 if the field has no number; 2 if the number is past the end of core, or
    /// below 4 for a chain; then as `further`.
    /// Source: CPU manual, indirect addressing; the order of the checks is this project's own.
    #[inline(always)]
    pub fn operand<const M: u32>(self, core: &Core<M>, ir: u32, v: u32) -> Result<u32, Stop>
        requires { ir + 12 ≤ size M }
        ensures is { result ≡ field_operand core.now ir self v }
        ensures in_core { IfOk result (λ a. a < size M) }
    {
        core.size_law();
        match self {
            FieldKind::Immediate => Ok(immediate_q(ir)),
            FieldKind::Undecimal => Err(Stop::Digit),
            FieldKind::Address => {
                if v < core.size() {
                    Ok(v)
                } else {
                    Err(Stop::Address)
                }
            }
            FieldKind::Chain => {
                if v >= LOWEST_UNITS && v < core.size() {
                    further(core, v)
                } else {
                    Err(Stop::Address)
                }
            }
        }
    }
}

/// The fields of an instruction that hold its operands, and the cells that it may store. An operand that isn't used is the
/// address 0.
///
/// Source: CPU manual, instruction format and indirect addressing.
#[derive(Clone, Copy, Debug, PartialEq, Eq)]
pub struct Fields {
    /// The number of P's field, 0 to 99,999; 0 if it has no number.
    pub p: u32,
    /// The number of Q's field, 0 to 99,999; 0 if it has no number.
    pub q: u32,
    /// What P's field holds.
    pub p_kind: FieldKind,
    /// What Q's field holds.
    pub q_kind: FieldKind,
    /// Whether P must be odd.
    pub odd: bool,
    /// The cells that the instruction may store.
    pub stores: MayStore,
}

impl Fields {
    /// The fields of an instruction that works out the operands `uses`, and may store `stores`.
    ///
    /// Source: CPU manual, instruction format and indirect addressing.
    pub fn of(uses: Uses, stores: MayStore, i: &Instr) -> Self
        ensures { result ≡ fields_used uses stores i.now }
    {
        let (p, p_kind) = field(i, 6);
        let (q, q_kind) = field(i, 11);
        let both = Fields {
            p,
            q,
            p_kind,
            q_kind,
            odd: false,
            stores,
        };
        let first = Fields {
            q: 0,
            q_kind: FieldKind::Address,
            ..both
        };
        match uses {
            Uses::Both => both,
            Uses::OddBoth => Fields { odd: true, ..both },
            Uses::Immediate => Fields {
                q_kind: FieldKind::Immediate,
                ..first
            },
            Uses::First => first,
            Uses::OddFirst => Fields { odd: true, ..first },
            Uses::Neither => Fields {
                p: 0,
                p_kind: FieldKind::Address,
                ..first
            },
        }
    }

    /// Whether a chain begins at one of the fields.
    ///
    /// Source: CPU manual, indirect addressing.
    pub fn is_chained(self) -> bool
        ensures { result ≡ is_chained self }
    {
        matches!(self.p_kind, FieldKind::Chain) || matches!(self.q_kind, FieldKind::Chain)
    }

    /// The operands of the instruction at `ir`, if they are known to be its fields' numbers, or an immediate Q.
    ///
    /// `ir` is at most 59,988. Source: CPU manual, immediate instructions.
    #[inline(always)]
    pub fn at(self, ir: u32) -> Operands
        requires { ir + 12 ≤ MOST_POSITIONS }
        ensures { result ≡ fields_at ir self }
    {
        let q = match self.q_kind {
            FieldKind::Immediate => immediate_q(ir),
            _ => self.q,
        };
        Operands { p: self.p, q }
    }

    /// Works out the operands of the instruction at `ir`: first P, then Q; only then P is checked to be odd.
    ///
    /// The operands are below the size of core. If these fields are the instruction's own, they are its operands by its digits in
    /// core. Stops: as `FieldKind::operand` at P and then at Q; 9 if P must be odd and isn't.
    /// Source: CPU manual, instruction descriptions; the order of the checks is this project's own.
    #[inline(always)]
    pub fn operands<const M: u32>(self, core: &Core<M>, ir: u32) -> Result<Operands, Stop>
        requires { ir + 12 ≤ size M }
        ensures is { ComeTo self core.now ir result }
        ensures from { result ≡ fields_operands self core.now ir }
        ensures p { IfOk result (λ o. o.p < size M) }
        ensures q { IfOk result (λ o. o.q < size M) }
        ensures odd { self.odd ≡ true → IfOk result (λ o. o.p % 2 ≡ 1) }
    {
        let p = self.p_kind.operand(core, ir, self.p)?;
        let q = self.q_kind.operand(core, ir, self.q)?;
        if self.odd && p % 2 == 0 {
            Err(Stop::EvenAlpha)
        } else {
            Ok(Operands { p, q })
        }
    }
}

// An instruction's field of five digits with its units at digit number `k`: the field's number, 0 if it has none, and its kind.
fn field(i: &Instr, k: usize) -> (u32, FieldKind)
    requires units { 4 ≤ k }
    requires inside { k < 12 }
    ensures { result ≡ field_from i.now k }
{
    match number(i, k) {
        Some(v) => {
            if i.cells[k].flag {
                (v, FieldKind::Chain)
            } else {
                (v, FieldKind::Address)
            }
        }
        None => (0, FieldKind::Undecimal),
    }
}

// The number of an instruction's five digits from number `k` downwards, if they are decimal.
#[tactic(auto, unfolding(crate::specs::Fields::part_number))]
fn number(i: &Instr, k: usize) -> Option<u32>
    requires units { 4 ≤ k }
    requires inside { k < 12 }
    ensures { result ≡ part_number i.now k 5 }
{
    let a = decimal(i, k)?;
    let b = decimal(i, k - 1)?;
    let c = decimal(i, k - 2)?;
    let d = decimal(i, k - 3)?;
    let e = decimal(i, k - 4)?;
    Some(a + 10 * (b + 10 * (c + 10 * (d + 10 * e))))
}

// The value of an instruction's digit number `k`, if it is decimal.
fn decimal(i: &Instr, k: usize) -> Option<u32>
    requires { k < 12 }
    ensures { result ≡ decimal_part i.now k }
{
    let value = i.cells[k].value;
    if value > 9 {
        return None;
    }
    Some(value as u32)
}
