// The decode cache: instructions that were decoded before.
ghost use Rattle.std.specs.Prelude.{ℕ, ◌≡◌, ◌+◌, ◌≤◌, ◌<◌, ◌%◌, ◌^◌, length, IfOk, false, true};
ghost use Rattle.digit_core.specs.Size.{IsSize, size};
ghost use Rattle.digit_core.specs.Packed.{six, ten_across};
ghost use Rattle.branch_ops.specs.Fields.{is_chained, fields_operands};
ghost use Rattle.cpu_step.specs.Known.{AreKnown, IsKnown, IsPlace, IsRow, two_from};

use crate::further::FurtherFields;
use crate::rows::{Row, decoded_row};
use addr_indirect::{Instr, Stop, good_digits};
use branch_ops::{Fields, Operands};
use digit_core::{Core, ten_across};
use instruction_table::BranchOp;
use std::alloc::{AllocError, Global};

// A decoded instruction, by its twelve cells.
#[derive(Clone, Copy)]
pub(crate) enum Known {
    // B, which goes to P.
    B {
        p: u32,
    },
    // A row that is not a branch, and its fields.
    Row {
        row: Row,
        fields: Fields,
    },
    // A branch other than B, its fields, and the indicator that Q8 Q9 name.
    Branch {
        op: BranchOp,
        fields: Fields,
        code: u8,
    },
    // A row, which may be a branch, with a chain at one of its fields.
    Chained {
        row: Row,
        fields: Fields,
    },
    // No decoded instruction: a cell is bad, no row has these digits, or an operand is invalid.
    Nothing,
}

// A decoded instruction with its address and its twelve cells. The entry keeps the two words of core that hold the cells, and
// masks that leave out the words' other cells. So a look-up needs no division to find the words, and no shift to cut out cells.
#[derive(Clone, Copy)]
struct KnownEntry<const M: u32> {
    ir: u32,
    // The number of the lower word. It has 16 bits, so the compiler sees that `word + 1` fits into 32 bits, and makes no sum.
    word: u16,
    low_mask: u64,
    low: u64,
    high_mask: u64,
    high: u64,
    known: Known,
    ghost place_is: { IsPlace M ir word low_mask high_mask },
    ghost known_is: { AreKnown M (ten_across low high (ir % 10)) (two_from high (ir % 10)) known },
}

impl<const M: u32> KnownEntry<M> {
    ghost use Rattle.cpu_step.specs.Known.{Comes};

    // An empty entry: its cells are 0, and no good cell is 0.
    fn none() -> Self
        requires { IsSize M }
        ensures { result.known ≡ Known.Nothing }
    {
        KnownEntry {
            ir: 0,
            word: 0,
            low_mask: TEN_CELLS,
            low: 0,
            high_mask: TEN_CELLS,
            high: 0,
            known: Known::Nothing,
        }
    }

    // Whether the entry has this address and the cells at `ir`: if so, `known` is the decoded instruction.
    #[inline(always)]
    fn is_at(&self, core: &Core<M>, ir: u32) -> bool
        ensures { result ≡ true → Comes core.now ir self.now.known }
    {
        core.size_law();
        self.ir == ir
            && core.word(self.word as u32) & self.low_mask == self.low
            && core.word(self.word as u32 + 1) & self.high_mask == self.high
    }

    // Decodes the instruction at `ir` and keeps it. If `ir` is odd, or not all twelve cells lie in core, the entry becomes empty.
    #[cold]
    #[inline(never)]
    fn learn(&mut self, core: &Core<M>, ir: u32)
        ensures { Comes core.now ir self.new.known }
    {
        let size = core.size();
        if ir % 2 == 1 || ir > size - 12 {
            *self = KnownEntry::none();
            return;
        }
        let word = ir / 10;
        let j = ir % 10;
        let low_mask = mask_from(j);
        let high_mask = mask_below(j + 2);
        let low = core.word(word) & low_mask;
        let high = core.word(word + 1) & high_mask;
        let known = decode(ten_across(low, high, j), high >> (6 * j), core, ir);
        *self = KnownEntry {
            ir,
            word: word as u16,
            low_mask,
            low,
            high_mask,
            high,
            known,
        };
    }
}

// All bits of a word's ten cells.
const TEN_CELLS: u64 = 0x0fff_ffff_ffff_ffff;

// A mask of all bits of a word's cells from number `j` on.
pub(crate) fn mask_from(j: u32) -> u64
    requires { j < 10 }
    ensures named { (i : ℕ) → j ≤ i → i < 10 → six result i ≡ 63 }
    ensures others { (i : ℕ) → i < j → six result i ≡ 0 }
{
    TEN_CELLS >> (6 * j) << (6 * j)
}

// A mask of all bits of a word's cells below number `j`.
pub(crate) fn mask_below(j: u32) -> u64
    requires { j ≤ 10 }
    ensures named { (i : ℕ) → i < j → six result i ≡ 63 }
    ensures others { (i : ℕ) → j ≤ i → i < 10 → six result i ≡ 0 }
{
    TEN_CELLS % (1 << (6 * j))
}

// The decode cache: decoded instructions by their addresses. An entry depends on its twelve cells alone, and each look-up
// compares them with core, so a store need not change it. The entries are on the heap: within a machine they would be copied
// whenever it moves.
#[derive(Drop)]
pub(crate) struct Memo<const M: u32> {
    entries: Vec<KnownEntry<M>>,
    further: FurtherFields<M>,
    ghost all: { length entries.items ≡ 256 },
}

impl<const M: u32> Memo<M> {
    ghost use Rattle.cpu_step.specs.Known.{Comes};

    // An empty decode cache. The error is want of memory.
    pub(crate) fn new(alloc: Global) -> Result<Self, AllocError>
        requires { IsSize M }
    {
        let entries = vec![in alloc; KnownEntry::none(); 256]?;
        let further = FurtherFields::new(alloc)?;
        Ok(Memo { entries, further })
    }

    // The decoded instruction at `ir`. If its entry has another address or other cells, the instruction is decoded and kept
    // first. The answer is always read from the entry: an answer from either of two places would first be put into memory, and
    // then taken apart again.
    #[inline(always)]
    pub(crate) fn look(&mut self, core: &Core<M>, ir: u32) -> Known
        ensures { Comes core.now ir result }
    {
        let e = &mut self.entries[(ir / 2 % 256) as usize];
        if !e.is_at(core, ir) {
            e.learn(core, ir);
        }
        e.known
    }

    // Works out the operands that these fields hold, for the instruction at `ir`, with the help of the kept further fields.
    #[inline(always)]
    pub(crate) fn operands(
        &mut self,
        fields: Fields,
        core: &Core<M>,
        ir: u32,
    ) -> Result<Operands, Stop>
        requires { ir + 12 ≤ size M }
        ensures from { result ≡ fields_operands fields core.now ir }
        ensures p { IfOk result (λ o. o.p < size M) }
        ensures q { IfOk result (λ o. o.q < size M) }
        ensures odd { fields.odd ≡ true → IfOk result (λ o. o.p % 2 ≡ 1) }
    {
        self.further.operands(fields, core, ir)
    }
}

// Decodes the twelve cells at `ir`, ten of them in `low` and two in `high`.
#[cold]
#[inline(never)]
fn decode<const M: u32>(low: u64, high: u64, core: &Core<M>, ir: u32) -> Known
    requires { ir + 12 ≤ size M }
    ensures { AreKnown M low high result }
{
    match good_digits(low, high) {
        Some(cells) => known_by(&Instr { at: 0, cells }, core, ir),
        None => Known::Nothing,
    }
}

// Decodes the instruction at `ir` by its digits. It stays a function of its own: then the compiler sees that `decode` writes its
// whole answer, and a step that finds its entry needn't clear the place for an answer.
#[inline(never)]
fn known_by<const M: u32>(i: &Instr, core: &Core<M>, ir: u32) -> Known
    requires twelve { length i.now.cells ≡ 12 }
    requires inside { ir + 12 ≤ size M }
    ensures { IsKnown i.now (size M) result }
{
    match decoded_row(i) {
        Ok((row, fields)) => {
            if fields.is_chained() {
                Known::Chained { row, fields }
            } else {
                known_row(row, fields, i, core, ir)
            }
        }
        Err(_) => Known::Nothing,
    }
}

// The decoded instruction of a row that has no chain at its fields.
fn known_row<const M: u32>(row: Row, fields: Fields, i: &Instr, core: &Core<M>, ir: u32) -> Known
    requires row { IsRow i.now row fields }
    requires plain { is_chained fields ≡ false }
    requires inside { ir + 12 ≤ size M }
    ensures { IsKnown i.now (size M) result }
{
    core.size_law();
    match fields.operands(core, ir) {
        Ok(o) => match row {
            Row::Branch { op, code } => match op {
                BranchOp::B => Known::B { p: o.p },
                _ => Known::Branch { op, fields, code },
            },
            _ => Known::Row { row, fields },
        },
        Err(_) => Known::Nothing,
    }
}
