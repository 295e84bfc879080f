// The cells that the next step may store.
ghost use Rattle.std.specs.Prelude.{◌≡◌, ◌+◌, ◌≤◌, length, Ok};
ghost use Rattle.digit_core.specs.Size.{size};
ghost use Rattle.addr_indirect.specs.Fetch.{fetch};
ghost use Rattle.cpu_step.specs.Stores.{StoresBelow, StepStores, fetched_stores, stores_at, stores_by};

use crate::machine::Machine;
use crate::memo::Known;
use crate::rows::decoded_row;
use addr_indirect::{Instr, fetch};
use branch_ops::Operands;
use digit_core::Core;
use instruction_table::MayStore;

/// The cells that a step may store; all others stay as they are.
///
/// The step may store fewer cells than these, for instance if it stops.
/// Source: this project's own, over the CPU manual's instruction descriptions.
#[derive(Clone, Copy, Debug, PartialEq, Eq)]
pub enum Stores {
    /// No cell.
    Nothing,
    /// The cell at this address.
    Cell(u32),
    /// The cells from this address down to the first flag below it, by the flags after the step; down to 00000 if there is no
    /// flag. A flag at the address itself is not an end.
    Down(u32),
    /// The cells from this address up to the first record mark, by the record marks after the step; up to the end of core if
    /// there is no record mark. The record mark may be at the address itself.
    Up(u32),
    /// Any cells.
    Anywhere,
}

impl<const M: u32> Machine<M> {
    ghost use Rattle.cpu_step.specs.Stores.{ShowsTheSame, stores_at};

    /// The cells that the next step may store, by the instruction at IR; it is called before `step`.
    ///
    /// The machine stays as it is. An address in the answer is below the size of core. The answer is `Anywhere` for an instruction that
    /// reads a card or a line of the keyboard, moves a flag or works on the disk, and for no other.
    /// Source: this project's own.
    #[inline(always)]
    pub fn stores(&mut self) -> Stores
        ensures is { result ≡ stores_at self.old.core self.old.regs.ir }
        ensures same { ShowsTheSame M self.old self.new }
        ensures below { StoresBelow result (size M) }
        ensures within { StepStores self.old.core self.old.regs.ir result }
    {
        self.core.size_law();
        let ir = self.regs.ir;
        match self.memo.look(&self.core, ir) {
            Known::B { .. } => Stores::Nothing,
            Known::Row { fields, .. } => stores_by(fields.stores, fields.at(ir)),
            Known::Branch { fields, .. } => stores_by(fields.stores, fields.at(ir)),
            Known::Chained { .. } | Known::Nothing => decoded_stores(&self.core, ir),
        }
    }
}

// The cells that the step at `ir` may store, if the decode cache doesn't say: the instruction is fetched, and it stores nothing
// if it stops before its action.
#[inline(never)]
fn decoded_stores<const M: u32>(core: &Core<M>, ir: u32) -> Stores
    ensures is { result ≡ stores_at core.now ir }
    ensures below { StoresBelow result (size M) }
    ensures within { StepStores core.now ir result }
{
    match fetch(core, ir) {
        Ok(i) => fetched_stores(core, ir, &i),
        Err(_) => Stores::Nothing,
    }
}

// The cells that a fetched instruction may store.
fn fetched_stores<const M: u32>(core: &Core<M>, ir: u32, i: &Instr) -> Stores
    requires inside { ir + 12 ≤ size M }
    requires twelve { length i.now.cells ≡ 12 }
    requires fetched { fetch core.now ir ≡ Ok i.now }
    ensures is { result ≡ fetched_stores i.now core.now ir }
    ensures below { StoresBelow result (size M) }
    ensures within { StepStores core.now ir result }
{
    core.size_law();
    match decoded_row(i) {
        Ok((_, fields)) => match fields.operands(core, ir) {
            Ok(o) => stores_by(fields.stores, o),
            Err(_) => Stores::Nothing,
        },
        Err(_) => Stores::Nothing,
    }
}

// The cells that an instruction may store over its operands, by the table's column.
fn stores_by(stores: MayStore, o: Operands) -> Stores
    ensures { result ≡ stores_by stores o }
{
    match stores {
        MayStore::Nothing => Stores::Nothing,
        MayStore::Cell => Stores::Cell(o.p),
        MayStore::Down => Stores::Down(o.p),
        MayStore::DownBelow => {
            if o.p == 0 {
                Stores::Nothing
            } else {
                Stores::Down(o.p - 1)
            }
        }
        MayStore::DownFromQ => Stores::Down(o.q),
        MayStore::Up => Stores::Up(o.p),
        MayStore::Anywhere | MayStore::ByDevice => Stores::Anywhere,
    }
}
