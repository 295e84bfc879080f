// Further fields that were read before.
ghost use Rattle.std.specs.Prelude.{◌≡◌, ◌+◌, ◌*◌, ◌<◌, ◌≤◌, ◌%◌, length, IfOk, IfSome, Ok, true};
ghost use Rattle.digit_core.specs.Size.{IsSize, size};
ghost use Rattle.addr_indirect.specs.Operand.{further};
ghost use Rattle.branch_ops.specs.Fields.{field_operand, fields_operands};
ghost use Rattle.cpu_step.specs.Further.{FieldIsKnown, LeadsTo};

use crate::checks::five_digits;
use crate::memo::{mask_below, mask_from};
use addr_indirect::{LOWEST_UNITS, Stop, decimal_at, further};
use branch_ops::{FieldKind, Fields, Operands};
use digit_core::Core;
use std::alloc::{AllocError, Global};

// A further field and its number. The entry keeps the two words of core that hold its five cells, as in the decode cache.
#[derive(Clone, Copy)]
struct FurtherField<const M: u32> {
    // The position of its units; 0 in an empty entry, since no field has its units there.
    units: u32,
    // The number of the lower word.
    word: u32,
    low_mask: u64,
    low: u64,
    high_mask: u64,
    high: u64,
    // Its number, which is an address in core.
    number: u32,
    // Whether its units digit has a flag: then the chain goes on at its number.
    flagged: bool,
    ghost word_is: { word + 1 < M * 2000 },
    ghost field_is: { FieldIsKnown M units word low_mask low high_mask high number flagged },
}

impl<const M: u32> FurtherField<M> {
    // An empty entry.
    fn none() -> Self
        requires { IsSize M }
    {
        FurtherField {
            units: 0,
            word: 0,
            low_mask: 0,
            low: 0,
            high_mask: 0,
            high: 0,
            number: 0,
            flagged: false,
        }
    }

    // Whether the entry has this units position and the field's cells in core: if so, its number and its flag are the field's.
    #[inline(always)]
    fn is_at(&self, core: &Core<M>, u: u32) -> bool
        requires { 4 ≤ u }
        ensures { result ≡ true → LeadsTo core.now u self.now.number self.now.flagged }
    {
        core.size_law();
        self.units == u
            && core.word(self.word) & self.low_mask == self.low
            && core.word(self.word + 1) & self.high_mask == self.high
    }

    // Reads the field whose units are at `u`, to be kept. Fields that stop a chain aren't kept, nor fields whose units are in
    // core's last six cells.
    #[cold]
    #[inline(never)]
    fn read(core: &Core<M>, u: u32) -> Option<Self>
        requires field { 4 ≤ u }
        requires in_core { u < size M }
        ensures { IfSome result (λ e. LeadsTo core.now u e.number e.flagged) }
    {
        let size = core.size();
        if u + 6 >= size {
            return None;
        }
        match decimal_at(core, u) {
            Ok(d) => match five_digits(core, u) {
                Ok(number) => {
                    if number >= size {
                        None
                    } else if d.flag && number < LOWEST_UNITS {
                        None
                    } else {
                        Some(FurtherField::of(core, u, number, d.flag))
                    }
                }
                Err(_) => None,
            },
            Err(_) => None,
        }
    }

    // The entry of the field whose units are at `u`, with this number and this flag.
    fn of(core: &Core<M>, u: u32, number: u32, flagged: bool) -> Self
        requires field { 4 ≤ u }
        requires in_core { u + 6 < size M }
        requires leads { LeadsTo core.now u number flagged }
        ensures number { result.number ≡ number }
        ensures flagged { result.flagged ≡ flagged }
    {
        core.size_law();
        let word = (u - 4) / 10;
        let j = (u - 4) % 10;
        let high_end = (j + 5).saturating_sub(10);
        let low_mask = mask_from(j) & mask_below(j + 5 - high_end);
        let high_mask = mask_below(high_end);
        FurtherField {
            units: u,
            word,
            low_mask,
            low: core.word(word) & low_mask,
            high_mask,
            high: core.word(word + 1) & high_mask,
            number,
            flagged,
        }
    }
}

// A chain that was followed from the position `at`, and the address that it led to.
#[derive(Clone, Copy)]
struct Followed {
    at: u32,
    to: u32,
}

// How many further fields of a chain are kept; a longer chain is followed each time.
const MOST_FIELDS: u32 = 8;

// Further fields that were read before, by the positions of their units. An entry depends on its five cells alone, and each
// look-up compares them with core, so a store need not change it. The entries are on the heap, as in the decode cache. A chain's
// fields are kept after the chain has led to one address twice, so a chain that changes each time costs little more.
#[derive(Drop)]
pub(crate) struct FurtherFields<const M: u32> {
    entries: Vec<FurtherField<M>>,
    followed: Vec<Followed>,
    ghost all: { length entries.items ≡ 64 },
    ghost all_followed: { length followed.items ≡ 64 },
}

impl<const M: u32> FurtherFields<M> {
    // No fields yet. The error is want of memory.
    pub(crate) fn new(alloc: Global) -> Result<Self, AllocError>
        requires { IsSize M }
    {
        let entries = vec![in alloc; FurtherField::none(); 64]?;
        let followed = vec![in alloc; Followed { at: 0, to: 0 }; 64]?;
        Ok(FurtherFields { entries, followed })
    }

    // Works out the operands of the instruction at `ir` as `Fields::operands` does, with the help of the kept further fields.
    #[inline(always)]
    pub(crate) fn operands(
        &mut self,
        fields: Fields,
        core: &Core<M>,
        ir: u32,
    ) -> Result<Operands, Stop>
        requires { ir + 12 ≤ size M }
        ensures from { result ≡ fields_operands fields core.now ir }
        ensures p { IfOk result (λ o. o.p < size M) }
        ensures q { IfOk result (λ o. o.q < size M) }
        ensures odd { fields.odd ≡ true → IfOk result (λ o. o.p % 2 ≡ 1) }
    {
        let p = self.operand(core, ir, fields.p_kind, fields.p)?;
        let q = self.operand(core, ir, fields.q_kind, fields.q)?;
        if fields.odd && p % 2 == 0 {
            Err(Stop::EvenAlpha)
        } else {
            Ok(Operands { p, q })
        }
    }

    // The operand that a field of this kind with the number `v` holds, for the instruction at `ir`.
    #[inline(always)]
    fn operand(&mut self, core: &Core<M>, ir: u32, kind: FieldKind, v: u32) -> Result<u32, Stop>
        requires { ir + 12 ≤ size M }
        ensures is { result ≡ field_operand core.now ir kind v }
        ensures in_core { IfOk result (λ a. a < size M) }
    {
        core.size_law();
        match kind {
            FieldKind::Chain => {
                if v >= LOWEST_UNITS && v < core.size() {
                    self.further(core, v)
                } else {
                    Err(Stop::Address)
                }
            }
            _ => kind.operand(core, ir, v),
        }
    }

    // The operand's address, if its chain goes on with the further field at `at`. It is inlined: the answer of a call would first
    // be put into memory, and then taken apart again.
    #[inline(always)]
    fn further(&mut self, core: &Core<M>, at: u32) -> Result<u32, Stop>
        requires field { 4 ≤ at }
        requires in_core { at < size M }
        ensures is { result ≡ further core.now at }
        ensures in_core { IfOk result (λ a. a < size M) }
    {
        match self.known(core, at) {
            Some(a) => Ok(a),
            None => self.follow(core, at),
        }
    }

    // The address that the chain from `at` leads to, if all of its fields are kept.
    #[inline(always)]
    fn known(&self, core: &Core<M>, at: u32) -> Option<u32>
        requires field { 4 ≤ at }
        requires in_core { at < size M }
        ensures { IfSome result (λ a. (further core.now at ≡ Ok a) × (a < size M)) }
    {
        core.size_law();
        let mut u = at;
        for _field in 0..MOST_FIELDS {
            let e = &self.entries[(u % 64) as usize];
            if !e.is_at(core, u) {
                return None;
            }
            if !e.flagged {
                return Some(e.number);
            }
            u = e.number;
        }
        None
    }

    // The address that the chain from `at` leads to, by its fields in core.
    #[inline(never)]
    fn follow(&mut self, core: &Core<M>, at: u32) -> Result<u32, Stop>
        requires field { 4 ≤ at }
        requires in_core { at < size M }
        ensures is { result ≡ further core.now at }
        ensures in_core { IfOk result (λ a. a < size M) }
    {
        let to = further(core, at)?;
        let last = self.followed[(at % 64) as usize];
        if last.at == at && last.to == to {
            self.learn(core, at);
        } else {
            self.followed[(at % 64) as usize] = Followed { at, to };
        }
        Ok(to)
    }

    // Keeps the chain's fields, up to the first that can't be kept. Only a chain that leads to one address twice is kept again.
    #[cold]
    #[inline(never)]
    fn learn(&mut self, core: &Core<M>, at: u32)
        requires field { 4 ≤ at }
        requires in_core { at < size M }
    {
        core.size_law();
        self.followed[(at % 64) as usize] = Followed { at: 0, to: 0 };
        let mut u = at;
        for _field in 0..MOST_FIELDS {
            match FurtherField::read(core, u) {
                Some(e) => {
                    self.entries[(u % 64) as usize] = e;
                    if !e.flagged {
                        return;
                    }
                    u = e.number;
                }
                None => return,
            }
        }
    }
}
