//! Room for a core that is made later, when no memory may be taken any more.
//!
//! Source: this project's own.

ghost use Rattle.std.specs.Prelude.{◌≡◌, replicate};
ghost use Rattle.digit_core.specs.Cell.{zero_cell};
ghost use Rattle.digit_core.specs.Size.{IsSize, size};

use crate::standard_tables::AddTable;
use crate::{Core, MODULE_WORDS, ZEROS};
use std::alloc::{AllocError, Global};
use std::marker::Model;

/// Room for a core, of 20,000 cells for each unit of `M`.
///
/// It is reserved, but not touched before a core is made in it. So the system need not give a page of memory before.
#[derive(Drop)]
pub struct CoreRoom<const M: u32> {
    // Empty, with room for all words of a core.
    words: Vec<u64>,
}

impl<const M: u32> Model for CoreRoom<M> {
    ghost use Rattle.std.specs.Prelude.{⊤};
    ghost use Rattle.digit_core.specs.Packed.{IsRoom};

    ghost Value = { ⊤ };

    ghost view = { λ r. tt };

    ghost invariant = { λ r. IsRoom M r.words };
}

impl<const M: u32> CoreRoom<M> {
    /// Room for one core.
    ///
    /// `M` is 1, 2 or 3. The error is want of memory.
    pub fn new(alloc: Global) -> Result<Self, AllocError>
        requires { IsSize M }
    {
        Ok(CoreRoom {
            words: Vec::with_capacity(alloc, M as usize * MODULE_WORDS as usize)?,
        })
    }

    /// A core in this room, whose cells are all unflagged zeros.
    pub fn core(self) -> Core<M>
        ensures { result ≡ replicate (size M) zero_cell }
    {
        let CoreRoom { mut words } = self;
        match words.resize(M as usize * MODULE_WORDS as usize, ZEROS) {
            Ok(()) => {}
            Err(_) => unreachable!(),
        }
        Core {
            words,
            sound: true,
            add_table: AddTable::Unseen,
        }
    }
}
