// The written sectors, which replace the sectors of the pack's file.
ghost use Rattle.std.specs.Prelude.{◌≡◌, ◌<◌, length, IfOk, slice_index_or};
ghost use Rattle.outside_io.specs.declared.host.TheConstants.{ALL_SECTORS};

use crate::{ALL_SECTORS, SECTOR_LENGTH};
use std::alloc::{AllocError, Global};

// The sectors that were written since the pack's file was bound.
#[derive(Drop)]
pub(crate) struct Sectors {
    written: Vec<Option<[u8; SECTOR_LENGTH]>>,
    ghost all: { length written.items ≡ ALL_SECTORS },
}

impl Sectors {
    ghost use Rattle.outside_io.specs.Pack.{IsUnwritten, Writes};

    // Room for all sectors; none is written.
    pub(crate) fn new(alloc: Global) -> Result<Self, AllocError>
        ensures { IfOk result IsUnwritten }
    {
        let mut written = Vec::with_capacity(alloc, ALL_SECTORS)?;
        written.resize(ALL_SECTORS, None)?;
        Ok(Sectors { written })
    }

    // Forgets all written sectors.
    pub(crate) fn clear(&mut self)
        ensures { IsUnwritten self.new }
    {
        self.written.fill(None);
    }

    // The bytes of a sector, None if it wasn't written.
    pub(crate) fn get(&self, a: u32) -> Option<[u8; SECTOR_LENGTH]>
        requires { a < ALL_SECTORS }
        ensures { result ≡ slice_index_or self.now.written.items a None }
    {
        self.written[a as usize]
    }

    // Writes a sector.
    pub(crate) fn set(&mut self, a: u32, text: &[u8; SECTOR_LENGTH])
        requires { a < ALL_SECTORS }
        ensures { Writes self.old self.new a text.now }
    {
        self.written[a as usize] = Some(*text);
    }
}
