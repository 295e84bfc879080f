// The pack of a host over files while no file is bound to it, and the room for all of it.
// Source: this project's own.
ghost use Rattle.std.specs.Prelude.{◌≡◌, ◌≤◌, ◌<◌, ℕ, [], length, vec_capacity, IfSome, IsOk, OnOk, OnErr};
ghost use Rattle.outside_io.specs.World.{blank_pack};
ghost use Rattle.outside_io.specs.declared.host.TheConstants.{ALL_SECTORS};

use crate::{ALL_SECTORS, SECTOR_LENGTH};
use std::alloc::{AllocError, Global};

/// The room for a blank pack: the memory of all its 80,000 sectors, 8,000,000 bytes.
///
/// It is reserved and not filled: if the system gives memory only when it is touched, a sector that is never used costs nothing.
#[derive(Drop)]
pub struct PackRoom {
    sectors: Vec<[u8; SECTOR_LENGTH]>,
    ghost empty: { sectors.items ≡ [] },
    ghost whole: { ALL_SECTORS ≤ vec_capacity sectors },
}

impl PackRoom {
    /// Reserves the room. The error is want of memory.
    pub fn reserve(alloc: Global) -> Result<Self, AllocError> {
        Ok(PackRoom {
            sectors: Vec::with_capacity(alloc, ALL_SECTORS)?,
        })
    }
}

// Sectors in memory: all zeros at first, and forgotten when the program ends. Without room of its own it takes the memory of the sectors up
// to the last one that was written.
#[derive(Drop)]
pub(crate) struct ScratchPack {
    sectors: Vec<[u8; SECTOR_LENGTH]>,
}

impl ScratchPack {
    ghost use Rattle.outside_io.specs.Scratch.{scratch_sectors, scratch_room, WritesScratch, KeepsScratch};

    // A blank pack in this room, or without memory yet if there is no room.
    pub(crate) fn new(alloc: Global, room: Option<PackRoom>) -> Self
        ensures blank { (a : ℕ) → scratch_sectors result a ≡ blank_pack a }
        ensures room { IfSome room (λ _. ALL_SECTORS ≤ scratch_room result) }
    {
        match room {
            Some(room) => ScratchPack {
                sectors: room.sectors,
            },
            None => ScratchPack {
                sectors: Vec::new(alloc),
            },
        }
    }

    // Copies the bytes of a sector.
    pub(crate) fn copy_sector(&self, a: u32, into: &mut [u8; SECTOR_LENGTH])
        requires { a < ALL_SECTORS }
        ensures { into.new ≡ scratch_sectors self.now a }
    {
        let a = a as usize;
        if a < self.sectors.len() {
            *into = self.sectors[a];
        } else {
            *into = [b'0'; SECTOR_LENGTH];
        }
    }

    // Adds blank sectors up to this one, if it has fewer.
    fn reach(&mut self, a: usize) -> Result<(), AllocError>
        requires { a < ALL_SECTORS }
        ensures reached { OnOk result (a < length self.new.sectors.items) }
        ensures same { KeepsScratch self.old self.new }
        ensures within { a < scratch_room self.old → IsOk result }
        ensures room { scratch_room self.old ≤ scratch_room self.new }
    {
        if self.sectors.len() <= a {
            self.sectors.resize(a + 1, [b'0'; SECTOR_LENGTH])?;
        }
        Ok(())
    }

    // Writes a sector. Within its room that takes no memory and cannot fail. If there is no memory for the sectors up to this
    // one, nothing changes.
    pub(crate) fn set(&mut self, a: u32, text: &[u8; SECTOR_LENGTH]) -> Result<(), AllocError>
        requires { a < ALL_SECTORS }
        ensures ok { OnOk result (WritesScratch self.old self.new a text.now) }
        ensures err { OnErr result (KeepsScratch self.old self.new) }
        ensures within { a < scratch_room self.old → IsOk result }
        ensures room { scratch_room self.old ≤ scratch_room self.new }
    {
        let a = a as usize;
        self.reach(a)?;
        self.sectors[a] = *text;
        Ok(())
    }
}
