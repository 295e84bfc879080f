// The files of a job, and its pack before the job.
ghost use Rattle.std.specs.Prelude.{IfOk, ◌≤◌};
ghost use Rattle.outside_io.specs.declared.host.TheConstants.{ALL_SECTORS};
ghost use Rattle.outside_io.specs.World.{IsFresh};
ghost use Rattle.outside_io.specs.Mem.{mem_world};
ghost use Rattle.outside_io.specs.Quiet.{quiet_world};

use crate::texts::{NotTaken, add_bytes, add_line};
use outside_io::{ALL_SECTORS, MemHost, QuietHost, SECTOR_LENGTH, Unit};
use std::alloc::{AllocError, Global};

// The characters of a sector.
pub(crate) type Sector = [u8; SECTOR_LENGTH];

// A sector on which nothing was written.
pub(crate) const BLANK: Sector = [b'0'; SECTOR_LENGTH];

// The bytes of the files that a row gives its job, one for each unit that is no output, and the sectors that are written before the job begins.
#[derive(Drop)]
pub(crate) struct Files {
    alloc: Global,
    // The files that have a line.
    texts: Vec<(Unit, Vec<u8>)>,
    sectors: Vec<(u32, Sector)>,
}

impl Files {
    // Empty files.
    pub(crate) fn new(alloc: Global) -> Files {
        Files {
            alloc,
            texts: Vec::new(alloc),
            sectors: Vec::new(alloc),
        }
    }

    // The bytes of a unit's file.
    fn bytes(&self, unit: Unit) -> &[u8] {
        for (known, bytes) in &self.texts {
            if *known == unit {
                return bytes;
            }
        }
        &[]
    }

    // Adds bytes to a unit's file.
    fn add_bytes(&mut self, unit: Unit, more: &[u8]) -> Result<(), AllocError> {
        for (known, bytes) in &mut self.texts {
            if *known == unit {
                return bytes.extend_from_slice(more);
            }
        }
        let mut bytes = Vec::new(self.alloc);
        bytes.extend_from_slice(more)?;
        self.texts.push((unit, bytes))?;
        Ok(())
    }

    // Adds a line to a unit's file.
    pub(crate) fn add(&mut self, unit: Unit, line: &str) -> Result<(), NotTaken> {
        let mut bytes = Vec::new(self.alloc);
        add_line(&mut bytes, line)?;
        self.add_bytes(unit, &bytes)?;
        Ok(())
    }

    // Adds the cards of a deck.
    pub(crate) fn add_deck(&mut self, cards: &[u8]) -> Result<(), AllocError> {
        self.add_bytes(Unit::Deck, cards)
    }

    // Adds all sectors of a host to the pack's file, up to the last sector that is not blank.
    pub(crate) fn add_pack(&mut self, host: &MemHost) -> Result<(), AllocError> {
        for a in 0..sectors_up_to_the_last(host) {
            self.add_bytes(Unit::Pack, &host.sector(a))?;
        }
        Ok(())
    }

    // Adds a sector that is written before the job begins; characters that the text lacks are zeros.
    pub(crate) fn add_sector(&mut self, a: u32, text: &str) -> Result<(), NotTaken> {
        let mut bytes = Vec::new(self.alloc);
        add_bytes(&mut bytes, text)?;
        let n = bytes.len();
        if n > SECTOR_LENGTH {
            return Err(NotTaken::Unknown);
        }
        let mut sector = BLANK;
        sector[..n].copy_from_slice(&bytes);
        self.sectors.push((a, sector))?;
        Ok(())
    }

    // A sector as the job finds it: from the pack's file if the pack is bound, else the sector that was written before.
    pub(crate) fn sector_before(&self, is_bound: bool, a: u32) -> Sector {
        if is_bound {
            return sector_in(self.bytes(Unit::Pack), a);
        }
        let mut found = BLANK;
        for (written, sector) in &self.sectors {
            if *written == a {
                found = *sector;
            }
        }
        found
    }

    // A host in memory with these files and sectors, whose outputs take `room` bytes each.
    pub(crate) fn host(&self, room: usize) -> Result<MemHost, AllocError>
        ensures { IfOk result (λ host. IsFresh (mem_world host)) }
    {
        let mut host = MemHost::new(self.alloc, room)?;
        for unit in Unit::ALL {
            if !unit.is_output() {
                host.file(unit.word(), self.bytes(unit))?;
            }
        }
        write_all(&mut host, &self.sectors);
        Ok(host)
    }

    // A quiet host with these files.
    pub(crate) fn quiet_host(&self) -> Result<QuietHost, AllocError>
        ensures { IfOk result (λ host. IsFresh (quiet_world host)) }
    {
        let mut host = QuietHost::new(self.alloc);
        for unit in Unit::ALL {
            if !unit.is_output() {
                host.file(unit.word(), self.bytes(unit))?;
            }
        }
        Ok(host)
    }
}

// How many sectors a host has up to the last sector that is not blank.
fn sectors_up_to_the_last(host: &MemHost) -> u32
    ensures { result ≤ ALL_SECTORS }
{
    let all = ALL_SECTORS as u32;
    for i in 0..all {
        let a = all - 1 - i;
        if host.sector(a) != BLANK {
            return a + 1;
        }
    }
    0
}

// Writes sectors to a host that no job has used yet.
fn write_all(host: &mut MemHost, sectors: &[(u32, Sector)])
    requires { IsFresh (mem_world host.old) }
    ensures { IsFresh (mem_world host.new) }
{
    for (a, sector) in sectors {
        if (*a as usize) < ALL_SECTORS {
            host.set_sector(*a, sector);
        }
    }
}

// A sector of a pack's file, with zeros for its missing bytes.
fn sector_in(pack: &[u8], a: u32) -> Sector {
    let mut sector = BLANK;
    let from = a as usize * SECTOR_LENGTH;
    if from < pack.len() {
        let rest = &pack[from..];
        let n = rest.len().min(SECTOR_LENGTH);
        sector[..n].copy_from_slice(&rest[..n]);
    }
    sector
}
