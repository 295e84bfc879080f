// The disk drives.
//
// - `arm|N` sets all arms to cylinder N; `sector|A|TEXT` sets sector A to a text, with its last character repeated to the end
// - `SK|P` seeks; `RDGN|P`, `CDGN|P`, `RDN|P`, `CDN|P`, `WDGN|P`, `WDN|P` moves sectors by the control field at P
// - `arms|` shows the arms, `sectors|` each sector that is not a hundred zeros, in the form of the line `sector|`
use crate::desk::Desk;
use crate::lines::{RowLine, number, place};
use crate::texts::front;
use disk_1311::{DRIVES, DiskIo, DiskKind, seek, transfer};
use outside_io::{ALL_SECTORS, MemHost};
use std::alloc::{AllocError, Global};
use std::io;

// Sets a sector; None if there is no such sector, or no text.
fn set_sector(host: &mut MemHost, line: &RowLine<'_>) -> Option<()> {
    let a = number(line.first)?;
    let text = line.second.as_bytes();
    if a as usize >= ALL_SECTORS || text.is_empty() {
        return None;
    }
    let mut sector = [text[text.len() - 1]; 100];
    for (c, given) in sector.iter_mut().zip(text) {
        *c = *given;
    }
    host.set_sector(a, &sector);
    Some(())
}

// Sets the arms or a sector; None if the line is not known.
pub(crate) fn set<const M: u32>(desk: &mut Desk<M>, line: &RowLine<'_>) -> Option<()> {
    match line.name {
        "arm" => {
            desk.machine.arms = [number(line.first)?; DRIVES];
            Some(())
        }
        "sector" => set_sector(&mut desk.host, line),
        _ => None,
    }
}

// The transfer that a word names.
fn kind(name: &str) -> Option<DiskKind> {
    match name {
        "RDGN" => Some(DiskKind::Rdgn),
        "CDGN" => Some(DiskKind::Cdgn),
        "RDN" => Some(DiskKind::Rdn),
        "CDN" => Some(DiskKind::Cdn),
        "WDGN" => Some(DiskKind::Wdgn),
        "WDN" => Some(DiskKind::Wdn),
        _ => None,
    }
}

// Seeks, or moves sectors; None if the line is not known.
pub(crate) fn call<const M: u32>(desk: &mut Desk<M>, line: &RowLine<'_>) -> Option<DiskIo> {
    let machine = &mut desk.machine;
    let (core, panel) = (&mut machine.core, &mut machine.panel);
    let at = place(core, line.first)?;
    if line.name == "SK" {
        return Some(seek(core, at, panel, &mut machine.arms));
    }
    let kind = kind(line.name)?;
    Some(transfer(core, at, kind, panel, &machine.arms, &mut desk.host))
}

// A sector's text; a character that is repeated up to the end is there once.
fn shortened(alloc: Global, sector: &[u8; 100]) -> Result<String, AllocError> {
    let mut n = 1;
    for i in 1..100 {
        if sector[i] != sector[i - 1] {
            n = i + 1;
        }
    }
    front(alloc, sector, n)
}

// Prints each sector that is not a hundred zeros.
fn show_sectors<const M: u32>(rt: &impl Print, desk: &Desk<M>) -> io::Result<()> {
    for a in 0..ALL_SECTORS as u32 {
        let sector = desk.host.sector(a);
        if sector != [b'0'; 100] {
            println!(rt; "sector|{a}|{}", shortened(desk.alloc, &sector)?)?;
        }
    }
    Ok(())
}

// Prints the arms or the sectors; false if the line is not known.
pub(crate) fn show<const M: u32>(
    rt: &impl Print,
    desk: &Desk<M>,
    line: &RowLine<'_>,
) -> io::Result<bool> {
    match line.name {
        "arms" => println!(rt; "arms|{:?}", desk.machine.arms)?,
        "sectors" => show_sectors(rt, desk)?,
        _ => return Ok(false),
    }
    Ok(true)
}
