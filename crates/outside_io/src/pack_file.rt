// The sectors of a pack in its file: sector a begins at byte 100a. Each is read and written by its offset, so that the file's own
// position has no effect.
ghost use Rattle.std.specs.Prelude.{◌≡◌, ◌≤◌, ◌<◌, ◌+◌, ◌*◌, length, false, IsOk, OnOk, OnErr, IfNone};
ghost use Rattle.outside_io.specs.declared.host.TheConstants.{ALL_SECTORS, SECTOR_LENGTH};
ghost use Rattle.outside_io.specs.Scratch.{scratch_sectors, scratch_room, WritesScratch, KeepsScratch};

use crate::again;
use crate::host::SECTOR_LENGTH;
use crate::scratch::ScratchPack;
use crate::trouble::Cause;
use std::io::{Error, Seek, SeekFrom};
use std::os::unix::fs::FileExt;

// How many zeros are written at a time to fill up a file: the sectors of a cylinder.
const FILLING: usize = 20_000;

// Zeros to fill a file up with.
const ZEROS: [u8; FILLING] = [b'0'; FILLING];

// The byte of the file at which the sector begins.
fn start_of(a: u32) -> u64
    ensures { result ≡ SECTOR_LENGTH * a }
{
    SECTOR_LENGTH as u64 * u64::from(a)
}

// Reads a sector of the pack's file, or of the scratch pack if no file is in use.
pub(crate) fn read_sector<F: FileExt>(
    is_in_use: bool,
    pack: &Option<F>,
    scratch: &ScratchPack,
    a: u32,
    into: &mut [u8; SECTOR_LENGTH],
) -> Result<(), Cause>
    requires { a < ALL_SECTORS }
    ensures ok { IfNone pack.now (IsOk result) }
    ensures text { IfNone pack.now (into.new ≡ scratch_sectors scratch.now a) }
{
    match pack {
        Some(file) if is_in_use => read_from(file, a, into),
        _ => {
            scratch.copy_sector(a, into);
            Ok(())
        }
    }
}

// Writes a sector to the pack's file, or to the scratch pack if no file is in use. The scratch pack fails only if memory lacks.
// `has` is a number of bytes that the file is known to have.
pub(crate) fn write_sector<F: FileExt + Seek>(
    is_in_use: bool,
    pack: &mut Option<F>,
    has: &mut u64,
    scratch: &mut ScratchPack,
    a: u32,
    text: &[u8; SECTOR_LENGTH],
) -> Result<(), Cause>
    requires { a < ALL_SECTORS }
    ensures ok { IfNone pack.old (OnOk result (WritesScratch scratch.old scratch.new a text.now)) }
    ensures err { IfNone pack.old (OnErr result (KeepsScratch scratch.old scratch.new)) }
    ensures within { is_in_use ≡ false → a < scratch_room scratch.old → IsOk result }
    ensures room { scratch_room scratch.old ≤ scratch_room scratch.new }
{
    match pack {
        Some(file) if is_in_use => write_to(file, has, a, text),
        _ => match scratch.set(a, text) {
            Ok(()) => Ok(()),
            Err(error) => Err(Cause::System(Error::from(error))),
        },
    }
}

// Reads a sector, with zeros for the bytes that the file lacks. Not inlined, so that a pack in memory does not pay for it.
#[inline(never)]
fn read_from<F: FileExt>(file: &F, a: u32, into: &mut [u8; SECTOR_LENGTH]) -> Result<(), Cause> {
    let start = start_of(a);
    let mut n = 0;
    while n < SECTOR_LENGTH {
        match again::read_at(file, &mut into[n..], start + n as u64)? {
            0 => break,
            more => n += more,
        }
    }
    into[n..].fill(b'0');
    Ok(())
}

// Writes a sector, after filling up a file that ends before it. Not inlined, as `read_from`.
#[inline(never)]
fn write_to<F: FileExt + Seek>(
    file: &mut F,
    has: &mut u64,
    a: u32,
    text: &[u8; SECTOR_LENGTH],
) -> Result<(), Cause>
    requires { a < ALL_SECTORS }
{
    let start = start_of(a);
    fill_up(file, has, start)?;
    write_whole(file, text, start)?;
    *has = (start + SECTOR_LENGTH as u64).max(*has);
    Ok(())
}

// Fills up a shorter file with zeros, to `wanted` bytes. If `has` is less, the file's length is first taken from the system.
fn fill_up<F: FileExt + Seek>(file: &mut F, has: &mut u64, wanted: u64) -> Result<(), Cause>
    requires { wanted ≤ SECTOR_LENGTH * ALL_SECTORS }
{
    if *has < wanted {
        *has = file.seek(SeekFrom::End(0))?;
    }
    while *has < wanted {
        let n = (wanted - *has).min(FILLING as u64);
        write_whole(file, &ZEROS[..n as usize], *has)?;
        *has += n;
    }
    Ok(())
}

// Writes all the bytes from byte `from` of the file on, within a pack's length. A write that takes no byte is an error.
fn write_whole<F: FileExt>(file: &F, bytes: &[u8], from: u64) -> Result<(), Cause>
    requires { from + length bytes.now ≤ SECTOR_LENGTH * ALL_SECTORS }
{
    let mut n = 0;
    while n < bytes.len() {
        match again::write_at(file, &bytes[n..], from + n as u64)? {
            0 => return Err(Cause::NothingTaken),
            more => n += more,
        }
    }
    Ok(())
}
