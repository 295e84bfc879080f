// One sector: 100 object characters.
ghost use Rattle.std.specs.Prelude.{◌≡◌, ◌≤◌, ◌<◌, ◌+◌, ◌*◌, map, length, Ok};
ghost use Rattle.digit_core.specs.Size.{size};
ghost use Rattle.outside_io.specs.declared.host.TheConstants.{ALL_SECTORS};
ghost use Rattle.addr_indirect.specs.Reading.{read_up};
ghost use Rattle.traces.specs.Trace.{map_answer};
ghost use Rattle.traces.specs.Change.{Changed};
ghost use Rattle.card_code.specs.Characters.{object_digit, object_char};
ghost use Rattle.disk_1311.specs.Sector.{read_sector, compare_sector, differs};
ghost use Rattle.disk_1311.specs.Disk.{move_sector};
ghost use Rattle.disk_1311.specs.DiskCalls.{disk_moment};
ghost use Rattle.disk_1311.specs.Moving.{MovesSector, text_or_stop};

use crate::{DiskIo, DiskKind};
use addr_indirect::{Stop, read_at};
use card_code::{object_char, object_digit, object_word, put_object_chars};
use digit_core::{Core, Digit};
use indicators::{DISK_LENGTH, Panel};
use outside_io::{Drive, Host, SECTOR_LENGTH};

// A sector's digits are read, compared and written by ten words.
const TENS: usize = 10;

// The digit that is stored for a bad byte.
const ZERO: Digit = Digit {
    flag: false,
    value: 0,
};

// Reads, compares or writes one sector of the host, with the 100 cells from `a` upwards.
pub(crate) fn move_sector<const M: u32, H: Host>(
    kind: DiskKind,
    core: &mut Core<M>,
    a: u32,
    sector: u32,
    panel: &mut Panel,
    host: &mut H,
) -> DiskIo
    requires room { a + 100 ≤ size M }
    requires sector { sector < ALL_SECTORS }
    ensures { let before = disk_moment core.old panel.old (H.seen host.old) in
        let after = disk_moment core.new panel.new (H.seen host.new) in
        MovesSector (move_sector kind core.old a sector) sector before after result }
{
    match kind {
        DiskKind::Rdgn | DiskKind::Rdn => {
            let mut bytes = [0; SECTOR_LENGTH];
            match host.read_sector(sector, &mut bytes) {
                Drive::Done => {
                    read_sector(core, a, &bytes, panel);
                    DiskIo::Done
                }
                Drive::Failed => DiskIo::Failed,
            }
        }
        DiskKind::Cdgn | DiskKind::Cdn => {
            let mut bytes = [0; SECTOR_LENGTH];
            match host.read_sector(sector, &mut bytes) {
                Drive::Done => match compare_sector(core, a, &bytes, panel) {
                    Ok(()) => DiskIo::Done,
                    Err(stop) => DiskIo::Stop(stop),
                },
                Drive::Failed => DiskIo::Failed,
            }
        }
        DiskKind::Wdgn | DiskKind::Wdn => {
            let mut bytes = [0; SECTOR_LENGTH];
            match sector_text(core, a, &mut bytes) {
                Ok(()) => match host.write_sector(sector, &bytes) {
                    Drive::Done => DiskIo::Done,
                    Drive::Failed => DiskIo::Failed,
                },
                Err(stop) => DiskIo::Stop(stop),
            }
        }
    }
}

// Stores a sector's digits from `a` upwards. A bad byte is stored as a zero, and turns on the read back check.
fn read_sector<const M: u32>(
    core: &mut Core<M>,
    a: u32,
    bytes: &[u8; SECTOR_LENGTH],
    panel: &mut Panel,
)
    requires { a + 100 ≤ size M }
    ensures { Changed core.old panel.old (read_sector a bytes.now) core.new panel.new (Ok tt) }
{
    core.size_law();
    let i = a / 10;
    let j = a % 10;
    for k in 0..TENS {
        read_ten(core, i + k as u32, j, &bytes[10 * k..10 * k + 10], panel);
    }
}

// Stores the digits of ten bytes from cell number `j` of word `i` upwards, as one word if all ten are good.
#[inline]
fn read_ten<const M: u32>(core: &mut Core<M>, i: u32, j: u32, bytes: &[u8], panel: &mut Panel)
    requires place { j < 10 }
    requires room { 10 * i + j + 10 ≤ size M }
    requires ten { length bytes.now ≡ 10 }
    ensures { Changed core.old panel.old
        (read_sector (10 * i + j) bytes.now)
        core.new panel.new (Ok tt) }
{
    core.size_law();
    match object_word(bytes) {
        Some(word) => core.put_ten_digits_of(i, j, word),
        None => read_bytes(core, 10 * i + j, bytes, panel),
    }
}

// Stores the digits of bytes from `a` upwards, one by one.
#[cold]
#[inline(never)]
fn read_bytes<const M: u32>(core: &mut Core<M>, a: u32, bytes: &[u8], panel: &mut Panel)
    requires room { a + length bytes.now ≤ size M }
    ensures { Changed core.old panel.old (read_sector a bytes.now) core.new panel.new (Ok tt) }
{
    core.size_law();
    for (k, byte) in bytes.iter().enumerate() {
        let at = a + k as u32;
        match object_digit(*byte) {
            Some(digit) => core.put(at, digit),
            None => {
                core.put(at, ZERO);
                panel.set(DISK_LENGTH, true);
            }
        }
    }
}

// Compares a sector with the cells from `a` upwards. The read back check goes on if a byte is bad or differs from its cell.
fn compare_sector<const M: u32>(
    core: &Core<M>,
    a: u32,
    bytes: &[u8; SECTOR_LENGTH],
    panel: &mut Panel,
) -> Result<(), Stop>
    requires { a + 100 ≤ size M }
    ensures { Changed core.now panel.old
        (compare_sector core.now a bytes.now)
        core.now panel.new result }
{
    core.size_law();
    let i = a / 10;
    let j = a % 10;
    for k in 0..TENS {
        compare_ten(core, i + k as u32, j, &bytes[10 * k..10 * k + 10], panel)?;
    }
    Ok(())
}

// Compares ten bytes with the cells from cell number `j` of word `i` upwards, as one word if all ten are equal.
#[inline]
fn compare_ten<const M: u32>(
    core: &Core<M>,
    i: u32,
    j: u32,
    bytes: &[u8],
    panel: &mut Panel,
) -> Result<(), Stop>
    requires place { j < 10 }
    requires room { 10 * i + j + 10 ≤ size M }
    requires ten { length bytes.now ≡ 10 }
    ensures { Changed core.now panel.old
        (compare_sector core.now (10 * i + j) bytes.now)
        core.now panel.new result }
{
    core.size_law();
    if let Some(word) = object_word(bytes) {
        if word == core.ten_of(i, j) {
            return Ok(());
        }
    }
    compare_bytes(core, 10 * i + j, bytes, panel)
}

// Compares bytes with the cells from `a` upwards, one by one.
#[cold]
#[inline(never)]
fn compare_bytes<const M: u32>(
    core: &Core<M>,
    a: u32,
    bytes: &[u8],
    panel: &mut Panel,
) -> Result<(), Stop>
    requires { a + length bytes.now ≤ size M }
    ensures { Changed core.now panel.old
        (compare_sector core.now a bytes.now)
        core.now panel.new result }
{
    core.size_law();
    for (k, byte) in bytes.iter().enumerate() {
        let digit = read_at(core, a + k as u32)?;
        if differs(digit, *byte) {
            panel.set(DISK_LENGTH, true);
        }
    }
    Ok(())
}

// Whether a sector's byte is bad, or isn't the digit of the cell.
fn differs(digit: Digit, byte: u8) -> bool
    ensures { result ≡ differs digit (object_digit byte) }
{
    object_digit(byte) != Some(digit)
}

// Puts the characters of the cells from `a` upwards into the text, ten as one word if all ten are good.
fn sector_text<const M: u32>(
    core: &Core<M>,
    a: u32,
    text: &mut [u8; SECTOR_LENGTH],
) -> Result<(), Stop>
    requires { a + 100 ≤ size M }
    ensures { text_or_stop text.new result ≡ map_answer (map object_char) (read_up core.now a 100) }
{
    core.size_law();
    let i = a / 10;
    let j = a % 10;
    for k in 0..TENS {
        let word = core.ten_of(i + k as u32, j);
        if !put_object_chars(word, &mut text[10 * k..10 * k + 10]) {
            let chars = cell_chars(core, a + 10 * k as u32)?;
            text[10 * k..10 * k + 10].copy_from_slice(&chars);
        }
    }
    Ok(())
}

// The characters of ten cells from `a` upwards, one by one.
#[cold]
#[inline(never)]
fn cell_chars<const M: u32>(core: &Core<M>, a: u32) -> Result<[u8; 10], Stop>
    requires { a + 10 ≤ size M }
    ensures { result ≡ map_answer (map object_char) (read_up core.now a 10) }
{
    core.size_law();
    let mut chars = [0; 10];
    for k in 0..10 {
        chars[k] = object_char(read_at(core, a + k as u32)?);
    }
    Ok(chars)
}
