// The seek and the transfers.
ghost use Rattle.std.specs.Prelude.{◌≡◌, ◌≤◌, ◌<◌, ◌*◌};
ghost use Rattle.digit_core.specs.Size.{size};
ghost use Rattle.outside_io.specs.declared.host.TheConstants.{ALL_SECTORS};
ghost use Rattle.disk_1311.specs.Disk.{seek, transfer, group_check, transfer_trace};
ghost use Rattle.disk_1311.specs.declared.control.TheConstants.{DRIVE_SECTORS};
ghost use Rattle.disk_1311.specs.DiskCalls.{disk_moment, Seeks, Transfers};
ghost use Rattle.disk_1311.specs.Moving.{LooksForMark};

use crate::control::{Control, DRIVE_SECTORS, control_field, cylinder_of};
use crate::sector::move_sector;
use crate::{DRIVES, DiskIo, DiskKind};
use addr_indirect::{Stop, read_at};
use digit_core::{Core, GROUP_MARK};
use indicators::{CYLINDER_OVERFLOW, DISK_ADDRESS, DISK_LENGTH, Panel};
use outside_io::{ALL_SECTORS, Host, SECTOR_LENGTH};

/// Moves the arm of a drive to a sector's cylinder.
///
/// The control field is the 14 digits from `at`, an address, 00000 to N-1: the drive 1 to 4, the sector of five digits, then a
/// count and a core address that mean nothing here. A sector below 20,000 sets the drive's arm to its cylinder, `sector / 200`; any
/// other turns on the address check 36, and the arm stays.
///
/// Stops: 2 if the control field goes past the end of core; 4, 5 and 3 for a cell of even parity, of a bad value and of a value over
/// 9, cell by cell; then 7 for a drive that is not there.
/// Source: 1311 manual, seek; the checks and their order are this project's own.
pub fn seek<const M: u32>(
    core: &Core<M>,
    at: u32,
    panel: &mut Panel,
    arms: &mut [u32; DRIVES],
) -> DiskIo
    requires { at < size M }
    ensures { Seeks (seek core.now at arms.old) panel.old arms.old panel.new arms.new result }
{
    match control_field(core, at, arms.len()) {
        Ok(control) => {
            if control.sector < DRIVE_SECTORS {
                arms[control.drive as usize - 1] = control.cylinder();
            } else {
                panel.set(DISK_ADDRESS, true);
            }
            DiskIo::Done
        }
        Err(stop) => DiskIo::Stop(stop),
    }
}

/// Reads, compares or writes sectors, one after another.
///
/// The control field is the 14 digits from `at`, an address, 00000 to N-1: the drive, the first sector, the count of sectors and the
/// core address. If the first sector does not exist, or the drive's arm is not at its cylinder, the address check 36 goes on and
/// nothing else happens. Otherwise the sectors move one by one, 100 cells each, from the core address upwards. R stores a sector's
/// digits. C compares them with the cells, and turns on 37 if a flag or a value differs. W reads the cells and then writes the sector.
/// At a sector of another cylinder the moving ends, and 38 goes on.
///
/// A byte of a sector is bad if it is not an object character: R stores an unflagged 0 for it, and R and C turn on 37. A byte that the
/// pack lacks is read as the character 0, and stays missing: R and C leave the pack as it is. At the end a G form reads the cell after
/// the sectors moved, and turns on 37 if the cell is not a group mark or lies past the end of core. Sectors that were moved before a
/// stop stay. `Failed` only if the host's count of faults rose: a first part is done then.
///
/// Stops: the stops of `seek`; 2 if the core address or a sector's 100 cells go past the end of core; 4 and 5 for a bad cell that C, W
/// or a G form reads.
/// Source: 1311 manual, read, check and write disk; all checks and their order are this project's own.
pub fn transfer<const M: u32, H: Host>(
    core: &mut Core<M>,
    at: u32,
    kind: DiskKind,
    panel: &mut Panel,
    arms: &[u32; DRIVES],
    host: &mut H,
) -> DiskIo
    requires { at < size M }
    ensures { let before = disk_moment core.old panel.old (H.seen host.old) in
        let after = disk_moment core.new panel.new (H.seen host.new) in
        Transfers (transfer kind core.old at arms.now) before after result }
{
    match control_field(core, at, arms.len()) {
        Ok(control) => {
            if !control.is_there(arms) {
                panel.set(DISK_ADDRESS, true);
                return DiskIo::Done;
            }
            if control.address >= core.size() {
                return DiskIo::Stop(Stop::Address);
            }
            move_sectors(kind, control, core, panel, host)
        }
        Err(stop) => DiskIo::Stop(stop),
    }
}

// Moves the sectors of a control field, one after another up to the end of the cylinder, and then looks for the group mark.
fn move_sectors<const M: u32, H: Host>(
    kind: DiskKind,
    control: Control,
    core: &mut Core<M>,
    panel: &mut Panel,
    host: &mut H,
) -> DiskIo
    requires drive { (1 ≤ control.drive) × (DRIVE_SECTORS * control.drive ≤ ALL_SECTORS) }
    requires sector { control.sector < DRIVE_SECTORS }
    requires count { control.count ≤ 999 }
    requires address { control.address < size M }
    ensures { let before = disk_moment core.old panel.old (H.seen host.old) in
        let after = disk_moment core.new panel.new (H.seen host.new) in
        Transfers (transfer_trace kind control core.old) before after result }
{
    let size = core.size();
    let cylinder = control.cylinder();
    let mut a = control.address;
    for sector in control.sector..control.sector + control.count {
        if cylinder_of(sector) != cylinder {
            panel.set(CYLINDER_OVERFLOW, true);
            return group_check(kind, core, a, panel);
        }
        if a + SECTOR_LENGTH as u32 > size {
            return DiskIo::Stop(Stop::Address);
        }
        match move_sector(kind, core, a, control.host_sector(sector), panel, host) {
            DiskIo::Done => a += SECTOR_LENGTH as u32,
            end => return end,
        }
    }
    group_check(kind, core, a, panel)
}

// Looks for a group mark at `a` if the kind of transfer asks for it. If `a` has no group mark, the read back check 37 goes on.
fn group_check<const M: u32>(kind: DiskKind, core: &Core<M>, a: u32, panel: &mut Panel) -> DiskIo
    ensures { LooksForMark (group_check kind core.now a) panel.old panel.new result }
{
    if !kind.is_group() {
        return DiskIo::Done;
    }
    if a >= core.size() {
        panel.set(DISK_LENGTH, true);
        return DiskIo::Done;
    }
    match read_at(core, a) {
        Ok(digit) => {
            if digit.value != GROUP_MARK {
                panel.set(DISK_LENGTH, true);
            }
            DiskIo::Done
        }
        Err(stop) => DiskIo::Stop(stop),
    }
}
