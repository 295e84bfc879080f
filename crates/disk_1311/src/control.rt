// The control field: its digits in core.
ghost use Rattle.std.specs.Prelude.{◌≡◌, ◌≤◌, ◌<◌, ◌*◌, IfOk, length};
ghost use Rattle.digit_core.specs.Size.{size};
ghost use Rattle.disk_1311.specs.Control.{number_of_digits, control_field};
ghost use Rattle.disk_1311.specs.Disk.{cylinder_of};

use crate::DRIVES;
use addr_indirect::{Stop, decimal_at};
use digit_core::Core;
use outside_io::ALL_SECTORS;

// The number of sectors of a drive: the drives share the sectors of the pack.
pub(crate) const DRIVE_SECTORS: u32 = ALL_SECTORS as u32 / DRIVES as u32;

// The number of digits of a control field.
const CONTROL_LENGTH: usize = 14;

/// The number of sectors of a cylinder.
///
/// Source: 1311 manual.
pub const CYLINDER_SECTORS: u32 = 200;

// The contents of a control field: the drive, the first sector, the count of sectors, and their address in core.
#[derive(Clone, Copy)]
pub(crate) struct Control {
    pub(crate) drive: u32,
    pub(crate) sector: u32,
    pub(crate) count: u32,
    pub(crate) address: u32,
}

impl Control {
    ghost use Rattle.disk_1311.specs.Disk.{cylinder_of, host_sector, is_there};
    ghost use Rattle.disk_1311.specs.declared.control.TheConstants.{DRIVE_SECTORS};

    // The cylinder of the first sector.
    pub(crate) fn cylinder(&self) -> u32
        ensures { result ≡ cylinder_of self.now.sector }
    {
        cylinder_of(self.sector)
    }

    // The host's sector of one of the drive's sectors.
    pub(crate) fn host_sector(&self, sector: u32) -> u32
        requires drive { (1 ≤ self.now.drive) × (self.now.drive ≤ 9) }
        requires sector { sector < DRIVE_SECTORS }
        ensures { result ≡ host_sector self.now.drive sector }
    {
        DRIVE_SECTORS * (self.drive - 1) + sector
    }

    // Whether the sector exists, and the drive's arm is at its cylinder.
    pub(crate) fn is_there(&self, arms: &[u32; DRIVES]) -> bool
        requires { (1 ≤ self.now.drive) × (self.now.drive ≤ length arms.now) }
        ensures { result ≡ is_there self.now arms.now }
    {
        self.sector < DRIVE_SECTORS && self.cylinder() == arms[self.drive as usize - 1]
    }
}

// The cylinder of a sector.
pub(crate) fn cylinder_of(sector: u32) -> u32
    ensures { result ≡ cylinder_of sector }
{
    sector / CYLINDER_SECTORS
}

// The control field at `at`, for this number of drives. Its 14 cells are read upwards, and then the drive is checked.
pub(crate) fn control_field<const M: u32>(
    core: &Core<M>,
    at: u32,
    drives: usize,
) -> Result<Control, Stop>
    requires { at < size M }
    ensures is { result ≡ control_field core.now at drives }
    ensures drive { IfOk result (λ c. (1 ≤ c.drive) × (c.drive ≤ drives)) }
    ensures sector { IfOk result (λ c. c.sector ≤ 99999) }
    ensures count { IfOk result (λ c. c.count ≤ 999) }
    ensures address { IfOk result (λ c. c.address ≤ 99999) }
{
    core.size_law();
    let mut digits = [0; CONTROL_LENGTH];
    for k in 0..CONTROL_LENGTH {
        digits[k] = decimal_at(core, at + k as u32)?.value;
    }
    let control = Control {
        drive: number_of_digits(&digits[..1]),
        sector: number_of_digits(&digits[1..6]),
        count: number_of_digits(&digits[6..9]),
        address: number_of_digits(&digits[9..]),
    };
    if control.drive >= 1 && control.drive as usize <= drives {
        Ok(control)
    } else {
        Err(Stop::Device)
    }
}

// The number of at most five digits, the highest first.
fn number_of_digits(digits: &[u8]) -> u32
    requires short { length digits.now ≤ 5 }
    ensures { result ≡ number_of_digits digits.now }
{
    let mut number = 0;
    for digit in digits {
        number = 10 * number + u32::from(*digit);
    }
    number
}
