//! The disk drives: the arm of each that seeks a cylinder, and the sectors that are read, compared and written.
//!
//! A drive has 20,000 sectors of 100 digits, 200 in a cylinder. The pack begins with the sectors of drive 1; the sectors of drive 2
//! follow, and so on. An instruction names a control field in core: 14 digits that give the drive, the first sector, the count of
//! sectors and the core address. A transfer is defined as a list of effects, in order.
#![tactic(auto)]

ghost use Rattle.std.specs.Prelude.{◌≡◌};

mod control;
mod disk;
mod sector;

use addr_indirect::Stop;
pub use control::CYLINDER_SECTORS;
pub use disk::{seek, transfer};

/// The number of drives, and so of arms.
///
/// Source: 1311 manual.
pub const DRIVES: usize = 4;

/// The transfers of sectors: read, compare or write, each with or without a look at a group mark after the sectors moved.
///
/// Source: 1311 manual, read, check and write disk.
#[derive(Clone, Copy, Debug, PartialEq, Eq)]
pub enum DiskKind {
    /// RDGN: reads sectors into core and looks at the group mark.
    Rdgn,
    /// CDGN: compares sectors with core and looks at the group mark.
    Cdgn,
    /// RDN: reads sectors into core.
    Rdn,
    /// CDN: compares sectors with core.
    Cdn,
    /// WDGN: writes sectors from core and looks at the group mark.
    Wdgn,
    /// WDN: writes sectors from core.
    Wdn,
}

impl DiskKind {
    ghost use Rattle.disk_1311.specs.Disk.{is_group};

    // Whether it looks at a group mark.
    fn is_group(self) -> bool
        ensures { result ≡ is_group self }
    {
        matches!(self, DiskKind::Rdgn | DiskKind::Cdgn | DiskKind::Wdgn)
    }
}

/// How a seek or a transfer ends.
///
/// Source: this project's own.
#[derive(Clone, Copy, Debug, PartialEq, Eq)]
pub enum DiskIo {
    /// All of it was done, or an indicator shows what was not done.
    Done,
    /// The instruction stopped. What was done before stays.
    Stop(Stop),
    /// The host failed: its count of faults rose, and a first part was done.
    Failed,
}
