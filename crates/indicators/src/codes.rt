// The codes of the switches and indicators in branch instructions.

/// The code 01: program switch 1.
///
/// Source: CPU manual, branch indicator.
pub const SWITCH_1: u8 = 1;

/// The code 02: program switch 2.
///
/// Source: CPU manual, branch indicator.
pub const SWITCH_2: u8 = 2;

/// The code 03: program switch 3.
///
/// Source: CPU manual, branch indicator.
pub const SWITCH_3: u8 = 3;

/// The code 04: program switch 4.
///
/// Source: CPU manual, branch indicator.
pub const SWITCH_4: u8 = 4;

/// The code 06: the read check.
///
/// Source: CPU manual, branch indicator.
pub const READ_CHECK: u8 = 6;

/// The code 07: the write check.
///
/// Source: CPU manual, branch indicator.
pub const WRITE_CHECK: u8 = 7;

/// The code 09: the last card.
///
/// Source: CPU manual, branch indicator.
pub const LAST_CARD: u8 = 9;

/// The code 11: high or positive.
///
/// Source: CPU manual, branch indicator.
pub const HIGH: u8 = 11;

/// The code 12: equal or zero.
///
/// Source: CPU manual, branch indicator.
pub const EQUAL: u8 = 12;

/// The code 13: high or equal, which joins 11 and 12.
///
/// Source: CPU manual, branch indicator.
pub const HIGH_OR_EQUAL: u8 = 13;

/// The code 14: the overflow.
///
/// Source: CPU manual, branch indicator.
pub const OVERFLOW: u8 = 14;

/// The code 16: a cell of even parity at an even address.
///
/// Source: CPU manual, branch indicator.
pub const EVEN_PARITY: u8 = 16;

/// The code 17: a cell of even parity at an odd address.
///
/// Source: CPU manual, branch indicator.
pub const ODD_PARITY: u8 = 17;

/// The code 19: any check of reading, writing and parity, which joins 06, 07, 16 and 17.
///
/// Source: CPU manual, branch indicator; what it joins is this project's own.
pub const ANY_CHECK: u8 = 19;

/// The code 36: the disk address check.
///
/// Source: CPU manual, branch indicator.
pub const DISK_ADDRESS: u8 = 36;

/// The code 37: the disk's wrong length record or read back check.
///
/// Source: CPU manual, branch indicator.
pub const DISK_LENGTH: u8 = 37;

/// The code 38: the cylinder overflow.
///
/// Source: CPU manual, branch indicator.
pub const CYLINDER_OVERFLOW: u8 = 38;

/// The code 39: any disk check, which joins 36, 37 and 38.
///
/// Source: CPU manual, branch indicator; what it joins is this project's own.
pub const ANY_DISK_CHECK: u8 = 39;
