// Writing the sectors of a program.
// Source: this project's own.
ghost use Rattle.std.specs.Prelude.{◌≡◌, length};
ghost use Rattle.disk_loader.specs.Writes.{WritesSectors, image_sectors};

use crate::hundreds::{HUNDREDS, is_needed, sector_text};
use outside_io::{Drive, Host, Sent};
use sps_pass_two::Assembled;

/// How many sectors a program needs: one for each hundred that it needs, the hundreds of the standard tables included.
pub fn sector_count(assembled: &Assembled) -> u32
    ensures { result ≡ length (image_sectors assembled.now.image.pieces) }
{
    let mut count = 0;
    for h in 0..HUNDREDS {
        if is_needed(assembled, h) {
            count += 1;
        }
    }
    count
}

/// Writes the sectors of the hundreds that a program needs to drive 1, rising.
///
/// `Done`: they are written, and all other sectors are as before. `Failed` only if the host's count of faults rose: a first part
/// of the sectors was written, which may be empty or all.
pub fn write_sectors<H: Host>(assembled: &Assembled, host: &mut H) -> Sent
    ensures { WritesSectors (image_sectors assembled.now.image.pieces) (H.seen host.old) (H.seen host.new) result }
{
    for h in 0..HUNDREDS {
        match sector_text(assembled, h) {
            None => {}
            Some(text) => match host.write_sector(h, &text) {
                Drive::Done => {}
                Drive::Failed => return Sent::Failed,
            },
        }
    }
    Sent::Done
}
