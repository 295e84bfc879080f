// The standard input, output and error, if the program begins with one of them closed.
use crate::start::NoStart;
use std::fs::File;
use std::os::fd::AsRawFd;

// The descriptors of the standard input, output and error are those below this one.
const FIRST_FREE: i32 = 3;

// The file that replaces each standard stream that was closed.
pub(crate) type HeldStreams = [Option<File>; 3];

// Opens an empty file that can only be read, for each standard stream that is closed. So no file of the job gets its descriptor
// while this file is held, and a write to it fails.
pub(crate) fn hold_standard(rt: &HostRuntime) -> Result<HeldStreams, NoStart> {
    let mut held = [None, None, None];
    for place in 0..3 {
        let file = File::open(rt, "/dev/null").map_err(NoStart::NoNull)?;
        if file.as_raw_fd() >= FIRST_FREE {
            break;
        }
        held[place] = Some(file);
    }
    Ok(held)
}
