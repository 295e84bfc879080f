// A job over files.
use crate::asked::is_asked;
use crate::fresh::Fresh;
use crate::start::{NoStart, room_for};
use command_line::Read;
use finished_job::{Counting, Sink, do_read_job};
use outside_io::RealHost;

// Does what the words say over files, writes its message on `errors`, and answers the code. A job that ends before it makes the
// texts of its source leaves no new empty file for them.
pub(crate) fn do_over_files<S: Sink>(
    rt: &HostRuntime,
    words: &[String],
    errors: &mut S,
) -> Result<u8, NoStart> {
    let read = Read::of(rt.alloc(), words);
    let room = room_for(rt, &read)?;
    let fresh = Fresh::before(rt, &read);
    let mut host = Counting::over(RealHost::with_pack_room(rt, room));
    let code = do_read_job(rt.alloc(), &read, is_asked(rt), &mut host, errors);
    if ends_before_texts(code) {
        fresh.remove_empty(rt);
    }
    Ok(code)
}

// Whether a job with this code may have ended before it made the texts of its source: because of the source itself or its length,
// the script or the commands, or because the host failed or had no memory. With any other code an empty image is right.
fn ends_before_texts(code: u8) -> bool {
    matches!(code, 1 | 7 | 8 | 10 | 11 | 13)
}
