// Lines of two parts: a front and a text.
ghost use Rattle.std.specs.Prelude.{◌≡◌, ◌++◌, IfSome, true};
ghost use Rattle.outside_io.specs.{Sends, is_output};
ghost use Rattle.outside_io.specs.Lines.{with_line_feed};

use arrayvec::ArrayVec;
use outside_io::{Host, Sent, Unit, write_all};

// Room for a front, 45 bytes at most, a text of 80 bytes and its LF.
const WHOLE_LINE: usize = 128;

// The front, the text after it and LF, if there is room for all.
fn whole_line(front: &[u8], text: &[u8]) -> Option<ArrayVec<u8, WHOLE_LINE>>
    ensures { IfSome result (λ line. line.items ≡ front.now ++ with_line_feed text.now) }
{
    let mut line = ArrayVec::new();
    line.try_extend_from_slice(front).ok()?;
    line.try_extend_from_slice(text).ok()?;
    line.try_push(b'\n').ok()?;
    Some(line)
}

// Writes the front, the text after it and LF, one by one.
fn write_parts<H: Host>(unit: Unit, front: &[u8], text: &[u8], host: &mut H) -> Sent
    requires { is_output unit ≡ true }
    ensures { Sends (H.seen host.old) (H.seen host.new) unit (front.now ++ with_line_feed text.now) result }
{
    match write_all(host, unit, front) {
        Sent::Done => {}
        Sent::Failed => return Sent::Failed,
    }
    match write_all(host, unit, text) {
        Sent::Done => write_all(host, unit, b"\n"),
        Sent::Failed => Sent::Failed,
    }
}

// Writes the front, the text after it and LF, by one call if there is room for all.
pub(crate) fn write_ended<H: Host>(unit: Unit, front: &[u8], text: &[u8], host: &mut H) -> Sent
    requires { is_output unit ≡ true }
    ensures { Sends (H.seen host.old) (H.seen host.new) unit (front.now ++ with_line_feed text.now) result }
{
    match whole_line(front, text) {
        Some(whole) => write_all(host, unit, whole.as_slice()),
        None => write_parts(unit, front, text, host),
    }
}
