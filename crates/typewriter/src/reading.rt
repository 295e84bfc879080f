// Keyboard lines that are read into core.
ghost use Rattle.std.specs.Prelude.{◌≡◌, ◌<◌, ◌≤◌, ◌+◌, ◌-◌, ◌*◌, ◌/◌, ◌%◌, ℕ, [], length, take, IfOk, false};
ghost use Rattle.digit_core.specs.Size.{size};
ghost use Rattle.card_code.specs.Readings.{bad_from};
ghost use Rattle.card_code.specs.Reader.{unit_of, lines_handed_out, with_bad_stored, bytes_held, HasWhole, TakesNeeded};
ghost use Rattle.typewriter.specs.KeyCalls.{ReadsLineBy, ReadsLineAsSaid, line_stored_ending};
ghost use Rattle.card_code.specs.Feed.{station};
ghost use Rattle.typewriter.specs.Keys.{read_line_numeric, read_line_alphameric, NextKeyLine, TakesReading, GoesOnReadingLines};

use crate::typing::TypeIo;
use addr_indirect::Stop;
use card_code::{LineAnswer, Lines, ReadAs, store_digits, store_pairs};
use digit_core::Core;
use indicators::Panel;
use outside_io::Host;

/// Reads the digits of the keyboard's next line into core from `p` upwards, one digit for each character.
///
/// `p` is an address, 00000 to N-1. The line is taken first, and then its digits are stored one after another; an empty line is taken
/// and stores nothing. A bad character is stored as an unflagged 0, and turns on the read check 06 at once. `NoKeys` exactly if no line
/// is left. `Jam` exactly if the next line is over 80 bytes; the line stays, so each later call answers `Jam` too. `Failed` only if the
/// host's count of faults rose. These three leave core, panel and the lines of the keyboard as they were.
///
/// The line counts as read, and its bad characters that were stored are tallied, also if the instruction stops. A character for which
/// core had no room is not tallied. See [`Lines::bad_characters`].
///
/// No line is taken early: the host is asked only while the next line isn't held, so over a pipe a line is answered before the next
/// line is typed. This holds for all calls since the keyboard was made, as long as they only read lines: the unit Keys was asked only
/// when the lines taken or the next line needed bytes.
///
/// Stops: 2 if a digit's position is past the end of core; the digits before it stay, and the line is gone.
/// Source: CPU manual, read numerically; what a line is, the order of the parts, and the tally are this project's own.
pub fn read_num<const M: u32, H: Host>(
    core: &mut Core<M>,
    p: u32,
    panel: &mut Panel,
    keys: &mut Lines,
    host: &mut H,
) -> TypeIo
    requires { p < size M }
    ensures reads { let before = station core.old panel.old keys.old (H.seen host.old) in
        let after = station core.new panel.new keys.new (H.seen host.new) in
        ReadsLineBy (read_line_numeric (size M) p) before after result }
    ensures still { HasWhole (bytes_held keys.old) → H.seen host.new ≡ H.seen host.old }
    ensures needed { TakesNeeded keys.old (H.seen host.old) (H.seen host.new) }
    ensures unit { unit_of keys.new ≡ unit_of keys.old }
    ensures reads_on { GoesOnReadingLines keys.old keys.new (H.seen host.old) (H.seen host.new) }
    ensures as_said { ReadsLineAsSaid ReadAs.Digit (size M - p) keys.old keys.new (H.seen host.old) (H.seen host.new) result }
{
    match next_line(keys, host) {
        LineAnswer::Line(line) => {
            let text = line.as_bytes();
            let room = (core.size() - p) as usize;
            let stored = store_digits(core, p, text, panel);
            stored_ending(keys, ReadAs::Digit, text, room, stored, panel)
        }
        LineAnswer::End => TypeIo::NoKeys,
        LineAnswer::Jam(number) => TypeIo::Jam(number),
        LineAnswer::Failed => TypeIo::Failed,
    }
}

/// Reads the pairs of digits of the keyboard's next line into core from `p - 1` and `p` upwards, one pair for each character.
///
/// `p` is an odd address, below N. The line is taken first, and then its digits are stored one after another, without flags and the
/// zone first; an empty line is taken and stores nothing. A bad character is stored as 00, and turns on the read check 06 as its first
/// digit is stored. `NoKeys`, `Jam` and `Failed` are answered as by [`read_num`], and no line is taken early. The line and its bad
/// characters are counted as with [`read_num`]; a character counts as stored if both of its digits have room.
///
/// Stops: 2 if a digit's position is past the end of core; the digits before it stay, and the line is gone.
/// Source: CPU manual, read alphamerically; what a line is, the order of the parts, and the tally are this project's own.
pub fn read_alpha<const M: u32, H: Host>(
    core: &mut Core<M>,
    p: u32,
    panel: &mut Panel,
    keys: &mut Lines,
    host: &mut H,
) -> TypeIo
    requires in_core { p < size M }
    requires odd { p % 2 ≡ 1 }
    ensures reads { let before = station core.old panel.old keys.old (H.seen host.old) in
        let after = station core.new panel.new keys.new (H.seen host.new) in
        ReadsLineBy (read_line_alphameric (size M) p) before after result }
    ensures still { HasWhole (bytes_held keys.old) → H.seen host.new ≡ H.seen host.old }
    ensures needed { TakesNeeded keys.old (H.seen host.old) (H.seen host.new) }
    ensures unit { unit_of keys.new ≡ unit_of keys.old }
    ensures reads_on { GoesOnReadingLines keys.old keys.new (H.seen host.old) (H.seen host.new) }
    ensures as_said { ReadsLineAsSaid ReadAs.Pair ((size M - (p - 1)) / 2) keys.old keys.new (H.seen host.old) (H.seen host.new) result }
{
    match next_line(keys, host) {
        LineAnswer::Line(line) => {
            let text = line.as_bytes();
            let room = ((core.size() - (p - 1)) / 2) as usize;
            let stored = store_pairs(core, p - 1, text, panel);
            stored_ending(keys, ReadAs::Pair, text, room, stored, panel)
        }
        LineAnswer::End => TypeIo::NoKeys,
        LineAnswer::Jam(number) => TypeIo::Jam(number),
        LineAnswer::Failed => TypeIo::Failed,
    }
}

// Takes the next line.
fn next_line<H: Host>(keys: &mut Lines, host: &mut H) -> LineAnswer
    ensures next { NextKeyLine keys.old keys.new (H.seen host.old) (H.seen host.new) result }
    ensures still { HasWhole (bytes_held keys.old) → H.seen host.new ≡ H.seen host.old }
    ensures needed { TakesNeeded keys.old (H.seen host.old) (H.seen host.new) }
    ensures unit { unit_of keys.new ≡ unit_of keys.old }
    ensures reading { TakesReading keys.old keys.new (H.seen host.old) (H.seen host.new) result }
{
    keys.next_line(host)
}

// The answer of a reading, by the result of storing its line. The bad characters among those that core had room for are tallied. If the
// whole line was stored and 06 is off, no character was bad.
fn stored_ending(
    keys: &mut Lines,
    how: ReadAs,
    text: &[u8],
    room: usize,
    stored: Result<(), Stop>,
    panel: &Panel,
) -> TypeIo
    requires short { length text.now ≤ 80 }
    requires good { IfOk stored (λ _. panel.now.read_check ≡ false
        → bad_from (unit_of keys.old) (lines_handed_out keys.old) how 1 (take room text.now) ≡ []) }
    ensures tallied { keys.new ≡ with_bad_stored how (take room text.now) keys.old }
    ensures answer { result ≡ line_stored_ending stored }
{
    let first = &text[..text.len().min(room)];
    match stored {
        Ok(()) => {
            if panel.read_check {
                keys.take_up(how, first);
            }
            TypeIo::Done
        }
        Err(stop) => {
            keys.take_up(how, first);
            TypeIo::Stop(stop)
        }
    }
}
