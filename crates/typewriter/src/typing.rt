// What is typed: digits, pairs of digits, the end of core, and the control of the carriage.
ghost use Rattle.std.specs.Prelude.{◌≡◌, ◌<◌, ◌≤◌, ◌+◌, ◌*◌, ◌%◌, ℕ, IsTrue, [], drop, IfSome};
ghost use Rattle.digit_core.specs.Size.{size};
ghost use Rattle.outside_io.specs.declared.host.Unit.TheVariants as units;
ghost use Rattle.outside_io.specs.Whole.{Sends};
ghost use Rattle.traces.specs.Trace.{ends, does_all};
ghost use Rattle.card_code.specs.TextOut.{pair_char};
ghost use Rattle.typewriter.specs.Typing.{TypesTen, DumpsTen, write_numeric, write_alphameric, write_dump, control, is_control, Types, TypesPairs};
ghost use Rattle.typewriter.specs.Tens.{ArePairs};
ghost use Rattle.typewriter.specs.Line.{AddsChar, AddsAll, AddsPair};

use addr_indirect::{Stop, read_at};
use arrayvec::ArrayVec;
use card_code::{char_of_pair, object_char, object_chars, punch_alpha};
use digit_core::{Core, Digit, RECORD_MARK, are_good, digit_in, record_in};
use indicators::Panel;
use outside_io::{Host, Put, Sent, Unit, write_all};

// How many characters are typed in one call at most.
const LINE: usize = 80;

/// How an instruction of the typewriter ends. If it types, the answer is always `Done`, `Stop` or `Failed`.
///
/// Source: this project's own.
#[derive(Clone, Copy, Debug, PartialEq, Eq)]
pub enum TypeIo {
    /// It was completed.
    Done,
    /// It stopped.
    Stop(Stop),
    /// No line of the keyboard was left to be read; nothing was done.
    NoKeys,
    /// The line to be read is over 80 bytes; nothing was done. This is its number in the unit Keys, counted from 1.
    Jam(u64),
    /// The host failed: its count of faults rose.
    Failed,
}

/// Types the digits from `p` upwards, as object characters, up to a record mark, which is not typed.
///
/// `p` is an address, 00000 to N-1. Up to 80 characters are typed in one call of the host. What was typed before a stop stays. `Failed`
/// only if the host's count of faults rose: a first part is typed then.
///
/// Stops: 2 if no record mark comes before the end of core, 4 and 5 for a bad cell.
/// Source: CPU manual, write numerically.
pub fn write_num<const M: u32, H: Host>(core: &Core<M>, p: u32, host: &mut H) -> TypeIo
    requires { p < size M }
    ensures { Types (write_numeric core.now p) (H.seen host.old) (H.seen host.new) result }
{
    let mut line = ArrayVec::<u8, LINE>::new();
    let size = core.size();
    let mut from = p;
    while let Some(chars) = typed_ten(core, from) {
        match add_ten(&mut line, &chars, host) {
            Sent::Failed => return TypeIo::Failed,
            Sent::Done => {}
        }
        from += 10;
    }
    for a in from..size {
        let d = match read_at(core, a) {
            Ok(d) => d,
            Err(stop) => return end(&line, Err(stop), host),
        };
        if d.value == RECORD_MARK {
            return end(&line, Ok(()), host);
        }
        match add(&mut line, object_char(d), host) {
            Sent::Failed => return TypeIo::Failed,
            Sent::Done => {}
        }
    }
    end(&line, Err(Stop::Address), host)
}

/// Types the characters of the pairs of digits from `p - 1` and `p` upwards, up to a pair whose second digit is a record mark; this
/// pair is not typed.
///
/// `p` is an odd address, below N. The first digit of a pair is its zone, and its cell is read first; flags are ignored. A pair that
/// has no character is typed as a blank, and turns on the write check 07 when it is read. Up to 80 characters are typed in one call of
/// the host; the characters before a bad pair are typed before 07 goes on. What was typed before a stop stays, and 07 stays too.
/// `Failed` only if the host's count of faults rose: a first part is typed then.
///
/// Stops: 2 if no record mark comes before the end of core, 4 and 5 for a bad cell.
/// Source: CPU manual, write alphamerically; what a bad pair is typed as, and the order, are this project's own.
pub fn write_alpha<const M: u32, H: Host>(
    core: &Core<M>,
    p: u32,
    panel: &mut Panel,
    host: &mut H,
) -> TypeIo
    requires in_core { p < size M }
    requires odd { p % 2 ≡ 1 }
    ensures { TypesPairs (write_alphameric core.now p)
        panel.old (H.seen host.old) panel.new (H.seen host.new) result }
{
    let mut line = ArrayVec::<u8, LINE>::new();
    let size = core.size();
    let mut a = p - 1;
    while let Some(w) = five_pairs(core, a) {
        for k in 0..5 {
            let zone = digit_in(w, 2 * k);
            let number = digit_in(w, 2 * k + 1);
            match add_pair(&mut line, zone, number, panel, host) {
                Sent::Failed => return TypeIo::Failed,
                Sent::Done => {}
            }
        }
        a += 10;
    }
    while a < size {
        let zone = match read_at(core, a) {
            Ok(d) => d,
            Err(stop) => return end(&line, Err(stop), host),
        };
        let number = match read_at(core, a + 1) {
            Ok(d) => d,
            Err(stop) => return end(&line, Err(stop), host),
        };
        if number.value == RECORD_MARK {
            return end(&line, Ok(()), host);
        }
        match add_pair(&mut line, zone, number, panel, host) {
            Sent::Failed => return TypeIo::Failed,
            Sent::Done => {}
        }
        a += 2;
    }
    end(&line, Err(Stop::Address), host)
}

/// Types the digits from `p` to the end of core, as object characters; record marks are typed too.
///
/// `p` is an address, 00000 to N-1. Up to 80 characters are typed in one call of the host. What was typed before a stop stays. `Failed`
/// only if the host's count of faults rose: a first part is typed then.
///
/// Stops: 4 and 5 for a bad cell.
/// Source: CPU manual, dump numerically; that it ends with the last digit of core is this project's own.
pub fn dump<const M: u32, H: Host>(core: &Core<M>, p: u32, host: &mut H) -> TypeIo
    requires { p < size M }
    ensures { Types (write_dump core.now p) (H.seen host.old) (H.seen host.new) result }
{
    let mut line = ArrayVec::<u8, LINE>::new();
    let size = core.size();
    let mut from = p;
    while let Some(chars) = dumped_ten(core, from) {
        match add_ten(&mut line, &chars, host) {
            Sent::Failed => return TypeIo::Failed,
            Sent::Done => {}
        }
        from += 10;
    }
    for at in from..size {
        let d = match read_at(core, at) {
            Ok(d) => d,
            Err(stop) => return end(&line, Err(stop), host),
        };
        match add(&mut line, object_char(d), host) {
            Sent::Failed => return TypeIo::Failed,
            Sent::Done => {}
        }
    }
    end(&line, Ok(()), host)
}

// The characters of the ten cells from `a` upwards, if core has them, each holds a digit, and none is a record mark.
#[inline]
fn typed_ten<const M: u32>(core: &Core<M>, a: u32) -> Option<[u8; 10]>
    requires { a ≤ size M }
    ensures room { IfSome result (λ chars. a + 10 ≤ size M) }
    ensures is { IfSome result (TypesTen core.now a) }
{
    if core.size() - a < 10 {
        return None;
    }
    let w = core.ten(a);
    match record_in(w) {
        Some(_) => None,
        None => object_chars(w),
    }
}

// The characters of the ten cells from `a` upwards, if core has them and each holds a digit.
#[inline]
fn dumped_ten<const M: u32>(core: &Core<M>, a: u32) -> Option<[u8; 10]>
    requires { a ≤ size M }
    ensures room { IfSome result (λ chars. a + 10 ≤ size M) }
    ensures is { IfSome result (DumpsTen core.now a) }
{
    if core.size() - a < 10 {
        return None;
    }
    object_chars(core.ten(a))
}

// The word of the ten cells from `a` upwards, if core has them, each holds a digit, and none is a record mark.
#[inline]
fn five_pairs<const M: u32>(core: &Core<M>, a: u32) -> Option<u64>
    requires { a ≤ size M }
    ensures { IfSome result (ArePairs core.now a) }
{
    if core.size() - a < 10 {
        return None;
    }
    let w = core.ten(a);
    if !are_good(w) {
        return None;
    }
    match record_in(w) {
        Some(_) => None,
        None => Some(w),
    }
}

// Adds ten characters to the line. If they don't fit, the line is typed before.
fn add_ten<H: Host>(line: &mut ArrayVec<u8, LINE>, chars: &[u8; 10], host: &mut H) -> Sent
    ensures { AddsAll line.old.items chars.now line.new.items
        (H.seen host.old) (H.seen host.new) result }
{
    if line.try_extend_from_slice(chars).is_ok() {
        return Sent::Done;
    }
    match send(line, host) {
        Sent::Failed => Sent::Failed,
        Sent::Done => {
            let _fits = line.try_extend_from_slice(chars);
            Sent::Done
        }
    }
}

// Adds a character to the line. If the line is full, it is typed before.
fn add<H: Host>(line: &mut ArrayVec<u8, LINE>, c: u8, host: &mut H) -> Sent
    ensures { AddsChar line.old.items c line.new.items (H.seen host.old) (H.seen host.new) result }
{
    if !line.is_full() {
        line.push(c);
        return Sent::Done;
    }
    match send(line, host) {
        Sent::Failed => Sent::Failed,
        Sent::Done => {
            line.push(c);
            Sent::Done
        }
    }
}

// Adds the character of a pair to the line. Before the write check of a bad pair goes on, the line is typed.
fn add_pair<H: Host>(
    line: &mut ArrayVec<u8, LINE>,
    zone: Digit,
    number: Digit,
    panel: &mut Panel,
    host: &mut H,
) -> Sent
    ensures { AddsPair (pair_char zone number)
        line.old.items panel.old line.new.items panel.new
        (H.seen host.old) (H.seen host.new) result }
{
    match punch_alpha(zone.value, number.value) {
        Some(c) => add(line, c, host),
        None => match send(line, host) {
            Sent::Failed => Sent::Failed,
            Sent::Done => {
                line.push(char_of_pair(zone, number, panel));
                Sent::Done
            }
        },
    }
}

// Types the line, and empties it.
fn send<H: Host>(line: &mut ArrayVec<u8, LINE>, host: &mut H) -> Sent
    ensures sends { Sends (H.seen host.old) (H.seen host.new) units.Typed line.old.items result }
    ensures empty { line.new.items ≡ [] }
{
    let sent = write_all(host, Unit::Typed, line.as_slice());
    line.clear();
    sent
}

// Types the line, and then ends with this answer; `Failed` if the host failed.
fn end<H: Host>(line: &ArrayVec<u8, LINE>, answer: Result<(), Stop>, host: &mut H) -> TypeIo
    ensures { Types (does_all line.now.items (ends answer))
        (H.seen host.old) (H.seen host.new) result }
{
    match write_all(host, Unit::Typed, line.as_slice()) {
        Sent::Failed => TypeIo::Failed,
        Sent::Done => match answer {
            Ok(()) => TypeIo::Done,
            Err(stop) => TypeIo::Stop(stop),
        },
    }
}

/// Moves the typewriter's carriage: types a blank, a line feed or a tab.
///
/// `digit` is 1 for the blank, 2 for the line feed, which is byte 10, or 8 for the tab, which is byte 9. It never stops. `Failed` only
/// if the host's count of faults rose: nothing is typed then.
/// Source: CPU manual, typewriter control; the bytes are this project's own.
pub fn control<H: Host>(digit: u8, host: &mut H) -> TypeIo
    requires { IsTrue (is_control digit) }
    ensures { Types (control digit) (H.seen host.old) (H.seen host.new) result }
{
    let piece = [match digit {
        1 => b' ',
        2 => b'\n',
        _ => b'\t',
    }];
    match host.put(Unit::Typed, &piece) {
        Put::Failed => TypeIo::Failed,
        Put::Taken(_) => TypeIo::Done,
    }
}
