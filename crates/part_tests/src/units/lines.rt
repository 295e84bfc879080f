// Lines over a host that cuts its bytes as it likes.
ghost use Rattle.std.specs.Prelude.{◌≤◌};
ghost use Rattle.outside_io.specs.Mem.{mem_seen};

use card_code::{Card, LineAnswer, Lines, More};
use core_texts::bound;
use outside_io::{Bound, Drive, Host, MemHost, Put, Take, Unit};
use std::alloc::Global;

// A host in memory that hands out at most `most` bytes at a time.
#[derive(Drop)]
struct Narrow {
    host: MemHost,
    most: usize,
    ghost some: { 1 ≤ most },
}

impl Host for Narrow {
    ghost seen = { λ narrow. mem_seen narrow.host };

    fn bind(&mut self, unit: Unit, name: &str) -> Bound {
        self.host.bind(unit, name)
    }

    fn take(&mut self, unit: Unit, buf: &mut [u8]) -> Take {
        let most = self.most.min(buf.len());
        self.host.take(unit, &mut buf[..most])
    }

    fn put(&mut self, unit: Unit, piece: &[u8]) -> Put {
        self.host.put(unit, piece)
    }

    fn read_sector(&mut self, a: u32, into: &mut [u8; 100]) -> Drive {
        self.host.read_sector(a, into)
    }

    fn write_sector(&mut self, a: u32, from: &[u8; 100]) -> Drive {
        self.host.write_sector(a, from)
    }
}

// The lines of a deck, and the host that they come from.
#[derive(Drop)]
struct Reader {
    host: Narrow,
    lines: Lines,
}

impl Reader {
    // The lines of these bytes. The host hands out `most` bytes at a time; its call number `fails` fails. None without memory.
    fn new(alloc: Global, bytes: &[u8], most: usize, fails: u64) -> Option<Reader> {
        let mut host = MemHost::new(alloc, 0).ok()?;
        host.file("deck", bytes).ok()?;
        bound(host.bind(Unit::Deck, "deck")).ok()?;
        host.fail(fails).ok()?;
        Some(Reader {
            host: Narrow {
                host,
                most: most.max(1),
            },
            lines: Lines::new(Unit::Deck),
        })
    }

    fn next(&mut self) -> LineAnswer {
        self.lines.next_line(&mut self.host)
    }

    fn more(&mut self) -> More {
        self.lines.more(&mut self.host)
    }

    // Whether the next answer is a line of this text.
    fn reads(&mut self, text: &[u8]) -> bool {
        is_line(self.next(), text)
    }

    // Whether the next answer is a jam at the line of this number.
    fn jams(&mut self, number: u64) -> bool {
        match self.next() {
            LineAnswer::Jam(n) => n == number,
            _ => false,
        }
    }
}

// Whether the answer is a line of this text.
fn is_line(answer: LineAnswer, text: &[u8]) -> bool {
    match answer {
        LineAnswer::Line(line) => line.as_bytes() == text,
        _ => false,
    }
}

const FULL: &[u8] = &[b'x'; 80];

// 50 full lines of 82 bytes each, and then a line of each kind.
fn long_deck() -> [u8; 4_116] {
    let mut bytes = [b'x'; 4_116];
    for k in 0..50usize {
        bytes[82 * k + 80] = b'\r';
        bytes[82 * k + 81] = b'\n';
    }
    bytes[4_100..].copy_from_slice(b"ab\r\n\n\r\ncd\r\r\nlast");
    bytes
}

// Whether the lines of the long deck are the full lines and then the wanted lines, with `most` bytes handed out at a time.
fn reads_long_deck(alloc: Global, most: usize, wanted: &[&[u8]]) -> bool {
    let Some(mut reader) = Reader::new(alloc, &long_deck(), most, 0) else {
        return false;
    };
    for _ in 0..50usize {
        if !reader.reads(FULL) {
            return false;
        }
    }
    for &one in wanted {
        if reader.more() != More::Yes || !reader.reads(one) {
            return false;
        }
    }
    reader.more() == More::No && matches!(reader.next(), LineAnswer::End)
}

#[test]
fn lines_are_the_same_however_they_are_cut(rt: HostRuntime) {
    let wanted: [&[u8]; 5] = [b"ab", b"", b"", b"cd\r", b"last"];
    for most in [1usize, 2, 3, 79, 80, 81, 4_095, 4_096] {
        assert!(rt; reads_long_deck(rt.alloc(), most, &wanted));
    }
}

// Whether the third line jams and stays, if these bytes, at most 4, follow its first 80 bytes.
fn jams_at_the_third_line(alloc: Global, behind: &[u8], most: usize) -> bool {
    if behind.len() > 4 {
        return false;
    }
    let mut bytes = [b'x'; 88];
    bytes[..4].copy_from_slice(b"1\n2\n");
    let end = 84 + behind.len();
    bytes[84..end].copy_from_slice(behind);
    let Some(mut reader) = Reader::new(alloc, &bytes[..end], most, 0) else {
        return false;
    };
    reader.reads(b"1")
        && reader.reads(b"2")
        && reader.jams(3)
        && reader.jams(3)
        && reader.more() == More::Yes
}

#[test]
fn a_line_over_80_bytes_jams_and_stays(rt: HostRuntime) {
    // The bytes that follow the first 80 bytes of the third line.
    let behind: [&[u8]; 4] = [b"y\n", b"\r\r\n", b"\ry\n", b"y"];
    for one in behind {
        assert!(rt; jams_at_the_third_line(rt.alloc(), one, 1));
        assert!(rt; jams_at_the_third_line(rt.alloc(), one, 40));
        assert!(rt; jams_at_the_third_line(rt.alloc(), one, 4_096));
    }
}

// Whether exactly one answer is a failure, and the lines are these nonetheless, with three bytes handed out at a time.
fn reads_behind_a_fault(alloc: Global, bytes: &[u8], fails: u64, texts: &[&[u8]]) -> bool {
    let Some(mut reader) = Reader::new(alloc, bytes, 3, fails) else {
        return false;
    };
    let mut failed = false;
    for &one in texts {
        let mut answer = reader.next();
        if matches!(answer, LineAnswer::Failed) {
            if failed {
                return false;
            }
            failed = true;
            answer = reader.next();
        }
        if !is_line(answer, one) {
            return false;
        }
    }
    failed
}

// Whether the reader knows after a failure that a byte is left.
fn knows_more_behind_a_fault(alloc: Global) -> bool {
    let Some(mut reader) = Reader::new(alloc, b"a", 1, 2) else {
        return false;
    };
    reader.more() == More::Failed && reader.more() == More::Yes
}

#[test]
fn after_a_fault_the_lines_are_as_before(rt: HostRuntime) {
    // The binding is call 1; three bytes are taken at a time.
    let texts: [&[u8]; 3] = [b"abcd", b"ef", b"g"];
    for fails in [2u64, 3, 4, 5] {
        assert!(rt; reads_behind_a_fault(rt.alloc(), b"abcd\nef\ng", fails, &texts));
    }
    assert!(rt; knows_more_behind_a_fault(rt.alloc()));
}

// Whether two lines are handed out before the call that fails, and no byte is left after it.
fn needs_no_more(alloc: Global, most: usize, unneeded: u64) -> bool {
    let Some(mut reader) = Reader::new(alloc, b"1\n2\n", most, unneeded) else {
        return false;
    };
    reader.reads(b"1")
        && reader.reads(b"2")
        && reader.more() == More::Failed
        && reader.more() == More::No
}

#[test]
fn nothing_is_taken_before_it_is_needed(rt: HostRuntime) {
    // How many bytes are taken at a time, and the first call that the two lines don't need. The binding is call 1.
    for (most, unneeded) in [(4_096usize, 3u64), (4, 3), (3, 4), (2, 4), (1, 6)] {
        assert!(rt; needs_no_more(rt.alloc(), most, unneeded));
    }
}

// Whether a line of 90 bytes jams: call 2 takes 82 of its bytes, and call 3 fails if it is made.
fn jams_with_no_more_calls(alloc: Global) -> bool {
    let Some(mut reader) = Reader::new(alloc, &[b'x'; 90], 82, 3) else {
        return false;
    };
    reader.jams(1) && reader.jams(1) && reader.more() == More::Yes
}

#[test]
fn a_jam_asks_the_host_no_more(rt: HostRuntime) {
    // Call 2 takes 82 bytes of the line and no LF: no valid line begins like this.
    assert!(rt; jams_with_no_more_calls(rt.alloc()));
}

// Whether the line of this text gives a card with these columns.
fn stands_for(alloc: Global, text: &[u8], columns: [u8; 80]) -> bool {
    let Some(mut reader) = Reader::new(alloc, text, 80, 0) else {
        return false;
    };
    match reader.next() {
        LineAnswer::Line(line) => line.to_card() == Card(columns),
        _ => false,
    }
}

#[test]
fn a_line_stands_for_a_card(rt: HostRuntime) {
    let mut columns = [b' '; 80];
    columns[..3].copy_from_slice(b"12|");
    assert!(rt; stands_for(rt.alloc(), b"12|", columns));
}

// Whether the first line is answered before the reader asks the host for the second line. The host hands out a line at a time,
// and the call after the first line fails.
fn is_answered_first(alloc: Global) -> bool {
    let Some(mut reader) = Reader::new(alloc, b"1\n2\n", 2, 3) else {
        return false;
    };
    reader.reads(b"1") && matches!(reader.next(), LineAnswer::Failed) && reader.reads(b"2")
}

#[test]
fn a_line_is_answered_before_the_next_one_is_asked_for(rt: HostRuntime) {
    assert!(rt; is_answered_first(rt.alloc()));
}
