// The host over files, in the folder where the test runs.
ghost use Rattle.std.specs.Prelude.{◌≡◌, false};
ghost use Rattle.outside_io.specs.World.{same_unit};

use crate::hosts::asked::{Ask, Reason, answers_all, holds, host_answers, made, outside_answers};
use crate::hosts::fake::Outside;
use outside_io::{Bound, Doing, Drive, Host, Put, RealHost, Take, Unit};
use std::fs;
use std::io::ErrorKind;
use std::os::unix::fs::symlink;

// Whether the second binding of a new host ends so, and the host then answers all questions as expected.
fn second_binding(
    rt: &HostRuntime,
    first: Unit,
    name: &str,
    second: Unit,
    other: &str,
    end: Bound,
    asks: &[Ask<'_>],
) -> bool
    requires { same_unit first second ≡ false }
{
    let mut host = RealHost::new(rt);
    if host.bind(first, name) == Bound::Failed {
        return false;
    }
    host.bind(second, other) == end && answers_all(rt, &mut host, asks)
}

// Whether the second of two units is bound without an error.
fn binds_both(
    rt: &HostRuntime,
    (first, name): (Unit, &str),
    (second, other): (Unit, &str),
) -> bool {
    let asks = [Ask::Trouble(None)];
    first.place() != second.place()
        && second_binding(rt, first, name, second, other, Bound::Yes, &asks)
}

// Whether the binding of the second of two units is refused, since the first has the file.
fn refuses(rt: &HostRuntime, (first, name): (Unit, &str), (second, other): (Unit, &str)) -> bool {
    let asks = [
        Ask::Trouble(Some((second, Doing::Open))),
        Ask::Reason(Reason::SameFile(first)),
    ];
    first.place() != second.place()
        && second_binding(rt, first, name, second, other, Bound::Failed, &asks)
}

// Three names of one file: its own, a hard link and a symbolic link.
const NAMES: [&str; 3] = ["same", "same_hard", "same_soft"];

// Whether a file was there and is removed.
fn removed(rt: &HostRuntime, name: &str) -> bool {
    fs::remove_file(rt, name).is_ok()
}

// Whether the file and its links were made again.
fn linked(rt: &HostRuntime) -> bool {
    for name in NAMES {
        removed(rt, name);
    }
    let file = made(rt, "same", b"abc");
    let hard = fs::hard_link(rt, "same", "same_hard").is_ok();
    let soft = symlink(rt, "same", "same_soft").is_ok();
    file && hard && soft
}

// Whether the binding of two units to these names of one file is refused or not, and the file keeps its bytes.
fn ends_so(rt: &HostRuntime, first: (Unit, &str), second: (Unit, &str), refused: bool) -> bool {
    let as_wanted = if refused {
        refuses(rt, first, second)
    } else {
        binds_both(rt, first, second)
    };
    as_wanted && holds(rt, "same", b"abc")
}

#[test]
fn a_file_that_would_be_written_is_bound_once(rt: HostRuntime) {
    // The first unit, the second unit, whether the first has the file by its first name and the second by another, or the other
    // way round, and whether the second is refused.
    let rows = [
        (Unit::Deck, Unit::Typed, true, true),
        (Unit::Punched, Unit::Data, false, true),
        (Unit::Script, Unit::Report, true, true),
        (Unit::Deck, Unit::Pack, false, true),
        (Unit::Pack, Unit::Source, true, true),
        (Unit::Object, Unit::Image, true, true),
        (Unit::Typed, Unit::Pack, false, true),
        (Unit::Deck, Unit::Keys, true, false),
    ];
    assert!(rt; linked(&rt));
    for other in NAMES {
        for (first, second, in_order, refused) in rows {
            let (a, b) = if in_order {
                ("same", other)
            } else {
                (other, "same")
            };
            assert!(rt; ends_so(&rt, (first, a), (second, b), refused));
        }
    }
    for (first, second) in [(Unit::Typed, Unit::Report), (Unit::Deck, Unit::Pack)] {
        assert!(rt; binds_both(&rt, (first, "/dev/null"), (second, "/dev/null")));
    }
    for name in NAMES {
        assert!(rt; removed(&rt, name));
    }
}

// An old output loses its bytes with the first new byte.
#[test]
fn an_old_output_stays_until_its_first_byte(rt: HostRuntime) {
    let before = b"of before".as_slice();
    let asks = [
        Ask::Holds("typed", before),
        Ask::Put(Unit::Typed, b"n", Put::Taken(1)),
        Ask::Holds("typed", b"n"),
        Ask::Put(Unit::Typed, b"ew", Put::Taken(2)),
        Ask::Holds("typed", b"new"),
    ];
    assert!(rt; made(&rt, "typed", before));
    assert!(rt; host_answers(&rt, Some((Unit::Typed, "typed", Bound::Yes)), &asks));
}

// An old output also loses its bytes with the first byte of the report. A pack keeps its bytes.
#[test]
fn the_report_empties_an_old_output(rt: HostRuntime) {
    let before = b"of before".as_slice();
    for (unit, after) in [(Unit::Punched, b"".as_slice()), (Unit::Pack, before)] {
        let asks = [
            Ask::Holds("old", before),
            Ask::Put(Unit::Report, b"HALT\n", Put::Taken(5)),
            Ask::Holds("old", after),
        ];
        assert!(rt; made(&rt, "old", before));
        assert!(rt; host_answers(&rt, Some((unit, "old", Bound::Yes)), &asks));
    }
}

// The file of a program that runs may be read and not written.
#[test]
fn a_pack_may_only_be_read(rt: HostRuntime) {
    let asks = [
        Ask::Read(0, b"\x7FELF"),
        Ask::Trouble(None),
        Ask::Rewrite(0, Drive::Failed),
        Ask::Trouble(Some((Unit::Pack, Doing::WriteSector))),
        Ask::Read(1, b""),
    ];
    assert!(rt; host_answers(&rt, Some((Unit::Pack, "/proc/self/exe", Bound::Yes)), &asks));
}

// A folder opens to be read, but gives no bytes.
#[test]
fn a_folder_is_no_input(rt: HostRuntime) {
    let asks = [
        Ask::Take(Unit::Deck, Take::Failed),
        Ask::Trouble(Some((Unit::Deck, Doing::Read))),
        Ask::Reason(Reason::System(ErrorKind::IsADirectory)),
    ];
    assert!(rt; host_answers(&rt, Some((Unit::Deck, ".", Bound::Yes)), &asks));
}

// The host reports a failed binding with its unit and the system's reason.
#[test]
fn a_failed_binding_tells_unit_and_cause(rt: HostRuntime) {
    for (unit, name, kind) in [
        (Unit::Report, ".", ErrorKind::IsADirectory),
        (Unit::Pack, ".", ErrorKind::IsADirectory),
        (Unit::Deck, "nowhere", ErrorKind::NotFound),
        (Unit::Typed, "nowhere/typed", ErrorKind::NotFound),
    ] {
        let asks = [
            Ask::Trouble(Some((unit, Doing::Open))),
            Ask::Reason(Reason::System(kind)),
        ];
        assert!(rt; host_answers(&rt, Some((unit, name, Bound::Failed)), &asks));
    }
}

// A full device takes no byte.
#[test]
fn a_full_device_tells_its_cause(rt: HostRuntime) {
    let asks = [
        Ask::Put(Unit::Typed, b"text", Put::Failed),
        Ask::Trouble(Some((Unit::Typed, Doing::Write))),
        Ask::Reason(Reason::System(ErrorKind::StorageFull)),
    ];
    assert!(rt; host_answers(&rt, Some((Unit::Typed, "/dev/full", Bound::Yes)), &asks));
}

// No unit can have the file that the standard output goes to.
#[test]
fn the_standard_output_is_bound_to_no_unit(rt: HostRuntime) {
    let outside = Outside::new(&rt, "screen");
    let refused = Ask::Reason(Reason::StandardOutput);
    assert!(rt; made(&rt, "screen", b"abc"));
    for (unit, name, end, ask) in [
        (Unit::Typed, "screen", Bound::Failed, refused),
        (Unit::Deck, "screen", Bound::Failed, refused),
        (Unit::Pack, "screen", Bound::Failed, refused),
        (Unit::Report, "other", Bound::Yes, Ask::Trouble(None)),
    ] {
        assert!(rt; outside_answers(&outside, Some((unit, name, end)), &[ask]));
    }
    assert!(rt; holds(&rt, "screen", b"abc"));
}

// The host waits for a standard output that is full, and a signal does no harm.
#[test]
fn a_full_standard_output_is_waited_for(rt: HostRuntime) {
    let outside = Outside::new(&rt, "/dev/null");
    let asks = [
        Ask::Put(Unit::Typed, b"text", Put::Taken(4)),
        Ask::Trouble(None),
    ];
    assert!(rt; outside_answers(&outside, None, &asks));
    assert!(rt; outside.waits() == 2);
}
