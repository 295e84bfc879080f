// The host over files: the sectors of its pack.
use crate::hosts::asked::{Ask, Reason, answers_all, host_answers, made, outside_answers};
use crate::hosts::fake::Outside;
use outside_io::{Bound, Doing, Drive, Host, PackRoom, RealHost, Unit};
use std::test::Fail;

#[test]
fn a_sector_goes_to_the_file_behind_zeros(rt: HostRuntime) {
    let mut all = [b'0'; 2600];
    all[..30].fill(b'7');
    all[300..400].fill(b'3');
    all[2500..].fill(b'5');
    let asks = [
        Ask::Write(3, b'3', Drive::Done),
        Ask::Read(0, &all[..100]),
        Ask::Holds("pack", &all[..400]),
        Ask::Write(25, b'5', Drive::Done),
        Ask::Holds("pack", &all),
        Ask::Read(26, &[b'0'; 100]),
    ];
    assert!(rt; made(&rt, "pack", &[b'7'; 30]));
    assert!(rt; host_answers(&rt, Some((Unit::Pack, "pack", Bound::Yes)), &asks));
}

// A file of 250 bytes that takes no more.
#[test]
fn a_full_disk_fails_within_a_sector(rt: HostRuntime) {
    let outside = Outside::with_room(&rt, 250);
    let mut last = [b'0'; 100];
    last[..50].fill(b'2');
    let asks = [
        Ask::Write(1, b'1', Drive::Done),
        Ask::Write(2, b'2', Drive::Failed),
        Ask::Write(3, b'3', Drive::Failed),
        Ask::Trouble(Some((Unit::Pack, Doing::WriteSector))),
        Ask::Reason(Reason::NothingTaken),
        Ask::Read(0, &[b'7'; 100]),
        Ask::Read(1, &[b'1'; 100]),
        Ask::Read(2, &last),
        Ask::Read(3, &[b'0'; 100]),
    ];
    assert!(rt; made(&rt, "small", &[b'7'; 250]));
    assert!(rt; outside_answers(&outside, Some((Unit::Pack, "small", Bound::Yes)), &asks));
}

#[test]
fn without_a_file_the_pack_is_a_blank_one(rt: HostRuntime) {
    let asks = [
        Ask::Write(3, b'3', Drive::Done),
        Ask::Read(3, &[b'3'; 100]),
        Ask::Read(79_999, &[b'0'; 100]),
    ];
    assert!(rt; host_answers(&rt, None, &asks));
}

// All memory is taken before the first sector is written: no later call needs memory, and the last sector is reached at once.
#[test]
fn a_blank_pack_is_written_in_the_room_that_was_lent(rt: HostRuntime) -> Result<(), Fail> {
    let asks = [
        Ask::Write(79_999, b'9', Drive::Done),
        Ask::Write(40_000, b'4', Drive::Done),
        Ask::Read(79_999, &[b'9'; 100]),
        Ask::Read(40_000, &[b'4'; 100]),
        Ask::Read(79_998, &[b'0'; 100]),
        Ask::Trouble(None),
    ];
    let room = PackRoom::reserve(rt.alloc())?;
    let mut host = RealHost::with_pack_room(&rt, Some(room));
    assert!(rt; answers_all(&rt, &mut host, &asks));
    Ok(())
}

// A sector is written without an error.
const KEPT: [Ask<'_>; 2] = [Ask::Write(0, b'1', Drive::Done), Ask::Trouble(None)];

// Whether a second run can't bind the file while a first run has it, and the first run goes on.
fn is_locked(rt: &HostRuntime, unit: Unit, name: &str) -> bool {
    let refused = [
        Ask::Trouble(Some((unit, Doing::Open))),
        Ask::Reason(Reason::InUse),
    ];
    let mut first = RealHost::new(rt);
    first.bind(unit, name) == Bound::Yes
        && host_answers(rt, Some((unit, name, Bound::Failed)), &refused)
        && answers_all(rt, &mut first, &KEPT)
}

// After the first run a second run has the pack.
#[test]
fn a_pack_is_locked_for_a_run(rt: HostRuntime) {
    assert!(rt; is_locked(&rt, Unit::Pack, "locked"));
    assert!(rt; host_answers(&rt, Some((Unit::Pack, "locked", Bound::Yes)), &KEPT));
}
