// The hosts in memory: the names of units, and the sectors of packs.
use crate::hosts::asked::{reads, writes};
use outside_io::{Bound, Drive, Host, MemHost, QuietHost, Unit};
use std::alloc::Global;
use std::str;

// A host that has bound four units, the pack and the keys under these names, and whose fifth binding failed.
fn four_bound(alloc: Global, pack: &str, keys: &str) -> Option<MemHost> {
    let mut host = MemHost::new(alloc, 0).ok()?;
    host.fail(5).ok()?;
    let as_wanted = host.bind(Unit::Deck, "deck") == Bound::Yes
        && host.bind(Unit::Typed, "typed") == Bound::Yes
        && host.bind(Unit::Pack, pack) == Bound::Yes
        && host.bind(Unit::Keys, keys) == Bound::Yes
        && host.bind(Unit::Script, "script") == Bound::Failed;
    if as_wanted { Some(host) } else { None }
}

// Whether a host with four bound units has this name of the unit.
fn keeps_name(alloc: Global, pack: &str, keys: &str, unit: Unit, want: Option<&[u8]>) -> bool {
    match four_bound(alloc, pack, keys) {
        Some(host) => host.bound_name(unit) == want,
        None => false,
    }
}

#[test]
fn each_unit_keeps_the_name_that_it_is_bound_to(rt: HostRuntime) {
    let letters = [b'n'; 256];
    let long = str::from_utf8(&letters[..255]).unwrap_or("");
    let too_long = str::from_utf8(&letters).unwrap_or("");
    for (unit, want) in [
        (Unit::Deck, Some(b"deck".as_slice())),
        (Unit::Typed, Some(b"typed".as_slice())),
        (Unit::Pack, Some(&letters[..255])),
        (Unit::Keys, None),
        (Unit::Script, None),
        (Unit::Report, None),
    ] {
        assert!(rt; keeps_name(rt.alloc(), long, too_long, unit, want));
    }
}

// Whether a host reads the sector that was set, and writes another sector and no more.
fn writes_one_sector(alloc: Global) -> bool {
    let Ok(mut host) = MemHost::new(alloc, 0) else {
        return false;
    };
    host.set_sector(5, &[b'5'; 100]);
    reads(&mut host, 5, &[b'5'; 100])
        && writes(&mut host, 79_999, b'9', Drive::Done)
        && host.sector(79_999) == [b'9'; 100]
        && host.sector(5) == [b'5'; 100]
        && host.sector(6) == [b'0'; 100]
}

#[test]
fn sectors_are_written_one_by_one(rt: HostRuntime) {
    assert!(rt; writes_one_sector(rt.alloc()));
}

// A host whose sectors 1 and 3 were set before this file was bound as its pack.
fn pack_bound(alloc: Global, file: &[u8]) -> Option<MemHost> {
    let mut host = MemHost::new(alloc, 0).ok()?;
    host.file("pack", file).ok()?;
    host.set_sector(1, &[b'x'; 100]);
    host.set_sector(3, &[b'x'; 100]);
    match host.bind(Unit::Pack, "pack") {
        Bound::Yes => Some(host),
        Bound::Failed => None,
    }
}

// Whether sectors 1 to 3 of a host with this pack are these, and setting sector 2 changes no other.
fn has_sectors(alloc: Global, file: &[u8], sectors: &[[u8; 100]; 3], set: &[u8; 100]) -> bool {
    let Some(mut host) = pack_bound(alloc, file) else {
        return false;
    };
    let all = host.sector(1) == sectors[0]
        && host.sector(2) == sectors[1]
        && host.sector(3) == sectors[2];
    host.set_sector(2, set);
    all && host.sector(2) == *set && host.sector(1) == sectors[0]
}

#[test]
fn a_bound_pack_has_the_sectors_of_its_file(rt: HostRuntime) {
    let mut file = [b'1'; 250];
    file[200..].fill(b'2');
    let mut last = [b'0'; 100];
    last[..50].fill(b'2');
    let sectors = [[b'1'; 100], last, [b'0'; 100]];
    assert!(rt; has_sectors(rt.alloc(), &file, &sectors, &[b'3'; 100]));
}

// Whether a sector stays as it was if its writing and its reading fail.
fn keeps_sector(alloc: Global) -> bool {
    let Ok(mut host) = MemHost::new(alloc, 0) else {
        return false;
    };
    host.set_sector(7, &[b'7'; 100]);
    host.fail(1).is_ok()
        && host.fail(2).is_ok()
        && writes(&mut host, 7, b'8', Drive::Failed)
        && host.read_sector(7, &mut [0; 100]) == Drive::Failed
        && host.sector(7) == [b'7'; 100]
}

#[test]
fn a_listed_call_changes_no_sector(rt: HostRuntime) {
    assert!(rt; keeps_sector(rt.alloc()));
}

// Whether the quiet host takes a sector, and reads it as zeros.
fn drops_sector(alloc: Global) -> bool {
    let mut host = QuietHost::new(alloc);
    writes(&mut host, 7, b'7', Drive::Done) && reads(&mut host, 7, &[b'0'; 100])
}

#[test]
fn a_quiet_host_keeps_no_sector(rt: HostRuntime) {
    assert!(rt; drops_sector(rt.alloc()));
}
