//! Commands as they are read, line by line. The grammar gives the expected values.

use console_debug::{Commands, DebugCommand};
use std::alloc::Global;

// The positions of the least core.
const POSITIONS: u32 = 20_000;

// Whether the text is read as these commands, for a core of `positions` positions, and no breakpoint is set.
fn reads(alloc: Global, text: &[u8], positions: u32, want: &[DebugCommand]) -> bool {
    match Commands::read(alloc, text, positions) {
        Ok(commands) => commands.list() == want && commands.breakpoints().is_empty(),
        Err(_) => false,
    }
}

#[test]
fn each_command_is_read(rt: HostRuntime) {
    let rows: [(&[u8], DebugCommand); 31] = [
        (b"GO", DebugCommand::Go),
        (b"STEP 5", DebugCommand::Step(5)),
        (b"BACK 5", DebugCommand::Back(5)),
        (b"BREAK 7", DebugCommand::Break(7)),
        (b"CLEAR 7", DebugCommand::Clear(7)),
        (b"SHOW 594 8", show(594, 8)),
        (b"QUIT", DebugCommand::Quit),
        // numbers have 1 to 15 digits, with any leading zeros
        (b"STEP 0", DebugCommand::Step(0)),
        (b"STEP 1", DebugCommand::Step(1)),
        (b"STEP 005", DebugCommand::Step(5)),
        (b"STEP 000000000000000", DebugCommand::Step(0)),
        (b"STEP 000000000000001", DebugCommand::Step(1)),
        (
            b"STEP 999999999999999",
            DebugCommand::Step(999_999_999_999_999),
        ),
        (b"BREAK 0", DebugCommand::Break(0)),
        (b"BREAK 00012", DebugCommand::Break(12)),
        (
            b"BREAK 999999999999999",
            DebugCommand::Break(999_999_999_999_999),
        ),
        (b"CLEAR 0", DebugCommand::Clear(0)),
        (b"CLEAR 00012", DebugCommand::Clear(12)),
        (
            b"CLEAR 123456789012345",
            DebugCommand::Clear(123_456_789_012_345),
        ),
        // at least one place and at most a thousand
        (b"BACK 1", DebugCommand::Back(1)),
        (b"BACK 1000", DebugCommand::Back(1000)),
        (b"BACK 000000000000007", DebugCommand::Back(7)),
        // at least one cell and at most a thousand, from the first one of core to the last one
        (b"SHOW 0 1", show(0, 1)),
        (b"SHOW 00000 0001", show(0, 1)),
        (b"SHOW 0 999", show(0, 999)),
        (b"SHOW 0 1000", show(0, 1000)),
        (b"SHOW 0 000000000001000", show(0, 1000)),
        (b"SHOW 19000 1000", show(19_000, 1000)),
        (b"SHOW 19999 1", show(19_999, 1)),
        (b"SHOW 19998 2", show(19_998, 2)),
        (b"SHOW 000000000019999 01", show(19_999, 1)),
    ];
    for (text, command) in rows {
        assert!(rt; reads(rt.alloc(), text, POSITIONS, &[command]));
    }
}

#[test]
fn cells_are_shown_up_to_the_end_of_core(rt: HostRuntime) {
    let rows: [(u32, &[u8], u32, u32); 8] = [
        (20_000, b"SHOW 19999 1", 19_999, 1),
        (40_000, b"SHOW 20000 1", 20_000, 1),
        (40_000, b"SHOW 39000 1000", 39_000, 1000),
        (60_000, b"SHOW 59990 10", 59_990, 10),
        (1, b"SHOW 0 1", 0, 1),
        (1000, b"SHOW 0 1000", 0, 1000),
        (999, b"SHOW 0 999", 0, 999),
        (4_294_967_295, b"SHOW 4294967294 1", 4_294_967_294, 1),
    ];
    for (positions, text, at, count) in rows {
        assert!(rt; reads(rt.alloc(), text, positions, &[show(at, count)]));
    }
}

#[test]
fn lines_are_ended_by_lf_and_one_cr_is_dropped(rt: HostRuntime) {
    let want = [
        DebugCommand::Break(7),
        DebugCommand::Go,
        show(594, 8),
        DebugCommand::Clear(7),
        DebugCommand::Step(5),
        DebugCommand::Quit,
    ];
    let rows: [&[u8]; 5] = [
        b"BREAK 7\nGO\nSHOW 594 8\nCLEAR 7\nSTEP 5\nQUIT\n",
        b"BREAK 7\r\nGO\r\nSHOW 594 8\r\nCLEAR 7\r\nSTEP 5\r\nQUIT\r\n",
        // the last line without LF
        b"BREAK 7\nGO\nSHOW 594 8\nCLEAR 7\nSTEP 5\nQUIT",
        b"BREAK 7\nGO\nSHOW 594 8\nCLEAR 7\nSTEP 5\nQUIT\r",
        // empty lines are passed over
        b"\n\r\nBREAK 7\nGO\n\n\nSHOW 594 8\n\r\nCLEAR 7\nSTEP 5\n\nQUIT\n\n",
    ];
    for text in rows {
        assert!(rt; reads(rt.alloc(), text, POSITIONS, &want));
    }
}

#[test]
fn there_may_be_no_commands(rt: HostRuntime) {
    let rows: [&[u8]; 4] = [b"", b"\n", b"\r\n", b"\n\n\r\n"];
    for text in rows {
        assert!(rt; reads(rt.alloc(), text, POSITIONS, &[]));
    }
}

// `SHOW at count`.
fn show(at: u32, count: u32) -> DebugCommand {
    DebugCommand::Show { at, count }
}
