//! Texts that are not commands. The grammar gives the expected line numbers.

use console_debug::{CommandFault, Commands};
use std::alloc::AllocError;
use std::test::Fail;

// The positions of the least core.
const POSITIONS: u32 = 20_000;

#[test]
fn other_lines_are_refused(rt: HostRuntime) {
    let rows: [&[u8]; 78] = [
        // numbers
        b"STEP 0000000000000000",
        b"STEP 0000000000000001",
        b"STEP 1000000000000000",
        b"BREAK 0000000000000007",
        b"BREAK 1000000000000000",
        b"CLEAR 0000000000000007",
        b"CLEAR 9999999999999999",
        b"SHOW 0000000000000000 1",
        b"SHOW 0 0000000000000001",
        b"STEP -1",
        b"STEP +1",
        b"STEP 1.5",
        b"STEP 1,000",
        b"STEP 0x1",
        b"STEP 1a",
        b"STEP /",
        b"STEP :",
        b"BREAK LOOP",
        // places, none or more than a thousand
        b"BACK 0",
        b"BACK 1001",
        b"BACK 0000000000000001",
        b"BACK",
        b"BACK 1 2",
        b"back 1",
        // cells that are not in core, none, or more than a thousand
        b"SHOW 20000 1",
        b"SHOW 19999 2",
        b"SHOW 19001 1000",
        b"SHOW 20001 1",
        b"SHOW 999999999999999 1",
        b"SHOW 4294967296 1",
        b"SHOW 0 0",
        b"SHOW 20000 0",
        b"SHOW 0 1001",
        b"SHOW 0 20000",
        b"SHOW 0 999999999999999",
        // words that are missing, or too many
        b"STEP",
        b"BREAK",
        b"CLEAR",
        b"SHOW",
        b"SHOW 0",
        b"GO 1",
        b"QUIT 1",
        b"GO QUIT",
        b"STEP 1 2",
        b"STEP 1 STEP 2",
        b"BREAK 1 2",
        b"CLEAR 1 2",
        b"SHOW 0 1 2",
        b"SHOW 0 1 2 3",
        b"GO GO GO GO",
        b"7",
        // blanks
        b"STEP  1",
        b"BREAK  1",
        b"CLEAR  1",
        b"SHOW  0 1",
        b"SHOW 0  1",
        b" GO",
        b" STEP 1",
        b"GO ",
        b"QUIT ",
        b"STEP 1 ",
        b"SHOW 0 1 ",
        b"STEP ",
        b"SHOW 0 ",
        b" ",
        b"STEP\t1",
        // small letters
        b"go",
        b"Go",
        b"quit",
        b"step 1",
        b"Break 1",
        b"clear 1",
        b"SHOw 0 1",
        // other words
        b"BACKWARDS 1",
        b"REGS",
        b"START",
        b"GOTO",
        b"# GO",
    ];
    for text in rows {
        assert!(rt; bad_line(&rt, text, POSITIONS) == Some(1));
    }
}

#[test]
fn cells_past_the_end_of_core_are_refused(rt: HostRuntime) {
    let rows: [(u32, &[u8]); 8] = [
        (20_000, b"SHOW 20000 1"),
        (40_000, b"SHOW 40000 1"),
        (40_000, b"SHOW 39001 1000"),
        (60_000, b"SHOW 59990 11"),
        (0, b"SHOW 0 1"),
        (999, b"SHOW 0 1000"),
        (500, b"SHOW 0 501"),
        (4_294_967_295, b"SHOW 4294967295 1"),
    ];
    for (positions, text) in rows {
        assert!(rt; bad_line(&rt, text, positions) == Some(1));
    }
}

#[test]
fn the_first_bad_line_is_told_and_all_lines_count(rt: HostRuntime) {
    let rows: [(&[u8], u64); 10] = [
        (b"FOO", 1),
        (b"\nFOO", 2),
        (b"\n\r\n\nFOO\n", 4),
        (b"GO\nFOO\n", 2),
        (b"STEP 1\n\nBREAK 2\n\nFOO", 5),
        // the first of two
        (b"FOO\nBAR\n", 1),
        (b"GO\nSTEP\nSHOW 0\n", 2),
        // a line after QUIT is read too
        (b"QUIT\nFOO\n", 2),
        // of two CRs only one is dropped, and one within a line stays
        (b"GO\r\r\n", 1),
        (b"GO\nSTEP\r1\n", 2),
    ];
    for (text, line) in rows {
        assert!(rt; bad_line(&rt, text, POSITIONS) == Some(line));
    }
}

#[test]
fn faults_say_what_they_are(rt: HostRuntime) -> Result<(), Fail> {
    let line = format!(in rt.alloc(); "{}", CommandFault::BadLine(3))?;
    assert!(rt; line.as_str() == "bad line 3");
    let memory = format!(in rt.alloc(); "{}", CommandFault::from(AllocError))?;
    assert!(rt; memory.as_str() == "out of memory");
    Ok(())
}

// The number of the first bad line.
fn bad_line(rt: &HostRuntime, text: &[u8], positions: u32) -> Option<u64> {
    match Commands::read(rt.alloc(), text, positions) {
        Err(CommandFault::BadLine(line)) => Some(line),
        _ => None,
    }
}
