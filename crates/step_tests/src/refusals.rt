//! Texts that are not scripts by the grammar.

use crate::turns::POSITIONS;
use operator_script::{Script, ScriptFault};
use std::alloc::AllocError;
use std::test::Fail;

#[test]
fn other_lines_are_refused(rt: HostRuntime) {
    let rows: [&[u8]; 64] = [
        // numbers
        b"AT 0000000000000000 START",
        b"AT 1000000000000000 START",
        b"AT  START",
        b"AT -1 START",
        b"AT +1 START",
        b"AT 1.5 START",
        b"AT 0x1 START",
        b"AT 1a START",
        b"AT / START",
        b"AT : START",
        // words that are missing, or too many
        b"AT",
        b"AT START",
        b"AT 1",
        b"AT 1 2 START",
        b"AT 1 START START",
        b"AT 1 SWITCH 1 ON OFF",
        b"AT 1 SWITCH 1 ON OFF ON",
        b"AT 1 OVERFLOW",
        b"AT 1 SWITCH 1",
        b"AT 1 IO STOP STOP",
        b"HALT",
        b"HALT 1 START",
        b"HALT GO",
        b"HALT HALT START",
        b"START",
        b"SWITCH 1 ON",
        // blanks
        b"AT  1 START",
        b"AT 1  START",
        b"AT 1 SWITCH  1 ON",
        b"HALT  LOAD",
        b" AT 1 START",
        b" HALT START",
        b"AT 1 START ",
        b"HALT START ",
        b"HALT IO STOP ",
        b"HALT SWITCH 1 ON ",
        b"AT 1 ",
        b"HALT ",
        b" ",
        b"AT\t1 START",
        // small letters
        b"at 1 START",
        b"AT 1 start",
        b"Halt START",
        b"HALT SWITCH 1 On",
        // actions
        b"HALT SWITCH 0 ON",
        b"HALT SWITCH 5 ON",
        b"HALT SWITCH 11 ON",
        b"HALT SWITCH 1 STOP",
        b"HALT OVERFLOW ON",
        b"HALT IO OFF",
        b"HALT FLIP 20000 0",
        b"HALT FLIP 0 6",
        b"HALT FLIP 0",
        b"HALT FLIP 0 0 0",
        b"HALT FLIP",
        b"HALT FLIP 4294967296 0",
        b"HALT FLIP 999999999999999 0",
        b"HALT FLIP 0000000000000001 0",
        b"HALT FLIP 0 256",
        b"HALT FLIP -1 0",
        b"HALT FLIP 0 C",
        b"HALT FLIP 1 ON",
        b"HALT flip 0 0",
        b"# HALT START",
    ];
    for text in rows {
        assert!(rt; bad_line(&rt, text) == Some(1));
    }
}

#[test]
fn the_first_bad_line_is_told_and_all_lines_count(rt: HostRuntime) {
    let rows: [(&[u8], u64); 9] = [
        (b"GO", 1),
        (b"\nGO", 2),
        (b"\n\r\n\nGO\n", 4),
        (b"AT 1 START\nGO\n", 2),
        (b"AT 1 START\n\nHALT LOAD\n\nGO", 5),
        // the first of two
        (b"GO\nSTOP\n", 1),
        (b"HALT START\nAT 1\nAT 2\n", 2),
        // of two CRs only one is dropped, and a CR within a line stays
        (b"HALT START\r\r\n", 1),
        (b"HALT START\nHALT\rSTART\n", 2),
    ];
    for (text, line) in rows {
        assert!(rt; bad_line(&rt, text) == Some(line));
    }
}

#[test]
fn faults_say_what_they_are(rt: HostRuntime) -> Result<(), Fail> {
    let line = format!(in rt.alloc(); "{}", ScriptFault::BadLine(3))?;
    assert!(rt; line.as_str() == "bad line 3");
    let memory = format!(in rt.alloc(); "{}", ScriptFault::from(AllocError))?;
    assert!(rt; memory.as_str() == "out of memory");
    Ok(())
}

// The number of the first bad line.
fn bad_line(rt: &HostRuntime, text: &[u8]) -> Option<u64> {
    match Script::read(rt.alloc(), text, POSITIONS) {
        Err(ScriptFault::BadLine(line)) => Some(line),
        _ => None,
    }
}
