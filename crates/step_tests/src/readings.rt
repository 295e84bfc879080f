//! Scripts as they are read, line by line. The expected values follow the grammar.

use crate::turns::POSITIONS;
use operator_script::{Action, Due, Script, ScriptLine};
use outside_io::split_line;
use std::alloc::Global;

// Whether the text is read as these lines, for a core of this size.
fn reads(alloc: Global, text: &[u8], positions: u32, want: &[ScriptLine]) -> bool {
    match Script::read(alloc, text, positions) {
        Ok(script) => script.lines_left() == want,
        Err(_) => false,
    }
}

// Whether the text is read as one line, for the least core.
fn reads_line(alloc: Global, text: &[u8], due: Due, action: Action) -> bool {
    reads(alloc, text, POSITIONS, &[ScriptLine { due, action }])
}

// Whether each of two lines of text is read as this action: the first at step 5, the second at a halt.
fn reads_both(alloc: Global, text: &[u8], action: Action) -> bool {
    let Some((at, halt)) = split_line(text) else {
        return false;
    };
    reads_line(alloc, at, Due::At(5), action) && reads_line(alloc, halt, Due::Halt, action)
}

// Whether the program switches are turned by their lines.
fn switches_are_read(alloc: Global) -> bool {
    // The two lines, the switch, and whether it is turned on.
    let rows: [(&[u8], u8, bool); 8] = [
        (b"AT 5 SWITCH 1 ON\nHALT SWITCH 1 ON", 1, true),
        (b"AT 5 SWITCH 2 ON\nHALT SWITCH 2 ON", 2, true),
        (b"AT 5 SWITCH 3 ON\nHALT SWITCH 3 ON", 3, true),
        (b"AT 5 SWITCH 4 ON\nHALT SWITCH 4 ON", 4, true),
        (b"AT 5 SWITCH 1 OFF\nHALT SWITCH 1 OFF", 1, false),
        (b"AT 5 SWITCH 4 OFF\nHALT SWITCH 4 OFF", 4, false),
        // leading zeros
        (b"AT 5 SWITCH 04 OFF\nHALT SWITCH 04 OFF", 4, false),
        (
            b"AT 5 SWITCH 000000000000003 ON\nHALT SWITCH 03 ON",
            3,
            true,
        ),
    ];
    for (text, number, on) in rows {
        if !reads_both(alloc, text, Action::Switch { number, on }) {
            return false;
        }
    }
    true
}

// Whether bits of cells are flipped by their lines.
fn flips_are_read(alloc: Global) -> bool {
    // The two lines, the cell, and the bit.
    let rows: [(&[u8], u32, u8); 4] = [
        (b"AT 5 FLIP 19999 5\nHALT FLIP 19999 5", 19_999, 5),
        (b"AT 5 FLIP 0 0\nHALT FLIP 0 0", 0, 0),
        // leading zeros
        (b"AT 5 FLIP 00012 04\nHALT FLIP 12 4", 12, 4),
        (
            b"AT 5 FLIP 000000000019999 000000000000005\nHALT FLIP 019999 05",
            19_999,
            5,
        ),
    ];
    for (text, at, bit) in rows {
        if !reads_both(alloc, text, Action::Flip { at, bit }) {
            return false;
        }
    }
    true
}

// Whether the keys are pressed and the check switches turned by their lines.
fn keys_and_checks_are_read(alloc: Global) -> bool {
    let rows: [(&[u8], Action); 6] = [
        (b"AT 5 START\nHALT START", Action::Start),
        (b"AT 5 LOAD\nHALT LOAD", Action::Load),
        (
            b"AT 5 OVERFLOW STOP\nHALT OVERFLOW STOP",
            Action::Overflow { stops: true },
        ),
        (
            b"AT 5 OVERFLOW PROGRAM\nHALT OVERFLOW PROGRAM",
            Action::Overflow { stops: false },
        ),
        (b"AT 5 IO STOP\nHALT IO STOP", Action::InOut { stops: true }),
        (
            b"AT 5 IO PROGRAM\nHALT IO PROGRAM",
            Action::InOut { stops: false },
        ),
    ];
    for (text, action) in rows {
        if !reads_both(alloc, text, action) {
            return false;
        }
    }
    true
}

#[test]
fn each_action_is_due_at_a_step_or_at_a_halt(rt: HostRuntime) {
    assert!(rt; keys_and_checks_are_read(rt.alloc()));
    assert!(rt; switches_are_read(rt.alloc()));
    assert!(rt; flips_are_read(rt.alloc()));
}

// Whether the text is read as one line that flips the bit 0 of this cell at step 0, or is refused if no cell is given.
fn reads_or_not(alloc: Global, text: &[u8], positions: u32, cell: Option<u32>) -> bool {
    let Some(at) = cell else {
        return Script::read(alloc, text, positions).is_err();
    };
    let line = ScriptLine {
        due: Due::At(0),
        action: Action::Flip { at, bit: 0 },
    };
    reads(alloc, text, positions, &[line])
}

#[test]
fn a_cell_is_in_core(rt: HostRuntime) {
    let rows: [(u32, &[u8], Option<u32>); 8] = [
        (20_000, b"AT 0 FLIP 19999 0", Some(19_999)),
        (20_000, b"AT 0 FLIP 20000 0", None),
        (40_000, b"AT 0 FLIP 20000 0", Some(20_000)),
        (40_000, b"AT 0 FLIP 39999 0", Some(39_999)),
        (40_000, b"AT 0 FLIP 40000 0", None),
        (60_000, b"AT 0 FLIP 59999 0", Some(59_999)),
        (60_000, b"AT 0 FLIP 60000 0", None),
        // no cell at all
        (0, b"AT 0 FLIP 0 0", None),
    ];
    for (positions, text, want) in rows {
        assert!(rt; reads_or_not(rt.alloc(), text, positions, want));
    }
}

#[test]
fn counts_have_1_to_15_digits(rt: HostRuntime) {
    let rows: [(&[u8], u64); 6] = [
        (b"AT 0 START", 0),
        (b"AT 1 START", 1),
        (b"AT 007 START", 7),
        (b"AT 000000000000000 START", 0),
        (b"AT 1000000 START", 1_000_000),
        (b"AT 999999999999999 START", 999_999_999_999_999),
    ];
    for (text, count) in rows {
        assert!(rt; reads_line(rt.alloc(), text, Due::At(count), Action::Start));
    }
}

#[test]
fn lines_are_ended_by_lf_and_one_cr_is_dropped(rt: HostRuntime) {
    let want = [
        ScriptLine {
            due: Due::At(12),
            action: Action::Load,
        },
        ScriptLine {
            due: Due::Halt,
            action: Action::Switch {
                number: 2,
                on: true,
            },
        },
        ScriptLine {
            due: Due::At(3),
            action: Action::Start,
        },
    ];
    let rows: [&[u8]; 5] = [
        b"AT 12 LOAD\nHALT SWITCH 2 ON\nAT 3 START\n",
        b"AT 12 LOAD\r\nHALT SWITCH 2 ON\r\nAT 3 START\r\n",
        // the last line without LF
        b"AT 12 LOAD\nHALT SWITCH 2 ON\nAT 3 START",
        b"AT 12 LOAD\nHALT SWITCH 2 ON\nAT 3 START\r",
        // empty lines are passed over
        b"\n\r\nAT 12 LOAD\n\n\nHALT SWITCH 2 ON\n\r\nAT 3 START\n\n",
    ];
    for text in rows {
        assert!(rt; reads(rt.alloc(), text, POSITIONS, &want));
    }
}

#[test]
fn a_script_may_have_no_lines(rt: HostRuntime) {
    let rows: [&[u8]; 4] = [b"", b"\n", b"\r\n", b"\n\n\r\n"];
    for text in rows {
        assert!(rt; reads(rt.alloc(), text, POSITIONS, &[]));
    }
}
