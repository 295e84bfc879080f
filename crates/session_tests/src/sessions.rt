//! Sessions over small programs. The expected lines were worked out from the definitions by hand.

ghost use Rattle.std.specs.Prelude.{◌≡◌, false, IfOk};
ghost use Rattle.cpu_step.specs.Machine.{is_faulted};

use addr_indirect::Stop;
use card_unit::Hopper;
use console_debug::{Commands, SessionEnd, ending_line, session};
use core_texts::damage;
use cpu_step::{Machine, Mode};
use digit_core::Core;
use operator_script::{Ending, Script};
use outside_io::{MemHost, Unit};
use rewind_log::Rewind;
use sps_pass_two::{Assembled, assemble};
use std::alloc::Global;
use std::test::Fail;

const POSITIONS: u32 = 20_000;

const ROOM: usize = 500;

// Statement 1 is no instruction; statements 2 to 5 are at 00402, 00414, 00426 and 00438.
const SOURCE: &[u8] = b"     *TWO DIGITS AND TWO HALTS
     START TDM 600,5
           TDM 601,6
           H
           H
           DENDSTART
";

// Puts the program's digits into core.
fn place(core: &mut Core<1>, assembled: &Assembled) {
    for piece in assembled.image.pieces.as_slice() {
        let mut address = piece.from;
        for digit in piece.digits.as_slice() {
            if address < POSITIONS && digit.value <= 9 {
                core.put(address, *digit);
            }
            address = address.saturating_add(1);
        }
    }
}

// A machine that runs from the program's start, with a cell of even parity at 00599.
fn loaded(alloc: Global, assembled: &Assembled) -> Result<Machine<1>, Fail>
    ensures { IfOk result (λ machine. is_faulted machine.mode ≡ false) }
{
    let mut machine = Machine::power_on(alloc, Hopper::of_units())?;
    place(&mut machine.core, assembled);
    damage(&mut machine.core, 599)?;
    machine.regs.ir = assembled.start;
    machine.mode = Mode::Running;
    Ok(machine)
}

// Commands under a script and a limit, and what is printed.
struct Row {
    commands: &'static [u8],
    script: &'static [u8],
    limit: u64,
    printed: &'static [u8],
}

const ROWS: [Row; 15] = [
    Row {
        commands: b"STEP 2\n",
        script: b"",
        limit: 100,
        printed: b"AT 00402 STEPS 0\nAT 00414 STEPS 1\n",
    },
    // to a breakpoint, and from there to the end; each later GO and STEP prints the end's line again, and QUIT ends the session
    Row {
        commands: b"BREAK 1\nBREAK 4\nGO\nCLEAR 4\nGO\nGO\nSTEP 2\nQUIT\nGO\n",
        script: b"",
        limit: 100,
        printed: b"NO STATEMENT 1\nBREAK 00004 00426 STEPS 2\nHALT 00426 STEPS 3\nHALT 00426 STEPS 3\nHALT 00426 STEPS 3\n",
    },
    // a breakpoint stays set, and counts only if a step leads to it
    Row {
        commands: b"BREAK 2\nBREAK 3\nBREAK 4\nGO\nGO\nGO\n",
        script: b"",
        limit: 100,
        printed: b"BREAK 00003 00414 STEPS 1\nBREAK 00004 00426 STEPS 2\nHALT 00426 STEPS 3\n",
    },
    // one CLEAR clears a breakpoint that was set twice
    Row {
        commands: b"BREAK 4\nBREAK 3\nBREAK 4\nCLEAR 4\nGO\nGO\n",
        script: b"",
        limit: 100,
        printed: b"BREAK 00003 00414 STEPS 1\nHALT 00426 STEPS 3\n",
    },
    // statements that are no instruction
    Row {
        commands: b"CLEAR 1\nBREAK 0\nCLEAR 6\nBREAK 7\nBREAK 999999999999999\n",
        script: b"",
        limit: 100,
        printed: b"NO STATEMENT 1\nNO STATEMENT 0\nNO STATEMENT 6\nNO STATEMENT 7\nNO STATEMENT 999999999999999\n",
    },
    // the operator's START is not a step
    Row {
        commands: b"STEP 9\n",
        script: b"HALT START\n",
        limit: 100,
        printed: b"AT 00402 STEPS 0\nAT 00414 STEPS 1\nAT 00426 STEPS 2\nAT 00438 STEPS 3\nHALT 00438 STEPS 4\n",
    },
    // the operator's FLIP is not a step; a cell of even parity is shown as `?`, and
    // stops the machine
    Row {
        commands: b"STEP 1\nSHOW 700 1\nGO\n",
        script: b"AT 0 FLIP 700 0\nAT 1 FLIP 414 0\n",
        limit: 100,
        printed: b"AT 00402 STEPS 0\n00700 ?\nCHECK 04 00414 STEPS 2\n",
    },
    Row {
        commands: b"GO\nSTEP 1\n",
        script: b"",
        limit: 1,
        printed: b"LIMIT STEPS 1\nLIMIT STEPS 1\n",
    },
    // cells before and after a part of the program was executed
    Row {
        commands: b"SHOW 598 4\nGO\nSHOW 598 5\nSHOW 00000 1\n",
        script: b"",
        limit: 100,
        printed: b"00598 0?00\nHALT 00426 STEPS 3\n00598 0?560\n00000 0\n",
    },
    // BACK as far as there are places; core goes back too, and GO gets to the end again
    Row {
        commands: b"BACK 1\nSTEP 2\nBACK 1\nSHOW 600 2\nBACK 2\nBACK 1\nGO\nSHOW 600 2\nBACK 3\n",
        script: b"",
        limit: 100,
        printed: b"NO BACK 1\nAT 00402 STEPS 0\nAT 00414 STEPS 1\nAT 00414 STEPS 1\n00600 50\nNO BACK 2\nAT 00402 STEPS 0\nHALT 00426 STEPS 3\n00600 56\nAT 00402 STEPS 0\n",
    },
    // a place that was passed is a stop for a breakpoint that was set since
    Row {
        commands: b"GO\nBREAK 3\nBACK 3\nGO\nGO\n",
        script: b"",
        limit: 100,
        printed: b"HALT 00426 STEPS 3\nAT 00402 STEPS 0\nBREAK 00003 00414 STEPS 1\nHALT 00426 STEPS 3\n",
    },
    // the operator's START leads to a place of its own, and is not a step after a BACK either; it acts once
    Row {
        commands: b"GO\nBACK 2\nSTEP 1\nBACK 1\nSTEP 2\n",
        script: b"HALT START\n",
        limit: 100,
        printed: b"HALT 00438 STEPS 4\nAT 00438 STEPS 3\nAT 00438 STEPS 3\nAT 00438 STEPS 3\nAT 00438 STEPS 3\nHALT 00438 STEPS 4\n",
    },
    Row {
        commands: b"GO\nBACK 1\nGO\n",
        script: b"",
        limit: 1,
        printed: b"LIMIT STEPS 1\nAT 00402 STEPS 0\nLIMIT STEPS 1\n",
    },
    Row {
        commands: b"STEP 0\nQUIT\nSHOW 0 1\n",
        script: b"",
        limit: 100,
        printed: b"",
    },
    Row {
        commands: b"",
        script: b"",
        limit: 100,
        printed: b"",
    },
];

#[test]
fn commands_are_carried_out(rt: HostRuntime) -> Result<(), Fail> {
    let assembled = assemble(rt.alloc(), SOURCE, POSITIONS)?;
    for row in &ROWS {
        let mut host = MemHost::new(rt.alloc(), ROOM)?;
        let mut machine = loaded(rt.alloc(), &assembled)?;
        let mut script = Script::read(rt.alloc(), row.script, POSITIONS)?;
        let mut commands = Commands::read(rt.alloc(), row.commands, POSITIONS)?;
        let mut rewind = Rewind::<1>::new(rt.alloc())?;
        let end = session(
            &mut machine,
            &mut script,
            row.limit,
            &assembled,
            &mut commands,
            &mut rewind,
            &mut host,
        );
        assert!(rt; end == SessionEnd::Ended);
        assert!(rt; host.shown(Unit::Report) == row.printed);
    }
    Ok(())
}

#[test]
fn breakpoints_of_an_earlier_session_are_forgotten(rt: HostRuntime) -> Result<(), Fail> {
    let assembled = assemble(rt.alloc(), SOURCE, POSITIONS)?;
    let mut commands = Commands::read(rt.alloc(), b"GO\nBREAK 4\nGO\n", POSITIONS)?;
    let mut host = MemHost::new(rt.alloc(), ROOM)?;
    let mut machine = loaded(rt.alloc(), &assembled)?;
    let mut script = Script::read(rt.alloc(), b"", POSITIONS)?;
    let mut rewind = Rewind::<1>::new(rt.alloc())?;
    session(
        &mut machine,
        &mut script,
        100,
        &assembled,
        &mut commands,
        &mut rewind,
        &mut host,
    );
    let mut host = MemHost::new(rt.alloc(), ROOM)?;
    let mut machine = loaded(rt.alloc(), &assembled)?;
    let mut script = Script::read(rt.alloc(), b"", POSITIONS)?;
    let mut rewind = Rewind::<1>::new(rt.alloc())?;
    session(
        &mut machine,
        &mut script,
        100,
        &assembled,
        &mut commands,
        &mut rewind,
        &mut host,
    );
    assert!(rt; host.shown(Unit::Report) == b"HALT 00426 STEPS 3\nHALT 00426 STEPS 3\n".as_slice());
    Ok(())
}

#[test]
fn a_fault_ends_the_session(rt: HostRuntime) -> Result<(), Fail> {
    let assembled = assemble(rt.alloc(), SOURCE, POSITIONS)?;
    // Each line takes one call of the host; the program asks for none.
    let rows: [(u64, &[u8]); 3] = [
        (1, b""),
        (2, b"AT 00402 STEPS 0\n"),
        (3, b"AT 00402 STEPS 0\nNO STATEMENT 1\n"),
    ];
    for (call, printed) in rows {
        let mut host = MemHost::new(rt.alloc(), ROOM)?;
        host.fail(call)?;
        let mut machine = loaded(rt.alloc(), &assembled)?;
        let mut script = Script::read(rt.alloc(), b"", POSITIONS)?;
        let mut commands = Commands::read(rt.alloc(), b"STEP 1\nBREAK 1\nGO\n", POSITIONS)?;
        let mut rewind = Rewind::<1>::new(rt.alloc())?;
        let end = session(
            &mut machine,
            &mut script,
            100,
            &assembled,
            &mut commands,
            &mut rewind,
            &mut host,
        );
        assert!(rt; end == SessionEnd::Failed);
        assert!(rt; host.shown(Unit::Report) == printed);
    }
    Ok(())
}

#[test]
fn each_ending_has_its_line(rt: HostRuntime) {
    let rows: [(Ending, &str); 8] = [
        (Ending::Halted { at: 12 }, "HALT 00012 STEPS 7\n"),
        (
            Ending::Stopped {
                kind: Stop::Digit,
                at: 59_988,
            },
            "CHECK 03 59988 STEPS 7\n",
        ),
        (Ending::Limit, "LIMIT STEPS 7\n"),
        (Ending::NeedCards { at: 0 }, "NEED CARDS 00000 STEPS 7\n"),
        (Ending::NeedKeys { at: 402 }, "NEED KEYS 00402 STEPS 7\n"),
        (
            Ending::Jam {
                unit: Unit::Data,
                line: 3,
            },
            "JAM DATA 3\n",
        ),
        (
            Ending::Jam {
                unit: Unit::Commands,
                line: 3,
            },
            "JAM COMMANDS 3\n",
        ),
        (Ending::Failed, ""),
    ];
    for (how, line) in rows {
        assert!(rt; ending_line(how, 7).as_str() == line);
    }
}
