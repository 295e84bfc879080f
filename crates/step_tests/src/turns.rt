//! Runs of small programs under scripts, and single turns.

ghost use Rattle.std.specs.Prelude.{◌≡◌, false, All, IfSome};
ghost use Rattle.cpu_step.specs.Machine.{is_faulted};
ghost use Rattle.operator_script.specs.Scripts.{IsLine, lines_left};

use crate::machines::{ROOM, host};
use addr_indirect::Stop;
use card_unit::Hopper;
use core_texts::bound;
use cpu_step::{Machine, Mode};
use operator_script::{Ended, Ending, Run, Script, TurnEnd, run, turn};
use outside_io::{Host, MemHost, Unit};
use std::alloc::Global;

// The positions of core.
pub(crate) const POSITIONS: u32 = 20_000;

// Types five digits and halts at 00012.
const TYPES_AND_HALTS: &[u8] = b"38000360010048000000000000000000000012345|\n";

// Halts at 00000; after that it types five digits and halts at 00024.
const HALTS_AND_TYPES: &[u8] = b"48000000000038000360010048000000000012345|\n";

// A loop.
const LOOPS: &[u8] = b"490000000000\n";

// A machine whose Load key was pressed, its host, and the operator's script.
#[derive(Drop)]
struct Scene {
    machine: Machine<1>,
    host: MemHost,
    script: Script,
}

impl Scene {
    // The machine runs, or is halted at 00000 if the Load key fails to start it. None without memory, or for an invalid script.
    fn new(alloc: Global, host: MemHost, text: &[u8]) -> Option<Scene>
        ensures mode { IfSome result (λ scene. is_faulted scene.machine.mode ≡ false) }
        ensures lines { IfSome result (λ scene. All (IsLine 20000) (lines_left scene.script)) }
    {
        let mut host = host;
        let mut machine = Machine::power_on(alloc, Hopper::of_units()).ok()?;
        let script = Script::read(alloc, text, POSITIONS).ok()?;
        machine.load_key(&mut host);
        match machine.mode {
            Mode::Running => {}
            _ => machine.mode = Mode::Halted { at: 0 },
        }
        Some(Scene {
            machine,
            host,
            script,
        })
    }

    // A scene whose host has this deck.
    fn of_deck(alloc: Global, deck: &[u8], text: &[u8]) -> Option<Scene>
        ensures mode { IfSome result (λ scene. is_faulted scene.machine.mode ≡ false) }
        ensures lines { IfSome result (λ scene. All (IsLine 20000) (lines_left scene.script)) }
    {
        Scene::new(alloc, host(alloc, deck, b"").ok()?, text)
    }
}

// A deck under a script and a limit: how the run ends, and what is typed.
struct Row {
    deck: &'static [u8],
    script: &'static [u8],
    limit: u64,
    how: Ending,
    steps: u64,
    typed: &'static [u8],
}

const ROWS: [Row; 23] = [
    Row {
        deck: HALTS_AND_TYPES,
        script: b"",
        limit: 100,
        how: Ending::Halted { at: 0 },
        steps: 1,
        typed: b"",
    },
    // the Start key lets a halted machine run on
    Row {
        deck: HALTS_AND_TYPES,
        script: b"HALT START\n",
        limit: 100,
        how: Ending::Halted { at: 24 },
        steps: 3,
        typed: b"12345",
    },
    // each line starts it once; after the second halt there is no instruction
    Row {
        deck: HALTS_AND_TYPES,
        script: b"HALT START\nHALT START\n",
        limit: 100,
        how: Ending::Stopped {
            kind: Stop::Digit,
            at: 36,
        },
        steps: 4,
        typed: b"12345",
    },
    // a running machine is left alone, and the line is used up
    Row {
        deck: HALTS_AND_TYPES,
        script: b"AT 0 START\n",
        limit: 100,
        how: Ending::Halted { at: 0 },
        steps: 1,
        typed: b"",
    },
    Row {
        deck: HALTS_AND_TYPES,
        script: b"AT 1 START\n",
        limit: 100,
        how: Ending::Halted { at: 24 },
        steps: 3,
        typed: b"12345",
    },
    // a line that is not due keeps the following lines waiting
    Row {
        deck: HALTS_AND_TYPES,
        script: b"AT 2 START\nHALT START\n",
        limit: 100,
        how: Ending::Halted { at: 0 },
        steps: 1,
        typed: b"",
    },
    // the Load key reads the next card, but there is no card
    Row {
        deck: HALTS_AND_TYPES,
        script: b"HALT LOAD\n",
        limit: 100,
        how: Ending::NeedCards { at: 0 },
        steps: 1,
        typed: b"",
    },
    Row {
        deck: b"480000000000\n38000360010048000000000000000000000054321|\n",
        script: b"HALT LOAD\n",
        limit: 100,
        how: Ending::Halted { at: 12 },
        steps: 3,
        typed: b"54321",
    },
    // the limit
    Row {
        deck: LOOPS,
        script: b"",
        limit: 5,
        how: Ending::Limit,
        steps: 5,
        typed: b"",
    },
    Row {
        deck: LOOPS,
        script: b"",
        limit: 0,
        how: Ending::Limit,
        steps: 0,
        typed: b"",
    },
    // a line that is due acts at the limit too
    Row {
        deck: HALTS_AND_TYPES,
        script: b"HALT START\n",
        limit: 1,
        how: Ending::Limit,
        steps: 1,
        typed: b"",
    },
    // a halt at the limit is a halt
    Row {
        deck: TYPES_AND_HALTS,
        script: b"",
        limit: 2,
        how: Ending::Halted { at: 12 },
        steps: 2,
        typed: b"12345",
    },
    // the overflow check switch
    Row {
        deck: TYPES_AND_HALTS,
        script: b"AT 0 OVERFLOW STOP\n",
        limit: 100,
        how: Ending::Halted { at: 12 },
        steps: 2,
        typed: b"12345",
    },
    // a Q field of three digits and a P field of two are an overflow
    Row {
        deck: b"110003100]12480000000000000000]1\n",
        script: b"AT 0 OVERFLOW STOP\n",
        limit: 100,
        how: Ending::Stopped {
            kind: Stop::Overflow,
            at: 0,
        },
        steps: 1,
        typed: b"",
    },
    Row {
        deck: b"110003100]12480000000000000000]1\n",
        script: b"AT 0 OVERFLOW STOP\nAT 0 OVERFLOW PROGRAM\n",
        limit: 100,
        how: Ending::Halted { at: 12 },
        steps: 2,
        typed: b"",
    },
    // an invalid character reads as 0 and turns the read check on
    Row {
        deck: b"38000360010048000000000000000000000012#45|\n",
        script: b"AT 0 IO STOP\n",
        limit: 100,
        how: Ending::Stopped {
            kind: Stop::InOut,
            at: 0,
        },
        steps: 1,
        typed: b"12045",
    },
    Row {
        deck: b"38000360010048000000000000000000000012#45|\n",
        script: b"AT 0 IO STOP\nAT 0 IO PROGRAM\n",
        limit: 100,
        how: Ending::Halted { at: 12 },
        steps: 2,
        typed: b"12045",
    },
    // the program tests program switch 1, which leads to a halt at 00024
    Row {
        deck: b"460002400100490000000000480000000000\n",
        script: b"AT 4 SWITCH 1 ON\n",
        limit: 100,
        how: Ending::Halted { at: 24 },
        steps: 6,
        typed: b"",
    },
    Row {
        deck: b"470002400100490000000000480000000000\n",
        script: b"AT 0 SWITCH 1 ON\nAT 3 SWITCH 1 OFF\n",
        limit: 100,
        how: Ending::Halted { at: 24 },
        steps: 6,
        typed: b"",
    },
    // one bit of the operation code at 00012 is flipped after the digits were typed: the cell
    // has an even count of ones
    Row {
        deck: TYPES_AND_HALTS,
        script: b"AT 1 FLIP 12 0\n",
        limit: 100,
        how: Ending::Stopped {
            kind: Stop::Parity(12),
            at: 12,
        },
        steps: 2,
        typed: b"12345",
    },
    // four bits: the count of ones is odd, and the value is 11
    Row {
        deck: TYPES_AND_HALTS,
        script: b"AT 1 FLIP 12 0\nAT 1 FLIP 12 1\nAT 1 FLIP 12 2\nAT 1 FLIP 12 3\n",
        limit: 100,
        how: Ending::Stopped {
            kind: Stop::Value(12),
            at: 12,
        },
        steps: 2,
        typed: b"12345",
    },
    // the bits 2 and C of the digit 4 make a 6 of it
    Row {
        deck: TYPES_AND_HALTS,
        script: b"AT 0 FLIP 38 1\nAT 0 FLIP 38 5\n",
        limit: 100,
        how: Ending::Halted { at: 12 },
        steps: 2,
        typed: b"12145",
    },
    // a bit that is flipped twice is as it was
    Row {
        deck: TYPES_AND_HALTS,
        script: b"AT 1 FLIP 12 0\nAT 1 FLIP 12 0\n",
        limit: 100,
        how: Ending::Halted { at: 12 },
        steps: 2,
        typed: b"12345",
    },
];

// Whether a run ends as its row says.
fn runs(alloc: Global, row: &Row) -> bool {
    let Some(mut scene) = Scene::of_deck(alloc, row.deck, row.script) else {
        return false;
    };
    let want = Ended {
        how: row.how,
        steps: row.steps,
    };
    run(
        &mut scene.machine,
        &mut scene.script,
        row.limit,
        &mut scene.host,
    ) == want
        && scene.host.shown(Unit::Typed) == row.typed
}

#[test]
fn runs_under_a_script(rt: HostRuntime) {
    for row in &ROWS {
        assert!(rt; runs(rt.alloc(), row));
    }
}

// A deck that was loaded, a script, the steps so far and the limit, and how the next turn ends.
type Turn = (&'static [u8], &'static [u8], u64, u64, TurnEnd);

const TURNS: [Turn; 10] = [
    (HALTS_AND_TYPES, b"", 0, 9, TurnEnd::Stepped),
    (HALTS_AND_TYPES, b"AT 0 SWITCH 3 ON", 0, 9, TurnEnd::Acted),
    (HALTS_AND_TYPES, b"AT 1 SWITCH 3 ON", 0, 9, TurnEnd::Stepped),
    (HALTS_AND_TYPES, b"AT 1 SWITCH 3 ON", 1, 9, TurnEnd::Acted),
    (HALTS_AND_TYPES, b"HALT START", 0, 9, TurnEnd::Stepped),
    (HALTS_AND_TYPES, b"AT 0 FLIP 12 0", 0, 9, TurnEnd::Acted),
    // at the limit, without and with a line that is due
    (LOOPS, b"", 9, 9, TurnEnd::Ended(Ending::Limit)),
    (LOOPS, b"AT 9 START", 9, 9, TurnEnd::Acted),
    (LOOPS, b"AT 9 FLIP 19999 5", 9, 9, TurnEnd::Acted),
    // a deck that was not loaded: the machine is halted
    (b"", b"", 0, 9, TurnEnd::Ended(Ending::Halted { at: 0 })),
];

// Whether the next turn ends so.
fn turns(alloc: Global, (deck, text, count, limit, want): Turn) -> bool {
    let Some(mut scene) = Scene::of_deck(alloc, deck, text) else {
        return false;
    };
    let mut steps = count;
    steps <= limit
        && turn(
            &mut scene.machine,
            &mut scene.script,
            &mut steps,
            limit,
            &mut scene.host,
        ) == want
}

#[test]
fn single_turns(rt: HostRuntime) {
    for row in TURNS {
        assert!(rt; turns(rt.alloc(), row));
    }
}

// Whether the first turn is an action of the script that flips this bit of this cell and leaves all else as it was.
fn flips(alloc: Global, text: &[u8], at: u32, bit: u8) -> bool {
    let Some(before) = Scene::of_deck(alloc, TYPES_AND_HALTS, b"") else {
        return false;
    };
    let Some(mut scene) = Scene::of_deck(alloc, TYPES_AND_HALTS, text) else {
        return false;
    };
    let mut steps = 0;
    let end = turn(
        &mut scene.machine,
        &mut scene.script,
        &mut steps,
        9,
        &mut scene.host,
    );
    end == TurnEnd::Acted && steps == 0 && keeps_all_but(&scene.machine, &before.machine, at, bit)
}

// Whether a machine is as it was before, except this bit of this cell.
fn keeps_all_but(machine: &Machine<1>, before: &Machine<1>, at: u32, bit: u8) -> bool {
    machine.mode == before.mode
        && machine.regs == before.regs
        && machine.panel == before.panel
        && differs(machine, before, at, bit)
}

// Whether core is as it was before, except this bit of this cell.
fn differs(machine: &Machine<1>, before: &Machine<1>, at: u32, bit: u8) -> bool {
    for a in 0..POSITIONS {
        let turned = if a == at { bit } else { 0 };
        if machine.core.raw(a) != before.core.raw(a) ^ turned {
            return false;
        }
    }
    true
}

#[test]
fn a_flip_turns_one_bit_round(rt: HostRuntime) {
    let rows: [(&[u8], u32, u8); 6] = [
        (b"AT 0 FLIP 0 0", 0, 1),
        (b"AT 0 FLIP 0 1", 0, 2),
        (b"AT 0 FLIP 12 2", 12, 4),
        (b"AT 0 FLIP 12 3", 12, 8),
        (b"AT 0 FLIP 19999 4", 19_999, 16),
        (b"AT 0 FLIP 19999 5", 19_999, 32),
    ];
    for (text, at, bit) in rows {
        assert!(rt; flips(rt.alloc(), text, at, bit));
    }
}

// Whether a run leaves the indicators 16 and 17 in these states.
fn lights(alloc: Global, text: &[u8], even: bool, odd: bool) -> bool {
    let Some(mut scene) = Scene::of_deck(alloc, TYPES_AND_HALTS, text) else {
        return false;
    };
    run(&mut scene.machine, &mut scene.script, 100, &mut scene.host);
    scene.machine.panel.even_parity == even && scene.machine.panel.odd_parity == odd
}

#[test]
fn a_parity_stop_turns_its_indicator_on(rt: HostRuntime) {
    let rows: [(&[u8], bool, bool); 3] = [
        (b"AT 1 FLIP 12 0", true, false),
        (b"AT 0 FLIP 37 5", false, true),
        // an odd count of ones, and the value 11
        (
            b"AT 1 FLIP 12 0\nAT 1 FLIP 12 1\nAT 1 FLIP 12 2\nAT 1 FLIP 12 3",
            false,
            false,
        ),
    ];
    for (text, even, odd) in rows {
        assert!(rt; lights(rt.alloc(), text, even, odd));
    }
}

// Whether a step comes next exactly if it is wanted, with a limit of nine steps.
fn comes_next(alloc: Global, deck: &[u8], text: &[u8], steps: u64, want: bool) -> bool {
    let Some(mut scene) = Scene::of_deck(alloc, deck, text) else {
        return false;
    };
    let run = Run {
        machine: &mut scene.machine,
        script: &mut scene.script,
        steps,
        limit: 9,
    };
    run.is_step_next() == want
}

#[test]
fn a_step_comes_next(rt: HostRuntime) {
    let rows: [(&[u8], &[u8], u64, bool); 9] = [
        // a machine that runs, below the limit: no line, a line at a later step, and a line at a halt
        (LOOPS, b"", 8, true),
        (LOOPS, b"AT 9 START", 8, true),
        (LOOPS, b"HALT START", 8, true),
        // at the limit
        (LOOPS, b"", 9, false),
        // the operator's front line is due
        (LOOPS, b"AT 8 START", 8, false),
        (LOOPS, b"AT 0 SWITCH 1 ON", 8, false),
        // a due line after a line that is not due
        (LOOPS, b"AT 9 START\nAT 0 START", 8, true),
        // a deck that was not loaded: the machine is halted
        (b"", b"", 8, false),
        (b"", b"HALT START", 8, false),
    ];
    for (deck, text, steps, want) in rows {
        assert!(rt; comes_next(rt.alloc(), deck, text, steps, want));
    }
}

// A host with a deck alone, whose fifth call fails.
fn failing_host(alloc: Global) -> Option<MemHost> {
    let mut host = MemHost::new(alloc, ROOM).ok()?;
    host.file("deck", TYPES_AND_HALTS).ok()?;
    bound(host.bind(Unit::Deck, "deck")).ok()?;
    host.fail(5).ok()?;
    Some(host)
}

// A machine of that host under this script.
fn failing_scene(alloc: Global, text: &[u8]) -> Option<Scene>
    ensures mode { IfSome result (λ scene. is_faulted scene.machine.mode ≡ false) }
    ensures lines { IfSome result (λ scene. All (IsLine 20000) (lines_left scene.script)) }
{
    Scene::new(alloc, failing_host(alloc)?, text)
}

// Whether a run over that host ends in the fault, and nothing was typed.
fn fails(alloc: Global, text: &[u8]) -> bool {
    let Some(mut scene) = failing_scene(alloc, text) else {
        return false;
    };
    run(&mut scene.machine, &mut scene.script, 100, &mut scene.host).how == Ending::Failed
        && scene.machine.mode == Mode::Faulted
        && scene.host.shown(Unit::Typed).is_empty()
}

#[test]
fn a_fault_ends_the_run(rt: HostRuntime) {
    // The fifth call of the host fails. The first call is the binding, and three calls look for the first card and for a card
    // after it. The fifth call types the digits, or looks for the next card.
    let rows: [&[u8]; 2] = [b"", b"AT 0 LOAD\n"];
    for text in rows {
        assert!(rt; fails(rt.alloc(), text));
    }
}
