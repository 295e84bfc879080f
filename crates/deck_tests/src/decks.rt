//! Decks of short sources, and of a source that fills core, worked out by hand.

use card_code::Card;
use card_unit::Hopper;
use cpu_step::{Machine, Mode, Turned};
use digit_core::{CellFault, Core, Digit, standard_digit};
use loader_cards::{DeckForm, deck_steps, object_deck};
use outside_io::MemHost;
use sps_pass_two::{Assembled, assemble};
use std::alloc::Global;
use std::test::Fail;

// The program of lines, for a core of 20,000 positions. The lines are written from column 6 on: label in columns 6 to 11, operation in
// 12 to 15, operands from 16 on.
fn assembled(alloc: Global, lines: &[&str]) -> Result<Assembled, Fail> {
    let mut source = Vec::new(alloc);
    for line in lines {
        source.extend_from_slice(b"     ")?;
        source.extend_from_slice(line.as_bytes())?;
        source.push(b'\n')?;
    }
    Ok(assemble(alloc, source.as_slice(), 20_000)?)
}

// A halt at 00402 and a record mark at 00500: a segment of twelve digits, and a segment of a single digit.
const HALT_AND_MARK: &[&str] = &[
    "START H",
    "      DORG500",
    "      DSC 1,@",
    "      DENDSTART",
];

#[test]
fn a_deck_has_tables_segments_and_a_transfer_card(rt: HostRuntime) -> Result<(), Fail> {
    let program = assembled(rt.alloc(), HALT_AND_MARK)?;
    let cards = object_deck(rt.alloc(), &program, DeckForm::SelfLoading)?;
    assert!(rt; cards.len() == 34);
    for (place, want) in [
        (
            0,
            b"260013100079330010000000360000000500490000000000]0000000000010203040002040608000",
        ),
        (
            31,
            b"26004130007933004020000036000000050049000000000000000000000000000000M80000000000",
        ),
        (
            32,
            b"2500500000794100000000003600000005004900000000000000000000000000000000000000000|",
        ),
        (
            33,
            b"49004020000000000000000000000000000049000000000000000000000000000000000000000000",
        ),
    ] {
        assert!(rt; cards.get(place) == Some(&Card(*want)), "card {place}");
    }
    Ok(())
}

#[test]
fn a_deck_takes_four_steps_a_card_and_one_for_the_last(rt: HostRuntime) {
    assert!(rt; deck_steps(1, DeckForm::SelfLoading) == 1);
    assert!(rt; deck_steps(34, DeckForm::SelfLoading) == 133);
    assert!(rt; deck_steps(36, DeckForm::Dense) == 139);
}

// Numerical blanks from 00400 to 19999: 612 segments of 32 digits, and one of 16.
#[test]
fn a_program_may_fill_core(rt: HostRuntime) -> Result<(), Fail> {
    let mut lines = Vec::new(rt.alloc());
    lines.push("      DORG400")?;
    for _statement in 0..392 {
        lines.push("      DNB 50")?;
    }
    lines.push("      DEND400")?;
    let program = assembled(rt.alloc(), &lines)?;
    let cards = object_deck(rt.alloc(), &program, DeckForm::SelfLoading)?;
    assert!(rt; cards.len() == 645);
    let last = b"2619999000793319984000003600000005004900000000000000000000000000*@@@@@@@@@@@@@@@";
    assert!(rt; cards.get(643) == Some(&Card(*last)));
    Ok(())
}

// The digit, without a flag, of that value.
fn plain(value: u8) -> Digit {
    Digit { flag: false, value }
}

// Gives every cell even parity.
fn spoil(core: &mut Core<1>) {
    for a in 0..20_000u32 {
        core.flip(a, 0);
    }
}

// The machine after a program's deck was loaded over a core in which every cell has even parity: it runs at the start.
fn loaded(alloc: Global, program: &Assembled, form: DeckForm) -> Result<Machine<1>, Fail> {
    let cards = object_deck(alloc, program, form)?;
    let steps = deck_steps(cards.len() as u64, form);
    let mut machine = Machine::<1>::power_on(alloc, Hopper::of_cards(cards))?;
    spoil(&mut machine.core);
    let mut host = MemHost::new(alloc, 0)?;
    let mut last = machine.load_key(&mut host);
    for _step in 0..steps {
        if machine.is_running() {
            last = machine.step(&mut host);
        }
    }
    if last != Turned::On || machine.regs.ir != program.start {
        return Err("the deck did not enter the start".into());
    }
    Ok(machine)
}

// After the deck's steps the tables, the halt and the record mark are good, and each other cell is as bad as before. The test skips
// 00000 to 00079, which hold the last card.
#[test]
fn a_deck_loads_over_a_core_without_a_good_cell(rt: HostRuntime) -> Result<(), Fail> {
    let program = assembled(rt.alloc(), HALT_AND_MARK)?;
    for form in [DeckForm::SelfLoading, DeckForm::Dense] {
        let machine = loaded(rt.alloc(), &program, form)?;
        assert!(rt; machine.mode == Mode::Running);
        for a in 0..20_000u32 {
            let want = match a {
                0..=79 => continue,
                100..=399 => Ok(standard_digit(a)),
                402 => Ok(plain(4)),
                403 => Ok(plain(8)),
                404..=413 => Ok(plain(0)),
                500 => Ok(plain(10)),
                _ => Err(CellFault::EvenParity),
            };
            assert!(rt; machine.core.get(a) == want, "cell {a}");
        }
    }
    Ok(())
}

#[test]
fn a_dense_deck_has_a_loader_a_bridge_and_the_tables(rt: HostRuntime) -> Result<(), Fail> {
    let program = assembled(rt.alloc(), HALT_AND_MARK)?;
    let cards = object_deck(rt.alloc(), &program, DeckForm::Dense)?;
    assert!(rt; cards.len() == 36);
    for (place, want) in [
        (
            0,
            b"360010000500260010M00179250010R0011049000000000000000000000000000000000000000000",
        ),
        (
            1,
            b"00413004024000000000000000000000000000000000000000000000000000000000M80000000000",
        ),
        (
            2,
            b"0017900500|0000000000000000000000000000000000000000000000000000000000000000000]0",
        ),
        (
            3,
            b"000420011000360000000500490000000000000000000000000000000000000000000000000]0112",
        ),
        (
            4,
            b"260013100079330010000000360000000500490000000000]0000000000010203040002040608000",
        ),
        (
            35,
            b"49004020000000000000000000000000000049000000000000000000000000000000000000000000",
        ),
    ] {
        assert!(rt; cards.get(place) == Some(&Card(*want)), "card {place}");
    }
    Ok(())
}

// The next number of a pseudo-random sequence.
fn next(seed: u32) -> u32 {
    seed.wrapping_mul(1_103_515_245).wrapping_add(12_345)
}

// A program of a halt at 00402 and `count` pseudo-random digits after it; about one in three of these has a flag.
fn digits_at_random(alloc: Global, count: u32, seed: u32) -> Result<Assembled, Fail> {
    let mut lines = Vec::new(alloc);
    lines.push("START H")?;
    let plain = [
        "      DSC 1,0",
        "      DSC 1,3",
        "      DSC 1,7",
        "      DSC 1,@",
    ];
    let flagged = ["      DSC 1,-2", "      DSC 1,-9"];
    let mut n = seed;
    for _digit in 0..count {
        n = next(n);
        let choice = (n / 65_536 % 6) as usize;
        lines.push(match choice {
            0..=3 => plain[choice],
            _ => flagged[choice - 4],
        })?;
    }
    lines.push("      DENDSTART")?;
    assembled(alloc, &lines)
}

// Both forms of a deck leave the same core.
#[test]
fn both_forms_load_the_same(rt: HostRuntime) -> Result<(), Fail> {
    for (count, seed) in [
        (1, 1),
        (2, 2),
        (3, 3),
        (12, 4),
        (57, 5),
        (58, 6),
        (69, 7),
        (138, 8),
        (250, 9),
        (399, 10),
        (400, 11),
    ] {
        let program = digits_at_random(rt.alloc(), count, seed)?;
        let one = loaded(rt.alloc(), &program, DeckForm::SelfLoading)?;
        let other = loaded(rt.alloc(), &program, DeckForm::Dense)?;
        assert!(rt; one.core.words() == other.core.words(), "{count} digits");
    }
    Ok(())
}
