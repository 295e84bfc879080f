//! Bootstrap decks worked out by hand.

use card_code::Card;
use card_unit::Hopper;
use cpu_step::{Machine, Mode, Turned};
use digit_core::{CellFault, Core, Digit, standard_digit};
use disk_loader::{bootstrap, sector_count, sector_text, write_sectors};
use outside_io::{MemHost, Sent};
use sps_pass_two::{Assembled, assemble};
use std::alloc::Global;
use std::test::Fail;

// The program of lines from column 6 on, for a core of one module, or of two.
fn assembled(alloc: Global, lines: &[&str], two: bool) -> Result<Assembled, Fail> {
    let mut source = Vec::new(alloc);
    for line in lines {
        source.extend_from_slice(b"     ")?;
        source.extend_from_slice(line.as_bytes())?;
        source.push(b'\n')?;
    }
    let positions = if two { 40_000 } else { 20_000 };
    Ok(assemble(alloc, source.as_slice(), positions)?)
}

// Gives every cell even parity.
fn spoil(core: &mut Core<2>) {
    for a in 0..40_000u32 {
        core.flip(a, 0);
    }
}

const PAYROLL: &[&str] = &[
    "*PAYROLL",
    "START RNCDCARD",
    "      SF  CARD",
    "      SF  CARD+5",
    "      SF  CARD+11",
    "      A   CARD+10,CARD+16,,GROSS",
    "      A   TOTAL,CARD+10",
    "      TF  OUT+4,CARD+4",
    "      CF  OUT",
    "      TF  OUT+15,CARD+10",
    "      CF  OUT+10",
    "      WNCDOUT",
    "      BNLCSTART",
    "      CF  TOTAL-7",
    "      WNTYTOTAL-7",
    "      RCTY",
    "      H",
    "TOTAL DC  8,0",
    "      DSC 1,@",
    "CARD  DSS 80",
    "OUT   DSS 80",
    "      DENDSTART",
];

#[test]
fn the_payroll_is_six_sectors_and_two_cards(rt: HostRuntime) -> Result<(), Fail> {
    let program = assembled(rt.alloc(), PAYROLL, false)?;
    assert!(rt; sector_count(&program) == 6);
    let cards = bootstrap(rt.alloc(), &program)?;
    assert!(rt; cards.len() == 2);
    assert!(rt;
        cards.get(0)
            == Some(&Card(
                *b"34000480070136000480070236000000050049000000000010000100600100000000000000000000"
            ))
    );
    assert!(rt;
        cards.get(1)
            == Some(&Card(
                *b"49004020000000000000000000000000000049000000000000000000000000000000000000000000"
            ))
    );
    assert!(rt;
        sector_text(&program, 4)
            == Some(
                *b"0036006030050032006030000032006080000032006140000021006130061921006010061326006870060733006830000026"
            )
    );
    assert!(rt;
        sector_text(&program, 3)
            == Some(
                *b"0123456789123456789]23456789]J3456789]JK456789]JKL56789]JKLM6789]JKLMN789]JKLMNO89]JKLMNOP9]JKLMNOPQ"
            )
    );
    assert!(rt; sector_text(&program, 0) == None);
    Ok(())
}

#[test]
fn a_stretch_ends_with_its_cylinder(rt: HostRuntime) -> Result<(), Fail> {
    let program = assembled(
        rt.alloc(),
        &[
            "START H",
            "      DORG19990",
            "      DSC 20,0",
            "      DENDSTART",
        ],
        true,
    )?;
    let cards = bootstrap(rt.alloc(), &program)?;
    assert!(rt; cards.len() == 4);
    assert!(rt;
        cards.get(1)
            == Some(&Card(
                *b"34000480070136000480070236000000050049000000000010019900119900000000000000000000"
            ))
    );
    assert!(rt;
        cards.get(2)
            == Some(&Card(
                *b"34000480070136000480070236000000050049000000000010020000120000000000000000000000"
            ))
    );
    let mut host = MemHost::new(rt.alloc(), 0)?;
    assert!(rt; write_sectors(&program, &mut host) == Sent::Done);
    let mut machine = Machine::<2>::power_on(rt.alloc(), Hopper::of_cards(cards))?;
    spoil(&mut machine.core);
    let mut last = machine.load_key(&mut host);
    for _step in 0..13u32 {
        if machine.is_running() {
            last = machine.step(&mut host);
        }
    }
    assert!(rt; last == Turned::On);
    assert!(rt; machine.mode == Mode::Running);
    assert!(rt; machine.regs.ir == 402);
    assert!(rt; machine.arms == [1, 0, 0, 0]);
    for a in 80..40_000u32 {
        let zero = Digit {
            flag: false,
            value: 0,
        };
        let want = match a {
            100..=399 => Ok(standard_digit(a)),
            402 => Ok(Digit {
                flag: false,
                value: 4,
            }),
            403 => Ok(Digit {
                flag: false,
                value: 8,
            }),
            400..=499 | 19_900..=20_099 => Ok(zero),
            _ => Err(CellFault::EvenParity),
        };
        assert!(rt; machine.core.get(a) == want, "cell {a}");
    }
    Ok(())
}
