// The listing of a whole program, and its statements by their addresses.
use crate::sources::{program_of, source_of};
use outside_io::{MemHost, Sent, Unit};
use sps_listing::{listing, statement_at};
use std::test::Fail;

// The payroll: the columns that the listing has before each line, and the line from its column 6 on.
const PAYROLL: [(&str, &str); 22] = [
    ("00001                    ", "*PAYROLL"),
    ("00002 00402 360060300500 ", "START RNCDCARD"),
    ("00003 00414 320060300000 ", "      SF  CARD"),
    ("00004 00426 320060800000 ", "      SF  CARD+5"),
    ("00005 00438 320061400000 ", "      SF  CARD+11"),
    (
        "00006 00450 210061300619 ",
        "      A   CARD+10,CARD+16,,GROSS",
    ),
    ("00007 00462 210060100613 ", "      A   TOTAL,CARD+10"),
    ("00008 00474 260068700607 ", "      TF  OUT+4,CARD+4"),
    ("00009 00486 330068300000 ", "      CF  OUT"),
    ("00010 00498 260069800613 ", "      TF  OUT+15,CARD+10"),
    ("00011 00510 330069300000 ", "      CF  OUT+10"),
    ("00012 00522 380068300400 ", "      WNCDOUT"),
    ("00013 00534 470040200900 ", "      BNLCSTART"),
    ("00014 00546 330059400000 ", "      CF  TOTAL-7"),
    ("00015 00558 380059400100 ", "      WNTYTOTAL-7"),
    ("00016 00570 340000000102 ", "      RCTY"),
    ("00017 00582 480000000000 ", "      H"),
    ("00018 00601 ]0000000     ", "TOTAL DC  8,0"),
    ("00019 00602 |            ", "      DSC 1,@"),
    ("00020 00603              ", "CARD  DSS 80"),
    ("00021 00683              ", "OUT   DSS 80"),
    ("00022 00763              ", "      DENDSTART"),
];

#[test]
fn the_listing_of_the_payroll(rt: HostRuntime) -> Result<(), Fail> {
    let mut lines = Vec::new(rt.alloc());
    let mut want = String::new(rt.alloc());
    for (columns, line) in PAYROLL {
        lines.push(line)?;
        want.push_str(columns)?;
        want.push_str("     ")?;
        want.push_str(line)?;
        want.push('\n')?;
    }
    let source = source_of(rt.alloc(), &lines)?;
    let program = program_of(rt.alloc(), &lines)?;
    let mut host = MemHost::new(rt.alloc(), 4000)?;
    assert!(rt; listing(&source, &program, &mut host) == Sent::Done);
    assert!(rt; host.shown(Unit::Listing) == want.as_bytes());
    Ok(())
}

#[test]
fn the_instructions_of_the_payroll(rt: HostRuntime) -> Result<(), Fail> {
    let mut lines = Vec::new(rt.alloc());
    for (_, line) in PAYROLL {
        lines.push(line)?;
    }
    let program = program_of(rt.alloc(), &lines)?;
    let rows = [
        (402, Some(2)),
        (414, Some(3)),
        (582, Some(17)),
        // within an instruction, at the first and the last digit of the total, and at the end
        (583, None),
        (594, None),
        (601, None),
        (763, None),
    ];
    for (address, want) in rows {
        assert!(rt; statement_at(&program, address) == want, "{address}");
    }
    Ok(())
}
