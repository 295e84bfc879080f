// The texts of short sources, written to a host in memory.
use crate::sources::{program_of, source_of};
use outside_io::{MemHost, Sent, Unit};
use sps_listing::{image_text, listing, refusal, short_refusal_line, statement_at};
use sps_ops::Rule;
use std::alloc::Global;
use std::process::Abort;
use std::test::Fail;

// An instruction, and one digit that lies apart from it.
const TWO_PIECES: [&str; 4] = [
    "START H",
    "      DORG500",
    "      DSC 1,@",
    "      DENDSTART",
];

// A comment, a blank line, and more than twelve digits.
const LONG_CONSTANT: [&str; 5] = [
    "*A COMMENT  ",
    "",
    "START H",
    "X     DC  15,123456789012345",
    "      DENDSTART",
];

// Columns 1 to 5 of the lines are blanks.
const LONG_CONSTANT_LISTED: &[u8] = b"\
    00001                         *A COMMENT\n\
    00002                    \n\
    00003 00402 480000000000      START H\n\
    00004 00428 J23456789012      X     DC  15,123456789012345\n\
    00005 00429                         DENDSTART\n";

// X is worth 414 + 99,999 * 99,999, which is 9,999,800,415.
const FAR: [&str; 4] = [
    "START H",
    "      DSB 99999,99999",
    "X     DS  1",
    "      DENDSTART",
];

const FAR_LISTED: &[u8] = b"\
    00001 00402 480000000000      START H\n\
    00002 100412                         DSB 99999,99999\n\
    00003 9999800415                   X     DS  1\n\
    00004 9999800416                         DENDSTART\n";

// 110 bytes, listed next to the halt at 00402 of another source.
const LONG_LINE: &[u8] = b"\
    xxxxxxxxxxxxxxxxxxxxxxxxxxxxxxxxxxxxxxxxxxxxxxxxxxxxxxx\
    xxxxxxxxxxxxxxxxxxxxxxxxxxxxxxxxxxxxxxxxxxxxxxxxxxxxxxx\n";

const LONG_LINE_LISTED: &[u8] = b"\
    00001 00402 480000000000 \
    xxxxxxxxxxxxxxxxxxxxxxxxxxxxxxxxxxxxxxxxxxxxxxxxxxxxxxx\
    xxxxxxxxxxxxxxxxxxxxxxxxxxxxxxxxxxxxxxxxxxxxxxxxxxxxxxx\n";

// An instruction at 00402, another at 00414, one more at 00402, and two digits at 00428 and 00429.
const TWICE_AT_ONE_PLACE: [&str; 6] = [
    "START H",
    "      H",
    "      DORG402",
    "      NOP",
    "X     DC  2,9,429",
    "      DENDSTART",
];

// Statements that break rules; the last line has no LF, and one ends in a CR.
const SHOWN: &[u8] = b"\
    \x20    START H\n\
    \x20     1+2  TFM\r\n\
    \x20          TF  X,Q1\n\
    \x20    START TFXX\n\
    \x20          DSA A, (B ,,C,D,E,F,G,H,I+\n\
    \x20          DC  3,  1 2 ,402";

// A statement of these, a rule, a part, and the text after the statement's number.
const REFUSED: [(u32, Rule, Option<u8>, &str); 28] = [
    // the label, whatever the part
    (2, Rule::BadLabel, None, "03 BadLabel 1+2"),
    (4, Rule::DuplicateLabel, Some(1), "05 DuplicateLabel START"),
    (3, Rule::BadLabel, None, "03 BadLabel"),
    // the operation
    (4, Rule::UnknownOperation, None, "04 UnknownOperation TFXX"),
    (2, Rule::UnknownOperation, None, "04 UnknownOperation TFM"),
    // a part, also the last of ten, without the blanks at its ends
    (5, Rule::BadExpression, Some(1), "07 BadExpression (B"),
    (3, Rule::UndefinedSymbol, Some(1), "08 UndefinedSymbol Q1"),
    (3, Rule::LateSymbol, Some(0), "09 LateSymbol X"),
    (5, Rule::ValueTooLarge, Some(9), "10 ValueTooLarge I+"),
    (6, Rule::BadLength, Some(0), "11 BadLength 3"),
    (6, Rule::BadConstant, Some(1), "12 BadConstant 1 2"),
    (5, Rule::BadFlags, Some(3), "13 BadFlags C"),
    (6, Rule::EvenAddress, Some(2), "20 EvenAddress 402"),
    // an empty part, no part, and a part that no statement has
    (5, Rule::BadExpression, Some(2), "07 BadExpression"),
    (3, Rule::UndefinedSymbol, None, "08 UndefinedSymbol"),
    (5, Rule::UndefinedSymbol, Some(10), "08 UndefinedSymbol"),
    (5, Rule::UndefinedSymbol, Some(255), "08 UndefinedSymbol"),
    // a statement that the source does not have
    (0, Rule::UndefinedSymbol, Some(0), "08 UndefinedSymbol"),
    (7, Rule::UndefinedSymbol, Some(0), "08 UndefinedSymbol"),
    (u32::MAX, Rule::BadLabel, None, "03 BadLabel"),
    // rules that show no text of the statement
    (3, Rule::BadColumn, Some(1), "01 BadColumn"),
    (3, Rule::LongCard, Some(1), "02 LongCard"),
    (3, Rule::MissingOperand, Some(1), "06 MissingOperand"),
    (3, Rule::OutsideImage, Some(1), "14 OutsideImage"),
    (3, Rule::BadStart, Some(1), "15 BadStart"),
    (3, Rule::AfterEnd, Some(1), "16 AfterEnd"),
    (3, Rule::NoEnd, Some(1), "17 NoEnd"),
    (3, Rule::NoStart, Some(1), "18 NoStart"),
];

// Checks that the listing of these lines is this text.
fn is_listed(rt: &impl Abort, alloc: Global, lines: &[&str], want: &[u8]) -> Result<(), Fail> {
    let source = source_of(alloc, lines)?;
    let program = program_of(alloc, lines)?;
    let mut host = MemHost::new(alloc, 1000)?;
    assert!(rt; listing(&source, &program, &mut host) == Sent::Done);
    assert!(rt; host.shown(Unit::Listing) == want);
    Ok(())
}

#[test]
fn each_piece_begins_a_line(rt: HostRuntime) -> Result<(), Fail> {
    let program = program_of(rt.alloc(), &TWO_PIECES)?;
    let mut host = MemHost::new(rt.alloc(), 1000)?;
    assert!(rt; image_text(&program.image, &mut host) == Sent::Done);
    let want = b"00402 480000000000\n00500 |\n".as_slice();
    assert!(rt; host.shown(Unit::Image) == want);
    Ok(())
}

#[test]
fn a_long_piece_has_lines_of_fifty_digits(rt: HostRuntime) -> Result<(), Fail> {
    let lines = [
        "START H",
        "      DORG600",
        "      DC  50,1",
        "      DC  2,7",
        "      DENDSTART",
    ];
    let program = program_of(rt.alloc(), &lines)?;
    let mut host = MemHost::new(rt.alloc(), 1000)?;
    assert!(rt; image_text(&program.image, &mut host) == Sent::Done);
    let want = b"00402 480000000000\n\
        00600 ]0000000000000000000000000000000000000000000000001\n\
        00650 ]7\n"
        .as_slice();
    assert!(rt; host.shown(Unit::Image) == want);
    Ok(())
}

#[test]
fn a_refusal_has_its_statement_and_its_rule(rt: HostRuntime) -> Result<(), Fail> {
    let mut host = MemHost::new(rt.alloc(), 1000)?;
    let done = refusal(SHOWN, 3, Rule::UndefinedSymbol, Some(1), &mut host);
    assert!(rt; done == Sent::Done);
    let want = b"REFUSED 00003 08 UndefinedSymbol Q1\n".as_slice();
    assert!(rt; host.shown(Unit::Report) == want);
    let line = short_refusal_line(20_001, Rule::TooManyStatements);
    assert!(rt; line.as_str() == "REFUSED 20001 19 TooManyStatements\n");
    Ok(())
}

#[test]
fn a_refusal_shows_what_breaks_its_rule(rt: HostRuntime) -> Result<(), Fail> {
    for (statement, rule, part, behind) in REFUSED {
        let mut host = MemHost::new(rt.alloc(), 1000)?;
        let sent = refusal(SHOWN, statement, rule, part, &mut host);
        assert!(rt; sent == Sent::Done);
        let want = format!(in rt.alloc(); "REFUSED {statement:05} {behind}\n")?;
        assert!(rt; host.shown(Unit::Report) == want.as_bytes(), "{want}");
    }
    Ok(())
}

#[test]
fn a_failure_leaves_a_first_part_of_the_refusal(rt: HostRuntime) -> Result<(), Fail> {
    let mut full = MemHost::new(rt.alloc(), 33)?;
    let sent = refusal(SHOWN, 3, Rule::UndefinedSymbol, Some(1), &mut full);
    assert!(rt; sent == Sent::Failed);
    let want = b"REFUSED 00003 08 UndefinedSymbol ".as_slice();
    assert!(rt; full.shown(Unit::Report) == want);
    Ok(())
}

#[test]
fn a_failure_leaves_a_first_part(rt: HostRuntime) -> Result<(), Fail> {
    let program = program_of(rt.alloc(), &TWO_PIECES)?;
    let mut broken = MemHost::new(rt.alloc(), 1000)?;
    broken.fail(1)?;
    assert!(rt; image_text(&program.image, &mut broken) == Sent::Failed);
    assert!(rt; broken.shown(Unit::Image).is_empty());
    let mut full = MemHost::new(rt.alloc(), 10)?;
    assert!(rt; image_text(&program.image, &mut full) == Sent::Failed);
    assert!(rt; full.shown(Unit::Image) == b"00402 4800".as_slice());
    Ok(())
}

#[test]
fn the_listing_has_a_line_for_each_statement(rt: HostRuntime) -> Result<(), Fail> {
    is_listed(&rt, rt.alloc(), &LONG_CONSTANT, LONG_CONSTANT_LISTED)
}

#[test]
fn an_address_has_as_many_digits_as_it_needs(rt: HostRuntime) -> Result<(), Fail> {
    is_listed(&rt, rt.alloc(), &FAR, FAR_LISTED)
}

#[test]
fn a_line_is_listed_whole_however_long(rt: HostRuntime) -> Result<(), Fail> {
    let program = program_of(rt.alloc(), &TWO_PIECES)?;
    let mut host = MemHost::new(rt.alloc(), 1000)?;
    assert!(rt; listing(LONG_LINE, &program, &mut host) == Sent::Done);
    assert!(rt; host.shown(Unit::Listing) == LONG_LINE_LISTED);
    Ok(())
}

#[test]
fn a_failure_leaves_a_first_part_of_the_listing(rt: HostRuntime) -> Result<(), Fail> {
    let source = source_of(rt.alloc(), &TWO_PIECES)?;
    let program = program_of(rt.alloc(), &TWO_PIECES)?;
    let mut broken = MemHost::new(rt.alloc(), 1000)?;
    broken.fail(2)?;
    assert!(rt; listing(&source, &program, &mut broken) == Sent::Failed);
    let want = b"00001 00402 480000000000      START H\n".as_slice();
    assert!(rt; broken.shown(Unit::Listing) == want);
    Ok(())
}

#[test]
fn the_last_instruction_at_an_address_counts(rt: HostRuntime) -> Result<(), Fail> {
    let program = program_of(rt.alloc(), &TWICE_AT_ONE_PLACE)?;
    let rows = [
        (402, Some(4)),
        (414, Some(2)),
        // within an instruction, at a constant, and after all digits
        (403, None),
        (429, None),
        (430, None),
    ];
    for (address, want) in rows {
        assert!(rt; statement_at(&program, address) == want, "{address}");
    }
    Ok(())
}
