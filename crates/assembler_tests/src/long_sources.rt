// Sources about as long as they may be.
use crate::sources::{HALT_AND_END, Refused, digits_text, refusal, source_of};
use sps_ops::Rule;
use sps_pass_two::assemble;
use std::alloc::{AllocError, Global};
use std::process::Abort;
use std::test::Fail;

// How many comments come first, the lines after them, and the refusal of the source.
type Row = (u32, &'static [&'static str], Refused);

const ROWS: [Row; 11] = [
    (19_998, HALT_AND_END, None),
    (
        19_999,
        HALT_AND_END,
        Some((20_001, Rule::TooManyStatements)),
    ),
    (
        30_000,
        HALT_AND_END,
        Some((20_001, Rule::TooManyStatements)),
    ),
    (
        19_998,
        &["START H", "      DENDSTART", "*A COMMENT"],
        Some((20_001, Rule::TooManyStatements)),
    ),
    // if statement 20,001 breaks a lesser rule, the refusal names that rule
    (
        19_998,
        &["START H", "      DENDSTART", "      H"],
        Some((20_001, Rule::AfterEnd)),
    ),
    (
        20_000,
        &["      ZZ"],
        Some((20_001, Rule::UnknownOperation)),
    ),
    (
        19_999,
        &["      ZZ", "", ""],
        Some((20_000, Rule::UnknownOperation)),
    ),
    // the label of statement 20,001 is defined, and later labels are not
    (
        19_999,
        &["      B   LATE", "LATE  H"],
        Some((20_001, Rule::TooManyStatements)),
    ),
    (
        19_998,
        &["      B   LATE", "", "", "LATE  H"],
        Some((19_999, Rule::UndefinedSymbol)),
    ),
    // the refusal for a missing end names the statement one past the last
    (20_000, &[], Some((20_001, Rule::NoEnd))),
    (20_001, &[], Some((20_001, Rule::TooManyStatements))),
];

fn long_source(alloc: Global, comments: u32, behind: &[&str]) -> Result<Vec<u8>, AllocError> {
    let mut source = Vec::new(alloc);
    for _ in 0..comments {
        source.extend_from_slice(b"     *A COMMENT\n")?;
    }
    let lines = source_of(alloc, behind)?;
    source.extend_from_slice(&lines)?;
    Ok(source)
}

fn stand(rt: &impl Abort, alloc: Global, rows: &[Row]) -> Result<(), Fail> {
    for (comments, behind, want) in rows {
        let source = long_source(alloc, *comments, behind)?;
        let found = refusal(alloc, &source)?;
        assert!(rt; found == *want, "{comments} comments and {behind:?}");
    }
    Ok(())
}

#[test]
fn many_statements(rt: HostRuntime) -> Result<(), Fail> {
    stand(&rt, rt.alloc(), &ROWS)?;
    let source = long_source(rt.alloc(), 19_998, HALT_AND_END)?;
    let program = assemble(rt.alloc(), &source, 20_000)?;
    let placed = program.placed.as_slice();
    assert!(rt; placed.len() == 20_000);
    assert!(rt; placed[0].address == 402);
    let halt = digits_text(rt.alloc(), placed[19_998].digits.as_slice())?;
    assert!(rt; halt.as_str() == "480000000000");
    assert!(rt; placed[19_999].address == 414);
    Ok(())
}
