// Each rule at its edge: sources that just break it, and sources that just keep it.
use crate::operand_edges::{CONSTANTS_AND_FLAGS, EXPRESSIONS, LENGTHS, PLACES};
use crate::sources::{HALT_AND_END, Refused, refusal, source_of};
use sps_ops::Rule;
use std::alloc::Global;
use std::process::Abort;
use std::test::Fail;

// Lines, and their refusal.
pub(crate) type Row = (&'static [&'static str], Refused);

const LABELS_AND_OPERATIONS: [Row; 40] = [
    // 1: only columns 6 to 15 and operand parts matter
    (&["A     DC  5,'5'"], Some((1, Rule::BadColumn))),
    (&["      TF  a,1"], Some((1, Rule::BadColumn))),
    (&["      TF  1,2,]"], Some((1, Rule::BadColumn))),
    (&["      DAC 1,}"], Some((1, Rule::BadColumn))),
    (&["a     H"], Some((1, Rule::BadColumn))),
    (&["      h"], Some((1, Rule::BadColumn))),
    (&["      TF  1,2,,small letters, and ]}|"], None),
    (&["      DORG500,'5'"], None),
    (&["      DAC 1,A'5'"], None),
    (&["*small letters, and ]}|"], None),
    (&["      DAC 14, .)+$*-/,(=@09"], None),
    // 3: letters and digits with a letter among them
    (&["12    H"], Some((1, Rule::BadLabel))),
    (&["123456H"], Some((1, Rule::BadLabel))),
    (&["A 2   H"], Some((1, Rule::BadLabel))),
    (&["A*2   H"], Some((1, Rule::BadLabel))),
    (&["+     H"], Some((1, Rule::BadLabel))),
    (&["A2    H"], None),
    (&["2A    H"], None),
    (&["12345XH"], None),
    (&["  A2  H"], None),
    // 4: no multiplication, no division, and no declarative that the assembler lacks
    (&["      ZZ"], Some((1, Rule::UnknownOperation))),
    (&["      M   1,2"], Some((1, Rule::UnknownOperation))),
    (&["      13  1,2"], Some((1, Rule::UnknownOperation))),
    (&["      23  1,2"], Some((1, Rule::UnknownOperation))),
    (&["      18  1,2"], Some((1, Rule::UnknownOperation))),
    (&["      19  1,2"], Some((1, Rule::UnknownOperation))),
    (&["      28  1,2"], Some((1, Rule::UnknownOperation))),
    (&["      29  1,2"], Some((1, Rule::UnknownOperation))),
    (&["      026 1,2"], Some((1, Rule::UnknownOperation))),
    (&["      D S 1"], Some((1, Rule::UnknownOperation))),
    (&["      TCD 402"], Some((1, Rule::UnknownOperation))),
    (&["A"], Some((1, Rule::UnknownOperation))),
    (&["          1,2"], Some((1, Rule::UnknownOperation))),
    (&["      26  1,2"], None),
    (&["       TF 1,2"], None),
    // 5: a label belongs to one statement
    (
        &["A     DS  1", "A     DS  1"],
        Some((2, Rule::DuplicateLabel)),
    ),
    (&["A     DS  1", " A    H"], Some((2, Rule::DuplicateLabel))),
    (&["START DS  1"], Some((2, Rule::DuplicateLabel))),
    (&["A     DS  1", "*     A", "B     DS  1"], None),
    (&["A     DS  1", "A1    DS  1", "1A    DS  1"], None),
];

// 6: some parts of a declarative may be empty, and others not
const MISSING_OPERANDS: [Row; 25] = [
    (&["      DS"], Some((1, Rule::MissingOperand))),
    (&["      DS  , "], Some((1, Rule::MissingOperand))),
    (&["      DS  5"], None),
    (&["      DS  ,500"], None),
    (&["      DSS ,,500"], Some((1, Rule::MissingOperand))),
    (&["      DSS ,500"], None),
    (&["      DAS ,501"], Some((1, Rule::MissingOperand))),
    (&["      DC  ,1"], Some((1, Rule::MissingOperand))),
    (&["      DC  1, ,500"], Some((1, Rule::MissingOperand))),
    (&["      DSC 1"], Some((1, Rule::MissingOperand))),
    (&["      DAC ,A"], Some((1, Rule::MissingOperand))),
    (&["      DAC 1"], Some((1, Rule::MissingOperand))),
    (&["      DAC 1,"], None),
    (&["      DSA"], Some((1, Rule::MissingOperand))),
    (&["      DSA ,1"], Some((1, Rule::MissingOperand))),
    (&["      DSA 1,,2"], None),
    (&["      DSB ,5"], Some((1, Rule::MissingOperand))),
    (&["      DSB 5"], Some((1, Rule::MissingOperand))),
    (&["      DNB"], Some((1, Rule::MissingOperand))),
    (&["      DGM"], None),
    (&["      DDA 1,2,3"], Some((1, Rule::MissingOperand))),
    (&["      DDA 1,2, ,4"], Some((1, Rule::MissingOperand))),
    (&["      DDA 1,2,3,4"], None),
    (&["      DORG"], Some((1, Rule::MissingOperand))),
    (&["      H"], None),
];

// The refusal names the first statement that breaks a rule, with the least of its rules.
const LEAST: [Row; 15] = [
    (
        &[
            "A     H",
            "X     DC  5,0",
            "      TF  X,Q1",
            "",
            "",
            "",
            "",
            "",
            "",
            "      ZZ",
        ],
        Some((3, Rule::UndefinedSymbol)),
    ),
    (
        &["      ZZ", "      DC  5,'5'"],
        Some((1, Rule::UnknownOperation)),
    ),
    (&["a     ZZ"], Some((1, Rule::BadColumn))),
    (&["12    ZZ"], Some((1, Rule::BadLabel))),
    (
        &["A     DS  1", "A     ZZ"],
        Some((2, Rule::UnknownOperation)),
    ),
    (
        &["A     DS  1", "A     DORG"],
        Some((2, Rule::DuplicateLabel)),
    ),
    (&["      DDA ,1+,1,1"], Some((1, Rule::MissingOperand))),
    (&["      TF  NOBODY,1+"], Some((1, Rule::BadExpression))),
    (
        &["      DS  START,NOBODY"],
        Some((1, Rule::UndefinedSymbol)),
    ),
    (&["      DS  START,100000"], Some((1, Rule::LateSymbol))),
    (&["      DS  0,100000"], Some((1, Rule::ValueTooLarge))),
    (&["      TF  1,100000,71"], Some((1, Rule::ValueTooLarge))),
    (&["      DC  51,A"], Some((1, Rule::BadLength))),
    (&["      DC  1,A,20000"], Some((1, Rule::BadConstant))),
    (
        &["      DORG398", "      H   ,,71"],
        Some((2, Rule::BadFlags)),
    ),
];

// Sources with their own end, or without an end.
const ENDS: [Row; 38] = [
    // 15: the start is even, and an instruction has room there
    (&["      DEND400"], None),
    (&["      DEND398"], Some((1, Rule::BadStart))),
    (&["      DEND399"], Some((1, Rule::BadStart))),
    (&["      DEND401"], Some((1, Rule::BadStart))),
    (&["      DEND19988"], None),
    (&["      DEND19989"], Some((1, Rule::BadStart))),
    (&["      DEND19990"], Some((1, Rule::BadStart))),
    (&["      DEND0"], Some((1, Rule::BadStart))),
    (&["      DEND-402"], Some((1, Rule::BadStart))),
    (&["      DEND99999"], Some((1, Rule::BadStart))),
    (&["      DEND-99999"], Some((1, Rule::BadStart))),
    (&["      DEND100000"], Some((1, Rule::ValueTooLarge))),
    (&["      DEND-100000"], Some((1, Rule::ValueTooLarge))),
    (&["      DEND1+"], Some((1, Rule::BadExpression))),
    (&["      DENDNOBODY"], Some((1, Rule::UndefinedSymbol))),
    (&["X     DENDX"], None),
    (&["      DEND*"], None),
    (&["      DS  1", "      DEND*"], Some((2, Rule::BadStart))),
    // 16: only comments and blank lines follow the end
    (&["      DEND402", "*A COMMENT", "", "       "], None),
    (&["      DEND402", "      H"], Some((2, Rule::AfterEnd))),
    (
        &["      DEND402", "*A COMMENT", "A"],
        Some((3, Rule::AfterEnd)),
    ),
    (
        &["      DEND402", "      DEND402"],
        Some((2, Rule::AfterEnd)),
    ),
    (&["      DEND402", "      ZZ"], Some((2, Rule::AfterEnd))),
    (&["A     DEND402", "A     H"], Some((2, Rule::AfterEnd))),
    (
        &["      DEND402", "12    TF  NOBODY,1+"],
        Some((2, Rule::AfterEnd)),
    ),
    (&["      DEND402", "      h"], Some((2, Rule::BadColumn))),
    // and a label after the end is undefined
    (
        &["      B   LATE", "      DEND402", "LATE  H"],
        Some((1, Rule::UndefinedSymbol)),
    ),
    // 17: the refusal names the statement one past the last
    (&[], Some((1, Rule::NoEnd))),
    (&["START H"], Some((2, Rule::NoEnd))),
    (&["*     DEND402"], Some((2, Rule::NoEnd))),
    (&["", "", "START H", ""], Some((5, Rule::NoEnd))),
    (&["           DEND402"], Some((1, Rule::UnknownOperation))),
    // 18: an end has a start
    (&["      DEND"], Some((1, Rule::NoStart))),
    (&["      DEND  "], Some((1, Rule::NoStart))),
    (&["      DEND,402"], Some((1, Rule::NoStart))),
    (&["START H", "      DEND ,START"], Some((2, Rule::NoStart))),
    (&["      DEND402,THE END"], None),
    (&["START H", "      DEND START "], None),
];

fn stand(rt: &impl Abort, alloc: Global, rows: &[Row], behind: &[&str]) -> Result<(), Fail> {
    let end = source_of(alloc, behind)?;
    for (lines, want) in rows {
        let mut source = source_of(alloc, lines)?;
        source.extend_from_slice(&end)?;
        let found = refusal(alloc, &source)?;
        assert!(rt; found == *want, "{lines:?}");
    }
    Ok(())
}

// HEAD, and the symbols under it. The START that follows each row is under no head again, or under the last head.
const HEADS: [Row; 19] = [
    (&["      HEADX", "      HEAD"], None),
    (&["      HEAD1", "      HEAD ,,,REMARK"], None),
    (&["      HEAD X", "      HEAD   "], None),
    (&["      HEADXY"], Some((1, Rule::BadExpression))),
    (&["      HEAD*"], Some((1, Rule::BadExpression))),
    (&["      HEADX$"], Some((1, Rule::BadExpression))),
    (&["      HEADX,1"], Some((1, Rule::BadExpression))),
    (&["      HEADX,,1"], Some((1, Rule::BadExpression))),
    (&["      HEADX,,,1", "      HEAD"], None),
    // one symbol, and two
    (&["A     H", "      HEADX", "A     H", "      HEAD"], None),
    (
        &["A     H", "      HEADX", "      HEAD", "A     H"],
        Some((4, Rule::DuplicateLabel)),
    ),
    (
        &["ABCDEFH", "      HEADX", "ABCDEFH"],
        Some((3, Rule::DuplicateLabel)),
    ),
    // the label of a HEAD is under the head before it
    (&["A     HEADX", "      B   $A", "      HEAD"], None),
    (
        &["A     HEADX", "      B   A", "      HEAD"],
        Some((2, Rule::UndefinedSymbol)),
    ),
    // names under a head
    (
        &[
            "      HEADX",
            "A     H",
            "      B   A,X$A",
            "      HEAD",
            "      B   X$A",
        ],
        None,
    ),
    (
        &["      HEADX", "A     H", "      HEAD", "      B   A"],
        Some((4, Rule::UndefinedSymbol)),
    ),
    (
        &["      DS  X$A", "      HEADX", "A     H"],
        Some((1, Rule::LateSymbol)),
    ),
    (&["      B   A$1"], Some((1, Rule::BadExpression))),
    (&["      B   $ABCDEF"], Some((1, Rule::BadExpression))),
];

#[test]
fn rules_at_their_edges(rt: HostRuntime) -> Result<(), Fail> {
    let alloc = rt.alloc();
    stand(&rt, alloc, &LABELS_AND_OPERATIONS, HALT_AND_END)?;
    stand(&rt, alloc, &MISSING_OPERANDS, HALT_AND_END)?;
    stand(&rt, alloc, &EXPRESSIONS, HALT_AND_END)?;
    stand(&rt, alloc, &LENGTHS, HALT_AND_END)?;
    stand(&rt, alloc, &CONSTANTS_AND_FLAGS, HALT_AND_END)?;
    stand(&rt, alloc, &PLACES, HALT_AND_END)?;
    stand(&rt, alloc, &HEADS, HALT_AND_END)?;
    stand(&rt, alloc, &LEAST, HALT_AND_END)?;
    stand(&rt, alloc, &ENDS, &[])?;
    Ok(())
}
