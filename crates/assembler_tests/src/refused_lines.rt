// The statements for which short sources are refused. The first two sources are in docs/assembler.md.
use sps_listing::{RefusedLine, refused_line};
use sps_ops::Rule;
use sps_pass_two::{AsmFault, assemble};
use std::alloc::Global;
use std::process::Abort;
use std::test::Fail;

// A source, and the statement for which it is refused, as it is shown.
#[derive(Clone, Copy)]
struct Row {
    source: &'static [u8],
    statement: u32,
    rule: Rule,
    part: Option<u8>,
    text: &'static [u8],
    bytes: usize,
}

// Statement 3 has a name that is no label, and statement 4 an unknown operation.
const FIRST_OF_TWO: Row = Row {
    source: b"\
        \x20    START H\n\
        \x20    X     DC  5,0\n\
        \x20          TF  X,Q1\n\
        \x20          ZZ\n\
        \x20          DENDSTART\n",
    statement: 3,
    rule: Rule::UndefinedSymbol,
    part: Some(1),
    text: b"           TF  X,Q1",
    bytes: 19,
};

// A line of 94 bytes.
const TOO_LONG: Row = Row {
    source: b"           H   ,,,THIS REMARK IS SO LONG THAT IT GOES ON PAST COLUMN 80, WHICH IS THE LAST ONE\n",
    statement: 1,
    rule: Rule::LongCard,
    part: None,
    text: b"           H   ,,,THIS REMARK IS SO LONG THAT IT GOES ON PAST COLUMN 80, WHICH I",
    bytes: 94,
};

// A line of 80 bytes, and a CR before its LF.
const FULL: Row = Row {
    source: b"           DS  0,Q1,THIS REMARK IS SO LONG THAT IT GOES ON TO COLUMN 80, THE END\r\n",
    statement: 1,
    rule: Rule::UndefinedSymbol,
    part: Some(1),
    text: b"           DS  0,Q1,THIS REMARK IS SO LONG THAT IT GOES ON TO COLUMN 80, THE END",
    bytes: 80,
};

// The statement for which a source is refused, for a core of 20,000 positions; None if it is accepted.
fn refused_of(alloc: Global, source: &[u8]) -> Result<Option<RefusedLine>, AsmFault> {
    match assemble(alloc, source, 20_000) {
        Ok(_) => Ok(None),
        Err(
            AsmFault::Broken {
                statement,
                rule,
                part,
            },
        ) => Ok(Some(refused_line(alloc, source, statement, rule, part)?)),
        Err(AsmFault::Memory) => Err(AsmFault::Memory),
    }
}

// Checks that a refused line is as in a row.
fn is_row(rt: &impl Abort, line: &RefusedLine, row: Row) {
    assert!(rt; line.statement == row.statement);
    assert!(rt; line.rule == row.rule);
    assert!(rt; line.part == row.part);
    assert!(rt; line.text.as_slice() == row.text);
    assert!(rt; line.bytes == row.bytes);
}

#[test]
fn a_refused_statement_is_shown_as_it_stands(rt: HostRuntime) -> Result<(), Fail> {
    for row in [FIRST_OF_TWO, TOO_LONG, FULL] {
        match refused_of(rt.alloc(), row.source)? {
            Some(line) => is_row(&rt, &line, row),
            None => assert!(rt; false, "it is accepted"),
        }
    }
    Ok(())
}

#[test]
fn a_statement_that_is_not_there_has_an_empty_line(rt: HostRuntime) -> Result<(), Fail> {
    for statement in [0, 2, u32::MAX] {
        let line = refused_line(rt.alloc(), FULL.source, statement, Rule::NoEnd, None)?;
        assert!(rt; line.statement == statement);
        assert!(rt; line.text.is_empty() && line.bytes == 0);
    }
    Ok(())
}
