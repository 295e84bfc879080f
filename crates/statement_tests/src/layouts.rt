// Layouts of short sources, and of one that is too long.
use sps_ops::Rule;
use sps_pass_one::{Layout, LookedUp, Places, Walk, counts_if, lay_out, locate};
use sps_scan::scan;
use std::alloc::{AllocError, Global};

// The layout of a source.
#[derive(Clone, Copy)]
struct Laid<'a> {
    // How many statements are laid out.
    statements: usize,
    // Statements, counted from 1, each with its location, the value of its label, and how many digits it declares.
    places: &'a [(usize, (i64, i64, i64))],
    // Labels, each with its value and its statement; None if it is undefined.
    labels: &'a [(&'static str, Option<(i64, u32)>)],
    // The first statement whose layout is broken, with its rule.
    broken: Option<(u32, Rule)>,
}

// Adds a line that is written from column 6 on: label in columns 6 to 11, operation in 12 to 15, operands from 16 on.
fn add_line(source: &mut Vec<u8>, line: &str) -> Result<(), AllocError> {
    source.extend_from_slice(b"     ")?;
    source.extend_from_slice(line.as_bytes())?;
    source.push(b'\n')?;
    Ok(())
}

// The source of lines from column 6 on.
fn source_of(alloc: Global, lines: &[&str]) -> Result<Vec<u8>, AllocError> {
    let mut source = Vec::new(alloc);
    for line in lines {
        add_line(&mut source, line)?;
    }
    Ok(source)
}

// The location of a statement, the value of its label, and how many digits it declares; None if the statement does not exist.
fn shown(layout: &Layout, statement: usize) -> Option<(i64, i64, i64)> {
    let place = layout.places.as_slice().get(statement.checked_sub(1)?)?;
    Some((place.location, place.label, i64::from(place.digits)))
}

// Whether a layout is as wanted.
fn is_laid(layout: &Layout, want: &Laid<'_>) -> bool {
    for &(statement, place) in want.places {
        if shown(layout, statement) != Some(place) {
            return false;
        }
    }
    for &(name, label) in want.labels {
        if layout.symbols.find(name.as_bytes()) != label {
            return false;
        }
    }
    layout.places.as_slice().len() == want.statements && layout.broken == want.broken
}

// Whether a source has this layout.
fn lays_source(alloc: Global, source: &[u8], want: &Laid<'_>) -> bool {
    match lay_out(alloc, source) {
        Ok(layout) => is_laid(&layout, want),
        Err(_) => false,
    }
}

// Whether lines that are written from column 6 on have this layout.
fn lays(alloc: Global, lines: &[&str], want: &Laid<'_>) -> bool {
    match source_of(alloc, lines) {
        Ok(source) => lays_source(alloc, source.as_slice(), want),
        Err(_) => false,
    }
}

// Whether an empty vector has no places.
fn has_no_places(alloc: Global) -> bool {
    Places::from_vec(Vec::new(alloc)).as_slice().is_empty()
}

// X is worth 414 + 99,999 * 99,999, which is 9,999,800,415.
#[test]
fn locations_go_far_past_core(rt: HostRuntime) {
    let lines = [
        "START H",
        "      DSB 99999,99999",
        "X     DS  1",
        "      DENDSTART",
    ];
    let want = Laid {
        statements: 4,
        places: &[
            (1, (402, 402, 12)),
            (2, (414, 100_412, 0)),
            (3, (9_999_800_415, 9_999_800_415, 0)),
            (4, (9_999_800_416, 9_999_800_416, 0)),
        ],
        labels: &[("START", Some((402, 1))), ("X", Some((9_999_800_415, 3)))],
        broken: None,
    };
    assert!(rt; lays(rt.alloc(), &lines, &want));
    assert!(rt; has_no_places(rt.alloc()));
}

// A statement X, the value of X, the digits that it declares, and the location after it.
type Row = (&'static str, i64, i64, i64);

const FROM_500: [Row; 17] = [
    ("X     DS  5", 504, 0, 505),
    ("X     DSS 5", 500, 0, 505),
    ("X     DAS 5", 501, 0, 510),
    ("X     DC  5,12", 504, 5, 505),
    ("X     DSC 5,12", 500, 5, 505),
    ("X     DAC 5,HELLO", 501, 10, 510),
    ("X     DSA 1,X,*", 504, 15, 515),
    ("X     DSA 1,2,,3", 504, 10, 510),
    ("X     DSB 5,10", 504, 0, 550),
    ("X     DNB 5", 504, 5, 505),
    ("X     DGM", 500, 1, 501),
    ("X     DDA 1,200,2,700", 500, 14, 514),
    ("X     DORG700", 700, 0, 700),
    ("X     DEND500", 500, 0, 500),
    ("X     H", 500, 12, 512),
    // lists of ten addresses, and a length of 501 - 500 + 2 * 5
    ("X     DSA 1,2,3,4,5,6,7,8,9,10,11", 504, 50, 550),
    ("X     DS  501-*+2*5", 510, 0, 511),
];

// Only an instruction, a DAS and a DAC go on to the next even location.
const FROM_501: [Row; 6] = [
    ("X     H", 502, 12, 514),
    ("X     DAS 5", 503, 0, 512),
    ("X     DAC 5,HELLO", 503, 10, 512),
    ("X     DSS 5", 501, 0, 506),
    ("X     DSA 1,2", 505, 10, 511),
    ("X     DDA 1,200,2,700", 501, 14, 515),
];

// With an address of their own, from 500: X is that address, and the location stays.
const WITH_ADDRESS: [Row; 11] = [
    ("X     DS  5,600", 600, 0, 500),
    ("X     DS  ,600", 600, 0, 500),
    ("X     DSS 5,600", 600, 0, 500),
    ("X     DAS 5,601", 601, 0, 500),
    ("X     DC  5,12,600", 600, 5, 500),
    ("X     DSC 5,12,600", 600, 5, 500),
    ("X     DAC 5,HELLO,601", 601, 10, 500),
    ("X     DSB 5,10,600", 600, 0, 500),
    ("X     DNB 5,0", 0, 5, 500),
    ("X     DGM 99999", 99_999, 1, 500),
    ("X     DS  5,*+1", 501, 0, 500),
];

// Whether a statement X has this layout after a DORG that sets the location to `at`.
fn stands(alloc: Global, at: i64, origin: &'static str, (line, x, digits, next): Row) -> bool {
    let labels = [("X", Some((x, 2)))];
    let want = Laid {
        statements: 3,
        places: &[(2, (at, x, digits)), (3, (next, next, 0))],
        labels: &labels,
        broken: None,
    };
    lays(alloc, &[origin, line, "      DEND"], &want)
}

#[test]
fn fields_and_labels_of_each_declarative(rt: HostRuntime) {
    for &row in &FROM_500 {
        assert!(rt; stands(rt.alloc(), 500, "      DORG500", row), "{}", row.0);
    }
    for &row in &FROM_501 {
        assert!(rt; stands(rt.alloc(), 501, "      DORG501", row), "{}", row.0);
    }
    for &row in &WITH_ADDRESS {
        assert!(rt; stands(rt.alloc(), 500, "      DORG500", row), "{}", row.0);
    }
}

// Y is the label of the next statement, and Q1 is undefined.
const BROKEN: [(&str, Rule); 19] = [
    ("X     ZZ", Rule::UnknownOperation),
    ("X     DS", Rule::MissingOperand),
    ("X     DORG", Rule::MissingOperand),
    ("X     DAC 5", Rule::MissingOperand),
    ("X     DSB 5", Rule::MissingOperand),
    ("X     DS  Q1,1+", Rule::BadExpression),
    ("X     DS  Q1", Rule::UndefinedSymbol),
    ("X     DS  Y", Rule::LateSymbol),
    ("X     DS  X", Rule::LateSymbol),
    ("X     DGM Y", Rule::LateSymbol),
    ("X     DORGY", Rule::LateSymbol),
    ("X     DORG100000", Rule::ValueTooLarge),
    ("X     DS  0", Rule::BadLength),
    ("X     DC  51,1", Rule::BadLength),
    ("X     DSB 5,0", Rule::BadLength),
    ("X     DAC 005,HELLO", Rule::BadLength),
    ("X     DAS 0,600", Rule::BadLength),
    ("X     DAS 5,600", Rule::EvenAddress),
    ("X     DAC 5,HELLO,600", Rule::EvenAddress),
];

// Whether a statement X at 501 breaks this rule, takes no digits, and gives its label and the next statement its own location.
fn breaks(alloc: Global, line: &str, rule: Rule) -> bool {
    let want = Laid {
        statements: 3,
        places: &[(2, (501, 501, 0)), (3, (501, 501, 0))],
        labels: &[("X", Some((501, 2))), ("Y", Some((501, 3)))],
        broken: Some((2, rule)),
    };
    lays(alloc, &["      DORG501", line, "Y     DSS 3"], &want)
}

#[test]
fn a_broken_layout_takes_nothing(rt: HostRuntime) {
    for &(line, rule) in &BROKEN {
        assert!(rt; breaks(rt.alloc(), line, rule), "{line}");
    }
}

// Six blank statements come before the unknown operation, which is statement 10.
#[test]
fn an_undefined_symbol_in_an_instruction_breaks_no_layout(rt: HostRuntime) {
    let lines = [
        "START H",
        "X     DC  5,0",
        "      TF  X,Q1",
        "\n\n\n\n\n",
        "      ZZ",
    ];
    let want = Laid {
        statements: 10,
        places: &[(3, (419, 420, 12)), (10, (432, 432, 0))],
        labels: &[],
        broken: Some((10, Rule::UnknownOperation)),
    };
    assert!(rt; lays(rt.alloc(), &lines, &want));
}

#[test]
fn only_plain_statements_up_to_the_end_have_labels(rt: HostRuntime) {
    let lines = [
        "*A COMMENT",
        "A     DS  '",
        "B     DS  5,,,THIS LINE HAS MORE THAN EIGHTY COLUMNS, AND SO IT IS NO STATEMENT",
        "123   DS  5",
        " 1E   DSS 5",
        "F     DEND",
        "G     DS  0",
    ];
    let want = Laid {
        statements: 7,
        places: &[(7, (412, 412, 0))],
        labels: &[
            ("A", None),
            ("B", None),
            ("123", None),
            ("G", None),
            ("1E", Some((407, 5))),
            ("F", Some((412, 6))),
        ],
        broken: None,
    };
    assert!(rt; lays(rt.alloc(), &lines, &want));
}

#[test]
fn the_first_statement_with_a_label_counts(rt: HostRuntime) {
    let lines = ["A     DS  5", "A     DS  5", "      DS  A", "      DEND"];
    let want = Laid {
        statements: 4,
        places: &[(2, (407, 411, 0)), (4, (818, 818, 0))],
        labels: &[("A", Some((406, 1)))],
        broken: None,
    };
    assert!(rt; lays(rt.alloc(), &lines, &want));
}

// 20,000 comments and two statements.
fn long_source(alloc: Global) -> Result<Vec<u8>, AllocError> {
    let mut source = Vec::new(alloc);
    for _ in 0..20_000 {
        source.extend_from_slice(b"     *\n")?;
    }
    source.extend_from_slice(b"     A     DS  5\n     B     ZZ\n")?;
    Ok(source)
}

// Whether this number of statements of a source are located.
fn locates(alloc: Global, source: &[u8], statements: usize) -> bool {
    match locate(alloc, source) {
        Ok(located) => located.places.as_slice().len() == statements,
        Err(_) => false,
    }
}

// Whether the long source has this number of statements and this layout.
fn lays_long(alloc: Global, want: &Laid<'_>) -> bool {
    match long_source(alloc) {
        Ok(source) => {
            locates(alloc, source.as_slice(), want.statements)
                && lays_source(alloc, source.as_slice(), want)
        }
        Err(_) => false,
    }
}

// Of 20,002 lines the last is ignored.
#[test]
fn a_long_source_is_looked_at_up_to_statement_20001(rt: HostRuntime) {
    let want = Laid {
        statements: 20_001,
        places: &[(20_001, (402, 406, 0))],
        labels: &[("A", Some((406, 20_001))), ("B", None)],
        broken: None,
    };
    assert!(rt; lays_long(rt.alloc(), &want));
}

// The place of a walk: the statement's number, the head in force, whether a DEND was passed, and whether the statement counts.
type Reached = (u32, Option<u8>, bool, bool);

// Whether a walk over a source reaches these statements and no others.
fn walks(source: &[u8], want: &[Reached]) -> bool {
    let mut walk = Walk::new(source);
    for &reached in want {
        let Some(line) = walk.next() else {
            return false;
        };
        let s = scan(line.text);
        let counts = counts_if(walk.ended(), s.shape);
        if (line.number, walk.head(), walk.ended(), counts) != reached {
            return false;
        }
        walk.pass(&LookedUp::of(&s));
    }
    walk.next().is_none()
}

// Whether a walk over the source of these lines reaches these statements and no others.
fn walks_lines(alloc: Global, lines: &[&str], want: &[Reached]) -> bool {
    match source_of(alloc, lines) {
        Ok(source) => walks(source.as_slice(), want),
        Err(_) => false,
    }
}

#[test]
fn a_walk_has_the_head_and_dend_of_the_statements_before(rt: HostRuntime) {
    let lines = [
        "      HEADA",
        "L     DS  5",
        "*HEAD",
        "      HEAD",
        "      DEND",
        "      HEADB",
        "L     DS  5",
    ];
    let want = [
        (1, None, false, true),
        (2, Some(b'A'), false, true),
        (3, Some(b'A'), false, false),
        (4, Some(b'A'), false, true),
        (5, None, false, true),
        (6, None, true, false),
        (7, None, true, false),
    ];
    assert!(rt; walks_lines(rt.alloc(), &lines, &want));
}
