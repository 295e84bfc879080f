// Symbols, and expressions at their edges.
use sps_expr::{Scope, Symbols, value};
use sps_ops::Rule;
use std::alloc::{AllocError, Global};

// Symbols with their values and statements. HUGE is over the bound, as a label after a long enough field can be.
const SYMBOLS: [(&str, i64, u32); 7] = [
    ("ZERO", 0, 1),
    ("BIG", 9_999_999_999, 2),
    ("NEG", -9_999_999_999, 2),
    ("HUGE", 10_000_000_000, 2),
    ("A", 500, 3),
    ("1A", 12, 4),
    ("ABCDEF", 7, 5),
];

// Adds these symbols.
fn define_all(alloc: Global, symbols: &mut Symbols) -> Result<(), AllocError> {
    for &(name, value, statement) in &SYMBOLS {
        symbols.define(alloc, name.as_bytes(), value, statement)?;
    }
    Ok(())
}

// Whether a part gives this value or rule at a location, with these symbols, if names must be labels of statements before `before`.
fn comes_to(
    alloc: Global,
    part: &str,
    here: i64,
    before: Option<u32>,
    want: Result<i64, Rule>,
) -> bool {
    let mut symbols = Symbols::new(alloc);
    if define_all(alloc, &mut symbols).is_err() {
        return false;
    }
    value(part.as_bytes(), None, &symbols, here, before) == want
}

const NUMBERS: [(&str, i64); 7] = [
    ("0", 0),
    ("7", 7),
    ("007", 7),
    ("0000000000000000000000000000000000000001", 1),
    ("1234567", 1_234_567),
    ("9999999999", 9_999_999_999),
    ("0009999999999", 9_999_999_999),
];

// Blanks never count. A run with a letter in it is a name.
const BLANKS_AND_NAMES: [(&str, i64); 10] = [
    ("1 2", 12),
    ("  1  ", 1),
    (" A ", 500),
    ("1+2 3", 24),
    ("A + 2*3", 506),
    ("A", 500),
    ("1A", 12),
    ("1 A", 12),
    ("ABCDEF", 7),
    ("AB CD EF", 7),
];

const SIGNS: [(&str, i64); 6] = [
    ("+1", 1),
    ("-1", -1),
    ("- 1", -1),
    ("-0", 0),
    ("-A", -500),
    ("-NEG", 9_999_999_999),
];

// Sums from the left, after products.
const SUMS: [(&str, i64); 13] = [
    ("1+2", 3),
    ("1-2", -1),
    ("-1-2", -3),
    ("-1+2", 1),
    ("10-2-3", 5),
    ("2*3*4", 24),
    ("1+2*3", 7),
    ("2*3+1", 7),
    ("10-2*3", 4),
    ("-2*3", -6),
    ("-2*3+10", 4),
    ("+2*3-1", 5),
    ("A*A-A", 249_500),
];

// The location, and products with it. 402 times 402 is 161,604, and that times 402 is 64,964,808.
const LOCATION: [(&str, i64); 13] = [
    ("*", 402),
    ("+*", 402),
    ("-*", -402),
    ("*+12", 414),
    ("**2", 804),
    ("2**", 804),
    ("A**", 201_000),
    ("**A", 201_000),
    ("* * A", 201_000),
    ("*+*", 804),
    ("*-*", 0),
    ("***", 161_604),
    ("*****", 64_964_808),
];

// Up to the bound. 99,999 times 100,000 is 9,999,900,000; 99,999 more is the bound, and 99,999 less is 9,999,800,001.
const LARGE: [(&str, i64); 18] = [
    ("BIG", 9_999_999_999),
    ("NEG", -9_999_999_999),
    ("-9999999999", -9_999_999_999),
    ("9999999998+1", 9_999_999_999),
    ("-9999999998-1", -9_999_999_999),
    ("9999999999*1", 9_999_999_999),
    ("9999999999*0", 0),
    ("9999999999-9999999999", 0),
    ("1-1+9999999999", 9_999_999_999),
    ("NEG+BIG", 0),
    ("ZERO*BIG", 0),
    ("3333333333*3", 9_999_999_999),
    ("-3333333333*3", -9_999_999_999),
    ("99999*100001", 9_999_999_999),
    ("99999*99999", 9_999_800_001),
    ("99999*99999+199998", 9_999_999_999),
    ("99999*99999-99999*99999", 0),
    ("A-99999*99999", -9_999_799_501),
];

// At location 402, with labels of any statement.
#[test]
fn expressions_and_their_values(rt: HostRuntime) {
    let tables: [&[(&str, i64)]; 6] = [
        &NUMBERS,
        &BLANKS_AND_NAMES,
        &SIGNS,
        &SUMS,
        &LOCATION,
        &LARGE,
    ];
    for rows in tables {
        for &(part, want) in rows {
            assert!(rt; comes_to(rt.alloc(), part, 402, None, Ok(want)), "{part}");
        }
    }
}

// Signs and operators alone, or next to each other.
const NO_FACTOR: [&str; 16] = [
    "", "   ", "+", "-", "+ ", "+-1", "--1", "1+", "1-", "1*", "1++2", "1+-2", "A--1", "2*+3",
    "1*-1", "Q1+",
];

// A `*` that is not a factor, or one `*` too many.
const STARS: [&str; 9] = ["*A", "A*", "*1", "**", "****", "2***", "* 1", "*A*", "*(*"];

const OTHER_CHARACTERS: [&str; 11] = [
    "(1)",
    "1/2",
    "1,2",
    "A.B",
    "A=1",
    "@",
    "a",
    "A)",
    "1;",
    "A\t",
    "Q1+10000000000)",
];

// A `$` without a name after it, with more than one character before it, or one `$` too many; a name of six characters after it.
const DOLLARS: [&str; 14] = [
    "$", "$$", "A$", "1$", "$5", "A$5", "A$ ", "AB$A", "12$A", "$$A", "A$$A", "A$A$A", "$ABCDEF",
    "X$ABCDEF",
];

// Names of seven characters, also with a digit in front, with a blank inside, or next to a number that is too large.
const LONG_NAMES: [&str; 7] = [
    "ABCDEFG",
    "1ABCDEF",
    "123456A",
    "ABCDE FG",
    "A+ABCDEFG",
    "ABCDEFG*0",
    "10000000000*ABCDEFG",
];

// Also at location 402.
#[test]
fn parts_that_are_no_expression(rt: HostRuntime) {
    let tables: [&[&str]; 5] = [&NO_FACTOR, &STARS, &OTHER_CHARACTERS, &DOLLARS, &LONG_NAMES];
    for parts in tables {
        for &part in parts {
            let want = Err(Rule::BadExpression);
            assert!(rt; comes_to(rt.alloc(), part, 402, None, want), "{part}");
        }
    }
}

// Symbols with heads, as they are spelled.
const HEADED: [(&str, i64, u32); 5] = [
    ("A", 500, 1),
    ("X$A", 600, 2),
    ("1$A", 700, 3),
    ("X$B", 800, 4),
    ("ABCDEF", 7, 5),
];

// Whether a part gives this value or rule under a head, with these symbols.
fn comes_to_under(alloc: Global, head: Option<u8>, part: &str, want: Result<i64, Rule>) -> bool {
    let mut symbols = Symbols::new(alloc);
    for &(name, value, statement) in &HEADED {
        if symbols.define(alloc, name.as_bytes(), value, statement) != Ok(true) {
            return false;
        }
    }
    let scope = Scope {
        head,
        symbols: &symbols,
        here: 402,
        before: Some(5),
    };
    scope.value(part.as_bytes()) == want
}

// Parts under a head, with their value or rule, in statement 5, whose own label is ABCDEF.
const UNDER_HEADS: [(Option<u8>, &str, Result<i64, Rule>); 18] = [
    (None, "A", Ok(500)),
    (None, "$A", Ok(500)),
    (None, "X$A", Ok(600)),
    (None, "1$A", Ok(700)),
    (None, "X $ A", Ok(600)),
    (None, "-X$A*2+A", Ok(-700)),
    (None, "X$A**", Ok(241_200)),
    (None, "B", Err(Rule::UndefinedSymbol)),
    (None, "Y$A", Err(Rule::UndefinedSymbol)),
    (Some(b'X'), "A", Ok(600)),
    (Some(b'X'), "$A", Ok(500)),
    (Some(b'X'), "X$A", Ok(600)),
    (Some(b'X'), "1$A", Ok(700)),
    (Some(b'X'), "B", Ok(800)),
    (Some(b'X'), "$B", Err(Rule::UndefinedSymbol)),
    (Some(b'1'), "A-1", Ok(699)),
    (Some(b'X'), "ABCDEF", Err(Rule::LateSymbol)),
    (Some(b'X'), "ABCDE", Err(Rule::UndefinedSymbol)),
];

#[test]
fn names_under_heads(rt: HostRuntime) {
    for &(head, part, want) in &UNDER_HEADS {
        assert!(rt; comes_to_under(rt.alloc(), head, part, want), "{part}");
    }
}

// Undefined names, also next to values that are too large.
const UNDEFINED: [&str; 10] = [
    "Q1",
    "Q 1",
    "A 1",
    "ABC",
    "BCDEF",
    "ABCDE",
    "A+Z",
    "Z*0",
    "Z+9999999999*2",
    "HUGE+Z",
];

// Numbers and symbols over the bound, also past 64 bits: 2 to the 64th and one more.
const LARGE_FACTORS: [&str; 10] = [
    "10000000000",
    "-10000000000",
    "10000000000*0",
    "0*10000000000",
    "10000000000-1",
    "18446744073709551617",
    "99999999999999999999999999999999999999999",
    "HUGE",
    "HUGE*0",
    "HUGE-HUGE",
];

// Products and sums over the bound, whatever follows: 3 times 4,000,000,000 is 12,000,000,000 before the subtraction.
const LARGE_RESULTS: [&str; 13] = [
    "9999999999+1",
    "-9999999999-1",
    "9999999999+1-1",
    "1+9999999999-1",
    "BIG+1",
    "NEG-1",
    "100000*100000",
    "100000*100000-1",
    "-100000*100000+1",
    "A+100000*100000",
    "3*4000000000-9999999999",
    "9999999999*9999999999",
    "9999999999*9999999999*9999999999*0",
];

// Also at location 402.
#[test]
fn undefined_names_and_values_that_are_too_large(rt: HostRuntime) {
    let tables: [(&[&str], Rule); 3] = [
        (&UNDEFINED, Rule::UndefinedSymbol),
        (&LARGE_FACTORS, Rule::ValueTooLarge),
        (&LARGE_RESULTS, Rule::ValueTooLarge),
    ];
    for (parts, rule) in tables {
        for &part in parts {
            assert!(rt; comes_to(rt.alloc(), part, 402, None, Err(rule)), "{part}");
        }
    }
}

// Parts with their value or rule, if names must be labels of statements before this one. A is the label of 3, ABCDEF of 5.
const BEFORE: [(&str, u32, Result<i64, Rule>); 17] = [
    ("A", 4, Ok(500)),
    ("A", 3, Err(Rule::LateSymbol)),
    ("A", 2, Err(Rule::LateSymbol)),
    ("A", 0, Err(Rule::LateSymbol)),
    ("ABCDEF-A", 6, Ok(-493)),
    ("ABCDEF-A", 5, Err(Rule::LateSymbol)),
    ("A-ABCDEF", 5, Err(Rule::LateSymbol)),
    ("5", 0, Ok(5)),
    ("*+1", 0, Ok(403)),
    // late and undefined
    ("Q1", 3, Err(Rule::UndefinedSymbol)),
    ("A+Q1", 3, Err(Rule::UndefinedSymbol)),
    ("Q1+A", 3, Err(Rule::UndefinedSymbol)),
    // late and too large
    ("A+10000000000", 3, Err(Rule::LateSymbol)),
    ("10000000000*A", 3, Err(Rule::LateSymbol)),
    ("HUGE", 2, Err(Rule::LateSymbol)),
    ("HUGE", 3, Err(Rule::ValueTooLarge)),
    // late and no expression
    ("A--1", 3, Err(Rule::BadExpression)),
];

#[test]
fn names_of_earlier_statements(rt: HostRuntime) {
    for &(part, before, want) in &BEFORE {
        assert!(rt;
            comes_to(rt.alloc(), part, 402, Some(before), want),
            "{part} before {before}"
        );
    }
}

// Locations at the bound and over it, which matter only if the part uses the location.
const LOCATIONS: [(i64, &str, Result<i64, Rule>); 12] = [
    (9_999_999_999, "*", Ok(9_999_999_999)),
    (9_999_999_999, "*+1", Err(Rule::ValueTooLarge)),
    (-9_999_999_999, "-*", Ok(9_999_999_999)),
    (10_000_000_000, "*", Err(Rule::ValueTooLarge)),
    (10_000_000_000, "*-1", Err(Rule::ValueTooLarge)),
    (10_000_000_000, "*-*", Err(Rule::ValueTooLarge)),
    (10_000_000_000, "0**", Err(Rule::ValueTooLarge)),
    (10_000_000_000, "A*2", Ok(1_000)),
    (-10_000_000_000, "*", Err(Rule::ValueTooLarge)),
    (i64::MAX, "*", Err(Rule::ValueTooLarge)),
    (i64::MIN, "-*", Err(Rule::ValueTooLarge)),
    (i64::MIN, "2*3", Ok(6)),
];

#[test]
fn locations_over_the_bound(rt: HostRuntime) {
    for &(here, part, want) in &LOCATIONS {
        assert!(rt;
            comes_to(rt.alloc(), part, here, None, want),
            "{part} at {here}"
        );
    }
}

// Whether each of these names has this value and this statement, or is undefined.
fn finds(symbols: &Symbols, rows: &[(&[u8], Option<(i64, u32)>)]) -> bool {
    for &(name, want) in rows {
        if symbols.find(name) != want {
            return false;
        }
    }
    true
}

// Whether each of these names is added with its value and its statement exactly if its row says that it is new.
fn adds(alloc: Global, symbols: &mut Symbols, rows: &[(&[u8], i64, u32, bool)]) -> bool {
    for &(name, value, statement, is_new) in rows {
        if symbols.define(alloc, name, value, statement) != Ok(is_new) {
            return false;
        }
    }
    true
}

// Whether A is undefined at first, these names are added, and then these are found.
fn keeps(
    alloc: Global,
    added: &[(&[u8], i64, u32, bool)],
    found: &[(&[u8], Option<(i64, u32)>)],
) -> bool {
    let mut symbols = Symbols::new(alloc);
    symbols.find(b"A") == None && adds(alloc, &mut symbols, added) && finds(&symbols, found)
}

#[test]
fn the_first_definition_of_a_name_counts(rt: HostRuntime) {
    // A name, its value, its statement, and whether it is new.
    let added: [(&[u8], i64, u32, bool); 6] = [
        (b"A", 500, 3, true),
        (b"B", -1, 7, true),
        (b"A", 501, 9, false),
        (b"AB", i64::MAX, 4, true),
        (b"ABCDEFGH", 7, 10, true),
        (b"ABCDEFGH", 8, 11, false),
    ];
    let found: [(&[u8], Option<(i64, u32)>); 11] = [
        (b"ABCDEFGH", Some((7, 10))),
        (b"ABCDEFGI", None),
        (b"ABCDEFG", None),
        (b"A", Some((500, 3))),
        (b"B", Some((-1, 7))),
        (b"AB", Some((i64::MAX, 4))),
        (b"", None),
        (b"C", None),
        (b"BA", None),
        (b"ABC", None),
        (b"a", None),
    ];
    assert!(rt; keeps(rt.alloc(), &added, &found));
}

// N and three digits.
fn numbered(alloc: Global, number: u32) -> Result<String, AllocError> {
    format!(in alloc; "N{number:03}")
}

// 617 has no divisor in common with 1,000, so 1,000 steps give all numbers below 1,000, each once.
fn number_of(step: u32) -> u32 {
    step % 1_000 * 617 % 1_000
}

// Whether the name of a step is added as a new name.
fn adds_step(alloc: Global, symbols: &mut Symbols, step: u32) -> bool {
    let number = number_of(step);
    match numbered(alloc, number) {
        Ok(name) => adds(
            alloc,
            symbols,
            &[(name.as_bytes(), i64::from(number), step, true)],
        ),
        Err(_) => false,
    }
}

// Whether the name of a step is not added again, and is found as it was added.
fn keeps_step(alloc: Global, symbols: &mut Symbols, step: u32) -> bool {
    let number = number_of(step);
    match numbered(alloc, number) {
        Ok(name) => {
            adds(alloc, symbols, &[(name.as_bytes(), -1, 0, false)])
                && symbols.find(name.as_bytes()) == Some((i64::from(number), step))
        }
        Err(_) => false,
    }
}

// Whether the names of a thousand steps are added, and then each is kept.
fn adds_a_thousand(alloc: Global, symbols: &mut Symbols) -> bool {
    for step in 0..1_000 {
        if !adds_step(alloc, symbols, step) {
            return false;
        }
    }
    for step in 0..1_000 {
        if !keeps_step(alloc, symbols, step) {
            return false;
        }
    }
    true
}

// Whether a thousand names are kept, and these names are undefined.
fn keeps_a_thousand(alloc: Global, absent: &[(&[u8], Option<(i64, u32)>)]) -> bool {
    let mut symbols = Symbols::new(alloc);
    adds_a_thousand(alloc, &mut symbols) && finds(&symbols, absent)
}

#[test]
fn a_thousand_names_in_mixed_order(rt: HostRuntime) {
    let absent: [(&[u8], Option<(i64, u32)>); 6] = [
        (b"N", None),
        (b"N00", None),
        (b"N0000", None),
        (b"N1000", None),
        (b"M999", None),
        (b"O000", None),
    ];
    assert!(rt; keeps_a_thousand(rt.alloc(), &absent));
}
