// Generated decks of a few numbers, worked out by hand from the rule.
use sps_generator::generate;
use std::alloc::Global;

// The closing lines of every deck.
const CLOSING: &str = "\
    \x20          CF  SUM-9\n\
    \x20          WNTYSUM-9\n\
    \x20          RCTY\n\
    \x20          H\n\
    \x20    SUM   DC  10,0\n\
    \x20          DSC 1,@\n\
    \x20          DENDSTART\n";

// The draws are 16,838, 5,758 and 10,113.
const THREE_BY_ONE: &str = "\
    \x20    START CM  SUM,612\n\
    \x20          SM  SUM,919\n\
    \x20          AM  SUM,371\n";

// How many statements, a number, and the lines before the closing lines.
const ROWS: [(u32, u32, &str); 4] = [
    (10, 1, THREE_BY_ONE),
    (8, 1, "     START CM  SUM,612\n"),
    // the first state is 12,345, which draws 0
    (8, 0, "     START AM  SUM,0\n"),
    (9, 0, "     START AM  SUM,0\n           AM  SUM,156\n"),
];

// Whether the deck of a number is these lines and the closing lines.
fn makes(alloc: Global, statements: u32, number: u32, generated: &str) -> bool {
    if statements < 8 || statements > 1600 || number > 999_999 {
        return false;
    }
    match generate(alloc, statements, number) {
        Ok(deck) => deck.strip_suffix(CLOSING.as_bytes()) == Some(generated.as_bytes()),
        Err(_) => false,
    }
}

#[test]
fn small_decks(rt: HostRuntime) {
    for &(statements, number, generated) in &ROWS {
        assert!(rt;
            makes(rt.alloc(), statements, number, generated),
            "{statements} statements by {number}"
        );
    }
}

// Whether a deck has this number of lines, this first line, and this last line before the closing lines.
fn has_lines(deck: &[u8], lines: usize, first: &str, last: &str) -> bool {
    let Some(generated) = deck.strip_suffix(CLOSING.as_bytes()) else {
        return false;
    };
    deck.iter().filter(|b| **b == b'\n').count() == lines
        && generated.starts_with(first.as_bytes())
        && generated.ends_with(last.as_bytes())
}

// Whether the longest deck of the greatest number has this first and this last line.
fn longest_has(alloc: Global, first: &str, last: &str) -> bool {
    match generate(alloc, 1600, 999_999) {
        Ok(deck) => has_lines(deck.as_slice(), 1600, first, last),
        Err(_) => false,
    }
}

// The first state is 1,751,684,876 and draws 26,728; the state of statement 1593 is 54,943,796 and draws 838.
#[test]
fn a_deck_as_long_as_may_be(rt: HostRuntime) {
    let first = "     START SM  SUM,909\n";
    let last = "           SM  SUM,279\n";
    assert!(rt; longest_has(rt.alloc(), first, last));
}
