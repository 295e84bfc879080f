// The parts of an answer other than its status, as they are shown: the console of its machine, the statement for which its source was
// refused, and the statement at IR.
use crate::texts::shown_line;
use card_code::{BadCharacter, Tally};
use cpu_step::{CheckPart, Console};
use indicators::Panel;
use outside_io::Unit;
use sps_listing::{OtherStatement, RefusedLine, StandingLine};
use std::alloc::{AllocError, Global};
use std::io;

// A part of an answer that a row may ask for.
#[derive(Clone, Copy, PartialEq, Eq)]
pub(crate) enum AnswerPart {
    Console,
    Refusal,
    Statement,
    // The messages of the whole job.
    Said,
}

impl AnswerPart {
    // The part of this name.
    pub(crate) fn named(name: &str) -> Option<AnswerPart> {
        match name {
            "console" => Some(AnswerPart::Console),
            "refusal" => Some(AnswerPart::Refusal),
            "statement" => Some(AnswerPart::Statement),
            "said" => Some(AnswerPart::Said),
            _ => None,
        }
    }
}

// A switch or an indicator: its code, and whether it is on.
type Lamp = (u8, bool);

fn indicators_of(panel: &Panel) -> [Lamp; 11] {
    [
        (6, panel.read_check),
        (7, panel.write_check),
        (9, panel.last_card),
        (11, panel.high),
        (12, panel.equal),
        (14, panel.overflow),
        (16, panel.even_parity),
        (17, panel.odd_parity),
        (36, panel.disk_address),
        (37, panel.disk_length),
        (38, panel.cylinder_overflow),
    ]
}

fn switches_of(panel: &Panel) -> [Lamp; 4] {
    [
        (1, panel.switch_1),
        (2, panel.switch_2),
        (3, panel.switch_3),
        (4, panel.switch_4),
    ]
}

// The codes of the lamps that are on, a comma between two; a hyphen if all are off.
fn codes(alloc: Global, lamps: &[Lamp]) -> Result<String, AllocError> {
    let mut text = String::new(alloc);
    for (code, on) in lamps {
        if *on {
            let separator = if text.is_empty() { "" } else { "," };
            let shown = format!(in alloc; "{separator}{code:02}")?;
            text.push_str(shown.as_str())?;
        }
    }
    if text.is_empty() {
        text.push('-')?;
    }
    Ok(text)
}

// Which check switches are at STOP.
fn stops_of(panel: &Panel) -> &'static str {
    match (panel.overflow_stops, panel.in_out_stops) {
        (false, false) => "-",
        (true, false) => "OVERFLOW",
        (false, true) => "IO",
        (true, true) => "OVERFLOW,IO",
    }
}

// The object character of a cell, which is a number `32C + 16F + V`; a question mark for a bad cell, whose parity is even or whose value
// is not a digit's.
fn cell_char(cell: u8) -> char {
    let (plain, flagged) = match cell & 15 {
        0 => ('0', ']'),
        1 => ('1', 'J'),
        2 => ('2', 'K'),
        3 => ('3', 'L'),
        4 => ('4', 'M'),
        5 => ('5', 'N'),
        6 => ('6', 'O'),
        7 => ('7', 'P'),
        8 => ('8', 'Q'),
        9 => ('9', 'R'),
        10 => ('|', '!'),
        12 => ('@', '*'),
        15 => ('}', '"'),
        _ => ('?', '?'),
    };
    match (cell.count_ones() % 2, cell & 16) {
        (0, _) => '?',
        (_, 0) => plain,
        _ => flagged,
    }
}

// The twelve cells as object characters; a hyphen if they don't all lie in core.
fn cells_text(alloc: Global, cells: &Option<[u8; 12]>) -> Result<String, AllocError> {
    let mut text = String::new(alloc);
    match cells {
        Some(cells) => {
            for cell in cells {
                text.push(cell_char(*cell))?;
            }
        }
        None => text.push('-')?,
    }
    Ok(text)
}

// The cylinders of the arms, a comma between two.
fn arms_text(alloc: Global, arms: &[u32]) -> Result<String, AllocError> {
    let mut text = String::new(alloc);
    for cylinder in arms {
        let separator = if text.is_empty() { "" } else { "," };
        let shown = format!(in alloc; "{separator}{cylinder:03}")?;
        text.push_str(shown.as_str())?;
    }
    Ok(text)
}

// The unit of a bad character.
fn unit_name(unit: Unit) -> &'static str {
    match unit {
        Unit::Deck => "DECK",
        Unit::Data => "DATA",
        Unit::Keys => "KEYS",
        _ => "?",
    }
}

// How many bad characters there were, and the place of the first.
fn tally_text(alloc: Global, tally: &Tally) -> Result<String, AllocError> {
    let count = tally.count;
    match &tally.first {
        Some(bad) => {
            let BadCharacter {
                unit,
                line,
                column,
                byte,
            } = bad;
            let unit = unit_name(*unit);
            let shown = shown_line(alloc, &[*byte])?;
            format!(in alloc; "{count} FIRST {unit} {line} {column} {shown}")
        }
        None => format!(in alloc; "{count}"),
    }
}

// An address, or a hyphen for none.
fn address_text(alloc: Global, address: Option<u32>) -> Result<String, AllocError> {
    match address {
        Some(address) => format!(in alloc; "{address:05}"),
        None => String::from_str(alloc, "-"),
    }
}

// The part of an instruction that a check is about, after a blank; nothing if there is no such part.
fn part_text(alloc: Global, part: Option<CheckPart>) -> Result<String, AllocError> {
    match part {
        None => Ok(String::new(alloc)),
        Some(CheckPart::Instruction { cell }) => {
            format!(in alloc; " PART INSTRUCTION AT {cell:05}")
        }
        Some(CheckPart::P { units }) => format!(in alloc; " PART P AT {units:05}"),
        Some(CheckPart::Q { units }) => format!(in alloc; " PART Q AT {units:05}"),
        Some(CheckPart::Action { p, q, cell }) => {
            let at = address_text(alloc, cell)?;
            let q = address_text(alloc, q)?;
            format!(in alloc; " PART ACTION AT {at} P {p:05} Q {q}")
        }
    }
}

// Prints the console of an answer as one line: each value after its name.
pub(crate) fn show_console(
    rt: &impl Print,
    alloc: Global,
    console: &Option<Console>,
) -> io::Result<()> {
    let Some(console) = console else {
        return println!(rt; "console|none");
    };
    let (ir, ir2) = (console.regs.ir, console.regs.ir2);
    let cells = cells_text(alloc, &console.cells)?;
    let on = codes(alloc, &indicators_of(&console.panel))?;
    let switches = codes(alloc, &switches_of(&console.panel))?;
    let stops = stops_of(&console.panel);
    let arms = arms_text(alloc, &console.arms)?;
    print!(rt; "console|IR {ir:05} CELLS {cells} IR2 {ir2:05} ON {on}")?;
    print!(rt; " SWITCHES {switches} STOPS {stops} ARMS {arms}")?;
    let (deck, behind) = (console.cards.of_deck, console.cards.of_data);
    let lines = console.lines;
    let part = part_text(alloc, console.part)?;
    print!(rt; " DECK {deck} DATA {behind} KEYS {lines}{part}")?;
    let bad_cards = tally_text(alloc, &console.bad_cards)?;
    let bad_keys = tally_text(alloc, &console.bad_keys)?;
    println!(rt; " BAD CARDS {bad_cards} BAD KEYS {bad_keys}")
}

// Prints the other statement of a refusal: its number, the rule that it breaks itself or a hyphen, how many bytes its line has, and then
// the line.
fn show_other(rt: &impl Print, alloc: Global, other: &OtherStatement) -> io::Result<()> {
    let (statement, bytes) = (other.statement, other.bytes);
    print!(rt; "other|STATEMENT {statement} RULE ")?;
    match other.rule {
        Some(rule) => print!(rt; "{rule:?}")?,
        None => print!(rt; "-")?,
    }
    println!(rt; " BYTES {bytes}")?;
    println!(rt; "other line|{}", shown_line(alloc, &other.text)?)
}

// Prints the statement at IR: its number and how many bytes its line has, and then the line.
pub(crate) fn show_statement(
    rt: &impl Print,
    alloc: Global,
    standing: &Option<StandingLine>,
) -> io::Result<()> {
    let Some(standing) = standing else {
        return println!(rt; "statement|none");
    };
    let (statement, bytes) = (standing.statement, standing.bytes);
    println!(rt; "statement|{statement} BYTES {bytes}")?;
    println!(rt; "statement line|{}", shown_line(alloc, &standing.text)?)
}

// Prints the statement for which a source was refused: its number, its rule, the operand part that breaks it and how many bytes its line
// has, and then the line. If the refusal is also about another statement, that statement follows.
pub(crate) fn show_refusal(
    rt: &impl Print,
    alloc: Global,
    refusal: &Option<RefusedLine>,
) -> io::Result<()> {
    let Some(refused) = refusal else {
        return println!(rt; "refusal|none");
    };
    let (statement, rule, bytes) = (refused.statement, refused.rule, refused.bytes);
    print!(rt; "refusal|STATEMENT {statement} RULE {rule:?} PART ")?;
    match refused.part {
        Some(part) => print!(rt; "{part}")?,
        None => print!(rt; "-")?,
    }
    println!(rt; " BYTES {bytes}")?;
    println!(rt; "refused|{}", shown_line(alloc, &refused.text)?)?;
    match &refused.other {
        Some(other) => show_other(rt, alloc, other),
        None => Ok(()),
    }
}
