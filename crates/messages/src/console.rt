// The console of a machine as one line of fixed form. A definition, `console_line`, gives the text from the machine's numbers.
ghost use Rattle.std.specs.Prelude.{◌≡◌, ◌≤◌, ◌<◌, ◌+◌, ◌*◌, ◌++◌, decimal, length, true};
ghost use Rattle.arrayvec.specs.ArrayString.{array_string_len};
ghost use Rattle.report_lines.specs.Numbers.{digits_to_width};
ghost use Rattle.messages.specs.Said.{is_whole};
ghost use Rattle.messages.specs.declared.console.TheConstants.{LAST_ROOM, MOST_LAMPS};
ghost use Rattle.messages.specs.Console.{action_words, cell_char, cells_text, codes_text, console_line, further_numbers, indicators_of, lamps_words, numbers_text, operands_words, part_words, place_text, reached_words, stops_of, switches_of, those_on};

use arrayvec::{ArrayString, ArrayVec};
use card_code::object_char;
use cpu_step::{CheckPart, Console};
use digit_core::read_cell;
use indicators::Panel;
use itoa::Buffer;
use report_lines::{LONGEST_LINE, push_padded};

// Room for the console's line, of at most 700 bytes, and the line of lost cards.
pub(crate) const LAST_ROOM: usize = 1_000;

pub(crate) type LastLines = ArrayString<LAST_ROOM>;

// The whole line, with the program's name and an LF. Its form is fixed, so that other programs can read it: names and values alternate, with a
// blank between two.
pub(crate) fn console_line(console: &Console) -> LastLines
    ensures bytes { result.bytes ≡ console_line console.now }
    ensures len { array_string_len result ≤ 700 }
    ensures whole { is_whole result.bytes ≡ true }
{
    let mut line = LastLines::new();
    line.push_str("ibm1620: CONSOLE IR ");
    push_digits(&mut line, 5, console.regs.ir);
    line.push_str(" CELLS ");
    push_cells(&mut line, console.cells);
    line.push_str(" IR2 ");
    push_digits(&mut line, 5, console.regs.ir2);
    push_lamps(&mut line, &console.panel);
    push_reached(&mut line, console);
    line.push_str("\n");
    line
}

// Adds the indicators and switches that are on, and the check switches.
#[tactic(auto, unfolding(crate::specs::Console::lamps_words))]
fn push_lamps(line: &mut LastLines, panel: &Panel)
    requires { array_string_len line.old ≤ 100 }
    ensures bytes { line.new.bytes ≡ line.old.bytes ++ lamps_words panel.now }
    ensures len { array_string_len line.new ≤ array_string_len line.old + 300 }
{
    line.push_str(" ON ");
    push_codes(line, those_on(&indicators_of(panel)).as_slice());
    line.push_str(" SWITCHES ");
    push_codes(line, those_on(&switches_of(panel)).as_slice());
    line.push_str(" STOPS ");
    line.push_str(stops_of(panel));
}

// Adds the cylinders of the arms, how many cards and lines were read, and the part that a check is about.
#[tactic(auto, unfolding(crate::specs::Console::reached_words))]
fn push_reached(line: &mut LastLines, console: &Console)
    requires { array_string_len line.old ≤ 400 }
    ensures bytes { line.new.bytes ≡ line.old.bytes ++ reached_words console.now }
    ensures len { array_string_len line.new ≤ array_string_len line.old + 290 }
{
    line.push_str(" ARMS ");
    push_numbers(line, 3, &console.arms);
    line.push_str(" DECK ");
    push_count(line, console.cards.of_deck);
    line.push_str(" DATA ");
    push_count(line, console.cards.of_data);
    line.push_str(" KEYS ");
    push_count(line, console.lines);
    push_part(line, console.part);
}

// The indicators.
fn indicators_of(panel: &Panel) -> [NumberedLamp; 11]
    ensures { result ≡ indicators_of panel.now }
{
    [
        (6, panel.read_check),
        (7, panel.write_check),
        (9, panel.last_card),
        (11, panel.high),
        (12, panel.equal),
        (14, panel.overflow),
        (16, panel.even_parity),
        (17, panel.odd_parity),
        (36, panel.disk_address),
        (37, panel.disk_length),
        (38, panel.cylinder_overflow),
    ]
}

// The program switches.
fn switches_of(panel: &Panel) -> [NumberedLamp; 4]
    ensures { result ≡ switches_of panel.now }
{
    [
        (1, panel.switch_1),
        (2, panel.switch_2),
        (3, panel.switch_3),
        (4, panel.switch_4),
    ]
}

// Which check switches are at STOP.
fn stops_of(panel: &Panel) -> &'static str
    ensures is { result.now ≡ stops_of panel.now.overflow_stops panel.now.in_out_stops }
    ensures short { length result.now ≤ 11 }
{
    match (panel.overflow_stops, panel.in_out_stops) {
        (false, false) => "-",
        (true, false) => "OVERFLOW",
        (false, true) => "IO",
        (true, true) => "OVERFLOW,IO",
    }
}

// Adds the part that a check is about; nothing if the check has no part.
fn push_part(line: &mut LastLines, part: Option<CheckPart>)
    requires { array_string_len line.old ≤ 600 }
    ensures bytes { line.new.bytes ≡ line.old.bytes ++ part_words part }
    ensures len { array_string_len line.new ≤ array_string_len line.old + 60 }
{
    match part {
        None => (),
        Some(CheckPart::Instruction { cell }) => {
            line.push_str(" PART INSTRUCTION AT ");
            push_digits(line, 5, cell);
        }
        Some(CheckPart::P { units }) => {
            line.push_str(" PART P AT ");
            push_digits(line, 5, units);
        }
        Some(CheckPart::Q { units }) => {
            line.push_str(" PART Q AT ");
            push_digits(line, 5, units);
        }
        Some(CheckPart::Action { p, q, cell }) => push_action(line, p, q, cell),
    }
}

// Adds an action as the part of a check: its cell, P and Q; a hyphen if there is no cell or no Q.
fn push_action(line: &mut LastLines, p: u32, q: Option<u32>, cell: Option<u32>)
    requires { array_string_len line.old ≤ 600 }
    ensures bytes { line.new.bytes ≡ line.old.bytes ++ action_words p q cell }
    ensures len { array_string_len line.new ≤ array_string_len line.old + 60 }
{
    line.push_str(" PART ACTION AT ");
    push_place(line, cell);
    push_operands(line, p, q);
}

// Adds P and Q; a hyphen if there is no Q.
#[tactic(auto, unfolding(crate::specs::Console::operands_words))]
fn push_operands(line: &mut LastLines, p: u32, q: Option<u32>)
    requires { array_string_len line.old ≤ 700 }
    ensures bytes { line.new.bytes ≡ line.old.bytes ++ operands_words p q }
    ensures len { array_string_len line.new ≤ array_string_len line.old + 30 }
{
    line.push_str(" P ");
    push_digits(line, 5, p);
    line.push_str(" Q ");
    push_place(line, q);
}

// Adds an address; a hyphen if there is no address.
#[tactic(auto, unfolding(crate::specs::Console::place_text))]
fn push_place(line: &mut LastLines, place: Option<u32>)
    requires { array_string_len line.old + 10 ≤ LAST_ROOM }
    ensures bytes { line.new.bytes ≡ line.old.bytes ++ place_text place }
    ensures len { array_string_len line.new ≤ array_string_len line.old + 10 }
{
    match place {
        None => line.push_str("-"),
        Some(address) => push_digits(line, 5, address),
    }
}

// An indicator or a switch: its code, and whether it is on.
type NumberedLamp = (u32, bool);

// How many numbers a list has at most.
const MOST_LAMPS: usize = 11;

// The codes of the lamps that are on.
fn those_on(lamps: &[NumberedLamp]) -> ArrayVec<u32, MOST_LAMPS>
    requires { length lamps.now ≤ MOST_LAMPS }
    ensures { result.items ≡ those_on lamps.now }
{
    let mut codes = ArrayVec::new();
    for lamp in lamps {
        let (code, on) = *lamp;
        if on {
            codes.push(code);
        }
    }
    codes
}

// Adds codes in two digits; a hyphen if there is no code.
fn push_codes(line: &mut LastLines, codes: &[u32])
    requires few { length codes.now ≤ MOST_LAMPS }
    requires room { array_string_len line.old ≤ 400 }
    ensures bytes { line.new.bytes ≡ line.old.bytes ++ codes_text codes.now }
    ensures len { array_string_len line.new ≤ array_string_len line.old + 132 }
{
    if codes.is_empty() {
        return line.push_str("-");
    }
    push_numbers(line, 2, codes);
}

// Adds numbers in at least `width` digits, a comma between two.
fn push_numbers(line: &mut LastLines, width: usize, numbers: &[u32])
    requires width { width ≤ 10 }
    requires few { length numbers.now ≤ MOST_LAMPS }
    requires room { array_string_len line.old ≤ 500 }
    ensures bytes { line.new.bytes ≡ line.old.bytes ++ numbers_text width numbers.now }
    ensures len { array_string_len line.new ≤ array_string_len line.old + 11 * length numbers.now }
{
    if let [first, rest @ ..] = numbers {
        push_digits(line, width, *first);
        push_further(line, width, rest);
    }
}

// Adds further numbers, a comma before each.
fn push_further(line: &mut LastLines, width: usize, numbers: &[u32])
    requires width { width ≤ 10 }
    requires few { length numbers.now ≤ MOST_LAMPS }
    requires room { array_string_len line.old ≤ 510 }
    ensures bytes { line.new.bytes ≡ line.old.bytes ++ further_numbers width numbers.now }
    ensures len { array_string_len line.new ≤ array_string_len line.old + 11 * length numbers.now }
{
    for number in numbers {
        line.push_str(",");
        push_digits(line, width, *number);
    }
}

// Adds twelve cells as object characters; a hyphen if they don't all lie in core.
fn push_cells(line: &mut LastLines, cells: Option<[u8; 12]>)
    requires { array_string_len line.old ≤ 100 }
    ensures bytes { line.new.bytes ≡ line.old.bytes ++ cells_text cells }
    ensures len { array_string_len line.new ≤ array_string_len line.old + 12 }
{
    let Some(cells) = cells else {
        return line.push_str("-");
    };
    for cell in cells {
        line.push(char::from(cell_char(cell)));
    }
}

// The object character of a cell, a number `32C + 16F + V`. A bad cell gives a question mark: its parity is even, or it has a value that no digit
// has.
fn cell_char(cell: u8) -> u8
    ensures is { result ≡ cell_char cell }
    ensures ascii { result < 128 }
{
    match read_cell(cell) {
        Ok(digit) => object_char(digit),
        Err(_) => b'?',
    }
}

// Adds a number in at least `width` digits.
fn push_digits(line: &mut LastLines, width: usize, number: u32)
    requires width { width ≤ 10 }
    requires room { array_string_len line.old + 10 ≤ LAST_ROOM }
    ensures bytes { line.new.bytes ≡ line.old.bytes ++ digits_to_width width number }
    ensures len { array_string_len line.new ≤ array_string_len line.old + 10 }
{
    let mut digits: ArrayString<LONGEST_LINE> = ArrayString::new();
    push_padded(&mut digits, width, number);
    line.push_str(digits.as_str());
}

// Adds a count in as many digits as it needs.
pub(crate) fn push_count(line: &mut LastLines, count: u64)
    requires { array_string_len line.old + 20 ≤ LAST_ROOM }
    ensures bytes { line.new.bytes ≡ line.old.bytes ++ decimal count }
    ensures len { array_string_len line.new ≤ array_string_len line.old + 20 }
{
    let mut buffer = Buffer::new();
    line.push_str(buffer.format(count));
}
