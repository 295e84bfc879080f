// The switches and indicators.
//
// - `on|N`, `off|N` sets the switch or indicator with code N; `dark|` turns all off, `bright|` all on with the check switches at STOP
// - `checks|OVERFLOW|IO` sets the check switches, 1 is STOP; `result|ZERO|NEGATIVE` shows a result; `clear|` clears as the Load key does
// - `reads|` shows the codes of 0 to 255 that read as on, and the check switches
// - `tests|` the codes of 0 to 255 whose test is true or changes the panel, and the codes that are on after each test
use crate::lines::{RowLine, number};
use indicators::Panel;
use std::alloc::{AllocError, Global};
use std::io;

// The codes that can be set.
const CODES: [u8; 15] = [1, 2, 3, 4, 6, 7, 9, 11, 12, 14, 16, 17, 36, 37, 38];

// Sets the switch or indicator of a code; None if this code can't be set.
fn set_code(panel: &mut Panel, code: u32, to: bool) -> Option<()> {
    for settable in [1, 2, 3, 4, 6, 7, 9, 11, 12, 14, 16, 17, 36, 37, 38] {
        if code == u32::from(settable) {
            return set_settable(panel, settable, to);
        }
    }
    None
}

// Turns a switch or an indicator on or off; None if its code can't be set.
fn set_settable(panel: &mut Panel, code: u8, to: bool) -> Option<()> {
    if matches!(code, 1..=4 | 6 | 7 | 9 | 11 | 12 | 14 | 16 | 17 | 36..=38) {
        panel.set(code, to);
        return Some(());
    }
    None
}

// Turns all on.
fn light(panel: &mut Panel) -> Option<()> {
    for code in CODES {
        set_settable(panel, code, true)?;
    }
    panel.set_checks(true, true);
    Some(())
}

// Sets the panel; None if the line is not known.
pub(crate) fn set(panel: &mut Panel, line: &RowLine<'_>) -> Option<()> {
    let first = number(line.first).unwrap_or(0);
    let second = number(line.second).unwrap_or(0);
    match line.name {
        "on" => return set_code(panel, first, true),
        "off" => return set_code(panel, first, false),
        "bright" => return light(panel),
        "dark" => *panel = Panel::new(),
        "checks" => panel.set_checks(first == 1, second == 1),
        "result" => panel.set_result(first == 1, second == 1),
        "clear" => panel.clear_for_load(),
        _ => return None,
    }
    Some(())
}

// The codes that are on and name one switch or indicator, and the check switches at STOP, each after a blank.
pub(crate) fn lamps(alloc: Global, panel: &Panel) -> Result<String, AllocError> {
    let mut text = String::new(alloc);
    for code in CODES {
        if panel.on(code) {
            let shown = format!(in alloc; " {code:02}")?;
            text.push_str(shown.as_str())?;
        }
    }
    let (overflow, io) = panel.checks();
    if overflow {
        text.push_str(" OVERFLOW STOP")?;
    }
    if io {
        text.push_str(" IO STOP")?;
    }
    Ok(text)
}

// Prints the codes that read as on.
fn show_reads(rt: &impl Print, panel: &Panel) -> io::Result<()> {
    print!(rt; "reads|")?;
    for code in 0u8..=255 {
        if panel.on(code) {
            print!(rt; " {code:02}")?;
        }
    }
    println!(rt; " {:?}", panel.checks())
}

// Prints the answer of a test of each code, and what is on after it; nothing if it is false and the panel stays.
fn show_tests(rt: &impl Print, alloc: Global, panel: &Panel) -> io::Result<()> {
    for code in 0u8..=255 {
        let mut behind = *panel;
        let answer = behind.test(code);
        if answer || behind != *panel {
            println!(rt; "tests|{code:02} {answer}{}", lamps(alloc, &behind)?)?;
        }
    }
    Ok(())
}

// Prints reads or tests of the panel; false if the line is not known.
pub(crate) fn show(
    rt: &impl Print,
    alloc: Global,
    panel: &Panel,
    line: &RowLine<'_>,
) -> io::Result<bool> {
    match line.name {
        "reads" => show_reads(rt, panel)?,
        "tests" => show_tests(rt, alloc, panel)?,
        _ => return Ok(false),
    }
    Ok(true)
}
