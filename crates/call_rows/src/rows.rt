// A row: its lines, carried out one after another.
ghost use Rattle.digit_core.specs.Size.{IsSize};

use crate::desk::Desk;
use crate::given::Given;
use crate::lines::RowLine;
use crate::panel::lamps;
use crate::texts::show_text;
use crate::{
    cards, cells, characters, disk, features, fetches, moves, names, panel, readings, refused,
    steps, sums, typing, words,
};
use addr_indirect::Stop;
use outside_io::Unit;
use std::alloc::AllocError;
use std::io;

// Sets something; None if the line sets nothing.
fn set<const M: u32>(desk: &mut Desk<M>, line: &RowLine<'_>) -> Option<()> {
    if let Some(()) = cells::set(desk, line) {
        return Some(());
    }
    if let Some(()) = panel::set(&mut desk.machine.panel, line) {
        return Some(());
    }
    if let Some(()) = disk::set(desk, line) {
        return Some(());
    }
    steps::set(&mut desk.machine, line)
}

// Carries out an instruction within core; None if the line has no such instruction.
fn within_core<const M: u32>(desk: &mut Desk<M>, line: &RowLine<'_>) -> Option<Result<(), Stop>> {
    if let Some(answer) = sums::call(&mut desk.machine, line) {
        return Some(answer);
    }
    if let Some(answer) = moves::call(&mut desk.machine.core, line) {
        return Some(answer);
    }
    if let Some(answer) = features::call(&mut desk.machine.core, line) {
        return Some(answer);
    }
    characters::call(&mut desk.machine, line)
}

// The answer of a call, in words; None if the line calls nothing.
fn answer<const M: u32>(
    desk: &mut Desk<M>,
    line: &RowLine<'_>,
) -> Result<Option<String>, AllocError> {
    let alloc = desk.alloc;
    let words = if let Some(answer) = within_core(desk, line) {
        match answer {
            Ok(()) => format!(in alloc; "done")?,
            Err(stop) => format!(in alloc; "{stop:?}")?,
        }
    } else if let Some(answer) = fetches::call(&mut desk.machine, line) {
        let regs = desk.machine.regs;
        format!(in alloc; "{answer:?}, ir {} ir2 {}", regs.ir, regs.ir2)?
    } else if let Some(answer) = characters::pair(&mut desk.machine, line) {
        format!(in alloc; "{answer}")?
    } else {
        return unit_answer(desk, line);
    };
    Ok(Some(words))
}

// The answer of a unit's call, or of a call of the whole machine.
fn unit_answer<const M: u32>(
    desk: &mut Desk<M>,
    line: &RowLine<'_>,
) -> Result<Option<String>, AllocError> {
    let alloc = desk.alloc;
    let words = if let Some(answer) = cards::call(desk, line) {
        format!(in alloc; "{answer:?}")?
    } else if let Some(answer) = typing::call(desk, line) {
        format!(in alloc; "{answer:?}")?
    } else if let Some(answer) = disk::call(desk, line) {
        format!(in alloc; "{answer:?}")?
    } else if let Some(answer) = steps::call(desk, line) {
        let (mode, regs) = (desk.machine.mode, desk.machine.regs);
        format!(in alloc; "{answer:?}, {mode:?}, ir {} ir2 {}", regs.ir, regs.ir2)?
    } else {
        return Ok(None);
    };
    Ok(Some(words))
}

// Prints the text of an output, in lines as in a file; false if the line is not known.
fn show_output<const M: u32>(
    rt: &impl Print,
    desk: &Desk<M>,
    line: &RowLine<'_>,
) -> io::Result<bool> {
    let text = match line.name {
        "typed" => desk.host.shown(Unit::Typed),
        "punched" => desk.host.shown(Unit::Punched),
        _ => return Ok(false),
    };
    show_text(rt, desk.alloc, line.name, text)?;
    Ok(true)
}

// Prints what the line asks for; false if it asks for nothing.
fn shows<const M: u32>(
    rt: &impl Print,
    desk: &mut Desk<M>,
    line: &RowLine<'_>,
) -> io::Result<bool> {
    let alloc = desk.alloc;
    let is_known = cells::show(rt, desk, line)?
        || words::show(rt, alloc, &desk.machine.core, line)?
        || fetches::show(rt, alloc, &desk.machine.core, line)?
        || characters::show(rt, &desk.machine.core, line)?
        || names::show(rt, line)?
        || panel::show(rt, alloc, &desk.machine.panel, line)?
        || cards::show(rt, desk, line)?
        || disk::show(rt, desk, line)?
        || readings::show(rt, desk, line)?
        || refused::show(rt, desk, line)?
        || show_output(rt, desk, line)?;
    Ok(is_known)
}

// Carries out a line of a row.
fn does<const M: u32>(rt: &impl Print, desk: &mut Desk<M>, text: &str) -> io::Result<()> {
    let line = RowLine::new(text);
    if line.name == "row" {
        return println!(rt; "{text}");
    }
    if let Some(()) = set(desk, &line) {
        return Ok(());
    }
    if let Some(words) = answer(desk, &line)? {
        return println!(rt; "{text}|{words}{}", lamps(desk.alloc, &desk.machine.panel)?);
    }
    if shows(rt, desk, &line)? {
        return Ok(());
    }
    println!(rt; "{text} (not known, or no such place)")
}

// Carries out the lines of a row over a new machine.
fn row_over<const M: u32>(rt: &impl Print, given: &Given) -> io::Result<()>
    requires { IsSize M }
{
    let mut desk = Desk::<M>::new(given)?;
    for line in &given.lines {
        does(rt, &mut desk, line.as_str())?;
    }
    println!(rt; "")
}

// Carries out a row with a core of the row's size.
pub(crate) fn row(rt: &impl Print, given: &Given) -> io::Result<()> {
    match given.size {
        1 => row_over::<1>(rt, given),
        2 => row_over::<2>(rt, given),
        3 => row_over::<3>(rt, given),
        size => println!(rt; "(no size {size})\n"),
    }
}
