// The card reader and punch.
//
// - `next|` takes a card from the hopper
// - `RNCD|P`, `RACD|P`, `WNCD|P`, `WACD|P`, `DNCD|P` reads, punches and dumps; P is odd if pairs are read or punched
use crate::desk::Desk;
use crate::lines::{RowLine, place};
use crate::texts::front;
use card_unit::{CardAnswer, CardIo, dump, punch_alpha, punch_num, read_alpha, read_num};
use std::alloc::{AllocError, Global};
use std::io;

// Reads or punches; None if the line is not known.
pub(crate) fn call<const M: u32>(desk: &mut Desk<M>, line: &RowLine<'_>) -> Option<CardIo> {
    let (machine, host) = (&mut desk.machine, &mut desk.host);
    let (core, panel) = (&mut machine.core, &mut machine.panel);
    let p = place(core, line.first)?;
    match line.name {
        "RNCD" => Some(read_num(core, p, panel, &mut machine.hopper, host)),
        "WNCD" => Some(punch_num(core, p, host)),
        "DNCD" => Some(dump(core, p, host)),
        "RACD" if p % 2 == 1 => Some(read_alpha(core, p, panel, &mut machine.hopper, host)),
        "WACD" if p % 2 == 1 => Some(punch_alpha(core, p, panel, host)),
        _ => None,
    }
}

// The columns of a card, without the blanks at its end.
fn columns(alloc: Global, card: &[u8; 80]) -> Result<String, AllocError> {
    let mut n = 0;
    for i in 0..80 {
        if card[i] != b' ' {
            n = i + 1;
        }
    }
    front(alloc, card, n)
}

// Prints the next card of the hopper; false if the line is not known.
pub(crate) fn show<const M: u32>(
    rt: &impl Print,
    desk: &mut Desk<M>,
    line: &RowLine<'_>,
) -> io::Result<bool> {
    if line.name != "next" {
        return Ok(false);
    }
    match desk.machine.hopper.next_card(&mut desk.host) {
        CardAnswer::Card { card, last } => {
            let behind = if last { "the last" } else { "more behind" };
            println!(rt; "next|{}|{behind}", columns(desk.alloc, &card.0)?)?;
        }
        CardAnswer::Empty => println!(rt; "next|empty")?,
        CardAnswer::Jam { unit, line } => println!(rt; "next|jam {unit:?} {line}")?,
        CardAnswer::Failed => println!(rt; "next|failed")?,
    }
    Ok(true)
}
