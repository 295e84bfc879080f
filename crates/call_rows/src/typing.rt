// The typewriter and its keyboard.
//
// - `WNTY|P`, `WATY|P`, `DNTY|P` types and dumps, `SPTY|`, `RCTY|`, `TBTY|` types a blank, a line feed, a tab
// - `RNTY|P`, `RATY|P` reads a line of the keyboard; P is odd if pairs are read or typed
use crate::desk::Desk;
use crate::lines::{RowLine, place};
use cpu_step::Machine;
use outside_io::MemHost;
use typewriter::{TypeIo, control, dump, read_alpha, read_num, write_alpha, write_num};

// Types core; None if the line is not known.
fn types<const M: u32>(
    machine: &mut Machine<M>,
    host: &mut MemHost,
    line: &RowLine<'_>,
) -> Option<TypeIo> {
    let (core, panel) = (&machine.core, &mut machine.panel);
    let p = place(core, line.first)?;
    match line.name {
        "WNTY" => Some(write_num(core, p, host)),
        "DNTY" => Some(dump(core, p, host)),
        "WATY" if p % 2 == 1 => Some(write_alpha(core, p, panel, host)),
        _ => None,
    }
}

// Types, or reads a line of the keyboard; None if the line is not known.
pub(crate) fn call<const M: u32>(desk: &mut Desk<M>, line: &RowLine<'_>) -> Option<TypeIo> {
    match line.name {
        "SPTY" => Some(control(1, &mut desk.host)),
        "RCTY" => Some(control(2, &mut desk.host)),
        "TBTY" => Some(control(8, &mut desk.host)),
        "RNTY" | "RATY" => read(desk, line),
        _ => types(&mut desk.machine, &mut desk.host, line),
    }
}

// Reads a line of the keyboard; None if the line is not known.
fn read<const M: u32>(desk: &mut Desk<M>, line: &RowLine<'_>) -> Option<TypeIo> {
    let (machine, host) = (&mut desk.machine, &mut desk.host);
    let (core, panel) = (&mut machine.core, &mut machine.panel);
    let p = place(core, line.first)?;
    match line.name {
        "RNTY" => Some(read_num(core, p, panel, &mut machine.keys, host)),
        "RATY" if p % 2 == 1 => Some(read_alpha(core, p, panel, &mut machine.keys, host)),
        _ => None,
    }
}
