// The machine as a whole.
//
// - `ir|A`, `ir2|A` sets a register; `run|` the machine runs, `halt|A` the instruction at A has halted it
// - `step|` makes a step if the machine runs, `steps|N` up to N steps: how the last step ended; `load|` presses the Load key
use crate::desk::Desk;
use crate::lines::{RowLine, number};
use cpu_step::{Machine, Mode, Turned};
use outside_io::MemHost;

// Sets the registers or the mode; None if the line is not known.
pub(crate) fn set<const M: u32>(machine: &mut Machine<M>, line: &RowLine<'_>) -> Option<()> {
    match line.name {
        "ir" => machine.regs.ir = number(line.first)?,
        "ir2" => machine.regs.ir2 = number(line.first)?,
        "run" => machine.mode = Mode::Running,
        "halt" => {
            machine.mode = Mode::Halted {
                at: number(line.first)?,
            };
        }
        _ => return None,
    }
    Some(())
}

// Makes up to `count` steps, as long as the machine runs: how the last step ended, `On` without a step.
fn steps<const M: u32>(machine: &mut Machine<M>, host: &mut MemHost, count: u32) -> Turned {
    let mut last = Turned::On;
    for _ in 0..count {
        if machine.is_running() {
            last = machine.step(host);
        }
    }
    last
}

// Makes steps, or presses the Load key; None if the line is not known.
pub(crate) fn call<const M: u32>(desk: &mut Desk<M>, line: &RowLine<'_>) -> Option<Turned> {
    match line.name {
        "step" => Some(steps(&mut desk.machine, &mut desk.host, 1)),
        "steps" => {
            let count = number(line.first)?;
            Some(steps(&mut desk.machine, &mut desk.host, count))
        }
        "load" => Some(desk.machine.load_key(&mut desk.host)),
        _ => None,
    }
}
