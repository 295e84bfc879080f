// Sums and comparisons: `A|P|Q`, `S|P|Q`, `C|P|Q`.
use crate::lines::{RowLine, place};
use addr_indirect::Stop;
use cpu_step::Machine;
use table_arith::{Kind, add, compare};

// Carries out a sum or a comparison; None if the line is not known.
pub(crate) fn call<const M: u32>(
    machine: &mut Machine<M>,
    line: &RowLine<'_>,
) -> Option<Result<(), Stop>> {
    let (core, panel) = (&mut machine.core, &mut machine.panel);
    let p = place(core, line.first)?;
    let q = place(core, line.second)?;
    match line.name {
        "A" => Some(add(core, p, q, Kind::Add, panel)),
        "S" => Some(add(core, p, q, Kind::Subtract, panel)),
        "C" => Some(compare(core, p, q, panel)),
        _ => None,
    }
}
