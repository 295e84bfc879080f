// Moves of fields, records, digits, and flags that are set and cleared: `TF|P|Q`, `TR|P|Q`, `TD|P|Q`, `SF|P`, `CF|P`.
use crate::lines::{RowLine, place};
use addr_indirect::Stop;
use digit_core::Core;
use field_moves::{cf, sf, td, tf, tr};

// Carries out a move; None if the line is not known.
pub(crate) fn call<const M: u32>(
    core: &mut Core<M>,
    line: &RowLine<'_>,
) -> Option<Result<(), Stop>> {
    let p = place(core, line.first)?;
    match line.name {
        "SF" => return Some(sf(core, p)),
        "CF" => return Some(cf(core, p)),
        _ => {}
    }
    let q = place(core, line.second)?;
    match line.name {
        "TF" => Some(tf(core, p, q)),
        "TR" => Some(tr(core, p, q)),
        "TD" => Some(td(core, p, q)),
        _ => None,
    }
}
