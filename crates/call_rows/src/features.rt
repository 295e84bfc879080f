// Moves of flags, and numbers that lose or get zones: `MF|P|Q`, and with an odd P `TNS|P|Q` and `TNF|P|Q`.
use crate::lines::{RowLine, place};
use addr_indirect::Stop;
use digit_core::Core;
use feature_ops::{fill, move_flag, strip};

// Carries out one of these operations; None if the line is not known.
pub(crate) fn call<const M: u32>(
    core: &mut Core<M>,
    line: &RowLine<'_>,
) -> Option<Result<(), Stop>> {
    let p = place(core, line.first)?;
    let q = place(core, line.second)?;
    match line.name {
        "MF" => Some(move_flag(core, p, q)),
        "TNS" if p % 2 == 1 => Some(strip(core, p, q)),
        "TNF" if p % 2 == 1 => Some(fill(core, p, q)),
        _ => None,
    }
}
