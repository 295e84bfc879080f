// How an instruction ends, by the answers of the machine's parts and by the check switches.
ghost use Rattle.std.specs.Prelude.{◌≡◌};
ghost use Rattle.cpu_step.specs.Step.{with_parity, check_stop};
ghost use Rattle.cpu_step.specs.Machine.{core_outcome, typewriter_outcome, card_outcome, disk_outcome, branch_outcome};

use crate::machine::Outcome;
use addr_indirect::Stop;
use branch_ops::Regs;
use card_unit::CardIo;
use disk_1311::DiskIo;
use indicators::{EVEN_PARITY, ODD_PARITY, Panel};
use outside_io::Unit;
use typewriter::TypeIo;

// On with these registers, if nothing stopped within core.
pub(crate) fn core_outcome(answer: Result<(), Stop>, regs: Regs) -> Outcome
    ensures { result ≡ core_outcome regs answer }
{
    match answer {
        Ok(()) => Outcome::Goes { regs },
        Err(stop) => Outcome::Stops(stop),
    }
}

// On at the address that a branch gives, with IR-2 as the branch left it.
pub(crate) fn branch_outcome(answer: Result<u32, Stop>, regs: Regs) -> Outcome
    ensures { result ≡ branch_outcome regs answer }
{
    match answer {
        Ok(ir) => Outcome::Goes {
            regs: Regs { ir, ..regs },
        },
        Err(stop) => Outcome::Stops(stop),
    }
}

// On with these registers, if the card was read or punched.
pub(crate) fn card_outcome(answer: CardIo, regs: Regs) -> Outcome
    ensures { result ≡ card_outcome regs answer }
{
    match answer {
        CardIo::Done => Outcome::Goes { regs },
        CardIo::Stop(stop) => Outcome::Stops(stop),
        CardIo::Empty => Outcome::Empty,
        CardIo::Jam { unit, line } => Outcome::Jam { unit, line },
        CardIo::Failed => Outcome::Fails,
    }
}

// On with these registers, if all was typed or the line was read.
pub(crate) fn typewriter_outcome(answer: TypeIo, regs: Regs) -> Outcome
    ensures { result ≡ typewriter_outcome regs answer }
{
    match answer {
        TypeIo::Done => Outcome::Goes { regs },
        TypeIo::Stop(stop) => Outcome::Stops(stop),
        TypeIo::NoKeys => Outcome::NoKeys,
        TypeIo::Jam(line) => Outcome::Jam {
            unit: Unit::Keys,
            line,
        },
        TypeIo::Failed => Outcome::Fails,
    }
}

// On with these registers, if the disk did its work.
pub(crate) fn disk_outcome(answer: DiskIo, regs: Regs) -> Outcome
    ensures { result ≡ disk_outcome regs answer }
{
    match answer {
        DiskIo::Done => Outcome::Goes { regs },
        DiskIo::Stop(stop) => Outcome::Stops(stop),
        DiskIo::Failed => Outcome::Fails,
    }
}

// The stop by a check switch that is at STOP, after a completed action.
pub(crate) fn check_stop(panel: &Panel) -> Option<Stop>
    ensures { result ≡ check_stop panel.now }
{
    if panel.overflow && panel.overflow_stops {
        return Some(Stop::Overflow);
    }
    if (panel.read_check || panel.write_check) && panel.in_out_stops {
        return Some(Stop::InOut);
    }
    None
}

// Turns on the parity indicator of a cell of even parity.
pub(crate) fn show_parity(panel: &mut Panel, stop: Stop)
    ensures { panel.new ≡ with_parity stop panel.old }
{
    match stop {
        Stop::Parity(at) => {
            if at % 2 == 0 {
                panel.set(EVEN_PARITY, true);
            } else {
                panel.set(ODD_PARITY, true);
            }
        }
        _ => {}
    }
}
