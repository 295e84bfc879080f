// How the place after a step is kept.
ghost use Rattle.std.specs.Prelude.{◌≡◌, ◌<◌, IfSome, List, ℕ, length};
ghost use Rattle.digit_core.specs.Size.{size};
ghost use Rattle.cpu_step.specs.Stores.{StoresBelow, StoresWithin};
ghost use Rattle.rewind_log.specs.Kept.{places_with, place_of_machine, newest};
ghost use Rattle.console_debug.specs.CursorStates.{AreStoredWords};

use cpu_step::{Machine, Stores};
use digit_core::Core;
use rewind_log::Rewind;

// Keeps the place after a step that may have stored only in these cells. Only the words of core with these cells are copied. If the
// cells are unknown, core is compared.
#[inline]
pub(crate) fn keep_step<const M: u32>(
    rewind: &mut Rewind<M>,
    machine: &Machine<M>,
    steps: u64,
    stores: Stores,
)
    requires some { 0 < length rewind.old }
    requires below { StoresBelow stores (size M) }
    requires within { IfSome (newest rewind.old) (λ k. StoresWithin stores k.core machine.now.core) }
    ensures { rewind.new ≡ places_with rewind.old (place_of_machine M machine.now steps) }
{
    match stored_words(&machine.core, stores) {
        Some((from, to)) => rewind.keep_within(machine, steps, from, to),
        None => rewind.keep(machine, steps),
    }
}

// The words with the cells that a step may have stored: from the first number on, and below the second. `core` is core after the step.
// None if the cells are unknown.
#[inline]
fn stored_words<const M: u32>(core: &Core<M>, stores: Stores) -> Option<(u32, u32)>
    requires { StoresBelow stores (size M) }
    ensures { (before : List ℕ) → StoresWithin stores before core.now
        → IfSome result (λ words. AreStoredWords M before core.now words.0 words.1) }
{
    match stores {
        Stores::Nothing => Some((0, 0)),
        Stores::Cell(p) => Some((p / 10, p / 10 + 1)),
        Stores::Down(p) => {
            let last = core.flag_below(p).unwrap_or(0);
            Some((last / 10, p / 10 + 1))
        }
        Stores::Up(p) => {
            let last = core.mark_above(p).unwrap_or(core.size() - 1);
            Some((p / 10, last / 10 + 1))
        }
        Stores::Anywhere => None,
    }
}
