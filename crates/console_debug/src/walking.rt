// The cursor of a session: it moves to the next place of a run, by a turn or to a kept place, and back to a kept place.
ghost use Rattle.std.specs.Prelude.{◌≡◌, ◌<◌, ◌≤◌, IfSome, length, slice_get};
ghost use Rattle.outside_io.specs.World.{Seen};
ghost use Rattle.operator_script.specs.Run.{IsSameRun, standing_of};
ghost use Rattle.console_debug.specs.CursorStates.{Advances, Backs, IsAtKept, IsFit, IsSameCursor, IsStepAhead, IsThere, KeepsScriptAndPlaces, cursor_state_at, cursor_state_of};

use crate::keeping::keep_step;
use operator_script::{Run, TurnEnd};
use outside_io::Host;
use rewind_log::Rewind;

// The cursor of a session over the places of a run: the run, its kept places, and how many kept places come after the current place.
#[derive(Drop)]
pub(crate) struct Cursor<'r, 'k, const M: u32> {
    pub(crate) run: Run<'r, M>,
    pub(crate) rewind: &'k mut Rewind<M>,
    pub(crate) behind: u32,
}

impl<const M: u32> Cursor<'_, '_, M> {
    // Moves on by one place from the furthest place: makes a turn, and keeps the place to which the turn led.
    pub(crate) fn advance<H: Host>(&mut self, host: &mut H) -> TurnEnd
        requires fit { IsFit M self.old.run.limit (cursor_state_of M self.old (H.seen host.old)) }
        requires furthest { self.old.behind ≡ 0 }
        ensures same { IsSameCursor M self.old self.new }
        ensures furthest { self.new.behind ≡ 0 }
        ensures advances { let before = cursor_state_of M self.old (H.seen host.old) in
            let after = cursor_state_of M self.new (H.seen host.new) in
            Advances M self.old.run.limit before after result }
    {
        make_turn(&mut self.run, self.rewind, host)
    }

    // Moves n places back, if that many are kept before the current place. The answer is whether it moved.
    pub(crate) fn go_back(&mut self, n: u64) -> bool
        requires few { self.old.behind < length self.old.rewind.now }
        ensures same { IsSameCursor M self.old self.new }
        ensures backs { (seen : Seen) →
            let before = cursor_state_of M self.old seen in
            let after = cursor_state_of M self.new seen in
            IsFit M self.old.run.limit before → Backs M self.old.run.limit n before after result }
    {
        let most = self.rewind.len() - 1 - self.behind;
        if n > u64::from(most) {
            return false;
        }
        self.behind += n as u32;
        self.go_to_kept(most - n as u32);
        true
    }

    // Brings the machine to kept place number `i`.
    pub(crate) fn go_to_kept(&mut self, i: u32)
        requires { i < length self.old.rewind.now }
        ensures same { KeepsScriptAndPlaces M self.old self.new }
        ensures behind { self.new.behind ≡ self.old.behind }
        ensures there { IfSome (slice_get self.old.rewind.now i)
            (IsAtKept M self.old.run.machine.now self.new.run.machine.now self.new.run.steps) }
    {
        self.run.steps = self.rewind.count_at(i);
        let machine = &mut *self.run.machine;
        self.rewind.restore(i, machine);
    }

    // Moves on to the kept place with `behind` kept places after it, if this is not the current place.
    pub(crate) fn go_up_to(&mut self, behind: u32)
        requires order { behind ≤ self.old.behind }
        requires few { self.old.behind < length self.old.rewind.now }
        ensures same { KeepsScriptAndPlaces M self.old self.new }
        ensures behind { self.new.behind ≡ behind }
        ensures there { (seen : Seen) →
            IsThere M (cursor_state_of M self.old seen) self.new.run.machine.now self.new.run.steps behind }
    {
        if behind < self.behind {
            let newest = self.rewind.len() - 1;
            self.behind = behind;
            self.go_to_kept(newest - behind);
        }
    }

    // Whether a step comes next after the furthest place.
    pub(crate) fn is_step_ahead(&self) -> bool
        requires { self.now.behind ≡ 0 }
        ensures { (seen : Seen) → IsStepAhead M self.now.run.limit (cursor_state_of M self.now seen) result }
    {
        self.run.is_step_next()
    }
}

// Makes a turn from the furthest place, and keeps the place to which it leads.
fn make_turn<const M: u32, H: Host>(
    run: &mut Run<M>,
    rewind: &mut Rewind<M>,
    host: &mut H,
) -> TurnEnd
    requires { IsFit M run.old.limit (cursor_state_at M (standing_of M run.old) rewind.old 0 (H.seen host.old)) }
    ensures same { IsSameRun M run.old run.new }
    ensures advances { let before = cursor_state_at M (standing_of M run.old) rewind.old 0 (H.seen host.old) in
        let after = cursor_state_at M (standing_of M run.new) rewind.new 0 (H.seen host.new) in
        Advances M run.old.limit before after result }
{
    let stores = run.machine.stores();
    match run.turn(host) {
        TurnEnd::Acted => {
            rewind.keep(run.machine, run.steps);
            TurnEnd::Acted
        }
        TurnEnd::Stepped => {
            keep_step(rewind, run.machine, run.steps, stores);
            TurnEnd::Stepped
        }
        TurnEnd::Ended(how) => TurnEnd::Ended(how),
    }
}
