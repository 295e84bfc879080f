// Moves over the places of a run, up to a stop or to a step.
ghost use Rattle.std.specs.Prelude.{◌≡◌, ◌<◌, IfSome, false, length, slice_get};
ghost use Rattle.outside_io.specs.World.{Seen};
ghost use Rattle.sps_listing.specs.Listing.{placed_texts};
ghost use Rattle.console_debug.specs.Breakpoints.{HasTables, set_now};
ghost use Rattle.console_debug.specs.CursorStates.{IsFit, IsSameCursor, ToKeptStop, ToStep, ToStop, cursor_state_of};
ghost use Rattle.console_debug.specs.Places.{is_at_break};

use crate::breaks::Breaks;
use crate::walking::Cursor;
use cpu_step::Mode;
use operator_script::{Ending, Run, TurnEnd};
use outside_io::Host;
use sps_pass_two::Assembled;

// Whether a machine runs at a breakpoint.
fn stands_at_break<const M: u32>(run: &Run<M>, assembled: &Assembled, breaks: &Breaks) -> bool
    requires { HasTables (placed_texts assembled.now) breaks.now }
    ensures { let machine = run.now.machine.now in
        result ≡ is_at_break (placed_texts assembled.now) (set_now breaks.now) machine.mode machine.regs.ir }
{
    is_at_break(assembled, breaks, run.machine.mode, run.machine.regs.ir)
}

// Whether a machine with this mode and this IR runs at a breakpoint.
fn is_at_break(assembled: &Assembled, breaks: &Breaks, mode: Mode, ir: u32) -> bool
    requires { HasTables (placed_texts assembled.now) breaks.now }
    ensures { result ≡ is_at_break (placed_texts assembled.now) (set_now breaks.now) mode ir }
{
    match mode {
        Mode::Running => breaks.has_break(assembled, ir),
        _ => false,
    }
}

impl<const M: u32> Cursor<'_, '_, M> {
    // Moves on to the next stop, a place at a breakpoint after a step, or to the end of the run. The answer is the ending, or None at
    // a stop.
    pub(crate) fn to_stop<H: Host>(
        &mut self,
        assembled: &Assembled,
        breaks: &Breaks,
        host: &mut H,
    ) -> Option<Ending>
        requires sound { IsFit M self.old.run.limit (cursor_state_of M self.old (H.seen host.old)) }
        requires tables { HasTables (placed_texts assembled.now) breaks.now }
        ensures same { IsSameCursor M self.old self.new }
        ensures stops { let before = cursor_state_of M self.old (H.seen host.old) in
            let after = cursor_state_of M self.new (H.seen host.new) in
            ToStop M self.old.run.limit (placed_texts assembled.now) (set_now breaks.now) before after result }
    {
        if self.to_kept_stop(assembled, breaks) {
            return None;
        }
        loop {
            match self.advance(host) {
                TurnEnd::Acted => {}
                TurnEnd::Stepped => {
                    if stands_at_break(&self.run, assembled, breaks) {
                        return None;
                    }
                }
                TurnEnd::Ended(how) => return Some(how),
            }
        }
    }

    // Moves on over the kept places, to the first stop or else to the newest place. The answer is whether it is a stop. The machine is
    // brought only to that place.
    fn to_kept_stop(&mut self, assembled: &Assembled, breaks: &Breaks) -> bool
        requires few { self.old.behind < length self.old.rewind.now }
        requires tables { HasTables (placed_texts assembled.now) breaks.now }
        ensures same { IsSameCursor M self.old self.new }
        ensures furthest { result ≡ false → self.new.behind ≡ 0 }
        ensures stops { (seen : Seen) →
            let before = cursor_state_of M self.old seen in
            let after = cursor_state_of M self.new seen in
            IsFit M self.old.run.limit before
            → ToKeptStop M self.old.run.limit (placed_texts assembled.now) (set_now breaks.now) before after result }
    {
        let mut steps = self.run.steps;
        let mut behind = self.behind;
        while behind > 0 {
            let i = self.rewind.len() - behind;
            let count = self.rewind.count_at(i);
            behind -= 1;
            if count > steps && self.is_kept_stop(i, assembled, breaks) {
                self.go_up_to(behind);
                return true;
            }
            steps = count;
        }
        self.go_up_to(0);
        false
    }

    // Whether the machine of a kept place runs at a breakpoint.
    fn is_kept_stop(&self, i: u32, assembled: &Assembled, breaks: &Breaks) -> bool
        requires inside { i < length self.now.rewind.now }
        requires tables { HasTables (placed_texts assembled.now) breaks.now }
        ensures { IfSome (slice_get self.now.rewind.now i)
            (λ k. result ≡ is_at_break (placed_texts assembled.now) (set_now breaks.now) k.mode k.regs.ir) }
    {
        is_at_break(
            assembled,
            breaks,
            self.rewind.mode_at(i),
            self.rewind.regs_at(i).ir,
        )
    }

    // Moves on from the furthest place to the place of the next step, or to the end of the run. The answer is the ending, or None if a
    // step comes next.
    pub(crate) fn to_step<H: Host>(&mut self, host: &mut H) -> Option<Ending>
        requires fit { IsFit M self.old.run.limit (cursor_state_of M self.old (H.seen host.old)) }
        requires furthest { self.old.behind ≡ 0 }
        ensures same { IsSameCursor M self.old self.new }
        ensures furthest { self.new.behind ≡ 0 }
        ensures steps { let before = cursor_state_of M self.old (H.seen host.old) in
            let after = cursor_state_of M self.new (H.seen host.new) in
            ToStep M self.old.run.limit before after result }
    {
        loop {
            if self.is_step_ahead() {
                return None;
            }
            match self.advance(host) {
                TurnEnd::Acted | TurnEnd::Stepped => {}
                TurnEnd::Ended(how) => return Some(how),
            }
        }
    }
}
