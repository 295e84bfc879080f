// The commands that move along the run, and their lines.
ghost use Rattle.std.specs.Prelude.{◌≡◌, ◌<◌, ℕ, IfSome, List, true};
ghost use Rattle.sps_listing.specs.Listing.{placed_texts};
ghost use Rattle.sps_pass_two.specs.Assembled.{PlacedText};
ghost use Rattle.console_debug.specs.Breakpoints.{HasTables, set_now};
ghost use Rattle.console_debug.specs.Carries.{CarriesPart, StepsOver, debugger_state, step_on};
ghost use Rattle.console_debug.specs.Session as does;
ghost use Rattle.console_debug.specs.CursorStates.{IsFit, IsSameCursor, IsStepAhead, cursor_state_of};

use crate::breaks::Breaks;
use crate::lines::{at_line, break_line, ending_line, no_back_line};
use crate::walking::Cursor;
use operator_script::{Ending, TurnEnd};
use outside_io::{Host, Sent, Unit, write_all};
use sps_pass_two::Assembled;

impl<const M: u32> Cursor<'_, '_, M> {
    // Moves to the next stop, or to the end of the run, and prints its line.
    pub(crate) fn go<H: Host>(
        &mut self,
        assembled: &Assembled,
        breaks: &Breaks,
        host: &mut H,
    ) -> Sent
        requires sound { IsFit M self.old.run.limit (cursor_state_of M self.old (H.seen host.old)) }
        requires tables { HasTables (placed_texts assembled.now) breaks.now }
        ensures same { IsSameCursor M self.old self.new }
        ensures carries { let before = debugger_state M (cursor_state_of M self.old (H.seen host.old)) (set_now breaks.now) in
            let after = debugger_state M (cursor_state_of M self.new (H.seen host.new)) (set_now breaks.now) in
            CarriesPart M self.old.run.limit (placed_texts assembled.now) does.go before after result }
    {
        match self.to_stop(assembled, breaks, host) {
            None => {
                let ir = self.run.machine.regs.ir;
                let line = break_line(breaks.statement_number(assembled, ir), ir, self.run.steps);
                write_all(host, Unit::Report, line.as_bytes())
            }
            Some(how) => match how {
                Ending::Failed => Sent::Failed,
                _ => {
                    let line = ending_line(how, self.run.steps);
                    write_all(host, Unit::Report, line.as_bytes())
                }
            },
        }
    }

    // Makes `count` steps, each after its line, or moves to the end of the run.
    pub(crate) fn step<H: Host>(&mut self, count: u64, host: &mut H) -> Sent
        requires { IsFit M self.old.run.limit (cursor_state_of M self.old (H.seen host.old)) }
        ensures same { IsSameCursor M self.old self.new }
        ensures carries { (placed : List PlacedText) (breaks : List ℕ) →
            let before = debugger_state M (cursor_state_of M self.old (H.seen host.old)) breaks in
            let after = debugger_state M (cursor_state_of M self.new (H.seen host.new)) breaks in
            CarriesPart M self.old.run.limit placed (does.steps count) before after result }
    {
        let left = match self.step_kept(count, host) {
            Some(left) => left,
            None => return Sent::Failed,
        };
        for _step in 0..left {
            match self.to_step(host) {
                None => {}
                Some(how) => match how {
                    Ending::Failed => return Sent::Failed,
                    _ => {
                        let line = ending_line(how, self.run.steps);
                        return write_all(host, Unit::Report, line.as_bytes());
                    }
                },
            }
            match self.make_step(host) {
                Sent::Done => {}
                Sent::Failed => return Sent::Failed,
            }
        }
        Sent::Done
    }

    // Makes up to `count` steps over the kept places, each after its line. The answer is how many steps are left, or None if the host
    // failed. The machine is brought only to the last of these places.
    fn step_kept<H: Host>(&mut self, count: u64, host: &mut H) -> Option<u64>
        requires { IsFit M self.old.run.limit (cursor_state_of M self.old (H.seen host.old)) }
        ensures same { IsSameCursor M self.old self.new }
        ensures carries { (placed : List PlacedText) (breaks : List ℕ) →
            let before = debugger_state M (cursor_state_of M self.old (H.seen host.old)) breaks in
            let after = debugger_state M (cursor_state_of M self.new (H.seen host.new)) breaks in
            StepsOver M self.old.run.limit placed count before after result }
        ensures furthest { IfSome result (λ left. 0 < left → self.new.behind ≡ 0) }
    {
        let mut left = count;
        let mut ir = self.run.machine.regs.ir;
        let mut steps = self.run.steps;
        let mut behind = self.behind;
        while left > 0 && behind > 0 {
            let i = self.rewind.len() - behind;
            let next = self.rewind.count_at(i);
            if next > steps {
                match write_all(host, Unit::Report, at_line(ir, steps).as_bytes()) {
                    Sent::Done => {}
                    Sent::Failed => {
                        self.go_up_to(behind);
                        return None;
                    }
                }
                left -= 1;
            }
            behind -= 1;
            ir = self.rewind.regs_at(i).ir;
            steps = next;
        }
        self.go_up_to(behind);
        Some(left)
    }

    // Prints the line of the next step, and makes the step.
    fn make_step<H: Host>(&mut self, host: &mut H) -> Sent
        requires sound { IsFit M self.old.run.limit (cursor_state_of M self.old (H.seen host.old)) }
        requires next { IsStepAhead M self.old.run.limit (cursor_state_of M self.old (H.seen host.old)) true }
        requires furthest { self.old.behind ≡ 0 }
        ensures same { IsSameCursor M self.old self.new }
        ensures furthest { self.new.behind ≡ 0 }
        ensures carries { (placed : List PlacedText) (breaks : List ℕ) →
            let before = debugger_state M (cursor_state_of M self.old (H.seen host.old)) breaks in
            let after = debugger_state M (cursor_state_of M self.new (H.seen host.new)) breaks in
            CarriesPart M self.old.run.limit placed step_on before after result }
    {
        let line = at_line(self.run.machine.regs.ir, self.run.steps);
        match write_all(host, Unit::Report, line.as_bytes()) {
            Sent::Done => {}
            Sent::Failed => return Sent::Failed,
        }
        match self.advance(host) {
            TurnEnd::Acted | TurnEnd::Stepped => Sent::Done,
            TurnEnd::Ended(how) => match how {
                Ending::Failed => Sent::Failed,
                _ => Sent::Done,
            },
        }
    }

    // Moves `count` places back and prints the line of the place, or prints NO BACK if this is not possible.
    pub(crate) fn back<H: Host>(&mut self, count: u64, host: &mut H) -> Sent
        requires { IsFit M self.old.run.limit (cursor_state_of M self.old (H.seen host.old)) }
        ensures same { IsSameCursor M self.old self.new }
        ensures carries { (placed : List PlacedText) (breaks : List ℕ) →
            let before = debugger_state M (cursor_state_of M self.old (H.seen host.old)) breaks in
            let after = debugger_state M (cursor_state_of M self.new (H.seen host.new)) breaks in
            CarriesPart M self.old.run.limit placed (does.back count) before after result }
    {
        if self.go_back(count) {
            let place = at_line(self.run.machine.regs.ir, self.run.steps);
            write_all(host, Unit::Report, place.as_bytes())
        } else {
            write_all(host, Unit::Report, no_back_line(count).as_bytes())
        }
    }
}
