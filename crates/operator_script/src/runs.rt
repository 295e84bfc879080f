// A run as one value.
// Source: this project's own.
ghost use Rattle.operator_script.specs.Scripts.{lines_left};
ghost use Rattle.std.specs.Prelude.{◌≡◌, ◌<◌, ◌≤◌, ◌+◌, true, false, None};
ghost use Rattle.cpu_step.specs.Machine.{is_running};
ghost use Rattle.operator_script.specs.Run.{BreaksFrom, GoesOn, IsQuiet, IsReady, IsSameRun, IsStepNext, Runs, StepsBy, Turns, end_of_step, moment_at, standing_of};
ghost use Rattle.operator_script.specs.Turn.{due_action};

use crate::script::Script;
use crate::turns::{Ending, TurnEnd, act_by_script, can_go, ending_at, is_front_due, quiet_steps};
use cpu_step::{Machine, Turned};
use outside_io::Host;

/// A run under way: a machine that takes its turns under the operator's script, how many steps it has made, and how many it may make.
#[derive(Drop)]
pub struct Run<'a, const M: u32> {
    /// The machine.
    pub machine: &'a mut Machine<M>,
    /// The script, with the lines that have not acted yet.
    pub script: &'a mut Script,
    /// How many steps were made.
    pub steps: u64,
    /// How many steps may be made in all.
    pub limit: u64,
}

// How a step of a run ends: the machine runs on, or it doesn't, or the host failed.
#[derive(Clone, Copy)]
enum StepEnd {
    RunsOn,
    Rests,
    Failed,
}

impl<const M: u32> Run<'_, M> {
    /// Makes one turn of the run, as [`turn`](crate::turn) does.
    ///
    /// `steps` is no more than the limit, and the mode is not Faulted. The run keeps its machine, its script and its limit.
    #[inline(always)]
    pub fn turn<H: Host>(&mut self, host: &mut H) -> TurnEnd
        requires { IsReady M self.old }
        ensures same { IsSameRun M self.old self.new }
        ensures turns { let before = moment_at M (standing_of M self.old) (H.seen host.old) in
            let after = moment_at M (standing_of M self.new) (H.seen host.new) in
            Turns M self.old.limit before after result }
        ensures stepped { StepsBy M result self.old.machine.now self.new.machine.now (H.seen host.old) (H.seen host.new) }
    {
        if !can_go(self.machine.mode) {
            return TurnEnd::Ended(ending_at(self.machine.mode, self.machine.regs.ir));
        }
        if is_front_due(self.script, self.machine.mode, self.steps) {
            return act_by_script(self.machine, self.script, self.steps, host);
        }
        if !self.machine.is_running() {
            return TurnEnd::Ended(ending_at(self.machine.mode, self.machine.regs.ir));
        }
        if self.steps == self.limit {
            return TurnEnd::Ended(Ending::Limit);
        }
        self.steps += 1;
        match self.machine.step(host) {
            Turned::Failed => TurnEnd::Ended(Ending::Failed),
            _ => TurnEnd::Stepped,
        }
    }

    /// Makes turns until one ends the run, as [`run`](crate::run) does. The answer is the ending.
    ///
    /// `steps` is no more than the limit, and the mode is not Faulted. The run keeps its machine, its script and its limit.
    #[inline(always)]
    pub fn to_end<H: Host>(&mut self, host: &mut H) -> Ending
        requires { IsReady M self.old }
        ensures same { IsSameRun M self.old self.new }
        ensures runs { let before = moment_at M (standing_of M self.old) (H.seen host.old) in
            let after = moment_at M (standing_of M self.new) (H.seen host.new) in
            Runs M self.old.limit before after result }
    {
        loop {
            let count = self.quiet_up_to();
            if self.steps_to(count, host) {
                return Ending::Failed;
            }
            match self.turn(host) {
                TurnEnd::Acted | TurnEnd::Stepped => {}
                TurnEnd::Ended(how) => return how,
            }
        }
    }

    // A count of steps up to which each turn is a step while the machine runs on; 0 if it doesn't run.
    #[inline(always)]
    fn quiet_up_to(&self) -> u64
        ensures runs { 0 < result → is_running self.now.machine.now.mode ≡ true }
        ensures limit { result ≤ self.now.limit }
        ensures quiet { IsQuiet result (lines_left self.now.script.now) }
    {
        if self.machine.is_running() {
            quiet_steps(self.script, self.limit)
        } else {
            0
        }
    }

    // Makes steps up to this count while the machine runs on. Up to this count each turn of the run is a step. The answer is whether
    // the host failed.
    #[inline(always)]
    fn steps_to<H: Host>(&mut self, count: u64, host: &mut H) -> bool
        requires ready { IsReady M self.old }
        requires runs { 0 < count → is_running self.old.machine.now.mode ≡ true }
        requires limit { count ≤ self.old.limit }
        requires quiet { IsQuiet count (lines_left self.old.script.now) }
        ensures same { IsSameRun M self.old self.new }
        ensures goes { result ≡ false → GoesOn M self.old.limit
            (standing_of M self.old) (H.seen host.old) (standing_of M self.new) (H.seen host.new) }
        ensures fails { result ≡ true → BreaksFrom M self.old.limit
            (standing_of M self.old) (H.seen host.old) (standing_of M self.new) (H.seen host.new) }
    {
        while self.steps < count {
            match self.step(host) {
                StepEnd::RunsOn => {}
                StepEnd::Rests => return false,
                StepEnd::Failed => return true,
            }
        }
        false
    }

    // Makes a turn that is a step.
    #[inline(always)]
    fn step<H: Host>(&mut self, host: &mut H) -> StepEnd
        requires ready { IsReady M self.old }
        requires runs { is_running self.old.machine.now.mode ≡ true }
        requires below { self.old.steps < self.old.limit }
        requires quiet { due_action self.old.machine.now.mode self.old.steps (lines_left self.old.script.now) ≡ None }
        ensures same { IsSameRun M self.old self.new }
        ensures turns { let before = moment_at M (standing_of M self.old) (H.seen host.old) in
            let after = moment_at M (standing_of M self.new) (H.seen host.new) in
            Turns M self.old.limit before after (end_of_step result) }
        ensures lines { lines_left self.new.script.now ≡ lines_left self.old.script.now }
        ensures count { self.new.steps ≡ self.old.steps + 1 }
        ensures runs_on { result ≡ StepEnd.RunsOn → is_running self.new.machine.now.mode ≡ true }
    {
        self.steps += 1;
        match self.machine.step(host) {
            Turned::On => StepEnd::RunsOn,
            Turned::Failed => StepEnd::Failed,
            _ => StepEnd::Rests,
        }
    }

    /// Whether the next turn is a step: the machine runs, the count is not at the limit, and the front line of the script is not due.
    pub fn is_step_next(&self) -> bool
        ensures { IsStepNext self.now.limit self.now.machine.now.mode self.now.steps (lines_left self.now.script.now) result }
    {
        if !self.machine.is_running() {
            return false;
        }
        if self.steps == self.limit {
            return false;
        }
        !is_front_due(self.script, self.machine.mode, self.steps)
    }
}
