// One step: the instruction at IR.
ghost use Rattle.std.specs.Prelude.{◌≡◌, ◌<◌, ◌≤◌, ◌+◌, ◌%◌, true};
ghost use Rattle.digit_core.specs.Size.{size};

use crate::ends::{check_stop, core_outcome, show_parity};
use crate::machine::{Machine, Mode, Outcome, Turned};
use crate::memo::Known;
use crate::rows::{InOutRow, Row, decoded_row};
use addr_indirect::{Stop, fetch};
use branch_ops::{BranchOperands, Operands, Regs};
use feature_ops::do_feature;
use field_moves::make_move;
use instruction_table::BranchOp;
use outside_io::Host;
use table_arith::{add, compare};

impl<const M: u32> Machine<M> {
    ghost use Rattle.cpu_step.specs.Step.{instruction};
    ghost use Rattle.branch_ops.specs.Registers.{on_at};
    ghost use Rattle.cpu_step.specs.Rows.{takes_odd, unit_takes_odd};
    ghost use Rattle.cpu_step.specs.Machine.{Acts, Steps, Settles, RowSettles, UnitSettles, BranchSettles, InstructionSettles, stopped_machine};

    /// One step: the instruction at IR.
    ///
    /// The mode is Running. After a step without a stop IR is the address of the next instruction. After a stop IR is still the address
    /// of the instruction that stopped, and what its completed cycles stored or typed stays. A read that meets no card or a jam changes
    /// no cell. The answer is `Failed` only if the host's count of faults rose: then a first part of the step's effects is done.
    /// Source: CPU manual, instruction descriptions; the order of the checks is this project's own.
    #[inline(always)]
    pub fn step<H: Host>(&mut self, host: &mut H) -> Turned
        requires { self.old.mode ≡ Mode.Running }
        ensures { Steps M self.old self.new (H.seen host.old) (H.seen host.new) result }
    {
        self.core.size_law();
        let ir = self.regs.ir;
        match self.memo.look(&self.core, ir) {
            Known::B { p } => self.settle(Outcome::Goes {
                regs: Regs {
                    ir: p,
                    ir2: self.regs.ir2,
                },
            }),
            Known::Row { row, fields } => self.row_step(row, fields.at(ir), host),
            Known::Branch { op, fields, code } => self.branch_step(op, fields.at(ir).tested(code)),
            Known::Chained { .. } | Known::Nothing => self.chained_step(host),
        }
    }

    // The rest of a step whose instruction has this row. An arm of `step` with locals is a function of its own, like this one:
    // the locals of `step` itself are set to zero in each step, whichever arm it takes. Each row calls `settle` for itself, as
    // each arm of `step` does.
    #[inline(always)]
    fn row_step<H: Host>(&mut self, row: Row, o: Operands, host: &mut H) -> Turned
        requires ir { self.old.regs.ir + 12 ≤ size M }
        requires p { o.p < size M }
        requires q { o.q < size M }
        requires odd { takes_odd row ≡ true → o.p % 2 ≡ 1 }
        ensures { RowSettles M row o self.old self.new (H.seen host.old) (H.seen host.new) result }
    {
        let regs = self.next();
        match row {
            Row::Sum(kind) => {
                let answer = add(&mut self.core, o.p, o.q, kind, &mut self.panel);
                self.settle(core_outcome(answer, regs))
            }
            Row::Compare => {
                let answer = compare(&self.core, o.p, o.q, &mut self.panel);
                self.settle(core_outcome(answer, regs))
            }
            Row::Move(op) => {
                let answer = make_move(&mut self.core, op, o.p, o.q);
                self.settle(core_outcome(answer, regs))
            }
            Row::Feature(op) => {
                let answer = do_feature(&mut self.core, op, o.p, o.q);
                self.settle(core_outcome(answer, regs))
            }
            Row::Nop => self.settle(Outcome::Goes { regs }),
            Row::H => self.settle(Outcome::Halts { regs }),
            Row::InOut(row) => self.in_out_step(row, o.p, regs, host),
            Row::Branch { op, code } => self.unkept_branch_step(op, o.tested(code)),
        }
    }

    // The rest of a step of a row of the input and output units. It is a function of its own, as the arms of `step` are.
    #[inline(always)]
    fn in_out_step<H: Host>(&mut self, row: InOutRow, p: u32, regs: Regs, host: &mut H) -> Turned
        requires p { p < size M }
        requires odd { unit_takes_odd row ≡ true → p % 2 ≡ 1 }
        requires regs { regs ≡ on_at self.old.regs (self.old.regs.ir + 12) }
        ensures { UnitSettles M row p self.old self.new (H.seen host.old) (H.seen host.new) result }
    {
        let outcome = self.in_out(row, p, regs, host);
        self.settle(outcome)
    }

    // The rest of a step of this branch.
    #[inline(always)]
    fn branch_step(&mut self, op: BranchOp, o: BranchOperands) -> Turned
        requires p { o.p < size M }
        requires q { o.q < size M }
        requires next { self.old.regs.ir + 12 ≤ size M }
        ensures { BranchSettles M op o self.old self.new result }
    {
        let outcome = self.branch_by(op, o);
        self.settle(outcome)
    }

    // The rest of a step of a branch that isn't kept as `Known::Branch`. It isn't inlined: `step` would then be too large to be
    // inlined into a run's loop.
    #[inline(never)]
    fn unkept_branch_step(&mut self, op: BranchOp, o: BranchOperands) -> Turned
        requires p { o.p < size M }
        requires q { o.q < size M }
        requires next { self.old.regs.ir + 12 ≤ size M }
        ensures { BranchSettles M op o self.old self.new result }
    {
        self.branch_step(op, o)
    }

    // A step whose instruction has a chain, or isn't decoded in the decode cache.
    #[inline(always)]
    fn chained_step<H: Host>(&mut self, host: &mut H) -> Turned
        ensures { InstructionSettles M self.old self.new (H.seen host.old) (H.seen host.new) result }
    {
        let outcome = self.through_chains(host);
        self.settle(outcome)
    }

    // Ends a step by its instruction's outcome. Each arm of `step` calls it for itself: the outcome of all arms would first be
    // put into memory, and then taken apart again.
    #[inline(always)]
    fn settle(&mut self, outcome: Outcome) -> Turned
        ensures { Settles M self.old self.new outcome result }
    {
        match outcome {
            Outcome::Goes { regs } => match check_stop(&self.panel) {
                None => {
                    self.regs = regs;
                    Turned::On
                }
                Some(kind) => self.stop(kind),
            },
            Outcome::Halts { regs } => match check_stop(&self.panel) {
                None => {
                    self.mode = Mode::Halted { at: self.regs.ir };
                    self.regs = regs;
                    Turned::Halt
                }
                Some(kind) => self.stop(kind),
            },
            Outcome::Stops(kind) => self.stop(kind),
            Outcome::Empty => {
                self.mode = Mode::Empty;
                Turned::Empty
            }
            Outcome::NoKeys => {
                self.mode = Mode::NoKeys;
                Turned::NoKeys
            }
            Outcome::Jam { unit, line } => {
                self.mode = Mode::Jam { unit, line };
                Turned::Jam { unit, line }
            }
            Outcome::Fails => {
                self.mode = Mode::Faulted;
                Turned::Failed
            }
        }
    }

    // Stops the machine at the instruction at IR.
    fn stop(&mut self, kind: Stop) -> Turned
        ensures answers { result ≡ Turned.Stop kind }
        ensures leaves { self.new ≡ stopped_machine M self.old kind }
    {
        show_parity(&mut self.panel, kind);
        self.mode = Mode::Stopped {
            kind,
            at: self.regs.ir,
        };
        Turned::Stop(kind)
    }

    // Carries out the instruction at IR, if it has a chain or isn't decoded in the decode cache.
    #[inline(never)]
    fn through_chains<H: Host>(&mut self, host: &mut H) -> Outcome
        ensures { Acts M instruction self.old self.new (H.seen host.old) (H.seen host.new) result }
    {
        self.core.size_law();
        let ir = self.regs.ir;
        match self.memo.look(&self.core, ir) {
            Known::Chained { row, fields } => self.act(row, fields, host),
            _ => self.decoded(host),
        }
    }

    // Fetches the instruction at IR, finds its row and carries it out.
    #[inline(never)]
    fn decoded<H: Host>(&mut self, host: &mut H) -> Outcome
        ensures { Acts M instruction self.old self.new (H.seen host.old) (H.seen host.new) result }
    {
        let i = match fetch(&self.core, self.regs.ir) {
            Ok(i) => i,
            Err(stop) => return Outcome::Stops(stop),
        };
        match decoded_row(&i) {
            Ok((row, fields)) => self.act(row, fields, host),
            Err(stop) => Outcome::Stops(stop),
        }
    }
}
