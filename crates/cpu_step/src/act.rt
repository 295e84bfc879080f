// The actions of the rows.
ghost use Rattle.std.specs.Prelude.{◌≡◌, ◌<◌, ◌≤◌, ◌+◌, ◌%◌, true};
ghost use Rattle.digit_core.specs.Size.{size};

use crate::ends::{branch_outcome, card_outcome, core_outcome, disk_outcome, typewriter_outcome};
use crate::machine::{Machine, Outcome};
use crate::rows::{CardRow, ConsoleRow, DiskRow, InOutRow, Row};
use branch_ops::{BranchOperands, Fields, Operands, Regs, branch_known};
use feature_ops::do_feature;
use field_moves::make_move;
use instruction_table::BranchOp;
use outside_io::Host;
use table_arith::{add, compare};

impl<const M: u32> Machine<M> {
    ghost use Rattle.branch_ops.specs.Registers.{on_at};
    ghost use Rattle.cpu_step.specs.Act.{act_over, on_console, on_cards, on_disk};
    ghost use Rattle.cpu_step.specs.Rows.{takes_odd, unit_takes_odd, console_takes_odd, cards_take_odd};
    ghost use Rattle.cpu_step.specs.Machine.{Acts, BranchActs, RowActs, UnitActs};

    // Works out the operands that these fields hold, and does the action of this row.
    #[inline(always)]
    pub(crate) fn act<H: Host>(&mut self, row: Row, fields: Fields, host: &mut H) -> Outcome
        requires inside { self.old.regs.ir + 12 ≤ size M }
        requires odd { takes_odd row ≡ true → fields.odd ≡ true }
        ensures { Acts M (act_over row fields) self.old self.new (H.seen host.old) (H.seen host.new) result }
    {
        match self.memo.operands(fields, &self.core, self.regs.ir) {
            Ok(o) => self.action(row, o, host),
            Err(stop) => Outcome::Stops(stop),
        }
    }

    // Does the action of a row over its operands.
    #[inline(always)]
    pub(crate) fn action<H: Host>(&mut self, row: Row, o: Operands, host: &mut H) -> Outcome
        requires ir { self.old.regs.ir + 12 ≤ size M }
        requires p { o.p < size M }
        requires q { o.q < size M }
        requires odd { takes_odd row ≡ true → o.p % 2 ≡ 1 }
        ensures { RowActs M row o self.old self.new (H.seen host.old) (H.seen host.new) result }
    {
        let regs = self.next();
        match row {
            Row::Sum(kind) => core_outcome(
                add(&mut self.core, o.p, o.q, kind, &mut self.panel),
                regs,
            ),
            Row::Compare => core_outcome(compare(&self.core, o.p, o.q, &mut self.panel), regs),
            Row::Move(op) => core_outcome(make_move(&mut self.core, op, o.p, o.q), regs),
            Row::Feature(op) => core_outcome(do_feature(&mut self.core, op, o.p, o.q), regs),
            Row::Nop => Outcome::Goes { regs },
            Row::H => Outcome::Halts { regs },
            Row::InOut(row) => self.in_out(row, o.p, regs, host),
            Row::Branch { op, code } => self.branch_by(op, o.tested(code)),
        }
    }

    // Does the action of a branch over its operands.
    #[inline(always)]
    pub(crate) fn branch_by(&mut self, op: BranchOp, o: BranchOperands) -> Outcome
        requires p { o.p < size M }
        requires q { o.q < size M }
        requires next { self.old.regs.ir + 12 ≤ size M }
        ensures { BranchActs M op o self.old self.new result }
    {
        let mut regs = self.regs;
        let answer = branch_known(op, o, &mut self.core, &mut regs, &mut self.panel);
        branch_outcome(answer, regs)
    }

    // Does the action of a row of the input and output units.
    #[inline(never)]
    pub(crate) fn in_out<H: Host>(
        &mut self,
        row: InOutRow,
        p: u32,
        regs: Regs,
        host: &mut H,
    ) -> Outcome
        requires p { p < size M }
        requires odd { unit_takes_odd row ≡ true → p % 2 ≡ 1 }
        requires regs { regs ≡ on_at self.old.regs (self.old.regs.ir + 12) }
        ensures { UnitActs M row p self.old self.new (H.seen host.old) (H.seen host.new) result }
    {
        match row {
            InOutRow::Console(row) => self.console(row, p, regs, host),
            InOutRow::Cards(row) => self.cards(row, p, regs, host),
            InOutRow::Disk(row) => self.disk(row, p, regs, host),
        }
    }

    // Does the action of a row of the typewriter and its keyboard.
    #[inline(always)]
    fn console<H: Host>(&mut self, row: ConsoleRow, p: u32, regs: Regs, host: &mut H) -> Outcome
        requires p { p < size M }
        requires odd { console_takes_odd row ≡ true → p % 2 ≡ 1 }
        requires regs { regs ≡ on_at self.old.regs (self.old.regs.ir + 12) }
        ensures { Acts M (on_console row p) self.old self.new (H.seen host.old) (H.seen host.new) result }
    {
        self.core.size_law();
        let Machine {
            core,
            panel,
            keys,
            ..
        } = self;
        match row {
            ConsoleRow::Space => typewriter_outcome(typewriter::control(1, host), regs),
            ConsoleRow::Return => typewriter_outcome(typewriter::control(2, host), regs),
            ConsoleRow::Tab => typewriter_outcome(typewriter::control(8, host), regs),
            ConsoleRow::Dump => typewriter_outcome(typewriter::dump(core, p, host), regs),
            ConsoleRow::WriteNumeric => typewriter_outcome(
                typewriter::write_num(core, p, host),
                regs,
            ),
            ConsoleRow::WriteAlpha => typewriter_outcome(
                typewriter::write_alpha(core, p, panel, host),
                regs,
            ),
            ConsoleRow::ReadNumeric => typewriter_outcome(
                typewriter::read_num(core, p, panel, keys, host),
                regs,
            ),
            ConsoleRow::ReadAlpha => typewriter_outcome(
                typewriter::read_alpha(core, p, panel, keys, host),
                regs,
            ),
        }
    }

    // Does the action of a row of the card reader or the punch.
    #[inline(always)]
    fn cards<H: Host>(&mut self, row: CardRow, p: u32, regs: Regs, host: &mut H) -> Outcome
        requires p { p < size M }
        requires odd { cards_take_odd row ≡ true → p % 2 ≡ 1 }
        requires regs { regs ≡ on_at self.old.regs (self.old.regs.ir + 12) }
        ensures { Acts M (on_cards row p) self.old self.new (H.seen host.old) (H.seen host.new) result }
    {
        self.core.size_law();
        let Machine {
            core,
            panel,
            hopper,
            ..
        } = self;
        match row {
            CardRow::Dump => card_outcome(card_unit::dump(core, p, host), regs),
            CardRow::PunchNumeric => card_outcome(card_unit::punch_num(core, p, host), regs),
            CardRow::PunchAlpha => card_outcome(card_unit::punch_alpha(core, p, panel, host), regs),
            CardRow::ReadNumeric => card_outcome(
                card_unit::read_num(core, p, panel, hopper, host),
                regs,
            ),
            CardRow::ReadAlpha => card_outcome(
                card_unit::read_alpha(core, p, panel, hopper, host),
                regs,
            ),
        }
    }

    // Does the action of a row of the disk.
    #[inline(always)]
    fn disk<H: Host>(&mut self, row: DiskRow, p: u32, regs: Regs, host: &mut H) -> Outcome
        requires p { p < size M }
        requires regs { regs ≡ on_at self.old.regs (self.old.regs.ir + 12) }
        ensures { Acts M (on_disk row p) self.old self.new (H.seen host.old) (H.seen host.new) result }
    {
        self.core.size_law();
        let Machine {
            core,
            panel,
            arms,
            ..
        } = self;
        match row {
            DiskRow::Seek => disk_outcome(disk_1311::seek(core, p, panel, arms), regs),
            DiskRow::Transfer(kind) => disk_outcome(
                disk_1311::transfer(core, p, kind, panel, arms, host),
                regs,
            ),
        }
    }

    // The registers at the next instruction.
    pub(crate) fn next(&self) -> Regs
        requires { self.now.regs.ir + 12 ≤ size M }
        ensures { result ≡ on_at self.now.regs (self.now.regs.ir + 12) }
    {
        self.core.size_law();
        Regs {
            ir: self.regs.ir + 12,
            ir2: self.regs.ir2,
        }
    }
}
