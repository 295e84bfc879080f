// What an operator sees of a machine, and what its units have read.
ghost use Rattle.std.specs.Prelude.{◌≡◌};

use crate::checks::{CELLS, CheckPart, check_part};
use crate::machine::{Machine, Mode};
use branch_ops::Regs;
use card_code::Tally;
use card_unit::CardsRead;
use disk_1311::DRIVES;
use indicators::Panel;

/// What the console of a machine shows, and what its card reader and its keyboard have read.
///
/// Source: CPU manual, console registers, indicators and switches; the rest is this project's own.
#[derive(Clone, Copy, Debug, PartialEq, Eq)]
pub struct Console {
    /// IR, the address of the instruction that comes next or that stopped the machine, and IR-2.
    pub regs: Regs,
    /// The twelve cells at IR, each as a number from 0 to 63, `32C + 16F + V`; None if they don't all lie in core.
    pub cells: Option<[u8; 12]>,
    /// The switches and indicators.
    pub panel: Panel,
    /// The cylinder at which the arm of each disk drive is.
    pub arms: [u32; DRIVES],
    /// Which part of its instruction a check is about, if a check stopped the machine. None for stops 10 and 11, which come after
    /// a whole instruction.
    pub part: Option<CheckPart>,
    /// How many cards were read.
    pub cards: CardsRead,
    /// The bad characters of these cards.
    pub bad_cards: Tally,
    /// How many lines of the keyboard were read.
    pub lines: u64,
    /// The bad characters of these lines.
    pub bad_keys: Tally,
}

impl<const M: u32> Machine<M> {
    ghost use Rattle.cpu_step.specs.Console.{cells_at, shown_on};
    ghost use Rattle.cpu_step.specs.Checks.{part_in};

    /// What the console shows.
    ///
    /// Source: CPU manual, console registers, indicators and switches; the rest is this project's own.
    pub fn shown(&self) -> Console
        ensures { result ≡ shown_on M self.now }
    {
        Console {
            regs: self.regs,
            cells: self.cells_at(self.regs.ir),
            panel: self.panel,
            arms: self.arms,
            part: self.check_part(),
            cards: self.hopper.cards_read(),
            bad_cards: self.hopper.bad_characters(),
            lines: self.keys.handed_out(),
            bad_keys: self.keys.bad_characters(),
        }
    }

    // Which part of its instruction a check is about, if a check stopped the machine.
    fn check_part(&self) -> Option<CheckPart>
        ensures { result ≡ part_in self.now.mode self.now.core }
    {
        match self.mode {
            Mode::Stopped { kind, at } => check_part(&self.core, kind, at),
            _ => None,
        }
    }

    // The twelve cells at an address, if they all lie in core.
    fn cells_at(&self, ir: u32) -> Option<[u8; 12]>
        ensures { result ≡ cells_at self.now.core ir }
    {
        if self.core.size() - CELLS < ir {
            return None;
        }
        Some([
            self.core.raw(ir),
            self.core.raw(ir + 1),
            self.core.raw(ir + 2),
            self.core.raw(ir + 3),
            self.core.raw(ir + 4),
            self.core.raw(ir + 5),
            self.core.raw(ir + 6),
            self.core.raw(ir + 7),
            self.core.raw(ir + 8),
            self.core.raw(ir + 9),
            self.core.raw(ir + 10),
            self.core.raw(ir + 11),
        ])
    }
}
