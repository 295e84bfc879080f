// The machine, its mode, and how it ends.
ghost use Rattle.std.specs.Prelude.{◌≡◌, IfOk};
ghost use Rattle.digit_core.specs.Size.{IsSize};
ghost use Rattle.outside_io.specs.declared.host.Unit.TheVariants as units;
ghost use Rattle.card_code.specs.{unit_of};

use crate::memo::Memo;
use addr_indirect::Stop;
use branch_ops::Regs;
use card_code::Lines;
use card_unit::Hopper;
use digit_core::Core;
use disk_1311::DRIVES;
use indicators::Panel;
use outside_io::Unit;
use std::alloc::{AllocError, Global};

/// The mode of the machine: it runs, or why it doesn't.
///
/// Source: this project's own, over the CPU manual's console lamps.
#[derive(Clone, Copy, Debug, PartialEq, Eq)]
pub enum Mode {
    /// It goes on with the instruction at IR.
    Running,
    /// A halt instruction at this address was executed; at power on, 00000.
    Halted {
        /// The address of the halt instruction.
        at: u32,
    },
    /// An instruction stopped it.
    Stopped {
        /// Why.
        kind: Stop,
        /// The address of the instruction, which IR still holds.
        at: u32,
    },
    /// A read met no card.
    Empty,
    /// A read met no line of the keyboard.
    NoKeys,
    /// A read met a line of over 80 bytes.
    Jam {
        /// The line's unit.
        unit: Unit,
        /// Its number in the unit, counted from 1.
        line: u64,
    },
    /// The host failed in the middle of an instruction.
    Faulted,
}

/// How a step or the Load key ends: the answer names the mode that the machine is in then.
///
/// Source: this project's own.
#[derive(Clone, Copy, Debug, PartialEq, Eq)]
pub enum Turned {
    /// The machine runs on.
    On,
    /// A halt instruction was executed.
    Halt,
    /// The instruction stopped.
    Stop(Stop),
    /// There was no card to be read.
    Empty,
    /// There was no line of the keyboard to be read.
    NoKeys,
    /// The line to be read is over 80 bytes.
    Jam {
        /// The line's unit.
        unit: Unit,
        /// Its number in the unit, counted from 1.
        line: u64,
    },
    /// The host failed: its count of faults rose.
    Failed,
}

// How an instruction ends: on with these registers, in a halt with them, in a stop, without a card to be read, without a line of
// the keyboard, at a jam, or by a fault of the host.
#[derive(Clone, Copy)]
pub(crate) enum Outcome {
    Goes { regs: Regs },
    Halts { regs: Regs },
    Stops(Stop),
    Empty,
    NoKeys,
    Jam { unit: Unit, line: u64 },
    Fails,
}

/// The machine: core of 20,000 cells for each unit of `M`, the registers, the panel, the arms of the disk drives, the hopper of the card
/// reader, the keyboard of the typewriter, and its mode.
///
/// Source: CPU manual, system description.
#[derive(Drop)]
pub struct Machine<const M: u32> {
    /// Core storage.
    pub core: Core<M>,
    /// The instruction register and IR-2.
    pub regs: Regs,
    /// The switches and indicators.
    pub panel: Panel,
    /// The cylinder at which the arm of each disk drive is.
    pub arms: [u32; DRIVES],
    /// The cards that are still to be read.
    pub hopper: Hopper,
    /// The lines of the keyboard that are still to be read.
    pub keys: Lines,
    /// The mode of the machine.
    pub mode: Mode,
    // The decode cache; it is not part of what the machine shows.
    pub(crate) memo: Memo<M>,
    ghost keys_are: { unit_of keys ≡ units.Keys },
}

impl<const M: u32> Machine<M> {
    ghost use Rattle.cpu_step.specs.Machine.{IsPowered, is_running};

    /// The machine at power on, over the cards of this hopper and all lines of the unit Keys: unflagged zeros everywhere, registers at
    /// 00000, all switches and indicators off, the arms at cylinder 0, halted.
    ///
    /// `M` is 1, 2 or 3. The error is want of memory.
    /// Source: that core is zeros at power on is this project's own.
    #[inline(always)]
    pub fn power_on(alloc: Global, hopper: Hopper) -> Result<Self, AllocError>
        requires { IsSize M }
        ensures { IfOk result (IsPowered M hopper) }
    {
        Ok(Machine {
            core: Core::new(alloc)?,
            regs: Regs { ir: 0, ir2: 0 },
            panel: Panel::new(),
            arms: [0; DRIVES],
            hopper,
            keys: Lines::new(Unit::Keys),
            mode: Mode::Halted { at: 0 },
            memo: Memo::new(alloc)?,
        })
    }

    /// Whether the machine goes on with the instruction at IR.
    ///
    /// Source: this project's own.
    pub fn is_running(&self) -> bool
        ensures { result ≡ is_running self.now.mode }
    {
        match self.mode {
            Mode::Running => true,
            _ => false,
        }
    }
}
