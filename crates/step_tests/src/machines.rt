//! Machines and hosts that tests set up in one call.
//!
//! A machine's core is written by the characters of `core_texts`, from 00000 upwards, and it runs. A host has a deck and data.

ghost use Rattle.std.specs.Prelude.{◌≡◌};
ghost use Rattle.digit_core.specs.Size.{IsSize};
ghost use Rattle.step_tests.specs.declared.machines.MachineFault.TheVariants.{Memory, Text};

use card_unit::Hopper;
use core_texts::{TextFault, bound, write};
use cpu_step::{Machine, Mode};
use outside_io::{Host, MemHost, Unit};
use std::alloc::{AllocError, Global};

// The error if a machine or a host of a test cannot be set up.
#[derive(Debug, Drop)]
pub(crate) enum MachineFault {
    // There is no memory.
    Memory(AllocError),
    // A text does not fit into core, or a unit could not be bound.
    Text(TextFault),
}

impl From<AllocError> for MachineFault {
    ghost from_gives = { λ error fault. fault ≡ Memory error };

    fn from(error: AllocError) -> Self {
        MachineFault::Memory(error)
    }
}

impl From<TextFault> for MachineFault {
    ghost from_gives = { λ error fault. fault ≡ Text error };

    fn from(error: TextFault) -> Self {
        MachineFault::Text(error)
    }
}

// How many bytes each output of a host takes in these tests.
pub(crate) const ROOM: usize = 100;

// A host with these bytes in Deck and in Data.
//
// The bindings are its calls 1 and 2. The error is want of memory, or a unit that could not be bound.
pub(crate) fn host(alloc: Global, deck: &[u8], data: &[u8]) -> Result<MemHost, MachineFault> {
    let mut host = MemHost::new(alloc, ROOM)?;
    host.file("deck", deck)?;
    host.file("data", data)?;
    bound(host.bind(Unit::Deck, "deck"))?;
    bound(host.bind(Unit::Data, "data"))?;
    Ok(host)
}

// A machine that runs, with this text from 00000 upwards.
//
// `M` is 1, 2 or 3. The error is want of memory, or a text that does not fit into core.
pub(crate) fn machine<const M: u32>(alloc: Global, text: &[u8]) -> Result<Machine<M>, MachineFault>
    requires { IsSize M }
{
    let mut machine = Machine::power_on(alloc, Hopper::of_units())?;
    write(&mut machine.core, 0, text)?;
    machine.mode = Mode::Running;
    Ok(machine)
}
