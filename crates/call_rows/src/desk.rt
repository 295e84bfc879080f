// A machine and its host.
ghost use Rattle.digit_core.specs.Size.{IsSize};

use crate::given::Given;
use card_code::Tally;
use cpu_step::Machine;
use digit_core::Core;
use outside_io::MemHost;
use std::alloc::{AllocError, Global};

#[derive(Drop)]
pub(crate) struct Desk<const M: u32> {
    pub(crate) alloc: Global,
    pub(crate) machine: Machine<M>,
    // The kept copy of core.
    pub(crate) kept: Core<M>,
    pub(crate) host: MemHost,
    // The bad characters of texts in the row's lines, apart from those that the machine has read.
    pub(crate) tally: Tally,
    // The source of the row.
    pub(crate) source: Vec<u8>,
}

impl<const M: u32> Desk<M> {
    // A machine at power on, with the files and cards of a row. The error is a lack of memory.
    pub(crate) fn new(given: &Given) -> Result<Desk<M>, AllocError>
        requires { IsSize M }
    {
        let mut source = Vec::new(given.alloc);
        source.extend_from_slice(&given.source)?;
        Ok(Desk {
            alloc: given.alloc,
            machine: Machine::power_on(given.alloc, given.hopper()?)?,
            kept: Core::new(given.alloc)?,
            host: given.host()?,
            tally: Tally::new(),
            source,
        })
    }
}
