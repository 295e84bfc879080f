// The names that units are bound to, in memory that is there from the start.
ghost use Rattle.std.specs.Prelude.{◌≡◌, ◌≤◌};
ghost use Rattle.std.specs.Option.{option_copied};
ghost use Rattle.outside_io.specs.World.{kept_name};
ghost use Rattle.outside_io.specs.declared.host.TheConstants.{LONGEST_NAME};

use crate::Unit;
use crate::host::{LONGEST_NAME, UNIT_COUNT};

// A name: the first `length` of `bytes`.
#[derive(Clone, Copy)]
struct KeptName {
    bytes: [u8; LONGEST_NAME],
    length: usize,
    ghost fits: { length ≤ LONGEST_NAME },
}

impl KeptName {
    ghost use Rattle.outside_io.specs.Names.{name_in};

    // The name, unless it is too long.
    fn new(name: &str) -> Option<Self>
        ensures { name_in result ≡ kept_name name.now }
    {
        let name = name.as_bytes();
        let length = name.len();
        if length > LONGEST_NAME {
            return None;
        }
        let mut bytes = [0; LONGEST_NAME];
        bytes[..length].copy_from_slice(name);
        Some(KeptName { bytes, length })
    }
}

// The name of each unit, None if it isn't bound or its name is too long.
#[derive(Drop)]
pub(crate) struct BoundNames {
    kept: [Option<KeptName>; UNIT_COUNT],
}

impl BoundNames {
    ghost use Rattle.outside_io.specs.Names.{name_of, HasNoName, KeepsName};

    // No name.
    pub(crate) fn new() -> Self
        ensures { HasNoName result }
    {
        BoundNames {
            kept: [None; UNIT_COUNT],
        }
    }

    // Keeps the name for the unit, unless it is too long.
    pub(crate) fn set(&mut self, unit: Unit, name: &str)
        ensures { KeepsName self.old self.new unit name.now }
    {
        self.kept[unit.place()] = KeptName::new(name);
    }

    // The name that is kept for the unit, if any.
    pub(crate) fn get(&self, unit: Unit) -> Option<&[u8]>
        ensures { option_copied result ≡ name_of self.now unit }
    {
        match &self.kept[unit.place()] {
            Some(name) => Some(&name.bytes[..name.length]),
            None => None,
        }
    }
}
