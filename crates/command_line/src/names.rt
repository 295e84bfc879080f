// The names of files, by their units.
// Source: this project's own.
use crate::options::Slot;
use crate::values::Values;
use outside_io::Unit;

/// The name of the file of each unit, for the units that the words name a file for.
#[derive(Clone, Copy)]
pub struct Names<'a> {
    pub(crate) values: Values<'a>,
}

impl<'a> Names<'a> {
    ghost use Rattle.std.specs.Prelude.{◌≡◌, option_copied};
    ghost use Rattle.command_line.specs.Given.{names_in};

    /// The name of a unit's file; `None` if the words name none.
    pub fn get(&self, unit: Unit) -> Option<&'a str>
        ensures { option_copied result ≡ names_in self.now unit }
    {
        self.values.get(Slot::File(unit))
    }
}
