// The meaning of the words of the command line.
ghost use Rattle.command_line.specs.Numbers.{AreNumbers};

use crate::names::Names;
use crate::reading::Settings;
use crate::words::{Command, CoreSize};

/// The meaning of plain words.
///
/// Source: this project's own.
#[derive(Clone, Copy)]
pub struct Plain<'a> {
    /// What the program is to do.
    pub command: Command,
    /// The names of the files, by their units.
    pub names: Names<'a>,
    /// What the words set for the job.
    pub settings: Settings,
    /// The size of core; one module if the words give none.
    pub core: CoreSize,
    ghost fits: { AreNumbers settings.statements settings.number },
}
