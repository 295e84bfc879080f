// The words of the command line.
ghost use Rattle.std.specs.Prelude.{◌≡◌, true, map, string_bytes, is_some, IfOk, IfErr};
ghost use Rattle.line_words.specs.Rows.{row_from_table, value_by_name};
ghost use Rattle.command_line.specs.Words.{commands, meaning_of_words};
ghost use Rattle.command_line.specs.Given.{MeansJust};

use crate::given::Plain;
use crate::grammar::values_of;
use crate::matched::matched;
use crate::reading::read;
use line_words::find;
use std::alloc::{AllocError, Global};

/// A command of the program.
///
/// Source: this project's own.
#[derive(Clone, Copy)]
pub enum Command {
    /// Assembles a source deck.
    Assemble,
    /// Loads an object deck and runs the machine.
    Load,
    /// Assembles a source deck, loads its object deck and runs the machine.
    Run,
    /// Assembles a source deck, loads its object deck and carries out the debugger's commands.
    Debug,
    /// Makes a source deck by numbers.
    Generate,
    /// Makes a source deck by numbers, assembles it, loads its object deck and runs the machine.
    Trial,
    /// Assembles a source deck, writes its image to the disk pack, and punches the deck that loads it from there.
    Disk,
}

/// The size of core, in modules of 20,000 positions.
///
/// Source: CPU manual, for the three sizes.
#[derive(Clone, Copy, Debug, PartialEq, Eq)]
pub enum CoreSize {
    /// `20000`.
    OneModule,
    /// `40000`.
    TwoModules,
    /// `60000`.
    ThreeModules,
}

/// The commands, by their words.
///
/// Source: this project's own.
pub const COMMANDS: [(&str, Command); 7] = [
    ("assemble", Command::Assemble),
    ("load", Command::Load),
    ("run", Command::Run),
    ("debug", Command::Debug),
    ("generate", Command::Generate),
    ("trial", Command::Trial),
    ("disk", Command::Disk),
];

/// The most steps that a run makes if the words give no limit.
///
/// Source: this project's own.
pub const STANDARD_LIMIT: u64 = 1_000_000;

/// The command of a word.
///
/// Source: this project's own.
pub fn command_of(word: &str) -> Option<Command>
    ensures { result ≡ value_by_name commands word.now }
{
    find(&COMMANDS, word.as_bytes())
}

// The meaning of the words if they are plain: a command, and then options with their values.
fn by_hand(words: &[String]) -> Option<Plain<'_>>
    ensures { MeansJust (meaning_of_words words.now) result }
{
    let [word, rest @ ..] = words else {
        return None;
    };
    let command = command_of(word)?;
    let values = values_of(command, rest)?;
    read(command, &values)
}

// Whether the words are plain.
fn is_plain(words: &[String]) -> bool
    ensures { result ≡ is_some (meaning_of_words words.now) }
{
    by_hand(words).is_some()
}

/// The meaning of the words if they are plain; `None` if they are not.
///
/// The words are those after the program's name. They are plain if they are a command and then pairs of an option and a value, in
/// any order. Each option is one of that command's, none is given twice, and the required ones are there. A value is not empty
/// and does not begin with `-`; a number is 1 to 15 decimal digits in its range; a form is `self` or `dense`; and a size of core
/// is `20000`, `40000` or `60000`. The error says that memory was lacking; it is possible for plain words alone.
/// Source: this project's own.
pub fn plain_words<'a>(alloc: Global, words: &'a [String]) -> Result<Option<Plain<'a>>, AllocError>
    ensures is { IfOk result (MeansJust (meaning_of_words words.now)) }
    ensures memory { IfErr result (λ e. is_some (meaning_of_words words.now) ≡ true) }
{
    if !is_plain(words) {
        return Ok(None);
    }
    matched(alloc, words)
}
