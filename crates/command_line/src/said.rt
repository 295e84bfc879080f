// The words of a command line, with their meaning.
// Source: this project's own.
ghost use Rattle.std.specs.Prelude.{◌≡◌, true, is_some, IfOk, IfErr};
ghost use Rattle.std.proofs.Props.{props};
ghost use Rattle.command_line.specs.Given.{MeansJust};
ghost use Rattle.command_line.specs.Words.{meaning_of_words};
ghost use Rattle.command_line.specs.Sets.{MeansJust-prop};

use crate::given::Plain;
use crate::words::{CoreSize, plain_words};
use outside_io::Unit;
use std::alloc::{AllocError, Global};

/// The words of a command line, with their meaning.
///
/// A job and its message use one reading.
#[derive(Clone, Copy)]
pub struct Read<'a> {
    /// The words after the program's name.
    pub words: &'a [String],
    /// Their meaning, as `plain_words` answers it: `None` if they are not plain, and an error if memory was lacking to read them.
    pub said: Result<Option<Plain<'a>>, AllocError>,
    ghost is: { IfOk said (MeansJust (meaning_of_words words.now)) } by { Prim.hlevel (props, MeansJust-prop) },
    ghost memory: { IfErr said (λ e. is_some (meaning_of_words words.now) ≡ true) } by { Prim.hlevel props },
}

impl<'a> Read<'a> {
    ghost use Rattle.std.specs.Prelude.{option_copied};
    ghost use Rattle.command_line.specs.Words.{names_of};
    ghost use Rattle.command_line.specs.Known.{core_of, file_of};

    /// Reads the words.
    pub fn of(alloc: Global, words: &'a [String]) -> Read<'a>
        ensures { result.words.now ≡ words.now }
    {
        Read {
            words,
            said: plain_words(alloc, words),
        }
    }

    /// The name of the file that the words name for a unit; `None` if they name none, are not plain, or memory was lacking.
    pub fn file(&self, unit: Unit) -> Option<&'a str>
        ensures is { option_copied result ≡ file_of self.now unit }
        ensures named { IfOk self.now.said (λ said. option_copied result ≡ names_of (meaning_of_words self.now.words.now) unit) }
    {
        match &self.said {
            Ok(Some(plain)) => plain.names.get(unit),
            Ok(None) | Err(AllocError) => None,
        }
    }

    /// The size of core; one module if the words give none, are not plain, or memory was lacking.
    pub fn core(&self) -> CoreSize
        ensures { result ≡ core_of self.now }
    {
        match &self.said {
            Ok(Some(plain)) => plain.core,
            Ok(None) | Err(AllocError) => CoreSize::OneModule,
        }
    }
}
