// The sinks that messages are written on.
// Source: this project's own.
ghost use Rattle.std.specs.Prelude.{◌≡◌, ℕ, List, [], Option, Some, None, is_some, IfSome, OnOk};
ghost use Rattle.finished_job.specs.Pieces.{Says};

use std::alloc::{AllocError, Global};
use std::io::Write;

/// A receiver of messages, for example the standard error.
pub trait Sink {
    /// The pieces that were written, one after another, if the sink reveals them.
    ghost said: { Self → Option (List (List ℕ)) };

    /// Writes a whole piece, if the sink can; a failure is not reported.
    fn say(&mut self, piece: &str)
        ensures { Says (said self.old) (said self.new) piece.now };
}

/// A writer as a sink, for example the standard error of the system. It reveals nothing.
#[derive(Drop)]
pub struct OnErrors<W> {
    writer: W,
}

impl<W> OnErrors<W> {
    /// A sink that writes each piece to this writer.
    pub fn new(writer: W) -> Self {
        OnErrors { writer }
    }
}

impl<W: Write> Sink for OnErrors<W> {
    ghost said = { λ sink. None };

    fn say(&mut self, piece: &str) {
        let _ = self.writer.write_all(piece.as_bytes());
    }
}

/// A sink in memory, for tests. It reveals the pieces that were written, until memory for a piece is lacking; from then on it
/// reveals nothing.
#[derive(Drop)]
pub struct MemorySink {
    alloc: Global,
    pieces: Vec<Vec<u8>>,
    tells: bool,
}

impl MemorySink {
    ghost use Rattle.finished_job.specs.Said.{bytes_of_pieces, said_pieces};

    /// A sink without a piece.
    pub fn new(alloc: Global) -> Self
        ensures { said_pieces result ≡ Some [] }
    {
        MemorySink {
            alloc,
            pieces: Vec::new(alloc),
            tells: true,
        }
    }

    /// Whether it still reveals the pieces.
    pub fn tells(&self) -> bool
        ensures { result ≡ is_some (said_pieces self.now) }
    {
        self.tells
    }

    /// The pieces that were written, if the sink still reveals them.
    pub fn pieces(&self) -> &[Vec<u8>]
        ensures { IfSome (said_pieces self.now) (λ pieces. bytes_of_pieces result.now ≡ pieces) }
    {
        &self.pieces
    }

    // Keeps a piece after the others.
    fn keep(&mut self, piece: &[u8]) -> Result<(), AllocError>
        ensures ok { OnOk result (Says (said_pieces self.old) (said_pieces self.new) piece.now) }
        ensures tells { self.new.tells ≡ self.old.tells }
    {
        let mut kept = Vec::new(self.alloc);
        kept.extend_from_slice(piece)?;
        self.pieces.push(kept)?;
        Ok(())
    }
}

impl Sink for MemorySink {
    ghost use Rattle.finished_job.specs.Said.{said_pieces};

    ghost said = { said_pieces };

    fn say(&mut self, piece: &str) {
        if self.tells && self.keep(piece.as_bytes()).is_err() {
            self.tells = false;
        }
    }
}
