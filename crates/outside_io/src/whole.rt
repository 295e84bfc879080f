// Whole texts, over a host that takes and gives them in pieces.
// Source: this project's own.
ghost use Rattle.std.specs.Prelude.{◌≡◌, true};
ghost use Rattle.outside_io.specs.World.{is_input, is_output};
ghost use Rattle.outside_io.specs.declared.whole.ReadAll.TheVariants.{Memory};
ghost use Rattle.outside_io.specs.Whole.{Sends, Reads};

use crate::{Host, Put, Take, Unit};
use std::alloc::{AllocError, Global};
use thiserror::Error;

/// How the writing of a whole text ends.
#[derive(Clone, Copy, Debug, PartialEq, Eq)]
pub enum Sent {
    /// All of it was written.
    Done,
    /// The host failed after a first part, which may be empty or all.
    Failed,
}

/// Why a unit was not read to its end. A first part of its bytes is gone then.
#[derive(Debug, Drop, Error)]
pub enum ReadAll {
    /// The unit had more bytes than the limit.
    #[error("too long")]
    TooLong,
    /// The host failed.
    #[error("the host failed")]
    Failed,
    /// There was no memory for the bytes.
    #[error("out of memory")]
    Memory,
}

impl From<AllocError> for ReadAll {
    ghost from_gives = { λ _ e. e ≡ Memory };

    fn from(_: AllocError) -> Self {
        ReadAll::Memory
    }
}

/// Writes the whole piece to an output, in as many calls as the host wants.
///
/// `Done`: the output was given the whole piece. `Failed`, only if the host's count of faults rose: the output was given a first
/// part of the piece.
pub fn write_all<H: Host>(host: &mut H, unit: Unit, piece: &[u8]) -> Sent
    requires { is_output unit ≡ true }
    ensures { Sends (H.seen host.old) (H.seen host.new) unit piece.now result }
{
    let mut rest = piece;
    while !rest.is_empty() {
        match host.put(unit, rest) {
            Put::Taken(n) => rest = &rest[n..],
            Put::Failed => return Sent::Failed,
        }
    }
    Sent::Done
}

/// Reads all the bytes that an input has left, if these are at most `limit`.
///
/// It takes at most one byte over the limit. The errors are a unit with more bytes, after `limit + 1` of them are gone; a fault
/// of the host, after at most `limit` bytes are gone; and want of memory, after 1 to `limit` bytes are gone.
pub fn read_all<H: Host>(
    alloc: Global,
    host: &mut H,
    unit: Unit,
    limit: usize,
) -> Result<Vec<u8>, ReadAll>
    requires { is_input unit ≡ true }
    ensures { Reads (H.seen host.old) (H.seen host.new) unit limit result }
{
    let mut text = Vec::new(alloc);
    let mut buf = [0; 4096];
    loop {
        let rest = limit - text.len();
        let piece = &mut buf[..rest.min(4095) + 1];
        match host.take(unit, piece) {
            Take::Got(n) => {
                if n > rest {
                    return Err(ReadAll::TooLong);
                }
                text.extend_from_slice(&piece[..n])?;
            }
            Take::End => return Ok(text),
            Take::Failed => return Err(ReadAll::Failed),
        }
    }
}
