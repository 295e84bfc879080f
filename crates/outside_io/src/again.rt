// Calls that are repeated if a signal interrupts them, or while the standard output is full.
ghost use Rattle.std.specs.Prelude.{◌≤◌, length, IfOk};

use std::io::{self, Error, ErrorKind, Read, Write};
use std::os::unix::fs::FileExt;
use std::rt::Clock;
use std::time::Duration;

// How many bytes a reading gave.
pub(crate) fn read<F: Read>(file: &mut F, buf: &mut [u8]) -> io::Result<usize>
    ensures { IfOk result (λ n. n ≤ length buf.new) }
{
    for _ in 0..u64::MAX {
        match file.read(buf) {
            Err(error) if error.kind() == ErrorKind::Interrupted => {}
            ended => return ended,
        }
    }
    Err(Error::from(ErrorKind::Interrupted))
}

// How many bytes a writing took.
pub(crate) fn write<F: Write>(file: &mut F, piece: &[u8]) -> io::Result<usize>
    ensures { IfOk result (λ n. n ≤ length piece.now) }
{
    for _ in 0..u64::MAX {
        match file.write(piece) {
            Err(error) if error.kind() == ErrorKind::Interrupted => {}
            ended => return ended,
        }
    }
    Err(Error::from(ErrorKind::Interrupted))
}

// How many bytes a reading of the file gave, from byte `from` on.
pub(crate) fn read_at<F: FileExt>(file: &F, buf: &mut [u8], from: u64) -> io::Result<usize>
    ensures { IfOk result (λ n. n ≤ length buf.new) }
{
    for _ in 0..u64::MAX {
        match file.read_at(buf, from) {
            Err(error) if error.kind() == ErrorKind::Interrupted => {}
            ended => return ended,
        }
    }
    Err(Error::from(ErrorKind::Interrupted))
}

// How many bytes a writing of the file took, from byte `from` on.
pub(crate) fn write_at<F: FileExt>(file: &F, piece: &[u8], from: u64) -> io::Result<usize>
    ensures { IfOk result (λ n. n ≤ length piece.now) }
{
    for _ in 0..u64::MAX {
        match file.write_at(piece, from) {
            Err(error) if error.kind() == ErrorKind::Interrupted => {}
            ended => return ended,
        }
    }
    Err(Error::from(ErrorKind::Interrupted))
}

// How many bytes the standard output took. If it is full and doesn't block, the call waits a millisecond and tries again.
pub(crate) fn write_screen<R: Print + Clock>(rt: &R, piece: &[u8]) -> io::Result<usize>
    ensures { IfOk result (λ n. n ≤ length piece.now) }
{
    for _ in 0..u64::MAX {
        match rt.write_some(piece) {
            Err(error) if error.kind() == ErrorKind::Interrupted => {}
            Err(error) if error.kind() == ErrorKind::WouldBlock => {
                rt.sleep(Duration::from_millis(1));
            }
            ended => return ended,
        }
    }
    Err(Error::from(ErrorKind::WouldBlock))
}
