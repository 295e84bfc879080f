// A host that counts the cards that are punched to no file.
// Source: this project's own.
ghost use Rattle.std.specs.Prelude.{◌≡◌};
ghost use Rattle.std.specs.Option.{ForSome};
ghost use Rattle.outside_io.specs.World.{IsFresh};
ghost use Rattle.outside_io.specs.declared.host.Unit.TheVariants.{Punched};
ghost use Rattle.finished_job.specs.Lost.{cards_in_bytes, lost_bytes};

use crate::trouble::TellsTrouble;
use outside_io::{Bound, Drive, Host, Put, SECTOR_LENGTH, Take, Trouble, Unit};

// How many bytes a punched card has: its 80 columns and a line feed.
const CARD_BYTES: u64 = 81;

/// A host that counts the cards that are punched on it while no file is bound to Punched.
///
/// It reveals the bytes that the host within it reveals, and passes each call to that host. When Punched is bound, the count goes
/// back to 0, and stays there.
#[derive(Drop)]
pub struct Counting<H: Host> {
    /// The host within.
    pub host: H,
    is_bound: bool,
    /// How many bytes were written to Punched while no file was bound to it, at most 2^64 - 1; 0 after a file is bound.
    pub bytes: u64,
    ghost bound: { (H.seen host).world.in_use Punched ≡ is_bound },
    ghost counted: { ForSome ((H.seen host).world.written Punched) (λ text. bytes ≡ lost_bytes is_bound text) },
}

impl<H: Host> Counting<H> {
    /// Counts from 0, over a host with no unit in use and no byte written.
    pub fn over(host: H) -> Self
        requires { IsFresh (H.seen host).world }
        ensures { result.host ≡ host }
    {
        Counting {
            host,
            is_bound: false,
            bytes: 0,
        }
    }

    /// How many whole cards were punched to no file.
    pub fn cards(&self) -> u64
        ensures { result ≡ cards_in_bytes self.now.bytes }
    {
        self.bytes / CARD_BYTES
    }
}

impl<H: Host> Host for Counting<H> {
    ghost seen = { λ counting. H.seen counting.host };

    #[inline]
    fn bind(&mut self, unit: Unit, name: &str) -> Bound {
        let bound = self.host.bind(unit, name);
        if let (Unit::Punched, Bound::Yes) = (unit, bound) {
            self.is_bound = true;
            self.bytes = 0;
        }
        bound
    }

    #[inline]
    fn take(&mut self, unit: Unit, buf: &mut [u8]) -> Take {
        self.host.take(unit, buf)
    }

    #[inline]
    fn put(&mut self, unit: Unit, piece: &[u8]) -> Put {
        let put = self.host.put(unit, piece);
        if let (Unit::Punched, Put::Taken(n)) = (unit, put) {
            if !self.is_bound {
                self.bytes = self.bytes.saturating_add(n as u64);
            }
        }
        put
    }

    #[inline]
    fn read_sector(&mut self, a: u32, into: &mut [u8; SECTOR_LENGTH]) -> Drive {
        self.host.read_sector(a, into)
    }

    #[inline]
    fn write_sector(&mut self, a: u32, from: &[u8; SECTOR_LENGTH]) -> Drive {
        self.host.write_sector(a, from)
    }
}

impl<H: TellsTrouble> TellsTrouble for Counting<H> {
    ghost trouble_of = { λ counting. H.trouble_of counting.host };

    fn trouble(&self) -> Option<&Trouble> {
        self.host.trouble()
    }
}
