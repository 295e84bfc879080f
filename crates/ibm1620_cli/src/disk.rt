// The job disk: the source is read and assembled, its bootstrap deck and its image are written, and then its sectors.
// Source: this project's own.
ghost use Rattle.std.specs.Prelude.{◌≡◌};
ghost use Rattle.digit_core.specs.Size.{IsSize, size};
ghost use Rattle.ibm1620_cli.specs.DiskJob.{DiskPromise, PlacingPromise, PlacingLaw, placing_events, placing_with};
ghost use Rattle.ibm1620_cli.specs.Parts.{IsSoundSource, EventsOccur, LeavesUnread};
ghost use Rattle.ibm1620_cli.specs.RoundTrip.{DiskRoundTripLaw};
ghost use Rattle.ibm1620_cli.specs.Inputs.{placing_reads, reads_pack};

use crate::answer::Answer;
use crate::report::report;
use crate::source::{SoundSource, read_source};
use crate::status::Status;
use deck_punch::deck_bytes;
use disk_loader::{bootstrap, sector_count, write_sectors};
use outside_io::{Host, Sent, Unit, write_all};
use sps_listing::image_text;
use sps_pass_two::Assembled;
use std::alloc::Global;

// Reads the source, assembles it, and writes it to the disk pack.
pub(crate) fn place_source<const M: u32, H: Host>(alloc: Global, host: &mut H) -> Answer
    requires size { IsSize M }
    ensures promise { DiskPromise M (H.seen host.old) (H.seen host.new) result }
    ensures stays { LeavesUnread placing_reads (H.seen host.old).world (H.seen host.new).world }
{
    match read_source::<M, H>(alloc, host) {
        Ok(sound) => place_assembled::<M, H>(alloc, host, &sound),
        Err(answer) => answer,
    }
}

// Writes the deck, the image and the sectors of a source that breaks no rule, and reports how many sectors and cards there are. All memory
// is taken before the first of them.
fn place_assembled<const M: u32, H: Host>(
    alloc: Global,
    host: &mut H,
    sound: &SoundSource,
) -> Answer
    requires size { IsSize M }
    requires is { IsSoundSource M sound.now }
    ensures promise { PlacingPromise M sound.now.source.items (H.seen host.old) (H.seen host.new) result }
    ensures stays { LeavesUnread reads_pack (H.seen host.old).world (H.seen host.new).world }
{
    let assembled = &sound.assembled;
    let cards = match bootstrap(alloc, assembled) {
        Ok(cards) => cards,
        Err(_) => return Answer::of(Status::OutOfMemory),
    };
    let object = match deck_bytes(alloc, &cards) {
        Ok(object) => object,
        Err(_) => return Answer::of(Status::OutOfMemory),
    };
    match write_placed(host, &object, assembled) {
        Sent::Done => {
            let placed = Status::Placed {
                sectors: sector_count(assembled),
                cards: cards.len() as u32,
            };
            Answer::of(report(host, placed))
        }
        Sent::Failed => Answer::of(Status::HostFault),
    }
}

// Writes the bootstrap deck, then the image, and then the sectors.
fn write_placed<H: Host>(host: &mut H, object: &[u8], assembled: &Assembled) -> Sent
    ensures does { EventsOccur (placing_events (placing_with object.now assembled.now))
        (H.seen host.old) (H.seen host.new) result }
    ensures stays { LeavesUnread reads_pack (H.seen host.old).world (H.seen host.new).world }
{
    match write_all(host, Unit::Object, object) {
        Sent::Done => {}
        Sent::Failed => return Sent::Failed,
    }
    match image_text(&assembled.image, host) {
        Sent::Done => write_sectors(assembled, host),
        Sent::Failed => Sent::Failed,
    }
}

/// The order of `disk`: no sector is written before both texts are whole, and nothing is reported before the last sector.
///
/// Take any deck, any image, any sectors and any report line, in this order, and any first part of them that is written. If a
/// sector has changed, Object has the whole deck and Image the whole image. If a byte was reported, all sectors are written also.
/// The call does nothing; the law is its contract.
pub fn placing_law()
    ensures { PlacingLaw }
{}

/// The round trip by disk: the bootstrap deck of a source, given as a deck over a pack with its sectors, loads the program from there.
///
/// Take a core of any size and any source that breaks no rule for it. The bytes that `disk` leaves on Object, given as Deck, are
/// the cards of that deck and no others. The sectors that these cards read are the sectors that `disk` wrote, whatever the pack
/// had before.
///
/// Take any pack with these sectors, any data cards and any text at the keyboard, and let n be the number of the deck's steps. If
/// no line of the script is due before and the limit is at least n, then n turns after the Load key a `load` of the deck has
/// entered the program. It is at the program's start, with its hundreds from disk in core and n steps counted. With n added to
/// the limit and to each `AT` line, the load ends where the turns from there end, with n more steps counted. It takes the cards
/// of the deck, and then does outside what these turns do, event by event, and nothing else. `run` begins in an equal state,
/// except for the arm of drive 1; in a core of 20,000 positions that arm is equal too. The call does nothing; the law is its
/// contract.
pub fn disk_trip_law()
    ensures { DiskRoundTripLaw }
{}
