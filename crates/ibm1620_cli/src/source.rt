// The source is read and assembled, and its texts are written.
ghost use Rattle.digit_core.specs.Size.{IsSize};
ghost use Rattle.ibm1620_cli.specs.Source.{made_events};
ghost use Rattle.ibm1620_cli.specs.Inputs.{reads_nothing};
ghost use Rattle.ibm1620_cli.specs.Parts.{IsSoundSource, ReadsSource, AssemblesOrRefuses, RefusesOrLacks, made_with, EventsOccur, WritesSource, LeavesUnread};

use crate::answer::Answer;
use crate::reading::read_text;
use crate::report::report;
use crate::status::Status;
use card_code::Card;
use deck_punch::{DeckForm, deck_bytes};
use digit_core::MODULE;
use loader_cards::object_deck;
use outside_io::{Host, Sent, Unit, write_all};
use sps_listing::{image_text, listing, refusal, refused_line};
use sps_ops::Rule;
use sps_pass_two::{AsmFault, Assembled, assemble};
use std::alloc::{AllocError, Global};

// How many bytes a source has at most.
const LONGEST_SOURCE: usize = 4_000_000;

// A source that breaks no rule, with its assembly.
#[derive(Drop)]
pub(crate) struct SoundSource {
    pub(crate) source: Vec<u8>,
    pub(crate) assembled: Assembled,
}

// Reads the source and assembles it; the error is the answer of the job, which ends here.
pub(crate) fn read_source<const M: u32, H: Host>(
    alloc: Global,
    host: &mut H,
) -> Result<SoundSource, Answer>
    requires { IsSize M }
    ensures { ReadsSource M (H.seen host.old) (H.seen host.new) result }
{
    match read_text(alloc, host, Unit::Source, LONGEST_SOURCE) {
        Ok(source) => assemble_or_refuse::<M, H>(alloc, host, source),
        Err(status) => Err(Answer::of(report(host, status))),
    }
}

// Assembles a source; the error is the answer of a job whose refused source was reported, or that found no memory.
pub(crate) fn assemble_or_refuse<const M: u32, H: Host>(
    alloc: Global,
    host: &mut H,
    source: Vec<u8>,
) -> Result<SoundSource, Answer>
    requires { IsSize M }
    ensures { AssemblesOrRefuses M source.items (H.seen host.old) (H.seen host.new) result }
{
    match assemble(alloc, &source, M * MODULE) {
        Ok(assembled) => Ok(SoundSource { source, assembled }),
        Err(
            AsmFault::Broken {
                statement,
                rule,
                part,
            },
        ) => Err(refuse(alloc, host, &source, statement, rule, part)),
        Err(AsmFault::Memory) => Err(Answer::of(Status::OutOfMemory)),
    }
}

// Reports and answers the first broken statement with its details. The line of the answer is made before anything is reported.
fn refuse<H: Host>(
    alloc: Global,
    host: &mut H,
    source: &[u8],
    statement: u32,
    rule: Rule,
    part: Option<u8>,
) -> Answer
    ensures { RefusesOrLacks source.now statement rule part (H.seen host.old) (H.seen host.new) result }
{
    let line = match refused_line(alloc, source, statement, rule, part) {
        Ok(line) => line,
        Err(AllocError) => return Answer::of(Status::OutOfMemory),
    };
    match refusal(source, statement, rule, part, host) {
        Sent::Done => Answer {
            status: Status::Refused { statement, rule },
            console: None,
            refusal: Some(line),
            statement: None,
        },
        Sent::Failed => Answer::of(Status::HostFault),
    }
}

// Writes the object deck in a form, the image and the listing of a source that breaks no rule; the result is the deck's cards.
pub(crate) fn write_source<const M: u32, H: Host>(
    alloc: Global,
    host: &mut H,
    sound: &SoundSource,
    form: DeckForm,
) -> Result<Vec<Card>, Status>
    requires { IsSoundSource M sound.now }
    ensures does { WritesSource M form sound.now.source.items (H.seen host.old) (H.seen host.new) result }
    ensures stays { LeavesUnread reads_nothing (H.seen host.old).world (H.seen host.new).world }
{
    let cards = match object_deck(alloc, &sound.assembled, form) {
        Ok(cards) => cards,
        Err(_) => return Err(Status::OutOfMemory),
    };
    let object = match deck_bytes(alloc, &cards) {
        Ok(object) => object,
        Err(_) => return Err(Status::OutOfMemory),
    };
    match write_made(host, &object, &sound.source, &sound.assembled) {
        Sent::Done => Ok(cards),
        Sent::Failed => Err(Status::HostFault),
    }
}

// Writes the object deck, then the image, and then the listing.
fn write_made<H: Host>(host: &mut H, object: &[u8], source: &[u8], assembled: &Assembled) -> Sent
    ensures does { EventsOccur (made_events (made_with object.now source.now assembled.now))
        (H.seen host.old) (H.seen host.new) result }
    ensures stays { LeavesUnread reads_nothing (H.seen host.old).world (H.seen host.new).world }
{
    match write_all(host, Unit::Object, object) {
        Sent::Done => {}
        Sent::Failed => return Sent::Failed,
    }
    match image_text(&assembled.image, host) {
        Sent::Done => listing(source, assembled, host),
        Sent::Failed => Sent::Failed,
    }
}
