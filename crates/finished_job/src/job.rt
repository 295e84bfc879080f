// A whole job, with its message and its code.
// Source: this project's own.
ghost use Rattle.outside_io.specs.World.{IsFresh};
ghost use Rattle.finished_job.specs.WholeJob.{DoesAndSays, SaysEnding};

use crate::counting::Counting;
use crate::sink::Sink;
use crate::trouble::TellsTrouble;
use command_line::Read;
use ibm1620_cli::ibm1620_read;
use messages::{JobEnding, is_quiet, message};
use std::alloc::Global;

/// Does the job of the words over a host, writes its message on `errors`, and answers the code with which the program ends.
///
/// The job is the job of `ibm1620_answer`, and the code is the code of its status. The message is about this answer, the host's last failure, and
/// the cards that were punched to no file. It is one piece, so that its lines stay together. If there is nothing to say, nothing is written.
///
/// Before the call, no unit of the host is in use, and no byte has been written to an output.
pub fn do_job<H: TellsTrouble, S: Sink>(
    alloc: Global,
    words: &[String],
    asks_console: bool,
    host: &mut Counting<H>,
    errors: &mut S,
) -> u8
    requires { IsFresh (H.seen host.old.host).world }
    ensures { DoesAndSays words.now asks_console (H.seen host.old.host) (H.seen host.new.host) (H.trouble_of host.new.host) (S.said errors.old) (S.said errors.new) result }
{
    do_read_job(alloc, &Read::of(alloc, words), asks_console, host, errors)
}

/// Does the job of words that were read before, as `do_job` does. The words are not read again, neither for the job nor for the message.
///
/// Before the call, no unit of the host is in use, and no byte has been written to an output.
pub fn do_read_job<H: TellsTrouble, S: Sink>(
    alloc: Global,
    read: &Read<'_>,
    asks_console: bool,
    host: &mut Counting<H>,
    errors: &mut S,
) -> u8
    requires { IsFresh (H.seen host.old.host).world }
    ensures { DoesAndSays read.now.words.now asks_console (H.seen host.old.host) (H.seen host.new.host) (H.trouble_of host.new.host) (S.said errors.old) (S.said errors.new) result }
{
    let answer = ibm1620_read(alloc, read, host);
    let status = answer.status;
    let lost_cards = host.cards();
    let trouble = host.trouble();
    let ending = JobEnding {
        status,
        answer: &answer,
        trouble,
        asks_console,
        lost_cards,
    };
    say_ending(read, &ending, errors);
    status.code()
}

// Writes the message about this ending, if there is something to say. A quiet job pays nothing for the room of a message.
fn say_ending<S: Sink>(read: &Read<'_>, ending: &JobEnding<'_>, errors: &mut S)
    ensures { SaysEnding ending.now (S.said errors.old) (S.said errors.new) }
{
    if !is_quiet(ending) {
        say_message(read, ending, errors);
    }
}

// Writes the message about this ending, if there is a message.
#[cold]
#[inline(never)]
fn say_message<S: Sink>(read: &Read<'_>, ending: &JobEnding<'_>, errors: &mut S)
    ensures { SaysEnding ending.now (S.said errors.old) (S.said errors.new) }
{
    if let Some(text) = message(ending, read) {
        errors.say(text.as_str());
    }
}
