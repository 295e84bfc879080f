// The whole program over any host.
// Source: this project's own.
ghost use Rattle.std.specs.Prelude.{◌≡◌};
ghost use Rattle.digit_core.specs.Size.{IsSize};
ghost use Rattle.outside_io.specs.World.{IsFresh, IsFree};
ghost use Rattle.command_line.specs.Given.{meaning_of};
ghost use Rattle.ibm1620_cli.specs.Parts.{LeavesUnread};
ghost use Rattle.ibm1620_cli.specs.Job.{word_bytes, reads, TellsAnswer, BindsSaid, KeepsUnread, DoesSaid, BindsFiles, KeepsFiles, DoesJob, DoesJobIn, IsStatusOf};
ghost use Rattle.ibm1620_cli.specs.Headline.{Headline};
ghost use Rattle.ibm1620_cli.specs.RoundTrip.{DiskRoundTrip, RoundTrip};
ghost use Rattle.ibm1620_cli.specs.Endings.{TrialEnds, SessionEnds};
ghost use Rattle.ibm1620_cli.specs.Answers.{AnswersJob};

use crate::answer::Answer;
use crate::assembly::assemble_source;
use crate::binding::bind_all;
use crate::debug::debug_source;
use crate::disk::place_source;
use crate::load::load;
use crate::making::make_source;
use crate::report::report;
use crate::run::run_source;
use crate::status::Status;
use crate::trial::try_source;
use command_line::{Command, CoreSize, Plain, Read};
use outside_io::{Bound, Host};
use std::alloc::{AllocError, Global};

/// Does what the words after the program's name say, over any host. No unit of the host is in use, and no output has been given a
/// byte. The answer is how that ended, with the machine's console, the statement of a refused source, and the statement at IR.
///
/// - `told`: all that is done outside is one list, by the words and the inputs; after a fault of the host a first part of it is
///   done. `HostFault` comes only if a call of the host failed, and `OutOfMemory` only before a machine is powered on. Even if
///   the host does not reveal the input of the machine, the status is one of the possible endings of the job, and Object, Image
///   and Listing have the bytes that they had at power on.
/// - `bound`: files are bound in the order of units, each to the unit that its option names, and no other.
/// - `unread`: an input that the command does not read keeps all that it had and is not asked; a pack that it doesn't work with keeps its sectors.
/// - `headline`: a source that breaks no rule runs as its image says, by the table of instructions.
/// - `trial`, `session`: the possible endings of a trial and of a session, whatever the host reveals of the input of the machine.
/// - `trip`, `disk_trip`: a deck that `assemble` or `disk` punched does, when it is loaded, what its program does.
///
/// docs/promises.md says each of these in full under 'The whole program', and docs/formats.md which words are plain.
pub fn ibm1620_answer<H: Host>(alloc: Global, words: &[String], host: &mut H) -> Answer
    requires { IsFresh (H.seen host.old).world }
    ensures told { TellsAnswer (word_bytes words.now) (H.seen host.old) (H.seen host.new) result }
    ensures bound { BindsSaid (word_bytes words.now) (H.seen host.old) (H.seen host.new) result.status }
    ensures unread { KeepsUnread (word_bytes words.now) (H.seen host.old) (H.seen host.new) }
    ensures headline { Headline (word_bytes words.now) (H.seen host.old) (H.seen host.new) result }
    ensures trial { TrialEnds (word_bytes words.now) (H.seen host.old) (H.seen host.new) result.status }
    ensures session { SessionEnds (word_bytes words.now) (H.seen host.old) (H.seen host.new) result.status }
    ensures trip { RoundTrip (word_bytes words.now) (H.seen host.old) (H.seen host.new) result }
    ensures disk_trip { DiskRoundTrip (word_bytes words.now) (H.seen host.old) (H.seen host.new) result }
{
    ibm1620_read(alloc, &Read::of(alloc, words), host)
}

/// Does the job of words that were read before, over any host; the contract is the contract of [`ibm1620_answer`].
///
/// No unit of the host is in use, and no output has been given a byte.
pub fn ibm1620_read<H: Host>(alloc: Global, read: &Read<'_>, host: &mut H) -> Answer
    requires { IsFresh (H.seen host.old).world }
    ensures { AnswersJob (word_bytes read.now.words.now) (H.seen host.old) (H.seen host.new) result }
{
    match read.said {
        Ok(None) => Answer::of(report(host, Status::Usage)),
        Ok(Some(plain)) => bind_and_do(alloc, host, plain),
        Err(AllocError) => Answer::of(Status::OutOfMemory),
    }
}

/// Does what the words say, over any host, and answers the status of [`ibm1620_answer`] alone. Its contract says all that is
/// done.
///
/// No unit of the host is in use, and no output has been given a byte.
pub fn ibm1620<H: Host>(alloc: Global, words: &[String], host: &mut H) -> Status
    requires { IsFresh (H.seen host.old).world }
    ensures told { IsStatusOf result (TellsAnswer (word_bytes words.now) (H.seen host.old) (H.seen host.new)) }
    ensures bound { BindsSaid (word_bytes words.now) (H.seen host.old) (H.seen host.new) result }
    ensures unread { KeepsUnread (word_bytes words.now) (H.seen host.old) (H.seen host.new) }
    ensures headline { IsStatusOf result (Headline (word_bytes words.now) (H.seen host.old) (H.seen host.new)) }
    ensures trial { TrialEnds (word_bytes words.now) (H.seen host.old) (H.seen host.new) result }
    ensures session { SessionEnds (word_bytes words.now) (H.seen host.old) (H.seen host.new) result }
    ensures trip { IsStatusOf result (RoundTrip (word_bytes words.now) (H.seen host.old) (H.seen host.new)) }
    ensures disk_trip { IsStatusOf result (DiskRoundTrip (word_bytes words.now) (H.seen host.old) (H.seen host.new)) }
{
    let answer = ibm1620_answer(alloc, words, host);
    answer.status
}

// Binds the files, and does the job of the command.
fn bind_and_do<H: Host>(alloc: Global, host: &mut H, plain: Plain<'_>) -> Answer
    requires { IsFree (H.seen host.old).world }
    ensures told { DoesSaid (meaning_of plain.entry) (H.seen host.old) (H.seen host.new) result }
    ensures bound { BindsFiles (meaning_of plain.entry) (H.seen host.old) (H.seen host.new) result.status }
    ensures unread { KeepsFiles (meaning_of plain.entry) (H.seen host.old) (H.seen host.new) }
{
    match bind_all(host, &plain.names) {
        Bound::Yes => do_job(alloc, host, plain),
        Bound::Failed => Answer::of(Status::HostFault),
    }
}

// Does the job of a command, after its files were bound.
fn do_job<H: Host>(alloc: Global, host: &mut H, plain: Plain<'_>) -> Answer
    ensures told { DoesJob (meaning_of plain.entry) (H.seen host.old) (H.seen host.new) result }
    ensures stays { LeavesUnread (reads (meaning_of plain.entry).command) (H.seen host.old).world (H.seen host.new).world }
{
    match plain.core {
        CoreSize::OneModule => do_job_in::<1, H>(alloc, host, plain),
        CoreSize::TwoModules => do_job_in::<2, H>(alloc, host, plain),
        CoreSize::ThreeModules => do_job_in::<3, H>(alloc, host, plain),
    }
}

// Does the job with `M` modules of core.
fn do_job_in<const M: u32, H: Host>(alloc: Global, host: &mut H, plain: Plain<'_>) -> Answer
    requires { IsSize M }
    ensures told { DoesJobIn M (meaning_of plain.entry) (H.seen host.old) (H.seen host.new) result }
    ensures stays { LeavesUnread (reads (meaning_of plain.entry).command) (H.seen host.old).world (H.seen host.new).world }
{
    let settings = plain.settings;
    match plain.command {
        Command::Assemble => assemble_source::<M, H>(alloc, host, settings),
        Command::Load => load::<M, H>(alloc, host, settings),
        Command::Run => run_source::<M, H>(alloc, host, settings),
        Command::Debug => debug_source::<M, H>(alloc, host, settings),
        Command::Generate => make_source(alloc, host, settings),
        Command::Trial => try_source(alloc, host, settings),
        Command::Disk => place_source::<M, H>(alloc, host),
    }
}
