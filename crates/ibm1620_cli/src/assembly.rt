// The job assemble: the source is read and assembled, and its texts are written.
ghost use Rattle.std.specs.Prelude.{◌≡◌};
ghost use Rattle.digit_core.specs.Size.{IsSize, size};
ghost use Rattle.ibm1620_cli.specs.AssembleJob.{AssemblyPromise, WrittenPromise, status_of_assembled};
ghost use Rattle.ibm1620_cli.specs.Inputs.{reads_nothing, reads_source};
ghost use Rattle.ibm1620_cli.specs.Parts.{IsSoundSource, LeavesUnread};

use crate::answer::Answer;
use crate::report::report;
use crate::source::{SoundSource, read_source, write_source};
use crate::status::Status;
use command_line::Settings;
use outside_io::Host;
use sps_pass_two::Assembled;
use std::alloc::Global;

// Reads the source, assembles it, and writes its texts.
pub(crate) fn assemble_source<const M: u32, H: Host>(
    alloc: Global,
    host: &mut H,
    settings: Settings,
) -> Answer
    requires size { IsSize M }
    ensures promise { AssemblyPromise M settings (H.seen host.old) (H.seen host.new) result }
    ensures stays { LeavesUnread reads_source (H.seen host.old).world (H.seen host.new).world }
{
    match read_source::<M, H>(alloc, host) {
        Ok(sound) => write_assembled::<M, H>(alloc, host, &sound, settings),
        Err(answer) => answer,
    }
}

// Writes the texts of a source that breaks no rule, and reports how much was assembled.
fn write_assembled<const M: u32, H: Host>(
    alloc: Global,
    host: &mut H,
    sound: &SoundSource,
    settings: Settings,
) -> Answer
    requires size { IsSize M }
    requires is { IsSoundSource M sound.now }
    ensures promise { WrittenPromise M settings sound.now.source.items (H.seen host.old) (H.seen host.new) result }
    ensures stays { LeavesUnread reads_nothing (H.seen host.old).world (H.seen host.new).world }
{
    match write_source::<M, H>(alloc, host, sound, settings.form) {
        Ok(cards) => {
            let status = status_of_assembled(&sound.assembled, cards.len() as u32);
            Answer::of(report(host, status))
        }
        Err(status) => Answer::of(status),
    }
}

// The status of a source that breaks no rule.
fn status_of_assembled(assembled: &Assembled, cards: u32) -> Status
    ensures { result ≡ status_of_assembled assembled.now cards }
{
    Status::Assembled {
        statements: assembled.placed.as_slice().len() as u32,
        digits: assembled.image.digits(),
        cards,
    }
}
