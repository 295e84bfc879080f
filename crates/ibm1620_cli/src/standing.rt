// The statement of a source at IR, in the answer of a job whose machine runs its program.
ghost use Rattle.ibm1620_cli.specs.Promise.{ShowsStatement};
ghost use Rattle.ibm1620_cli.specs.Parts.{AddsStatement, program_of_sound};

use crate::answer::Answer;
use crate::source::SoundSource;
use crate::status::Status;
use cpu_step::Console;
use sps_listing::{StandingLine, standing_line, statement_at};

// The answer of a job, with the statement of its source at IR of the console; after a fault of the host there is no statement.
pub(crate) fn with_statement(sound: &SoundSource, answer: Answer) -> Answer
    ensures { AddsStatement (program_of_sound sound.now) answer result }
{
    let statement = match answer.status {
        Status::HostFault => None,
        _ => statement_shown(sound, &answer.console),
    };
    Answer {
        statement,
        ..answer
    }
}

// The statement of a source at IR of a console, if there is one.
fn statement_shown(sound: &SoundSource, shown: &Option<Console>) -> Option<StandingLine>
    ensures { ShowsStatement (Some (program_of_sound sound.now)) shown.now result }
{
    let Some(console) = shown else {
        return None;
    };
    let Some(statement) = statement_at(&sound.assembled, console.regs.ir) else {
        return None;
    };
    Some(standing_line(&sound.source, statement))
}
