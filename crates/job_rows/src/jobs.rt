// A job: its settings in a row, and how it is done.
ghost use Rattle.std.specs.Prelude.{IfOk};
ghost use Rattle.outside_io.specs.World.{IsFresh};
ghost use Rattle.outside_io.specs.Mem.{mem_world};

use crate::answers::AnswerPart;
use crate::files::Files;
use crate::lines::{RowLine, output_named};
use crate::texts::{NotTaken, add_bytes};
use finished_job::{Counting, MemorySink, do_job};
use ibm1620_cli::{Answer, ibm1620_answer};
use outside_io::{MemHost, Unit};
use std::alloc::{AllocError, Global};

// The room of each output if a row sets none, in bytes.
const ROOM: u32 = 40_000;

// How a job is done.
#[derive(Clone, Copy)]
pub(crate) enum Way {
    // Once, over a host in memory.
    Once,
    // Over a host that reveals nothing.
    Quiet,
    // Once for each of its calls: this call then fails.
    Turns,
}

// The settings of a row's job.
#[derive(Drop)]
pub(crate) struct Job {
    pub(crate) alloc: Global,
    // What the row shows, in plain words.
    pub(crate) row: String,
    pub(crate) way: Way,
    // The outputs whose texts are shown, all if the row has no line `show|`, and the outputs whose bytes are counted.
    pub(crate) shown: Option<Vec<Unit>>,
    pub(crate) counted: Vec<Unit>,
    // The parts of the answer that are shown in addition to its status.
    pub(crate) asked: Vec<AnswerPart>,
    // Whether the user asks for the console in the messages.
    asks_console: bool,
    pub(crate) files: Files,
    // The number of the call that fails.
    pub(crate) failing: Option<u64>,
    words: Vec<String>,
    room: u32,
    // The host of the row before, if its job was done over a host in memory.
    before: Option<MemHost>,
}

impl Job {
    // A job without words and files, after the job of the row before.
    pub(crate) fn behind(alloc: Global, before: Option<MemHost>) -> Job {
        Job {
            alloc,
            row: String::new(alloc),
            way: Way::Once,
            shown: None,
            counted: Vec::new(alloc),
            asked: Vec::new(alloc),
            asks_console: false,
            files: Files::new(alloc),
            failing: None,
            words: Vec::new(alloc),
            room: ROOM,
            before,
        }
    }

    // Takes a line of the row. A line that is not known is shown with the row, so that the row's output is not the wanted one.
    //
    // The error is a lack of memory.
    pub(crate) fn add(&mut self, line: &str) -> Result<(), AllocError> {
        match self.take(line) {
            Ok(()) => Ok(()),
            Err(NotTaken::Unknown) => self.mark(line),
            Err(NotTaken::Memory) => Err(AllocError),
        }
    }

    // Shows a line that is not known with the row.
    fn mark(&mut self, line: &str) -> Result<(), AllocError> {
        self.row.push_str(" (not known: ")?;
        self.row.push_str(line)?;
        self.row.push(')')
    }

    fn take(&mut self, line: &str) -> Result<(), NotTaken> {
        match RowLine::read(line).ok_or(NotTaken::Unknown)? {
            RowLine::Row(text) => self.row.push_str(text)?,
            RowLine::Words(text) => self.add_words(text)?,
            RowLine::Text(unit, text) => self.files.add(unit, text)?,
            RowLine::Times(times, unit, text) => self.add_times(times, unit, text)?,
            RowLine::Object => {
                let host = self.before.as_ref().ok_or(NotTaken::Unknown)?;
                self.files.add_deck(host.shown(Unit::Object))?;
            }
            RowLine::Sectors => {
                let host = self.before.as_ref().ok_or(NotTaken::Unknown)?;
                self.files.add_pack(host)?;
            }
            RowLine::Sector(a, text) => self.files.add_sector(a, text)?,
            RowLine::Room(room) => self.room = room,
            RowLine::Fail(call) => self.failing = Some(u64::from(call)),
            RowLine::Show(names) => self.shown = Some(outputs_named(self.alloc, names)?),
            RowLine::Count(names) => self.counted = outputs_named(self.alloc, names)?,
            RowLine::Answer(names) => self.asked = parts_named(self.alloc, names)?,
            RowLine::AsksConsole => self.asks_console = true,
            RowLine::Quiet => self.way = Way::Quiet,
            RowLine::Turns => self.way = Way::Turns,
        }
        Ok(())
    }

    // Adds words, which are separated by blanks.
    fn add_words(&mut self, words: &str) -> Result<(), NotTaken> {
        for text in words.split_whitespace() {
            let mut bytes = Vec::new(self.alloc);
            add_bytes(&mut bytes, text)?;
            let Ok(word) = String::from_utf8(bytes) else {
                return Err(NotTaken::Unknown);
            };
            self.words.push(word)?;
        }
        Ok(())
    }

    // Adds a line to a file `times` times, with its number instead of the first `####`.
    fn add_times(&mut self, times: u32, unit: Unit, text: &str) -> Result<(), NotTaken> {
        for number in 0..times {
            match text.split_once("####") {
                Some((front, rest)) => {
                    let text = format!(in self.alloc; "{front}{number:04}{rest}")?;
                    self.files.add(unit, text.as_str())?;
                }
                None => self.files.add(unit, text)?,
            }
        }
        Ok(())
    }

    // Does the job over the files; the host's call with this number fails.
    //
    // The error is a lack of memory for the host.
    pub(crate) fn done(&self, failing: Option<u64>) -> Result<(Answer, MemHost), AllocError> {
        let mut host = self.host(failing)?;
        let answer = ibm1620_answer(self.alloc, &self.words, &mut host);
        Ok((answer, host))
    }

    // Does the whole job over the files: its exit code, and its messages.
    //
    // The error is a lack of memory for the host, or for the messages.
    pub(crate) fn done_whole(&self) -> Result<(u8, MemorySink), AllocError> {
        let mut host = Counting::over(self.host(self.failing)?);
        let mut said = MemorySink::new(self.alloc);
        let code = do_job(
            self.alloc,
            &self.words,
            self.asks_console,
            &mut host,
            &mut said,
        );
        if said.tells() {
            Ok((code, said))
        } else {
            Err(AllocError)
        }
    }

    // A host with the files, whose call with this number fails.
    fn host(&self, failing: Option<u64>) -> Result<MemHost, AllocError>
        ensures { IfOk result (λ host. IsFresh (mem_world host)) }
    {
        let mut host = self.files.host(self.room as usize)?;
        if let Some(call) = failing {
            host.fail(call)?;
        }
        Ok(host)
    }

    // Does the job over the files, with a host that reveals nothing.
    //
    // The error is a lack of memory for the host.
    pub(crate) fn done_quietly(&self) -> Result<Answer, AllocError> {
        let mut host = self.files.quiet_host()?;
        Ok(ibm1620_answer(self.alloc, &self.words, &mut host))
    }
}

// The outputs that a list names.
fn outputs_named(alloc: Global, names: &str) -> Result<Vec<Unit>, NotTaken> {
    let mut outputs = Vec::new(alloc);
    for name in names.split_whitespace() {
        outputs.push(output_named(name).ok_or(NotTaken::Unknown)?)?;
    }
    Ok(outputs)
}

// The parts of an answer that a list names.
fn parts_named(alloc: Global, names: &str) -> Result<Vec<AnswerPart>, NotTaken> {
    let mut parts = Vec::new(alloc);
    for name in names.split_whitespace() {
        parts.push(AnswerPart::named(name).ok_or(NotTaken::Unknown)?)?;
    }
    Ok(parts)
}
