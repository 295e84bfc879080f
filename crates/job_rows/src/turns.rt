// Jobs with one failing call: the first, then the second, and so on, until a job makes no call with that number.
use crate::jobs::Job;
use crate::shown::{show_sector, written};
use crate::texts::show_text;
use ibm1620_cli::{Answer, Status};
use outside_io::{ALL_SECTORS, MemHost, Unit};
use std::alloc::Global;
use std::io;

// Each job here makes fewer calls.
const MANY_CALLS: u64 = 1000;

// The start of a piece of an output: the output, and the count of bytes before the piece.
#[derive(Clone, Copy)]
struct PieceStart {
    unit: Unit,
    from: usize,
}

// The pieces that a job writes, as far as they are printed.
#[derive(Drop)]
struct WrittenPieces {
    alloc: Global,
    // The start of the current piece; None if this is a sector, or nothing is written yet.
    place: Option<PieceStart>,
}

impl WrittenPieces {
    // Prints the current piece.
    fn show(&self, rt: &impl Print, host: &MemHost) -> io::Result<()> {
        match self.place {
            Some(place) => {
                let text = written(host, place.unit).get(place.from..).unwrap_or(&[]);
                show_text(rt, self.alloc, place.unit.word(), text)
            }
            None => Ok(()),
        }
    }

    // Goes on to the texts of the next job, whose failing call is one later, and prints each piece before them. Each text of the job
    // before has to be a first part of the new text. Since a call writes to one output, at most one text may be longer now.
    fn go_on(&mut self, rt: &impl Print, before: &MemHost, after: &MemHost) -> io::Result<()> {
        let mut longer = false;
        for unit in Unit::ALL {
            let old = written(before, unit);
            let new = written(after, unit);
            if !new.starts_with(old) || (longer && new.len() > old.len()) {
                println!(rt;
                    "{} has|more at once, or not the first part that it had",
                    unit.word()
                )?;
            }
            if new.len() > old.len() {
                longer = true;
                self.go_on_in(rt, before, unit)?;
            }
        }
        if before.bound_name(Unit::Pack).is_some() {
            self.go_on_in_sectors(rt, before, after)?;
        }
        Ok(())
    }

    // Goes on in an output: prints the piece before, if that is in another output.
    fn go_on_in(&mut self, rt: &impl Print, before: &MemHost, unit: Unit) -> io::Result<()> {
        if self.place.is_none_or(|place| place.unit != unit) {
            self.show(rt, before)?;
            let from = written(before, unit).len();
            self.place = Some(PieceStart { unit, from });
        }
        Ok(())
    }

    // Prints the current piece and each sector that has changed.
    fn go_on_in_sectors(
        &mut self,
        rt: &impl Print,
        before: &MemHost,
        after: &MemHost,
    ) -> io::Result<()> {
        for a in 0..ALL_SECTORS as u32 {
            let sector = after.sector(a);
            if sector != before.sector(a) {
                self.show(rt, before)?;
                self.place = None;
                show_sector(rt, self.alloc, a, &sector)?;
            }
        }
        Ok(())
    }
}

// Lets each call of the job fail, one after another, until it makes no call with that number. Prints the pieces that it writes and the
// count of its calls. The result is the answer and the host of the last job; after too many calls the status is `HostFault`.
pub(crate) fn show_turns(rt: &impl Print, job: &Job) -> io::Result<(Answer, MemHost)> {
    let mut pieces = WrittenPieces {
        alloc: job.alloc,
        place: None,
    };
    let mut before = MemHost::new(job.alloc, 0)?;
    let mut answer = Answer {
        status: Status::HostFault,
        console: None,
        refusal: None,
        statement: None,
    };
    let mut calls = 0;
    for call in 1..MANY_CALLS {
        let (next, after) = job.done(Some(call))?;
        pieces.go_on(rt, &before, &after)?;
        before = after;
        answer = next;
        if answer.status != Status::HostFault {
            break;
        }
        calls = call;
    }
    pieces.show(rt, &before)?;
    println!(rt; "calls|{calls}")?;
    Ok((answer, before))
}
