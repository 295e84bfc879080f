// The results of a row's job, as they are shown.
use crate::answers::{AnswerPart, show_console, show_refusal, show_statement};
use crate::files::Sector;
use crate::jobs::{Job, Way};
use crate::texts::show_text;
use crate::turns::show_turns;
use ibm1620_cli::Answer;
use outside_io::{ALL_SECTORS, MemHost, Unit};
use std::alloc::Global;
use std::io;

// The text that was written to an output; nothing if the unit is not an output.
pub(crate) fn written(host: &MemHost, unit: Unit) -> &[u8] {
    if unit.is_output() {
        host.shown(unit)
    } else {
        &[]
    }
}

// Prints a sector.
pub(crate) fn show_sector(
    rt: &impl Print,
    alloc: Global,
    a: u32,
    sector: &Sector,
) -> io::Result<()> {
    let name = format!(in alloc; "sector {a}")?;
    show_text(rt, alloc, name.as_str(), sector)
}

// Prints each sector that the job has changed.
fn show_sectors(rt: &impl Print, job: &Job, host: &MemHost) -> io::Result<()> {
    let is_bound = host.bound_name(Unit::Pack).is_some();
    for a in 0..ALL_SECTORS as u32 {
        let sector = host.sector(a);
        if sector != job.files.sector_before(is_bound, a) {
            show_sector(rt, job.alloc, a, &sector)?;
        }
    }
    Ok(())
}

// Whether the row shows the text of an output.
fn is_shown(job: &Job, unit: Unit) -> bool {
    match &job.shown {
        Some(outputs) => outputs.contains(&unit),
        None => true,
    }
}

// Prints the texts or the byte counts of the outputs, as the row asks.
fn show_outputs(rt: &impl Print, job: &Job, host: &MemHost) -> io::Result<()> {
    for unit in Unit::ALL {
        let text = written(host, unit);
        if job.counted.contains(&unit) {
            println!(rt; "{} has|{} bytes", unit.word(), text.len())?;
        } else if is_shown(job, unit) {
            show_text(rt, job.alloc, unit.word(), text)?;
        }
    }
    Ok(())
}

// Does a job over a host in memory, and prints its outputs and the changed sectors.
fn show_once(rt: &impl Print, job: &Job) -> io::Result<(Answer, MemHost)> {
    let (answer, host) = job.done(job.failing)?;
    show_outputs(rt, job, &host)?;
    show_sectors(rt, job, &host)?;
    Ok((answer, host))
}

// Prints the parts of an answer that the row asks for.
fn show_asked(rt: &impl Print, job: &Job, answer: &Answer) -> io::Result<()> {
    if job.asked.contains(&AnswerPart::Console) {
        show_console(rt, job.alloc, &answer.console)?;
    }
    if job.asked.contains(&AnswerPart::Refusal) {
        show_refusal(rt, job.alloc, &answer.refusal)?;
    }
    if job.asked.contains(&AnswerPart::Statement) {
        show_statement(rt, job.alloc, &answer.statement)?;
    }
    Ok(())
}

// The code of a job with this answer. If the row asks for the messages, they are printed, and the code is the whole job's.
fn code_shown(rt: &impl Print, job: &Job, answer: &Answer) -> io::Result<u8> {
    if !job.asked.contains(&AnswerPart::Said) {
        return Ok(answer.status.code());
    }
    let (code, said) = job.done_whole()?;
    for piece in said.pieces() {
        show_text(rt, job.alloc, "said", piece)?;
    }
    Ok(code)
}

// Does a job and prints its results, its status and code last. The answer is the host, if it is in memory.
pub(crate) fn show(rt: &impl Print, job: &Job) -> io::Result<Option<MemHost>> {
    println!(rt; "row|{}", job.row)?;
    let (answer, host) = match job.way {
        Way::Once => {
            let (answer, host) = show_once(rt, job)?;
            (answer, Some(host))
        }
        Way::Quiet => (job.done_quietly()?, None),
        Way::Turns => {
            let (answer, host) = show_turns(rt, job)?;
            (answer, Some(host))
        }
    };
    show_asked(rt, job, &answer)?;
    let code = code_shown(rt, job, &answer)?;
    let status = answer.status;
    println!(rt; "status|{status:?}")?;
    println!(rt; "code|{code}\n")?;
    Ok(host)
}
