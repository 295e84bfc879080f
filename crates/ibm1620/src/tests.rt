// The messages of failures that no row can cause, the names that units are bound to, and the laws.
use crate::start::NoStart;
use command_line::Read;
use ibm1620_cli::{Answer, Status, headline_law, ibm1620, prompt_law};
use messages::{JobEnding, message};
use outside_io::{Cause, Doing, MemHost, Trouble, Unit};
use std::alloc::{AllocError, Global};
use std::io::{Error, ErrorKind};
use std::test::Fail;

// The words of a command line.
fn words_from(alloc: Global, texts: &[&str]) -> Result<Vec<String>, AllocError> {
    let mut words = Vec::new(alloc);
    for text in texts {
        words.push(String::from_str(alloc, text)?)?;
    }
    Ok(words)
}

// The words of a job whose pack is a blank one.
const LOAD: &[&str] = &["load", "--deck", "cards.txt", "--typed", "typed.txt"];

// Failures of the host at that job, each with its message.
fn host_failures() -> [(Trouble, &'static str); 2] {
    [
        (
            Trouble {
                unit: Unit::Pack,
                doing: Doing::WriteSector,
                cause: Cause::System(Error::from(ErrorKind::OutOfMemory)),
            },
            "ibm1620: the blank pack: a sector cannot be written: out of memory\n\
             ibm1620: free some memory, or name a file by --pack FILE\n",
        ),
        (
            Trouble {
                unit: Unit::Typed,
                doing: Doing::Write,
                cause: Cause::NothingTaken,
            },
            "ibm1620: --typed typed.txt: took no byte\n\
             ibm1620: see that there is room and the file may be written\n",
        ),
    ]
}

// Whether the message about this failure of the host is exactly this.
fn says(read: &Read<'_>, failure: &Trouble, want: &str) -> bool {
    let status = Status::HostFault;
    let answer = Answer {
        status,
        console: None,
        refusal: None,
        statement: None,
    };
    let ending = JobEnding {
        status,
        answer: &answer,
        trouble: Some(failure),
        asks_console: false,
        lost_cards: 0,
    };
    match message(&ending, read) {
        Some(text) => text.as_str() == want,
        None => false,
    }
}

// The message if the file that replaces a closed standard stream can't be opened.
const NO_NULL: &str = "ibm1620: /dev/null: cannot be opened: permission denied\n\
                       ibm1620: see that it may be read: it stands in for a closed standard output\n";

#[test]
fn failures_that_no_row_can_cause(rt: HostRuntime) -> Result<(), Fail> {
    let words = words_from(rt.alloc(), LOAD)?;
    let read = Read::of(rt.alloc(), &words);
    for (failure, want) in &host_failures() {
        assert!(rt; says(&read, failure, want));
    }
    let no_null = NoStart::NoNull(Error::from(ErrorKind::PermissionDenied));
    assert!(rt; no_null.code() == 7);
    assert!(rt; format!(in rt.alloc(); "{no_null}")?.as_str() == NO_NULL);
    Ok(())
}

const HALTS: &[u8] = b"     START H\n           DENDSTART\n";

// Whether a unit is bound to this name.
fn is_bound_to(host: &MemHost, unit: Unit, name: &[u8]) -> bool {
    match host.bound_name(unit) {
        Some(bound) => bound == name,
        None => false,
    }
}

// Each unit is bound to the name that the words give it. The laws of loaded programs and of prompts are their contracts: the
// calls do nothing.
#[test]
fn bound_names_and_laws(rt: HostRuntime) -> Result<(), Fail> {
    let texts = [
        "assemble", "--source", "cards", "--image", "digits", "--report", "line",
    ];
    let words = words_from(rt.alloc(), &texts)?;
    let mut host = MemHost::new(rt.alloc(), 4000)?;
    host.file("cards", HALTS)?;
    let status = ibm1620(rt.alloc(), &words, &mut host);
    assert!(rt; status.code() == 0);
    assert!(rt; is_bound_to(&host, Unit::Source, b"cards"));
    assert!(rt; is_bound_to(&host, Unit::Image, b"digits"));
    assert!(rt; is_bound_to(&host, Unit::Report, b"line"));
    assert!(rt; host.bound_name(Unit::Typed).is_none());
    headline_law();
    prompt_law();
    Ok(())
}
