// Each unit of the program over real files, and each way in which files fail, in the folder where the test runs.
use crate::jobs::{answered, failed, holds, untroubled};
use addr_indirect::Stop;
use ibm1620_cli::Status;
use outside_io::{Doing, Unit};
use std::fs;
use std::io::ErrorKind;
use std::test::Fail;

// The old bytes of an output's file: longer than the bytes that the job writes, except for an object deck.
const OLD: &[u8] = &[b'X'; 200];

// The card that types five digits and halts.
const TYPES_AND_HALTS: &[u8] = b"38000360010048000000000000000000000012345|\n";

// A card that halts.
const HALTS: &[u8] = b"480000000000\n";

// Seeks cylinder 0, reads the sectors 0 and 1 to 01000, and goes there.
const READS_SECTORS: &[u8] = b"34000360070136000360070249010000000010000000201000\n";

// Reads a card and a line of the keyboard, types the card, punches the line and halts; then it writes the line to sector 5, and
// halts again. The first card reads the second card to 00072, the address after its halt.
const TWO_CARDS: &[u8] = b"\
360007200500360040000500360050000100380040000100380050000400480000000000\n\
34001080070138001080070248000000000010000500100500\n";

// The same program as a source: CARD is 00512, LINE is 00592, and PLACE is 00498.
const SOURCE: &[u8] = b"\
\x20    START RNCDCARD\n\
\x20          RNTYLINE\n\
\x20          WNTYCARD\n\
\x20          WNCDLINE\n\
\x20          H\n\
\x20          SK  PLACE\n\
\x20          WDN PLACE\n\
\x20          H\n\
\x20    PLACE DDA 1,5,1,LINE\n\
\x20    CARD  DSS 80\n\
\x20    LINE  DSS 100\n\
\x20          DENDSTART\n";

// Its image: eight instructions and the control field.
const IMAGE: &[u8] = b"\
00402 36005120050036005920010038005120010038005920040048\n\
00452 00000000003400498007013800498007024800000000001000\n\
00502 0500100592\n";

// The line of the keyboard on a punched card.
const PUNCHED: &[u8] =
    b"567|0000000000000000000000000000000000000000000000000000000000000000000000000000\n";

const INPUTS: [(&str, &[u8]); 5] = [
    ("source", SOURCE),
    ("deck", TWO_CARDS),
    ("data", b"1234|\n"),
    ("keys", b"567|\n"),
    ("script", b"HALT START\n"),
];

const OUTPUTS: [&str; 5] = ["object", "image", "punched", "typed", "report"];

const LOAD_WITH_ALL: &str = "\
load --deck deck --data data --keys keys --script script --pack pack --limit 9 \
--punched punched --typed typed --report report";

const RUN_WITH_ALL: &str = "\
run --source source --object object --image image --data data --keys keys --script script \
--pack pack --limit 8 --punched punched --typed typed --report report";

// Writes all inputs, and old bytes to all outputs.
fn write_files(rt: &HostRuntime) -> Result<(), Fail> {
    for (name, bytes) in INPUTS {
        fs::write(rt, name, bytes)?;
    }
    for name in OUTPUTS {
        fs::write(rt, name, OLD)?;
    }
    Ok(())
}

// Words with one option of `load`, its file's name, the deck, the status, and the bytes of this file before and after the job.
struct Row {
    line: &'static str,
    name: &'static str,
    deck: &'static [u8],
    status: Status,
    before: &'static [u8],
    after: &'static [u8],
}

const ROWS: [Row; 9] = [
    // the data card is read to the place after the first instruction, and is the second instruction
    Row {
        line: "load --deck deck --data data",
        name: "data",
        deck: b"360001200500\n",
        status: Status::Halted { at: 12, steps: 2 },
        before: HALTS,
        after: HALTS,
    },
    // likewise the line of the keyboard
    Row {
        line: "load --deck deck --keys keys",
        name: "keys",
        deck: b"360001200100\n",
        status: Status::Halted { at: 12, steps: 2 },
        before: HALTS,
        after: HALTS,
    },
    // a halt after a halt
    Row {
        line: "load --deck deck --script script",
        name: "script",
        deck: b"480000000000480000000000\n",
        status: Status::Halted { at: 12, steps: 2 },
        before: b"HALT START\n",
        after: b"HALT START\n",
    },
    // the pack ends within the first of the two sectors that are read, and is not filled up
    Row {
        line: "load --deck deck --pack pack",
        name: "pack",
        deck: READS_SECTORS,
        status: Status::Halted { at: 1000, steps: 4 },
        before: b"480000000000",
        after: b"480000000000",
    },
    // the card of the deck punches itself
    Row {
        line: "load --deck deck --punched punched",
        name: "punched",
        deck: b"380000000400480000000000\n",
        status: Status::Halted { at: 12, steps: 2 },
        before: OLD,
        after: b"38000000040048000000000000000000000000000000000000000000000000000000000000000000\n",
    },
    // no card is punched
    Row {
        line: "load --deck deck --punched punched",
        name: "punched",
        deck: HALTS,
        status: Status::Halted { at: 0, steps: 1 },
        before: OLD,
        after: b"",
    },
    Row {
        line: "load --deck deck --typed typed",
        name: "typed",
        deck: TYPES_AND_HALTS,
        status: Status::Halted { at: 12, steps: 2 },
        before: OLD,
        after: b"12345",
    },
    Row {
        line: "load --deck deck --report report",
        name: "report",
        deck: HALTS,
        status: Status::Halted { at: 0, steps: 1 },
        before: OLD,
        after: b"HALT 00000 STEPS 1\n",
    },
    // a branch to itself; a limit is not a file
    Row {
        line: "load --deck deck --limit 5",
        name: "5",
        deck: b"490000000000\n",
        status: Status::Limit { steps: 5 },
        before: OLD,
        after: OLD,
    },
];

#[test]
fn each_option_by_itself(rt: HostRuntime) -> Result<(), Fail> {
    for row in &ROWS {
        let line = row.line;
        fs::write(&rt, "deck", row.deck)?;
        fs::write(&rt, row.name, row.before)?;
        assert!(rt; untroubled(&rt, line)? == Some(row.status), "{line}");
        assert!(rt; holds(&rt, "deck", row.deck)?, "{line}");
        assert!(rt; holds(&rt, row.name, row.after)?, "{line}");
    }
    Ok(())
}

// The words with all options, the status, and the bytes of the files of Image and Report after the job: `load` names no image.
const WHOLE: [(&str, Status, &[u8], &[u8]); 2] = [
    (
        LOAD_WITH_ALL,
        Status::Halted { at: 96, steps: 9 },
        OLD,
        b"HALT 00096 STEPS 9\n",
    ),
    (
        RUN_WITH_ALL,
        Status::Halted { at: 486, steps: 8 },
        IMAGE,
        b"HALT 00486 STEPS 8\n",
    ),
];

#[test]
fn all_options_together(rt: HostRuntime) -> Result<(), Fail> {
    let mut pack = [b'7'; 700];
    pack[500..504].copy_from_slice(b"567|");
    pack[504..600].fill(b'0');
    for (line, status, image, report) in WHOLE {
        write_files(&rt)?;
        fs::write(&rt, "pack", [b'7'; 700].as_slice())?;
        assert!(rt; untroubled(&rt, line)? == Some(status));
        for (name, bytes) in INPUTS {
            assert!(rt; holds(&rt, name, bytes)?, "{name}");
        }
        assert!(rt; holds(&rt, "pack", &pack)?);
        assert!(rt; holds(&rt, "image", image)?);
        assert!(rt; holds(&rt, "punched", PUNCHED)?);
        assert!(rt; holds(&rt, "typed", b"1234")?);
        assert!(rt; holds(&rt, "report", report)?);
    }
    Ok(())
}

// The 110 digits of the image have no flag: four cards of at most 32 digits, between the tables' cards and the transfer card.
#[test]
fn a_run_makes_the_deck_of_an_assembly(rt: HostRuntime) -> Result<(), Fail> {
    write_files(&rt)?;
    let assembled = answered(&rt, "assemble --source source --object cards --report said")?;
    assert!(rt; assembled.code() == 0);
    let report = b"ASSEMBLED STATEMENTS 12 DIGITS 110 CARDS 36\n";
    assert!(rt; holds(&rt, "said", report)?);
    let cards = fs::read(&rt, "cards")?;
    assert!(rt; cards.len() == (31 + 4 + 1) * 81);
    assert!(rt; answered(&rt, RUN_WITH_ALL)?.code() == 0);
    assert!(rt; holds(&rt, "object", &cards)?);
    Ok(())
}

// A pack that does not exist is made, and reading leaves it empty: the digits that are read are zeros, and not an instruction.
#[test]
fn a_pack_that_is_made_and_read(rt: HostRuntime) -> Result<(), Fail> {
    fs::write(&rt, "deck", READS_SECTORS)?;
    let want = Status::CheckStop {
        kind: Stop::Opcode,
        at: 1000,
        steps: 4,
    };
    assert!(rt; answered(&rt, "load --deck deck --pack new_pack")? == want);
    assert!(rt; holds(&rt, "new_pack", b"")?);
    Ok(())
}

// The words with all options, an input among them, and its unit.
const MISSING: [(&str, &str, Unit); 8] = [
    (LOAD_WITH_ALL, "deck", Unit::Deck),
    (LOAD_WITH_ALL, "data", Unit::Data),
    (LOAD_WITH_ALL, "keys", Unit::Keys),
    (LOAD_WITH_ALL, "script", Unit::Script),
    (RUN_WITH_ALL, "source", Unit::Source),
    (RUN_WITH_ALL, "data", Unit::Data),
    (RUN_WITH_ALL, "keys", Unit::Keys),
    (RUN_WITH_ALL, "script", Unit::Script),
];

// An input that is missing is not made, the pack is not opened, and old outputs stay.
#[test]
fn an_input_that_is_missing(rt: HostRuntime) -> Result<(), Fail> {
    for (line, name, unit) in MISSING {
        write_files(&rt)?;
        fs::remove_file(&rt, name)?;
        let _ = fs::remove_file(&rt, "pack");
        let ended = failed(&rt, line)?;
        assert!(rt; ended.status == Status::HostFault, "{name}");
        let error = (unit, Doing::Open, ErrorKind::NotFound);
        assert!(rt; ended.system_error == Some(error), "{name}");
        for none in [name, "pack"] {
            assert!(rt; fs::metadata(&rt, none).is_err(), "{none}");
        }
        for output in OUTPUTS {
            assert!(rt; holds(&rt, output, OLD)?, "{output}");
        }
    }
    Ok(())
}

// Files that no test makes.
const NOTHING: &str = "load --deck no_deck --pack no_pack --typed no_typed --report no_report";

// If the deck is missing, outputs that do not exist are not made.
#[test]
fn nothing_is_made_without_a_deck(rt: HostRuntime) -> Result<(), Fail> {
    assert!(rt; answered(&rt, NOTHING)? == Status::HostFault);
    for name in ["no_deck", "no_pack", "no_typed", "no_report"] {
        assert!(rt; fs::metadata(&rt, name).is_err(), "{name}");
    }
    Ok(())
}

// Reads a line of the keyboard, punches the card itself, types five digits, and halts.
const USES_ALL: &[u8] = b"36001000010038000000040038000600010048000000000000000000000012345|\n";

// Words, the unit at which the job fails, the action that fails, and the error's kind. Other named outputs get no byte, except
// Typed in the last row.
const FAILURES: [(&str, Unit, Doing, ErrorKind); 18] = [
    // a folder opens for reading, but gives no bytes
    (
        "load --deck . --report report",
        Unit::Deck,
        Doing::Read,
        ErrorKind::IsADirectory,
    ),
    (
        "load --deck deck --data . --punched punched",
        Unit::Data,
        Doing::Read,
        ErrorKind::IsADirectory,
    ),
    (
        "load --deck deck --keys . --punched punched",
        Unit::Keys,
        Doing::Read,
        ErrorKind::IsADirectory,
    ),
    (
        "load --deck deck --script . --punched punched",
        Unit::Script,
        Doing::Read,
        ErrorKind::IsADirectory,
    ),
    (
        "assemble --source . --object object",
        Unit::Source,
        Doing::Read,
        ErrorKind::IsADirectory,
    ),
    (
        "run --source . --image image",
        Unit::Source,
        Doing::Read,
        ErrorKind::IsADirectory,
    ),
    // a folder does not open for writing
    (
        "load --deck deck --pack .",
        Unit::Pack,
        Doing::Open,
        ErrorKind::IsADirectory,
    ),
    (
        "load --deck deck --punched .",
        Unit::Punched,
        Doing::Open,
        ErrorKind::IsADirectory,
    ),
    // a folder that does not exist, and a file instead of a folder
    (
        "load --deck deck --typed no_folder/typed",
        Unit::Typed,
        Doing::Open,
        ErrorKind::NotFound,
    ),
    (
        "load --deck deck --pack no_folder/pack",
        Unit::Pack,
        Doing::Open,
        ErrorKind::NotFound,
    ),
    (
        "assemble --source source --object no_folder/object",
        Unit::Object,
        Doing::Open,
        ErrorKind::NotFound,
    ),
    (
        "run --source source --image no_folder/image",
        Unit::Image,
        Doing::Open,
        ErrorKind::NotFound,
    ),
    (
        "load --deck deck --report deck/report",
        Unit::Report,
        Doing::Open,
        ErrorKind::NotADirectory,
    ),
    // a device that takes no byte
    (
        "run --source source --object /dev/full",
        Unit::Object,
        Doing::Write,
        ErrorKind::StorageFull,
    ),
    (
        "run --source source --image /dev/full",
        Unit::Image,
        Doing::Write,
        ErrorKind::StorageFull,
    ),
    (
        "load --deck deck --keys keys --punched /dev/full",
        Unit::Punched,
        Doing::Write,
        ErrorKind::StorageFull,
    ),
    (
        "load --deck deck --keys keys --typed /dev/full",
        Unit::Typed,
        Doing::Write,
        ErrorKind::StorageFull,
    ),
    (
        "load --deck deck --keys keys --typed typed --report /dev/full",
        Unit::Report,
        Doing::Write,
        ErrorKind::StorageFull,
    ),
];

#[test]
fn files_that_fail(rt: HostRuntime) -> Result<(), Fail> {
    write_files(&rt)?;
    fs::write(&rt, "deck", USES_ALL)?;
    for (line, unit, doing, kind) in FAILURES {
        let ended = failed(&rt, line)?;
        assert!(rt; ended.status == Status::HostFault, "{line}");
        assert!(rt; ended.system_error == Some((unit, doing, kind)), "{line}");
    }
    // the text that was typed before the report failed; the other outputs were given no byte
    assert!(rt; holds(&rt, "typed", b"12345")?);
    for name in ["object", "image", "punched", "report"] {
        assert!(rt; holds(&rt, name, OLD)?, "{name}");
    }
    Ok(())
}

// Words that name a file twice, the unit that is refused, and the unit that has the file.
const TWICE: [(&str, Unit, Unit); 8] = [
    (
        "run --source file --object file",
        Unit::Object,
        Unit::Source,
    ),
    ("run --source file --pack ./file", Unit::Pack, Unit::Source),
    (
        "run --source source --object file --image file",
        Unit::Image,
        Unit::Object,
    ),
    ("load --deck file --punched file", Unit::Punched, Unit::Deck),
    (
        "load --deck deck --keys file --pack file",
        Unit::Pack,
        Unit::Keys,
    ),
    (
        "load --deck deck --pack file --report file",
        Unit::Report,
        Unit::Pack,
    ),
    (
        "load --deck deck --typed file --report file",
        Unit::Report,
        Unit::Typed,
    ),
    (
        "load --deck deck --typed file --report ./file",
        Unit::Report,
        Unit::Typed,
    ),
];

#[test]
fn a_file_that_would_be_written_is_named_once(rt: HostRuntime) -> Result<(), Fail> {
    write_files(&rt)?;
    fs::write(&rt, "file", SOURCE)?;
    for (line, unit, other) in TWICE {
        let ended = failed(&rt, line)?;
        assert!(rt; ended.status == Status::HostFault, "{line}");
        assert!(rt; ended.refused == Some((unit, other)), "{line}");
        assert!(rt; holds(&rt, "file", SOURCE)?, "{line}");
    }
    Ok(())
}

// The card reads itself once more as the data, and halts.
#[test]
fn deck_and_data_may_be_one_file(rt: HostRuntime) -> Result<(), Fail> {
    let card = b"360008000500480000000000\n".as_slice();
    fs::write(&rt, "file", card)?;
    let status = answered(&rt, "load --deck file --data file")?;
    assert!(rt; status == Status::Halted { at: 12, steps: 2 });
    assert!(rt; holds(&rt, "file", card)?);
    Ok(())
}
