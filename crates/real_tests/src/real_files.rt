// The program over real files, in the folder where the test runs.
use crate::jobs::{answered, holds};
use ibm1620_cli::{Status, generate};
use std::fs;
use std::test::Fail;

// Seeks cylinder 0, writes the card itself to sector 5, and halts.
const WRITES: &[u8] = b"34000360070138000360070248000000000010000500100000";

// A halt at the program's start.
const HALT: &[u8] = b"     START H\n           DENDSTART\n";

// The pack's file ends before the sector: it is filled up with zeros, and its old bytes stay.
#[test]
fn a_sector_goes_to_a_shorter_pack(rt: HostRuntime) -> Result<(), Fail> {
    fs::write(&rt, "deck", WRITES)?;
    fs::write(&rt, "pack", [b'7'; 30].as_slice())?;
    let status = answered(&rt, "load --deck deck --pack pack --report report")?;
    assert!(rt; status == Status::Halted { at: 24, steps: 3 });
    let mut want = [b'0'; 600];
    want[..30].fill(b'7');
    want[500..550].copy_from_slice(WRITES);
    assert!(rt; holds(&rt, "pack", &want)?);
    assert!(rt; holds(&rt, "report", b"HALT 00024 STEPS 3\n")?);
    Ok(())
}

// The output's file has lost its old bytes.
#[test]
fn an_image_goes_to_its_file(rt: HostRuntime) -> Result<(), Fail> {
    fs::write(&rt, "source", HALT)?;
    fs::write(&rt, "image", [b'7'; 30].as_slice())?;
    let status = answered(&rt, "assemble --image image --source source --report said")?;
    assert!(rt; status.code() == 0);
    assert!(rt; holds(&rt, "image", b"00402 480000000000\n")?);
    assert!(rt; holds(&rt, "said", b"ASSEMBLED STATEMENTS 2 DIGITS 12 CARDS 33\n")?);
    Ok(())
}

// An object deck goes to its file, and a second job loads it from there: the loader's 133 steps, and the halt.
#[test]
fn an_object_deck_is_loaded_from_its_file(rt: HostRuntime) -> Result<(), Fail> {
    let source =
        b"     START H\n           DORG500\n           DSC 1,@\n           DENDSTART\n".as_slice();
    fs::write(&rt, "source_loaded", source)?;
    let assembled = answered(
        &rt,
        "assemble --source source_loaded --object object --report said",
    )?;
    assert!(rt; assembled.code() == 0);
    assert!(rt; fs::read(&rt, "object")?.len() == 34 * 81);
    let loaded = answered(&rt, "load --deck object --report said")?;
    assert!(rt;
        loaded
            == Status::Halted {
                at: 402,
                steps: 134
            }
    );
    Ok(())
}

// The job and the call make the same source.
#[test]
fn a_made_source_goes_to_its_file(rt: HostRuntime) -> Result<(), Fail> {
    let status = answered(
        &rt,
        "generate --statements 10 --number 1 --made made --report said",
    )?;
    assert!(rt; status == Status::Generated { statements: 10 });
    let source = generate(rt.alloc(), 10, 1)?;
    assert!(rt; source.starts_with(b"     START CM  SUM,612\n"));
    assert!(rt; holds(&rt, "made", source.as_slice())?);
    Ok(())
}

// A source that does not exist is a fault of the host.
#[test]
fn a_source_that_is_not_there(rt: HostRuntime) -> Result<(), Fail> {
    assert!(rt; answered(&rt, "assemble --source nowhere")? == Status::HostFault);
    Ok(())
}

// A job that fails at the report's file, after the files of Object and Image were bound, leaves these two as they were.
#[test]
fn a_job_that_fails_leaves_old_outputs(rt: HostRuntime) -> Result<(), Fail> {
    let before = b"of before".as_slice();
    fs::write(&rt, "source_kept", HALT)?;
    fs::write(&rt, "object_kept", before)?;
    fs::write(&rt, "image_kept", before)?;
    let failed = answered(
        &rt,
        "assemble --source source_kept --object object_kept --image image_kept --report no_folder/said",
    )?;
    assert!(rt; failed == Status::HostFault);
    for name in ["object_kept", "image_kept"] {
        assert!(rt; holds(&rt, name, before)?, "{name}");
    }
    Ok(())
}

// A source whose file is also named for an output stays whole.
#[test]
fn a_source_is_not_written_over(rt: HostRuntime) -> Result<(), Fail> {
    fs::write(&rt, "source_twice", HALT)?;
    for line in [
        "assemble --source source_twice --object source_twice",
        "assemble --source source_twice --image source_twice",
        "assemble --source source_twice --report source_twice",
    ] {
        assert!(rt; answered(&rt, line)? == Status::HostFault, "{line}");
        assert!(rt; holds(&rt, "source_twice", HALT)?, "{line}");
    }
    Ok(())
}
