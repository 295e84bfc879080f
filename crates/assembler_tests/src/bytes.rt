// Sources of any bytes: how they are cut into lines, and which columns of a line matter.
use crate::sources::{HALT_AND_END, Refused, refusal, source_of};
use sps_ops::Rule;
use std::alloc::Global;
use std::process::Abort;
use std::test::Fail;

const SOURCES: [(&[u8], Refused); 20] = [
    (b"", Some((1, Rule::NoEnd))),
    (b"\n", Some((2, Rule::NoEnd))),
    (b"\n\n", Some((3, Rule::NoEnd))),
    // the last line may have no end, and one CR at the end of a line is dropped
    (b"     START H\n           DENDSTART\n", None),
    (b"     START H\n           DENDSTART", None),
    (b"     START H\r\n           DENDSTART\r\n", None),
    (b"     START H\r\n           DENDSTART\r", None),
    (b"     START H\n           DENDSTART\n\n\r\n", None),
    (b"     START H\r\r\n", Some((1, Rule::BadColumn))),
    (
        b"     START H\r           DENDSTART\n",
        Some((1, Rule::BadColumn)),
    ),
    // columns 1 to 5, comments and remarks may have any bytes
    (b"\x00", Some((2, Rule::NoEnd))),
    (b"\xff\xfe\xfd", Some((2, Rule::NoEnd))),
    (b"     *\x00\xff\t\n", Some((2, Rule::NoEnd))),
    (b"\x00\xff]a}START H\n           DENDSTART\n", None),
    (
        b"     START H   ,,,\x00\xff\t\r\n           DENDSTART\n",
        None,
    ),
    (b"           DEND402\n\x00\x00\x00\x00\x00", None),
    (
        b"           DEND402\n\x00\x00\x00\x00\x00\x00",
        Some((2, Rule::BadColumn)),
    ),
    (b"           DEND402\x00\n", Some((1, Rule::BadColumn))),
    (b"     \x00\n", Some((1, Rule::BadColumn))),
    (b"\tSTART\tH\n", Some((1, Rule::BadColumn))),
];

// The length of a comment with small letters, in bytes, the end of its line, and its refusal.
const LENGTHS: [(usize, &[u8], Refused); 7] = [
    (79, b"\n", None),
    (80, b"\n", None),
    (80, b"\r\n", None),
    (79, b"\r\r\n", None),
    (81, b"\n", Some((1, Rule::LongCard))),
    (81, b"\r\n", Some((1, Rule::LongCard))),
    (80, b"\r\r\n", Some((1, Rule::LongCard))),
];

// A column of a card with a halt, and the refusal of a small letter there.
const COLUMNS: [(usize, Refused); 11] = [
    (1, None),
    (5, None),
    (6, Some((1, Rule::BadColumn))),
    (11, Some((1, Rule::BadColumn))),
    (12, Some((1, Rule::BadColumn))),
    (13, Some((1, Rule::BadColumn))),
    (15, Some((1, Rule::BadColumn))),
    (16, Some((1, Rule::BadColumn))),
    (75, Some((1, Rule::BadColumn))),
    (76, None),
    (80, None),
];

fn sources_stand(rt: &impl Abort, alloc: Global, rows: &[(&[u8], Refused)]) -> Result<(), Fail> {
    for (source, want) in rows {
        let found = refusal(alloc, source)?;
        assert!(rt; found == *want, "{source:?}");
    }
    Ok(())
}

fn lengths_stand(
    rt: &impl Abort,
    alloc: Global,
    rows: &[(usize, &[u8], Refused)],
) -> Result<(), Fail> {
    let behind = source_of(alloc, HALT_AND_END)?;
    for (length, end, want) in rows {
        let mut source = Vec::new(alloc);
        source.extend_from_slice(b"     *")?;
        for _ in 6..*length {
            source.push(b'x')?;
        }
        source.extend_from_slice(end)?;
        source.extend_from_slice(&behind)?;
        let found = refusal(alloc, &source)?;
        assert!(rt; found == *want, "{length} bytes and {end:?}");
    }
    Ok(())
}

// Column 12 has the halt's H.
fn columns_stand(rt: &impl Abort, alloc: Global, rows: &[(usize, Refused)]) -> Result<(), Fail> {
    let behind = source_of(alloc, HALT_AND_END)?;
    for (column, want) in rows {
        let mut source = Vec::new(alloc);
        for i in 1..=80usize {
            let byte = if i == *column {
                b'x'
            } else if i == 12 {
                b'H'
            } else {
                b' '
            };
            source.push(byte)?;
        }
        source.push(b'\n')?;
        source.extend_from_slice(&behind)?;
        let found = refusal(alloc, &source)?;
        assert!(rt; found == *want, "column {column}");
    }
    Ok(())
}

#[test]
fn sources_of_any_bytes(rt: HostRuntime) -> Result<(), Fail> {
    sources_stand(&rt, rt.alloc(), &SOURCES)?;
    lengths_stand(&rt, rt.alloc(), &LENGTHS)?;
    columns_stand(&rt, rt.alloc(), &COLUMNS)?;
    Ok(())
}
