// The images, the starts and the placed statements of short sources.
use crate::sources::{digits_text, image_text, program_of};
use std::alloc::Global;
use std::process::Abort;
use std::test::Fail;

// A source, its image with a line for each piece, how many digits the image has, and the start.
type ImageRow = (&'static [&'static str], &'static str, u32, u32);

const IMAGES: [ImageRow; 15] = [
    // a halt and a record mark
    (
        &[
            "START H",
            "      DORG500",
            "      DSC 1,@",
            "      DENDSTART",
        ],
        "00402 480000000000\n00500 |\n",
        13,
        402,
    ),
    // the last statement that declares an address counts
    (
        &["START H", "      DORG402", "      NOP", "      DENDSTART"],
        "00402 410000000000\n",
        12,
        402,
    ),
    (
        &["START H", "      DSC 1,9,START", "      DENDSTART"],
        "00402 980000000000\n",
        12,
        402,
    ),
    (
        &[
            "START H",
            "      DC  3,12,413",
            "      DSC 1,8,412",
            "      DENDSTART",
        ],
        "00402 480000000]82\n",
        12,
        402,
    ),
    // a field with an address of its own, up to the last position of core
    (
        &["      DC  2,7,19999", "START H", "      DENDSTART"],
        "00402 480000000000\n19998 ]7\n",
        14,
        402,
    ),
    // flags on 10 and 11, and on 1 and 10
    (
        &["START TF  5,6,1011", "      DENDSTART"],
        "00402 2600005000]O\n",
        12,
        402,
    ),
    (
        &["START TF  5,6,110", "      DENDSTART"],
        "00402 2O00005000]6\n",
        12,
        402,
    ),
    // a program of two pieces
    (
        &[
            "START TF  SUM,ONE",
            "      H",
            "ONE   DC  3,1",
            "SUM   DS  4",
            "TEXT  DAC 3,YES",
            "      DENDSTART",
        ],
        "00402 260043200428480000000000]01\n00434 O84562\n",
        33,
        402,
    ),
    // pieces rise, whatever the order of their statements; without a gap they are one
    (
        &[
            "      DC  3,2,505",
            "      DC  3,1,502",
            "      DGM 507",
            "START H",
            "      DENDSTART",
        ],
        "00402 480000000000\n00500 ]01]02\n00507 }\n",
        19,
        402,
    ),
    // digits that are only set aside are not declared
    (
        &[
            "      DS  98",
            "START H",
            "      DSB 3,3",
            "      DAS 2",
            "      DSC 1,1",
            "      DENDSTART",
        ],
        "00500 480000000000\n00526 1\n",
        13,
        500,
    ),
    // the first and the last position
    (
        &["      DGM 400", "      DSC 1,9,19999", "      DEND400"],
        "00400 }\n19999 9\n",
        2,
        400,
    ),
    // no digits at all, and the highest start
    (&["      DEND19988"], "", 0, 19_988),
    // the location of an instruction and of a declarative
    (
        &[
            "      DC  1,7",
            "START B   *+12",
            "      DSA *,START,-START",
            "      DENDSTART",
        ],
        "00402 7\n00404 490041600000]0416]0404]040M\n",
        28,
        404,
    ),
    // an expression for each operand
    (
        &[
            "N     DS  ,3",
            "START TF  *+2*N, - START + 7, 7 ",
            "X     DC  N*2-1, - 1 2,N*200+1",
            "      BH  X-100+N",
            "      DENDSTART",
        ],
        "00402 2600408]039N460050401100\n00597 ]001K\n",
        29,
        402,
    ),
    // comments, blank lines and remarks change nothing
    (
        &[
            "*A COMMENT",
            "",
            "START AM  1,2,,A REMARK, AND MORE",
            "      BH  ,,11,AND ONE HERE",
            "      DEND402,THE END",
        ],
        "00402 1100001]000246000000110]\n",
        24,
        402,
    ),
];

fn come_out(rt: &impl Abort, alloc: Global, rows: &[ImageRow]) -> Result<(), Fail> {
    for (lines, text, digits, start) in rows {
        let program = program_of(alloc, lines)?;
        let shown = image_text(alloc, &program.image)?;
        assert!(rt; shown.as_str() == *text);
        assert!(rt; program.image.digits() == *digits, "{text}");
        assert!(rt; program.start == *start, "{text}");
    }
    Ok(())
}

#[test]
fn images(rt: HostRuntime) -> Result<(), Fail> {
    come_out(&rt, rt.alloc(), &IMAGES)
}

// A statement, its address, whether it is an instruction, and its digits.
type PlacedRow = (&'static str, i64, bool, &'static str);

const SHORT: [PlacedRow; 5] = [
    ("*A COMMENT", 402, false, ""),
    ("START H", 402, true, "480000000000"),
    ("", 414, false, ""),
    ("X     DC  2,9", 415, false, "]9"),
    ("      DENDSTART", 416, false, ""),
];

// An instruction, a DAS and a DAC go on to the next even location; a field with an address of its own leaves the location.
const EACH_WAY: [PlacedRow; 16] = [
    ("      DC  1,7", 402, false, "7"),
    ("*A COMMENT", 403, false, ""),
    ("START H", 404, true, "480000000000"),
    ("      DAC 1,A", 417, false, "M1"),
    ("      DSC 2,5,600", 600, false, "05"),
    ("      DSA 1,2", 422, false, "]0001]0002"),
    ("      DSB 3,2", 430, false, ""),
    ("      DNB 3", 436, false, "@@@"),
    ("      DAS *-435", 439, false, ""),
    ("      DSS 4", 442, false, ""),
    ("      DS  ,7", 7, false, ""),
    ("      DDA 1,2,3,4", 446, false, "10000200300004"),
    ("      DGM", 460, false, "}"),
    ("      DORG701", 701, false, ""),
    ("      26", 702, true, "260000000000"),
    ("      DENDSTART", 714, false, ""),
];

// X is worth 414 + 99,999 * 99,999, which is 9,999,800,415.
const FAR: [PlacedRow; 4] = [
    ("START H", 402, true, "480000000000"),
    ("      DSB 99999,99999", 100_412, false, ""),
    ("X     DS  1", 9_999_800_415, false, ""),
    ("      DENDSTART", 9_999_800_416, false, ""),
];

fn stand(rt: &impl Abort, alloc: Global, rows: &[PlacedRow]) -> Result<(), Fail> {
    let mut lines = Vec::new(alloc);
    for row in rows {
        lines.push(row.0)?;
    }
    let program = program_of(alloc, &lines)?;
    let placed = program.placed.as_slice();
    assert!(rt; placed.len() == rows.len());
    for i in 0..rows.len() {
        let (line, address, instruction, digits) = rows[i];
        let shown = digits_text(alloc, placed[i].digits.as_slice())?;
        assert!(rt; placed[i].address == address, "{line}");
        assert!(rt; placed[i].instruction == instruction, "{line}");
        assert!(rt; shown.as_str() == digits, "{line}");
    }
    Ok(())
}

#[test]
fn placed_statements(rt: HostRuntime) -> Result<(), Fail> {
    stand(&rt, rt.alloc(), &SHORT)?;
    stand(&rt, rt.alloc(), &EACH_WAY)?;
    stand(&rt, rt.alloc(), &FAR)?;
    Ok(())
}
