// Lines by their columns: label, operation, parts and remark.
use line_words::trimmed;
use sps_scan::{Shape, Statement, scan, short_number};

// A line, its label, its operation, its remark and its parts.
type Row = (
    &'static [u8],
    &'static [u8],
    &'static [u8],
    &'static [u8],
    &'static [&'static [u8]],
);

// The texts of a line that is no statement.
const NO_TEXTS: [&[u8]; 3] = [b"", b"", b""];

// Whether these are the parts of a statement, and the slices after them are empty.
fn has_parts(s: &Statement<'_>, parts: &[&[u8]]) -> bool {
    for (part, wanted) in s.parts.iter().zip(parts) {
        if *part != *wanted {
            return false;
        }
    }
    for part in &s.parts[s.count..] {
        if !part.is_empty() {
            return false;
        }
    }
    s.count == parts.len()
}

// Whether a line has this shape, and is read as these texts and these parts.
fn reads(line: &[u8], shape: Shape, texts: [&[u8]; 3], parts: &[&[u8]]) -> bool {
    let s = scan(line);
    s.shape == shape
        && s.label == texts[0]
        && s.operation == texts[1]
        && s.remark == texts[2]
        && has_parts(&s, parts)
}

const COLUMN_ROWS: [Row; 4] = [
    (
        b"      START TF  A,B,,MOVE,IT",
        b" START",
        b" TF ",
        b"MOVE,IT",
        &[b" A", b"B", b""],
    ),
    (
        b"     START TF  A,B,,MOVE,IT",
        b"START ",
        b"TF  ",
        b"MOVE,IT",
        &[b"A", b"B", b""],
    ),
    // Columns 1 to 5 are free.
    (
        b"12\xffa*TOTAL DC  8,0",
        b"TOTAL ",
        b"DC  ",
        b"",
        &[b"8", b"0"],
    ),
    // A line without operands has one part, which is empty.
    (b"           H", b"      ", b"H", b"", &[b""]),
];

#[test]
fn columns_decide_and_not_words(rt: HostRuntime) {
    for &(line, label, operation, remark, parts) in &COLUMN_ROWS {
        assert!(rt; reads(line, Shape::Plain, [label, operation, remark], parts));
    }
}

// A line without a label, its operation, its remark and its parts.
const GREATEST_NUMBERS: [(&[u8], &[u8], &[u8], &[&[u8]]); 18] = [
    (
        b"           DSA A,B,C,D,E,F,G,H,I,J,K,L",
        b"DSA ",
        b"K,L",
        &[b"A", b"B", b"C", b"D", b"E", b"F", b"G", b"H", b"I", b"J"],
    ),
    (
        b"           DDA 1,2,3,4,5,6",
        b"DDA ",
        b"5,6",
        &[b"1", b"2", b"3", b"4"],
    ),
    (b"           DC  1,2,3,4,5", b"DC  ", b"4,5", THREE),
    (b"           DSC 1,2,3,4,5", b"DSC ", b"4,5", THREE),
    (b"           DSB 1,2,3,4,5", b"DSB ", b"4,5", THREE),
    (b"           A   1,2,3,4,5", b"A   ", b"4,5", THREE),
    (b"           ZZ  1,2,3,4,5", b"ZZ  ", b"4,5", THREE),
    (b"               1,2,3,4,5", b"    ", b"4,5", THREE),
    (b"           DS  1,2,3", b"DS  ", b"3", TWO),
    (b"            DS 1,2,3", b" DS ", b"3", TWO),
    (b"             DS1,2,3", b"  DS", b"3", TWO),
    (b"           DSS 1,2,3", b"DSS ", b"3", TWO),
    (b"           DAS 1,2,3", b"DAS ", b"3", TWO),
    (b"           DNB 1,2,3", b"DNB ", b"3", TWO),
    (b"           HEAD1,2,3,4,5", b"HEAD", b"4,5", THREE),
    (b"           DGM 1,2,3", b"DGM ", b"2,3", &[b"1"]),
    (b"           DORG1,2,3", b"DORG", b"2,3", &[b"1"]),
    (b"           DEND1,2,3", b"DEND", b"2,3", &[b"1"]),
];

const THREE: &[&[u8]] = &[b"1", b"2", b"3"];

const TWO: &[&[u8]] = &[b"1", b"2"];

#[test]
fn an_operation_has_its_greatest_number_of_parts(rt: HostRuntime) {
    for &(line, operation, remark, parts) in &GREATEST_NUMBERS {
        assert!(rt; reads(line, Shape::Plain, [b"      ", operation, remark], parts));
    }
}

// A line whose label is TEXT and whose operation is DAC, its remark and its parts.
const DAC_ROWS: [(&[u8], &[u8], &[&[u8]]); 14] = [
    (b"     TEXT  DAC 5,A,B C", b"", &[b"5", b"A,B C"]),
    (
        b"     TEXT  DAC 05,A,B C,500",
        b"",
        &[b"05", b"A,B C", b"500"],
    ),
    (
        b"     TEXT  DAC 2,,,,500,NO,TE",
        b"NO,TE",
        &[b"2", b",,", b"500"],
    ),
    (b"     TEXT  DAC 2,ABNO,TE", b"NO,TE", &[b"2", b"AB"]),
    (b"     TEXT  DAC 0,,,NO,TE", b"NO,TE", &[b"0", b"", b""]),
    // If the length is not a number of one or two digits, the text is empty.
    (b"     TEXT  DAC N,NO,TE", b"NO,TE", &[b"N", b""]),
    (b"     TEXT  DAC  ,NO,TE", b"NO,TE", &[b" ", b""]),
    (b"     TEXT  DAC +,NO,TE", b"NO,TE", &[b"+", b""]),
    (b"     TEXT  DAC 005,NO,TE", b"NO,TE", &[b"005", b""]),
    (b"     TEXT  DAC 5 ,NO,TE", b"NO,TE", &[b"5 ", b""]),
    (b"     TEXT  DAC ,NO,TE", b"NO,TE", &[b"", b""]),
    // The line ends before the text does, or at once.
    (b"     TEXT  DAC 50,A,B", b"", &[b"50", b"A,B"]),
    (b"     TEXT  DAC 5,", b"", &[b"5", b""]),
    (b"     TEXT  DAC 5", b"", &[b"5"]),
];

#[test]
fn the_text_of_a_dac_has_its_columns(rt: HostRuntime) {
    for &(line, remark, parts) in &DAC_ROWS {
        assert!(rt; reads(line, Shape::Plain, [b"TEXT  ", b"DAC ", remark], parts));
    }
}

// 81 bytes; column 16 is a 0, and the columns up to 75 go on counting.
const LINE: &[u8] =
    b"00001TOTAL DC  012345678901234567890123456789012345678901234567890123456789NOTES!";

// Columns 16 to 75 of it.
const OPERANDS: &[u8] = b"012345678901234567890123456789012345678901234567890123456789";

// How many bytes of the line are read, and its shape.
const WITHOUT_TEXTS: [(usize, Shape); 3] = [
    (0, Shape::Blank),
    (5, Shape::Blank),
    (81, Shape::Long),
];

// How many bytes of the line are read, its label, its operation and its only part. It has no remark.
const BEGINNINGS: [(usize, &[u8], &[u8], &[u8]); 7] = [
    (6, b"T", b"", b""),
    (12, b"TOTAL ", b"D", b""),
    (15, b"TOTAL ", b"DC  ", b""),
    (16, b"TOTAL ", b"DC  ", b"0"),
    (75, b"TOTAL ", b"DC  ", OPERANDS),
    (76, b"TOTAL ", b"DC  ", OPERANDS),
    (80, b"TOTAL ", b"DC  ", OPERANDS),
];

// Whether this number of bytes of the line gives this shape, these texts and these parts.
fn begins(len: usize, shape: Shape, texts: [&[u8]; 3], parts: &[&[u8]]) -> bool {
    len <= LINE.len() && reads(&LINE[..len], shape, texts, parts)
}

#[test]
fn a_line_is_read_as_far_as_it_goes(rt: HostRuntime) {
    for &(len, shape) in &WITHOUT_TEXTS {
        assert!(rt; begins(len, shape, NO_TEXTS, &[]));
    }
    for &(len, label, operation, part) in &BEGINNINGS {
        assert!(rt; begins(len, Shape::Plain, [label, operation, b""], &[part]));
    }
}

const COMMENTS_AND_BLANKS: [(&[u8], Shape); 7] = [
    (b"     *PAYROLL", Shape::Comment),
    (b"00001*\xff#,,", Shape::Comment),
    (b"     *", Shape::Comment),
    (b"          ", Shape::Blank),
    (b"00001     ", Shape::Blank),
    (
        b"12345                                                                      12345",
        Shape::Blank,
    ),
    (
        b"     *                                                                           ",
        Shape::Long,
    ),
];

#[test]
fn a_comment_and_a_blank_have_no_texts(rt: HostRuntime) {
    for &(line, shape) in &COMMENTS_AND_BLANKS {
        assert!(rt; reads(line, shape, NO_TEXTS, &[]));
    }
}

// A remark may have any bytes.
const ALLOWED: [Row; 3] = [
    (
        b"     AZ09.)+$*-/(= @ ()",
        b"AZ09.)",
        b"+$*-",
        b"",
        &[b"/(= @ ()"],
    ),
    (
        b"     TOTAL DC  5,0,,#'\xff",
        b"TOTAL ",
        b"DC  ",
        b"#'\xff",
        &[b"5", b"0", b""],
    ),
    (
        b"     TEXT  DAC 1,A#",
        b"TEXT  ",
        b"DAC ",
        b"#",
        &[b"1", b"A"],
    ),
];

const NOT_ALLOWED: [Row; 5] = [
    (b"     a     H", b"a     ", b"H", b"", &[b""]),
    (b"     TOTAL d", b"TOTAL ", b"d", b"", &[b""]),
    (
        b"     TOTAL DC  5,'5'",
        b"TOTAL ",
        b"DC  ",
        b"",
        &[b"5", b"'5'"],
    ),
    (b"     TOTAL DC  \t5", b"TOTAL ", b"DC  ", b"", &[b"\t5"]),
    (
        b"     TEXT  DAC 3,A#B",
        b"TEXT  ",
        b"DAC ",
        b"",
        &[b"3", b"A#B"],
    ),
];

#[test]
fn characters_of_labels_operations_and_parts(rt: HostRuntime) {
    for &(line, label, operation, remark, parts) in &ALLOWED {
        assert!(rt; reads(line, Shape::Plain, [label, operation, remark], parts));
    }
    for &(line, label, operation, remark, parts) in &NOT_ALLOWED {
        assert!(rt; reads(line, Shape::BadColumn, [label, operation, remark], parts));
    }
}

#[test]
fn blanks_at_both_ends_are_dropped(rt: HostRuntime) {
    let rows: [(&[u8], &[u8]); 6] = [
        (b"", b""),
        (b"   ", b""),
        (b"A", b"A"),
        (b" TF ", b"TF"),
        (b"  A  B", b"A  B"),
        (b"\tA\t ", b"\tA\t"),
    ];
    for (text, wanted) in rows {
        assert!(rt; trimmed(text) == wanted);
    }
}

#[test]
fn numbers_of_one_or_two_digits(rt: HostRuntime) {
    let rows: [(&[u8], Option<u8>); 10] = [
        (b"0", Some(0)),
        (b"9", Some(9)),
        (b"05", Some(5)),
        (b"50", Some(50)),
        (b"99", Some(99)),
        (b"", None),
        (b"005", None),
        (b"5 ", None),
        (b"-5", None),
        (b"N", None),
    ];
    for (text, wanted) in rows {
        assert!(rt; short_number(text) == wanted);
    }
}
