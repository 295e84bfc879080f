// Statements of every operation except HEAD, and the digits that they declare. Rows of `call_rows` show the operation of each mnemonic.
use crate::sources::{digits_text, program_of};
use instruction_table::{INSTRUCTIONS, OperandUse};
use std::alloc::Global;
use std::process::Abort;
use std::test::Fail;

// An operation, its operands, and the digits of the statement.
type Row = (&'static str, &'static str, &'static str);

// Each mnemonic that gives the whole Q.
const UNIQUE: [Row; 46] = [
    ("BH", "12345", "461234501100"),
    ("BP", "12345", "461234501100"),
    ("BNH", "12345", "471234501100"),
    ("BNP", "12345", "471234501100"),
    ("BE", "12345", "461234501200"),
    ("BZ", "12345", "461234501200"),
    ("BNE", "12345", "471234501200"),
    ("BNZ", "12345", "471234501200"),
    ("BNL", "12345", "461234501300"),
    ("BNN", "12345", "461234501300"),
    ("BL", "12345", "471234501300"),
    ("BN", "12345", "471234501300"),
    ("BV", "12345", "461234501400"),
    ("BNV", "12345", "471234501400"),
    ("BA", "12345", "461234501900"),
    ("BNA", "12345", "471234501900"),
    ("BC1", "12345", "461234500100"),
    ("BC2", "12345", "461234500200"),
    ("BC3", "12345", "461234500300"),
    ("BC4", "12345", "461234500400"),
    ("BNC1", "12345", "471234500100"),
    ("BNC2", "12345", "471234500200"),
    ("BNC3", "12345", "471234500300"),
    ("BNC4", "12345", "471234500400"),
    ("BLC", "12345", "461234500900"),
    ("BNLC", "12345", "471234500900"),
    ("DNTY", "12345", "351234500100"),
    ("RNTY", "12345", "361234500100"),
    ("RATY", "12345", "371234500100"),
    ("WNTY", "12345", "381234500100"),
    ("WATY", "12345", "391234500100"),
    ("RNCD", "12345", "361234500500"),
    ("RACD", "12345", "371234500500"),
    ("DNCD", "12345", "351234500400"),
    ("WNCD", "12345", "381234500400"),
    ("WACD", "12345", "391234500400"),
    ("SPTY", "12345", "341234500101"),
    ("RCTY", "12345", "341234500102"),
    ("TBTY", "12345", "341234500108"),
    ("SK", "12345", "341234500701"),
    ("RDGN", "12345", "361234500700"),
    ("CDGN", "12345", "361234500701"),
    ("RDN", "12345", "361234500702"),
    ("CDN", "12345", "361234500703"),
    ("WDGN", "12345", "381234500700"),
    ("WDN", "12345", "381234500702"),
];

// Operands that are left out, that are negative or have to be calculated, and flag parts. The location is 500.
const OPERANDS: [Row; 24] = [
    ("RCTY", "", "340000000102"),
    ("NOP", "", "410000000000"),
    ("AM", "", "1100000]0000"),
    ("BTM", " , ,", "1700000]0000"),
    ("B", " 1 2 ", "490001200000"),
    ("TF", ",99999", "260000099999"),
    ("TF", "-12345,-678", "261234N0067Q"),
    ("AM", "-10,-10", "110001]]001]"),
    ("BI", "-99999", "469999R00000"),
    // a zero has no sign
    ("TF", "-0,0-0", "260000000000"),
    // products come before sums, and both go from the left
    ("TF", "10-2-3,-2*3+10", "260000500004"),
    ("TF", "2+3*4,2*3*4-5*0", "260001400024"),
    ("TF", "*+12,*", "260051200500"),
    ("TF", "**2,***-249999", "260100000001"),
    ("TF", "50000+49999,007", "269999900007"),
    // a flag part replaces the flag on Q7
    ("AM", "12345,678,11", "11123450067Q"),
    ("CM", "12345,-678,0", "J4123450067Q"),
    ("14", "1,2,7", "1400001]0002"),
    // two flags on one digit are one
    ("TF", "-5,-5,611", "260000N0000N"),
    ("WNTY", "12345,,10", "3812345001]0"),
    ("H", ",,01234567891011", "MQ]]]]]]]]]]"),
    ("H", ",,1 0 1 1", "4800000000]]"),
    // a remark follows the flag part
    ("TF", "1,2,,9", "260000100002"),
    ("BH", "1,,,MORE", "460000101100"),
];

// Each declarative except HEAD and DEND; a DEND follows every row. The location is 500.
const DECLARATIVES: [Row; 41] = [
    ("DS", "5", ""),
    ("DS", "5,600", ""),
    ("DS", ",600", ""),
    ("DSS", "5", ""),
    ("DAS", "5", ""),
    ("DSB", "5,10", ""),
    ("DORG", "700", ""),
    // the leftmost digit has a flag, but a single digit has none
    ("DC", "5,12", "]0012"),
    ("DC", "2,12", "J2"),
    ("DC", "1,7", "7"),
    // a minus is a flag on the rightmost digit
    ("DC", "5,-12", "]001K"),
    ("DC", "1,-7", "P"),
    ("DC", "3,+1 2,600", "]12"),
    ("DC", "2,-0", "]]"),
    // record marks
    ("DC", "4,12@", "]12|"),
    ("DC", "2,@1", "!1"),
    ("DC", "1,-@", "!"),
    (
        "DC",
        "50,1",
        "]0000000000000000000000000000000000000000000000001",
    ),
    ("DSC", "5,12", "00012"),
    ("DSC", "5,-12,600", "0001K"),
    ("DSC", "3,1@2", "1|2"),
    // the characters of a text
    ("DAC", "5,HELLO", "M845535356"),
    ("DAC", "5,A,B C", "M123420043"),
    ("DAC", "2,AB,601", "M142"),
    ("DAC", "2,AB,,MORE", "M142"),
    ("DAC", "2,ABMORE", "M142"),
    ("DAC", "3,A", "M10000"),
    ("DAC", "01,", "]0"),
    ("DAC", "10,0123456789", "P0717273747576777879"),
    ("DAC", "12, .)+$*-/,(=@", "]0030410131420212324330|"),
    ("DAC", "13,ABCDEFGHIJKLM", "M1424344454647484951525354"),
    ("DAC", "13,NOPQRSTUVWXYZ", "N5565758596263646566676869"),
    // addresses have a flag on the leftmost digit, and on their units if they are negative
    ("DSA", "500", "]0500"),
    ("DSA", "1,-2,99999", "]0001]000KR9999"),
    ("DSA", "*,-*,,4", "]0500]050]"),
    (
        "DSA",
        "1,2,3,4,5,6,7,8,9,10,11",
        "]0001]0002]0003]0004]0005]0006]0007]0008]0009]0010",
    ),
    ("DNB", "3", "@@@"),
    ("DGM", "", "}"),
    ("DGM", "600", "}"),
    ("DDA", "1,200,2,700", "10020000200700"),
    ("DDA", "9,19999,199,99999", "91999919999999"),
];

// Checks a statement after a DORG, and before a halt to start at and the end, which is a DEND.
fn stands(
    rt: &impl Abort,
    alloc: Global,
    line: &str,
    digits: &str,
    instruction: bool,
) -> Result<(), Fail> {
    let lines = ["      DORG500", line, "START H", "      DENDSTART"];
    let program = program_of(alloc, &lines)?;
    let placed = program.placed.as_slice();
    assert!(rt; placed.len() == 4, "{line}");
    let shown = digits_text(alloc, placed[1].digits.as_slice())?;
    assert!(rt; shown.as_str() == digits, "{line}");
    assert!(rt; placed[1].instruction == instruction, "{line}");
    assert!(rt; placed[3].digits.as_slice().is_empty(), "{line}");
    assert!(rt; !placed[3].instruction, "{line}");
    Ok(())
}

fn stand(rt: &impl Abort, alloc: Global, rows: &[Row], instruction: bool) -> Result<(), Fail> {
    for (operation, operands, digits) in rows {
        let line = format!(in alloc; "      {operation:<4}{operands}")?;
        stands(rt, alloc, line.as_str(), digits, instruction)?;
    }
    Ok(())
}

// Checks each instruction of the table, by its mnemonic and by its opcode; a field in Q has a flag on Q7.
fn instructions_stand(rt: &impl Abort, alloc: Global) -> Result<(), Fail> {
    for (mnemonic, row) in &INSTRUCTIONS {
        let opcode = row.0;
        let q7 = if row.2 == OperandUse::Field { ']' } else { '0' };
        let digits = format!(in alloc; "{opcode}12345{q7}0678")?;
        let by_name = format!(in alloc; "      {mnemonic:<4}12345,678")?;
        let by_code = format!(in alloc; "      {opcode}  12345,678")?;
        stands(rt, alloc, by_name.as_str(), digits.as_str(), true)?;
        stands(rt, alloc, by_code.as_str(), digits.as_str(), true)?;
    }
    Ok(())
}

#[test]
fn operations(rt: HostRuntime) -> Result<(), Fail> {
    instructions_stand(&rt, rt.alloc())?;
    stand(&rt, rt.alloc(), &UNIQUE, true)?;
    stand(&rt, rt.alloc(), &OPERANDS, true)?;
    stand(&rt, rt.alloc(), &DECLARATIVES, false)?;
    Ok(())
}
