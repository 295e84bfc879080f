// The tables of operations, and the look-up of an operation.
ghost use Rattle.std.specs.Prelude.{◌≡◌, ◌<◌, map, length, IfSome, Some};
ghost use Rattle.line_words.specs.Rows.{row_from_table, value_by_name, EachRowStandsFor, HasRow};
ghost use Rattle.line_words.specs.Blanks.{trimmed};
ghost use Rattle.sps_ops.specs.Operations.{lookup, operations, plain_operation, whole, opcodes, by_digits, two_digit_text, mnemonics, unique_mnemonics, declaratives, unique_in_code, declared_in_code, declared};

use crate::{Declarative, Operation};
use instruction_table::{INSTRUCTIONS, InstructionRow, OperandUse};
use line_words::{find, trimmed};

// The unique mnemonics, each with its opcode and its whole Q.
static UNIQUE_MNEMONICS: [(&str, (u8, u32)); 46] = [
    // Branches by a result.
    ("BH", (46, 1100)),
    ("BP", (46, 1100)),
    ("BNH", (47, 1100)),
    ("BNP", (47, 1100)),
    ("BE", (46, 1200)),
    ("BZ", (46, 1200)),
    ("BNE", (47, 1200)),
    ("BNZ", (47, 1200)),
    ("BNL", (46, 1300)),
    ("BNN", (46, 1300)),
    ("BL", (47, 1300)),
    ("BN", (47, 1300)),
    ("BV", (46, 1400)),
    ("BNV", (47, 1400)),
    // Branches by a check, a switch or the last card.
    ("BA", (46, 1900)),
    ("BNA", (47, 1900)),
    ("BC1", (46, 100)),
    ("BC2", (46, 200)),
    ("BC3", (46, 300)),
    ("BC4", (46, 400)),
    ("BNC1", (47, 100)),
    ("BNC2", (47, 200)),
    ("BNC3", (47, 300)),
    ("BNC4", (47, 400)),
    ("BLC", (46, 900)),
    ("BNLC", (47, 900)),
    // The typewriter.
    ("DNTY", (35, 100)),
    ("RNTY", (36, 100)),
    ("RATY", (37, 100)),
    ("WNTY", (38, 100)),
    ("WATY", (39, 100)),
    ("SPTY", (34, 101)),
    ("RCTY", (34, 102)),
    ("TBTY", (34, 108)),
    // Cards.
    ("RNCD", (36, 500)),
    ("RACD", (37, 500)),
    ("DNCD", (35, 400)),
    ("WNCD", (38, 400)),
    ("WACD", (39, 400)),
    // The disk.
    ("SK", (34, 701)),
    ("RDGN", (36, 700)),
    ("CDGN", (36, 701)),
    ("RDN", (36, 702)),
    ("CDN", (36, 703)),
    ("WDGN", (38, 700)),
    ("WDN", (38, 702)),
];

// The declaratives.
static DECLARATIVES: [(&str, Declarative); 14] = [
    ("DS", Declarative::Ds),
    ("DSS", Declarative::Dss),
    ("DAS", Declarative::Das),
    ("DC", Declarative::Dc),
    ("DSC", Declarative::Dsc),
    ("DAC", Declarative::Dac),
    ("DSA", Declarative::Dsa),
    ("DSB", Declarative::Dsb),
    ("DNB", Declarative::Dnb),
    ("DGM", Declarative::Dgm),
    ("DDA", Declarative::Dda),
    ("DORG", Declarative::Dorg),
    ("DEND", Declarative::Dend),
    ("HEAD", Declarative::Head),
];

/// The law of the tables: the tables of unique mnemonics and declaratives in the code and in the definitions are equal.
///
/// Source: SPS manual, operation codes and declarative operations; which operations there are is this project's own.
pub fn operation_law()
    ensures unique { unique_in_code ≡ unique_mnemonics }
    ensures declared { declared_in_code ≡ declaratives }
{}

/// The operation that a statement's columns 12 to 15 name, or `None` if they name no operation.
///
/// An instruction is named by its mnemonic, its opcode in two digits or a unique mnemonic, and a declarative by its mnemonic.
/// Blanks at both ends are ignored.
/// Source: SPS manual, operation codes and declarative operations; which operations there are is this project's own.
#[tactic(auto, using(crate::proofs::Names::operation_found))]
pub fn lookup(op: &[u8]) -> Option<Operation>
    ensures is { result ≡ lookup op.now }
    ensures row { EachRowStandsFor operations (trimmed op.now) result }
{
    operation_of(trimmed(op))
}

// For each number of a name, the place of the name's row in the three tables, one after another; 255 if no name has the number.
const ROWS: [u8; 512] = [
    255, 51, 255, 255, 255, 255, 255, 255, 255, 255, 255, 68, 255, 35, 255, 255, 255, 24, 255, 255,
    2, 255, 255, 255, 255, 255, 87, 255, 255, 255, 255, 255, 11, 255, 39, 255, 255, 255, 37, 255,
    255, 38, 255, 8, 255, 255, 255, 70, 29, 255, 50, 255, 255, 59, 65, 255, 255, 255, 255, 41, 16,
    255, 255, 255, 255, 255, 40, 255, 255, 255, 255, 255, 255, 255, 255, 86, 255, 255, 255, 73,
    255, 255, 255, 255, 62, 255, 255, 255, 83, 255, 23, 255, 255, 255, 255, 255, 255, 255, 255,
    255, 255, 255, 255, 255, 255, 255, 255, 255, 255, 9, 255, 45, 255, 255, 255, 255, 255, 255,
    255, 255, 255, 32, 255, 255, 255, 255, 255, 255, 255, 255, 255, 255, 255, 255, 255, 255, 43,
    255, 255, 255, 255, 6, 78, 255, 255, 255, 255, 255, 255, 255, 255, 255, 255, 255, 255, 255,
    255, 255, 255, 255, 7, 255, 92, 255, 82, 255, 255, 255, 255, 255, 255, 255, 255, 255, 255, 255,
    255, 255, 255, 255, 255, 71, 255, 255, 255, 255, 255, 255, 22, 255, 255, 255, 255, 255, 255,
    255, 255, 255, 255, 255, 255, 255, 255, 90, 255, 255, 255, 255, 255, 44, 255, 255, 255, 17,
    255, 81, 58, 255, 255, 255, 255, 255, 14, 255, 255, 255, 255, 255, 255, 255, 46, 255, 255, 255,
    255, 42, 255, 48, 255, 255, 255, 255, 255, 255, 255, 255, 255, 255, 33, 255, 255, 67, 57, 255,
    64, 255, 47, 255, 255, 255, 255, 255, 255, 49, 255, 255, 255, 255, 255, 255, 255, 69, 255, 255,
    255, 255, 255, 255, 255, 255, 255, 66, 255, 255, 255, 255, 255, 255, 255, 255, 255, 255, 255,
    255, 4, 255, 255, 255, 255, 255, 255, 56, 255, 255, 255, 89, 255, 255, 255, 255, 255, 255, 255,
    255, 255, 255, 255, 255, 255, 255, 255, 255, 255, 255, 13, 255, 80, 255, 10, 255, 255, 255,
    255, 255, 255, 255, 61, 255, 255, 18, 255, 19, 255, 30, 255, 255, 255, 255, 255, 255, 255, 55,
    255, 255, 255, 255, 27, 255, 255, 255, 255, 255, 255, 255, 255, 255, 255, 255, 255, 255, 255,
    255, 60, 255, 255, 93, 255, 255, 255, 255, 255, 91, 28, 255, 255, 255, 255, 255, 255, 255, 5,
    255, 0, 255, 255, 255, 255, 255, 255, 255, 54, 255, 255, 255, 255, 79, 34, 255, 255, 255, 88,
    255, 255, 15, 255, 53, 255, 255, 255, 255, 255, 255, 21, 255, 255, 255, 255, 76, 255, 255, 255,
    36, 255, 255, 255, 255, 255, 255, 85, 255, 255, 72, 1, 255, 255, 255, 255, 255, 255, 255, 255,
    255, 25, 255, 255, 255, 255, 255, 255, 255, 255, 255, 255, 255, 52, 255, 255, 20, 255, 255,
    255, 255, 255, 255, 255, 255, 255, 12, 31, 255, 26, 255, 255, 255, 74, 255, 75, 255, 255, 84,
    255, 77, 255, 3, 255, 255, 255, 255, 255, 255, 255, 255, 255, 255, 255, 255, 63, 255, 255, 255,
    255, 255,
];

// The operation of a name whose row is at the place that `ROWS` gives for its number; `None` for any other name.
#[tactic(auto, using(crate::proofs::Names::by_row))]
fn quick_operation(name: &[u8]) -> Option<Operation>
    ensures { IfSome result (λ o. value_by_name operations name.now ≡ Some o) }
{
    let k = ROWS[number_of(name)] as usize;
    let instructions = INSTRUCTIONS.len();
    if k < instructions {
        let row = row_at(&INSTRUCTIONS, k, name)?;
        return Some(plain_operation(row));
    }
    let k = k - instructions;
    let unique = UNIQUE_MNEMONICS.len();
    if k < unique {
        let named = row_at(&UNIQUE_MNEMONICS, k, name)?;
        return Some(whole(named));
    }
    let k = k - unique;
    let declaratives = DECLARATIVES.len();
    if k < declaratives {
        let declarative = row_at(&DECLARATIVES, k, name)?;
        return Some(declared(declarative));
    }
    None
}

// The number of a name, a hash below 512. The factor gives each name of the tables a number of its own. The script
// operation-places of `bin` finds the factor, and writes it and `ROWS`; an opcode in digits, or a name that is not in `ROWS`, is
// found by the search alone.
fn number_of(name: &[u8]) -> usize
    ensures { result < 512 }
{
    let mut key = 0u32;
    for c in name {
        key = key.wrapping_mul(256).wrapping_add(u32::from(*c));
    }
    (key.wrapping_mul(3_883_086_097) >> 23) as usize
}

// The value of row `k` if the row has this name.
#[inline]
fn row_at<T: Copy>(rows: &[(&str, T)], k: usize, name: &[u8]) -> Option<T>
    requires { k < length rows.now }
    ensures { IfSome result (λ v. HasRow rows.now name.now v) }
{
    let (text, value) = &rows[k];
    if name == text.as_bytes() {
        Some(*value)
    } else {
        None
    }
}

// The operation of a name.
#[tactic(auto, using(crate::proofs::JoinedTables::operation_by_table))]
fn operation_of(name: &[u8]) -> Option<Operation>
    ensures { result ≡ value_by_name operations name.now }
{
    if name.is_empty() {
        return None;
    }
    let quick = quick_operation(name);
    if quick.is_some() {
        return quick;
    }
    searched_operation(name)
}

// The operation of a name, found by a search of each table.
#[cold]
#[inline(never)]
#[tactic(auto, using(crate::proofs::JoinedTables::operation_by_table))]
fn searched_operation(name: &[u8]) -> Option<Operation>
    ensures { result ≡ value_by_name operations name.now }
{
    if let Some(row) = row_of(name) {
        return Some(plain_operation(row));
    }
    if let Some(named) = unique_mnemonic(name) {
        return Some(whole(named));
    }
    let declarative = declarative(name)?;
    Some(declared(declarative))
}

// The row of an instruction, by its mnemonic or the two digits of its opcode.
#[tactic(auto, using(crate::proofs::JoinedTables::opcode_by_table))]
fn row_of(name: &[u8]) -> Option<InstructionRow>
    ensures { result ≡ value_by_name opcodes name.now }
{
    let by_mnemonic = mnemonic(name);
    if by_mnemonic.is_some() {
        return by_mnemonic;
    }
    digits(name)
}

// The row of a mnemonic.
fn mnemonic(name: &[u8]) -> Option<InstructionRow>
    ensures { result ≡ value_by_name mnemonics name.now }
{
    find(&INSTRUCTIONS, name)
}

// The row whose opcode has these two digits.
fn digits(name: &[u8]) -> Option<InstructionRow>
    ensures { result ≡ value_by_name (map by_digits mnemonics) name.now }
{
    find_digits(&INSTRUCTIONS, name)
}

// The opcode and the Q of a unique mnemonic.
fn unique_mnemonic(name: &[u8]) -> Option<(u8, u32)>
    ensures { result ≡ value_by_name unique_mnemonics name.now }
{
    find(&UNIQUE_MNEMONICS, name)
}

// The declarative of a mnemonic.
fn declarative(name: &[u8]) -> Option<Declarative>
    ensures { result ≡ value_by_name declaratives name.now }
{
    find(&DECLARATIVES, name)
}

// The first row whose opcode has these two digits.
#[tactic(auto, unfolding(line_words::specs::Rows::value_by_name))]
fn find_digits(rows: &[(&str, InstructionRow)], name: &[u8]) -> Option<InstructionRow>
    ensures { result ≡ value_by_name (map by_digits (map row_from_table rows.now)) name.now }
{
    for (_, row) in rows {
        if name == two_digit_text(row.0).as_slice() {
            return Some(*row);
        }
    }
    None
}

// The characters of a number below 100.
fn two_digit_text(n: u8) -> [u8; 2]
    ensures { result ≡ two_digit_text n }
{
    [b'0' + n / 10, b'0' + n % 10]
}

// The operation of an instruction's row. It is immediate, so that its Q7 gets a flag, if Q is a field in the instruction itself.
fn plain_operation(row: InstructionRow) -> Operation
    ensures { result ≡ plain_operation row }
{
    let InstructionRow(opcode, _, uses, _) = row;
    Operation::Instruction {
        opcode,
        q: None,
        immediate: matches!(uses, OperandUse::Field),
    }
}

// The operation of a unique mnemonic, with its opcode and its whole Q; it is never immediate.
fn whole(named: (u8, u32)) -> Operation
    ensures { result ≡ whole named }
{
    let (opcode, q) = named;
    Operation::Instruction {
        opcode,
        q: Some(q),
        immediate: false,
    }
}

// A declarative as an operation.
fn declared(declarative: Declarative) -> Operation
    ensures { result ≡ declared declarative }
{
    Operation::Declare(declarative)
}
