// Operations: instructions and declaratives.

/// The operation of a statement.
///
/// Source: SPS manual, operation codes and declarative operations; which instructions get a flag on Q7 is this project's own.
#[derive(Clone, Copy, Debug, PartialEq, Eq)]
pub enum Operation {
    /// An instruction of the machine.
    Instruction {
        /// The opcode, two digits.
        opcode: u8,
        /// The whole Q of a unique mnemonic, five digits; `None` for every other instruction.
        q: Option<u32>,
        /// Whether Q7 gets a flag if the flag part is empty: for 11, 12, 14, 16 and 17, as their Q is a field in the instruction.
        immediate: bool,
    },
    /// A declarative, which the assembler itself carries out.
    Declare(Declarative),
}

/// The declaratives.
///
/// Source: SPS manual, declarative operations; their parts are this project's own.
#[derive(Clone, Copy, Debug, PartialEq, Eq)]
pub enum Declarative {
    /// DS, define symbol: a field, addressed at its rightmost digit.
    Ds,
    /// DSS, define special symbol: a field, addressed at its leftmost digit.
    Dss,
    /// DAS, define alphameric symbol: a field of two digits for each character.
    Das,
    /// DC, define constant: a number, addressed at its rightmost digit.
    Dc,
    /// DSC, define special constant: a number, addressed at its leftmost digit.
    Dsc,
    /// DAC, define alphameric constant: a text of two digits for each character.
    Dac,
    /// DSA, define symbolic addresses: up to ten addresses.
    Dsa,
    /// DSB, define symbolic block: fields of one length, one after another.
    Dsb,
    /// DNB, define numerical blanks.
    Dnb,
    /// DGM, define group mark.
    Dgm,
    /// DDA, define disk address: the control field of a disk instruction.
    Dda,
    /// DORG, define origin: where the next digits go.
    Dorg,
    /// DEND, define end: the end of the deck, and the start of the program.
    Dend,
    /// HEAD: the head of the symbols that follow.
    Head,
}
