// The rules that a statement can break.
// Source: this project's own.
ghost use Rattle.std.specs.Prelude.{◌≡◌, ◌≤◌, length};

/// A rule that a statement breaks. If it breaks several rules, the assembler reports the first of them in this order.
#[derive(Clone, Copy, Debug, PartialEq, Eq)]
pub enum Rule {
    /// 1: a byte of the label, the operation or an operand part is not a character of the assembler.
    BadColumn,
    /// 2: the line has over 80 bytes.
    LongCard,
    /// 3: the label is not letters and digits with a letter among them.
    BadLabel,
    /// 4: there is no such operation.
    UnknownOperation,
    /// 5: the label defines a symbol that an earlier statement's label defines.
    DuplicateLabel,
    /// 6: a part that a declarative needs is empty.
    MissingOperand,
    /// 7: a part is not an expression, a unique mnemonic has a Q, or a part of a HEAD does not have its form.
    BadExpression,
    /// 8: a name refers to a symbol that no label defines.
    UndefinedSymbol,
    /// 9: a name that has to be known here is a label of this statement or a later statement.
    LateSymbol,
    /// 10: a number is out of its range.
    ValueTooLarge,
    /// 11: a length or a count is out of its range.
    BadLength,
    /// 12: a constant or a text does not have its form.
    BadConstant,
    /// 13: the flag part is not a rising list of positions.
    BadFlags,
    /// 14: a declared digit lies below 00100 or past the end of core.
    OutsideImage,
    /// 15: the start is odd, below 00400, or too high for an instruction.
    BadStart,
    /// 16: a statement follows the first DEND.
    AfterEnd,
    /// 17: there is no DEND.
    NoEnd,
    /// 18: DEND has no operand.
    NoStart,
    /// 19: the statement is the 20,001st.
    TooManyStatements,
    /// 20: the address of a DAS or DAC is even.
    EvenAddress,
}

/// The words in which the program reports a broken rule.
#[derive(Clone, Copy, Debug)]
pub enum Sentence {
    /// These words, in a core of any size.
    Plain(&'static str),
    /// These words, followed by the last address at which this many digits still fit into core: 19999 for one digit in a core of
    /// 20,000, and 19988 for the twelve digits of an instruction.
    WithLast(&'static str, u32),
}

// A row of the table of rules: the number, 1 to 20; the name, at most 17 letters; and the words that report the broken rule.
#[derive(Clone, Copy)]
struct RuleRow {
    number: u8,
    name: &'static str,
    sentence: Sentence,
}

// The table of rules, a row for each variant of `Rule`, in the order of the variants.
static RULES: [RuleRow; 20] = [
    RuleRow {
        number: 1,
        name: "BadColumn",
        sentence: Sentence::Plain("a byte that is no character of the assembler"),
    },
    RuleRow {
        number: 2,
        name: "LongCard",
        sentence: Sentence::Plain("a line of over 80 bytes"),
    },
    RuleRow {
        number: 3,
        name: "BadLabel",
        sentence: Sentence::Plain(
            "a label that is not letters and digits with a letter among them",
        ),
    },
    RuleRow {
        number: 4,
        name: "UnknownOperation",
        sentence: Sentence::Plain("no such operation"),
    },
    RuleRow {
        number: 5,
        name: "DuplicateLabel",
        sentence: Sentence::Plain("a label that an earlier statement has"),
    },
    RuleRow {
        number: 6,
        name: "MissingOperand",
        sentence: Sentence::Plain("a part is empty that this operation needs"),
    },
    RuleRow {
        number: 7,
        name: "BadExpression",
        sentence: Sentence::Plain("a part that is no expression"),
    },
    RuleRow {
        number: 8,
        name: "UndefinedSymbol",
        sentence: Sentence::Plain("a name that is the label of no statement"),
    },
    RuleRow {
        number: 9,
        name: "LateSymbol",
        sentence: Sentence::Plain(
            "a name that must be a label of an earlier statement, and is not",
        ),
    },
    RuleRow {
        number: 10,
        name: "ValueTooLarge",
        sentence: Sentence::Plain("a number or an address that is out of its range"),
    },
    RuleRow {
        number: 11,
        name: "BadLength",
        sentence: Sentence::Plain("a length or a count that is out of its range"),
    },
    RuleRow {
        number: 12,
        name: "BadConstant",
        sentence: Sentence::Plain(
            "a constant that is no sign and digits, or longer than its length",
        ),
    },
    RuleRow {
        number: 13,
        name: "BadFlags",
        sentence: Sentence::Plain("a flag part that is no rising list of positions 0 to 11"),
    },
    RuleRow {
        number: 14,
        name: "OutsideImage",
        sentence: Sentence::WithLast("a digit below 00100 or above ", 1),
    },
    RuleRow {
        number: 15,
        name: "BadStart",
        sentence: Sentence::WithLast("a start that is odd, below 00400 or above ", 12),
    },
    RuleRow {
        number: 16,
        name: "AfterEnd",
        sentence: Sentence::Plain("a statement behind the first DEND"),
    },
    RuleRow {
        number: 17,
        name: "NoEnd",
        sentence: Sentence::Plain("the source ends without a DEND"),
    },
    RuleRow {
        number: 18,
        name: "NoStart",
        sentence: Sentence::Plain("a DEND without a start"),
    },
    RuleRow {
        number: 19,
        name: "TooManyStatements",
        sentence: Sentence::Plain("one more statement than the 20,000 that a source may have"),
    },
    RuleRow {
        number: 20,
        name: "EvenAddress",
        sentence: Sentence::Plain("a DAS or a DAC at an even address"),
    },
];

impl Rule {
    ghost use Rattle.sps_ops.specs.Rules.{rule_number, rule_name, rule_sentence, words_of_sentence};

    // The rule's row in the table.
    fn row(self) -> &'static RuleRow
        ensures number { result.now.number ≡ rule_number self }
        ensures name { result.now.name.now ≡ rule_name self }
        ensures sentence { words_of_sentence result.now.sentence ≡ rule_sentence self }
        ensures short { length result.now.name.now ≤ 17 }
    {
        &RULES[self as usize]
    }

    /// The number of the rule, 1 to 20.
    pub fn number(self) -> u8
        ensures is { result ≡ rule_number self }
        ensures some { 1 ≤ result }
        ensures most { result ≤ 20 }
    {
        self.row().number
    }

    /// The printed name of the rule, at most 17 letters.
    pub fn name(self) -> &'static str
        ensures is { result.now ≡ rule_name self }
        ensures short { length result.now ≤ 17 }
    {
        self.row().name
    }

    /// The words in which the program reports this rule.
    pub fn sentence(self) -> Sentence
        ensures { words_of_sentence result ≡ rule_sentence self }
    {
        self.row().sentence
    }
}
