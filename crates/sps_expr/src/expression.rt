// The value of an expression, read from the left.
ghost use Rattle.std.specs.Prelude.{◌≡◌, ◌≢◌, ◌≤◌, ◌<◌, true, None, length, slice_index, IfNone, Err};
ghost use Rattle.sps_ops.specs.declared.rule.Rule.TheVariants.{BadExpression};
ghost use Rattle.sps_expr.specs.Grammar.{HasNoReading};
ghost use Rattle.sps_expr.specs.Reading.{without_blanks, tokens, plain_name, behind_dollar, name_factor};
ghost use Rattle.sps_expr.specs.Value.{scope_now, scope_of, value_of, is_late, IsOutcomeOf};
ghost use Rattle.sps_expr.specs.Symbol.{with_head};
ghost use Rattle.sps_expr.specs.Steps.{symbol_at, plus, with_factor, is_operator, answer_so_far, first_factor, run, past_run, IsWord, IsWordResult, TakesWhatIsFound, LeadingSign, outcome_behind_sign};

use crate::arithmetic::{number_in_range, plus, times};
use crate::scope::Scope;
use crate::symbols::Symbols;
use crate::word::{Word, is_name, is_run_byte};
use sps_ops::Rule;

// The result of a factor: whether its name is undefined or late, and its value, or `None` if the value is too large.
#[derive(Clone, Copy)]
struct FactorResult {
    undefined: bool,
    late: bool,
    value: Option<i64>,
}

// The result of the text so far: the sum of all terms except the last, and the last term's sign and its product so far.
#[derive(Clone, Copy)]
struct PartialResult {
    undefined: bool,
    late: bool,
    sum: Option<i64>,
    minus: bool,
    product: Option<i64>,
}

impl PartialResult {
    // The result after one more factor and the operator before it.
    fn with_factor(self, mark: u8, factor: FactorResult) -> PartialResult
        requires { is_operator mark ≡ true }
        ensures { result ≡ with_factor mark factor self }
    {
        let undefined = self.undefined || factor.undefined;
        let late = self.late || factor.late;
        if mark == b'*' {
            PartialResult {
                undefined,
                late,
                sum: self.sum,
                minus: self.minus,
                product: times(self.product, factor.value),
            }
        } else {
            PartialResult {
                undefined,
                late,
                sum: plus(self.sum, self.minus, self.product),
                minus: mark == b'-',
                product: factor.value,
            }
        }
    }

    // The value if no factor follows, or the least rule that the text breaks.
    fn answer_so_far(self) -> Result<i64, Rule>
        ensures { result ≡ answer_so_far self }
    {
        if self.undefined {
            return Err(Rule::UndefinedSymbol);
        }
        if self.late {
            return Err(Rule::LateSymbol);
        }
        match plus(self.sum, self.minus, self.product) {
            None => Err(Rule::ValueTooLarge),
            Some(value) => Ok(value),
        }
    }
}

fn is_operator(b: u8) -> bool
    ensures { result ≡ is_operator b }
{
    b == b'*' || b == b'+' || b == b'-'
}

// The text without the blanks at its front.
fn skip_blanks(text: &[u8]) -> &[u8]
    ensures same { without_blanks result.now ≡ without_blanks text.now }
    ensures shorter { length result.now ≤ length text.now }
    ensures no_blank { 0 < length result.now → slice_index result.now 0 ≢ 32 }
{
    let mut rest = text;
    while let [first, after @ ..] = rest {
        if *first != b' ' {
            return rest;
        }
        rest = after;
    }
    rest
}

// The run of letters, digits and `$` at the front, without its blanks, and the text after it.
fn front_word(text: &[u8]) -> (Word, &[u8])
    ensures word { IsWord result.0 (run (without_blanks text.now)) }
    ensures rest { without_blanks result.1.now ≡ past_run (without_blanks text.now) }
    ensures shorter { length result.1.now ≤ length text.now }
{
    let mut rest = text;
    let mut word = Word::new();
    while let [byte, after @ ..] = rest {
        if *byte != b' ' {
            if !is_run_byte(*byte) {
                break;
            }
            word.push(*byte);
        }
        rest = after;
    }
    (word, rest)
}

// The entry of a name without a `$`; the outer `None` is for a text that is not a name or is too long.
fn find_plain(name: &[u8], scope: &Scope<'_>) -> Option<Option<(i64, u32)>>
    ensures { result ≡ symbol_at (scope_now scope.now) (plain_name name.now) }
{
    if is_name(name) && name.len() <= 6 {
        Some(scope.symbols.find_under(scope.head, name))
    } else {
        None
    }
}

// The entry of a name after a `$`, likewise; `symbol` is its symbol.
fn find_headed(
    own: Option<u8>,
    name: &[u8],
    symbol: &[u8],
    scope: &Scope<'_>,
) -> Option<Option<(i64, u32)>>
    requires { symbol.now ≡ with_head own name.now }
    ensures { result ≡ symbol_at (scope_now scope.now) (behind_dollar own name.now) }
{
    if is_name(name) && name.len() <= 5 {
        Some(scope.symbols.find(symbol))
    } else {
        None
    }
}

// The entry of a run that is a name, or `None` if it is not a name.
fn find_word(word: &[u8], scope: &Scope<'_>) -> Option<Option<(i64, u32)>>
    ensures { result ≡ symbol_at (scope_now scope.now) (name_factor word.now) }
{
    let [first, behind @ ..] = word else {
        return None;
    };
    if *first == b'$' {
        return find_headed(None, behind, behind, scope);
    }
    let [second, name @ ..] = behind else {
        return find_plain(word, scope);
    };
    if *second == b'$' {
        return find_headed(Some(*first), name, word, scope);
    }
    find_plain(word, scope)
}

// The result of a run of letters, digits and `$`, or `None` if it is not a number or a name.
fn word_result(word: &Word, scope: &Scope<'_>) -> Option<FactorResult>
    ensures { IsWordResult (scope_now scope.now) word.now result }
{
    if word.all_digits {
        return Some(FactorResult {
            undefined: false,
            late: false,
            value: number_in_range(word.number as i64),
        });
    }
    if word.long {
        return None;
    }
    match find_word(word.text.as_slice(), scope)? {
        None => Some(FactorResult {
            undefined: true,
            late: false,
            value: Some(0),
        }),
        Some((value, statement)) => Some(FactorResult {
            undefined: false,
            late: is_late(scope.before, statement),
            value: number_in_range(value),
        }),
    }
}

// Whether a symbol of this statement is late: the statement does not come before the statement `before`.
fn is_late(before: Option<u32>, statement: u32) -> bool
    ensures { result ≡ is_late before statement }
{
    match before {
        None => false,
        Some(before) => before <= statement,
    }
}

// The result of the factor at the front of the text, and the text after it.
fn factor<'a>(text: &'a [u8], scope: &Scope<'_>) -> Option<(FactorResult, &'a [u8])>
    ensures some { TakesWhatIsFound (scope_now scope.now) text.now result }
    ensures none { IfNone result (first_factor (tokens (without_blanks text.now)) ≡ None) }
{
    let text = skip_blanks(text);
    let [first, after @ ..] = text else {
        return None;
    };
    if *first == b'*' {
        let location = FactorResult {
            undefined: false,
            late: false,
            value: number_in_range(scope.here),
        };
        return Some((location, after));
    }
    if !is_run_byte(*first) {
        return None;
    }
    let (word, rest) = front_word(text);
    let found = word_result(&word, scope)?;
    Some((found, rest))
}

// Whether the text begins with a minus, and the text after its leading sign, or the text itself if it has no sign.
fn leading_sign(text: &[u8]) -> (bool, &[u8])
    ensures { LeadingSign text.now result.0 result.1.now }
{
    let text = skip_blanks(text);
    let [first, after @ ..] = text else {
        return (false, text);
    };
    if *first == b'+' {
        (false, after)
    } else if *first == b'-' {
        (true, after)
    } else {
        (false, text)
    }
}

// The value of an expression without its leading sign, or the least rule that it breaks; `minus` is the sign.
fn outcome_behind_sign(minus: bool, text: &[u8], scope: &Scope<'_>) -> Result<i64, Rule>
    ensures { result ≡ outcome_behind_sign (scope_now scope.now) minus text.now }
{
    let Some((first, behind)) = factor(text, scope) else {
        return Err(Rule::BadExpression);
    };
    let mut so_far = PartialResult {
        undefined: first.undefined,
        late: first.late,
        sum: Some(0),
        minus,
        product: first.value,
    };
    let mut rest = skip_blanks(behind);
    while let [mark, after @ ..] = rest {
        if !is_operator(*mark) {
            return Err(Rule::BadExpression);
        }
        let Some((next, behind)) = factor(after, scope) else {
            return Err(Rule::BadExpression);
        };
        so_far = so_far.with_factor(*mark, next);
        rest = skip_blanks(behind);
    }
    so_far.answer_so_far()
}

/// The value of a part of a statement, read as an expression, or the least of these rules that the part breaks.
///
/// Blanks are removed first. An expression is `[+ or -] term { (+ or -) term }`, a term is `factor { * factor }`, and a factor is
/// a number, a name, a `$` and a name of at most five characters with or without a head before the `$`, or `*` for the location
/// `here`. A name has at most six letters and digits with a letter among them, and a head is a letter or digit. The value is
/// computed in whole numbers: products first, then sums, each from the left.
///
/// A name of one to five characters without a `$` refers to the symbol with `head`, the head in force. A name of six refers to
/// the symbol without a head. A name after a `$` refers to the symbol with the head before the `$`, or without a head if there is
/// no head.
///
/// - `BadExpression`: the part is not an expression.
/// - `UndefinedSymbol`: a name is not among the symbols.
/// - `LateSymbol`, only if `before` is given: a name is defined by the statement `before` or a later statement.
/// - `ValueTooLarge`: a number, a symbol's value, `here` if the part uses it, a product, the first term with its sign, or a sum
///   is over 9,999,999,999 in magnitude.
///
/// The location and the values of the symbols may be any numbers. `IsReading` relates a tree to its text. A text has one tree at
/// most, and `reading` finds it: the lemmas `reading_is`, `is_reading` and `one_reading` of `proofs/Trees`. With only the symbols
/// of earlier statements and without `before`, a late symbol is an undefined symbol, and everything else is equal: the lemma
/// `early_value` of `proofs/EarlierSymbols`.
/// Source: SPS manual, address adjustment; the grammar and the bound are this project's own.
pub fn value(
    part: &[u8],
    head: Option<u8>,
    symbols: &Symbols,
    here: i64,
    before: Option<u32>,
) -> Result<i64, Rule>
    ensures is { result ≡ value_of (scope_of head symbols.now here before) part.now }

    // By the grammar alone: the outcome of the part's tree, and `BadExpression` if there is no tree.
    ensures grammar { IsOutcomeOf (scope_of head symbols.now here before) part.now result }
    ensures outside { HasNoReading (without_blanks part.now) → result ≡ Err BadExpression }
{
    let scope = Scope {
        head,
        symbols,
        here,
        before,
    };
    scope.value(part)
}

impl Scope<'_> {
    /// The value of a part of a statement in this scope, or the least rule that it breaks, as [`value`] gives it.
    ///
    /// Source: SPS manual, address adjustment; the grammar and the bound are this project's own.
    pub fn value(&self, part: &[u8]) -> Result<i64, Rule>
        ensures is { result ≡ value_of (scope_now self.now) part.now }
        ensures grammar { IsOutcomeOf (scope_now self.now) part.now result }
        ensures outside { HasNoReading (without_blanks part.now) → result ≡ Err BadExpression }
    {
        let (minus, text) = leading_sign(part);
        outcome_behind_sign(minus, text, self)
    }
}
