// The rules that a statement breaks, and its digits.
use digit_core::Digit;
use sps_pass_one::Fault;

/// The least rule that a statement breaks so far, and the digits that it declares.
///
/// Source: this project's own.
#[derive(Drop)]
pub(crate) struct StatementOutcome {
    /// The least fault, or none.
    pub worst: Option<Fault>,
    /// The digits.
    pub digits: Vec<Digit>,
}
