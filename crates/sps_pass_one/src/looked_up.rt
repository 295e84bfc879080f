// A statement with its operation.
ghost use Rattle.std.specs.Prelude.{◌≡◌};
ghost use Rattle.sps_ops.specs.Operations.{lookup};

use sps_ops::{Operation, lookup};
use sps_scan::Statement;

/// A statement with the operation that its columns 12 to 15 name; each pass looks it up once.
///
/// Source: SPS manual, operation codes and declarative operations.
#[derive(Clone, Copy)]
pub struct LookedUp<'s> {
    /// The statement as its line was scanned.
    pub scanned: &'s Statement<'s>,
    /// Its operation, or `None` if there is no such operation.
    pub operation: Option<Operation>,
    ghost named: { operation ≡ lookup scanned.now.operation.now },
}

impl<'s> LookedUp<'s> {
    /// A statement with its operation.
    ///
    /// Source: SPS manual, operation codes and declarative operations.
    #[inline(always)]
    pub fn of(s: &'s Statement<'s>) -> LookedUp<'s>
        ensures { result.scanned.now ≡ s.now }
    {
        let operation = if s.operation.is_empty() {
            None
        } else {
            lookup(s.operation)
        };
        LookedUp {
            scanned: s,
            operation,
        }
    }
}
