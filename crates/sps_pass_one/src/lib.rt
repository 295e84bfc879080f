//! The first pass of the assembler: it finds the location and the label's value of each statement.
//!
//! `locate` reads a source once and gives the location, the label's value and the number of digits of each statement, and the
//! symbols. `lay_out` also finds the first statement whose layout is broken; for this it reads the source again, since only then
//! all labels are known. Both use a `Walk`, as does all code that goes over the statements of a source. The second pass evaluates
//! a statement's operands again, with `measure`, `answer` and `in_bounds`, and finds the least rule that they break, with
//! `broken_if` and `broken_at_if`.
#![tactic(auto)]

mod ask;
mod fault;
mod heads;
mod laws;
mod layout;
mod looked_up;
mod operands;
mod place;
mod placing;
mod walk;

pub use ask::{Ask, Form, OperandReading, form_of};
pub use fault::{Fault, broken_at_if, broken_if};
pub use heads::head_faults;
pub use laws::{known_law, least_law, measure_law, symbol_law};
pub use layout::{
    Layout, Located, MOST_STATEMENTS, Places, counts_if, ends_if, is_label, lay_out, locate,
    operation_of,
};
pub use looked_up::LookedUp;
pub use operands::{Answered, Measured, answer, in_bounds, is_blank, lacks, measure, part_at};
pub use place::{Place, Placing};
pub use placing::label_place;
pub use walk::{SourceLine, Walk};
