// The place of a statement.

/// The location before a statement, the value of its label, and how many digits it declares.
///
/// Locations and labels are core positions, from 0 on; they may lie far past the end of core. For a comment, a blank line and a
/// statement that breaks rule 1, 2 or 16, the label's value is the location, and there are no digits.
/// Source: SPS manual, location counter and labels; what a broken statement takes is this project's own.
#[derive(Clone, Copy, Debug, PartialEq, Eq)]
pub struct Place {
    /// The location before the statement.
    pub location: i64,
    /// The value that its label has or would have; the location if its operation is unknown or its layout is broken.
    pub label: i64,
    /// How many digits it declares; 0 if its operation is unknown or its layout is broken.
    pub digits: u32,
}

/// The effect of a statement at a location.
///
/// `label` and `next` are core positions, and may lie far past the end of core.
/// Source: this project's own.
#[derive(Clone, Copy)]
pub struct Placing {
    /// The value that its label has or would have.
    pub label: u64,
    /// How many digits it declares.
    pub digits: u32,
    /// The location before the next statement.
    pub next: u64,
}
