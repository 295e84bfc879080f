// The forms of an object deck.

/// The form of an object deck: how its cards get into the machine.
///
/// Source: this project's own.
#[derive(Clone, Copy, Debug, PartialEq, Eq)]
pub enum DeckForm {
    /// Each card moves its own digits to their place and then reads the next card; the last one jumps to the program's start.
    SelfLoading,
    /// The first card stays in core and loads the program's cards, each of up to 69 digits; the tables follow them, as
    /// self-loading cards.
    Dense,
}
