// The text of a line.
ghost use Rattle.std.specs.Prelude.{◌≡◌, ◌≤◌, length, take};
ghost use Rattle.card_code.specs.Entries.{text_as_card};

use crate::Card;

/// A line's text: at most 80 bytes, without the end of the line.
///
/// Source: this project's own.
#[derive(Clone, Copy, Debug)]
pub struct Line {
    /// The text, followed by blanks.
    pub text: [u8; 80],
    /// The number of the text's bytes, 0 to 80.
    pub len: usize,
    ghost fits: { len ≤ 80 },
    ghost blanks: { text ≡ text_as_card (take len text) },
}

impl Line {
    ghost use Rattle.card_code.specs.LineText.{text_of_line};

    // The line of a text.
    pub(crate) fn new(text: &[u8]) -> Line
        requires { length text.now ≤ 80 }
        ensures { text_of_line result ≡ text.now }
    {
        let mut columns = [b' '; 80];
        let len = text.len();
        columns[..len].copy_from_slice(text);
        Line { text: columns, len }
    }

    /// The text.
    ///
    /// Source: this project's own.
    pub fn as_bytes(&self) -> &[u8]
        ensures is { result.now ≡ text_of_line self.now }
        ensures short { length result.now ≤ 80 }
    {
        &self.text[..self.len]
    }

    /// The card that has this text, filled with blanks to its 80 columns.
    ///
    /// Source: 1622 manual, card format; that a line is read as a card is this project's own.
    pub fn to_card(&self) -> Card
        ensures { result.0 ≡ text_as_card (text_of_line self.now) }
    {
        Card(self.text)
    }
}
