// The blanks at the ends of a text.
ghost use Rattle.std.specs.Prelude.{◌≡◌};
ghost use Rattle.line_words.specs.Blanks.{trimmed, without_front, without_back};

/// The text without the blanks at its ends. A blank is byte 32 and nothing else.
///
/// Source: this project's own.
pub fn trimmed(text: &[u8]) -> &[u8]
    ensures { result.now ≡ trimmed text.now }
{
    without_back(without_front(text))
}

fn without_front(text: &[u8]) -> &[u8]
    ensures { result.now ≡ without_front text.now }
{
    let mut front = text;
    while let [first, after @ ..] = front {
        if *first != b' ' {
            return front;
        }
        front = after;
    }
    front
}

fn without_back(text: &[u8]) -> &[u8]
    ensures { result.now ≡ without_back text.now }
{
    let mut len = text.len();
    while len > 0 {
        if text[len - 1] != b' ' {
            return &text[..len];
        }
        len -= 1;
    }
    &text[..0]
}
