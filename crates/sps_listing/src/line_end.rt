// The blanks at the end of a line.
ghost use Rattle.std.specs.Prelude.{◌≡◌};
ghost use Rattle.line_words.specs.Blanks.{without_back};

// The line without the blanks at its end.
pub(crate) fn without_back(line: &[u8]) -> &[u8]
    ensures { result.now ≡ without_back line.now }
{
    let mut len = line.len();
    while len > 0 {
        if line[len - 1] != b' ' {
            return &line[..len];
        }
        len -= 1;
    }
    &line[..0]
}
