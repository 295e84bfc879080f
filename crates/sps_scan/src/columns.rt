// Columns of a line, and the blanks and commas of a text.
ghost use Rattle.std.specs.Prelude.{◌≡◌, ◌≤◌, ◌<◌, [], IfSome, IfNone, is_some};
ghost use Rattle.sps_scan.specs.Columns.{columns, is_blank, before_comma, after_comma, has_comma};

// The columns of a line, counted from 1, both included, as far as the line has them.
pub(crate) fn columns<'a>(from: usize, to: usize, line: &'a [u8]) -> &'a [u8]
    requires first { 1 ≤ from }
    requires in_order { from ≤ to }
    requires small { to < 100 }
    ensures { result.now ≡ columns from to line.now }
{
    let start = line.len().min(from - 1);
    let end = line.len().min(to);
    &line[start..end]
}

// Whether a text has only blanks.
pub(crate) fn is_blank(text: &[u8]) -> bool
    ensures { result ≡ is_blank text.now }
{
    text.iter().all(|b| *b == b' ')
}

// The text before the first comma, and the text after that comma, or `None` without a comma.
pub(crate) fn split_comma<'a>(text: &'a [u8]) -> (&'a [u8], Option<&'a [u8]>)
    ensures before { result.0.now ≡ before_comma text.now }
    ensures behind { IfSome result.1 (λ behind. behind.now ≡ after_comma text.now) }
    ensures comma { is_some result.1 ≡ has_comma text.now }
    ensures none { IfNone result.1 (after_comma text.now ≡ []) }
{
    for i in 0..text.len() {
        if text[i] == b',' {
            return (&text[..i], Some(&text[i + 1..]));
        }
    }
    (text, None)
}
