// Lines of bytes.
// Source: this project's own.
ghost use Rattle.std.specs.Prelude.{◌≡◌, ◌<◌, ◌↔◌, [], length, IsNone, IfSome};
ghost use Rattle.outside_io.specs.Lines.{behind_line, first_text, without_return};

use memchr::memchr;

/// The text of a line without one CR at its end.
///
/// A text without a CR at its end is given back as it is, and of two CRs only the last is dropped.
pub fn without_return(text: &[u8]) -> &[u8]
    ensures { result.now ≡ without_return text.now }
{
    let len = text.len();
    if len > 0 && text[len - 1] == b'\r' {
        &text[..len - 1]
    } else {
        text
    }
}

/// The first line of some bytes, of any length, and the bytes after it; `None` if there is no byte.
///
/// A LF ends a line; a last line without LF counts if it has a byte. The line comes without its LF and without one CR at its end.
/// The bytes after it are fewer than `bytes`, and none if there is no LF.
pub fn split_line(bytes: &[u8]) -> Option<(&[u8], &[u8])>
    ensures none { IsNone result ↔ (bytes.now ≡ []) }
    ensures line { IfSome result (λ split. split.0.now ≡ first_text bytes.now) }
    ensures behind { IfSome result (λ split. split.1.now ≡ behind_line bytes.now) }
    ensures shorter { IfSome result (λ split. length split.1.now < length bytes.now) }
{
    if bytes.is_empty() {
        return None;
    }
    match memchr(b'\n', bytes) {
        Some(end) => Some((without_return(&bytes[..end]), &bytes[end + 1..])),
        None => Some((without_return(bytes), &[])),
    }
}
