// The lines of texts, taken off one after another.
use outside_io::{split_line, without_return};

#[test]
fn the_first_line_is_split_off(rt: HostRuntime) {
    let rows: [(&[u8], Option<(&[u8], &[u8])>); 10] = [
        (b"", None),
        // ended by a LF, with and without a CR
        (b"AB\nCD\n", Some((b"AB", b"CD\n"))),
        (b"AB\r\nCD", Some((b"AB", b"CD"))),
        // of two CRs one is dropped, and a CR within a line stays
        (b"AB\r\r\n", Some((b"AB\r", b""))),
        (b"A\rB\n\n", Some((b"A\rB", b"\n"))),
        // no LF
        (b"AB", Some((b"AB", b""))),
        (b"AB\r", Some((b"AB", b""))),
        // empty lines
        (b"\nAB", Some((b"", b"AB"))),
        (b"\r\nAB", Some((b"", b"AB"))),
        (b"\r", Some((b"", b""))),
    ];
    for (bytes, want) in rows {
        assert!(rt; split_line(bytes) == want);
    }
}

#[test]
fn a_line_may_have_any_length(rt: HostRuntime) {
    let mut bytes = [b'x'; 5000];
    bytes[4998] = b'\n';
    assert!(rt; split_line(&bytes) == Some((&bytes[..4998], &bytes[4999..])));
    assert!(rt; without_return(&bytes) == &bytes[..]);
}
