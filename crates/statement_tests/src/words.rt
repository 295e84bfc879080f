// Words and numbers in the lines of a script.
use line_words::{cut_word, number, number_in};

#[test]
fn each_blank_ends_a_word(rt: HostRuntime) {
    let (word, behind) = cut_word(b"AT 5 START");
    assert!(rt; word == b"AT".as_slice());
    assert!(rt; behind == Some(b"5 START".as_slice()));
    let (word, behind) = cut_word(b" 5");
    assert!(rt; word == b"".as_slice());
    assert!(rt; behind == Some(b"5".as_slice()));
    let (word, behind) = cut_word(b"START ");
    assert!(rt; word == b"START".as_slice());
    assert!(rt; behind == Some(b"".as_slice()));
    let (word, behind) = cut_word(b"START");
    assert!(rt; word == b"START".as_slice());
    assert!(rt; behind.is_none());
}

#[test]
fn numbers_have_1_to_15_digits(rt: HostRuntime) {
    let rows: [(&[u8], Option<u64>); 8] = [
        (b"0", Some(0)),
        (b"004", Some(4)),
        (b"999999999999999", Some(999_999_999_999_999)),
        (b"0999999999999999", None),
        (b"", None),
        (b"+5", None),
        (b"5 ", None),
        (b"0x5", None),
    ];
    for (word, n) in rows {
        assert!(rt; number(word) == n);
    }
}

#[test]
fn a_number_lies_in_its_range(rt: HostRuntime) {
    assert!(rt; number_in(1, 4, b"1") == Some(1));
    assert!(rt; number_in(1, 4, b"04") == Some(4));
    assert!(rt; number_in(1, 4, b"0").is_none());
    assert!(rt; number_in(1, 4, b"5").is_none());
    assert!(rt; number_in(1, 4, b"A").is_none());
}
