use text_lines::{after_word, first_line, line_count, read_number};

#[test]
fn numbers_have_no_other_spelling(rt: HostRuntime) {
    let cases: [(&str, Option<u64>); 11] = [
        ("0", Some(0)),
        ("7", Some(7)),
        ("18446744073709551615", Some(u64::MAX)),
        ("18446744073709551616", None),
        ("99999999999999999999999", None),
        ("", None),
        ("00", None),
        ("07", None),
        ("+7", None),
        ("7 ", None),
        ("7a", None),
    ];
    for (text, number) in cases {
        assert_eq!(rt; read_number(text.as_bytes()), number);
    }
}

#[test]
fn lines_end_at_line_feeds(rt: HostRuntime) {
    let (line, rest) = first_line(b"a b\n\nc");
    assert_eq!(rt; line, b"a b".as_slice());
    assert_eq!(rt; rest, b"\nc".as_slice());
    assert_eq!(rt; first_line(b"c").1.len(), 0);
    assert_eq!(rt; line_count(b""), 0);
    assert_eq!(rt; line_count(b"a\n\nc"), 3);
    assert_eq!(rt; line_count(b"a\n\nc\n"), 3);
    assert_eq!(rt; after_word(b"label x", "label "), Some(b"x".as_slice()));
    assert_eq!(rt; after_word(b"labe", "label "), None);
}
