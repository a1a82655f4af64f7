use mw_numerals::{mark, unmark};
use std::alloc::{AllocError, Global};

/// Texts, and what they are marked as.
const ROWS: [(&[u8], &[u8]); 58] = [
    // whole numbers, at the ends of their range and past them
    (b"0", b"0"),
    (b"-1", b"-1"),
    (b"18446744073709551615", b"18446744073709551615"),
    (b"18446744073709551616", b"\"n18446744073709551616\""),
    (b"-9223372036854775808", b"-9223372036854775808"),
    (b"-9223372036854775809", b"\"n-9223372036854775809\""),
    (b"9223372036854775808", b"9223372036854775808"),
    (
        b"100000000000000000000000000000000000000000",
        b"\"n100000000000000000000000000000000000000000\"",
    ),
    (b"-0", b"\"n-0\""),
    // a fraction, an exponent, or both; closing zeros stay
    (b"1.0", b"\"n1.0\""),
    (b"1.50", b"\"n1.50\""),
    (b"-1.500", b"\"n-1.500\""),
    (b"0.0", b"\"n0.0\""),
    (b"-0.0", b"\"n-0.0\""),
    (b"1e400", b"\"n1e400\""),
    (b"1E+2", b"\"n1E+2\""),
    (b"1e-2", b"\"n1e-2\""),
    (b"0e0", b"\"n0e0\""),
    (b"12.5e-30", b"\"n12.5e-30\""),
    // runs that the grammar doesn't take
    (b"00", b"00"),
    (b"01", b"01"),
    (b"-", b"-"),
    (b"+1", b"+1"),
    (b"1.", b"1."),
    (b".5", b".5"),
    (b"1e", b"1e"),
    (b"1e+", b"1e+"),
    (b"1.e5", b"1.e5"),
    (b"--1", b"--1"),
    (b"1.5.5", b"1.5.5"),
    (b"1-1", b"1-1"),
    // words, and numerals beside other letters
    (b"true", b"true"),
    (b"[false,null]", b"[false,null]"),
    (b"1.5x", b"\"n1.5\"x"),
    (b"x1.5", b"x\"n1.5\""),
    (b"true1.5", b"true1.5"),
    // strings, and those that look like marked ones
    (b"\"\"", b"\"s\""),
    (b"\"s\"", b"\"ss\""),
    (b"\"n1.5\"", b"\"sn1.5\""),
    (b"\"1.5\"", b"\"s1.5\""),
    (b"\"-0\",-0", b"\"s-0\",\"n-0\""),
    (b"1.5\"1.5\"", b"\"n1.5\"\"s1.5\""),
    // names
    (
        b"{\"n1.5\":1.5,\"s\":\"s\"}",
        b"{\"sn1.5\":\"n1.5\",\"ss\":\"ss\"}",
    ),
    (
        b"{ \"a\" : [ 1 , 2.50 ] }",
        b"{ \"sa\" : [ 1 , \"n2.50\" ] }",
    ),
    (
        b"[{\"cmd\":\"Sync\",1.5:0}]",
        b"[{\"scmd\":\"sSync\",\"n1.5\":0}]",
    ),
    // escapes before quotes
    (b"\"\\\"1.5\"", b"\"s\\\"1.5\""),
    (b"\"\\\\\"1.5", b"\"s\\\\\"\"n1.5\""),
    (b"\"\\\\\\\"\",-0", b"\"s\\\\\\\"\",\"n-0\""),
    (b"\"\\u0022\"", b"\"s\\u0022\""),
    (b"\\\"1.5\"", b"\\\"s1.5\""),
    // texts that are cut
    (b"", b""),
    (b"\"", b"\"s"),
    (b"\"1.5", b"\"s1.5"),
    (b"\"\\", b"\"s\\"),
    (b"\"a\\\"", b"\"sa\\\""),
    (b"[1.5", b"[\"n1.5\""),
    // bytes that are no UTF-8
    (b"\xff1.5\xfe", b"\xff\"n1.5\"\xfe"),
    (b"\"\xff\"", b"\"s\xff\""),
];

/// Whether a text is marked as another, and comes back.
fn is_marked_as(alloc: Global, text: &[u8], marked: &[u8]) -> Result<bool, AllocError> {
    let there = mark(alloc, text)?;
    let back = unmark(alloc, marked)?;
    Ok(there.as_slice() == marked && back.as_slice() == text)
}

#[test]
fn texts_are_marked(rt: HostRuntime) {
    for (text, marked) in ROWS {
        assert!(rt; is_marked_as(rt.alloc(), text, marked).unwrap_or(false));
    }
}

/// Whether strings without a mark stay as they are.
fn stay_unmarked(alloc: Global) -> Result<bool, AllocError> {
    let text = b"[\"\",\"x\",\"\\n\",1.5,\"";
    Ok(unmark(alloc, text)?.as_slice() == text.as_slice())
}

#[test]
fn other_strings_stay(rt: HostRuntime) {
    assert!(rt; stay_unmarked(rt.alloc()).unwrap_or(false));
}

/// Whether a numeral of so many digits is marked as a string of them.
fn is_marked_whole(alloc: Global, digits: usize) -> Result<bool, AllocError> {
    let text = vec![in alloc; b'7'; digits]?;
    let marked = mark(alloc, text.as_slice())?;
    let back = unmark(alloc, marked.as_slice())?;
    Ok(
        marked.len() == digits + 3
            && marked.as_slice().starts_with(b"\"n7")
            && marked.as_slice().ends_with(b"7\"")
            && back.as_slice() == text.as_slice(),
    )
}

#[test]
fn a_long_numeral_is_marked(rt: HostRuntime) {
    assert!(rt; is_marked_whole(rt.alloc(), 400_000).unwrap_or(false));
}
