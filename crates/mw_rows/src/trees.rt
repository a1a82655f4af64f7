use mw_base::Memory;
use mw_json::{JsonError, Tree, can_write, compact, field, read_kept, read_text};
use std::alloc::Global;
use std::test::Fail;

/// Whether of members with one name the last is found, and none of a name that isn't there.
fn finds_members(tree: &Tree) -> bool {
    matches!(field(tree, "a"), Some(Tree::Whole(2)))
        && matches!(field(tree, "b"), Some(Tree::Many(_)))
        && field(tree, "c").is_none()
}

#[test]
fn a_member_is_found(rt: HostRuntime) {
    let Ok(tree) = read_text(rt.alloc(), b"{\"b\":1,\"a\":2,\"b\":[]}") else {
        panic!(rt; "refused")
    };
    assert!(rt; finds_members(&tree));
}

/// Whether these bytes are a number that isn't whole, or no JSON.
fn is_refused(alloc: Global, bytes: &[u8], is_number: bool) -> bool {
    match &read_text(alloc, bytes) {
        Ok(Tree::NotWhole) => is_number,
        Err(JsonError::NoJson) => !is_number,
        _ => false,
    }
}

#[test]
fn refusals_have_their_causes(rt: HostRuntime) {
    let alloc = rt.alloc();
    assert!(rt;
        is_refused(alloc, b"[1,", false)
            && is_refused(alloc, b"\"\xff\"", false)
            && is_refused(alloc, b"-0", true)
            && is_refused(alloc, b"1e400", false)
            && is_refused(alloc, b"18446744073709551616", true)
    );
}

/// Texts, and how their kept readings are written.
const KEPT: [(&[u8], &[u8]); 22] = [
    // numerals by their characters
    (b"-0", b"-0"),
    (b"1.50", b"1.50"),
    (b"1e400", b"1e400"),
    (b"-1.5E+02", b"-1.5E+02"),
    (b"18446744073709551616", b"18446744073709551616"),
    (b"-9223372036854775809", b"-9223372036854775809"),
    // whole numbers
    (b"18446744073709551615", b"18446744073709551615"),
    (b"9223372036854775808", b"9223372036854775808"),
    (b"-9223372036854775808", b"-9223372036854775808"),
    // white space, and the order of members
    (b" [ 1 , 2.50\t] \n", b"[1,2.50]"),
    (
        b"{\"b\":1.0,\"a\":{\"s\":1e2,\"n\":-0},\"b\":0.10}",
        b"{\"a\":{\"n\":-0,\"s\":1e2},\"b\":0.10}",
    ),
    // of members with one name the last
    (b"{\"a\":1.5,\"a\":1.50}", b"{\"a\":1.50}"),
    (b"{\"a\":1,\"\\u0061\":1.5}", b"{\"a\":1.5}"),
    // strings that look like marked ones
    (b"\"n1.5\"", b"\"n1.5\""),
    (b"\"s\"", b"\"s\""),
    (b"[\"\",\"n\",\"sn\"]", b"[\"\",\"n\",\"sn\"]"),
    (b"\"1.5\"", b"\"1.5\""),
    // names that begin with the letters of marks
    (
        b"{\"s\":\"n\",\"n1.5\":\"1.5\",\"\":1.0}",
        b"{\"\":1.0,\"n1.5\":\"1.5\",\"s\":\"n\"}",
    ),
    (b"{\"\\u006e\":1.5}", b"{\"n\":1.5}"),
    // escapes before quotes
    (b"[\"\\\"1.5\",1.5]", b"[\"\\\"1.5\",1.5]"),
    (b"[\"\\\\\",1.5]", b"[\"\\\\\",1.5]"),
    (b"[\"\\u00221.5\"]", b"[\"\\\"1.5\"]"),
];

/// Whether a text's kept reading is written as another text.
fn is_kept_as(alloc: Global, text: &[u8], written: &[u8]) -> Result<bool, Memory> {
    let Ok(tree) = read_kept(alloc, text) else {
        return Ok(false);
    };
    let again = compact(alloc, &tree)?;
    Ok(can_write(&tree) && again.as_slice() == written)
}

#[test]
fn texts_are_kept(rt: HostRuntime) {
    for (text, written) in KEPT {
        assert!(rt; is_kept_as(rt.alloc(), text, written).unwrap_or(false));
    }
}

/// Texts that have no kept reading.
const NO_JSON: [&[u8]; 27] = [
    // runs that are no numerals
    b"00",
    b"1.",
    b".5",
    b"1e",
    b"+1",
    b"-",
    b"1.5.5",
    b"1.5x",
    // numerals as names, also where another member hides them
    b"{1.5:0}",
    b"{\"a\":{1.5:0},\"a\":1}",
    b"[{\"cmd\":\"Sync\",1.5:0}]",
    b"{-0:0}",
    b"{1:0}",
    // bytes that are no UTF-8, and halves of characters
    b"\"\xff\"",
    b"1.5\xff",
    b"\"\\ud800\"",
    b"\"\\udc00\\ud800\"",
    // texts that are cut, or go on
    b"",
    b"[1.5",
    b"{\"a\":1.5",
    b"\"1.5",
    b"\"\\u12\"",
    b"1.5 1.5",
    b"[1.5,]",
    b"[1.5 2.5]",
    b"{\"a\" 1.5}",
    b"tru",
];

/// Whether a text has no kept reading.
fn is_no_json(alloc: Global, text: &[u8]) -> bool {
    matches!(&read_kept(alloc, text), Err(JsonError::NoJson))
}

#[test]
fn other_texts_are_not_kept(rt: HostRuntime) {
    for text in NO_JSON {
        assert!(rt; is_no_json(rt.alloc(), text));
    }
}

/// Whether a numeral of so many digits is kept.
fn is_kept_whole(alloc: Global, digits: usize) -> Result<bool, Memory> {
    let text = vec![in alloc; b'7'; digits]?;
    is_kept_as(alloc, text.as_slice(), text.as_slice())
}

#[test]
fn a_long_numeral_is_kept(rt: HostRuntime) {
    assert!(rt; is_kept_whole(rt.alloc(), 400_000).unwrap_or(false));
}

/// What a numeral within so many lists is read as.
fn nested(alloc: Global, levels: usize) -> Result<&'static str, Fail> {
    let mut text = "[".repeat(alloc, levels)?;
    text.push_str("1.50")?;
    text.push_str("]".repeat(alloc, levels)?.as_str())?;
    match read_kept(alloc, text.as_bytes()) {
        Ok(_) => Ok("kept"),
        Err(JsonError::TooDeep) => Ok("too deep"),
        Err(JsonError::NoJson) => Ok("no JSON"),
        Err(JsonError::Memory) => Ok("no memory"),
    }
}

#[test]
fn nested_numerals_are_kept_or_too_deep(rt: HostRuntime) -> Result<(), Fail> {
    let alloc = rt.alloc();
    let all = [
        (64, "kept"),
        (65, "too deep"),
        (127, "too deep"),
        (128, "no JSON"),
    ];
    for (levels, answer) in all {
        if nested(alloc, levels)? != answer {
            return Err(Fail::new(levels));
        }
    }
    Ok(())
}
