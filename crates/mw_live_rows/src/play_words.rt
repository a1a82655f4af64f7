//! A client's words and its input.

use crate::play_runs::{ANN, Run, ends};
use std::test::Fail;

/// Words that ask for nothing.
const BAD_WORDS: [&str; 8] = [
    "room:1",
    "room:1 Ann G save",
    "room:1 Ann G save 0",
    "room:1 Ann G save 1000001",
    "room:1 Ann G save 01",
    "room:1 Ann G save +1",
    "room:1 Ann G save x",
    "room:1 Ann G save 1 password more",
];

/// Inputs that name no locations.
const BAD_INPUTS: [&str; 7] = [
    "x",
    "101 102",
    "101\n\n102",
    "-1",
    "0",
    "9007199254740992",
    "101\r\n",
];

#[test]
fn bad_words(rt: HostRuntime) -> Result<(), Fail> {
    let alloc = rt.alloc();
    for line in BAD_WORDS.iter() {
        let run = Run {
            line,
            input: "",
            coming: &["info"],
        };
        ends(alloc, &run, "2 bad words\n")?;
    }
    for input in BAD_INPUTS.iter() {
        let run = Run {
            line: ANN,
            input,
            coming: &["info"],
        };
        ends(alloc, &run, "2 bad words\n")?;
    }
    Ok(())
}

/// The longest input, and one that is a byte longer.
#[test]
fn a_long_input(rt: HostRuntime) -> Result<(), Fail> {
    let alloc = rt.alloc();
    let mut input = String::new(alloc);
    for _ in 0..16_384 {
        input.push_str("101\n")?;
    }
    let run = Run {
        line: ANN,
        input: input.as_str(),
        coming: &[],
    };
    ends(alloc, &run, "1 items 0\nended early\n")?;
    input.push_str("1")?;
    let run = Run {
        line: ANN,
        input: input.as_str(),
        coming: &[],
    };
    ends(alloc, &run, "2 bad words\n")
}
