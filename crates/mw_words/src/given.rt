use crate::error::WordsError;
use mw_base::Text;
use std::alloc::{AllocError, Global};
use std::env;
use std::io::{self, ErrorKind};

/// The words after the program's name, as the system gives them.
fn words_behind_name(alloc: Global, rt: &HostRuntime) -> io::Result<Vec<Text>> {
    let mut words = Vec::new(alloc);
    for word in env::args(rt)?.skip(1) {
        words
            .push(Text::from_string(word))
            .map_err(AllocError::from)?;
    }
    Ok(words)
}

/// The words with which a program was called, without its own name. `BadWords` comes where one of
/// them isn't UTF-8; no clause says which words there are.
pub fn given_words(alloc: Global, rt: &HostRuntime) -> Result<Vec<Text>, WordsError> {
    match words_behind_name(alloc, rt) {
        Ok(words) => Ok(words),
        Err(error) if error.kind() == ErrorKind::OutOfMemory => Err(WordsError::Memory),
        Err(_) => Err(WordsError::BadWords),
    }
}
