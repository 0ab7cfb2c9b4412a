//! The words that the system gives the program.
use crate::fault::WordsFault;
use std::alloc::{AllocError, Global};
use std::io;
use std::rt::Env;

/// What is said of words that aren't UTF-8, as the parser would say it.
fn no_text(alloc: Global, program: &str) -> Result<String, AllocError> {
    format!(in alloc;
        "error: invalid UTF-8 was detected in one or more arguments

Usage: {program} [OPTIONS] [FILE]

For more information, try '--help'.
"
    )
}

/// Why the words couldn't be had: memory ran out, or they aren't UTF-8.
fn no_words(alloc: Global, program: &str, error: &io::Error) -> WordsFault {
    if error.kind() == io::ErrorKind::OutOfMemory {
        return WordsFault::Memory;
    }
    match no_text(alloc, program) {
        Ok(text) => WordsFault::Bad(text),
        Err(AllocError) => WordsFault::Memory,
    }
}

/// The words after the name of the program, which the usage of it names.
///
/// # Errors
/// `Bad` if a word isn't UTF-8; `Memory` if memory ran out.
pub fn words_given(
    rt: &(impl Env + AllocGlobal),
    program: &str,
) -> Result<Vec<String>, WordsFault> {
    let alloc = rt.alloc();
    match std::env::args(rt) {
        Ok(args) => Ok(args.skip(1).collect(alloc)?),
        Err(error) => Err(no_words(alloc, program, &error)),
    }
}
