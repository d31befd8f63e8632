//! The words of the program.

use crate::words::files_of;
use clap::ArgMatches;
use std::alloc::{AllocError, Global};
use std::env::{Env, FillError};

// Ends a word that is not UTF-8. No other word holds it, as it ends words for the system.
const NOT_UTF8: char = '\0';

// How many bytes most words have at most.
const SHORT: usize = 256;

// A word of the system. One that is not UTF-8 has U+FFFD for what is not, and a mark at its end.
fn word_of_bytes(alloc: Global, bytes: &[u8]) -> Result<String, AllocError> {
    let mut word = String::from_utf8_lossy(alloc, bytes)?;
    if word.as_bytes() != bytes {
        word.push(NOT_UTF8)?;
    }
    Ok(word)
}

// The word at a place, if there are so many. The buffer grows until it has room.
fn read_word(
    rt: &HostRuntime,
    at: usize,
    buffer: &mut Vec<u8>,
) -> Result<Option<String>, AllocError> {
    for _ in 0..usize::MAX {
        match rt.arg(at, buffer.as_mut_slice()) {
            Ok(n) => return Ok(Some(word_of_bytes(rt.alloc(), &buffer[..n])?)),
            Err(FillError::NotPresent) => return Ok(None),
            Err(FillError::TooLong) => {
                let room = buffer.len().checked_mul(2).ok_or(AllocError)?;
                buffer.resize(room, 0)?;
            }
        }
    }
    Err(AllocError)
}

/// The words, of which the first names the program. One that is not UTF-8 has U+FFFD for what is
/// not, and is told by `is_not_utf8`.
pub fn read_words(rt: &HostRuntime) -> Result<Vec<String>, AllocError> {
    let mut words = Vec::new(rt.alloc());
    let mut buffer = vec![in rt.alloc(); 0u8; SHORT]?;
    for at in 0..usize::MAX {
        match read_word(rt, at, &mut buffer)? {
            Some(word) => words.push(word)?,
            None => break,
        }
    }
    Ok(words)
}

/// Whether a word of `read_words` is not UTF-8.
pub fn is_not_utf8(word: &str) -> bool {
    word.ends_with(NOT_UTF8)
}

/// A word of `read_words` without the mark of one that is not UTF-8.
pub fn without_mark(word: &str) -> &str {
    word.strip_suffix(NOT_UTF8).unwrap_or(word)
}

/// The first word that is not UTF-8 and names no file.
pub fn wrong_word<'a>(words: &'a [String], matches: &ArgMatches<'_>) -> Option<&'a str> {
    for word in words {
        let word = word.as_str();
        if is_not_utf8(word) && !files_of(matches).contains(&word) {
            return Some(without_mark(word));
        }
    }
    None
}
