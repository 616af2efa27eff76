//! The answers to the rows of a file.

use crate::fault::Unread;
use std::alloc::Global;

/// Answers the rows of a file, one after the other.
pub trait Answers<R: AllocGlobal>: Drop {
    /// A new one for a new file.
    fn fresh(rt: &R) -> Self;

    /// The answer to the words of a row. The first word is the question, the others its arguments.
    fn answer(&mut self, rt: &R, words: &[Vec<u8>]) -> Result<Vec<u8>, Unread>;
}

/// The text of a word.
pub fn text_of(word: &Vec<u8>) -> Result<&str, Unread> {
    match str::from_utf8(word.as_slice()) {
        Ok(text) => Ok(text),
        Err(_) => Err(Unread::NoText),
    }
}

/// The number of a word.
pub fn number_of(word: &Vec<u8>) -> Result<u64, Unread> {
    match text_of(word)?.parse::<u64>() {
        Ok(number) => Ok(number),
        Err(_) => Err(Unread::BadWords),
    }
}

/// The bytes of a text, as an answer.
pub fn said(alloc: Global, text: &str) -> Result<Vec<u8>, Unread> {
    Ok(Vec::from_slice(alloc, text.as_bytes())?)
}
