//! Why a file of rows can't be read.

use std::alloc::{AllocError, AllocFailed};
use std::fmt;

/// Why a row can't be read or asked. Nothing after it is read.
#[derive(Clone, Copy)]
pub enum Unread {
    /// An allocation was refused.
    OutOfMemory,
    /// A file can't be read, or nothing more can be printed.
    Failed,
    /// A character that can't stand there.
    BadCharacter,
    /// A line that ends within a word.
    Unended,
    /// A name that no text has.
    NoSuchText,
    /// A name that a text has already.
    NamedTwice,
    /// Lines of a text without a row before them.
    NoRow,
    /// A row without an answer.
    NoAnswer,
    /// A first word that asks nothing.
    NoSuchQuestion,
    /// Too few words, too many, or a wrong one.
    BadWords,
    /// A piece to replace that the text does not have.
    NothingToReplace,
    /// A word that is no text in UTF-8.
    NoText,
    /// A number of repetitions that is not valid, or too large.
    BadCount,
    /// A text that does not fill a word to its length.
    NotFilled,
}

impl Unread {
    /// What is printed.
    fn text(self) -> &'static str {
        match self {
            Unread::OutOfMemory => "out of memory",
            Unread::Failed => "the file can't be read, or nothing more be printed",
            Unread::BadCharacter => "a character that can't stand there",
            Unread::Unended => "the line ends within a word",
            Unread::NoSuchText => "no text has this name",
            Unread::NamedTwice => "another text has this name",
            Unread::NoRow => "lines of a text behind no row",
            Unread::NoAnswer => "no answer is wanted",
            Unread::NoSuchQuestion => "the first word asks nothing",
            Unread::BadWords => "too few words, too many, or others",
            Unread::NothingToReplace => "the text has no such piece",
            Unread::NoText => "a word is not UTF-8",
            Unread::BadCount => "no number of repetitions, or too many",
            Unread::NotFilled => "the text does not fill the word to its length",
        }
    }
}

impl fmt::Display for Unread {
    fn fmt<W: fmt::Write>(&self, f: &mut fmt::Formatter<W>) -> fmt::Result {
        f.write_str(self.text())
    }
}

impl From<AllocError> for Unread {
    fn from(_error: AllocError) -> Unread {
        Unread::OutOfMemory
    }
}

impl<T: Drop> From<AllocFailed<T>> for Unread {
    fn from(_error: AllocFailed<T>) -> Unread {
        Unread::OutOfMemory
    }
}
