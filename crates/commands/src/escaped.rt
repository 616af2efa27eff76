//! How names, words and lines that others chose are printed.
//!
//! Letters of other scripts stay. When words are no line, clap quotes them in its text. So it is asked once more for this text, with the
//! words as they are shown. Bytes of files are printed as they are.

use std::alloc::{AllocError, Global};
use std::fmt;

/// What is printed in place of a character that is not shown.
const MARK: char = '?';

/// A name or a word as it is printed: a question mark replaces each control character, which is one of U+0000 to U+001F or of U+007F to
/// U+009F. So it can't forge a line, and is no command to a terminal.
#[derive(Clone, Copy, Debug)]
pub struct Escaped<'s>(pub &'s str);

impl fmt::Display for Escaped<'_> {
    fn fmt<W: fmt::Write>(&self, f: &mut fmt::Formatter<W>) -> fmt::Result {
        let mut is_first = true;
        for piece in self.0.split(char::is_control) {
            if !is_first {
                f.write_char(MARK)?;
            }
            f.write_str(piece)?;
            is_first = false;
        }
        Ok(())
    }
}

/// A name as it is printed, which is kept.
#[derive(Debug, Drop)]
pub struct OwnedEscaped(pub String);

impl fmt::Display for OwnedEscaped {
    fn fmt<W: fmt::Write>(&self, f: &mut fmt::Formatter<W>) -> fmt::Result {
        write!(f, "{}", Escaped(self.0.as_str()))
    }
}

/// Unknown bytes as they are printed: a question mark replaces each byte that is not in 0x20 to 0x7E.
pub fn escaped_bytes(alloc: Global, bytes: &[u8]) -> Result<String, AllocError> {
    let mut text = String::new(alloc);
    for byte in bytes {
        text.push(match byte {
            b' '..=b'~' => char::from(*byte),
            _ => MARK,
        })?;
    }
    Ok(text)
}
