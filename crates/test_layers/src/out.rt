//! An answer that is put together.

use std::alloc::Global;
use std::fmt::{Debug, Display};
use std::io::Write;
use test_rows::{Unread, number_of, text_of};

/// An answer, or why there is none. What is added after a fault is ignored.
#[derive(Drop)]
pub struct Out {
    pub alloc: Global,
    pub text: Vec<u8>,
    fault: Option<Unread>,
}

/// A text with each occurrence of a piece replaced.
fn replaced(
    alloc: Global,
    text: &Vec<u8>,
    old: &Vec<u8>,
    new: &Vec<u8>,
) -> Result<Vec<u8>, Unread> {
    let (text, old) = (text_of(text)?, text_of(old)?);
    if !text.contains(old) {
        return Err(Unread::NothingToReplace);
    }
    Ok(text.replace(alloc, old, text_of(new)?)?.into_bytes())
}

impl Out {
    /// An answer to which nothing is added.
    pub fn new(alloc: Global) -> Out {
        Out {
            alloc,
            text: Vec::new(alloc),
            fault: None,
        }
    }

    /// Says why there is no answer.
    pub fn refuse(&mut self, fault: Unread) {
        if self.fault.is_none() {
            self.fault = Some(fault);
        }
    }

    /// Refuses the answer if there was no memory.
    pub fn note(&mut self, is_had: bool) {
        if !is_had {
            self.refuse(Unread::OutOfMemory);
        }
    }

    /// What was added, or why there is no answer.
    pub fn end(self) -> Result<Vec<u8>, Unread> {
        match self.fault {
            None => Ok(self.text),
            Some(fault) => Err(fault),
        }
    }

    /// Adds bytes.
    pub fn add(&mut self, bytes: &[u8]) {
        let is_had = self.text.extend_from_slice(bytes).is_ok();
        self.note(is_had);
    }

    /// Adds a text.
    pub fn say(&mut self, text: &str) {
        self.add(text.as_bytes());
    }

    /// Adds the printed form of a value.
    pub fn show<T: Display + Drop>(&mut self, value: T) {
        let is_had = write!(self.text, "{value}").is_ok();
        self.note(is_had);
    }

    /// Adds a value in quotes, and an end.
    pub fn quote<T: Debug + Drop>(&mut self, value: T, end: &str) {
        let is_had = write!(self.text, "{value:?}{end}").is_ok();
        self.note(is_had);
    }

    /// Adds `yes` or `no`.
    pub fn yes_or_no(&mut self, is_so: bool) {
        self.say(if is_so { "yes" } else { "no" });
    }

    /// Adds `read`, or the fault; or gives what was read, if it is to be printed.
    pub fn read<T: Drop, F: Display + Drop>(
        &mut self,
        read: Result<T, F>,
        tells: bool,
    ) -> Option<T> {
        match read {
            Ok(found) if tells => return Some(found),
            Ok(_) => self.say("read"),
            Err(fault) => self.show(&fault),
        }
        None
    }

    /// The text of a word.
    pub fn text_of<'a>(&mut self, word: &'a Vec<u8>) -> &'a str {
        match text_of(word) {
            Ok(text) => text,
            Err(fault) => {
                self.refuse(fault);
                ""
            }
        }
    }

    /// The number of a word.
    pub fn number_of(&mut self, word: &Vec<u8>) -> u64 {
        match number_of(word) {
            Ok(number) => number,
            Err(fault) => {
                self.refuse(fault);
                0
            }
        }
    }

    /// The only word.
    pub fn only<'a>(&mut self, words: &'a [Vec<u8>]) -> &'a [u8] {
        match words {
            [word] => word.as_slice(),
            _ => {
                self.refuse(Unread::BadWords);
                b""
            }
        }
    }

    /// The text of the words `TEXT [OLD NEW]..`, with each OLD replaced by its NEW. It need be UTF-8 only if there are such
    /// pairs.
    pub fn edited(&mut self, words: &[Vec<u8>]) -> Vec<u8> {
        let mut edited = Vec::new(self.alloc);
        match words {
            [text, edits @ ..] => {
                let is_had = edited.extend_from_slice(text.as_slice()).is_ok();
                self.note(is_had);
                for pair in edits.chunks(2) {
                    self.replace(&mut edited, pair);
                }
            }
            [] => self.refuse(Unread::BadWords),
        }
        edited
    }

    fn replace(&mut self, text: &mut Vec<u8>, pair: &[Vec<u8>]) {
        let new = match pair {
            [old, new] => replaced(self.alloc, text, old, new),
            _ => Err(Unread::BadWords),
        };
        match new {
            Ok(new) => *text = new,
            Err(fault) => self.refuse(fault),
        }
    }
}
