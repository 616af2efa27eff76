//! A row, line by line and byte by byte.
//!
//! A word is bare, up to the next blank, or one or several pieces joined by `+`. A piece is a text in quotes, or `$` and the name
//! of a text. A text in quotes may be followed by `*` and a number of repetitions, or by `*..` and the length to which it fills
//! the word. In quotes a backslash begins `\n`, `\r`, `\t`, `\\`, `\"`, `\x` and two digits of a byte, or `\i`: the number of
//! repetitions of the text before. The first bare word `=` ends the question, and the answer follows it, its words one blank
//! apart.

use crate::fault::Unread;
use std::alloc::{AllocError, Global};
use std::io::Write;
use std::mem::{replace, swap};

/// The most repetitions, and the most bytes to fill a word to.
const MOST: usize = 8_388_608;

/// The place of a reader in a row.
#[derive(Clone, Copy)]
enum Place {
    /// Outside of quotes.
    Bare,
    Quoted,
    Escape,
    HighDigit,
    LowDigit(u8),
    /// After a `+`.
    Joint,
}

/// A reader of rows, and the row that is open.
pub struct Reader {
    alloc: Global,
    /// The rows that give a text its name: `text`, the name, and the text.
    pub named: Vec<Vec<Vec<u8>>>,
    /// The number of these texts that all files of rows may use.
    pub shared: usize,
    /// The text before each line that is printed for the file.
    pub label: String,
    /// The number of the line.
    line: usize,
    /// The number of the row's line.
    pub number: usize,
    /// The number of rows of the file that were asked.
    pub rows: usize,
    /// Whether one of them differs.
    pub differs: bool,
    /// The words of the question.
    pub words: Vec<Vec<u8>>,
    /// The word that is read, or the answer.
    pub word: Vec<u8>,
    /// The text in quotes, from its number on; or the text after the row.
    quoted: Vec<u8>,
    /// The text in quotes before its number.
    before: Option<Vec<u8>>,
    /// The text outside of quotes.
    bare: Vec<u8>,
    is_quoted: bool,
    /// Whether the line belongs to the text after the row.
    is_text: bool,
    /// Whether the text after the row is its last word, and not the answer.
    takes_text: bool,
    place: Place,
    /// Why the file can't be read.
    pub fault: Option<Unread>,
}

impl Drop for Reader {
    fn drop(self) {
        let Reader {
            alloc: _,
            named: _,
            shared: _,
            label: _,
            line: _,
            number: _,
            rows: _,
            differs: _,
            words: _,
            word: _,
            quoted: _,
            before: _,
            bare: _,
            is_quoted: _,
            is_text: _,
            takes_text: _,
            place: _,
            fault: _,
        } = self;
    }
}

/// The number of digits that end a piece.
fn count_of(digits: &[u8]) -> Option<usize> {
    let Ok(text) = str::from_utf8(digits) else {
        return None;
    };
    match text.parse::<usize>() {
        Ok(count) if count <= MOST => Some(count),
        _ => None,
    }
}

/// The text of a name.
fn text_named<'a>(named: &'a [Vec<Vec<u8>>], name: &[u8]) -> Option<&'a [u8]> {
    for row in named {
        match row.as_slice() {
            [_, found, text] if found.as_slice() == name => return Some(text.as_slice()),
            _ => {}
        }
    }
    None
}

/// Adds a text and a number.
fn add_number(word: &mut Vec<u8>, text: &[u8], number: usize) -> Result<(), AllocError> {
    word.extend_from_slice(text)?;
    match write!(word, "{number}") {
        Ok(()) => Ok(()),
        Err(_) => Err(AllocError),
    }
}

/// Whether a row gives a text its name.
fn is_naming(words: &[Vec<u8>]) -> bool {
    match words.first() {
        Some(word) => word.as_slice() == b"text".as_slice(),
        None => false,
    }
}

impl Reader {
    /// No texts that have names, and no row.
    pub fn new(alloc: Global) -> Reader {
        Reader {
            alloc,
            named: Vec::new(alloc),
            shared: 0,
            label: String::new(alloc),
            line: 0,
            number: 0,
            rows: 0,
            differs: false,
            words: Vec::new(alloc),
            word: Vec::new(alloc),
            quoted: Vec::new(alloc),
            before: None,
            bare: Vec::new(alloc),
            is_quoted: false,
            is_text: false,
            takes_text: false,
            place: Place::Bare,
            fault: None,
        }
    }

    /// Records why the file can't be read. What is read of it from there on is not asked.
    pub fn refuse(&mut self, fault: Unread) {
        if self.fault.is_none() {
            self.fault = Some(fault);
        }
    }

    fn note(&mut self, done: Result<(), AllocError>) {
        if done.is_err() {
            self.refuse(Unread::OutOfMemory);
        }
    }

    /// Begins a file.
    pub fn begin(&mut self, label: String) {
        if label.ends_with(".rows") {
            self.named.truncate(self.shared);
        }
        self.label = label;
        self.line = 0;
        self.number = 0;
        self.rows = 0;
        self.differs = false;
        self.fault = None;
        self.clear();
    }

    /// Closes the row.
    pub fn clear(&mut self) {
        self.words.clear();
        self.word.clear();
        self.takes_text = false;
        self.clear_piece();
    }

    fn clear_piece(&mut self) {
        self.is_quoted = false;
        self.before = None;
        self.quoted.clear();
        self.bare.clear();
    }

    /// Takes a line: a comment after `#`, an empty line, the text after the row with `|` before it, or a row.
    pub fn take_line(&mut self, line: &[u8]) {
        self.line = self.line.saturating_add(1);
        match line {
            [] | [b'#', ..] => {}
            [b'|', text @ ..] => self.take_text(text),
            _ => self.take_row(line),
        }
    }

    fn take_text(&mut self, text: &[u8]) {
        if self.words.is_empty() {
            self.refuse(Unread::NoRow);
        }
        self.is_text = true;
        self.place = Place::Quoted;
        self.take_all(text);
        match self.place {
            Place::Quoted => self.push(b'\n'),
            _ => self.refuse(Unread::Unended),
        }
    }

    fn take_row(&mut self, line: &[u8]) {
        self.number = self.line;
        self.is_text = false;
        self.place = Place::Bare;
        self.take_all(line);
        self.take(b' ');
        match self.place {
            Place::Bare => self.end_row(),
            _ => self.refuse(Unread::Unended),
        }
    }

    /// Ends the line of a row. The last blank does not belong to the answer.
    fn end_row(&mut self) {
        if self.takes_text && self.word.pop().is_none() {
            self.refuse(Unread::NoAnswer);
        }
        if self.words.is_empty() {
            self.refuse(Unread::BadWords);
        }
        if is_naming(&self.words) {
            self.takes_text = true;
        }
    }

    /// Ends the row that is open, and says whether it asks something. A row that names a text does not.
    pub fn ends_question(&mut self) -> bool {
        if self.words.is_empty() {
            return false;
        }
        self.end_text();
        if is_naming(&self.words) {
            self.name_text();
            return false;
        }
        self.fault.is_none()
    }

    /// Takes the text after the row as its last word or its answer.
    fn end_text(&mut self) {
        if !self.takes_text {
            swap(&mut self.word, &mut self.quoted);
            if self.word.is_empty() {
                self.refuse(Unread::NoAnswer);
            }
        } else if !self.quoted.is_empty() {
            let text = replace(&mut self.quoted, Vec::new(self.alloc));
            self.add_word(text);
        }
    }

    /// Gives the last word of the row its name, which no other text has.
    fn name_text(&mut self) {
        match self.words.as_slice() {
            [_, name, _] => match text_named(&self.named, name) {
                Some(_) => self.refuse(Unread::NamedTwice),
                None => self.keep_text(),
            },
            _ => self.refuse(Unread::BadWords),
        }
    }

    fn keep_text(&mut self) {
        let row = replace(&mut self.words, Vec::new(self.alloc));
        if self.named.push(row).is_err() {
            self.refuse(Unread::OutOfMemory);
        }
    }

    fn take_all(&mut self, bytes: &[u8]) {
        for byte in bytes {
            self.take(*byte);
        }
    }

    fn take(&mut self, byte: u8) {
        match self.place {
            Place::Bare => self.take_bare(byte),
            Place::Quoted => self.take_quoted(byte),
            Place::Escape => self.take_escape(byte),
            Place::HighDigit => self.place = Place::LowDigit(self.digit(byte)),
            Place::LowDigit(high) => {
                let low = self.digit(byte);
                self.push((high % 16) * 16 + low % 16);
            }
            Place::Joint => self.take_joint(byte),
        }
    }

    fn take_bare(&mut self, byte: u8) {
        match byte {
            b' ' => self.end_word(),
            b'+' if self.is_quoted || self.bare.first() == Some(&b'$') => self.end_piece(
                Place::Joint,
            ),
            b'"' if self.is_quoted || !self.bare.is_empty() => self.refuse(Unread::BadCharacter),
            b'"' => {
                self.is_quoted = true;
                self.place = Place::Quoted;
            }
            _ => {
                let done = self.bare.extend_from_slice(&[byte]);
                self.note(done);
            }
        }
    }

    /// Takes the first byte of a piece after a `+`.
    fn take_joint(&mut self, byte: u8) {
        self.place = Place::Bare;
        match byte {
            b'"' | b'$' => self.take_bare(byte),
            _ => self.refuse(Unread::BadCharacter),
        }
    }

    fn take_quoted(&mut self, byte: u8) {
        match byte {
            b'"' if !self.is_text => self.place = Place::Bare,
            b'\\' => self.place = Place::Escape,
            _ => self.push(byte),
        }
    }

    /// Adds a byte to the text in quotes.
    fn push(&mut self, byte: u8) {
        self.place = Place::Quoted;
        let done = self.quoted.extend_from_slice(&[byte]);
        self.note(done);
    }

    /// Takes the byte after a backslash.
    fn take_escape(&mut self, byte: u8) {
        match byte {
            b'n' => self.push(b'\n'),
            b'r' => self.push(b'\r'),
            b't' => self.push(b'\t'),
            b'\\' | b'"' => self.push(byte),
            b'x' => self.place = Place::HighDigit,
            b'i' if !self.is_text && self.before.is_none() => self.begin_number(),
            _ => self.refuse(Unread::BadCharacter),
        }
    }

    fn digit(&mut self, byte: u8) -> u8 {
        match byte {
            b'0'..=b'9' => byte - b'0',
            b'a'..=b'f' => byte - b'a' + 10,
            b'A'..=b'F' => byte - b'A' + 10,
            _ => {
                self.refuse(Unread::BadCharacter);
                0
            }
        }
    }

    fn begin_number(&mut self) {
        self.place = Place::Quoted;
        self.before = Some(replace(&mut self.quoted, Vec::new(self.alloc)));
    }

    /// Ends a word, if there is one. The first `=` is no word.
    fn end_word(&mut self) {
        match self.bare.as_slice() {
            [] if !self.is_quoted => {}
            [b'='] if !self.is_quoted && !self.takes_text => {
                self.takes_text = true;
                self.bare.clear();
            }
            _ => self.add_next(),
        }
    }

    /// Adds what is read to the words, or to the answer.
    fn add_next(&mut self) {
        self.end_piece(Place::Bare);
        if self.takes_text {
            let done = self.word.extend_from_slice(b" ");
            self.note(done);
        } else {
            let word = replace(&mut self.word, Vec::new(self.alloc));
            self.add_word(word);
        }
    }

    fn add_word(&mut self, word: Vec<u8>) {
        if self.words.push(word).is_err() {
            self.refuse(Unread::OutOfMemory);
        }
    }

    /// Adds what follows the last `+` or blank to the word.
    fn end_piece(&mut self, place: Place) {
        if self.is_quoted {
            self.add_quoted();
        } else {
            self.add_bare();
        }
        self.place = place;
        self.clear_piece();
    }

    /// Adds the text of a name, or a bare word.
    fn add_bare(&mut self) {
        let done = match self.bare.as_slice() {
            [b'$', name @ ..] => match text_named(&self.named, name) {
                Some(text) => self.word.extend_from_slice(text),
                None => return self.refuse(Unread::NoSuchText),
            },
            bare => self.word.extend_from_slice(bare),
        };
        self.note(done);
    }

    /// Adds the text in quotes, as often as the number after it says.
    fn add_quoted(&mut self) {
        match self.bare.as_slice() {
            [] => self.add(0),
            [b'*', b'.', b'.', digits @ ..] => match count_of(digits) {
                Some(length) => self.fill(length),
                None => self.refuse(Unread::BadCount),
            },
            [b'*', digits @ ..] => match count_of(digits) {
                Some(times) => self.repeat(times, usize::MAX),
                None => self.refuse(Unread::BadCount),
            },
            _ => self.refuse(Unread::BadCharacter),
        }
    }

    /// Adds the text in quotes until the word has this length.
    fn fill(&mut self, length: usize) {
        self.repeat(length, length);
        if self.word.len() != length {
            self.refuse(Unread::NotFilled);
        }
    }

    /// Adds the text in quotes as often as `times` says, while the word is shorter than `length`.
    fn repeat(&mut self, times: usize, length: usize) {
        for number in 0..times {
            if self.word.len() < length {
                self.add(number);
            }
        }
    }

    /// Adds the text in quotes once, with its number.
    fn add(&mut self, number: usize) {
        if let Some(before) = &self.before {
            let done = add_number(&mut self.word, before, number);
            self.note(done);
        }
        let done = self.word.extend_from_slice(self.quoted.as_slice());
        self.note(done);
    }
}
