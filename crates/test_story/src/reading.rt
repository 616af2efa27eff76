//! What is read of a connection: what a request asks for, or why it is refused.

use crate::readers::Pieces;
use desk::Desk;
use desk::head::{Ask, Refusal, read_wanted};
use desk::request::{Request, read_request};
use queue::ReaderFailed;
use std::alloc::{AllocError, Global};
use std::fmt::Write;
use telling::{Page, Question};
use test_rows::Unread;

/// The numbers of bytes that come in one read.
const SIZES: [usize; 4] = [1, 2, 7, 1000];

/// Adds `nothing`, the status of a refusal, `asks` for a command, or `H1`.
fn add_status(text: &mut String, read: &Result<Request, ReaderFailed>) -> Result<(), AllocError> {
    match read {
        Ok(Request::Nothing) => text.push_str("nothing"),
        Ok(Request::Refused(refusal)) => {
            let status = refusal.status().as_u16();
            write!(text, "{status}")
        }
        Ok(Request::Asks(_)) => text.push_str("asks"),
        Err(ReaderFailed) => text.push_str("H1"),
    }
}

/// The answer to a request, and the number of bytes that are left.
fn status_text(
    alloc: Global,
    read: &Result<Request, ReaderFailed>,
    left: usize,
) -> Result<String, AllocError> {
    let mut text = String::new(alloc);
    add_status(&mut text, read)?;
    write!(text, " {left}")?;
    Ok(text)
}

/// The answer to bytes that come at most `most` in one read, and the number of them that are left.
fn status_at(alloc: Global, bytes: &[u8], most: usize) -> Result<String, AllocError> {
    let mut reader = Pieces {
        bytes,
        most,
        fails: false,
    };
    let read = read_request(alloc, &Desk::new(alloc)?, &mut reader);
    status_text(alloc, &read, reader.bytes.len())
}

/// The answer, if it differs from the first.
fn other_status(
    alloc: Global,
    bytes: &[u8],
    most: usize,
    first: &str,
) -> Result<Option<Vec<u8>>, AllocError> {
    let found = status_at(alloc, bytes, most)?;
    if found.as_str() == first {
        return Ok(None);
    }
    let told = format!(in alloc; "{first}, and {found} by {most}")?;
    Ok(Some(told.into_bytes()))
}

/// `status BYTES`: the answer to the head of a request before the archive is called, and the number of bytes after it that are left
/// unread, for several numbers of bytes in one read.
pub fn status(alloc: Global, words: &[Vec<u8>]) -> Result<Vec<u8>, Unread> {
    let [bytes] = words else {
        return Err(Unread::BadWords);
    };
    let first = status_at(alloc, bytes, 1)?;
    for most in SIZES {
        if let Some(other) = other_status(alloc, bytes, most, &first)? {
            return Ok(other);
        }
    }
    Ok(first.into_bytes())
}

/// How a question is answered: by lines, or by objects of JSON.
fn kind_of(is_json: bool) -> &'static str {
    if is_json { "objects" } else { "lines" }
}

/// Adds the key of a page, if it has one.
fn add_key(text: &mut String, key: &Option<String>) -> Result<(), AllocError> {
    match key {
        Some(name) => write!(text, " {name:?}"),
        None => Ok(()),
    }
}

/// Adds a page.
fn add_page(text: &mut String, page: &Page) -> Result<(), AllocError> {
    match page {
        Page::Suites => text.push_str("page suites"),
        Page::Uploads => text.push_str("page uploads"),
        Page::Suite { codename } => write!(text, "page suite {codename:?}"),
    }
}

/// Adds a question about what has a name, or about all.
fn add_named(
    text: &mut String,
    word: &str,
    name: &Option<String>,
    is_json: bool,
) -> Result<(), AllocError> {
    let kind = kind_of(is_json);
    match name {
        Some(name) => write!(text, "{word} {name:?} {kind}"),
        None => write!(text, "{word} {kind}"),
    }
}

/// Adds a question.
fn add_question(text: &mut String, question: &Question) -> Result<(), AllocError> {
    match question {
        Question::Why { name, is_json } => add_named(text, "why", name, *is_json),
        Question::Shown { suite, is_json } => add_named(text, "list", suite, *is_json),
        Question::Configuration => text.push_str("configuration"),
        Question::Waiting => text.push_str("waiting objects"),
        Question::Verdicts => text.push_str("verdicts objects"),
        Question::Figures => text.push_str("figures"),
        Question::Status => text.push_str("status"),
        Question::Page { page, key } => {
            add_page(text, page)?;
            add_key(text, key)
        }
    }
}

/// Adds a command and its arguments.
fn add_wanted(text: &mut String, wanted: &Ask) -> Result<(), AllocError> {
    match wanted {
        Ask::Deliver { name, length } => write!(text, "deliver {name:?} {length}"),
        Ask::Run => text.push_str("run"),
        Ask::Copy { from, to, source } => write!(text, "copy {from:?} {to:?} {source:?}"),
        Ask::Fetch { path, is_pool } => {
            let kind = if *is_pool { "pool" } else { "dists" };
            write!(text, "fetch {path:?} {kind}")
        }
        Ask::Waiting => text.push_str("waiting"),
        Ask::Clean => text.push_str("clean"),
        Ask::Verdicts => text.push_str("verdicts"),
        Ask::Remove { suite, name } => write!(text, "remove {suite:?} {name:?}"),
        Ask::Promote { from, to } => write!(text, "promote {from:?} {to:?}"),
        Ask::Question(question) => add_question(text, question),
    }
}

/// Adds the status of a refusal, and the method that is wanted instead.
fn add_refusal(text: &mut String, refusal: Refusal) -> Result<(), AllocError> {
    let status = refusal.status().as_u16();
    match refusal.into_allowed() {
        Some(method) => {
            let method = method.as_str();
            write!(text, "{status} {method}")
        }
        None => write!(text, "{status}"),
    }
}

/// Adds what was read of a head.
fn add_read(text: &mut String, read: Result<Ask, Refusal>) -> Result<(), AllocError> {
    match read {
        Ok(wanted) => add_wanted(text, &wanted),
        Err(refusal) => add_refusal(text, refusal),
    }
}

/// `wanted HEAD`: what a head asks for, or why it is refused.
pub fn wanted(alloc: Global, words: &[Vec<u8>]) -> Result<Vec<u8>, Unread> {
    let [head] = words else {
        return Err(Unread::BadWords);
    };
    let mut text = String::new(alloc);
    let desk = Desk::new(alloc)?;
    add_read(&mut text, read_wanted(alloc, &desk, head))?;
    Ok(text.into_bytes())
}
