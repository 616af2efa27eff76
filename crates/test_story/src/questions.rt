//! Questions that change nothing, and their answers as bytes.

use crate::outcomes::refused_text;
use crate::steps::owned;
use book::Keeper;
use queue::{Archive, Fault};
use std::alloc::Global;
use telling::{Question, tell};
use test_rows::{Unread, number_of, said, text_of};

/// A name that may be left out.
fn optional_of(alloc: Global, words: &[Vec<u8>]) -> Result<Option<String>, Unread> {
    match words {
        [] => Ok(None),
        [word] => Ok(Some(owned(alloc, word)?)),
        _ => Err(Unread::BadWords),
    }
}

/// A question: `why [NAME]`, `list [SUITE]`, each also with `json-` in front, `configuration`, `json-waiting` or `json-verdicts`.
fn question_of(alloc: Global, kind: &str, words: &[Vec<u8>]) -> Result<Question, Unread> {
    let name = optional_of(alloc, words)?;
    match (kind, name) {
        ("why", name) => Ok(Question::Why {
            name,
            is_json: false,
        }),
        ("json-why", name) => Ok(Question::Why {
            name,
            is_json: true,
        }),
        ("list", suite) => Ok(Question::Shown {
            suite,
            is_json: false,
        }),
        ("json-list", suite) => Ok(Question::Shown {
            suite,
            is_json: true,
        }),
        ("configuration", None) => Ok(Question::Configuration),
        ("json-waiting", None) => Ok(Question::Waiting),
        ("json-verdicts", None) => Ok(Question::Verdicts),
        _ => Err(Unread::BadWords),
    }
}

/// `ask MOMENT KIND [NAME]`: the answer to a question, byte for byte, `nothing` if no upload has the name, or the fault.
pub fn ask<K: Keeper>(
    alloc: Global,
    archive: &mut Archive<K>,
    words: &[Vec<u8>],
) -> Result<Vec<u8>, Unread> {
    let [moment, kind, words @ ..] = words else {
        return Err(Unread::BadWords);
    };
    let moment = number_of(moment)?;
    let question = question_of(alloc, text_of(kind)?, words)?;
    match tell(alloc, &mut archive.keeper, &question, moment) {
        Ok(Some(text)) => Ok(text),
        Ok(None) => said(alloc, "nothing"),
        Err(fault) => refused_text(alloc, Fault::from(fault)),
    }
}
