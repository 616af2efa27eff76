//! The questions to the layers below the keepers and to the command line, and their answers.

use crate::out::Out;
use test_rows::{Answers, Unread, text_of};

mod of_configs;
mod of_faults;
mod of_indices;
mod of_lists;
mod of_paragraphs;
mod of_records;
mod of_versions;
mod of_words;

/// The layers below the keepers, and the command line. No row depends on those before it.
#[derive(Clone, Copy)]
pub struct Layers;

/// Answers a question on versions, paragraphs or lists, and says whether the words are such a question.
fn answers_of_texts(out: &mut Out, verb: &str, words: &[Vec<u8>]) -> bool {
    of_versions::answer(out, verb, words)
        || of_paragraphs::answer(out, verb, words)
        || of_lists::answer(out, verb, words)
}

/// Answers a question on records, configurations, indices, faults or command lines, and says whether the words
/// are such a question.
fn answers_of_archives(out: &mut Out, verb: &str, words: &[Vec<u8>]) -> bool {
    of_records::answer(out, verb, words)
        || of_configs::answer(out, verb, words)
        || of_indices::answer(out, verb, words)
        || of_faults::answer(out, verb, words)
        || of_words::answer(out, verb, words)
}

impl<R: AllocGlobal> Answers<R> for Layers {
    fn fresh(_rt: &R) -> Layers {
        Layers
    }

    fn answer(&mut self, rt: &R, words: &[Vec<u8>]) -> Result<Vec<u8>, Unread> {
        let Some((verb, words)) = words.split_first() else {
            return Err(Unread::BadWords);
        };
        let verb = text_of(verb)?;
        let mut out = Out::new(rt.alloc());
        if !answers_of_texts(&mut out, verb, words) && !answers_of_archives(&mut out, verb, words) {
            return Err(Unread::NoSuchQuestion);
        }
        out.end()
    }
}
