//! What a change makes of what is kept.
//!
//! A change is a list of plans in order, the plan of an upload with its judgement beside it. It judges the first of the uploads that are
//! due, and is made whole or not at all.
//!
//! It names the index texts that differ, so that a keeper which stores texts writes these alone. The plain keeper renders a text when it is
//! asked for one, and passes over those of a change.

ghost use Rattle.std.specs.Prelude.{◌≡◌};
ghost use Rattle.sums.specs.Prints.{print as print_of};

use para::{Listed, Text};
use rules::Verdict;
use suites::Plan;
use sums::{Print, print_of};

/// A judged upload: the name and the print of its .changes, and its verdict.
#[derive(Drop)]
pub struct Judgement {
    pub name: Text,
    pub print: Print,
    pub verdict: Verdict,
}

/// One step of a change: a plan, made for what the steps before it leave, and the judgement from which it comes, if it is
/// the plan of an upload.
#[derive(Drop)]
pub struct Step {
    pub judgement: Option<Judgement>,
    pub plan: Plan,
}

/// An index text that a change writes: its path without a leading slash, the whole text, and the text's print.
#[derive(Drop)]
pub struct IndexText {
    pub path: Text,
    pub text: Listed<u8>,
    pub print: Print,
    ghost printed: { print ≡ print_of text },
}

impl IndexText {
    ghost use Rattle.std.specs.Prelude.{string_bytes};

    /// The text at a path without a leading slash.
    pub fn new(path: String, text: Vec<u8>) -> IndexText
        ensures { (result.path ≡ string_bytes path) × (result.text ≡ text.items) }
    {
        let print = print_of(&text);
        IndexText::with_print(path, text, print)
    }

    /// The text at a path without a leading slash, if the text's print is known already.
    pub fn with_print(path: String, text: Vec<u8>, print: Print) -> IndexText
        requires { print ≡ print_of text.items }
        ensures { (result.path ≡ string_bytes path) × (result.text ≡ text.items) }
    {
        IndexText {
            path: Text::from_string(path),
            text: Listed::from_vec(text),
            print,
        }
    }
}

/// A change, made whole or not at all: its steps in order. The moment, in seconds since 1970-01-01 00:00:00 UTC, becomes
/// the date of each suite whose shown items change. The texts are those of the indices that the change makes differ.
#[derive(Drop)]
pub struct Change {
    pub moment: u64,
    pub steps: Listed<Step>,
    pub texts: Listed<IndexText>,
}

/// A listed file of which no arrival counts: its name and its print, and whether it came and no longer counts.
#[derive(Drop)]
pub struct Lack {
    pub name: Text,
    pub print: Print,
    pub is_ended: bool,
}

/// An upload without a verdict: the name and the print of its .changes, and the listed files of which no arrival counts, in
/// the order of their names.
#[derive(Drop)]
pub struct Waiting {
    pub name: Text,
    pub print: Print,
    pub lacks: Listed<Lack>,
}
