//! The rows of the tables, as code above sees them.
//!
//! A row of `bodies` or `uploads` may be stored without its last columns that are NULL, as ALTER TABLE leaves them. No statement can
//! distinguish such a row from a whole one, so the contracts speak of rows as they are read.

use para::{Listed, Text};
use sums::Print;

/// The one row of `meta`: the version of the tables, and the text of the configuration.
#[derive(Drop)]
pub struct Meta {
    pub version: u64,
    pub configuration: Listed<u8>,
}

/// A body: its print, once it is whole.
#[derive(Clone, Copy)]
pub struct BodyRow {
    pub print: Option<Print>,
}

/// A piece of a body, by the body's number and its own place in it, from 1.
#[derive(Drop)]
pub struct Piece {
    pub body: u64,
    pub number: u64,
    pub bytes: Listed<u8>,
}

/// A name under which a body arrived, and the greatest moment at which it did.
#[derive(Drop)]
pub struct ArrivalRow {
    pub name: Text,
    pub body: u64,
    pub moment: u64,
}

/// A .changes that arrived or was judged: its name and print, and once it is judged its place in the order of judging and its
/// verdict.
#[derive(Drop)]
pub struct UploadRow {
    pub name: Text,
    pub print: Print,
    pub place: Option<u64>,
    pub verdict: Option<u64>,
}

/// An entry of an upload, and whether a body of that name and print has arrived.
#[derive(Drop)]
pub struct Want {
    pub upload: u64,
    pub name: Text,
    pub print: Print,
    pub here: bool,
}

/// What a suite shows under a kind, a package and an architecture.
#[derive(Drop)]
pub struct ItemRow {
    pub suite: Text,
    pub kind: u64,
    pub package: Text,
    pub architecture: Text,
    pub version: Text,
    pub component: Text,
    pub source: Text,
    pub paragraph: Listed<u8>,
}

/// A file of an item, by the item's number and its own place in it, from 1.
#[derive(Drop)]
pub struct Ref {
    pub item: u64,
    pub number: u64,
    pub path: Text,
    pub print: Print,
}

/// A file of the pool, and the number of its body.
#[derive(Drop)]
pub struct File {
    pub path: Text,
    pub body: u64,
}

/// A text of an index, by its path.
#[derive(Drop)]
pub struct TextRow {
    pub path: Text,
    pub body: Listed<u8>,
}

/// The moment at which what a suite shows last changed.
#[derive(Drop)]
pub struct Date {
    pub suite: Text,
    pub moment: u64,
}
