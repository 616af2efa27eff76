//! What an index text is of, and what a Release says of it.

use para::Text;
use sums::Print;

/// What distinguishes an index of a suite from its other indices.
#[derive(Drop)]
pub struct IndexPlace {
    pub component: Text,
    pub architecture: Text,
}

/// An index that a Release lists: its path from the folder of the suite, and its print.
#[derive(Drop)]
pub struct Index {
    pub path: Text,
    pub print: Print,
}

/// Which digest a list of files has.
#[derive(Clone, Copy)]
pub enum Digest {
    Md5,
    Sha1,
    Sha256,
}
