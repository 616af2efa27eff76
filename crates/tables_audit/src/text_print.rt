//! The prints of index texts.

use para::Text;
use sums::Print;

/// The print of the index text at a path, which is the whole path without a leading slash: `dists/CODENAME/PATH`.
#[derive(Drop)]
pub struct TextPrint {
    pub path: Text,
    pub print: Print,
}
