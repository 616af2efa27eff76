//! What an archive keeps in memory of the index texts that it made last. The next ones are made in less time by it, and are the same
//! without it.

use crate::printed::PrintedText;
use crate::stanzas::Stanzas;
use std::alloc::Global;

/// What is kept of the index texts that were made last: their stanzas, and the texts as they were printed.
#[derive(Drop)]
pub struct LastTexts {
    pub(crate) stanzas: Stanzas,
    pub(crate) printed: Vec<PrintedText>,
}

impl LastTexts {
    /// What is kept before any text is made: nothing.
    pub fn new(alloc: Global) -> LastTexts {
        LastTexts {
            stanzas: Stanzas::new(alloc),
            printed: Vec::new(alloc),
        }
    }
}
