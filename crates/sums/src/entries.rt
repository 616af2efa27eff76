//! What the lists of a record say of a file.

use crate::print::Print;
use para::Text;

/// The record that the lists stand in.
#[derive(Clone, Copy, Debug, PartialEq, Eq)]
pub enum ListKind {
    /// A source package's description.
    Dsc,
    /// The list of an upload, whose `Files` has sections and priorities.
    Changes,
}

/// A file of a record (Debian Policy 5.6.21, 5.6.24). Section and priority are empty in a .dsc.
#[derive(Drop)]
pub struct Entry {
    pub name: Text,
    pub print: Print,
    pub section: Text,
    pub priority: Text,
}
