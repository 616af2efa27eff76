//! The index texts of an archive: Packages, Sources and Release.
#![tactic(auto)]

mod binary_index;
mod date;
mod index;
mod places;
mod position;
mod source_index;
mod stanza;
mod suite_release;

pub use binary_index::{package_stanza, packages};
pub use date::date_text;
pub use index::{index_path, index_text, indices_of, listed_text, release_of};
pub use indices::{Index, IndexPlace, LATEST};
pub use places::{path_in, places_of};
pub use source_index::{file_name, source_stanza, sources};
pub use stanza::paragraph_in;
pub use suite_release::release;
