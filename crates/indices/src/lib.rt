//! What the index texts of an archive are: which index lists an item, how many items a suite shows, and what Packages, Sources and Release
//! say.
#![tactic(auto)]

mod counting;
mod index;
mod moment;
mod packages;
mod sources;

pub use counting::item_count;
pub use index::{Digest, Index, IndexPlace};
pub use moment::LATEST;
pub use packages::lists_package;
pub use sources::lists_source;
