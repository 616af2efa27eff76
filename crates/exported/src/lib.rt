//! Texts of what an export leaves in a tree of files: the paths and names in it, and the manifest for the next export.
#![tactic(auto)]

mod manifest;
mod names;

pub use manifest::{Known, Manifest, ShownStates, Stamp, Vouched, Word};
pub use names::{
    OWN, folder_of, has_parts, is_name, is_pool_path, is_state_of, new_name, state_name,
};
