//! What the suites show, and what an upload changes of it: verdicts, items, the pool, and the plan of a change.
#![tactic(auto)]

mod admission;
mod codename;
mod copy_plan;
mod item;
mod items;
mod key;
mod listing;
mod moving;
mod paths;
mod plan;
mod pool;
mod readings;
mod removal_plan;
mod shelves;
mod source;
mod upload;
mod upload_plan;
mod verdict;

pub use codename::codename_at;
pub use copy_plan::{plan_copy, plan_copy_of};
pub use item::{Item, PoolFile, are_same_files, copied_files};
pub use key::{Kind, ShelfKey};
pub use listing::{
    has_architecture, has_joined, has_source, is_package_part, lists, package_file, stem,
};
pub use moving::{is_kept_by, moved_shelves};
pub use paths::{directory, pool_path};
pub use plan::{Plan, Reference};
pub use readings::{changes_in, dsc_within, sidecar_in};
pub use removal_plan::{is_removed, plan_remove};
pub use shelves::{SharedFile, Shelves};
pub use source::{deb_name, dsc_name, is_same_package, sidecar_name};
pub use upload::{Upload, entry_named, has_suffix, has_text};
pub use upload_plan::plan_upload;
pub use verdict::{is_missing, is_taken};
