//! The records of an upload: .changes, .dsc, and the sidecar of a package file (Debian Policy 5.3 to 5.6).
#![tactic(auto)]

mod changes;
mod checks;
mod dsc;
mod fault;
mod field_name;
mod laws;
mod names;
mod parts;
mod sidecar;

pub use changes::{Changes, MOST_CHANGES};
pub use dsc::{Dsc, MOST_DSC};
pub use fault::RecordFault;
pub use field_name::FieldName;
pub use laws::{changes_are_read, dscs_are_read, sidecars_are_read};
pub use names::{is_architecture, is_package, is_plain};
pub use parts::{all_differ, texts_of};
pub use sidecar::Sidecar;
