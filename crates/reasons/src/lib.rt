//! Why an upload is refused: what its verdict is about, as an architecture or a file.
//!
//! If several may be named, the first is found by the same test by which the verdict's rule asks whether there is any. So
//! one is found if and only if the rule applies. Nothing here judges except `reason_of`, which asks `suites` for the verdict.
#![tactic(auto)]

mod about;
mod differences;
mod found;
mod laws;
mod listing;
mod naming;
mod reading;
mod sidecars;
mod why;

pub use about::{Named, Reason};
pub use differences::{DscDifference, SidecarDifference, dsc_difference, sidecar_difference};
pub use found::{
    foreign_architecture, listed_part, missing_file, other_component, taken_entry, unlisted_file,
};
pub use laws::{
    a_difference_is_named, a_listing_is_named, a_refusal_names, twins_are_named,
    verdicts_on_a_changes_name, verdicts_on_files_name, what_is_named_is_there,
};
pub use listing::{
    lacks_dsc, listed_changes, lone_package, lone_sidecar, source_file, surplus_dsc,
};
pub use naming::suite_of;
pub use sidecars::twins;
pub use why::reason_of;
