//! The files of a tree that exports make, on a disk: what is there, how a file gets its place, what is mended, and what leaves. Where the
//! bytes come from is not known here: `exporting` asks an archive for them.
#![tactic(auto)]

mod by_hash;
mod leaving;
mod looking;
mod mending;
mod paths;
mod placing;
mod planning;
mod site;
mod states;
mod writing;

pub use by_hash::add_by_hash;
pub use leaving::leave_suites;
pub use looking::look;
pub use mending::mend_file;
pub use placing::{
    end_place, leave, open_place, remove_cut, remove_left, remove_old_states, save, show_state,
    vouch, write_page,
};
pub use planning::{Counts, counts_of, manifest_of, steps_of};
pub use site::{Site, kept_of, opened_folders};
pub use states::{
    Standing, SuiteState, find_all_shown, has_lost_signature, shows_signed, taken_component,
    unknown_suites,
};
pub use writing::{PAGE, move_state, touch_release, write_in};
