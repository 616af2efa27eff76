//! A migration: the archive of an older layout, written into a new database under a configuration that is alike; and what that makes of the
//! rows of an archive, as definitions, lemmas, and laws.
#![tactic(auto)]

mod alike;
mod laws;
mod made;
mod writing;

pub use alike::are_alike;
pub use laws::{
    a_moved_archive_is_kept, a_new_archive_takes_copies, an_alike_configuration_keeps_what_is_shown,
};
pub use made::migrate;
