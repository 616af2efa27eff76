//! The transactions on an archive's rows: a new archive, a change and another configuration, each all or nothing.
#![tactic(auto)]

mod amending;
mod configuring;
mod creating;
mod founding;

pub use amending::amend;
pub use configuring::{configure, configure_inside};
pub use creating::{create, is_without_tables};
pub use founding::found_inside;
