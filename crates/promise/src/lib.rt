//! The promise over a database: an archive is made in a database, or the archive that a database keeps is opened, perhaps for
//! another configuration. Commands follow, also after a stop.
#![tactic(auto)]

mod commands;
mod configured;
mod created;
mod reopened;
mod stop;

pub use configured::drive_configured;
pub use created::drive_created;
pub use keep_tables::InOrder;
pub use reopened::drive_opened;
pub use stop::{a_stop_goes_on, a_stop_in_a_configuration_goes_on};
