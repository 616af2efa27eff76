//! A keeper of an archive over the tables of a database: bodies, arrivals and what uploads want are read from the tables,
//! and a piece of a body, its arrival, both for a body of one piece, a change, a cleaning, another configuration and the making of an
//! archive are one transaction each. An opening reads all rows and says whether they are those of an archive.
#![tactic(auto)]

mod arrived;
mod changes;
mod cleanings;
mod coming;
mod configurations;
mod keeper;
mod lacks;
mod laws;
mod opening;
mod reads;
mod shelves;
mod text_prints;
mod uploads;

pub use keeper::TableKeeper;
pub use laws::{a_keeper_is_its_tables, first_rows};
pub use tables::meta::{VERSION as LAYOUT, layout_of};
pub use tables_meaning::fault_of;
pub use tables_read::InOrder;
