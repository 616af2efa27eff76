//! The program over any keeper in a file: it does a line of the command line over the archive of a database file, exports the archive into
//! a folder, and serves it over HTTP.
#![tactic(auto)]

mod client;
mod export;
mod line;
mod log;
mod moments;
mod notes;
mod serving;
mod serving_file;

pub use commands::database::{close, create_archive, open_archive};
pub use commands::explain;
pub use commands::fault::Stop;
use commands::{database, fault};
pub use in_file::{FileArchives, InFile, OpenFault};
pub use line::act;
pub use serving::serve;
