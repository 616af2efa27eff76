//! The configuration of an archive, and what it says of an upload.
#![tactic(auto)]

mod checks;
mod config;
mod days;
mod fault;
mod judgement;
mod laws;
mod names;
mod paragraph;
mod size;
mod suite;
mod uploader;
mod verdict;
mod without_memory;

pub use config::{Config, MOST_CONFIG};
pub use days::Days;
pub use fault::ConfigFault;
pub use judgement::{Place, judge};
pub use laws::{
    a_name_claimed_twice_is_told, configurations_are_read, faults_are_lowest,
    largest_files_are_bounded, new_configurations_are_read, one_configuration, suites_claim_apart,
    verdicts_have_numbers,
};
pub use size::Mebibytes;
pub use suite::{Suite, component_of_section, position_of_named};
pub use uploader::{Rule, SourcePattern};
pub use verdict::Verdict;
