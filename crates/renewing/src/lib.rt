//! The index texts that a change makes different, and what is handed to a keeper with another configuration.
#![tactic(auto)]

mod configuring;
mod last;
mod printed;
mod renewal;
mod stanzas;

pub use configuring::configured;
pub use last::LastTexts;
pub use renewal::renewed_texts;
