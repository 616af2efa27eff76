//! Questions to an archive that change nothing, and their answers, over any keeper: why uploads have their verdicts and what the waiting
//! ones lack, what suites show, the configuration, uploads as objects, figures, and pages for people.
#![tactic(auto)]

mod answer;
mod fault;
mod figure;
mod laws;
mod lines;
mod page;
mod question;
mod why;

pub use answer::tell;
pub use fault::TellFault;
pub use question::{Page, Question};
