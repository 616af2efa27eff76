//! The tests, a module for each subject.

mod attended;
mod checks;
mod counted;
mod databases;
mod kept_values;
mod promised;
mod refusals;
mod uploads;
mod wanting;
