//! The verdict on a trace: an event breaks a rule, or there is no race, or these are its races.
#![tactic(auto)]

pub mod examples;
mod races;
mod report;
mod verdict;

pub use races::{Race, RaceList};
pub use report::{Report, ReportedAccess, ReportedRace};
pub use verdict::Verdict;
