//! Independent events.
//! Which neighbouring events of a run may change places, and what stays the same where they do.
#![tactic(auto)]

pub mod examples;
mod independent;
pub mod laws;

pub use independent::{are_independent, turned_at};
