//! What is kept of a variable's accesses: those that can still race, and after the first race its pair.
#![tactic(auto)]

mod access;
mod accesses;
pub mod laws;
mod variable;

pub use variable::VarState;
