//! The memory model: what is legal, what happens before what, what a data race is.
//!
//! The definitions stand in specs/. The functions here do nothing: their contracts are the laws of the definitions, and small examples.
#![tactic(auto)]

pub mod examples;
pub mod laws;
pub mod lock_examples;
pub mod once_examples;
pub mod predict_examples;
pub mod try_examples;
