//! The search for races of other runs of the same goroutines, from one trace.
//!
//! It proposes lists of event numbers, and nothing is proved of it but that it returns: each proposal is tested by race_predict, and what
//! fails is left out.
#![tactic(auto)]

mod accesses;
mod candidates;
mod closure;
mod course;
mod known;
mod locksets;
mod pairs;
mod predictions;
mod proposal;
mod rows;
mod scene;
mod search;
mod shared;
mod steps;
mod turned;
mod walk;
mod wants;

pub use predictions::{Predictions, predict, predict_on};
