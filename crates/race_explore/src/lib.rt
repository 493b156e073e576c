//! All runs of a program, one after another: which variables race in them, and how they end.
#![tactic(auto)]

pub mod examples;
mod explored;
mod fault;
pub mod laws;
mod odometer;
mod orders;
mod places;
mod reported;
mod stuck;
mod walk;
mod walked;

pub use explored::{Explored, RacyVariable};
pub use fault::ExploreFault;
pub use orders::Orders;
pub use stuck::{BadEnd, Standing};
pub use walk::{MAX_RUNS, explore};
pub use walked::program_hub;
