//! What a race of another run of the same goroutines is: a run that shows it, made of the recorded events and tested event by event.
//!
//! Whoever proposes a list of events, one loop tests it (`certify`): what passes is a trace of its own, which a judge takes.
#![tactic(auto)]

mod attempt;
mod certify;
pub mod examples;
mod fault;
mod parts;
mod positions;
mod prediction;

pub use certify::{certificate, tested};
pub use fault::PredictFault;
pub use parts::partner;
pub use positions::{Position, positions_of};
pub use prediction::Prediction;
