//! Judging by threads: the verdict on a list of events that comes in blocks, from shards that share the variables
//! among them. And the witness of a race: an order of the accesses in which the two stand side by side.
#![tactic(auto)]

mod alone;
mod block;
mod fault;
mod feeding;
mod gate;
mod judge;
pub mod laws;
mod order;
mod pair;
mod races;
mod seen;
mod shard;
mod variables;
mod walk;
mod whole;
mod witnesses;

pub use alone::judge_alone;
pub use fault::{JudgeFault, MAX_BLOCK, MAX_SHARDS, WitnessFault};
pub use gate::{Gate, OpenGate};
pub use judge::Judge;
pub use seen::last_seen;
pub use witnesses::witness;
