//! Recordings: a hub is run to its end.
#![tactic(auto)]

pub mod examples;
mod fault;
mod finished;
mod noting;
mod serial;
mod shared;
mod workers;

pub use fault::RecordFault;
pub use noting::{Fork, record_noting};
pub use serial::record_serial;
pub use workers::{MAX_WORKERS, record};
