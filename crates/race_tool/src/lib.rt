//! The engines of the race detector: bytes in, bytes out.
#![tactic(auto)]

mod certify;
mod check;
mod draw;
mod edges;
mod engine;
pub mod examples;
mod explain;
mod explore;
mod explore_printing;
mod handed;
mod input;
mod intake;
mod judged;
mod keeper;
pub mod laws;
mod predict;
mod predict_printing;
mod printing;
mod race;
mod race_printing;
mod recorded;
mod reply;
mod round;
mod run;
pub mod status;
mod stream_found;
mod witness;

pub use certify::run_certify;
pub use check::{CheckOptions, run_check};
pub use draw::run_draw;
pub use edges::run_edges;
pub use explain::run_explain;
pub use explore::{ExploreOptions, run_explore};
pub use predict::{MAX_PREDICTED, PredictOptions, run_predict};
pub use race::run_race;
pub use race_explore::{MAX_RUNS, Orders};
pub use race_record::MAX_WORKERS;
pub use race_shards::{MAX_BLOCK, MAX_SHARDS};
pub use run::{RunOptions, run_run};
pub use witness::run_witness;
