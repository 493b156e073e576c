//! What is synchronized before what in a trace, and the plain judge, which reads the races off it.
#![tactic(auto)]

mod edge_list;
mod fault;
mod judge;
mod kinds;
mod numbers;
mod races;
mod synchronized;
mod table;

pub use edge_list::{Edge, edges};
pub use fault::{EdgeFault, MAX_PLAIN_EVENTS};
pub use judge::plain_judge;
pub use race_verdict::{Race, RaceList, Verdict};
