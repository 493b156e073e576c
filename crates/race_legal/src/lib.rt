//! Which lists of events are legal: each next event is accepted, or the least rule that it breaks is told.
#![tactic(auto)]

mod channels;
mod goroutines;
mod legality;
mod locks;
mod onces;
mod queue;
mod replay;
mod rule;
mod stack;

pub use legality::{Illegal, legal};
pub use replay::{Broken, Replay};
pub use rule::Rule;
