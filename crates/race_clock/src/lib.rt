//! Vector clocks, and the stamps that they put on accesses.
#![tactic(auto)]

mod channel;
mod clock;
mod clocks;
mod fits;
pub mod laws;
mod lock;
mod stamp;
mod stamper;
mod sync_clock;
mod thread_clock;

pub use clock::Clock;
pub use fits::Fits;
pub use stamp::Stamp;
pub use stamper::Stamper;
