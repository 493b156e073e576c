//! How long a trace may be, and why there is no answer.

use thiserror::Error;

/// The most events of a trace whose edges are listed, or that the plain judge takes.
pub const MAX_PLAIN_EVENTS: usize = 2_000;

// Definitions cite this number, so it is written down twice.
const _: () = prove!(MAX_PLAIN_EVENTS == 2_000);

/// Why there is no answer of `edges` or `plain_judge`.
#[derive(Clone, Copy, Debug, PartialEq, Eq, Error)]
pub enum EdgeFault {
    /// An event breaks a rule. The judge doesn't answer it: an illegal trace is a verdict.
    #[error("the trace is illegal")]
    Illegal,
    /// There are more than 2,000 events. It is tested first.
    #[error("the trace is too long")]
    TooLong,
    /// A growth was refused.
    #[error("out of memory")]
    OutOfMemory,
}
