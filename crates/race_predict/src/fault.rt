//! Why there is no prediction or no certificate.

use std::alloc::AllocError;
use thiserror::Error;

/// Why there is no prediction or no certificate.
#[derive(Clone, Copy, Debug, PartialEq, Eq, Error)]
pub enum PredictFault {
    /// It fails its test: no run of the recorded goroutines is made of these events, or it doesn't end with a race on the variable, or
    /// the recorded trace has a race on it or is illegal.
    #[error("this is no prediction")]
    NotAPrediction,
    /// A growth was refused.
    #[error("out of memory")]
    OutOfMemory,
}

impl From<AllocError> for PredictFault {
    ghost use Rattle.std.specs.Prelude.{◌≡◌};
    ghost use Rattle.race_predict.specs.declared.fault.PredictFault.{PredictFault};

    ghost from_gives = { λ _ fault. fault ≡ PredictFault.OutOfMemory };

    fn from(_refused: AllocError) -> PredictFault {
        PredictFault::OutOfMemory
    }
}
