//! Why the runs of a program weren't looked at.
ghost use Rattle.std.specs.Prelude.{◌≡◌, ◌≢◌};

use race_record::RecordFault;
use std::alloc::AllocError;
use thiserror::Error;

/// Why the runs of a program weren't looked at.
#[derive(Clone, Copy, Debug, PartialEq, Eq, Error)]
pub enum ExploreFault {
    /// The limit on the events of a run, or that on the runs, is out of its limits.
    #[error("a limit is out of range")]
    BadLimit,
    /// A growth was refused.
    #[error("out of memory")]
    OutOfMemory,
    /// A run wasn't recorded, or what was recorded isn't a run of the program.
    #[error("the recording is no run of the program")]
    NotARun,
}

impl From<AllocError> for ExploreFault {
    ghost use Rattle.std.specs.Prelude.{◌≡◌};
    ghost use Rattle.race_explore.specs.declared.fault.ExploreFault.{ExploreFault};

    ghost from_gives = { λ _ why. why ≡ ExploreFault.OutOfMemory };

    fn from(_refused: AllocError) -> ExploreFault {
        ExploreFault::OutOfMemory
    }
}

/// What the fault of a recording comes to.
pub(crate) fn unrecorded(fault: RecordFault) -> ExploreFault
    ensures mismatch { result ≡ ExploreFault.NotARun → fault ≡ RecordFault.Mismatch }
    ensures in_limits { result ≢ ExploreFault.BadLimit }
{
    match fault {
        RecordFault::Mismatch => ExploreFault::NotARun,
        RecordFault::OutOfMemory => ExploreFault::OutOfMemory,
        // There are no workers.
        RecordFault::NoThread => ExploreFault::OutOfMemory,
        RecordFault::BadWorkers => ExploreFault::OutOfMemory,
    }
}
