//! What the proofs of a clock know of the type of its allocator.
ghost use Rattle.race_clock.specs.ClockFits.{FitsInClock};

use std::alloc::Allocator;

/// Each allocator has it. Its member says that the counts of a clock with that allocator are no larger than memory.
pub trait Fits: Allocator {
    ghost fits: { Type 0 };

    ghost tells: { fits → FitsInClock Self.row Self.Allocator };
}

impl<A: Allocator> Fits for A {
    ghost fits = { FitsInClock A.row A.Allocator };

    ghost tells = { λ h. h };
}
