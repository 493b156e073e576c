//! The laws of stamps. Each function does nothing, and its contract is the law.
ghost use Rattle.race_clock.specs.Laws.{KnownIsHappensBefore, StampsAreLawful};

use race_records::Event;

/// Of two accesses the first happens before the second exactly where the second's clock knows it.
pub fn known_is_happens_before(_events: &[Event])
    ensures { KnownIsHappensBefore _events.now }
{}

/// Indexes rise; a stamp is known to the later ones of its goroutine, and to no earlier one; known is transitive.
pub fn stamps_are_lawful(_events: &[Event])
    ensures { StampsAreLawful _events.now }
{}
