//! The laws of touches. Each function does nothing, and its contract is the law.
ghost use Rattle.race_access.specs.Laws.{TouchesAreLawful, TouchesRaceAsEvents, OneRaceIsReported};

use race_records::Event;

/// The accesses of a variable, with their stamps and clocks, are lawful.
pub fn touches_are_lawful(_events: &[Event])
    ensures { TouchesAreLawful _events.now }
{}

/// The race that is reported of them is the one that is reported of the events.
pub fn touches_race_as_events(_events: &[Event])
    ensures { TouchesRaceAsEvents _events.now }
{}

/// Of any touches one race is reported, or none.
pub fn one_race_is_reported()
    ensures { OneRaceIsReported }
{}
