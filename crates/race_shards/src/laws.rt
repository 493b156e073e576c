//! The laws of witnesses. Each function does nothing, and its contract is the law.
ghost use Rattle.race_shards.specs.Witness.{WitnessListIsReordering, WitnessListIsOne};

use race_records::Event;

/// The list of a race is a reordering in which the second access stands directly before the first.
pub fn witness_list_is_reordering(_events: &[Event])
    ensures { WitnessListIsReordering _events.now }
{}

/// A race has one list at most.
pub fn witness_list_is_one(_events: &[Event])
    ensures { WitnessListIsOne _events.now }
{}
