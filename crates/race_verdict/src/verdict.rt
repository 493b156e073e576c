//! What can be said of a trace.
ghost use Rattle.std.specs.Prelude.{◌≡◌, ◌≢◌, ℕ, List, []};
ghost use Rattle.race_records.specs.declared.event.Event.{Event};
ghost use Rattle.race_model.specs.{Legal.IsLegal, Verdict.IsVerdict};
ghost use Rattle.race_verdict.specs.{declared.verdict.Verdict.Verdict, Races.AreRaces, Verdicts.verdict_of};

use crate::races::RaceList;
use race_legal::Illegal;
use std::alloc::{Allocator, Global};

/// What can be said of a trace. (The Go Memory Model, "Memory Model": data race)
#[derive(Debug, Drop)]
pub enum Verdict<A: Allocator = Global> {
    /// An event breaks a rule.
    Illegal(Illegal),
    /// The trace is legal and has no race.
    Clean,
    /// The trace is legal, and these are its races.
    Races(RaceList<A>),
}

impl<A: Allocator> Verdict<A> {
    /// The verdict on a legal list of events with these races.
    pub fn of_races(races: RaceList<A>) -> Verdict<A>
        ensures verdict { (caps : ℕ → ℕ) (events : List Event)
            → IsLegal caps events → AreRaces caps events races → IsVerdict caps events (verdict_of result) }
        ensures clean { races ≡ [] → result ≡ Verdict.Clean }
        ensures races { races ≢ [] → result ≡ Verdict.Races races }
    {
        if races.is_empty() {
            Verdict::Clean
        } else {
            Verdict::Races(races)
        }
    }
}
