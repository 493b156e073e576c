//! What is printed of a verdict, kept with it, so that no event is looked up when it is printed.
ghost use Rattle.std.specs.Prelude.{ℕ, ◌≡◌, ◌≢◌, All, List, [], length, map, IfOk};
ghost use Rattle.race_records.specs.declared.event.Event.{Event};
ghost use Rattle.race_model.specs.{Events.{count, is_access}, Legal.IsLegal, Verdict.{AreReportedRaces, IsVerdict}};
ghost use Rattle.race_verdict.specs.{declared.report.Report.Report, Notes.{race_noted, verdict_noted}};
ghost use Rattle.race_verdict.specs.{Notes.{IsNotedRaceOf, IsNotedOf}, Races.race_of, Verdicts.verdict_of};

use crate::races::{Race, RaceList};
use crate::verdict::Verdict;
use race_legal::Illegal;
use std::alloc::{AllocError, Allocator, Global};

/// What is printed of an access.
#[derive(Clone, Copy, Debug, PartialEq, Eq)]
pub struct ReportedAccess {
    /// Which event it is, counted from 0.
    pub at: u32,
    /// The goroutine.
    pub who: u32,
    /// Whether it is a write.
    pub write: bool,
    /// The number of its place.
    pub place: u32,
}

/// Two accesses of a variable that race, with what is printed of each.
#[derive(Clone, Copy, Debug, PartialEq, Eq)]
pub struct ReportedRace {
    /// The variable.
    pub var: u32,
    /// The earlier access.
    pub first: ReportedAccess,
    /// The later one.
    pub second: ReportedAccess,
}

impl ReportedRace {
    /// The race alone.
    pub fn race(&self) -> Race
        ensures { race_of result ≡ race_noted self.now }
    {
        Race {
            var: self.var,
            first: self.first.at,
            second: self.second.at,
        }
    }
}

/// What can be said of a trace, with all that is printed of it but names.
#[derive(Debug, Drop)]
pub enum Report<A: Allocator = Global> {
    /// An event breaks a rule.
    Illegal(Illegal),
    /// The trace is legal and has no race.
    Clean {
        /// How many events it has.
        events: usize,
        /// How many of them are accesses.
        accesses: usize,
    },
    /// The trace is legal, and these are its races.
    Races(Vec<ReportedRace, A>),
}

impl<A: Allocator> Report<A> {
    /// The verdict on a legal list of so many events, so many of them accesses, with these races.
    pub fn of_races(events: usize, accesses: usize, races: Vec<ReportedRace, A>) -> Report<A>
        ensures verdict { (caps : ℕ → ℕ) (listed : List Event) → IsLegal caps listed
            → AreReportedRaces caps listed (map race_noted races.items) → IsVerdict caps listed (verdict_noted result) }
        ensures noted { (listed : List Event) → events ≡ length listed → accesses ≡ count is_access listed
            → All (IsNotedRaceOf listed) races.items → IsNotedOf listed result }
        ensures clean { races.items ≡ [] → result ≡ Report.Clean events accesses }
        ensures races { races.items ≢ [] → result ≡ Report.Races races }
    {
        if races.is_empty() {
            Report::Clean { events, accesses }
        } else {
            Report::Races(races)
        }
    }

    /// The verdict alone.
    pub fn verdict<B: Allocator>(&self, alloc: B) -> Result<Verdict<B>, AllocError>
        ensures { IfOk result (λ verdict. verdict_of verdict ≡ verdict_noted self.now) }
    {
        match self {
            Report::Illegal(illegal) => Ok(Verdict::Illegal(*illegal)),
            Report::Clean { .. } => Ok(Verdict::Clean),
            Report::Races(noted) => {
                let mut races = Vec::with_capacity(alloc, noted.len())?;
                for race in noted {
                    races.push(race.race())?;
                }
                Ok(Verdict::Races(RaceList::from_vec(races)))
            }
        }
    }
}
