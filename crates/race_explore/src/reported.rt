//! A race, with what is printed of it.
ghost use Rattle.std.specs.Prelude.{◌≡◌, ℕ};
ghost use Rattle.race_model.specs.Race.{IsAccessOf};
ghost use Rattle.race_verdict.specs.{Accesses.is_write, Notes.{IsNoteOf, IsNotedRaceOf, race_noted}, Races.race_of};
ghost use Rattle.race_explore.specs.Looked.{AreAccesses};

use race_records::{Op, Trace};
use race_verdict::{Race, ReportedAccess, ReportedRace};
use std::alloc::Allocator;

/// The race of the trace, with what is printed of it.
pub(crate) fn reported<A: Allocator>(trace: &Trace<A>, race: Race) -> ReportedRace
    requires { AreAccesses trace.now.events (race_of race) }
    ensures race { race_noted result ≡ race_of race }
    ensures accesses { IsNotedRaceOf trace.now.events result }
{
    ReportedRace {
        var: race.var,
        first: access(trace, race.first),
        second: access(trace, race.second),
    }
}

// What is printed of the access at the index.
fn access<A: Allocator>(trace: &Trace<A>, at: u32) -> ReportedAccess
    requires { (x : ℕ) × IsAccessOf trace.now.events x at }
    ensures at { result.at ≡ at }
    ensures note { IsNoteOf trace.now.events result }
{
    let event = trace.event(at as usize);
    ReportedAccess {
        at,
        who: event.who,
        write: writes(&event.op),
        place: event.place,
    }
}

fn writes(op: &Op) -> bool
    ensures { result ≡ is_write op.now }
{
    matches!(op, Op::Write(_, _))
}
