//! What the second access of a race has seen of the first one's goroutine.
ghost use Rattle.std.specs.Prelude.{◌≡◌, IfOk};
ghost use Rattle.race_model.specs.Events.{takes_part};
ghost use Rattle.race_verdict.specs.Traces.{capacities};
ghost use Rattle.race_shards.specs.{Witness.RacesInOrder, Seen.{IsLastSeen, IsPart}};

use crate::pair::Pair;
use race_records::{Event, Op, Trace};
use race_verdict::Race;
use std::alloc::{AllocError, Allocator};

/// The last event in which the first access's goroutine takes part and whose begin the begin of the second access has
/// seen: it reaches that begin. None where there is no such event.
///
/// Takes time in proportion to the events, and the clocks of a stamper and of the two.
pub fn last_seen<A: Allocator + Copy, B: Allocator>(
    alloc: A,
    trace: &Trace<B>,
    race: &Race,
) -> Result<Option<u32>, AllocError>
    requires { RacesInOrder (capacities trace.now) trace.now.events race.now }
    ensures { IfOk result (IsLastSeen (capacities trace.now) trace.now.events race.now) }
{
    match Pair::find(alloc, trace, race)? {
        Some(pair) => Ok(part(trace, pair.first_who(), pair.seen_of_first())),
        None => unreachable!(),
    }
}

// The event that is the goroutine's part with this number, counted from 1.
fn part<A: Allocator>(trace: &Trace<A>, goroutine: u32, number: u32) -> Option<u32>
    ensures { IsPart trace.now.events goroutine number result }
{
    if number == 0 {
        return None;
    }
    let mut left = number;
    for at in 0..trace.len() as u32 {
        if takes_part(trace.event(at as usize), goroutine) {
            if left == 1 {
                return Some(at);
            }
            left -= 1;
        }
    }
    None
}

// Whether the goroutine takes part in the event.
fn takes_part(event: &Event, goroutine: u32) -> bool
    ensures { result ≡ takes_part goroutine event.now }
{
    if event.who == goroutine {
        return true;
    }
    match &event.op {
        Op::Go(started) => *started == goroutine,
        Op::Meet(receiver, _, _) => *receiver == goroutine,
        _ => false,
    }
}
