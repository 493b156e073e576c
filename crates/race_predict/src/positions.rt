//! Which event of its goroutine an event is.
ghost use Rattle.std.specs.Prelude.{◌≡◌, ◌<◌, length, IsTrue, IfSome, IfOk, slice_get, Some, false};
ghost use Rattle.std.specs.List.{slice_index_or};
ghost use Rattle.race_model.specs.Events.{partner};
ghost use Rattle.race_predict.specs.Fronts.{ArePositions};

use crate::parts::{self, count_parts};
use race_records::{Event, Kind, Trace};
use std::alloc::{AllocError, Allocator};

/// How many events its goroutine has before an event, and its partner, where there is one.
#[derive(Clone, Copy)]
pub struct Position {
    /// How many events its goroutine has before it.
    pub own: u32,
    /// How many events its partner has before it, or 0 where there is none.
    pub partners: u32,
}

// The position that these counts tell.
fn position_by<A: Allocator>(counts: &Vec<u32, A>, event: &Event) -> Position
    requires who { event.now.who < length counts.now.items }
    requires partner { IfSome (partner event.now.op) (λ g. g < length counts.now.items) }
    ensures own { result.own ≡ slice_index_or counts.now.items event.now.who 0 }
    ensures partners { IfSome (partner event.now.op)
        (λ g. result.partners ≡ slice_index_or counts.now.items g 0) }
{
    let partners = match parts::partner(&event.op) {
        Some(other) => counts[other as usize],
        None => 0,
    };
    Position {
        own: counts[event.who as usize],
        partners,
    }
}

/// The positions of all events of the trace.
pub fn positions_of<A: Allocator + Copy>(
    alloc: A,
    trace: &Trace<A>,
) -> Result<Vec<Position, A>, AllocError>
    ensures { IfOk result (λ positions.
        ArePositions trace.now.events (length trace.now.events) positions.items) }
{
    let mut counts = vec![in alloc; 0u32; trace.decls().count(Kind::Goroutine) as usize]?;
    let mut positions = Vec::with_capacity(alloc, trace.len())?;
    for at in 0..trace.len() {
        let event = trace.event(at);
        positions.push(position_by(&counts, event))?;
        count_parts(&mut counts, event);
    }
    Ok(positions)
}

/// The position of an event.
pub(crate) fn position_at(positions: &[Position], at: usize) -> Position
    requires { at < length positions.now }
    ensures { slice_get positions.now at ≡ Some result }
{
    positions[at]
}

/// Whether so many events were counted of each that takes part in this one.
pub(crate) fn is_next<A: Allocator>(counts: &Vec<u32, A>, position: Position, event: &Event) -> bool
    requires who { event.now.who < length counts.now.items }
    requires partner { IfSome (partner event.now.op) (λ g. g < length counts.now.items) }
    ensures own { IsTrue result → slice_index_or counts.now.items event.now.who 0 ≡ position.own }
    ensures partners { IsTrue result → IfSome (partner event.now.op)
        (λ g. slice_index_or counts.now.items g 0 ≡ position.partners) }
    ensures otherwise { result ≡ false → slice_index_or counts.now.items event.now.who 0 ≡ position.own
        → ¬ IfSome (partner event.now.op) (λ g. slice_index_or counts.now.items g 0 ≡ position.partners) }
{
    if counts[event.who as usize] != position.own {
        return false;
    }
    match parts::partner(&event.op) {
        Some(other) => counts[other as usize] == position.partners,
        None => true,
    }
}
