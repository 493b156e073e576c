//! Which traces are equal.
ghost use Rattle.std.specs.{Prelude.{◌≡◌, ◌↔◌, ◌<◌, length, slice_get, IsTrue, IfSome}, Option.option_and_then};
ghost use Rattle.race_records.specs.TraceEquality.{placed_events, same_op, same_text};

use crate::{Op, Trace};
use std::alloc::Allocator;

/// Equal where the declarations and the events are, each event with the texts of its places. A
/// place that no event uses doesn't count, nor does the order of the places.
impl<A: Allocator> PartialEq for Trace<A> {
    ghost use Rattle.std.specs.Prelude.{◌≡◌, ◌↔◌, IsTrue};
    ghost use Rattle.race_records.specs.TraceEquality.{recorded, same_traces, same_traces_laws};

    ghost eq = { same_traces };

    ghost laws = { same_traces_laws };

    fn eq(&self, other: &Trace<A>) -> bool
        ensures eq { result ≡ same_traces self.now other.now }
        ensures same { IsTrue result ↔ (recorded self.now ≡ recorded other.now) }
    {
        self.decls() == other.decls() && are_events_alike(self, other)
    }
}

// Whether the events are equal, with the texts of their places.
fn are_events_alike<A: Allocator>(trace: &Trace<A>, other: &Trace<A>) -> bool
    ensures { IsTrue result ↔ (placed_events trace.now ≡ placed_events other.now) }
{
    if trace.len() != other.len() {
        return false;
    }
    for index in 0..trace.len() {
        if !are_alike_at(trace, other, index) {
            return false;
        }
    }
    true
}

// Whether the two events at the index are equal.
fn are_alike_at<A: Allocator>(trace: &Trace<A>, other: &Trace<A>, index: usize) -> bool
    requires here { index < length trace.now.events }
    requires there { index < length other.now.events }
    ensures { IsTrue result
        ↔ (slice_get (placed_events trace.now) index ≡ slice_get (placed_events other.now) index) }
{
    let here = trace.event(index);
    let there = other.event(index);
    if here.who != there.who {
        return false;
    }
    if !is_same_op(&here.op, &there.op) {
        return false;
    }
    if trace.place_text(here.place) != other.place_text(there.place) {
        return false;
    }
    are_second_places_alike(trace, other, here.place2, there.place2)
}

// Whether both have no second place, or one of the same text.
fn are_second_places_alike<A: Allocator>(
    trace: &Trace<A>,
    other: &Trace<A>,
    here: Option<u32>,
    there: Option<u32>,
) -> bool
    requires here { IfSome here (λ place. place < length trace.now.decls.places) }
    requires there { IfSome there (λ place. place < length other.now.decls.places) }
    ensures { result ≡ same_text (option_and_then (slice_get trace.now.decls.places) here)
        (option_and_then (slice_get other.now.decls.places) there) }
{
    match (here, there) {
        (None, None) => true,
        (Some(here), Some(there)) => trace.place_text(here) == other.place_text(there),
        _ => false,
    }
}

fn is_same_op(op: &Op, other: &Op) -> bool
    ensures { result ≡ same_op op.now other.now }
{
    op == other
}
