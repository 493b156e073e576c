//! The way of edges by which the second access of a race got to know of an event of the first one's goroutine.
//!
//! One walk along the edges notes of each goroutine by which of them it first learnt of the event, and a second one goes
//! back from the second access by these. Each step back is tested, so that what is noted needs no promise.
ghost use Rattle.std.specs.Prelude.{◌≡◌, ℕ, All, Some, IfOk, IfSome, slice_get};
ghost use Rattle.race_edges.specs.Edges.{IsEdge};
ghost use Rattle.race_verdict.specs.Traces.{capacities};
ghost use Rattle.race_draw.specs.Layout.{IsWayShown};

use race_edges::Edge;
use race_records::{Kind, Trace};
use std::alloc::{AllocError, Allocator};

// The edge that is noted of the goroutine.
fn noted(edges: &[Edge], by: &[Option<usize>], goroutine: u32) -> Option<Edge>
    ensures { IfSome result (λ edge. (k : ℕ) × (slice_get edges.now k ≡ Some edge)) }
{
    let number = (*by.get(goroutine as usize)?)?;
    edges.get(number).copied()
}

// Whether the edge brings its goroutine news of the goroutine's begin in event `at`, and earlier than what is noted.
fn is_news(edges: &[Edge], by: &[Option<usize>], edge: &Edge, at: u32, goroutine: u32) -> bool {
    let carries = if edge.from_who == goroutine {
        edge.from == at
    } else {
        match noted(edges, by, edge.from_who) {
            Some(known) => known.to < edge.from,
            None => false,
        }
    };
    match noted(edges, by, edge.to_who) {
        Some(known) => carries && edge.to < known.to,
        None => carries,
    }
}

// Notes the edge of this number for the goroutine, where it has a place.
fn note(by: &mut [Option<usize>], goroutine: u32, number: usize) {
    let index = goroutine as usize;
    if index < by.len() {
        by[index] = Some(number);
    }
}

// By which edge each of so many goroutines first learnt of the goroutine's begin in event `at`.
fn learnt<A: Allocator>(
    alloc: A,
    edges: &[Edge],
    goroutines: usize,
    at: u32,
    goroutine: u32,
) -> Result<Vec<Option<usize>, A>, AllocError> {
    let mut by = vec![in alloc; None; goroutines]?;
    for number in 0..edges.len() {
        let edge = edges[number];
        if is_news(edges, by.as_slice(), &edge, at, goroutine) {
            note(by.as_mut_slice(), edge.to_who, number);
        }
    }
    Ok(by)
}

// Back from the second access by what is noted, to the goroutine's begin in event `at`. Nothing where that isn't come to.
fn back<A: Allocator + Copy, B: Allocator>(
    alloc: A,
    trace: &Trace<B>,
    edges: &[Edge],
    by: &[Option<usize>],
    at: u32,
    missing: &Edge,
) -> Result<Vec<Edge, A>, AllocError>
    requires { All (IsEdge (capacities trace.now) trace.now.events) edges.now }
    ensures { IfOk result (λ way. IsWayShown (capacities trace.now) trace.now.events (Some at)
        missing.now way.items) }
{
    let mut way = Vec::new(alloc);
    let mut before = missing.to;
    let mut who = missing.to_who;
    for _ in 0..by.len() {
        let Some(edge) = noted(edges, by, who) else {
            return Ok(Vec::new(alloc));
        };
        if edge.to_who != who || edge.to >= before {
            return Ok(Vec::new(alloc));
        }
        way.push(edge)?;
        if edge.from == at && edge.from_who == missing.from_who {
            return Ok(way);
        }
        before = edge.from;
        who = edge.from_who;
    }
    Ok(Vec::new(alloc))
}

/// The way from what was seen to the second access, its last edge first. Nothing where nothing was seen, or no way is found.
pub(crate) fn way<A: Allocator + Copy, B: Allocator>(
    alloc: A,
    trace: &Trace<B>,
    edges: &[Edge],
    seen: Option<u32>,
    missing: &Edge,
) -> Result<Vec<Edge, A>, AllocError>
    requires { All (IsEdge (capacities trace.now) trace.now.events) edges.now }
    ensures { IfOk result (λ way. IsWayShown (capacities trace.now) trace.now.events seen
        missing.now way.items) }
{
    let Some(at) = seen else {
        return Ok(Vec::new(alloc));
    };
    let goroutines = trace.decls().count(Kind::Goroutine) as usize;
    let by = learnt(alloc, edges, goroutines, at, missing.from_who)?;
    back(alloc, trace, edges, by.as_slice(), at, missing)
}
