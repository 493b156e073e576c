//! Which other edges are drawn of a race: what leaves the first access's goroutine next, and the starts of the two goroutines.
ghost use Rattle.std.specs.{Prelude.{◌≡◌, ◌++◌, IfOk, OnOk}, List.find, Option.{option_copied, option_to_list}};
ghost use Rattle.race_draw.specs.Layout as spec;

use race_edges::Edge;
use std::alloc::{AllocError, Allocator};

// The first edge that leaves the goroutine behind an event.
fn first_behind(edges: &[Edge], goroutine: u32, event: u32) -> Option<&Edge>
    ensures { option_copied result ≡ find (spec.leaves_behind goroutine event) edges.now }
{
    edges.iter().find(|edge| edge.from_who == goroutine
        && event < edge.from
        && edge.to_who != goroutine)
}

// Whether the edge leaves where this one does, and enters the goroutine.
fn leaves_for(found: &Edge, goroutine: u32, edge: &Edge) -> bool
    ensures { result ≡ spec.leaves_for found.now goroutine edge.now }
{
    edge.from == found.from && edge.from_who == found.from_who && edge.to_who == goroutine
}

// The first edge that does.
fn first_for<'a>(edges: &'a [Edge], found: &Edge, goroutine: u32) -> Option<&'a Edge>
    ensures { option_copied result ≡ find (spec.leaves_for found.now goroutine) edges.now }
{
    edges.iter().find(|edge| leaves_for(found, goroutine, edge))
}

// The next edge that leaves the first access's goroutine behind it.
fn next(edges: &[Edge], missing: &Edge) -> Option<Edge>
    ensures { option_to_list result ≡ spec.next_of edges.now missing.now }
{
    let found = first_behind(edges, missing.from_who, missing.from)?;
    match first_for(edges, found, missing.to_who) {
        Some(edge) => Some(*edge),
        None => Some(*found),
    }
}

// Whether an edge of the way leaves the same event.
fn is_on(way: &[Edge], edge: &Edge) -> bool
    ensures { result ≡ spec.is_on way.now edge.now }
{
    way.iter().any(|step| step.from == edge.from)
}

// The first edge inside an event that enters the goroutine.
fn first_inside(edges: &[Edge], goroutine: u32) -> Option<&Edge>
    ensures { option_copied result ≡ find (spec.enters_inside goroutine) edges.now }
{
    edges.iter().find(|edge| edge.to_who == goroutine && edge.from == edge.to && goroutine != 0)
}

// The edge by which the goroutine was started, unless the way goes by it.
fn start(edges: &[Edge], way: &[Edge], goroutine: u32) -> Option<Edge>
    ensures { option_to_list result ≡ spec.start_of edges.now way.now goroutine }
{
    let found = first_inside(edges, goroutine)?;
    if is_on(way, found) {
        None
    } else {
        Some(*found)
    }
}

// Puts the edge behind the others, where there is one.
fn put<A: Allocator>(others: &mut Vec<Edge, A>, edge: Option<Edge>) -> Result<(), AllocError>
    ensures { OnOk result (others.new.items ≡ others.old.items ++ option_to_list edge) }
{
    if let Some(edge) = edge {
        others.push(edge)?;
    }
    Ok(())
}

/// All of them.
pub(crate) fn others<A: Allocator>(
    alloc: A,
    edges: &[Edge],
    way: &[Edge],
    missing: &Edge,
) -> Result<Vec<Edge, A>, AllocError>
    ensures { IfOk result (λ others. others.items ≡ spec.others_of edges.now way.now missing.now) }
{
    let mut others = Vec::new(alloc);
    put(&mut others, next(edges, missing))?;
    put(&mut others, start(edges, way, missing.from_who))?;
    put(&mut others, start(edges, way, missing.to_who))?;
    Ok(others)
}
