//! Edges without those that say nothing new.
ghost use Rattle.std.specs.Prelude.{◌≡◌, IfOk};
ghost use Rattle.race_draw.specs.Clean as spec;

use race_edges::Edge;
use std::alloc::{AllocError, Allocator};

// Whether the edge leaves where the other does, or later in the same goroutine.
fn leaves_behind(edge: &Edge, other: &Edge) -> bool
    ensures { result ≡ spec.leaves_at_or_behind edge.now other.now }
{
    edge.from_who == other.from_who && other.from <= edge.from
}

// Whether the edge enters where the other does, or earlier in the same goroutine.
fn enters_before(edge: &Edge, other: &Edge) -> bool
    ensures { result ≡ spec.enters_at_or_before edge.now other.now }
{
    edge.to_who == other.to_who && edge.to <= other.to
}

// Whether the edge enters a goroutine that the next one leaves later.
fn leads_on(edge: &Edge, next: &Edge) -> bool
    ensures { result ≡ spec.leads_on edge.now next.now }
{
    edge.to_who == next.from_who && edge.to < next.from
}

// Whether the edge is shorter than the other.
fn is_shorter(edge: &Edge, other: &Edge) -> bool
    ensures { result ≡ spec.is_shorter edge.now other.now }
{
    other.from < edge.from || edge.to < other.to
}

// Whether the edge leads on by one of these to where the other enters.
fn leads_by(edges: &[Edge], edge: &Edge, other: &Edge) -> bool
    ensures { result ≡ spec.leads_by edges.now edge.now other.now }
{
    edges
        .iter()
        .any(|next| leads_on(edge, next) && enters_before(next, other))
}

// Whether the first edge leads along the other, alone or with one more.
fn leads_along(edges: &[Edge], other: &Edge, first: &Edge) -> bool
    ensures { result ≡ spec.leads_along edges.now other.now first.now }
{
    leaves_behind(first, other)
        && ((enters_before(first, other) && is_shorter(first, other))
            || leads_by(edges, first, other))
}

// Whether one of these leads along the edge.
fn is_led_along(edges: &[Edge], edge: &Edge) -> bool
    ensures { result ≡ spec.is_led_along edges.now edge.now }
{
    edges.iter().any(|first| leads_along(edges, edge, first))
}

// Whether the edge says what the order of one goroutine says, or what shorter edges say.
fn says_nothing_new(edges: &[Edge], edge: &Edge) -> bool
    ensures { result ≡ spec.says_nothing_new edges.now edge.now }
{
    edge.from_who == edge.to_who || is_led_along(edges, edge)
}

/// All others.
pub(crate) fn kept<A: Allocator>(alloc: A, edges: &[Edge]) -> Result<Vec<Edge, A>, AllocError>
    ensures { IfOk result (λ kept. kept.items ≡ spec.kept edges.now) }
{
    let kept = edges
        .iter()
        .filter(|edge| !says_nothing_new(edges, edge))
        .copied()
        .collect(alloc)?;
    Ok(kept)
}
