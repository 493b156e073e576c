//! The synchronization edges of a short trace, in order.
ghost use Rattle.std.specs.Prelude.{◌≡◌, ◌↔◌, ◌⊎◌, ◌<◌, ◌≤◌, ◌+◌, length, IfOk, OnOk};
ghost use Rattle.race_model.specs.Legal.{IsLegal};
ghost use Rattle.race_edges.specs.{Edges.AreEdges, Numbers.AreNumbers};
ghost use Rattle.race_edges.specs.EdgesSoFar.{AreEdgesBefore, with_edge, edge_inside};
ghost use Rattle.race_verdict.specs.Traces.{capacities, IsIllegal};

use crate::fault::{EdgeFault, MAX_PLAIN_EVENTS};
use crate::numbers::Numbers;
use crate::synchronized::{is_source, joins, partner};
use race_legal::legal;
use race_records::Trace;
use std::alloc::{AllocError, Allocator};

/// One edge: the start of `from_who` in event `from` is synchronized before the end of `to_who` in
/// event `to`. Events are indexes, counted from 0.
#[derive(Clone, Copy, Debug, PartialEq, Eq)]
pub struct Edge {
    /// The earlier event, or the same one.
    pub from: u32,
    /// The goroutine whose start it is.
    pub from_who: u32,
    /// The later event.
    pub to: u32,
    /// The goroutine whose end it is.
    pub to_who: u32,
}

/// Every edge of a legal trace of at most 2,000 events, once, in rising order of `from`, `to`,
/// `from_who` and `to_who`. What one goroutine does in order isn't listed.
///
/// Refused exactly where there are more events; else where an event breaks a rule; else for want of memory alone.
pub fn edges<A: Allocator + Copy, B: Allocator>(
    alloc: A,
    trace: &Trace<B>,
) -> Result<Vec<Edge, A>, EdgeFault>
    ensures right { IfOk result (λ edges.
        AreEdges (capacities trace.now) trace.now.events edges.items) }
    ensures legal { OnOk result (IsLegal (capacities trace.now) trace.now.events) }
    ensures too_long { (result ≡ Err EdgeFault.TooLong)
        ↔ (MAX_PLAIN_EVENTS < length trace.now.events) }
    ensures illegal { result ≡ Err EdgeFault.Illegal → IsIllegal trace.now }
{
    if trace.len() > MAX_PLAIN_EVENTS {
        return Err(EdgeFault::TooLong);
    }
    match legal(alloc, trace) {
        Ok(None) => match list_edges(alloc, trace) {
            Ok(edges) => Ok(edges),
            Err(_) => Err(EdgeFault::OutOfMemory),
        },
        Ok(Some(_)) => Err(EdgeFault::Illegal),
        Err(_) => Err(EdgeFault::OutOfMemory),
    }
}

// The edges of a trace, however long, and legal or not.
fn list_edges<A: Allocator + Copy, B: Allocator>(
    alloc: A,
    trace: &Trace<B>,
) -> Result<Vec<Edge, A>, AllocError>
    ensures { IfOk result (λ edges.
        AreEdges (capacities trace.now) trace.now.events edges.items) }
{
    let numbers = Numbers::new(alloc, trace)?;
    let mut edges = Vec::new(alloc);
    for from in 0..trace.len() as u32 {
        add_inside(&mut edges, trace, from)?;
        add_later(&mut edges, trace, &numbers, from)?;
    }
    Ok(edges)
}

// Adds the edges inside an event, to those that lead from earlier ones.
fn add_inside<A: Allocator, B: Allocator>(
    edges: &mut Vec<Edge, A>,
    trace: &Trace<B>,
    at: u32,
) -> Result<(), AllocError>
    requires within { at < length trace.now.events }
    requires before { AreEdgesBefore at at (capacities trace.now) trace.now.events
        edges.old.items }
    ensures { OnOk result (AreEdgesBefore at (at + 1) (capacities trace.now) trace.now.events
        edges.new.items) }
{
    let event = trace.event(at as usize);
    let Some(other) = partner(&event.op) else {
        return Ok(());
    };
    let (low, high) = in_order(event.who, other);
    add_edge(
        edges,
        joins(event.who, &event.op, low, high),
        inside(at, low, high),
    )?;
    if low < high {
        add_edge(
            edges,
            joins(event.who, &event.op, high, low),
            inside(at, high, low),
        )?;
    }
    Ok(())
}

// The lesser number first.
fn in_order(a: u32, b: u32) -> (u32, u32)
    ensures order { result.0 ≤ result.1 }
    ensures pair { ((result.0 ≡ a) × (result.1 ≡ b)) ⊎ ((result.0 ≡ b) × (result.1 ≡ a)) }
{
    if a < b { (a, b) } else { (b, a) }
}

// Adds the edge where it is one.
fn add_edge<A: Allocator>(
    edges: &mut Vec<Edge, A>,
    is_one: bool,
    edge: Edge,
) -> Result<(), AllocError>
    ensures { OnOk result (edges.new.items ≡ with_edge is_one edge edges.old.items) }
{
    if is_one {
        edges.push(edge)?;
    }
    Ok(())
}

// The edge between two participants of an event.
fn inside(at: u32, from_who: u32, to_who: u32) -> Edge
    ensures { result ≡ edge_inside at from_who to_who }
{
    Edge {
        from: at,
        from_who,
        to: at,
        to_who,
    }
}

// Adds the edges from an event to later ones.
fn add_later<A: Allocator, B: Allocator>(
    edges: &mut Vec<Edge, A>,
    trace: &Trace<B>,
    numbers: &Numbers<A>,
    from: u32,
) -> Result<(), AllocError>
    requires within { from < length trace.now.events }
    requires numbers { AreNumbers trace.now.events numbers.now }
    requires before { AreEdgesBefore from (from + 1) (capacities trace.now) trace.now.events
        edges.old.items }
    ensures { OnOk result (AreEdgesBefore (from + 1) (from + 1) (capacities trace.now)
        trace.now.events edges.new.items) }
{
    let events = trace.len() as u32;
    let from_who = trace.event(from as usize).who;
    for to in from + 1..events {
        let edge = Edge {
            from,
            from_who,
            to,
            to_who: trace.event(to as usize).who,
        };
        add_edge(
            edges,
            is_source(trace, numbers, from as usize, to as usize),
            edge,
        )?;
    }
    Ok(())
}
