//! What is drawn of a race, as a value.
ghost use Rattle.std.specs.Prelude.{◌≡◌, ◌<◌, All, length, IfOk};
ghost use Rattle.race_model.specs.Legal.{IsLegal};
ghost use Rattle.race_verdict.specs.Traces.{capacities};
ghost use Rattle.race_shards.specs.Witness.{RacesInOrder};
ghost use Rattle.race_draw.specs.{Text.CanBeDrawn, Rows.CanBePrinted};
ghost use Rattle.race_draw.specs.Layout.{AreListed, IsPictureOf, IsLayoutOf, AreLaidOut, AreLayoutsOf};
ghost use Rattle.race_draw.specs.Layout as spec;

use crate::others::others;
use crate::picture::{Picture, Strand, Style, columns, put_strands};
use crate::way::way;
use race_edges::{Edge, EdgeFault, edges};
use race_records::{Kind, Trace};
use race_shards::last_seen;
use race_verdict::Race;
use std::alloc::{AllocError, Allocator, Global};
use std::marker::Model;

/// What is drawn of a race.
#[derive(Debug, Drop)]
pub struct Layout<A: Allocator = Global> {
    pub(crate) race: Race,
    pub(crate) seen: Option<u32>,
    pub(crate) picture: Picture<A>,
}

impl<A: Allocator> Model for Layout<A> {
    ghost use Rattle.race_draw.specs.Layout.{LayoutState};

    ghost Value = { LayoutState };

    ghost view = { λ l. record { race = l.race; seen = l.seen; picture = l.picture } };
}

// What is drawn of a race of the trace.
fn lay_out<A: Allocator + Copy, B: Allocator>(
    alloc: A,
    trace: &Trace<B>,
    edges: &[Edge],
    race: &Race,
) -> Result<Layout<A>, AllocError>
    requires race { RacesInOrder (capacities trace.now) trace.now.events race.now }
    requires edges { AreListed trace.now edges.now }
    ensures laid_out { IfOk result (λ layout. IsLayoutOf trace.now edges.now race.now layout) }
    ensures drawable { IfOk result (λ layout. CanBeDrawn trace.now layout) }
{
    let seen = last_seen(alloc, trace, race)?;
    let missing = missing(trace, race);
    let way = way(alloc, trace, edges, seen, &missing)?;
    let events = trace.len() as u32;
    let picture = picture_of(alloc, trace, events, edges, &missing, way.as_slice())?;
    Ok(Layout {
        race: *race,
        seen,
        picture,
    })
}

// The picture of a race, by this way.
fn picture_of<A: Allocator + Copy, B: Allocator>(
    alloc: A,
    trace: &Trace<B>,
    events: u32,
    edges: &[Edge],
    missing: &Edge,
    way: &[Edge],
) -> Result<Picture<A>, AllocError>
    requires { events ≡ length trace.now.events }
    ensures { IfOk result (λ picture. IsPictureOf trace.now edges.now missing.now way.now picture) }
{
    let others = others(alloc, edges, way, missing)?;
    let mut strands = Vec::new(alloc);
    put_strands(&mut strands, Style::Missing, &[*missing])?;
    put_strands(&mut strands, Style::Way, way)?;
    put_strands(&mut strands, Style::Plain, others.as_slice())?;
    let front = [missing.from_who, missing.to_who];
    let goroutines = trace.decls().count(Kind::Goroutine);
    let columns = columns(alloc, &front, &[], strands.as_slice(), goroutines)?;
    let rows = rows(alloc, strands.as_slice(), events)?;
    Ok(Picture {
        columns,
        strands,
        rows,
    })
}

// From the first access to the second.
fn missing<A: Allocator>(trace: &Trace<A>, race: &Race) -> Edge
    requires first { race.now.first < length trace.now.events }
    requires second { race.now.second < length trace.now.events }
    ensures { result ≡ spec.missing trace.now.events race.now }
{
    Edge {
        from: race.first,
        from_who: trace.event(race.first as usize).who,
        to: race.second,
        to_who: trace.event(race.second as usize).who,
    }
}

// Whether a strand leaves the event or enters it.
fn is_shown(strands: &[Strand], event: u32) -> bool
    ensures { result ≡ spec.is_shown strands.now event }
{
    strands.iter().any(|strand| strand.edge.from == event || strand.edge.to == event)
}

/// What is drawn of each race of a list, in order.
///
/// Takes time for each race in proportion to the events, and of a trace of at most 2,000 events once in the square of them.
pub(crate) fn lay_out_all<A: Allocator + Copy, B: Allocator>(
    alloc: A,
    trace: &Trace<B>,
    races: &[Race],
) -> Result<Vec<Layout<A>, A>, AllocError>
    requires races { All (RacesInOrder (capacities trace.now) trace.now.events) races.now }
    requires legal { IsLegal (capacities trace.now) trace.now.events }
    ensures laid_out { IfOk result (λ layouts. AreLayoutsOf trace.now races.now layouts.items) }
    ensures drawable { IfOk result (λ layouts. All (CanBeDrawn trace.now) layouts.items) }
{
    let edges = listed(alloc, trace)?;
    each_laid_out(alloc, trace, edges.as_slice(), races)
}

// The edges of a legal trace, or none where it is too long for them to be listed.
pub(crate) fn listed<A: Allocator + Copy, B: Allocator>(
    alloc: A,
    trace: &Trace<B>,
) -> Result<Vec<Edge, A>, AllocError>
    requires { IsLegal (capacities trace.now) trace.now.events }
    ensures { IfOk result (λ edges. AreListed trace.now edges.items) }
{
    match edges(alloc, trace) {
        Ok(edges) => Ok(edges),
        Err(EdgeFault::TooLong) => Ok(Vec::new(alloc)),
        Err(EdgeFault::OutOfMemory) => Err(AllocError),
        Err(EdgeFault::Illegal) => unreachable!(),
    }
}

// What is drawn of each race, by the edges that are listed.
fn each_laid_out<A: Allocator + Copy, B: Allocator>(
    alloc: A,
    trace: &Trace<B>,
    edges: &[Edge],
    races: &[Race],
) -> Result<Vec<Layout<A>, A>, AllocError>
    requires races { All (RacesInOrder (capacities trace.now) trace.now.events) races.now }
    requires edges { AreListed trace.now edges.now }
    ensures laid_out { IfOk result (λ layouts. AreLaidOut trace.now edges.now races.now layouts.items) }
    ensures drawable { IfOk result (λ layouts. All (CanBeDrawn trace.now) layouts.items) }
{
    let mut layouts = Vec::new(alloc);
    for race in races {
        layouts.push(lay_out(alloc, trace, edges, race)?)?;
    }
    Ok(layouts)
}

// The events that are shown, of so many.
fn rows<A: Allocator>(alloc: A, strands: &[Strand], events: u32) -> Result<Vec<u32, A>, AllocError>
    ensures { IfOk result (λ rows. rows.items ≡ spec.rows_of events strands.now) }
{
    let rows = (0..events)
        .filter(|event| is_shown(strands, *event))
        .collect(alloc)?;
    Ok(rows)
}
