//! What is drawn in a row: strokes from track to track.
ghost use Rattle.std.specs.{Prelude.{◌≡◌, ◌<◌, ◌++◌, length, IfOk, OnOk}, List.flat_map, Option.option_to_list};
ghost use Rattle.race_draw.specs.Strokes as spec;

use crate::picture::{Picture, Strand, Style, column_of};
use race_records::Trace;
use std::alloc::{AllocError, Allocator};

/// A stroke of a row.
#[derive(Clone, Copy, Debug)]
pub(crate) struct Stroke {
    /// From this track.
    pub low: usize,
    /// To this one, right of it or the same.
    pub high: usize,
    /// At which track it points.
    pub tip: Option<usize>,
    pub style: Style,
}

// What is drawn of a strand inside an event, where it is this one.
fn in_event(columns: &[u32], at: u32, strand: &Strand) -> Option<Stroke>
    ensures { result ≡ spec.in_event columns.now at strand.now }
{
    let from = column_of(columns, strand.edge.from_who);
    let to = column_of(columns, strand.edge.to_who);
    if strand.edge.from != at {
        return None;
    }
    Some(Stroke {
        low: from.min(to),
        high: from.max(to),
        tip: Some(to),
        style: strand.style,
    })
}

// What is drawn of one in the lane, in the row of the event.
fn in_lane(columns: &[u32], at: u32, strand: &Strand, lane: usize) -> Option<Stroke>
    ensures { result ≡ spec.in_lane columns.now at strand.now lane }
{
    let (edge, style, high) = (&strand.edge, strand.style, lane);
    let (from, to) = (
        column_of(columns, edge.from_who),
        column_of(columns, edge.to_who),
    );
    let (low, tip) = if edge.from == at {
        (from, None)
    } else if edge.to == at {
        (to, Some(to))
    } else if edge.from < at && at < edge.to {
        (lane, None)
    } else {
        return None;
    };
    Some(Stroke {
        low,
        high,
        tip,
        style,
    })
}

// What is drawn of each.
fn stroke_of(columns: &[u32], at: u32, strand: &Strand) -> Option<Stroke>
    ensures { result ≡ spec.stroke_of columns.now at strand.now }
{
    if strand.edge.from == strand.edge.to {
        return in_event(columns, at, strand);
    }
    match strand.lane {
        Some(lane) => in_lane(columns, at, strand, lane),
        None => None,
    }
}

// Puts the stroke behind the others, where there is one.
fn put_stroke<A: Allocator>(
    strokes: &mut Vec<Stroke, A>,
    stroke: Option<Stroke>,
) -> Result<(), AllocError>
    ensures { OnOk result (strokes.new.items ≡ strokes.old.items ++ option_to_list stroke) }
{
    if let Some(stroke) = stroke {
        strokes.push(stroke)?;
    }
    Ok(())
}

/// The strokes in the row of the event.
pub(crate) fn strokes_at<A: Allocator, B: Allocator, C: Allocator>(
    alloc: A,
    trace: &Trace<B>,
    picture: &Picture<C>,
    at: u32,
) -> Result<Vec<Stroke, A>, AllocError>
    requires { at < length trace.now.events }
    ensures { IfOk result (λ strokes. strokes.items ≡ spec.strokes_at trace.now picture.now at) }
{
    let columns = picture.columns.as_slice();
    let mut strokes = Vec::new(alloc);
    for strand in picture.strands.as_slice() {
        put_stroke(&mut strokes, stroke_of(columns, at, strand))?;
    }
    let who = column_of(columns, trace.event(at as usize).who);
    strokes.push(Stroke {
        low: who,
        high: who,
        tip: None,
        style: Style::Plain,
    })?;
    Ok(strokes)
}
