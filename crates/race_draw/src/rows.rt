//! The text of a picture: the heads of its columns, and a row for each event that is shown.
ghost use Rattle.std.specs.{Prelude.{◌≡◌, ◌<◌, ◌++◌, All, length, OnOk}, List.flat_map};
ghost use Rattle.race_records.specs.{declared.kind.Kind.Kind, Declarations.count_of};
ghost use Rattle.race_draw.specs.Rows.{CanBePrinted};
ghost use Rattle.race_draw.specs.Rows as spec;

use crate::cells::{cell, mark_of};
use crate::picture::{MAX_COLUMNS, Picture, STRESS, Strand, TRACKS, column_of, is_used};
use crate::printed::put_event;
use crate::strokes::{Stroke, strokes_at};
use crate::words::{op_at, put_aligned, put_number_in};
use race_records::{Named, Trace};
use std::alloc::{AllocError, Allocator};

/// Puts the picture behind the text.
pub(crate) fn put_picture<A: Allocator + Copy, B: Allocator, C: Allocator>(
    out: &mut Vec<u8, A>,
    trace: &Trace<B>,
    picture: &Picture<C>,
) -> Result<(), AllocError>
    requires { CanBePrinted trace.now picture.now }
    ensures { OnOk result (out.new.items ≡ out.old.items ++ spec.picture_text trace.now picture.now) }
{
    put_heads(out, trace, picture.columns.as_slice())?;
    put_rows(out, trace, picture, picture.rows.as_slice())
}

// Puts the rows of these events.
fn put_rows<A: Allocator + Copy, B: Allocator, C: Allocator>(
    out: &mut Vec<u8, A>,
    trace: &Trace<B>,
    picture: &Picture<C>,
    rows: &[u32],
) -> Result<(), AllocError>
    requires { All (λ k. k < length trace.now.events) rows.now }
    ensures { OnOk result (out.new.items ≡ out.old.items
        ++ flat_map (spec.row_text trace.now picture.now) rows.now) }
{
    for at in rows {
        put_row(out, trace, picture, *at)?;
    }
    Ok(())
}

// Puts the heads of the columns.
fn put_heads<A: Allocator, B: Allocator>(
    out: &mut Vec<u8, A>,
    trace: &Trace<B>,
    columns: &[u32],
) -> Result<(), AllocError>
    requires { All (λ g. g < count_of Kind.Goroutine trace.now.decls.declarations) columns.now }
    ensures { OnOk result (out.new.items ≡ out.old.items ++ spec.heads trace.now columns.now) }
{
    for goroutine in columns {
        put_head(out, trace, column_of(columns, *goroutine), *goroutine)?;
    }
    Ok(())
}

// Puts the head of a goroutine's track.
fn put_head<A: Allocator, B: Allocator>(
    out: &mut Vec<u8, A>,
    trace: &Trace<B>,
    track: usize,
    goroutine: u32,
) -> Result<(), AllocError>
    requires { goroutine < count_of Kind.Goroutine trace.now.decls.declarations }
    ensures { OnOk result (out.new.items ≡ out.old.items ++ spec.head_line trace.now track goroutine) }
{
    out.extend_from_slice(bars(track))?;
    out.extend_from_slice(b" ")?;
    out.extend_from_slice(head_name(trace, track, goroutine).as_bytes())?;
    out.extend_from_slice(b"\n")
}

// The lines of the goroutines left of a track.
fn bars(track: usize) -> &'static [u8]
    ensures { result.now ≡ spec.bars track }
{
    let all = b" |   |   |   |   |   |   |   |   |  ".as_slice();
    &all[..track.saturating_mul(4).min(all.len())]
}

// What stands above the track.
fn head_name<B: Allocator>(trace: &Trace<B>, track: usize, goroutine: u32) -> &str
    requires { goroutine < count_of Kind.Goroutine trace.now.decls.declarations }
    ensures { result.now ≡ spec.head_name trace.now track goroutine }
{
    if track == MAX_COLUMNS - 1 {
        "others"
    } else {
        trace.decls().name(Named::Goroutine(goroutine))
    }
}

// Puts the row of an event: its cells, its number, which edges have no lane, and the line of the trace that has it.
fn put_row<A: Allocator + Copy, B: Allocator, C: Allocator>(
    out: &mut Vec<u8, A>,
    trace: &Trace<B>,
    picture: &Picture<C>,
    at: u32,
) -> Result<(), AllocError>
    requires { at < length trace.now.events }
    ensures { OnOk result (out.new.items ≡ out.old.items ++ spec.row_text trace.now picture.now at) }
{
    let strokes = strokes_at(*out.allocator(), trace, picture, at)?;
    put_cells(out, picture, strokes.as_slice(), mark_of(op_at(trace, at)))?;
    put_aligned(out, picture.rows.as_slice(), at)?;
    out.extend_from_slice(b"  \t")?;
    put_without_lane(out, picture.strands.as_slice(), at)?;
    put_event(out, trace, at)
}

// Puts a cell for each track that is used.
fn put_cells<A: Allocator, C: Allocator>(
    out: &mut Vec<u8, A>,
    picture: &Picture<C>,
    strokes: &[Stroke],
    mark: u8,
) -> Result<(), AllocError>
    requires { mark < STRESS }
    ensures { OnOk result (out.new.items ≡ out.old.items ++ spec.cells_text picture.now strokes.now mark) }
{
    for track in 0..TRACKS {
        put_cell(out, picture, strokes, mark, track)?;
    }
    Ok(())
}

// Puts the cell of a track, where it is used.
fn put_cell<A: Allocator, C: Allocator>(
    out: &mut Vec<u8, A>,
    picture: &Picture<C>,
    strokes: &[Stroke],
    mark: u8,
    track: usize,
) -> Result<(), AllocError>
    requires mark { mark < STRESS }
    requires track { track < TRACKS }
    ensures { OnOk result (out.new.items ≡ out.old.items
        ++ spec.track_text picture.now strokes.now mark track) }
{
    if !is_used(picture, track) {
        return Ok(());
    }
    out.extend_from_slice(&cell(strokes, mark, track))
}

// Puts which edges enter the event that have no lane.
fn put_without_lane<A: Allocator>(
    out: &mut Vec<u8, A>,
    strands: &[Strand],
    at: u32,
) -> Result<(), AllocError>
    ensures { OnOk result (out.new.items ≡ out.old.items ++ flat_map (spec.told_if at) strands.now) }
{
    for strand in strands {
        put_if_told(out, at, strand)?;
    }
    Ok(())
}

// Whether the strand has found no lane to the event, which it enters.
fn has_no_lane(at: u32, strand: &Strand) -> bool
    ensures { result ≡ spec.has_no_lane at strand.now }
{
    strand.lane.is_none() && strand.edge.to == at && strand.edge.from < at
}

// Puts where the strand comes from, if so.
fn put_if_told<A: Allocator>(
    out: &mut Vec<u8, A>,
    at: u32,
    strand: &Strand,
) -> Result<(), AllocError>
    ensures { OnOk result (out.new.items ≡ out.old.items ++ spec.told_if at strand.now) }
{
    if !has_no_lane(at, strand) {
        return Ok(());
    }
    put_number_in(out, b"(also after event ", strand.edge.from, b") ")
}
