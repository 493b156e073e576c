//! A picture, as a value that its printer takes: goroutines in columns, strands between them in lanes, and rows.
ghost use Rattle.std.specs.{Prelude.{◌≡◌, ◌==◌, ◌++◌, position, IfOk, OnOk}, List.{filter, find, list_any, range_with_len}};
ghost use Rattle.race_draw.specs.Picture as spec;

use race_edges::Edge;
use race_records::Event;
use std::alloc::{AllocError, Allocator, Global};
use std::marker::Model;

/// How many columns there are at most: all goroutines that have none of their own share the last. The lanes are behind them.
pub(crate) const MAX_COLUMNS: usize = 10;

/// How many lanes there are at most.
pub(crate) const MAX_LANES: usize = 6;

/// How many tracks both are.
pub(crate) const TRACKS: usize = 16;

/// What is added to a byte to stress it. Names and places have bytes below it.
pub(crate) const STRESS: u8 = 128;

// Definitions cite these numbers, so each is written down twice.
const _: () = prove!(MAX_COLUMNS == 10 && MAX_LANES == 6 && TRACKS == 16 && STRESS == 128);

/// How a strand is drawn.
#[derive(Clone, Copy, Debug, PartialEq, Eq)]
pub enum Style {
    /// By dots: the order of a race's accesses that is missing.
    Missing,
    /// By double strokes: the way by which the second access got to know what it knows of the first one's goroutine.
    Way,
    /// By single strokes: another edge.
    Plain,
}

/// What is drawn of an edge, or of the order that is missing.
#[derive(Clone, Copy, Debug, PartialEq, Eq)]
pub struct Strand {
    /// From which event to which, and of which goroutines.
    pub edge: Edge,
    /// How it is drawn.
    pub style: Style,
    /// The track in which it goes down. None inside one event, and where each lane is taken.
    pub lane: Option<usize>,
}

/// What is drawn of a race or of a clean trace.
#[derive(Debug, Drop)]
pub struct Picture<A: Allocator = Global> {
    pub(crate) columns: Vec<u32, A>,
    pub(crate) strands: Vec<Strand, A>,
    pub(crate) rows: Vec<u32, A>,
}

impl<A: Allocator> Model for Picture<A> {
    ghost use Rattle.race_draw.specs.Picture.{PictureState};

    ghost Value = { PictureState };

    ghost view = { λ p. record { columns = p.columns.items; strands = p.strands.items; rows = p.rows.items } };
}

// Whether the strand is in the lane.
fn is_in(lane: usize, strand: &Strand) -> bool
    ensures { result ≡ spec.is_in lane strand.now }
{
    match strand.lane {
        Some(own) => own == lane,
        None => false,
    }
}

// Whether it is there beside a row that the edge goes by.
fn is_in_the_way(edge: &Edge, lane: usize, strand: &Strand) -> bool
    ensures { result ≡ spec.is_in_the_way edge.now lane strand.now }
{
    is_in(lane, strand) && !(strand.edge.to < edge.from || edge.to < strand.edge.from)
}

// Whether one is.
fn is_taken(strands: &[Strand], edge: &Edge, lane: usize) -> bool
    ensures { result ≡ list_any (spec.is_in_the_way edge.now lane) strands.now }
{
    strands
        .iter()
        .any(|strand| is_in_the_way(edge, lane, strand))
}

// Whether none is.
fn is_free(strands: &[Strand], edge: &Edge, lane: usize) -> bool
    ensures { result ≡ spec.is_free strands.now edge.now lane }
{
    !is_taken(strands, edge, lane)
}

// The first lane that is free for the edge.
fn first_free(strands: &[Strand], edge: &Edge) -> Option<usize>
    ensures { result ≡ find (spec.is_free strands.now edge.now)
        (range_with_len MAX_COLUMNS MAX_LANES) }
{
    (MAX_COLUMNS..TRACKS).find(|lane| is_free(strands, edge, *lane))
}

// The first lane that is free for the edge behind these strands.
fn lane_of(strands: &[Strand], edge: &Edge) -> Option<usize>
    ensures { result ≡ spec.lane_of strands.now edge.now }
{
    if edge.from == edge.to {
        return None;
    }
    first_free(strands, edge)
}

/// Puts the edges behind the strands, each in its lane.
pub(crate) fn put_strands<A: Allocator>(
    strands: &mut Vec<Strand, A>,
    style: Style,
    edges: &[Edge],
) -> Result<(), AllocError>
    ensures { OnOk result (strands.new.items ≡ spec.strands_behind style strands.old.items edges.now) }
{
    for edge in edges {
        let lane = lane_of(strands.as_slice(), edge);
        strands.push(Strand {
            edge: *edge,
            style,
            lane,
        })?;
    }
    Ok(())
}

// Whether the goroutine does one of the events.
fn does_one(events: &[Event], goroutine: u32) -> bool
    ensures { result ≡ list_any (λ e. e.who == goroutine) events.now }
{
    events.iter().any(|event| event.who == goroutine)
}

// Whether a strand leaves or enters it.
fn is_touched(strands: &[Strand], goroutine: u32) -> bool
    ensures { result ≡ list_any (spec.touches goroutine) strands.now }
{
    strands.iter().any(|strand| strand.edge.from_who == goroutine
        || strand.edge.to_who == goroutine)
}

// Whether it is among those that come first.
fn is_first(front: &[u32], goroutine: u32) -> bool
    ensures { result ≡ list_any (λ f. f == goroutine) front.now }
{
    front.iter().any(|first| *first == goroutine)
}

// Whether it comes behind them.
fn comes_behind(front: &[u32], events: &[Event], strands: &[Strand], goroutine: u32) -> bool
    ensures { result ≡ spec.comes_behind front.now events.now strands.now goroutine }
{
    !is_first(front, goroutine) && (does_one(events, goroutine) || is_touched(strands, goroutine))
}

// The goroutines that come behind those, of so many.
fn behind<A: Allocator>(
    alloc: A,
    front: &[u32],
    events: &[Event],
    strands: &[Strand],
    goroutines: u32,
) -> Result<Vec<u32, A>, AllocError>
    ensures { IfOk result (λ behind. behind.items
        ≡ filter (spec.comes_behind front.now events.now strands.now) (range_with_len 0 goroutines)) }
{
    let behind = (0..goroutines)
        .filter(|goroutine| comes_behind(front, events, strands, *goroutine))
        .collect(alloc)?;
    Ok(behind)
}

/// The goroutines that have columns: these first, then of so many those that do one of the events or that a strand touches.
pub(crate) fn columns<A: Allocator + Copy>(
    alloc: A,
    front: &[u32],
    events: &[Event],
    strands: &[Strand],
    goroutines: u32,
) -> Result<Vec<u32, A>, AllocError>
    ensures { IfOk result (λ columns. columns.items
        ≡ spec.columns_of front.now events.now strands.now goroutines) }
{
    let behind = behind(alloc, front, events, strands, goroutines)?;
    let mut columns = Vec::new(alloc);
    columns.extend_from_slice(front)?;
    columns.extend_from_slice(behind.as_slice())?;
    columns.truncate(MAX_COLUMNS);
    Ok(columns)
}

// Its own column.
fn own_column(columns: &[u32], goroutine: u32) -> Option<usize>
    ensures { result ≡ position (λ c. c == goroutine) columns.now }
{
    columns.iter().position(|column| *column == goroutine)
}

/// The track of a goroutine.
pub(crate) fn column_of(columns: &[u32], goroutine: u32) -> usize
    ensures { result ≡ spec.column_of columns.now goroutine }
{
    own_column(columns, goroutine).unwrap_or(MAX_COLUMNS - 1)
}

// Whether a strand is.
fn has_strand(strands: &[Strand], lane: usize) -> bool
    ensures { result ≡ list_any (spec.is_in lane) strands.now }
{
    strands.iter().any(|strand| is_in(lane, strand))
}

/// Whether a goroutine or a strand is in the track.
pub(crate) fn is_used<A: Allocator>(picture: &Picture<A>, track: usize) -> bool
    ensures { result ≡ spec.is_used picture.now track }
{
    track < picture.columns.len() || has_strand(picture.strands.as_slice(), track)
}
