//! The text of drawings.
ghost use Rattle.std.specs.{Prelude.{◌≡◌, ◌++◌, All, OnOk}, List.flat_map};
ghost use Rattle.race_draw.specs.Text.{CanBeDrawn};
ghost use Rattle.race_draw.specs.Text as spec;

use crate::layout::Layout;
use crate::printed::{put_race, put_race_count};
use crate::rows::put_picture;
use crate::sentence::put_sentence;
use race_edges::MAX_PLAIN_EVENTS;
use race_records::Trace;
use std::alloc::{AllocError, Allocator};

/// Puts how many races there are, and each of them.
pub(crate) fn put_drawings<A: Allocator + Copy, B: Allocator, C: Allocator>(
    out: &mut Vec<u8, A>,
    trace: &Trace<B>,
    layouts: &[Layout<C>],
) -> Result<(), AllocError>
    requires { All (CanBeDrawn trace.now) layouts.now }
    ensures { OnOk result (out.new.items ≡ out.old.items ++ spec.drawings_text trace.now layouts.now) }
{
    put_race_count(out, layouts.len())?;
    out.extend_from_slice(key(trace.len()))?;
    put_each(out, trace, layouts)
}

// Puts each of them.
fn put_each<A: Allocator + Copy, B: Allocator, C: Allocator>(
    out: &mut Vec<u8, A>,
    trace: &Trace<B>,
    layouts: &[Layout<C>],
) -> Result<(), AllocError>
    requires { All (CanBeDrawn trace.now) layouts.now }
    ensures { OnOk result (out.new.items ≡ out.old.items ++ flat_map (spec.drawing_text trace.now) layouts.now) }
{
    for layout in layouts {
        put_drawing(out, trace, layout)?;
    }
    Ok(())
}

// What tells strands apart, where a trace has so many events.
fn key(events: usize) -> &'static [u8]
    ensures { result.now ≡ spec.key events }
{
    if events > MAX_PLAIN_EVENTS {
        b"(... is the order that is missing; of more than 2,000 events no edge is drawn)\n"
    } else {
        b"(... is the order that is missing, === a path from the last event seen, --- another edge)\n"
    }
}

// Puts a drawing: behind an empty line the line of the race, the picture, and the sentence.
fn put_drawing<A: Allocator + Copy, B: Allocator, C: Allocator>(
    out: &mut Vec<u8, A>,
    trace: &Trace<B>,
    layout: &Layout<C>,
) -> Result<(), AllocError>
    requires { CanBeDrawn trace.now layout.now }
    ensures { OnOk result (out.new.items ≡ out.old.items ++ spec.drawing_text trace.now layout.now) }
{
    out.extend_from_slice(b"\n\t")?;
    put_race(out, trace, &layout.race)?;
    out.extend_from_slice(b"\n")?;
    put_picture(out, trace, &layout.picture)?;
    put_sentence(out, trace, &layout.race, layout.seen)
}
