//! Drawings of races and of a clean trace, as texts and as SVG documents.
ghost use Rattle.std.specs.Prelude.{All, IfOk};
ghost use Rattle.race_model.specs.Legal.{IsLegal};
ghost use Rattle.race_text.specs.Output.{Writes};
ghost use Rattle.race_verdict.specs.Traces.{capacities};
ghost use Rattle.race_shards.specs.Witness.{RacesInOrder};
ghost use Rattle.race_draw.specs.Text.{AreDrawn, IsDrawnClean};

use crate::clean::{has_chart, lay_out_clean};
use crate::layout::lay_out_all;
use crate::printed::put_clean;
use crate::rows::put_picture;
use crate::svg::in_form;
use crate::text::put_drawings;
use race_records::{BLOCK, Page, Sink, Trace, WriteFault};
use race_verdict::Race;
use std::alloc::{AllocError, Allocator};
use std::io::Write;

/// Draws races of a trace, in order: a text in lines of at most 100 columns, or that text as an SVG document.
///
/// Takes time for each race in proportion to the events, and of a trace of at most 2,000 events once in the square of them.
pub fn draw_races<A: Allocator + Copy, B: Allocator>(
    alloc: A,
    trace: &Trace<B>,
    races: &[Race],
    svg: bool,
) -> Result<Vec<u8, A>, AllocError>
    requires races { All (RacesInOrder (capacities trace.now) trace.now.events) races.now }
    requires legal { IsLegal (capacities trace.now) trace.now.events }
    ensures { IfOk result (λ text. AreDrawn trace.now svg races.now text.items) }
{
    let layouts = lay_out_all(alloc, trace, races)?;
    let mut text = Vec::with_capacity(alloc, BLOCK)?;
    put_drawings(&mut text, trace, layouts.as_slice())?;
    in_form(alloc, text.as_slice(), svg)
}

/// Draws a clean trace of 1 to 60 events, and of another writes the line of its report; as a text or as an SVG document.
pub fn draw_clean<A: Allocator + Copy, B: Allocator>(
    alloc: A,
    trace: &Trace<B>,
    svg: bool,
) -> Result<Vec<u8, A>, AllocError>
    requires { IsLegal (capacities trace.now) trace.now.events }
    ensures { IfOk result (λ text. IsDrawnClean trace.now svg text.items) }
{
    let mut text = Vec::with_capacity(alloc, BLOCK)?;
    put_clean(&mut text, trace)?;
    if !has_chart(trace.len()) {
        return in_form(alloc, text.as_slice(), svg);
    }
    let picture = lay_out_clean(alloc, trace)?;
    text.extend_from_slice(b"\n")?;
    put_picture(&mut text, trace, &picture)?;
    in_form(alloc, text.as_slice(), svg)
}

/// Writes a text. Takes no memory.
///
/// A write that fails or takes no byte ends it: then exactly the first `sent` bytes are out.
pub fn write_text<W: Write>(text: &[u8], sink: &mut Sink<W>) -> Result<(), WriteFault>
    ensures { Writes W.contents result sink.old sink.new text.now }
{
    let mut page = Page::new();
    match page.put(sink, text) {
        Ok(()) => page.flush(sink),
        Err(fault) => Err(fault),
    }
}
