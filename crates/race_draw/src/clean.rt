//! What is drawn of a clean trace, as a value.
ghost use Rattle.std.specs.{Prelude.{◌≡◌, IfOk}, List.range_with_len};
ghost use Rattle.race_model.specs.Legal.{IsLegal};
ghost use Rattle.race_verdict.specs.Traces.{capacities};
ghost use Rattle.race_draw.specs.{Clean.IsCleanPictureOf, Rows.CanBePrinted};
ghost use Rattle.race_draw.specs.Clean as spec;

use crate::layout::listed;
use crate::picture::{Picture, Style, columns, put_strands};
use crate::reduced::kept;
use race_records::{Kind, Trace};
use std::alloc::{AllocError, Allocator};

/// How many events a clean trace has at most that is drawn.
const MAX_CLEAN_EVENTS: usize = 60;

// Definitions cite this number, so it is written down twice.
const _: () = prove!(MAX_CLEAN_EVENTS == 60);

/// Whether a clean trace of so many events has a chart.
pub(crate) fn has_chart(events: usize) -> bool
    ensures { result ≡ spec.has_chart events }
{
    0 < events && events <= MAX_CLEAN_EVENTS
}

/// What is drawn of a clean trace. Takes time in the cube of its edges.
pub(crate) fn lay_out_clean<A: Allocator + Copy, B: Allocator>(
    alloc: A,
    trace: &Trace<B>,
) -> Result<Picture<A>, AllocError>
    requires { IsLegal (capacities trace.now) trace.now.events }
    ensures laid_out { IfOk result (λ picture. IsCleanPictureOf trace.now picture) }
    ensures printable { IfOk result (λ picture. CanBePrinted trace.now picture) }
{
    let edges = listed(alloc, trace)?;
    let kept = kept(alloc, edges.as_slice())?;
    let mut strands = Vec::new(alloc);
    put_strands(&mut strands, Style::Plain, kept.as_slice())?;
    let goroutines = trace.decls().count(Kind::Goroutine);
    let columns = columns(alloc, &[], trace.events(), strands.as_slice(), goroutines)?;
    let rows = all_rows(alloc, trace.len() as u32)?;
    Ok(Picture {
        columns,
        strands,
        rows,
    })
}

// So many events, in order.
fn all_rows<A: Allocator>(alloc: A, events: u32) -> Result<Vec<u32, A>, AllocError>
    ensures { IfOk result (λ rows. rows.items ≡ range_with_len 0 events) }
{
    let mut rows = Vec::new(alloc);
    for event in 0..events {
        rows.push(event)?;
    }
    Ok(rows)
}
