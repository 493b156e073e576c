//! What lower crates print, put behind a text in memory.
ghost use Rattle.std.specs.Prelude.{◌≡◌, ℕ, ◌<◌, List, [], ◌++◌, length, Some, OnOk};
ghost use Rattle.race_records.specs.{Devices.writer_of, Page.{Prints, PageState}};
ghost use Rattle.race_verdict.specs.Races.{race_of};
ghost use Rattle.race_report.specs.{Printable.IsOf, Report.{race_line, races_line, report}};
ghost use Rattle.race_draw.specs.Words.{event_text};
ghost use Rattle.race_model.specs.Verdict as model;

use race_records::{Page, Sink, Trace, WriteFault};
use race_report::{print_race, print_race_count, print_report};
use race_text::print_event;
use race_verdict::{Race, Verdict};
use std::alloc::{AllocError, Allocator};
use std::mem;

/// Puts the line of the trace that has the event.
pub(crate) fn put_event<A: Allocator + Copy, B: Allocator>(
    out: &mut Vec<u8, A>,
    trace: &Trace<B>,
    event: u32,
) -> Result<(), AllocError>
    requires { event < length trace.now.events }
    ensures { OnOk result (out.new.items ≡ out.old.items ++ event_text trace.now event) }
{
    let (mut page, mut sink) = (Page::new(), lent(out));
    let printed = print_event(
        &mut page,
        &mut sink,
        trace.decls(),
        trace.event(event as usize),
    );
    returned(out, &mut page, sink, printed)
}

/// Puts the line of a report that has the race.
pub(crate) fn put_race<A: Allocator + Copy, B: Allocator>(
    out: &mut Vec<u8, A>,
    trace: &Trace<B>,
    race: &Race,
) -> Result<(), AllocError>
    requires { IsOf trace.now (race_of race.now) }
    ensures { OnOk result (out.new.items ≡ out.old.items ++ race_line trace.now (race_of race.now)) }
{
    let (mut page, mut sink) = (Page::new(), lent(out));
    let printed = print_race(&mut page, &mut sink, trace, *race);
    returned(out, &mut page, sink, printed)
}

/// Puts the line that says how many races there are.
pub(crate) fn put_race_count<A: Allocator + Copy>(
    out: &mut Vec<u8, A>,
    count: usize,
) -> Result<(), AllocError>
    ensures { OnOk result (out.new.items ≡ out.old.items ++ races_line count) }
{
    let (mut page, mut sink) = (Page::new(), lent(out));
    let printed = print_race_count(&mut page, &mut sink, count);
    returned(out, &mut page, sink, printed)
}

/// Puts the report of a clean trace.
pub(crate) fn put_clean<A: Allocator + Copy, B: Allocator>(
    out: &mut Vec<u8, A>,
    trace: &Trace<B>,
) -> Result<(), AllocError>
    ensures { OnOk result (out.new.items ≡ out.old.items ++ report trace.now model.Clean) }
{
    let (mut page, mut sink) = (Page::new(), lent(out));
    let clean: Verdict<B> = Verdict::Clean;
    let printed = print_report(&mut page, &mut sink, trace, &clean);
    returned(out, &mut page, sink, printed)
}

// Lends the text to a sink.
fn lent<A: Allocator + Copy>(out: &mut Vec<u8, A>) -> Sink<Vec<u8, A>>
    ensures { (writer_of result).items ≡ out.old.items }
{
    let empty = Vec::new(*out.allocator());
    Sink::new(mem::replace(out, empty))
}

// Takes it back with what was printed. Where a list can't grow, a write to it fails.
fn returned<A: Allocator>(
    out: &mut Vec<u8, A>,
    page: &mut Page,
    mut sink: Sink<Vec<u8, A>>,
    printed: Result<(), WriteFault>,
) -> Result<(), AllocError>
    ensures { (before : List ℕ) (blank : PageState) (text : List ℕ) → blank.waiting ≡ [] → blank.sent ≡ 0
        → OnOk printed (Prints (Some before) (Some (writer_of sink).items) blank page.old text)
        → OnOk result (out.new.items ≡ before ++ text) }
{
    let Ok(()) = printed else {
        return Err(AllocError);
    };
    let Ok(()) = page.flush(&mut sink) else {
        return Err(AllocError);
    };
    *out = sink.into_writer();
    Ok(())
}
