//! What lower crates print, put after a text in memory, and which events are shown so.
ghost use Rattle.std.specs.Prelude.{◌≡◌, ℕ, ◌<◌, List, [], ◌++◌, length, Some, OnOk};
ghost use Rattle.race_records.specs.{Devices.writer_of, Page.{Prints, PageState}};
ghost use Rattle.race_verdict.specs.Verdicts.{verdict_of};
ghost use Rattle.race_report.specs.{Printable.RacesAreOf, Report.{fault_line, report}};
ghost use Rattle.race_explain.specs.Shown as spec;

use crate::names::line_of;
use crate::put::put_number;
use race_records::{Page, Sink, Trace, WriteFault};
use race_report::{print_report, write_text_fault};
use race_text::{TextFault, print_event};
use race_verdict::{Race, Verdict};
use std::alloc::{AllocError, Allocator};
use std::mem;

/// Puts the line of the trace that has the event.
pub(crate) fn put_event<A: Allocator + Copy, B: Allocator>(
    out: &mut Vec<u8, A>,
    trace: &Trace<B>,
    event: u32,
) -> Result<(), AllocError>
    requires { event < length trace.now.events }
    ensures { OnOk result (out.new.items ≡ out.old.items ++ spec.event_text trace.now event) }
{
    let (mut page, mut sink) = (Page::new(), lent(out));
    let printed = print_event(
        &mut page,
        &mut sink,
        trace.decls(),
        trace.event(event as usize),
    );
    returned(out, &mut page, sink, printed)
}

/// Puts which event is at the index, and its line.
#[tactic(auto, unfolding(crate::specs::Shown::event_shown))]
pub(crate) fn put_event_line<A: Allocator + Copy, B: Allocator>(
    out: &mut Vec<u8, A>,
    trace: &Trace<B>,
    event: u32,
) -> Result<(), AllocError>
    requires { event < length trace.now.events }
    ensures { OnOk result (out.new.items ≡ out.old.items ++ spec.event_shown trace.now event) }
{
    out.extend_from_slice(b"event ")?;
    put_number(out, u64::from(event) + 1)?;
    out.extend_from_slice(b" is line ")?;
    put_number(out, line_of(trace, event))?;
    out.extend_from_slice(b": ")?;
    put_event(out, trace, event)
}

/// Puts the two accesses that race with their lines, after an empty line.
#[tactic(auto, unfolding(crate::specs::Shown::race_shown))]
pub(crate) fn put_race<A: Allocator + Copy, B: Allocator>(
    out: &mut Vec<u8, A>,
    trace: &Trace<B>,
    race: &Race,
) -> Result<(), AllocError>
    requires first { race.now.first < length trace.now.events }
    requires second { race.now.second < length trace.now.events }
    ensures { OnOk result (out.new.items ≡ out.old.items ++ spec.race_shown trace.now race.now) }
{
    out.extend_from_slice(b"\n")?;
    put_event_line(out, trace, race.first)?;
    put_event_line(out, trace, race.second)
}

/// Puts the report of the verdict.
pub(crate) fn put_report<A: Allocator + Copy, B: Allocator, C: Allocator>(
    out: &mut Vec<u8, A>,
    trace: &Trace<B>,
    verdict: &Verdict<C>,
) -> Result<(), AllocError>
    requires { RacesAreOf trace.now verdict.now }
    ensures { OnOk result (out.new.items ≡ out.old.items ++ report trace.now (verdict_of verdict.now)) }
{
    let (mut page, mut sink) = (Page::new(), lent(out));
    let printed = print_report(&mut page, &mut sink, trace, verdict);
    returned(out, &mut page, sink, printed)
}

/// Puts the line of a report that has the fault.
pub(crate) fn put_fault<A: Allocator + Copy>(
    out: &mut Vec<u8, A>,
    fault: &TextFault,
) -> Result<(), AllocError>
    ensures { OnOk result (out.new.items ≡ out.old.items ++ fault_line fault.now) }
{
    let mut sink = lent(out);
    let Ok(()) = write_text_fault(fault, &mut sink) else {
        return Err(AllocError);
    };
    *out = sink.into_writer();
    Ok(())
}

// Lends the text to a sink.
fn lent<A: Allocator + Copy>(out: &mut Vec<u8, A>) -> Sink<Vec<u8, A>>
    ensures { (writer_of result).items ≡ out.old.items }
{
    let empty = Vec::new(*out.allocator());
    Sink::new(mem::replace(out, empty))
}

// Takes it back with what was printed. Where a list can't grow, a write to it fails.
fn returned<A: Allocator>(
    out: &mut Vec<u8, A>,
    page: &mut Page,
    mut sink: Sink<Vec<u8, A>>,
    printed: Result<(), WriteFault>,
) -> Result<(), AllocError>
    ensures { (before : List ℕ) (blank : PageState) (text : List ℕ) → blank.waiting ≡ [] → blank.sent ≡ 0
        → OnOk printed (Prints (Some before) (Some (writer_of sink).items) blank page.old text)
        → OnOk result (out.new.items ≡ before ++ text) }
{
    let Ok(()) = printed else {
        return Err(AllocError);
    };
    let Ok(()) = page.flush(&mut sink) else {
        return Err(AllocError);
    };
    *out = sink.into_writer();
    Ok(())
}
