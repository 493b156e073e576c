//! What is printed of predicted races.
ghost use Rattle.std.specs.Prelude.{◌≡◌, ◌++◌, All};
ghost use Rattle.race_records.specs.Page.{Printing};
ghost use Rattle.race_text.specs.Output.{Writes};
ghost use Rattle.race_verdict.specs.{Races.race_of, Verdicts.verdict_of};
ghost use Rattle.race_report.specs.{Printable.{IsOf, RacesAreOf}, Report.report};
ghost use Rattle.race_tool.specs.Predict as spec;

use race_records::{Page, Sink, Trace, WriteFault};
use race_report::{print_count, print_race, print_report};
use race_verdict::{Race, Verdict};
use std::alloc::Allocator;
use std::io::Write;

/// Writes the report of the verdict on a trace, and behind it a line for each predicted race, how many variables weren't searched to their
/// end, and the count.
pub(crate) fn write_predicted<W: Write, A: Allocator, B: Allocator>(
    trace: &Trace<A>,
    verdict: &Verdict<B>,
    races: &[Race],
    not_searched: u32,
    sink: &mut Sink<W>,
) -> Result<(), WriteFault>
    requires verdict { RacesAreOf trace.now verdict.now }
    requires races { All (λ race. IsOf trace.now (race_of race)) races.now }
    ensures { Writes W.contents result sink.old sink.new
        (report trace.now (verdict_of verdict.now) ++ spec.predictions_text trace.now races.now not_searched) }
{
    let mut page = Page::new();
    match print_all(&mut page, sink, trace, verdict, races, not_searched) {
        Ok(()) => page.flush(sink),
        Err(fault) => Err(fault),
    }
}

fn print_all<W: Write, A: Allocator, B: Allocator>(
    page: &mut Page,
    sink: &mut Sink<W>,
    trace: &Trace<A>,
    verdict: &Verdict<B>,
    races: &[Race],
    not_searched: u32,
) -> Result<(), WriteFault>
    requires verdict { RacesAreOf trace.now verdict.now }
    requires races { All (λ race. IsOf trace.now (race_of race)) races.now }
    ensures { Printing W.contents result sink.old sink.new page.old page.new
        (report trace.now (verdict_of verdict.now) ++ spec.predictions_text trace.now races.now not_searched) }
{
    match print_report(page, sink, trace, verdict) {
        Ok(()) => print_predictions(page, sink, trace, races, not_searched),
        Err(fault) => Err(fault),
    }
}

fn print_predictions<W: Write, A: Allocator>(
    page: &mut Page,
    sink: &mut Sink<W>,
    trace: &Trace<A>,
    races: &[Race],
    not_searched: u32,
) -> Result<(), WriteFault>
    requires { All (λ race. IsOf trace.now (race_of race)) races.now }
    ensures { Printing W.contents result sink.old sink.new page.old page.new
        (spec.predictions_text trace.now races.now not_searched) }
{
    for race in races {
        if let Err(fault) = print_prediction(page, sink, trace, *race) {
            return Err(fault);
        }
    }
    print_counts(page, sink, not_searched, races.len())
}

fn print_prediction<W: Write, A: Allocator>(
    page: &mut Page,
    sink: &mut Sink<W>,
    trace: &Trace<A>,
    race: Race,
) -> Result<(), WriteFault>
    requires { IsOf trace.now (race_of race) }
    ensures { Printing W.contents result sink.old sink.new page.old page.new
        (spec.predicted_line trace.now (race_of race)) }
{
    match page.put(sink, b"predicted ") {
        Ok(()) => print_race(page, sink, trace, race),
        Err(fault) => Err(fault),
    }
}

// How many variables weren't searched to their end, if there are any, and how many races are predicted.
fn print_counts<W: Write>(
    page: &mut Page,
    sink: &mut Sink<W>,
    not_searched: u32,
    count: usize,
) -> Result<(), WriteFault>
    ensures { Printing W.contents result sink.old sink.new page.old page.new (spec.counts_text not_searched count) }
{
    match print_not_searched(page, sink, not_searched) {
        Ok(()) => print_count(page, sink, b"predicted: ", count, b""),
        Err(fault) => Err(fault),
    }
}

fn print_not_searched<W: Write>(
    page: &mut Page,
    sink: &mut Sink<W>,
    count: u32,
) -> Result<(), WriteFault>
    ensures { Printing W.contents result sink.old sink.new page.old page.new (spec.not_searched_line count) }
{
    if count == 0 {
        return Ok(());
    }
    print_count(page, sink, b"not searched: ", count as usize, b" variables")
}
