//! What is printed of a judged run: the report of its trace, and how it ended.
ghost use Rattle.std.specs.Prelude.{◌≡◌, ◌++◌};
ghost use Rattle.race_records.specs.Page.{Printing};
ghost use Rattle.race_text.specs.{Output.Writes, Text.goroutine_name};
ghost use Rattle.race_verdict.specs.Verdicts.{verdict_of};
ghost use Rattle.race_report.specs.{Printable.RacesAreOf, Report.report};
ghost use Rattle.race_tool.specs.Report as spec;

use race_hub::End;
use race_records::{Decls, Kind, Named, Page, Sink, Trace, WriteFault};
use race_report::print_report;
use race_verdict::Verdict;
use std::alloc::Allocator;
use std::io::Write;

/// Writes the report of the verdict on a run's trace, and the line of the run's end behind it.
pub(crate) fn write_judged<W: Write, A: Allocator, B: Allocator>(
    trace: &Trace<A>,
    verdict: &Verdict<B>,
    end: End,
    sink: &mut Sink<W>,
) -> Result<(), WriteFault>
    requires { RacesAreOf trace.now verdict.now }
    ensures { Writes W.contents result sink.old sink.new
        (report trace.now (verdict_of verdict.now) ++ spec.end_line trace.now.decls.declarations end) }
{
    let mut page = Page::new();
    match print_judged(&mut page, sink, trace, verdict, end) {
        Ok(()) => page.flush(sink),
        Err(fault) => Err(fault),
    }
}

fn print_judged<W: Write, A: Allocator, B: Allocator>(
    page: &mut Page,
    sink: &mut Sink<W>,
    trace: &Trace<A>,
    verdict: &Verdict<B>,
    end: End,
) -> Result<(), WriteFault>
    requires { RacesAreOf trace.now verdict.now }
    ensures { Printing W.contents result sink.old sink.new page.old page.new
        (report trace.now (verdict_of verdict.now) ++ spec.end_line trace.now.decls.declarations end) }
{
    match print_report(page, sink, trace, verdict) {
        Ok(()) => print_end(page, sink, trace.decls(), end),
        Err(fault) => Err(fault),
    }
}

#[tactic(auto, unfolding(crate::specs::Report::end_line))]
fn print_end<W: Write, A: Allocator>(
    page: &mut Page,
    sink: &mut Sink<W>,
    decls: &Decls<A>,
    end: End,
) -> Result<(), WriteFault>
    ensures { Printing W.contents result sink.old sink.new page.old page.new
        (spec.end_line decls.now.declarations end) }
{
    let words = end_words(decls, end);
    let parts = [
        b"end: ".as_slice(),
        words.what,
        words.whose,
        b"\n".as_slice(),
    ];
    page.put_all(sink, &parts)
}

// How an end is told: what it is, and whose request was bad, if that is it.
#[derive(Clone, Copy)]
struct EndWords<'a> {
    what: &'a [u8],
    whose: &'a [u8],
}

fn end_words<A: Allocator>(decls: &Decls<A>, end: End) -> EndWords<'_>
    ensures what { result.what.now ≡ spec.end_word end }
    ensures whose { result.whose.now ≡ spec.end_name decls.now.declarations end }
{
    EndWords {
        what: end_word(end).as_bytes(),
        whose: end_name(decls, end),
    }
}

fn end_word(end: End) -> &'static str
    ensures { result.now ≡ spec.end_word end }
{
    match end {
        End::Main => "main",
        End::Fault => "fault",
        End::Deadlock => "deadlock",
        End::Limit => "limit",
        End::Bad(_) => "bad ",
    }
}

// Whose request was bad, if that ended the run.
fn end_name<A: Allocator>(decls: &Decls<A>, end: End) -> &[u8]
    ensures { result.now ≡ spec.end_name decls.now.declarations end }
{
    match end {
        End::Bad(goroutine) => name_of(decls, goroutine),
        _ => b"".as_slice(),
    }
}

// The name of the goroutine of this number, and nothing where there is none.
fn name_of<A: Allocator>(decls: &Decls<A>, goroutine: u32) -> &[u8]
    ensures { result.now ≡ goroutine_name decls.now.declarations goroutine }
{
    if goroutine < decls.count(Kind::Goroutine) {
        decls.name(Named::Goroutine(goroutine)).as_bytes()
    } else {
        b"".as_slice()
    }
}
