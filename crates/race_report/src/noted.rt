//! The report of a verdict that carries what is printed of it: no event is looked up.
ghost use Rattle.std.specs.Prelude.{◌≡◌, All};
ghost use Rattle.race_records.specs.{Events.TraceState, Page.Printing};
ghost use Rattle.race_text.specs.Output.{Writes};
ghost use Rattle.race_verdict.specs.Notes.{IsNotedOf, verdict_noted};
ghost use Rattle.race_report.specs.{Printable.{IsNoteNamed, IsRaceNamed, AreNamed}, Noted.access_noted};
ghost use Rattle.race_report.specs.Noted.{race_noted_line, races_noted_text, report_noted};
ghost use Rattle.race_report.specs.Report as spec;

use crate::verdict::{
    AccessWords, access_name, print_clean, print_illegal, print_race_count, print_race_words,
};
use race_records::{Decls, Named, Page, Sink, WriteFault};
use race_verdict::{Report, ReportedAccess, ReportedRace};
use std::alloc::Allocator;
use std::io::Write;

/// Writes the report of the verdict from what is noted with it: as [`write_report`](crate::write_report) writes it of
/// the trace with these declarations of which verdict and notes are. Takes no memory; writes in blocks of at most
/// 4,096 bytes.
///
/// What is noted is declared, as a judge gives it. A write that fails or takes no byte ends it: then exactly the first
/// `sent` bytes are out.
pub fn write_noted_report<W: Write, A: Allocator, B: Allocator>(
    decls: &Decls<A>,
    verdict: &Report<B>,
    sink: &mut Sink<W>,
) -> Result<(), WriteFault>
    requires { AreNamed decls.now verdict.now }
    ensures noted { Writes W.contents result sink.old sink.new (report_noted decls.now verdict.now) }
    ensures report { (trace : TraceState) → trace.decls ≡ decls.now → IsNotedOf trace.events verdict.now
        → Writes W.contents result sink.old sink.new (spec.report trace (verdict_noted verdict.now)) }
{
    let mut page = Page::new();
    match print_noted_report(&mut page, sink, decls, verdict) {
        Ok(()) => page.flush(sink),
        Err(fault) => Err(fault),
    }
}

// Prints the report of the verdict.
fn print_noted_report<W: Write, A: Allocator, B: Allocator>(
    page: &mut Page,
    sink: &mut Sink<W>,
    decls: &Decls<A>,
    verdict: &Report<B>,
) -> Result<(), WriteFault>
    requires { AreNamed decls.now verdict.now }
    ensures { Printing W.contents result sink.old sink.new page.old page.new (report_noted decls.now verdict.now) }
{
    match verdict {
        Report::Illegal(illegal) => print_illegal(page, sink, *illegal),
        Report::Clean { events, accesses } => print_clean(page, sink, *events, *accesses),
        Report::Races(races) => print_noted_races(page, sink, decls, races.as_slice()),
    }
}

// Prints the races, and how many there are.
fn print_noted_races<W: Write, A: Allocator>(
    page: &mut Page,
    sink: &mut Sink<W>,
    decls: &Decls<A>,
    races: &[ReportedRace],
) -> Result<(), WriteFault>
    requires { All (IsRaceNamed decls.now) races.now }
    ensures { Printing W.contents result sink.old sink.new page.old page.new (races_noted_text decls.now races.now) }
{
    for race in races {
        if let Err(fault) = print_noted_race(page, sink, decls, race) {
            return Err(fault);
        }
    }
    print_race_count(page, sink, races.len())
}

// Prints the line of a race.
fn print_noted_race<W: Write, A: Allocator>(
    page: &mut Page,
    sink: &mut Sink<W>,
    decls: &Decls<A>,
    race: &ReportedRace,
) -> Result<(), WriteFault>
    requires { IsRaceNamed decls.now race.now }
    ensures { Printing W.contents result sink.old sink.new page.old page.new (race_noted_line decls.now race.now) }
{
    let first = noted_words(decls, &race.first);
    let second = noted_words(decls, &race.second);
    let var = decls.name(Named::Var(race.var));
    print_race_words(page, sink, var.as_bytes(), first, second)
}

// The words for an access.
fn noted_words<'a, A: Allocator>(decls: &'a Decls<A>, noted: &ReportedAccess) -> AccessWords<'a>
    requires { IsNoteNamed decls.now noted.now }
    ensures { spec.access_told result.what.now result.who.now result.place.now result.at ≡ access_noted decls.now noted.now }
{
    AccessWords {
        what: access_name(noted.write).as_bytes(),
        who: decls.name(Named::Goroutine(noted.who)).as_bytes(),
        place: decls.place_text(noted.place).as_bytes(),
        at: noted.at,
    }
}
