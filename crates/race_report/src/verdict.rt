//! The report of a verdict.
ghost use Rattle.std.specs.Prelude.{◌≡◌, ◌<◌, All, map, length};
ghost use Rattle.race_records.specs.Page.{Printing};
ghost use Rattle.race_model.specs.Events.{count, is_access};
ghost use Rattle.race_legal.specs.Rules.{number_of};
ghost use Rattle.race_text.specs.Output.{Writes};
ghost use Rattle.race_verdict.specs.{Races.race_of, Verdicts.verdict_of};
ghost use Rattle.race_report.specs.{Printable.{IsOf, RacesAreOf}, Noted.noted_word};
ghost use Rattle.race_report.specs.Report as spec;

use crate::counted::print_count;
use crate::rule::text_of;
use itoa::Buffer;
use race_legal::Illegal;
use race_records::{Named, Op, Page, Sink, Trace, WriteFault};
use race_verdict::{Race, RaceList, Verdict};
use std::alloc::Allocator;
use std::io::Write;

/// Writes the report of the verdict on the trace: one line for an illegal event or a clean trace,
/// or a line for each race and their count. Takes no memory; writes in blocks of at most 4,096 bytes.
///
/// The races of the verdict are of this trace, as a judge gives them. A write that fails or takes no byte ends it: then
/// exactly the first `sent` bytes are out.
pub fn write_report<W: Write, A: Allocator, B: Allocator>(
    trace: &Trace<A>,
    verdict: &Verdict<B>,
    sink: &mut Sink<W>,
) -> Result<(), WriteFault>
    requires { RacesAreOf trace.now verdict.now }
    ensures { Writes W.contents result sink.old sink.new (spec.report trace.now (verdict_of verdict.now)) }
{
    let mut page = Page::new();
    match print_report(&mut page, sink, trace, verdict) {
        Ok(()) => page.flush(sink),
        Err(fault) => Err(fault),
    }
}

/// Prints the report of the verdict on a page, behind whatever was printed on it before. Takes no memory.
///
/// The races of the verdict are of this trace, as a judge gives them. After a fault the page is of no more use.
#[tactic(auto, unfolding(crate::specs::Report::clean_line))]
pub fn print_report<W: Write, A: Allocator, B: Allocator>(
    page: &mut Page,
    sink: &mut Sink<W>,
    trace: &Trace<A>,
    verdict: &Verdict<B>,
) -> Result<(), WriteFault>
    requires { RacesAreOf trace.now verdict.now }
    ensures { Printing W.contents result sink.old sink.new page.old page.new
        (spec.report trace.now (verdict_of verdict.now)) }
{
    match verdict {
        Verdict::Illegal(illegal) => print_illegal(page, sink, *illegal),
        Verdict::Clean => print_clean(page, sink, trace.len(), access_count(trace)),
        Verdict::Races(races) => print_races(page, sink, trace, races),
    }
}

// How many of the events are accesses.
fn access_count<A: Allocator>(trace: &Trace<A>) -> usize
    ensures { result ≡ count is_access trace.now.events }
{
    trace
        .events()
        .iter()
        .filter(|event| is_access(&event.op))
        .count()
}

fn is_access(op: &Op) -> bool
    ensures { result ≡ is_access op.now }
{
    match op {
        Op::Read(_, _) => true,
        Op::Write(_, _) => true,
        _ => false,
    }
}

/// Prints that a trace of so many events, so many of them accesses, is clean.
pub(crate) fn print_clean<W: Write>(
    page: &mut Page,
    sink: &mut Sink<W>,
    events: usize,
    accesses: usize,
) -> Result<(), WriteFault>
    ensures { Printing W.contents result sink.old sink.new page.old page.new
        (spec.clean_text events accesses) }
{
    let mut event_number = Buffer::new();
    let mut access_number = Buffer::new();
    let parts = [
        b"clean: ".as_slice(),
        event_number.format(events).as_bytes(),
        b" events, ".as_slice(),
        access_number.format(accesses).as_bytes(),
        b" accesses".as_slice(),
        b"\n".as_slice(),
    ];
    page.put_all(sink, &parts)
}

/// Prints on a page the first event that breaks a rule, with its rule, behind whatever was printed on it before. Takes no
/// memory.
#[tactic(auto, unfolding(crate::specs::Report::illegal_line))]
pub fn print_illegal<W: Write>(
    page: &mut Page,
    sink: &mut Sink<W>,
    illegal: Illegal,
) -> Result<(), WriteFault>
    ensures { Printing W.contents result sink.old sink.new page.old page.new
        (spec.illegal_line illegal.at (number_of illegal.rule)) }
{
    let mut number = Buffer::new();
    let parts = [
        b"illegal: event ".as_slice(),
        number.format(u64::from(illegal.at) + 1).as_bytes(),
        b": ".as_slice(),
        text_of(illegal.rule).as_bytes(),
        b"\n".as_slice(),
    ];
    page.put_all(sink, &parts)
}

/// Prints on a page how many variables have a race, behind whatever was printed on it before. Takes no memory.
pub fn print_race_count<W: Write>(
    page: &mut Page,
    sink: &mut Sink<W>,
    count: usize,
) -> Result<(), WriteFault>
    ensures { Printing W.contents result sink.old sink.new page.old page.new
        (spec.races_line count) }
{
    print_count(page, sink, b"races: ", count, b"")
}

/// Prints the races, and how many there are.
fn print_races<W: Write, A: Allocator, B: Allocator>(
    page: &mut Page,
    sink: &mut Sink<W>,
    trace: &Trace<A>,
    races: &RaceList<B>,
) -> Result<(), WriteFault>
    requires { All (λ r. IsOf trace.now (race_of r)) races.now }
    ensures { Printing W.contents result sink.old sink.new page.old page.new
        (spec.races_text trace.now (map race_of races.now)) }
{
    for race in races.as_slice() {
        if let Err(fault) = print_race(page, sink, trace, *race) {
            return Err(fault);
        }
    }
    print_race_count(page, sink, races.as_slice().len())
}

/// Prints the line of a race on a page, behind whatever was printed on it before. Takes no memory.
///
/// The race is of this trace.
pub fn print_race<W: Write, A: Allocator>(
    page: &mut Page,
    sink: &mut Sink<W>,
    trace: &Trace<A>,
    race: Race,
) -> Result<(), WriteFault>
    requires { IsOf trace.now (race_of race) }
    ensures { Printing W.contents result sink.old sink.new page.old page.new
        (spec.race_line trace.now (race_of race)) }
{
    let first = access_words(trace, race.first);
    let second = access_words(trace, race.second);
    let var = trace.decls().name(Named::Var(race.var));
    print_race_words(page, sink, var.as_bytes(), first, second)
}

// How an access is told: what it does, by whom and where, and its number counted from 0.
#[derive(Clone, Copy)]
pub(crate) struct AccessWords<'a> {
    pub(crate) what: &'a [u8],
    pub(crate) who: &'a [u8],
    pub(crate) place: &'a [u8],
    pub(crate) at: u32,
}

// The words for the event at the index.
fn access_words<A: Allocator>(trace: &Trace<A>, index: u32) -> AccessWords<'_>
    requires { index < length trace.now.events }
    ensures { spec.access_told result.what.now result.who.now result.place.now result.at ≡ spec.access_text trace.now index }
{
    let event = trace.event(index as usize);
    AccessWords {
        what: access_word(&event.op).as_bytes(),
        who: trace.decls().name(Named::Goroutine(event.who)).as_bytes(),
        place: trace.place_text(event.place).as_bytes(),
        at: index,
    }
}

/// Prints the line of a race of two accesses, told in words, on the variable of this name.
pub(crate) fn print_race_words<'a, W: Write>(
    page: &mut Page,
    sink: &mut Sink<W>,
    var: &'a [u8],
    first: AccessWords<'a>,
    second: AccessWords<'a>,
) -> Result<(), WriteFault>
    ensures { Printing W.contents result sink.old sink.new page.old page.new (spec.race_told var.now
        (spec.access_told first.entry.what.now first.entry.who.now first.entry.place.now first.entry.at)
        (spec.access_told second.entry.what.now second.entry.who.now second.entry.place.now second.entry.at)) }
{
    let mut first_number = Buffer::new();
    let mut second_number = Buffer::new();
    let parts = [
        b"race on ".as_slice(),
        var,
        b": ".as_slice(),
        first.what,
        b" by ".as_slice(),
        first.who,
        b" at ".as_slice(),
        first.place,
        b" (event ".as_slice(),
        first_number.format(u64::from(first.at) + 1).as_bytes(),
        b"), ".as_slice(),
        second.what,
        b" by ".as_slice(),
        second.who,
        b" at ".as_slice(),
        second.place,
        b" (event ".as_slice(),
        second_number.format(u64::from(second.at) + 1).as_bytes(),
        b")\n".as_slice(),
    ];
    page.put_all(sink, &parts)
}

/// What an access does, in a word; of another operation there is none.
pub fn access_word(op: &Op) -> &'static str
    ensures { result.now ≡ spec.access_word op.now }
{
    match op {
        Op::Read(_, _) => access_name(false),
        Op::Write(_, _) => access_name(true),
        _ => "",
    }
}

/// A write, or else a read, in a word.
pub(crate) fn access_name(write: bool) -> &'static str
    ensures { result.now ≡ noted_word write }
{
    if write { "write" } else { "read" }
}
