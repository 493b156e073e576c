//! What a check reports, in full.
ghost use Rattle.std.specs.Prelude.{◌≡◌, ◌<◌, ◌++◌, All, length, IfOk, OnOk};
ghost use Rattle.race_verdict.specs.{Traces.{capacities, HasVerdict}, Verdicts.verdict_of};
ghost use Rattle.race_shards.specs.Witness.{RacesInOrder};
ghost use Rattle.race_explain.specs.Explained as spec;
ghost use Rattle.race_explain.specs.Marked.{IsMarked};

use crate::clean::put_seen;
use crate::fault::{Faulty, put_faulty};
use crate::illegal::put_reason;
use crate::line::{Cut, cut_out};
use crate::race::{MOST_STEPS, put_words};
use crate::shown::{put_event_line, put_fault, put_race, put_report};
use race_legal::Illegal;
use race_records::Trace;
use race_text::{TextCause, TextFault, parse_trace};
use race_verdict::{Race, Verdict};
use std::alloc::{AllocError, Allocator};

/// The report of the first fault of these bytes, and after it the line with its fault marked, and what is wrong.
pub fn explain_fault<A: Allocator + Copy>(
    alloc: A,
    bytes: &[u8],
    fault: &TextFault,
) -> Result<Vec<u8, A>, AllocError>
    ensures reports { IfOk result (λ text. spec.IsFaultExplained fault.now text.items) }
    ensures shows { IfOk result (λ text. spec.IsFaultShown bytes.now fault.now text.items) }
{
    let mut out = Vec::new(alloc);
    put_fault(&mut out, fault)?;
    if let Some(cut) = cut_out(bytes, fault.line) {
        put_cut(&mut out, fault, cut)?;
    }
    Ok(out)
}

// The line with its fault marked, and what is wrong.
fn put_cut<A: Allocator + Copy>(
    out: &mut Vec<u8, A>,
    fault: &TextFault,
    cut: Cut<'_>,
) -> Result<(), AllocError>
    ensures { OnOk result (spec.IsPutAfter (IsMarked fault.now.cause cut.entry.line.now) out.old.items out.new.items) }
{
    let before = if is_of_words(fault.cause) {
        read_before(*out.allocator(), cut.before)?
    } else {
        None
    };
    let faulty = Faulty {
        fault: *fault,
        line: cut.line,
        before,
        after: cut.after,
    };
    put_faulty(out, &faulty)
}

// Whether the cause goes by what the lines before declare.
fn is_of_words(cause: TextCause) -> bool {
    match cause {
        TextCause::BadHeader => false,
        TextCause::NoNewline => false,
        TextCause::BadByte => false,
        _ => true,
    }
}

// What the lines before say. Nothing where there are none.
fn read_before<A: Allocator + Copy>(
    alloc: A,
    before: &[u8],
) -> Result<Option<Trace<A>>, AllocError> {
    match parse_trace(alloc, before) {
        Ok(trace) => Ok(Some(trace)),
        Err(fault) => if fault.cause == TextCause::OutOfMemory {
            Err(AllocError)
        } else {
            Ok(None)
        },
    }
}

/// The report of the verdict on the trace, and after it the events that it is about with their lines, and why it is so. Each race takes time
/// in proportion to the events before it, so of a long trace with many races why is said of the first ones alone.
pub fn explain_trace<A: Allocator + Copy, B: Allocator, C: Allocator>(
    alloc: A,
    trace: &Trace<B>,
    verdict: &Verdict<C>,
) -> Result<Vec<u8, A>, AllocError>
    requires { HasVerdict trace.now (verdict_of verdict.now) }
    ensures { IfOk result (λ text. spec.IsExplained trace.now verdict.now text.items) }
{
    // A proof knows that it is a trace once its length is read.
    let _events = trace.len();
    let mut out = Vec::new(alloc);
    put_report(&mut out, trace, verdict)?;
    put_said(&mut out, trace, verdict)?;
    Ok(out)
}

// What is said of the verdict after its report.
fn put_said<A: Allocator + Copy, B: Allocator, C: Allocator>(
    out: &mut Vec<u8, A>,
    trace: &Trace<B>,
    verdict: &Verdict<C>,
) -> Result<(), AllocError>
    requires { HasVerdict trace.now (verdict_of verdict.now) }
    ensures { OnOk result (spec.IsPutAfter (spec.IsSaidOf trace.now verdict.now) out.old.items out.new.items) }
{
    match verdict {
        Verdict::Illegal(illegal) => put_illegal(out, trace, illegal),
        Verdict::Clean => put_clean(out, trace),
        Verdict::Races(races) => put_races(out, trace, races.as_slice()),
    }
}

// The event that breaks a rule, and why.
fn put_illegal<A: Allocator + Copy, B: Allocator>(
    out: &mut Vec<u8, A>,
    trace: &Trace<B>,
    illegal: &Illegal,
) -> Result<(), AllocError>
    requires { illegal.now.at < length trace.now.events }
    ensures { OnOk result (spec.IsPutAfter (spec.IsIllegalShown trace.now illegal.now.at) out.old.items out.new.items) }
{
    let mut words = Vec::new(*out.allocator());
    put_reason(&mut words, trace, *illegal)?;
    put_event_line(out, trace, illegal.at)?;
    out.extend_from_slice(words.as_slice())?;
    Ok(())
}

// What is seen of a clean trace.
fn put_clean<A: Allocator + Copy, B: Allocator>(
    out: &mut Vec<u8, A>,
    trace: &Trace<B>,
) -> Result<(), AllocError>
    ensures { OnOk result (spec.IsPutAfter spec.IsAnything out.old.items out.new.items) }
{
    let mut words = Vec::new(*out.allocator());
    put_seen(&mut words, trace)?;
    out.extend_from_slice(words.as_slice())?;
    Ok(())
}

// The accesses of each race, and what is known of it.
fn put_races<A: Allocator + Copy, B: Allocator>(
    out: &mut Vec<u8, A>,
    trace: &Trace<B>,
    races: &[Race],
) -> Result<(), AllocError>
    requires { All (RacesInOrder (capacities trace.now) trace.now.events) races.now }
    ensures { OnOk result (spec.IsPutAfter (spec.AreRacesShown trace.now races.now) out.old.items out.new.items) }
{
    let mut full = MOST_STEPS / trace.len().max(1);
    for race in races {
        put_one_race(out, trace, race, full > 0)?;
        full = full.saturating_sub(1);
    }
    Ok(())
}

fn put_one_race<A: Allocator + Copy, B: Allocator>(
    out: &mut Vec<u8, A>,
    trace: &Trace<B>,
    race: &Race,
    is_full: bool,
) -> Result<(), AllocError>
    requires { RacesInOrder (capacities trace.now) trace.now.events race.now }
    ensures { OnOk result (spec.IsPutAfter (spec.IsRaceShown trace.now race.now) out.old.items out.new.items) }
{
    let mut words = Vec::new(*out.allocator());
    put_words(&mut words, trace, race, is_full)?;
    put_race(out, trace, race)?;
    out.extend_from_slice(words.as_slice())?;
    Ok(())
}
