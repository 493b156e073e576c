//! The plain judge: the verdict on a short trace, read off a table of what each goroutine has seen.
//!
//! An access happens before a later event exactly where that event's goroutine has seen it before.
//! So a row of flags for each goroutine decides every pair of accesses when the later one comes. It
//! takes time in the square of the events, and is what faster judges are compared with.
ghost use Rattle.std.specs.Prelude.{◌≡◌, ◌≢◌, ◌↔◌, ◌<◌, length, IfOk};
ghost use Rattle.race_verdict.specs.{Races.AreRaces, Traces.{capacities, HasVerdict}, Verdicts.verdict_of};

use crate::fault::{EdgeFault, MAX_PLAIN_EVENTS};
use crate::numbers::Numbers;
use crate::races::Found;
use crate::table::Table;
use race_legal::legal;
use race_records::{Kind, Trace};
use race_verdict::{RaceList, Verdict};
use std::alloc::{AllocError, Allocator};

/// The verdict on a trace of at most 2,000 events. Refused exactly where there are more, and else for want of memory alone.
pub fn plain_judge<A: Allocator + Copy, B: Allocator>(
    alloc: A,
    trace: &Trace<B>,
) -> Result<Verdict<A>, EdgeFault>
    ensures right { IfOk result (λ verdict. HasVerdict trace.now (verdict_of verdict)) }
    ensures too_long { (result ≡ Err EdgeFault.TooLong)
        ↔ (MAX_PLAIN_EVENTS < length trace.now.events) }
    ensures judged { result ≢ Err EdgeFault.Illegal }
{
    if trace.len() > MAX_PLAIN_EVENTS {
        return Err(EdgeFault::TooLong);
    }
    match verdict_on(alloc, trace) {
        Ok(verdict) => Ok(verdict),
        Err(_) => Err(EdgeFault::OutOfMemory),
    }
}

// The verdict on a trace, however long.
fn verdict_on<A: Allocator + Copy, B: Allocator>(
    alloc: A,
    trace: &Trace<B>,
) -> Result<Verdict<A>, AllocError>
    ensures { IfOk result (λ verdict. HasVerdict trace.now (verdict_of verdict)) }
{
    match legal(alloc, trace)? {
        Some(illegal) => Ok(Verdict::Illegal(illegal)),
        None => Ok(Verdict::of_races(races_in(alloc, trace)?)),
    }
}

// The race of each variable that has one. Each event is looked at before the table takes it.
fn races_in<A: Allocator + Copy, B: Allocator>(
    alloc: A,
    trace: &Trace<B>,
) -> Result<RaceList<A>, AllocError>
    ensures { IfOk result (λ races. AreRaces (capacities trace.now) trace.now.events races) }
{
    let goroutines = trace.decls().count(Kind::Goroutine) as usize;
    let vars = trace.decls().count(Kind::Var) as usize;
    let numbers = Numbers::new(alloc, trace)?;
    let mut table = Table::new(alloc, goroutines, trace.len())?;
    let mut found = Found::new(alloc, vars)?;
    for at in 0..trace.len() {
        found.look(&table, &trace.events()[..at], trace.event(at));
        table.step(alloc, trace, &numbers, at)?;
    }
    found.list(alloc)
}
