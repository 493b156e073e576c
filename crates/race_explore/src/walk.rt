//! The walk over all runs of a program.
ghost use Rattle.std.specs.Prelude.{◌≡◌, ◌≢◌, ◌+◌, ◌<◌, ℕ, List, Err, IfOk, MatchBool, true, false};
ghost use Rattle.race_explore.specs.Walk.{are_explore_limits, IsExplored, IsRefused, IsWalked, IsWalkedOut};

use crate::explored::Explored;
use crate::fault::ExploreFault;
use crate::odometer::advance;
use crate::orders::{Orders, skipped_after};
use crate::walked::run_by;
use race_record::Fork;
use race_records::MAX_EVENTS;
use race_script::Program;
use race_shards::judge_alone;
use std::alloc::Allocator;

/// The most runs that may be asked for.
pub const MAX_RUNS: u64 = 1_000_000_000_000;

// A definition cites this number, so it is written down twice.
const _: () = prove!(MAX_RUNS == 1_000_000_000_000);

/// Runs the program by one list of picks after another, in lexicographic order, and judges each run, until all were
/// looked at, or as many as are wanted. No run is looked at twice. A run has at most `limit` events.
///
/// With `Orders::One` a run is skipped where two independent neighbours, after which something comes, stand with the
/// greater goroutine first: another run has them the other way round, and the same end. `most` counts it too.
///
/// No run is kept: each is made anew from its picks.
pub fn explore<A: Allocator + Copy + Send>(
    alloc: A,
    program: &Program<A>,
    limit: u32,
    most: u64,
    orders: Orders,
) -> Result<Explored<A>, ExploreFault>
    ensures limits { are_explore_limits limit most ≡ false → result ≡ Err ExploreFault.BadLimit }
    ensures in_limits { are_explore_limits limit most ≡ true → result ≢ Err ExploreFault.BadLimit }
    ensures explored { IfOk result (λ e. IsExplored program.now limit most orders e) }
    ensures refused { result ≡ Err ExploreFault.NotARun → (picks : List ℕ) × IsRefused program.now limit picks }
{
    if !are_in_limits(limit, most) {
        return Err(ExploreFault::BadLimit);
    }
    let mut explored = Explored::new(alloc);
    let mut picks = Vec::new(alloc);
    let mut forks = Vec::new(alloc);
    for _run in 0..most {
        if !look_at_next(
            alloc,
            program,
            limit,
            orders,
            &mut picks,
            &mut forks,
            &mut explored,
        )? {
            explored.whole = true;
            return Ok(explored);
        }
    }
    Ok(explored)
}

// Whether each limit is in its own.
fn are_in_limits(limit: u32, most: u64) -> bool
    ensures { result ≡ are_explore_limits limit most }
{
    let has_limit = 1 <= limit && limit as usize <= MAX_EVENTS;
    has_limit && 1 <= most && most <= MAX_RUNS
}

// Looks at the run by these picks, or skips it and those that begin as it does, and makes them those of the next one; false where there is none.
fn look_at_next<A: Allocator + Copy + Send>(
    alloc: A,
    program: &Program<A>,
    limit: u32,
    orders: Orders,
    picks: &mut Vec<u64, A>,
    forks: &mut Vec<Fork, A>,
    explored: &mut Explored<A>,
) -> Result<bool, ExploreFault>
    requires few { explored.old.made < MAX_RUNS }
    requires walked { IsWalked program.now limit orders picks.old.items explored.old }
    ensures walked { IfOk result (λ more.
        MatchBool more (IsWalked program.now limit orders picks.new.items explored.new)
        (IsWalkedOut program.now limit orders explored.new)) }
    ensures made { IfOk result (λ _. explored.new.made ≡ explored.old.made + 1) }
    ensures whole { IfOk result (λ _. explored.new.whole ≡ explored.old.whole) }
    ensures refused { result ≡ Err ExploreFault.NotARun → (list : List ℕ) × IsRefused program.now limit list }
    ensures in_limits { result ≢ Err ExploreFault.BadLimit }
{
    let recording = run_by(alloc, program, limit, picks.as_slice(), forks)?;
    if let Some(events) = skipped_after(orders, recording.trace().events()) {
        explored.skip();
        forks.truncate(events);
        return Ok(advance(forks, picks)?);
    }
    let verdict = judge_alone(alloc, recording.trace())?;
    explored.count(&recording, &verdict, picks.as_slice())?;
    Ok(advance(forks, picks)?)
}
