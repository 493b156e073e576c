//! The judge of a whole trace on one thread.
//!
//! Each event goes to the shard as soon as it was found legal: it is read once, and no block stands between.
ghost use Rattle.std.specs.Prelude.{◌≡◌, [], ◌∷◌, IfOk};
ghost use Rattle.race_legal.specs.ReplayState.{counts_in, ReplayState};
ghost use Rattle.race_verdict.specs.{Traces.HasVerdict, Verdicts.verdict_of};
ghost use Rattle.race_shards.specs.Judging.{AreFed, CanJudge, Judges};

use crate::block::accept_next;
use crate::races::noted_races;
use crate::shard::Shard;
use race_legal::{Illegal, Replay};
use race_records::{Event, Kind, Trace};
use race_verdict::{Report, Verdict};
use std::alloc::{AllocError, Allocator};

/// The verdict on a trace, by one shard on the caller's thread: as [`Judge::judge`](crate::Judge::judge) gives it, and a
/// little sooner than with one shard there, since no block of events is gone through twice. Nothing is waited for.
pub fn judge_alone<A: Allocator + Copy, B: Allocator>(
    alloc: A,
    trace: &Trace<B>,
) -> Result<Verdict<A>, AllocError>
    ensures { IfOk result (λ verdict. HasVerdict trace.now (verdict_of verdict)) }
{
    let mut replay = Replay::new(alloc, trace.decls())?;
    let mut shard = Shard::new(alloc, trace.decls(), 0, 1)?;
    match judge_each(&mut replay, &mut shard, trace.events())? {
        Some(illegal) => Ok(Verdict::Illegal(illegal)),
        None => verdict_on(alloc, trace, shard),
    }
}

// The verdict on a legal trace, whose events the shard took.
fn verdict_on<A: Allocator + Copy, B: Allocator>(
    alloc: A,
    trace: &Trace<B>,
    shard: Shard<A>,
) -> Result<Verdict<A>, AllocError>
    requires { (replay : ReplayState) × AreFed trace.now.decls.declarations 1 replay (shard ∷ []) trace.now.events }
    ensures { IfOk result (λ verdict. HasVerdict trace.now (verdict_of verdict)) }
{
    let accesses = shard.accesses();
    let mut shards = Vec::with_capacity(alloc, 1)?;
    shards.push(shard)?;
    let races = noted_races(alloc, shards.as_slice(), trace.decls().count(Kind::Var))?;
    Report::of_races(trace.len(), accesses, races).verdict(alloc)
}

// Judges the events one by one. The first that breaks a rule is told, and the rest isn't looked at.
fn judge_each<A: Allocator + Copy>(
    replay: &mut Replay<A>,
    shard: &mut Shard<A>,
    events: &[Event],
) -> Result<Option<Illegal>, AllocError>
    requires { CanJudge replay.old (shard.old ∷ []) events.now }
    ensures { IfOk result (λ illegal.
        Judges replay.old (shard.old ∷ []) events.now illegal replay.new (shard.new ∷ [])) }
{
    for event in events {
        if let Some(illegal) = accept_next(replay, event)? {
            return Ok(Some(illegal));
        }
        shard.take(event)?;
    }
    Ok(None)
}
