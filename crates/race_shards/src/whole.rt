//! The judge of a whole trace.
ghost use Rattle.std.specs.Prelude.{◌≡◌, ◌≢◌, ◌↔◌, true, false, IfOk, IfErr};
ghost use Rattle.race_verdict.specs.{Traces.HasVerdict, Verdicts.verdict_of};
ghost use Rattle.race_shards.specs.Limits.{is_shards, is_block, IsRefused};

use crate::fault::{JudgeFault, MAX_BLOCK, MAX_SHARDS};
use crate::gate::Gate;
use crate::judge::Judge;
use race_records::Trace;
use race_verdict::Verdict;
use std::alloc::Allocator;
use std::sync::Wait;
use std::thread::Threads;

impl<A: Allocator + Copy + Send> Judge<A> {
    /// The verdict on a trace, by so many shards, which are handed so many events at a time.
    pub fn judge<B: Allocator, G: Gate, R: Threads + Wait>(
        rt: &R,
        alloc: A,
        trace: &Trace<B>,
        shards: usize,
        block: usize,
        gate: &G,
    ) -> Result<Verdict<A>, JudgeFault>
        ensures verdict { IfOk result (λ verdict. HasVerdict trace.now (verdict_of verdict)) }
        ensures bad_shards { (result ≡ Err JudgeFault.BadShards) ↔ (is_shards shards ≡ false) }
        ensures bad_block { is_shards shards ≡ true
            → (result ≡ Err JudgeFault.BadBlock) ↔ (is_block block ≡ false) }
        ensures others { is_shards shards ≡ true → is_block block ≡ true → IfErr result IsRefused }
        ensures one { shards ≡ 1 → result ≢ Err JudgeFault.NoThread }
    {
        if shards < 1 || shards > MAX_SHARDS {
            return Err(JudgeFault::BadShards);
        }
        if block < 1 || block > MAX_BLOCK {
            return Err(JudgeFault::BadBlock);
        }
        judge_whole(rt, alloc, trace, shards, block, gate)
    }
}

// The same, where both numbers are in their limits.
fn judge_whole<A: Allocator + Copy + Send, B: Allocator, G: Gate, R: Threads + Wait>(
    rt: &R,
    alloc: A,
    trace: &Trace<B>,
    shards: usize,
    block: usize,
    gate: &G,
) -> Result<Verdict<A>, JudgeFault>
    requires shards { is_shards shards ≡ true }
    requires block { is_block block ≡ true }
    ensures verdict { IfOk result (λ verdict. HasVerdict trace.now (verdict_of verdict)) }
    ensures others { IfErr result IsRefused }
    ensures one { shards ≡ 1 → result ≢ Err JudgeFault.NoThread }
{
    let mut judge = Judge::new(alloc, trace.decls(), shards)?;
    judge.feed_in_blocks(rt, trace.events(), block, gate)?;
    judge.finish()
}
