//! A block is handed to all shards, each on a thread of its own but the first, which works on the caller's.
//!
//! A shard moves into its thread and comes back, and the order of the shards is the list's, whichever is ready first.
ghost use Rattle.std.specs.Prelude.{◌≡◌, ◌≢◌, ◌↔◌, ◌++◌, ◌∷◌, [], IfOk, vec_len};
ghost use Rattle.race_shards.specs.{Limits.IsRefused, Shards.{IsNextBlock, AreNextBlock, Takes, AllTake}};

use crate::fault::JudgeFault;
use crate::gate::Gate;
use crate::shard::Shard;
use race_records::Event;
use std::alloc::{AllocError, Allocator};
use std::snapshot::Snapshot;
use std::sync::Wait;
use std::thread;
use std::thread::{Promise, Scope, SpawnError, Threads};

/// Why the shards haven't taken a block.
#[derive(Clone, Copy, Debug, PartialEq, Eq)]
pub(crate) enum FeedFault {
    /// A thread couldn't be started.
    NoThread,
    /// A growth was refused.
    OutOfMemory,
}

impl FeedFault {
    /// As the judge's callers are told.
    pub(crate) fn into_fault(self) -> JudgeFault
        ensures no_thread { (result ≡ JudgeFault.NoThread) ↔ (self ≡ FeedFault.NoThread) }
        ensures either { IsRefused result }
    {
        match self {
            FeedFault::NoThread => JudgeFault::NoThread,
            FeedFault::OutOfMemory => JudgeFault::OutOfMemory,
        }
    }
}

impl From<AllocError> for FeedFault {
    ghost use Rattle.std.specs.Prelude.{◌≡◌};
    ghost use Rattle.race_shards.specs.declared.feeding.FeedFault.{FeedFault};

    ghost from_gives = { λ _ fault. fault ≡ FeedFault.OutOfMemory };

    fn from(_refused: AllocError) -> FeedFault {
        FeedFault::OutOfMemory
    }
}

impl<F: Drop> From<SpawnError<F>> for FeedFault {
    ghost use Rattle.std.specs.Prelude.{◌≡◌};
    ghost use Rattle.race_shards.specs.declared.feeding.FeedFault.{FeedFault};

    ghost from_gives = { λ _ fault. fault ≡ FeedFault.NoThread };

    fn from(_refused: SpawnError<F>) -> FeedFault {
        FeedFault::NoThread
    }
}

// What a thread gives back: the shard behind the block.
#[derive(Drop)]
struct Fed<'b, A: Allocator> {
    shard: Snapshot<Shard<A>>,
    block: &'b [Event],
}

impl<'b, A: Allocator> Promise<Result<Shard<A>, AllocError>> for Fed<'b, A> {
    ghost use Rattle.std.specs.Prelude.{IfOk};
    ghost use Rattle.race_shards.specs.{Limits.IsRefused, Shards.Takes};

    ghost kept_by = { λ p r. IfOk r (λ after. Takes p.shard.value p.block.now after) };
}

// The work of one shard.
fn feed_one<G: Gate, A: Allocator + Copy>(
    gate: &G,
    mut shard: Shard<A>,
    block: &[Event],
) -> Result<Shard<A>, AllocError>
    requires { IsNextBlock shard block.now }
    ensures { IfOk result (λ after. Takes shard block.now after) }
{
    gate.enter(shard.number());
    shard.take_all(block)?;
    Ok(shard)
}

/// Hands the block to all shards, and waits for them.
pub(crate) fn feed_all<G: Gate, R: Threads + Wait, A: Allocator + Copy + Send>(
    rt: &R,
    shards: Vec<Shard<A>, A>,
    block: &[Event],
    gate: &G,
) -> Result<Vec<Shard<A>, A>, FeedFault>
    requires { AreNextBlock shards.items block.now }
    ensures takes { IfOk result (λ after. AllTake shards.items block.now after.items) }
    ensures one { vec_len shards ≡ 1 → result ≢ Err FeedFault.NoThread }
{
    thread::scope(
        thread::scope_env(),
        rt,
        |scope| -> Result<Vec<Shard<A>, A>, FeedFault>
            requires { AreNextBlock shards.items block.now }
            ensures takes { IfOk result (λ after. AllTake shards.items block.entry.now after.items) }
            ensures one { vec_len shards ≡ 1 → result ≢ Err FeedFault.NoThread }
        { feed_rest(scope, rt, shards, block, gate) },
    )
}

// Hands the block to the shards, the last one first.
fn feed_rest<'s, E, G: Gate, R: Threads + Wait, A: Allocator + Copy + Send + 's>(
    scope: &Scope<'s, E>,
    rt: &'s R,
    mut shards: Vec<Shard<A>, A>,
    block: &'s [Event],
    gate: &'s G,
) -> Result<Vec<Shard<A>, A>, FeedFault>
    requires { AreNextBlock shards.items block.now }
    ensures takes { IfOk result (λ after. AllTake shards.items block.now after.items) }
    ensures one { vec_len shards ≡ 1 → result ≢ Err FeedFault.NoThread }
{
    let Some(shard) = shards.pop() else {
        return Ok(shards);
    };
    if shards.is_empty() {
        let shard = feed_one(gate, shard, block)?;
        return put_back(shards, shard);
    }
    let promise = Fed {
        shard: Snapshot::of(&shard),
        block,
    };
    let child = scope.spawn_with(
        promise,
        move || -> Result<Shard<A>, AllocError>
            requires { IsNextBlock shard block.now }
            ensures { IfOk result (λ after. Takes shard block.entry.now after) }
        { feed_one(gate, shard, block) },
    )?;
    let fed = feed_rest(scope, rt, shards, block, gate)?;
    let shard = child.join(rt)?;
    put_back(fed, shard)
}

// Puts a shard behind the others.
fn put_back<A: Allocator>(
    mut shards: Vec<Shard<A>, A>,
    shard: Shard<A>,
) -> Result<Vec<Shard<A>, A>, FeedFault>
    ensures items { IfOk result (λ after. after.items ≡ shards.items ++ shard ∷ []) }
    ensures memory { result ≢ Err FeedFault.NoThread }
{
    if shards.push(shard).is_err() {
        return Err(FeedFault::OutOfMemory);
    }
    Ok(shards)
}
