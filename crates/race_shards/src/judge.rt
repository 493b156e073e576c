//! The judge of a list of events that comes in blocks.
//!
//! The caller's thread tests a block for legality before the shards see it. Each shard takes all events with a stamper of
//! its own and touches the variables that belong to it, so the shards share nothing but the block.
ghost use Rattle.std.specs.Prelude.{◌≡◌, ◌≢◌, ◌↔◌, ◌+◌, ◌<◌, ◌≤◌, ◌==◌, [], true, false, length, vec_len, IsTrue, IfOk};
ghost use Rattle.std.specs.Prelude.{IfErr, OnOk, OnErr};
ghost use Rattle.race_legal.specs.ReplayState.{counts_in};
ghost use Rattle.race_verdict.specs.{Notes.verdict_noted, Verdicts.verdict_of};
ghost use Rattle.race_shards.specs.{Limits.{is_shards, is_block, IsRefused}, Shards.ShardsStandFor, Judging.StandsFor};
ghost use Rattle.race_shards.specs.Judging.{GoesOn, CanTake, Judges, Tells, Notes, CanJudge};

use crate::block::accept_all;
use crate::fault::{JudgeFault, MAX_SHARDS};
use crate::feeding::{FeedFault, feed_all};
use crate::gate::Gate;
use crate::races::noted_races;
use crate::shard::Shard;
use race_legal::{Illegal, Replay};
use race_records::{Decls, Event, Kind};
use race_verdict::{Report, Verdict};
use std::alloc::{AllocError, Allocator, Global};
use std::marker::Model;
use std::mem;
use std::sync::Wait;
use std::thread::Threads;

/// Takes the events of a run in blocks, and tells the verdict on them.
#[derive(Drop)]
pub struct Judge<A: Allocator = Global> {
    failed: bool,
    len: usize,
    illegal: Option<Illegal>,
    vars: u32,
    count: usize,
    replay: Replay<A>,
    shards: Vec<Shard<A>, A>,
    alloc: A,
}

impl<A: Allocator> Model for Judge<A> {
    ghost use Rattle.race_shards.specs.Judging.{JudgeState, IsSound};

    ghost Value = { JudgeState };

    ghost view = { λ j. record {
      failed = j.failed;
      len = j.len;
      illegal = j.illegal;
      vars = j.vars;
      count = j.count;
      replay = j.replay;
      shards = j.shards.items;
    } };

    ghost invariant = { λ j. IsSound (record {
      failed = j.failed;
      len = j.len;
      illegal = j.illegal;
      vars = j.vars;
      count = j.count;
      replay = j.replay;
      shards = j.shards.items;
    }) };
}

impl<A: Allocator + Copy> Judge<A> {
    /// Before the first event of a trace with these declarations, with so many shards.
    pub fn new<B: Allocator>(
        alloc: A,
        decls: &Decls<B>,
        shards: usize,
    ) -> Result<Judge<A>, JudgeFault>
        ensures bad_shards { (result ≡ Err JudgeFault.BadShards) ↔ (is_shards shards ≡ false) }
        ensures others { is_shards shards ≡ true → IfErr result (λ fault. fault ≡ JudgeFault.OutOfMemory) }
        ensures stands { IfOk result (λ judge. StandsFor decls.now.declarations judge []) }
        ensures count { IfOk result (λ judge. judge.count ≡ shards) }
    {
        if shards < 1 || shards > MAX_SHARDS {
            return Err(JudgeFault::BadShards);
        }
        match Judge::first(alloc, decls, shards) {
            Ok(judge) => Ok(judge),
            Err(_) => Err(JudgeFault::OutOfMemory),
        }
    }

    fn first<B: Allocator>(alloc: A, decls: &Decls<B>, count: usize) -> Result<Judge<A>, AllocError>
        requires { IsTrue (is_shards count) }
        ensures stands { IfOk result (λ judge. StandsFor decls.now.declarations judge []) }
        ensures count { IfOk result (λ judge. judge.count ≡ count) }
    {
        Ok(Judge {
            failed: false,
            len: 0,
            illegal: None,
            vars: decls.count(Kind::Var),
            count,
            replay: Replay::new(alloc, decls)?,
            shards: first_shards(alloc, decls, count as u32)?,
            alloc,
        })
    }

    /// How many events were taken.
    pub fn len(&self) -> usize
        ensures { result ≡ self.now.len }
    {
        self.len
    }

    /// Whether none was.
    pub fn is_empty(&self) -> bool
        ensures { result ≡ (self.now.len == 0) }
    {
        self.len == 0
    }
}

// All of so many shards, before the first event.
fn first_shards<A: Allocator + Copy, B: Allocator>(
    alloc: A,
    decls: &Decls<B>,
    count: u32,
) -> Result<Vec<Shard<A>, A>, AllocError>
    requires { 0 < count }
    ensures stand { IfOk result (λ shards. ShardsStandFor decls.now.declarations count shards.items []) }
    ensures all { IfOk result (λ shards. vec_len shards ≡ count) }
{
    let mut shards = Vec::with_capacity(alloc, count as usize)?;
    for number in 0..count {
        shards.push(Shard::new(alloc, decls, number, count)?)?;
    }
    Ok(shards)
}

// Judges a block behind legal events: where an event breaks a rule the shards don't see it.
fn judge_block<G: Gate, R: Threads + Wait, A: Allocator + Copy + Send>(
    rt: &R,
    alloc: A,
    replay: &mut Replay<A>,
    shards: &mut Vec<Shard<A>, A>,
    block: &[Event],
    gate: &G,
) -> Result<Option<Illegal>, FeedFault>
    requires { CanJudge replay.old shards.old.items block.now }
    ensures judges { IfOk result (λ illegal. Judges replay.old shards.old.items block.now illegal replay.new shards.new.items) }
    ensures counts { counts_in replay.new ≡ counts_in replay.old }
    ensures one { vec_len shards.old ≡ 1 → result ≢ Err FeedFault.NoThread }
{
    match accept_all(replay, block) {
        Ok(None) => {}
        Ok(Some(illegal)) => return Ok(Some(illegal)),
        Err(_) => return Err(FeedFault::OutOfMemory),
    }
    let before = mem::replace(shards, Vec::new(alloc));
    *shards = feed_all(rt, before, block, gate)?;
    Ok(None)
}

// Where the block ends that begins at this index.
fn end_of(at: usize, block: usize, len: usize) -> usize
    requires at { at < len }
    requires block { is_block block ≡ true }
    ensures later { at < result }
    ensures inside { result ≤ len }
    ensures most { result ≤ at + block }
    ensures full { result < len → result ≡ at + block }
{
    if block < len - at { at + block } else { len }
}

impl<A: Allocator + Copy + Send> Judge<A> {
    /// Takes the next block of events. Where one breaks a rule the verdict is settled, and what follows changes it no more.
    ///
    /// Each shard's work begins at the gate, by which tests order the shards; `OpenGate` holds none up. A judge that was
    /// refused a thread or memory has failed, and takes nothing more.
    pub fn feed<G: Gate, R: Threads + Wait>(
        &mut self,
        rt: &R,
        block: &[Event],
        gate: &G,
    ) -> Result<(), JudgeFault>
        requires { CanTake self.old block.now }
        ensures goes_on { OnOk result (GoesOn self.old block.now self.new) }
        ensures len { OnOk result (self.new.len ≡ self.old.len + length block.now) }
        ensures err_len { OnErr result (self.new.len ≡ self.old.len) }
        ensures failed { self.old.failed ≡ true → result ≡ Err JudgeFault.Failed }
        ensures fails { OnErr result (self.new.failed ≡ true) }
        ensures others { self.old.failed ≡ false → IfErr result IsRefused }
        ensures one { self.old.count ≡ 1 → result ≢ Err JudgeFault.NoThread }
        ensures count { self.new.count ≡ self.old.count }
    {
        if self.failed {
            return Err(JudgeFault::Failed);
        }
        if self.illegal.is_some() || block.is_empty() {
            self.len += block.len();
            return Ok(());
        }
        match judge_block(
            rt,
            self.alloc,
            &mut self.replay,
            &mut self.shards,
            block,
            gate,
        ) {
            Ok(illegal) => {
                self.illegal = illegal;
                self.len += block.len();
                Ok(())
            }
            Err(fault) => {
                self.failed = true;
                Err(fault.into_fault())
            }
        }
    }

    /// Takes these events in blocks of so many, of which the last may be shorter. Where there are none, nothing is judged.
    ///
    /// A judge that was refused a thread or memory at a block has failed, as behind `feed`.
    pub fn feed_in_blocks<G: Gate, R: Threads + Wait>(
        &mut self,
        rt: &R,
        events: &[Event],
        block: usize,
        gate: &G,
    ) -> Result<(), JudgeFault>
        requires can { CanTake self.old events.now }
        requires block { is_block block ≡ true }
        ensures goes_on { OnOk result (GoesOn self.old events.now self.new) }
        ensures len { OnOk result (self.new.len ≡ self.old.len + length events.now) }
        ensures failed { self.old.failed ≡ true → result ≡ Err JudgeFault.Failed }
        ensures fails { OnErr result (self.new.failed ≡ true) }
        ensures others { self.old.failed ≡ false → IfErr result IsRefused }
        ensures one { self.old.count ≡ 1 → result ≢ Err JudgeFault.NoThread }
        ensures count { self.new.count ≡ self.old.count }
    {
        if self.failed {
            return Err(JudgeFault::Failed);
        }
        let mut at = 0;
        while at < events.len() {
            let end = end_of(at, block, events.len());
            self.feed(rt, &events[at..end], gate)?;
            at = end;
        }
        Ok(())
    }
}

impl<A: Allocator + Copy> Judge<A> {
    /// The verdict on the events that were taken.
    pub fn finish(self) -> Result<Verdict<A>, JudgeFault>
        ensures tells { IfOk result (λ verdict. Tells self (verdict_of verdict)) }
        ensures failed { self.failed ≡ true → result ≡ Err JudgeFault.Failed }
        ensures others { self.failed ≡ false → IfErr result (λ fault. fault ≡ JudgeFault.OutOfMemory) }
    {
        let alloc = self.alloc;
        match self.finish_noted()?.verdict(alloc) {
            Ok(verdict) => Ok(verdict),
            Err(_) => Err(JudgeFault::OutOfMemory),
        }
    }

    /// The verdict on the events that were taken, with all that is printed of it but names.
    pub fn finish_noted(self) -> Result<Report<A>, JudgeFault>
        ensures tells { IfOk result (λ verdict. Tells self (verdict_noted verdict)) }
        ensures notes { IfOk result (λ verdict. Notes self verdict) }
        ensures failed { self.failed ≡ true → result ≡ Err JudgeFault.Failed }
        ensures others { self.failed ≡ false → IfErr result (λ fault. fault ≡ JudgeFault.OutOfMemory) }
    {
        if self.failed {
            return Err(JudgeFault::Failed);
        }
        if let Some(illegal) = self.illegal {
            return Ok(Report::Illegal(illegal));
        }
        let accesses = self.shards[0].accesses();
        match noted_races(self.alloc, self.shards.as_slice(), self.vars) {
            Ok(races) => Ok(Report::of_races(self.len, accesses, races)),
            Err(_) => Err(JudgeFault::OutOfMemory),
        }
    }
}
