//! The clocks of all goroutines and objects, as a state machine that knows of no list of events.
//!
//! Each goroutine has a clock, and each object those of the events that a later one may wait for. A refused growth leaves
//! everything as it was: a clock that learns is grown before it is raised, and what is handed over is worked out in a
//! spare one, which nobody sees, and then exchanged. What was exchanged is written again, so in the long run nothing is
//! allocated.
ghost use Rattle.std.specs.Prelude.{◌≡◌, ◌≢◌, ◌+◌, ◌<◌, ◌^◌, ℕ, [], length, replicate, IfOk, OnOk, OnErr};
ghost use Rattle.std.specs.List.{slice_index_or};
ghost use Rattle.race_records.specs.{declared.kind.Kind.Kind, Declarations.{count_of, capacity_of}};
ghost use Rattle.race_clock.specs.{ClocksState.{ClocksState, clock_of, parts_of, after}, First.IsFirst};
ghost use Rattle.race_clock.specs.Needs.{HasClocks, IsApart, CountsFit, OpKnowsUnlocks};
ghost use Rattle.race_records.specs.declared.event.Op.TheVariants as op;
ghost use Rattle.race_clock.specs.ClocksState as spec;

use crate::channel::Channel;
use crate::clock::Clock;
use crate::lock::LockClock;
use crate::sync_clock::SyncClock;
use crate::thread_clock::ThreadClock;
use race_records::{Decls, Kind, Op};
use std::alloc::{AllocError, Allocator};
use std::marker::Model;

pub(crate) struct Clocks<A: Allocator> {
    slots: Vec<ThreadClock<A>, A>,
    channels: Vec<Channel<A>, A>,
    locks: Vec<LockClock<A>, A>,
    ends: Vec<SyncClock<A>, A>,
    // Free to be written.
    spare: Clock<A>,
    second: Clock<A>,
}

impl<A: Allocator> Drop for Clocks<A> {
    fn drop(self) {
        let Clocks {
            slots: _,
            channels: _,
            locks: _,
            ends: _,
            spare: _,
            second: _,
        } = self;
    }
}

impl<A: Allocator> Model for Clocks<A> {
    ghost Value = { ClocksState };

    ghost view = { λ k. record { slots = k.slots.items; channels = k.channels.items; locks = k.locks.items; ends = k.ends.items } };
}

// A clock for each goroutine, which has seen nothing.
fn first_slots<A: Allocator + Copy>(
    alloc: A,
    goroutines: u32,
) -> Result<Vec<ThreadClock<A>, A>, AllocError>
    ensures { IfOk result (λ slots. slots.items ≡ spec.first_slots goroutines) }
{
    let mut slots = Vec::new(alloc);
    for who in 0..goroutines {
        slots.push(ThreadClock::new(alloc, who)?)?;
    }
    Ok(slots)
}

// The channels as they are declared, with nothing on its way.
fn first_channels<A: Allocator + Copy, B: Allocator>(
    alloc: A,
    decls: &Decls<B>,
) -> Result<Vec<Channel<A>, A>, AllocError>
    ensures len { IfOk result (λ channels. length channels.items ≡ count_of Kind.Chan decls.now.declarations) }
    ensures each { IfOk result (λ channels. (c : ℕ) → c < length channels.items
        → spec.channel_of channels.items c ≡ spec.first_channel (capacity_of decls.now.declarations c)) }
{
    let mut channels = Vec::new(alloc);
    for chan in 0..decls.count(Kind::Chan) {
        channels.push(Channel::new(decls.capacity(chan) as usize))?;
    }
    Ok(channels)
}

// So many locks that nobody has unlocked.
fn first_locks<A: Allocator + Copy>(
    alloc: A,
    locks: usize,
) -> Result<Vec<LockClock<A>, A>, AllocError>
    ensures { IfOk result (λ clocks. clocks.items ≡ replicate locks spec.no_lock) }
{
    let mut clocks = Vec::new(alloc);
    for _ in 0..locks {
        clocks.push(LockClock::new())?;
    }
    Ok(clocks)
}

// So many clocks that know nothing.
fn first_ends<A: Allocator + Copy>(
    alloc: A,
    onces: usize,
) -> Result<Vec<SyncClock<A>, A>, AllocError>
    ensures { IfOk result (λ clocks. clocks.items ≡ replicate onces []) }
{
    let mut clocks = Vec::new(alloc);
    for _ in 0..onces {
        clocks.push(SyncClock::new())?;
    }
    Ok(clocks)
}

impl<A: Allocator + Copy> Clocks<A> {
    // Before the first event.
    pub(crate) fn new<B: Allocator>(alloc: A, decls: &Decls<B>) -> Result<Clocks<A>, AllocError>
        ensures { IfOk result (IsFirst decls.now.declarations) }
    {
        Ok(Clocks {
            slots: first_slots(alloc, decls.count(Kind::Goroutine))?,
            channels: first_channels(alloc, decls)?,
            locks: first_locks(alloc, decls.count(Kind::Lock) as usize)?,
            ends: first_ends(alloc, decls.count(Kind::Once) as usize)?,
            spare: Clock::new(alloc)?,
            second: Clock::new(alloc)?,
        })
    }

    // The clock of a goroutine.
    pub(crate) fn clock(&self, goroutine: u32) -> &Clock<A>
        requires { goroutine < length self.now.slots }
        ensures { result.now ≡ clock_of self.now goroutine }
    {
        self.slots[goroutine as usize].clock()
    }

    // In how many events the goroutine took part.
    pub(crate) fn parts(&self, goroutine: u32) -> u32
        requires { goroutine < length self.now.slots }
        ensures { result ≡ parts_of self.now goroutine }
    {
        self.slots[goroutine as usize].parts()
    }

    // What an operation changes.
    #[inline(always)]
    pub(crate) fn take(&mut self, who: u32, op: &Op) -> Result<(), AllocError>
        requires range { HasClocks self.old who op.now }
        requires apart { IsApart who op.now }
        requires counts { CountsFit self.old who op.now }
        requires unlocks { OpKnowsUnlocks self.old who op.now }
        ensures ok { OnOk result (self.new ≡ after self.old who op.now) }
        ensures unchanged { OnErr result (self.new ≡ self.old) }
    {
        match op {
            Op::Go(goroutine) => self.start(who, *goroutine),
            Op::Read(var, value) | Op::Write(var, value) => {
                self.access(who, *var, *value);
                Ok(())
            }
            Op::Send(chan, value) => self.send(who, *chan, *value),
            Op::Recv(chan, value) => self.receive(who, *chan, *value),
            Op::Meet(receiver, chan, value) => self.meet(who, *receiver, *chan, *value),
            Op::RecvClosed(chan) => self.receive_closed(who, *chan),
            Op::Close(chan) => self.close(who, *chan),
            Op::Lock(lock) | Op::TryLock(lock) => self.lock(who, *lock),
            Op::Unlock(lock) => self.unlock(who, *lock),
            Op::RLock(lock) | Op::TryRLock(lock) => self.read_lock(who, *lock),
            Op::RUnlock(lock) => self.read_unlock(who, *lock),
            Op::OnceEnd(once) => self.end_once(who, *once),
            Op::OnceDone(once) => self.find_done(who, *once),
            // The others hand nothing over.
            _ => {
                self.pass(who);
                Ok(())
            }
        }
    }

    #[inline(always)]
    fn access(&mut self, who: u32, var: u32, value: u64)
        requires range { who < length self.old.slots }
        requires counts { parts_of self.old who + 1 < 2 ^ 32 }
        ensures { self.new ≡ after self.old who (op.Read var value) }
    {
        self.slots[who as usize].access(who);
    }

    #[inline(always)]
    #[tactic(auto, using(crate::proofs::JoinLemmas::joined_nothing))]
    fn pass(&mut self, who: u32)
        requires range { who < length self.old.slots }
        requires counts { parts_of self.old who + 1 < 2 ^ 32 }
        ensures { self.new ≡ after self.old who op.Exit }
    {
        self.slots[who as usize].pass();
    }

    fn start(&mut self, who: u32, goroutine: u32) -> Result<(), AllocError>
        requires range { who < length self.old.slots }
        requires other { goroutine < length self.old.slots }
        requires apart { goroutine ≢ who }
        requires counts { parts_of self.old who + 1 < 2 ^ 32 }
        requires other_counts { parts_of self.old goroutine + 1 < 2 ^ 32 }
        ensures ok { OnOk result (self.new ≡ after self.old who (op.Go goroutine)) }
        ensures unchanged { OnErr result (self.new ≡ self.old) }
    {
        let parts = self.slots[who as usize].parts() + 1;
        self.spare.become_join(
            self.slots[goroutine as usize].clock(),
            self.slots[who as usize].clock(),
        )?;
        self.spare.set(who, parts);
        self.slots[who as usize].pass();
        self.slots[goroutine as usize].take(&mut self.spare);
        Ok(())
    }

    #[inline(always)]
    #[tactic(auto, using(crate::proofs::JoinLemmas::fill_opened))]
    fn send(&mut self, who: u32, chan: u32, value: u64) -> Result<(), AllocError>
        requires range { who < length self.old.slots }
        requires channel { chan < length self.old.channels }
        requires counts { parts_of self.old who + 1 < 2 ^ 32 }
        ensures ok { OnOk result (self.new ≡ after self.old who (op.Send chan value)) }
        ensures unchanged { OnErr result (self.new ≡ self.old) }
    {
        let slot = &mut self.slots[who as usize];
        let channel = &mut self.channels[chan as usize];
        channel.hand_to_send(slot.clock(), &mut self.spare)?;
        let takes_freed = channel.takes_freed();
        channel.open_send(&self.spare)?;
        slot.exchange(who, &mut self.spare);
        channel.fill_send(&mut self.spare, takes_freed);
        Ok(())
    }

    #[inline(always)]
    fn lock(&mut self, who: u32, lock: u32) -> Result<(), AllocError>
        requires range { who < length self.old.slots }
        requires locks { lock < length self.old.locks }
        requires counts { parts_of self.old who + 1 < 2 ^ 32 }
        ensures ok { OnOk result (self.new ≡ after self.old who (op.Lock lock)) }
        ensures unchanged { OnErr result (self.new ≡ self.old) }
    {
        let slot = &mut self.slots[who as usize];
        let clocks = &mut self.locks[lock as usize];
        slot.lock(clocks)?;
        clocks.lock(who);
        Ok(())
    }

    #[inline(always)]
    #[tactic(auto, using(crate::proofs::JoinLemmas::joined_nothing))]
    fn unlock(&mut self, who: u32, lock: u32) -> Result<(), AllocError>
        requires range { who < length self.old.slots }
        requires locks { lock < length self.old.locks }
        requires unlocks { OpKnowsUnlocks self.old who (op.Unlock lock) }
        requires counts { parts_of self.old who + 1 < 2 ^ 32 }
        ensures ok { OnOk result (self.new ≡ after self.old who (op.Unlock lock)) }
        ensures unchanged { OnErr result (self.new ≡ self.old) }
    {
        let slot = &mut self.slots[who as usize];
        let clocks = &mut self.locks[lock as usize];
        slot.begin(who, &mut self.spare)?;
        clocks.unlock(who, &mut self.spare)?;
        slot.pass();
        Ok(())
    }

    #[inline(always)]
    fn meet(&mut self, who: u32, receiver: u32, chan: u32, value: u64) -> Result<(), AllocError>
        requires range { who < length self.old.slots }
        requires other { receiver < length self.old.slots }
        requires apart { receiver ≢ who }
        requires counts { parts_of self.old who + 1 < 2 ^ 32 }
        requires other_counts { parts_of self.old receiver + 1 < 2 ^ 32 }
        ensures ok { OnOk result (self.new ≡ after self.old who (op.Meet receiver chan value)) }
        ensures unchanged { OnErr result (self.new ≡ self.old) }
    {
        let parts = self.slots[who as usize].parts() + 1;
        let parts_of_receiver = self.slots[receiver as usize].parts() + 1;
        self.spare.become_join(
            self.slots[who as usize].clock(),
            self.slots[receiver as usize].clock(),
        )?;
        self.spare.set(who, parts);
        self.spare.set(receiver, parts_of_receiver);
        self.second.become_copy(&self.spare)?;
        self.slots[who as usize].take(&mut self.spare);
        self.slots[receiver as usize].take(&mut self.second);
        Ok(())
    }

    #[inline(always)]
    #[tactic(auto, using(crate::proofs::JoinLemmas::fill_opened))]
    fn receive(&mut self, who: u32, chan: u32, value: u64) -> Result<(), AllocError>
        requires range { who < length self.old.slots }
        requires channel { chan < length self.old.channels }
        requires counts { parts_of self.old who + 1 < 2 ^ 32 }
        ensures ok { OnOk result (self.new ≡ after self.old who (op.Recv chan value)) }
        ensures unchanged { OnErr result (self.new ≡ self.old) }
    {
        let slot = &mut self.slots[who as usize];
        let channel = &mut self.channels[chan as usize];
        channel.hand_to_receive(slot.clock(), &mut self.spare)?;
        channel.open_receive(&self.spare)?;
        slot.exchange(who, &mut self.spare);
        channel.fill_receive(&mut self.spare);
        Ok(())
    }

    fn receive_closed(&mut self, who: u32, chan: u32) -> Result<(), AllocError>
        requires range { who < length self.old.slots }
        requires channel { chan < length self.old.channels }
        requires counts { parts_of self.old who + 1 < 2 ^ 32 }
        ensures ok { OnOk result (self.new ≡ after self.old who (op.RecvClosed chan)) }
        ensures unchanged { OnErr result (self.new ≡ self.old) }
    {
        let slot = &mut self.slots[who as usize];
        self.channels[chan as usize].receive_closed(slot)
    }

    #[tactic(auto, using(crate::proofs::JoinLemmas::joined_nothing))]
    fn close(&mut self, who: u32, chan: u32) -> Result<(), AllocError>
        requires range { who < length self.old.slots }
        requires channel { chan < length self.old.channels }
        requires counts { parts_of self.old who + 1 < 2 ^ 32 }
        ensures ok { OnOk result (self.new ≡ after self.old who (op.Close chan)) }
        ensures unchanged { OnErr result (self.new ≡ self.old) }
    {
        let slot = &mut self.slots[who as usize];
        let closed = &mut self.channels[chan as usize].closed;
        slot.tell(who, closed, &mut self.spare)
    }

    fn read_lock(&mut self, who: u32, lock: u32) -> Result<(), AllocError>
        requires range { who < length self.old.slots }
        requires locks { lock < length self.old.locks }
        requires counts { parts_of self.old who + 1 < 2 ^ 32 }
        ensures ok { OnOk result (self.new ≡ after self.old who (op.RLock lock)) }
        ensures unchanged { OnErr result (self.new ≡ self.old) }
    {
        let slot = &mut self.slots[who as usize];
        slot.read_lock(&self.locks[lock as usize])
    }

    #[tactic(auto, using(crate::proofs::JoinLemmas::joined_nothing))]
    fn read_unlock(&mut self, who: u32, lock: u32) -> Result<(), AllocError>
        requires range { who < length self.old.slots }
        requires locks { lock < length self.old.locks }
        requires counts { parts_of self.old who + 1 < 2 ^ 32 }
        ensures ok { OnOk result (self.new ≡ after self.old who (op.RUnlock lock)) }
        ensures unchanged { OnErr result (self.new ≡ self.old) }
    {
        let slot = &mut self.slots[who as usize];
        let runlocks = &mut self.locks[lock as usize].runlocks;
        slot.tell(who, runlocks, &mut self.spare)
    }

    #[tactic(auto, using(crate::proofs::JoinLemmas::joined_nothing))]
    fn end_once(&mut self, who: u32, once: u32) -> Result<(), AllocError>
        requires range { who < length self.old.slots }
        requires onces { once < length self.old.ends }
        requires counts { parts_of self.old who + 1 < 2 ^ 32 }
        ensures ok { OnOk result (self.new ≡ after self.old who (op.OnceEnd once)) }
        ensures unchanged { OnErr result (self.new ≡ self.old) }
    {
        let slot = &mut self.slots[who as usize];
        let end = &mut self.ends[once as usize];
        slot.tell(who, end, &mut self.spare)
    }

    fn find_done(&mut self, who: u32, once: u32) -> Result<(), AllocError>
        requires range { who < length self.old.slots }
        requires onces { once < length self.old.ends }
        requires counts { parts_of self.old who + 1 < 2 ^ 32 }
        ensures ok { OnOk result (self.new ≡ after self.old who (op.OnceDone once)) }
        ensures unchanged { OnErr result (self.new ≡ self.old) }
    {
        let slot = &mut self.slots[who as usize];
        slot.learn(&self.ends[once as usize])
    }
}
