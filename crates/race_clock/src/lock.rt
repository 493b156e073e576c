//! The clocks of a lock: five words, until it is first unlocked.
ghost use Rattle.std.specs.{Prelude.{◌≡◌, List, [], IsTrue, OnOk, OnErr}, Option.option_map_or};
ghost use Rattle.race_clock.specs.ClockState.{joined};
ghost use Rattle.race_clock.specs.{ClocksState.{LockState, no_lock, lock_locked, lock_unlocked}, Needs.{KnowsAll, KnowsUnlocks}};
ghost use Rattle.race_clock.specs.UnlocksState.{UnlocksState};

use crate::clock::Clock;
use crate::sync_clock::SyncClock;
use std::alloc::{AllocError, Allocator};
use std::marker::Model;
use std::mem;

// Of the unlocks: what the last of them brings, and what all of them do, where that is more.
#[derive(Drop)]
struct Unlocks<A: Allocator> {
    last: Clock<A>,
    all: Option<Clock<A>>,
}

impl<A: Allocator> Model for Unlocks<A> {
    ghost Value = { UnlocksState };

    ghost view = { λ u. record { all = option_map_or (λ all. all) u.all u.last; last = u.last } };
}

#[derive(Drop)]
pub(crate) struct LockClock<A: Allocator> {
    unlocks: Option<Box<Unlocks<A>, A>>,
    pub(crate) runlocks: SyncClock<A>,
    // Who has locked since the last unlock, and so has seen all of them.
    locker: Option<u32>,
}

impl<A: Allocator> Model for LockClock<A> {
    ghost Value = { LockState };

    ghost view = { λ k. record {
      unlocks = option_map_or (λ unlocks. unlocks.value.all) k.unlocks [];
      last = option_map_or (λ unlocks. unlocks.value.last) k.unlocks [];
      runlocks = k.runlocks;
      locker = k.locker;
    } };
}

impl<A: Allocator + Copy> LockClock<A> {
    /// A lock that nobody has unlocked.
    pub(crate) fn new() -> LockClock<A>
        ensures { result ≡ no_lock }
    {
        LockClock {
            unlocks: None,
            runlocks: SyncClock::new(),
            locker: None,
        }
    }

    /// Joins to a goroutine's clock what a lock sees.
    #[inline(always)]
    pub(crate) fn hand_to_lock(&self, clock: &mut Clock<A>) -> Result<(), AllocError>
        ensures ok { OnOk result (clock.new ≡ joined clock.old (joined self.now.unlocks self.now.runlocks)) }
        ensures unchanged { OnErr result (clock.new ≡ clock.old) }
    {
        match &self.unlocks {
            Some(unlocks) => {
                // Grown once, for both, since a growth that is refused has to change nothing.
                let all = unlocks.all();
                clock.grow(all.len().max(self.runlocks.len()))?;
                clock.raise_to(all);
                self.runlocks.raise(clock);
                Ok(())
            }
            None => self.runlocks.join_to(clock),
        }
    }

    /// Joins to it what an rlock sees.
    #[inline(always)]
    #[tactic(auto, using(crate::proofs::JoinLemmas::joined_nothing))]
    pub(crate) fn hand_to_rlock(&self, clock: &mut Clock<A>) -> Result<(), AllocError>
        ensures ok { OnOk result (clock.new ≡ joined clock.old self.now.last) }
        ensures unchanged { OnErr result (clock.new ≡ clock.old) }
    {
        match &self.unlocks {
            Some(unlocks) => clock.join(&unlocks.last),
            None => Ok(()),
        }
    }

    #[inline(always)]
    pub(crate) fn lock(&mut self, who: u32)
        ensures { self.new ≡ lock_locked self.old who }
    {
        self.runlocks.clear();
        self.locker = Some(who);
    }

    /// Takes the clock of the start of an unlock by `who`, which is then free to be written.
    #[inline(always)]
    pub(crate) fn unlock(&mut self, who: u32, begin: &mut Clock<A>) -> Result<(), AllocError>
        requires { KnowsUnlocks self.old who begin.old }
        ensures ok { OnOk result (self.new ≡ lock_unlocked self.old begin.old) }
        ensures unchanged { OnErr result (self.new ≡ self.old) }
    {
        let has_seen_all = self.locker == Some(who);
        self.add_unlock(has_seen_all, begin)?;
        self.locker = None;
        Ok(())
    }

    // Adds an unlock to what is kept of them.
    #[inline(always)]
    fn add_unlock(&mut self, has_seen_all: bool, begin: &mut Clock<A>) -> Result<(), AllocError>
        requires { IsTrue has_seen_all → KnowsAll self.old.unlocks begin.old }
        ensures ok { OnOk result (self.new ≡ record {
          unlocks = joined self.old.unlocks begin.old;
          last = begin.old;
          runlocks = self.old.runlocks;
          locker = self.old.locker;
        }) }
        ensures unchanged { OnErr result (self.new ≡ self.old) }
    {
        if let Some(unlocks) = &mut self.unlocks {
            return unlocks.add(has_seen_all, begin);
        }
        let mut unlocks = Box::new(begin.allocator(), Unlocks::new(begin))?;
        unlocks.add(false, begin)?;
        self.unlocks = Some(unlocks);
        Ok(())
    }
}

impl<A: Allocator + Copy> Unlocks<A> {
    fn new(like: &Clock<A>) -> Unlocks<A>
        ensures { result ≡ record { all = []; last = [] } }
    {
        Unlocks {
            last: like.another(),
            all: None,
        }
    }

    fn all(&self) -> &Clock<A>
        ensures { result.now ≡ self.now.all }
    {
        match &self.all {
            Some(all) => all,
            None => &self.last,
        }
    }

    // Takes the clock of one more unlock's start, which may be known to know no less than all before it.
    #[tactic(auto, using(crate::proofs::JoinLemmas::joined_comm, crate::proofs::JoinLemmas::joined_known))]
    fn add(&mut self, has_seen_all: bool, begin: &mut Clock<A>) -> Result<(), AllocError>
        requires { IsTrue has_seen_all → KnowsAll self.old.all begin.old }
        ensures ok { OnOk result (self.new ≡ record { all = joined self.old.all begin.old; last = begin.old }) }
        ensures unchanged { OnErr result (self.new ≡ self.old) }
    {
        if (has_seen_all && self.all().len() <= begin.len()) || begin.covers(self.all()) {
            self.all = None;
            mem::swap(&mut self.last, begin);
            return Ok(());
        }
        self.add_apart(begin)
    }

    // The same, where all of them bring more than this one.
    fn add_apart(&mut self, begin: &mut Clock<A>) -> Result<(), AllocError>
        ensures ok { OnOk result (self.new ≡ record { all = joined self.old.all begin.old; last = begin.old }) }
        ensures unchanged { OnErr result (self.new ≡ self.old) }
    {
        if let Some(all) = &mut self.all {
            all.join(begin)?;
            mem::swap(&mut self.last, begin);
            return Ok(());
        }
        let mut all = begin.another();
        all.become_join(&self.last, begin)?;
        mem::swap(&mut self.last, begin);
        self.all = Some(all);
        Ok(())
    }
}
