//! A goroutine's clock, with how many events it took part in.
ghost use Rattle.std.specs.Prelude.{◌≡◌, ◌+◌, ◌<◌, ◌^◌, IfOk, OnOk, OnErr};
ghost use Rattle.race_clock.specs.{ClockState.{joined, with_count}, ClocksState.{ThreadClockState, first_slot}};

use crate::clock::Clock;
use crate::lock::LockClock;
use crate::sync_clock::SyncClock;
use std::alloc::{AllocError, Allocator};
use std::marker::Model;
use std::mem;

#[derive(Drop)]
pub(crate) struct ThreadClock<A: Allocator> {
    clock: Clock<A>,
    parts: u32,
}

impl<A: Allocator> Model for ThreadClock<A> {
    ghost Value = { ThreadClockState };

    ghost view = { λ s. record { clock = s.clock; parts = s.parts } };
}

impl<A: Allocator + Copy> ThreadClock<A> {
    /// A goroutine that has seen nothing.
    pub(crate) fn new(alloc: A, who: u32) -> Result<ThreadClock<A>, AllocError>
        ensures { IfOk result (λ slot. slot ≡ first_slot who) }
    {
        let mut clock = Clock::new(alloc)?;
        clock.grow(who as usize + 1)?;
        Ok(ThreadClock { clock, parts: 0 })
    }

    pub(crate) fn clock(&self) -> &Clock<A>
        ensures { result.now ≡ self.now.clock }
    {
        &self.clock
    }

    pub(crate) fn parts(&self) -> u32
        ensures { result ≡ self.now.parts }
    {
        self.parts
    }

    /// Takes part in an access: the clock counts the starts before it, and the access is one part more.
    pub(crate) fn access(&mut self, who: u32)
        requires { self.old.parts + 1 < 2 ^ 32 }
        ensures { self.new ≡ record { clock = with_count self.old.clock who self.old.parts; parts = self.old.parts + 1 } }
    {
        self.clock.set(who, self.parts);
        self.parts += 1;
    }

    /// The clock of the next event's start.
    #[inline(always)]
    pub(crate) fn begin(&self, who: u32, to: &mut Clock<A>) -> Result<(), AllocError>
        requires { self.now.parts + 1 < 2 ^ 32 }
        ensures { OnOk result (to.new ≡ with_count self.now.clock who (self.now.parts + 1)) }
    {
        to.become_copy(&self.clock)?;
        to.set(who, self.parts + 1);
        Ok(())
    }

    /// Takes part in an event that leaves the clock as it is.
    pub(crate) fn pass(&mut self)
        requires { self.old.parts + 1 < 2 ^ 32 }
        ensures { self.new ≡ record { clock = self.old.clock; parts = self.old.parts + 1 } }
    {
        self.parts += 1;
    }

    /// Takes part in an event that exchanges the clock for this one.
    pub(crate) fn take(&mut self, clock: &mut Clock<A>)
        requires { self.old.parts + 1 < 2 ^ 32 }
        ensures slot { self.new ≡ record { clock = clock.old; parts = self.old.parts + 1 } }
        ensures given { clock.new ≡ self.old.clock }
    {
        mem::swap(&mut self.clock, clock);
        self.parts += 1;
    }

    /// Takes part in an event that exchanges the clock for this one, and gives that of its start.
    pub(crate) fn exchange(&mut self, who: u32, clock: &mut Clock<A>)
        requires { self.old.parts + 1 < 2 ^ 32 }
        ensures slot { self.new ≡ record { clock = clock.old; parts = self.old.parts + 1 } }
        ensures given { clock.new ≡ with_count self.old.clock who (self.old.parts + 1) }
    {
        mem::swap(&mut self.clock, clock);
        self.parts += 1;
        clock.set(who, self.parts);
    }

    /// Takes part in an event that joins what is kept to the goroutine's clock.
    pub(crate) fn learn(&mut self, from: &SyncClock<A>) -> Result<(), AllocError>
        requires { self.old.parts + 1 < 2 ^ 32 }
        ensures ok { OnOk result (self.new ≡ record { clock = joined self.old.clock from.now; parts = self.old.parts + 1 }) }
        ensures unchanged { OnErr result (self.new ≡ self.old) }
    {
        from.join_to(&mut self.clock)?;
        self.parts += 1;
        Ok(())
    }

    /// Takes part in a lock.
    #[inline(always)]
    pub(crate) fn lock(&mut self, from: &LockClock<A>) -> Result<(), AllocError>
        requires { self.old.parts + 1 < 2 ^ 32 }
        ensures ok { OnOk result (self.new ≡ record {
          clock = joined self.old.clock (joined from.now.unlocks from.now.runlocks);
          parts = self.old.parts + 1;
        }) }
        ensures unchanged { OnErr result (self.new ≡ self.old) }
    {
        from.hand_to_lock(&mut self.clock)?;
        self.parts += 1;
        Ok(())
    }

    /// Takes part in an rlock.
    pub(crate) fn read_lock(&mut self, from: &LockClock<A>) -> Result<(), AllocError>
        requires { self.old.parts + 1 < 2 ^ 32 }
        ensures ok { OnOk result (self.new ≡ record { clock = joined self.old.clock from.now.last; parts = self.old.parts + 1 }) }
        ensures unchanged { OnErr result (self.new ≡ self.old) }
    {
        from.hand_to_rlock(&mut self.clock)?;
        self.parts += 1;
        Ok(())
    }

    /// Takes part in an event that joins the clock of its start to what is kept.
    pub(crate) fn tell(
        &mut self,
        who: u32,
        to: &mut SyncClock<A>,
        spare: &mut Clock<A>,
    ) -> Result<(), AllocError>
        requires { self.old.parts + 1 < 2 ^ 32 }
        ensures slot { OnOk result (self.new ≡ record { clock = self.old.clock; parts = self.old.parts + 1 }) }
        ensures kept { OnOk result (to.new ≡ joined to.old (with_count self.old.clock who (self.old.parts + 1))) }
        ensures unchanged { OnErr result (self.new ≡ self.old) }
        ensures kept_unchanged { OnErr result (to.new ≡ to.old) }
    {
        self.begin(who, spare)?;
        to.join(spare)?;
        self.pass();
        Ok(())
    }
}
