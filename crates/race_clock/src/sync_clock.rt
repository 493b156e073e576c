//! The clock that an object keeps for whoever comes later: two words, until it is first put there.
ghost use Rattle.std.specs.{Prelude.{◌≡◌, ◌≤◌, ℕ, List, [], length, OnOk, OnErr}, Option.option_map_or};
ghost use Rattle.race_clock.specs.ClockState.{joined};

use crate::clock::Clock;
use std::alloc::{AllocError, Allocator};
use std::marker::Model;
use std::mem;

#[derive(Drop)]
pub(crate) struct SyncClock<A: Allocator> {
    clock: Option<Box<Clock<A>, A>>,
}

impl<A: Allocator> Model for SyncClock<A> {
    ghost Value = { List ℕ };

    ghost view = { λ k. option_map_or (λ kept. kept.value) k.clock [] };
}

impl<A: Allocator + Copy> SyncClock<A> {
    /// Nothing was put here.
    pub(crate) fn new() -> SyncClock<A>
        ensures { result ≡ [] }
    {
        SyncClock { clock: None }
    }

    /// How many counts are written out.
    pub(crate) fn len(&self) -> usize
        ensures { result ≡ length self.now }
    {
        match &self.clock {
            Some(kept) => kept.len(),
            None => 0,
        }
    }

    /// Raises each count of the clock to the one here.
    #[tactic(auto, using(crate::proofs::JoinLemmas::joined_nothing))]
    pub(crate) fn raise(&self, clock: &mut Clock<A>)
        requires { length self.now ≤ length clock.old }
        ensures { clock.new ≡ joined clock.old self.now }
    {
        if let Some(kept) = &self.clock {
            clock.raise_to(kept);
        }
    }

    /// Joins what is kept to the clock.
    #[tactic(auto, using(crate::proofs::JoinLemmas::joined_nothing))]
    pub(crate) fn join_to(&self, clock: &mut Clock<A>) -> Result<(), AllocError>
        ensures ok { OnOk result (clock.new ≡ joined clock.old self.now) }
        ensures unchanged { OnErr result (clock.new ≡ clock.old) }
    {
        match &self.clock {
            Some(kept) => clock.join(kept),
            None => Ok(()),
        }
    }

    /// All counts are 0 again.
    pub(crate) fn clear(&mut self)
        ensures { self.new ≡ [] }
    {
        if let Some(kept) = &mut self.clock {
            kept.clear();
        }
    }

    /// Joins the clock to what is kept. The clock is then free to be written.
    pub(crate) fn join(&mut self, clock: &mut Clock<A>) -> Result<(), AllocError>
        ensures ok { OnOk result (self.new ≡ joined self.old clock.old) }
        ensures unchanged { OnErr result (self.new ≡ self.old) }
    {
        match &mut self.clock {
            Some(kept) if kept.len() == 0 => mem::swap(&mut **kept, clock),
            Some(kept) => return kept.join(clock),
            None => {
                let mut kept = Box::new(clock.allocator(), clock.another())?;
                mem::swap(&mut *kept, clock);
                self.clock = Some(kept);
            }
        }
        Ok(())
    }
}
