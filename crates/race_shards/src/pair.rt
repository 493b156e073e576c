//! The two accesses of a race, each with the clock that it had.
ghost use Rattle.std.specs.Prelude.{◌≡◌, ◌+◌, ◌<◌, ◌≤◌, length, IfOk, OnOk};
ghost use Rattle.race_model.specs.Legal.{IsLegal};
ghost use Rattle.race_verdict.specs.Traces.{capacities};
ghost use Rattle.race_clock.specs.ClockState.{knows};
ghost use Rattle.race_shards.specs.{Walking.StandsAt, Pairs.{is_known, is_early, races_on, IsSeenAt, IsFound}};

use crate::walk::step;
use race_clock::{Clock, Stamp, Stamper};
use race_records::Trace;
use race_verdict::Race;
use std::alloc::{AllocError, Allocator, Global};
use std::marker::Model;

// A stamp and its clock.
#[derive(Drop)]
struct Seen<A: Allocator = Global> {
    stamp: Stamp,
    clock: Clock<A>,
}

impl<A: Allocator> Model for Seen<A> {
    ghost use Rattle.race_shards.specs.Pairs.{SeenState};

    ghost Value = { SeenState };

    ghost view = { λ s. record { stamp = s.stamp; clock = s.clock } };
}

impl<A: Allocator + Copy> Seen<A> {
    // The stamp, with a copy of the clock.
    fn new(stamp: Stamp, clock: &Clock<A>) -> Result<Seen<A>, AllocError>
        ensures { IfOk result (λ seen. seen ≡ record { stamp = stamp; clock = clock.now }) }
    {
        Ok(Seen {
            stamp,
            clock: clock.copy()?,
        })
    }

    // Goes on from event `from` to event `at`, which is told where it is an access.
    fn walk<B: Allocator>(
        stamper: &mut Stamper<A>,
        trace: &Trace<B>,
        from: usize,
        at: usize,
    ) -> Result<Option<Seen<A>>, AllocError>
        requires legal { IsLegal (capacities trace.now) trace.now.events }
        requires stands { StandsAt trace.now from stamper.old }
        requires order { from ≤ at }
        requires inside { at < length trace.now.events }
        ensures stands { OnOk result (StandsAt trace.now (at + 1) stamper.new) }
        ensures seen { IfOk result (IsSeenAt (capacities trace.now) trace.now.events at) }
    {
        for index in from..at {
            step(stamper, trace, index)?;
        }
        match step(stamper, trace, at)? {
            Some(stamp) => Ok(Some(Seen::new(stamp, stamper.clock(stamp.who))?)),
            None => Ok(None),
        }
    }

    // Whether the stamp's access happens before this one.
    fn knows(&self, stamp: &Stamp) -> bool
        ensures { result ≡ is_known stamp.now self.now.clock }
    {
        stamp.count <= self.clock.knows(stamp.who)
    }
}

/// Two accesses.
#[derive(Drop)]
pub(crate) struct Pair<A: Allocator = Global> {
    first: Seen<A>,
    second: Seen<A>,
}

impl<A: Allocator> Model for Pair<A> {
    ghost use Rattle.race_shards.specs.Pairs.{PairState};

    ghost Value = { PairState };

    ghost view = { λ p. record { first = p.first; second = p.second } };
}

impl<A: Allocator + Copy> Pair<A> {
    /// The two accesses of a race, or none where it is no race in order.
    pub(crate) fn find<B: Allocator>(
        alloc: A,
        trace: &Trace<B>,
        race: &Race,
    ) -> Result<Option<Pair<A>>, AllocError>
        requires { IsLegal (capacities trace.now) trace.now.events }
        ensures { IfOk result (IsFound (capacities trace.now) trace.now.events race.now) }
    {
        if race.first >= race.second {
            return Ok(None);
        }
        if race.second as usize >= trace.len() {
            return Ok(None);
        }
        let first = race.first as usize;
        let mut stamper = Stamper::new(alloc, trace.decls())?;
        let Some(earlier) = Seen::walk(&mut stamper, trace, 0, first)? else {
            return Ok(None);
        };
        let Some(later) = Seen::walk(&mut stamper, trace, first + 1, race.second as usize)? else {
            return Ok(None);
        };
        let pair = Pair {
            first: earlier,
            second: later,
        };
        if !pair.races_on(race.var) {
            return Ok(None);
        }
        Ok(Some(pair))
    }

    // Whether they race on the variable, the first before the second.
    fn races_on(&self, var: u32) -> bool
        ensures { result ≡ races_on var self.now }
    {
        self.first.stamp.at < self.second.stamp.at
            && self.first.stamp.var == var
            && self.second.stamp.var == var
            && (self.first.stamp.write || self.second.stamp.write)
            && !self.second.knows(&self.first.stamp)
    }

    /// Which event the first is.
    pub(crate) fn first(&self) -> u32
        ensures { result ≡ self.now.first.stamp.at }
    {
        self.first.stamp.at
    }

    /// Which event the second is.
    pub(crate) fn second(&self) -> u32
        ensures { result ≡ self.now.second.stamp.at }
    {
        self.second.stamp.at
    }

    /// The first's goroutine.
    pub(crate) fn first_who(&self) -> u32
        ensures { result ≡ self.now.first.stamp.who }
    {
        self.first.stamp.who
    }

    /// How many of that goroutine's starts the second's clock counts.
    pub(crate) fn seen_of_first(&self) -> u32
        ensures { result ≡ knows self.now.second.clock self.now.first.stamp.who }
    {
        self.second.clock.knows(self.first.stamp.who)
    }

    /// Whether the stamp's access happens before either of the two.
    pub(crate) fn knows(&self, stamp: &Stamp) -> bool
        ensures { result ≡ is_early self.now stamp.now }
    {
        self.first.knows(stamp) || self.second.knows(stamp)
    }
}
