//! Stamps of accesses, and beside each the clock of what its goroutine has seen.
ghost use Rattle.std.specs.Prelude.{◌≡◌, ◌<◌, [], length, IfOk, OnOk, OnErr};
ghost use Rattle.race_clock.specs.{ClocksState.{clock_of, parts_of}, StamperState.StamperState};
ghost use Rattle.race_clock.specs.{Stamps.{stamp_of, stamp_with}, StandsFor.{StandsFor, ForEachPast, IsNext, GoesOn}};
ghost use Rattle.race_clock.specs.StandsFor.{CountsAtAccess};

use crate::Stamp;
use crate::clock::Clock;
use crate::clocks::Clocks;
use race_records::{Decls, Event, Op};
use std::alloc::{AllocError, Allocator, Global};
use std::marker::Model;

/// Takes the events of a legal trace, and puts a stamp on each access. Keeps no list of events.
#[derive(Drop)]
pub struct Stamper<A: Allocator = Global> {
    len: u32,
    clocks: Clocks<A>,
}

impl<A: Allocator> Model for Stamper<A> {
    ghost Value = { StamperState };

    ghost view = { λ s. record { len = s.len; clocks = s.clocks } };
}

impl<A: Allocator + Copy> Stamper<A> {
    /// Before the first event of a trace with these declarations.
    pub fn new<B: Allocator>(alloc: A, decls: &Decls<B>) -> Result<Stamper<A>, AllocError>
        ensures stands { IfOk result (λ stamper. StandsFor decls.now.declarations stamper []) }
    {
        Ok(Stamper {
            len: 0,
            clocks: Clocks::new(alloc, decls)?,
        })
    }

    /// The clock of a goroutine that is declared, or of main: what it knows behind the last event that was taken.
    pub fn clock(&self, goroutine: u32) -> &Clock<A>
        requires { goroutine < length self.now.clocks.slots }
        ensures { result.now ≡ clock_of self.now.clocks goroutine }
    {
        self.clocks.clock(goroutine)
    }

    /// Takes the next event, and stamps it where it is an access. Fails for want of memory alone, and is then as before.
    ///
    /// The event is in range of the declarations, breaks no rule behind the events that were taken, and these are fewer
    /// than 2^24: a `Replay` that accepts it beside the stamper says so.
    #[inline(always)]
    pub fn step(&mut self, event: &Event) -> Result<Option<Stamp>, AllocError>
        requires { IsNext self.old event.now }
        ensures goes_on { OnOk result (GoesOn self.old self.new event.now) }
        ensures stamp { IfOk result (λ stamp. ForEachPast self.old (λ declarations past. stamp ≡ stamp_of past event.now)) }
        ensures clock { OnOk result (CountsAtAccess self.old self.new event.now) }
        ensures unchanged { OnErr result (self.new ≡ self.old) }
    {
        self.clocks.take(event.who, &event.op)?;
        let count = self.clocks.parts(event.who);
        let stamp = stamp(self.len, event.who, count, &event.op);
        self.len += 1;
        Ok(stamp)
    }
}

// The stamp of the event with this number, where it is an access.
fn stamp(at: u32, who: u32, count: u32, op: &Op) -> Option<Stamp>
    ensures { result ≡ stamp_with at who count op.now }
{
    match op {
        Op::Read(var, _) => Some(Stamp {
            at,
            who,
            count,
            var: *var,
            write: false,
        }),
        Op::Write(var, _) => Some(Stamp {
            at,
            who,
            count,
            var: *var,
            write: true,
        }),
        _ => None,
    }
}
