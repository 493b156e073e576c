//! A trace: declarations, and the events of a run in one order in which it could have gone.
ghost use Rattle.std.specs.Prelude.{◌≡◌, ◌+◌, ◌-◌, ◌<◌, ◌≤◌, ◌↔◌, [], ◌∷◌, ◌++◌, length, IsTrue, Some, None, true};
ghost use Rattle.std.specs.Prelude.{slice_get, vec_capacity, IsOk, IfOk, OnOk, OnErr};
ghost use Rattle.race_records.specs.Refusal.{Refuses, AllowsUnless};
ghost use Rattle.race_records.specs.Declarations as declarations;
ghost use Rattle.race_records.specs.Events as spec;

use crate::{DeclFault, Decls, Event, Op, says};
use std::alloc::{AllocError, Allocator, Global};
use std::marker::Model;
use std::mem;
use thiserror::Error;

/// The most events of a trace.
pub const MAX_EVENTS: usize = 16_777_216;

// Definitions cite this number, so it is written down twice.
const _: () = prove!(MAX_EVENTS == 16_777_216);

/// Why an event was refused. The first that holds is told.
#[derive(Clone, Copy, Debug, PartialEq, Eq, Error)]
pub enum PushFault {
    /// A number isn't declared, or the second place is wrongly there or missing.
    #[error("a number is out of range")]
    BadNumber,
    /// The operation isn't one of the declarations' version, or it wants an rwmutex and the lock isn't one.
    #[error("the operation or its lock is of the wrong kind")]
    WrongKind,
    /// The trace has as many events as a trace can have.
    #[error("the trace is full")]
    Full,
    /// A growth was refused.
    #[error("out of memory")]
    OutOfMemory,
}

/// Declarations and a list of events, each of which fits them.
pub struct Trace<A: Allocator = Global> {
    decls: Decls<A>,
    events: Vec<Event, A>,
    // For how many more events there is room for certain.
    spare: usize,
}

impl<A: Allocator> Drop for Trace<A> {
    fn drop(self) {
        let Trace {
            decls: _,
            events: _,
            spare: _,
        } = self;
    }
}

impl<A: Allocator> Model for Trace<A> {
    ghost use Rattle.race_records.specs.Events.{TraceState};

    ghost Value = { TraceState };

    ghost use Rattle.race_records.specs.TraceHolds.{trace_state, TraceHolds};

    ghost view = { trace_state };

    ghost invariant = { TraceHolds };
}

impl<A: Allocator> Trace<A> {
    /// A trace of these declarations with no event. Takes no memory.
    pub fn new(decls: Decls<A>) -> Trace<A>
    where
        A: Copy,
        ensures decls { result.decls ≡ decls }
        ensures events { result.events ≡ [] }
        ensures spare { result.spare ≡ 0 }
    {
        let alloc = *decls.allocator();
        Trace {
            decls,
            events: Vec::new(alloc),
            spare: 0,
        }
    }

    /// Appends an event. Where there is spare room, memory isn't refused.
    pub fn push(&mut self, event: Event) -> Result<(), PushFault>
        ensures refused { Refuses (spec.push_fault self.old event) result }
        ensures allowed { AllowsUnless (spec.push_fault self.old event)
            result PushFault.OutOfMemory }
        ensures room { spec.push_fault self.old event ≡ None → 0 < self.old.spare → IsOk result }
        ensures events { OnOk result (self.new.events ≡ self.old.events ++ event ∷ []) }
        ensures decls { OnOk result (self.new.decls ≡ self.old.decls) }
        ensures taken { OnOk result (self.new.spare ≡ self.old.spare - 1) }
        ensures err { OnErr result (self.new ≡ self.old) }
    {
        look_at_value(&event.op);
        match self.fault_of(&event) {
            Some(fault) => Err(fault),
            None => match self.append(event) {
                Ok(()) => Ok(()),
                Err(_) => Err(PushFault::OutOfMemory),
            },
        }
    }

    /// Appends an event of which the caller knows that it is allowed, and tests nothing.
    #[inline(always)]
    pub fn append(&mut self, event: Event) -> Result<(), AllocError>
        requires allowed { spec.push_fault self.old event ≡ None }
        requires value { IsTrue (spec.op_is_limited event.op) }
        ensures room { 0 < self.old.spare → IsOk result }
        ensures events { OnOk result (self.new.events ≡ self.old.events ++ event ∷ []) }
        ensures decls { OnOk result (self.new.decls ≡ self.old.decls) }
        ensures taken { OnOk result (self.new.spare ≡ self.old.spare - 1) }
        ensures err { OnErr result (self.new ≡ self.old) }
    {
        if self.spare > 0 {
            self.events.push_reserved(event);
            self.spare -= 1;
            return Ok(());
        }
        self.events.push(event)?;
        Ok(())
    }

    // Why the event is refused, memory aside.
    #[tactic(auto, unfolding(crate::specs::Events::push_fault))]
    fn fault_of(&self, event: &Event) -> Option<PushFault>
        ensures { result ≡ spec.push_fault self.now event.now }
    {
        if !self.decls.is_in_range(event) {
            return Some(PushFault::BadNumber);
        }
        if !self.decls.is_right_kind(&event.op) {
            return Some(PushFault::WrongKind);
        }
        if self.events.len() >= MAX_EVENTS {
            return Some(PushFault::Full);
        }
        None
    }

    /// Makes spare room for at least one event.
    pub fn reserve(&mut self) -> Result<(), AllocError>
        ensures room { OnOk result (0 < self.new.spare) }
        ensures grown { self.old.spare ≤ self.new.spare }
        ensures unchanged { spec.IsUnchanged self.old self.new }
    {
        if self.spare == 0 {
            self.events.reserve(1)?;
            self.spare = self.events.capacity() - self.events.len();
        }
        Ok(())
    }

    /// Forgets the events, whose room is spare then.
    pub fn clear_events(&mut self)
        ensures decls { self.new.decls ≡ self.old.decls }
        ensures events { self.new.events ≡ [] }
        ensures room { length self.old.events + self.old.spare ≤ self.new.spare }
    {
        self.events.clear();
        self.spare = self.events.capacity();
    }

    /// Moves the events into a list, whose own are forgotten, and takes its room for those to come: the spare room goes with the
    /// events, and the list's stands in its place.
    pub fn move_events(&mut self, list: &mut Vec<Event, A>)
        ensures decls { self.new.decls ≡ self.old.decls }
        ensures events { self.new.events ≡ [] }
        ensures moved { list.new.items ≡ self.old.events }
        ensures room { self.new.spare ≡ vec_capacity list.old }
    {
        let room = list.capacity();
        list.clear();
        mem::swap(&mut self.events, list);
        self.spare = room;
    }

    /// How many events there are.
    pub fn len(&self) -> usize
        ensures len { result ≡ length self.now.events }
        ensures is_trace { spec.IsTrace self.now }
    {
        self.events.len()
    }

    /// Whether there is no event.
    pub fn is_empty(&self) -> bool
        ensures { IsTrue result ↔ (self.now.events ≡ []) }
    {
        self.events.is_empty()
    }

    /// Event `i`, counted from 0. It fits the declarations.
    pub fn event(&self, i: usize) -> &Event
        requires { i < length self.now.events }
        ensures event { slice_get self.now.events i ≡ Some result.now }
        ensures fits { IsTrue (spec.fits self.now.decls result.now) }
        ensures value { IsTrue (spec.op_is_limited result.now.op) }
    {
        &self.events[i]
    }

    /// The events in order.
    pub fn events(&self) -> &[Event]
        ensures events { result.now ≡ self.now.events }
        ensures is_trace { spec.IsTrace self.now }
    {
        self.events.as_slice()
    }

    /// The declarations.
    pub fn decls(&self) -> &Decls<A>
        ensures decls { result.now ≡ self.now.decls }
        ensures well_formed { declarations.IsWellFormed result.now }
    {
        &self.decls
    }

    /// The text of a place.
    pub fn place_text(&self, place: u32) -> &str
        requires { place < length self.now.decls.places }
        ensures { slice_get self.now.decls.places place ≡ Some result.now }
    {
        self.decls.place_text(place)
    }

    /// Gives the number of the place, which is added where it is new, as `Decls::add_place` does.
    pub fn add_place(&mut self, text: &str) -> Result<u32, DeclFault>
    where
        A: Copy,
        ensures refused { Refuses (declarations.place_fault self.old.decls.places text.now) result }
        ensures allowed { AllowsUnless (declarations.place_fault self.old.decls.places text.now)
            result DeclFault.OutOfMemory }
        ensures known { declarations.is_known self.old.decls.places text.now ≡ true → IsOk result }
        ensures number { IfOk result (λ n. n ≡
            declarations.place_number self.old.decls.places text.now) }
        ensures added { OnOk result (self.new.decls ≡
            declarations.with_place self.old.decls text.now) }
        ensures events { self.new.events ≡ self.old.events }
        ensures spare { self.new.spare ≡ self.old.spare }
        ensures err { OnErr result (self.new ≡ self.old) }
    {
        self.decls.add_place(text)
    }
}

// A proof knows the range of a number in an enum once the body has read it.
fn look_at_value(op: &Op)
    ensures { IsTrue (spec.op_is_limited op.now) }
{
    let _said = says(op);
}
