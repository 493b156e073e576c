//! What each goroutine has seen of the others, event by event.
//!
//! By its own events a goroutine sees their starts. By an edge inside an event it sees all that the
//! other participant has seen, and by an edge from an earlier event, its source, all that had been
//! seen at the start of that one; so this is kept for the events that can be a source.
ghost use Rattle.std.specs.Prelude.{◌≡◌, ◌<◌, ◌+◌, Bool, List, [], false, true, length, replicate, slice_set};
ghost use Rattle.std.specs.{Prelude.{slice_get, IfSome, IfOk, OnOk}, List.slice_index_or};
ghost use Rattle.race_edges.specs.{Numbers.AreNumbers, Synchronized.source_at};
ghost use Rattle.race_model.specs.Synchronized.{joins};
ghost use Rattle.race_verdict.specs.Traces.{capacities};
ghost use Rattle.race_edges.specs.TableState as spec;

use crate::numbers::Numbers;
use crate::synchronized::{can_be_source, is_source, joins, partner};
use race_records::{Event, Trace};
use std::alloc::{AllocError, Allocator};
use std::marker::Model;

// Events by index: whether the start of each was seen.
#[derive(Drop)]
struct Row<A: Allocator> {
    seen: Vec<bool, A>,
}

impl<A: Allocator> Model for Row<A> {
    ghost Value = { List Bool };

    ghost view = { λ r. r.seen.items };
}

impl<A: Allocator> Row<A> {
    // Nothing seen of this many events.
    fn new(alloc: A, events: usize) -> Result<Row<A>, AllocError>
        ensures { IfOk result (λ row. row ≡ replicate events false) }
    {
        Ok(Row {
            seen: vec![in alloc; false; events]?,
        })
    }

    fn copy(&self) -> Result<Row<A>, AllocError>
    where
        A: Copy,
        ensures { IfOk result (λ copy. copy ≡ self.now) }
    {
        Ok(Row {
            seen: self.seen.clone()?,
        })
    }

    fn has(&self, index: usize) -> bool
        ensures { result ≡ slice_index_or self.now index false }
    {
        index < self.seen.len() && self.seen[index]
    }

    fn add(&mut self, index: usize)
        ensures { self.new ≡ slice_set self.old index true }
    {
        if index < self.seen.len() {
            self.seen[index] = true;
        }
    }

    // Adds all that the other row has, as far as this one goes.
    fn join(&mut self, other: &Row<A>)
        ensures { self.new ≡ spec.joined self.old other.now (length self.old) }
    {
        for index in 0..self.seen.len() {
            if other.has(index) {
                self.add(index);
            }
        }
    }
}

/// What each goroutine has seen, and what had been seen at the start of each event that can be a
/// source.
#[derive(Drop)]
pub(crate) struct Table<A: Allocator> {
    rows: Vec<Row<A>, A>,
    heard: Vec<Row<A>, A>,
}

impl<A: Allocator> Model for Table<A> {
    ghost use Rattle.race_edges.specs.TableState.{TableState};

    ghost Value = { TableState };

    ghost view = { λ t. record { rows = t.rows.items; heard = t.heard.items } };
}

impl<A: Allocator> Table<A> {
    /// Nothing seen, by this many goroutines of this many events.
    pub(crate) fn new(alloc: A, goroutines: usize, events: usize) -> Result<Table<A>, AllocError>
    where
        A: Copy,
        ensures rows { IfOk result (λ table.
            table.rows ≡ replicate goroutines (replicate events false)) }
        ensures heard { IfOk result (λ table. table.heard ≡ []) }
    {
        let mut rows = Vec::new(alloc);
        for _count in 0..goroutines {
            rows.push(Row::new(alloc, events)?)?;
        }
        Ok(Table {
            rows,
            heard: Vec::new(alloc),
        })
    }

    /// Whether the goroutine has seen the start of the event at the index.
    pub(crate) fn sees(&self, goroutine: u32, index: usize) -> bool
        requires { goroutine < length self.now.rows }
        ensures { result ≡ spec.sees self.now.rows goroutine index }
    {
        self.rows[goroutine as usize].has(index)
    }

    fn see(&mut self, goroutine: u32, index: usize)
        requires { goroutine < length self.old.rows }
        ensures seen { self.new.rows ≡ spec.with_seen self.old.rows goroutine index }
        ensures heard { self.new.heard ≡ self.old.heard }
        ensures len { length self.new.rows ≡ length self.old.rows }
    {
        let row = &mut self.rows[goroutine as usize];
        row.add(index);
    }

    // Where there is such an edge inside the event, lets `to` see all that `from` has seen.
    fn give(&mut self, event: &Event, from: u32, to: u32) -> Result<(), AllocError>
    where
        A: Copy,
        requires from_row { from < length self.old.rows }
        requires to_row { to < length self.old.rows }
        ensures given { OnOk result (self.new.rows ≡ spec.given
            (joins event.now.who event.now.op from to) self.old.rows from to) }
        ensures heard { self.new.heard ≡ self.old.heard }
        ensures len { length self.new.rows ≡ length self.old.rows }
    {
        if joins(event.who, &event.op, from, to) {
            let seen = self.rows[from as usize].copy()?;
            let row = &mut self.rows[to as usize];
            row.join(&seen);
        }
        Ok(())
    }

    // Lets the participants see what the edges inside the event bring.
    fn give_inside(&mut self, event: &Event) -> Result<(), AllocError>
    where
        A: Copy,
        requires { spec.HasRows self.old.rows event.now }
        ensures given { OnOk result (self.new.rows ≡ spec.inside self.old.rows event.now.who
            event.now.op) }
        ensures heard { self.new.heard ≡ self.old.heard }
        ensures len { length self.new.rows ≡ length self.old.rows }
    {
        match partner(&event.op) {
            Some(other) => {
                self.give(event, event.who, other)?;
                self.give(event, other, event.who)
            }
            None => Ok(()),
        }
    }

    // Lets a goroutine see what had been seen at the start of an event.
    fn take(&mut self, goroutine: u32, from: usize)
        requires row { goroutine < length self.old.rows }
        requires from { from < length self.old.heard }
        ensures taken { self.new.rows ≡ spec.with_row self.old.rows goroutine
            (spec.row_of self.old.heard from) }
        ensures heard { self.new.heard ≡ self.old.heard }
        ensures len { length self.new.rows ≡ length self.old.rows }
    {
        let row = &mut self.rows[goroutine as usize];
        row.join(&self.heard[from]);
    }

    // Lets the goroutine of the event at the index see what its sources bring.
    fn take_sources<B: Allocator>(&mut self, trace: &Trace<B>, numbers: &Numbers<A>, at: usize)
        requires within { at < length trace.now.events }
        requires numbers { AreNumbers trace.now.events numbers.now }
        requires row { IfSome (slice_get trace.now.events at) (λ e.
            e.who < length self.old.rows) }
        requires heard { length self.old.heard ≡ at }
        ensures taken { IfSome (slice_get trace.now.events at) (λ e.
            self.new.rows ≡ spec.taken (λ k. source_at (capacities trace.now) trace.now.events k at)
            self.old.heard self.old.rows e.who at) }
        ensures heard { self.new.heard ≡ self.old.heard }
        ensures len { length self.new.rows ≡ length self.old.rows }
    {
        let who = trace.event(at).who;
        // What it has seen brings nothing more, and of many sources the latest has often seen the
        // others.
        for from in (0..at).rev() {
            if !self.sees(who, from) && is_source(trace, numbers, from, at) {
                self.take(who, from);
            }
        }
    }

    // What is kept of an event, whose own start its goroutine has seen.
    fn kept(&self, alloc: A, event: &Event) -> Result<Row<A>, AllocError>
    where
        A: Copy,
        requires { event.now.who < length self.now.rows }
        ensures { IfOk result (λ row. row ≡ spec.kept self.now.rows event.now.who event.now.op) }
    {
        if can_be_source(&event.op) {
            self.rows[event.who as usize].copy()
        } else {
            Row::new(alloc, 0)
        }
    }

    /// Takes the event at the index, which is the next one.
    pub(crate) fn step<B: Allocator>(
        &mut self,
        alloc: A,
        trace: &Trace<B>,
        numbers: &Numbers<A>,
        at: usize,
    ) -> Result<(), AllocError>
    where
        A: Copy,
        requires within { at < length trace.now.events }
        requires numbers { AreNumbers trace.now.events numbers.now }
        requires rows { IfSome (slice_get trace.now.events at) (λ e.
            spec.HasRows self.old.rows e) }
        requires heard { length self.old.heard ≡ at }
        ensures after { OnOk result (IfSome (slice_get trace.now.events at) (λ e.
            self.new ≡ spec.table_after
            (λ k. source_at (capacities trace.now) trace.now.events k at) self.old at e.who e.op)) }
        ensures len { length self.new.rows ≡ length self.old.rows }
    {
        let event = trace.event(at);
        self.see(event.who, at);
        let kept = self.kept(alloc, event)?;
        self.give_inside(event)?;
        self.take_sources(trace, numbers, at);
        self.heard.push(kept)?;
        Ok(())
    }
}
