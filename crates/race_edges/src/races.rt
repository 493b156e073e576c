//! The races of a list of events, found event by event.
ghost use Rattle.std.specs.Prelude.{◌≡◌, ◌<◌, ◌^◌, None, replicate, length, IfOk};
ghost use Rattle.race_model.specs.Events.{reads, writes, accesses};
ghost use Rattle.race_verdict.specs.{Accesses.accessed, Races.races_of};
ghost use Rattle.race_edges.specs.Partners.{is_partner, greatest_below, found_after, noted, HasPlace};

use crate::table::Table;
use race_records::{Event, Op};
use race_verdict::{Race, RaceList};
use std::alloc::{AllocError, Allocator, Global};
use std::marker::Model;

// The variable that the operation accesses.
fn accessed(op: &Op) -> Option<u32>
    ensures { result ≡ accessed op.now }
{
    match op {
        Op::Read(var, _) => Some(*var),
        Op::Write(var, _) => Some(*var),
        _ => None,
    }
}

fn reads(var: u32, op: &Op) -> bool
    ensures { result ≡ reads var op.now }
{
    match op {
        Op::Read(read, _) => *read == var,
        _ => false,
    }
}

fn writes(var: u32, op: &Op) -> bool
    ensures { result ≡ writes var op.now }
{
    match op {
        Op::Write(written, _) => *written == var,
        _ => false,
    }
}

fn accesses(var: u32, op: &Op) -> bool
    ensures { result ≡ accesses var op.now }
{
    reads(var, op) || writes(var, op)
}

// Whether the event, which comes next and accesses the variable, races on it with the event at the
// index.
fn is_race<A: Allocator>(
    table: &Table<A>,
    past: &[Event],
    event: &Event,
    var: u32,
    index: usize,
) -> bool
    requires row { event.now.who < length table.now.rows }
    requires past { index < length past.now }
    ensures { result ≡ is_partner table.now.rows past.now var event.now.who event.now.op index }
{
    let earlier = &past[index].op;
    accesses(var, earlier)
        && (writes(var, earlier) || writes(var, &event.op))
        && !table.sees(event.who, index)
}

// The greatest index of an event with which the next one, which accesses the variable, races on it.
fn greatest_partner<A: Allocator>(
    table: &Table<A>,
    past: &[Event],
    event: &Event,
    var: u32,
) -> Option<u32>
    requires row { event.now.who < length table.now.rows }
    requires few { length past.now < 2 ^ 32 }
    ensures { result ≡ greatest_below
        (is_partner table.now.rows past.now var event.now.who event.now.op) (length past.now) }
{
    let mut greatest = None;
    for index in 0..past.len() {
        if is_race(table, past, event, var, index) {
            greatest = Some(index as u32);
        }
    }
    greatest
}

/// The race that is noted for each variable.
#[derive(Drop)]
pub(crate) struct Found<A: Allocator = Global> {
    races: Vec<Option<Race>, A>,
}

impl<A: Allocator> Model for Found<A> {
    ghost use Rattle.std.specs.Prelude.{List, Option};
    ghost use Rattle.race_verdict.specs.declared.races.Race.{Race};

    ghost Value = { List (Option Race) };

    ghost view = { λ f. f.races.items };
}

impl<A: Allocator> Found<A> {
    /// No race, for this many variables.
    pub(crate) fn new(alloc: A, vars: usize) -> Result<Found<A>, AllocError>
        ensures { IfOk result (λ found. found ≡ replicate vars None) }
    {
        Ok(Found {
            races: vec![in alloc; None; vars]?,
        })
    }

    /// Notes the race of the event, which comes next, on the variable that it accesses.
    pub(crate) fn look<B: Allocator>(&mut self, table: &Table<B>, past: &[Event], event: &Event)
        requires row { event.now.who < length table.now.rows }
        requires var { HasPlace self.old event.now.op }
        requires few { length past.now < 2 ^ 32 }
        ensures found { self.new ≡ found_after table.now.rows past.now (length past.now) event.now
            self.old }
        ensures len { length self.new ≡ length self.old }
    {
        if let Some(var) = accessed(&event.op) {
            self.note(table, past, event, var);
        }
    }

    // Notes a race on the variable, unless it has one.
    fn note<B: Allocator>(&mut self, table: &Table<B>, past: &[Event], event: &Event, var: u32)
        requires row { event.now.who < length table.now.rows }
        requires var { var < length self.old }
        requires few { length past.now < 2 ^ 32 }
        ensures noted { self.new ≡ noted table.now.rows past.now (length past.now) event.now var
            self.old }
        ensures len { length self.new ≡ length self.old }
    {
        if self.races[var as usize].is_some() {
            return;
        }
        self.races[var as usize] = match greatest_partner(table, past, event, var) {
            Some(first) => Some(Race {
                var,
                first,
                second: past.len() as u32,
            }),
            None => None,
        };
    }

    /// The races that are noted, in rising order of their variables.
    pub(crate) fn list<B: Allocator>(&self, alloc: B) -> Result<RaceList<B>, AllocError>
        ensures { IfOk result (λ races. races ≡ races_of self.now) }
    {
        Ok(RaceList::from_vec(self.noted(alloc)?))
    }

    fn noted<B: Allocator>(&self, alloc: B) -> Result<Vec<Race, B>, AllocError>
        ensures { IfOk result (λ races. races.items ≡ races_of self.now) }
    {
        let races = self.races.iter().filter_map(|found| *found).collect(alloc)?;
        Ok(races)
    }
}
