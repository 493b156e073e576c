//! Hubs, and how far each is played before the call.

use race_hub::{Answer, Ask, Hub, Job, Log, Request, Routine};
use race_records::{Decls, Object};
use std::alloc::{Allocator, Global};

// An ask but for a select, of which no table can be written down.
#[derive(Clone, Copy)]
pub(crate) enum Plain {
    Go(u32),
    Write(u32, u64),
    Send(u32, u64),
    Recv(Option<u32>),
    TryLock(u32),
    Do(u32),
}

fn ask_of(plain: Plain) -> Ask {
    match plain {
        Plain::Go(goroutine) => Ask::Go(goroutine),
        Plain::Write(var, value) => Ask::Write(var, value),
        Plain::Send(chan, value) => Ask::Send(Some(chan), value),
        Plain::Recv(chan) => Ask::Recv(chan),
        Plain::TryLock(lock) => Ask::TryLock(lock),
        Plain::Do(once) => Ask::Do(once),
    }
}

/// Asks these one after another, and then to write how often it was called.
#[derive(Drop)]
pub(crate) struct Asks {
    asks: &'static [Plain],
    calls: usize,
}

impl Routine for Asks {
    ghost use Rattle.std.specs.Prelude.{⊤};

    ghost asks = { λ _ _ _ _. ⊤ };

    fn next(&mut self, _answer: Answer) -> Request {
        let at = self.calls;
        self.calls = at.saturating_add(1);
        let ask = if at < self.asks.len() {
            ask_of(self.asks[at])
        } else {
            Ask::Write(0, self.calls as u64)
        };
        Request { ask, place: 0 }
    }
}

/// What is done with a hub before the call.
#[derive(Clone, Copy)]
pub(crate) enum Move {
    /// The goroutine that has been ready longest asks.
    Ask,
    /// The choice of this pick happens.
    Fire(u64),
    /// One after the other, where there is one choice.
    Step,
}

/// What main asks, what each other one does, and how far both are played.
#[derive(Clone, Copy)]
pub(crate) struct Script(
    pub &'static [Plain],
    pub &'static [Plain],
    pub &'static [Move],
);

// Four goroutines beside main, a variable, a buffered channel, an unbuffered one, a mutex, a once.
static OBJECTS: [(&str, Object); 9] = [
    ("w1", Object::Goroutine),
    ("w2", Object::Goroutine),
    ("w3", Object::Goroutine),
    ("w4", Object::Goroutine),
    ("x", Object::Var),
    ("c", Object::Chan(2)),
    ("d", Object::Chan(0)),
    ("l", Object::Lock(false)),
    ("o", Object::Once),
];

/// Goroutines, an object of each kind, and a place.
pub(crate) fn declared<A: Allocator + Copy>(heap: A) -> Option<Decls<A>> {
    let mut decls = Decls::new_version2(heap);
    let mut is_declared = decls.add_place("p").is_ok();
    for (name, object) in &OBJECTS {
        is_declared &= decls.declare(*name, *object).is_ok();
    }
    if is_declared { Some(decls) } else { None }
}

/// Their routines.
pub(crate) fn routines<A: Allocator>(heap: A, script: Script) -> Option<Vec<Asks, A>> {
    let Script(main, others, _) = script;
    let mut routines = Vec::new(heap);
    let mut are_all = true;
    for goroutine in 0..5 {
        let asks = if goroutine == 0 { main } else { others };
        are_all &= routines.push(Asks { asks, calls: 0 }).is_ok();
    }
    if are_all { Some(routines) } else { None }
}

/// The job that is ready longest, once it has asked.
pub(crate) fn asked<A: Allocator + Copy>(hub: &mut Hub<Asks, A>) -> Option<Job<Asks, A>> {
    let mut job = hub.take()?;
    match job.turn() {
        Ok(_) => Some(job),
        Err(_) => None,
    }
}

fn ask<A: Allocator + Copy>(hub: &mut Hub<Asks, A>) -> bool {
    match asked(hub) {
        Some(job) => hub.submit(job).is_ok(),
        None => false,
    }
}

fn step<A: Allocator + Copy>(hub: &mut Hub<Asks, A>, step: Move) -> bool {
    match step {
        Move::Ask => ask(hub),
        Move::Fire(pick) => hub.fire(pick) == Ok(true),
        Move::Step => ask(hub) && hub.fire(0) == Ok(true),
    }
}

fn play<A: Allocator + Copy>(hub: &mut Hub<Asks, A>, moves: &'static [Move]) -> bool {
    for at in 0..moves.len() {
        if !step(hub, moves[at]) {
            return false;
        }
    }
    true
}

/// A hub that was played so far.
pub(crate) fn played<A: Allocator + Copy>(heap: A, script: Script) -> Option<Hub<Asks, A>> {
    let mut hub = match (declared(heap), routines(heap, script)) {
        (Some(decls), Some(routines)) => Hub::new(heap, decls, 64, routines).ok()?,
        _ => return None,
    };
    let Script(_, _, moves) = script;
    if play(&mut hub, moves) {
        Some(hub)
    } else {
        None
    }
}

/// Whether two hubs answer the same.
pub(crate) fn are_alike<A: Allocator>(one: &Hub<Asks, A>, other: &Hub<Asks, A>) -> bool {
    for who in 0..5 {
        if one.waiting(who) != other.waiting(who) {
            return false;
        }
    }
    one.end() == other.end()
        && one.out() == other.out()
        && one.limit() == other.limit()
        && one.trace() == other.trace()
}

// Whether two logs have the same steps.
fn are_logs_alike<A: Allocator>(one: &Log<A>, other: &Log<A>) -> bool {
    if one.len() != other.len() {
        return false;
    }
    for at in 0..one.len() {
        if one.step(at) != other.step(at) {
            return false;
        }
    }
    true
}

/// Whether two jobs answer the same.
pub(crate) fn are_jobs_alike<A: Allocator>(one: &Job<Asks, A>, other: &Job<Asks, A>) -> bool {
    one.who() == other.who()
        && one.answer() == other.answer()
        && one.asked() == other.asked()
        && are_logs_alike(one.log(), other.log())
}
