//! The numbers by which operations are matched: how many of the kind that it counts stand before each
//! on its object. A send counts sends and a receive receives; a lock, tried or not, and an RUnlock
//! count locks, an Unlock and a lock for reading, tried or not, count Unlocks.
ghost use Rattle.std.specs.{Prelude.{◌≡◌, ◌<◌, length, IfOk}, List.slice_index_or};
ghost use Rattle.race_edges.specs.Numbers as spec;

use crate::kinds::{is_lock, is_receive, is_send, is_unlock};
use race_records::{Event, Op, Trace};
use std::alloc::{AllocError, Allocator};
use std::marker::Model;

/// A number for each event of a trace: how many of the kind that it counts stand before it.
#[derive(Drop)]
pub(crate) struct Numbers<A: Allocator> {
    numbers: Vec<u32, A>,
}

impl<A: Allocator> Model for Numbers<A> {
    ghost use Rattle.std.specs.Prelude.{List, ℕ};

    ghost Value = { List ℕ };

    ghost view = { λ n. n.numbers.items };
}

impl<A: Allocator> Numbers<A> {
    /// The numbers of the trace's events. It takes time in the square of their count.
    pub(crate) fn new<B: Allocator>(alloc: A, trace: &Trace<B>) -> Result<Numbers<A>, AllocError>
        ensures { IfOk result (λ numbers. spec.AreNumbers trace.now.events numbers) }
    {
        let mut numbers = Vec::new(alloc);
        for at in 0..trace.len() {
            numbers.push(number_at(trace.events(), at))?;
        }
        Ok(Numbers { numbers })
    }

    /// The number of the event at the index.
    pub(crate) fn get(&self, index: usize) -> u32
        requires { index < length self.now }
        ensures { result ≡ slice_index_or self.now index 0 }
    {
        self.numbers[index]
    }
}

// How many of the kind that it counts stand before the event at the index.
fn number_at(events: &[Event], index: usize) -> u32
    requires within { index < length events.now }
    requires few { length events.now < 4_294_967_296 }
    ensures { result ≡ spec.number_at events.now index }
{
    let op = &events[index].op;
    let mut number = 0;
    for event in &events[..index] {
        if counts(op, &event.op) {
            number += 1;
        }
    }
    number
}

// Whether the earlier operation is one of those among which `op` has its number.
fn counts(op: &Op, earlier: &Op) -> bool
    ensures { result ≡ spec.counts op.now earlier.now }
{
    match op {
        Op::Send(chan, _) => is_send(*chan, earlier),
        Op::Recv(chan, _) => is_receive(*chan, earlier),
        Op::Lock(lock) | Op::TryLock(lock) | Op::RUnlock(lock) => is_lock(*lock, earlier),
        Op::Unlock(lock) | Op::RLock(lock) | Op::TryRLock(lock) => is_unlock(*lock, earlier),
        // The others need no number.
        _ => false,
    }
}
