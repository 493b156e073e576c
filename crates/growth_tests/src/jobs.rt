//! The turn of a job.

use crate::calls::{Growing, Reply, assert_each, refused_if, right_if};
use crate::played::{Asks, Move, Script, are_jobs_alike, asked, played};
use race_hub::{Ask, Job, Request};
use refusing_heap::RefusingHeap;
use std::alloc::{AllocError, Allocator, Global};
use std::sync::Wait;
use std::thread::Threads;

/// A turn of main, which writes again and again how often its routine was called.
#[derive(Clone, Copy)]
enum Call {
    /// Behind so many answers.
    Turn(&'static [Move]),
    /// Once more, behind the first.
    Again,
}

// Main's job before the call.
fn job_of<A: Allocator + Copy>(heap: A, call: Call) -> Option<Job<Asks, A>> {
    let moves: &'static [Move] = match call {
        Call::Turn(moves) => moves,
        Call::Again => &[],
    };
    let mut hub = played(heap, Script(&[], &[], moves))?;
    match call {
        Call::Turn(_) => hub.take(),
        Call::Again => asked(&mut hub),
    }
}

// What the routine asks when it is called for the first time behind so many answers.
fn request_of(call: Call) -> Request {
    let answers = match call {
        Call::Turn(moves) => moves.len() as u64,
        Call::Again => 0,
    };
    Request {
        ask: Ask::Write(0, answers.saturating_add(1)),
        place: 0,
    }
}

// Whether a turn gives this request, and it is kept.
fn gives<A: Allocator>(job: &mut Job<Asks, A>, wanted: &Request) -> Result<bool, AllocError> {
    let request = job.turn()?;
    Ok(request == *wanted && job.asked() == Some(request))
}

// A turn that is refused has called nothing: the next one gives what the routine asks when it is called once.
fn turn<A: Allocator>(job: &mut Job<Asks, A>, twin: &Job<Asks, A>, wanted: &Request) -> Reply {
    match gives(job, wanted) {
        Ok(is_right) => right_if(is_right),
        Err(_) => refused_if(are_jobs_alike(job, twin) && gives(job, wanted) == Ok(true)),
    }
}

impl Growing for Call {
    fn reply<T: Threads + Wait + Sync>(
        self,
        _rt: &T,
        heap: &RefusingHeap<Global>,
        nth: u64,
    ) -> Reply {
        match (job_of(heap, self), job_of(heap, self)) {
            (Some(mut job), Some(twin)) => {
                heap.refuse(nth);
                turn(&mut job, &twin, &request_of(self))
            }
            _ => Reply::Wrong,
        }
    }
}

static CALLS: [(Call, u64); 4] = [
    // The log is made with room for four steps: what is asked, the offers of selects, what is told. With the fifth step what is
    // asked grows, and what is told.
    (Call::Turn(&[]), 3),
    (Call::Turn(&[Move::Step]), 0),
    (
        Call::Turn(&[Move::Step, Move::Step, Move::Step, Move::Step]),
        2,
    ),
    // The kept request is given.
    (Call::Again, 0),
];

#[test]
fn turns(rt: HostRuntime) {
    assert_each(&rt, &CALLS);
}
