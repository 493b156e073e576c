//! A call that takes memory, of which each growth is refused in turn.
ghost use Rattle.std.specs.{Prelude.◌<◌, Thread.IsSync};

use refusing_heap::RefusingHeap;
use std::alloc::{AllocGlobal, Global};
use std::process::Abort;
use std::sync::Wait;
use std::thread::Threads;

/// What a call answered.
#[derive(Clone, Copy, PartialEq, Eq)]
pub(crate) enum Reply {
    /// Want of memory, and what it works on is as before.
    OutOfMemory,
    Right,
    Wrong,
}

/// The reply of a call that answered.
pub(crate) fn right_if(is_right: bool) -> Reply {
    if is_right { Reply::Right } else { Reply::Wrong }
}

/// The reply of a call that answered want of memory.
pub(crate) fn refused_if(is_as_before: bool) -> Reply {
    if is_as_before {
        Reply::OutOfMemory
    } else {
        Reply::Wrong
    }
}

/// A call with what it works on.
pub(crate) trait Growing: Copy {
    /// Makes the value, lets growth `nth` from there on be refused, and makes the one call, by this runtime where it starts
    /// threads.
    fn reply<T: Threads + Wait + Sync>(self, rt: &T, heap: &RefusingHeap<Global>, nth: u64) -> Reply
        requires nth { 0 < nth }
        // A method isn't told it of its type parameter.
        requires sync { IsSync T.row };
}

/// How a run went in which one growth of the call was to be refused.
enum Outcome {
    /// The growth was refused, and the call answered want of memory.
    Refused,
    /// The growth was refused, and the call answered right without it: a list that grows by a hint
    /// asks again for less.
    DoneWithout,
    /// The call has no such growth, and answered right.
    Done,
    /// Anything else.
    Wrong,
}

fn run<T: AllocGlobal + Threads + Wait + Sync, C: Growing>(rt: &T, call: C, nth: u64) -> Outcome
    requires { 0 < nth }
{
    let heap = RefusingHeap::new(rt.alloc());
    let reply = call.reply(rt, &heap, nth);
    match (heap.has_refused(), reply) {
        (true, Reply::OutOfMemory) => Outcome::Refused,
        (true, Reply::Right) => Outcome::DoneWithout,
        (false, Reply::Right) => Outcome::Done,
        _ => Outcome::Wrong,
    }
}

/// How often the call answers want of memory until a run meets no refusal, or none where a run is wrong.
pub(crate) fn refusals<T: AllocGlobal + Threads + Wait + Sync, C: Growing>(
    rt: &T,
    call: C,
) -> Option<u64> {
    let mut refusals = 0u64;
    for nth in 1..512u64 {
        match run(rt, call, nth) {
            Outcome::Refused => refusals = refusals.saturating_add(1),
            Outcome::DoneWithout => {}
            Outcome::Done => return Some(refusals),
            Outcome::Wrong => return None,
        }
    }
    None
}

/// Asserts how often each call answers want of memory.
pub(crate) fn assert_each<T: Abort + AllocGlobal + Threads + Wait + Sync, C: Growing>(
    rt: &T,
    calls: &[(C, u64)],
) {
    for (index, (call, want)) in calls.iter().enumerate() {
        let is_right = refusals(rt, *call) == Some(*want);
        assert!(rt; is_right, "call {index}");
    }
}
