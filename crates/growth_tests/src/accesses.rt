//! The calls of race_access, and of a clock.
ghost use Rattle.std.specs.Prelude.{◌<◌};

use crate::calls::{Growing, Reply, assert_each, refused_if, right_if};
use race_access::VarState;
use race_clock::{Clock, Stamp};
use refusing_heap::RefusingHeap;
use std::alloc::{AllocError, Allocator, Global};
use std::sync::Wait;
use std::thread::Threads;

/// What the goroutines, which know nothing of one another, do with a variable; or a call of a clock.
#[derive(Clone, Copy)]
enum Call {
    /// One reads.
    OneReads,
    /// Six read, then main writes, which knows all behind this read, and a hundred others follow.
    ManyFollow(u32),
    /// This goroutine is counted in a clock that has no counts.
    Tick(u32),
    /// A clock that counts another goroutine joins one that counts this.
    Join(u32),
}

// The first access of a goroutine.
fn stamp(at: u32, who: u32, write: bool) -> Stamp {
    Stamp {
        at,
        who,
        count: 1,
        var: 0,
        write,
    }
}

// The reads of goroutine 1 and those up to this one. One may be refused: then no race is told, and it
// is made again.
fn read_up_to<A: Allocator + Copy>(state: &mut VarState<A>, clock: &Clock<A>, last: u32) -> Reply {
    let mut reply = Reply::Right;
    for who in 1..=last {
        let stamp = stamp(who, who, false);
        if state.touch(&stamp, 0, clock).is_err() {
            let is_as_before = reply == Reply::Right && state.raced().is_none();
            reply = refused_if(is_as_before && state.touch(&stamp, 0, clock).is_ok());
        }
    }
    reply
}

// A clock that knows the reads behind this one.
fn behind<'a>(
    heap: &'a RefusingHeap<Global>,
    read: u32,
) -> Option<Clock<&'a RefusingHeap<Global>>> {
    let mut clock = Clock::new(heap).ok()?;
    for who in 1..7 {
        if who > read && clock.knows(who) == 0 {
            clock.tick(who).ok()?;
        }
    }
    Some(clock)
}

// Main's write races with this read, the last that its clock doesn't know. From then on nothing is taken.
fn races_on<A: Allocator + Copy>(state: &mut VarState<A>, clock: &Clock<A>, read: u32) -> bool {
    let mut is_taken = state.touch(&stamp(7, 0, true), 0, clock).is_ok();
    for who in 8..108 {
        is_taken &= state
            .touch(&stamp(who, who, who % 2 == 0), 0, clock)
            .is_ok();
    }
    is_taken && state.raced() == Some((read, 7))
}

// Whom the clock counts before it joins.
const COUNTED: u32 = 3;

// A call that is refused leaves no count.
fn reply_of<A: Allocator>(answer: Result<(), AllocError>, clock: &Clock<A>, who: u32) -> Reply {
    match answer {
        Ok(()) => right_if(clock.knows(who) == 1),
        Err(_) => refused_if(clock.knows(who) == 0),
    }
}

fn joined(heap: &RefusingHeap<Global>, nth: u64, who: u32) -> Reply
    requires { 0 < nth }
{
    let (Ok(mut clock), Ok(mut other)) = (Clock::new(heap), Clock::new(heap)) else {
        return Reply::Wrong;
    };
    let is_counted = clock.tick(COUNTED).is_ok() && other.tick(who).is_ok();
    heap.refuse(nth);
    let answer = clock.join(&other);
    if is_counted && clock.knows(COUNTED) == 1 {
        reply_of(answer, &clock, who)
    } else {
        Reply::Wrong
    }
}

impl Growing for Call {
    fn reply<T: Threads + Wait + Sync>(
        self,
        _rt: &T,
        heap: &RefusingHeap<Global>,
        nth: u64,
    ) -> Reply {
        let mut state = VarState::new(heap);
        let Ok(mut clock) = Clock::new(heap) else {
            return Reply::Wrong;
        };
        match self {
            Call::OneReads => {
                heap.refuse(nth);
                read_up_to(&mut state, &clock, 1)
            }
            Call::Tick(who) => {
                heap.refuse(nth);
                reply_of(clock.tick(who), &clock, who)
            }
            Call::Join(who) => joined(heap, nth, who),
            Call::ManyFollow(read) => {
                let Some(known) = behind(heap, read) else {
                    return Reply::Wrong;
                };
                heap.refuse(nth);
                let reply = read_up_to(&mut state, &clock, 6);
                if races_on(&mut state, &known, read) {
                    reply
                } else {
                    Reply::Wrong
                }
            }
        }
    }
}

// A read beside another takes a list, which grows with the fifth. Where main knows the later reads, its race names one that
// a refusal could have lost.
static CALLS: [(Call, u64); 9] = [
    (Call::OneReads, 0),
    (Call::ManyFollow(6), 2),
    (Call::ManyFollow(3), 2),
    (Call::ManyFollow(1), 2),
    // Eight counts stand in place.
    (Call::Tick(0), 0),
    (Call::Tick(7), 0),
    (Call::Join(7), 0),
    (Call::Tick(8), 1),
    (Call::Join(8), 1),
];

#[test]
fn accesses_and_clocks(rt: HostRuntime) {
    assert_each(&rt, &CALLS);
}
