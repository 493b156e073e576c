//! The calls of race_records.

use crate::calls::{Growing, Reply, assert_each, refused_if, right_if};
use crate::traced::traced;
use race_records::{DeclFault, Decls, Event, Kind, Named, Op, PushFault, Trace};
use refusing_heap::RefusingHeap;
use std::alloc::{AllocError, Allocator, Global};
use std::sync::Wait;
use std::thread::Threads;

// Objects of each kind, three places and four events, which fill their tables.
static DECLARED: &[u8] =
    b"gotrace 1\ngoroutine w\nvar x\nvar z\nchan c 1\nchan d 0\nmutex l\nonce o\n";

static EVENTS: &[u8] = b"exit w p\nexit w q\nexit w r\nexit w r\n";

static COUNTS: [(Kind, u32); 5] = [
    (Kind::Goroutine, 2),
    (Kind::Var, 2),
    (Kind::Chan, 2),
    (Kind::Lock, 1),
    (Kind::Once, 1),
];

static NAMES: [(&str, Option<Named>); 9] = [
    ("main", Some(Named::Goroutine(0))),
    ("w", Some(Named::Goroutine(1))),
    ("x", Some(Named::Var(0))),
    ("z", Some(Named::Var(1))),
    ("d", Some(Named::Chan(1))),
    ("l", Some(Named::Lock(0))),
    ("o", Some(Named::Once(0))),
    ("v", None),
    ("y", None),
];

fn has_places<A: Allocator>(decls: &Decls<A>) -> bool {
    decls.place_count() == 3
        && decls.place_text(0) == "p"
        && decls.place_text(1) == "q"
        && decls.place_text(2) == "r"
}

fn is_as_declared<A: Allocator>(decls: &Decls<A>) -> bool {
    decls.len() == 7
        && has_places(decls)
        && COUNTS
            .iter()
            .all(|(kind, count)| decls.count(*kind) == *count)
        && NAMES
            .iter()
            .all(|(name, named)| decls.find(*name) == *named)
}

// Whether the trace is as before, and equal to another one that was left alone.
fn is_as_traced<A: Allocator>(trace: &Trace<A>, twin: &Trace<A>) -> bool {
    trace.len() == 4 && is_as_declared(trace.decls()) && *trace == *twin
}

// A copy, whose lists have no room for more.
fn copied<A: Allocator + Copy>(trace: &Trace<A>) -> Result<Decls<A>, AllocError> {
    trace.decls().copy()
}

/// What a call adds to.
#[derive(Clone, Copy)]
pub(crate) enum Start {
    Nothing,
    Copy,
}

pub(crate) fn started<A: Allocator + Copy>(heap: A, start: Start) -> Option<Decls<A>> {
    match start {
        Start::Nothing => Some(Decls::new(heap)),
        Start::Copy => match traced(heap, DECLARED, EVENTS) {
            Some(trace) => copied(&trace).ok(),
            None => None,
        },
    }
}

/// Whether they are as they were started, and equal to others that were left alone.
pub(crate) fn is_as_started<A: Allocator>(decls: &Decls<A>, twin: &Decls<A>, start: Start) -> bool {
    let is_known = match start {
        Start::Nothing => decls.is_empty() && decls.place_count() == 0,
        Start::Copy => is_as_declared(decls),
    };
    is_known && *decls == *twin
}

/// A call that changes declarations.
#[derive(Clone, Copy)]
enum Addition {
    Goroutine,
    Var,
    Chan,
    Lock,
    Once,
    Place,
}

fn add<A: Allocator + Copy>(decls: &mut Decls<A>, addition: Addition) -> Result<u32, DeclFault> {
    match addition {
        Addition::Goroutine => decls.add_goroutine("v"),
        Addition::Var => decls.add_var("y"),
        Addition::Chan => decls.add_chan("y", 2),
        Addition::Lock => decls.add_lock("y", true),
        Addition::Once => decls.add_once("y"),
        Addition::Place => decls.add_place("s"),
    }
}

/// What is added to, an addition, and the number that it gives.
#[derive(Clone, Copy)]
struct OneMore(Start, Addition, u32);

impl Growing for OneMore {
    fn reply<T: Threads + Wait + Sync>(
        self,
        _rt: &T,
        heap: &RefusingHeap<Global>,
        nth: u64,
    ) -> Reply {
        let OneMore(start, addition, number) = self;
        match (started(heap, start), started(heap, start)) {
            (Some(mut decls), Some(twin)) => {
                heap.refuse(nth);
                match add(&mut decls, addition) {
                    Ok(added) => right_if(added == number),
                    Err(fault) => refused_if(
                        fault == DeclFault::OutOfMemory && is_as_started(&decls, &twin, start),
                    ),
                }
            }
            _ => Reply::Wrong,
        }
    }
}

static ADDITIONS: [(OneMore, u64); 12] = [
    (OneMore(Start::Nothing, Addition::Goroutine, 1), 6),
    (OneMore(Start::Nothing, Addition::Var, 0), 6),
    (OneMore(Start::Nothing, Addition::Chan, 0), 6),
    (OneMore(Start::Nothing, Addition::Lock, 0), 6),
    (OneMore(Start::Nothing, Addition::Once, 0), 6),
    (OneMore(Start::Nothing, Addition::Place, 0), 5),
    (OneMore(Start::Copy, Addition::Goroutine, 2), 4),
    (OneMore(Start::Copy, Addition::Var, 2), 4),
    (OneMore(Start::Copy, Addition::Chan, 2), 4),
    (OneMore(Start::Copy, Addition::Lock, 1), 4),
    (OneMore(Start::Copy, Addition::Once, 1), 4),
    (OneMore(Start::Copy, Addition::Place, 3), 3),
];

#[test]
fn names_and_places(rt: HostRuntime) {
    assert_each(&rt, &ADDITIONS);
}

/// A call on a trace.
#[derive(Clone, Copy)]
enum Call {
    Copy,
    Reserve,
    Push,
    AddPlace,
}

fn push<A: Allocator>(trace: &mut Trace<A>, twin: &Trace<A>) -> Reply {
    let event = Event {
        who: 0,
        op: Op::Write(0, 7),
        place: 0,
        place2: None,
    };
    match trace.push(event) {
        Ok(()) => Reply::Right,
        Err(fault) => refused_if(fault == PushFault::OutOfMemory && is_as_traced(trace, twin)),
    }
}

fn add_place<A: Allocator + Copy>(trace: &mut Trace<A>, twin: &Trace<A>) -> Reply {
    match trace.add_place("s") {
        Ok(number) => right_if(number == 3),
        Err(fault) => refused_if(fault == DeclFault::OutOfMemory && is_as_traced(trace, twin)),
    }
}

fn reserve<A: Allocator>(trace: &mut Trace<A>, twin: &Trace<A>) -> Reply {
    match trace.reserve() {
        Ok(()) => right_if(*trace == *twin),
        Err(_) => refused_if(is_as_traced(trace, twin)),
    }
}

fn copy<A: Allocator + Copy>(trace: &Trace<A>, twin: &Trace<A>) -> Reply {
    match copied(trace) {
        Ok(copy) => right_if(is_as_declared(&copy) && copy == *twin.decls()),
        Err(_) => refused_if(is_as_traced(trace, twin)),
    }
}

impl Growing for Call {
    fn reply<T: Threads + Wait + Sync>(
        self,
        _rt: &T,
        heap: &RefusingHeap<Global>,
        nth: u64,
    ) -> Reply {
        let Some(mut trace) = traced(heap, DECLARED, EVENTS) else {
            return Reply::Wrong;
        };
        let Some(twin) = traced(heap, DECLARED, EVENTS) else {
            return Reply::Wrong;
        };
        heap.refuse(nth);
        match self {
            Call::Copy => copy(&trace, &twin),
            Call::Reserve => reserve(&mut trace, &twin),
            Call::Push => push(&mut trace, &twin),
            Call::AddPlace => add_place(&mut trace, &twin),
        }
    }
}

static CALLS: [(Call, u64); 4] = [
    (Call::Copy, 23),
    (Call::Reserve, 1),
    (Call::Push, 1),
    (Call::AddPlace, 1),
];

#[test]
fn traces(rt: HostRuntime) {
    assert_each(&rt, &CALLS);
}
