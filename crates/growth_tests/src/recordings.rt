//! The calls of race_record.

use crate::calls::{Growing, Reply, assert_each, refused_if, right_if};
use crate::programs::parse;
use crate::traced::traced;
use race_hub::{End, Hub, Recording};
use race_record::{RecordFault, record, record_serial};
use race_records::{Kind, Trace};
use race_script::{Program, Script};
use refusing_heap::RefusingHeap;
use std::alloc::{Allocator, Global};
use std::sync::Wait;
use std::thread::Threads;

/// The recording by so many workers, or without any by no picks.
#[derive(Clone, Copy)]
struct By(Option<usize>);

fn scripts_of<A: Allocator + Copy + Send>(
    alloc: A,
    program: &Program<A>,
) -> Option<Vec<Script<A>, A>> {
    let mut scripts = Vec::new(alloc);
    for goroutine in 0..program.decls().count(Kind::Goroutine) {
        scripts
            .push(Script::new(alloc, program, goroutine).ok()?)
            .ok()?;
    }
    Some(scripts)
}

// The hub of the program: main writes and exits.
fn hub_of<A: Allocator + Copy + Send>(alloc: A) -> Option<Hub<Script<A>, A>> {
    let program = parse(alloc).ok()?;
    match (program.decls().copy(), scripts_of(alloc, &program)) {
        (Ok(decls), Some(scripts)) => Hub::new(alloc, decls, 8, scripts).ok(),
        _ => None,
    }
}

// The trace of that.
static DECLARED: &[u8] = b"gotrace 1\nvar x\n";

static EVENTS: &[u8] = b"write main x 7 m:1\nexit main m:2\n";

fn replied<A: Allocator>(answer: Result<Recording<A>, RecordFault>, right: &Trace<A>) -> Reply {
    match answer {
        Ok(recording) => right_if(recording.end() == End::Main && *recording.trace() == *right),
        Err(fault) => refused_if(fault == RecordFault::OutOfMemory),
    }
}

impl Growing for By {
    fn reply<T: Threads + Wait + Sync>(
        self,
        rt: &T,
        heap: &RefusingHeap<Global>,
        nth: u64,
    ) -> Reply {
        let (Some(hub), Some(right)) = (hub_of(heap), traced(heap, DECLARED, EVENTS)) else {
            return Reply::Wrong;
        };
        heap.refuse(nth);
        if hub.out() != 0 {
            return Reply::Wrong;
        }
        let By(workers) = self;
        match workers {
            Some(workers) => replied(record(rt, hub, workers, 0), &right),
            None => replied(record_serial(hub, &[]), &right),
        }
    }
}

// The three lists of the log, the requests, and the trace. Workers take a copy of the declarations before.
static CALLS: [(By, u64); 3] = [(By(None), 5), (By(Some(1)), 17), (By(Some(2)), 17)];

#[test]
fn recordings(rt: HostRuntime) {
    assert_each(&rt, &CALLS);
}
