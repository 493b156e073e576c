//! The calls that judge or show a whole trace on one thread, of race_edges and race_shards.

use crate::calls::{Growing, Reply, assert_each, refused_if, right_if};
use crate::traced::{ON_X, ON_Y, TWO_RACES, traced};
use race_edges::{Edge, EdgeFault, Verdict, edges, plain_judge};
use race_records::Trace;
use race_shards::{WitnessFault, judge_alone, witness};
use refusing_heap::RefusingHeap;
use std::alloc::{Allocator, Global};
use std::sync::Wait;
use std::thread::Threads;

/// A call of a trace.
#[derive(Clone, Copy)]
enum Call {
    Edges,
    PlainJudge,
    JudgeAlone,
    Witness,
}

// A goroutine, a variable with a race, and a channel on which a value is sent.
const ONE_RACE: &[u8] =
    b"gotrace 1\ngoroutine w\nvar x\nchan c 1\ngo main w p\nwrite main x 1 p\nread w x 1 p\nsend w c 1 p\n";

// That of the `go`.
static EDGES: [Edge; 1] = [Edge {
    from: 0,
    from_who: 0,
    to: 0,
    to_who: 1,
}];

// The accesses in an order that shows the race on x.
static ORDER: [u32; 4] = [2, 1, 3, 4];

fn listed<A: Allocator + Copy>(heap: A, trace: &Trace<A>) -> Reply {
    match edges(heap, trace) {
        Ok(edges) => right_if(edges.as_slice() == EDGES.as_slice()),
        Err(fault) => refused_if(fault == EdgeFault::OutOfMemory),
    }
}

fn judged<A: Allocator + Copy>(heap: A, trace: &Trace<A>) -> Reply {
    match plain_judge(heap, trace) {
        Ok(Verdict::Races(races)) => right_if(races.as_slice() == [ON_X].as_slice()),
        Ok(_) => Reply::Wrong,
        Err(fault) => refused_if(fault == EdgeFault::OutOfMemory),
    }
}

fn judged_alone<A: Allocator + Copy>(heap: A, trace: &Trace<A>) -> Reply {
    match judge_alone(heap, trace) {
        Ok(Verdict::Races(races)) => right_if(races.as_slice() == [ON_X, ON_Y].as_slice()),
        Ok(_) => Reply::Wrong,
        Err(_) => Reply::OutOfMemory,
    }
}

fn shown<A: Allocator + Copy>(heap: A, trace: &Trace<A>) -> Reply {
    match witness(heap, trace, &ON_X) {
        Ok(order) => right_if(order.as_slice() == ORDER.as_slice()),
        Err(fault) => refused_if(fault == WitnessFault::OutOfMemory),
    }
}

/// A call, and its trace.
#[derive(Clone, Copy)]
struct Row(Call, &'static [u8]);

impl Growing for Row {
    fn reply<T: Threads + Wait + Sync>(
        self,
        _rt: &T,
        heap: &RefusingHeap<Global>,
        nth: u64,
    ) -> Reply {
        let Row(call, text) = self;
        let Some(trace) = traced(heap, text, b"") else {
            return Reply::Wrong;
        };
        heap.refuse(nth);
        match call {
            Call::Edges => listed(heap, &trace),
            Call::PlainJudge => judged(heap, &trace),
            Call::JudgeAlone => judged_alone(heap, &trace),
            Call::Witness => shown(heap, &trace),
        }
    }
}

// A judge takes six lists for its replay, one for its shards, two for clocks and locks, one for what is kept of the variables, one
// more at the first unlock of a mutex, and two of the races. A witness takes six lists for the replay, two for the stamper of each of
// three walks, one more for the first unlock of a mutex in each of the two that go to the end, and the order.
static CALLS: [(Row, u64); 4] = [
    (Row(Call::Edges, ONE_RACE), 10),
    (Row(Call::PlainJudge, ONE_RACE), 16),
    (Row(Call::JudgeAlone, TWO_RACES), 13),
    (Row(Call::Witness, TWO_RACES), 15),
];

#[test]
fn judges_of_one_thread(rt: HostRuntime) {
    assert_each(&rt, &CALLS);
}
