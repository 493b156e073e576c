//! The calls of race_shards. Where threads work, the growth that is refused may be that of a start.
ghost use Rattle.std.specs.Prelude.{◌≡◌, ◌<◌, [], true};
ghost use Rattle.race_shards.specs.Judging.{StandsFor};

use crate::calls::{Growing, Reply, assert_each, refused_if, right_if};
use crate::traced::{ON_X, ON_Y, TWO_RACES, traced};
use race_records::Trace;
use race_shards::{Judge, JudgeFault, OpenGate};
use race_verdict::{Report, Verdict};
use refusing_heap::RefusingHeap;
use std::alloc::{Allocator, Global};
use std::sync::Wait;
use std::thread::Threads;

/// A call of race_shards.
#[derive(Clone, Copy)]
enum Call {
    New,
    Feed,
    Finish,
    FinishNoted,
    Judge,
}

fn is_wanting(fault: JudgeFault) -> bool {
    matches!(fault, JudgeFault::NoThread | JudgeFault::OutOfMemory)
}

fn judged<A: Allocator>(answer: Result<Verdict<A>, JudgeFault>) -> Reply {
    match answer {
        Ok(Verdict::Races(races)) => right_if(races.as_slice() == [ON_X, ON_Y].as_slice()),
        Ok(_) => Reply::Wrong,
        Err(fault) => refused_if(is_wanting(fault)),
    }
}

fn noted<A: Allocator>(answer: Result<Report<A>, JudgeFault>) -> Reply {
    match answer {
        Ok(Report::Races(races)) => right_if(races.len() == 2),
        Ok(_) => Reply::Wrong,
        Err(fault) => refused_if(is_wanting(fault)),
    }
}

// A judge that was refused answers only that it has failed.
fn has_failed<R: Threads + Wait, A: Allocator + Copy + Send>(rt: &R, mut judge: Judge<A>) -> bool
    requires { judge.failed ≡ true }
{
    let again = judge.feed(rt, &[], &OpenGate);
    again == Err(JudgeFault::Failed)
        && judge.len() == 0
        && judge.finish().err() == Some(JudgeFault::Failed)
}

// Feeds the judge all events. What it answers, where it refuses them.
fn fed<R: Threads + Wait, A: Allocator + Copy + Send, B: Allocator>(
    rt: &R,
    mut judge: Judge<A>,
    trace: &Trace<B>,
) -> Result<Judge<A>, Reply>
    requires { StandsFor trace.now.decls.declarations judge [] }
{
    match judge.feed(rt, trace.events(), &OpenGate) {
        Ok(()) => Ok(judge),
        Err(fault) => Err(refused_if(is_wanting(fault) && has_failed(rt, judge))),
    }
}

/// A call by so many shards.
#[derive(Clone, Copy)]
struct Row(Call, usize);

// A growth is refused once the judge is made.
fn feeds<R: Threads + Wait>(
    rt: &R,
    heap: &RefusingHeap<Global>,
    nth: u64,
    trace: &Trace<&RefusingHeap<Global>>,
    shards: usize,
) -> Reply
    requires { 0 < nth }
{
    let Ok(judge) = Judge::new(heap, trace.decls(), shards) else {
        return Reply::Wrong;
    };
    heap.refuse(nth);
    match fed(rt, judge, trace) {
        Ok(judge) => right_if(judge.len() == 7),
        Err(reply) => reply,
    }
}

// A growth is refused once it is fed.
fn finishes<R: Threads + Wait>(
    rt: &R,
    heap: &RefusingHeap<Global>,
    nth: u64,
    trace: &Trace<&RefusingHeap<Global>>,
    shards: usize,
    is_noted: bool,
) -> Reply
    requires { 0 < nth }
{
    let Ok(judge) = Judge::new(heap, trace.decls(), shards) else {
        return Reply::Wrong;
    };
    let Ok(judge) = fed(rt, judge, trace) else {
        return Reply::Wrong;
    };
    heap.refuse(nth);
    if is_noted {
        noted(judge.finish_noted())
    } else {
        judged(judge.finish())
    }
}

fn made<A: Allocator + Copy>(heap: A, trace: &Trace<A>, shards: usize) -> Reply {
    match Judge::new(heap, trace.decls(), shards) {
        Ok(judge) => right_if(judge.is_empty()),
        Err(fault) => refused_if(fault == JudgeFault::OutOfMemory),
    }
}

impl Growing for Row {
    fn reply<T: Threads + Wait + Sync>(
        self,
        rt: &T,
        heap: &RefusingHeap<Global>,
        nth: u64,
    ) -> Reply {
        let Some(trace) = traced(heap, TWO_RACES, b"") else {
            return Reply::Wrong;
        };
        let Row(call, shards) = self;
        match call {
            Call::New => {
                heap.refuse(nth);
                made(heap, &trace, shards)
            }
            Call::Feed => feeds(rt, heap, nth, &trace, shards),
            Call::Finish => finishes(rt, heap, nth, &trace, shards, false),
            Call::FinishNoted => finishes(rt, heap, nth, &trace, shards, true),
            Call::Judge => {
                heap.refuse(nth);
                judged(Judge::judge(rt, heap, &trace, shards, 2, &OpenGate))
            }
        }
    }
}

// A judge takes six lists for its replay (four for goroutines and variables, two for locks), one for its shards, and for
// each shard the clocks of its goroutines, a list for its locks, and what is kept of its variables. The first unlock of a
// mutex makes each shard's stamper grow. At the end there is the list of races with what is printed of them, and of a
// verdict the list of races alone.
static CALLS: [(Row, u64); 8] = [
    (Row(Call::New, 1), 10),
    (Row(Call::New, 2), 13),
    (Row(Call::Feed, 1), 1),
    (Row(Call::Feed, 2), 2),
    (Row(Call::Finish, 2), 2),
    (Row(Call::FinishNoted, 2), 1),
    (Row(Call::Judge, 1), 13),
    (Row(Call::Judge, 2), 17),
];

#[test]
fn judges(rt: HostRuntime) {
    assert_each(&rt, &CALLS);
}
