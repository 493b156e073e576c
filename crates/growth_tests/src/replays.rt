//! The calls of race_legal.
ghost use Rattle.std.specs.Prelude.{◌≡◌, ◌<◌};
ghost use Rattle.race_legal.specs.ReplayState.{IsInRange, counts_in};
ghost use Rattle.race_records.specs.Declarations.{count_of};

use crate::calls::{Growing, Reply, assert_each, refused_if, right_if};
use crate::traced::traced;
use race_legal::{Broken, Replay, legal};
use race_records::{Event, Kind, Trace};
use refusing_heap::RefusingHeap;
use std::alloc::{Allocator, Global};
use std::sync::Wait;
use std::thread::Threads;

/// A call of race_legal.
#[derive(Clone, Copy)]
enum Call {
    New,
    Accept,
    Legal,
}

// A goroutine, a variable, a channel, an rwmutex, a once.
static DECLARED: &[u8] = b"gotrace 2\ngoroutine w\nvar x\nchan c 2\nrwmutex l\nonce o\n";

fn new<A: Allocator + Copy>(heap: A, trace: &Trace<A>) -> Reply {
    match Replay::new(heap, trace.decls()) {
        Ok(replay) => right_if(replay.len() == 0),
        Err(_) => Reply::OutOfMemory,
    }
}

// Whether each reader answers as before the first event, where the trace declares another goroutine and an object of
// each kind.
fn is_new<A: Allocator, B: Allocator>(replay: &Replay<A>, trace: &Trace<B>) -> bool
    requires goroutines { count_of Kind.Goroutine trace.now.decls.declarations ≡ counts_in replay.now Kind.Goroutine }
    requires vars { count_of Kind.Var trace.now.decls.declarations ≡ counts_in replay.now Kind.Var }
    requires chans { count_of Kind.Chan trace.now.decls.declarations ≡ counts_in replay.now Kind.Chan }
    requires locks { count_of Kind.Lock trace.now.decls.declarations ≡ counts_in replay.now Kind.Lock }
    requires onces { count_of Kind.Once trace.now.decls.declarations ≡ counts_in replay.now Kind.Once }
{
    let decls = trace.decls();
    if decls.count(Kind::Goroutine) < 2
        || decls.count(Kind::Var) == 0
        || decls.count(Kind::Chan) == 0
        || decls.count(Kind::Lock) == 0
        || decls.count(Kind::Once) == 0
    {
        return false;
    }
    let are_goroutines_new = replay.runs(0)
        && !replay.runs(1)
        && !replay.started(1)
        && replay.innermost(0).is_none();
    let are_values_new = replay.last_value(0) == 0
        && !replay.is_closed(0)
        && replay.buffered(0) == 0
        && replay.front(0).is_none();
    let are_locks_new = !replay.is_held(0)
        && !replay.is_read_held(0)
        && !replay.is_begun(0)
        && !replay.is_ended(0);
    replay.len() == 0 && !replay.over() && are_goroutines_new && are_values_new && are_locks_new
}

// An event that is refused for want of memory is accepted the next time.
fn accept<A: Allocator, B: Allocator>(
    replay: &mut Replay<A>,
    event: &Event,
    trace: &Trace<B>,
) -> Reply
    requires range { IsInRange (counts_in replay.old) event.now }
    requires first { replay.old.len ≡ 0 }
    requires goroutines { count_of Kind.Goroutine trace.now.decls.declarations ≡ counts_in replay.old Kind.Goroutine }
    requires vars { count_of Kind.Var trace.now.decls.declarations ≡ counts_in replay.old Kind.Var }
    requires chans { count_of Kind.Chan trace.now.decls.declarations ≡ counts_in replay.old Kind.Chan }
    requires locks { count_of Kind.Lock trace.now.decls.declarations ≡ counts_in replay.old Kind.Lock }
    requires onces { count_of Kind.Once trace.now.decls.declarations ≡ counts_in replay.old Kind.Once }
{
    match replay.accept(event) {
        Ok(()) => right_if(replay.len() == 1),
        Err(fault) => refused_if(
            fault == Broken::OutOfMemory
                && is_new(replay, trace)
                && replay.accept(event).is_ok()
                && replay.len() == 1,
        ),
    }
}

// A growth is refused once the replay is made.
fn accepted(heap: &RefusingHeap<Global>, nth: u64, trace: &Trace<&RefusingHeap<Global>>) -> Reply
    requires { 0 < nth }
{
    if trace.is_empty() {
        return Reply::Wrong;
    }
    let Ok(mut replay) = Replay::new(heap, trace.decls()) else {
        return Reply::Wrong;
    };
    heap.refuse(nth);
    accept(&mut replay, trace.event(0), trace)
}

fn judged<A: Allocator + Copy>(heap: A, trace: &Trace<A>) -> Reply {
    match legal(heap, trace) {
        Ok(illegal) => right_if(illegal.is_none()),
        Err(_) => Reply::OutOfMemory,
    }
}

/// A call behind the declarations, and what main does.
#[derive(Clone, Copy)]
struct Row(Call, &'static [u8]);

impl Growing for Row {
    fn reply<T: Threads + Wait + Sync>(
        self,
        _rt: &T,
        heap: &RefusingHeap<Global>,
        nth: u64,
    ) -> Reply {
        let Row(call, events) = self;
        match traced(heap, DECLARED, events) {
            Some(trace) => match call {
                Call::New => {
                    heap.refuse(nth);
                    new(heap, &trace)
                }
                Call::Accept => accepted(heap, nth, &trace),
                Call::Legal => {
                    heap.refuse(nth);
                    judged(heap, &trace)
                }
            },
            None => Reply::Wrong,
        }
    }
}

// A replay has three lists for goroutines, one for variables, three for channels, two for locks
// and two for onces. A value that is sent makes it grow, and a once whose function begins.
static CALLS: [(Row, u64); 9] = [
    (Row(Call::New, b"send main c 7 p\n"), 11),
    (Row(Call::Accept, b"write main x 7 p\n"), 0),
    (Row(Call::Accept, b"send main c 7 p\n"), 1),
    (Row(Call::Accept, b"lock main l p\n"), 0),
    (Row(Call::Accept, b"trylock main l p\n"), 0),
    (Row(Call::Accept, b"tryrlock main l p\n"), 0),
    (Row(Call::Accept, b"tryfail main l p\n"), 0),
    (Row(Call::Accept, b"oncebegin main o p\n"), 1),
    (Row(Call::Legal, b"send main c 7 p\n"), 12),
];

#[test]
fn replays(rt: HostRuntime) {
    assert_each(&rt, &CALLS);
}
