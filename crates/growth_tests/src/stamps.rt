//! The calls of race_clock.
ghost use Rattle.std.specs.Prelude.{◌<◌, [], length};
ghost use Rattle.race_clock.specs.StandsFor.{IsNext, StandsFor};
ghost use Rattle.race_model.specs.Legal.{IsLegal};
ghost use Rattle.race_verdict.specs.Traces.{capacities};

use crate::calls::{Growing, Reply, assert_each, refused_if, right_if};
use crate::traced::traced;
use race_clock::{Stamp, Stamper};
use race_legal::legal;
use race_records::{Event, Kind, Trace};
use refusing_heap::RefusingHeap;
use std::alloc::{Allocator, Global};
use std::sync::Wait;
use std::thread::Threads;

/// What a goroutine's clock knows of a goroutine: whose it is, of whom, and how many begins.
type Count = (u32, u32, u32);

/// What a call answers: the stamp of an access, and all that is known then.
type Answer = (Option<Stamp>, &'static [Count]);

/// A call of race_clock.
#[derive(Clone, Copy)]
enum Call {
    New,
    /// Takes the last event, and answers so.
    Step(Answer),
}

// Eight goroutines beside main, a variable, a channel, a mutex, a once.
static DECLARED: &[u8] =
    b"gotrace 2\ngoroutine w1\ngoroutine w2\ngoroutine w3\ngoroutine w4\ngoroutine w5\ngoroutine w6\ngoroutine w7\ngoroutine w8\nvar x\nchan c 2\nmutex m\nonce o\n";

// The last goroutine: its count is the first that doesn't stand in a clock itself.
const LAST: u32 = 8;

// Whether this is all that is known.
fn is_known<A: Allocator + Copy>(stamper: &Stamper<A>, known: &[Count]) -> bool
    requires { 8 < length stamper.now.clocks.slots }
{
    for who in 0..=LAST {
        let clock = stamper.clock(who);
        for of in 0..=LAST {
            let count = known.iter().find(|count| count.0 == who && count.1 == of);
            if clock.knows(of) != count.map_or(0, |count| count.2) {
                return false;
            }
        }
    }
    true
}

fn new<A: Allocator + Copy>(heap: A, trace: &Trace<A>) -> Reply {
    if trace.decls().count(Kind::Goroutine) <= LAST {
        return Reply::Wrong;
    }
    match Stamper::new(heap, trace.decls()) {
        Ok(stamper) => right_if(is_known(&stamper, &[])),
        Err(_) => Reply::OutOfMemory,
    }
}

// Takes the event; else nothing is known as before, and the event is taken the next time.
fn last_step<A: Allocator + Copy>(stamper: &mut Stamper<A>, event: &Event, right: Answer) -> Reply
    requires next { IsNext stamper.old event.now }
    requires slots { 8 < length stamper.old.clocks.slots }
{
    let (right, known) = right;
    match stamper.step(event) {
        Ok(stamp) => right_if(stamp == right && is_known(stamper, known)),
        Err(_) => refused_if(
            is_known(stamper, &[])
                && stamper.step(event).ok() == Some(right)
                && is_known(stamper, known),
        ),
    }
}

// Takes the events of a legal trace. A growth is refused at the last of them.
fn step_each(
    heap: &RefusingHeap<Global>,
    nth: u64,
    trace: &Trace<&RefusingHeap<Global>>,
    right: Answer,
    stamper: &mut Stamper<&RefusingHeap<Global>>,
) -> Reply
    requires nth { 0 < nth }
    requires legal { IsLegal (capacities trace.now) trace.now.events }
    requires stands { StandsFor trace.now.decls.declarations stamper.old [] }
{
    if trace.decls().count(Kind::Goroutine) <= LAST {
        return Reply::Wrong;
    }
    for at in 0..trace.len() {
        let event = trace.event(at);
        if at + 1 == trace.len() {
            heap.refuse(nth);
            return last_step(stamper, event, right);
        }
        let Ok(_) = stamper.step(event) else {
            return Reply::Wrong;
        };
    }
    Reply::Wrong
}

fn stepped(
    heap: &RefusingHeap<Global>,
    nth: u64,
    trace: &Trace<&RefusingHeap<Global>>,
    right: Answer,
) -> Reply
    requires { 0 < nth }
{
    let Ok(None) = legal(heap, trace) else {
        return Reply::Wrong;
    };
    let Ok(mut stamper) = Stamper::new(heap, trace.decls()) else {
        return Reply::Wrong;
    };
    step_each(heap, nth, trace, right, &mut stamper)
}

/// A call behind the declarations and all but the last of these events.
#[derive(Clone, Copy)]
struct Row(Call, &'static [u8]);

impl Growing for Row {
    fn reply<T: Threads + Wait + Sync>(
        self,
        _rt: &T,
        heap: &RefusingHeap<Global>,
        nth: u64,
    ) -> Reply {
        let Row(call, events) = self;
        match traced(heap, DECLARED, events) {
            Some(trace) => match call {
                Call::New => {
                    heap.refuse(nth);
                    new(heap, &trace)
                }
                Call::Step(right) => stepped(heap, nth, &trace, right),
            },
            None => Reply::Wrong,
        }
    }
}

// An event that is no access, behind which nothing is known.
const NOTHING: Call = Call::Step((None, &[]));

// A write counts those of main's events that come before it.
const WRITE: Call = Call::Step((SECOND, &[(0, 0, 1)]));

const SECOND: Option<Stamp> = Some(Stamp {
    at: 1,
    who: 0,
    count: 2,
    var: 0,
    write: true,
});

// Who is started has seen its start and all before it.
const GO: Call = Call::Step((None, &[(8, 0, 2)]));

static CALLS: [(Row, u64); 10] = [
    // The list of nine goroutines grows to four, to eight and to sixteen; the clock of the last has more
    // than the eight counts in place; channels, locks and onces are a list each.
    (Row(Call::New, b""), 7),
    // The count of a goroutine's own events is written out from the start.
    (Row(WRITE, b"write main x 7 p\nwrite main x 8 p\n"), 0),
    // Nothing was unlocked: main's clock stays as it is.
    (Row(NOTHING, b"write main x 7 p\nlock main m p\n"), 0),
    // A try costs no more, whatever it comes to.
    (Row(NOTHING, b"write main x 7 p\ntrylock main m p\n"), 0),
    (Row(NOTHING, b"write main x 7 p\ntryfail main m p\n"), 0),
    // The clocks of the mutex' unlocks, which are made at the first.
    (Row(NOTHING, b"lock main m p\nunlock main m p\n"), 1),
    // The queues of a channel, which are made at its first send, and room for one in that of sends.
    (Row(NOTHING, b"write main x 7 p\nsend main c 7 p\n"), 2),
    // The clock of the close.
    (Row(NOTHING, b"write main x 7 p\nclose main c p\n"), 1),
    // The clock of the end.
    (Row(NOTHING, b"oncebegin main o p\nonceend main o p\n"), 1),
    // The clock of the started one is worked out in a spare one, which has no ninth count yet.
    (Row(GO, b"write main x 7 p\ngo main w8 p\n"), 1),
];

#[test]
fn stamps(rt: HostRuntime) {
    assert_each(&rt, &CALLS);
}
