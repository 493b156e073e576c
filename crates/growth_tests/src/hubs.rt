//! The calls of a hub.
ghost use Rattle.std.specs.Prelude.{◌<◌};

use crate::calls::{Growing, Reply, assert_each, refused_if, right_if};
use crate::played::Move::{Ask, Fire, Step};
use crate::played::Plain::{Do, Go, Recv, Send, TryLock, Write};
use crate::played::{
    Asks, Plain, Script, are_alike, are_jobs_alike, asked, declared, played, routines,
};
use race_hub::{Hub, HubFault, Job, SubmitFault};
use race_records::{Decls, Op};
use refusing_heap::RefusingHeap;
use std::alloc::{Allocator, Global};
use std::sync::Wait;
use std::thread::Threads;

/// The event of a firing.
#[derive(Clone, Copy)]
enum Happening {
    Write,
    Send,
    OnceBegin,
    TryLock,
    Meet,
}

/// A call of a hub that was played so far.
#[derive(Clone, Copy)]
enum Call {
    New,
    Submit,
    Fire(Happening),
}

const STARTS: &[Plain] = &[Go(1), Go(2), Go(3), Go(4)];

const QUIET: Script = Script(&[], &[], &[]);

// Main starts w1, and one of them waits.
const ONE_WAITS: Script = Script(STARTS, &[], &[Step, Ask]);

// Main starts all, and all but w4 wait.
const FOUR_WAIT: Script = Script(
    STARTS,
    &[],
    &[Step, Step, Ask, Ask, Fire(1), Ask, Ask, Fire(2), Ask, Ask],
);

const MAIN_WRITES: Script = Script(&[], &[], &[Ask]);

const MAIN_SENDS: Script = Script(&[Send(0, 7)], &[], &[Ask]);

const MAIN_TRIES: Script = Script(&[TryLock(0)], &[], &[Ask]);

const MAIN_BEGINS: Script = Script(&[Do(0)], &[], &[Ask]);

// Main writes twice and starts w1 and w2, and w1 asks. Two are ready, and the event is the fifth.
const FIFTH: Script = Script(
    &[Write(0, 1), Write(0, 2), Go(1), Go(2)],
    &[],
    &[Step, Step, Step, Step, Ask],
);

// Main writes three times and starts w1, and both ask. Sender and receiver wait, and the event is the fifth.
const MEET: Script = Script(
    &[Write(0, 1), Write(0, 2), Write(0, 3), Go(1), Send(1, 7)],
    &[Recv(Some(1))],
    &[Step, Step, Step, Step, Ask, Ask],
);

// The first state has no event, and main is the one that is ready.
fn is_first<A: Allocator + Copy>(hub: &mut Hub<Asks, A>) -> bool {
    let is_unplayed = hub.trace().is_empty() && hub.end() == None && hub.out() == 0;
    let ready = match hub.take() {
        Some(job) => Some(job.who()),
        None => None,
    };
    is_unplayed && ready == Some(0) && hub.out() == 1
}

fn new<A: Allocator + Copy>(heap: A, decls: Decls<A>, routines: Vec<Asks, A>) -> Reply {
    match Hub::new(heap, decls, 64, routines) {
        Ok(mut hub) => right_if(is_first(&mut hub)),
        Err(fault) => refused_if(fault == HubFault::OutOfMemory),
    }
}

// A growth is refused in the call.
fn made(heap: &RefusingHeap<Global>, script: Script, nth: u64) -> Reply
    requires { 0 < nth }
{
    match (declared(heap), routines(heap, script)) {
        (Some(decls), Some(routines)) => {
            heap.refuse(nth);
            new(heap, decls, routines)
        }
        _ => Reply::Wrong,
    }
}

// Whether what the one job that was out asks waits, and no event was made.
fn waits<A: Allocator>(hub: &Hub<Asks, A>, twin: &Hub<Asks, A>, twin_job: &Job<Asks, A>) -> bool {
    let is_back = hub.out() == 0 && twin.out() == 1 && hub.trace() == twin.trace();
    match (hub.waiting(twin_job.who()), twin_job.asked()) {
        (Some(waiting), Some(asked)) => is_back && *waiting == asked,
        _ => false,
    }
}

// Puts back the job that came back: it is whole, so that it waits then.
fn put_again<A: Allocator>(
    hub: &mut Hub<Asks, A>,
    job: Job<Asks, A>,
    twin: &Hub<Asks, A>,
    twin_job: &Job<Asks, A>,
) -> bool {
    let is_as_before = are_alike(hub, twin) && are_jobs_alike(&job, twin_job);
    let is_put_back = hub.submit(job).is_ok();
    is_as_before && is_put_back && waits(hub, twin, twin_job)
}

fn put_back<A: Allocator>(
    hub: &mut Hub<Asks, A>,
    job: Job<Asks, A>,
    twin: &Hub<Asks, A>,
    twin_job: &Job<Asks, A>,
) -> Reply {
    match hub.submit(job) {
        Ok(()) => right_if(waits(hub, twin, twin_job)),
        Err(SubmitFault::OutOfMemory(job)) => refused_if(put_again(hub, job, twin, twin_job)),
        Err(_) => Reply::Wrong,
    }
}

// A growth is refused where a job is put back.
fn submitted<'a>(
    heap: &'a RefusingHeap<Global>,
    nth: u64,
    hub: &mut Hub<Asks, &'a RefusingHeap<Global>>,
    twin: &mut Hub<Asks, &'a RefusingHeap<Global>>,
) -> Reply
    requires { 0 < nth }
{
    match (asked(hub), asked(twin)) {
        (Some(job), Some(twin_job)) => {
            heap.refuse(nth);
            put_back(hub, job, twin, &twin_job)
        }
        _ => Reply::Wrong,
    }
}

// What happens in the event.
fn op_of(happening: Happening) -> Op {
    match happening {
        Happening::Write => Op::Write(0, 1),
        Happening::Send => Op::Send(0, 7),
        Happening::OnceBegin => Op::OnceBegin(0),
        Happening::TryLock => Op::TryLock(0),
        Happening::Meet => Op::Meet(1, 1, 7),
    }
}

// Whether there is one event more, and it is this.
fn has_happened<A: Allocator>(hub: &Hub<Asks, A>, twin: &Hub<Asks, A>, op: &Op) -> bool {
    let at = twin.trace().len();
    hub.trace().len() == at.saturating_add(1) && hub.trace().event(at).op == *op
}

// A firing that is refused has done nothing, so that the choice is there still.
fn fire<A: Allocator + Copy>(hub: &mut Hub<Asks, A>, twin: &Hub<Asks, A>, op: &Op) -> Reply {
    match hub.fire(0) {
        Ok(is_fired) => right_if(is_fired && has_happened(hub, twin, op)),
        Err(_) => refused_if(
            are_alike(hub, twin) && hub.fire(0) == Ok(true) && has_happened(hub, twin, op),
        ),
    }
}

/// A call behind what was played.
#[derive(Clone, Copy)]
struct Row(Call, Script);

impl Row {
    fn beside_a_twin(self, heap: &RefusingHeap<Global>, nth: u64) -> Reply
        requires { 0 < nth }
    {
        let Row(call, script) = self;
        match (played(heap, script), played(heap, script)) {
            (Some(mut hub), Some(mut twin)) => match call {
                Call::Fire(happening) => {
                    heap.refuse(nth);
                    fire(&mut hub, &twin, &op_of(happening))
                }
                _ => submitted(heap, nth, &mut hub, &mut twin),
            },
            _ => Reply::Wrong,
        }
    }
}

impl Growing for Row {
    fn reply<T: Threads + Wait + Sync>(
        self,
        _rt: &T,
        heap: &RefusingHeap<Global>,
        nth: u64,
    ) -> Reply {
        match self {
            Row(Call::New, script) => made(heap, script, nth),
            _ => self.beside_a_twin(heap, nth),
        }
    }
}

static CALLS: [(Row, u64); 10] = [
    // The replay's lists, the five routines and their logs in lists that grow twice, who is ready and
    // who is out.
    (Row(Call::New, QUIET), 17),
    // The requests: nobody waits, one does, four do.
    (Row(Call::Submit, QUIET), 1),
    (Row(Call::Submit, ONE_WAITS), 0),
    (Row(Call::Submit, FOUR_WAIT), 1),
    // The trace.
    (Row(Call::Fire(Happening::Write), MAIN_WRITES), 1),
    (Row(Call::Fire(Happening::TryLock), MAIN_TRIES), 1),
    // The channel's queue too, and the goroutine's onces.
    (Row(Call::Fire(Happening::Send), MAIN_SENDS), 2),
    (Row(Call::Fire(Happening::OnceBegin), MAIN_BEGINS), 2),
    // Who is ready and who is out, and the trace.
    (Row(Call::Fire(Happening::Write), FIFTH), 3),
    // The trace.
    (Row(Call::Fire(Happening::Meet), MEET), 1),
];

#[test]
fn hubs(rt: HostRuntime) {
    assert_each(&rt, &CALLS);
}
