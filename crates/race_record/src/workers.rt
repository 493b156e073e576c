//! A recording on several threads.
ghost use Rattle.std.specs.Prelude.{◌≡◌, ◌≢◌, ◌↔◌, length, false, Some, Err, IfOk, IfErr, IsTrue};
ghost use Rattle.race_records.specs.Equality.{declared};
ghost use Rattle.race_record.specs.Recorded as spec;
ghost use Rattle.race_record.specs.Recorded.{IsRecordingOf};

use crate::RecordFault;
use crate::finished::finished;
use crate::shared::{Shared, Stop, Turn, let_go_on};
use race_hub::{Hub, Job, Recording, Routine};
use race_records::Decls;
use std::alloc::Allocator;
use std::sync::{Condvar, Mutex, Wait};
use std::thread;
use std::thread::Threads;

/// How many workers there may be at most.
pub const MAX_WORKERS: usize = 16;

// A definition cites this number, so it is written down twice.
const _: () = prove!(MAX_WORKERS == 16);

/// Runs the hub to its end on so many threads: each takes the goroutine that has been ready longest and lets it go on up to
/// its next request, which it puts back; where nobody is ready the choice of the next pick happens. The picks are those of the
/// seed, and each event uses up one.
///
/// Each take, each firing and each putting back happens under one lock, and a goroutine goes on with no lock held. Nothing is
/// known of what comes out of a lock but its type, so it isn't said which recording comes, nor that its trace begins with the
/// hub's, that the routines asked what it says that they asked, or that a mismatch has its cause.
///
/// No job of the hub is out when it starts.
pub fn record<T: Threads + Wait + Sync, R: Routine, A: Allocator + Copy + Send>(
    rt: &T,
    hub: Hub<R, A>,
    workers: usize,
    seed: u64,
) -> Result<Recording<A>, RecordFault>
    requires back { length hub.out ≡ 0 }
    ensures workers { (result ≡ Err RecordFault.BadWorkers) ↔ (spec.are_workers workers ≡ false) }
    ensures recording { IfOk result (λ recording. IsRecordingOf hub recording) }
{
    if !are_workers(workers) {
        return Err(RecordFault::BadWorkers);
    }
    match recorded(rt, hub, workers, seed) {
        Ok(recording) => Ok(recording),
        Err(fault) => Err(told(fault)),
    }
}

// Whether there may be so many workers.
fn are_workers(workers: usize) -> bool
    ensures { result ≡ spec.are_workers workers }
{
    1 <= workers && workers <= MAX_WORKERS
}

// Why so many workers recorded nothing.
#[derive(Clone, Copy)]
enum Fault {
    NoThread,
    OutOfMemory,
    Mismatch,
}

// The fault as a caller of `record` is told it.
fn told(fault: Fault) -> RecordFault
    ensures no_thread { (result ≡ RecordFault.NoThread) ↔ (fault ≡ Fault.NoThread) }
    ensures memory { (result ≡ RecordFault.OutOfMemory) ↔ (fault ≡ Fault.OutOfMemory) }
    ensures workers { result ≢ RecordFault.BadWorkers }
{
    match fault {
        Fault::NoThread => RecordFault::NoThread,
        Fault::OutOfMemory => RecordFault::OutOfMemory,
        Fault::Mismatch => RecordFault::Mismatch,
    }
}

// Runs the hub to its end on so many threads, of which there is one at least.
fn recorded<T: Threads + Wait + Sync, R: Routine, A: Allocator + Copy + Send>(
    rt: &T,
    hub: Hub<R, A>,
    workers: usize,
    seed: u64,
) -> Result<Recording<A>, Fault>
    ensures { IfOk result (λ recording. IsRecordingOf hub recording) }
{
    // Of what comes out of a lock nothing is known but its type. So what is declared, and the limit, are kept before it.
    let Ok(decls) = hub.trace().decls().copy() else {
        return Err(Fault::OutOfMemory);
    };
    let limit = hub.limit();
    let (hub, stop) = run_to_end(rt, Shared::new(hub, seed), workers);
    left(hub, stop, &decls, limit)
}

// What the workers have left: the recording of a hub with these declarations and this limit, or why there is none.
fn left<R: Drop, A: Allocator>(
    hub: Hub<R, A>,
    stop: Option<Stop>,
    decls: &Decls<A>,
    limit: u32,
) -> Result<Recording<A>, Fault>
    ensures recording { IfOk result (λ recording. IsRecordingOf hub recording) }
    ensures declared { IfOk result (λ _. declared hub.decls ≡ declared decls.now) }
    ensures limit { IfOk result (λ _. hub.limit ≡ limit) }
    ensures no_thread { (result ≡ Err Fault.NoThread) ↔ (stop ≡ Some Stop.NoThread) }
    ensures memory { (result ≡ Err Fault.OutOfMemory) ↔ (stop ≡ Some Stop.OutOfMemory) }
    ensures why { result ≡ Err Fault.Mismatch → declared hub.decls ≡ declared decls.now → hub.limit ≡ limit
        → spec.HasMismatch hub }
{
    match stop {
        Some(Stop::NoThread) => Err(Fault::NoThread),
        Some(Stop::OutOfMemory) => Err(Fault::OutOfMemory),
        // A hub with a job that is out gives no recording.
        Some(Stop::Stray) => given(hub, decls, limit),
        None => given(hub, decls, limit),
    }
}

// The recording of a hub with these declarations and this limit.
fn given<R: Drop, A: Allocator>(
    hub: Hub<R, A>,
    decls: &Decls<A>,
    limit: u32,
) -> Result<Recording<A>, Fault>
    ensures recording { IfOk result (λ recording. IsRecordingOf hub recording) }
    ensures declared { IfOk result (λ _. declared hub.decls ≡ declared decls.now) }
    ensures limit { IfOk result (λ _. hub.limit ≡ limit) }
    ensures fault { IfErr result (λ fault. fault ≡ Fault.Mismatch) }
    ensures why { IfErr result (λ _. declared hub.decls ≡ declared decls.now → hub.limit ≡ limit → spec.HasMismatch hub) }
{
    if !is_same(&hub, decls, limit) {
        return Err(Fault::Mismatch);
    }
    match finished(hub) {
        Ok(recording) => Ok(recording),
        Err(_) => Err(Fault::Mismatch),
    }
}

// Whether the hub has the same version, declares the same, in the same order, and has this limit.
fn is_same<R, A: Allocator>(hub: &Hub<R, A>, decls: &Decls<A>, limit: u32) -> bool
    ensures declared { IsTrue result → declared hub.now.decls ≡ declared decls.now }
    ensures limit { IsTrue result → hub.now.limit ≡ limit }
    ensures same { declared hub.now.decls ≡ declared decls.now → hub.now.limit ≡ limit → IsTrue result }
{
    hub.trace().decls() == decls && hub.limit() == limit
}

// The hub, once all workers have left.
fn run_to_end<T: Threads + Wait + Sync, R: Routine, A: Allocator + Copy + Send>(
    rt: &T,
    shared: Shared<R, A>,
    workers: usize,
) -> (Hub<R, A>, Option<Stop>) {
    let shared = Mutex::new(shared);
    let moved = Condvar::new();
    work_all(rt, &shared, &moved, workers);
    shared.into_inner().into_parts()
}

// The workers, of whom the caller is one; returns when all have left.
fn work_all<T: Threads + Wait + Sync, R: Routine, A: Allocator + Copy + Send>(
    rt: &T,
    shared: &Mutex<Shared<R, A>>,
    moved: &Condvar,
    workers: usize,
) {
    thread::scope(thread::scope_env(), rt, |scope| {
        for _ in 1..workers {
            if scope.spawn(move || work(rt, shared, moved)).is_err() {
                shared.lock(rt).leave_for(Stop::NoThread);
                break;
            }
        }
        work(rt, shared, moved);
    });
}

// One worker: takes, lets go on, puts back and fires, until the hub has ended or all are to leave.
//
// Who waits is woken where a second goroutine is ready, and at the end. That is enough: who is awake either has a job, with
// which it comes again, or looks itself what is to be done.
fn work<T: Wait, R: Routine, A: Allocator + Copy>(
    rt: &T,
    shared: &Mutex<Shared<R, A>>,
    moved: &Condvar,
) {
    for _ in rt.forever() {
        let mut guard = shared.lock(rt);
        match guard.step() {
            Turn::Run(job) => {
                drop(guard);
                go_on(rt, shared, job);
            }
            Turn::Fired(two) => {
                drop(guard);
                if two {
                    moved.notify_one();
                }
            }
            Turn::Wait => {
                let guard = moved.wait(rt, guard);
                drop(guard);
            }
            Turn::Leave => {
                drop(guard);
                moved.notify_all();
                break;
            }
        }
    }
}

// Lets the goroutine go on up to its next request, with no lock held, and puts it back.
fn go_on<T: Wait, R: Routine, A: Allocator + Copy>(
    rt: &T,
    shared: &Mutex<Shared<R, A>>,
    job: Job<R, A>,
) {
    let turned = let_go_on(job);
    shared.lock(rt).settle(turned);
}
