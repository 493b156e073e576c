//! What each operation brings to the order. The list of edges and the judge go by these tests, so
//! that an operation has its arms here, and in numbers where it is matched by its number.
ghost use Rattle.std.specs.{Prelude.{◌≡◌, ◌<◌, length}, List.slice_index_or};
ghost use Rattle.race_model.specs.Synchronized.{joins};
ghost use Rattle.race_edges.specs.Numbers.{AreNumbers};
ghost use Rattle.race_verdict.specs.Traces.{capacities};
ghost use Rattle.race_model.specs.Events as model;
ghost use Rattle.race_edges.specs.Synchronized as spec;

use crate::kinds::{is_close, is_once_end, is_receive, is_runlock, is_send, is_unlock};
use crate::numbers::Numbers;
use race_records::{Op, Trace};
use std::alloc::Allocator;

/// The second participant.
pub(crate) fn partner(op: &Op) -> Option<u32>
    ensures { result ≡ model.partner op.now }
{
    match op {
        Op::Go(goroutine) => Some(*goroutine),
        Op::Meet(receiver, _, _) => Some(*receiver),
        _ => None,
    }
}

/// Whether inside an event of `who` the start of `from` is synchronized before the end of `to`.
pub(crate) fn joins(who: u32, op: &Op, from: u32, to: u32) -> bool
    ensures { result ≡ joins who op.now from to }
{
    match op {
        // A go statement before the start of the new goroutine.
        Op::Go(goroutine) => who == from && *goroutine == to,
        // A send before the completion of the receive, and the receive before that of the send.
        Op::Meet(receiver, _, _) => {
            (who == from && *receiver == to) || (*receiver == from && who == to)
        }
        _ => false,
    }
}

/// Whether an event of the operation can be synchronized before a later one.
pub(crate) fn can_be_source(op: &Op) -> bool
    ensures { result ≡ spec.can_be_source op.now }
{
    matches!(
        op,
        Op::Send(_, _)
            | Op::Recv(_, _)
            | Op::Close(_)
            | Op::Unlock(_)
            | Op::RUnlock(_)
            | Op::OnceEnd(_)
    )
}

/// Whether the event at `from` is synchronized before the completion of the event at `to`. The
/// numbers are those of the trace.
pub(crate) fn is_source<A: Allocator, B: Allocator>(
    trace: &Trace<B>,
    numbers: &Numbers<A>,
    from: usize,
    to: usize,
) -> bool
    requires earlier { from < to }
    requires within { to < length trace.now.events }
    requires numbers { AreNumbers trace.now.events numbers.now }
    ensures { result ≡ spec.source_at (capacities trace.now) trace.now.events from to }
{
    let source = trace.event(from);
    let target = trace.event(to);
    match &target.op {
        // The kth receive from a channel before the completion of the send numbered k plus the
        // capacity.
        Op::Send(chan, _) => {
            is_receive(*chan, &source.op)
                && numbers.get(from) as u64 + trace.decls().capacity(*chan) as u64
                    == numbers.get(to) as u64
        }
        // The kth send before the completion of the kth receive.
        Op::Recv(chan, _) => { is_send(*chan, &source.op) && numbers.get(from) == numbers.get(to) }
        // The closing of a channel before each receive that finds it closed.
        Op::RecvClosed(chan) => is_close(*chan, &source.op),
        Op::Lock(lock) => is_before_lock(*lock, &source.op, numbers, from, to),
        Op::TryLock(lock) => is_before_lock(*lock, &source.op, numbers, from, to),
        Op::RLock(lock) => is_last_unlock(*lock, &source.op, numbers, from, to),
        Op::TryRLock(lock) => is_last_unlock(*lock, &source.op, numbers, from, to),
        // The end of a once's function before each return that finds it ended.
        Op::OnceDone(once) => is_once_end(*once, &source.op),
        _ => false,
    }
}

// Each unlock before each later lock, and each unlock from reading before the next lock.
fn is_before_lock<A: Allocator>(
    lock: u32,
    source: &Op,
    numbers: &Numbers<A>,
    from: usize,
    to: usize,
) -> bool
    requires from { from < length numbers.now }
    requires to { to < length numbers.now }
    ensures { result ≡ spec.is_before_lock lock source.now (slice_index_or numbers.now from 0)
        (slice_index_or numbers.now to 0) }
{
    is_unlock(lock, source) || (is_runlock(lock, source) && numbers.get(from) == numbers.get(to))
}

// The last unlock before a lock for reading.
fn is_last_unlock<A: Allocator>(
    lock: u32,
    source: &Op,
    numbers: &Numbers<A>,
    from: usize,
    to: usize,
) -> bool
    requires from { from < length numbers.now }
    requires to { to < length numbers.now }
    ensures { result ≡ spec.is_last_unlock lock source.now (slice_index_or numbers.now from 0)
        (slice_index_or numbers.now to 0) }
{
    is_unlock(lock, source) && numbers.get(from) as u64 + 1 == numbers.get(to) as u64
}
