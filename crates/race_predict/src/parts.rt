//! Who takes part in an event, how often each has so far, and copies of an event.
ghost use Rattle.std.specs.Prelude.{◌≡◌, ◌<◌, length, IfSome};
ghost use Rattle.race_model.specs.Predict.{finding, told};
ghost use Rattle.race_predict.specs.Fronts.{one_more, counted};
ghost use Rattle.race_model.specs.Events as events;

use race_records::{Event, Op};
use std::alloc::Allocator;

/// The second participant: the goroutine that a `Go` starts, or the receiver of a `Meet`.
pub fn partner(op: &Op) -> Option<u32>
    ensures { result ≡ events.partner op.now }
{
    match op {
        Op::Go(goroutine) => Some(*goroutine),
        Op::Meet(receiver, _, _) => Some(*receiver),
        _ => None,
    }
}

fn add_one<A: Allocator>(counts: &mut Vec<u32, A>, goroutine: u32)
    requires { goroutine < length counts.old.items }
    ensures { counts.new.items ≡ one_more counts.old.items goroutine }
{
    counts[goroutine as usize] = counts[goroutine as usize].saturating_add(1);
}

/// Counts the event for each that takes part in it.
pub(crate) fn count_parts<A: Allocator>(counts: &mut Vec<u32, A>, event: &Event)
    requires who { event.now.who < length counts.old.items }
    requires partner { IfSome (events.partner event.now.op) (λ g. g < length counts.old.items) }
    ensures { counts.new.items ≡ counted counts.old.items event.now.who (events.partner event.now.op) }
{
    add_one(counts, event.who);
    if let Some(other) = partner(&event.op) {
        if other != event.who {
            add_one(counts, other);
        }
    }
}

fn copy_op(op: &Op) -> Op
    ensures { result ≡ op.now }
{
    match op {
        Op::Go(goroutine) => Op::Go(*goroutine),
        Op::Exit => Op::Exit,
        Op::Read(var, value) => Op::Read(*var, *value),
        Op::Write(var, value) => Op::Write(*var, *value),
        Op::Send(chan, value) => Op::Send(*chan, *value),
        Op::Recv(chan, value) => Op::Recv(*chan, *value),
        Op::Meet(receiver, chan, value) => Op::Meet(*receiver, *chan, *value),
        Op::RecvClosed(chan) => Op::RecvClosed(*chan),
        Op::Close(chan) => Op::Close(*chan),
        Op::Default(cases) => Op::Default(cases.copy()),
        Op::Lock(lock) => Op::Lock(*lock),
        Op::Unlock(lock) => Op::Unlock(*lock),
        Op::RLock(lock) => Op::RLock(*lock),
        Op::RUnlock(lock) => Op::RUnlock(*lock),
        Op::TryLock(lock) => Op::TryLock(*lock),
        Op::TryRLock(lock) => Op::TryRLock(*lock),
        Op::TryFail(lock) => Op::TryFail(*lock),
        Op::OnceBegin(once) => Op::OnceBegin(*once),
        Op::OnceEnd(once) => Op::OnceEnd(*once),
        Op::OnceDone(once) => Op::OnceDone(*once),
        Op::Fault(cause) => Op::Fault(*cause),
    }
}

fn told_op(op: &Op, value: u64) -> Op
    ensures { result ≡ finding value op.now }
{
    match op {
        Op::Read(var, _) => Op::Read(*var, value),
        _ => copy_op(op),
    }
}

/// An equal event.
pub(crate) fn copy(event: &Event) -> Event
    ensures { result ≡ event.now }
{
    Event {
        op: copy_op(&event.op),
        who: event.who,
        place: event.place,
        place2: event.place2,
    }
}

/// The event, where a read finds this value.
pub(crate) fn told(event: &Event, value: u64) -> Event
    ensures { result ≡ told value event.now }
{
    Event {
        op: told_op(&event.op, value),
        who: event.who,
        place: event.place,
        place2: event.place2,
    }
}
