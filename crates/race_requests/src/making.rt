//! Which event a waiting request makes alone, after the events so far.
ghost use Rattle.std.specs.{Prelude.{ℕ, ◌≡◌, ◌==◌, cond, Option, Some, None, IsTrue, IfSome}, List.list_all};
ghost use Rattle.race_records.specs.declared.event.Cause.TheVariants.{SendClosed, CloseClosed, UnlockFree, RUnlockFree};
ghost use Rattle.race_records.specs.declared.event.Op.TheVariants.{Send, Recv, RecvClosed, Close, Unlock, RUnlock};
ghost use Rattle.race_records.specs.declared.event.Op.TheVariants.{TryLock, TryRLock, TryFail, OnceBegin, OnceDone};
ghost use Rattle.race_records.specs.{declared.event.Op.TheVariants.Fault, Operands.{chan_is_in_range, op_is_in_range}};
ghost use Rattle.race_legal.specs.{ReplayState.counts_in, StandsFor.ForEachPast};
ghost use Rattle.race_requests.specs.Possible.{ask_is_in_range, offer_is_in_range};
ghost use Rattle.race_requests.specs.Choices as spec;

use crate::possible::is_default_branch;
use crate::{Ask, Offer, Offers, Waiter};
use race_legal::Replay;
use race_records::{Cause, Event, Kind, Op};
use std::alloc::Allocator;

// A send, which fails on a closed channel.
fn send_op(chan: u32, value: u64, closed: bool) -> Op
    ensures { result ≡ cond closed (Fault (SendClosed chan)) (Send chan value) }
{
    if closed {
        Op::Fault(Cause::SendClosed(chan))
    } else {
        Op::Send(chan, value)
    }
}

// A receive of the first value that waits.
fn recv_op(chan: u32, first: Option<u64>) -> Op
    ensures { result ≡ elim first [ Some v ↦ Recv chan v | None ↦ RecvClosed chan ] }
{
    match first {
        Some(value) => Op::Recv(chan, value),
        None => Op::RecvClosed(chan),
    }
}

// A close, which fails on a closed channel.
fn close_op(chan: u32, closed: bool) -> Op
    ensures { result ≡ cond closed (Fault (CloseClosed chan)) (Close chan) }
{
    if closed {
        Op::Fault(Cause::CloseClosed(chan))
    } else {
        Op::Close(chan)
    }
}

// An unlock, which fails where the lock isn't locked.
fn unlock_op(lock: u32, held: bool) -> Op
    ensures { result ≡ cond held (Unlock lock) (Fault (UnlockFree lock)) }
{
    if held {
        Op::Unlock(lock)
    } else {
        Op::Fault(Cause::UnlockFree(lock))
    }
}

// An unlock from reading, which fails where the lock isn't locked for reading.
fn runlock_op(lock: u32, read_held: bool) -> Op
    ensures { result ≡ cond read_held (RUnlock lock) (Fault (RUnlockFree lock)) }
{
    if read_held {
        Op::RUnlock(lock)
    } else {
        Op::Fault(Cause::RUnlockFree(lock))
    }
}

// The function of a once is begun, or found done.
fn do_op(once: u32, begun: bool) -> Op
    ensures { result ≡ cond begun (OnceDone once) (OnceBegin once) }
{
    if begun {
        Op::OnceDone(once)
    } else {
        Op::OnceBegin(once)
    }
}

// A try to lock, which takes the lock by its first branch.
fn try_op(lock: u32, branch: u32) -> Op
    ensures { result ≡ cond (branch == 0) (TryLock lock) (TryFail lock) }
{
    if branch == 0 {
        Op::TryLock(lock)
    } else {
        Op::TryFail(lock)
    }
}

// A try to lock for reading, which takes the lock by its first branch.
fn tryr_op(lock: u32, branch: u32) -> Op
    ensures { result ≡ cond (branch == 0) (TryRLock lock) (TryFail lock) }
{
    if branch == 0 {
        Op::TryRLock(lock)
    } else {
        Op::TryFail(lock)
    }
}

// A send on the channel; on nil there is none.
fn lone_send<A: Allocator>(replay: &Replay<A>, chan: Option<u32>, value: u64) -> Option<Op>
    requires { IsTrue (chan_is_in_range (counts_in replay.now Kind.Chan) chan) }
    ensures op { ForEachPast replay.now (λ past. (branch : ℕ) → result ≡ spec.op_of past (Ask.Send chan value) branch) }
    ensures range { IfSome result (λ op. IsTrue (op_is_in_range (counts_in replay.now) op)) }
{
    let Some(chan) = chan else {
        return None;
    };
    Some(send_op(chan, value, replay.is_closed(chan)))
}

// A receive from the channel; on nil there is none.
fn lone_recv<A: Allocator>(replay: &Replay<A>, chan: Option<u32>) -> Option<Op>
    requires { IsTrue (chan_is_in_range (counts_in replay.now Kind.Chan) chan) }
    ensures op { ForEachPast replay.now (λ past. (branch : ℕ) → result ≡ spec.op_of past (Ask.Recv chan) branch) }
    ensures range { IfSome result (λ op. IsTrue (op_is_in_range (counts_in replay.now) op)) }
{
    let Some(chan) = chan else {
        return None;
    };
    Some(recv_op(chan, replay.front(chan)))
}

// A close of the channel, which fails on nil.
fn lone_close<A: Allocator>(replay: &Replay<A>, chan: Option<u32>) -> Option<Op>
    requires { IsTrue (chan_is_in_range (counts_in replay.now Kind.Chan) chan) }
    ensures op { ForEachPast replay.now (λ past. (branch : ℕ) → result ≡ spec.op_of past (Ask.Close chan) branch) }
    ensures range { IfSome result (λ op. IsTrue (op_is_in_range (counts_in replay.now) op)) }
{
    let Some(chan) = chan else {
        return Some(Op::Fault(Cause::CloseNil));
    };
    Some(close_op(chan, replay.is_closed(chan)))
}

// What a select does alone by its branch of this number.
fn lone_select<A: Allocator>(
    replay: &Replay<A>,
    offers: &Offers,
    has_default: bool,
    branch: u32,
) -> Option<Op>
    requires { IsTrue (list_all (offer_is_in_range (counts_in replay.now Kind.Chan)) offers.now) }
    ensures op { ForEachPast replay.now (λ past. result ≡ spec.op_of past (Ask.Select offers.now has_default) branch) }
    ensures range { IfSome result (λ op. IsTrue (op_is_in_range (counts_in replay.now) op)) }
{
    if is_default_branch(offers, has_default, branch) {
        return Some(Op::Default(offers.cases()));
    }
    let at = branch as usize;
    if at >= offers.len() {
        return None;
    }
    match offers.get(at) {
        Offer::Send(chan, value) => lone_send(replay, chan, value),
        Offer::Recv(chan) => lone_recv(replay, chan),
    }
}

// What the ask does alone by its branch of this number.
pub(crate) fn lone_op<A: Allocator>(replay: &Replay<A>, ask: &Ask, branch: u32) -> Option<Op>
    requires { IsTrue (ask_is_in_range (counts_in replay.now) ask.now) }
    ensures op { ForEachPast replay.now (λ past. result ≡ spec.op_of past ask.now branch) }
    ensures range { IfSome result (λ op. IsTrue (op_is_in_range (counts_in replay.now) op)) }
{
    match ask {
        Ask::Go(goroutine) => Some(Op::Go(*goroutine)),
        Ask::Exit => Some(Op::Exit),
        Ask::Read(var) => Some(Op::Read(*var, replay.last_value(*var))),
        Ask::Write(var, value) => Some(Op::Write(*var, *value)),
        Ask::Send(chan, value) => lone_send(replay, *chan, *value),
        Ask::Recv(chan) => lone_recv(replay, *chan),
        Ask::Close(chan) => lone_close(replay, *chan),
        Ask::Select(offers, has_default) => lone_select(replay, offers, *has_default, branch),
        Ask::Lock(lock) => Some(Op::Lock(*lock)),
        Ask::Unlock(lock) => Some(unlock_op(*lock, replay.is_held(*lock))),
        Ask::RLock(lock) => Some(Op::RLock(*lock)),
        Ask::RUnlock(lock) => Some(runlock_op(*lock, replay.is_read_held(*lock))),
        Ask::TryLock(lock) => Some(try_op(*lock, branch)),
        Ask::TryRLock(lock) => Some(tryr_op(*lock, branch)),
        Ask::Do(once) => Some(do_op(*once, replay.is_begun(*once))),
        Ask::EndDo(once) => Some(Op::OnceEnd(*once)),
    }
}

// The event in which the request does that alone.
pub(crate) fn event_alone(waiter: &Waiter, op: Op) -> Event
    ensures { result ≡ record { who = waiter.now.who; op = op; place = waiter.now.asked.place; place2 = None } }
{
    Event {
        op,
        who: waiter.who,
        place: waiter.asked.place,
        place2: None,
    }
}

/// The event that the waiting request makes alone by its branch of this number, if it can make one. Only of a select and of
/// a try the number is looked at: other requests have one branch.
pub fn lone_event<A: Allocator>(replay: &Replay<A>, waiter: &Waiter, branch: u32) -> Option<Event>
    requires { IsTrue (ask_is_in_range (counts_in replay.now) waiter.now.asked.ask) }
    ensures { ForEachPast replay.now (λ past. result ≡ spec.lone_event past waiter.now branch) }
{
    match lone_op(replay, &waiter.asked.ask, branch) {
        Some(op) => Some(event_alone(waiter, op)),
        None => None,
    }
}
