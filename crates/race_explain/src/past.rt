//! Which events before or after another do something.

use race_records::{Event, Op, Trace};
use std::alloc::Allocator;

/// What is looked for among events.
#[derive(Clone, Copy, PartialEq, Eq)]
pub(crate) enum Deed {
    /// The goroutine of this number is started.
    Starts(u32),
    /// The goroutine exits.
    Exits(u32),
    /// The run ends.
    EndsRun,
    /// The variable of this number is written.
    Writes(u32),
    /// This value is written to it.
    WritesValue(u32, u64),
    /// A value is sent on the buffered channel of this number.
    Sends(u32),
    /// This value is sent on it.
    SendsValue(u32, u64),
    /// A value is received from it.
    Receives(u32),
    /// This value is received from it.
    ReceivesValue(u32, u64),
    /// The channel is closed.
    Closes(u32),
    /// The lock of this number is locked.
    Locks(u32),
    /// The lock is unlocked.
    Unlocks(u32),
    /// The lock is locked for reading.
    ReadLocks(u32),
    /// The lock is unlocked from reading.
    ReadUnlocks(u32),
    /// The function of the once of this number begins.
    Begins(u32),
    /// It ends.
    Ends(u32),
    /// The lock of this number is locked or unlocked in any way, or a try of it fails.
    Uses(u32),
    /// Anything is done.
    Acts,
}

/// Whether the event does so.
pub(crate) fn does(event: &Event, deed: Deed) -> bool {
    match deed {
        Deed::Uses(lock) => uses(event, lock),
        Deed::Acts => true,
        _ => does_only(event, deed),
    }
}

fn uses(event: &Event, lock: u32) -> bool {
    match event.op {
        Op::Lock(used) => used == lock,
        Op::Unlock(used) => used == lock,
        Op::RLock(used) => used == lock,
        Op::RUnlock(used) => used == lock,
        Op::TryLock(used) => used == lock,
        Op::TryRLock(used) => used == lock,
        Op::TryFail(used) => used == lock,
        _ => false,
    }
}

fn does_only(event: &Event, deed: Deed) -> bool {
    match &event.op {
        Op::Go(goroutine) => deed == Deed::Starts(*goroutine),
        Op::Exit => { deed == Deed::Exits(event.who) || event.who == 0 && deed == Deed::EndsRun }
        Op::Fault(_) => deed == Deed::EndsRun,
        Op::Write(var, value) => {
            deed == Deed::Writes(*var) || deed == Deed::WritesValue(*var, *value)
        }
        Op::Send(chan, value) => {
            deed == Deed::Sends(*chan) || deed == Deed::SendsValue(*chan, *value)
        }
        Op::Recv(chan, value) => {
            deed == Deed::Receives(*chan) || deed == Deed::ReceivesValue(*chan, *value)
        }
        Op::Close(chan) => deed == Deed::Closes(*chan),
        Op::Lock(lock) => deed == Deed::Locks(*lock),
        Op::TryLock(lock) => deed == Deed::Locks(*lock),
        Op::Unlock(lock) => deed == Deed::Unlocks(*lock),
        Op::RLock(lock) => deed == Deed::ReadLocks(*lock),
        Op::TryRLock(lock) => deed == Deed::ReadLocks(*lock),
        Op::RUnlock(lock) => deed == Deed::ReadUnlocks(*lock),
        Op::OnceBegin(once) => deed == Deed::Begins(*once),
        Op::OnceEnd(once) => deed == Deed::Ends(*once),
        // Nobody looks for the others.
        Op::Read(_, _) => false,
        Op::Meet(_, _, _) => false,
        Op::RecvClosed(_) => false,
        Op::Default(_) => false,
        Op::TryFail(_) => false,
        Op::OnceDone(_) => false,
    }
}

/// The last event before this index that does so.
pub(crate) fn last_before<A: Allocator>(trace: &Trace<A>, before: u32, deed: Deed) -> Option<u32> {
    let mut found = None;
    let mut at = 0;
    for event in trace.events() {
        if at >= before {
            return found;
        }
        if does(event, deed) {
            found = Some(at);
        }
        at = at.saturating_add(1);
    }
    found
}

/// The event before this index that does so as the one of this number, counted from 0.
pub(crate) fn nth_before<A: Allocator>(
    trace: &Trace<A>,
    before: u32,
    deed: Deed,
    number: u32,
) -> Option<u32> {
    let mut left = number;
    let mut at = 0;
    for event in trace.events() {
        if at >= before {
            return None;
        }
        if does(event, deed) {
            if left == 0 {
                return Some(at);
            }
            left -= 1;
        }
        at = at.saturating_add(1);
    }
    None
}

/// How many events before this index do so.
pub(crate) fn count_before<A: Allocator>(trace: &Trace<A>, before: u32, deed: Deed) -> u32 {
    let mut count = 0u32;
    let mut at = 0;
    for event in trace.events() {
        if at >= before {
            return count;
        }
        if does(event, deed) {
            count = count.saturating_add(1);
        }
        at = at.saturating_add(1);
    }
    count
}

/// The first event after this index that does so.
pub(crate) fn first_after<A: Allocator>(trace: &Trace<A>, after: u32, deed: Deed) -> Option<u32> {
    let mut at = 0;
    for event in trace.events() {
        if at > after && does(event, deed) {
            return Some(at);
        }
        at = at.saturating_add(1);
    }
    None
}

/// The last event that does so before the one at this index, and by the same goroutine.
pub(crate) fn last_own<A: Allocator>(trace: &Trace<A>, before: u32, deed: Deed) -> Option<u32> {
    let who = trace.events().get(before as usize)?.who;
    let mut found = None;
    let mut at = 0;
    for event in trace.events() {
        if at < before && event.who == who && does(event, deed) {
            found = Some(at);
        }
        at = at.saturating_add(1u32);
    }
    found
}

/// The first event that does so after the one at this index, and by the same goroutine.
pub(crate) fn first_own<A: Allocator>(trace: &Trace<A>, after: u32, deed: Deed) -> Option<u32> {
    let who = trace.events().get(after as usize)?.who;
    let mut at = 0;
    for event in trace.events() {
        if at > after && event.who == who && does(event, deed) {
            return Some(at);
        }
        at = at.saturating_add(1);
    }
    None
}

/// Whether the goroutine runs before the event at this index.
pub(crate) fn runs_before<A: Allocator>(trace: &Trace<A>, before: u32, goroutine: u32) -> bool {
    let is_started = goroutine == 0
        || last_before(trace, before, Deed::Starts(goroutine)).is_some();
    is_started && last_before(trace, before, Deed::Exits(goroutine)).is_none()
}

/// Whether the lock is locked before the event at this index, in a trace that is legal up to there.
pub(crate) fn is_locked<A: Allocator>(trace: &Trace<A>, before: u32, lock: u32) -> bool {
    count_before(trace, before, Deed::Locks(lock))
        > count_before(trace, before, Deed::Unlocks(lock))
}

/// How many goroutines hold the lock for reading there.
pub(crate) fn readers<A: Allocator>(trace: &Trace<A>, before: u32, lock: u32) -> u32 {
    let locked = count_before(trace, before, Deed::ReadLocks(lock));
    locked.saturating_sub(count_before(trace, before, Deed::ReadUnlocks(lock)))
}

/// How many values wait in the channel's buffer there.
pub(crate) fn waiting<A: Allocator>(trace: &Trace<A>, before: u32, chan: u32) -> u32 {
    let sent = count_before(trace, before, Deed::Sends(chan));
    sent.saturating_sub(count_before(trace, before, Deed::Receives(chan)))
}

/// The send of the value that waits longest there.
pub(crate) fn front<A: Allocator>(trace: &Trace<A>, before: u32, chan: u32) -> Option<u32> {
    let received = count_before(trace, before, Deed::Receives(chan));
    nth_before(trace, before, Deed::Sends(chan), received)
}
