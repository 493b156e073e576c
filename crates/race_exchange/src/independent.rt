//! Which neighbouring events may change places, and where two that may have the greater goroutine first.
ghost use Rattle.std.specs.Prelude.{◌≡◌, MatchOption};
ghost use Rattle.race_model.specs.Events.{partner, takes_part};
ghost use Rattle.race_exchange.specs.Independent.{thing_of, collide, share_goroutine, stays};
ghost use Rattle.race_exchange.specs.Independent.{are_independent, are_turned};
ghost use Rattle.race_exchange.specs.Exchange.{IsInOrder, IsFirstTurned};

use race_records::{Event, Op};

// What an operation is on.
#[derive(Clone, Copy, PartialEq, Eq)]
pub(crate) enum Thing {
    // The variable of this number.
    OfVariable(u32),
    // The channel of this number.
    OfChannel(u32),
    // The mutex or rwmutex of this number.
    OfLock(u32),
    // The once of this number.
    OfOnce(u32),
}

// The thing that the operation is on, if it is on one.
fn thing_of(op: &Op) -> Option<Thing>
    ensures { result ≡ thing_of op.now }
{
    match op {
        Op::Read(x, _) | Op::Write(x, _) => Some(Thing::OfVariable(*x)),
        Op::Send(c, _) | Op::Recv(c, _) | Op::Meet(_, c, _) | Op::RecvClosed(c) | Op::Close(c) => {
            Some(Thing::OfChannel(*c))
        }
        Op::Lock(l)
        | Op::Unlock(l)
        | Op::RLock(l)
        | Op::RUnlock(l)
        | Op::TryLock(l)
        | Op::TryRLock(l)
        | Op::TryFail(l) => Some(Thing::OfLock(*l)),
        Op::OnceBegin(o) | Op::OnceEnd(o) | Op::OnceDone(o) => Some(Thing::OfOnce(*o)),
        Op::Go(_) | Op::Exit | Op::Default(_) | Op::Fault(_) => None,
    }
}

// Both operations are on one thing, and aren't both reads.
fn collide(a: &Op, b: &Op) -> bool
    ensures { result ≡ collide a.now b.now }
{
    if matches!(a, Op::Read(..)) && matches!(b, Op::Read(..)) {
        return false;
    }
    match (thing_of(a), thing_of(b)) {
        (Some(one), Some(other)) => one == other,
        _ => false,
    }
}

// The second participant: the goroutine that a Go starts, or the receiver of a Meet.
fn partner(op: &Op) -> Option<u32>
    ensures { result ≡ partner op.now }
{
    match op {
        Op::Go(started) => Some(*started),
        Op::Meet(receiver, ..) => Some(*receiver),
        _ => None,
    }
}

// The goroutine takes part in the event.
fn takes_part(who: u32, event: &Event) -> bool
    ensures { result ≡ takes_part who event.now }
{
    event.who == who || partner(&event.op) == Some(who)
}

// A goroutine takes part in both events.
fn share_goroutine(a: &Event, b: &Event) -> bool
    ensures { result ≡ share_goroutine a.now b.now }
{
    if takes_part(a.who, b) {
        return true;
    }
    match partner(&a.op) {
        Some(second) => takes_part(second, b),
        None => false,
    }
}

// The event stays where it is: a default, a fault, or main's exit.
fn stays(event: &Event) -> bool
    ensures { result ≡ stays event.now }
{
    match event.op {
        Op::Default(_) | Op::Fault(_) => true,
        Op::Exit => event.who == 0,
        _ => false,
    }
}

/// Whether the events may change places where they are neighbours: neither stays where it is, no goroutine takes part
/// in both, and they aren't on one thing, but for two reads.
pub fn are_independent(a: &Event, b: &Event) -> bool
    ensures { result ≡ are_independent a.now b.now }
{
    !stays(a) && !stays(b) && !share_goroutine(a, b) && !collide(&a.op, &b.op)
}

// They may, and the first is of a goroutine of a greater number.
fn are_turned(a: &Event, b: &Event) -> bool
    ensures { result ≡ are_turned a.now b.now }
{
    b.who < a.who && are_independent(a, b)
}

/// How many of the first events end with two that may change places and have the greater goroutine first, where more
/// events follow: the least such number. `None` where the list is in order.
pub fn turned_at(events: &[Event]) -> Option<usize>
    ensures { MatchOption result (IsInOrder events.now) (IsFirstTurned events.now) }
{
    for at in 2..events.len() {
        if are_turned(&events[at - 2], &events[at - 1]) {
            return Some(at);
        }
    }
    None
}
