//! Which requests can go on alone after the events so far, asked of a replay of these events.
ghost use Rattle.std.specs.Prelude.{ℕ, ◌≡◌, ◌<◌, ◌==◌, ◌&&◌, ◌||◌, not, nat_lt, Some, None, false, List, length};
ghost use Rattle.std.specs.Prelude.{IsTrue};
ghost use Rattle.race_records.specs.{declared.event.Event.Event, Declarations.{capacity_of, count_of}};
ghost use Rattle.race_records.specs.Operands.{chan_is_in_range};
ghost use Rattle.race_legal.specs.{ReplayState.counts_in, StandsFor.StandsFor};
ghost use Rattle.race_requests.specs.Possible.{ask_is_in_range};
ghost use Rattle.race_requests.specs.Choices as spec;
ghost use Rattle.race_requests.specs.Possible as possible;

use crate::making::{event_alone, lone_op};
use crate::{Ask, Offers, Waiter};
use race_legal::Replay;
use race_records::{Decls, Kind};
use std::alloc::Allocator;

// By its branch of this number the select takes its default, which it has.
#[inline(always)]
pub(crate) fn is_default_branch(offers: &Offers, has_default: bool, branch: u32) -> bool
    ensures { result ≡ (has_default && (branch == length offers.now)) }
{
    has_default && branch as usize == offers.len()
}

// One of the two holds.
#[inline(always)]
fn either(this: bool, that: bool) -> bool
    ensures { result ≡ (this || that) }
{
    this || that
}

// None of the two holds.
#[inline(always)]
fn neither(this: bool, that: bool) -> bool
    ensures { result ≡ (not this && not that) }
{
    !this && !that
}

// Where the one holds, the other does.
#[inline(always)]
fn implies(this: bool, that: bool) -> bool
    ensures { result ≡ (not this || that) }
{
    !this || that
}

// The buffer has room for another value.
#[inline(always)]
fn has_room(capacity: u32, buffered: usize) -> bool
    ensures { result ≡ (nat_lt 0 capacity && not (buffered == capacity)) }
{
    capacity > 0 && buffered != capacity as usize
}

// Where a value waits, it is taken from a buffer; else the channel is closed.
#[inline(always)]
fn is_received(first: Option<u64>, has_buffer: bool, closed: bool) -> bool
    ensures { result ≡ elim first [ Some v ↦ has_buffer | None ↦ closed ] }
{
    match first {
        Some(_) => has_buffer,
        None => closed,
    }
}

// Whether a send on the channel goes on alone.
#[inline(always)]
fn sender_goes_on<A: Allocator, B: Allocator>(
    replay: &Replay<A>,
    decls: &Decls<B>,
    chan: Option<u32>,
) -> bool
    requires same { count_of Kind.Chan decls.now.declarations ≡ counts_in replay.now Kind.Chan }
    requires range { IsTrue (chan_is_in_range (counts_in replay.now Kind.Chan) chan) }
    ensures { (past : List Event) → StandsFor decls.now.declarations replay.now past
        → result ≡ possible.sender_goes_on (capacity_of decls.now.declarations) past chan }
{
    let Some(chan) = chan else {
        return false;
    };
    let room = has_room(decls.capacity(chan), replay.buffered(chan));
    either(replay.is_closed(chan), room)
}

// Whether a receive from the channel does.
#[inline(always)]
fn receiver_goes_on<A: Allocator, B: Allocator>(
    replay: &Replay<A>,
    decls: &Decls<B>,
    chan: Option<u32>,
) -> bool
    requires same { count_of Kind.Chan decls.now.declarations ≡ counts_in replay.now Kind.Chan }
    requires range { IsTrue (chan_is_in_range (counts_in replay.now Kind.Chan) chan) }
    ensures { (past : List Event) → StandsFor decls.now.declarations replay.now past
        → result ≡ possible.receiver_goes_on (capacity_of decls.now.declarations) past chan }
{
    let Some(chan) = chan else {
        return false;
    };
    let first = replay.front(chan);
    is_received(first, decls.capacity(chan) > 0, replay.is_closed(chan))
}

/// Whether who asks can't go on alone, whichever goroutine it is, as far as a few loads tell: of those that mostly wait.
#[inline(always)]
pub(crate) fn is_held_up<A: Allocator, B: Allocator>(
    replay: &Replay<A>,
    decls: &Decls<B>,
    ask: &Ask,
) -> bool
    requires same { count_of Kind.Chan decls.now.declarations ≡ counts_in replay.now Kind.Chan }
    requires range { IsTrue (ask_is_in_range (counts_in replay.now) ask.now) }
    ensures { (past : List Event) → StandsFor decls.now.declarations replay.now past → IsTrue result
        → (who branch : ℕ) → possible.goes_on (capacity_of decls.now.declarations) past who ask.now branch ≡ false }
{
    match ask {
        Ask::Lock(lock) => !neither(replay.is_held(*lock), replay.is_read_held(*lock)),
        Ask::RLock(lock) => replay.is_held(*lock),
        Ask::Do(once) => !implies(replay.is_begun(*once), replay.is_ended(*once)),
        Ask::Send(chan, _) => !sender_goes_on(replay, decls, *chan),
        Ask::Recv(chan) => !receiver_goes_on(replay, decls, *chan),
        _ => false,
    }
}

/// Whether the waiting request can go on alone by its branch of this number: whether its event breaks no rule after the events so
/// far.
pub fn can_go_on<A: Allocator, B: Allocator>(
    replay: &Replay<A>,
    decls: &Decls<B>,
    waiter: &Waiter,
    branch: u32,
) -> bool
    requires same { count_of Kind.Chan decls.now.declarations ≡ counts_in replay.now Kind.Chan }
    requires who { waiter.now.who < counts_in replay.now Kind.Goroutine }
    requires range { IsTrue (ask_is_in_range (counts_in replay.now) waiter.now.asked.ask) }
    ensures { (past : List Event) → StandsFor decls.now.declarations replay.now past
        → result ≡ spec.is_legal_next (capacity_of decls.now.declarations) past (spec.lone_event past waiter.now branch) }
{
    match lone_op(replay, &waiter.asked.ask, branch) {
        Some(op) => replay.breaks(&event_alone(waiter, op)).is_none(),
        None => false,
    }
}
