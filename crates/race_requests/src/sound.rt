//! Which requests are bad.
ghost use Rattle.std.specs.Prelude.{◌≡◌, ◌<◌, ◌||◌, ◌&&◌, not, nat_le, length, is_some, IsTrue};
ghost use Rattle.std.specs.List.{list_any, list_all};
ghost use Rattle.race_records.specs.declared.{cases.TheConstants.MAX_CASES, kind.Kind.Kind};
ghost use Rattle.race_records.specs.{Declarations.{count_of, counts_of, is_rw}, Operands.chan_is_in_range};
ghost use Rattle.race_model.specs.Events.{gives};
ghost use Rattle.race_legal.specs.{ReplayState.counts_in, StandsFor.ForEachPast};
ghost use Rattle.race_model.specs.State as words;
ghost use Rattle.race_requests.specs.Possible as possible;
ghost use Rattle.race_requests.specs.Sound as spec;

use crate::{Ask, Offer, Offers, Waiter};
use race_legal::Replay;
use race_records::{Decls, Kind, OpKeyword};
use std::alloc::Allocator;

// The channel is declared, or it is nil.
fn is_channel<A: Allocator>(decls: &Decls<A>, chan: Option<u32>) -> bool
    ensures { result ≡ chan_is_in_range (count_of Kind.Chan decls.now.declarations) chan }
{
    match chan {
        Some(chan) => chan < decls.count(Kind::Chan),
        None => true,
    }
}

// The channel of the offer is, or it is nil.
fn is_offered<A: Allocator>(decls: &Decls<A>, offer: Offer) -> bool
    ensures { result ≡ possible.offer_is_in_range (count_of Kind.Chan decls.now.declarations) offer }
{
    match offer {
        Offer::Send(chan, _) => is_channel(decls, chan),
        Offer::Recv(chan) => is_channel(decls, chan),
    }
}

// The channels of all offers are, of which a list has no more than it can have.
fn are_channels<A: Allocator>(decls: &Decls<A>, offers: &Offers) -> bool
    ensures { result ≡ (nat_le (length offers.now) MAX_CASES
        && list_all (possible.offer_is_in_range (count_of Kind.Chan decls.now.declarations)) offers.now) }
{
    for k in 0..offers.len() {
        if !is_offered(decls, offers.get(k)) {
            return false;
        }
    }
    true
}

// All that the ask names is declared.
fn names_declared<A: Allocator>(decls: &Decls<A>, ask: &Ask) -> bool
    ensures { result ≡ possible.ask_is_in_range (counts_of decls.now.declarations) ask.now }
{
    match ask {
        Ask::Go(goroutine) => *goroutine < decls.count(Kind::Goroutine),
        Ask::Exit => true,
        Ask::Read(var) => *var < decls.count(Kind::Var),
        Ask::Write(var, _) => *var < decls.count(Kind::Var),
        Ask::Send(chan, _) => is_channel(decls, *chan),
        Ask::Recv(chan) => is_channel(decls, *chan),
        Ask::Close(chan) => is_channel(decls, *chan),
        Ask::Select(offers, _) => are_channels(decls, offers),
        Ask::Lock(lock) => *lock < decls.count(Kind::Lock),
        Ask::Unlock(lock) => *lock < decls.count(Kind::Lock),
        Ask::RLock(lock) => *lock < decls.count(Kind::Lock),
        Ask::RUnlock(lock) => *lock < decls.count(Kind::Lock),
        Ask::TryLock(lock) => *lock < decls.count(Kind::Lock),
        Ask::TryRLock(lock) => *lock < decls.count(Kind::Lock),
        Ask::Do(once) => *once < decls.count(Kind::Once),
        Ask::EndDo(once) => *once < decls.count(Kind::Once),
    }
}

// Where the ask wants an rwmutex, its lock is one.
fn lock_suits<A: Allocator>(decls: &Decls<A>, ask: &Ask) -> bool
    requires { IsTrue (possible.ask_is_in_range (counts_of decls.now.declarations) ask.now) }
    ensures { result ≡ spec.lock_suits decls.now ask.now }
{
    match ask {
        Ask::RLock(lock) => decls.is_rw(*lock),
        Ask::RUnlock(lock) => decls.is_rw(*lock),
        Ask::TryRLock(lock) => decls.is_rw(*lock),
        _ => true,
    }
}

// The version of the declarations has the ask.
fn is_known<A: Allocator>(decls: &Decls<A>, ask: &Ask) -> bool
    ensures { result ≡ spec.has_ask decls.now.version ask.now }
{
    match ask {
        Ask::TryLock(_) => decls.version().has(OpKeyword::TryLock),
        Ask::TryRLock(_) => decls.version().has(OpKeyword::TryRLock),
        _ => true,
    }
}

/// Whether the version has the request, and all that it names is declared, and of the right kind, its place too.
pub fn is_sound<A: Allocator>(decls: &Decls<A>, waiter: &Waiter) -> bool
    ensures { result ≡ spec.is_sound decls.now waiter.now }
{
    if waiter.who >= decls.count(Kind::Goroutine) || !names_declared(decls, &waiter.asked.ask) {
        return false;
    }
    is_known(decls, &waiter.asked.ask)
        && lock_suits(decls, &waiter.asked.ask)
        && waiter.asked.place < decls.place_count()
}

// Whether one of these asks to start the goroutine.
fn is_asked_for(waiting: &[Waiter], goroutine: u32) -> bool
    ensures { result ≡ list_any (λ w. spec.asks_to_start goroutine w.asked.ask) waiting.now }
{
    for place in 0..waiting.len() {
        if asks_to_start(&waiting[place].asked.ask, goroutine) {
            return true;
        }
    }
    false
}

// Whether the ask is to start the goroutine.
fn asks_to_start(ask: &Ask, goroutine: u32) -> bool
    ensures { result ≡ spec.asks_to_start goroutine ask.now }
{
    match ask {
        Ask::Go(other) => *other == goroutine,
        _ => false,
    }
}

/// Whether the goroutine asks for a step out of turn: to start main, or whom a `go` starts or is to start; to exit in the
/// function of a once; to end another once than its innermost.
pub fn is_out_of_turn<A: Allocator>(replay: &Replay<A>, waiting: &[Waiter], waiter: &Waiter) -> bool
    requires who { waiter.now.who < counts_in replay.now Kind.Goroutine }
    requires range { IsTrue (possible.ask_is_in_range (counts_in replay.now) waiter.now.asked.ask) }
    ensures { ForEachPast replay.now (λ past. result ≡ spec.is_out_of_turn past waiting.now waiter.now.who waiter.now.asked.ask) }
{
    match waiter.asked.ask {
        Ask::Go(goroutine) => any_of(
            goroutine == 0,
            replay.started(goroutine),
            is_asked_for(waiting, goroutine),
        ),
        Ask::Exit => is_present(replay.innermost(waiter.who)),
        Ask::EndDo(once) => is_other(replay.innermost(waiter.who), once),
        _ => false,
    }
}

// One of the three holds.
fn any_of(this: bool, that: bool, other: bool) -> bool
    ensures { result ≡ (this || (that || other)) }
{
    this || that || other
}

// There is a number.
fn is_present(found: Option<u32>) -> bool
    ensures { result ≡ is_some found }
{
    found.is_some()
}

// There is no number, or it isn't this.
fn is_other(found: Option<u32>, number: u32) -> bool
    ensures { result ≡ not (gives found number) }
{
    found != Some(number)
}
