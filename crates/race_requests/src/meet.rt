//! Which two requests meet, and which event they make.
ghost use Rattle.std.specs.Prelude.{ℕ, ◌≡◌, ◌<◌, List, slice_get, Option, Some, IsTrue, IfSome};
ghost use Rattle.race_records.specs.declared.{kind.Kind.Kind, event.Event.Event};
ghost use Rattle.race_records.specs.Declarations.{capacity_of, count_of};
ghost use Rattle.race_legal.specs.{ReplayState.counts_in, StandsFor.StandsFor};
ghost use Rattle.race_requests.specs.{Table.offers_of, Possible.{handed, ask_is_in_range, offer_is_in_range}};
ghost use Rattle.race_requests.specs.Choices as spec;

use crate::{Ask, Offer, Waiter};
use race_legal::Replay;
use race_records::{Decls, Event, Kind, Op};
use std::alloc::Allocator;

// What the ask offers by its branch of this number.
#[inline(always)]
pub(crate) fn offer_at(ask: &Ask, branch: u32) -> Option<Offer>
    ensures offer { result ≡ slice_get (offers_of ask.now) branch }
    ensures range { (counts : Kind → ℕ) → IsTrue (ask_is_in_range counts ask.now)
        → IfSome result (λ o. IsTrue (offer_is_in_range (counts Kind.Chan) o)) }
{
    match ask {
        Ask::Send(chan, value) => if branch == 0 {
            Some(Offer::Send(*chan, *value))
        } else {
            None
        },
        Ask::Recv(chan) => if branch == 0 {
            Some(Offer::Recv(*chan))
        } else {
            None
        },
        Ask::Select(offers, _) => if (branch as usize) < offers.len() {
            Some(offers.get(branch as usize))
        } else {
            None
        },
        _ => None,
    }
}

// Over which channel which value is handed, where the one offers to send on it and the other to receive from it.
#[inline(always)]
fn hands(sends: Option<Offer>, receives: Option<Offer>) -> Option<(u32, u64)>
    ensures handed { result ≡ handed sends receives }
    ensures sent { IfSome result (λ p. sends ≡ Some (Offer.Send (Some p.0) p.1)) }
{
    match sends {
        Some(Offer::Send(Some(chan), value)) => match receives {
            Some(Offer::Recv(Some(from))) => if chan == from {
                Some((chan, value))
            } else {
                None
            },
            _ => None,
        },
        _ => None,
    }
}

/// The event in which the one waiting request by its branch meets the other by its branch, if they offer to.
pub fn meet_event(
    sender: &Waiter,
    branch: u32,
    receiver: &Waiter,
    other_branch: u32,
) -> Option<Event>
    ensures { result ≡ spec.meet_event sender.now branch receiver.now other_branch }
{
    let sends = offer_at(&sender.asked.ask, branch);
    let receives = offer_at(&receiver.asked.ask, other_branch);
    match hands(sends, receives) {
        Some((chan, value)) => Some(Event {
            op: Op::Meet(receiver.who, chan, value),
            who: sender.who,
            place: sender.asked.place,
            place2: Some(receiver.asked.place),
        }),
        None => None,
    }
}

/// Whether the one waiting request by its branch can meet the other by its branch: whether their event breaks no rule after the
/// events so far.
pub fn can_meet<A: Allocator, B: Allocator>(
    replay: &Replay<A>,
    decls: &Decls<B>,
    sender: &Waiter,
    branch: u32,
    receiver: &Waiter,
    other_branch: u32,
) -> bool
where
    requires same { count_of Kind.Chan decls.now.declarations ≡ counts_in replay.now Kind.Chan }
    requires who { sender.now.who < counts_in replay.now Kind.Goroutine }
    requires whom { receiver.now.who < counts_in replay.now Kind.Goroutine }
    requires range { IsTrue (ask_is_in_range (counts_in replay.now) sender.now.asked.ask) }
    ensures { (past : List Event) → StandsFor decls.now.declarations replay.now past
        → result ≡ spec.is_legal_next (capacity_of decls.now.declarations) past
        (spec.meet_event sender.now branch receiver.now other_branch) }
{
    match meet_event(sender, branch, receiver, other_branch) {
        Some(event) => replay.breaks(&event).is_none(),
        None => false,
    }
}
