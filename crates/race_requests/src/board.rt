//! The requests that wait, where the run stands, and which of their choices is picked.
ghost use Rattle.std.specs.Prelude.{ℕ, ◌≡◌, ◌≤◌, ◌<◌, ◌+◌, ◌==◌, ◌&&◌, not, false, Some, IsTrue, IfSome, All, length};
ghost use Rattle.std.specs.{Prelude.slice_get, List.list_any, Option.option_copied};
ghost use Rattle.race_records.specs.declared.kind.{Kind.Kind, TheConstants.MAX_GOROUTINES};
ghost use Rattle.race_records.specs.Declarations.{capacity_of, count_of};
ghost use Rattle.race_legal.specs.StandsFor.{StandsFor};
ghost use Rattle.race_requests.specs.{Possible.offer_is_in_range, Search.picked, Table.offers_of};
ghost use Rattle.race_requests.specs.Choices as spec;
ghost use Rattle.race_requests.specs.Waiting as list;

use crate::meet::offer_at;
use crate::possible::{is_default_branch, is_held_up};
use crate::receivers::Receivers;
use crate::table::branch_count;
use crate::{
    Ask, Board, Choice, Found, Offer, Offers, Waiter, can_go_on, can_meet, find, lone_event,
    meet_event, pick_choice,
};
use race_legal::Replay;
use race_records::{Decls, Event, Trace};
use std::alloc::{Allocator, Global};
use std::marker::Model;

/// The requests that wait behind the events so far, with a replay that stands for these events.
#[derive(Drop)]
pub struct WaitingList<'a, A: Allocator = Global, B: Allocator = Global> {
    replay: &'a Replay<A>,
    trace: &'a Trace<B>,
    waiting: &'a [Waiter],
    receivers: Receivers,
}

impl<'a, A: Allocator, B: Allocator> Model for WaitingList<'a, A, B> {
    ghost use Rattle.race_requests.specs.{Waiting.WaitingState, WaitingHolds.WaitingHolds};

    ghost Value = { WaitingState };

    ghost view = { λ l. record {
      declarations = l.trace.now.decls.declarations;
      past = l.trace.now.events;
      waiting = l.waiting.now;
    } };

    ghost invariant = { λ l. WaitingHolds l.trace.now.decls.declarations l.replay.now l.trace.now.events l.waiting.now l.receivers };
}

impl<'a, A: Allocator, B: Allocator> WaitingList<'a, A, B> {
    /// The list of these requests. It borrows the run, so it is made anew after each event.
    ///
    /// The replay has accepted the trace's events and no others, what the requests name is declared in the trace, and
    /// there are at most 1,024 requests.
    #[inline(always)]
    pub fn new(
        replay: &'a Replay<A>,
        trace: &'a Trace<B>,
        waiting: &'a [Waiter],
    ) -> WaitingList<'a, A, B>
        requires stands { StandsFor trace.now.decls.declarations replay.now trace.now.events }
        requires declared { All (λ w. IsTrue (list.is_declared trace.now.decls.declarations w)) waiting.now }
        requires few { length waiting.now ≤ MAX_GOROUTINES }
        ensures declarations { result.declarations ≡ trace.now.decls.declarations }
        ensures past { result.past ≡ trace.now.events }
        ensures waiting { result.waiting ≡ waiting.now }
    {
        WaitingList {
            replay,
            trace,
            waiting,
            receivers: Receivers::of(waiting),
        }
    }

    /// The choice number `pick`, modulo the count of choices, if there is one. Takes no memory.
    pub fn pick(&self, pick: u64) -> Option<Choice>
        ensures { result ≡ picked pick (list.choices_of self.now) }
    {
        pick_choice(self, pick)
    }

    /// The event that the choice makes, if it makes one.
    pub fn event_of(&self, choice: Choice) -> Option<Event>
        ensures { result ≡ spec.event_of self.now.past self.now.waiting choice }
    {
        let Some(waiter) = self.get(choice.place as usize) else {
            return None;
        };
        if choice.partner == 0 {
            return self.event_alone(waiter, choice.offer);
        }
        let Some(partner) = self.get(choice.partner as usize - 1) else {
            return None;
        };
        let other_branch = choice.partner_offer.saturating_sub(1);
        meet_event(waiter, choice.offer, partner, other_branch)
    }

    // Where the run stands.
    #[inline(always)]
    fn run(&self) -> (&Replay<A>, &Decls<B>)
        ensures stands { StandsFor result.1.now.declarations result.0.now self.now.past }
        ensures declarations { result.1.now.declarations ≡ self.now.declarations }
    {
        (self.replay, self.trace.decls())
    }

    // The request at this place.
    #[inline(always)]
    fn at(&self, place: usize) -> &Waiter
        requires { place < length self.now.waiting }
        ensures found { slice_get self.now.waiting place ≡ Some result.now }
        ensures declared { IsTrue (list.is_declared self.now.declarations result.now) }
    {
        let waiting = self.waiting;
        &waiting[place]
    }

    // The request at this place, if there is one.
    #[inline(always)]
    fn get(&self, place: usize) -> Option<&Waiter>
        ensures found { option_copied result ≡ slice_get self.now.waiting place }
        ensures declared { IfSome result (λ w. IsTrue (list.is_declared self.now.declarations w.now)) }
    {
        if place < self.waiting.len() {
            Some(self.at(place))
        } else {
            None
        }
    }

    // The event of the request alone, by its branch of this number.
    fn event_alone(&self, waiter: &Waiter, branch: u32) -> Option<Event>
        requires { IsTrue (list.is_declared self.now.declarations waiter.now) }
        ensures { result ≡ spec.lone_event self.now.past waiter.now branch }
    {
        let (replay, _) = self.run();
        lone_event(replay, waiter, branch)
    }

    // Whether the request can go on alone by its branch of this number.
    #[inline(always)]
    fn goes_on(&self, waiter: &Waiter, branch: u32) -> bool
        requires { IsTrue (list.is_declared self.now.declarations waiter.now) }
        ensures { result ≡ spec.is_legal_next (capacity_of self.now.declarations) self.now.past
            (spec.lone_event self.now.past waiter.now branch) }
    {
        let (replay, decls) = self.run();
        can_go_on(replay, decls, waiter, branch)
    }

    // Whether the request by its branch can meet the other by its branch.
    #[inline(always)]
    fn goes_on_with(
        &self,
        sender: &Waiter,
        branch: u32,
        receiver: &Waiter,
        other_branch: u32,
    ) -> bool
        requires sender { IsTrue (list.is_declared self.now.declarations sender.now) }
        requires receiver { IsTrue (list.is_declared self.now.declarations receiver.now) }
        ensures { result ≡ spec.is_legal_next (capacity_of self.now.declarations) self.now.past
            (spec.meet_event sender.now branch receiver.now other_branch) }
    {
        let (replay, decls) = self.run();
        can_meet(replay, decls, sender, branch, receiver, other_branch)
    }

    // Whether the offer sends on an open channel without a buffer.
    #[inline(always)]
    fn hands_over(&self, offer: Option<Offer>) -> bool
        requires { IfSome offer (λ o. IsTrue (offer_is_in_range (count_of Kind.Chan self.now.declarations) o)) }
        ensures { result ≡ list.hands_over (capacity_of self.now.declarations) self.now.past offer }
    {
        let Some(chan) = sent_on(offer) else {
            return false;
        };
        let (replay, decls) = self.run();
        is_rendezvous(decls.capacity(chan), replay.is_closed(chan))
    }

    // How many requests there are.
    #[inline(always)]
    fn count(&self) -> u32
        ensures len { result ≡ length self.now.waiting }
        ensures few { result ≤ MAX_GOROUTINES }
        ensures few_branches { (i : ℕ) → spec.branches_at self.now.waiting i ≤ 17 }
    {
        self.waiting.len() as u32
    }

    // How many branches the request at this place has.
    #[inline(always)]
    fn branches_of(&self, place: u32) -> u32
        requires { place < length self.now.waiting }
        ensures { result ≡ spec.branches_at self.now.waiting place }
    {
        branch_count(&self.at(place as usize).asked.ask)
    }

    // Whether the request at this place can neither go on alone nor hand anything over, as far as a few loads tell.
    #[inline(always)]
    fn is_idle(&self, place: u32) -> bool
        requires { place < length self.now.waiting }
        ensures alone { IsTrue result → (branch : ℕ) → spec.is_possible (capacity_of self.now.declarations) self.now.past
            self.now.waiting (spec.choice place branch 0 0) ≡ false }
        ensures meets { IsTrue result → (branch p q : ℕ) → spec.is_possible (capacity_of self.now.declarations) self.now.past
            self.now.waiting (spec.choice place branch (p + 1) (q + 1)) ≡ false }
    {
        let waiter = self.at(place as usize);
        self.is_stopped(waiter) && self.has_no_taker(&waiter.asked.ask)
    }

    // Whether the request can't go on alone, as far as a few loads tell.
    #[inline(always)]
    fn is_stopped(&self, waiter: &Waiter) -> bool
        requires { IsTrue (list.is_declared self.now.declarations waiter.now) }
        ensures { IsTrue result → (branch : ℕ) → spec.is_legal_next (capacity_of self.now.declarations) self.now.past
            (spec.lone_event self.now.past waiter.now branch) ≡ false }
    {
        let (replay, decls) = self.run();
        is_held_up(replay, decls, &waiter.asked.ask)
    }

    // Whether nobody takes what the ask may hand over, as far as a few loads tell.
    #[inline(always)]
    fn has_no_taker(&self, ask: &Ask) -> bool
        ensures { IsTrue result → (branch c p : ℕ) → list.sent_on (slice_get (offers_of ask.now) branch) ≡ Some c
            → list.receives_at self.now.waiting c p ≡ false }
    {
        match ask {
            Ask::Send(Some(chan), _) => self.receivers.end(*chan) == 0,
            Ask::Select(_, _) => false,
            _ => true,
        }
    }

    // Whether the tuple makes an event, and the event breaks no rule.
    #[inline(always)]
    fn is_possible(&self, choice: Choice) -> bool
        ensures { result ≡ spec.is_possible (capacity_of self.now.declarations) self.now.past self.now.waiting choice }
    {
        let Some(waiter) = self.get(choice.place as usize) else {
            return false;
        };
        if choice.partner == 0 {
            return self.goes_on(waiter, choice.offer);
        }
        let Some(partner) = self.get(choice.partner as usize - 1) else {
            return false;
        };
        let other_branch = choice.partner_offer.saturating_sub(1);
        self.goes_on_with(waiter, choice.offer, partner, other_branch)
    }

    // Whether the tuple takes a default.
    #[inline(always)]
    fn is_default(&self, choice: Choice) -> bool
        ensures { result ≡ spec.is_default self.now.waiting choice }
    {
        match self.get(choice.place as usize) {
            Some(waiter) => is_default_of(&waiter.asked.ask, choice.offer),
            None => false,
        }
    }

    // Whether the tuple is possible, and takes no default.
    #[inline(always)]
    fn is_move(&self, choice: Choice) -> bool
        ensures { result ≡ spec.is_move (capacity_of self.now.declarations) self.now.past self.now.waiting choice }
    {
        self.is_possible(choice) && !self.is_default(choice)
    }

    // Whether the request at this place has another choice than its default.
    #[inline(never)]
    fn can_move(&self, place: u32) -> bool
        ensures { result ≡ spec.can_move (capacity_of self.now.declarations) self.now.past self.now.waiting place }
    {
        match find(&Moves { list: self, place }, 0) {
            Found::At(_) => true,
            Found::Left(_) => false,
        }
    }

    // Whether the tuple takes a default whose select has another choice.
    #[inline(always)]
    fn stands_back(&self, choice: Choice) -> bool
        ensures { result ≡ (spec.is_default self.now.waiting choice
            && spec.can_move (capacity_of self.now.declarations) self.now.past self.now.waiting choice.place) }
    {
        self.is_default(choice) && self.can_move(choice.place)
    }

    // The first place from this one on where the request by this branch may have a partner; behind the last where there is none.
    #[inline(always)]
    fn next_partner_of(&self, place: u32, branch: u32, from: u32) -> u32
        requires { place < length self.now.waiting }
        ensures onward { from ≤ result }
        ensures passed { (p : ℕ) → from ≤ p → p < result → (q : ℕ)
            → spec.is_possible (capacity_of self.now.declarations) self.now.past self.now.waiting (spec.choice place branch (p + 1) (q + 1)) ≡ false }
    {
        let offer = offer_at(&self.at(place as usize).asked.ask, branch);
        let Some(chan) = sent_on(offer) else {
            return from.max(self.count());
        };
        // Mostly there is one receiver, or none: the channel itself is looked at only where there is one more.
        let next = self.next_receiver(chan, from);
        if next < self.count() && !self.hands_over(offer) {
            return next.max(self.count());
        }
        next
    }

    // The first place from this one on whose request receives from the channel. It asks nothing of the run.
    #[inline(always)]
    fn next_receiver(&self, chan: u32, from: u32) -> u32
        ensures onward { from ≤ result }
        ensures passed { (p : ℕ) → from ≤ p → p < result → list.receives_at self.now.waiting chan p ≡ false }
    {
        let waiting = self.waiting;
        let count = waiting.len() as u32;
        let first = from.max(self.receivers.first(chan));
        let end = count.min(self.receivers.end(chan));
        for place in first..end {
            if receives(&waiting[place as usize].asked.ask, chan) {
                return place;
            }
        }
        from.max(count)
    }
}

// Who asks offers to receive from the channel.
#[inline(always)]
fn receives(ask: &Ask, chan: u32) -> bool
    ensures { result ≡ list.receives chan ask.now }
{
    match ask {
        Ask::Recv(Some(from)) => *from == chan,
        Ask::Select(offers, _) => one_receives(offers, chan),
        _ => false,
    }
}

// The offer is to receive from the channel.
#[inline(always)]
fn receives_from(offer: Offer, chan: u32) -> bool
    ensures { result ≡ list.receives_from chan offer }
{
    match offer {
        Offer::Recv(Some(from)) => from == chan,
        _ => false,
    }
}

// One of the offers is.
fn one_receives(offers: &Offers, chan: u32) -> bool
    ensures { result ≡ list_any (list.receives_from chan) offers.now }
{
    for k in 0..offers.len() {
        if receives_from(offers.get(k), chan) {
            return true;
        }
    }
    false
}

// The channel on which the offer sends.
#[inline(always)]
fn sent_on(offer: Option<Offer>) -> Option<u32>
    ensures { result ≡ list.sent_on offer }
{
    match offer {
        Some(Offer::Send(chan, _)) => chan,
        _ => None,
    }
}

// The channel is unbuffered and open.
#[inline(always)]
fn is_rendezvous(capacity: u32, closed: bool) -> bool
    ensures { result ≡ ((capacity == 0) && not closed) }
{
    capacity == 0 && !closed
}

// The ask's branch of this number is its default.
#[inline(always)]
fn is_default_of(ask: &Ask, branch: u32) -> bool
    ensures { result ≡ spec.is_default_of ask.now branch }
{
    match ask {
        Ask::Select(offers, has_default) => is_default_branch(offers, *has_default, branch),
        _ => false,
    }
}

impl<'a, A: Allocator, B: Allocator> Board for WaitingList<'a, A, B> {
    ghost use Rattle.std.specs.Prelude.{length};
    ghost use Rattle.race_records.specs.Declarations.{capacity_of};
    ghost use Rattle.race_requests.specs.Choices as spec;

    ghost size = { λ l. length l.waiting };

    ghost branches_at = { λ l. spec.branches_at l.waiting };

    ghost admitted = { λ l. spec.is_choice (capacity_of l.declarations) l.past l.waiting };

    #[inline(always)]
    fn len(&self) -> u32 {
        self.count()
    }

    #[inline(always)]
    fn branches(&self, place: u32) -> u32 {
        self.branches_of(place)
    }

    #[inline(always)]
    fn next_partner(&self, place: u32, branch: u32, from: u32) -> u32 {
        self.next_partner_of(place, branch, from)
    }

    #[inline(always)]
    fn is_stuck(&self, place: u32) -> bool {
        self.is_idle(place)
    }

    #[inline(always)]
    fn admits(&self, choice: Choice) -> bool {
        self.is_possible(choice) && !self.stands_back(choice)
    }
}

/// The choices of the request at one place but for its default, which is none where there is one of these.
#[derive(Drop)]
struct Moves<'b, 'a, A: Allocator, B: Allocator> {
    list: &'b WaitingList<'a, A, B>,
    place: u32,
}

impl<'b, 'a, A: Allocator, B: Allocator> Board for Moves<'b, 'a, A, B> {
    ghost use Rattle.std.specs.Prelude.{length, ◌&&◌};
    ghost use Rattle.race_records.specs.Declarations.{capacity_of};
    ghost use Rattle.race_requests.specs.Choices as spec;

    ghost size = { λ m. length m.list.now.waiting };

    ghost branches_at = { λ m. spec.branches_at m.list.now.waiting };

    ghost admitted = { λ m t. spec.is_move (capacity_of m.list.now.declarations) m.list.now.past m.list.now.waiting t && spec.stands_in m.place t };

    #[inline(always)]
    fn len(&self) -> u32 {
        self.list.count()
    }

    #[inline(always)]
    fn branches(&self, place: u32) -> u32 {
        self.list.branches_of(place)
    }

    #[inline(always)]
    fn next_partner(&self, place: u32, branch: u32, from: u32) -> u32 {
        // Of the others' choices those alone count in which it is the partner.
        if place == self.place {
            self.list.next_partner_of(place, branch, from)
        } else if from <= self.place {
            self.place
        } else {
            from.max(self.list.count())
        }
    }

    #[inline(always)]
    fn is_stuck(&self, place: u32) -> bool {
        self.list.is_idle(place)
    }

    #[inline(always)]
    fn admits(&self, choice: Choice) -> bool {
        stands_in(self.place, choice) && self.list.is_move(choice)
    }
}

// The request at this place stands in the tuple.
fn stands_in(place: u32, choice: Choice) -> bool
    ensures { result ≡ spec.stands_in place choice }
{
    choice.place == place || (choice.partner > 0 && choice.partner - 1 == place)
}
