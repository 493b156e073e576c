//! A goroutine's body, and how the steps of its log go along it.
ghost use Rattle.std.specs.Prelude.{ℕ, ◌≡◌, ◌<◌, ◌↔◌, if◌then◌else◌, IsTrue, Some, length, slice_get};
ghost use Rattle.std.specs.Option.{option_copied};
ghost use Rattle.race_records.specs.{Declarations.capacity_of, declared.{event.{Event.{Event as EventValue}}}};
ghost use Rattle.race_records.specs.declared.event.Op.TheVariants.{TryLock, TryRLock, TryFail};
ghost use Rattle.race_model.specs.Legal.{IsLegal};
ghost use Rattle.race_requests.specs.Table.{Fits};
ghost use Rattle.race_script.specs.{Course.{FailsBy, IsPassed}, Program.{asks_of, instruction, spelled}};
ghost use Rattle.race_text.specs.Text as text;
ghost use Rattle.race_script.specs.Certificate as spec;
ghost use Rattle.race_script.specs.Course as course;

use crate::script::{behind_end, is_done, is_exit};
use race_hub::{Answer, Ask, Offer, Offers, Request, Step, can_make};
use race_records::{Cause, Decls, Op, Trace};
use race_requests::RequestList;
use std::alloc::Allocator;

/// The body of a goroutine, with the places of its program and those of a recording.
#[derive(Drop)]
pub(crate) struct Course<'a, A: Allocator> {
    pub(crate) body: &'a RequestList<A>,
    pub(crate) places: &'a Decls<A>,
    pub(crate) recorded: &'a Decls<A>,
    pub(crate) goroutine: u32,
    // The fault that ends the recording's trace, if one does.
    pub(crate) fault: Option<Cause>,
}

impl<'a, A: Allocator> Course<'a, A> {
    /// The position behind the step of the log, where the body's step at the position makes what the goroutine did.
    pub(crate) fn passed(&self, position: usize, step: &Step) -> Option<usize>
        ensures { (e : EventValue) → Fits self.now.goroutine step.now e → FailsBy self.now.fault e.op
            → IsPassed (spelled self.now.places.now.places self.now.body.now.items) self.now.recorded.now.places self.now.goroutine position e result }
    {
        let request = self.at(position)?;
        let made = made_in(step, self.fault)?;
        if can_make(self.goroutine, &request.ask, &made)
            && self.stand_alike(&request, &step.asked)
        {
            Some(behind(self.body, position, &made))
        } else {
            None
        }
    }

    /// Whether the body's step at the position is what waits, if anything does.
    pub(crate) fn waits(&self, position: usize, waiting: Option<&Request>) -> bool
        ensures { IsTrue result ↔ spec.WaitsAt (spelled self.now.places.now.places self.now.body.now.items) self.now.recorded.now.places
            self.now.goroutine position (option_copied waiting.entry) }
    {
        match waiting {
            Some(request) => self.asks(position, request),
            None => true,
        }
    }

    // Whether the body's step at the position is the request.
    fn asks(&self, position: usize, request: &Request) -> bool
        ensures { IsTrue result ↔ (slice_get (spelled self.now.places.now.places self.now.body.now.items) position
            ≡ Some (instruction self.now.recorded.now.places request.now)) }
    {
        match self.at(position) {
            Some(asked) => is_same(&asked.ask, &request.ask) && self.stand_alike(&asked, request),
            None => false,
        }
    }

    // The body's step at the position.
    fn at(&self, position: usize) -> Option<Request>
        ensures { result ≡ slice_get self.now.body.now.items position }
    {
        let body = self.body;
        if position < body.len() {
            Some(body.get(position))
        } else {
            None
        }
    }

    // Whether the body's step and the recorded request stand at one place.
    fn stand_alike(&self, asked: &Request, request: &Request) -> bool
        ensures { IsTrue result ↔ (text.place_text self.now.recorded.now.places request.now.place
            ≡ text.place_text self.now.places.now.places asked.now.place) }
    {
        place_text(self.places, asked.place) == place_text(self.recorded, request.place)
    }
}

// Whether the same is asked.
fn is_same(ask: &Ask, other: &Ask) -> bool
    ensures { result ≡ course.same_ask ask.now other.now }
{
    *ask == *other
}

// The text of the place.
fn place_text<A: Allocator>(decls: &Decls<A>, place: u32) -> &str
    ensures { result.now ≡ text.place_text decls.now.places place }
{
    if place < decls.place_count() {
        decls.place_text(place)
    } else {
        ""
    }
}

// The position behind a step that made this.
fn behind<A: Allocator>(body: &RequestList<A>, position: usize, made: &Op) -> usize
    requires { position < length body.now.items }
    ensures { result ≡ spec.after_event (asks_of body.now.items) position made.now }
{
    // A proof knows that there may be one more once they are counted.
    let _count = body.len();
    match made {
        Op::OnceDone(_) => behind_end(body, position + 1),
        _ => position + 1,
    }
}

/// The cause of the fault with which the trace ends, if it does.
pub(crate) fn last_fault<A: Allocator>(trace: &Trace<A>) -> Option<Cause>
    requires { IsLegal (capacity_of trace.now.decls.declarations) trace.now.events }
    ensures { (n : ℕ) (e : EventValue) → slice_get trace.now.events n ≡ Some e → FailsBy result e.op }
{
    let last = trace.len().checked_sub(1)?;
    match &trace.event(last).op {
        Op::Fault(cause) => Some(*cause),
        _ => None,
    }
}

// What the goroutine did in the step of its log: it was told nothing where it returned, and where it failed.
fn made_in(step: &Step, fault: Option<Cause>) -> Option<Op>
    ensures { result ≡ course.made_in step.now.asked.ask step.now.told fault }
{
    match step.told {
        Some(answer) => made_by(&step.asked.ask, answer),
        None => if is_exit(&step.asked.ask) {
            Some(Op::Exit)
        } else {
            Some(Op::Fault(fault?))
        },
    }
}

// What was done by who asked that and was told the answer.
fn made_by(ask: &Ask, answer: Answer) -> Option<Op>
    ensures { result ≡ course.made_by ask.now answer }
{
    match ask {
        Ask::Go(goroutine) => Some(Op::Go(*goroutine)),
        Ask::Exit => None,
        Ask::Read(var) => value_in(answer).map(|value| Op::Read(*var, value)),
        Ask::Write(var, value) => Some(Op::Write(*var, *value)),
        Ask::Send(chan, value) => made_by_offer(Offer::Send(*chan, *value), None),
        Ask::Recv(chan) => made_by_offer(Offer::Recv(*chan), value_in(answer)),
        Ask::Close(chan) => (*chan).map(Op::Close),
        Ask::Select(offers, _) => made_by_select(offers, answer),
        Ask::Lock(lock) => Some(Op::Lock(*lock)),
        Ask::Unlock(lock) => Some(Op::Unlock(*lock)),
        Ask::RLock(lock) => Some(Op::RLock(*lock)),
        Ask::RUnlock(lock) => Some(Op::RUnlock(*lock)),
        Ask::TryLock(lock) => tried_in(answer).map(|taken| try_op(*lock, taken)),
        Ask::TryRLock(lock) => tried_in(answer).map(|taken| tryr_op(*lock, taken)),
        Ask::Do(once) => if is_done(answer) {
            Some(Op::OnceDone(*once))
        } else {
            Some(Op::OnceBegin(*once))
        },
        Ask::EndDo(once) => Some(Op::OnceEnd(*once)),
    }
}

// What was done by who asked to select and was told the answer.
fn made_by_select(offers: &Offers, answer: Answer) -> Option<Op>
    ensures { result ≡ course.made_by_select offers.now answer }
{
    match answer {
        Answer::Chosen(branch, got) => if (branch as usize) < offers.len() {
            made_by_offer(offers.get(branch as usize), got)
        } else {
            None
        },
        Answer::DefaultTaken => Some(Op::Default(offers.cases())),
        _ => None,
    }
}

// What was done by the offer, with that value received, if any; nothing with a nil channel.
fn made_by_offer(offer: Offer, got: Option<u64>) -> Option<Op>
    ensures { result ≡ course.made_by_offer offer got }
{
    match offer {
        Offer::Send(chan, value) => chan.map(|chan| Op::Send(chan, value)),
        Offer::Recv(chan) => chan.map(|chan| received(chan, got)),
    }
}

// What was done by who received that value, or found the channel closed.
fn received(chan: u32, got: Option<u64>) -> Op
    ensures { result ≡ course.received chan got }
{
    match got {
        Some(value) => Op::Recv(chan, value),
        None => Op::RecvClosed(chan),
    }
}

// Whether the lock was taken, as the answer tells.
fn tried_in(answer: Answer) -> Option<bool>
    ensures { result ≡ course.tried_in answer }
{
    match answer {
        Answer::Tried(taken) => Some(taken),
        _ => None,
    }
}

// What was done by who tried to lock.
fn try_op(lock: u32, taken: bool) -> Op
    ensures { result ≡ (if taken then TryLock lock else TryFail lock) }
{
    if taken {
        Op::TryLock(lock)
    } else {
        Op::TryFail(lock)
    }
}

// What was done by who tried to lock for reading.
fn tryr_op(lock: u32, taken: bool) -> Op
    ensures { result ≡ (if taken then TryRLock lock else TryFail lock) }
{
    if taken {
        Op::TryRLock(lock)
    } else {
        Op::TryFail(lock)
    }
}

// The value that the answer tells.
fn value_in(answer: Answer) -> Option<u64>
    ensures { result ≡ course.value_in answer }
{
    match answer {
        Answer::Value(value) => Some(value),
        _ => None,
    }
}
