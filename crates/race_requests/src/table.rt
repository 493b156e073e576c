//! The rows of the table: what a goroutine is told, and which event a step of its log fits.
ghost use Rattle.std.specs.Prelude.{ℕ, ◌≡◌, ◌≤◌, ◌↔◌, if◌then◌else◌, length, Option, Some, None, IsTrue, option_map};
ghost use Rattle.race_requests.specs.{declared.request.Answer.Answer, Choices.branches, Table.{offers_of, done_by, IsRow}};
ghost use Rattle.race_requests.specs.Table.{Fits, CanMake, told_if, told_sender, told_receiver, told_closer, told_by};
ghost use Rattle.race_requests.specs.Table.{chosen, told_offer, told_selector, told_at};
ghost use Rattle.race_requests.specs.Table as spec;

use crate::possible::is_default_branch;
use crate::{Answer, Ask, Offer, Offers, Step};
use race_records::{Cause, Event, Op};

// What is told, where the test passes.
fn tells(test: bool, told: Option<Answer>) -> Option<Option<Answer>>
    ensures { result ≡ told_if test told }
{
    if test { Some(told) } else { None }
}

// What is told who asks to send.
fn tells_sender(chan: Option<u32>, value: u64, done: &Op) -> Option<Option<Answer>>
    ensures { result ≡ told_sender chan value done.now }
{
    let Some(chan) = chan else {
        return None;
    };
    match done {
        Op::Send(on, sent) => tells(*on == chan && *sent == value, Some(Answer::Unit)),
        Op::Fault(Cause::SendClosed(on)) => tells(*on == chan, None),
        _ => None,
    }
}

// What is told who asks to receive.
fn tells_receiver(chan: Option<u32>, done: &Op) -> Option<Option<Answer>>
    ensures { result ≡ told_receiver chan done.now }
{
    let Some(chan) = chan else {
        return None;
    };
    match done {
        Op::Recv(from, value) => tells(*from == chan, Some(Answer::Value(*value))),
        Op::RecvClosed(from) => tells(*from == chan, Some(Answer::Closed)),
        _ => None,
    }
}

// What is told who asks to close.
fn tells_closer(chan: Option<u32>, done: &Op) -> Option<Option<Answer>>
    ensures { result ≡ told_closer chan done.now }
{
    let Some(chan) = chan else {
        return match done {
            Op::Fault(Cause::CloseNil) => Some(None),
            _ => None,
        };
    };
    match done {
        Op::Close(closed) => tells(*closed == chan, Some(Answer::Unit)),
        Op::Fault(Cause::CloseClosed(closed)) => tells(*closed == chan, None),
        _ => None,
    }
}

// What is told who asks to unlock.
fn tells_unlocker(lock: u32, done: &Op) -> Option<Option<Answer>>
    ensures { result ≡ told_by (Ask.Unlock lock) done.now }
{
    match done {
        Op::Unlock(unlocked) => tells(*unlocked == lock, Some(Answer::Unit)),
        Op::Fault(Cause::UnlockFree(unlocked)) => tells(*unlocked == lock, None),
        _ => None,
    }
}

// What is told who asks to unlock from reading.
fn tells_runlocker(lock: u32, done: &Op) -> Option<Option<Answer>>
    ensures { result ≡ told_by (Ask.RUnlock lock) done.now }
{
    match done {
        Op::RUnlock(unlocked) => tells(*unlocked == lock, Some(Answer::Unit)),
        Op::Fault(Cause::RUnlockFree(unlocked)) => tells(*unlocked == lock, None),
        _ => None,
    }
}

// What is told who tries to lock, by its branch of this number.
fn tells_trier(lock: u32, branch: u32, done: &Op) -> Option<Option<Answer>>
    ensures { result ≡ told_at (Ask.TryLock lock) branch done.now }
{
    match done {
        Op::TryLock(taken) => tells(branch == 0 && *taken == lock, Some(Answer::Tried(true))),
        Op::TryFail(missed) => tells(branch == 1 && *missed == lock, Some(Answer::Tried(false))),
        _ => None,
    }
}

// What is told who tries to lock for reading, by its branch of this number.
fn tells_rtrier(lock: u32, branch: u32, done: &Op) -> Option<Option<Answer>>
    ensures { result ≡ told_at (Ask.TryRLock lock) branch done.now }
{
    match done {
        Op::TryRLock(taken) => tells(branch == 0 && *taken == lock, Some(Answer::Tried(true))),
        Op::TryFail(missed) => tells(branch == 1 && *missed == lock, Some(Answer::Tried(false))),
        _ => None,
    }
}

// What is told who asks to run the function of a once.
fn tells_doer(once: u32, done: &Op) -> Option<Option<Answer>>
    ensures { result ≡ told_by (Ask.Do once) done.now }
{
    match done {
        Op::OnceBegin(begun) => tells(*begun == once, Some(Answer::Run)),
        Op::OnceDone(found) => tells(*found == once, Some(Answer::AlreadyDone)),
        _ => None,
    }
}

// What is told who asks by its offer of this number, where a plain one is told that.
fn tells_chosen(branch: u32, told: Option<Option<Answer>>) -> Option<Option<Answer>>
    ensures { result ≡ option_map (option_map (chosen branch)) told }
{
    match told {
        Some(Some(Answer::Value(value))) => Some(Some(Answer::Chosen(branch, Some(value)))),
        Some(Some(_)) => Some(Some(Answer::Chosen(branch, None))),
        Some(None) => Some(None),
        None => None,
    }
}

// What is told who went on by that offer, which is its offer of this number.
fn tells_offer(branch: u32, offer: Offer, done: &Op) -> Option<Option<Answer>>
    ensures { result ≡ told_offer branch offer done.now }
{
    match offer {
        Offer::Send(chan, value) => tells_chosen(branch, tells_sender(chan, value, done)),
        Offer::Recv(chan) => tells_chosen(branch, tells_receiver(chan, done)),
    }
}

// What is told who asks to select.
fn tells_selector(
    offers: &Offers,
    has_default: bool,
    branch: u32,
    done: &Op,
) -> Option<Option<Answer>>
    ensures { result ≡ told_selector offers.now has_default branch done.now }
{
    if let Op::Default(cases) = done {
        return tells(
            is_default_branch(offers, has_default, branch) && *cases == offers.cases(),
            Some(Answer::DefaultTaken),
        );
    }
    if branch as usize >= offers.len() {
        return None;
    }
    tells_offer(branch, offers.get(branch as usize), done)
}

// What is told who asks, but to select or to try, and did that.
fn tells_by(ask: &Ask, done: &Op) -> Option<Option<Answer>>
    ensures { result ≡ told_by ask.now done.now }
{
    match ask {
        Ask::Go(goroutine) => match done {
            Op::Go(started) => tells(*started == *goroutine, Some(Answer::Unit)),
            _ => None,
        },
        Ask::Exit => match done {
            Op::Exit => Some(None),
            _ => None,
        },
        Ask::Read(var) => match done {
            Op::Read(read, value) => tells(*read == *var, Some(Answer::Value(*value))),
            _ => None,
        },
        Ask::Write(var, value) => match done {
            Op::Write(on, written) => tells(*on == *var && *written == *value, Some(Answer::Unit)),
            _ => None,
        },
        Ask::Send(chan, value) => tells_sender(*chan, *value, done),
        Ask::Recv(chan) => tells_receiver(*chan, done),
        Ask::Close(chan) => tells_closer(*chan, done),
        Ask::Lock(lock) => match done {
            Op::Lock(locked) => tells(*locked == *lock, Some(Answer::Unit)),
            _ => None,
        },
        Ask::Unlock(lock) => tells_unlocker(*lock, done),
        Ask::RLock(lock) => match done {
            Op::RLock(locked) => tells(*locked == *lock, Some(Answer::Unit)),
            _ => None,
        },
        Ask::RUnlock(lock) => tells_runlocker(*lock, done),
        Ask::Do(once) => tells_doer(*once, done),
        Ask::EndDo(once) => match done {
            Op::OnceEnd(ended) => tells(*ended == *once, Some(Answer::Unit)),
            _ => None,
        },
        _ => None,
    }
}

// What is told who asks and did that by its branch of this number.
fn tells_at(ask: &Ask, branch: u32, done: &Op) -> Option<Option<Answer>>
    ensures { result ≡ told_at ask.now branch done.now }
{
    match ask {
        Ask::Select(offers, has_default) => tells_selector(offers, *has_default, branch, done),
        Ask::TryLock(lock) => tells_trier(*lock, branch, done),
        Ask::TryRLock(lock) => tells_rtrier(*lock, branch, done),
        _ => if branch == 0 {
            tells_by(ask, done)
        } else {
            None
        },
    }
}

/// What the goroutine is told that asks and takes part in an event with this operation, by its branch of this number: `None`
/// where the table has no such row, and `Some(None)` where it is told nothing, as after an exit and a fault.
pub fn answer_of(who: u32, ask: &Ask, branch: u32, op: &Op) -> Option<Option<Answer>>
    ensures { result ≡ told_at ask.now branch (done_by who op.now) }
{
    match op {
        Op::Meet(receiver, chan, value) => if *receiver == who {
            tells_at(ask, branch, &Op::Recv(*chan, *value))
        } else {
            tells_at(ask, branch, &Op::Send(*chan, *value))
        },
        _ => tells_at(ask, branch, op),
    }
}

// Where the goroutine stands in the event.
fn place_of(who: u32, event: &Event) -> Option<u32>
    ensures { result ≡ spec.place_of who event.now }
{
    match event.op {
        Op::Meet(receiver, _, _) => if receiver == who {
            event.place2
        } else {
            Some(event.place)
        },
        _ => Some(event.place),
    }
}

// Whether the table has a row, and it tells that.
fn is_told(row: Option<Option<Answer>>, told: Option<Answer>) -> bool
    ensures { IsTrue result ↔ (row ≡ Some told) }
{
    match (row, told) {
        (Some(None), None) => true,
        (Some(Some(answer)), Some(other)) => answer == other,
        _ => false,
    }
}

/// How many offers the ask has.
#[inline(always)]
pub(crate) fn offer_count(ask: &Ask) -> u32
    ensures count { result ≡ length (offers_of ask.now) }
    ensures few { result ≤ 16 }
{
    match ask {
        Ask::Send(_, _) => 1,
        Ask::Recv(_) => 1,
        Ask::Select(offers, _) => offers.len() as u32,
        _ => 0,
    }
}

/// How many branches who asks has.
#[inline(always)]
pub(crate) fn branch_count(ask: &Ask) -> u32
    ensures { result ≡ branches ask.now }
{
    match ask {
        Ask::Select(offers, has_default) => offers.len() as u32 + u32::from(*has_default),
        Ask::TryLock(_) => 2,
        Ask::TryRLock(_) => 2,
        _ => 1,
    }
}

// Whether by some branch the table has a row that tells that.
fn is_told_by_some_branch(who: u32, step: &Step, op: &Op) -> bool
    ensures { IsTrue result ↔ ((k : ℕ) × IsRow step.now.asked.ask k (done_by who op.now) step.now.told) }
{
    for branch in 0..branch_count(&step.asked.ask) {
        if is_told(answer_of(who, &step.asked.ask, branch, op), step.told) {
            return true;
        }
    }
    false
}

/// Whether the step of a goroutine's log fits the event.
pub fn fits_step(who: u32, step: &Step, event: &Event) -> bool
    ensures { IsTrue result ↔ Fits who step.now event.now }
{
    if place_of(who, event) != Some(step.asked.place) {
        return false;
    }
    is_told_by_some_branch(who, step, &event.op)
}

/// Whether the table has a row for what the goroutine asks and what it does in an event with this operation.
pub fn can_make(who: u32, ask: &Ask, op: &Op) -> bool
    ensures { IsTrue result ↔ CanMake who ask.now op.now }
{
    for branch in 0..branch_count(ask) {
        if answer_of(who, ask, branch, op).is_some() {
            return true;
        }
    }
    false
}
