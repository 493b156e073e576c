//! A choice with its event, and with what its goroutines are told.
ghost use Rattle.std.specs.Prelude.{◌≡◌, ◌≤◌, ◌-◌, length, Option, Some, None};
ghost use Rattle.race_requests.specs.declared.request.Answer.{Answer};
ghost use Rattle.race_hub.specs.{Fires.{partner_of, IsPartnerRow, started_by}, Firing.{HasRows, HasSomeRows}};

use crate::{Answer, Choice, Waiter, answer_of};
use race_records::{Event, Op};

/// What a firing is to do.
#[derive(Drop)]
pub(crate) struct Firing {
    pub(crate) choice: Choice,
    pub(crate) event: Event,
    // What who asked is told; nothing after an exit and a fault.
    pub(crate) told: Option<Answer>,
    // What its partner is told, where it has one.
    pub(crate) partner: Option<Answer>,
}

// What the choice's partner is told, where it has one.
#[inline(always)]
fn partner_told(waiting: &[Waiter], choice: Choice, op: &Op) -> Option<Answer>
    requires partner { choice.partner ≤ length waiting.now }
    requires row { (told : Option Answer) × IsPartnerRow (partner_of choice waiting.now) (choice.partner_offer - 1) op.now told }
    ensures { IsPartnerRow (partner_of choice waiting.now) (choice.partner_offer - 1) op.now result }
{
    if choice.partner == 0 {
        return None;
    }
    let waiter = &waiting[choice.partner as usize - 1];
    let branch = choice.partner_offer.saturating_sub(1);
    match answer_of(waiter.who, &waiter.asked.ask, branch, op) {
        Some(told) => told,
        None => unreachable!(),
    }
}

/// What the choice that makes this event is to do.
#[inline(always)]
pub(crate) fn firing_of(waiting: &[Waiter], choice: Choice, event: Event) -> Firing
    requires { HasSomeRows waiting.now choice event }
    ensures choice { result.choice ≡ choice }
    ensures event { result.event ≡ event }
    ensures rows { HasRows waiting.now choice event result.told result.partner }
{
    let waiter = &waiting[choice.place as usize];
    let Some(told) = answer_of(waiter.who, &waiter.asked.ask, choice.offer, &event.op) else {
        unreachable!();
    };
    let partner = partner_told(waiting, choice, &event.op);
    Firing {
        choice,
        event,
        told,
        partner,
    }
}

/// Whom the operation starts.
pub(crate) fn started_in(op: &Op) -> Option<u32>
    ensures { result ≡ started_by op.now }
{
    match op {
        Op::Go(goroutine) => Some(*goroutine),
        _ => None,
    }
}
