//! What selects make of each other.

use crate::asks::{Asks, Plain, hub_of};
use crate::turns::{ask, go_on};
use race_hub::Answer::Chosen;
use race_hub::{Answer, Hub};
use race_records::{Object, Op};
use std::alloc::{AllocError, Global};
use std::test::Fail;

/// What main asks, which starts w first, and what w asks; a pick; who receives which value then, or nobody where a default is
/// taken; and what main and w are told.
type Row = (
    &'static [Plain],
    &'static [Plain],
    u64,
    Option<(u32, u64)>,
    (Option<Answer>, Option<Answer>),
);

const MAIN_OFFERS: &[Plain] = &[Plain::Go(1), Plain::Select(&[Some(5), None], false)];

const W_OFFERS: &[Plain] = &[Plain::Select(&[None, Some(6)], false)];

const MAIN_SENDS: &[Plain] = &[Plain::Go(1), Plain::Select(&[Some(5)], true)];

const MAIN_RECEIVES: &[Plain] = &[Plain::Go(1), Plain::Select(&[None], true)];

const MAIN_HAS_NO_OFFER: &[Plain] = &[Plain::Go(1), Plain::Select(&[], true)];

const W_RECEIVES: &[Plain] = &[Plain::Select(&[None], false)];

const W_SENDS: &[Plain] = &[Plain::Select(&[Some(7)], true)];

const W_SENDS_TOO: &[Plain] = &[Plain::Select(&[Some(6)], false)];

const W_HAS_NO_OFFER: &[Plain] = &[Plain::Select(&[], false)];

// Main and w go on by their first offers, or by their second ones.
const BY_FIRST: (Option<Answer>, Option<Answer>) = (
    Some(Chosen(0, None)),
    Some(Chosen(0, Some(5))),
);

const BY_SECOND: (Option<Answer>, Option<Answer>) = (
    Some(Chosen(1, Some(6))),
    Some(Chosen(1, None)),
);

const RECEIVED: (Option<Answer>, Option<Answer>) = (
    Some(Chosen(0, Some(7))),
    Some(Chosen(0, None)),
);

const BY_DEFAULT: (Option<Answer>, Option<Answer>) = (Some(Answer::DefaultTaken), None);

static ROWS: [Row; 8] = [
    // There are two choices, so that pick 2 is the first one again.
    (MAIN_OFFERS, W_OFFERS, 0, Some((1, 5)), BY_FIRST),
    (MAIN_OFFERS, W_OFFERS, 1, Some((0, 6)), BY_SECOND),
    (MAIN_OFFERS, W_OFFERS, 2, Some((1, 5)), BY_FIRST),
    (MAIN_OFFERS, W_OFFERS, 3, Some((0, 6)), BY_SECOND),
    // The sender's default is none while a receiver waits, and the receiver's is none while a sender does.
    (MAIN_SENDS, W_RECEIVES, 1, Some((1, 5)), BY_FIRST),
    (MAIN_RECEIVES, W_SENDS, 1, Some((0, 7)), RECEIVED),
    // Nobody receives, so a default is taken; and there is nothing else to wait for.
    (MAIN_SENDS, W_SENDS_TOO, 1, None, BY_DEFAULT),
    (MAIN_HAS_NO_OFFER, W_HAS_NO_OFFER, 0, None, BY_DEFAULT),
];

// What main and w are told, of those that are ready.
fn told(hub: &mut Hub<Asks>) -> (Option<Answer>, Option<Answer>) {
    let mut main = None;
    let mut other = None;
    for _ in 0..2_u32 {
        if let Some(job) = hub.take() {
            if job.who() == 0 {
                main = Some(job.answer());
            } else {
                other = Some(job.answer());
            }
        }
    }
    (main, other)
}

// Whether it receives that value in the last event, or a default is taken there.
fn is_last(hub: &Hub<Asks>, met: Option<(u32, u64)>) -> bool {
    let len = hub.trace().len();
    if len == 0 {
        return false;
    }
    match hub.trace().event(len - 1).op {
        Op::Meet(receiver, _, value) => met == Some((receiver, value)),
        Op::Default(_) => met.is_none(),
        _ => false,
    }
}

// Main starts w, both select, and the pick happens.
fn select(hub: &mut Hub<Asks>, pick: u64) -> Result<bool, AllocError> {
    Ok(go_on(hub)? && ask(hub)? && ask(hub)? && hub.fire(pick)?)
}

fn comes(alloc: Global, row: &Row) -> Result<bool, Fail> {
    let (main, other, pick, met, answers) = *row;
    let mut hub = hub_of(alloc, Object::Chan(0), 8, main, other)?;
    Ok(select(&mut hub, pick)? && is_last(&hub, met) && told(&mut hub) == answers)
}

#[test]
fn selects_meet_and_stand_back(rt: HostRuntime) -> Result<(), Fail> {
    for (at, row) in ROWS.iter().enumerate() {
        assert!(rt; comes(rt.alloc(), row)?, "row {at}");
    }
    Ok(())
}
