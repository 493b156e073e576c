//! What tries to lock make, and which of them a hub refuses.

use crate::asks::{Asks, Plain, declared, routine_of, routines_of};
use crate::turns::{ask, go_on};
use race_hub::{Answer, End, Hub};
use race_records::{Object, Op};
use std::alloc::{AllocError, Global};
use std::test::Fail;

/// What a try came to.
#[derive(Clone, Copy, PartialEq, Eq)]
enum Made {
    Locked,
    ReadLocked,
    Failed,
}

/// What main asks, of which the last is a try of the rwmutex; the pick by which that happens, what it made, and what main is told.
type Row = (&'static [Plain], u64, Made, Answer);

const FREE: &[Plain] = &[Plain::TryLock(0)];

const FREE_TO_READ: &[Plain] = &[Plain::TryRLock(0)];

const HELD: &[Plain] = &[Plain::Lock(0), Plain::TryLock(0)];

const HELD_TO_READ: &[Plain] = &[Plain::Lock(0), Plain::TryRLock(0)];

const READ_HELD: &[Plain] = &[Plain::RLock(0), Plain::TryLock(0)];

const BESIDE_A_READER: &[Plain] = &[Plain::RLock(0), Plain::TryRLock(0)];

const TRIED: &[Plain] = &[Plain::TryLock(0), Plain::TryLock(0)];

// A try that could succeed has two choices, so that pick 2 is pick 0 again; another one has one.
static ROWS: [Row; 16] = [
    (FREE, 0, Made::Locked, Answer::Tried(true)),
    (FREE, 1, Made::Failed, Answer::Tried(false)),
    (FREE, 2, Made::Locked, Answer::Tried(true)),
    (FREE_TO_READ, 0, Made::ReadLocked, Answer::Tried(true)),
    (FREE_TO_READ, 1, Made::Failed, Answer::Tried(false)),
    (FREE_TO_READ, 2, Made::ReadLocked, Answer::Tried(true)),
    (HELD, 0, Made::Failed, Answer::Tried(false)),
    (HELD, 1, Made::Failed, Answer::Tried(false)),
    (HELD_TO_READ, 0, Made::Failed, Answer::Tried(false)),
    (HELD_TO_READ, 1, Made::Failed, Answer::Tried(false)),
    (READ_HELD, 0, Made::Failed, Answer::Tried(false)),
    (READ_HELD, 1, Made::Failed, Answer::Tried(false)),
    (BESIDE_A_READER, 0, Made::ReadLocked, Answer::Tried(true)),
    (BESIDE_A_READER, 1, Made::Failed, Answer::Tried(false)),
    (TRIED, 0, Made::Failed, Answer::Tried(false)),
    (TRIED, 1, Made::Failed, Answer::Tried(false)),
];

// A hub of version 1 or 2 with a mutex, or an rwmutex, in which main asks these.
fn hub_of(
    alloc: Global,
    is_version2: bool,
    rw: bool,
    main: &'static [Plain],
) -> Result<Hub<Asks>, Fail> {
    let routines = routines_of(alloc, routine_of(main), routine_of(&[]))?;
    let decls = declared(alloc, is_version2, Object::Lock(rw))?;
    Ok(Hub::new(alloc, decls, 8, routines)?)
}

fn last_made(hub: &Hub<Asks>) -> Option<Made> {
    let len = hub.trace().len();
    if len == 0 {
        return None;
    }
    match hub.trace().event(len - 1).op {
        Op::TryLock(0) => Some(Made::Locked),
        Op::TryRLock(0) => Some(Made::ReadLocked),
        Op::TryFail(0) => Some(Made::Failed),
        _ => None,
    }
}

// So many asks go on by their first choices, and the next one by the pick.
fn play(hub: &mut Hub<Asks>, before: usize, pick: u64) -> Result<bool, AllocError> {
    for _ in 0..before {
        if !go_on(hub)? {
            return Ok(false);
        }
    }
    Ok(ask(hub)? && hub.fire(pick)?)
}

fn comes(alloc: Global, row: &Row) -> Result<bool, Fail> {
    let &(main, pick, made, answer) = row;
    let mut hub = hub_of(alloc, true, true, main)?;
    let is_played = play(&mut hub, main.len().saturating_sub(1), pick)?;
    let is_made = last_made(&hub) == Some(made);
    let told = hub.take().map(|job| job.answer());
    Ok(is_played && is_made && told == Some(answer))
}

#[test]
fn a_try_that_could_succeed_has_two_choices(rt: HostRuntime) -> Result<(), Fail> {
    for (at, row) in ROWS.iter().enumerate() {
        assert!(rt; comes(rt.alloc(), row)?, "row {at}");
    }
    Ok(())
}

/// Whether the version is 2, whether the lock is an rwmutex, what main asks first, and how the hub ends then.
type Ending = (bool, bool, &'static [Plain], Option<End>);

static ENDINGS: [Ending; 6] = [
    (false, true, FREE, Some(End::Bad(0))),
    (false, true, FREE_TO_READ, Some(End::Bad(0))),
    (true, true, FREE, None),
    (true, true, FREE_TO_READ, None),
    (true, false, FREE, None),
    (true, false, FREE_TO_READ, Some(End::Bad(0))),
];

fn ends_so(alloc: Global, row: &Ending) -> Result<bool, Fail> {
    let &(is_version2, rw, main, end) = row;
    let mut hub = hub_of(alloc, is_version2, rw, main)?;
    let _asked = ask(&mut hub)?;
    Ok(hub.end() == end)
}

#[test]
fn a_try_wants_version_2_and_its_kind_of_lock(rt: HostRuntime) -> Result<(), Fail> {
    for (at, row) in ENDINGS.iter().enumerate() {
        assert!(rt; ends_so(rt.alloc(), row)?, "row {at}");
    }
    Ok(())
}
