//! Routines that ask what can't be, in a hub, on one thread and on several.

use crate::asks::{Asks, Plain, ask_of, routine_of, routines_of};
use crate::turns::{By, go_on, recorded};
use race_hub::{Answer, End, Hub, Log, Recording, SubmitFault};
use race_records::{Decls, Object, Op};
use std::alloc::{AllocError, Global};
use std::test::Fail;

/// What main asks, of which the last can't be, whether there is a place, and whether the version is 2.
type Row = (&'static [Plain], bool, bool);

static ROWS: [Row; 13] = [
    // A variable and a place that aren't there.
    (&[Plain::Read(1)], true, false),
    (&[Plain::Read(0)], false, false),
    // Channels that aren't there, two of them with numbers that no channel has.
    (&[Plain::SelectFrom(0)], true, false),
    (&[Plain::SelectFrom(65_535)], true, false),
    (&[Plain::SelectFrom(u32::MAX)], true, false),
    // A mutex can't be locked for reading, and main runs.
    (&[Plain::RLock(0)], true, false),
    (&[Plain::Go(0)], true, false),
    // A once that isn't there; its function hasn't begun; and it hasn't ended.
    (&[Plain::EndDo(1)], true, false),
    (&[Plain::EndDo(0)], true, false),
    (&[Plain::Do(0), Plain::Exit], true, false),
    // Version 1 has no tries, and in version 2 a mutex can't be locked for reading by one either.
    (&[Plain::TryLock(0)], true, false),
    (&[Plain::TryRLock(0)], true, false),
    (&[Plain::TryRLock(0)], true, true),
];

static OBJECTS: [(&str, Object); 4] = [
    ("w", Object::Goroutine),
    ("x", Object::Var),
    ("m", Object::Lock(false)),
    ("o", Object::Once),
];

fn declared(alloc: Global, has_place: bool, is_version2: bool) -> Result<Decls, Fail> {
    let mut decls = if is_version2 {
        Decls::new_version2(alloc)
    } else {
        Decls::new(alloc)
    };
    for &(name, object) in &OBJECTS {
        decls.declare(name, object)?;
    }
    if has_place {
        decls.add_place("p")?;
    }
    Ok(decls)
}

fn hub_of(alloc: Global, row: &Row) -> Result<Hub<Asks>, Fail> {
    let &(asks, has_place, is_version2) = row;
    let routines = routines_of(alloc, routine_of(asks), routine_of(&[]))?;
    Ok(Hub::new(alloc, declared(alloc, has_place, is_version2)?, 9, routines)?)
}

// Whether the last of these waits.
fn waits(recording: &Recording, asks: &[Plain]) -> bool {
    match (recording.waiting(0), asks.last()) {
        (Some(request), Some(ask)) => request.ask == ask_of(*ask) && request.place == 0,
        _ => false,
    }
}

// Whether each step asks to begin the once, and is told to run its function.
fn is_told_to_run(log: &Log) -> bool {
    for at in 0..log.len() {
        let step = log.step(at);
        if step.asked.ask != ask_of(Plain::Do(0)) || step.told != Some(Answer::Run) {
            return false;
        }
    }
    true
}

// Whether nothing happened but that the once was begun, and main was told to run its function.
fn has_begun_alone(recording: &Recording) -> bool {
    let is_begin = recording
        .trace()
        .events()
        .iter()
        .all(|event| event.who == 0 && event.op == Op::OnceBegin(0));
    is_begin && is_told_to_run(recording.logs(0))
}

// Whether all but the last of these happened, and the run ended there.
fn has_ended(recording: &Recording, asks: &[Plain]) -> bool {
    let happened = asks.len().saturating_sub(1);
    recording.end() == End::Bad(0)
        && recording.trace().len() == happened
        && recording.logs(0).len() == happened
        && has_begun_alone(recording)
        && waits(recording, asks)
        && recording.waiting(1).is_none()
}

// Whether the hub refuses what main asks next, and ends.
fn refuses(hub: &mut Hub<Asks>) -> Result<bool, AllocError> {
    let Some(mut job) = hub.take() else {
        return Ok(false);
    };
    job.turn()?;
    match hub.submit(job) {
        Err(SubmitFault::BadRequest) => Ok(hub.end() == Some(End::Bad(0))),
        _ => Ok(false),
    }
}

// Lets all but the last happen.
fn play(hub: &mut Hub<Asks>, asks: &[Plain]) -> Result<bool, AllocError> {
    for _ in 1..asks.len() {
        if !go_on(hub)? {
            return Ok(false);
        }
    }
    Ok(true)
}

fn is_refused(alloc: Global, row: &Row) -> Result<bool, Fail> {
    let mut hub = hub_of(alloc, row)?;
    let is_bad = play(&mut hub, row.0)? && refuses(&mut hub)?;
    match hub.finish() {
        Ok(recording) => Ok(is_bad && has_ended(&recording, row.0)),
        Err(_) => Ok(false),
    }
}

#[test]
fn a_hub_refuses_nonsense(rt: HostRuntime) -> Result<(), Fail> {
    for (at, row) in ROWS.iter().enumerate() {
        assert!(rt; is_refused(rt.alloc(), row)?, "row {at}");
    }
    Ok(())
}

static WAYS: [By<'static>; 3] = [By::Picks(&[]), By::Workers(1, 0), By::Workers(2, 0)];

#[test]
fn nonsense_ends_a_recording(rt: HostRuntime) -> Result<(), Fail> {
    for (at, row) in ROWS.iter().enumerate() {
        for by in &WAYS {
            let recording = recorded(&rt, hub_of(rt.alloc(), row)?, *by)?;
            assert!(rt; has_ended(&recording, row.0), "row {at}");
        }
    }
    Ok(())
}
