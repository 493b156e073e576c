//! What the logs of a recording say, and who waits with what.

use crate::asks::Plain::{Close, Do, EndDo, Exit, Go, Read, Recv, Send, Write};
use crate::asks::{Asks, Plain, ask_of, hub_of};
use crate::turns::{By, go_on, recorded};
use race_hub::{Answer, Hub, Log, Recording, Request, Step};
use race_records::{Kind, Object};
use std::alloc::{AllocError, Global};
use std::test::Fail;

/// What was asked and what was told in a step.
type Told = (Plain, Option<Answer>);

/// What the log of a goroutine says, and what it waits with.
type Lines = (&'static [Told], Option<Plain>);

/// The object, how many events there may be, what main and w ask, the picks, and the logs of both.
struct Row {
    object: Object,
    limit: u32,
    main: &'static [Plain],
    other: &'static [Plain],
    picks: &'static [u64],
    logs: (Lines, Lines),
}

// Main starts w and reads, and w writes, which is the last event.
const LIMITED: Row = Row {
    object: Object::Var,
    limit: 2,
    main: &[Go(1), Read(0)],
    other: &[Write(0, 5)],
    picks: &[0, 1],
    logs: (
        (&[(Go(1), DONE)], Some(Read(0))),
        (&[(Write(0, 5), DONE)], None),
    ),
};

const DONE: Option<Answer> = Some(Answer::Unit);

const FOUND: Option<Answer> = Some(Answer::Value(7));

const NOTHING: Lines = (&[], None);

static ROWS: [Row; 6] = [
    LIMITED,
    // A value is read, and main exits before w does.
    Row {
        object: Object::Var,
        limit: 9,
        main: &[Go(1), Write(0, 7)],
        other: &[Read(0)],
        picks: &[],
        logs: (
            (&[(Go(1), DONE), (Write(0, 7), DONE), (Exit, None)], None),
            (&[(Read(0), FOUND)], Some(Exit)),
        ),
    },
    // Both have met, and ask once more.
    Row {
        object: Object::Chan(0),
        limit: 9,
        main: &[Go(1), Send(0, 7)],
        other: &[Recv(Some(0))],
        picks: &[],
        logs: (
            (&[(Go(1), DONE), (Send(0, 7), DONE), (Exit, None)], None),
            (&[(Recv(Some(0)), FOUND)], Some(Exit)),
        ),
    },
    Row {
        object: Object::Chan(1),
        limit: 9,
        main: &[Send(0, 7), Recv(Some(0)), Close(Some(0)), Recv(Some(0))],
        other: &[],
        picks: &[],
        logs: (
            (
                &[
                    (Send(0, 7), DONE),
                    (Recv(Some(0)), FOUND),
                    (Close(Some(0)), DONE),
                    (Recv(Some(0)), Some(Answer::Closed)),
                    (Exit, None),
                ],
                None,
            ),
            NOTHING,
        ),
    },
    Row {
        object: Object::Once,
        limit: 9,
        main: &[Do(0), EndDo(0), Do(0)],
        other: &[],
        picks: &[],
        logs: (
            (
                &[
                    (Do(0), Some(Answer::Run)),
                    (EndDo(0), DONE),
                    (Do(0), Some(Answer::AlreadyDone)),
                    (Exit, None),
                ],
                None,
            ),
            NOTHING,
        ),
    },
    // A failure is told nothing.
    Row {
        object: Object::Var,
        limit: 9,
        main: &[Close(None)],
        other: &[],
        picks: &[],
        logs: ((&[(Close(None), None)], None), NOTHING),
    },
];

fn is_asked(request: &Request, ask: Plain) -> bool {
    request.ask == ask_of(ask) && request.place == 0
}

fn is_step(step: &Step, told: Told) -> bool {
    is_asked(&step.asked, told.0) && step.told == told.1
}

fn are_steps(steps: &Log, log: &[Told]) -> bool {
    if steps.len() != log.len() {
        return false;
    }
    for at in 0..steps.len() {
        if !is_step(&steps.step(at), log[at]) {
            return false;
        }
    }
    true
}

fn is_log(recording: &Recording, goroutine: u32, log: Lines) -> bool {
    let waits = match (recording.waiting(goroutine), log.1) {
        (Some(request), Some(ask)) => is_asked(request, ask),
        (None, None) => true,
        _ => false,
    };
    waits
        && goroutine < recording.trace().decls().count(Kind::Goroutine)
        && are_steps(recording.logs(goroutine), log.0)
}

fn are_logs(recording: &Recording, row: &Row) -> bool {
    is_log(recording, 0, row.logs.0) && is_log(recording, 1, row.logs.1)
}

fn opened(alloc: Global, row: &Row) -> Result<Hub<Asks>, Fail> {
    hub_of(alloc, row.object, row.limit, row.main, row.other)
}

#[test]
fn a_log_says_what_was_asked_and_told(rt: HostRuntime) -> Result<(), Fail> {
    for (at, row) in ROWS.iter().enumerate() {
        let recording = recorded(&rt, opened(rt.alloc(), row)?, By::Picks(row.picks))?;
        assert!(rt; are_logs(&recording, row), "row {at}");
    }
    Ok(())
}

// Main goes on once. Then both ask, w is put back and goes on, and main is put back.
fn play(hub: &mut Hub<Asks>) -> Result<bool, AllocError> {
    if !go_on(hub)? {
        return Ok(false);
    }
    let (Some(mut main), Some(mut other)) = (hub.take(), hub.take()) else {
        return Ok(false);
    };
    main.turn()?;
    other.turn()?;
    Ok(hub.submit(other).is_ok() && hub.fire(0)? && hub.submit(main).is_ok())
}

fn played(alloc: Global) -> Result<bool, Fail> {
    let mut hub = opened(alloc, &LIMITED)?;
    let is_played = play(&mut hub)?;
    match hub.finish() {
        Ok(recording) => Ok(is_played && are_logs(&recording, &LIMITED)),
        Err(_) => Ok(false),
    }
}

#[test]
fn a_request_that_comes_back_after_the_end_waits(rt: HostRuntime) -> Result<(), Fail> {
    assert!(rt; played(rt.alloc())?);
    Ok(())
}
