//! What a hub gives, step by step.

use crate::asks::{Asks, Plain, declared, hub_of, routine_of, routines_of};
use race_hub::{
    Answer, Ask, Boxed, End, Hub, HubFault, Job, Mismatch, Recording, Request, Routine, SubmitFault,
};
use race_records::{Kind, Object};
use std::alloc::{AllocError, Global};
use std::test::Fail;

// Writes its value, and exits once it is told that it did.
#[derive(Drop)]
struct Writes {
    value: u64,
}

impl Routine for Writes {
    ghost use Rattle.std.specs.Prelude.{⊤};

    ghost asks = { λ _ _ _ _. ⊤ };

    fn next(&mut self, answer: Answer) -> Request {
        let ask = match answer {
            Answer::Begin => Ask::Write(0, self.value),
            _ => Ask::Exit,
        };
        Request { ask, place: 0 }
    }
}

/// What is done with a hub.
#[derive(Clone, Copy, PartialEq, Eq)]
enum Move {
    Take,
    /// The job of this goroutine asks, and is put back.
    Submit(u32),
    /// It is put back as it is.
    Return(u32),
    Fire(u64),
}

/// What comes of it.
#[derive(Clone, Copy, PartialEq, Eq)]
enum Came {
    Nothing,
    Taken(u32),
    Done,
    Bad,
    Stray(u32),
}

/// What comes of a move, and then how many jobs are out, how the hub has ended, and how many events it has.
type Row = (Move, Came, usize, Option<End>, usize);

/// The jobs that are out.
#[derive(Drop)]
struct Held<R> {
    main: Option<Job<R>>,
    other: Option<Job<R>>,
}

impl<R: Routine> Held<R> {
    fn of(&mut self, who: u32) -> &mut Option<Job<R>> {
        if who == 0 {
            &mut self.main
        } else {
            &mut self.other
        }
    }

    // Keeps the job, and says whose it is.
    fn keep(&mut self, job: Job<R>) -> u32 {
        let who = job.who();
        if who == 0 {
            self.main = Some(job);
        } else {
            self.other = Some(job);
        }
        who
    }
}

fn take<R: Routine>(hub: &mut Hub<R>, held: &mut Held<R>) -> Came {
    match hub.take() {
        Some(job) => Came::Taken(held.keep(job)),
        None => Came::Nothing,
    }
}

fn submit<R: Routine>(
    hub: &mut Hub<R>,
    held: &mut Held<R>,
    job: Option<Job<R>>,
) -> Result<Came, AllocError> {
    let Some(job) = job else {
        return Ok(Came::Nothing);
    };
    match hub.submit(job) {
        Ok(()) => Ok(Came::Done),
        Err(SubmitFault::BadRequest) => Ok(Came::Bad),
        Err(SubmitFault::OutOfMemory(_)) => Err(AllocError),
        Err(SubmitFault::Stray(job)) => Ok(Came::Stray(held.keep(job))),
    }
}

// Lets the job, if there is one, ask.
fn asked<R: Routine>(job: Option<Job<R>>) -> Result<Option<Job<R>>, AllocError> {
    let Some(mut job) = job else {
        return Ok(None);
    };
    job.turn()?;
    Ok(Some(job))
}

fn fired(happens: bool) -> Came {
    if happens { Came::Done } else { Came::Nothing }
}

fn made<R: Routine>(hub: &mut Hub<R>, held: &mut Held<R>, made: Move) -> Result<Came, AllocError> {
    match made {
        Move::Take => Ok(take(hub, held)),
        Move::Submit(who) => {
            let job = asked(held.of(who).take())?;
            submit(hub, held, job)
        }
        Move::Return(who) => {
            let job = held.of(who).take();
            submit(hub, held, job)
        }
        Move::Fire(pick) => Ok(fired(hub.fire(pick)?)),
    }
}

// Whether the row comes as it stands here.
fn comes<R: Routine>(hub: &mut Hub<R>, held: &mut Held<R>, row: &Row) -> Result<bool, AllocError> {
    let (made_now, came, out, end, len) = *row;
    let comes = made(hub, held, made_now)?;
    Ok(comes == came && hub.out() == out && hub.end() == end && hub.trace().len() == len)
}

// The first row that comes otherwise.
fn first_wrong<R: Routine>(
    hub: &mut Hub<R>,
    held: &mut Held<R>,
    rows: &[Row],
) -> Result<Option<usize>, AllocError> {
    for (at, row) in rows.iter().enumerate() {
        if !comes(hub, held, row)? {
            return Ok(Some(at));
        }
    }
    Ok(None)
}

// The same of a hub from which no job is out.
fn played<R: Routine>(hub: &mut Hub<R>, rows: &[Row]) -> Result<Option<usize>, AllocError> {
    let mut held = Held {
        main: None,
        other: None,
    };
    first_wrong(hub, &mut held, rows)
}

/// How a run ended, how many steps the logs of main and w have, and whether they wait; or why nothing is recorded.
type Finished = Result<(End, usize, usize, bool, bool), Mismatch>;

/// A limit, what main and w ask, rows, how many of them are played, and what comes of the hub then.
type Run = (
    u32,
    &'static [Plain],
    &'static [Plain],
    &'static [Row],
    usize,
    Finished,
);

const NEW: [Row; 7] = [
    (Move::Fire(0), Came::Nothing, 0, None, 0),
    (Move::Take, Came::Taken(0), 1, None, 0),
    (Move::Take, Came::Nothing, 1, None, 0),
    (Move::Return(0), Came::Stray(0), 1, None, 0),
    (Move::Submit(0), Came::Done, 0, None, 0),
    (Move::Fire(9), Came::Done, 0, Some(End::Main), 1),
    (Move::Fire(0), Came::Nothing, 0, Some(End::Main), 1),
];

const BAD: [Row; 3] = [
    (Move::Take, Came::Taken(0), 1, None, 0),
    (Move::Submit(0), Came::Bad, 0, Some(End::Bad(0)), 0),
    (Move::Fire(0), Came::Nothing, 0, Some(End::Bad(0)), 0),
];

const FAULT: [Row; 3] = [
    (Move::Take, Came::Taken(0), 1, None, 0),
    (Move::Submit(0), Came::Done, 0, None, 0),
    (Move::Fire(0), Came::Done, 0, Some(End::Fault), 1),
];

const DEADLOCK: [Row; 3] = [
    (Move::Take, Came::Taken(0), 1, None, 0),
    (Move::Submit(0), Came::Done, 0, Some(End::Deadlock), 0),
    (Move::Fire(0), Came::Nothing, 0, Some(End::Deadlock), 0),
];

const ONE_WRITE: [Row; 3] = [
    (Move::Take, Came::Taken(0), 1, None, 0),
    (Move::Submit(0), Came::Done, 0, None, 0),
    (Move::Fire(0), Came::Done, 0, Some(End::Limit), 1),
];

// Main starts w and reads, and w writes.
const LIMIT: [Row; 10] = [
    (Move::Take, Came::Taken(0), 1, None, 0),
    (Move::Submit(0), Came::Done, 0, None, 0),
    (Move::Fire(0), Came::Done, 0, None, 1),
    (Move::Take, Came::Taken(0), 1, None, 1),
    (Move::Take, Came::Taken(1), 2, None, 1),
    (Move::Submit(1), Came::Done, 1, None, 1),
    (Move::Fire(0), Came::Done, 1, Some(End::Limit), 2),
    (Move::Take, Came::Nothing, 1, Some(End::Limit), 2),
    (Move::Fire(0), Came::Nothing, 1, Some(End::Limit), 2),
    (Move::Submit(0), Came::Done, 0, Some(End::Limit), 2),
];

const GO_AND_READ: &[Plain] = &[Plain::Go(1), Plain::Read(0)];

const WRITE: &[Plain] = &[Plain::Write(0, 5)];

const CLOSE_NIL: &[Plain] = &[Plain::Close(None)];

const EXITED: Finished = Ok((End::Main, 1, 0, false, false));

const LIMITED: Finished = Ok((End::Limit, 1, 1, true, false));

const LIMITED_ALONE: Finished = Ok((End::Limit, 1, 0, false, false));

const WAITED: Finished = Ok((End::Deadlock, 0, 0, true, false));

const REFUSED: Finished = Ok((End::Bad(0), 0, 0, true, false));

const FAILED: Finished = Ok((End::Fault, 1, 0, false, false));

static RUNS: [Run; 10] = [
    (8, &[], &[], &NEW, 7, EXITED),
    (8, &[], &[], &[], 0, Err(Mismatch::NotEnded)),
    (2, GO_AND_READ, WRITE, &LIMIT, 9, Err(Mismatch::Out(0))),
    (2, GO_AND_READ, WRITE, &LIMIT, 10, LIMITED),
    (8, &[Plain::Recv(None)], &[], &DEADLOCK, 3, WAITED),
    (8, &[Plain::Go(0)], &[], &BAD, 3, REFUSED),
    (8, CLOSE_NIL, &[], &FAULT, 3, FAILED),
    // Main's exit and a fault end a run before its limit does.
    (1, &[], &[], &NEW, 7, EXITED),
    (1, CLOSE_NIL, &[], &FAULT, 3, FAILED),
    (1, WRITE, &[], &ONE_WRITE, 3, LIMITED_ALONE),
];

// How many steps the goroutine's log has.
fn steps(recording: &Recording, goroutine: u32) -> usize {
    if goroutine < recording.trace().decls().count(Kind::Goroutine) {
        recording.logs(goroutine).len()
    } else {
        usize::MAX
    }
}

fn told(recording: &Recording) -> (End, usize, usize, bool, bool) {
    (
        recording.end(),
        steps(recording, 0),
        steps(recording, 1),
        recording.waiting(0).is_some(),
        recording.waiting(1).is_some(),
    )
}

fn finished<R: Routine>(hub: Hub<R>) -> Finished {
    match hub.finish() {
        Ok(recording) => Ok(told(&recording)),
        Err(mismatch) => Err(mismatch),
    }
}

// The first row that comes otherwise in a new hub, or how many there are where something else comes of the hub then.
fn wrong_in(alloc: Global, run: &Run) -> Result<Option<usize>, Fail> {
    let (limit, main, other, rows, count, want) = *run;
    let mut hub = hub_of(alloc, Object::Var, limit, main, other)?;
    let wrong = played(&mut hub, &rows[..count.min(rows.len())])?;
    let came = finished(hub);
    Ok(if came == want {
        wrong
    } else {
        wrong.or(Some(count))
    })
}

#[test]
fn a_hub_ends_by_what_is_asked_and_is_recorded_then(rt: HostRuntime) -> Result<(), Fail> {
    for (at, run) in RUNS.iter().enumerate() {
        assert_eq!(rt; wrong_in(rt.alloc(), run)?, None, "run {at}");
    }
    assert!(rt; are_limited(rt.alloc())?);
    Ok(())
}

// Which variable it asks to read.
fn read_in(asked: Option<&Request>) -> Option<u32> {
    match asked {
        Some(request) => match request.ask {
            Ask::Read(var) => Some(var),
            _ => None,
        },
        None => None,
    }
}

// The first row that comes otherwise at limit 2, and which variables main and w ask to read then.
fn limited<R: Routine>(
    alloc: Global,
    routines: Vec<R>,
) -> Result<(Option<usize>, Option<u32>, Option<u32>), Fail> {
    let mut hub = Hub::new(alloc, declared(alloc, false, Object::Var)?, 2, routines)?;
    let wrong = played(&mut hub, &LIMIT)?;
    Ok((wrong, read_in(hub.waiting(0)), read_in(hub.waiting(1))))
}

// Whether all come so where the routine of main is of another type than that of w.
fn are_limited(alloc: Global) -> Result<bool, Fail> {
    let main = Box::new(alloc, routine_of(GO_AND_READ))?;
    let other = Box::new(alloc, Writes { value: 5 })?;
    let routines = routines_of(alloc, Boxed(main), Boxed(other))?;
    Ok(limited(alloc, routines)? == (None, Some(0), None))
}

// A limit, how many routines there are, and why no hub is made of main and w.
static OPENINGS: [(u32, u32, Option<HubFault>); 4] = [
    (0, 1, Some(HubFault::WrongCount)),
    (0, 2, Some(HubFault::BadLimit)),
    (16_777_217, 2, Some(HubFault::BadLimit)),
    (16_777_216, 2, None),
];

// So many that exit at once.
fn routines(alloc: Global, count: u32) -> Result<Vec<Asks>, AllocError> {
    let mut routines = Vec::new(alloc);
    for _ in 0..count {
        routines.push(routine_of(&[]))?;
    }
    Ok(routines)
}

fn fault(alloc: Global, limit: u32, count: u32) -> Result<Option<HubFault>, Fail> {
    let routines = routines(alloc, count)?;
    Ok(Hub::new(alloc, declared(alloc, false, Object::Var)?, limit, routines).err())
}

#[test]
fn a_hub_has_a_box_for_each_goroutine_and_a_limit(rt: HostRuntime) -> Result<(), Fail> {
    for (at, row) in OPENINGS.iter().enumerate() {
        assert!(rt; fault(rt.alloc(), row.0, row.1)? == row.2, "row {at}");
    }
    Ok(())
}
