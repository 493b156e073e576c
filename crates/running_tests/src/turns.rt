//! Turns of goroutines, in their own hub or in another, and what is recorded of them.

use race_hub::{Hub, Job, Recording, Routine};
use race_record::{record, record_serial};
use std::alloc::AllocError;
use std::sync::Wait;
use std::test::Fail;
use std::thread::Threads;

// Lets the job, if there is one, ask in the hub.
fn ask_in<R: Routine>(hub: &mut Hub<R>, job: Option<Job<R>>) -> Result<bool, AllocError> {
    let Some(mut job) = job else {
        return Ok(false);
    };
    job.turn()?;
    Ok(hub.submit(job).is_ok())
}

/// Lets whoever is ready ask.
pub(crate) fn ask<R: Routine>(hub: &mut Hub<R>) -> Result<bool, AllocError> {
    let job = hub.take();
    ask_in(hub, job)
}

/// Lets whoever is ready ask, and then the first choice happen.
pub(crate) fn go_on<R: Routine>(hub: &mut Hub<R>) -> Result<bool, AllocError> {
    Ok(ask(hub)? && hub.fire(0)?)
}

// The same of whoever is ready in another hub.
fn go_on_in<R: Routine>(from: &mut Hub<R>, into: &mut Hub<R>) -> Result<bool, AllocError> {
    let job = from.take();
    Ok(ask_in(into, job)? && into.fire(0)?)
}

fn is_ready<R: Routine>(hub: &mut Hub<R>) -> bool {
    hub.take().is_some()
}

/// Lets main go on once, and then main of the other hub in its place.
pub(crate) fn exchange<R: Routine>(
    hub: &mut Hub<R>,
    other: &mut Hub<R>,
) -> Result<bool, AllocError> {
    Ok(go_on(hub)? && is_ready(hub) && go_on_in(other, hub)?)
}

/// How a hub is recorded: by picks on this thread, or by so many workers with a seed.
#[derive(Clone, Copy)]
pub(crate) enum By<'a> {
    Picks(&'a [u64]),
    Workers(usize, u64),
}

/// What is recorded of a hub from which no job is out.
pub(crate) fn recorded<T: Threads + Wait + Sync, R: Routine>(
    rt: &T,
    hub: Hub<R>,
    by: By<'_>,
) -> Result<Recording, Fail> {
    if hub.out() != 0 {
        return Err(Fail::new("a job is out"));
    }
    match by {
        By::Picks(picks) => Ok(record_serial(hub, picks)?),
        By::Workers(workers, seed) => Ok(record(rt, hub, workers, seed)?),
    }
}
