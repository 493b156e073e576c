//! What a goroutine had locked before an event, and by which event it was synchronized last.

use crate::holding::{Holding, held_before};
use crate::names::{event_at, goroutine, name_of, place_of};
use crate::put::put;
use race_records::{Event, Named, Op, Trace};
use std::alloc::{AllocError, Allocator};

/// Puts what the goroutine had locked before the event, and its last synchronization before it.
pub(crate) fn put_moment<A: Allocator + Copy, B: Allocator>(
    out: &mut Vec<u8, A>,
    trace: &Trace<B>,
    at: u32,
    who: u32,
) -> Result<(), AllocError> {
    let held = held_before(*out.allocator(), trace, at)?;
    let mut any = false;
    for holding in held.as_slice() {
        if holding.who == who {
            put_holding(out, trace, *holding, if any { ", and " } else { "with " })?;
            any = true;
        }
    }
    if !any {
        put(out, &["without a lock that is in the trace"])?;
    }
    put_last(out, trace, at, who)
}

fn put_holding<A: Allocator, B: Allocator>(
    out: &mut Vec<u8, A>,
    trace: &Trace<B>,
    holding: Holding,
    before: &str,
) -> Result<(), AllocError> {
    let how = if holding.reading {
        " locked for reading at "
    } else {
        " locked at "
    };
    put(out, &[before])?;
    put(out, &[name_of(trace, Named::Lock(holding.lock))])?;
    put(out, &[how])?;
    put(out, &[place_of(trace, holding.place)])
}

// The last event before the index that synchronizes the goroutine, with another or for another.
fn put_last<A: Allocator, B: Allocator>(
    out: &mut Vec<u8, A>,
    trace: &Trace<B>,
    before: u32,
    who: u32,
) -> Result<(), AllocError> {
    let mut found = None;
    let mut at = 0;
    for event in trace.events() {
        if at < before && synchronizes(event, who) {
            found = Some(at);
        }
        at = at.saturating_add(1u32);
    }
    let Some(event) = found.and_then(|at| event_at(trace, at)) else {
        return put(out, &[", before any synchronization"]);
    };
    put(out, &[", after "])?;
    put_deed(out, trace, event, who)
}

// Whether the goroutine takes part in the event, and it can order it with others.
fn synchronizes(event: &Event, who: u32) -> bool {
    match event.op {
        Op::Go(started) => event.who == who || started == who,
        Op::Meet(receiver, _, _) => event.who == who || receiver == who,
        Op::Exit => false,
        Op::Read(_, _) => false,
        Op::Write(_, _) => false,
        Op::Default(_) => false,
        Op::TryFail(_) => false,
        Op::Fault(_) => false,
        _ => event.who == who,
    }
}

// Puts what the goroutine did in the event, and where.
fn put_deed<A: Allocator, B: Allocator>(
    out: &mut Vec<u8, A>,
    trace: &Trace<B>,
    event: &Event,
    who: u32,
) -> Result<(), AllocError> {
    match event.op {
        Op::Go(started) => if event.who == who {
            put(out, &["go of ", goroutine(trace, started)])?
        } else {
            put(out, &["its start"])?
        },
        Op::Meet(_, chan, _) => {
            put(out, &["meet on ", name_of(trace, Named::Chan(chan))])?;
            put(
                out,
                &[if event.who == who {
                    ", as its sender,"
                } else {
                    ", as its receiver,"
                }],
            )?
        }
        _ => put_done(out, trace, &event.op)?,
    }
    put(out, &[" at ", place_of(trace, place_in(event, who))])
}

// Where the goroutine was in the event.
fn place_in(event: &Event, who: u32) -> u32 {
    match event.place2 {
        Some(second) => if event.who == who {
            event.place
        } else {
            second
        },
        None => event.place,
    }
}

// Puts what another operation does, and on what.
fn put_done<A: Allocator, B: Allocator>(
    out: &mut Vec<u8, A>,
    trace: &Trace<B>,
    op: &Op,
) -> Result<(), AllocError> {
    match done_on(op) {
        Some((what, named)) => {
            put(out, &[what])?;
            put(out, &[name_of(trace, named)])
        }
        None => Ok(()),
    }
}

// What another operation does, on what.
fn done_on(op: &Op) -> Option<(&'static str, Named)> {
    match op {
        Op::Send(chan, _) => Some(("send on ", Named::Chan(*chan))),
        Op::Recv(chan, _) => Some(("recv from ", Named::Chan(*chan))),
        Op::RecvClosed(chan) => Some(("recvclosed from ", Named::Chan(*chan))),
        Op::Close(chan) => Some(("close of ", Named::Chan(*chan))),
        Op::Lock(lock) => Some(("lock of ", Named::Lock(*lock))),
        Op::TryLock(lock) => Some(("trylock of ", Named::Lock(*lock))),
        Op::RLock(lock) => Some(("rlock of ", Named::Lock(*lock))),
        Op::TryRLock(lock) => Some(("tryrlock of ", Named::Lock(*lock))),
        Op::Unlock(lock) => Some(("unlock of ", Named::Lock(*lock))),
        Op::RUnlock(lock) => Some(("runlock of ", Named::Lock(*lock))),
        Op::OnceBegin(once) => Some(("oncebegin of ", Named::Once(*once))),
        Op::OnceEnd(once) => Some(("onceend of ", Named::Once(*once))),
        Op::OnceDone(once) => Some(("oncedone of ", Named::Once(*once))),
        _ => None,
    }
}
