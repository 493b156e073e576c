//! An event that breaks a rule, with its line, and why it does.

use crate::channel_rule::{put_channel_rule, put_ready};
use crate::names::{event_at, goroutine, name_of, who_at};
use crate::past::{Deed, first_after, last_before, last_own, runs_before};
use crate::put::{put, put_at};
use crate::rule::{put_lock_rule, put_once_rule};
use crate::values::put_stale_read;
use race_legal::{Illegal, Rule};
use race_records::{Cause, Event, Named, Op, Trace};
use std::alloc::{AllocError, Allocator};

/// Puts why the event breaks the rule, where the events before it are legal.
pub(crate) fn put_reason<A: Allocator + Copy, B: Allocator>(
    out: &mut Vec<u8, A>,
    trace: &Trace<B>,
    illegal: Illegal,
) -> Result<(), AllocError> {
    let at = illegal.at;
    let Some(event) = event_at(trace, at) else {
        return Ok(());
    };
    match illegal.rule {
        Rule::AfterEnd => put_after_end(out, trace, at)?,
        Rule::NotRunning => put_not_running(out, trace, at, event)?,
        Rule::AlreadyStarted => put_already_started(out, trace, at, &event.op)?,
        Rule::MeetsItself => {
            put(
                out,
                &[
                    who_at(trace, at),
                    " is the sender and the receiver, and a meet has two goroutines",
                ],
            )?
        }
        Rule::StaleRead => put_stale_read(out, trace, at, event)?,
        Rule::Held | Rule::ReadHeld | Rule::NotHeld | Rule::NotReadHeld => {
            put_lock_rule(out, trace, at, event)?
        }
        Rule::OnceAgain | Rule::OnceNotInner | Rule::OnceNotDone | Rule::OnceOpen => {
            put_once_rule(out, trace, at, event)?
        }
        Rule::CaseReady => put_ready(out, trace, at, &event.op)?,
        Rule::NoFault => put_no_fault(out, trace, at, &event.op)?,
        _ => put_channel_rule(out, trace, at, &event.op, illegal.rule)?,
    }
    put_repeated(out, trace, at, event)?;
    put(out, &["\n"])
}

// That the goroutine's event before this one is the same, where it is.
fn put_repeated<A: Allocator, B: Allocator>(
    out: &mut Vec<u8, A>,
    trace: &Trace<B>,
    at: u32,
    event: &Event,
) -> Result<(), AllocError> {
    let Some(before) = last_own(trace, at, Deed::Acts) else {
        return Ok(());
    };
    match event_at(trace, before) {
        Some(other) => if *other == *event {
            put_at(
                out,
                trace,
                "; ",
                before,
                " is the same: one of the two lines may be too many",
            )
        } else {
            Ok(())
        },
        None => Ok(()),
    }
}

fn put_after_end<A: Allocator, B: Allocator>(
    out: &mut Vec<u8, A>,
    trace: &Trace<B>,
    at: u32,
) -> Result<(), AllocError> {
    match last_before(trace, at, Deed::EndsRun) {
        None => Ok(()),
        Some(end) => {
            put_at(out, trace, "the run is over: ", end, " is ")?;
            put(out, &[who_at(trace, end), "'s "])?;
            put(out, &[ending(trace, end)])
        }
    }
}

fn ending<A: Allocator>(trace: &Trace<A>, at: u32) -> &'static str {
    match event_at(trace, at) {
        Some(event) => match event.op {
            Op::Fault(_) => "fault, which ends it; a panic that is recovered from is no event",
            _ => "exit, which ends it",
        },
        None => "",
    }
}

fn put_not_running<A: Allocator, B: Allocator>(
    out: &mut Vec<u8, A>,
    trace: &Trace<B>,
    at: u32,
    event: &Event,
) -> Result<(), AllocError> {
    if !runs_before(trace, at, event.who) {
        put(out, &[goroutine(trace, event.who)])?;
        if event.op == Op::Go(event.who) {
            return put(
                out,
                &[" isn't running, and can't start itself: one of the two names is wrong"],
            );
        }
        return match started_instead(trace, at, event) {
            Some(started) => put_exchanged(out, trace, started),
            None => put_idle(out, trace, at, event.who),
        };
    }
    match event.op {
        Op::Meet(receiver, _, _) => {
            put(out, &[goroutine(trace, receiver), ", the receiver,"])?;
            put_idle(out, trace, at, receiver)
        }
        _ => Ok(()),
    }
}

// Which running goroutine the event starts, where nothing ever starts its own.
fn started_instead<A: Allocator>(trace: &Trace<A>, at: u32, event: &Event) -> Option<u32> {
    let Op::Go(started) = event.op else {
        return None;
    };
    let starts = Deed::Starts(event.who);
    let is_started = last_before(trace, at, starts).is_some()
        || first_after(trace, at, starts).is_some();
    if is_started || !runs_before(trace, at, started) {
        None
    } else {
        Some(started)
    }
}

// Why the starter of a running goroutine doesn't run.
fn put_exchanged<A: Allocator, B: Allocator>(
    out: &mut Vec<u8, A>,
    trace: &Trace<B>,
    started: u32,
) -> Result<(), AllocError> {
    put(
        out,
        &[
            " isn't running: no event before this one starts it; ",
            goroutine(trace, started),
            " is running, so the two names may be exchanged",
        ],
    )
}

// Why a goroutine doesn't run.
fn put_idle<A: Allocator, B: Allocator>(
    out: &mut Vec<u8, A>,
    trace: &Trace<B>,
    at: u32,
    goroutine: u32,
) -> Result<(), AllocError> {
    put(out, &[" isn't running: "])?;
    if let Some(exit) = last_before(trace, at, Deed::Exits(goroutine)) {
        return put_at(out, trace, "", exit, " is its exit, which comes last");
    }
    put(out, &["no event before this one starts it"])?;
    let starts = Deed::Starts(goroutine);
    put_later(
        out,
        trace,
        at,
        starts,
        " does",
        "; a go of it may be missing",
    )?;
    if first_after(trace, at, starts).is_some() {
        put(out, &[": the starter's go comes first"])?;
    }
    Ok(())
}

/// Puts which event after this one does what is missing before it, or else what may be missing.
pub(crate) fn put_later<A: Allocator, B: Allocator>(
    out: &mut Vec<u8, A>,
    trace: &Trace<B>,
    at: u32,
    deed: Deed,
    what: &str,
    missing: &str,
) -> Result<(), AllocError> {
    match first_after(trace, at, deed) {
        Some(later) => {
            put_at(out, trace, "; ", later, what)?;
            put(out, &[", but comes later"])
        }
        None => put(out, &[missing]),
    }
}

fn put_already_started<A: Allocator, B: Allocator>(
    out: &mut Vec<u8, A>,
    trace: &Trace<B>,
    at: u32,
    op: &Op,
) -> Result<(), AllocError> {
    let Op::Go(started) = op else {
        return Ok(());
    };
    match last_before(trace, at, Deed::Starts(*started)) {
        Some(start) => {
            put(out, &[goroutine(trace, *started)])?;
            put_at(
                out,
                trace,
                " was started by ",
                start,
                "; another goroutine has another name",
            )
        }
        None => put(out, &["main runs from the start, and no event starts it"]),
    }
}

fn put_no_fault<A: Allocator, B: Allocator>(
    out: &mut Vec<u8, A>,
    trace: &Trace<B>,
    at: u32,
    op: &Op,
) -> Result<(), AllocError> {
    let Op::Fault(cause) = op else {
        return Ok(());
    };
    match cause {
        Cause::SendClosed(chan) => put_open(out, trace, at, *chan),
        Cause::CloseClosed(chan) => put_open(out, trace, at, *chan),
        Cause::CloseNil => Ok(()),
        Cause::UnlockFree(lock) => {
            put(out, &[name_of(trace, Named::Lock(*lock))])?;
            put(out, &[" is locked, so its unlock doesn't fail"])?;
            put_since(out, trace, at, Deed::Locks(*lock), " locked it")?;
            put_unlock(out, trace, at, *lock)
        }
        Cause::RUnlockFree(lock) => {
            put(out, &[name_of(trace, Named::Lock(*lock))])?;
            put(
                out,
                &[" is locked for reading, so its runlock doesn't fail"],
            )?;
            put_since(out, trace, at, Deed::ReadLocks(*lock), " locked it")?;
            put_runlock(out, trace, at, *lock)
        }
    }
}

// Puts which event after this one unlocks the lock, or that an unlock may be missing.
fn put_unlock<A: Allocator, B: Allocator>(
    out: &mut Vec<u8, A>,
    trace: &Trace<B>,
    at: u32,
    lock: u32,
) -> Result<(), AllocError> {
    let missing = "; an unlock may be missing in between";
    put_later(out, trace, at, Deed::Unlocks(lock), " unlocks it", missing)
}

// Puts which event after this one unlocks the lock from reading, or that a runlock may be missing.
fn put_runlock<A: Allocator, B: Allocator>(
    out: &mut Vec<u8, A>,
    trace: &Trace<B>,
    at: u32,
    lock: u32,
) -> Result<(), AllocError> {
    let missing = "; a runlock may be missing in between";
    put_later(
        out,
        trace,
        at,
        Deed::ReadUnlocks(lock),
        " unlocks it from reading",
        missing,
    )
}

fn put_open<A: Allocator, B: Allocator>(
    out: &mut Vec<u8, A>,
    trace: &Trace<B>,
    at: u32,
    chan: u32,
) -> Result<(), AllocError> {
    put(
        out,
        &[
            name_of(trace, Named::Chan(chan)),
            " is open, so this doesn't fail: no event before this one closes it",
        ],
    )?;
    put_later(
        out,
        trace,
        at,
        Deed::Closes(chan),
        " does",
        "; a close may be missing",
    )
}

/// Puts which event did so last before this one, and whose it is.
pub(crate) fn put_since<A: Allocator, B: Allocator>(
    out: &mut Vec<u8, A>,
    trace: &Trace<B>,
    at: u32,
    deed: Deed,
    what: &str,
) -> Result<(), AllocError> {
    match last_before(trace, at, deed) {
        Some(since) => {
            put_at(out, trace, ": ", since, ", by ")?;
            put(out, &[who_at(trace, since), ",", what])
        }
        None => Ok(()),
    }
}
