//! Events on a lock that seem to be others than were written.

use crate::holding::{Holding, held_before};
use crate::names::{event_at, name_of, who_at};
use crate::past::{Deed, first_own, last_own};
use crate::put::{put, put_at};
use race_records::{Named, Op, Trace};
use std::alloc::{AllocError, Allocator};

/// Puts that a goroutine may not hold the lock that another one locks, where it had it by a try, or that it locked it
/// for reading, where it unlocks it so.
pub(crate) fn put_doubt<A: Allocator, B: Allocator>(
    out: &mut Vec<u8, A>,
    trace: &Trace<B>,
    at: u32,
    holding: Holding,
) -> Result<(), AllocError> {
    if holding.tried {
        return put_failed(out, trace, at, holding.lock);
    }
    let Some(next) = first_own(trace, holding.at, Deed::Uses(holding.lock)) else {
        return Ok(());
    };
    if holding.reading || !is_op(trace, next, &Op::RUnlock(holding.lock)) {
        return Ok(());
    }
    put_at(out, trace, ", or ", holding.at, " is an rlock: ")?;
    put(out, &[who_at(trace, next), "'s "])?;
    put_at(out, trace, "", next, " is a runlock")
}

// That the holder's try may have failed, and which event shows that the one who locks now had the lock.
fn put_failed<A: Allocator, B: Allocator>(
    out: &mut Vec<u8, A>,
    trace: &Trace<B>,
    at: u32,
    lock: u32,
) -> Result<(), AllocError> {
    put(out, &[", or that try failed"])?;
    if let Some(next) = first_own(trace, at, Deed::Uses(lock)) {
        if is_op(trace, next, &Op::Unlock(lock)) {
            put(out, &[", since ", who_at(trace, at)])?;
            put_at(out, trace, " unlocks it in ", next, "")?;
        }
    }
    put(out, &[": then it is a tryfail"])
}

fn is_op<A: Allocator>(trace: &Trace<A>, at: u32, op: &Op) -> bool {
    event_at(trace, at).is_some_and(|event| event.op == *op)
}

/// Puts that the try before an unlock of a lock that isn't held may have succeeded, or that another lock may be meant.
pub(crate) fn put_unlocked<A: Allocator + Copy, B: Allocator>(
    out: &mut Vec<u8, A>,
    trace: &Trace<B>,
    at: u32,
    lock: u32,
    success: &str,
) -> Result<(), AllocError> {
    if let Some(last) = last_own(trace, at, Deed::Uses(lock)) {
        if is_op(trace, last, &Op::TryFail(lock)) {
            put_at(out, trace, ", or its try in ", last, "")?;
            return put(out, &[" succeeded: then it is a ", success]);
        }
    }
    let held = held_before(*out.allocator(), trace, at)?;
    match held_by(held.as_slice(), trace, at) {
        Some(holding) => {
            put(out, &["; ", who_at(trace, at), " holds "])?;
            put(out, &[name_of(trace, Named::Lock(holding.lock))])?;
            put_at(
                out,
                trace,
                " since ",
                holding.at,
                ", so the name may be wrong",
            )
        }
        None => Ok(()),
    }
}

// What the goroutine of the event locked last of what it holds.
fn held_by<A: Allocator>(held: &[Holding], trace: &Trace<A>, at: u32) -> Option<Holding> {
    let who = event_at(trace, at)?.who;
    let mut found = None;
    for holding in held {
        if holding.who == who {
            found = Some(*holding);
        }
    }
    found
}
