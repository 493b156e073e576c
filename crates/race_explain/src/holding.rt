//! Which locks are held before an event, and by whom.

use crate::names::{goroutine, name_of};
use crate::put::{put, put_at, put_number_in};
use race_records::{Event, Named, Op, Trace};
use std::alloc::{AllocError, Allocator};

/// How many holders are listed at most.
const LISTED: usize = 8;

/// A lock that a goroutine locked and nobody has unlocked.
#[derive(Clone, Copy)]
pub(crate) struct Holding {
    pub(crate) lock: u32,
    pub(crate) reading: bool,
    pub(crate) who: u32,
    pub(crate) place: u32,
    /// The event that locked it.
    pub(crate) at: u32,
    /// Whether this was a try.
    pub(crate) tried: bool,
}

// What the event at the index locks.
fn locked_by(event: &Event, at: u32) -> Option<Holding> {
    let (lock, reading, tried) = match event.op {
        Op::Lock(lock) => (lock, false, false),
        Op::TryLock(lock) => (lock, false, true),
        Op::RLock(lock) => (lock, true, false),
        Op::TryRLock(lock) => (lock, true, true),
        _ => return None,
    };
    Some(Holding {
        lock,
        reading,
        who: event.who,
        place: event.place,
        at,
        tried,
    })
}

// Which lock an event unlocks, and whether from reading.
fn unlocked_by(event: &Event) -> Option<(u32, bool)> {
    match event.op {
        Op::Unlock(lock) => Some((lock, false)),
        Op::RUnlock(lock) => Some((lock, true)),
        _ => None,
    }
}

// Which holding ends where the goroutine unlocks: its own last one, and else the last of another.
fn ended(held: &[Holding], who: u32, lock: u32, reading: bool) -> Option<usize> {
    let mut found = None;
    for back in 0..held.len() {
        let index = held.len() - 1 - back;
        let holding = held[index];
        if holding.lock == lock && holding.reading == reading {
            if holding.who == who {
                return Some(index);
            }
            if found.is_none() {
                found = Some(index);
            }
        }
    }
    found
}

/// What is held before the event at the index. An unlock looks through what is held: seldom more than a few locks, unless a trace
/// has very many read locks at once.
pub(crate) fn held_before<A: Allocator + Copy, B: Allocator>(
    alloc: A,
    trace: &Trace<B>,
    before: u32,
) -> Result<Vec<Holding, A>, AllocError> {
    let mut held: Vec<Holding, A> = Vec::new(alloc);
    let mut at = 0;
    for event in trace.events() {
        if at >= before {
            return Ok(held);
        }
        if let Some(holding) = locked_by(event, at) {
            held.push(holding)?;
        }
        if let Some((lock, reading)) = unlocked_by(event) {
            end(&mut held, event.who, lock, reading);
        }
        at = at.saturating_add(1);
    }
    Ok(held)
}

fn end<A: Allocator>(held: &mut Vec<Holding, A>, who: u32, lock: u32, reading: bool) {
    if let Some(index) = ended(held.as_slice(), who, lock, reading) {
        if index < held.len() {
            held.remove(index);
        }
    }
}

/// Puts who holds the lock, by what is held, and since which event.
pub(crate) fn put_holders<A: Allocator, B: Allocator>(
    out: &mut Vec<u8, A>,
    trace: &Trace<B>,
    held: &[Holding],
    who: u32,
    lock: u32,
) -> Result<(), AllocError> {
    put(out, &[name_of(trace, Named::Lock(lock)), " is held"])?;
    let mut count = 0usize;
    let mut is_own = false;
    for holding in held {
        if holding.lock == lock {
            if count < LISTED {
                put_holder(out, trace, *holding, who, count == 0)?;
            }
            is_own = is_own || holding.who == who;
            count = count.saturating_add(1);
        }
    }
    put_others(out, count)?;
    put(
        out,
        &[if is_own {
            ": Go's locks aren't reentrant"
        } else {
            ""
        }],
    )
}

// Who holds it, since when, and whether it is this goroutine itself.
fn put_holder<A: Allocator, B: Allocator>(
    out: &mut Vec<u8, A>,
    trace: &Trace<B>,
    holding: Holding,
    who: u32,
    is_first: bool,
) -> Result<(), AllocError> {
    let how = if !is_first {
        ", and by "
    } else if holding.reading {
        " for reading by "
    } else {
        " by "
    };
    let itself = if holding.who == who { " itself" } else { "" };
    put(out, &[how, goroutine(trace, holding.who), itself])?;
    put_beginning(out, trace, holding)
}

// Since which event it is held.
fn put_beginning<A: Allocator, B: Allocator>(
    out: &mut Vec<u8, A>,
    trace: &Trace<B>,
    holding: Holding,
) -> Result<(), AllocError> {
    let since = if holding.tried {
        " since its try in "
    } else {
        " since "
    };
    put_at(out, trace, since, holding.at, "")
}

/// Puts which locks are held at the end of the trace, of many the first.
pub(crate) fn put_held_at_end<A: Allocator + Copy, B: Allocator>(
    out: &mut Vec<u8, A>,
    trace: &Trace<B>,
) -> Result<(), AllocError> {
    let held = held_before(*out.allocator(), trace, u32::MAX)?;
    let mut count = 0usize;
    for holding in held.as_slice() {
        if count < LISTED {
            let front = if count == 0 {
                "locks that are held at the end: "
            } else {
                ", "
            };
            put(out, &[front, name_of(trace, Named::Lock(holding.lock))])?;
            put(
                out,
                &[if holding.reading {
                    " for reading by "
                } else {
                    " by "
                }],
            )?;
            put(out, &[goroutine(trace, holding.who)])?;
            put_beginning(out, trace, *holding)?;
        }
        count = count.saturating_add(1);
    }
    put_others(out, count)?;
    put(out, &[if count == 0 { "" } else { "\n" }])
}

// How many more there are than are listed.
fn put_others<A: Allocator>(out: &mut Vec<u8, A>, count: usize) -> Result<(), AllocError> {
    if count > LISTED {
        put_number_in(out, ", and ", (count - LISTED) as u64, " more")
    } else {
        Ok(())
    }
}
