//! Who holds a lock that isn't free, and which unlock comes too late or may be missing.

use crate::clean::note;
use crate::doubt::put_doubt;
use crate::holding::{Holding, held_before, put_holders};
use crate::names::{event_at, goroutine, name_of, who_at};
use crate::past::{Deed, does, first_after, is_locked};
use crate::put::{put, put_at};
use race_records::{Kind, Named, Trace};
use std::alloc::{AllocError, Allocator};

/// Puts who holds the lock that the goroutine locks, and which event unlocks it only later or whose unlock may be missing.
pub(crate) fn put_not_free<A: Allocator + Copy, B: Allocator>(
    out: &mut Vec<u8, A>,
    trace: &Trace<B>,
    at: u32,
    who: u32,
    lock: u32,
) -> Result<(), AllocError> {
    let alloc = *out.allocator();
    let held = held_before(alloc, trace, at)?;
    put_holders(out, trace, held.as_slice(), who, lock)?;
    let reading = !is_locked(trace, at, lock);
    if let Some(later) = unlocked_after(alloc, trace, at, lock, reading)? {
        let what = if reading {
            " unlocks it from reading, but comes later"
        } else {
            " unlocks it, but comes later"
        };
        return put_at(out, trace, "; ", later, what);
    }
    put(
        out,
        &[if reading {
            "; a runlock"
        } else {
            "; an unlock"
        }],
    )?;
    let holder = only_holder(held.as_slice(), lock);
    if let Some(holding) = holder {
        put(out, &[" by ", goroutine(trace, holding.who)])?;
    }
    put(out, &[" may be missing in between"])?;
    match holder {
        Some(holding) => put_doubt(out, trace, at, holding),
        None => Ok(()),
    }
}

// The last holding of the lock, where one goroutine alone holds it.
fn only_holder(held: &[Holding], lock: u32) -> Option<Holding> {
    let mut found: Option<Holding> = None;
    for holding in held {
        if holding.lock == lock {
            if found.is_some_and(|other| other.who != holding.who) {
                return None;
            }
            found = Some(*holding);
        }
    }
    found
}

// The first unlock after the event by a goroutine that hasn't locked from the event on: what it unlocks was locked before.
fn unlocked_after<A: Allocator, B: Allocator>(
    alloc: A,
    trace: &Trace<B>,
    from: u32,
    lock: u32,
    reading: bool,
) -> Result<Option<u32>, AllocError> {
    let (locks, unlocks) = if reading {
        (Deed::ReadLocks(lock), Deed::ReadUnlocks(lock))
    } else {
        (Deed::Locks(lock), Deed::Unlocks(lock))
    };
    let mut relocked = vec![in alloc; false; trace.decls().count(Kind::Goroutine) as usize]?;
    let mut at = 0;
    for event in trace.events() {
        if at >= from && does(event, locks) {
            note(relocked.as_mut_slice(), event.who);
        }
        let is_own = relocked.get(event.who as usize).copied() == Some(true);
        if at >= from && does(event, unlocks) && !is_own {
            return Ok(Some(at));
        }
        at = at.saturating_add(1);
    }
    Ok(None)
}

/// Puts which goroutine unlocked a lock that the first of two accesses had, where it is another, and the second access had it too.
/// Two accesses under one lock race only then.
pub(crate) fn put_unlocked_by_another<A: Allocator + Copy, B: Allocator>(
    out: &mut Vec<u8, A>,
    trace: &Trace<B>,
    first: u32,
    second: u32,
) -> Result<(), AllocError> {
    let alloc = *out.allocator();
    let (Some(event), Some(other)) = (event_at(trace, first), event_at(trace, second)) else {
        return Ok(());
    };
    let later = held_before(alloc, trace, second)?;
    for holding in held_before(alloc, trace, first)?.as_slice() {
        if holding.who == event.who && shares(later.as_slice(), other.who, *holding) {
            if let Some(unlock) = unlocked_next(trace, first, *holding) {
                put_unlocker(out, trace, *holding, unlock)?;
            }
        }
    }
    Ok(())
}

// Whether the goroutine has the lock too, and not both for reading.
fn shares(held: &[Holding], who: u32, first: Holding) -> bool {
    held.iter().any(|holding| {
        holding.who == who && holding.lock == first.lock && !(holding.reading && first.reading)
    })
}

// The next event that unlocks what is held.
fn unlocked_next<A: Allocator>(trace: &Trace<A>, after: u32, holding: Holding) -> Option<u32> {
    let unlocks = if holding.reading {
        Deed::ReadUnlocks(holding.lock)
    } else {
        Deed::Unlocks(holding.lock)
    };
    first_after(trace, after, unlocks)
}

fn put_unlocker<A: Allocator, B: Allocator>(
    out: &mut Vec<u8, A>,
    trace: &Trace<B>,
    holding: Holding,
    unlock: u32,
) -> Result<(), AllocError> {
    let (who, other) = (goroutine(trace, holding.who), who_at(trace, unlock));
    if who == other {
        return Ok(());
    }
    put(out, &[name_of(trace, Named::Lock(holding.lock))])?;
    put(out, &[" was locked by ", who, ", but unlocked by ", other])?;
    put_at(out, trace, " in ", unlock, ", which orders nothing that ")?;
    put(out, &[who, " did\n"])
}
