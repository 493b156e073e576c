//! Why an event on a lock or a once breaks its rule.

use crate::doubt::put_unlocked;
use crate::illegal::{put_later, put_since};
use crate::names::{event_at, goroutine, name_of, place_of, who_at};
use crate::past::{Deed, does, first_after, is_locked, last_before, last_own, readers};
use crate::put::{put, put_at};
use crate::unlocking::put_not_free;
use race_records::{Event, Kind, Named, Op, Trace};
use std::alloc::{AllocError, Allocator};

/// A lock that isn't free, or an unlock of a free one.
pub(crate) fn put_lock_rule<A: Allocator + Copy, B: Allocator>(
    out: &mut Vec<u8, A>,
    trace: &Trace<B>,
    at: u32,
    event: &Event,
) -> Result<(), AllocError> {
    match event.op {
        Op::Lock(lock) => {
            put_not_free(out, trace, at, event.who, lock)?;
            put_for_reading(out, trace, lock)
        }
        Op::TryLock(lock) => put_tried(out, trace, at, event, lock),
        Op::RLock(lock) => put_not_free(out, trace, at, event.who, lock),
        Op::TryRLock(lock) => put_tried(out, trace, at, event, lock),
        Op::Unlock(lock) => put_not_held(out, trace, at, lock, WRITING, READING),
        Op::RUnlock(lock) => put_not_held(out, trace, at, lock, READING, WRITING),
        _ => Ok(()),
    }
}

// How a lock of an rwmutex for reading is written.
fn put_for_reading<A: Allocator, B: Allocator>(
    out: &mut Vec<u8, A>,
    trace: &Trace<B>,
    lock: u32,
) -> Result<(), AllocError> {
    if lock < trace.decls().count(Kind::Lock) && trace.decls().is_rw(lock) {
        put(out, &["; if this locks it for reading, write rlock"])
    } else {
        Ok(())
    }
}

// Who holds the lock that a try locks, and how a try is written that failed.
fn put_tried<A: Allocator + Copy, B: Allocator>(
    out: &mut Vec<u8, A>,
    trace: &Trace<B>,
    at: u32,
    event: &Event,
    lock: u32,
) -> Result<(), AllocError> {
    put_not_free(out, trace, at, event.who, lock)?;
    put(
        out,
        &[
            "; if this try failed, write tryfail ",
            goroutine(trace, event.who),
        ],
    )?;
    put(out, &[" ", name_of(trace, Named::Lock(lock))])?;
    put(out, &[" ", place_of(trace, event.place)])
}

/// A way to hold a lock.
#[derive(Clone, Copy)]
struct Mode {
    reading: bool,
    /// What is said of a lock that isn't held so.
    unheld: &'static str,
    /// What is said of it where it is held the other way.
    held_else: &'static str,
    /// Whose lock may be missing.
    missing: &'static str,
    /// What a try is that succeeded.
    success: &'static str,
}

const WRITING: Mode = Mode {
    reading: false,
    unheld: " isn't locked",
    held_else: " isn't locked, but locked for reading, which a runlock ends",
    missing: "; a lock by ",
    success: "trylock",
};

const READING: Mode = Mode {
    reading: true,
    unheld: " isn't locked for reading",
    held_else: " isn't locked for reading, but for writing, which an unlock ends",
    missing: "; an rlock by ",
    success: "tryrlock",
};

// What locks so, and what unlocks.
fn deeds(mode: Mode, lock: u32) -> (Deed, Deed) {
    if mode.reading {
        (Deed::ReadLocks(lock), Deed::ReadUnlocks(lock))
    } else {
        (Deed::Locks(lock), Deed::Unlocks(lock))
    }
}

// Whether the lock is held so before the event at the index.
fn is_held<A: Allocator>(trace: &Trace<A>, at: u32, lock: u32, mode: Mode) -> bool {
    if mode.reading {
        readers(trace, at, lock) > 0
    } else {
        is_locked(trace, at, lock)
    }
}

// Who unlocked the lock before, or that it is locked the other way.
fn put_not_held<A: Allocator + Copy, B: Allocator>(
    out: &mut Vec<u8, A>,
    trace: &Trace<B>,
    at: u32,
    lock: u32,
    mode: Mode,
    other: Mode,
) -> Result<(), AllocError> {
    put(out, &[name_of(trace, Named::Lock(lock))])?;
    if is_held(trace, at, lock, other) {
        put(out, &[mode.held_else])?;
        return put_locker(out, trace, at, deeds(other, lock).0);
    }
    put(out, &[mode.unheld])?;
    let (locks, unlocks) = deeds(mode, lock);
    match last_before(trace, at, unlocks) {
        Some(unlock) => {
            put_since(out, trace, at, unlocks, " unlocked it")?;
            put_other_locker(out, trace, unlock, locks)?;
        }
        None => put(out, &[": no event before this one locks it"])?,
    }
    match locked_after(trace, at, locks, unlocks) {
        Some(later) => put_at(out, trace, "; ", later, " locks it, but comes later"),
        None => {
            put(out, &[mode.missing])?;
            put(out, &[who_at(trace, at), " may be missing before it"])?;
            put_unlocked(out, trace, at, lock, mode.success)
        }
    }
}

// Which event locked it: the goroutine's own, where there is one, or another's.
fn put_locker<A: Allocator, B: Allocator>(
    out: &mut Vec<u8, A>,
    trace: &Trace<B>,
    at: u32,
    locks: Deed,
) -> Result<(), AllocError> {
    match last_own(trace, at, locks) {
        Some(own) => {
            put_at(out, trace, ": ", own, ", by ")?;
            put(out, &[who_at(trace, at), ", locked it"])
        }
        None => put_since(out, trace, at, locks, " locked it"),
    }
}

// The first lock after the event by its goroutine that isn't followed by an own unlock.
fn locked_after<A: Allocator>(
    trace: &Trace<A>,
    from: u32,
    locks: Deed,
    unlocks: Deed,
) -> Option<u32> {
    let who = event_at(trace, from)?.who;
    let mut found = None;
    let mut at = 0;
    for event in trace.events() {
        if at > from && event.who == who {
            if does(event, unlocks) {
                found = None;
            } else if does(event, locks) && found.is_some() {
                return found;
            } else if does(event, locks) {
                found = Some(at);
            }
        }
        at = at.saturating_add(1);
    }
    found
}

// Who had locked what another goroutine unlocked, if another did.
fn put_other_locker<A: Allocator, B: Allocator>(
    out: &mut Vec<u8, A>,
    trace: &Trace<B>,
    unlock: u32,
    locks: Deed,
) -> Result<(), AllocError> {
    match last_before(trace, unlock, locks) {
        Some(lock) => if who_at(trace, lock) == who_at(trace, unlock) {
            Ok(())
        } else {
            put(out, &[", though ", who_at(trace, lock)])?;
            put_at(out, trace, " had locked it in ", lock, "")
        },
        None => Ok(()),
    }
}

/// A once that begins again, ends where its goroutine isn't in it, is found done too early, or is left.
pub(crate) fn put_once_rule<A: Allocator + Copy, B: Allocator>(
    out: &mut Vec<u8, A>,
    trace: &Trace<B>,
    at: u32,
    event: &Event,
) -> Result<(), AllocError> {
    match event.op {
        Op::OnceBegin(once) => {
            put_function(out, trace, once)?;
            put(out, &[" has begun before"])?;
            put_since(out, trace, at, Deed::Begins(once), " began it")?;
            put(
                out,
                &["; a Do that runs nothing is a oncedone, and another once has another name"],
            )
        }
        Op::OnceDone(once) => {
            put_function(out, trace, once)?;
            put_not_done(out, trace, at, once)
        }
        Op::OnceEnd(once) => {
            put_innermost(out, trace, at, event.who)?;
            put_beginner(out, trace, at, once)
        }
        _ => {
            put_innermost(out, trace, at, event.who)?;
            put(out, &["; its onceend may be missing before this one"])
        }
    }
}

// Of a function that the goroutine ends but isn't in, or isn't in last: which event began or ended it, and what may be missing.
fn put_beginner<A: Allocator, B: Allocator>(
    out: &mut Vec<u8, A>,
    trace: &Trace<B>,
    at: u32,
    once: u32,
) -> Result<(), AllocError> {
    let who = who_at(trace, at);
    let Some(begin) = last_before(trace, at, Deed::Begins(once)) else {
        return put_unbegun(out, trace, at, once);
    };
    put(out, &["; "])?;
    if last_before(trace, at, Deed::Ends(once)).is_some() {
        put_function(out, trace, once)?;
        put(out, &[" has ended"])?;
        put_since(out, trace, at, Deed::Ends(once), " ended it")?;
        return put(
            out,
            &["; a oncebegin by ", who, " of another once may be missing"],
        );
    }
    if who_at(trace, begin) == who {
        return put(
            out,
            &["the inner one ends first: its onceend may be missing"],
        );
    }
    put_function(out, trace, once)?;
    put(out, &[" was begun by ", who_at(trace, begin)])?;
    put_at(out, trace, ", which alone ends it, in ", begin, "")?;
    put(
        out,
        &[
            ": one of the two goroutines may be wrong, or a oncebegin by ",
            who,
            " of another once is missing",
        ],
    )
}

// Of a function that no event begins before: which one does later, or that one may be missing.
fn put_unbegun<A: Allocator, B: Allocator>(
    out: &mut Vec<u8, A>,
    trace: &Trace<B>,
    at: u32,
    once: u32,
) -> Result<(), AllocError> {
    put(out, &["; no event before this one begins "])?;
    put_function(out, trace, once)?;
    let begins = Deed::Begins(once);
    if first_after(trace, at, begins).is_some() {
        return put_later(out, trace, at, begins, " does", "");
    }
    put(
        out,
        &[
            "; a oncebegin of it by ",
            who_at(trace, at),
            " may be missing",
        ],
    )
}

// By which event the function began, or that it didn't, and which event ends it only later.
fn put_not_done<A: Allocator, B: Allocator>(
    out: &mut Vec<u8, A>,
    trace: &Trace<B>,
    at: u32,
    once: u32,
) -> Result<(), AllocError> {
    match last_before(trace, at, Deed::Begins(once)) {
        Some(_) => {
            put(out, &[" hasn't ended"])?;
            put_since(out, trace, at, Deed::Begins(once), " began it")?;
            let missing = "; an onceend may be missing in between";
            put_later(out, trace, at, Deed::Ends(once), " ends it", missing)
        }
        None => {
            put(out, &[" hasn't begun: no event before this one begins it"])?;
            let missing = "; a oncebegin and an onceend may be missing";
            put_later(out, trace, at, Deed::Begins(once), " does", missing)
        }
    }
}

fn put_function<A: Allocator, B: Allocator>(
    out: &mut Vec<u8, A>,
    trace: &Trace<B>,
    once: u32,
) -> Result<(), AllocError> {
    put(
        out,
        &["the function of ", name_of(trace, Named::Once(once))],
    )
}

// In the function of which once the goroutine is.
fn put_innermost<A: Allocator + Copy, B: Allocator>(
    out: &mut Vec<u8, A>,
    trace: &Trace<B>,
    at: u32,
    who: u32,
) -> Result<(), AllocError> {
    put(out, &[goroutine(trace, who)])?;
    match innermost(*out.allocator(), trace, at, who)? {
        None => put(out, &[" is in the function of no once"]),
        Some(once) => {
            put(
                out,
                &[" is in the function of ", name_of(trace, Named::Once(once))],
            )?;
            put_since(out, trace, at, Deed::Begins(once), " began it")?;
            put(out, &[", and it hasn't ended"])
        }
    }
}

// The once that the goroutine began last of those that haven't ended.
fn innermost<A: Allocator, B: Allocator>(
    alloc: B,
    trace: &Trace<A>,
    before: u32,
    who: u32,
) -> Result<Option<u32>, AllocError> {
    let mut begun: Vec<u32, B> = Vec::new(alloc);
    let mut at = 0;
    for event in trace.events() {
        if at < before && event.who == who {
            match event.op {
                Op::OnceBegin(once) => begun.push(once)?,
                Op::OnceEnd(_) => {
                    begun.pop();
                }
                _ => {}
            }
        }
        at = at.saturating_add(1);
    }
    Ok(begun.last().copied())
}
