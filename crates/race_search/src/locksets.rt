//! The locks that goroutines hold. Nothing is proved of it but that it returns.

use crate::rows::{NONE, push_row, row, rows_of, set_row};
use crate::wants::Pairing;
use race_records::{Event, Kind, Op, Trace};
use std::alloc::{AllocError, Allocator, Global};

/// A set: one lock more than the outer one. A lock is twice its number, and 1 more where it isn't held for reading alone.
#[derive(Clone, Copy)]
struct Held {
    lock: u32,
    outer: u32,
    // The last set that is one lock more than this one, and the one that was such before this one.
    inner: u32,
    sibling: u32,
}

/// The sets of locks that were held, `NONE` being the empty one, and of each goroutine the set that it holds. A channel of capacity 1 is held by
/// the goroutine whose value is in it.
#[derive(Drop)]
pub(crate) struct LockSets<A: Allocator = Global> {
    sets: Vec<Held, A>,
    // Of each lock the set of it alone.
    singles: Vec<u32, A>,
    current: Vec<u32, A>,
    aside: Vec<u32, A>,
    locks: u32,
    // Of each lock whether another goroutine ends a section of it, as 0 and 1: then it guards nothing.
    foreign: Vec<u32, A>,
    pub(crate) is_any_foreign: bool,
}

impl<A: Allocator + Copy> LockSets<A> {
    pub(crate) fn new(alloc: A, trace: &Trace<A>) -> Result<LockSets<A>, AllocError> {
        let locks = trace.decls().count(Kind::Lock);
        let objects = (locks as usize).saturating_add(trace.decls().count(Kind::Chan) as usize);
        Ok(LockSets {
            sets: Vec::new(alloc),
            singles: rows_of(alloc, objects.saturating_mul(2), NONE)?,
            current: rows_of(alloc, trace.decls().count(Kind::Goroutine) as usize, NONE)?,
            aside: Vec::new(alloc),
            locks,
            foreign: rows_of(alloc, objects, 0)?,
            is_any_foreign: false,
        })
    }

    /// What the goroutine holds.
    pub(crate) fn current(&self, goroutine: u32) -> u32 {
        row(&self.current, goroutine)
    }

    fn held(&self, set: u32) -> Held {
        if (set as usize) < self.sets.len() {
            self.sets[set as usize]
        } else {
            Held {
                lock: NONE,
                outer: NONE,
                inner: NONE,
                sibling: NONE,
            }
        }
    }

    // The set with this lock more, where it was met before.
    fn find(&self, set: u32, lock: u32) -> u32 {
        if set == NONE {
            return row(&self.singles, lock);
        }
        let mut inner = self.held(set).inner;
        for _ in 0..self.sets.len() {
            if inner == NONE || self.held(inner).lock == lock {
                break;
            }
            inner = self.held(inner).sibling;
        }
        inner
    }

    fn add(&mut self, set: u32, lock: u32) -> Result<u32, AllocError> {
        let found = self.find(set, lock);
        if found != NONE {
            return Ok(found);
        }
        let (outer, inner) = (set, NONE);
        let sibling = self.held(set).inner;
        let held = Held {
            lock,
            outer,
            inner,
            sibling,
        };
        let new = push_row(&mut self.sets, held)?;
        if (set as usize) < self.sets.len() {
            self.sets[set as usize].inner = new;
        } else {
            set_row(&mut self.singles, lock, new);
        }
        Ok(new)
    }

    // The set without the lock.
    fn remove(&mut self, set: u32, lock: u32) -> Result<u32, AllocError> {
        let mut rest = set;
        self.aside.clear();
        for _ in 0..self.sets.len() {
            let held = self.held(rest);
            if rest == NONE || held.lock == lock {
                break;
            }
            self.aside.push(held.lock)?;
            rest = held.outer;
        }
        if rest == NONE {
            return Ok(set);
        }
        self.put_back(self.held(rest).outer)
    }

    // The set with the locks that were put aside.
    fn put_back(&mut self, set: u32) -> Result<u32, AllocError> {
        let mut whole = set;
        for _ in 0..self.aside.len() {
            if let Some(lock) = self.aside.pop() {
                whole = self.add(whole, lock)?;
            }
        }
        Ok(whole)
    }

    // Whether the set has the lock, not for reading alone where `strong`.
    fn contains(&self, set: u32, lock: u32, strong: bool) -> bool {
        let mut rest = set;
        for _ in 0..self.sets.len() {
            if rest == NONE {
                break;
            }
            let held = self.held(rest);
            if held.lock / 2 == lock / 2 && (!strong || held.lock % 2 == 1) {
                return true;
            }
            rest = held.outer;
        }
        false
    }

    /// Whether two that hold these can't be in between at once.
    pub(crate) fn exclude(&self, first: u32, second: u32) -> bool {
        let mut rest = first;
        if second == NONE {
            return false;
        }
        for _ in 0..self.sets.len() {
            if rest == NONE {
                break;
            }
            let held = self.held(rest);
            if row(&self.foreign, held.lock / 2) == 0
                && self.contains(second, held.lock, held.lock % 2 == 0)
            {
                return true;
            }
            rest = held.outer;
        }
        false
    }

    /// Whether the second set has all of the first one, and as strong.
    pub(crate) fn is_within(&self, first: u32, second: u32) -> bool {
        let mut rest = first;
        if first == second {
            return true;
        }
        for _ in 0..self.sets.len() {
            if rest == NONE {
                break;
            }
            let held = self.held(rest);
            if !self.contains(second, held.lock, held.lock % 2 == 1) {
                return false;
            }
            rest = held.outer;
        }
        true
    }

    /// The event begins or ends a section, where it does.
    pub(crate) fn note(
        &mut self,
        trace: &Trace<A>,
        pairing: &Pairing<A>,
        at: u32,
        event: &Event,
    ) -> Result<(), AllocError> {
        let (lock, begins) = self.section(trace, &event.op);
        if lock == NONE || row(&self.foreign, lock / 2) == 1 {
            return Ok(());
        }
        let set = row(&self.current, event.who);
        let new = if begins {
            self.add(set, lock)?
        } else if is_by(trace, pairing.want(at), event.who) {
            self.remove(set, lock)?
        } else {
            set_row(&mut self.foreign, lock / 2, 1);
            self.is_any_foreign = true;
            set
        };
        set_row(&mut self.current, event.who, new);
        Ok(())
    }

    // The lock of which the operation begins or ends a section, and whether it begins it.
    fn section(&self, trace: &Trace<A>, op: &Op) -> (u32, bool) {
        match op {
            Op::Lock(lock) => (strong(*lock), true),
            Op::TryLock(lock) => (strong(*lock), true),
            Op::RLock(lock) => (lock.saturating_mul(2), true),
            Op::TryRLock(lock) => (lock.saturating_mul(2), true),
            Op::Unlock(lock) => (strong(*lock), false),
            Op::RUnlock(lock) => (lock.saturating_mul(2), false),
            Op::Send(chan, _) => (self.channel(trace, *chan), true),
            Op::Recv(chan, _) => (self.channel(trace, *chan), false),
            _ => (NONE, false),
        }
    }

    fn channel(&self, trace: &Trace<A>, chan: u32) -> u32 {
        if chan < trace.decls().count(Kind::Chan) && trace.decls().capacity(chan) == 1 {
            strong(self.locks.saturating_add(chan))
        } else {
            NONE
        }
    }
}

fn strong(lock: u32) -> u32 {
    lock.saturating_mul(2).saturating_add(1)
}

// Whether it is an event of the goroutine.
fn is_by<A: Allocator>(trace: &Trace<A>, at: u32, who: u32) -> bool {
    (at as usize) < trace.len() && trace.event(at as usize).who == who
}
