//! The variables on which another run may race: those of several goroutines that no lock guards. Nothing is proved of it but that it returns.

use crate::locksets::LockSets;
use crate::rows::{NONE, push_row, row, rows_of, set_row};
use crate::wants::Pairing;
use race_records::{Event, Kind, Op, Trace};
use std::alloc::{AllocError, Allocator, Global};

// Several goroutines have the variable.
const SEVERAL: u32 = NONE - 1;

/// The variable that the event accesses, and whether it writes; `NONE` where it is no access.
pub(crate) fn access_of(event: &Event) -> (u32, bool) {
    match &event.op {
        Op::Read(var, _) => (*var, false),
        Op::Write(var, _) => (*var, true),
        _ => (NONE, false),
    }
}

/// The same for an event by its index.
pub(crate) fn access_at<A: Allocator>(trace: &Trace<A>, at: u32) -> (u32, bool) {
    if (at as usize) < trace.len() {
        access_of(trace.event(at as usize))
    } else {
        (NONE, false)
    }
}

/// Of each event the locks that its goroutine holds where it accesses a variable, and of each variable what is known.
#[derive(Drop)]
pub(crate) struct Shared<A: Allocator = Global> {
    pub(crate) locks: LockSets<A>,
    pub(crate) set: Vec<u32, A>,
    /// The first start of a goroutine, or `NONE`: what main did before it comes before all events of the others.
    pub(crate) begin: u32,
    // Of each variable its goroutine; whether it is written, and whether two of its accesses have no common lock, as 0 and 1.
    owner: Vec<u32, A>,
    written: Vec<u32, A>,
    open: Vec<u32, A>,
    // Of each variable a list of sets: the first, and of each the set, whether a write has it, as 0 and 1, and the next one.
    first: Vec<u32, A>,
    sets: Vec<u32, A>,
    is_written: Vec<u32, A>,
    next: Vec<u32, A>,
}

impl<A: Allocator + Copy> Shared<A> {
    pub(crate) fn new(alloc: A, trace: &Trace<A>) -> Result<Shared<A>, AllocError> {
        let vars = trace.decls().count(Kind::Var) as usize;
        Ok(Shared {
            locks: LockSets::new(alloc, trace)?,
            set: rows_of(alloc, trace.len(), NONE)?,
            begin: NONE,
            owner: rows_of(alloc, vars, NONE)?,
            written: rows_of(alloc, vars, 0)?,
            open: rows_of(alloc, vars, 0)?,
            first: rows_of(alloc, vars, NONE)?,
            sets: Vec::new(alloc),
            is_written: Vec::new(alloc),
            next: Vec::new(alloc),
        })
    }

    /// Whether another run may race on the variable, once all events were noted.
    pub(crate) fn may_race(&self, var: u32) -> bool {
        row(&self.owner, var) == SEVERAL
            && row(&self.written, var) == 1
            && (row(&self.open, var) == 1 || self.locks.is_any_foreign && !self.is_guarded(var))
    }

    // Whether all sets of the variable exclude one another.
    fn is_guarded(&self, var: u32) -> bool {
        let mut i = row(&self.first, var);
        for _ in 0..self.sets.len() {
            if i == NONE {
                break;
            }
            if !self.exclude(row(&self.sets, i), row(&self.is_written, i) == 1, i) {
                return false;
            }
            i = row(&self.next, i);
        }
        true
    }

    // Whether the set excludes itself, and each set from this one on, where one of the two has a write.
    fn exclude(&self, set: u32, writes: bool, first: u32) -> bool {
        let mut excludes = !writes || self.locks.exclude(set, set);
        let mut i = first;
        for _ in 0..self.sets.len() {
            if i == NONE || !excludes {
                break;
            }
            excludes = !writes && row(&self.is_written, i) == 0
                || self.locks.exclude(row(&self.sets, i), set);
            i = row(&self.next, i);
        }
        excludes
    }

    /// The event comes next.
    pub(crate) fn note(
        &mut self,
        trace: &Trace<A>,
        pairing: &Pairing<A>,
        at: u32,
        event: &Event,
    ) -> Result<(), AllocError> {
        let (var, writes) = access_of(event);
        if var == NONE {
            if matches!(event.op, Op::Go(_)) {
                self.begin = self.begin.min(at);
            }
            return self.locks.note(trace, pairing, at, event);
        }
        if self.begin == NONE {
            return Ok(());
        }
        let set = self.locks.current(event.who);
        set_row(&mut self.set, at, set);
        if writes {
            set_row(&mut self.written, var, 1);
        }
        let owner = row(&self.owner, var);
        if owner == NONE {
            set_row(&mut self.owner, var, event.who);
        } else if owner != event.who {
            set_row(&mut self.owner, var, SEVERAL);
        }
        self.note_set(var, set, writes)
    }

    // An access of the variable has this set.
    fn note_set(&mut self, var: u32, set: u32, writes: bool) -> Result<(), AllocError> {
        if row(&self.open, var) == 1 {
            return Ok(());
        }
        let first = row(&self.first, var);
        let mut i = first;
        for _ in 0..self.sets.len() {
            if i == NONE {
                break;
            }
            if row(&self.sets, i) == set && (!writes || row(&self.is_written, i) == 1) {
                return Ok(());
            }
            i = row(&self.next, i);
        }
        if !self.exclude(set, writes, first) {
            set_row(&mut self.open, var, 1);
            return Ok(());
        }
        push_row(&mut self.sets, set)?;
        push_row(&mut self.is_written, u32::from(writes))?;
        let new = push_row(&mut self.next, first)?;
        set_row(&mut self.first, var, new);
        Ok(())
    }
}
