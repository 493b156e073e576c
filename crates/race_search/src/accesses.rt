//! The accesses of some variables: by variable, goroutine and kind, and by goroutine alone. Nothing is proved of it but that it returns.

use crate::rows::{NONE, push_row, row, rows_of, set_row};
use crate::shared::access_of;
use race_records::{Kind, Trace};
use std::alloc::{AllocError, Allocator, Global};

/// The reads or the writes of one variable by one goroutine.
#[derive(Clone, Copy)]
pub(crate) struct Group {
    pub(crate) who: u32,
    pub(crate) writes: bool,
    pub(crate) first: u32,
    last: u32,
    // The variable's next group.
    pub(crate) next: u32,
}

const NO_GROUP: Group = Group {
    who: NONE,
    writes: false,
    first: NONE,
    last: NONE,
    next: NONE,
};

#[derive(Drop)]
pub(crate) struct Accesses<A: Allocator = Global> {
    groups: Vec<Group, A>,
    // Of each variable its first group.
    first: Vec<u32, A>,
    // Of each access the next one of its group.
    next: Vec<u32, A>,
    // Of each goroutine its first access and its last, and of each access the goroutine's next one.
    begin: Vec<u32, A>,
    end: Vec<u32, A>,
    later: Vec<u32, A>,
}

impl<A: Allocator + Copy> Accesses<A> {
    /// Those of the variables that are wanted, as rows of 0 and 1, from this index on.
    pub(crate) fn new(
        alloc: A,
        trace: &Trace<A>,
        is_wanted: &Vec<u32, A>,
        begin: u32,
    ) -> Result<Accesses<A>, AllocError> {
        let is_any = is_wanted.iter().any(|is_wanted| *is_wanted == 1);
        let events = if is_any { trace.len() } else { 0 };
        let goroutines = trace.decls().count(Kind::Goroutine) as usize;
        let mut accesses = Accesses {
            groups: Vec::new(alloc),
            first: rows_of(alloc, trace.decls().count(Kind::Var) as usize, NONE)?,
            next: rows_of(alloc, events, NONE)?,
            begin: rows_of(alloc, goroutines, NONE)?,
            end: rows_of(alloc, goroutines, NONE)?,
            later: rows_of(alloc, events, NONE)?,
        };
        for at in begin as usize..events {
            let event = trace.event(at);
            let (var, writes) = access_of(event);
            if row(is_wanted, var) == 1 {
                accesses.add(var, event.who, writes, at as u32)?;
                accesses.add_later(event.who, at as u32);
            }
        }
        Ok(accesses)
    }

    /// How many groups there are.
    pub(crate) fn len(&self) -> usize {
        self.groups.len()
    }

    pub(crate) fn group(&self, i: u32) -> Group {
        if (i as usize) < self.groups.len() {
            self.groups[i as usize]
        } else {
            NO_GROUP
        }
    }

    /// The variable's first group.
    pub(crate) fn first_of(&self, var: u32) -> u32 {
        row(&self.first, var)
    }

    /// The group's next access.
    pub(crate) fn next_of(&self, at: u32) -> u32 {
        row(&self.next, at)
    }

    /// The goroutine's first access.
    pub(crate) fn begin_of(&self, who: u32) -> u32 {
        row(&self.begin, who)
    }

    /// The goroutine's next access.
    pub(crate) fn later_than(&self, at: u32) -> u32 {
        row(&self.later, at)
    }

    fn add_later(&mut self, who: u32, at: u32) {
        let last = row(&self.end, who);
        if last == NONE {
            set_row(&mut self.begin, who, at);
        } else {
            set_row(&mut self.later, last, at);
        }
        set_row(&mut self.end, who, at);
    }

    /// The group of the goroutine's reads or writes of the variable.
    pub(crate) fn find(&self, var: u32, who: u32, writes: bool) -> u32 {
        let mut i = row(&self.first, var);
        for _ in 0..self.groups.len() {
            let group = self.group(i);
            if i == NONE || group.who == who && group.writes == writes {
                break;
            }
            i = group.next;
        }
        i
    }

    fn add(&mut self, var: u32, who: u32, writes: bool, at: u32) -> Result<(), AllocError> {
        let found = self.find(var, who, writes);
        if (found as usize) < self.groups.len() {
            set_row(&mut self.next, self.groups[found as usize].last, at);
            self.groups[found as usize].last = at;
            return Ok(());
        }
        let (first, last) = (at, at);
        let next = row(&self.first, var);
        let group = Group {
            who,
            writes,
            first,
            last,
            next,
        };
        let new = push_row(&mut self.groups, group)?;
        set_row(&mut self.first, var, new);
        Ok(())
    }
}
