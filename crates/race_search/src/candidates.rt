//! The variables of which two accesses may come to stand side by side in another run: the later one doesn't always want the other, and they have no
//! common lock. Nothing is proved of it but that it returns.

use crate::known::Known;
use crate::rows::{NONE, push_row, row, rows_of, set_row};
use crate::shared::{Shared, access_of};
use crate::steps::Part;
use crate::wants::Wants;
use race_predict::partner;
use race_records::{Event, Kind, Op, Trace};
use std::alloc::{AllocError, Allocator, Global};

/// An access that later ones are compared with: the part of its goroutine that ends with it, and the locks.
#[derive(Clone, Copy)]
struct Access {
    own: Part,
    set: u32,
}

/// What the events so far leave for those to come.
#[derive(Drop)]
struct Recent<A: Allocator = Global> {
    known: Known<A>,
    // Of each event that is wanted the clock behind it.
    clocks: Vec<u32, A>,
    written: Vec<u32, A>,
    accesses: Vec<Access, A>,
    // Lists of accesses: of each variable the first of its writes and of its reads, and behind these rows of each access the next one.
    links: Vec<u32, A>,
    heads: u32,
    unused: u32,
    // Of each goroutine the last access that the list's walk came by: for which walk, and its locks.
    walks: Vec<u32, A>,
    sets: Vec<u32, A>,
    // How long a walk may be.
    longest: u32,
}

/// Of each variable whether it is one, as 0 and 1, among those that are searched. `clocks` has a row for each event.
pub(crate) fn candidates_of<A: Allocator + Copy>(
    alloc: A,
    trace: &Trace<A>,
    wants: &Wants<A>,
    clocks: Vec<u32, A>,
    shared: &Shared<A>,
    mut searched: Vec<u32, A>,
) -> Result<Vec<u32, A>, AllocError> {
    let mut candidates = rows_of(alloc, searched.len(), 0)?;
    if !searched.iter().any(|is_searched| *is_searched == 1) {
        return Ok(candidates);
    }
    let mut recent = Recent::new(alloc, trace, clocks)?;
    for at in 0..trace.len() {
        let event = trace.event(at);
        let (var, writes) = access_of(event);
        let at = at as u32;
        if at > shared.begin && row(&searched, var) == 1 {
            let own = Part {
                who: event.who,
                end: at.saturating_add(1),
            };
            let set = row(&shared.set, at);
            if recent.compare(shared, Access { own, set }, var, writes)? {
                set_row(&mut searched, var, 0);
                set_row(&mut candidates, var, 1);
            }
        }
        recent.note(trace, wants, at, event)?;
    }
    Ok(candidates)
}

impl<A: Allocator + Copy> Recent<A> {
    fn new(alloc: A, trace: &Trace<A>, clocks: Vec<u32, A>) -> Result<Recent<A>, AllocError> {
        let vars = trace.decls().count(Kind::Var);
        let goroutines = trace.decls().count(Kind::Goroutine);
        let heads = vars.saturating_mul(2);
        Ok(Recent {
            known: Known::new(alloc, goroutines, trace.len())?,
            clocks,
            written: rows_of(alloc, vars as usize, NONE)?,
            accesses: Vec::new(alloc),
            links: rows_of(alloc, heads as usize, NONE)?,
            heads,
            unused: NONE,
            walks: rows_of(alloc, goroutines as usize, 0)?,
            sets: rows_of(alloc, goroutines as usize, NONE)?,
            longest: goroutines.saturating_mul(4).saturating_add(64),
        })
    }

    fn link(&self, i: u32) -> u32 {
        self.heads.saturating_add(i)
    }

    fn access(&self, i: u32) -> Access {
        if (i as usize) < self.accesses.len() {
            self.accesses[i as usize]
        } else {
            Access {
                own: Part { who: 0, end: NONE },
                set: NONE,
            }
        }
    }

    // Puts the access into the list that begins in the cell, in place of the first one where that is one of its goroutine under the same locks.
    fn add(&mut self, head: u32, access: Access) -> Result<(), AllocError> {
        let first = row(&self.links, head);
        if (first as usize) < self.accesses.len() {
            let other = self.accesses[first as usize];
            if other.own.who == access.own.who && other.set == access.set {
                self.accesses[first as usize] = access;
                return Ok(());
            }
        }
        let mut i = self.unused;
        if (i as usize) < self.accesses.len() {
            self.unused = row(&self.links, self.link(i));
            self.accesses[i as usize] = access;
        } else {
            i = push_row(&mut self.accesses, access)?;
            push_row(&mut self.links, NONE)?;
        }
        let link = self.link(i);
        set_row(&mut self.links, link, first);
        set_row(&mut self.links, head, i);
        Ok(())
    }

    // Takes the access behind the cell out of its list.
    fn remove(&mut self, cell: u32, i: u32) {
        let link = self.link(i);
        let next = row(&self.links, link);
        set_row(&mut self.links, cell, next);
        set_row(&mut self.links, link, self.unused);
        self.unused = i;
    }

    // Whether the walk, which no other has as its number, came by a later access of the goroutine under no more locks.
    fn was_met(&mut self, shared: &Shared<A>, access: Access, walk: u32) -> bool {
        let who = access.own.who;
        if row(&self.walks, who) == walk
            && shared.locks.is_within(row(&self.sets, who), access.set)
        {
            return true;
        }
        set_row(&mut self.walks, who, walk);
        set_row(&mut self.sets, who, access.set);
        false
    }

    // Whether one of the list may come to stand beside the access. An access that is known to a write under no more locks is known to all that know
    // the write, or excluded: it isn't needed any more. Where the list is too long, the answer is yes.
    fn scan(&mut self, shared: &Shared<A>, head: u32, mine: Access, writes: bool) -> bool {
        let walk = mine.own.end.saturating_mul(2).saturating_add(head % 2);
        let mut cell = head;
        for _ in 0..self.longest {
            let i = row(&self.links, cell);
            if i == NONE {
                return false;
            }
            let access = self.access(i);
            let is_known = access.own.who == mine.own.who
                || access.own.end <= self.known.count(mine.own.who, access.own.who);
            if !is_known && !shared.locks.exclude(access.set, mine.set) {
                return true;
            }
            if writes
                && (is_known && shared.locks.is_within(mine.set, access.set)
                    || self.was_met(shared, access, walk))
            {
                self.remove(cell, i);
            } else {
                cell = self.link(i);
            }
        }
        true
    }

    // Whether the access may come to stand beside an earlier one; else later ones are compared with it.
    fn compare(
        &mut self,
        shared: &Shared<A>,
        mine: Access,
        var: u32,
        writes: bool,
    ) -> Result<bool, AllocError> {
        let head = var.saturating_mul(2);
        let reads = head.saturating_add(1);
        if self.scan(shared, head, mine, writes) || writes && self.scan(shared, reads, mine, true) {
            return Ok(true);
        }
        self.add(if writes { head } else { reads }, mine)?;
        Ok(false)
    }

    // The event comes, with what it always wants.
    fn note(
        &mut self,
        trace: &Trace<A>,
        wants: &Wants<A>,
        at: u32,
        event: &Event,
    ) -> Result<(), AllocError> {
        let who = event.who;
        match &event.op {
            Op::Read(_, _) => self.learn(trace, who, wants.want(at))?,
            Op::Write(var, _) => {
                let before = row(&self.written, *var);
                self.release(before);
                set_row(&mut self.written, *var, at);
                self.keep(wants, who, at);
            }
            Op::Send(_, _) => self.keep(wants, who, at),
            Op::Recv(_, _) => {
                let send = wants.want(at);
                self.learn(trace, who, send)?;
                self.release(send);
            }
            Op::RecvClosed(_) => self.learn(trace, who, wants.want(at))?,
            Op::Close(_) => self.keep(wants, who, at),
            Op::OnceEnd(_) => self.keep(wants, who, at),
            Op::OnceDone(_) => self.learn(trace, who, wants.want(at))?,
            _ => self.join(at, event)?,
        }
        Ok(())
    }

    // The goroutine learns what the earlier event knew.
    fn learn(&mut self, trace: &Trace<A>, who: u32, want: u32) -> Result<(), AllocError> {
        let clock = row(&self.clocks, want);
        if clock == NONE || want as usize >= trace.len() {
            return Ok(());
        }
        let other = Part {
            who: trace.event(want as usize).who,
            end: want.saturating_add(1),
        };
        self.known.learn(who, clock, other)
    }

    // Keeps the clock behind the event, where a later one wants it.
    fn keep(&mut self, wants: &Wants<A>, who: u32, at: u32) {
        let clock = if wants.end(at) == NONE {
            NONE
        } else {
            self.known.share(who)
        };
        set_row(&mut self.clocks, at, clock);
    }

    // No later event wants the clock of this one.
    fn release(&mut self, at: u32) {
        let clock = row(&self.clocks, at);
        if clock != NONE {
            self.known.release(clock);
            set_row(&mut self.clocks, at, NONE);
        }
    }

    // Both learn of one another in a meet, and in a start the one that is started.
    fn join(&mut self, at: u32, event: &Event) -> Result<(), AllocError> {
        let Some(other) = partner(&event.op) else {
            return Ok(());
        };
        let end = at.saturating_add(1);
        let who = event.who;
        let clock = self.known.current(who);
        self.known.learn(other, clock, Part { who, end })?;
        if matches!(event.op, Op::Meet(_, _, _)) {
            let clock = self.known.current(other);
            self.known.learn(who, clock, Part { who: other, end })?;
        }
        Ok(())
    }
}
