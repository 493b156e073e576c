//! Which earlier event each event wants in another run. Nothing is proved of it but that it returns: what the search proposes is tested.

use crate::rows::{NONE, row, rows_of, set_row};
use race_records::{Event, Kind, Op, Trace};
use std::alloc::{AllocError, Allocator, Global};

/// A waiting line for each object of a kind: its first event and its last.
#[derive(Drop)]
struct Lines<A: Allocator = Global> {
    first: Vec<u32, A>,
    last: Vec<u32, A>,
}

impl<A: Allocator + Copy> Lines<A> {
    fn new(alloc: A, len: usize) -> Result<Lines<A>, AllocError> {
        Ok(Lines {
            first: rows_of(alloc, len, NONE)?,
            last: rows_of(alloc, len, NONE)?,
        })
    }

    fn push(&mut self, next: &mut Vec<u32, A>, object: u32, at: u32) {
        if row(&self.first, object) == NONE {
            set_row(&mut self.first, object, at);
        } else {
            let last = row(&self.last, object);
            set_row(next, last, at);
        }
        set_row(&mut self.last, object, at);
    }

    fn pop(&mut self, next: &Vec<u32, A>, object: u32) -> u32 {
        let first = row(&self.first, object);
        let second = row(next, first);
        set_row(&mut self.first, object, second);
        first
    }

    // The goroutine's own first one, or else the first one.
    fn pop_own<B: Allocator>(
        &mut self,
        next: &mut Vec<u32, A>,
        trace: &Trace<B>,
        object: u32,
        who: u32,
    ) -> u32 {
        let mut before = NONE;
        let mut i = row(&self.first, object);
        for _ in 0..trace.len() {
            if i as usize >= trace.len() || trace.event(i as usize).who == who {
                break;
            }
            before = i;
            i = row(next, i);
        }
        if i == NONE || before == NONE {
            return self.pop(next, object);
        }
        let behind = row(next, i);
        set_row(next, before, behind);
        if behind == NONE {
            set_row(&mut self.last, object, before);
        }
        i
    }
}

/// Of each event the one that it is paired with: of a read the write that it found, of a receive its send, of an unlock its lock. A send and a lock
/// are paired with what ends them, and of the other events that are wanted each with one that wants it.
#[derive(Drop)]
pub(crate) struct Wants<A: Allocator = Global> {
    pair: Vec<u32, A>,
}

impl<A: Allocator> Wants<A> {
    /// The earlier event that this one always wants.
    pub(crate) fn want(&self, at: u32) -> u32 {
        let other = row(&self.pair, at);
        if other < at { other } else { NONE }
    }

    /// The later event that ends what this one begins (an unlock, a receive), or that wants it.
    pub(crate) fn end(&self, at: u32) -> u32 {
        let other = row(&self.pair, at);
        if other > at { other } else { NONE }
    }
}

/// The wants of the events so far, and what these leave for those to come.
#[derive(Drop)]
pub(crate) struct Pairing<A: Allocator = Global> {
    wants: Wants<A>,
    // Of each event that waits in a line the next one.
    next: Vec<u32, A>,
    written: Vec<u32, A>,
    writers: Vec<u32, A>,
    sends: Lines<A>,
    closed: Vec<u32, A>,
    held: Vec<u32, A>,
    touched: Vec<u32, A>,
    readers: Lines<A>,
    ended: Vec<u32, A>,
}

impl<A: Allocator + Copy> Pairing<A> {
    pub(crate) fn new(alloc: A, trace: &Trace<A>) -> Result<Pairing<A>, AllocError> {
        let decls = trace.decls();
        let vars = decls.count(Kind::Var) as usize;
        let chans = decls.count(Kind::Chan) as usize;
        let locks = decls.count(Kind::Lock) as usize;
        Ok(Pairing {
            wants: Wants {
                pair: rows_of(alloc, trace.len(), NONE)?,
            },
            next: rows_of(alloc, trace.len(), NONE)?,
            written: rows_of(alloc, vars, NONE)?,
            writers: rows_of(alloc, vars, NONE)?,
            sends: Lines::new(alloc, chans)?,
            closed: rows_of(alloc, chans, NONE)?,
            held: rows_of(alloc, locks, NONE)?,
            touched: rows_of(alloc, locks, NONE)?,
            readers: Lines::new(alloc, locks)?,
            ended: rows_of(alloc, decls.count(Kind::Once) as usize, NONE)?,
        })
    }

    /// The earlier event that this one always wants.
    pub(crate) fn want(&self, at: u32) -> u32 {
        self.wants.want(at)
    }

    /// The wants, and a row for each event that isn't needed any more.
    pub(crate) fn finish(self) -> (Wants<A>, Vec<u32, A>) {
        let Pairing {
            wants,
            next,
            written: _,
            writers: _,
            sends: _,
            closed: _,
            held: _,
            touched: _,
            readers: _,
            ended: _,
        } = self;
        (wants, next)
    }

    // The later event wants the earlier one.
    fn pair(&mut self, begin: u32, end: u32) {
        set_row(&mut self.wants.pair, end, begin);
        set_row(&mut self.wants.pair, begin, end);
    }

    /// The event comes next.
    pub(crate) fn note(&mut self, trace: &Trace<A>, at: u32, event: &Event) {
        match &event.op {
            Op::Read(var, _) => self.note_read(*var, at, event.who),
            Op::Write(var, _) => {
                set_row(&mut self.written, *var, at);
                set_row(&mut self.writers, *var, event.who);
            }
            Op::Send(chan, _) => self.sends.push(&mut self.next, *chan, at),
            Op::Recv(chan, _) => {
                let send = self.sends.pop(&self.next, *chan);
                self.pair(send, at);
            }
            Op::RecvClosed(chan) => {
                let close = row(&self.closed, *chan);
                self.pair(close, at);
            }
            Op::Close(chan) => set_row(&mut self.closed, *chan, at),
            Op::OnceEnd(once) => set_row(&mut self.ended, *once, at),
            Op::OnceDone(once) => {
                let end = row(&self.ended, *once);
                self.pair(end, at);
            }
            _ => self.note_lock(trace, at, event),
        }
    }

    // A write is paired with a read of another goroutine, where there is one.
    fn note_read(&mut self, var: u32, at: u32, who: u32) {
        let write = row(&self.written, var);
        set_row(&mut self.wants.pair, at, write);
        if row(&self.writers, var) != who {
            set_row(&mut self.wants.pair, write, at);
        }
    }

    fn note_lock(&mut self, trace: &Trace<A>, at: u32, event: &Event) {
        match &event.op {
            Op::Lock(lock) => self.lock(*lock, at),
            Op::TryLock(lock) => self.lock(*lock, at),
            Op::RLock(lock) => self.read_lock(*lock, at),
            Op::TryRLock(lock) => self.read_lock(*lock, at),
            Op::Unlock(lock) => {
                let begin = row(&self.held, *lock);
                self.pair(begin, at);
                set_row(&mut self.held, *lock, NONE);
            }
            Op::RUnlock(lock) => {
                let next = &mut self.next;
                let begin = self.readers.pop_own(next, trace, *lock, event.who);
                self.pair(begin, at);
            }
            Op::TryFail(lock) => {
                let section = self.section(*lock);
                set_row(&mut self.wants.pair, at, section);
            }
            _ => {}
        }
    }

    // The section of the lock that is open, or else the last one.
    fn section(&self, lock: u32) -> u32 {
        if row(&self.held, lock) != NONE {
            row(&self.held, lock)
        } else if row(&self.readers.first, lock) != NONE {
            row(&self.readers.last, lock)
        } else {
            row(&self.touched, lock)
        }
    }

    fn lock(&mut self, lock: u32, at: u32) {
        set_row(&mut self.held, lock, at);
        set_row(&mut self.touched, lock, at);
    }

    fn read_lock(&mut self, lock: u32, at: u32) {
        self.readers.push(&mut self.next, lock, at);
        set_row(&mut self.touched, lock, at);
    }
}
