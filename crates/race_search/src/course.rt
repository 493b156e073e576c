//! Which recorded event can come next in another order. Nothing is proved of it but that it returns: what the search proposes is tested.

use crate::rows::{NONE, fill, lower, raise, row, rows_of, set_row};
use race_records::{Cases, Dir, Kind, Op, Trace};
use std::alloc::{AllocError, Allocator, Global};

/// The events so far. Only events that follow their goroutines' earlier ones are asked for, so the rules that speak of one goroutine alone hold.
#[derive(Drop)]
pub(crate) struct Course<A: Allocator = Global> {
    // Of each variable its last write.
    written: Vec<u32, A>,
    // Of each channel its oldest send that isn't received, the newest, and how many there are; of each send the next one.
    oldest: Vec<u32, A>,
    newest: Vec<u32, A>,
    count: Vec<u32, A>,
    next: Vec<u32, A>,
    closed: Vec<u32, A>,
    // Of each lock how many sections are open, for reading alone or not.
    held: Vec<u32, A>,
    readers: Vec<u32, A>,
    ended: Vec<u32, A>,
}

// The value that the event reads, writes, sends or receives.
fn value_of<A: Allocator>(trace: &Trace<A>, at: u32) -> u64 {
    if at as usize >= trace.len() {
        return 0;
    }
    match &trace.event(at as usize).op {
        Op::Read(_, value) => *value,
        Op::Write(_, value) => *value,
        Op::Send(_, value) => *value,
        Op::Recv(_, value) => *value,
        _ => 0,
    }
}

impl<A: Allocator + Copy> Course<A> {
    /// Before the first of so many events.
    pub(crate) fn new(alloc: A, trace: &Trace<A>, events: usize) -> Result<Course<A>, AllocError> {
        let decls = trace.decls();
        let chans = decls.count(Kind::Chan) as usize;
        let locks = decls.count(Kind::Lock) as usize;
        Ok(Course {
            written: rows_of(alloc, decls.count(Kind::Var) as usize, NONE)?,
            oldest: rows_of(alloc, chans, NONE)?,
            newest: rows_of(alloc, chans, NONE)?,
            count: rows_of(alloc, chans, 0)?,
            next: rows_of(alloc, events, NONE)?,
            closed: rows_of(alloc, chans, 0)?,
            held: rows_of(alloc, locks, 0)?,
            readers: rows_of(alloc, locks, 0)?,
            ended: rows_of(alloc, decls.count(Kind::Once) as usize, 0)?,
        })
    }

    /// Before the first event.
    pub(crate) fn clear(&mut self) {
        fill(&mut self.written, NONE);
        fill(&mut self.oldest, NONE);
        fill(&mut self.newest, NONE);
        fill(&mut self.count, 0);
        fill(&mut self.closed, 0);
        fill(&mut self.held, 0);
        fill(&mut self.readers, 0);
        fill(&mut self.ended, 0);
    }

    /// The variable's last write, or `NONE`.
    pub(crate) fn last_write(&self, var: u32) -> u32 {
        row(&self.written, var)
    }

    fn is_full<B: Allocator>(&self, trace: &Trace<B>, chan: u32) -> bool {
        chan >= trace.decls().count(Kind::Chan)
            || row(&self.count, chan) >= trace.decls().capacity(chan)
    }

    fn is_free(&self, lock: u32) -> bool {
        row(&self.held, lock) == 0 && row(&self.readers, lock) == 0
    }

    // Whether no case can go on.
    fn is_blocked<B: Allocator>(&self, trace: &Trace<B>, cases: &Cases) -> bool {
        for k in 0..cases.len() {
            let case = cases.get(k);
            if let Some(chan) = case.chan {
                let has_room = !self.is_full(trace, chan);
                let can_go_on = match case.dir {
                    Dir::Send => has_room,
                    Dir::Recv => row(&self.count, chan) > 0,
                };
                if can_go_on || row(&self.closed, chan) == 1 {
                    return false;
                }
            }
        }
        true
    }

    /// Whether the event can come next.
    pub(crate) fn can_come<B: Allocator>(&self, trace: &Trace<B>, at: u32) -> bool {
        if at as usize >= trace.len() {
            return false;
        }
        let value = value_of(trace, at);
        match &trace.event(at as usize).op {
            Op::Read(var, _) => value_of(trace, row(&self.written, *var)) == value,
            Op::Send(chan, _) => row(&self.closed, *chan) == 0 && !self.is_full(trace, *chan),
            Op::Recv(chan, _) => {
                row(&self.count, *chan) > 0 && value_of(trace, row(&self.oldest, *chan)) == value
            }
            Op::Meet(_, chan, _) => row(&self.closed, *chan) == 0,
            Op::RecvClosed(chan) => row(&self.closed, *chan) == 1 && row(&self.count, *chan) == 0,
            Op::Close(chan) => row(&self.closed, *chan) == 0,
            Op::Default(cases) => self.is_blocked(trace, cases),
            Op::OnceDone(once) => row(&self.ended, *once) == 1,
            op => self.can_lock(op),
        }
    }

    fn can_lock(&self, op: &Op) -> bool {
        match op {
            Op::Lock(lock) => self.is_free(*lock),
            Op::TryLock(lock) => self.is_free(*lock),
            Op::RLock(lock) => row(&self.held, *lock) == 0,
            Op::TryRLock(lock) => row(&self.held, *lock) == 0,
            Op::Unlock(lock) => row(&self.held, *lock) > 0,
            Op::RUnlock(lock) => row(&self.readers, *lock) > 0,
            Op::TryFail(lock) => !self.is_free(*lock),
            _ => true,
        }
    }

    /// The event comes.
    pub(crate) fn take<B: Allocator>(&mut self, trace: &Trace<B>, at: u32) {
        if at as usize >= trace.len() {
            return;
        }
        match &trace.event(at as usize).op {
            Op::Write(var, _) => set_row(&mut self.written, *var, at),
            Op::Send(chan, _) => self.send(*chan, at),
            Op::Recv(chan, _) => {
                let next = row(&self.next, row(&self.oldest, *chan));
                set_row(&mut self.oldest, *chan, next);
                lower(&mut self.count, *chan);
            }
            Op::Close(chan) => set_row(&mut self.closed, *chan, 1),
            Op::OnceEnd(once) => set_row(&mut self.ended, *once, 1),
            Op::Lock(lock) => raise(&mut self.held, *lock),
            Op::TryLock(lock) => raise(&mut self.held, *lock),
            Op::RLock(lock) => raise(&mut self.readers, *lock),
            Op::TryRLock(lock) => raise(&mut self.readers, *lock),
            Op::Unlock(lock) => lower(&mut self.held, *lock),
            Op::RUnlock(lock) => lower(&mut self.readers, *lock),
            _ => {}
        }
    }

    /// What the event would take the place of: the variable's last write, or the channel's newest or oldest send.
    pub(crate) fn old<B: Allocator>(&self, trace: &Trace<B>, at: u32) -> u32 {
        if at as usize >= trace.len() {
            return NONE;
        }
        match &trace.event(at as usize).op {
            Op::Write(var, _) => row(&self.written, *var),
            Op::Send(chan, _) => row(&self.newest, *chan),
            Op::Recv(chan, _) => row(&self.oldest, *chan),
            _ => NONE,
        }
    }

    /// The last event that came goes, and what it took the place of comes back.
    pub(crate) fn take_back<B: Allocator>(&mut self, trace: &Trace<B>, at: u32, old: u32) {
        if at as usize >= trace.len() {
            return;
        }
        match &trace.event(at as usize).op {
            Op::Write(var, _) => set_row(&mut self.written, *var, old),
            Op::Send(chan, _) => {
                set_row(&mut self.newest, *chan, old);
                lower(&mut self.count, *chan);
            }
            Op::Recv(chan, _) => {
                set_row(&mut self.oldest, *chan, old);
                raise(&mut self.count, *chan);
            }
            Op::Close(chan) => set_row(&mut self.closed, *chan, 0),
            Op::OnceEnd(once) => set_row(&mut self.ended, *once, 0),
            Op::Lock(lock) => lower(&mut self.held, *lock),
            Op::TryLock(lock) => lower(&mut self.held, *lock),
            Op::RLock(lock) => lower(&mut self.readers, *lock),
            Op::TryRLock(lock) => lower(&mut self.readers, *lock),
            Op::Unlock(lock) => raise(&mut self.held, *lock),
            Op::RUnlock(lock) => raise(&mut self.readers, *lock),
            _ => {}
        }
    }

    fn send(&mut self, chan: u32, at: u32) {
        set_row(&mut self.next, at, NONE);
        if row(&self.count, chan) == 0 {
            set_row(&mut self.oldest, chan, at);
        } else {
            let newest = row(&self.newest, chan);
            set_row(&mut self.next, newest, at);
        }
        set_row(&mut self.newest, chan, at);
        raise(&mut self.count, chan);
    }
}
