//! What the events of a set want in the set beside them, goroutine by goroutine. Nothing is proved of it but that it returns: what the search
//! proposes is tested.

use crate::rows::{NONE, push_row, row, rows_of, set_row};
use crate::wants::Wants;
use race_predict::partner;
use race_records::{Cases, Dir, Kind, Op, Trace};
use std::alloc::{AllocError, Allocator, Global};

/// The events of a goroutine whose indexes are lower than `end`; `NONE` where there is no such event.
#[derive(Clone, Copy)]
pub(crate) struct Part {
    pub(crate) who: u32,
    pub(crate) end: u32,
}

/// What an event wants.
#[derive(Clone, Copy)]
pub(crate) enum Ask {
    /// These events.
    Part(Part),
    /// The section that is open where a try fails; another one may do.
    Section(Part),
    /// The end of the lock's earlier sections. Its own end.
    Lock(u32, Part),
    /// The end of the lock's earlier sections that aren't for reading alone. Its own end.
    ReadLock(u32, Part),
    /// The send of this number on the channel: room in the buffer. Its receive.
    Send(u32, u32, Part),
    /// Of the channel's sends of a lower number the receives.
    Receives(u32, u32),
    /// The send of this step and those that follow it on the channel, so many in all; others may do.
    Sends(u32, u32),
}

/// An event that wants something, as the part of its goroutine that ends with it.
#[derive(Clone, Copy)]
pub(crate) struct Step {
    pub(crate) at: u32,
    pub(crate) own: Part,
    pub(crate) next: u32,
    pub(crate) ask: Ask,
}

const NO_PART: Part = Part { who: 0, end: NONE };

const NO_STEP: Step = Step {
    at: NONE,
    own: Part { who: 0, end: NONE },
    next: NONE,
    ask: Ask::Part(Part { who: 0, end: NONE }),
};

/// The steps of all goroutines.
#[derive(Drop)]
pub(crate) struct Steps<A: Allocator = Global> {
    // How many events were taken in.
    events: u32,
    list: Vec<Step, A>,
    // Of each step of a send the channel's next one.
    following: Vec<u32, A>,
    // Of each goroutine.
    first: Vec<u32, A>,
    last: Vec<u32, A>,
    capacities: Vec<u32, A>,
    // Of each channel the step of the oldest send that isn't received yet, and of the last one.
    oldest: Vec<u32, A>,
    newest: Vec<u32, A>,
    // Of each channel how many sends there were, and how many receives.
    sent: Vec<u32, A>,
    received: Vec<u32, A>,
}

/// The part that ends with the event.
pub(crate) fn part_of<A: Allocator>(trace: &Trace<A>, at: u32) -> Part {
    if (at as usize) < trace.len() {
        Part {
            who: trace.event(at as usize).who,
            end: at.saturating_add(1),
        }
    } else {
        NO_PART
    }
}

impl<A: Allocator + Copy> Steps<A> {
    /// Those of no event.
    pub(crate) fn new(alloc: A, trace: &Trace<A>) -> Result<Steps<A>, AllocError> {
        let goroutines = trace.decls().count(Kind::Goroutine) as usize;
        let chans = trace.decls().count(Kind::Chan);
        let mut steps = Steps {
            events: 0,
            list: Vec::new(alloc),
            following: Vec::new(alloc),
            first: rows_of(alloc, goroutines, NONE)?,
            last: rows_of(alloc, goroutines, NONE)?,
            capacities: rows_of(alloc, chans as usize, 0)?,
            oldest: rows_of(alloc, chans as usize, NONE)?,
            newest: rows_of(alloc, chans as usize, NONE)?,
            sent: rows_of(alloc, chans as usize, 0)?,
            received: rows_of(alloc, chans as usize, 0)?,
        };
        for chan in 0..chans {
            set_row(&mut steps.capacities, chan, trace.decls().capacity(chan));
        }
        Ok(steps)
    }

    /// Takes in the events before this index.
    pub(crate) fn go_on(
        &mut self,
        trace: &Trace<A>,
        wants: &Wants<A>,
        end: u32,
    ) -> Result<(), AllocError> {
        for at in self.events..end {
            self.note(trace, wants, at)?;
        }
        self.events = end.max(self.events);
        Ok(())
    }

    /// How many steps there are.
    pub(crate) fn len(&self) -> usize {
        self.list.len()
    }

    pub(crate) fn step(&self, i: u32) -> Step {
        if (i as usize) < self.list.len() {
            self.list[i as usize]
        } else {
            NO_STEP
        }
    }

    /// The goroutine's first step.
    pub(crate) fn first_of(&self, goroutine: u32) -> u32 {
        row(&self.first, goroutine)
    }

    pub(crate) fn following(&self, i: u32) -> u32 {
        row(&self.following, i)
    }

    pub(crate) fn capacity(&self, chan: u32) -> u32 {
        row(&self.capacities, chan)
    }

    fn push(&mut self, at: u32, own: Part, ask: Ask) -> Result<u32, AllocError> {
        push_row(&mut self.following, NONE)?;
        let next = NONE;
        let i = push_row(&mut self.list, Step { at, own, next, ask })?;
        let last = row(&self.last, own.who);
        if (last as usize) < self.list.len() {
            self.list[last as usize].next = i;
        } else {
            set_row(&mut self.first, own.who, i);
        }
        set_row(&mut self.last, own.who, i);
        Ok(i)
    }

    // The event wants another goroutine's events.
    fn push_part(&mut self, at: u32, own: Part, other: Part) -> Result<(), AllocError> {
        if other.who != own.who && other.end != NONE {
            self.push(at, own, Ask::Part(other))?;
        }
        Ok(())
    }

    // The try fails while the section is open.
    fn push_section(&mut self, at: u32, own: Part, begin: Part) -> Result<(), AllocError> {
        if begin.who != own.who && begin.end != NONE {
            self.push(at, own, Ask::Section(begin))?;
        }
        Ok(())
    }

    // The event wants the sends that fill the buffer before it, or the receives that empty it.
    fn push_default(&mut self, at: u32, own: Part, cases: &Cases) -> Result<(), AllocError> {
        for k in 0..cases.len() {
            let case = cases.get(k);
            if let Some(chan) = case.chan {
                let sent = row(&self.sent, chan);
                let ask = match case.dir {
                    Dir::Recv => Ask::Receives(chan, sent),
                    Dir::Send => Ask::Sends(
                        row(&self.oldest, chan),
                        sent.saturating_sub(row(&self.received, chan)),
                    ),
                };
                if sent > 0 {
                    self.push(at, own, ask)?;
                }
            }
        }
        Ok(())
    }

    fn push_send(&mut self, at: u32, own: Part, chan: u32, end: Part) -> Result<(), AllocError> {
        let number = row(&self.sent, chan);
        let i = self.push(at, own, Ask::Send(chan, number, end))?;
        set_row(&mut self.sent, chan, number.saturating_add(1));
        let newest = row(&self.newest, chan);
        set_row(&mut self.following, newest, i);
        if row(&self.oldest, chan) == NONE {
            set_row(&mut self.oldest, chan, i);
        }
        set_row(&mut self.newest, chan, i);
        Ok(())
    }

    fn push_receive(&mut self, at: u32, own: Part, chan: u32) -> Result<(), AllocError> {
        let number = row(&self.received, chan);
        self.push(at, own, Ask::Receives(chan, number))?;
        set_row(&mut self.received, chan, number.saturating_add(1));
        let next = self.following(row(&self.oldest, chan));
        set_row(&mut self.oldest, chan, next);
        Ok(())
    }

    fn note(&mut self, trace: &Trace<A>, wants: &Wants<A>, at: u32) -> Result<(), AllocError> {
        if at as usize >= trace.len() {
            return Ok(());
        }
        let event = trace.event(at as usize);
        let own = part_of(trace, at);
        if let Some(who) = partner(&event.op) {
            let other = Part { who, end: own.end };
            self.push_part(at, own, other)?;
            return self.push_part(at, other, own);
        }
        let want = part_of(trace, wants.want(at));
        if matches!(event.op, Op::TryFail(_)) {
            return self.push_section(at, own, want);
        }
        self.push_part(at, own, want)?;
        let mut end = part_of(trace, wants.end(at));
        if end.end == NONE {
            end.who = own.who;
        }
        self.note_op(at, own, end, &event.op)
    }

    fn note_op(&mut self, at: u32, own: Part, end: Part, op: &Op) -> Result<(), AllocError> {
        let ask = match op {
            Op::Lock(lock) => Ask::Lock(*lock, end),
            Op::TryLock(lock) => Ask::Lock(*lock, end),
            Op::RLock(lock) => Ask::ReadLock(*lock, end),
            Op::TryRLock(lock) => Ask::ReadLock(*lock, end),
            Op::RecvClosed(chan) => Ask::Receives(*chan, NONE),
            Op::Send(chan, _) => return self.push_send(at, own, *chan, end),
            Op::Recv(chan, _) => return self.push_receive(at, own, *chan),
            Op::Default(cases) => return self.push_default(at, own, cases),
            _ => return Ok(()),
        };
        self.push(at, own, ask)?;
        Ok(())
    }
}
