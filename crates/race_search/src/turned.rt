//! Runs in which sections and messages come in another order than the recorded one. Nothing is proved of it but that it returns: each is
//! tested.

use crate::closure::Closure;
use crate::course::Course;
use crate::rows::{NONE, fill, lower, push_row, raise, row, rows_of, set_row};
use crate::scene::Scene;
use crate::shared::access_of;
use crate::steps::{Ask, Part, Steps};
use crate::walk::Walk;
use race_predict::partner;
use race_records::{Event, Kind, Op, Trace};
use std::alloc::{AllocError, Allocator, Global};

/// How often a set is begun anew.
const TRIES: u32 = 64;

/// Open sections of a lock or open messages of a channel.
#[derive(Clone, Copy)]
struct Open {
    count: u32,
    writers: u32,
    earliest: u32,
    // The end of the earliest of those that can end.
    end: Part,
    end_at: u32,
}

/// An order of a set that is closed under what is always wanted. What is open goes behind all others of its lock or channel; what stands before
/// the first that is open keeps the recorded order, and behind it the earliest event that can come comes.
#[derive(Drop)]
pub(crate) struct Turned<A: Allocator = Global> {
    pub(crate) course: Course<A>,
    pub(crate) walk: Walk<A>,
    /// Of each event how many events of its goroutine up to it are no accesses.
    pub(crate) segment: Vec<u32, A>,
    /// The events, once an order is found.
    pub(crate) order: Vec<u32, A>,
    // Ends that come in beside what is wanted, and those that can't.
    extra: Vec<Part, A>,
    refused: Vec<Part, A>,
    // Of each goroutine how many events aren't put down yet, and where those that are begin, which stand one behind the other, and end.
    count: Vec<u32, A>,
    begin: Vec<u32, A>,
    end: Vec<u32, A>,
    rest: Vec<u32, A>,
    // What is still to come: of each write its reads, and behind these rows of each variable those that find the first value; of each lock the
    // ends of sections, and behind these rows those for reading alone; of each channel the sends that are received.
    reads: Vec<u32, A>,
    ends: Vec<u32, A>,
    sends: Vec<u32, A>,
    goroutines: u32,
    locks: u32,
    chans: u32,
    events: u32,
    /// How many steps were taken.
    pub(crate) taken: u64,
}

impl<A: Allocator + Copy> Turned<A> {
    /// No order, and room for one of so many events.
    pub(crate) fn new(alloc: A, trace: &Trace<A>, events: usize) -> Result<Turned<A>, AllocError> {
        let decls = trace.decls();
        let goroutines = decls.count(Kind::Goroutine) as usize;
        let locks = decls.count(Kind::Lock);
        let chans = decls.count(Kind::Chan);
        let sources = events.saturating_add(decls.count(Kind::Var) as usize);
        let mut turned = Turned {
            course: Course::new(alloc, trace, events)?,
            walk: Walk::new(alloc, trace)?,
            segment: rows_of(alloc, events, 0)?,
            order: Vec::new(alloc),
            extra: Vec::new(alloc),
            refused: Vec::new(alloc),
            count: rows_of(alloc, goroutines, 0)?,
            begin: rows_of(alloc, goroutines, 0)?,
            end: rows_of(alloc, goroutines, 0)?,
            rest: Vec::new(alloc),
            reads: rows_of(alloc, sources, 0)?,
            ends: rows_of(alloc, (locks as usize).saturating_mul(2), 0)?,
            sends: rows_of(alloc, chans as usize, 0)?,
            goroutines: decls.count(Kind::Goroutine),
            locks,
            chans,
            events: u32::try_from(trace.len()).unwrap_or(NONE),
            taken: 0,
        };
        for at in 0..events {
            turned.note_segment(trace, at);
        }
        Ok(turned)
    }

    fn note_segment(&mut self, trace: &Trace<A>, at: usize) {
        if at >= trace.len() || at >= NONE as usize {
            return;
        }
        let event = trace.event(at);
        if access_of(event).0 == NONE {
            self.raise_count(event);
        }
        set_row(&mut self.segment, at as u32, row(&self.count, event.who));
    }

    fn raise_count(&mut self, event: &Event) {
        raise(&mut self.count, event.who);
        if let Some(other) = partner(&event.op) {
            raise(&mut self.count, other);
        }
    }

    fn is_refused(&self, part: Part) -> bool {
        self.refused
            .iter()
            .any(|other| other.who == part.who && other.end == part.end)
    }

    // What is open in the list that begins with this step.
    fn open_in(&self, steps: &Steps<A>, closure: &Closure<A>, first: u32) -> Open {
        let mut open = Open {
            count: 0,
            writers: 0,
            earliest: NONE,
            end: Part { who: 0, end: NONE },
            end_at: NONE,
        };
        let mut i = first;
        for _ in 0..steps.len() {
            if i == NONE {
                break;
            }
            let step = steps.step(i);
            let end = closure.end_of(steps, i);
            if !closure.has(end) {
                open.count = open.count.saturating_add(1);
                open.earliest = open.earliest.min(step.at);
                if matches!(step.ask, Ask::Lock(_, _)) {
                    open.writers = open.writers.saturating_add(1);
                }
                if end.end != NONE && step.at < open.end_at && !self.is_refused(end) {
                    open.end = end;
                    open.end_at = step.at;
                }
            }
            i = closure.next_in_list(i);
        }
        open
    }

    // The end that has to come in, where one has to, or a part of no event; or none, where there is no such end.
    fn missing_end(&self, steps: &Steps<A>, closure: &Closure<A>) -> Option<Part> {
        for lock in 0..self.locks {
            let first = closure.open_sections(lock);
            if first != NONE {
                let open = self.open_in(steps, closure, first);
                if open.count > 1 && open.writers > 0 {
                    return if open.end_at == NONE {
                        None
                    } else {
                        Some(open.end)
                    };
                }
            }
        }
        for chan in 0..self.chans {
            let first = closure.open_messages(chan);
            if first != NONE {
                let open = self.open_in(steps, closure, first);
                if open.count > steps.capacity(chan) {
                    return if open.end_at == NONE {
                        None
                    } else {
                        Some(open.end)
                    };
                }
            }
        }
        Some(Part { who: 0, end: NONE })
    }

    /// From a closure of what the second access wants: what both want, with the ends that are missing. A trial; it is taken back where there is no
    /// such set.
    pub(crate) fn complete(
        &mut self,
        steps: &Steps<A>,
        closure: &mut Closure<A>,
        first: Part,
        second: Part,
    ) -> Result<bool, AllocError> {
        self.extra.clear();
        self.refused.clear();
        for _ in 0..TRIES {
            self.taken = self.taken.saturating_add(u64::from(self.locks / 8));
            closure.begin();
            closure.ask_before(steps, first)?;
            for part in self.extra.iter() {
                closure.ask(*part)?;
            }
            closure.run(steps)?;
            let is_spoilt = closure.has(first) || closure.has(second);
            if !is_spoilt {
                match self.missing_end(steps, closure) {
                    Some(part) => {
                        if part.end == NONE {
                            return Ok(true);
                        }
                        self.extra.push(part)?;
                    }
                    None => break,
                }
            } else if let Some(part) = self.extra.pop() {
                self.refused.push(part)?;
            } else {
                break;
            }
            closure.take_back();
        }
        closure.take_back();
        Ok(false)
    }

    // The earliest section or message that is open, if one is before this event.
    fn cut(&self, steps: &Steps<A>, closure: &Closure<A>, end: u32) -> u32 {
        let mut cut = end;
        for lock in 0..self.locks {
            let first = closure.open_sections(lock);
            if first != NONE {
                cut = cut.min(self.open_in(steps, closure, first).earliest);
            }
        }
        for chan in 0..self.chans {
            let first = closure.open_messages(chan);
            if first != NONE {
                cut = cut.min(self.open_in(steps, closure, first).earliest);
            }
        }
        cut
    }

    // The event comes next.
    fn take(&mut self, scene: &Scene<A>, at: u32) -> Result<(), AllocError> {
        if at as usize >= scene.trace.len() {
            return Ok(());
        }
        self.course.take(scene.trace, at);
        self.order.push(at)?;
        self.taken = self.taken.saturating_add(1);
        Ok(())
    }

    // What stands before the cut keeps its order.
    fn keep(&mut self, scene: &Scene<A>, closure: &Closure<A>, cut: u32) -> Result<(), AllocError> {
        self.order.clear();
        self.course.clear();
        for at in 0..cut {
            if closure.has(scene.part(at)) {
                self.take(scene, at)?;
            }
        }
        Ok(())
    }

    // The index behind the last event of the set. An end that came in may stand anywhere.
    fn behind(&self, closure: &Closure<A>) -> u32 {
        let mut behind = 0;
        for goroutine in 0..self.goroutines {
            behind = closure.front(goroutine).max(behind);
        }
        behind.min(self.events)
    }

    // Makes room for the events behind the cut, goroutine by goroutine, and for none behind each.
    fn make_room(
        &mut self,
        scene: &Scene<A>,
        closure: &Closure<A>,
        cut: u32,
        behind: u32,
    ) -> Result<(), AllocError> {
        fill(&mut self.count, 0);
        for at in cut..behind {
            if (at as usize) < scene.trace.len() && closure.has(scene.part(at)) {
                self.raise_count(scene.trace.event(at as usize));
            }
        }
        self.rest.clear();
        for goroutine in 0..self.goroutines {
            let begin = push_row(&mut self.rest, NONE)?;
            for _ in 0..row(&self.count, goroutine) {
                self.rest.push(NONE)?;
            }
            set_row(&mut self.begin, goroutine, begin);
            set_row(&mut self.end, goroutine, begin);
        }
        Ok(())
    }

    // The write that the read found, or its variable.
    fn source(&self, scene: &Scene<A>, at: u32, var: u32) -> u32 {
        let want = scene.wants.want(at);
        if want == NONE {
            self.events.saturating_add(var)
        } else {
            want
        }
    }

    // The same for the variable's last write in the order.
    fn found_now(&self, var: u32) -> u32 {
        let write = self.course.last_write(var);
        if write == NONE {
            self.events.saturating_add(var)
        } else {
            write
        }
    }

    // Whether what the event begins ends in the set.
    fn is_closed(&self, scene: &Scene<A>, closure: &Closure<A>, at: u32) -> bool {
        closure.has(scene.part(scene.wants.end(at)))
    }

    // The event is still to come, or comes now.
    fn count(&mut self, scene: &Scene<A>, closure: &Closure<A>, at: u32, comes: bool) {
        if at as usize >= scene.trace.len() {
            return;
        }
        match &scene.trace.event(at as usize).op {
            Op::Read(var, _) => {
                let source = self.source(scene, at, *var);
                change(&mut self.reads, source, comes);
            }
            Op::Unlock(lock) => change(&mut self.ends, *lock, comes),
            Op::RUnlock(lock) => {
                let lock = self.locks.saturating_add(*lock);
                change(&mut self.ends, lock, comes);
            }
            Op::Send(chan, _) => {
                if self.is_closed(scene, closure, at) {
                    change(&mut self.sends, *chan, comes);
                }
            }
            _ => {}
        }
    }

    fn put(&mut self, who: u32, at: u32) {
        let slot = row(&self.end, who);
        set_row(&mut self.rest, slot, at);
        set_row(&mut self.end, who, slot.saturating_add(1));
    }

    // Puts down the events of the set from the cut on.
    fn put_rest(&mut self, scene: &Scene<A>, closure: &Closure<A>, cut: u32, behind: u32) {
        for at in cut..behind {
            if (at as usize) < scene.trace.len() && closure.has(scene.part(at)) {
                let event = scene.trace.event(at as usize);
                self.put(event.who, at);
                if let Some(other) = partner(&event.op) {
                    self.put(other, at);
                }
                self.count(scene, closure, at, false);
            }
        }
    }

    // The goroutine's next event.
    fn next_of(&self, goroutine: u32) -> u32 {
        row(&self.rest, row(&self.begin, goroutine))
    }

    // Whether the event is what each of its participants does next.
    fn is_next(&self, scene: &Scene<A>, at: u32) -> bool {
        if at as usize >= scene.trace.len() {
            return false;
        }
        let event = scene.trace.event(at as usize);
        match partner(&event.op) {
            Some(other) => self.next_of(event.who) == at && self.next_of(other) == at,
            None => self.next_of(event.who) == at,
        }
    }

    // Whether others have to come before the event, that could come now.
    fn waits(&self, scene: &Scene<A>, closure: &Closure<A>, at: u32) -> bool {
        if at as usize >= scene.trace.len() {
            return true;
        }
        let is_open = !self.is_closed(scene, closure, at);
        match &scene.trace.event(at as usize).op {
            Op::Lock(lock) => is_open && self.has_ends(*lock, true),
            Op::TryLock(lock) => is_open && self.has_ends(*lock, true),
            Op::RLock(lock) => is_open && self.has_ends(*lock, false),
            Op::TryRLock(lock) => is_open && self.has_ends(*lock, false),
            Op::Send(chan, _) => is_open && row(&self.sends, *chan) > 0,
            Op::Write(var, _) => row(&self.reads, self.found_now(*var)) > 0,
            Op::Read(var, _) => self.source(scene, at, *var) != self.found_now(*var),
            _ => false,
        }
    }

    // Whether ends of the lock's sections are to come, those for reading alone too where so.
    fn has_ends(&self, lock: u32, readers: bool) -> bool {
        row(&self.ends, lock) > 0 || readers && row(&self.ends, self.locks.saturating_add(lock)) > 0
    }

    // The earliest event that can come next.
    fn earliest(&mut self, scene: &Scene<A>, closure: &Closure<A>) -> u32 {
        let mut best = NONE;
        for goroutine in 0..self.goroutines {
            let at = self.next_of(goroutine);
            if at < best
                && self.is_next(scene, at)
                && self.course.can_come(scene.trace, at)
                && !self.waits(scene, closure, at)
            {
                best = at;
            }
        }
        best
    }

    // The goroutine's next event stands one further on.
    fn advance(&mut self, scene: &Scene<A>, at: u32) {
        if at as usize >= scene.trace.len() {
            return;
        }
        let event = scene.trace.event(at as usize);
        raise(&mut self.begin, event.who);
        if let Some(other) = partner(&event.op) {
            raise(&mut self.begin, other);
        }
    }

    /// An order of the set. What stands behind this event in the recorded order, if anything, needn't keep it. Whether one was found.
    pub(crate) fn find_order(
        &mut self,
        scene: &Scene<A>,
        closure: &Closure<A>,
        end: u32,
    ) -> Result<bool, AllocError> {
        let cut = self.cut(scene.steps, closure, end);
        self.keep(scene, closure, cut)?;
        let behind = self.behind(closure);
        self.make_room(scene, closure, cut, behind)?;
        self.forget_counts();
        self.put_rest(scene, closure, cut, behind);
        for _ in 0..self.rest.len() {
            let at = self.earliest(scene, closure);
            if at == NONE {
                break;
            }
            self.count(scene, closure, at, true);
            self.advance(scene, at);
            self.take(scene, at)?;
        }
        self.forget_reads(scene, cut, behind);
        Ok(self.is_whole())
    }

    // Whether all of the set has come.
    fn is_whole(&self) -> bool {
        for goroutine in 0..self.goroutines {
            if self.next_of(goroutine) != NONE {
                return false;
            }
        }
        true
    }

    fn forget_counts(&mut self) {
        fill(&mut self.ends, 0);
        fill(&mut self.sends, 0);
    }

    // No read is to come of what the events from the cut on read.
    fn forget_reads(&mut self, scene: &Scene<A>, cut: u32, end: u32) {
        for at in cut..end {
            if (at as usize) < scene.trace.len()
                && let Op::Read(var, _) = &scene.trace.event(at as usize).op
            {
                let source = self.source(scene, at, *var);
                set_row(&mut self.reads, source, 0);
            }
        }
    }
}

// One less where it comes, or one more.
fn change<A: Allocator>(rows: &mut Vec<u32, A>, i: u32, comes: bool) {
    if comes {
        lower(rows, i);
    } else {
        raise(rows, i);
    }
}
