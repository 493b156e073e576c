//! The events that two accesses want before them in another run. Nothing is proved of it but that it returns: what the search proposes is
//! tested.

use crate::rows::{NONE, push_row, row, rows_of, set_row};
use crate::steps::{Ask, Part, Step, Steps};
use race_records::{Kind, Trace};
use std::alloc::{AllocError, Allocator, Global};

/// A row of the closure, and what stood in it before.
#[derive(Clone, Copy)]
struct Change {
    cell: u32,
    old: u32,
}

/// A set of events: of each goroutine those before some index. It has with each event what the event wants.
///
/// All that changes stands in rows of one table, so that a trial is taken back by a list of changes. Of each goroutine: before which index its
/// events are in, and its next step. Of each lock: the latest section that began, and the latest that isn't for reading alone, as index + 1; the step of a section
/// that is open; a list of those that are open for reading. Of each channel: sends of a lower number are received; how many are open, the
/// oldest and the newest. Of each step the next one of such a list.
#[derive(Drop)]
pub(crate) struct Closure<A: Allocator = Global> {
    cells: Vec<u32, A>,
    changes: Vec<Change, A>,
    is_trial: bool,
    // Goroutines of which more came in: the first, and of each the next one.
    waiting: u32,
    next_waiting: Vec<u32, A>,
    locks: u32,
    chans: u32,
    links: u32,
    /// Whether sections and messages keep the recorded order.
    pub(crate) keeps_order: bool,
    /// Whether a try fails by the recorded section, and a buffer is full by the recorded messages.
    pub(crate) keeps_blockers: bool,
    /// How many steps were gone through.
    pub(crate) taken: u64,
}

// No goroutine waits behind this one.
const LAST: u32 = NONE - 1;

impl<A: Allocator + Copy> Closure<A> {
    /// No event.
    pub(crate) fn new(alloc: A, trace: &Trace<A>) -> Result<Closure<A>, AllocError> {
        let goroutines = trace.decls().count(Kind::Goroutine);
        let locks = goroutines.saturating_mul(2);
        let chans = locks.saturating_add(trace.decls().count(Kind::Lock).saturating_mul(4));
        let links = chans.saturating_add(trace.decls().count(Kind::Chan).saturating_mul(4));
        Ok(Closure {
            cells: rows_of(alloc, links as usize, NONE)?,
            changes: Vec::new(alloc),
            is_trial: false,
            waiting: LAST,
            next_waiting: rows_of(alloc, goroutines as usize, NONE)?,
            locks,
            chans,
            links,
            keeps_order: true,
            keeps_blockers: true,
            taken: 0,
        })
    }

    /// Makes room for all steps.
    pub(crate) fn make_room(&mut self, steps: &Steps<A>) -> Result<(), AllocError> {
        let cells = (self.links as usize).saturating_add(steps.len());
        for _ in self.cells.len()..cells {
            self.cells.push(NONE)?;
        }
        Ok(())
    }

    /// Becomes empty.
    pub(crate) fn clear(&mut self, steps: &Steps<A>) {
        for goroutine in 0..self.locks / 2 {
            set_row(&mut self.cells, goroutine, 0);
            let cursor = (self.locks / 2).saturating_add(goroutine);
            set_row(&mut self.cells, cursor, steps.first_of(goroutine));
        }
        for cell in self.locks..self.links {
            let first = if cell < self.chans {
                self.locks
            } else {
                self.chans
            };
            let value = if cell.saturating_sub(first) % 4 < 2 {
                0
            } else {
                NONE
            };
            set_row(&mut self.cells, cell, value);
        }
    }

    fn set(&mut self, cell: u32, value: u32) -> Result<(), AllocError> {
        let old = row(&self.cells, cell);
        if old != value {
            if self.is_trial {
                push_row(&mut self.changes, Change { cell, old })?;
            }
            set_row(&mut self.cells, cell, value);
        }
        Ok(())
    }

    /// From here on changes can be taken back.
    pub(crate) fn begin(&mut self) {
        self.changes.clear();
        self.is_trial = true;
    }

    /// Takes back what changed since `begin`.
    pub(crate) fn take_back(&mut self) {
        for _ in 0..u64::MAX {
            match self.changes.pop() {
                Some(change) => set_row(&mut self.cells, change.cell, change.old),
                None => break,
            }
        }
        self.is_trial = false;
    }

    /// Keeps what changed since `begin`.
    pub(crate) fn keep(&mut self) {
        self.changes.clear();
        self.is_trial = false;
    }

    /// Before which index the goroutine's events are in.
    pub(crate) fn front(&self, goroutine: u32) -> u32 {
        row(&self.cells, goroutine)
    }

    /// Whether these events are in.
    pub(crate) fn has(&self, part: Part) -> bool {
        part.end <= self.front(part.who)
    }

    /// These events come in, where there are any.
    pub(crate) fn ask(&mut self, part: Part) -> Result<(), AllocError> {
        if part.end == NONE || part.end <= self.front(part.who) {
            return Ok(());
        }
        self.set(part.who, part.end)?;
        if row(&self.next_waiting, part.who) == NONE {
            set_row(&mut self.next_waiting, part.who, self.waiting);
            self.waiting = part.who;
        }
        Ok(())
    }

    /// All before the last event of the part come in, with what they want.
    pub(crate) fn ask_before(&mut self, steps: &Steps<A>, part: Part) -> Result<(), AllocError> {
        if part.end != NONE {
            self.ask(Part {
                who: part.who,
                end: part.end.saturating_sub(1),
            })?;
        }
        self.run(steps)
    }

    /// What the events that came in want comes in.
    pub(crate) fn run(&mut self, steps: &Steps<A>) -> Result<(), AllocError> {
        for _ in 0..u64::MAX {
            let goroutine = self.waiting;
            if goroutine == LAST {
                break;
            }
            self.waiting = row(&self.next_waiting, goroutine);
            set_row(&mut self.next_waiting, goroutine, NONE);
            self.walk(steps, goroutine)?;
        }
        Ok(())
    }

    // Goes through the steps of the goroutine that are in.
    fn walk(&mut self, steps: &Steps<A>, goroutine: u32) -> Result<(), AllocError> {
        let cursor = (self.locks / 2).saturating_add(goroutine);
        let mut i = row(&self.cells, cursor);
        for _ in 0..u64::MAX {
            let step = steps.step(i);
            if step.own.end > self.front(goroutine) {
                break;
            }
            self.taken = self.taken.saturating_add(1);
            self.visit(steps, i, step)?;
            i = step.next;
        }
        self.set(cursor, i)
    }

    fn visit(&mut self, steps: &Steps<A>, i: u32, step: Step) -> Result<(), AllocError> {
        match step.ask {
            Ask::Part(part) => self.ask(part),
            Ask::Section(part) => self.visit_section(part),
            Ask::Lock(lock, end) => self.visit_lock(steps, i, step.at, lock, end),
            Ask::ReadLock(lock, end) => self.visit_read_lock(steps, i, step.at, lock, end),
            Ask::Send(chan, number, end) => self.visit_send(steps, i, chan, number, end),
            Ask::Receives(chan, number) => self.visit_receives(steps, chan, number),
            Ask::Sends(first, count) => self.visit_sends(steps, first, count),
        }
    }

    // The lock's row of this number.
    fn lock_cell(&self, lock: u32, k: u32) -> u32 {
        self.locks
            .saturating_add(lock.saturating_mul(4))
            .saturating_add(k)
    }

    fn chan_cell(&self, chan: u32, k: u32) -> u32 {
        self.chans
            .saturating_add(chan.saturating_mul(4))
            .saturating_add(k)
    }

    fn link(&self, i: u32) -> u32 {
        self.links.saturating_add(i)
    }

    // Puts the step into the list that begins in the cell.
    fn add_first(&mut self, first: u32, i: u32) -> Result<(), AllocError> {
        let old = row(&self.cells, first);
        self.set(self.link(i), old)?;
        self.set(first, i)
    }

    /// The lock's sections that are open, where they needn't keep the order: the first step, or `NONE`.
    pub(crate) fn open_sections(&self, lock: u32) -> u32 {
        row(&self.cells, self.lock_cell(lock, 3))
    }

    /// The channel's sends that are open: the first step, or `NONE`.
    pub(crate) fn open_messages(&self, chan: u32) -> u32 {
        row(&self.cells, self.chan_cell(chan, 2))
    }

    /// The next step of such a list.
    pub(crate) fn next_in_list(&self, i: u32) -> u32 {
        row(&self.cells, self.link(i))
    }

    /// What ends the section or the message that begins in the step.
    pub(crate) fn end_of(&self, steps: &Steps<A>, i: u32) -> Part {
        match steps.step(i).ask {
            Ask::Lock(_, end) => end,
            Ask::ReadLock(_, end) => end,
            Ask::Send(_, _, end) => end,
            _ => steps.step(NONE).own,
        }
    }

    fn visit_lock(
        &mut self,
        steps: &Steps<A>,
        i: u32,
        at: u32,
        lock: u32,
        end: Part,
    ) -> Result<(), AllocError> {
        let latest = row(&self.cells, self.lock_cell(lock, 1));
        if !self.has(end) {
            self.open(steps, lock, i, at)?;
        }
        if at >= latest && self.keeps_order {
            self.set(self.lock_cell(lock, 1), at.saturating_add(1))?;
            self.end_readers(steps, lock, at)?;
        }
        self.begin_section(steps, lock, at)
    }

    // Of two open sections the earlier one ends.
    fn open(&mut self, steps: &Steps<A>, lock: u32, i: u32, at: u32) -> Result<(), AllocError> {
        if !self.keeps_order {
            return self.add_first(self.lock_cell(lock, 3), i);
        }
        let cell = self.lock_cell(lock, 2);
        let other = row(&self.cells, cell);
        if other == NONE {
            return self.set(cell, i);
        }
        if steps.step(other).at < at {
            self.ask(self.end_of(steps, other))?;
            return self.set(cell, i);
        }
        self.ask(self.end_of(steps, i))
    }

    // A section of any kind begins there; an earlier one that is open ends.
    fn begin_section(&mut self, steps: &Steps<A>, lock: u32, at: u32) -> Result<(), AllocError> {
        let cell = self.lock_cell(lock, 0);
        let latest = row(&self.cells, cell).max(at.saturating_add(1));
        self.set(cell, latest)?;
        let open = row(&self.cells, self.lock_cell(lock, 2));
        if open != NONE && steps.step(open).at.saturating_add(1) < latest {
            self.ask(self.end_of(steps, open))?;
            self.set(self.lock_cell(lock, 2), NONE)?;
        }
        Ok(())
    }

    // Sections for reading that began before this event end.
    fn end_readers(&mut self, steps: &Steps<A>, lock: u32, at: u32) -> Result<(), AllocError> {
        let first = self.lock_cell(lock, 3);
        let mut i = row(&self.cells, first);
        if i == NONE {
            return Ok(());
        }
        self.set(first, NONE)?;
        for _ in 0..u64::MAX {
            if i == NONE {
                break;
            }
            let next = row(&self.cells, self.link(i));
            if steps.step(i).at < at {
                self.ask(self.end_of(steps, i))?;
            } else {
                self.add_first(first, i)?;
            }
            self.taken = self.taken.saturating_add(1);
            i = next;
        }
        Ok(())
    }

    fn visit_read_lock(
        &mut self,
        steps: &Steps<A>,
        i: u32,
        at: u32,
        lock: u32,
        end: Part,
    ) -> Result<(), AllocError> {
        if !self.has(end) {
            if self.keeps_order && at < row(&self.cells, self.lock_cell(lock, 1)) {
                self.ask(end)?;
            } else {
                self.add_first(self.lock_cell(lock, 3), i)?;
            }
        }
        self.begin_section(steps, lock, at)
    }

    fn visit_section(&mut self, begin: Part) -> Result<(), AllocError> {
        if self.keeps_blockers {
            self.ask(begin)?;
        }
        Ok(())
    }

    fn visit_sends(&mut self, steps: &Steps<A>, first: u32, count: u32) -> Result<(), AllocError> {
        if !self.keeps_blockers {
            return Ok(());
        }
        let mut i = first;
        for _ in 0..count {
            self.ask(steps.step(i).own)?;
            self.taken = self.taken.saturating_add(1);
            i = steps.following(i);
        }
        Ok(())
    }

    fn visit_receives(
        &mut self,
        steps: &Steps<A>,
        chan: u32,
        number: u32,
    ) -> Result<(), AllocError> {
        let cell = self.chan_cell(chan, 0);
        let bound = row(&self.cells, cell);
        if number > bound && (self.keeps_order || number == NONE) {
            self.set(cell, number)?;
        }
        self.settle(steps, chan)
    }

    fn visit_send(
        &mut self,
        steps: &Steps<A>,
        i: u32,
        chan: u32,
        number: u32,
        end: Part,
    ) -> Result<(), AllocError> {
        if self.has(end) {
            return Ok(());
        }
        self.insert(steps, i, chan, number)?;
        let count = row(&self.cells, self.chan_cell(chan, 1)).saturating_add(1);
        self.set(self.chan_cell(chan, 1), count)?;
        self.settle(steps, chan)
    }

    fn number_of(&self, steps: &Steps<A>, i: u32) -> u32 {
        match steps.step(i).ask {
            Ask::Send(_, number, _) => number,
            _ => NONE,
        }
    }

    // Puts the send into the channel's list of open ones, by its number.
    fn insert(
        &mut self,
        steps: &Steps<A>,
        i: u32,
        chan: u32,
        number: u32,
    ) -> Result<(), AllocError> {
        let mut before = self.chan_cell(chan, 2);
        let newest = row(&self.cells, self.chan_cell(chan, 3));
        if row(&self.cells, before) != NONE && self.number_of(steps, newest) < number {
            before = self.link(newest);
        }
        for _ in 0..u64::MAX {
            let next = row(&self.cells, before);
            if next == NONE || self.number_of(steps, next) > number {
                break;
            }
            before = self.link(next);
            self.taken = self.taken.saturating_add(1);
        }
        if row(&self.cells, before) == NONE {
            self.set(self.chan_cell(chan, 3), i)?;
        }
        self.add_first(before, i)
    }

    // The oldest open messages are received, until those of a lower number are and the others have room.
    fn settle(&mut self, steps: &Steps<A>, chan: u32) -> Result<(), AllocError> {
        let bound = row(&self.cells, self.chan_cell(chan, 0));
        for _ in 0..u64::MAX {
            let oldest = row(&self.cells, self.chan_cell(chan, 2));
            let count = row(&self.cells, self.chan_cell(chan, 1));
            let end = self.end_of(steps, oldest);
            let is_full = self.keeps_order && count > steps.capacity(chan);
            let is_late = is_full || self.number_of(steps, oldest) < bound || self.has(end);
            if oldest == NONE || !is_late {
                break;
            }
            let next = row(&self.cells, self.link(oldest));
            self.set(self.chan_cell(chan, 2), next)?;
            self.set(self.chan_cell(chan, 1), count.saturating_sub(1))?;
            self.ask(end)?;
        }
        Ok(())
    }
}
