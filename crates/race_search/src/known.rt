//! What each goroutine's next event always wants: of each goroutine those before an event. Nothing is proved of it but that it returns.

use crate::rows::{NONE, row, rows_of, set_row};
use crate::steps::Part;
use std::alloc::{AllocError, Allocator, Global};

/// How many numbers the clocks may take for each event; where there are more, less is known.
const ROOM: usize = 4;

/// Clocks, which are shared and copied when their goroutine learns more: each is so many rows of one table.
#[derive(Drop)]
pub(crate) struct Known<A: Allocator = Global> {
    table: Vec<u32, A>,
    width: u32,
    room: usize,
    // Of each clock how many have it, and of those that nobody has the next one.
    uses: Vec<u32, A>,
    unused: u32,
    // Of each goroutine its clock.
    current: Vec<u32, A>,
}

impl<A: Allocator + Copy> Known<A> {
    pub(crate) fn new(alloc: A, goroutines: u32, events: usize) -> Result<Known<A>, AllocError> {
        let size = (goroutines as usize).saturating_mul(goroutines as usize);
        let mut known = Known {
            table: rows_of(alloc, size, 0)?,
            width: goroutines,
            room: size
                .saturating_mul(2)
                .saturating_add(events.saturating_mul(ROOM)),
            uses: rows_of(alloc, goroutines as usize, 1)?,
            unused: NONE,
            current: rows_of(alloc, goroutines as usize, 0)?,
        };
        for goroutine in 0..goroutines {
            set_row(&mut known.current, goroutine, goroutine);
        }
        Ok(known)
    }

    fn cell(&self, clock: u32, goroutine: u32) -> usize {
        (clock as usize)
            .saturating_mul(self.width as usize)
            .saturating_add(goroutine as usize)
    }

    fn get(&self, clock: u32, goroutine: u32) -> u32 {
        let cell = self.cell(clock, goroutine);
        if cell < self.table.len() {
            self.table[cell]
        } else {
            0
        }
    }

    fn raise(&mut self, clock: u32, goroutine: u32, end: u32) {
        let cell = self.cell(clock, goroutine);
        if cell < self.table.len() && self.table[cell] < end {
            self.table[cell] = end;
        }
    }

    // The first clock knows what the other does, too.
    fn join(&mut self, clock: u32, other: u32) {
        let to = self.cell(clock, 0);
        let from = self.cell(other, 0);
        for k in 0..self.width as usize {
            let (to, from) = (to.wrapping_add(k), from.wrapping_add(k));
            if to < self.table.len()
                && from < self.table.len()
                && self.table[to] < self.table[from]
            {
                self.table[to] = self.table[from];
            }
        }
    }

    // The first clock knows what the other does, and no more.
    fn copy(&mut self, clock: u32, other: u32) {
        let to = self.cell(clock, 0);
        let from = self.cell(other, 0);
        for k in 0..self.width as usize {
            let (to, from) = (to.wrapping_add(k), from.wrapping_add(k));
            if to < self.table.len() && from < self.table.len() {
                self.table[to] = self.table[from];
            }
        }
    }

    /// Up to which event those of the other one are known to the goroutine.
    pub(crate) fn count(&self, goroutine: u32, other: u32) -> u32 {
        self.get(row(&self.current, goroutine), other)
    }

    /// The goroutine's clock.
    pub(crate) fn current(&self, goroutine: u32) -> u32 {
        row(&self.current, goroutine)
    }

    /// The goroutine's clock, for one more to have; `NONE` where there are too many.
    pub(crate) fn share(&mut self, goroutine: u32) -> u32 {
        if self.table.len() > self.room {
            return NONE;
        }
        let clock = row(&self.current, goroutine);
        let uses = row(&self.uses, clock).saturating_add(1);
        set_row(&mut self.uses, clock, uses);
        clock
    }

    /// One less has the clock.
    pub(crate) fn release(&mut self, clock: u32) {
        if clock as usize >= self.uses.len() {
            return;
        }
        let uses = row(&self.uses, clock);
        if uses <= 1 {
            set_row(&mut self.uses, clock, self.unused);
            self.unused = clock;
        } else {
            set_row(&mut self.uses, clock, uses - 1);
        }
    }

    // A clock that nobody has.
    fn take(&mut self) -> Result<u32, AllocError> {
        let clock = self.unused;
        if clock != NONE {
            self.unused = row(&self.uses, clock);
            return Ok(clock);
        }
        let new = self.uses.len();
        if new >= NONE as usize {
            return Err(AllocError);
        }
        self.uses.push(0)?;
        for _ in 0..self.width {
            self.table.push(0)?;
        }
        Ok(new as u32)
    }

    // The goroutine's clock becomes one that nobody else has.
    fn make_own(&mut self, goroutine: u32) -> Result<u32, AllocError> {
        let old = row(&self.current, goroutine);
        if row(&self.uses, old) <= 1 {
            return Ok(old);
        }
        let new = self.take()?;
        self.copy(new, old);
        self.release(old);
        set_row(&mut self.uses, new, 1);
        set_row(&mut self.current, goroutine, new);
        Ok(new)
    }

    /// The goroutine learns of these events, with what this clock knows.
    pub(crate) fn learn(
        &mut self,
        goroutine: u32,
        clock: u32,
        part: Part,
    ) -> Result<(), AllocError> {
        if part.who == goroutine || part.end <= self.count(goroutine, part.who) {
            return Ok(());
        }
        let own = self.make_own(goroutine)?;
        self.join(own, clock);
        self.raise(own, part.who, part.end);
        Ok(())
    }
}
