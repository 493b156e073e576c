//! The mutexes and rwmutexes: which are locked, and how many goroutines hold each for reading.
ghost use Rattle.std.specs.{Prelude.{◌≡◌, ◌<◌, ◌+◌, ◌-◌, length, true, false, replicate, IfOk}, Option.option_map};
ghost use Rattle.race_model.specs.Legal.{least_broken};
ghost use Rattle.race_legal.specs.{Rules.number_of, ReplayState.{LocksState, held_in, readers_in, read_held_in}};
ghost use Rattle.race_legal.specs.{After.{with_held, with_readers}, RulesKept.lock_rules};

use crate::Rule;
use crate::rule::rule_if;
use race_records::MAX_EVENTS;
use std::alloc::{AllocError, Allocator};
use std::marker::Model;

/// A row for each lock.
#[derive(Drop)]
pub(crate) struct Locks<A: Allocator> {
    held: Vec<bool, A>,
    readers: Vec<u32, A>,
}

impl<A: Allocator> Model for Locks<A> {
    ghost Value = { LocksState };

    ghost view = { λ t. record { held = t.held.items; readers = t.readers.items } };

    ghost invariant = { λ t. length t.readers.items ≡ length t.held.items };
}

impl<A: Allocator> Locks<A> {
    // So many, all free.
    pub(crate) fn new(alloc: A, count: usize) -> Result<Locks<A>, AllocError>
    where
        A: Copy,
        ensures { IfOk result (λ t. t ≡ record { held = replicate count false; readers = replicate count 0 }) }
    {
        Ok(Locks {
            held: vec![in alloc; false; count]?,
            readers: vec![in alloc; 0u32; count]?,
        })
    }

    // Whether the lock is locked.
    pub(crate) fn is_held(&self, lock: u32) -> bool
        requires { lock < length self.now.held }
        ensures { result ≡ held_in self.now lock }
    {
        self.held[lock as usize]
    }

    // Whether some goroutine holds the lock for reading.
    pub(crate) fn is_read_held(&self, lock: u32) -> bool
        requires { lock < length self.now.held }
        ensures { result ≡ read_held_in self.now lock }
    {
        self.readers[lock as usize] > 0
    }

    // The least rule that a lock for writing breaks.
    pub(crate) fn broken_by_lock(&self, lock: u32) -> Option<Rule>
        requires { lock < length self.now.held }
        ensures { option_map number_of result ≡ least_broken (lock_rules self.now lock) }
    {
        if self.is_held(lock) {
            return Some(Rule::Held);
        }
        rule_if(Rule::ReadHeld, self.is_read_held(lock))
    }

    pub(crate) fn lock(&mut self, lock: u32)
        requires { lock < length self.old.held }
        ensures { self.new ≡ with_held self.old lock true }
    {
        self.held[lock as usize] = true;
    }

    pub(crate) fn unlock(&mut self, lock: u32)
        requires { lock < length self.old.held }
        ensures { self.new ≡ with_held self.old lock false }
    {
        self.held[lock as usize] = false;
    }

    // One goroutine more holds the lock for reading.
    pub(crate) fn lock_for_reading(&mut self, lock: u32)
        requires row { lock < length self.old.held }
        requires room { readers_in self.old lock < MAX_EVENTS }
        ensures { self.new ≡ with_readers self.old lock (readers_in self.old lock + 1) }
    {
        self.readers[lock as usize] += 1;
    }

    // One less does, if there is one.
    pub(crate) fn unlock_from_reading(&mut self, lock: u32)
        requires { lock < length self.old.held }
        ensures { self.new ≡ with_readers self.old lock (readers_in self.old lock - 1) }
    {
        let readers = &mut self.readers[lock as usize];
        *readers = readers.saturating_sub(1);
    }
}
