//! The values that wait in a channel.
ghost use Rattle.std.specs.Prelude.{◌≡◌, if◌then◌else◌, ℕ, List, [], ◌∷◌, ◌++◌, length, drop, slice_get, is_ok};

use std::alloc::{AllocError, Allocator};
use std::collections::VecDeque;
use std::marker::Model;

/// Values, first in, first out.
#[derive(Drop)]
pub(crate) struct Queue<A: Allocator> {
    values: VecDeque<u64, A>,
}

impl<A: Allocator> Model for Queue<A> {
    ghost Value = { List ℕ };

    ghost view = { λ q. q.values.items };
}

impl<A: Allocator> Queue<A> {
    // Takes no memory before the first value.
    pub(crate) fn new(alloc: A) -> Queue<A>
        ensures { result ≡ [] }
    {
        Queue {
            values: VecDeque::new(alloc),
        }
    }

    pub(crate) fn len(&self) -> usize
        ensures { result ≡ length self.now }
    {
        self.values.len()
    }

    // The value that came first.
    pub(crate) fn front(&self) -> Option<u64>
        ensures { result ≡ slice_get self.now 0 }
    {
        self.values.front().copied()
    }

    // Puts the value at the end, or leaves all as it is.
    pub(crate) fn push(&mut self, value: u64) -> Result<(), AllocError>
        ensures { self.new ≡ (if is_ok result then self.old ++ value ∷ [] else self.old) }
    {
        self.values.push_back(value)?;
        Ok(())
    }

    // Takes out the value that came first, if there is one.
    pub(crate) fn pop(&mut self)
        ensures { self.new ≡ drop 1 self.old }
    {
        self.values.pop_front();
    }
}
