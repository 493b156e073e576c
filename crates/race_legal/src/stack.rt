//! The onces in whose functions a goroutine is.
ghost use Rattle.std.specs.Prelude.{◌≡◌, if◌then◌else◌, ℕ, ◌-◌, List, [], ◌∷◌, ◌++◌, length, take, slice_get, is_ok};

use std::alloc::{AllocError, Allocator};
use std::marker::Model;

/// Onces, last in, first out.
#[derive(Drop)]
pub(crate) struct Stack<A: Allocator> {
    onces: Vec<u32, A>,
}

impl<A: Allocator> Model for Stack<A> {
    ghost Value = { List ℕ };

    ghost view = { λ s. s.onces.items };
}

impl<A: Allocator> Stack<A> {
    // Takes no memory before the first once.
    pub(crate) fn new(alloc: A) -> Stack<A>
        ensures { result ≡ [] }
    {
        Stack {
            onces: Vec::new(alloc),
        }
    }

    // The once that came last.
    pub(crate) fn last(&self) -> Option<u32>
        ensures { result ≡ slice_get self.now (length self.now - 1) }
    {
        self.onces.last().copied()
    }

    // Puts the once at the end, or leaves all as it is.
    pub(crate) fn push(&mut self, once: u32) -> Result<(), AllocError>
        ensures { self.new ≡ (if is_ok result then self.old ++ once ∷ [] else self.old) }
    {
        self.onces.push(once)?;
        Ok(())
    }

    // Takes out the once that came last, if there is one.
    pub(crate) fn pop(&mut self)
        ensures { self.new ≡ take (length self.old - 1) self.old }
    {
        self.onces.pop();
    }
}
