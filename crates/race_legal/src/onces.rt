//! The onces: whose function began, and whose ended.
ghost use Rattle.std.specs.Prelude.{◌≡◌, ◌<◌, length, false, replicate, IfOk};
ghost use Rattle.race_legal.specs.{ReplayState.{OncesState, begun_in, ended_in}, After.{with_begun, with_ended}};

use std::alloc::{AllocError, Allocator};
use std::marker::Model;

/// A row for each once.
#[derive(Drop)]
pub(crate) struct Onces<A: Allocator> {
    begun: Vec<bool, A>,
    ended: Vec<bool, A>,
}

impl<A: Allocator> Model for Onces<A> {
    ghost Value = { OncesState };

    ghost view = { λ t. record { begun = t.begun.items; ended = t.ended.items } };

    ghost invariant = { λ t. length t.ended.items ≡ length t.begun.items };
}

impl<A: Allocator> Onces<A> {
    // So many, none of which began.
    pub(crate) fn new(alloc: A, count: usize) -> Result<Onces<A>, AllocError>
    where
        A: Copy,
        ensures { IfOk result (λ t. t ≡ record { begun = replicate count false; ended = replicate count false }) }
    {
        Ok(Onces {
            begun: vec![in alloc; false; count]?,
            ended: vec![in alloc; false; count]?,
        })
    }

    // Whether the function of the once began to run.
    pub(crate) fn is_begun(&self, once: u32) -> bool
        requires { once < length self.now.begun }
        ensures { result ≡ begun_in self.now once }
    {
        self.begun[once as usize]
    }

    // Whether it ended.
    pub(crate) fn is_ended(&self, once: u32) -> bool
        requires { once < length self.now.begun }
        ensures { result ≡ ended_in self.now once }
    {
        self.ended[once as usize]
    }

    pub(crate) fn begin(&mut self, once: u32)
        requires { once < length self.old.begun }
        ensures { self.new ≡ with_begun self.old once }
    {
        self.begun[once as usize] = true;
    }

    pub(crate) fn end(&mut self, once: u32)
        requires { once < length self.old.begun }
        ensures { self.new ≡ with_ended self.old once }
    {
        self.ended[once as usize] = true;
    }
}
