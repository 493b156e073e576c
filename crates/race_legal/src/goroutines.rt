//! Which goroutines were started, which have exited, and in the functions of which onces each is.
ghost use Rattle.std.specs.Prelude.{◌≡◌, if◌then◌else◌, ◌<◌, [], length, false, replicate, is_ok, IfOk};
ghost use Rattle.race_legal.specs.ReplayState.{GoroutinesState, started_in, runs_in, innermost_in};
ghost use Rattle.race_legal.specs.After.{with_started, with_exited, with_entered, with_left};

use crate::stack::Stack;
use std::alloc::{AllocError, Allocator};
use std::marker::Model;

/// A row for each goroutine.
#[derive(Drop)]
pub(crate) struct Goroutines<A: Allocator> {
    started: Vec<bool, A>,
    exited: Vec<bool, A>,
    stacks: Vec<Stack<A>, A>,
}

impl<A: Allocator> Model for Goroutines<A> {
    ghost Value = { GoroutinesState };

    ghost view = { λ t. record { started = t.started.items; exited = t.exited.items; stacks = t.stacks.items } };

    ghost invariant = { λ t. (length t.exited.items ≡ length t.started.items)
        × (length t.stacks.items ≡ length t.started.items) };
}

impl<A: Allocator> Goroutines<A> {
    // So many, none of which was started.
    pub(crate) fn new(alloc: A, count: usize) -> Result<Goroutines<A>, AllocError>
    where
        A: Copy,
        ensures { IfOk result (λ t. t ≡ record {
          started = replicate count false;
          exited = replicate count false;
          stacks = replicate count [];
        }) }
    {
        Ok(Goroutines {
            started: vec![in alloc; false; count]?,
            exited: vec![in alloc; false; count]?,
            stacks: stacks(alloc, count)?,
        })
    }

    // Whether a Go started the goroutine.
    pub(crate) fn is_started(&self, goroutine: u32) -> bool
        requires { goroutine < length self.now.started }
        ensures { result ≡ started_in self.now goroutine }
    {
        self.started[goroutine as usize]
    }

    // Whether the goroutine is main or was started, and hasn't exited.
    pub(crate) fn runs(&self, goroutine: u32) -> bool
        requires { goroutine < length self.now.started }
        ensures { result ≡ runs_in self.now goroutine }
    {
        (goroutine == 0 || self.is_started(goroutine)) && !self.exited[goroutine as usize]
    }

    // The once whose function the goroutine is in, the one begun last.
    pub(crate) fn innermost(&self, goroutine: u32) -> Option<u32>
        requires { goroutine < length self.now.started }
        ensures { result ≡ innermost_in self.now goroutine }
    {
        self.stacks[goroutine as usize].last()
    }

    pub(crate) fn start(&mut self, goroutine: u32)
        requires { goroutine < length self.old.started }
        ensures { self.new ≡ with_started self.old goroutine }
    {
        self.started[goroutine as usize] = true;
    }

    pub(crate) fn exit(&mut self, goroutine: u32)
        requires { goroutine < length self.old.started }
        ensures { self.new ≡ with_exited self.old goroutine }
    {
        self.exited[goroutine as usize] = true;
    }
    // The goroutine is in the once's function, unless there is no memory for it.
    pub(crate) fn enter(&mut self, goroutine: u32, once: u32) -> Result<(), AllocError>
        requires { goroutine < length self.old.started }
        ensures { self.new ≡ (if is_ok result then with_entered self.old goroutine once else self.old) }
    {
        let stack = &mut self.stacks[goroutine as usize];
        stack.push(once)
    }

    // The goroutine leaves the function of the once begun last.
    pub(crate) fn leave(&mut self, goroutine: u32)
        requires { goroutine < length self.old.started }
        ensures { self.new ≡ with_left self.old goroutine }
    {
        let stack = &mut self.stacks[goroutine as usize];
        stack.pop()
    }
}

// So many empty stacks.
fn stacks<A: Allocator + Copy>(alloc: A, count: usize) -> Result<Vec<Stack<A>, A>, AllocError>
    ensures { IfOk result (λ stacks. stacks.items ≡ replicate count []) }
{
    let mut stacks = Vec::with_capacity(alloc, count)?;
    for _ in 0..count {
        stacks.push(Stack::new(alloc))?;
    }
    Ok(stacks)
}
