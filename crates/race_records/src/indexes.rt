//! Where in the list of declarations the objects of each kind stand, so that a number finds its name at once.
ghost use Rattle.std.specs.Prelude.{◌≡◌, ◌≢◌, ℕ, ◌+◌, ◌<◌, ◌≤◌, [], ◌∷◌, ◌++◌, length, slice_get, Some, IfOk, OnOk};
ghost use Rattle.std.specs.Prelude.{OnErr, vec_capacity};
ghost use Rattle.race_records.specs.Tables.{IndexesState, indexes_of, no_indexes, with_index};

use crate::Kind;
use std::alloc::{AllocError, Allocator};
use std::marker::Model;

/// One list of indexes for each kind.
#[derive(Drop)]
pub struct Indexes<A: Allocator> {
    goroutines: Vec<usize, A>,
    vars: Vec<usize, A>,
    chans: Vec<usize, A>,
    locks: Vec<usize, A>,
    onces: Vec<usize, A>,
}

impl<A: Allocator> Model for Indexes<A> {
    ghost use Rattle.race_records.specs.Tables.{IndexesState};

    ghost Value = { IndexesState };

    ghost view = { λ i. record { goroutines = i.goroutines.items; vars = i.vars.items; chans = i.chans.items; locks = i.locks.items; onces = i.onces.items } };
}

impl<A: Allocator> Indexes<A> {
    pub(crate) fn new(alloc: A) -> Indexes<A>
    where
        A: Copy,
        ensures { result ≡ no_indexes }
    {
        Indexes {
            goroutines: Vec::new(alloc),
            vars: Vec::new(alloc),
            chans: Vec::new(alloc),
            locks: Vec::new(alloc),
            onces: Vec::new(alloc),
        }
    }

    fn list(&self, kind: Kind) -> &Vec<usize, A>
        ensures { result.now.items ≡ indexes_of kind self.now }
    {
        match kind {
            Kind::Goroutine => &self.goroutines,
            Kind::Var => &self.vars,
            Kind::Chan => &self.chans,
            Kind::Lock => &self.locks,
            Kind::Once => &self.onces,
        }
    }

    pub(crate) fn len(&self, kind: Kind) -> usize
        ensures { result ≡ length (indexes_of kind self.now) }
    {
        self.list(kind).len()
    }

    pub(crate) fn get(&self, kind: Kind, n: usize) -> usize
        requires { n < length (indexes_of kind self.now) }
        ensures { slice_get (indexes_of kind self.now) n ≡ Some result }
    {
        self.list(kind)[n]
    }

    pub(crate) fn push(&mut self, kind: Kind, index: usize) -> Result<(), AllocError>
        ensures ok { OnOk result (self.new ≡ with_index kind index self.old) }
        ensures err { OnErr result (self.new ≡ self.old) }
    {
        match kind {
            Kind::Goroutine => self.goroutines.push(index)?,
            Kind::Var => self.vars.push(index)?,
            Kind::Chan => self.chans.push(index)?,
            Kind::Lock => self.locks.push(index)?,
            Kind::Once => self.onces.push(index)?,
        }
        Ok(())
    }

    // Takes back the last `push`, which was of this kind.
    pub(crate) fn undo_push(&mut self, kind: Kind)
        ensures { (index : ℕ) (before : IndexesState) → self.old ≡ with_index kind index before
            → self.new ≡ before }
    {
        match kind {
            Kind::Goroutine => self.goroutines.pop(),
            Kind::Var => self.vars.pop(),
            Kind::Chan => self.chans.pop(),
            Kind::Lock => self.locks.pop(),
            Kind::Once => self.onces.pop(),
        };
    }

    pub(crate) fn copy(&self) -> Result<Indexes<A>, AllocError>
    where
        A: Copy,
        ensures { IfOk result (λ copy. copy ≡ self.now) }
    {
        Ok(Indexes {
            goroutines: self.goroutines.clone()?,
            vars: self.vars.clone()?,
            chans: self.chans.clone()?,
            locks: self.locks.clone()?,
            onces: self.onces.clone()?,
        })
    }
}
