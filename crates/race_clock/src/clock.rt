//! A clock: of each goroutine, how many of its starts are known.
//!
//! Up to eight counts stand in the clock itself, and more than that take memory. So a run of few goroutines allocates no
//! clock.
ghost use Rattle.std.specs.Prelude.{◌≡◌, ◌+◌, ◌<◌, ◌≤◌, ◌^◌, ℕ, max, List, [], length, slice_set, IsTrue, IsOk, IfOk};
ghost use Rattle.std.specs.Prelude.{OnOk, OnErr};
ghost use Rattle.race_model.specs.Clocks.{owning};
ghost use Rattle.race_clock.specs.{ClockFits.{FitsInClock, ClockOrNoneFits}, ClockState.{knows, joined, padded}};

use crate::fits::Fits;
use smallvec::SmallVec;
use std::alloc::{AllocError, Allocator, Global};
use std::marker::Model;
use std::mem;

// How many counts are written out at once.
const BLOCK: usize = 64;

/// A count for each goroutine. A count that isn't written out is 0.
#[derive(Debug, Drop)]
pub struct Clock<A: Allocator + Fits = Global> {
    counts: SmallVec<u32, 8, A>,
}

impl<A: Allocator + Fits> Model for Clock<A> {
    ghost use Rattle.std.specs.Prelude.{◌≤◌, ℕ, List};

    ghost Value = { List ℕ };

    ghost view = { λ c. c.counts.items };

    ghost invariant = { λ c. (8 ≤ c.counts.capacity) × A.fits };
}

impl<A: Allocator + Copy> Clock<A> {
    /// Nothing is known. An error says that a clock is larger than memory, which it is for no allocator that there is.
    pub fn new(alloc: A) -> Result<Clock<A>, AllocError>
        ensures nothing { IfOk result (λ clock. clock ≡ []) }
        ensures fits { ClockOrNoneFits A.row A.Allocator → IsOk result }
    {
        let none: Option<SmallVec<u32, 8, A>> = None;
        // It is known at compile time, and tells the proof that the type fits in memory.
        if mem::size_of_val(&none) <= isize::MAX as usize {
            return Ok(Clock {
                counts: SmallVec::new(alloc),
            });
        }
        Err(AllocError)
    }

    /// Nothing is known.
    pub(crate) fn another(&self) -> Clock<A>
        ensures { result ≡ [] }
    {
        Clock {
            counts: SmallVec::new(*self.counts.allocator()),
        }
    }

    /// The same counts.
    pub fn copy(&self) -> Result<Clock<A>, AllocError>
        ensures { IfOk result (λ copy. copy ≡ self.now) }
    {
        let mut copy = self.another();
        copy.become_copy(self)?;
        Ok(copy)
    }

    /// Takes the greater count for each goroutine.
    #[tactic(auto, using(crate::proofs::ClockLists::knows_joined, crate::proofs::JoinLemmas::joined_padded))]
    pub fn join<B: Allocator>(&mut self, other: &Clock<B>) -> Result<(), AllocError>
        ensures greater { OnOk result ((g : ℕ) → knows self.new g ≡ max (knows self.old g) (knows other.now g)) }
        ensures joined { OnOk result (self.new ≡ joined self.old other.now) }
        ensures in_place { length other.now ≤ 8 → IsOk result }
        ensures unchanged { OnErr result (self.new ≡ self.old) }
    {
        self.grow(other.len())?;
        self.raise_to(other);
        Ok(())
    }

    /// Adds one for the goroutine.
    #[tactic(auto, using(crate::proofs::ClockLists::knows_ticked))]
    pub fn tick(&mut self, goroutine: u32) -> Result<(), AllocError>
        requires { knows self.old goroutine + 1 < 2 ^ 32 }
        ensures ticked { OnOk result ((g : ℕ) → knows self.new g ≡ owning goroutine (knows self.old goroutine + 1) (knows self.old) g) }
        ensures in_place { goroutine < 8 → IsOk result }
        ensures unchanged { OnErr result (self.new ≡ self.old) }
    {
        let count = self.knows(goroutine) + 1;
        self.grow(goroutine as usize + 1)?;
        self.set(goroutine, count);
        Ok(())
    }

    /// Writes out at least so many counts.
    pub(crate) fn grow(&mut self, counts: usize) -> Result<(), AllocError>
        ensures ok { OnOk result (self.new ≡ padded self.old counts) }
        ensures in_place { counts ≤ 8 → IsOk result }
        ensures unchanged { OnErr result (self.new ≡ self.old) }
    {
        let len = self.counts.len();
        if len < counts {
            self.counts.reserve(counts - len)?;
            fill(&mut self.counts, counts);
        }
        Ok(())
    }

    /// All counts are 0 again.
    pub(crate) fn clear(&mut self)
        ensures { self.new ≡ [] }
    {
        self.counts.clear();
    }

    /// The clock becomes a copy of the other. Where a growth is refused it is any clock.
    pub(crate) fn become_copy(&mut self, other: &Clock<A>) -> Result<(), AllocError>
        ensures { OnOk result (self.new ≡ other.now) }
    {
        self.counts.clear();
        self.counts.extend_from_slice(other.counts.as_slice())?;
        Ok(())
    }

    /// The clock becomes the join of two others. Where a growth is refused it is any clock.
    #[tactic(auto, using(crate::proofs::JoinLemmas::joined_comm))]
    pub(crate) fn become_join(&mut self, one: &Clock<A>, other: &Clock<A>) -> Result<(), AllocError>
        ensures { OnOk result (self.new ≡ joined one.now other.now) }
    {
        if other.len() <= one.len() {
            self.become_copy(one)?;
            self.raise_to(other);
        } else {
            self.become_copy(other)?;
            self.raise_to(one);
        }
        Ok(())
    }

    pub(crate) fn allocator(&self) -> A {
        *self.counts.allocator()
    }
}

impl<A: Allocator> Clock<A> {
    /// How many starts of the goroutine are known.
    pub fn knows(&self, goroutine: u32) -> u32
        ensures { result ≡ knows self.now goroutine }
    {
        let counts = self.counts.as_slice();
        let index = goroutine as usize;
        if index < counts.len() {
            return counts[index];
        }
        0
    }

    /// The count of a goroutine becomes this, where it is written out.
    pub(crate) fn set(&mut self, goroutine: u32, count: u32)
        ensures { self.new ≡ slice_set self.old goroutine count }
    {
        let counts = self.counts.as_mut_slice();
        let index = goroutine as usize;
        if index < counts.len() {
            counts[index] = count;
        }
    }

    /// Whether a join of the other would change nothing.
    pub(crate) fn covers(&self, other: &Clock<A>) -> bool
        ensures { IsTrue result → joined self.now other.now ≡ self.now }
    {
        if self.len() < other.len() {
            return false;
        }
        covers_each(self.counts.as_slice(), other.counts.as_slice())
    }

    /// How many counts are written out.
    pub(crate) fn len(&self) -> usize
        ensures { result ≡ length self.now }
    {
        self.counts.len()
    }

    /// Raises each count to the other's, whose counts are written out here.
    pub(crate) fn raise_to<B: Allocator>(&mut self, by: &Clock<B>)
        requires { length by.now ≤ length self.old }
        ensures { self.new ≡ joined self.old by.now }
    {
        raise(self.counts.as_mut_slice(), by.counts.as_slice());
    }
}

// Raises each count to the other's.
#[tactic(auto, using(crate::proofs::JoinLemmas::joined_one, crate::proofs::JoinLemmas::length_joined, crate::proofs::JoinLemmas::joined_nothing))]
fn raise(counts: &mut [u32], by: &[u32])
    requires { length by.now ≤ length counts.old }
    ensures joined { counts.new ≡ joined counts.old by.now }
    ensures len { length counts.new ≡ length counts.old }
{
    for index in 0..by.len() {
        counts[index] = counts[index].max(by[index]);
    }
}

// Whether no count of the other is greater. It looks at all of them, since that goes several at once.
fn covers_each(counts: &[u32], other: &[u32]) -> bool
    requires { length other.now ≤ length counts.now }
    ensures { IsTrue result → joined counts.now other.now ≡ counts.now }
{
    let mut below = false;
    for index in 0..other.len() {
        if counts[index] < other[index] {
            below = true;
        }
    }
    !below
}

// Writes out at least so many counts, for which there is room. It goes by blocks, since a count at a time costs more.
fn fill<A: Allocator + Copy>(counts: &mut SmallVec<u32, 8, A>, to: usize)
    requires fits { FitsInClock A.row A.Allocator }
    requires room { to ≤ counts.old.capacity }
    ensures padded { counts.new.items ≡ padded counts.old.items to }
    ensures capacity { counts.old.capacity ≤ counts.new.capacity }
{
    let zeros = [0; BLOCK];
    while counts.len() < to {
        let more = (to - counts.len()).min(BLOCK);
        let _fits = counts.extend_from_slice(&zeros[..more]);
    }
}
