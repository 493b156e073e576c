//! Races, and a list of them.
ghost use Rattle.std.specs.Prelude.{◌≡◌, ◌↔◌, [], ◌∷◌, ◌++◌, OnOk, OnErr, IsTrue};

use std::alloc::{AllocError, Allocator, Global};
use std::marker::Model;

/// Two accesses of a variable that race, by their indexes counted from 0.
#[derive(Clone, Copy, Debug, PartialEq, Eq)]
pub struct Race {
    /// The variable.
    pub var: u32,
    /// The earlier access.
    pub first: u32,
    /// The later one.
    pub second: u32,
}

/// A list of races.
#[derive(Debug, Drop)]
pub struct RaceList<A: Allocator = Global> {
    races: Vec<Race, A>,
}

impl<A: Allocator> Model for RaceList<A> {
    ghost use Rattle.std.specs.Prelude.{List};
    ghost use Rattle.race_verdict.specs.declared.races.Race.{Race};

    ghost Value = { List Race };

    ghost view = { λ l. l.races.items };
}

impl<A: Allocator> RaceList<A> {
    /// No race. Takes no memory.
    pub fn new(alloc: A) -> RaceList<A>
        ensures { result ≡ [] }
    {
        RaceList {
            races: Vec::new(alloc),
        }
    }

    /// These races.
    pub fn from_vec(races: Vec<Race, A>) -> RaceList<A>
        ensures { result ≡ races.items }
    {
        RaceList { races }
    }

    /// Puts a race behind the others.
    pub fn push(&mut self, race: Race) -> Result<(), AllocError>
        ensures pushed { OnOk result (self.new ≡ self.old ++ race ∷ []) }
        ensures unchanged { OnErr result (self.new ≡ self.old) }
    {
        self.races.push(race)?;
        Ok(())
    }

    /// The races in order.
    pub fn as_slice(&self) -> &[Race]
        ensures { result.now ≡ self.now }
    {
        self.races.as_slice()
    }

    /// Whether there is none.
    pub fn is_empty(&self) -> bool
        ensures { IsTrue result ↔ (self.now ≡ []) }
    {
        self.races.is_empty()
    }
}
