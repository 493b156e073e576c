//! The accesses of one variable.
//!
//! An access is dropped where a later one that stays knows it: whoever doesn't know the dropped one doesn't know that
//! one either, which is the greater. So the greatest access with which the next one races is always among those that
//! are kept. The last Write stays also where a Read knows it, since a later Read races with Writes alone: behind
//! `write x` by main, which a knows and b doesn't, `read x` by a and then by b race in main's Write and b's Read.
ghost use Rattle.std.specs.{Prelude.{◌≡◌, List, [], true, OnOk, OnErr, IsTrue}, Option.{is_some, option_map}};
ghost use Rattle.race_access.specs.Touches.{Touch, IsReported, AreNotedIn, pair_noted};
ghost use Rattle.race_access.specs.{TouchHolds.{StandsFor, GoesOn}, Kept.AreRising};

use crate::access::Access;
use crate::accesses::Accesses;
use race_clock::{Clock, Stamp};
use race_verdict::ReportedAccess;
use std::alloc::{AllocError, Allocator, Global};
use std::marker::Model;

// There may be 65,535 of them.
const _: () = prove!(size_of::<VarState<Global>>() <= 48);

/// The accesses of a variable that can still race, or its reported race once it has one.
#[derive(Drop)]
pub struct VarState<A: Allocator = Global> {
    accesses: Accesses<A>,
    alloc: A,
}

impl<A: Allocator> Model for VarState<A> {
    ghost use Rattle.race_access.specs.Kept.{Kept};

    ghost Value = { Kept };

    ghost use Rattle.race_access.specs.KeptOf.{kept_of};

    ghost view = { λ v. kept_of v.accesses };

    ghost use Rattle.race_access.specs.Kept.{AreRising};

    ghost invariant = { λ v. AreRising (kept_of v.accesses).reads };
}

impl<A: Allocator + Copy> VarState<A> {
    /// No access. Takes no memory.
    pub fn new(alloc: A) -> VarState<A>
        ensures { StandsFor result [] }
    {
        VarState {
            accesses: Accesses::Few {
                write: Access::NONE,
                read: Access::NONE,
            },
            alloc,
        }
    }

    /// Takes the next access of the variable, at this place, with the clock of its goroutine behind it.
    #[inline(always)]
    pub fn touch<B: Allocator>(
        &mut self,
        stamp: &Stamp,
        place: u32,
        clock: &Clock<B>,
    ) -> Result<(), AllocError>
        ensures goes_on { OnOk result (GoesOn self.old self.new
            (record { stamp = stamp.now; place = place; clock = clock.now })) }
        ensures unchanged { OnErr result (self.new ≡ self.old) }

        // What is kept: one Read at most of each goroutine.
        ensures rising { AreRising self.new.reads }

        // What takes no memory.
        ensures raced { is_some self.old.pair ≡ true → (result ≡ Ok tt) × (self.new ≡ self.old) }
        ensures write { IsTrue stamp.now.write → result ≡ Ok tt }
    {
        if self.accesses.is_raced() {
            return Ok(());
        }
        let access = Access::of(stamp, place);
        match self.accesses.partner(&access, clock) {
            Some(first) => {
                self.accesses = Accesses::Raced {
                    first: first.note(),
                    second: access.note(),
                };
                Ok(())
            }
            None => self.accesses.keep(self.alloc, access, clock),
        }
    }

    /// The race that is reported of the accesses so far: its two events, counted from 0.
    pub fn raced(&self) -> Option<(u32, u32)>
        ensures reported { (touched : List Touch) → StandsFor self.now touched
            → IsReported touched result }
        ensures pair { result ≡ self.now.pair }
    {
        self.accesses.pair()
    }

    /// The same race, with what is printed of each of its two accesses.
    pub fn noted(&self) -> Option<(ReportedAccess, ReportedAccess)>
        ensures noted { (touched : List Touch) → StandsFor self.now touched
            → AreNotedIn touched result }
        ensures pair { option_map pair_noted result ≡ self.now.pair }
        ensures kept { result ≡ self.now.noted }
    {
        self.accesses.noted()
    }
}
