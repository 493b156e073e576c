//! What is kept of the variables of a shard.
ghost use Rattle.std.specs.{Prelude.{ℕ, ◌≡◌, ◌<◌, ◌≤◌, ◌/◌, ◌%◌, [], length, IfOk, OnOk}, Option.option_map};
ghost use Rattle.race_access.specs.Touches.{pair_noted};
ghost use Rattle.race_shards.specs.Variables.{AreKept, GoesOn, HasPlaces, IsShapedAs, kept_of};

use race_access::VarState;
use race_clock::{Clock, Stamp};
use race_verdict::ReportedAccess;
use std::alloc::{AllocError, Allocator, Global};
use std::marker::Model;

/// What is kept of each variable of a shard. Of so many shards a variable belongs to the one whose number is the rest
/// of its own by their count, and stands there at the quotient.
#[derive(Drop)]
pub(crate) struct Variables<A: Allocator = Global> {
    number: u32,
    count: u32,
    states: Vec<VarState<A>, A>,
}

impl<A: Allocator> Model for Variables<A> {
    ghost use Rattle.std.specs.Prelude.{◌<◌};
    ghost use Rattle.race_shards.specs.Variables.{VariablesState};

    ghost Value = { VariablesState };

    ghost view = { λ v. record { number = v.number; count = v.count; kept = v.states.items } };

    ghost invariant = { λ v. 0 < v.count };
}

// To which of so many shards the variable belongs. A division costs as much as the rest of an access, so one shard,
// the commonest case, does without.
fn shard_of(var: u32, count: u32) -> u32
    requires { 0 < count }
    ensures { result ≡ var % count }
{
    if count == 1 { 0 } else { var % count }
}

// Where it stands there.
fn place_of(var: u32, count: u32) -> usize
    requires { 0 < count }
    ensures { result ≡ var / count }
{
    if count == 1 {
        var as usize
    } else {
        (var / count) as usize
    }
}

impl<A: Allocator + Copy> Variables<A> {
    /// The variables of shard `number` of `count`, where there are `vars` in all, before the first event.
    pub(crate) fn new(
        alloc: A,
        number: u32,
        count: u32,
        vars: u32,
    ) -> Result<Variables<A>, AllocError>
        requires { 0 < count }
        ensures kept { IfOk result (λ variables. (caps : ℕ → ℕ) → AreKept caps [] variables) }
        ensures number { IfOk result (λ variables. variables.number ≡ number) }
        ensures count { IfOk result (λ variables. variables.count ≡ count) }
        ensures places { IfOk result (λ variables. HasPlaces variables vars) }
    {
        let places = (vars / count) as usize + 1;
        let mut states = Vec::with_capacity(alloc, places)?;
        for _ in 0..places {
            states.push(VarState::new(alloc))?;
        }
        Ok(Variables {
            number,
            count,
            states,
        })
    }

    /// The number of the shard.
    pub(crate) fn number(&self) -> usize
        ensures { result ≡ self.now.number }
    {
        self.number as usize
    }

    /// Takes the next access, with its place and the clock of its goroutine behind it, where it is one of the shard's
    /// variables.
    #[inline(always)]
    pub(crate) fn touch<B: Allocator>(
        &mut self,
        stamp: &Stamp,
        place: u32,
        clock: &Clock<B>,
    ) -> Result<(), AllocError>
        requires { stamp.now.var / self.old.count < length self.old.kept }
        ensures goes_on { OnOk result (GoesOn self.old self.new stamp.now place clock.now) }
        ensures shape { IsShapedAs self.old self.new }
    {
        if shard_of(stamp.var, self.count) != self.number {
            return Ok(());
        }
        self.states[place_of(stamp.var, self.count)].touch(stamp, place, clock)
    }

    /// The race of a variable of the shard, with what is printed of both accesses.
    pub(crate) fn noted(&self, var: u32) -> Option<(ReportedAccess, ReportedAccess)>
        requires { var / self.now.count < length self.now.kept }
        ensures noted { result ≡ (kept_of self.now var).noted }
        ensures pair { option_map pair_noted result ≡ (kept_of self.now var).pair }
    {
        self.states[place_of(var, self.count)].noted()
    }
}
