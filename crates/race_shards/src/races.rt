//! The races that the shards tell.
ghost use Rattle.std.specs.{Prelude.{◌≡◌, ◌<◌, All, length, map, IfOk}, Option.option_map};
ghost use Rattle.race_access.specs.Touches.{pair_noted};
ghost use Rattle.race_verdict.specs.{Notes.race_noted, Races.{race_of, races_of}};
ghost use Rattle.race_shards.specs.Telling.{HavePlace, HavePlaces, race_told, noted_told, told_below, race_with};
ghost use Rattle.race_shards.specs.Telling.{IsNotedBy};

use crate::shard::Shard;
use race_verdict::{ReportedAccess, ReportedRace};
use std::alloc::{AllocError, Allocator};

// The race of a variable, from the shard to which it belongs.
fn noted<A: Allocator + Copy>(
    shards: &[Shard<A>],
    var: u32,
) -> Option<(ReportedAccess, ReportedAccess)>
    requires some { 0 < length shards.now }
    requires place { HavePlace shards.now var }
    ensures noted { result ≡ noted_told shards.now var }
    ensures race { option_map (race_with var) (option_map pair_noted result) ≡ race_told shards.now var }
{
    shards[var as usize % shards.len()].noted(var)
}

/// The race of each variable that has one, in rising order of the variables, with what is printed of both accesses.
pub(crate) fn noted_races<A: Allocator + Copy, B: Allocator>(
    alloc: B,
    shards: &[Shard<A>],
    vars: u32,
) -> Result<Vec<ReportedRace, B>, AllocError>
    requires some { 0 < length shards.now }
    requires places { HavePlaces shards.now vars }
    ensures races { IfOk result (λ races. map race_noted races.items ≡ map race_of (races_of (told_below shards.now vars))) }
    ensures noted { IfOk result (λ races. All (IsNotedBy shards.now vars) races.items) }
{
    let mut races = Vec::new(alloc);
    for var in 0..vars {
        if let Some((first, second)) = noted(shards, var) {
            races.push(ReportedRace { var, first, second })?;
        }
    }
    Ok(races)
}
