//! The witness of a race.
//!
//! Goroutines' clocks say what happens before either of the two. So a first walk along the trace keeps the two accesses
//! with their clocks, a second one picks the accesses that either clock knows, and a third one all others: nothing is
//! kept of an access but its place in the answer.
ghost use Rattle.std.specs.Prelude.{◌≡◌, Some, None, IfOk, IfErr};
ghost use Rattle.race_verdict.specs.Traces.{capacities};
ghost use Rattle.race_shards.specs.{Pairs.IsFound, Witness.{RacesInOrder, IsWitness}};

use crate::fault::WitnessFault;
use crate::order::order_of;
use crate::pair::Pair;
use race_legal::legal;
use race_records::Trace;
use race_verdict::Race;
use std::alloc::{AllocError, Allocator};

/// An order of all accesses of the trace in which the two of a race stand side by side, the second before the first: all
/// accesses that happen before either of the two, as they stand in the trace; then the second; then the first; then all
/// others, as they stand in the trace. Any race is taken, whether or not a verdict names it.
///
/// It shows that nothing orders the two: each access stands behind all that happen before it, and yet the second comes
/// first. It doesn't show that a run of the program takes this order, or that reads which come later in it would find
/// the values that they found.
///
/// Takes time in proportion to the events, 4 bytes for each access, and the clocks of a stamper and of the two.
pub fn witness<A: Allocator + Copy, B: Allocator>(
    alloc: A,
    trace: &Trace<B>,
    race: &Race,
) -> Result<Vec<u32, A>, WitnessFault>
    ensures witness { IfOk result (λ order.
        IsWitness (capacities trace.now) trace.now.events race.now order.items) }
    ensures not_a_race { result ≡ Err WitnessFault.NotARace
        → ¬ RacesInOrder (capacities trace.now) trace.now.events race.now }
{
    let pair = found(pair_of(alloc, trace, race)?)?;
    Ok(order_of(alloc, trace, &pair)?)
}

// The two accesses of a race, or none where it is no race in order of a legal trace.
fn pair_of<A: Allocator + Copy, B: Allocator>(
    alloc: A,
    trace: &Trace<B>,
    race: &Race,
) -> Result<Option<Pair<A>>, AllocError>
    ensures { IfOk result (IsFound (capacities trace.now) trace.now.events race.now) }
{
    match legal(alloc, trace)? {
        None => Pair::find(alloc, trace, race),
        Some(_) => Ok(None),
    }
}

// The pair, or that there is no race.
fn found<A: Allocator>(pair: Option<Pair<A>>) -> Result<Pair<A>, WitnessFault>
    ensures found { IfOk result (λ it. pair ≡ Some it) }
    ensures none { IfErr result (λ fault. (fault ≡ WitnessFault.NotARace) × (pair ≡ None)) }
{
    match pair {
        Some(it) => Ok(it),
        None => Err(WitnessFault::NotARace),
    }
}
