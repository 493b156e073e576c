//! The order of a witness: what happens before either of the two, then the second, the first, and all others.
ghost use Rattle.std.specs.Prelude.{◌≡◌, ◌++◌, IfOk, OnOk};
ghost use Rattle.race_model.specs.{Events.is_access, Legal.IsLegal};
ghost use Rattle.race_verdict.specs.Traces.{capacities};
ghost use Rattle.race_shards.specs.{Pairs.IsPairIn, Witness.IsWitnessList, Listing.{belongs, listed_of, IsOfPart}};
ghost use Rattle.race_shards.specs.Listing.{Adds};

use crate::pair::Pair;
use crate::walk::step;
use race_clock::{Stamp, Stamper};
use race_records::{Op, Trace};
use std::alloc::{AllocError, Allocator};

/// A part of the order.
#[derive(Clone, Copy)]
enum Part {
    /// What happens before either of the two.
    Early,
    /// What doesn't, and is neither of them.
    Others,
}

// Whether the access belongs to the part.
fn belongs<A: Allocator + Copy>(part: Part, pair: &Pair<A>, stamp: &Stamp) -> bool
    ensures { result ≡ belongs part pair.now stamp.now }
{
    match part {
        Part::Early => pair.knows(stamp),
        Part::Others => {
            !pair.knows(stamp) && stamp.at != pair.first() && stamp.at != pair.second()
        }
    }
}

// Puts the access behind the order, where there is one and it belongs to the part.
fn add_one<A: Allocator + Copy>(
    order: &mut Vec<u32, A>,
    part: Part,
    pair: &Pair<A>,
    stamp: Option<Stamp>,
) -> Result<(), AllocError>
    ensures { OnOk result (order.new.items ≡ order.old.items ++ listed_of part pair.now stamp) }
{
    if let Some(stamp) = stamp {
        if belongs(part, pair, &stamp) {
            order.push(stamp.at)?;
        }
    }
    Ok(())
}

// Puts the accesses of the part behind the order, as they stand in the trace.
fn add_part<A: Allocator + Copy, B: Allocator>(
    order: &mut Vec<u32, A>,
    part: Part,
    trace: &Trace<B>,
    pair: &Pair<A>,
) -> Result<(), AllocError>
    requires legal { IsLegal (capacities trace.now) trace.now.events }
    requires pair { IsPairIn (capacities trace.now) trace.now.events pair.now }
    ensures { OnOk result (Adds
        (IsOfPart part (capacities trace.now) trace.now.events
        pair.now.first.stamp.at pair.now.second.stamp.at)
        order.old.items order.new.items) }
{
    let mut stamper = Stamper::new(*order.allocator(), trace.decls())?;
    for at in 0..trace.len() {
        let stamp = step(&mut stamper, trace, at)?;
        add_one(order, part, pair, stamp)?;
    }
    Ok(())
}

fn is_access(op: &Op) -> bool
    ensures { result ≡ is_access op.now }
{
    match op {
        Op::Read(_, _) => true,
        Op::Write(_, _) => true,
        _ => false,
    }
}

// How many events of the trace are accesses, which is how long the order gets.
fn access_count<A: Allocator>(trace: &Trace<A>) -> usize {
    trace
        .events()
        .iter()
        .filter(|event| is_access(&event.op))
        .count()
}

/// The whole order.
pub(crate) fn order_of<A: Allocator + Copy, B: Allocator>(
    alloc: A,
    trace: &Trace<B>,
    pair: &Pair<A>,
) -> Result<Vec<u32, A>, AllocError>
    requires legal { IsLegal (capacities trace.now) trace.now.events }
    requires pair { IsPairIn (capacities trace.now) trace.now.events pair.now }
    ensures { IfOk result (λ order. IsWitnessList (capacities trace.now) trace.now.events
        pair.now.first.stamp.at pair.now.second.stamp.at order.items) }
{
    let mut order = Vec::with_capacity(alloc, access_count(trace))?;
    add_part(&mut order, Part::Early, trace, pair)?;
    order.push(pair.second())?;
    order.push(pair.first())?;
    add_part(&mut order, Part::Others, trace, pair)?;
    Ok(order)
}
