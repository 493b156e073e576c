//! The certificate of a prediction: a run of the same goroutines, tested event by event.
ghost use Rattle.std.specs.{Prelude.{◌≡◌, ◌==◌, ◌-◌, ◌++◌, ◌∷◌, [], ℕ, List, length, take}, List.list_any};
ghost use Rattle.std.specs.Prelude.{Ok, Err, None, IfOk, OnOk, IfSome, true, false};
ghost use Rattle.race_records.specs.declared.event.Event.{Event};
ghost use Rattle.race_model.specs.{Legal.IsLegal, Race.IsRace, Verdict.IsVerdict};
ghost use Rattle.race_verdict.specs.{Traces.{HasVerdict, capacities}, Verdicts.verdict_of};
ghost use Rattle.race_predict.specs.declared.fault.PredictFault.{PredictFault};
ghost use Rattle.race_predict.specs.Certified.{HasNoCertificate, IsCertificate, IsMadeOf, IsPredicted};
ghost use Rattle.race_predict.specs.{Attempts.run_with, Fronts.ArePositions};

use crate::attempt::{Attempt, LastTwo};
use crate::fault::PredictFault;
use crate::parts::copy;
use crate::positions::{Position, positions_of};
use crate::prediction::Prediction;
use race_records::{Event, MAX_EVENTS, Trace};
use race_verdict::{Race, Verdict};
use std::alloc::{AllocError, Allocator};

/// A trace that shows the prediction: the same declarations, and the events of another run of the recorded goroutines, at whose end the
/// two accesses race.
///
/// Each event is tested as it comes, whoever made the prediction: what isn't one is refused. The verdict is that on the recorded trace. Takes time
/// in proportion to the recorded events, and for each of them 8 bytes beside the certificate.
pub fn certificate<A: Allocator + Copy>(
    alloc: A,
    recorded: &Trace<A>,
    verdict: &Verdict<A>,
    prediction: &Prediction<A>,
) -> Result<Trace<A>, PredictFault>
    requires { HasVerdict recorded.now (verdict_of verdict.now) }
    ensures certificate { IfOk result (IsCertificate recorded.now prediction.now.var prediction.now.order.items) }

    // Of a legal trace, `NotAPrediction` says that there is none.
    ensures refused { result ≡ Err PredictFault.NotAPrediction → IsLegal (capacities recorded.now) recorded.now.events
        → HasNoCertificate recorded.now prediction.now.var prediction.now.order.items }
{
    let positions = positions_of(alloc, recorded)?;
    let order = prediction.order.as_slice();
    let last = test(
        alloc,
        recorded,
        verdict,
        positions.as_slice(),
        prediction.var,
        order,
    )?;
    let trace = trace_of(recorded, order, last)?;
    Ok(trace)
}

/// The prediction that these recorded events make, if they pass the test of `certificate`. The verdict is that on the recorded trace. Takes
/// time in proportion to the events of the order, and no memory for each.
pub fn tested<A: Allocator + Copy>(
    alloc: A,
    recorded: &Trace<A>,
    verdict: &Verdict<A>,
    positions: &[Position],
    var: u32,
    order: Vec<u32, A>,
) -> Result<Option<Prediction<A>>, AllocError>
    requires verdict { HasVerdict recorded.now (verdict_of verdict.now) }
    requires positions { ArePositions recorded.now.events (length recorded.now.events) positions.now }
    ensures found { IfOk result (λ found. IfSome found (IsPredicted recorded.now)) }
    ensures var { IfOk result (λ found. IfSome found (λ p. p.var ≡ var)) }
    ensures order { IfOk result (λ found. IfSome found (λ p. p.order ≡ order)) }

    // Of a legal trace, where there is none there is no certificate.
    ensures none { result ≡ Ok None → IsLegal (capacities recorded.now) recorded.now.events
        → HasNoCertificate recorded.now var order.items }
{
    match test(alloc, recorded, verdict, positions, var, order.as_slice()) {
        Ok(_) => Ok(Some(Prediction { var, order })),
        Err(PredictFault::OutOfMemory) => Err(AllocError),
        Err(PredictFault::NotAPrediction) => Ok(None),
    }
}

// Whether the verdict names a race on the variable, or tells of none because the trace is illegal.
fn may_race<A: Allocator>(verdict: &Verdict<A>, var: u32) -> bool
    ensures none { result ≡ false → (caps : ℕ → ℕ) (events : List Event) → IsVerdict caps events (verdict_of verdict.now)
        → (i j : ℕ) → ¬ IsRace caps events var i j }
    ensures one { result ≡ true → (caps : ℕ → ℕ) (events : List Event) → IsVerdict caps events (verdict_of verdict.now)
        → IsLegal caps events → ((i : ℕ) × ((j : ℕ) × IsRace caps events var i j)) }
{
    match verdict {
        Verdict::Illegal(_) => true,
        Verdict::Clean => false,
        Verdict::Races(races) => is_raced(races.as_slice(), var),
    }
}

fn is_raced(races: &[Race], var: u32) -> bool
    ensures { result ≡ list_any (λ race. race.var == var) races.now }
{
    races.iter().any(|race| race.var == var)
}

// Tests the run of these recorded events, one by one, and gives the last two.
fn test<A: Allocator + Copy>(
    alloc: A,
    recorded: &Trace<A>,
    verdict: &Verdict<A>,
    positions: &[Position],
    var: u32,
    order: &[u32],
) -> Result<LastTwo, PredictFault>
    requires verdict { HasVerdict recorded.now (verdict_of verdict.now) }
    requires positions { ArePositions recorded.now.events (length recorded.now.events) positions.now }
    ensures run { IfOk result (λ last. IsCertificate recorded.now var order.now
        (run_with recorded.now (take (length order.now - 2) order.now) last)) }
    ensures refused { result ≡ Err PredictFault.NotAPrediction → IsLegal (capacities recorded.now) recorded.now.events
        → HasNoCertificate recorded.now var order.now }
{
    if may_race(verdict, var) {
        return Err(PredictFault::NotAPrediction);
    }
    if order.len() < 2 || order.len() > MAX_EVENTS {
        return Err(PredictFault::NotAPrediction);
    }
    let before = order.len() - 2;
    let mut attempt = Attempt::new(alloc, recorded)?;
    for k in 0..before {
        attempt.add(recorded, positions, order, k)?;
    }
    attempt.end(recorded, positions, order, before, var)
}

// The run of these recorded events, but for the last two, as a trace.
fn trace_of<A: Allocator + Copy>(
    recorded: &Trace<A>,
    order: &[u32],
    last: LastTwo,
) -> Result<Trace<A>, AllocError>
    requires { IsMadeOf recorded.now.events order.now (run_with recorded.now (take (length order.now - 2) order.now) last).events }
    ensures decls { IfOk result (λ trace. trace.decls ≡ recorded.now.decls) }
    ensures events { IfOk result (λ trace. trace.events
        ≡ (run_with recorded.now (take (length order.now - 2) order.now) last).events) }
{
    let mut trace = Trace::new(recorded.decls().copy()?);
    for k in 0..order.len().saturating_sub(2) {
        put(&mut trace, copy(recorded.event(order[k] as usize)))?;
    }
    let LastTwo { first, second } = last;
    put(&mut trace, first)?;
    put(&mut trace, second)?;
    Ok(trace)
}

// Puts an event last. It was tested, so nothing but memory can be wanting.
fn put<A: Allocator>(trace: &mut Trace<A>, event: Event) -> Result<(), AllocError>
    ensures events { OnOk result (trace.new.events ≡ trace.old.events ++ event ∷ []) }
    ensures decls { OnOk result (trace.new.decls ≡ trace.old.decls) }
{
    match trace.push(event) {
        Ok(()) => Ok(()),
        Err(_) => Err(AllocError),
    }
}
