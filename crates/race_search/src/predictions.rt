//! The predictions of a trace. Nothing is proved of which are found: each that is reported has passed its test.
ghost use Rattle.std.specs.Prelude.{◌≡◌, ◌≤◌, ◌+◌, length, IfOk, OnOk, IfSome, All};
ghost use Rattle.race_records.specs.Events.{TraceState};
ghost use Rattle.race_verdict.specs.{Traces.HasVerdict, Verdicts.verdict_of};
ghost use Rattle.race_predict.specs.{Certified.{IsPredicted, IsPredictedRace}, Fronts.ArePositions};

use crate::search::Search;
use race_predict::{Position, Prediction, positions_of, tested};
use race_records::Trace;
use race_verdict::{Race, Verdict};
use std::alloc::{AllocError, Allocator, Global};

/// What a search found.
#[derive(Debug, Drop)]
pub struct Predictions<A: Allocator = Global> {
    /// The races, in rising order of their variables, by the indexes of the recorded events; of each two accesses the earlier one is the first.
    pub found: Vec<Race, A>,
    /// How many variables without a recorded race weren't searched to their end, since the search took too many steps.
    pub not_searched: u32,
}

// The prediction for the variable, where one is found.
fn predicted<A: Allocator + Copy>(
    search: &mut Search<A>,
    alloc: A,
    recorded: &Trace<A>,
    verdict: &Verdict<A>,
    positions: &[Position],
    var: u32,
) -> Result<Option<Prediction<A>>, AllocError>
    requires verdict { HasVerdict recorded.now (verdict_of verdict.now) }
    requires positions { ArePositions recorded.now.events (length recorded.now.events) positions.now }
    ensures found { IfOk result (λ found. IfSome found (IsPredicted recorded.now)) }
    ensures var { IfOk result (λ found. IfSome found (λ p. p.var ≡ var)) }
{
    match search.order(alloc, recorded, var)? {
        Some(order) => tested(alloc, recorded, verdict, positions, var, order),
        None => Ok(None),
    }
}

// Puts the race of the prediction last, where there is one.
fn add_race<A: Allocator>(
    found: &mut Vec<Race, A>,
    prediction: Option<Prediction<A>>,
) -> Result<(), AllocError>
    requires { IfSome prediction (λ p. 2 ≤ length p.order.items) }
    ensures races { OnOk result ((recorded : TraceState) → All (IsPredictedRace recorded) found.old.items
        → IfSome prediction (IsPredicted recorded) → All (IsPredictedRace recorded) found.new.items) }
    ensures one_more { OnOk result (length found.new.items ≤ length found.old.items + 1) }
{
    if let Some(prediction) = prediction {
        found.push(prediction.race())?;
    }
    Ok(())
}

// The races that the pairs found so far make, at most so many, those first whose runs end first.
fn races_of<A: Allocator + Copy>(
    search: &mut Search<A>,
    alloc: A,
    recorded: &Trace<A>,
    verdict: &Verdict<A>,
    most: u32,
) -> Result<Vec<Race, A>, AllocError>
    requires { HasVerdict recorded.now (verdict_of verdict.now) }
    ensures found { IfOk result (λ found. All (IsPredictedRace recorded.now) found.items) }
    ensures most { IfOk result (λ found. length found.items ≤ most) }
{
    let mut found = Vec::new(alloc);
    let candidates = search.candidates(alloc)?;
    if candidates.is_empty() {
        return Ok(found);
    }
    let positions = positions_of(alloc, recorded)?;
    for candidate in candidates.as_slice() {
        if found.len() >= most as usize {
            break;
        }
        let prediction = predicted(
            search,
            alloc,
            recorded,
            verdict,
            positions.as_slice(),
            candidate.var,
        )?;
        add_race(&mut found, prediction)?;
    }
    Ok(found)
}

// The index behind the last event.
fn behind<A: Allocator>(trace: &Trace<A>) -> u32 {
    u32::try_from(trace.len()).unwrap_or(u32::MAX)
}

// The races that are found, those first whose runs end first.
fn found_by<A: Allocator + Copy>(
    search: &mut Search<A>,
    alloc: A,
    recorded: &Trace<A>,
    verdict: &Verdict<A>,
    most: u32,
    turned: bool,
) -> Result<Vec<Race, A>, AllocError>
    requires { HasVerdict recorded.now (verdict_of verdict.now) }
    ensures found { IfOk result (λ found. All (IsPredictedRace recorded.now) found.items) }
    ensures most { IfOk result (λ found. length found.items ≤ most) }
{
    let end = behind(recorded);
    if !turned {
        // Where there are many, the first eighth of the events has enough of them.
        search.find(recorded, end / 8, false)?;
        let found = races_of(search, alloc, recorded, verdict, most)?;
        if found.len() >= most as usize {
            return Ok(found);
        }
    }
    search.find(recorded, end, turned)?;
    races_of(search, alloc, recorded, verdict, most)
}

/// Predicts races of the trace, on different variables in rising order, and at most so many: those whose runs end first in the recorded trace. The
/// verdict is that on the trace. Where the search takes too many steps, the variables that are left are counted. Where `turned`, runs are tried too in
/// which what the trace's locks and channels order comes in another order.
///
/// Not all are found. Takes some 60 bytes for each recorded event, and those of a certificate. Each race that is found takes time in proportion to
/// the events of its run.
pub fn predict<A: Allocator + Copy>(
    alloc: A,
    recorded: &Trace<A>,
    verdict: &Verdict<A>,
    most: u32,
    turned: bool,
) -> Result<Predictions<A>, AllocError>
    requires { HasVerdict recorded.now (verdict_of verdict.now) }
    ensures found { IfOk result (λ predictions. All (IsPredictedRace recorded.now) predictions.found.items) }
    ensures most { IfOk result (λ predictions. length predictions.found.items ≤ most) }
{
    let mut search = Search::new(alloc, recorded, verdict, None, turned)?;
    let mut found = found_by(&mut search, alloc, recorded, verdict, most, turned)?;
    found.sort_by_key(|race| race.var)?;
    Ok(Predictions {
        found,
        not_searched: search.not_searched(),
    })
}

/// The prediction for one variable, where one is found. The verdict is that on the trace, and all steps are taken for this variable.
pub fn predict_on<A: Allocator + Copy>(
    alloc: A,
    recorded: &Trace<A>,
    verdict: &Verdict<A>,
    var: u32,
    turned: bool,
) -> Result<Option<Prediction<A>>, AllocError>
    requires { HasVerdict recorded.now (verdict_of verdict.now) }
    ensures found { IfOk result (λ found. IfSome found (IsPredicted recorded.now)) }
    ensures var { IfOk result (λ found. IfSome found (λ p. p.var ≡ var)) }
{
    let mut search = Search::new(alloc, recorded, verdict, Some(var), turned)?;
    search.find(recorded, behind(recorded), turned)?;
    let positions = positions_of(alloc, recorded)?;
    predicted(
        &mut search,
        alloc,
        recorded,
        verdict,
        positions.as_slice(),
        var,
    )
}
