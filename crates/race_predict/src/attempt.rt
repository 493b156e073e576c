//! A run that is put together event by event, each tested as it comes.
ghost use Rattle.std.specs.Prelude.{◌≡◌, ◌≢◌, ◌<◌, ◌≤◌, ◌+◌, ◌||◌, [], ℕ, List, length, take};
ghost use Rattle.std.specs.Prelude.{Err, Some, None, IfOk, OnOk, IfSome, IsTrue, false};
ghost use Rattle.race_records.specs.declared.{kind.Kind.Kind, trace.TheConstants.MAX_EVENTS};
ghost use Rattle.race_records.specs.{Declarations.counts_of, Events.{TraceState}};
ghost use Rattle.race_model.specs.{Events.{accesses, writes, partner}, Legal.broken, Predict.told};
ghost use Rattle.race_legal.specs.{ReplayState.{IsInRange, counts_in}, StandsFor.{GoesOn, IsLeastBroken}};
ghost use Rattle.race_predict.specs.{declared.fault.PredictFault.PredictFault, Fronts.{ArePositions, counted}};
ghost use Rattle.race_predict.specs.Attempts.{IsAttempt, IsFound, IsNextAt, CanComeNext, ForEachLegal, run_with};
ghost use Rattle.race_predict.specs.Certified.{IsRunWithRace};

use crate::fault::PredictFault;
use crate::parts::{self, count_parts};
use crate::positions::{Position, is_next, position_at};
use race_legal::{Broken, Replay};
use race_records::{Event, Kind, Op, Trace};
use std::alloc::{AllocError, Allocator, Global};
use std::marker::Model;

/// The events so far: as a replay, which tests the next one, and counted for each goroutine.
pub(crate) struct Attempt<A: Allocator = Global> {
    replay: Replay<A>,
    taken: Vec<u32, A>,
}

impl<A: Allocator> Drop for Attempt<A> {
    fn drop(self) {
        let Attempt {
            replay: _,
            taken: _,
        } = self;
    }
}

impl<A: Allocator> Model for Attempt<A> {
    ghost use Rattle.race_predict.specs.Attempts.{AttemptState};

    ghost Value = { AttemptState };

    ghost view = { λ a. record { replay = a.replay; taken = a.taken.items } };
}

/// The last two events of a run, with what they find.
#[derive(Drop)]
pub(crate) struct LastTwo {
    /// The last but one.
    pub(crate) first: Event,
    /// The last.
    pub(crate) second: Event,
}

/// Whether the two are accesses of the variable by two goroutines, and one of them writes.
pub(crate) fn do_conflict(first: &Event, second: &Event, var: u32) -> bool
    ensures first { IsTrue result → IsTrue (accesses var first.now.op) }
    ensures second { IsTrue result → IsTrue (accesses var second.now.op) }
    ensures write { IsTrue result → IsTrue (writes var first.now.op || writes var second.now.op) }
    ensures two_goroutines { IsTrue result → first.now.who ≢ second.now.who }
    ensures otherwise { result ≡ false → IsTrue (accesses var first.now.op) → IsTrue (accesses var second.now.op)
        → IsTrue (writes var first.now.op || writes var second.now.op) → first.now.who ≡ second.now.who }
{
    accesses(&first.op, var)
        && accesses(&second.op, var)
        && (writes(&first.op, var) || writes(&second.op, var))
        && first.who != second.who
}

fn writes(op: &Op, var: u32) -> bool
    ensures { result ≡ writes var op.now }
{
    match op {
        Op::Write(other, _) => *other == var,
        _ => false,
    }
}

fn accesses(op: &Op, var: u32) -> bool
    ensures { result ≡ accesses var op.now }
{
    match op {
        Op::Read(other, _) => *other == var,
        Op::Write(other, _) => *other == var,
        _ => false,
    }
}

// The event comes, if it breaks no rule.
fn accept<A: Allocator>(replay: &mut Replay<A>, event: &Event) -> Result<(), PredictFault>
    requires range { IsInRange (counts_in replay.old) event.now }
    requires room { replay.old.len < MAX_EVENTS }
    ensures goes_on { OnOk result (GoesOn replay.old replay.new event.now) }
    ensures refused { result ≡ Err PredictFault.NotAPrediction
        → ((rule : ℕ) × IsLeastBroken replay.old event.now (Some rule)) }
    ensures len { OnOk result (replay.new.len ≡ replay.old.len + 1) }
    ensures counts { counts_in replay.new ≡ counts_in replay.old }
{
    match replay.accept(event) {
        Ok(()) => {}
        Err(Broken::Rule(_)) => return Err(PredictFault::NotAPrediction),
        Err(Broken::OutOfMemory) => return Err(PredictFault::OutOfMemory),
    }
    Ok(())
}

impl<A: Allocator + Copy> Attempt<A> {
    /// Before the first event, under the declarations of the recorded trace.
    pub(crate) fn new(alloc: A, recorded: &Trace<A>) -> Result<Attempt<A>, AllocError>
        ensures { IfOk result (IsAttempt recorded.now []) }
    {
        Ok(Attempt {
            replay: Replay::new(alloc, recorded.decls())?,
            taken: vec![in alloc; 0u32; recorded.decls().count(Kind::Goroutine) as usize]?,
        })
    }

    /// Puts the recorded event whose index stands at `k` after those before it: where the list stays legal, and of each that takes part
    /// it is what comes next.
    pub(crate) fn add(
        &mut self,
        recorded: &Trace<A>,
        positions: &[Position],
        order: &[u32],
        k: usize,
    ) -> Result<(), PredictFault>
        requires k { k < length order.now }
        requires room { length order.now ≤ MAX_EVENTS }
        requires positions { ArePositions recorded.now.events (length recorded.now.events) positions.now }
        requires attempt { IsAttempt recorded.now (take k order.now) self.old }
        ensures attempt { OnOk result (IsAttempt recorded.now (take (k + 1) order.now) self.new) }
        ensures refused { result ≡ Err PredictFault.NotAPrediction → ¬ CanComeNext recorded.now order.now k }
    {
        match self.next_at(recorded, positions, order[k] as usize) {
            Some(event) => self.take(event),
            None => Err(PredictFault::NotAPrediction),
        }
    }

    /// Puts the last two recorded events of the order after the others: two accesses of the variable that race where they stand now.
    pub(crate) fn end(
        &mut self,
        recorded: &Trace<A>,
        positions: &[Position],
        order: &[u32],
        k: usize,
        var: u32,
    ) -> Result<LastTwo, PredictFault>
        requires k { k + 2 ≡ length order.now }
        requires room { length order.now ≤ MAX_EVENTS }
        requires positions { ArePositions recorded.now.events (length recorded.now.events) positions.now }
        requires attempt { IsAttempt recorded.now (take k order.now) self.old }
        ensures run { IfOk result (λ last. IsRunWithRace recorded.now var order.now
            (run_with recorded.now (take k order.now) last)) }
        ensures refused { result ≡ Err PredictFault.NotAPrediction
            → (other : TraceState) → ¬ IsRunWithRace recorded.now var order.now other }
    {
        let Some(first) = self.next_at(recorded, positions, order[k] as usize) else {
            return Err(PredictFault::NotAPrediction);
        };
        let Some(second) = self.next_at(recorded, positions, order[k + 1] as usize) else {
            return Err(PredictFault::NotAPrediction);
        };
        if !do_conflict(first, second, var) {
            return Err(PredictFault::NotAPrediction);
        }
        let first = self.accept_found(first, var)?;
        let second = self.accept_found(second, var)?;
        Ok(LastTwo { first, second })
    }

    // The recorded event at the index, if there is one, and each that takes part in it did it next.
    fn next_at<'t>(
        &self,
        recorded: &'t Trace<A>,
        positions: &[Position],
        at: usize,
    ) -> Option<&'t Event>
        requires positions { ArePositions recorded.now.events (length recorded.now.events) positions.now }
        requires rows { length self.now.taken ≡ counts_of recorded.now.decls.declarations Kind.Goroutine }
        ensures found { IfSome result (λ event. IsFound recorded.now self.now at event.now) }
        ensures none { result ≡ None → (order : List ℕ) → IsAttempt recorded.now order self.now
            → ¬ IsNextAt recorded.now order at }
    {
        if at >= recorded.len() {
            return None;
        }
        let event = recorded.event(at);
        let position = position_at(positions, at);
        if is_next(&self.taken, position, event) {
            Some(event)
        } else {
            None
        }
    }

    // The event comes, if it breaks no rule, and is counted.
    fn take(&mut self, event: &Event) -> Result<(), PredictFault>
        requires range { IsInRange (counts_in self.old.replay) event.now }
        requires who { event.now.who < length self.old.taken }
        requires partner { IfSome (partner event.now.op) (λ g. g < length self.old.taken) }
        requires room { self.old.replay.len < MAX_EVENTS }
        ensures goes_on { OnOk result (GoesOn self.old.replay self.new.replay event.now) }
        ensures taken { OnOk result (self.new.taken ≡ counted self.old.taken event.now.who (partner event.now.op)) }
        ensures refused { result ≡ Err PredictFault.NotAPrediction
            → ((rule : ℕ) × IsLeastBroken self.old.replay event.now (Some rule)) }
    {
        accept(&mut self.replay, event)?;
        count_parts(&mut self.taken, event);
        Ok(())
    }

    // The access comes, if it breaks no rule, where a read finds the variable's last value. Gives the event.
    fn accept_found(&mut self, event: &Event, var: u32) -> Result<Event, PredictFault>
        requires range { IsInRange (counts_in self.old.replay) event.now }
        requires access { IsTrue (accesses var event.now.op) }
        requires room { self.old.replay.len < MAX_EVENTS }
        ensures told { IfOk result (λ found. (v : ℕ) × (found ≡ told v event.now)) }
        ensures goes_on { IfOk result (λ found. GoesOn self.old.replay self.new.replay found) }
        ensures refused { result ≡ Err PredictFault.NotAPrediction
            → ForEachLegal self.old.replay (λ caps past. (v : ℕ) → broken caps past (told v event.now) ≢ None) }
        ensures len { IfOk result (λ _. self.new.replay.len ≡ self.old.replay.len + 1) }
        ensures counts { counts_in self.new.replay ≡ counts_in self.old.replay }
    {
        let found = parts::told(event, self.replay.last_value(var));
        accept(&mut self.replay, &found)?;
        Ok(found)
    }
}
