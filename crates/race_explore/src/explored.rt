//! What the runs come to.
ghost use Rattle.std.specs.Prelude.{◌≡◌, ◌≤◌, ◌<◌, ◌+◌, ◌-◌, ◌^◌, ◌++◌, ◌∷◌, [], All, List, false, OnOk};
ghost use Rattle.race_verdict.specs.{Races.race_of, Traces.HasVerdict, Verdicts.verdict_of};
ghost use Rattle.race_explore.specs.Looked.{AreAccesses, Counts, HasSameCounts, IsCounted, IsBounded, one_skipped};
ghost use Rattle.race_explore.specs.declared.walk.TheConstants.{MAX_RUNS};
ghost use Rattle.race_explore.specs.Looked.{Looked, looked_of};
ghost use Rattle.race_explore.specs.{Ends.{AreBadEnds, CountsEndOf}, Told.{AreRacy, CountsRace}};
ghost use Rattle.race_explore.specs.Looked as spec;

use crate::places::{place_of, place_of_end};
use crate::reported::reported;
use crate::stuck::{BadEnd, standing_at};
use race_hub::{End, Recording};
use race_records::Trace;
use race_verdict::{Race, ReportedRace, Verdict};
use std::alloc::{AllocError, Allocator};

/// A variable with a race in some of the runs.
#[derive(Drop)]
pub struct RacyVariable<A: Allocator> {
    /// The race on it in the first of them.
    pub race: ReportedRace,
    /// In how many runs it has one.
    pub runs: u64,
    /// The picks of the first of them.
    pub picks: Vec<u64, A>,
}

/// What the runs of a program come to.
#[derive(Drop)]
pub struct Explored<A: Allocator> {
    alloc: A,
    /// How many runs were judged.
    pub runs: u64,
    /// How many were made, by their picks: those that were judged, and those that were skipped.
    pub made: u64,
    /// In how many main returned, and there was no race.
    pub clean: u64,
    /// How many had a race, however they ended.
    pub races: u64,
    /// How many ended in a deadlock.
    pub deadlocks: u64,
    /// How many ended since a goroutine failed.
    pub faults: u64,
    /// Whether these are all runs.
    pub whole: bool,
    /// The variables with a race in some run, in the order in which they were found.
    pub racy: Vec<RacyVariable<A>, A>,
    /// The ends other than main's return, in the order in which they were found.
    pub bad: Vec<BadEnd<A>, A>,
}

impl<A: Allocator> Explored<A> {
    /// How many of the runs that were made were skipped.
    pub fn skipped(&self) -> u64
        ensures { result ≡ self.now.made - self.now.runs }
    {
        self.made.saturating_sub(self.runs)
    }
}

impl<A: Allocator + Copy> Explored<A> {
    /// No run yet.
    pub(crate) fn new(alloc: A) -> Explored<A>
        ensures counts { Counts [] result }
        ensures racy { AreRacy [] result.racy.items }
        ensures bad { AreBadEnds [] result.bad.items }
        ensures made { result.made ≡ 0 }
        ensures whole { result.whole ≡ false }
    {
        Explored {
            alloc,
            runs: 0,
            made: 0,
            clean: 0,
            races: 0,
            deadlocks: 0,
            faults: 0,
            whole: false,
            racy: Vec::new(alloc),
            bad: Vec::new(alloc),
        }
    }

    /// Counts a run by these picks, with the verdict on its trace.
    pub(crate) fn count(
        &mut self,
        recording: &Recording<A>,
        verdict: &Verdict<A>,
        picks: &[u64],
    ) -> Result<(), AllocError>
        requires bounded { IsBounded self.old }
        requires few { All (λ v. v.runs ≤ self.old.runs) self.old.racy.items }
        requires few_ends { All (λ b. b.runs ≤ self.old.runs) self.old.bad.items }
        requires right { HasVerdict (spec.trace_of recording.now) (verdict_of verdict.now) }
        ensures counted { OnOk result (IsCounted recording.now.end (verdict_of verdict.now) self.old self.new) }
        ensures racy { OnOk result ((seen : List Looked) → AreRacy seen self.old.racy.items
            → AreRacy (seen ++ looked_of picks.now recording.now verdict.now ∷ []) self.new.racy.items) }
        ensures bad { OnOk result (CountsEndOf recording.now picks.now self.old.bad.items self.new.bad.items) }
    {
        self.count_races(recording, verdict, picks)?;
        self.count_bad(recording, picks)?;
        self.count_run(recording.end(), verdict);
        Ok(())
    }

    /// Counts a run that isn't looked at.
    pub(crate) fn skip(&mut self)
        requires { self.old.made < MAX_RUNS }
        ensures { self.new ≡ one_skipped self.old }
    {
        self.made += 1;
    }

    // One run more, which ended so and has this verdict.
    fn count_run(&mut self, end: End, verdict: &Verdict<A>)
        requires { IsBounded self.old }
        ensures counted { IsCounted end (verdict_of verdict.now) self.old self.new }
        ensures racy { self.new.racy.items ≡ self.old.racy.items }
        ensures bad { self.new.bad.items ≡ self.old.bad.items }
    {
        self.runs += 1;
        self.made += 1;
        self.clean += u64::from(is_clean_run(verdict, end));
        self.races += u64::from(is_racy(verdict));
        self.deadlocks += u64::from(is_deadlock(end));
        self.faults += u64::from(is_failed(end));
    }

    // Notes the races of a run.
    fn count_races(
        &mut self,
        recording: &Recording<A>,
        verdict: &Verdict<A>,
        picks: &[u64],
    ) -> Result<(), AllocError>
        requires bounded { IsBounded self.old }
        requires few { All (λ v. v.runs ≤ self.old.runs) self.old.racy.items }
        requires right { HasVerdict (spec.trace_of recording.now) (verdict_of verdict.now) }
        ensures same { OnOk result (HasSameCounts self.old self.new) }
        ensures racy { OnOk result ((seen : List Looked) → AreRacy seen self.old.racy.items
            → AreRacy (seen ++ looked_of picks.now recording.now verdict.now ∷ []) self.new.racy.items) }
        ensures bad { OnOk result (self.new.bad.items ≡ self.old.bad.items) }
    {
        let Verdict::Races(races) = verdict else {
            return Ok(());
        };
        for race in races.as_slice() {
            self.count_race(recording.trace(), *race, picks)?;
        }
        Ok(())
    }

    // Notes a race of a run.
    fn count_race(&mut self, trace: &Trace<A>, race: Race, picks: &[u64]) -> Result<(), AllocError>
        requires few { All (λ v. v.runs + 1 < 2 ^ 64) self.old.racy.items }
        requires accesses { AreAccesses trace.now.events (race_of race) }
        ensures same { OnOk result (HasSameCounts self.old self.new) }
        ensures racy { OnOk result
            (CountsRace trace.now.events picks.now (race_of race) self.old.racy.items self.new.racy.items) }
        ensures bad { OnOk result (self.new.bad.items ≡ self.old.bad.items) }
    {
        if let Some(place) = place_of(self.racy.as_slice(), race.var) {
            self.racy[place].runs += 1;
            return Ok(());
        }
        let picks = Vec::from_slice(self.alloc, picks)?;
        self.racy.push(RacyVariable {
            race: reported(trace, race),
            runs: 1,
            picks,
        })?;
        Ok(())
    }

    // Notes how a run ended, where main didn't return.
    fn count_bad(&mut self, recording: &Recording<A>, picks: &[u64]) -> Result<(), AllocError>
        requires { All (λ b. b.runs + 1 < 2 ^ 64) self.old.bad.items }
        ensures same { OnOk result (HasSameCounts self.old self.new) }
        ensures racy { OnOk result (self.new.racy.items ≡ self.old.racy.items) }
        ensures bad { OnOk result (CountsEndOf recording.now picks.now self.old.bad.items self.new.bad.items) }
    {
        let end = recording.end();
        if is_main(end) {
            return Ok(());
        }
        let standing = standing_at(self.alloc, recording)?;
        if let Some(place) = place_of_end(self.bad.as_slice(), end, standing.as_slice()) {
            self.bad[place].runs += 1;
            return Ok(());
        }
        let picks = Vec::from_slice(self.alloc, picks)?;
        self.bad.push(BadEnd {
            end,
            standing,
            runs: 1,
            picks,
        })?;
        Ok(())
    }
}

// There is no race, and main returned.
fn is_clean_run<A: Allocator>(verdict: &Verdict<A>, end: End) -> bool
    ensures { result ≡ spec.is_clean_run (verdict_of verdict.now) end }
{
    is_clean(verdict) && is_main(end)
}

// There is a race.
fn is_racy<A: Allocator>(verdict: &Verdict<A>) -> bool
    ensures { result ≡ spec.is_racy_verdict (verdict_of verdict.now) }
{
    match verdict {
        Verdict::Races(_) => true,
        Verdict::Clean => false,
        Verdict::Illegal(_) => false,
    }
}

// There is none.
fn is_clean<A: Allocator>(verdict: &Verdict<A>) -> bool
    ensures { result ≡ spec.is_clean_verdict (verdict_of verdict.now) }
{
    match verdict {
        Verdict::Races(_) => false,
        Verdict::Clean => true,
        Verdict::Illegal(_) => false,
    }
}

fn is_main(end: End) -> bool
    ensures { result ≡ spec.is_main_end end }
{
    matches!(end, End::Main)
}

fn is_deadlock(end: End) -> bool
    ensures { result ≡ spec.is_deadlock_end end }
{
    matches!(end, End::Deadlock)
}

fn is_failed(end: End) -> bool
    ensures { result ≡ spec.is_fault_end end }
{
    matches!(end, End::Fault)
}
