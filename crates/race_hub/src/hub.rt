//! The hub: the goroutines of a run, their requests, and the trace that they make.
ghost use Rattle.std.specs.Prelude.{◌≡◌, ◌≢◌, ◌⊎◌, [], length, Some, None, Ok, Err};
ghost use Rattle.std.specs.Prelude.{true, false, ◌≤◌, ◌==◌, ◌&&◌, nat_lt, is_none, IsTrue, All, IfOk, IfErr, IfSome, IsNone, OnOk};
ghost use Rattle.std.specs.{Prelude.OnErr, List.find, Option.{option_copied, option_map}};
ghost use Rattle.race_records.specs.Refusal.{Refuses, AllowsUnless};
ghost use Rattle.race_records.specs.{declared.{kind.Kind.Kind, trace.TheConstants.MAX_EVENTS}, Declarations.{capacity_of, count_of}};
ghost use Rattle.race_model.specs.Legal.{IsLegal};
ghost use Rattle.race_requests.specs.Search.{picked};
ghost use Rattle.race_hub.specs.{Kept.IsKept, Hub.{choices_of, stop_of, end_of}, Opening.{hub_fault, IsOpening}};
ghost use Rattle.race_hub.specs.{Firing.IsFiring, Fires.IsFired, Submits.{Takes, Submits}, Job.JobState};
ghost use Rattle.race_hub.specs.{Recording.HasEnded, Finish.{IsRecorded, IsMismatch}};
ghost use Rattle.race_hub.specs.Hub as spec;
ghost use Rattle.race_requests.specs.Sound as sound;
ghost use Rattle.race_hub.specs.Submits as submits;

use crate::fields::Fields;
use crate::firing::{Firing, firing_of};
use crate::moves::is_among;
use crate::opening::{HubFault, fault_of, seated};
use crate::waiters::request_of;
use crate::{
    Answer, Choice, End, Found, Job, Mismatch, Recording, Request, Waiter, WaitingList, find,
};
use race_legal::Replay;
use race_records::{Decls, Kind, Trace};
use std::alloc::{AllocError, Allocator, Global};
use std::marker::Model;

/// What came of a job that wasn't put back as it should be. The last that holds is told.
#[derive(Drop)]
pub enum SubmitFault<R, A: Allocator = Global> {
    /// The request is bad. The hub keeps the job, and has ended.
    BadRequest,
    /// A growth was refused. The job comes back.
    OutOfMemory(Job<R, A>),
    /// The job wasn't taken from this hub, or it has asked nothing. It comes back.
    Stray(Job<R, A>),
}

/// The goroutines of a run, their requests, and the trace that they make.
#[derive(Drop)]
pub struct Hub<R, A: Allocator = Global> {
    fields: Fields<R, A>,
}

impl<R, A: Allocator> Model for Hub<R, A> {
    ghost use Rattle.race_hub.specs.Hub.{HubState};

    ghost Value = { HubState R };

    ghost use Rattle.race_hub.specs.HubHolds.{hub_state, HubHolds};

    ghost view = { λ h. hub_state h.fields };

    ghost invariant = { λ h. HubHolds h.fields };
}

// Both hold.
fn both(this: bool, that: bool) -> bool
    ensures { result ≡ (this && that) }
{
    this && that
}

impl<R: Drop, A: Allocator + Copy> Hub<R, A> {
    /// The hub of these declarations, which may make as many events as the limit says, with a routine for each goroutine,
    /// main first. Main is ready, and nobody else was started.
    pub fn new(
        alloc: A,
        decls: Decls<A>,
        limit: u32,
        routines: Vec<R, A>,
    ) -> Result<Hub<R, A>, HubFault>
        ensures refused { Refuses (hub_fault decls limit (length routines.items)) result }
        ensures allowed { AllowsUnless (hub_fault decls limit (length routines.items)) result HubFault.OutOfMemory }
        ensures ok { IfOk result (λ hub. IsOpening decls limit routines.items hub) }
    {
        match fault_of(&decls, limit, routines.len()) {
            Some(fault) => Err(fault),
            None => match Hub::open(alloc, decls, limit, routines) {
                Ok(hub) => Ok(hub),
                Err(_) => Err(HubFault::OutOfMemory),
            },
        }
    }

    // The hub before its first event.
    fn open(
        alloc: A,
        decls: Decls<A>,
        limit: u32,
        routines: Vec<R, A>,
    ) -> Result<Hub<R, A>, AllocError>
        requires count { length routines.items ≡ count_of Kind.Goroutine decls.declarations }
        requires few { limit ≤ MAX_EVENTS }
        ensures { IfOk result (λ hub. IsOpening decls limit routines.items hub) }
    {
        // A proof knows how many goroutines there may be once they are counted.
        let _count = decls.count(Kind::Goroutine);
        let replay = Replay::new(alloc, &decls)?;
        let (routines, logs) = seated(alloc, routines)?;
        let mut ready = Vec::new(alloc);
        ready.push((0, Answer::Begin))?;
        // For main, and for the three that the first event asks room for.
        let out = Vec::with_capacity(alloc, 4)?;
        Ok(Hub {
            fields: Fields {
                alloc,
                replay,
                trace: Trace::new(decls),
                limit,
                bad: None,
                routines,
                logs,
                ready,
                waiting: Vec::new(alloc),
                out,
            },
        })
    }
}

impl<R, A: Allocator> Hub<R, A> {
    /// The trace so far: it is legal, and has no more events than it may have.
    pub fn trace(&self) -> &Trace<A>
        ensures decls { result.now.decls ≡ self.now.decls }
        ensures events { result.now.events ≡ self.now.events }
        ensures legal { IsLegal (capacity_of self.now.decls.declarations) self.now.events }
        ensures limited { length self.now.events ≤ self.now.limit }
    {
        &self.fields.trace
    }

    /// How many events there may be.
    pub fn limit(&self) -> u32
        ensures { result ≡ self.now.limit }
    {
        self.fields.limit
    }

    /// How many goroutines are ready.
    pub fn ready(&self) -> usize
        ensures { result ≡ length self.now.ready }
    {
        self.fields.ready.len()
    }

    /// How many jobs were taken and aren't back.
    pub fn out(&self) -> usize
        ensures { result ≡ length self.now.out }
    {
        self.fields.out.len()
    }

    /// What the goroutine asks that waits, if it waits.
    pub fn waiting(&self, goroutine: u32) -> Option<&Request>
        ensures { option_copied result ≡ option_map (λ w. w.asked) (find (λ w. w.who == goroutine) self.now.waiting) }
    {
        request_of(self.fields.waiting.as_slice(), goroutine)
    }

    // What stops the hub, whoever is ready and whatever waits.
    fn stop(&self) -> Option<End>
        ensures { result ≡ stop_of self.now }
    {
        self.fields.stop()
    }

    // Where the run stands, and what waits.
    #[inline(always)]
    fn list(&self) -> WaitingList<A, A>
        requires { stop_of self.now ≡ None }
        ensures list { result ≡ spec.list_of self.now }
        ensures sound { All (λ w. IsTrue (sound.is_sound self.now.decls w)) self.now.waiting }
        ensures kept { IsKept self.now }
        ensures count { length self.now.routines ≡ count_of Kind.Goroutine self.now.decls.declarations }
    {
        WaitingList::new(
            &self.fields.replay,
            &self.fields.trace,
            self.fields.waiting.as_slice(),
        )
    }

    // The requests that wait.
    fn requests(&self) -> &[Waiter]
        ensures { result.now ≡ self.now.waiting }
    {
        self.fields.waiting.as_slice()
    }

    // The choice number `pick`, modulo their count.
    fn pick(&self, pick: u64) -> Option<Choice>
        requires { stop_of self.now ≡ None }
        ensures picked { result ≡ picked pick (choices_of self.now) }
        ensures none { IsNone result → choices_of self.now ≡ [] }
    {
        self.list().pick(pick)
    }

    // Whether every running goroutine waits, and there is no choice.
    fn is_deadlock(&self) -> bool
        requires { stop_of self.now ≡ None }
        ensures { result ≡ spec.is_deadlock self.now }
    {
        self.fields.ready.is_empty() && self.fields.out.is_empty() && self.pick(0).is_none()
    }

    /// How the hub has ended, if it has. Takes no memory.
    pub fn end(&self) -> Option<End>
        ensures { result ≡ end_of self.now }
    {
        match self.stop() {
            Some(end) => Some(end),
            None => if self.is_deadlock() {
                Some(End::Deadlock)
            } else {
                None
            },
        }
    }

    /// Whether there is a choice of this number, counted from 0; there is none where the hub has ended. Takes no memory.
    pub fn has_choice(&self, number: u64) -> bool
        ensures { result ≡ (is_none (stop_of self.now) && nat_lt number (length (choices_of self.now))) }
    {
        if self.stop().is_some() {
            return false;
        }
        match find(&self.list(), number) {
            Found::At(_) => true,
            Found::Left(_) => false,
        }
    }

    /// The goroutine that has been ready longest, to let it go on elsewhere; none where nobody is ready or the hub has ended.
    /// Takes no memory.
    pub fn take(&mut self) -> Option<Job<R, A>>
    where
        A: Copy,
        ensures some { IfSome result (λ job. (end_of self.old ≡ None) × Takes self.old job self.new) }
        ensures none { IsNone result → (self.new ≡ self.old) × ((end_of self.old ≢ None) ⊎ (self.old.ready ≡ [])) }
    {
        if self.fields.ready.is_empty() || self.stop().is_some() {
            return None;
        }
        Some(self.fields.let_out())
    }

    // Whether the job was taken from here and has asked since.
    fn is_back(&self, job: &Job<R, A>) -> bool
        ensures { result ≡ submits.is_back self.now job.now }
    {
        both(
            job.has_asked(),
            is_among(self.fields.out.as_slice(), job.who()),
        )
    }

    /// Puts a job back that was taken and has asked: its request waits behind the others. Once the hub has ended no request is
    /// tested.
    pub fn submit(&mut self, job: Job<R, A>) -> Result<(), SubmitFault<R, A>>
    where
        R: Drop,
        ensures stray { submits.is_stray self.old job ≡ true → (result ≡ Err (SubmitFault.Stray job)) × (self.new ≡ self.old) }
        ensures only { (back : JobState R) → result ≡ Err (SubmitFault.Stray back) → submits.is_stray self.old job ≡ true }
        ensures memory { (back : JobState R) → result ≡ Err (SubmitFault.OutOfMemory back) → (back ≡ job) × (self.new ≡ self.old) }
        ensures bad { result ≡ Err SubmitFault.BadRequest → (submits.ends_hub self.old job ≡ true) × Submits self.old job self.new }
        ensures ok { OnOk result ((submits.ends_hub self.old job ≡ false) × Submits self.old job self.new) }
    {
        if !self.is_back(&job) {
            return Err(SubmitFault::Stray(job));
        }
        match self.fields.put_back(job) {
            Ok(true) => Err(SubmitFault::BadRequest),
            Ok(false) => Ok(()),
            Err(job) => Err(SubmitFault::OutOfMemory(job)),
        }
    }

    // What a firing of this pick is to do, if there is a choice.
    fn next_firing(&self, pick: u64) -> Option<Firing>
        requires { stop_of self.now ≡ None }
        ensures some { IfSome result (λ f. (picked pick (choices_of self.now) ≡ Some f.choice) × IsFiring self.now f) }
        ensures none { IsNone result → choices_of self.now ≡ [] }
    {
        let list = self.list();
        let Some(choice) = list.pick(pick) else {
            return None;
        };
        let Some(event) = list.event_of(choice) else {
            unreachable!();
        };
        Some(firing_of(self.requests(), choice, event))
    }

    /// Lets the choice number `pick`, modulo the count of choices, happen: one event more, and who takes part is ready again.
    /// False where there is no choice or the hub has ended. Where it is false or refused, nothing is changed.
    pub fn fire(&mut self, pick: u64) -> Result<bool, AllocError>
    where
        R: Drop,
        A: Copy,
        ensures fired { IfOk result (λ b. b ≡ true → IsFired pick self.old self.new) }
        ensures idle { IfOk result (λ b. b ≡ false → (self.new ≡ self.old) × ((end_of self.old ≢ None) ⊎ (choices_of self.old ≡ []))) }
        ensures err { OnErr result (self.new ≡ self.old) }
    {
        if self.stop().is_some() {
            return Ok(false);
        }
        match self.next_firing(pick) {
            Some(firing) => {
                self.fields.perform(firing)?;
                Ok(true)
            }
            None => Ok(false),
        }
    }

    /// The recording of the run, where the hub has ended, every job is back, and each log is its goroutine's part of the
    /// trace. Takes no memory.
    pub fn finish(self) -> Result<Recording<A>, Mismatch>
    where
        R: Drop,
        ensures ok { IfOk result (λ recording. IsRecorded self recording) }
        ensures end { IfOk result (λ recording. HasEnded self.limit recording) }
        ensures err { IfErr result (λ mismatch. IsMismatch self mismatch) }
    {
        let Some(end) = self.end() else {
            return Err(Mismatch::NotEnded);
        };
        let Hub { fields } = self;
        fields.recorded(end)
    }
}
