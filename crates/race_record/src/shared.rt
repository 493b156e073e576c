//! What the workers share under the lock, and what each does there.
ghost use Rattle.std.specs.Prelude.{◌≡◌, ◌≢◌, ◌≤◌, ◌⊎◌, [], Bool, true, false, Some, None, IfSome, IsSome, nat_le};
ghost use Rattle.std.specs.Prelude.{length};
ghost use Rattle.rand_xoshiro.specs.SplitMix64.{mix_u64};
ghost use Rattle.race_hub.specs.{Hub.end_of, Job.JobState, Fires.IsFired, Submits.{Takes, Submits, is_stray}};
ghost use Rattle.race_record.specs.{Serial.IsTurned, Stops.rank};

use race_hub::{Hub, Job, Routine, SubmitFault};
use rand_core::SeedableRng;
use rand_core::utils::NextWord;
use rand_xoshiro::SplitMix64;
use std::alloc::Allocator;

/// Why all workers leave although the hub hasn't ended.
#[derive(Clone, Copy)]
pub(crate) enum Stop {
    /// A worker could not be started.
    NoThread,
    /// A growth was refused.
    OutOfMemory,
    /// The hub didn't take a job back.
    Stray,
}

/// What stands under the lock: the hub, the pick of its next event, where the picks behind it come from, and why all
/// workers leave, if they are to.
pub(crate) struct Shared<R, A: Allocator> {
    hub: Hub<R, A>,
    pick: u64,
    picks: SplitMix64,
    stop: Option<Stop>,
}

impl<R: Drop, A: Allocator> Drop for Shared<R, A> {
    fn drop(self) {
        let Shared {
            hub: _,
            pick: _,
            picks: _,
            stop: _,
        } = self;
    }
}

/// What a worker is to do next.
pub(crate) enum Turn<R, A: Allocator> {
    /// Let this goroutine go on, while it doesn't hold the lock.
    Run(Job<R, A>),
    /// Come again: an event happened. Whether two goroutines are ready since, of which another worker may take one.
    Fired(bool),
    /// Wait: nothing is to be done before a job is back. Who finds work for two wakes another, and the end wakes all.
    Wait,
    /// Leave: the hub has ended, or all are to leave.
    Leave,
}

/// A job that was let go on, with no lock held.
pub(crate) enum Turned<R, A: Allocator> {
    /// It has asked.
    Asked(Job<R, A>),
    /// Memory was refused to it, and it stays as it was.
    Refused(Job<R, A>),
}

/// Lets the goroutine go on up to its next request.
pub(crate) fn let_go_on<R: Routine, A: Allocator + Copy>(job: Job<R, A>) -> Turned<R, A>
    ensures asked { (new : JobState R) → result ≡ Turned.Asked new
        → IsTurned R.asks job.asked job new × IsSome new.asked }
    ensures refused { (same : JobState R) → result ≡ Turned.Refused same → same ≡ job }
{
    let mut job = job;
    match job.turn() {
        Ok(_) => Turned::Asked(job),
        Err(_) => Turned::Refused(job),
    }
}

impl<R: Routine, A: Allocator + Copy> Shared<R, A> {
    /// The hub with the picks of this seed.
    pub(crate) fn new(hub: Hub<R, A>, seed: u64) -> Shared<R, A>
        ensures hub { result.hub ≡ hub }
        ensures seeded { (result.pick, result.picks) ≡ mix_u64 seed }
        ensures stop { result.stop ≡ None }
    {
        let mut picks = SplitMix64::seed_from_u64(seed);
        let pick = picks.next_word();
        Shared {
            hub,
            pick,
            picks,
            stop: None,
        }
    }

    /// Makes one step of the hub, if there is one to make: whoever has been ready longest is taken, or else the choice of the
    /// next pick happens.
    pub(crate) fn step(&mut self) -> Turn<R, A>
        ensures run { (job : JobState R) → result ≡ Turn.Run job
            → (end_of self.old.hub ≡ None) × Takes self.old.hub job self.new.hub }
        ensures fired { (two : Bool) → result ≡ Turn.Fired two → IsFired self.old.pick self.old.hub self.new.hub }
        ensures idle { (two : Bool) → result ≡ Turn.Fired two → self.old.hub.ready ≡ [] }
        ensures two { (two : Bool) → result ≡ Turn.Fired two → two ≡ nat_le 2 (length self.new.hub.ready) }
        ensures uses { (two : Bool) → result ≡ Turn.Fired two → (self.new.pick, self.new.picks) ≡ mix_u64 self.old.picks }
        ensures keeps { ((two : Bool) → result ≢ Turn.Fired two)
            → (self.new.pick ≡ self.old.pick) × (self.new.picks ≡ self.old.picks) }
        ensures stopped { self.old.stop ≢ None → result ≡ Turn.Leave }
        ensures memory { self.old.stop ≡ None → IfSome self.new.stop (λ stop. stop ≡ Stop.OutOfMemory) }
        ensures wait { result ≡ Turn.Wait → (self.new.hub ≡ self.old.hub) × (end_of self.old.hub ≡ None) }
        ensures leave { result ≡ Turn.Leave
            → (self.new.hub ≡ self.old.hub) × ((end_of self.old.hub ≢ None) ⊎ (self.new.stop ≢ None)) }
    {
        if self.stop.is_some() {
            return Turn::Leave;
        }
        match self.hub.take() {
            Some(job) => Turn::Run(job),
            None => self.fire_next(),
        }
    }

    // The choice of the next pick happens, if there is one; each event uses up a pick.
    fn fire_next(&mut self) -> Turn<R, A>
        ensures run { (job : JobState R) → result ≢ Turn.Run job }
        ensures memory { self.old.stop ≡ None → IfSome self.new.stop (λ stop. stop ≡ Stop.OutOfMemory) }
        ensures fired { (two : Bool) → result ≡ Turn.Fired two → IsFired self.old.pick self.old.hub self.new.hub }
        ensures two { (two : Bool) → result ≡ Turn.Fired two → two ≡ nat_le 2 (length self.new.hub.ready) }
        ensures uses { (two : Bool) → result ≡ Turn.Fired two → (self.new.pick, self.new.picks) ≡ mix_u64 self.old.picks }
        ensures keeps { ((two : Bool) → result ≢ Turn.Fired two)
            → (self.new.pick ≡ self.old.pick) × (self.new.picks ≡ self.old.picks) }
        ensures wait { result ≡ Turn.Wait → (self.new.hub ≡ self.old.hub) × (end_of self.old.hub ≡ None) }
        ensures leave { result ≡ Turn.Leave
            → (self.new.hub ≡ self.old.hub) × ((end_of self.old.hub ≢ None) ⊎ (self.new.stop ≢ None)) }
    {
        match self.hub.fire(self.pick) {
            Ok(true) => {
                self.pick = self.picks.next_word();
                Turn::Fired(self.hub.ready() >= 2)
            }
            Ok(false) => if self.hub.end().is_some() {
                Turn::Leave
            } else {
                Turn::Wait
            },
            Err(_) => {
                self.leave_for(Stop::OutOfMemory);
                Turn::Leave
            }
        }
    }

    /// Puts back a job that has asked since it was taken; or, where memory was refused to it, all workers are to leave, and the
    /// hub counts it as out for ever.
    pub(crate) fn settle(&mut self, turned: Turned<R, A>)
        ensures refused { (job : JobState R) → turned ≡ Turned.Refused job
            → (self.new.hub ≡ self.old.hub) × (self.new.stop ≢ None) }
        ensures back { (job : JobState R) → turned ≡ Turned.Asked job
            → Submits self.old.hub job self.new.hub ⊎ ((self.new.hub ≡ self.old.hub) × (self.new.stop ≢ None)) }
        ensures stray { (job : JobState R) → turned ≡ Turned.Asked job → self.old.stop ≡ None
            → is_stray self.old.hub job ≡ true → self.new.stop ≡ Some Stop.Stray }
        ensures kept { (job : JobState R) → turned ≡ Turned.Asked job → self.old.stop ≡ None
            → is_stray self.old.hub job ≡ false → IfSome self.new.stop (λ stop. stop ≡ Stop.OutOfMemory) }
        ensures memory { (job : JobState R) → turned ≡ Turned.Refused job → self.old.stop ≡ None
            → self.new.stop ≡ Some Stop.OutOfMemory }
    {
        match turned {
            Turned::Asked(job) => self.put_back(job),
            Turned::Refused(_) => self.leave_for(Stop::OutOfMemory),
        }
    }

    // Puts back a job that has asked since it was taken.
    fn put_back(&mut self, job: Job<R, A>)
        ensures back { Submits self.old.hub job self.new.hub ⊎ ((self.new.hub ≡ self.old.hub) × (self.new.stop ≢ None)) }
        ensures stray { self.old.stop ≡ None → is_stray self.old.hub job ≡ true → self.new.stop ≡ Some Stop.Stray }
        ensures memory { self.old.stop ≡ None → is_stray self.old.hub job ≡ false
            → IfSome self.new.stop (λ stop. stop ≡ Stop.OutOfMemory) }
    {
        match self.hub.submit(job) {
            Ok(()) => {}
            // It has ended the hub.
            Err(SubmitFault::BadRequest) => {}
            Err(SubmitFault::OutOfMemory(_)) => self.leave_for(Stop::OutOfMemory),
            Err(SubmitFault::Stray(_)) => self.leave_for(Stop::Stray),
        }
    }

    /// The hub, and why all workers left it, if that was not its end.
    pub(crate) fn into_parts(self) -> (Hub<R, A>, Option<Stop>)
        ensures hub { result.0 ≡ self.hub }
        ensures stop { result.1 ≡ self.stop }
    {
        let Shared {
            hub,
            pick: _,
            picks: _,
            stop,
        } = self;
        (hub, stop)
    }

    /// All workers are to leave. That one could not be started is told before all else, and want of memory before a stray job.
    pub(crate) fn leave_for(&mut self, why: Stop)
        ensures hub { self.new.hub ≡ self.old.hub }
        ensures stop { self.new.stop ≢ None }
        ensures one { IfSome self.new.stop (λ stop. (stop ≡ why) ⊎ (self.old.stop ≡ Some stop)) }
        ensures first { IfSome self.new.stop (λ stop. rank stop ≤ rank why) }
        ensures keeps { (self.new.pick ≡ self.old.pick) × (self.new.picks ≡ self.old.picks) }
    {
        self.stop = Some(first_of(self.stop, why));
    }
}

// Which of two is told: the first in the order of faults.
fn first_of(known: Option<Stop>, why: Stop) -> Stop
    ensures one { (result ≡ why) ⊎ (known ≡ Some result) }
    ensures before { IfSome known (λ other. rank result ≤ rank other) }
    ensures first { rank result ≤ rank why }
{
    match (known, why) {
        (Some(Stop::NoThread), _) => Stop::NoThread,
        (_, Stop::NoThread) => Stop::NoThread,
        (Some(Stop::OutOfMemory), _) => Stop::OutOfMemory,
        (_, why) => why,
    }
}
