//! The fields of a hub, and what changes them. These contracts speak of the fields, so that a `Hub` is opened once a call.
ghost use Rattle.std.specs.Prelude.{◌≡◌, ◌<◌, ◌++◌, ◌∷◌, ◌&&◌, [], length, false, Some, is_none, OnOk, OnErr, IfOk, IfErr};
ghost use Rattle.race_records.specs.Events.{fits};
ghost use Rattle.race_model.specs.Events as model;
ghost use Rattle.race_legal.specs.StandsFor.{GoesOn, StandsFor};
ghost use Rattle.race_requests.specs.Sound as sound;
ghost use Rattle.race_hub.specs.{HubHolds.{hub_state, HubHolds}, Hub.{stop_of, end_of}, Firing.{CanAppend, IsFiring}, Fires.Fires};
ghost use Rattle.race_hub.specs.{Recording.HasEnded, Finish.{IsRecorded, IsMismatch}, Submits.{Takes, Submits, is_stray, ends_hub}};
ghost use Rattle.race_hub.specs.Hub as spec;
ghost use Rattle.race_hub.specs.Submits as submits;

use crate::firing::{Firing, started_in};
use crate::logs::Logs;
use crate::moves::{begin, make_room, named, take_first, take_out, tell};
use crate::track::least;
use crate::{Answer, End, Job, Mismatch, Recording, Waiter};
use race_legal::Replay;
use race_records::{Event, Op, Trace};
use race_requests::{is_out_of_turn, is_sound};
use std::alloc::{AllocError, Allocator, Global};

/// The fields of a hub, which `HubHolds` holds together.
pub(crate) struct Fields<R, A: Allocator = Global> {
    pub(crate) alloc: A,
    pub(crate) replay: Replay<A>,
    pub(crate) trace: Trace<A>,
    pub(crate) limit: u32,
    pub(crate) bad: Option<u32>,
    // The table of the goroutines: the routines, but for those whose job is out and those that ended, and the logs.
    pub(crate) routines: Vec<Option<R>, A>,
    pub(crate) logs: Logs<A>,
    pub(crate) ready: Vec<(u32, Answer), A>,
    pub(crate) waiting: Vec<Waiter, A>,
    pub(crate) out: Vec<u32, A>,
}

impl<R: Drop, A: Allocator> Drop for Fields<R, A> {
    fn drop(self) {
        let Fields {
            alloc: _,
            replay: _,
            trace: _,
            limit: _,
            bad: _,
            routines: _,
            logs: _,
            ready: _,
            waiting: _,
            out: _,
        } = self;
    }
}

// Whether main returned.
fn is_main_exit(event: &Event) -> bool
    ensures { result ≡ spec.is_main_exit event.now }
{
    match event.op {
        Op::Exit => event.who == 0,
        _ => false,
    }
}

// Whether a goroutine failed.
fn is_fault(event: &Event) -> bool
    ensures { result ≡ model.is_fault event.now.op }
{
    match event.op {
        Op::Fault(_) => true,
        _ => false,
    }
}

// Appends the event to the trace, and to the replay that stands for it.
fn append<A: Allocator>(
    replay: &mut Replay<A>,
    trace: &mut Trace<A>,
    event: Event,
) -> Result<(), AllocError>
    requires { CanAppend replay.old trace.old.decls trace.old.events event }
    ensures goes_on { OnOk result (GoesOn replay.old replay.new event) }
    ensures events { OnOk result (trace.new.events ≡ trace.old.events ++ event ∷ []) }
    ensures decls { trace.new.decls ≡ trace.old.decls }
    ensures err { OnErr result ((replay.new ≡ replay.old) × (trace.new.events ≡ trace.old.events)) }
{
    trace.reserve()?;
    let Ok(()) = replay.accept(&event) else {
        return Err(AllocError);
    };
    let Ok(()) = trace.push(event) else {
        unreachable!();
    };
    Ok(())
}

impl<R, A: Allocator> Fields<R, A> {
    /// What stops the hub, whoever is ready and whatever waits.
    #[tactic(auto, unfolding(crate::specs::Hub::stop_by))]
    pub(crate) fn stop(&self) -> Option<End>
        ensures { result ≡ stop_of (hub_state self.now) }
    {
        let len = self.trace.len();
        if len > 0 {
            let last = self.trace.event(len - 1);
            if is_main_exit(last) {
                return Some(End::Main);
            }
            if is_fault(last) {
                return Some(End::Fault);
            }
        }
        if let Some(goroutine) = self.bad {
            return Some(End::Bad(goroutine));
        }
        if len == self.limit as usize {
            Some(End::Limit)
        } else {
            None
        }
    }

    /// Lets the goroutine out that has been ready longest. Takes no memory.
    pub(crate) fn let_out(&mut self) -> Job<R, A>
    where
        A: Copy,
        requires holds { HubHolds self.old }
        requires some { 0 < length self.old.ready.items }
        ensures { Takes (hub_state self.old) result (hub_state self.new) × HubHolds self.new }
    {
        let (who, answer) = self.ready.remove(0);
        let Some(routine) = self.routines[who as usize].take() else {
            unreachable!();
        };
        let log = self.logs.take(self.alloc, who);
        self.out.push_reserved(who);
        Job::new(who, routine, answer, log)
    }

    // Whether the request is bad, while nothing stops the hub.
    fn is_bad(&self, waiter: &Waiter) -> bool
        requires { StandsFor self.now.trace.decls.declarations self.now.replay self.now.trace.events }
        ensures { result ≡ (is_none (stop_of (hub_state self.now)) && submits.is_bad (hub_state self.now) waiter.now) }
    {
        if self.stop().is_some() {
            return false;
        }
        if !is_sound(self.trace.decls(), waiter) {
            return true;
        }
        is_out_of_turn(&self.replay, self.waiting.as_slice(), waiter)
    }

    /// Puts a job back that was taken and has asked, and tells whether its request ends the hub; the job comes back where there
    /// is no room for it.
    pub(crate) fn put_back(&mut self, job: Job<R, A>) -> Result<bool, Job<R, A>>
    where
        R: Drop,
        requires holds { HubHolds self.old }
        requires back { is_stray (hub_state self.old) job ≡ false }
        ensures ok { IfOk result (λ bad. (bad ≡ ends_hub (hub_state self.old) job)
            × (Submits (hub_state self.old) job (hub_state self.new) × HubHolds self.new)) }
        ensures err { IfErr result (λ back. (back ≡ job) × (hub_state self.new ≡ hub_state self.old) × HubHolds self.new) }
    {
        if self.waiting.reserve(1).is_err() {
            return Err(job);
        }
        let (waiter, routine, log) = job.park();
        let who = waiter.who;
        let bad = self.is_bad(&waiter);
        self.waiting.push_reserved(waiter);
        self.routines[who as usize] = Some(routine);
        self.logs.put(who, log);
        take_first(&mut self.out, who);
        self.bad = named(self.bad, bad, who);
        Ok(bad)
    }

    /// Does what the firing says.
    pub(crate) fn perform(&mut self, firing: Firing) -> Result<(), AllocError>
    where
        R: Drop,
        requires holds { HubHolds self.old }
        requires on { stop_of (hub_state self.old) ≡ None }
        requires firing { IsFiring (hub_state self.old) firing }
        ensures ok { OnOk result (Fires (hub_state self.old) firing.choice (hub_state self.new) × HubHolds self.new) }
        ensures err { OnErr result ((hub_state self.new ≡ hub_state self.old) × HubHolds self.new) }
    {
        let Firing {
            choice,
            event,
            told,
            partner,
        } = firing;
        let started = started_in(&event.op);
        make_room(&mut self.ready, &mut self.out)?;
        append(&mut self.replay, &mut self.trace, event)?;
        let (waiter, other) = take_out(&mut self.waiting, choice);
        tell(
            &mut self.routines,
            &mut self.logs,
            &mut self.ready,
            Some(waiter),
            told,
        );
        tell(
            &mut self.routines,
            &mut self.logs,
            &mut self.ready,
            other,
            partner,
        );
        begin(&mut self.ready, started);
        Ok(())
    }

    /// The recording of a hub that has ended so, where every job is back and each log is its goroutine's part of the trace.
    /// Takes no memory.
    pub(crate) fn recorded(self, end: End) -> Result<Recording<A>, Mismatch>
    where
        R: Drop,
        requires holds { HubHolds self }
        requires ended { end_of (hub_state self) ≡ Some end }
        ensures ok { IfOk result (λ recording. IsRecorded (hub_state self) recording) }
        ensures end { IfOk result (λ recording. HasEnded self.limit recording) }
        ensures err { IfErr result (λ mismatch. IsMismatch (hub_state self) mismatch) }
    {
        if let Some(goroutine) = least(self.out.as_slice()) {
            return Err(Mismatch::Out(goroutine));
        }
        let Fields {
            alloc: _,
            replay: _,
            trace,
            limit: _,
            bad: _,
            routines: _,
            logs,
            ready: _,
            waiting,
            out: _,
        } = self;
        match logs.compare(trace.events()) {
            Ok(tracks) => Ok(Recording::new(trace, tracks, waiting, end)),
            Err(goroutine) => Err(Mismatch::Log(goroutine)),
        }
    }
}
