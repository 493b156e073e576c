//! How far a trace has come along the logs of its goroutines: one pass over the events with a place in each log.
ghost use Rattle.std.specs.Prelude.{ℕ, ◌≡◌, ◌≤◌, ◌<◌, ◌++◌, ◌∷◌, [], List, true, length, slice_get, Some, IfSome, IsNone};
ghost use Rattle.race_records.specs.{declared.{event.{Event.{Event as EventValue}}, kind.TheConstants.MAX_GOROUTINES}};
ghost use Rattle.race_hub.specs.{Tracks.{TrackState, IsPassed, IsTracked, is_in_part, HavePassed}, Finish.IsLeast};
ghost use Rattle.race_hub.specs.Tracks.{OneHasPassed, IsFirstOther};
ghost use Rattle.race_hub.specs.Tracks as spec;

use crate::firing::started_in;
use crate::{Log, Step, fits_step};
use race_records::{Event, Op};
use std::alloc::{Allocator, Global};
use std::marker::Model;
use std::mem;

/// The log of a goroutine, and how many of its steps the events so far have: none where they aren't its first.
#[derive(Drop)]
pub(crate) struct Track<A: Allocator = Global> {
    log: Log<A>,
    passed: Option<usize>,
}

impl<A: Allocator> Model for Track<A> {
    ghost use Rattle.race_hub.specs.Tracks.{TrackState};

    ghost Value = { TrackState };

    ghost view = { λ t. record { log = t.log.items; has_room = t.log.has_room; passed = t.passed } };
}

impl<A: Allocator> Track<A> {
    /// A log before the first event.
    pub(crate) fn new(log: Log<A>) -> Track<A>
        ensures { result ≡ record { log = log.items; has_room = log.has_room; passed = Some 0 } }
    {
        Track {
            log,
            passed: Some(0),
        }
    }

    /// The log.
    pub(crate) fn log(&self) -> &Log<A>
        ensures { result.now.items ≡ self.now.log }
    {
        &self.log
    }

    /// The log that was here, and this one in its place.
    pub(crate) fn replace(&mut self, log: Log<A>) -> Log<A>
        ensures log { self.new.log ≡ log.items }
        ensures passed { self.new.passed ≡ self.old.passed }
        ensures old { result.items ≡ self.old.log }
    {
        mem::replace(&mut self.log, log)
    }

    /// Puts a step last in the log, which has room. Takes no memory.
    #[inline(always)]
    pub(crate) fn push_reserved(&mut self, step: Step)
        requires { self.old.has_room ≡ true }
        ensures log { self.new.log ≡ self.old.log ++ step ∷ [] }
        ensures passed { self.new.passed ≡ self.old.passed }
    {
        self.log.push_reserved(step);
    }

    // How many steps are passed with one event more of its goroutine's part.
    fn passed_with(&self, goroutine: u32, event: &Event) -> Option<usize>
        requires { is_in_part goroutine event.now ≡ true }
        ensures { (past : List EventValue) → IsTracked goroutine past self.now
            → IsPassed goroutine self.now.log (past ++ event.now ∷ []) result }
    {
        let at = self.passed?;
        if at < self.log.len() && fits_step(goroutine, &self.log.step(at), event) {
            Some(at + 1)
        } else {
            None
        }
    }

    // Passes an event of its goroutine's part.
    fn pass(&mut self, goroutine: u32, event: &Event)
        requires { is_in_part goroutine event.now ≡ true }
        ensures log { self.new.log ≡ self.old.log }
        ensures tracked { (past : List EventValue) → IsTracked goroutine past self.old
            → IsTracked goroutine (past ++ event.now ∷ []) self.new }
    {
        self.passed = self.passed_with(goroutine, event);
    }
}

// Who does the event, but for who starts itself.
fn asker_of(event: &Event) -> Option<u32>
    ensures { result ≡ spec.asker_of event.now }
{
    match event.op {
        Op::Go(goroutine) => if goroutine == event.who {
            None
        } else {
            Some(event.who)
        },
        _ => Some(event.who),
    }
}

// The other goroutine that receives in a meet.
fn receiver_of(event: &Event) -> Option<u32>
    ensures { result ≡ spec.receiver_of event.now }
{
    match event.op {
        Op::Meet(receiver, _, _) => if receiver == event.who {
            None
        } else {
            Some(receiver)
        },
        _ => None,
    }
}

// Passes the event by the log of a goroutine, in whose part it stands.
fn pass_by<A: Allocator>(tracks: &mut Vec<Track<A>, A>, goroutine: Option<u32>, event: &Event)
    requires { IfSome goroutine (λ g. is_in_part g event.now ≡ true) }
    ensures { OneHasPassed goroutine event.now tracks.old.items tracks.new.items }
{
    if let Some(goroutine) = goroutine {
        if (goroutine as usize) < tracks.len() {
            tracks[goroutine as usize].pass(goroutine, event);
        }
    }
}

// Passes the event by the logs of all that take part in it.
fn pass<A: Allocator>(tracks: &mut Vec<Track<A>, A>, event: &Event)
    ensures { HavePassed (event.now ∷ []) tracks.old.items tracks.new.items }
{
    pass_by(tracks, asker_of(event), event);
    pass_by(tracks, receiver_of(event), event);
}

/// Passes the events by the logs.
pub(crate) fn pass_all<A: Allocator>(tracks: &mut Vec<Track<A>, A>, events: &[Event])
    ensures { HavePassed events.now tracks.old.items tracks.new.items }
{
    for event in events {
        pass(tracks, event);
    }
}

// Whether the events have all of the log.
fn is_through<A: Allocator>(track: &Track<A>) -> bool
    ensures { result ≡ spec.is_through track.now }
{
    match track.passed {
        Some(passed) => passed == track.log.len(),
        None => false,
    }
}

/// The least goroutine whose log isn't its part of the events that were passed, if there is one.
pub(crate) fn first_other<A: Allocator>(tracks: &[Track<A>]) -> Option<u32>
    requires { length tracks.now ≤ MAX_GOROUTINES }
    ensures { (events : List EventValue) → ((g : ℕ) (t : TrackState) → slice_get tracks.now g ≡ Some t → IsTracked g events t)
        → IsFirstOther tracks.now events result }
{
    for goroutine in 0..tracks.len() {
        if !is_through(&tracks[goroutine]) {
            return Some(goroutine as u32);
        }
    }
    None
}

/// The least of the numbers, if there is one.
pub(crate) fn least(numbers: &[u32]) -> Option<u32>
    ensures some { IfSome result (λ g. IsLeast g numbers.now) }
    ensures none { IsNone result → numbers.now ≡ [] }
{
    numbers.iter().copied().min()
}
