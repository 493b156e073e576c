//! The logs of a hub's goroutines, by number.
ghost use Rattle.std.specs.Prelude.{ℕ, ◌≡◌, ◌≢◌, ◌≤◌, ◌<◌, ◌++◌, ◌∷◌, [], true, length, slice_get, slice_set, Some};
ghost use Rattle.std.specs.Prelude.{OnOk, IfOk, IfErr};
ghost use Rattle.race_records.specs.declared.kind.TheConstants.{MAX_GOROUTINES};
ghost use Rattle.race_hub.specs.{Logs.{with_step, logs_in}, Finish.IsLeastOther, Recording.AreParts};

use crate::track::{Track, first_other, pass_all};
use crate::{Answer, Log, Step, Waiter};
use race_records::Event;
use std::alloc::{AllocError, Allocator, Global};
use std::marker::Model;

/// The logs of all goroutines, by number.
#[derive(Drop)]
pub(crate) struct Logs<A: Allocator = Global> {
    tracks: Vec<Track<A>, A>,
}

impl<A: Allocator> Model for Logs<A> {
    ghost use Rattle.race_hub.specs.Logs.{LogsState};

    ghost Value = { LogsState };

    ghost use Rattle.race_hub.specs.LogsHolds.{logs_state, LogsHolds};

    ghost view = { logs_state };

    ghost invariant = { LogsHolds };
}

impl<A: Allocator + Copy> Logs<A> {
    /// No logs. Takes no memory.
    pub(crate) fn new(alloc: A) -> Logs<A>
        ensures { result.logs ≡ [] }
    {
        Logs {
            tracks: Vec::new(alloc),
        }
    }

    /// Puts a log without a step last.
    pub(crate) fn push_blank(&mut self, alloc: A) -> Result<(), AllocError>
        ensures { OnOk result (self.new.logs ≡ self.old.logs ++ [] ∷ []) }
    {
        self.tracks.push(Track::new(Log::new(alloc)))?;
        Ok(())
    }

    /// Takes the goroutine's log out, and leaves one without a step. Takes no memory.
    pub(crate) fn take(&mut self, alloc: A, goroutine: u32) -> Log<A>
        requires { goroutine < length self.old.logs }
        ensures log { slice_get self.old.logs goroutine ≡ Some result.items }
        ensures logs { self.new.logs ≡ slice_set self.old.logs goroutine [] }
        ensures others { (k : ℕ) → k ≢ goroutine → slice_get self.new.have_room k ≡ slice_get self.old.have_room k }
    {
        self.tracks[goroutine as usize].replace(Log::new(alloc))
    }
}

impl<A: Allocator> Logs<A> {
    /// Puts the goroutine's log, which has room, in its place.
    pub(crate) fn put(&mut self, goroutine: u32, log: Log<A>)
        requires within { goroutine < length self.old.logs }
        requires room { log.has_room ≡ true }
        ensures logs { self.new.logs ≡ slice_set self.old.logs goroutine log.items }
        ensures room { slice_get self.new.have_room goroutine ≡ Some true }
        ensures others { (k : ℕ) → k ≢ goroutine → slice_get self.new.have_room k ≡ slice_get self.old.have_room k }
    {
        self.tracks[goroutine as usize] = Track::new(log);
    }

    /// Who waited is told this, or nothing: a step more in its log, which has room. Takes no memory.
    #[inline(always)]
    pub(crate) fn tell(&mut self, waiter: Waiter, told: Option<Answer>)
        requires { slice_get self.old.have_room waiter.who ≡ Some true }
        ensures logs { self.new.logs ≡ with_step (Some waiter) told self.old.logs }
        ensures others { (k : ℕ) → k ≢ waiter.who → slice_get self.new.have_room k ≡ slice_get self.old.have_room k }
    {
        self.tracks[waiter.who as usize].push_reserved(Step {
            asked: waiter.asked,
            told,
        });
    }

    /// The logs, where each is its goroutine's part of the events; else the least goroutine whose log isn't. Takes no memory.
    pub(crate) fn compare(self, events: &[Event]) -> Result<Vec<Track<A>, A>, u32>
        requires { length self.logs ≤ MAX_GOROUTINES }
        ensures logs { IfOk result (λ tracks. logs_in tracks.items ≡ self.logs) }
        ensures parts { IfOk result (λ tracks. AreParts (logs_in tracks.items) events.now) }
        ensures err { IfErr result (λ goroutine. IsLeastOther goroutine self.logs events.now) }
    {
        let Logs { mut tracks } = self;
        pass_all(&mut tracks, events);
        match first_other(tracks.as_slice()) {
            Some(goroutine) => Err(goroutine),
            None => Ok(tracks),
        }
    }
}
