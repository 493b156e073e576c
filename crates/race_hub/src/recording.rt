//! A recording: a run that has ended, with its trace and the log of each goroutine.
ghost use Rattle.std.specs.{Prelude.{◌≡◌, ◌==◌, ◌<◌, length, slice_get, Some}, List.find};
ghost use Rattle.std.specs.Option.{option_copied, option_map};
ghost use Rattle.race_records.specs.{declared.kind.Kind.Kind, Declarations.{capacity_of, count_of}};
ghost use Rattle.race_model.specs.Legal.{IsLegal};
ghost use Rattle.race_hub.specs.{Part.IsPart, Logs.logs_in, Recording.AreParts};

use crate::track::Track;
use crate::waiters::request_of;
use crate::{End, Log, Request, Waiter};
use race_records::Trace;
use std::alloc::{Allocator, Global};
use std::marker::Model;
use thiserror::Error;

/// Why a hub gives no recording. The first that holds is told, of the least goroutine.
#[derive(Clone, Copy, Debug, PartialEq, Eq, Error)]
pub enum Mismatch {
    /// The hub hasn't ended.
    #[error("the run has not ended")]
    NotEnded,
    /// The job of this goroutine was taken and isn't back.
    #[error("a job is out")]
    Out(u32),
    /// The log of this goroutine isn't its part of the trace.
    #[error("a log is not its goroutine's part of the trace")]
    Log(u32),
}

/// A run that has ended: its trace, which is legal, the log of each goroutine, which is its part of the trace, the requests
/// that have no event, and how it ended. `Hub::finish` makes one.
pub struct Recording<A: Allocator = Global> {
    trace: Trace<A>,
    tracks: Vec<Track<A>, A>,
    waiting: Vec<Waiter, A>,
    end: End,
}

impl<A: Allocator> Drop for Recording<A> {
    fn drop(self) {
        let Recording {
            trace: _,
            tracks: _,
            waiting: _,
            end: _,
        } = self;
    }
}

impl<A: Allocator> Model for Recording<A> {
    ghost use Rattle.race_hub.specs.Recording.{RecordingState};

    ghost Value = { RecordingState };

    ghost use Rattle.race_hub.specs.RecordingHolds.{recording_state, RecordingHolds};

    ghost view = { recording_state };

    ghost invariant = { RecordingHolds };
}

impl<A: Allocator> Recording<A> {
    // What a hub made.
    pub(crate) fn new(
        trace: Trace<A>,
        tracks: Vec<Track<A>, A>,
        waiting: Vec<Waiter, A>,
        end: End,
    ) -> Recording<A>
        requires count { length tracks.items ≡ count_of Kind.Goroutine trace.decls.declarations }
        requires legal { IsLegal (capacity_of trace.decls.declarations) trace.events }
        requires parts { AreParts (logs_in tracks.items) trace.events }
        ensures { result ≡ record {
          decls = trace.decls;
          events = trace.events;
          logs = logs_in tracks.items;
          waiting = waiting.items;
          end = end;
        } }
    {
        Recording {
            trace,
            tracks,
            waiting,
            end,
        }
    }

    /// The trace, which is legal, and of which each log is its goroutine's part.
    pub fn trace(&self) -> &Trace<A>
        ensures decls { result.now.decls ≡ self.now.decls }
        ensures events { result.now.events ≡ self.now.events }
        ensures legal { IsLegal (capacity_of self.now.decls.declarations) self.now.events }
        ensures parts { AreParts self.now.logs self.now.events }
    {
        &self.trace
    }

    /// The log of the goroutine, which is its part of the trace.
    pub fn logs(&self, goroutine: u32) -> &Log<A>
        requires { goroutine < count_of Kind.Goroutine self.now.decls.declarations }
        ensures log { slice_get self.now.logs goroutine ≡ Some result.now.items }
        ensures part { IsPart goroutine result.now.items self.now.events }
    {
        self.tracks[goroutine as usize].log()
    }

    /// What the goroutine asked last, where that has no event.
    pub fn waiting(&self, goroutine: u32) -> Option<&Request>
        ensures { option_copied result ≡ option_map (λ w. w.asked) (find (λ w. w.who == goroutine) self.now.waiting) }
    {
        request_of(self.waiting.as_slice(), goroutine)
    }

    /// How the run ended.
    pub fn end(&self) -> End
        ensures { result ≡ self.now.end }
    {
        self.end
    }
}
