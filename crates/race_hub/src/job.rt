//! A goroutine with its routine, its log and what it asks.
ghost use Rattle.std.specs.Prelude.{◌≡◌, true, Ok, Some, None, is_some, IsSome, OnErr, IfOk};
ghost use Rattle.race_hub.specs.Job.{JobState, asking};

use crate::{Answer, Log, Request, Routine, Waiter};
use std::alloc::{AllocError, Allocator, Global};
use std::marker::Model;

/// A goroutine: its routine, what it was last told, its log, and what it asks and isn't told yet.
pub struct Job<R, A: Allocator = Global> {
    who: u32,
    routine: R,
    answer: Answer,
    log: Log<A>,
    asked: Option<Request>,
}

impl<R: Drop, A: Allocator> Drop for Job<R, A> {
    fn drop(self) {
        let Job {
            who: _,
            routine: _,
            answer: _,
            log: _,
            asked: _,
        } = self;
    }
}

impl<R, A: Allocator> Model for Job<R, A> {
    ghost use Rattle.std.specs.Prelude.{IsSome, ◌≡◌, true};
    ghost use Rattle.race_hub.specs.Job.{JobState};

    ghost Value = { JobState R };

    ghost view = { λ j. record { who = j.who; routine = j.routine; answer = j.answer; log = j.log.items; asked = j.asked } };

    // What is asked has its room in the log already.
    ghost invariant = { λ j. IsSome j.asked → j.log.has_room ≡ true };
}

impl<R, A: Allocator> Job<R, A> {
    /// The goroutine that was told this, with its log so far. Takes no memory.
    #[inline(always)]
    pub(crate) fn new(who: u32, routine: R, answer: Answer, log: Log<A>) -> Job<R, A>
        ensures { result ≡ record { who = who; routine = routine; answer = answer; log = log.items; asked = None } }
    {
        Job {
            who,
            routine,
            answer,
            log,
            asked: None,
        }
    }

    /// The number of the goroutine.
    #[inline(always)]
    pub fn who(&self) -> u32
        ensures { result ≡ self.now.who }
    {
        self.who
    }

    /// What it was last told.
    pub fn answer(&self) -> Answer
        ensures { result ≡ self.now.answer }
    {
        self.answer
    }

    /// What it asks and isn't told yet.
    pub fn asked(&self) -> Option<Request>
        ensures { result ≡ self.now.asked }
    {
        match &self.asked {
            Some(asked) => Some(asked.copy()),
            None => None,
        }
    }

    /// Whether it asks something that it isn't told yet.
    #[inline(always)]
    pub(crate) fn has_asked(&self) -> bool
        ensures { result ≡ is_some self.now.asked }
    {
        self.asked.is_some()
    }

    /// What it asked so far, and was told.
    pub fn log(&self) -> &Log<A>
        ensures { result.now.items ≡ self.now.log }
    {
        &self.log
    }

    /// Lets the routine go on with the last answer up to its next request, which is kept. Until that is answered, every turn gives
    /// the kept request. A turn that is refused has changed nothing.
    #[inline(always)]
    pub fn turn(&mut self) -> Result<Request, AllocError>
    where
        R: Routine,
        ensures kept { (asked : Request) → self.old.asked ≡ Some asked → (result ≡ Ok asked) × (self.new ≡ self.old) }
        ensures called { self.old.asked ≡ None → IfOk result (λ asked.
            (R.asks self.old.routine self.old.answer asked self.new.routine)
            × (self.new ≡ asking self.old self.new.routine asked)) }
        ensures asked { IfOk result (λ asked. self.new.asked ≡ Some asked) }
        ensures refused { OnErr result (self.new ≡ self.old) }
    {
        if let Some(asked) = &self.asked {
            return Ok(asked.copy());
        }
        // Room first, so that the step can always be written down.
        self.log.reserve()?;
        let asked = self.routine.next(self.answer);
        self.asked = Some(asked.copy());
        Ok(asked)
    }

    /// What it asks, its routine, and its log, which has room for the step.
    #[inline(always)]
    pub(crate) fn park(self) -> (Waiter, R, Log<A>)
        requires { IsSome self.asked }
        ensures who { result.0.who ≡ self.who }
        ensures asked { self.asked ≡ Some result.0.asked }
        ensures routine { result.1 ≡ self.routine }
        ensures log { result.2.items ≡ self.log }
        ensures room { result.2.has_room ≡ true }
    {
        let Job {
            who,
            routine,
            answer: _,
            log,
            asked,
        } = self;
        let Some(asked) = asked else {
            unreachable!();
        };
        (Waiter { who, asked }, routine, log)
    }
}
