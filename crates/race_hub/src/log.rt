//! A goroutine's log: what it asked, and what it was told.
ghost use Rattle.std.specs.Prelude.{◌≡◌, ◌<◌, ◌++◌, ◌∷◌, [], true, length, slice_get, Some, OnOk};
ghost use Rattle.race_hub.specs.Log as spec;

use crate::{Answer, Request, Step};
use race_requests::RequestList;
use std::alloc::{AllocError, Allocator, Global};
use std::marker::Model;

// There is one for each step of each goroutine. With its request a step has 40 bytes, but for the offers of a select.
const _: () = prove!(size_of::<Told>() <= 16);

// What was told, without the value.
#[derive(Clone, Copy)]
pub(crate) enum BriefAnswer {
    Nothing,
    Begin,
    Unit,
    Value,
    Closed,
    // By its offer of this number a select sent.
    Sent(u32),
    // By its offer of this number a select received the value.
    Received(u32),
    DefaultTaken,
    Run,
    AlreadyDone,
    Tried(bool),
}

// What was told.
#[derive(Clone, Copy)]
pub(crate) struct Told {
    answer: BriefAnswer,
    value: u64,
}

/// What a goroutine asked so far, step by step, and what it was told.
#[derive(Drop)]
pub struct Log<A: Allocator = Global> {
    asked: RequestList<A>,
    told: Vec<Told, A>,
}

impl<A: Allocator> Model for Log<A> {
    ghost use Rattle.race_hub.specs.Log.{LogState};

    ghost Value = { LogState };

    ghost use Rattle.race_hub.specs.LogHolds.{log_state, LogHolds};

    ghost view = { log_state };

    ghost invariant = { LogHolds };
}

impl<A: Allocator + Copy> Log<A> {
    /// The log without a step. Takes no memory.
    pub(crate) fn new(alloc: A) -> Log<A>
        ensures { result.items ≡ [] }
    {
        Log {
            asked: RequestList::new(alloc),
            told: Vec::new(alloc),
        }
    }
}

impl<A: Allocator> Log<A> {
    /// How many steps there are.
    pub fn len(&self) -> usize
        ensures { result ≡ length self.now.items }
    {
        self.told.len()
    }

    /// Step `index`, counted from 0.
    pub fn step(&self, index: usize) -> Step
        requires { index < length self.now.items }
        ensures { slice_get self.now.items index ≡ Some result }
    {
        Step {
            asked: self.asked.get(index),
            told: answer_of(self.told[index]),
        }
    }

    /// Makes room for one step more, whichever it is.
    pub(crate) fn reserve(&mut self) -> Result<(), AllocError>
        ensures items { self.new.items ≡ self.old.items }
        ensures room { OnOk result (self.new.has_room ≡ true) }
    {
        self.asked.reserve()?;
        self.told.reserve(1)?;
        Ok(())
    }

    /// Puts a step last. Takes no memory.
    pub(crate) fn push_reserved(&mut self, step: Step)
        requires { self.old.has_room ≡ true }
        ensures { self.new.items ≡ self.old.items ++ step ∷ [] }
    {
        let Step { asked, told } = step;
        self.asked.push_reserved(asked);
        self.told.push_reserved(told_of(told));
    }
}

// What was told in brief.
fn told_of(answer: Option<Answer>) -> Told
    ensures { spec.answer_of result.answer result.value ≡ answer }
{
    let (answer, value) = match answer {
        None => (BriefAnswer::Nothing, 0),
        Some(Answer::Begin) => (BriefAnswer::Begin, 0),
        Some(Answer::Unit) => (BriefAnswer::Unit, 0),
        Some(Answer::Value(value)) => (BriefAnswer::Value, value),
        Some(Answer::Closed) => (BriefAnswer::Closed, 0),
        Some(Answer::Chosen(offer, None)) => (BriefAnswer::Sent(offer), 0),
        Some(Answer::Chosen(offer, Some(value))) => (BriefAnswer::Received(offer), value),
        Some(Answer::DefaultTaken) => (BriefAnswer::DefaultTaken, 0),
        Some(Answer::Run) => (BriefAnswer::Run, 0),
        Some(Answer::AlreadyDone) => (BriefAnswer::AlreadyDone, 0),
        Some(Answer::Tried(is_taken)) => (BriefAnswer::Tried(is_taken), 0),
    };
    Told { answer, value }
}

// What was told.
fn answer_of(told: Told) -> Option<Answer>
    ensures { result ≡ spec.answer_of told.answer told.value }
{
    match told.answer {
        BriefAnswer::Nothing => None,
        BriefAnswer::Begin => Some(Answer::Begin),
        BriefAnswer::Unit => Some(Answer::Unit),
        BriefAnswer::Value => Some(Answer::Value(told.value)),
        BriefAnswer::Closed => Some(Answer::Closed),
        BriefAnswer::Sent(offer) => Some(Answer::Chosen(offer, None)),
        BriefAnswer::Received(offer) => Some(Answer::Chosen(offer, Some(told.value))),
        BriefAnswer::DefaultTaken => Some(Answer::DefaultTaken),
        BriefAnswer::Run => Some(Answer::Run),
        BriefAnswer::AlreadyDone => Some(Answer::AlreadyDone),
        BriefAnswer::Tried(is_taken) => Some(Answer::Tried(is_taken)),
    }
}
