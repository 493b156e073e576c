//! The events of a trace that were handed on, and their judge.
ghost use Rattle.std.specs.Prelude.{◌≡◌, ◌<◌, ◌++◌, true, [], Some, None, List, IfOk, IfSome, OnOk};
ghost use Rattle.race_records.specs.{declared.event.Event.Event, Declarations.Declaration};
ghost use Rattle.race_shards.specs.Judging as judges;
ghost use Rattle.race_shards.specs.Limits.{is_block};
ghost use Rattle.race_text.specs.Grammar as grammar;
ghost use Rattle.race_text.specs.Stream.{Known, decls_of, events_of};
ghost use Rattle.race_tool.specs.Input.{IsRoom};
ghost use Rattle.race_tool.specs.Streams as spec;

use crate::input::{BLOCK, SMALL_BLOCK};
use race_records::{Decls, Event};
use race_shards::{Judge, OpenGate};
use race_text::EventStream;
use std::alloc::{AllocError, Allocator};
use std::sync::Wait;
use std::thread::Threads;

/// How many threads read and judge, and how many events several of them read before these are judged.
#[derive(Clone, Copy)]
pub(crate) struct Judging {
    /// How many threads there are.
    pub(crate) threads: usize,
    /// How many events they read before these are judged.
    pub(crate) block: usize,
}

impl Judging {
    /// How many events are read before they are handed on: one thread takes them as they come.
    pub(crate) fn wanted(&self) -> usize
        requires { is_block self.now.block ≡ true }
        ensures { 0 < result }
    {
        if self.threads == 1 { 1 } else { self.block }
    }

    /// How many bytes are read at once.
    pub(crate) fn block_size(&self) -> usize
        ensures { IsRoom result }
    {
        if self.threads == 1 {
            SMALL_BLOCK
        } else {
            BLOCK
        }
    }
}

/// What was handed on of a trace that is read on meanwhile.
///
/// The judge is made when events are first handed on, or at the end: behind an event nothing is declared.
#[derive(Drop)]
pub(crate) struct Handed<A: Allocator> {
    /// Who judges.
    pub(crate) judging: Judging,
    /// The judge, once an event was handed on.
    pub(crate) judge: Option<Judge<A>>,
    /// The last events, which it takes next.
    pub(crate) events: Vec<Event, A>,
}

impl<A: Allocator + Copy + Send> Handed<A> {
    /// Nothing was handed on. Takes no memory.
    pub(crate) fn new(alloc: A, judging: Judging) -> Handed<A>
        ensures judging { result.judging ≡ judging }
        ensures judge { result.judge ≡ None }
        ensures events { result.events.items ≡ [] }
    {
        Handed {
            judging,
            judge: None,
            events: Vec::new(alloc),
        }
    }

    /// Judges the events, and forgets them.
    pub(crate) fn judge_all<T: Threads + Wait>(&mut self, rt: &T) -> Result<(), AllocError>
        requires { spec.CanJudgeAll self.old }
        ensures { OnOk result (spec.JudgesAll self.old self.new) }
    {
        let Some(judge) = &mut self.judge else {
            return Ok(());
        };
        match judge.feed(rt, self.events.as_slice(), &OpenGate) {
            Ok(()) => {
                self.events.clear();
                Ok(())
            }
            Err(_) => Err(AllocError),
        }
    }

    /// Takes the events that were read, where none is left.
    pub(crate) fn take(&mut self, alloc: A, stream: &mut EventStream<A>) -> Result<(), AllocError>
        requires { spec.CanHandOn self.old stream.old }
        ensures stands { OnOk result ((k : Known) → grammar.ForEachLines (spec.StandsBehind self.old k stream.old)
            (spec.StandsBehind self.new (spec.known_behind k stream.old) stream.new)) }
        ensures can { OnOk result (spec.CanJudgeAll self.new) }
    {
        let before = self.judge.take();
        let judge = started(alloc, stream.decls(), before)?;
        self.judge = Some(judge);
        stream.hand_over(&mut self.events);
        Ok(())
    }

    /// The judge of all events, of which the last ones are the stream's.
    pub(crate) fn judge_rest<T: Threads + Wait>(
        self,
        rt: &T,
        alloc: A,
        stream: &EventStream<A>,
    ) -> Result<Judge<A>, AllocError>
        requires some { (k : Known) × grammar.StandsForSome (spec.StandsBehind self k stream.now) }
        requires none { self.events.items ≡ [] }
        requires block { is_block self.judging.block ≡ true }
        ensures { IfOk result (λ judge. (k : Known) → grammar.ForEachLines (spec.StandsBehind self k stream.now)
            (λ _. judges.StandsFor (decls_of stream.now).declarations judge (k.past ++ events_of stream.now))) }
    {
        let mut judge = started(alloc, stream.decls(), self.judge)?;
        match judge.feed(rt, stream.events(), &OpenGate) {
            Ok(()) => Ok(judge),
            Err(_) => Err(AllocError),
        }
    }
}

// The judge, or else one that has taken no event.
fn started<A: Allocator + Copy + Send>(
    alloc: A,
    decls: &Decls<A>,
    before: Option<Judge<A>>,
) -> Result<Judge<A>, AllocError>
    ensures stands { IfOk result (λ judge. (past : List Event) → spec.IsJudgeOf (Some decls.now.declarations) before past
        → judges.StandsFor decls.now.declarations judge past) }
{
    match before {
        Some(judge) => Ok(judge),
        None => match Judge::new(alloc, decls, 1) {
            Ok(judge) => Ok(judge),
            Err(_) => Err(AllocError),
        },
    }
}
