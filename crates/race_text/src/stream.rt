//! A trace that is read line by line, and whose events are handed on.
ghost use Rattle.std.specs.Prelude.{◌≡◌, ◌+◌, ◌++◌, List, [], length, drop, true, IsOk, IsTrue, MatchResult, OnOk};
ghost use Rattle.race_records.specs.{declared.event.Event.Event, Events.IsTrace};
ghost use Rattle.race_text.specs.{Fault.trace_causes, Grammar.{ForEachLines, Takes, Tells, TakesIfTold, TellsOfFront}};
ghost use Rattle.race_text.specs.{Ahead.{AreAhead, IsAhead}, Common.line_in};
ghost use Rattle.race_text.specs.Stream as spec;

use crate::ahead::{LineAhead, read_lines};
use crate::cause::{TextCause, TextFault};
use crate::grammar::Grammar;
use crate::reader::Reader;
use crate::taking::{take_ahead_behind, take_common_behind, take_event_behind};
use race_records::{Decls, Event};
use std::alloc::Allocator;

/// What was read of a trace: its declarations, how many of its events were handed on, and those that
/// weren't yet.
///
/// The lines that it took are known to proofs alone: they are those of the trace that has the events that
/// were handed on before its own.
#[derive(Drop)]
pub struct EventStream<A: Allocator> {
    /// What was read, with the events that weren't handed on.
    pub reader: Reader<A>,
    /// How many were.
    pub before: usize,
}

impl<A: Allocator + Copy> Grammar for EventStream<A> {
    ghost use Rattle.std.specs.Prelude.{[], None};
    ghost use Rattle.race_text.specs.{Fault.trace_causes, Stream.{Known, StandsFor, IsTextOfStream}};

    type Whole = EventStream<A>;

    // The events that were handed on, and what is declared once there is an event.
    ghost Known = { Known };

    ghost at_start = { record { past = []; declared = None; places = [] } };

    ghost causes = { trace_causes };

    ghost stands_for = { StandsFor };

    ghost is_text_of = { IsTextOfStream };

    #[inline(always)]
    fn take_line(&mut self, line: &[u8]) -> Result<(), TextCause> {
        self.take_line(line)
    }

    #[inline(always)]
    fn line(&self) -> u64 {
        self.line()
    }

    fn whole(self, last: &[u8]) -> Result<EventStream<A>, TextCause> {
        match self.end_cause(last) {
            Some(cause) => Err(cause),
            None => Ok(self),
        }
    }

    #[inline(always)]
    fn take_common<'b>(&mut self, bytes: &'b [u8]) -> Result<Option<&'b [u8]>, TextCause> {
        self.take_common(bytes)
    }

    // The lines are counted: to ask for the number of each costs more.
    #[inline(always)]
    fn take_commons<'b>(&mut self, bytes: &'b [u8]) -> Result<&'b [u8], TextFault> {
        let mut number = self.line();
        let mut left = bytes;
        loop {
            match self.take_common(left) {
                Err(cause) => {
                    return Err(TextFault {
                        line: number,
                        cause,
                    });
                }
                Ok(taken) => match taken {
                    None => return Ok(left),
                    Some(rest) => {
                        left = rest;
                        number += 1;
                    }
                },
            }
        }
    }
}

impl<A: Allocator + Copy> EventStream<A> {
    /// Nothing is read yet. Names and places are hashed by the key. Takes no memory.
    pub fn keyed(alloc: A, key: u64) -> EventStream<A>
        ensures stands { spec.StandsWith result [] [] }
        ensures none { spec.events_of result ≡ [] }
    {
        EventStream {
            reader: Reader::keyed(alloc, key),
            before: 0,
        }
    }

    /// Takes the next line, or tells its least cause: want of memory only where the line has none.
    /// After a cause nothing more is to be taken.
    #[inline(always)]
    pub fn take_line(&mut self, line: &[u8]) -> Result<(), TextCause>
        requires { spec.StandsForSome self.old }
        ensures taken { MatchResult result
            (λ _. (past : List Event) → Takes trace_causes (spec.StandsWith self.old past) line.now (spec.StandsWith self.new past))
            (λ told. (past : List Event) → Tells trace_causes (spec.StandsWith self.old past) line.now told) }
        ensures declared { OnOk result (spec.DeclaresNothing self.old self.new) }
    {
        match &mut self.reader.trace {
            None => self.reader.take_line(line),
            Some(trace) => { take_event_behind(trace, self.before, &mut self.reader.guesses, line) }
        }
    }

    /// Takes the line in front of the bytes where it is a common one, and tells what is behind it. Tells
    /// nothing, and takes nothing, where it is another.
    #[inline(always)]
    pub fn take_common<'b>(&mut self, bytes: &'b [u8]) -> Result<Option<&'b [u8]>, TextCause>
        requires { spec.StandsForSome self.old }
        ensures taken { MatchResult result
            (λ rest. (past : List Event) → TakesIfTold trace_causes (spec.StandsWith self.old past) bytes.now rest (spec.StandsWith self.new past))
            (λ told. (past : List Event) → TellsOfFront trace_causes (spec.StandsWith self.old past) bytes.now told) }
        ensures declared { OnOk result (spec.DeclaresNothing self.old self.new) }
    {
        match &mut self.reader.trace {
            None => Ok(None),
            Some(trace) => {
                take_common_behind::<EventStream<A>, A>(
                    trace,
                    self.before,
                    &mut self.reader.guesses,
                    bytes,
                )
            }
        }
    }

    /// Reads ahead the lines that begin in this part of the bytes, into a list whose own are forgotten. Lines that can't
    /// be read ahead are left out.
    pub fn read_ahead(&self, bytes: &[u8], from: usize, to: usize, lines: &mut Vec<LineAhead, A>)
        ensures { AreAhead self.now bytes.now lines.new.items }
    {
        match &self.reader.trace {
            None => lines.clear(),
            Some(trace) => {
                read_lines(trace.decls(), &self.reader.guesses, bytes, from, to, lines);
            }
        }
    }

    /// Takes a line that was read ahead from these bytes, or tells why not: there are too many events, or memory is refused.
    #[inline(always)]
    pub(crate) fn take_ahead(&mut self, bytes: &[u8], line: LineAhead) -> Result<(), TextCause>
        requires some { spec.StandsForSome self.old }
        requires begun { IsTrue (spec.has_events self.old) }
        requires ahead { IsAhead (spec.decls_of self.old).declarations (spec.decls_of self.old).places bytes.now line }
        ensures taken { MatchResult result
            (λ _. (past : List Event) → Takes trace_causes (spec.StandsWith self.old past)
            (line_in (drop line.start bytes.now)) (spec.StandsWith self.new past))
            (λ told. (past : List Event) → Tells trace_causes (spec.StandsWith self.old past)
            (line_in (drop line.start bytes.now)) told) }
        ensures declared { OnOk result (spec.DeclaresNothing self.old self.new) }
    {
        match &mut self.reader.trace {
            None => unreachable!(),
            Some(trace) => take_ahead_behind(trace, self.before, bytes, line),
        }
    }

    /// The number of the line that comes next, counted from 1.
    #[inline(always)]
    pub fn line(&self) -> u64
        requires { spec.StandsForSome self.now }
        ensures { (past : List Event) → ForEachLines (spec.StandsWith self.now past) (λ lines. result ≡ length lines + 1) }
    {
        self.reader.line() + self.before as u64
    }

    /// The cause of the last part of a text, which no newline ends. Where there is none, the text is
    /// the trace's.
    pub fn end_cause(&self, last: &[u8]) -> Option<TextCause>
        ensures cause { (past : List Event) → ForEachLines (spec.StandsWith self.now past)
            (λ lines. result ≡ trace_causes.end lines last.now) }
        ensures text { spec.IsTextAtEnd self.now last.now }
    {
        self.reader.end_cause(last)
    }

    /// Whether an event stands there, behind which nothing is declared.
    pub fn has_events(&self) -> bool
        ensures { result ≡ spec.has_events self.now }
    {
        self.reader.trace.is_some()
    }

    /// The declarations so far.
    pub fn decls(&self) -> &Decls<A>
        ensures { result.now ≡ spec.decls_of self.now }
    {
        match &self.reader.trace {
            None => &self.reader.decls,
            Some(trace) => trace.decls(),
        }
    }

    /// The events that weren't handed on. They fit the declarations.
    pub fn events(&self) -> &[Event]
        ensures events { result.now ≡ spec.events_of self.now }
        ensures is_trace { IsTrace (spec.trace_with [] self.now) }
    {
        match &self.reader.trace {
            None => &[],
            Some(trace) => trace.events(),
        }
    }

    /// Moves the events into a list, whose own are forgotten, and so hands them on.
    pub fn hand_over(&mut self, list: &mut Vec<Event, A>)
        requires { spec.StandsForSome self.old }
        ensures stands { (past : List Event) → ForEachLines (spec.StandsWith self.old past)
            (spec.StandsWith self.new (past ++ spec.events_of self.old)) }
        ensures none { spec.events_of self.new ≡ [] }
        ensures declared { spec.DeclaresNothing self.old self.new }
        ensures moved { list.new.items ≡ spec.events_of self.old }
        ensures is_trace { IsTrace (spec.trace_with [] self.old) }
    {
        match &mut self.reader.trace {
            None => list.clear(),
            Some(trace) => {
                let gathered = trace.len();
                trace.move_events(list);
                self.before += gathered;
            }
        }
    }
}
