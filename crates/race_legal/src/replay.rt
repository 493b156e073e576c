//! The run so far as tables, against which each next event is tested.
//!
//! The tables are a state machine of their own, with exact contracts; that they answer as the words
//! of the memory model on the list of events do is a matter of lists alone (proofs/ReplayLemmas).
ghost use Rattle.std.specs.Prelude.{◌≡◌, if◌then◌else◌, ℕ, ◌+◌, ◌<◌, ◌≤◌, [], length, is_ok, IsTrue, true, Some, None};
ghost use Rattle.std.specs.{Prelude.{Err, IfOk, OnOk, OnErr}, Option.{option_map, option_map_or}};
ghost use Rattle.race_records.specs.Operands.{op_is_in_range, named_is_in_range, failed_at};
ghost use Rattle.race_model.specs.Legal.{least_broken};
ghost use Rattle.race_legal.specs.{Rules.number_of, ReplayState.{ReplayState, IsInRange, counts_in, value_in}};
ghost use Rattle.race_legal.specs.{ReplayState.readers_in, After.after, RulesKept.{op_rules_in, cause_holds_in}};
ghost use Rattle.race_legal.specs.{RulesKept.{receiver_runs_in, broken_in}, StandsFor.{StandsFor, ForEachPast, GoesOn}};
ghost use Rattle.race_legal.specs.StandsFor.{IsLeastBroken};
ghost use Rattle.race_model.specs.State as words;

use crate::Rule;
use crate::channels::Channels;
use crate::goroutines::Goroutines;
use crate::locks::Locks;
use crate::onces::Onces;
use crate::rule::rule_if;
use race_records::{Cause, Decls, Event, Kind, MAX_EVENTS, Op};
use std::alloc::{AllocError, Allocator, Global};
use std::marker::Model;
use thiserror::Error;

/// Why an event isn't accepted.
#[derive(Clone, Copy, Debug, PartialEq, Eq, Error)]
pub enum Broken {
    /// It breaks this rule, and no lesser one.
    #[error("the event breaks a rule")]
    Rule(Rule),
    /// It breaks no rule, and a growth was refused.
    #[error("out of memory")]
    OutOfMemory,
}

/// What the next event of a legal list is tested against. Keeps no list of events.
pub struct Replay<A: Allocator = Global> {
    len: usize,
    over: bool,
    goroutines: Goroutines<A>,
    values: Vec<u64, A>,
    channels: Channels<A>,
    locks: Locks<A>,
    onces: Onces<A>,
}

impl<A: Allocator> Drop for Replay<A> {
    fn drop(self) {
        let Replay {
            len: _,
            over: _,
            goroutines: _,
            values: _,
            channels: _,
            locks: _,
            onces: _,
        } = self;
    }
}

impl<A: Allocator> Model for Replay<A> {
    ghost Value = { ReplayState };

    ghost view = { λ r. record {
      len = r.len;
      over = r.over;
      goroutines = r.goroutines;
      values = r.values.items;
      channels = r.channels;
      locks = r.locks;
      onces = r.onces;
    } };

    // A lock has no more readers than there were events.
    ghost invariant = { λ r. (l : ℕ) → readers_in r.locks l ≤ r.len };
}

impl<A: Allocator> Replay<A> {
    /// Before the first event of a trace with these declarations.
    #[tactic(auto, using(crate::proofs::FirstState::stands_first))]
    pub fn new<B: Allocator>(alloc: A, decls: &Decls<B>) -> Result<Replay<A>, AllocError>
    where
        A: Copy,
        ensures stands { IfOk result (λ replay. StandsFor decls.now.declarations replay []) }
    {
        Ok(Replay {
            len: 0,
            over: false,
            goroutines: Goroutines::new(alloc, decls.count(Kind::Goroutine) as usize)?,
            values: vec![in alloc; 0u64; decls.count(Kind::Var) as usize]?,
            channels: Channels::new(alloc, decls)?,
            locks: Locks::new(alloc, decls.count(Kind::Lock) as usize)?,
            onces: Onces::new(alloc, decls.count(Kind::Once) as usize)?,
        })
    }

    /// How many events were accepted.
    pub fn len(&self) -> usize
        ensures len { result ≡ self.now.len }
        ensures past { ForEachPast self.now (λ past. result ≡ length past) }
    {
        self.len
    }

    /// Whether the run is over.
    pub fn over(&self) -> bool
        ensures { ForEachPast self.now (λ past. result ≡ words.over past) }
    {
        self.over
    }

    /// Whether a Go started the goroutine.
    pub fn started(&self, goroutine: u32) -> bool
        requires { goroutine < counts_in self.now Kind.Goroutine }
        ensures { ForEachPast self.now (λ past. result ≡ words.started goroutine past) }
    {
        self.goroutines.is_started(goroutine)
    }

    /// Whether the goroutine is main or was started, and hasn't exited.
    pub fn runs(&self, goroutine: u32) -> bool
        requires { goroutine < counts_in self.now Kind.Goroutine }
        ensures { ForEachPast self.now (λ past. result ≡ words.runs goroutine past) }
    {
        self.goroutines.runs(goroutine)
    }

    /// The value of the last Write of the variable, or 0.
    pub fn last_value(&self, var: u32) -> u64
        requires { var < counts_in self.now Kind.Var }
        ensures { ForEachPast self.now (λ past. result ≡ words.last_value var past) }
    {
        self.values[var as usize]
    }

    /// Whether the channel was closed.
    pub fn is_closed(&self, chan: u32) -> bool
        requires { chan < counts_in self.now Kind.Chan }
        ensures { ForEachPast self.now (λ past. result ≡ words.is_closed chan past) }
    {
        self.channels.is_closed(chan)
    }

    /// How many values wait in the channel.
    pub fn buffered(&self, chan: u32) -> usize
        requires { chan < counts_in self.now Kind.Chan }
        ensures { ForEachPast self.now (λ past. result ≡ words.buffered chan past) }
    {
        self.channels.buffered(chan)
    }

    /// The value that the next Recv from the channel gets, if one waits.
    pub fn front(&self, chan: u32) -> Option<u64>
        requires { chan < counts_in self.now Kind.Chan }
        ensures { ForEachPast self.now (λ past. result ≡ words.front chan past) }
    {
        self.channels.front(chan)
    }

    /// Whether the lock is locked, by whichever goroutine.
    pub fn is_held(&self, lock: u32) -> bool
        requires { lock < counts_in self.now Kind.Lock }
        ensures { ForEachPast self.now (λ past. result ≡ words.is_held lock past) }
    {
        self.locks.is_held(lock)
    }

    /// Whether the lock is locked for reading.
    pub fn is_read_held(&self, lock: u32) -> bool
        requires { lock < counts_in self.now Kind.Lock }
        ensures { ForEachPast self.now (λ past. result ≡ words.is_read_held lock past) }
    {
        self.locks.is_read_held(lock)
    }

    /// Whether the function of the once began to run.
    pub fn is_begun(&self, once: u32) -> bool
        requires { once < counts_in self.now Kind.Once }
        ensures { ForEachPast self.now (λ past. result ≡ words.is_begun once past) }
    {
        self.onces.is_begun(once)
    }

    /// Whether the function of the once ended.
    pub fn is_ended(&self, once: u32) -> bool
        requires { once < counts_in self.now Kind.Once }
        ensures { ForEachPast self.now (λ past. result ≡ words.is_ended once past) }
    {
        self.onces.is_ended(once)
    }

    /// The once in whose function the goroutine runs: of those that it began and that haven't ended, the last.
    pub fn innermost(&self, goroutine: u32) -> Option<u32>
        requires { goroutine < counts_in self.now Kind.Goroutine }
        ensures { ForEachPast self.now (λ past. result ≡ words.innermost goroutine past) }
    {
        self.goroutines.innermost(goroutine)
    }

    /// Accepts the next event where the longer list is legal; else tells the least rule that it breaks, or that memory
    /// was refused, and stays as it was.
    ///
    /// The event's goroutines and objects are in range of the declarations that the replay was made for, and fewer than
    /// 2^24 events were accepted before.
    #[inline(always)]
    #[tactic(auto, using(crate::proofs::ReplayLemmas::broken_is))]
    pub fn accept(&mut self, event: &Event) -> Result<(), Broken>
        requires range { IsInRange (counts_in self.old) event.now }
        requires room { self.old.len < MAX_EVENTS }
        ensures goes_on { OnOk result (GoesOn self.old self.new event.now) }
        ensures least { (rule : Rule) → result ≡ Err (Broken.Rule rule)
            → IsLeastBroken self.old event.now (Some (number_of rule)) }
        ensures memory { result ≡ Err Broken.OutOfMemory → IsLeastBroken self.old event.now None }
        ensures unchanged { OnErr result (self.new ≡ self.old) }
        ensures len { OnOk result (self.new.len ≡ self.old.len + 1) }
        ensures counts { counts_in self.new ≡ counts_in self.old }
    {
        match self.first_broken(event) {
            Some(rule) => Err(Broken::Rule(rule)),
            None => match self.step(event) {
                Ok(()) => Ok(()),
                Err(_) => Err(Broken::OutOfMemory),
            },
        }
    }

    /// The least rule that the event would break as the next one, if it breaks any. The replay stays as it is.
    ///
    /// The event's goroutines and objects are in range of the declarations that the replay was made for.
    pub fn breaks(&self, event: &Event) -> Option<Rule>
        requires { IsInRange (counts_in self.now) event.now }
        ensures { IsLeastBroken self.now event.now (option_map number_of result) }
    {
        self.first_broken(event)
    }

    // The least rule that the event breaks.
    #[inline(always)]
    fn first_broken(&self, event: &Event) -> Option<Rule>
        requires { IsInRange (counts_in self.now) event.now }
        ensures { option_map number_of result ≡ broken_in self.now event.now }
    {
        if self.over {
            return Some(Rule::AfterEnd);
        }
        if !self.goroutines.runs(event.who) || !self.receiver_runs(&event.op) {
            return Some(Rule::NotRunning);
        }
        self.broken_by(event.who, &event.op)
    }

    // Whether the receiver runs, where there is one.
    fn receiver_runs(&self, op: &Op) -> bool
        requires { IsTrue (op_is_in_range (counts_in self.now) op.now) }
        ensures { result ≡ receiver_runs_in self.now.goroutines op.now }
    {
        match op {
            Op::Meet(receiver, _, _) => self.goroutines.runs(*receiver),
            _ => true,
        }
    }

    // The least of the rules on the operation alone that it breaks.
    #[inline(always)]
    fn broken_by(&self, who: u32, op: &Op) -> Option<Rule>
        requires who { who < counts_in self.now Kind.Goroutine }
        requires op { IsTrue (op_is_in_range (counts_in self.now) op.now) }
        ensures { option_map number_of result ≡ least_broken (op_rules_in self.now who op.now) }
    {
        match op {
            Op::Go(goroutine) => {
                rule_if(
                    Rule::AlreadyStarted,
                    *goroutine == 0 || self.goroutines.is_started(*goroutine),
                )
            }
            Op::Exit => rule_if(Rule::OnceOpen, self.goroutines.innermost(who).is_some()),
            Op::Read(var, value) => rule_if(Rule::StaleRead, self.values[*var as usize] != *value),
            Op::Write(_, _) => None,
            Op::Send(chan, _) => self.channels.broken_by_send(*chan),
            Op::Recv(chan, value) => self.channels.broken_by_recv(*chan, *value),
            Op::Meet(receiver, chan, _) => if *receiver == who {
                Some(Rule::MeetsItself)
            } else {
                self.channels.broken_by_meet(*chan)
            },
            Op::RecvClosed(chan) => self.channels.broken_by_recv_closed(*chan),
            Op::Close(chan) => rule_if(Rule::CloseOfClosed, self.channels.is_closed(*chan)),
            Op::Default(cases) => rule_if(Rule::CaseReady, self.channels.has_ready(cases)),
            Op::Lock(lock) => self.locks.broken_by_lock(*lock),
            Op::Unlock(lock) => rule_if(Rule::NotHeld, !self.locks.is_held(*lock)),
            Op::RLock(lock) => rule_if(Rule::Held, self.locks.is_held(*lock)),
            Op::RUnlock(lock) => rule_if(Rule::NotReadHeld, !self.locks.is_read_held(*lock)),
            Op::TryLock(lock) => self.locks.broken_by_lock(*lock),
            Op::TryRLock(lock) => rule_if(Rule::Held, self.locks.is_held(*lock)),
            // A try may fail where the lock is free too.
            Op::TryFail(_) => None,
            Op::OnceBegin(once) => rule_if(Rule::OnceAgain, self.onces.is_begun(*once)),
            Op::OnceEnd(once) => rule_if(
                Rule::OnceNotInner,
                self.goroutines.innermost(who) != Some(*once),
            ),
            Op::OnceDone(once) => rule_if(Rule::OnceNotDone, !self.onces.is_ended(*once)),
            Op::Fault(cause) => rule_if(Rule::NoFault, !self.cause_holds(*cause)),
        }
    }

    // Whether the cause of a fault holds.
    fn cause_holds(&self, cause: Cause) -> bool
        requires { IsTrue (option_map_or (named_is_in_range (counts_in self.now)) (failed_at cause) true) }
        ensures { result ≡ cause_holds_in self.now cause }
    {
        match cause {
            Cause::SendClosed(chan) => self.channels.is_closed(chan),
            Cause::CloseClosed(chan) => self.channels.is_closed(chan),
            Cause::CloseNil => true,
            Cause::UnlockFree(lock) => !self.locks.is_held(lock),
            Cause::RUnlockFree(lock) => !self.locks.is_read_held(lock),
        }
    }

    // What the event changes, unless there is no memory for it.
    #[inline(always)]
    fn step(&mut self, event: &Event) -> Result<(), AllocError>
        requires range { IsInRange (counts_in self.old) event.now }
        requires room { self.old.len < MAX_EVENTS }
        ensures { self.new ≡ (if is_ok result then after self.old event.now else self.old) }
    {
        match event.op {
            Op::Go(goroutine) => self.goroutines.start(goroutine),
            Op::Exit => {
                self.goroutines.exit(event.who);
                self.over |= event.who == 0;
            }
            Op::Write(var, value) => self.values[var as usize] = value,
            // This and an OnceBegin alone make anything grow, each before it changes anything.
            Op::Send(chan, value) => self.channels.send(chan, value)?,
            Op::Recv(chan, _) => self.channels.receive(chan),
            Op::Close(chan) => self.channels.close(chan),
            Op::Lock(lock) => self.locks.lock(lock),
            Op::Unlock(lock) => self.locks.unlock(lock),
            Op::RLock(lock) => self.locks.lock_for_reading(lock),
            Op::RUnlock(lock) => self.locks.unlock_from_reading(lock),
            Op::TryLock(lock) => self.locks.lock(lock),
            Op::TryRLock(lock) => self.locks.lock_for_reading(lock),
            Op::OnceBegin(once) => {
                self.goroutines.enter(event.who, once)?;
                self.onces.begin(once);
            }
            Op::OnceEnd(once) => {
                self.goroutines.leave(event.who);
                self.onces.end(once);
            }
            Op::Fault(_) => self.over = true,
            // The others change no table.
            Op::Read(_, _) => {}
            Op::Meet(_, _, _) => {}
            Op::RecvClosed(_) => {}
            Op::Default(_) => {}
            Op::TryFail(_) => {}
            Op::OnceDone(_) => {}
        }
        self.len += 1;
        Ok(())
    }
}
