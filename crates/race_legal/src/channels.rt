//! The channels: how many values fit into each, which are closed, and which values wait.
ghost use Rattle.std.specs.Prelude.{◌≡◌, if◌then◌else◌, ℕ, ◌<◌, ◌∷◌, [], ◌++◌, length, slice_get, false, replicate};
ghost use Rattle.std.specs.{Prelude.{is_ok, IfOk, IsTrue}, List.{slice_index_or, list_all, list_any}};
ghost use Rattle.std.specs.Option.{option_map};
ghost use Rattle.race_records.specs.{declared.kind.Kind.Kind, Declarations.{count_of, capacity_of}};
ghost use Rattle.race_records.specs.Operands.{case_is_in_range};
ghost use Rattle.race_model.specs.Legal.{least_broken};
ghost use Rattle.race_legal.specs.{Rules.number_of, ReplayState.{ChannelsState, closed_in, queue_in}};
ghost use Rattle.race_legal.specs.{After.{with_sent, with_received, with_closed}, RulesKept.{send_rules, recv_rules}};
ghost use Rattle.race_legal.specs.RulesKept.{meet_rules, recv_closed_rules, can_proceed_in, is_ready_in};

use crate::Rule;
use crate::queue::Queue;
use crate::rule::rule_if;
use race_records::{Case, Cases, Decls, Dir, Kind};
use std::alloc::{AllocError, Allocator};
use std::marker::Model;

/// A row for each channel.
#[derive(Drop)]
pub(crate) struct Channels<A: Allocator> {
    capacities: Vec<u32, A>,
    closed: Vec<bool, A>,
    queues: Vec<Queue<A>, A>,
}

impl<A: Allocator> Model for Channels<A> {
    ghost Value = { ChannelsState };

    ghost view = { λ t. record { capacities = t.capacities.items; closed = t.closed.items; queues = t.queues.items } };

    ghost invariant = { λ t. (length t.closed.items ≡ length t.capacities.items)
        × (length t.queues.items ≡ length t.capacities.items) };
}

impl<A: Allocator> Channels<A> {
    // As they are declared, each open and empty.
    pub(crate) fn new<B: Allocator>(alloc: A, decls: &Decls<B>) -> Result<Channels<A>, AllocError>
    where
        A: Copy,
        ensures len { IfOk result (λ t. length t.capacities ≡ count_of Kind.Chan decls.now.declarations) }
        ensures each { IfOk result (λ t. (c : ℕ) → c < length t.capacities
            → slice_index_or t.capacities c 0 ≡ capacity_of decls.now.declarations c) }
        ensures closed { IfOk result (λ t. t.closed ≡ replicate (count_of Kind.Chan decls.now.declarations) false) }
        ensures queues { IfOk result (λ t. t.queues ≡ replicate (count_of Kind.Chan decls.now.declarations) []) }
    {
        let count = decls.count(Kind::Chan) as usize;
        Ok(Channels {
            capacities: capacities(alloc, decls)?,
            closed: vec![in alloc; false; count]?,
            queues: queues(alloc, count)?,
        })
    }

    // Whether the channel was closed.
    pub(crate) fn is_closed(&self, chan: u32) -> bool
        requires { chan < length self.now.capacities }
        ensures { result ≡ closed_in self.now chan }
    {
        self.closed[chan as usize]
    }

    // How many values wait in the channel.
    pub(crate) fn buffered(&self, chan: u32) -> usize
        requires { chan < length self.now.capacities }
        ensures { result ≡ length (queue_in self.now chan) }
    {
        self.queues[chan as usize].len()
    }

    // The value that waits longest.
    pub(crate) fn front(&self, chan: u32) -> Option<u64>
        requires { chan < length self.now.capacities }
        ensures { result ≡ slice_get (queue_in self.now chan) 0 }
    {
        self.queues[chan as usize].front()
    }

    // The least rule that a send breaks.
    pub(crate) fn broken_by_send(&self, chan: u32) -> Option<Rule>
        requires { chan < length self.now.capacities }
        ensures { option_map number_of result ≡ least_broken (send_rules self.now chan) }
    {
        let capacity = self.capacities[chan as usize];
        if capacity == 0 {
            return Some(Rule::WrongForm);
        }
        if self.is_closed(chan) {
            return Some(Rule::SendOnClosed);
        }
        rule_if(Rule::BufferFull, self.buffered(chan) == capacity as usize)
    }

    // The least rule that a receive of the value breaks.
    pub(crate) fn broken_by_recv(&self, chan: u32, value: u64) -> Option<Rule>
        requires { chan < length self.now.capacities }
        ensures { option_map number_of result ≡ least_broken (recv_rules self.now chan value) }
    {
        if self.capacities[chan as usize] == 0 {
            return Some(Rule::WrongForm);
        }
        match self.front(chan) {
            None => Some(Rule::BufferEmpty),
            Some(front) => rule_if(Rule::WrongValue, front != value),
        }
    }

    // The least rule on the channel alone that a meeting breaks.
    pub(crate) fn broken_by_meet(&self, chan: u32) -> Option<Rule>
        requires { chan < length self.now.capacities }
        ensures { option_map number_of result ≡ least_broken (meet_rules self.now chan) }
    {
        if self.capacities[chan as usize] > 0 {
            return Some(Rule::WrongForm);
        }
        rule_if(Rule::SendOnClosed, self.is_closed(chan))
    }

    // The least rule that a receive breaks that finds the channel closed.
    pub(crate) fn broken_by_recv_closed(&self, chan: u32) -> Option<Rule>
        requires { chan < length self.now.capacities }
        ensures { option_map number_of result ≡ least_broken (recv_closed_rules self.now chan) }
    {
        if !self.is_closed(chan) {
            return Some(Rule::NotClosed);
        }
        rule_if(Rule::NotDrained, self.buffered(chan) > 0)
    }

    // Whether a case of a select could go on at once.
    pub(crate) fn has_ready(&self, cases: &Cases) -> bool
        requires { IsTrue (list_all (case_is_in_range (length self.now.capacities)) cases.now) }
        ensures { result ≡ list_any (is_ready_in self.now) cases.now }
    {
        for k in 0..cases.len() {
            if self.is_ready(cases.get(k)) {
                return true;
            }
        }
        false
    }

    // Whether the case could; one on nil never can.
    fn is_ready(&self, case: Case) -> bool
        requires { IsTrue (case_is_in_range (length self.now.capacities) case) }
        ensures { result ≡ is_ready_in self.now case }
    {
        match case.chan {
            None => false,
            Some(chan) => self.can_proceed(chan, case.dir),
        }
    }

    // Whether a send or a receive could go on at once, if only to fail.
    fn can_proceed(&self, chan: u32, dir: Dir) -> bool
        requires { chan < length self.now.capacities }
        ensures { result ≡ can_proceed_in self.now chan dir }
    {
        let capacity = self.capacities[chan as usize] as usize;
        let buffered = self.buffered(chan);
        match dir {
            Dir::Send => self.is_closed(chan) || capacity > 0 && buffered < capacity,
            Dir::Recv => self.is_closed(chan) || capacity > 0 && buffered > 0,
        }
    }

    // The value waits, unless there is no memory for it.
    pub(crate) fn send(&mut self, chan: u32, value: u64) -> Result<(), AllocError>
        requires { chan < length self.old.capacities }
        ensures { self.new ≡ (if is_ok result then with_sent self.old chan value else self.old) }
    {
        let queue = &mut self.queues[chan as usize];
        queue.push(value)
    }

    // The value that waits longest is taken out.
    pub(crate) fn receive(&mut self, chan: u32)
        requires { chan < length self.old.capacities }
        ensures { self.new ≡ with_received self.old chan }
    {
        let queue = &mut self.queues[chan as usize];
        queue.pop()
    }

    pub(crate) fn close(&mut self, chan: u32)
        requires { chan < length self.old.capacities }
        ensures { self.new ≡ with_closed self.old chan }
    {
        self.closed[chan as usize] = true;
    }
}

// The capacity of each channel.
fn capacities<A: Allocator, B: Allocator>(
    alloc: A,
    decls: &Decls<B>,
) -> Result<Vec<u32, A>, AllocError>
    ensures len { IfOk result (λ caps. length caps.items ≡ count_of Kind.Chan decls.now.declarations) }
    ensures each { IfOk result (λ caps. (c : ℕ) → c < length caps.items
        → slice_index_or caps.items c 0 ≡ capacity_of decls.now.declarations c) }
{
    let mut capacities = Vec::new(alloc);
    for chan in 0..decls.count(Kind::Chan) {
        capacities.push(decls.capacity(chan))?;
    }
    Ok(capacities)
}

// So many empty queues.
fn queues<A: Allocator + Copy>(alloc: A, count: usize) -> Result<Vec<Queue<A>, A>, AllocError>
    ensures { IfOk result (λ queues. queues.items ≡ replicate count []) }
{
    let mut queues = Vec::with_capacity(alloc, count)?;
    for _ in 0..count {
        queues.push(Queue::new(alloc))?;
    }
    Ok(queues)
}
