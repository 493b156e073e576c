//! The clocks of a channel.
//!
//! A value that waits in the buffer has the clock of its send, and room that was freed that of its receive. So a channel
//! keeps a clock for each value that was ever on its way, up to its capacity, and each clock that a send or a receive
//! takes out is written again by the same event: in the long run none is allocated.
ghost use Rattle.std.specs.Prelude.{◌≡◌, if◌then◌else◌, ◌+◌, ◌-◌, ◌<◌, ◌^◌, ℕ, List, [], ◌∷◌, ◌++◌, length, take, drop};
ghost use Rattle.std.specs.{Prelude.{OnOk, OnErr}, Option.option_map_or};
ghost use Rattle.race_clock.specs.{ClockState.joined, ClocksState.{ChannelState, first_channel, is_used_up, front}};
ghost use Rattle.race_clock.specs.ClocksState.{filled};

use crate::clock::Clock;
use crate::sync_clock::SyncClock;
use crate::thread_clock::ThreadClock;
use std::alloc::{AllocError, Allocator};
use std::collections::VecDeque;
use std::marker::Model;
use std::mem;

// Clocks, first in first out.
#[derive(Drop)]
struct Queue<A: Allocator> {
    clocks: VecDeque<Clock<A>, A>,
}

impl<A: Allocator> Model for Queue<A> {
    ghost Value = { List (List ℕ) };

    ghost view = { λ q. q.clocks.items };
}

impl<A: Allocator + Copy> Queue<A> {
    fn len(&self) -> usize
        ensures { result ≡ length self.now }
    {
        self.clocks.len()
    }

    // The clock joined with the first of the queue.
    #[tactic(auto, using(crate::proofs::JoinLemmas::joined_front_none))]
    fn join_front(&self, clock: &Clock<A>, to: &mut Clock<A>) -> Result<(), AllocError>
        ensures { OnOk result (to.new ≡ joined clock.now (front self.now)) }
    {
        match self.clocks.front() {
            Some(first) => to.become_join(clock, first),
            None => to.become_copy(clock),
        }
    }

    // Opens a place at the end, for a clock to come.
    fn open(&mut self, like: &Clock<A>) -> Result<(), AllocError>
        ensures ok { OnOk result (self.new ≡ self.old ++ [] ∷ []) }
        ensures unchanged { OnErr result (self.new ≡ self.old) }
    {
        self.clocks.push_back(like.another())?;
        Ok(())
    }

    // Puts the clock into the last place.
    fn fill(&mut self, clock: &mut Clock<A>)
        ensures { self.new ≡ filled self.old clock.old }
    {
        if let Some(last) = self.clocks.back_mut() {
            mem::swap(last, clock);
        }
    }

    // Takes the first clock out. The clock here is free to be written.
    fn pop(&mut self, clock: &mut Clock<A>)
        ensures { self.new ≡ drop 1 self.old }
    {
        if let Some(first) = self.clocks.pop_front() {
            *clock = first;
        }
    }
}

// The clocks of what is on its way.
#[derive(Drop)]
struct Queues<A: Allocator> {
    sent: Queue<A>,
    freed: Queue<A>,
}

impl<A: Allocator + Copy> Queues<A> {
    fn new(alloc: A) -> Queues<A>
        ensures sent { result.sent ≡ [] }
        ensures freed { result.freed ≡ [] }
    {
        Queues {
            sent: Queue {
                clocks: VecDeque::new(alloc),
            },
            freed: Queue {
                clocks: VecDeque::new(alloc),
            },
        }
    }
}

#[derive(Drop)]
pub(crate) struct Channel<A: Allocator> {
    capacity: usize,
    // Made at the first send.
    queues: Option<Box<Queues<A>, A>>,
    pub(crate) closed: SyncClock<A>,
}

impl<A: Allocator> Model for Channel<A> {
    ghost Value = { ChannelState };

    ghost view = { λ c. record {
      capacity = c.capacity;
      sent = option_map_or (λ queues. queues.value.sent) c.queues [];
      freed = option_map_or (λ queues. queues.value.freed) c.queues [];
      closed = c.closed;
    } };
}

impl<A: Allocator + Copy> Channel<A> {
    /// A channel with nothing on its way.
    pub(crate) fn new(capacity: usize) -> Channel<A>
        ensures { result ≡ first_channel capacity }
    {
        Channel {
            capacity,
            queues: None,
            closed: SyncClock::new(),
        }
    }

    fn is_used_up(&self) -> bool
        ensures { result ≡ is_used_up self.now }
    {
        match &self.queues {
            Some(queues) => {
                let sent = queues.sent.len();
                sent <= self.capacity && self.capacity - sent == queues.freed.len()
            }
            None => self.capacity == 0,
        }
    }

    /// What a send joins to its goroutine's clock.
    #[tactic(auto, using(crate::proofs::JoinLemmas::joined_nothing))]
    pub(crate) fn hand_to_send(&self, clock: &Clock<A>, to: &mut Clock<A>) -> Result<(), AllocError>
        ensures { OnOk result (to.new ≡ joined clock.now (if is_used_up self.now then front self.now.freed else [])) }
    {
        match &self.queues {
            Some(queues) if self.is_used_up() => queues.freed.join_front(clock, to),
            _ => to.become_copy(clock),
        }
    }

    /// What a receive joins to it.
    #[tactic(auto, using(crate::proofs::JoinLemmas::joined_nothing))]
    pub(crate) fn hand_to_receive(
        &self,
        clock: &Clock<A>,
        to: &mut Clock<A>,
    ) -> Result<(), AllocError>
        ensures { OnOk result (to.new ≡ joined clock.now (front self.now.sent)) }
    {
        match &self.queues {
            Some(queues) => queues.sent.join_front(clock, to),
            None => to.become_copy(clock),
        }
    }

    /// Joins the clock of the close to that of who finds the channel closed.
    pub(crate) fn receive_closed(&self, slot: &mut ThreadClock<A>) -> Result<(), AllocError>
        requires { slot.old.parts + 1 < 2 ^ 32 }
        ensures ok { OnOk result (slot.new ≡ record { clock = joined slot.old.clock self.now.closed; parts = slot.old.parts + 1 }) }
        ensures unchanged { OnErr result (slot.new ≡ slot.old) }
    {
        slot.learn(&self.closed)
    }

    /// Opens a place for a send's clock.
    pub(crate) fn open_send(&mut self, like: &Clock<A>) -> Result<(), AllocError>
        ensures ok { OnOk result (self.new ≡ record {
          capacity = self.old.capacity;
          sent = self.old.sent ++ [] ∷ [];
          freed = self.old.freed;
          closed = self.old.closed;
        }) }
        ensures unchanged { OnErr result (self.new ≡ self.old) }
    {
        if let Some(queues) = &mut self.queues {
            return queues.sent.open(like);
        }
        let mut queues = Box::new(like.allocator(), Queues::new(like.allocator()))?;
        queues.sent.open(like)?;
        self.queues = Some(queues);
        Ok(())
    }

    /// Opens a place for a receive's clock.
    pub(crate) fn open_receive(&mut self, like: &Clock<A>) -> Result<(), AllocError>
        ensures ok { OnOk result (self.new ≡ record {
          capacity = self.old.capacity;
          sent = self.old.sent;
          freed = self.old.freed ++ [] ∷ [];
          closed = self.old.closed;
        }) }
        ensures unchanged { OnErr result (self.new ≡ self.old) }
    {
        if let Some(queues) = &mut self.queues {
            return queues.freed.open(like);
        }
        let mut queues = Box::new(like.allocator(), Queues::new(like.allocator()))?;
        queues.freed.open(like)?;
        self.queues = Some(queues);
        Ok(())
    }

    /// Whether the place that is open for a send takes freed room.
    pub(crate) fn takes_freed(&self) -> bool
        ensures { result ≡ is_used_up self.now }
    {
        self.is_used_up()
    }

    /// Puts a send's clock into its place, and takes out that of the room that it uses.
    pub(crate) fn fill_send(&mut self, begin: &mut Clock<A>, takes_freed: bool)
        ensures { self.new ≡ record {
          capacity = self.old.capacity;
          sent = filled self.old.sent begin.old;
          freed = if takes_freed then drop 1 self.old.freed else self.old.freed;
          closed = self.old.closed;
        } }
    {
        if let Some(queues) = &mut self.queues {
            queues.sent.fill(begin);
            if takes_freed {
                queues.freed.pop(begin);
            }
        }
    }

    /// Puts a receive's clock into its place, and takes out that of the value that it got.
    pub(crate) fn fill_receive(&mut self, begin: &mut Clock<A>)
        ensures { self.new ≡ record {
          capacity = self.old.capacity;
          sent = drop 1 self.old.sent;
          freed = filled self.old.freed begin.old;
          closed = self.old.closed;
        } }
    {
        if let Some(queues) = &mut self.queues {
            queues.freed.fill(begin);
            queues.sent.pop(begin);
        }
    }
}
