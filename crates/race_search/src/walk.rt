//! Runs that are found event by event, by going back where nothing can come. Nothing is proved of it but that it returns: each is tested.

use crate::closure::Closure;
use crate::course::Course;
use crate::rows::{NONE, fill, push_row, row, rows_of, set_row};
use crate::scene::Scene;
use crate::shared::{access_at, access_of};
use race_predict::partner;
use race_records::{Kind, Op, Trace};
use std::alloc::{AllocError, Allocator, Global};

/// How often a walk to a pair may go back.
const BACKS: u32 = 2048;

/// How far behind the second access what a run has may stand in the recorded order.
const NEAR: u32 = 1024;

/// How many states are remembered.
const STATES: u64 = 4096;

// How far the places of one rank are behind those of the rank before it.
const RANK: u64 = 0x1_0000_0000;

// Nothing can come, or nothing else needs to.
const NO_PLACE: u64 = u64::MAX;

const LAST_PLACE: u64 = NO_PLACE - 1;

// Several goroutines have the variable.
const SEVERAL: u32 = NONE - 1;

/// An event that came, and what it took the place of: the variable's last write, the channel's newest or oldest send.
#[derive(Clone, Copy)]
struct Came {
    at: u32,
    old: u32,
}

/// A run that goes on by any event that can come, until two accesses are what their goroutines do next. What both want comes first, by the recorded
/// order, and of it what opens a section or a message that stays open last. Where nothing can come, or the state was met before, it goes back.
#[derive(Drop)]
pub(crate) struct Walk<A: Allocator = Global> {
    // Of each goroutine its next event. Of each event the next one of its goroutine, and that of the other one that takes part.
    next: Vec<u32, A>,
    links: Vec<u32, A>,
    // Of each variable its goroutine.
    owner: Vec<u32, A>,
    run: Vec<Came, A>,
    // The two accesses that are to come next, and how often the walk to them went back.
    first: u32,
    second: u32,
    backs: u32,
    // A sum for the state of the run; sums that were met.
    state: u64,
    met: Vec<u64, A>,
    // The orders that were found, and of each variable where its own one begins and ends there.
    orders: Vec<u32, A>,
    begin: Vec<u32, A>,
    end: Vec<u32, A>,
    /// Whether what the accesses don't want comes, too.
    pub(crate) is_wide: bool,
    /// How many steps were taken, and how many may be.
    pub(crate) taken: u64,
    pub(crate) limit: u64,
}

// A number that looks like chance, of an event and another number.
fn mix(at: u32, kind: u32) -> u64 {
    let both = u64::from(at) ^ u64::from(kind).rotate_left(32);
    let sum = both.wrapping_mul(0x9e37_79b9_7f4a_7c15);
    (sum ^ sum.rotate_right(29)).wrapping_mul(0xbf58_476d_1ce4_e5b9)
}

// What the event adds to the state: that it came, and which write is the last now, or which send it follows.
fn sum_of<A: Allocator>(trace: &Trace<A>, came: Came) -> u64 {
    if came.at as usize >= trace.len() {
        return 0;
    }
    let sum = mix(came.at, 0);
    match &trace.event(came.at as usize).op {
        Op::Write(_, _) => sum
            .wrapping_add(mix(came.at, 1))
            .wrapping_sub(mix(came.old, 1)),
        Op::Send(_, _) => sum.wrapping_add(mix(came.old, came.at)),
        _ => sum,
    }
}

impl<A: Allocator + Copy> Walk<A> {
    /// No run.
    pub(crate) fn new(alloc: A, trace: &Trace<A>) -> Result<Walk<A>, AllocError> {
        let decls = trace.decls();
        let vars = decls.count(Kind::Var) as usize;
        Ok(Walk {
            next: rows_of(alloc, decls.count(Kind::Goroutine) as usize, NONE)?,
            links: Vec::new(alloc),
            owner: rows_of(alloc, vars, NONE)?,
            run: Vec::new(alloc),
            first: NONE,
            second: NONE,
            backs: 0,
            state: 0,
            met: Vec::new(alloc),
            orders: Vec::new(alloc),
            begin: rows_of(alloc, vars, 0)?,
            end: rows_of(alloc, vars, 0)?,
            is_wide: false,
            taken: 0,
            limit: 0,
        })
    }

    /// Puts down which events each goroutine did.
    pub(crate) fn prepare(&mut self, trace: &Trace<A>) -> Result<(), AllocError> {
        fill(&mut self.next, NONE);
        fill(&mut self.owner, NONE);
        self.met.clear();
        self.links.clear();
        for _ in 0..STATES {
            self.met.push(0)?;
        }
        for _ in 0..trace.len() {
            self.links.push(NONE)?;
            self.links.push(NONE)?;
        }
        for count in 0..trace.len() {
            let at = trace.len() - 1 - count;
            self.put_first(trace, at as u32);
        }
        Ok(())
    }

    // The event is the first one of its goroutines.
    fn put_first(&mut self, trace: &Trace<A>, at: u32) {
        if at as usize >= trace.len() {
            return;
        }
        let event = trace.event(at as usize);
        let link = at.saturating_mul(2);
        set_row(&mut self.links, link, row(&self.next, event.who));
        set_row(&mut self.next, event.who, at);
        if let Some(other) = partner(&event.op) {
            let link = link.saturating_add(1);
            set_row(&mut self.links, link, row(&self.next, other));
            set_row(&mut self.next, other, at);
        }
        let (var, _) = access_of(event);
        let owner = row(&self.owner, var);
        if owner == NONE {
            set_row(&mut self.owner, var, event.who);
        } else if owner != event.who {
            set_row(&mut self.owner, var, SEVERAL);
        }
    }

    // Whether the event can come whenever it is next, and keeps no other from coming. Then no other needs to come in its place.
    fn is_free(&self, scene: &Scene<A>, at: u32) -> bool {
        if at as usize >= scene.trace.len() {
            return false;
        }
        let event = scene.trace.event(at as usize);
        let (var, _) = access_of(event);
        matches!(event.op, Op::Go(_)) || row(&self.owner, var) == event.who
    }

    // The event comes.
    fn take(
        &mut self,
        scene: &Scene<A>,
        course: &mut Course<A>,
        at: u32,
    ) -> Result<(), AllocError> {
        if at as usize >= scene.trace.len() {
            return Ok(());
        }
        let old = course.old(scene.trace, at);
        let came = Came { at, old };
        course.take(scene.trace, at);
        self.run.push(came)?;
        self.state = self.state.wrapping_add(sum_of(scene.trace, came));
        let event = scene.trace.event(at as usize);
        let link = at.saturating_mul(2);
        set_row(&mut self.next, event.who, row(&self.links, link));
        if let Some(other) = partner(&event.op) {
            let link = link.saturating_add(1);
            set_row(&mut self.next, other, row(&self.links, link));
        }
        Ok(())
    }

    // Takes back the last event, or `NONE`.
    fn take_back(&mut self, scene: &Scene<A>, course: &mut Course<A>) -> u32 {
        let Some(came) = self.run.pop() else {
            return NONE;
        };
        if came.at as usize >= scene.trace.len() {
            return NONE;
        }
        course.take_back(scene.trace, came.at, came.old);
        self.state = self.state.wrapping_sub(sum_of(scene.trace, came));
        let event = scene.trace.event(came.at as usize);
        set_row(&mut self.next, event.who, came.at);
        if let Some(other) = partner(&event.op) {
            set_row(&mut self.next, other, came.at);
        }
        came.at
    }

    // Whether the event is what each of its participants does next, and others may follow it.
    fn is_next(&self, scene: &Scene<A>, at: u32) -> bool {
        if at as usize >= scene.trace.len() {
            return false;
        }
        let event = scene.trace.event(at as usize);
        if matches!(event.op, Op::Exit) || matches!(event.op, Op::Fault(_)) {
            return false;
        }
        match partner(&event.op) {
            Some(other) => row(&self.next, event.who) == at && row(&self.next, other) == at,
            None => row(&self.next, event.who) == at,
        }
    }

    // The place of the event among those that can come: by what the accesses want, and then by its index.
    fn place(&self, scene: &Scene<A>, closure: &Closure<A>, at: u32) -> u64 {
        let rank = if !closure.has(scene.part(at)) {
            2
        } else if stays_open(scene, closure, at) {
            1
        } else {
            0
        };
        RANK * rank + u64::from(at) + 1
    }

    // The place of the first event behind this place that can come, and is neither of the two.
    fn next_place(
        &self,
        scene: &Scene<A>,
        closure: &Closure<A>,
        course: &Course<A>,
        after: u64,
    ) -> u64 {
        let behind = self.second.saturating_add(NEAR);
        let mut best = NO_PLACE;
        for at in self.next.iter() {
            let at = *at;
            let comes = closure.has(scene.part(at)) || self.is_wide && at < behind;
            if comes && at != self.first && at != self.second {
                let place = self.place(scene, closure, at);
                if place > after
                    && place < best
                    && self.is_next(scene, at)
                    && course.can_come(scene.trace, at)
                {
                    best = place;
                }
            }
        }
        best
    }

    // Whether the two are what their goroutines do next.
    fn is_there(&self, scene: &Scene<A>) -> bool {
        row(&self.next, scene.part(self.first).who) == self.first
            && row(&self.next, scene.part(self.second).who) == self.second
    }

    // Whether the state wasn't met yet.
    fn is_new(&mut self) -> bool {
        let i = (self.state % STATES) as usize;
        if i >= self.met.len() || self.met[i] == self.state {
            return false;
        }
        self.met[i] = self.state;
        true
    }

    // Goes one step on, or back. Returns the place behind which to go on, or `NO_PLACE` where no run is left.
    fn step(
        &mut self,
        scene: &Scene<A>,
        closure: &Closure<A>,
        course: &mut Course<A>,
        after: u64,
    ) -> Result<u64, AllocError> {
        let place = self.next_place(scene, closure, course, after);
        if place != NO_PLACE {
            self.take(scene, course, (place.saturating_sub(1) % RANK) as u32)?;
            if self.is_new() {
                return Ok(0);
            }
        }
        self.backs = self.backs.saturating_add(1);
        let at = self.take_back(scene, course);
        if at == NONE {
            return Ok(NO_PLACE);
        }
        if self.is_free(scene, at) {
            return Ok(LAST_PLACE);
        }
        Ok(self.place(scene, closure, at))
    }

    // Goes on until the two come next, or for as long as it may. Whether they do.
    fn go(
        &mut self,
        scene: &Scene<A>,
        closure: &Closure<A>,
        course: &mut Course<A>,
    ) -> Result<bool, AllocError> {
        let cost = self.next.len() as u64 / 8 + 1;
        let mut after = 0;
        self.backs = 0;
        self.state = mix(self.first, self.second).wrapping_add(u64::from(self.is_wide));
        for _ in 0..u32::MAX {
            if self.is_there(scene) {
                return Ok(true);
            }
            if after == NO_PLACE || self.backs > BACKS || self.taken > self.limit {
                break;
            }
            self.taken = self.taken.saturating_add(cost);
            after = self.step(scene, closure, course, after)?;
        }
        Ok(false)
    }

    /// Whether a run is found, by the closure of what both want, that the two may end. The run is kept, and the course is what it was.
    pub(crate) fn find(
        &mut self,
        scene: &Scene<A>,
        closure: &Closure<A>,
        course: &mut Course<A>,
        first: u32,
        second: u32,
    ) -> Result<bool, AllocError> {
        self.first = first;
        self.second = second;
        let found = self.go(scene, closure, course)?;
        if found {
            self.keep(scene)?;
        }
        for _ in 0..scene.trace.len() {
            if self.take_back(scene, course) == NONE {
                break;
            }
        }
        Ok(found)
    }

    // Keeps the run for the variable of the two.
    fn keep(&mut self, scene: &Scene<A>) -> Result<(), AllocError> {
        let (var, _) = access_at(scene.trace, self.second);
        let begin = push_row(&mut self.orders, NONE)?;
        for came in self.run.iter() {
            self.orders.push(came.at)?;
        }
        self.orders.push(self.first)?;
        let last = push_row(&mut self.orders, self.second)?;
        set_row(&mut self.begin, var, begin.saturating_add(1));
        set_row(&mut self.end, var, last.saturating_add(1));
        Ok(())
    }

    /// The run that was found for the variable.
    pub(crate) fn order(&self, alloc: A, var: u32) -> Result<Vec<u32, A>, AllocError> {
        let mut order = Vec::new(alloc);
        for i in row(&self.begin, var)..row(&self.end, var) {
            order.push(row(&self.orders, i))?;
        }
        Ok(order)
    }
}

// Whether the event begins what doesn't end among the events that are wanted.
fn stays_open<A: Allocator + Copy>(scene: &Scene<A>, closure: &Closure<A>, at: u32) -> bool {
    if at as usize >= scene.trace.len() {
        return false;
    }
    let begins = match &scene.trace.event(at as usize).op {
        Op::Lock(_) => true,
        Op::TryLock(_) => true,
        Op::RLock(_) => true,
        Op::TryRLock(_) => true,
        Op::Send(_, _) => true,
        _ => false,
    };
    begins && !closure.has(scene.part(scene.wants.end(at)))
}
