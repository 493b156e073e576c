//! The pairs of accesses that may end another run, at most one for each variable. Nothing is proved of it but that it returns.

use crate::accesses::Accesses;
use crate::closure::Closure;
use crate::rows::{NONE, fill, push_row, row, rows_of, set_row};
use crate::scene::Scene;
use crate::shared::{Shared, access_at};
use crate::turned::Turned;
use race_records::{Kind, Trace};
use std::alloc::{AllocError, Allocator, Global};

// The group has no first accesses left.
const ENDED: u32 = NONE - 1;

/// How many pairs of two groups are tried in another order.
const TURNS: u32 = 24;

/// How many steps walks may take in all, of those that are left.
const WALKS: u64 = 65_536;

// The ways in which a pair's run is found.
const RECORDED: u32 = 0;

pub(crate) const TURNED: u32 = 1;

pub(crate) const WALKED: u32 = 2;

/// The first accesses of one group for the second ones of another: which of them may still come, and the next such of the other group. In
/// another order, the segment of the last second access and how many pairs were tried.
#[derive(Clone, Copy)]
struct Firsts {
    first: u32,
    next: u32,
    segment: u32,
    tries: u32,
}

const NO_FIRSTS: Firsts = Firsts {
    first: NONE,
    next: ENDED,
    segment: NONE,
    tries: 0,
};

/// What is found, and what it is found by.
///
/// The closure of what a goroutine's accesses want grows along them. From it each first access is tried, in their order: one that comes into
/// the closure with a second access is in it with each later one.
#[derive(Drop)]
pub(crate) struct Pairs<A: Allocator = Global> {
    shared: Shared<A>,
    accesses: Accesses<A>,
    // Of each group of second accesses a list of firsts.
    lists: Vec<u32, A>,
    firsts: Vec<Firsts, A>,
    /// Of each variable the pair.
    pub(crate) first: Vec<u32, A>,
    pub(crate) second: Vec<u32, A>,
    /// Of each variable how the run was found.
    pub(crate) way: Vec<u32, A>,
    /// Of each variable whether its search was cut off, as 0 and 1.
    pub(crate) is_cut: Vec<u32, A>,
    /// How many steps may be taken.
    pub(crate) limit: u64,
}

impl<A: Allocator + Copy> Pairs<A> {
    pub(crate) fn new(
        alloc: A,
        trace: &Trace<A>,
        shared: Shared<A>,
        candidates: &Vec<u32, A>,
        limit: u64,
    ) -> Result<Pairs<A>, AllocError> {
        let vars = candidates.len();
        let accesses = Accesses::new(alloc, trace, candidates, shared.begin)?;
        let groups = accesses.len();
        Ok(Pairs {
            shared,
            accesses,
            lists: rows_of(alloc, groups, NONE)?,
            firsts: Vec::new(alloc),
            first: rows_of(alloc, vars, NONE)?,
            second: rows_of(alloc, vars, NONE)?,
            way: rows_of(alloc, vars, RECORDED)?,
            is_cut: rows_of(alloc, vars, 0)?,
            limit,
        })
    }

    /// Whether there is nothing to search.
    pub(crate) fn is_empty(&self) -> bool {
        self.accesses.len() == 0
    }

    /// Searches all pairs whose second access stands before this index.
    pub(crate) fn search(
        &mut self,
        scene: &Scene<A>,
        closure: &mut Closure<A>,
        turned: &mut Turned<A>,
        end: u32,
    ) -> Result<(), AllocError> {
        fill(&mut self.lists, NONE);
        for goroutine in 0..scene.trace.decls().count(Kind::Goroutine) {
            self.search_seconds(scene, closure, turned, goroutine, end)?;
        }
        Ok(())
    }

    fn search_seconds(
        &mut self,
        scene: &Scene<A>,
        closure: &mut Closure<A>,
        turned: &mut Turned<A>,
        goroutine: u32,
        end: u32,
    ) -> Result<(), AllocError> {
        let mut second = self.accesses.begin_of(goroutine);
        if second >= end {
            return Ok(());
        }
        self.firsts.clear();
        closure.clear(scene.steps);
        for _ in 0..scene.trace.len() {
            if second >= end {
                break;
            }
            self.try_second(scene, closure, turned, second)?;
            second = self.accesses.later_than(second);
        }
        Ok(())
    }

    fn try_second(
        &mut self,
        scene: &Scene<A>,
        closure: &mut Closure<A>,
        turned: &mut Turned<A>,
        second: u32,
    ) -> Result<(), AllocError> {
        let (var, writes) = access_at(scene.trace, second);
        let own = scene.part(second);
        let is_found = row(&self.second, var) <= second;
        if is_found || !closure.keeps_order && row(&self.second, var) != NONE {
            return Ok(());
        }
        let group = self.accesses.find(var, own.who, writes);
        self.list_firsts(group, var, own.who, writes)?;
        if row(&self.lists, group) >= ENDED {
            return Ok(());
        }
        if self.is_over(closure, turned, var) {
            return Ok(());
        }
        closure.ask_before(scene.steps, own)?;
        self.try_lists(scene, closure, turned, group, second)
    }

    // Whether all steps are taken. Then the variable's search is cut off, where it isn't by walks.
    fn is_over(&mut self, closure: &Closure<A>, turned: &Turned<A>, var: u32) -> bool {
        let is_over = steps_of(closure, turned) > self.limit;
        if is_over && closure.keeps_blockers {
            set_row(&mut self.is_cut, var, 1);
        }
        is_over
    }

    // The firsts for the group's accesses.
    fn list_firsts(
        &mut self,
        group: u32,
        var: u32,
        who: u32,
        writes: bool,
    ) -> Result<(), AllocError> {
        if row(&self.lists, group) != NONE {
            return Ok(());
        }
        set_row(&mut self.lists, group, ENDED);
        let mut i = self.accesses.first_of(var);
        for _ in 0..self.accesses.len() {
            if i == NONE {
                break;
            }
            let other = self.accesses.group(i);
            if other.who != who && (writes || other.writes) {
                let next = row(&self.lists, group);
                let mut firsts = NO_FIRSTS;
                firsts.first = other.first;
                firsts.next = next;
                let new = push_row(&mut self.firsts, firsts)?;
                set_row(&mut self.lists, group, new);
            }
            i = other.next;
        }
        Ok(())
    }

    fn firsts(&self, i: u32) -> Firsts {
        if (i as usize) < self.firsts.len() {
            self.firsts[i as usize]
        } else {
            NO_FIRSTS
        }
    }

    fn set_firsts(&mut self, i: u32, firsts: Firsts) {
        if (i as usize) < self.firsts.len() {
            self.firsts[i as usize] = firsts;
        }
    }

    // Goes through the group's firsts for this second access, until a pair is found. Firsts that are used up leave the list.
    fn try_lists(
        &mut self,
        scene: &Scene<A>,
        closure: &mut Closure<A>,
        turned: &mut Turned<A>,
        group: u32,
        second: u32,
    ) -> Result<(), AllocError> {
        let mut before = NONE;
        let mut i = row(&self.lists, group);
        for _ in 0..self.firsts.len() {
            if i >= ENDED {
                break;
            }
            let next = self.firsts(i).next;
            let found = if closure.keeps_order {
                self.try_firsts(scene, closure, i, second)?
            } else {
                self.turn_firsts(scene, closure, turned, i, second)?
            };
            if found {
                return Ok(());
            }
            if self.firsts(i).first != NONE {
                before = i;
            } else if before == NONE {
                set_row(&mut self.lists, group, next);
            } else {
                let mut firsts = self.firsts(before);
                firsts.next = next;
                self.set_firsts(before, firsts);
            }
            i = next;
        }
        Ok(())
    }

    // The next one from this one on that isn't in the closure, and has no common lock with the second one.
    fn skip(&self, scene: &Scene<A>, closure: &Closure<A>, first: u32, second: u32) -> u32 {
        let set = row(&self.shared.set, second);
        let mut at = first;
        for _ in 0..scene.trace.len() {
            if at >= second {
                break;
            }
            let other = row(&self.shared.set, at);
            if !closure.has(scene.part(at)) && !self.shared.locks.exclude(other, set) {
                break;
            }
            at = self.accesses.next_of(at);
        }
        at
    }

    // Tries firsts until one of them may stand beside the second access.
    fn try_firsts(
        &mut self,
        scene: &Scene<A>,
        closure: &mut Closure<A>,
        i: u32,
        second: u32,
    ) -> Result<bool, AllocError> {
        let mut firsts = self.firsts(i);
        let mut first = self.skip(scene, closure, firsts.first, second);
        let mut found = false;
        closure.begin();
        for _ in 0..scene.trace.len() {
            if first >= second || closure.taken > self.limit {
                break;
            }
            let part = scene.part(first);
            closure.ask_before(scene.steps, part)?;
            found = !closure.has(part);
            if found {
                break;
            }
            first = self.skip(scene, closure, first, second);
        }
        closure.take_back();
        firsts.first = first;
        self.set_firsts(i, firsts);
        if found {
            self.find(scene, first, second, RECORDED);
        }
        Ok(found)
    }

    // The pair is found.
    fn find(&mut self, scene: &Scene<A>, first: u32, second: u32, way: u32) {
        let (var, _) = access_at(scene.trace, second);
        set_row(&mut self.first, var, first);
        set_row(&mut self.second, var, second);
        set_row(&mut self.way, var, way);
    }

    // The same in another order. Of the accesses between two events that are none, one is tried.
    fn turn_firsts(
        &mut self,
        scene: &Scene<A>,
        closure: &mut Closure<A>,
        turned: &mut Turned<A>,
        i: u32,
        second: u32,
    ) -> Result<bool, AllocError> {
        let mut firsts = self.firsts(i);
        let segment = row(&turned.segment, second);
        if firsts.segment == segment || firsts.tries >= TURNS {
            return Ok(false);
        }
        firsts.segment = segment;
        let mut first = self.skip(scene, closure, firsts.first, second);
        let mut last = NONE;
        let mut found = false;
        for _ in 0..scene.trace.len() {
            if first >= second || found || firsts.tries >= TURNS {
                break;
            }
            if row(&turned.segment, first) != last {
                last = row(&turned.segment, first);
                firsts.tries = firsts.tries.saturating_add(1);
                found = self.turn(scene, closure, turned, first, second)?;
            }
            if !found {
                let next = self.accesses.next_of(first);
                first = self.skip(scene, closure, next, second);
            }
        }
        self.set_firsts(i, firsts);
        if found {
            self.find(scene, first, second, way_of(closure));
        }
        Ok(found)
    }

    // Whether another order with the two at its end is found.
    fn turn(
        &mut self,
        scene: &Scene<A>,
        closure: &mut Closure<A>,
        turned: &mut Turned<A>,
        first: u32,
        second: u32,
    ) -> Result<bool, AllocError> {
        let (var, _) = access_at(scene.trace, second);
        if self.is_over(closure, turned, var) {
            return Ok(false);
        }
        if !closure.keeps_blockers {
            return walk(scene, closure, turned, first, second);
        }
        let (one, other) = (scene.part(first), scene.part(second));
        if !turned.complete(scene.steps, closure, one, other)? {
            return Ok(false);
        }
        let found = turned.find_order(scene, closure, second)?;
        closure.take_back();
        Ok(found)
    }

    /// Searches the variables that are left in other orders.
    pub(crate) fn search_turned(
        &mut self,
        scene: &Scene<A>,
        closure: &mut Closure<A>,
        turned: &mut Turned<A>,
        end: u32,
    ) -> Result<(), AllocError> {
        closure.keeps_order = false;
        self.limit = closure.taken.saturating_add(self.limit / 4);
        self.search(scene, closure, turned, end)?;
        closure.keeps_order = true;
        Ok(())
    }

    // Whether a variable is left of which no run is found.
    fn is_any_left(&self) -> bool {
        for (var, second) in self.second.iter().enumerate() {
            if let Some(var) = u32::try_from(var).ok() {
                if *second == NONE && self.accesses.first_of(var) != NONE {
                    return true;
                }
            }
        }
        false
    }

    /// Searches those that are still left by walks.
    pub(crate) fn search_walked(
        &mut self,
        scene: &Scene<A>,
        closure: &mut Closure<A>,
        turned: &mut Turned<A>,
        end: u32,
    ) -> Result<(), AllocError> {
        let taken = steps_of(closure, turned);
        if taken >= self.limit || !self.is_any_left() {
            return Ok(());
        }
        turned.walk.limit = WALKS.min(self.limit.saturating_sub(taken));
        self.limit = taken.saturating_add(turned.walk.limit);
        turned.walk.prepare(scene.trace)?;
        turned.course.clear();
        closure.keeps_order = false;
        closure.keeps_blockers = false;
        for is_wide in [false, true] {
            turned.walk.is_wide = is_wide;
            self.search(scene, closure, turned, end)?;
        }
        closure.keeps_order = true;
        closure.keeps_blockers = true;
        Ok(())
    }
}

// How runs are found where they needn't keep the order.
fn way_of<A: Allocator + Copy>(closure: &Closure<A>) -> u32 {
    if closure.keeps_blockers {
        TURNED
    } else {
        WALKED
    }
}

// How many steps were taken.
fn steps_of<A: Allocator + Copy>(closure: &Closure<A>, turned: &Turned<A>) -> u64 {
    closure
        .taken
        .saturating_add(turned.taken)
        .saturating_add(turned.walk.taken)
}

// Whether a walk to the two finds a run.
fn walk<A: Allocator + Copy>(
    scene: &Scene<A>,
    closure: &mut Closure<A>,
    turned: &mut Turned<A>,
    first: u32,
    second: u32,
) -> Result<bool, AllocError> {
    let (one, other) = (scene.part(first), scene.part(second));
    closure.begin();
    closure.ask_before(scene.steps, one)?;
    let mut found = false;
    if !closure.has(one) && !closure.has(other) {
        found = turned
            .walk
            .find(scene, closure, &mut turned.course, first, second)?;
    }
    closure.take_back();
    Ok(found)
}
