//! The search for pairs of accesses that another run may bring together. Nothing is proved of it but that it returns.

use crate::candidates::candidates_of;
use crate::closure::Closure;
use crate::pairs::{Pairs, TURNED, WALKED};
use crate::proposal::{propose, propose_turned};
use crate::rows::{NONE, row, rows_of, set_row};
use crate::scene::Scene;
use crate::shared::Shared;
use crate::steps::Steps;
use crate::turned::Turned;
use crate::wants::{Pairing, Wants};
use race_records::{Kind, Trace};
use race_verdict::Verdict;
use std::alloc::{AllocError, Allocator, Global};

/// How many steps the search may take for each event, and how many more.
const STEPS: u64 = 64;

const MORE_STEPS: u64 = 1_048_576;

/// A variable for which a run is proposed, and the index of the recorded event with which it ends.
#[derive(Clone, Copy)]
pub(crate) struct Candidate {
    pub(crate) end: u32,
    pub(crate) var: u32,
}

/// What the search knows of the trace, and what it found.
pub(crate) struct Search<A: Allocator = Global> {
    wants: Wants<A>,
    steps: Steps<A>,
    closure: Closure<A>,
    pairs: Pairs<A>,
    turned: Turned<A>,
}

impl<A: Allocator> Drop for Search<A> {
    fn drop(self) {
        let Search {
            wants: _,
            steps: _,
            closure: _,
            pairs: _,
            turned: _,
        } = self;
    }
}

// Of each variable whether it is searched, as 0 and 1: those of which the verdict names no race, or this one alone.
fn searched_by<A: Allocator + Copy>(
    alloc: A,
    recorded: &Trace<A>,
    verdict: &Verdict<A>,
    alone: Option<u32>,
) -> Result<Vec<u32, A>, AllocError> {
    let vars = recorded.decls().count(Kind::Var);
    let all = if alone.is_some() { 0 } else { 1 };
    let mut searched = rows_of(alloc, vars as usize, all)?;
    if let Some(var) = alone {
        set_row(&mut searched, var, 1);
    }
    match verdict {
        Verdict::Illegal(_) => return rows_of(alloc, vars as usize, 0),
        Verdict::Clean => {}
        Verdict::Races(races) => {
            for race in races.as_slice() {
                set_row(&mut searched, race.var, 0);
            }
        }
    }
    Ok(searched)
}

impl<A: Allocator + Copy> Search<A> {
    /// What is known before any pair is searched, of the variables or of this one alone.
    pub(crate) fn new(
        alloc: A,
        recorded: &Trace<A>,
        verdict: &Verdict<A>,
        alone: Option<u32>,
        turned: bool,
    ) -> Result<Search<A>, AllocError> {
        let mut searched = searched_by(alloc, recorded, verdict, alone)?;
        let mut pairing = Pairing::new(alloc, recorded)?;
        let mut shared = Shared::new(alloc, recorded)?;
        for at in 0..recorded.len() {
            let event = recorded.event(at);
            pairing.note(recorded, at as u32, event);
            shared.note(recorded, &pairing, at as u32, event)?;
        }
        for var in 0..recorded.decls().count(Kind::Var) {
            if !shared.may_race(var) {
                set_row(&mut searched, var, 0);
            }
        }
        let (wants, room) = pairing.finish();
        let candidates = candidates_of(alloc, recorded, &wants, room, &shared, searched)?;
        let limit = (recorded.len() as u64)
            .saturating_mul(STEPS)
            .saturating_add(MORE_STEPS);
        let pairs = Pairs::new(alloc, recorded, shared, &candidates, limit)?;
        let turnable = if turned && !pairs.is_empty() {
            recorded.len()
        } else {
            0
        };
        let steps = Steps::new(alloc, recorded)?;
        Ok(Search {
            closure: Closure::new(alloc, recorded)?,
            pairs,
            turned: Turned::new(alloc, recorded, turnable)?,
            wants,
            steps,
        })
    }

    /// Goes through the pairs whose second access stands before this index, in turned orders too where so.
    pub(crate) fn find(
        &mut self,
        recorded: &Trace<A>,
        end: u32,
        turned: bool,
    ) -> Result<(), AllocError> {
        if self.pairs.is_empty() {
            return Ok(());
        }
        self.steps.go_on(recorded, &self.wants, end)?;
        self.closure.make_room(&self.steps)?;
        let scene = Scene {
            trace: recorded,
            wants: &self.wants,
            steps: &self.steps,
        };
        let (closure, orders) = (&mut self.closure, &mut self.turned);
        self.pairs.search(&scene, closure, orders, end)?;
        if turned {
            self.pairs.search_turned(&scene, closure, orders, end)?;
            self.pairs.search_walked(&scene, closure, orders, end)?;
        }
        Ok(())
    }

    /// The events of a run that should end with a race on the variable, where a pair was found.
    pub(crate) fn order(
        &mut self,
        alloc: A,
        recorded: &Trace<A>,
        var: u32,
    ) -> Result<Option<Vec<u32, A>>, AllocError> {
        let first = row(&self.pairs.first, var);
        let second = row(&self.pairs.second, var);
        if first == NONE {
            return Ok(None);
        }
        let scene = Scene {
            trace: recorded,
            wants: &self.wants,
            steps: &self.steps,
        };
        let closure = &mut self.closure;
        if row(&self.pairs.way, var) == WALKED {
            let order = self.turned.walk.order(alloc, var)?;
            return Ok(Some(order));
        }
        if row(&self.pairs.way, var) == TURNED {
            return propose_turned(alloc, &scene, closure, &mut self.turned, first, second);
        }
        let order = propose(alloc, &scene, closure, first, second)?;
        Ok(Some(order))
    }

    /// The variables with a proposal, those first whose runs take the fewest recorded events.
    pub(crate) fn candidates(&self, alloc: A) -> Result<Vec<Candidate, A>, AllocError> {
        let mut candidates = Vec::new(alloc);
        for (at, end) in self.pairs.second.iter().enumerate() {
            if let Some(var) = u32::try_from(at).ok() {
                if *end != NONE {
                    candidates.push(Candidate { end: *end, var })?;
                }
            }
        }
        candidates.sort_by_key(|candidate| candidate.end)?;
        Ok(candidates)
    }

    /// How many variables weren't searched to their end.
    pub(crate) fn not_searched(&self) -> u32 {
        let mut count = 0u32;
        for (at, cut) in self.pairs.is_cut.iter().enumerate() {
            if *cut == 1 && at < self.pairs.first.len() && self.pairs.first[at] == NONE {
                count = count.saturating_add(1);
            }
        }
        count
    }
}
