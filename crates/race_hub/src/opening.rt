//! What a hub needs before its first event, and why it can't be made.
ghost use Rattle.std.specs.Prelude.{◌≡◌, ◌==◌, ◌||◌, ◌≤◌, [], nat_lt, map, Some, IfOk, IsNone};
ghost use Rattle.race_records.specs.{declared.{kind.Kind.Kind, trace.TheConstants.MAX_EVENTS}, Declarations.count_of};
ghost use Rattle.race_hub.specs.Opening.{hub_fault};

use crate::logs::Logs;
use race_records::{Decls, Kind, MAX_EVENTS};
use std::alloc::{AllocError, Allocator};
use thiserror::Error;

/// Why no hub is made. The first that holds is told.
#[derive(Clone, Copy, Debug, PartialEq, Eq, Error)]
pub enum HubFault {
    /// There isn't one routine for each goroutine, main first.
    #[error("there is not one routine for each goroutine")]
    WrongCount,
    /// The limit is 0, or more than a trace can have.
    #[error("the limit is out of range")]
    BadLimit,
    /// A growth was refused.
    #[error("out of memory")]
    OutOfMemory,
}

/// Each goroutine's routine in its place, and a log without a step beside it.
pub(crate) fn seated<R: Drop, A: Allocator + Copy>(
    alloc: A,
    routines: Vec<R, A>,
) -> Result<(Vec<Option<R>, A>, Logs<A>), AllocError>
    ensures routines { IfOk result (λ table. table.0.items ≡ map Some routines.items) }
    ensures logs { IfOk result (λ table. table.1.logs ≡ map (λ _. []) routines.items) }
{
    let mut places = Vec::new(alloc);
    let mut logs = Logs::new(alloc);
    for routine in routines {
        places.push(Some(routine))?;
        logs.push_blank(alloc)?;
    }
    Ok((places, logs))
}

// Whether no trace can have so many events.
fn is_bad_limit(limit: u32) -> bool
    ensures { result ≡ ((limit == 0) || nat_lt MAX_EVENTS limit) }
{
    limit == 0 || limit as usize > MAX_EVENTS
}

/// Why no hub is made, memory aside.
#[tactic(auto, unfolding(crate::specs::Opening::hub_fault))]
pub(crate) fn fault_of<A: Allocator>(
    decls: &Decls<A>,
    limit: u32,
    routines: usize,
) -> Option<HubFault>
    ensures fault { result ≡ hub_fault decls.now limit routines }
    ensures count { IsNone result → routines ≡ count_of Kind.Goroutine decls.now.declarations }
    ensures few { IsNone result → limit ≤ MAX_EVENTS }
{
    if routines != decls.count(Kind::Goroutine) as usize {
        return Some(HubFault::WrongCount);
    }
    if is_bad_limit(limit) {
        return Some(HubFault::BadLimit);
    }
    None
}
