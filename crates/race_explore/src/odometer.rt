//! The picks of the next run.
ghost use Rattle.std.specs.Prelude.{◌≡◌, ◌<◌, ◌+◌, ◌++◌, ◌∷◌, [], ◌^◌, All, Some, None, IfOk, OnOk, MatchBool, map};
ghost use Rattle.race_explore.specs.Lists.{next_picks};

use race_record::Fork;
use std::alloc::{AllocError, Allocator};

/// Makes these picks those of the run that comes after the one with these events, which are used up: the last pick for
/// which there was a choice of the next number is one greater, and what comes after it is left out. False where there is
/// none.
pub(crate) fn advance<A: Allocator, B: Allocator>(
    forks: &mut Vec<Fork, B>,
    picks: &mut Vec<u64, A>,
) -> Result<bool, AllocError>
    requires { All (λ f. f.pick + 1 < 2 ^ 64) forks.old.items }
    ensures { IfOk result (λ more.
        MatchBool more (next_picks forks.old.items ≡ Some picks.new.items) (next_picks forks.old.items ≡ None)) }
{
    while let Some(last) = forks.pop() {
        if last.more {
            write_picks(forks.as_slice(), last.pick + 1, picks)?;
            return Ok(true);
        }
    }
    Ok(false)
}

// Makes the picks those of the events, and then this one.
fn write_picks<A: Allocator>(
    forks: &[Fork],
    last: u64,
    picks: &mut Vec<u64, A>,
) -> Result<(), AllocError>
    ensures { OnOk result (picks.new.items ≡ map (λ f. f.pick) forks.now ++ last ∷ []) }
{
    picks.clear();
    for fork in forks {
        picks.push(fork.pick)?;
    }
    picks.push(last)?;
    Ok(())
}
