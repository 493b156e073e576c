//! The first event of a trace that breaks a rule.
ghost use Rattle.std.specs.Prelude.{IfOk};
ghost use Rattle.race_records.specs.Declarations.{capacity_of};
ghost use Rattle.race_legal.specs.Judged.{IsJudged};

use crate::{Broken, Replay, Rule};
use race_records::Trace;
use std::alloc::{AllocError, Allocator};

/// The first event that breaks a rule, and the least rule that it breaks.
#[derive(Clone, Copy, Debug, PartialEq, Eq)]
pub struct Illegal {
    /// The index of the event, counted from 0.
    pub at: u32,
    /// The rule.
    pub rule: Rule,
}

/// The first event of the trace that breaks a rule, with the least rule that it breaks. Fails for want of memory alone.
pub fn legal<A: Allocator + Copy, B: Allocator>(
    alloc: A,
    trace: &Trace<B>,
) -> Result<Option<Illegal>, AllocError>
    ensures { IfOk result (λ found. IsJudged (capacity_of trace.now.decls.declarations) trace.now.events found) }
{
    let mut replay = Replay::new(alloc, trace.decls())?;
    for at in 0..trace.len() {
        match replay.accept(trace.event(at)) {
            Ok(()) => {}
            Err(broken) => match broken {
                Broken::Rule(rule) => {
                    return Ok(Some(Illegal {
                        at: at as u32,
                        rule,
                    }));
                }
                Broken::OutOfMemory => return Err(AllocError),
            },
        }
    }
    Ok(None)
}
