//! The verdict on a whole trace.
ghost use Rattle.std.specs.Prelude.{true, IfOk, option_map};
ghost use Rattle.race_verdict.specs.{Traces.HasVerdict, Verdicts.verdict_of};
ghost use Rattle.race_tool.specs.Finding as spec;

use crate::check::CheckOptions;
use race_edges::{EdgeFault, plain_judge};
use race_records::Trace;
use race_shards::{Judge, OpenGate, judge_alone};
use race_verdict::Verdict;
use std::alloc::{AllocError, Allocator};
use std::sync::Wait;
use std::thread::Threads;

/// The verdict on a trace, by the plain judge or by shards. None where there are more events than the
/// plain judge takes.
pub(crate) fn judge<T: Threads + Wait, A: Allocator + Copy + Send, B: Allocator>(
    rt: &T,
    alloc: A,
    trace: &Trace<B>,
    options: &CheckOptions,
) -> Result<Option<Verdict<A>>, AllocError>
    ensures { IfOk result (λ verdict. spec.IsVerdictOn options.now.plain trace.now (option_map verdict_of verdict)) }
{
    if options.plain {
        judge_plainly(alloc, trace)
    } else {
        Ok(Some(judge_by_shards(rt, alloc, trace, options)?))
    }
}

/// The verdict on a trace by the plain judge.
pub(crate) fn judge_plainly<A: Allocator + Copy, B: Allocator>(
    alloc: A,
    trace: &Trace<B>,
) -> Result<Option<Verdict<A>>, AllocError>
    ensures { IfOk result (λ verdict. spec.IsVerdictOn true trace.now (option_map verdict_of verdict)) }
{
    match plain_judge(alloc, trace) {
        Ok(verdict) => Ok(Some(verdict)),
        Err(EdgeFault::TooLong) => Ok(None),
        Err(EdgeFault::OutOfMemory) => Err(AllocError),
        // An illegal trace has a verdict.
        Err(EdgeFault::Illegal) => unreachable!(),
    }
}

// The verdict on a trace by shards; one works alone, and wants no blocks.
fn judge_by_shards<T: Threads + Wait, A: Allocator + Copy + Send, B: Allocator>(
    rt: &T,
    alloc: A,
    trace: &Trace<B>,
    options: &CheckOptions,
) -> Result<Verdict<A>, AllocError>
    ensures { IfOk result (λ verdict. HasVerdict trace.now (verdict_of verdict)) }
{
    if options.shards == 1 {
        return judge_alone(alloc, trace);
    }
    match Judge::judge(rt, alloc, trace, options.shards, options.block, &OpenGate) {
        Ok(verdict) => Ok(verdict),
        Err(_) => Err(AllocError),
    }
}
