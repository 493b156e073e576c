//! As many edges as a trace can have that the plain judge takes. Shorter traces are in tests/edges and tests/check.

use crate::rows::traced;
use race_edges::{Verdict, edges, plain_judge};
use race_records::Trace;
use std::alloc::Global;
use std::test::Fail;

// Goroutine a writes, a mutex is locked by main and unlocked by a so often, and main reads.
fn handed_on(alloc: Global, turns: usize) -> Result<Trace, Fail> {
    let mut events = String::from_str(alloc, "go main a p\nwrite a x 1 p\n")?;
    for _ in 0..turns {
        events.push_str("lock main m p\nunlock a m p\n")?;
    }
    events.push_str("read main x 1 p\n")?;
    traced(
        alloc,
        "gotrace 1\ngoroutine a\nvar x\nmutex m\n",
        events.as_str(),
    )
}

// Each unlock leads to each later lock: half a million edges, of which the judge needs a thousand.
#[test]
fn many_sources_are_judged(rt: HostRuntime) -> Result<(), Fail> {
    let trace = handed_on(rt.alloc(), 998)?;
    assert_eq!(rt; edges(rt.alloc(), &trace)?.len(), 497_504);
    assert!(rt; matches!(plain_judge(rt.alloc(), &trace)?, Verdict::Clean));
    Ok(())
}
