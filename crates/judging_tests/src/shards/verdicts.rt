//! The verdict of the judge that has no threads, and numbers that the others refuse. Their verdicts are in tests/check.

use crate::rows::traced;
use race_legal::{Illegal, Rule};
use race_records::Trace;
use race_shards::{Judge, JudgeFault, OpenGate, judge_alone};
use race_verdict::{Race, Verdict};
use std::alloc::Global;
use std::sync::Wait;
use std::test::Fail;
use std::thread::Threads;

/// What is said of a trace.
#[derive(Clone, Copy, PartialEq, Eq)]
pub(crate) enum Told<'a> {
    Illegal(Illegal),
    Races(&'a [Race]),
}

/// What the verdict says: a clean trace has no race.
pub(crate) fn said_by(verdict: &Verdict) -> Told<'_> {
    match verdict {
        Verdict::Illegal(illegal) => Told::Illegal(*illegal),
        Verdict::Clean => Told::Races(&[]),
        Verdict::Races(races) => Told::Races(races.as_slice()),
    }
}

/// Two goroutines and three variables.
pub(crate) const DECLARED: &str = "gotrace 1\ngoroutine a\nvar x\nvar y\nvar z\n";

// Nine goroutines, more than a clock has counts in place, read x in events 9 to 17.
const NINE_READ: &str = "\
gotrace 1
var x
chan c 0
goroutine r1
goroutine r2
goroutine r3
goroutine r4
goroutine r5
goroutine r6
goroutine r7
goroutine r8
goroutine r9
go main r1 p
go main r2 p
go main r3 p
go main r4 p
go main r5 p
go main r6 p
go main r7 p
go main r8 p
go main r9 p
read r1 x 0 p
read r2 x 0 p
read r3 x 0 p
read r4 x 0 p
read r5 x 0 p
read r6 x 0 p
read r7 x 0 p
read r8 x 0 p
read r9 x 0 p
meet r1 main c 1 p q
meet r2 main c 1 p q
meet r3 main c 1 p q
meet r4 main c 1 p q
meet r5 main c 1 p q
meet r6 main c 1 p q
meet r7 main c 1 p q
";

// Declarations, events, and what is said of them.
static ROWS: [(&str, &str, Told<'static>); 7] = [
    (DECLARED, "", Told::Races(&[])),
    // The race on z comes first, and that on x is told first.
    (
        DECLARED,
        "go main a p\nwrite main z 1 p\nwrite a z 2 p\nwrite main y 1 p\nwrite main x 1 p\nwrite a x 2 p\n",
        Told::Races(&[
            Race {
                var: 0,
                first: 4,
                second: 5,
            },
            Race {
                var: 2,
                first: 1,
                second: 2,
            },
        ]),
    ),
    // Each writes what it alone reads or writes, or what was written before its start.
    (
        DECLARED,
        "write main x 1 p\ngo main a p\nwrite main y 1 p\nread a x 1 p\nwrite a z 1 p\n",
        Told::Races(&[]),
    ),
    // A race before an illegal event isn't told.
    (
        DECLARED,
        "go main a p\nwrite main z 1 p\nwrite a z 2 p\nread main x 1 p\nexit main p\n",
        Told::Illegal(Illegal {
            at: 3,
            rule: Rule::StaleRead,
        }),
    ),
    // The last of the readers that main hasn't met before it writes.
    (
        NINE_READ,
        "write main x 1 p\n",
        Told::Races(&[Race {
            var: 0,
            first: 17,
            second: 25,
        }]),
    ),
    (
        NINE_READ,
        "meet r8 main c 1 p q\nwrite main x 1 p\n",
        Told::Races(&[Race {
            var: 0,
            first: 17,
            second: 26,
        }]),
    ),
    (
        NINE_READ,
        "meet r8 main c 1 p q\nmeet r9 main c 1 p q\nwrite main x 1 p\n",
        Told::Races(&[]),
    ),
];

fn is_told(alloc: Global, declared: &str, events: &str, want: Told<'_>) -> Result<bool, Fail> {
    let trace = traced(alloc, declared, events)?;
    Ok(said_by(&judge_alone(alloc, &trace)?) == want)
}

#[test]
fn a_trace_is_judged_alone(rt: HostRuntime) -> Result<(), Fail> {
    for (at, (declared, events, want)) in ROWS.iter().enumerate() {
        assert!(rt; is_told(rt.alloc(), *declared, *events, *want)?, "{at}");
    }
    Ok(())
}

// How many shards, how long a block, and why there is no verdict.
static LIMITS: [(usize, usize, JudgeFault); 6] = [
    (0, 0, JudgeFault::BadShards),
    (0, 1, JudgeFault::BadShards),
    (65, 0, JudgeFault::BadShards),
    (65, 1, JudgeFault::BadShards),
    (64, 0, JudgeFault::BadBlock),
    (64, 65_537, JudgeFault::BadBlock),
];

fn fault_of<R: Threads + Wait>(
    rt: &R,
    alloc: Global,
    trace: &Trace,
    shards: usize,
    block: usize,
) -> Option<JudgeFault> {
    Judge::judge(rt, alloc, trace, shards, block, &OpenGate).err()
}

#[test]
fn numbers_out_of_their_limits_are_refused(rt: HostRuntime) -> Result<(), Fail> {
    let trace = traced(rt.alloc(), DECLARED, "")?;
    for &(shards, block, fault) in &LIMITS {
        assert_eq!(rt;
            fault_of(&rt, rt.alloc(), &trace, shards, block),
            Some(fault)
        );
    }
    Ok(())
}
