//! A judge that is fed block by block. What is noted with its verdict is in tests/check.
ghost use Rattle.std.specs.Prelude.{◌≤◌, []};
ghost use Rattle.race_shards.specs.Judging.{StandsFor};

use crate::rows::traced;
use crate::shards::verdicts::Told::Races;
use crate::shards::verdicts::{DECLARED, Told, said_by};
use race_legal::{Illegal, Rule};
use race_records::Trace;
use race_shards::{Gate, Judge, JudgeFault};
use race_verdict::{Race, Verdict};
use std::alloc::Global;
use std::sync::Wait;
use std::sync::atomic::{AtomicU64, Ordering};
use std::test::Fail;
use std::thread::Threads;

// How often each of two shards begins, and how often any other does.
#[derive(Drop)]
struct Counting {
    first: AtomicU64,
    second: AtomicU64,
    others: AtomicU64,
}

impl Counting {
    fn new() -> Counting {
        Counting {
            first: AtomicU64::new(0),
            second: AtomicU64::new(0),
            others: AtomicU64::new(0),
        }
    }

    fn counts(&self) -> [u64; 3] {
        [
            self.first.load(Ordering::SeqCst),
            self.second.load(Ordering::SeqCst),
            self.others.load(Ordering::SeqCst),
        ]
    }
}

impl Gate for Counting {
    fn enter(&self, shard: usize) {
        let count = match shard {
            0 => &self.first,
            1 => &self.second,
            _ => &self.others,
        };
        count.fetch_add(1, Ordering::SeqCst);
    }
}

const LEGAL: &str =
    "go main a p\nwrite main z 1 p\nwrite a z 2 p\nwrite main y 1 p\nwrite main x 1 p\nwrite a x 2 p\n";

// Event 4 breaks a rule.
const BROKEN: &str =
    "go main a p\nwrite main z 1 p\nwrite a z 2 p\nwrite main y 1 p\nread main x 1 p\nwrite a x 2 p\n";

const ON_X: Race = Race {
    var: 0,
    first: 4,
    second: 5,
};

const ON_Z: Race = Race {
    var: 2,
    first: 1,
    second: 2,
};

const BREAKS: Illegal = Illegal {
    at: 4,
    rule: Rule::StaleRead,
};

// Events, the indexes at which their blocks end, what is said of them, and in how many blocks each shard begins.
type Row = (&'static str, &'static [usize], Told<'static>, u64);

static ROWS: [Row; 7] = [
    (LEGAL, &[6], Races(&[ON_X, ON_Z]), 1),
    (LEGAL, &[2, 4, 6], Races(&[ON_X, ON_Z]), 3),
    // Nothing begins in an empty block.
    (LEGAL, &[0, 2, 2, 2, 6, 6], Races(&[ON_X, ON_Z]), 2),
    (LEGAL, &[0, 0], Races(&[]), 0),
    // Of events that it isn't fed a judge says nothing.
    (LEGAL, &[3], Races(&[ON_Z]), 1),
    // Nothing begins in the block of an illegal event, nor behind it.
    (BROKEN, &[2, 5, 6], Told::Illegal(BREAKS), 1),
    (BROKEN, &[6], Told::Illegal(BREAKS), 0),
];

// Where the block ends that begins here, and is to end there.
fn end_from(at: usize, end: usize, len: usize) -> usize
    requires { at ≤ len }
    ensures later { at ≤ result }
    ensures inside { result ≤ len }
{
    if end < at {
        at
    } else if end > len {
        len
    } else {
        end
    }
}

// Feeds the trace in blocks that end at these indexes.
fn feed_each<R: Threads + Wait>(
    rt: &R,
    judge: &mut Judge,
    trace: &Trace,
    ends: &[usize],
    gate: &Counting,
) -> Result<(), JudgeFault>
    requires { StandsFor trace.now.decls.declarations judge.old [] }
{
    let events = trace.events();
    let mut at = 0;
    for end in ends {
        let to = end_from(at, *end, events.len());
        judge.feed(rt, &events[at..to], gate)?;
        at = to;
    }
    Ok(())
}

// The verdict of two shards, and how many events were taken.
fn fed<R: Threads + Wait>(
    rt: &R,
    alloc: Global,
    trace: &Trace,
    ends: &[usize],
    gate: &Counting,
) -> Result<(Verdict, usize), JudgeFault> {
    let mut judge = Judge::new(alloc, trace.decls(), 2)?;
    feed_each(rt, &mut judge, trace, ends, gate)?;
    let taken = judge.len();
    Ok((judge.finish()?, taken))
}

fn is_told<R: Threads + Wait>(rt: &R, alloc: Global, row: &Row) -> Result<bool, Fail> {
    let &(events, ends, want, begins) = row;
    let trace = traced(alloc, DECLARED, events)?;
    let gate = Counting::new();
    let (verdict, taken) = fed(rt, alloc, &trace, ends, &gate)?;
    let is_whole = ends.last() == Some(&taken) && gate.counts() == [begins, begins, 0];
    Ok(is_whole && said_by(&verdict) == want)
}

#[test]
fn a_judge_is_fed_in_blocks(rt: HostRuntime) -> Result<(), Fail> {
    for (at, row) in ROWS.iter().enumerate() {
        assert!(rt; is_told(&rt, rt.alloc(), row)?, "{at}");
    }
    Ok(())
}
