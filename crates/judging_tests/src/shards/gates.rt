//! What a gate sees of the shards' work.

use crate::rows::traced;
use crate::shards::verdicts::DECLARED;
use race_records::Trace;
use race_shards::{Gate, Judge};
use std::alloc::Global;
use std::sync::Wait;
use std::sync::atomic::{AtomicU64, Ordering};
use std::test::Fail;
use std::thread::{self, Threads};
use std::time::{Clock, Duration};

// How often one looks for the others, a millisecond apart, so that a busy machine lets them come.
const LOOKS: u32 = 60_000;

// A gate at which so many shards wait for each other in each block. A shard that is refused its thread would be waited for
// without end.
#[derive(Drop)]
struct Meeting<'a, C> {
    clock: &'a C,
    shards: u64,
    here: AtomicU64,
    met: AtomicU64,
}

impl<'a, C> Meeting<'a, C> {
    fn new(clock: &'a C, shards: u64) -> Self {
        Meeting {
            clock,
            shards,
            here: AtomicU64::new(0),
            met: AtomicU64::new(0),
        }
    }
}

impl<C: Clock + Sync> Gate for Meeting<'_, C> {
    // Who comes as number n belongs to block n / shards, whose last comes as number (n / shards + 1) * shards - 1.
    fn enter(&self, _shard: usize) {
        let before = self.here.fetch_add(1, Ordering::SeqCst);
        for _ in 0..LOOKS {
            let here = self.here.load(Ordering::SeqCst);
            if here.checked_div(self.shards) > before.checked_div(self.shards) {
                self.met.fetch_add(1, Ordering::SeqCst);
                return;
            }
            thread::sleep(self.clock, Duration::from_millis(1));
        }
    }
}

static TWO_BLOCKS: &str =
    "go main a p\nwrite main y 1 p\nwrite main x 1 p\nwrite a x 2 p\nwrite a y 2 p\n";

// How many times a shard met all others in two blocks.
fn met<R: Threads + Wait + Clock + Sync>(
    rt: &R,
    alloc: Global,
    trace: &Trace,
    shards: usize,
) -> Result<u64, Fail> {
    let gate = Meeting::new(rt, shards as u64);
    let _verdict = Judge::judge(rt, alloc, trace, shards, 3, &gate)?;
    Ok(gate.met.load(Ordering::SeqCst))
}

#[test]
fn two_shards(rt: HostRuntime) -> Result<(), Fail> {
    let trace = traced(rt.alloc(), DECLARED, TWO_BLOCKS)?;
    for &(shards, want) in &[(2, 4), (4, 8)] {
        assert_eq!(rt; met(&rt, rt.alloc(), &trace, shards)?, want, "{shards}");
    }
    Ok(())
}
