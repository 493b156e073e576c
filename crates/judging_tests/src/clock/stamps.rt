ghost use Rattle.race_model.specs.Legal.{IsLegal};
ghost use Rattle.race_verdict.specs.Traces.{capacities};

use crate::rows::traced;
use race_clock::{Clock, Stamper};
use race_legal::legal;
use race_records::Trace;
use std::alloc::{AllocError, Global};
use std::test::Fail;

/// The stamp of an access of x (its index, its goroutine, its number there, and whether it is a write), and how
/// many begins its goroutine's clock knows then of main, a and b.
type Known = ((u32, u32, u32, bool), [u32; 3]);

static DECLARED: &str =
    "gotrace 2\ngoroutine a\ngoroutine b\nvar x\nchan c 1\nchan d 0\nmutex m\nrwmutex r\nonce o\n";

static TABLES: [(&str, &[Known]); 9] = [
    // A value of a buffered channel brings what its send's begin had seen, and not what the send itself has.
    (
        "go main a p\ngo main b p\nsend main c 1 p\nwrite a x 5 p\nrecv a c 1 p\nsend b c 2 p\nrecv main c 2 p\nread main x 5 p\n",
        &[((3, 1, 2, true), [1, 1, 0]), ((7, 0, 5, false), [4, 0, 2])],
    ),
    // A receive makes room for a send, which sees it.
    (
        "go main a p\nsend main c 1 p\nwrite main x 1 p\nrecv main c 1 p\nsend a c 1 p\nwrite a x 2 p\nrecv a c 1 p\n",
        &[((2, 0, 3, true), [2, 0, 0]), ((5, 1, 3, true), [4, 2, 0])],
    ),
    // Both sides of a meeting have seen the other's begin in it.
    (
        "go main a p\nwrite main x 1 p\nmeet main a d 7 p p\nread a x 1 p\nread main x 1 p\nclose main d p\nwrite main x 2 p\nrecvclosed a d p\nread a x 2 p\n",
        &[
            ((1, 0, 2, true), [1, 0, 0]),
            ((3, 1, 3, false), [3, 2, 0]),
            ((4, 0, 4, false), [3, 2, 0]),
            ((6, 0, 6, true), [5, 2, 0]),
            ((8, 1, 5, false), [5, 4, 0]),
        ],
    ),
    // A counter under a mutex.
    (
        "go main a p\nlock main m p\nwrite main x 1 p\nunlock main m p\nlock a m p\nwrite a x 2 p\nunlock a m p\nlock main m p\nread main x 2 p\n",
        &[
            ((2, 0, 3, true), [2, 0, 0]),
            ((5, 1, 3, true), [4, 2, 0]),
            ((8, 0, 6, false), [5, 4, 0]),
        ],
    ),
    // What a reader did is seen by who locks next, and not by another reader.
    (
        "go main a p\ngo main b p\nrlock a r p\nrunlock a r p\nrlock b r p\nread b x 0 p\nrunlock b r p\nlock main r p\nwrite main x 1 p\n",
        &[((5, 2, 3, false), [2, 0, 2]), ((8, 0, 4, true), [3, 3, 4])],
    ),
    // A try that succeeds has seen the unlock, and one that fails hasn't.
    (
        "go main a p\nlock main m p\nwrite main x 1 p\nunlock main m p\ntrylock a m p\nwrite a x 2 p\nunlock a m p\ntryfail main m p\nread main x 2 p\ntrylock main m p\nwrite main x 3 p\n",
        &[
            ((2, 0, 3, true), [2, 0, 0]),
            ((5, 1, 3, true), [4, 2, 0]),
            ((8, 0, 6, false), [5, 0, 0]),
            ((10, 0, 8, true), [7, 4, 0]),
        ],
    ),
    // Tries to lock for reading are as RLocks.
    (
        "go main a p\ngo main b p\ntryrlock a r p\nrunlock a r p\ntryrlock b r p\nread b x 0 p\nrunlock b r p\ntrylock main r p\nwrite main x 1 p\n",
        &[((5, 2, 3, false), [2, 0, 2]), ((8, 0, 4, true), [3, 3, 4])],
    ),
    // The end of a once's function is seen by who finds it ended, and what comes behind it isn't.
    (
        "go main a p\noncebegin main o p\nwrite main x 1 p\nonceend main o p\nwrite main x 2 p\noncedone a o p\nread a x 2 p\n",
        &[
            ((2, 0, 3, true), [2, 0, 0]),
            ((4, 0, 5, true), [4, 0, 0]),
            ((6, 1, 3, false), [4, 2, 0]),
        ],
    ),
    // The default of a select and the failure that ends a run count as events of who they befall, and hand nothing over.
    (
        "go main a p\ndefault main recv:c p\nwrite main x 1 p\nread a x 1 p\nread main x 1 p\nfault a unlock:m p\n",
        &[
            ((2, 0, 3, true), [2, 0, 0]),
            ((3, 1, 2, false), [1, 1, 0]),
            ((4, 0, 4, false), [3, 0, 0]),
        ],
    ),
];

// The stamps of a legal trace.
fn stamps(alloc: Global, trace: &Trace) -> Result<Vec<Known>, AllocError>
    requires { IsLegal (capacities trace.now) trace.now.events }
{
    let mut stamps = Vec::new(alloc);
    let mut stamper = Stamper::new(alloc, trace.decls())?;
    for at in 0..trace.len() {
        let event = trace.event(at);
        if let Some(stamp) = stamper.step(event)? {
            let clock = stamper.clock(event.who);
            let known = [clock.knows(0), clock.knows(1), clock.knows(2)];
            stamps.push(((stamp.at, stamp.who, stamp.count, stamp.write), known))?;
        }
    }
    Ok(stamps)
}

// Whether the events are legal, and their accesses have these stamps.
fn are_stamped(alloc: Global, lines: &str, known: &[Known]) -> Result<bool, Fail> {
    let trace = traced(alloc, DECLARED, lines)?;
    match legal(alloc, &trace)? {
        Some(_) => Ok(false),
        None => Ok(stamps(alloc, &trace)?.as_slice() == known),
    }
}

#[test]
fn accesses_are_stamped(rt: HostRuntime) -> Result<(), Fail> {
    for (table, (lines, known)) in TABLES.iter().enumerate() {
        assert!(rt; are_stamped(rt.alloc(), *lines, *known)?, "{table}");
    }
    Ok(())
}

// A clock in which the goroutine was counted joins one in which goroutine 3 was: what the first then knows
// of these two and of goroutine 2, and the second of the goroutine.
fn joined(alloc: Global, goroutine: u32) -> Result<[u32; 4], AllocError> {
    let mut clock = Clock::new(alloc)?;
    let mut other = Clock::new(alloc)?;
    clock.tick(goroutine)?;
    other.tick(3)?;
    clock.join(&other)?;
    Ok([
        clock.knows(goroutine),
        clock.knows(3),
        clock.knows(2),
        other.knows(goroutine),
    ])
}

// Up to eight counts stand in the clock itself, and more in memory.
#[test]
fn clocks_are_joined(rt: HostRuntime) -> Result<(), Fail> {
    for &goroutine in &[0, 7, 8, 1023] {
        assert_eq!(rt; joined(rt.alloc(), goroutine)?, [1, 1, 0, 0]);
    }
    Ok(())
}
