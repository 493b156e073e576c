//! Witnesses of races, whether or not a verdict names them.

use crate::rows::traced;
use race_shards::{WitnessFault, witness};
use race_verdict::Race;
use std::alloc::Global;
use std::test::Fail;

/// A variable and two events, by their numbers.
type Pair = (u32, u32, u32);

// Two goroutines, three variables, and a channel with room for one value.
static DECLARED: &str = "gotrace 1\ngoroutine a\ngoroutine b\nvar x\nvar y\nvar z\nchan c 1\n";

const X: u32 = 0;

const Y: u32 = 1;

const HANDED_ON: &str = "write main x 7 p\ngo main a p\nread a x 7 p\nexit main p\n";

const LATE_WRITE: &str = "go main a p\nwrite main x 1 p\nread a x 1 p\n";

const TWO_SENDERS: &str =
    "go main a p\ngo main b p\nsend main c 1 p\nwrite a x 5 p\nrecv a c 1 p\nsend b c 2 p\nrecv main c 2 p\nread main x 5 p\n";

const TWO_READERS: &str =
    "go main a p\ngo main b p\nwrite main y 1 p\nread a x 0 p\nwrite main y 2 p\nread b x 0 p\nwrite main x 1 p\n";

const TWO_RACES: &str =
    "go main a p\nwrite main z 1 p\nwrite a z 2 p\nwrite main y 1 p\nwrite main x 1 p\nwrite a x 2 p\n";

// The accesses of a goroutine that hands on to the writer, and one of a third goroutine behind the race.
const HANDED_BY: &str =
    "go main a p\ngo main b p\nwrite a y 1 p\nsend a c 1 p\nread b x 0 p\nrecv main c 1 p\nwrite main x 1 p\nwrite b z 1 p\n";

const STALE_READ: &str = "go main a p\nwrite main x 1 p\nread a x 1 p\nread a x 9 p\n";

/// Events, two of them that race on a variable, and the order that shows it.
type Shown = (&'static str, Pair, &'static [u32]);

static SHOWN: [Shown; 7] = [
    (LATE_WRITE, (X, 1, 2), &[2, 1]),
    (TWO_SENDERS, (X, 3, 7), &[7, 3]),
    (TWO_READERS, (X, 5, 6), &[2, 4, 6, 5, 3]),
    // The verdict names the later read.
    (TWO_READERS, (X, 3, 6), &[2, 4, 6, 3, 5]),
    (TWO_RACES, (X, 4, 5), &[1, 2, 3, 5, 4]),
    (TWO_RACES, (2, 1, 2), &[2, 1, 3, 4, 5]),
    // What happens before the second alone stands in front.
    (HANDED_BY, (X, 4, 6), &[2, 6, 4, 7]),
];

/// Events, and two of them that don't race in order.
type Refused = (&'static str, Pair);

static REFUSED: [Refused; 9] = [
    // The first happens before the second.
    (HANDED_ON, (X, 0, 2)),
    (LATE_WRITE, (X, 2, 1)),
    (LATE_WRITE, (X, 1, 1)),
    // No access, no event, and another variable.
    (LATE_WRITE, (X, 0, 2)),
    (LATE_WRITE, (X, 1, 3)),
    (LATE_WRITE, (Y, 1, 2)),
    (TWO_RACES, (X, 1, 5)),
    // Two reads.
    (TWO_READERS, (X, 3, 5)),
    (STALE_READ, (X, 1, 2)),
];

fn race(pair: Pair) -> Race {
    let (var, first, second) = pair;
    Race { var, first, second }
}

fn is_shown(alloc: Global, row: &Shown) -> Result<bool, Fail> {
    let &(events, pair, want) = row;
    let trace = traced(alloc, DECLARED, events)?;
    let order = witness(alloc, &trace, &race(pair))?;
    Ok(order.as_slice() == want)
}

#[test]
fn races_are_shown(rt: HostRuntime) -> Result<(), Fail> {
    for (at, row) in SHOWN.iter().enumerate() {
        assert!(rt; is_shown(rt.alloc(), row)?, "{at}");
    }
    Ok(())
}

fn is_refused(alloc: Global, row: &Refused) -> Result<bool, Fail> {
    let &(events, pair) = row;
    let trace = traced(alloc, DECLARED, events)?;
    Ok(witness(alloc, &trace, &race(pair)).err() == Some(WitnessFault::NotARace))
}

#[test]
fn what_does_not_race_has_no_witness(rt: HostRuntime) -> Result<(), Fail> {
    for (at, row) in REFUSED.iter().enumerate() {
        assert!(rt; is_refused(rt.alloc(), row)?, "{at}");
    }
    Ok(())
}
