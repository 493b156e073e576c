ghost use Rattle.std.specs.Prelude.{◌<◌};

use race_access::VarState;
use race_clock::{Clock, Stamp};
use race_verdict::ReportedAccess;
use std::alloc::{AllocError, Global};
use std::test::Fail;

// How many begins of each goroutine are known.
type Counts = &'static [(u32, u32)];

// An access: its index, its goroutine, its number there, whether it is a write, and the clock.
type Row = (u32, u32, u32, bool, Counts);

// The accesses of a variable, and the race that is reported of them.
static ROWS: [(&[Row], Option<(u32, u32)>); 11] = [
    (&[], None),
    // Two goroutines that main started: reads don't race, and a write races with the later one.
    (
        &[
            (2, 1, 2, false, &[(0, 1), (1, 1)]),
            (3, 2, 2, false, &[(0, 2), (2, 1)]),
        ],
        None,
    ),
    (
        &[
            (2, 1, 2, false, &[(0, 1), (1, 1)]),
            (3, 2, 2, false, &[(0, 2), (2, 1)]),
            (4, 0, 3, true, &[(0, 2)]),
        ],
        Some((3, 4)),
    ),
    // Three readers, of which the last two meet main before it writes.
    (
        &[
            (3, 3, 2, false, &[(0, 3), (3, 1)]),
            (4, 1, 2, false, &[(0, 1), (1, 1)]),
            (5, 2, 2, false, &[(0, 2), (2, 1)]),
            (8, 0, 6, true, &[(0, 5), (1, 3), (2, 3)]),
        ],
        Some((3, 8)),
    ),
    // What a writer does behind its send isn't known to who receives the value; what it did before is.
    (
        &[
            (3, 1, 2, true, &[(0, 1), (1, 1)]),
            (7, 0, 5, false, &[(0, 4), (2, 2)]),
        ],
        Some((3, 7)),
    ),
    (
        &[
            (2, 0, 3, true, &[(0, 2)]),
            (5, 1, 3, true, &[(0, 4), (1, 2)]),
        ],
        None,
    ),
    // A write stays behind a read that knows it: a later read races with the write alone.
    (
        &[
            (2, 0, 3, true, &[(0, 2)]),
            (4, 1, 3, false, &[(0, 4), (1, 2)]),
            (5, 2, 2, false, &[(0, 2), (2, 1)]),
        ],
        Some((2, 5)),
    ),
    // A read stands in for the one that it knows, of its goroutine or of another; the write knows both.
    (
        &[
            (2, 1, 2, false, &[(0, 1), (1, 1)]),
            (3, 1, 3, false, &[(0, 1), (1, 2)]),
            (5, 2, 3, false, &[(0, 2), (1, 4), (2, 2)]),
            (7, 0, 4, true, &[(0, 3), (1, 4), (2, 4)]),
        ],
        None,
    ),
    // The write knows the first read of a goroutine, and not its second.
    (
        &[
            (2, 1, 2, false, &[(0, 1), (1, 1)]),
            (3, 2, 2, false, &[(0, 2), (2, 1)]),
            (5, 1, 4, false, &[(0, 3), (1, 3)]),
            (7, 0, 5, true, &[(0, 4), (1, 3), (2, 3)]),
        ],
        Some((5, 7)),
    ),
    // Behind a write that knows all reads it alone is left to race with.
    (
        &[
            (2, 1, 2, false, &[(0, 1), (1, 1)]),
            (3, 2, 2, false, &[(0, 2), (2, 1)]),
            (6, 0, 5, true, &[(0, 4), (1, 3), (2, 3)]),
            (7, 2, 4, true, &[(0, 4), (2, 3)]),
        ],
        Some((6, 7)),
    ),
    // A second race isn't reported.
    (
        &[
            (1, 0, 2, true, &[(0, 1)]),
            (2, 1, 2, true, &[(0, 1), (1, 1)]),
            (3, 0, 3, true, &[(0, 2)]),
            (4, 1, 3, true, &[(0, 1), (1, 2)]),
        ],
        Some((1, 2)),
    ),
];

fn clock(alloc: Global, counts: &[(u32, u32)]) -> Result<Clock, AllocError> {
    let mut clock = Clock::new(alloc)?;
    for (goroutine, count) in counts {
        for _ in 0..*count {
            if clock.knows(*goroutine) < *count {
                clock.tick(*goroutine)?;
            }
        }
    }
    Ok(clock)
}

fn touch(alloc: Global, state: &mut VarState, row: &Row) -> Result<(), AllocError> {
    let (at, who, count, write, known) = *row;
    state.touch(
        &Stamp {
            at,
            who,
            count,
            var: 0,
            write,
        },
        500 + at % 100,
        &clock(alloc, known)?,
    )
}

// What is noted of the access of this index: it stands at 500 and its index.
fn note_of(rows: &[Row], at: u32) -> Option<ReportedAccess> {
    for row in rows {
        let (index, who, _, write, _) = *row;
        if index == at {
            return Some(ReportedAccess {
                at,
                who,
                write,
                place: 500 + at % 100,
            });
        }
    }
    None
}

fn notes_of(rows: &[Row], race: Option<(u32, u32)>) -> Option<(ReportedAccess, ReportedAccess)> {
    let (first, second) = race?;
    Some((note_of(rows, first)?, note_of(rows, second)?))
}

// Whether the race is told, with what is noted of both accesses.
fn is_told(alloc: Global, rows: &[Row], race: Option<(u32, u32)>) -> Result<bool, AllocError> {
    let mut state = VarState::new(alloc);
    for row in rows {
        touch(alloc, &mut state, row)?;
    }
    Ok(state.raced() == race && state.noted() == notes_of(rows, race))
}

// Nine goroutines read, of which so many meet main before it writes.
fn raced_by_nine(alloc: Global, meets: u32) -> Result<Option<(u32, u32)>, AllocError>
    requires { meets < 10 }
{
    let mut state = VarState::new(alloc);
    let mut met = Clock::new(alloc)?;
    for _ in 0..9 + meets {
        if met.knows(0) < 18 {
            met.tick(0)?;
        }
    }
    for reader in 1..10 {
        let known = clock(alloc, &[(0, reader), (reader, 1)])?;
        let stamp = Stamp {
            at: 8 + reader,
            who: reader,
            count: 2,
            var: 0,
            write: false,
        };
        state.touch(&stamp, 0, &known)?;
        if reader <= meets {
            met.join(&clock(alloc, &[(reader, 3)])?)?;
        }
    }
    let write = Stamp {
        at: 18 + meets,
        who: 0,
        count: 10 + meets,
        var: 0,
        write: true,
    };
    state.touch(&write, 0, &met)?;
    Ok(state.raced())
}

#[test]
fn the_race_is_told(rt: HostRuntime) -> Result<(), Fail> {
    for (rows, race) in &ROWS {
        assert!(rt; is_told(rt.alloc(), rows, *race)?, "{rows:?}");
    }
    assert_eq!(rt; raced_by_nine(rt.alloc(), 9)?, None);
    assert_eq!(rt; raced_by_nine(rt.alloc(), 8)?, Some((17, 26)));
    Ok(())
}
