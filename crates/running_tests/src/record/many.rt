//! Many runs of programs by workers: each is a run of its program, legal, and has ended as it says.

use crate::record::runs::opened;
use crate::turns::{By, recorded};
use race_hub::{Ask, End, Recording};
use race_legal::legal;
use race_records::{Kind, Op, Trace};
use race_script::{Program, certify, parse_program};
use std::alloc::Global;
use std::sync::Wait;
use std::test::Fail;
use std::thread::Threads;

/// A program, how many events its run may have, and the numbers of the ends to which it may come.
type Row = (&'static [u8], u32, &'static [u32]);

const MAIN: u32 = 0;

const FAULT: u32 = 1;

const BAD: u32 = 2;

const LIMIT: u32 = 3;

const DEADLOCK: u32 = 4;

/// Readers beside a writer.
pub(crate) const READERS: &[u8] =
    b"goprogram 1\ngoroutine u\ngoroutine v\nrwmutex r\nvar x\nbody main\ngo u m:1\ngo v m:2\nlock r m:3\nwrite x 1 m:4\nunlock r m:5\nexit m:6\nbody u\nrlock r u:1\nread x u:2\nrunlock r u:3\nexit u:4\nbody v\nrlock r v:1\nread x v:2\nrunlock r v:3\nexit v:4\n";

static ROWS: [Row; 12] = [
    // Each would send or receive over c.
    (
        b"goprogram 1\ngoroutine w\nchan c 0\nbody main\ngo w m:1\nselect send:c:5,recv:c block m:2\nexit m:3\nbody w\nselect recv:c,send:c:6 block w:1\nexit w:2\n",
        99,
        &[MAIN],
    ),
    // A default is taken, or a receiver waits.
    (
        b"goprogram 1\ngoroutine w\nchan c 0\nbody main\ngo w m:1\nselect send:c:5 default m:2\nexit m:3\nbody w\nrecv c w:1\nexit w:2\n",
        99,
        &[MAIN],
    ),
    // Three senders and a channel of one value, which main receives.
    (
        b"goprogram 1\ngoroutine u\ngoroutine v\nchan c 1\nbody main\ngo u m:1\ngo v m:2\nrecv c m:3\nrecv c m:4\nexit m:5\nbody u\nsend c 1 u:1\nexit u:2\nbody v\nsend c 2 v:1\nexit v:2\n",
        99,
        &[MAIN],
    ),
    // A mutex that main waits for last.
    (
        b"goprogram 1\ngoroutine w\nmutex m\nvar x\nbody main\ngo w m:1\nlock m m:2\nwrite x 1 m:3\nunlock m m:4\nexit m:5\nbody w\nlock m w:1\nread x w:2\nunlock m w:3\nexit w:4\n",
        99,
        &[MAIN],
    ),
    (READERS, 99, &[MAIN]),
    (READERS, 5, &[LIMIT]),
    // Tries, which never wait.
    (
        b"goprogram 2\ngoroutine w\nmutex m\nrwmutex l\nvar x\nbody main\ngo w m:1\ntrylock m m:2\nread x m:3\ntryrlock l m:4\nexit m:5\nbody w\ntryrlock l w:1\ntrylock m w:2\nwrite x 1 w:3\nexit w:4\n",
        99,
        &[MAIN],
    ),
    // Two mutexes, taken in opposite orders.
    (
        b"goprogram 1\ngoroutine w\nmutex m\nmutex n\nbody main\ngo w m:1\nlock m m:2\nlock n m:3\nunlock n m:4\nunlock m m:5\nexit m:6\nbody w\nlock n w:1\nlock m w:2\nunlock m w:3\nunlock n w:4\nexit w:5\n",
        99,
        &[MAIN, DEADLOCK],
    ),
    // Whoever comes first runs the function, for which the other waits.
    (
        b"goprogram 1\ngoroutine w\nonce o\nvar x\nbody main\ngo w m:1\ndo o m:2\nwrite x 1 m:3\nenddo o m:4\nexit m:5\nbody w\ndo o w:1\nwrite x 2 w:2\nenddo o w:3\nexit w:4\n",
        99,
        &[MAIN],
    ),
    // Each waits for the other.
    (
        b"goprogram 1\ngoroutine w\nchan c 0\nchan d 0\nbody main\ngo w m:1\nrecv c m:2\nsend d 1 m:3\nexit m:4\nbody w\nrecv d w:1\nsend c 1 w:2\nexit w:3\n",
        99,
        &[DEADLOCK],
    ),
    // The second close fails.
    (
        b"goprogram 1\ngoroutine w\nchan c 0\nvar x\nbody main\ngo w m:1\nclose c m:2\nrecv nil m:3\nexit m:4\nbody w\nread x w:1\nclose c w:2\nexit w:3\n",
        99,
        &[FAULT],
    ),
    (
        b"goprogram 1\ngoroutine w\nbody main\ngo w m:1\ngo w m:2\nexit m:3\nbody w\nexit w:1\n",
        99,
        &[BAD],
    ),
];

fn number_of(end: End) -> u32 {
    match end {
        End::Main => MAIN,
        End::Fault => FAULT,
        End::Bad(_) => BAD,
        End::Limit => LIMIT,
        End::Deadlock => DEADLOCK,
    }
}

// How many events are of the one kind, less those of the other.
fn balance(trace: &Trace, more: &Op, less: &Op) -> i32 {
    let mut balance = 0i32;
    for event in trace.events() {
        if event.op == *more {
            balance = balance.wrapping_add(1);
        } else if event.op == *less {
            balance = balance.wrapping_sub(1);
        }
    }
    balance
}

// Whether a goroutine waits with this ask.
fn waits(recording: &Recording, ask: &Ask) -> bool {
    for who in 0..recording.trace().decls().count(Kind::Goroutine) {
        if let Some(request) = recording.waiting(who) {
            if request.ask == *ask {
                return true;
            }
        }
    }
    false
}

// Whether the ask can't be granted behind the trace. Only those are known that a deadlock of the rows has: a mutex that is
// held, and a receive from a channel without room for which no sender waits.
fn is_stuck(recording: &Recording, ask: &Ask) -> bool {
    match ask {
        Ask::Lock(lock) => balance(recording.trace(), &Op::Lock(*lock), &Op::Unlock(*lock)) == 1,
        Ask::Recv(Some(chan)) => !waits(recording, &Ask::Send(Some(*chan), 1)),
        _ => false,
    }
}

// Whether each goroutine that was started and hasn't returned waits, and none can go on.
fn all_are_stuck(recording: &Recording) -> bool {
    for who in 0..recording.trace().decls().count(Kind::Goroutine) {
        let stuck = match recording.waiting(who) {
            Some(request) => is_stuck(recording, &request.ask),
            // Both programs that may come to a deadlock start each goroutine, of which none returns.
            None => false,
        };
        if !stuck {
            return false;
        }
    }
    true
}

// Whether the run has ended so.
fn is_true_end(recording: &Recording, limit: u32) -> bool {
    let events = recording.trace().events();
    let Some(last) = events.last() else {
        return false;
    };
    match recording.end() {
        End::Main => last.who == 0 && last.op == Op::Exit,
        End::Fault => matches!(last.op, Op::Fault(_)),
        End::Limit => events.len() == limit as usize && !matches!(last.op, Op::Fault(_)),
        End::Bad(who) => recording.waiting(who).is_some(),
        End::Deadlock => all_are_stuck(recording),
    }
}

// Whether the row's program comes to one of its ends by these workers, in a legal run of it.
fn comes<T: Threads + Wait + Sync>(
    rt: &T,
    alloc: Global,
    &(text, limit, ends): &Row,
    by: By<'_>,
) -> Result<bool, Fail> {
    let program = parse_program(alloc, text)?;
    let hub = opened(alloc, &program, limit)?;
    let recording = recorded(rt, hub, by)?;
    Ok(
        ends.contains(&number_of(recording.end()))
            && is_true_end(&recording, limit)
            && certify(&program, &recording).is_ok()
            && legal(alloc, recording.trace())?.is_none(),
    )
}

#[test]
fn each_run_is_legal_and_ends_as_it_says(rt: HostRuntime) -> Result<(), Fail> {
    for (at, row) in ROWS.iter().enumerate() {
        for run in 0..100u32 {
            let (workers, seed) = (run as usize % 16 + 1, u64::from(run));
            assert!(rt;
                comes(&rt, rt.alloc(), row, By::Workers(workers, seed))?,
                "row {at}, {workers} workers, seed {seed}"
            );
        }
    }
    Ok(())
}
