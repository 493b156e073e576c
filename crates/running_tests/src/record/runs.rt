//! What programs come to on one thread, by their picks.

use crate::turns::{By, go_on, recorded};
use race_hub::{End, Hub, Recording};
use race_records::Kind;
use race_script::{Program, Script, parse_program};
use race_text::parse_trace;
use std::alloc::{AllocError, Global};
use std::sync::Wait;
use std::test::Fail;
use std::thread::Threads;

/// A program, how many events it may make, the picks, how it ends, and whether main and w wait then.
type Row = (&'static [u8], u32, &'static [u64], End, (bool, bool));

// Main starts w and reads what w writes.
const READS: &[u8] =
    b"goprogram 1\ngoroutine w\nvar x\nbody main\ngo w m:1\nread x m:2\nexit m:3\nbody w\nwrite x 5 w:1\nexit w:2\n";

// Main sends to w.
const SENDS: &[u8] =
    b"goprogram 1\ngoroutine w\nchan c 0\nbody main\ngo w m:1\nsend c 7 m:2\nexit m:3\nbody w\nrecv c w:1\nexit w:2\n";

// Both receive, and nobody sends.
const WAITS: &[u8] =
    b"goprogram 1\ngoroutine w\nchan c 0\nchan d 1\nbody main\ngo w m:1\nrecv c m:2\nexit m:3\nbody w\nrecv d w:1\nexit w:2\n";

const TWICE: &[u8] =
    b"goprogram 1\ngoroutine w\nbody main\ngo w m:1\ngo w m:2\nexit m:3\nbody w\nexit w:1\n";

const FAILS: &[u8] =
    b"goprogram 1\ngoroutine w\nbody main\nclose nil m:1\nexit m:2\nbody w\nexit w:1\n";

static ROWS: [Row; 10] = [
    (READS, 2, &[], End::Limit, (false, true)),
    (READS, 2, &[0, 1], End::Limit, (true, false)),
    (READS, 8, &[], End::Main, (false, true)),
    (READS, 4, &[], End::Main, (false, true)),
    (READS, 3, &[], End::Limit, (true, false)),
    (FAILS, 1, &[], End::Fault, (false, false)),
    (FAILS, 8, &[], End::Fault, (false, false)),
    (SENDS, 8, &[], End::Main, (false, true)),
    (WAITS, 8, &[], End::Deadlock, (true, true)),
    (TWICE, 8, &[], End::Bad(0), (true, false)),
];

// A routine for each goroutine.
fn scripts(alloc: Global, program: &Program) -> Result<Vec<Script>, AllocError> {
    let mut scripts = Vec::new(alloc);
    for goroutine in 0..program.decls().count(Kind::Goroutine) {
        scripts.push(Script::new(alloc, program, goroutine)?)?;
    }
    Ok(scripts)
}

pub(crate) fn opened(alloc: Global, program: &Program, limit: u32) -> Result<Hub<Script>, Fail> {
    let scripts = scripts(alloc, program)?;
    Ok(Hub::new(alloc, program.decls().copy()?, limit, scripts)?)
}

// The hub of the program before its first event.
pub(crate) fn hub_of(alloc: Global, text: &[u8], limit: u32) -> Result<Hub<Script>, Fail> {
    let program = parse_program(alloc, text)?;
    opened(alloc, &program, limit)
}

/// What is recorded of the program, up to the limit, by its picks.
pub(crate) fn recording_of<T: Threads + Wait + Sync>(
    rt: &T,
    alloc: Global,
    text: &[u8],
    limit: u32,
    picks: &[u64],
) -> Result<Recording, Fail> {
    recorded(rt, hub_of(alloc, text, limit)?, By::Picks(picks))
}

// Whether it ends so, and main and w wait or not.
fn ends_so(recording: &Recording, end: End, waits: (bool, bool)) -> bool {
    let main_waits = recording.waiting(0).is_some();
    recording.end() == end && (main_waits, recording.waiting(1).is_some()) == waits
}

// What is recorded where the go is done before: w writes, main reads, and both return.
static BEGUN: &[u8] =
    b"gotrace 1\ngoroutine w\nvar x\ngo main w m:1\nwrite w x 5 w:1\nread main x 5 m:2\nexit w w:2\nexit main m:3\n";

fn goes_on_as_begun<T: Threads + Wait + Sync>(rt: &T, alloc: Global) -> Result<bool, Fail> {
    let mut hub = hub_of(alloc, READS, 8)?;
    let has_begun = go_on(&mut hub)?;
    let recording = recorded(rt, hub, By::Picks(&[1]))?;
    let is_traced = *recording.trace() == parse_trace(alloc, BEGUN)?;
    Ok(has_begun && is_traced && ends_so(&recording, End::Main, (false, false)))
}

// The traces of these runs are in tests/run.
#[test]
fn programs_end_by_their_picks(rt: HostRuntime) -> Result<(), Fail> {
    for (at, &(text, limit, picks, end, waits)) in ROWS.iter().enumerate() {
        let recording = recording_of(&rt, rt.alloc(), text, limit, picks)?;
        assert!(rt; ends_so(&recording, end, waits), "row {at}");
    }
    assert!(rt; goes_on_as_begun(&rt, rt.alloc())?);
    Ok(())
}
