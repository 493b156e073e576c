//! Which recordings are runs of which programs.

use crate::record::runs::recording_of;
use race_hub::Recording;
use race_script::{NotARun, certify, parse_program};
use std::alloc::Global;
use std::test::Fail;

/// The program that is recorded, how many events its run may have, another program, and where the recording leaves that.
type Row = (&'static [u8], u32, &'static [u8], Option<(u32, usize)>);

// Main waits for w's value over c, and reads what w wrote.
const HANDOFF: &[u8] =
    b"goprogram 1\ngoroutine w\nchan c 0\nvar x\nbody main\ngo w m:1\nrecv c m:2\nread x m:3\nexit m:4\nbody w\nwrite x 8 w:1\nsend c 1 w:2\nexit w:3\n";

// Main waits for c, and w for d.
const WAITS: &[u8] =
    b"goprogram 1\ngoroutine w\nchan c 0\nchan d 0\nbody main\ngo w m:1\nrecv c m:2\nsend d 1 m:3\nexit m:4\nbody w\nrecv d w:1\nsend c 1 w:2\nexit w:3\n";

// The second time the function of the once has run.
const TWICE: &[u8] =
    b"goprogram 1\nonce o\nvar x\nbody main\ndo o m:1\nwrite x 1 m:2\nenddo o m:3\ndo o m:4\nwrite x 2 m:5\nenddo o m:6\nexit m:7\n";

// A send on a channel that is closed.
const FAILS: &[u8] = b"goprogram 1\nchan c 0\nbody main\nclose c m:1\nsend c 1 m:2\nexit m:3\n";

const DEFAULT: &[u8] = b"goprogram 1\nchan c 0\nbody main\nselect send:c:5 default m:1\nexit m:2\n";

const SELECTS: &[u8] =
    b"goprogram 1\ngoroutine w\nchan c 0\nbody main\ngo w m:1\nselect recv:c block m:2\nexit m:3\nbody w\nsend c 5 w:1\nexit w:2\n";

// An rwmutex that is held is tried.
const TRIED: &[u8] =
    b"goprogram 2\nrwmutex l\nbody main\nlock l m:1\ntrylock l m:2\nunlock l m:3\ntrylock l m:4\nexit m:5\n";

static ROWS: [Row; 23] = [
    (HANDOFF, 99, HANDOFF, None),
    // Another value, another place, another variable's name.
    (
        HANDOFF,
        99,
        b"goprogram 1\ngoroutine w\nchan c 0\nvar x\nbody main\ngo w m:1\nrecv c m:2\nread x m:3\nexit m:4\nbody w\nwrite x 8 w:1\nsend c 2 w:2\nexit w:3\n",
        Some((1, 1)),
    ),
    (
        HANDOFF,
        99,
        b"goprogram 1\ngoroutine w\nchan c 0\nvar x\nbody main\ngo w m:1\nrecv c m:2\nread x m:9\nexit m:4\nbody w\nwrite x 9 w:1\nsend c 1 w:2\nexit w:3\n",
        Some((0, 2)),
    ),
    (
        HANDOFF,
        99,
        b"goprogram 1\ngoroutine w\nchan c 0\nvar y\nbody main\ngo w m:1\nrecv c m:2\nread y m:3\nexit m:4\nbody w\nwrite y 8 w:1\nsend c 1 w:2\nexit w:3\n",
        Some((0, 0)),
    ),
    (
        HANDOFF,
        99,
        b"goprogram 1\ngoroutine w\nchan c 0\nvar x\nvar y\nbody main\ngo w m:1\nrecv c m:2\nread x m:3\nexit m:4\nbody w\nwrite x 8 w:1\nsend c 1 w:2\nexit w:3\n",
        Some((0, 0)),
    ),
    // A run may stop before a body does; the next step of a goroutine that waits is told, that of another isn't.
    (HANDOFF, 2, HANDOFF, None),
    (
        HANDOFF,
        2,
        b"goprogram 1\ngoroutine w\nchan c 0\nvar x\nbody main\ngo w m:1\nrecv nil m:2\nread x m:3\nexit m:4\nbody w\nwrite x 8 w:1\nsend c 1 w:2\nexit w:3\n",
        Some((0, 1)),
    ),
    (
        HANDOFF,
        2,
        b"goprogram 1\ngoroutine w\nchan c 0\nvar x\nbody main\ngo w m:1\nrecv c m:2\nread x m:9\nexit m:4\nbody w\nwrite x 8 w:1\nexit w:2\n",
        None,
    ),
    (TRIED, 99, TRIED, None),
    // A failed try may be one of either kind, and a try that locked isn't.
    (
        TRIED,
        99,
        b"goprogram 2\nrwmutex l\nbody main\nlock l m:1\ntryrlock l m:2\nunlock l m:3\ntrylock l m:4\nexit m:5\n",
        None,
    ),
    (
        TRIED,
        99,
        b"goprogram 2\nrwmutex l\nbody main\nlock l m:1\ntrylock l m:2\nunlock l m:3\ntryrlock l m:4\nexit m:5\n",
        Some((0, 3)),
    ),
    // The same steps under another version.
    (
        b"goprogram 2\nbody main\nexit m:1\n",
        99,
        b"goprogram 1\nbody main\nexit m:1\n",
        Some((0, 0)),
    ),
    (WAITS, 99, WAITS, None),
    (
        WAITS,
        99,
        b"goprogram 1\ngoroutine w\nchan c 0\nchan d 0\nbody main\ngo w m:1\nrecv c m:2\nsend d 1 m:3\nexit m:4\nbody w\nrecv c w:1\nsend c 1 w:2\nexit w:3\n",
        Some((1, 0)),
    ),
    (
        WAITS,
        99,
        b"goprogram 1\ngoroutine w\nchan c 0\nchan d 0\nbody main\ngo w m:1\nrecv c m:2\nsend d 1 m:3\nexit m:4\nbody w\nrecv d w:9\nsend c 1 w:2\nexit w:3\n",
        Some((1, 0)),
    ),
    // Behind a once's function that had run comes the step behind its end.
    (TWICE, 99, TWICE, None),
    (
        TWICE,
        99,
        b"goprogram 1\nonce o\nvar x\nbody main\ndo o m:1\nwrite x 1 m:2\nenddo o m:3\ndo o m:4\nwrite x 2 m:5\nenddo o m:6\nexit m:8\n",
        Some((0, 6)),
    ),
    // What failed could have sent any value.
    (FAILS, 99, FAILS, None),
    (
        FAILS,
        99,
        b"goprogram 1\nchan c 0\nbody main\nclose c m:1\nsend c 2 m:2\nexit m:3\n",
        None,
    ),
    (
        FAILS,
        99,
        b"goprogram 1\nchan c 0\nbody main\nclose c m:1\nclose c m:2\nexit m:3\n",
        Some((0, 1)),
    ),
    // A default says nothing of the values, and a receive doesn't say whether a select made it.
    (
        DEFAULT,
        99,
        b"goprogram 1\nchan c 0\nbody main\nselect send:c:6 default m:1\nexit m:2\n",
        None,
    ),
    (
        DEFAULT,
        99,
        b"goprogram 1\nchan c 0\nbody main\nselect recv:c default m:1\nexit m:2\n",
        Some((0, 0)),
    ),
    (
        SELECTS,
        99,
        b"goprogram 1\ngoroutine w\nchan c 0\nbody main\ngo w m:1\nrecv c m:2\nexit m:3\nbody w\nsend c 5 w:1\nexit w:2\n",
        None,
    ),
];

// Where the recording leaves the program.
fn left_at(
    alloc: Global,
    recording: &Recording,
    text: &[u8],
) -> Result<Option<(u32, usize)>, Fail> {
    let program = parse_program(alloc, text)?;
    match certify(&program, recording) {
        Ok(()) => Ok(None),
        Err(NotARun { g, step }) => Ok(Some((g, step))),
    }
}

#[test]
fn a_recording_is_a_run_of_its_program_alone(rt: HostRuntime) -> Result<(), Fail> {
    for (at, &(text, limit, other, left)) in ROWS.iter().enumerate() {
        let recording = recording_of(&rt, rt.alloc(), text, limit, &[])?;
        assert!(rt; left_at(rt.alloc(), &recording, other)? == left, "row {at}");
    }
    Ok(())
}
