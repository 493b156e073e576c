//! What is told to a goroutine that selects, by the picks.

use crate::record::runs::recording_of;
use race_hub::{Answer, Recording};
use std::test::Fail;

/// A program, its picks, the index of a step in main's log, what main is told there, and how many steps the log has.
type Row = (&'static [u8], &'static [u64], usize, Answer, usize);

// Each would send or receive over c.
const TWO_SELECTS: &[u8] =
    b"goprogram 1\ngoroutine w\nchan c 0\nbody main\ngo w m:1\nselect send:c:5,recv:c block m:2\nexit m:3\nbody w\nselect recv:c,send:c:6 block w:1\nexit w:2\n";

static ROWS: [Row; 5] = [
    (TWO_SELECTS, &[0], 1, Answer::Chosen(0, None), 3),
    (TWO_SELECTS, &[0, 1], 1, Answer::Chosen(1, Some(6)), 3),
    (TWO_SELECTS, &[0, 2], 1, Answer::Chosen(0, None), 3),
    (
        b"goprogram 1\ngoroutine w\nchan c 0\nbody main\ngo w m:1\nselect send:c:5 default m:2\nexit m:3\nbody w\nrecv c w:1\nexit w:2\n",
        &[0],
        1,
        Answer::Chosen(0, None),
        3,
    ),
    (
        b"goprogram 1\nchan c 0\nbody main\nselect send:c:5 default m:1\nexit m:2\n",
        &[0],
        0,
        Answer::DefaultTaken,
        2,
    ),
];

// Whether the recording tells main that in this step of its log, which has so many.
fn tells_main(recording: &Recording, at: usize, told: Answer, count: usize) -> bool {
    let log = recording.logs(0);
    at < log.len() && log.step(at).told == Some(told) && log.len() == count
}

#[test]
fn who_selects_is_told_by_which_offer_it_went_on(rt: HostRuntime) -> Result<(), Fail> {
    for (row, &(text, picks, at, told, count)) in ROWS.iter().enumerate() {
        let recording = recording_of(&rt, rt.alloc(), text, 8, picks)?;
        assert!(rt; tells_main(&recording, at, told, count), "row {row}");
    }
    Ok(())
}
