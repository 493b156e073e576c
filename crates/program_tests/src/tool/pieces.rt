//! Traces that are judged while they are read, wherever their bytes are cut.
use crate::devices::SlowReader;
use crate::tool::engines::{Engine, Runtime, ended, judged_by, text_of};
use race_tool::status;
use std::alloc::{AllocError, Global};
use std::test::Fail;

// Whether so many shards, who are handed so many events at a time, tell so where a read gives so many bytes.
fn tells(
    rt: &impl Runtime,
    (shards, block): (usize, usize),
    bytes: &[u8],
    step: usize,
    (lines, status): (&str, u8),
) -> Result<bool, Fail> {
    let reader = SlowReader {
        bytes,
        step,
        fault: None,
    };
    let want = text_of(rt.alloc(), lines)?;
    let engine = (Engine::Check, &judged_by(shards, block));
    let (answer, output, _, failures) = ended(rt, engine, reader);
    Ok((answer, failures) == (status, 0) && output.as_slice() == want.as_slice())
}

// The lines of a trace, how many bytes are cut off the end, the report and the status. A fault is told although an
// event before it breaks a rule.
static ROWS: [(&str, usize, &str, u8); 9] = [
    (
        "gotrace 1 / goroutine w / var x / go main w a.go:2 / write main x 1 a.go:3 / read w x 1 a.go:6",
        0,
        "race on x: write by main at a.go:3 (event 2), read by w at a.go:6 (event 3) / races: 1",
        status::RACES,
    ),
    (
        "gotrace 1 / goroutine w / var x / write main x 7 a.go:1 / go main w a.go:2 / read w x 7 a.go:5 / exit main a.go:3",
        0,
        "clean: 4 events, 2 accesses",
        status::CLEAN,
    ),
    (
        "gotrace 1 / goroutine a / var x / exit main p / exit main q",
        0,
        "illegal: event 2: after end",
        status::ILLEGAL,
    ),
    (
        "gotrace 1 / var x / read main x 1 p / jump",
        0,
        "line 4: unknown word",
        status::TEXT_FAULT,
    ),
    (
        "gotrace 1 / var x / exit main p / write main x 1 p / write main x 1 p / write main y 1 p / jump",
        0,
        "line 6: unknown name",
        status::TEXT_FAULT,
    ),
    (
        "gotrace 1 / var x / write main x 1 p / read main x 2 p / write main x 3 p / var y",
        0,
        "line 6: late declaration",
        status::TEXT_FAULT,
    ),
    (
        "gotrace 1 / var x / read main x 1 p / write main x 1 p / write main x 2 p / write main x 3 p / write main x 4 p / write main x 5 p / jump",
        0,
        "line 9: unknown word",
        status::TEXT_FAULT,
    ),
    (
        "gotrace 1 / var x / read main x 1 p / write main x 1 p",
        1,
        "line 4: no newline",
        status::TEXT_FAULT,
    ),
    (
        "gotrace 1 / var x / read main x 1 p",
        1,
        "line 3: no newline",
        status::TEXT_FAULT,
    ),
];

static JUDGES: [(usize, usize); 5] = [(1, 65_536), (2, 1), (2, 2), (4, 65_536), (4, 1)];

// How many bytes a read gives: one, a part of a line, a line and more, several lines. Each judge has three.
static STEPS: [usize; 15] = [1, 2, 3, 4, 5, 7, 11, 13, 19, 20, 26, 33, 47, 64, 85];

#[test]
fn a_report_is_of_the_bytes_however_they_come(rt: HostRuntime) -> Result<(), Fail> {
    for &(lines, cut, report, status) in &ROWS {
        let text = text_of(rt.alloc(), lines)?;
        let bytes = &text.as_slice()[..text.len().saturating_sub(cut)];
        for &step in &STEPS {
            let is_told = tells(&rt, JUDGES[step % 5], bytes, step, (report, status))?;
            assert!(rt; is_told, "{lines} by {step}");
        }
    }
    Ok(())
}

// A trace of 2,001 events: two goroutines write y at both ends, and main reads what it wrote last between them.
fn long_text(alloc: Global) -> Result<Vec<u8>, AllocError> {
    let mut text = text_of(
        alloc,
        "gotrace 1 / goroutine w / var x / var y / go main w p / write w y 1 p",
    )?;
    for value in 0..999u64 {
        let lines = format!(in alloc; "write main x {value} p\nread main x {value} p\n")?;
        text.extend_from_slice(lines.as_bytes())?;
    }
    text.extend_from_slice(b"write main y 2 p\n")?;
    Ok(text)
}

#[test]
fn a_thousand_blocks_are_judged_in_their_order(rt: HostRuntime) -> Result<(), Fail> {
    let text = long_text(rt.alloc())?;
    let told = (
        "race on y: write by w at p (event 2), write by main at p (event 2001) / races: 1",
        status::RACES,
    );
    for &(judge, step) in &[((1, 2), 61), ((3, 2), 61), ((3, 2), 7_000)] {
        assert!(rt;
            tells(&rt, judge, text.as_slice(), step, told)?,
            "by {step}"
        );
    }
    Ok(())
}
