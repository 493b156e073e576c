//! Reads and writes that fail, by each engine.
use crate::devices::{SlowReader, SlowWriter};
use crate::tool::engines::{Engine, Runtime, answer, ended, judged_by, text_of};
use race_records::{Sink, Source};
use race_tool::status;
use std::io;
use std::test::Fail;

// Ways to fail: those too that elsewhere are tried again, or taken for the end of an input or for want of memory.
static KINDS: [io::ErrorKind; 5] = [
    io::ErrorKind::Other,
    io::ErrorKind::Interrupted,
    io::ErrorKind::WouldBlock,
    io::ErrorKind::UnexpectedEof,
    io::ErrorKind::OutOfMemory,
];

// How many bytes a read gives.
static STEPS: [usize; 3] = [1, 7, 1_000];

// How many shards judge, and how many events several of them are handed at a time.
static JUDGES: [(usize, usize); 4] = [(1, 65_536), (2, 1), (2, 1_000), (4, 65_536)];

// The first lines of a trace and of a program.
const TRACE: &str = "gotrace 1 / goroutine w / var x / write main x 7 a.go:1";

const PROGRAM: &str = "goprogram 1 / var x / body main / write x 1 m:1";

// Each has a faulty line last. Line 5 of the trace is an illegal event.
const FAULTY: &str =
    "gotrace 1 / goroutine w / var x / var y / read main x 1 p / go main w p / exit w p / write main y 1 p / jump main p";

const FAULTY_PROGRAM: &str = "goprogram 1 / var x / body main / read x m:1 / jump m:2";

const FAULT: &str = "line 9: unknown word\n";

const PROGRAM_FAULT: &str = "line 5: unknown word\n";

/// An engine, an input behind which a read fails, and what is written where a fault of the text is told before.
type Row = (Engine, &'static str, &'static str);

static READERS: [Row; 28] = [
    (Engine::Check, TRACE, ""),
    (Engine::Edges, TRACE, ""),
    (Engine::Witness, TRACE, ""),
    (Engine::Draw(false), TRACE, ""),
    (Engine::Draw(true), TRACE, ""),
    (Engine::Run, PROGRAM, ""),
    (Engine::Race, PROGRAM, ""),
    (Engine::Explain, TRACE, ""),
    (Engine::Predict, TRACE, ""),
    (Engine::Explore, PROGRAM, ""),
    (Engine::Check, "gotrace 1 / var x", ""),
    (Engine::Edges, "gotrace 1 / var x", ""),
    (
        Engine::Check,
        "gotrace 1 / var x / read main x 1 p / write main x 1 p",
        "",
    ),
    (
        Engine::Edges,
        "gotrace 1 / var x / read main x 1 p / write main x 1 p",
        "",
    ),
    (Engine::Run, "goprogram 1 / body main", ""),
    // Behind a faulty line no read can fail: there is none.
    (Engine::Check, FAULTY, FAULT),
    (Engine::Edges, FAULTY, FAULT),
    (Engine::Witness, FAULTY, FAULT),
    (Engine::Draw(false), FAULTY, FAULT),
    (Engine::Draw(true), FAULTY, FAULT),
    (Engine::Run, FAULTY_PROGRAM, PROGRAM_FAULT),
    (Engine::Race, FAULTY_PROGRAM, PROGRAM_FAULT),
    (Engine::Predict, FAULTY, FAULT),
    (Engine::Explore, FAULTY_PROGRAM, PROGRAM_FAULT),
    (Engine::Check, "gotrace 3", "line 1: bad header\n"),
    (Engine::Edges, "gotrace 3", "line 1: bad header\n"),
    (Engine::Run, "goprogram 3", "line 1: bad header\n"),
    (
        Engine::Check,
        "gotrace 1 / var x / jump / var",
        "line 3: unknown word\n",
    ),
];

// Whether the row's engine tells so where a read gives so many bytes, and one fails in this way behind them.
fn is_told(
    rt: &impl Runtime,
    &(engine, lines, written): &Row,
    way: usize,
    step: usize,
) -> Result<bool, Fail> {
    let text = text_of(rt.alloc(), lines)?;
    let reader = SlowReader {
        bytes: text.as_slice(),
        step,
        fault: Some(KINDS[way % 5]),
    };
    let (shards, block) = JUDGES[way % 4];
    let engine = (engine, &judged_by(shards, block));
    let (answer, output, reads, failures) = ended(rt, engine, reader);
    let (status, most, failed) = if written == "" {
        (status::DEVICE, 2, 1)
    } else {
        (status::TEXT_FAULT, 1, 0)
    };
    let is_read_so = step < 1_000 || reads == most;
    Ok(
        is_read_so
            && (answer, failures) == (status, failed)
            && output.as_slice() == written.as_bytes(),
    )
}

#[test]
fn a_read_that_fails_is_told_where_no_line_before_is_faulty(rt: HostRuntime) -> Result<(), Fail> {
    for (at, row) in READERS.iter().enumerate() {
        for way in 0..KINDS.len() {
            // Each row meets each of them, and each way to fail.
            let step = STEPS[(at % 3 + way) % 3];
            assert!(rt; is_told(&rt, row, way, step)?, "row {at}, {way} by {step}");
        }
    }
    Ok(())
}

const LATE_WRITE: &str =
    "gotrace 1 / goroutine w / var x / go main w a.go:2 / write main x 1 a.go:3 / read w x 1 a.go:6";

// Main waits for w's value over c, and reads what w wrote.
const HANDOFF: &str =
    "goprogram 1 / goroutine w / chan c 0 / var x / body main / go w m:1 / recv c m:2 / read x m:3 / exit m:4 / body w / write x 8 w:1 / send c 1 w:2 / exit w:3";

// An engine, its input, and the first five bytes that it writes.
static WRITERS: [(Engine, &str, &[u8]); 22] = [
    (Engine::Check, "gotrace 1", b"clean"),
    (Engine::Check, TRACE, b"clean"),
    (Engine::Check, LATE_WRITE, b"race "),
    (
        Engine::Check,
        "gotrace 1 / var x / read main x 1 p",
        b"illeg",
    ),
    (Engine::Check, FAULTY, b"line "),
    (Engine::Edges, LATE_WRITE, b"edge "),
    (Engine::Edges, FAULTY, b"line "),
    (Engine::Witness, LATE_WRITE, b"3 rea"),
    (Engine::Witness, TRACE, b"no su"),
    (Engine::Draw(false), LATE_WRITE, b"races"),
    (Engine::Draw(true), LATE_WRITE, b"<svg "),
    (Engine::Draw(false), TRACE, b"clean"),
    (Engine::Run, HANDOFF, b"gotra"),
    (Engine::Run, FAULTY_PROGRAM, b"line "),
    (Engine::Race, HANDOFF, b"clean"),
    (Engine::Race, FAULTY_PROGRAM, b"line "),
    (Engine::Explain, LATE_WRITE, b"race "),
    (Engine::Explain, FAULTY, b"line "),
    (Engine::Predict, LATE_WRITE, b"race "),
    (Engine::Predict, FAULTY, b"line "),
    (Engine::Explore, HANDOFF, b"runs:"),
    (Engine::Explore, FAULTY_PROGRAM, b"line "),
];

#[test]
fn a_writer_that_is_full_or_fails_is_told_and_tried_once(rt: HostRuntime) -> Result<(), Fail> {
    for &(engine, lines, taken) in &WRITERS {
        let text = text_of(rt.alloc(), lines)?;
        for way in 0..6usize {
            let mut source = Source::new(text.as_slice());
            let mut writer = SlowWriter {
                taken: Vec::new(rt.alloc()),
                step: usize::MAX,
                room: 5,
                fault: KINDS.get(way).copied(),
            };
            let mut sink = Sink::new(&mut writer);
            let code = answer(&rt, (engine, &judged_by(1, 65_536)), &mut source, &mut sink);
            let told = (code, sink.failures());
            assert_eq!(rt; told, (status::DEVICE, 1), "{engine:?} {lines}, {way}");
            assert_eq!(rt; writer.taken.as_slice(), taken, "{engine:?} {lines}, {way}");
        }
    }
    Ok(())
}
