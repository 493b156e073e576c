//! The engines of race_tool.

use crate::calls::{Growing, Reply, assert_each, refusals, refused_if, right_if};
use race_records::{Sink, Source};
use race_tool::{
    CheckOptions, ExploreOptions, PredictOptions, RunOptions, run_certify, run_check, run_draw,
    run_edges, run_explain, run_explore, run_predict, run_race, run_run, run_witness, status,
};
use refusing_heap::RefusingHeap;
use std::alloc::{Allocator, Global};
use std::io;
use std::io::{Read, Write};
use std::sync::Wait;
use std::thread::Threads;

// How a trace is judged.
#[derive(Clone, Copy)]
enum Judging {
    Plain,
    /// By so many shards.
    Shards(usize),
}

#[derive(Clone, Copy)]
enum Engine {
    Check(Judging),
    /// Of this text, by so many threads, which judge one event at a time, where a read gives few bytes.
    CheckPieces(&'static [u8], usize),
    /// By so many threads, of which several read lines ahead.
    CheckRounds(usize),
    Edges,
    /// By so many workers, or without any by picks.
    Run(Option<usize>),
    Race(Option<usize>, Judging),
    Witness,
    /// As an SVG document or not.
    Draw(bool),
    /// Of a trace that hides a race, in turned orders too or not.
    Predict(bool),
    Certify,
    Explain,
    Explore,
}

// A goroutine, a variable and a race.
const TRACE: &[u8] =
    b"gotrace 1\ngoroutine w\nvar x\ngo main w p\nwrite main x 1 p\nread w x 1 p\n";

// Its race is hidden by the order of two critical sections.
const HIDDEN: &[u8] =
    b"gotrace 1\ngoroutine w\nmutex m\nvar x\ngo main w p\nwrite main x 1 p\nlock main m p\nunlock main m p\nlock w m p\nunlock w m p\nread w x 1 p\n";

// An event that breaks a rule, others, and a faulty line behind them.
const FAULTY: &[u8] =
    b"gotrace 1\nvar x\nread main x 1 p\nwrite main x 1 p\nwrite main x 2 q\nwrite main x 3 r\njump\n";

// The first three events of each run of this are those of the trace, with the read before the write or behind it.
const PROGRAM: &[u8] =
    b"goprogram 1\ngoroutine w\nvar x\nbody main\ngo w p\nwrite x 1 p\nrecv nil p\nexit p\nbody w\nread x p\nrecv nil p\nexit p\n";

fn options(judging: Judging) -> CheckOptions {
    match judging {
        Judging::Plain => CheckOptions {
            plain: true,
            ..CheckOptions::default()
        },
        Judging::Shards(shards) => CheckOptions {
            shards,
            ..CheckOptions::default()
        },
    }
}

fn run_options<A: Allocator>(alloc: A, workers: Option<usize>) -> RunOptions<A> {
    let usual = RunOptions {
        limit: 3,
        ..RunOptions::default()
    };
    match workers {
        Some(workers) => RunOptions { workers, ..usual },
        None => RunOptions {
            picks: Some(Vec::new(alloc)),
            ..usual
        },
    }
}

/// What an engine writes.
#[derive(Clone, Copy)]
enum Written {
    One(&'static [u8]),
    /// The one or the other, as the workers go.
    Either(&'static [u8], &'static [u8]),
    /// A text that begins so.
    Front(&'static [u8]),
    /// A drawing of so many bytes.
    Drawing(usize),
}

/// The status with which an engine ends, and what it writes.
type Ending = (u8, Written);

const CHECKED: Ending = (
    status::RACES,
    Written::One(b"race on x: write by main at p (event 2), read by w at p (event 3)\nraces: 1\n"),
);

const FAULT: Ending = (status::TEXT_FAULT, Written::One(b"line 7: unknown word\n"));

// The edge of the `go`.
const LISTED: Ending = (status::CLEAN, Written::One(b"edge 1 main 1 w\nedges: 1\n"));

// Where no pick is left, who began to wait first goes on: main.
const RUN_BY_PICKS: Ending = (status::LIMIT, Written::One(TRACE));

// A read that stands before the write finds 0.
const RUN_BY_WORKERS: Ending = (
    status::LIMIT,
    Written::Either(
        TRACE,
        b"gotrace 1\ngoroutine w\nvar x\ngo main w p\nread w x 0 p\nwrite main x 1 p\n",
    ),
);

const JUDGED: &[u8] =
    b"race on x: write by main at p (event 2), read by w at p (event 3)\nraces: 1\nend: limit\n";

const RACED: Ending = (status::RACES, Written::One(JUDGED));

const RACED_BY_WORKERS: Ending = (
    status::RACES,
    Written::Either(
        JUDGED,
        b"race on x: read by w at p (event 2), write by main at p (event 3)\nraces: 1\nend: limit\n",
    ),
);

// The second access of the race, and then the first.
const SHOWN: Ending = (
    status::CLEAN,
    Written::One(b"3 read w x\n2 write main x\nwitness: 2 accesses\n"),
);

const DRAWN: Ending = (status::CLEAN, Written::Drawing(346));

const DRAWN_AS_SVG: Ending = (status::CLEAN, Written::Drawing(1732));

const PREDICTED: Ending = (
    status::RACES,
    Written::One(
        b"clean: 7 events, 2 accesses\npredicted race on x: write by main at p (event 2), read by w at p (event 7)\npredicted: 1\n",
    ),
);

// The section of main isn't needed for the two accesses.
const CERTIFIED: Ending = (
    status::CLEAN,
    Written::One(
        b"gotrace 1\ngoroutine w\nmutex m\nvar x\ngo main w p\nlock w m p\nunlock w m p\nwrite main x 1 p\nread w x 1 p\n",
    ),
);

const EXPLAINED: Ending = (
    status::RACES,
    Written::Front(
        b"race on x: write by main at p (event 2), read by w at p (event 3)\nraces: 1\n",
    ),
);

// The write comes first or the read does; then both goroutines wait for ever.
const EXPLORED: Ending = (status::RACES, Written::Front(b"race on x in 2 of 2 runs: "));

// Gives its bytes, five a read.
#[derive(Drop)]
struct Pieces {
    bytes: &'static [u8],
}

impl Read for Pieces {
    fn read(&mut self, buf: &mut [u8]) -> io::Result<usize> {
        let count = buf.len().min(5);
        self.bytes.read(&mut buf[..count])
    }
}

// Gives its bytes, and then one line so often that it is long enough for several threads.
#[derive(Drop)]
struct Repeated {
    bytes: &'static [u8],
    lines: usize,
}

// Of 60 bytes, so that not many are needed.
const LINE: &[u8] = b"write main x 1 store/of/values/that_are_written_often.go:12\n";

const LINES: usize = 2_400;

impl Read for Repeated {
    fn read(&mut self, buf: &mut [u8]) -> io::Result<usize> {
        if !self.bytes.is_empty() {
            return self.bytes.read(buf);
        }
        let lines = self.lines.min(buf.len() / LINE.len());
        self.lines -= lines;
        let count = lines * LINE.len();
        for at in 0..count {
            buf[at] = LINE[at % LINE.len()];
        }
        Ok(count)
    }
}

// Whether the output, of this length, is the text.
fn is_text(output: &[u8], len: usize, text: &[u8]) -> bool {
    len == text.len() && output.starts_with(text)
}

fn is_written(output: &[u8], len: usize, written: Written) -> bool {
    match written {
        Written::One(text) => is_text(output, len, text),
        Written::Either(text, other) => {
            is_text(output, len, text) || is_text(output, len, other)
        }
        Written::Front(text) => output.starts_with(text),
        Written::Drawing(bytes) => len == bytes,
    }
}

// The status of a check by so many threads, which judge one event at a time.
fn run_check_in_pieces<R: Threads + Wait + Sync, A: Allocator + Copy + Send + Sync, W: Write>(
    rt: &R,
    alloc: A,
    bytes: &'static [u8],
    sink: &mut Sink<W>,
    shards: usize,
) -> u8 {
    let mut pieces = Source::new(Pieces { bytes });
    let options = CheckOptions {
        shards,
        block: 1,
        plain: false,
    };
    run_check(rt, alloc, &mut pieces, sink, &options)
}

// The status of a check by so many threads, of which those that don't judge read lines ahead.
fn run_check_in_rounds<R: Threads + Wait + Sync, A: Allocator + Copy + Send + Sync, W: Write>(
    rt: &R,
    alloc: A,
    sink: &mut Sink<W>,
    shards: usize,
) -> u8 {
    let mut trace = Source::new(Repeated {
        bytes: TRACE,
        lines: LINES,
    });
    run_check(
        rt,
        alloc,
        &mut trace,
        sink,
        &options(Judging::Shards(shards)),
    )
}

// The status.
fn run<R: Threads + Wait + Sync, A: Allocator + Copy + Send + Sync>(
    rt: &R,
    alloc: A,
    engine: Engine,
    output: &mut [u8],
) -> u8 {
    let mut trace = Source::new(TRACE);
    let mut hidden = Source::new(HIDDEN);
    let mut program = Source::new(PROGRAM);
    let mut sink = Sink::new(output);
    match engine {
        Engine::Check(judging) => run_check(rt, alloc, &mut trace, &mut sink, &options(judging)),
        Engine::CheckPieces(bytes, shards) => {
            run_check_in_pieces(rt, alloc, bytes, &mut sink, shards)
        }
        Engine::CheckRounds(shards) => run_check_in_rounds(rt, alloc, &mut sink, shards),
        Engine::Edges => run_edges(alloc, &mut trace, &mut sink),
        Engine::Run(workers) => {
            let run = run_options(alloc, workers);
            run_run(rt, alloc, &mut program, &mut sink, &run)
        }
        Engine::Race(workers, judging) => {
            let (run, check) = (run_options(alloc, workers), options(judging));
            run_race(rt, alloc, &mut program, &mut sink, &run, &check)
        }
        Engine::Witness => run_witness(alloc, &mut trace, &mut sink, "x"),
        Engine::Draw(svg) => run_draw(alloc, &mut trace, &mut sink, None, svg),
        Engine::Predict(turned) => {
            let options = PredictOptions { most: 1, turned };
            run_predict(alloc, &mut hidden, &mut sink, &options)
        }
        Engine::Certify => run_certify(alloc, &mut hidden, &mut sink, "x", false),
        Engine::Explain => run_explain(alloc, &mut trace, &mut sink),
        Engine::Explore => {
            run_explore(alloc, &mut program, &mut sink, &ExploreOptions::default())
        }
    }
}

/// An engine, and how it ends.
#[derive(Clone, Copy)]
struct Row(Engine, Ending);

impl Growing for Row {
    fn reply<T: Threads + Wait + Sync>(
        self,
        rt: &T,
        heap: &RefusingHeap<Global>,
        nth: u64,
    ) -> Reply {
        let Row(engine, (status, written)) = self;
        let mut output = [0; 2048];
        heap.refuse(nth);
        let ended = run(rt, heap, engine, output.as_mut_slice());
        let len = output.iter().position(|byte| *byte == 0).unwrap_or(2048);
        if ended == status::REFUSED {
            refused_if(len == 0)
        } else {
            right_if(ended == status && is_written(output.as_slice(), len, written))
        }
    }
}

// The judge by one shard takes eight lists: four of the replay, for goroutines and variables, the list of shards, one for
// the shard's clocks, one for what is kept of its variables, and the races, which a verdict takes once more. A second shard
// takes two of its own. What is kept of a line that comes in pieces grows twice, and there are two lists of events then. The
// log of each of a run's two goroutines takes three. A judged run takes what the run takes, and then what its judge does.
// Workers take a copy of the declarations besides. A witness takes four lists more for another replay, one for the clocks of
// each of three walks, and one for its order. A drawing takes what the judge by one shard takes, six lists for its edges, one
// for the clocks of a walk, and one of pictures; a picture takes what is noted for its way, the way, its strands, its columns,
// and its rows, which ask again for less; each of the three rows takes its strokes; and its text is made in two lists. An SVG
// document is a list more, which grows three times.
static ENGINES: [(Row, u64); 14] = [
    (Row(Engine::Check(Judging::Shards(1)), CHECKED), 23),
    (Row(Engine::Check(Judging::Shards(2)), CHECKED), 23),
    (Row(Engine::CheckPieces(TRACE, 1), CHECKED), 26),
    (Row(Engine::Check(Judging::Plain), CHECKED), 26),
    (Row(Engine::Edges, LISTED), 21),
    (Row(Engine::Run(None), RUN_BY_PICKS), 49),
    (Row(Engine::Run(Some(1)), RUN_BY_WORKERS), 62),
    (Row(Engine::Run(Some(2)), RUN_BY_WORKERS), 62),
    (Row(Engine::Race(None, Judging::Shards(1)), RACED), 58),
    (Row(RACE_BY_TWO, RACED_BY_WORKERS), 73),
    (Row(Engine::Race(None, Judging::Plain), RACED), 60),
    (Row(Engine::Witness, SHOWN), 32),
    (Row(Engine::Draw(false), DRAWN), 41),
    (Row(Engine::Draw(true), DRAWN_AS_SVG), 45),
];

const RACE_BY_TWO: Engine = Engine::Race(Some(2), Judging::Shards(2));

#[test]
fn engines(rt: HostRuntime) {
    assert_each(&rt, &ENGINES);
}

// A thread that reads and one that judges grow at one time, in no order that is always the same: so which growth is refused
// isn't known, and how often differs.
static BESIDE: [Row; 4] = [
    Row(Engine::CheckPieces(TRACE, 3), CHECKED),
    Row(Engine::CheckRounds(4), CHECKED),
    Row(Engine::CheckPieces(FAULTY, 1), FAULT),
    Row(Engine::CheckPieces(FAULTY, 2), FAULT),
];

#[test]
fn engines_that_read_beside(rt: HostRuntime) {
    for row in &BESIDE {
        assert!(rt; refusals(&rt, *row).is_some());
    }
}

// How many lists a search or an explanation takes is its own matter.
static SEARCHES: [Row; 5] = [
    Row(Engine::Predict(false), PREDICTED),
    Row(Engine::Predict(true), PREDICTED),
    Row(Engine::Certify, CERTIFIED),
    Row(Engine::Explain, EXPLAINED),
    Row(Engine::Explore, EXPLORED),
];

#[test]
fn engines_that_search(rt: HostRuntime) {
    for row in &SEARCHES {
        assert!(rt; refusals(&rt, *row).is_some());
    }
}
