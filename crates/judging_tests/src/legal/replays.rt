//! What a replay says behind each event of legal traces. Which rules events break is in tests/check.
ghost use Rattle.std.specs.Prelude.{◌<◌};
ghost use Rattle.race_legal.specs.ReplayState.{counts_in};

use crate::legal::replays::Said::{Chan, Goroutine, Lock, Once};
use race_legal::{Replay, Rule};
use race_records::{Kind, Trace};
use race_text::parse_trace;
use std::alloc::{AllocError, Global};
use std::test::Fail;

/// What a replay says.
#[derive(Clone, Copy, PartialEq, Eq)]
enum Said {
    /// Whether the run is over, whether goroutine w was started and runs, and the value of x.
    Goroutine(bool, bool, bool, u64),
    /// Whether the channel is closed, how many values wait in it, and the first of them.
    Chan(bool, usize, Option<u64>),
    /// Whether the lock is held, and held for reading.
    Lock(bool, bool),
    /// Whether the once's function has begun and ended, and in which once's function w runs.
    Once(bool, bool, Option<u32>),
}

/// What a replay is asked of.
#[derive(Clone, Copy)]
enum Subject {
    Goroutine,
    Chan(u32),
    Lock(u32),
    Once(u32),
}

/// An event, and what a replay says behind it.
type Row = (&'static str, Said);

static DECLARED: &str =
    "gotrace 2\ngoroutine w\nvar x\nchan c 1\nchan d 0\nchan e 2\nmutex l\nrwmutex m\nonce o\nonce q\n";

static TABLES: [(Subject, &[Row]); 11] = [
    (
        Subject::Goroutine,
        &[
            ("go main w p", Goroutine(false, true, true, 0)),
            ("write w x 7 p", Goroutine(false, true, true, 7)),
            ("read main x 7 p", Goroutine(false, true, true, 7)),
            ("exit w p", Goroutine(false, true, false, 7)),
            ("exit main p", Goroutine(true, true, false, 7)),
        ],
    ),
    // Channel d has no buffer.
    (
        Subject::Chan(1),
        &[
            ("go main w p", Chan(false, 0, None)),
            ("meet main w d 5 p p", Chan(false, 0, None)),
            ("meet w main d 6 p p", Chan(false, 0, None)),
            ("close main d p", Chan(true, 0, None)),
            ("recvclosed main d p", Chan(true, 0, None)),
        ],
    ),
    // One value fits into channel c.
    (
        Subject::Chan(0),
        &[
            ("go main w p", Chan(false, 0, None)),
            ("send main c 5 p", Chan(false, 1, Some(5))),
            ("recv w c 5 p", Chan(false, 0, None)),
            ("send main c 9 p", Chan(false, 1, Some(9))),
            ("close main c p", Chan(true, 1, Some(9))),
            ("recv w c 9 p", Chan(true, 0, None)),
            ("recvclosed w c p", Chan(true, 0, None)),
            ("recvclosed main c p", Chan(true, 0, None)),
        ],
    ),
    // Two values fit into channel e.
    (
        Subject::Chan(2),
        &[
            ("go main w p", Chan(false, 0, None)),
            ("send main e 4 p", Chan(false, 1, Some(4))),
            ("send main e 6 p", Chan(false, 2, Some(4))),
            ("recv w e 4 p", Chan(false, 1, Some(6))),
            ("send w e 7 p", Chan(false, 2, Some(6))),
            ("recv w e 6 p", Chan(false, 1, Some(7))),
            ("recv w e 7 p", Chan(false, 0, None)),
        ],
    ),
    // Defaults of selects, and a fault.
    (
        Subject::Chan(0),
        &[
            ("go main w p", Chan(false, 0, None)),
            ("default main recv:c p", Chan(false, 0, None)),
            ("default main recv:d,send:d p", Chan(false, 0, None)),
            ("default main recv:nil,send:nil p", Chan(false, 0, None)),
            ("default main - p", Chan(false, 0, None)),
            ("send main c 5 p", Chan(false, 1, Some(5))),
            ("default w send:c p", Chan(false, 1, Some(5))),
            ("close main c p", Chan(true, 1, Some(5))),
            ("recv main c 5 p", Chan(true, 0, None)),
            ("close main d p", Chan(true, 0, None)),
            ("fault w send:d p", Chan(true, 0, None)),
        ],
    ),
    (
        Subject::Goroutine,
        &[("fault main close:nil p", Goroutine(true, false, false, 0))],
    ),
    (
        Subject::Lock(0),
        &[
            ("go main w p", Lock(false, false)),
            ("lock main l p", Lock(true, false)),
            ("lock w m p", Lock(true, false)),
            ("unlock w l p", Lock(false, false)),
            ("lock w l p", Lock(true, false)),
            ("unlock w l p", Lock(false, false)),
            ("fault w unlock:l p", Lock(false, false)),
        ],
    ),
    (
        Subject::Lock(1),
        &[
            ("go main w p", Lock(false, false)),
            ("rlock main m p", Lock(false, true)),
            ("rlock w m p", Lock(false, true)),
            ("runlock main m p", Lock(false, true)),
            ("runlock main m p", Lock(false, false)),
            ("lock main m p", Lock(true, false)),
            ("unlock main m p", Lock(false, false)),
            ("rlock w m p", Lock(false, true)),
            ("runlock w m p", Lock(false, false)),
            ("fault w runlock:m p", Lock(false, false)),
        ],
    ),
    // Goroutine w runs the function of once o, and in it that of once q.
    (
        Subject::Once(0),
        &[
            ("go main w p", Once(false, false, None)),
            ("oncebegin w o p", Once(true, false, Some(0))),
            ("oncebegin w q p", Once(true, false, Some(1))),
            ("onceend w q p", Once(true, false, Some(0))),
            ("oncedone main q p", Once(true, false, Some(0))),
            ("onceend w o p", Once(true, true, None)),
            ("oncedone main o p", Once(true, true, None)),
            ("exit w p", Once(true, true, None)),
        ],
    ),
    // Main runs the function of once o, and goroutine w that of once q.
    (
        Subject::Once(1),
        &[
            ("go main w p", Once(false, false, None)),
            ("oncebegin main o p", Once(false, false, None)),
            ("oncebegin w q p", Once(true, false, Some(1))),
            ("onceend w q p", Once(true, true, None)),
            ("oncedone main q p", Once(true, true, None)),
            ("exit w p", Once(true, true, None)),
            ("onceend main o p", Once(true, true, None)),
            ("exit main p", Once(true, true, None)),
        ],
    ),
    // Tries of the rwmutex.
    (
        Subject::Lock(1),
        &[
            ("go main w p", Lock(false, false)),
            ("trylock main m p", Lock(true, false)),
            ("tryfail w m p", Lock(true, false)),
            ("unlock main m p", Lock(false, false)),
            ("tryfail main m p", Lock(false, false)),
            ("tryrlock main m p", Lock(false, true)),
            ("tryrlock w m p", Lock(false, true)),
            ("tryfail w m p", Lock(false, true)),
            ("runlock main m p", Lock(false, true)),
            ("runlock main m p", Lock(false, false)),
            ("exit w p", Lock(false, false)),
            ("trylock main m p", Lock(true, false)),
            ("exit main p", Lock(true, false)),
        ],
    ),
];

fn asked_of(replay: &Replay, subject: Subject) -> Option<Said>
    requires goroutines { 1 < counts_in replay.now Kind.Goroutine }
    requires vars { 0 < counts_in replay.now Kind.Var }
    requires chans { 2 < counts_in replay.now Kind.Chan }
    requires locks { 1 < counts_in replay.now Kind.Lock }
    requires onces { 1 < counts_in replay.now Kind.Once }
{
    match subject {
        Subject::Goroutine => Some(Goroutine(
            replay.over(),
            replay.started(1),
            replay.runs(1),
            replay.last_value(0),
        )),
        Subject::Chan(chan) if chan < 3 => Some(Chan(
            replay.is_closed(chan),
            replay.buffered(chan),
            replay.front(chan),
        )),
        Subject::Lock(lock) if lock < 2 => {
            Some(Lock(replay.is_held(lock), replay.is_read_held(lock)))
        }
        Subject::Once(once) if once < 2 => Some(Once(
            replay.is_begun(once),
            replay.is_ended(once),
            replay.innermost(1),
        )),
        _ => None,
    }
}

fn traced(alloc: Global, rows: &[Row]) -> Result<Trace, Fail> {
    let mut text = String::from_str(alloc, DECLARED)?;
    for (line, _) in rows {
        text.push_str(*line)?;
        text.push_str("\n")?;
    }
    Ok(parse_trace(alloc, text.as_bytes())?)
}

// The first row whose event isn't accepted, or behind which the replay says something else.
fn first_wrong(
    alloc: Global,
    trace: &Trace,
    rows: &[Row],
    subject: Subject,
) -> Result<Option<usize>, AllocError> {
    let decls = trace.decls();
    let mut replay = Replay::new(alloc, decls)?;
    if trace.len() == rows.len()
        && decls.count(Kind::Goroutine) > 1
        && decls.count(Kind::Var) > 0
        && decls.count(Kind::Chan) > 2
        && decls.count(Kind::Lock) > 1
        && decls.count(Kind::Once) > 1
    {
        for at in 0..trace.len() {
            let (_, want) = rows[at];
            let answer = replay.accept(trace.event(at));
            if answer.is_err()
                || replay.len() != at + 1
                || asked_of(&replay, subject) != Some(want)
            {
                return Ok(Some(at));
            }
        }
        return Ok(None);
    }
    Ok(Some(0))
}

fn wrong_in(alloc: Global, rows: &[Row], subject: Subject) -> Result<Option<usize>, Fail> {
    let trace = traced(alloc, rows)?;
    Ok(first_wrong(alloc, &trace, rows, subject)?)
}

#[test]
fn a_replay_says_what_was_done(rt: HostRuntime) -> Result<(), Fail> {
    for (table, (subject, rows)) in TABLES.iter().enumerate() {
        assert_eq!(rt;
            wrong_in(rt.alloc(), *rows, *subject)?,
            None,
            "table {table}"
        );
    }
    assert_eq!(rt; (Rule::AfterEnd.number(), Rule::NoFault.number()), (1, 23));
    Ok(())
}
