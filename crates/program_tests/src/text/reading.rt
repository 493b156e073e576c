//! What is read: traces as values, declarations, words and numbers.
ghost use Rattle.std.specs.Prelude.{◌<◌, length};

use crate::text::writing::is_written_as;
use race_records::{Case, Cases, Cause, Decls, Dir, Op, Trace};
use race_text::TextCause::{BadNumber, Taken, WrongCount};
use race_text::{TextCause, parse_trace, read_declaration, read_number, split_words};
use std::alloc::Global;
use std::test::Fail;

/// An event: who, the operation, its place and its second one, or an empty text.
type Row = (u32, Op, &'static str, &'static str);

// The text of a place, or an empty one where there is none.
fn place_text(trace: &Trace, place: Option<u32>) -> &str {
    if let Some(place) = place
        && place < trace.decls().place_count()
    {
        trace.place_text(place)
    } else {
        ""
    }
}

// The first event that isn't read so. Behind the last it is the trace that isn't written as it was read.
fn first_wrong(alloc: Global, text: &[u8], rows: &[Row]) -> Result<Option<usize>, Fail> {
    let trace = parse_trace(alloc, text)?;
    for (at, (event, (who, op, place, second))) in trace.events().iter().zip(rows).enumerate() {
        let is_right = event.who == *who
            && event.op == *op
            && place_text(&trace, Some(event.place)) == *place
            && place_text(&trace, event.place2) == *second;
        if !is_right {
            return Ok(Some(at));
        }
    }
    let is_right = trace.len() == rows.len() && is_written_as(alloc, &trace, text);
    Ok((!is_right).then_some(trace.len()))
}

static PLAIN: &[u8] =
    b"gotrace 1\ngoroutine w\nvar x\nwrite main x 18446744073709551615 a.go:1\ngo main w a.go:2\nread w x 7 a.go:1\nexit main a.go:3\n";

static SELECTS: &[u8] =
    b"gotrace 1\nchan c 0\nchan d 2\ndefault main send:d,recv:nil,recv:c p\ndefault main - p\n\
      fault main close:d p\nfault main close:nil p\nfault main send:c p\n";

static CASES: [(Dir, Option<u32>); 3] = [
    (Dir::Send, Some(1)),
    (Dir::Recv, None),
    (Dir::Recv, Some(0)),
];

// The cases of the first select, or none where one is refused.
fn cases() -> Cases {
    let mut cases = Cases::new();
    for &(dir, chan) in &CASES {
        if cases.push(Case { dir, chan }).is_err() {
            return Cases::new();
        }
    }
    cases
}

#[test]
fn reads_accesses_and_selects(rt: HostRuntime) -> Result<(), Fail> {
    let rows = [
        (0, Op::Write(0, u64::MAX), "a.go:1", ""),
        (0, Op::Go(1), "a.go:2", ""),
        (1, Op::Read(0, 7), "a.go:1", ""),
        (0, Op::Exit, "a.go:3", ""),
    ];
    assert_eq!(rt; first_wrong(rt.alloc(), PLAIN, &rows)?, None);
    let rows = [
        (0, Op::Default(cases()), "p", ""),
        (0, Op::Default(Cases::new()), "p", ""),
        (0, Op::Fault(Cause::CloseClosed(1)), "p", ""),
        (0, Op::Fault(Cause::CloseNil), "p", ""),
        (0, Op::Fault(Cause::SendClosed(0)), "p", ""),
    ];
    assert_eq!(rt; first_wrong(rt.alloc(), SELECTS, &rows)?, None);
    Ok(())
}

static CHANNELS: &[u8] =
    b"gotrace 1\ngoroutine w\nchan c 65535\nchan u 0\ngo main w a\nsend main c 7 b\nrecv w c 7 c\nmeet w main u 8 c d\nmeet main w u 9 e e\n\
      close main u a\nrecvclosed w u f\n";

pub(crate) static TRIES: &[u8] = b"gotrace 2\ngoroutine w\nmutex m\nrwmutex l\n\
      trylock main m a\ntryfail w m b\nunlock main m a\ntryrlock w l c\ntryrlock main l d\ntryfail main l d\n";

#[test]
fn reads_channels_and_tries(rt: HostRuntime) -> Result<(), Fail> {
    let rows = [
        (0, Op::Go(1), "a", ""),
        (0, Op::Send(0, 7), "b", ""),
        (1, Op::Recv(0, 7), "c", ""),
        (1, Op::Meet(0, 1, 8), "c", "d"),
        (0, Op::Meet(1, 1, 9), "e", "e"),
        (0, Op::Close(1), "a", ""),
        (1, Op::RecvClosed(1), "f", ""),
    ];
    assert_eq!(rt; first_wrong(rt.alloc(), CHANNELS, &rows)?, None);
    let rows = [
        (0, Op::TryLock(0), "a", ""),
        (1, Op::TryFail(0), "b", ""),
        (0, Op::Unlock(0), "a", ""),
        (1, Op::TryRLock(1), "c", ""),
        (0, Op::TryRLock(1), "d", ""),
        (0, Op::TryFail(1), "d", ""),
    ];
    assert_eq!(rt; first_wrong(rt.alloc(), TRIES, &rows)?, None);
    Ok(())
}

// Mutexes and rwmutexes are numbered together.
static LOCKS: &[u8] = b"gotrace 1\ngoroutine w\nmutex m\nonce o\nrwmutex l\nonce u\nmutex n\n\
      lock main m a\nunlock w m b\nrlock main l c\nrunlock w l d\nlock w n a\nunlock main l b\n\
      oncebegin main o e\nonceend main o f\noncedone w u g\nfault w unlock:n h\nfault main unlock:l h\nfault main runlock:l h\n";

#[test]
fn reads_locks_and_onces(rt: HostRuntime) -> Result<(), Fail> {
    let rows = [
        (0, Op::Lock(0), "a", ""),
        (1, Op::Unlock(0), "b", ""),
        (0, Op::RLock(1), "c", ""),
        (1, Op::RUnlock(1), "d", ""),
        (1, Op::Lock(2), "a", ""),
        (0, Op::Unlock(1), "b", ""),
        (0, Op::OnceBegin(0), "e", ""),
        (0, Op::OnceEnd(0), "f", ""),
        (1, Op::OnceDone(1), "g", ""),
        (1, Op::Fault(Cause::UnlockFree(2)), "h", ""),
        (0, Op::Fault(Cause::UnlockFree(1)), "h", ""),
        (0, Op::Fault(Cause::RUnlockFree(1)), "h", ""),
    ];
    assert_eq!(rt; first_wrong(rt.alloc(), LOCKS, &rows)?, None);
    Ok(())
}

static NUMBERS: [(&[u8], u64, Option<u64>); 6] = [
    (b"0", 0, Some(0)),
    (b"65535", 65535, Some(65535)),
    (b"65536", 65535, None),
    (b"00", 9, None),
    (b"", 9, None),
    (b"+1", 9, None),
];

// Lines, one behind the other, and what is told of each as a declaration.
static LINES: [(&[u8], Result<bool, TextCause>); 7] = [
    (b"var x", Ok(true)),
    (b"exit main p", Ok(false)),
    (b"var x", Err(Taken)),
    (b"goroutine", Err(WrongCount)),
    (b"goroutine w", Ok(true)),
    (b"chan c 65536", Err(BadNumber)),
    (b"chan c 3", Ok(true)),
];

#[test]
fn reads_fields_and_declarations(rt: HostRuntime) -> Result<(), Fail> {
    assert_eq!(rt; split_words(b" a  b").count(), 4);
    for &(word, max, number) in &NUMBERS {
        assert_eq!(rt; read_number(word, max), number, "at {word:?}");
    }
    let mut decls = Decls::new(rt.alloc());
    for &(line, answer) in &LINES {
        assert_eq!(rt; read_declaration(&mut decls, line), answer, "at {line:?}");
    }
    assert_eq!(rt; decls.len(), 3);
    // No report has this cause: the program ends without one.
    assert_eq!(rt;
        format!(in rt.alloc(); "{}", TextCause::OutOfMemory)?.as_str(),
        "out of memory"
    );
    Ok(())
}
