//! The calls of race_text.
ghost use Rattle.std.specs.Prelude.{◌<◌};

use crate::calls::{Growing, Reply, assert_each, refused_if, right_if};
use crate::records::{Start, is_as_started, started};
use race_records::{Decls, Trace};
use race_text::{LineReader, TextCause, TextFault, parse_trace, read_declaration};
use refusing_heap::RefusingHeap;
use std::alloc::{Allocator, Global};
use std::sync::Wait;
use std::thread::Threads;

/// A call of race_text.
#[derive(Clone, Copy)]
enum Call {
    Parse,
    Feed,
    Finish,
    ReadDeclaration(Start),
}

// The fault where this growth is refused: the variable takes six, and a seventh for its short name that
// it can do without, guesses one that the event can do without, the place and the event six, and a line that isn't ended yet
// is kept.
fn fault_of_growth(nth: u64) -> TextFault {
    TextFault {
        line: if nth <= 7 {
            2
        } else if nth <= 14 {
            3
        } else {
            4
        },
        cause: TextCause::OutOfMemory,
    }
}

// A function round the call, so that the run's proof needs nothing of its contract.
fn parse<A: Allocator + Copy>(alloc: A) -> Result<Trace<A>, TextFault> {
    parse_trace(alloc, b"gotrace 1\nvar x\nwrite main x 7 a.go:1\n")
}

fn parsed(heap: &RefusingHeap<Global>, nth: u64) -> Reply
    requires { 0 < nth }
{
    heap.refuse(nth);
    match parse(heap) {
        Ok(trace) => right_if(trace.len() == 1),
        Err(fault) => refused_if(fault == fault_of_growth(nth)),
    }
}

// Feeds a trace and half a line more.
fn feed<A: Allocator + Copy>(reader: &mut LineReader<A>) -> Result<(), TextFault> {
    reader.feed(b"gotrace 1\nvar x\nwrite main x 7 a.go:1\nexit")
}

// What a reader answers at the end: how many events.
fn finish<A: Allocator + Copy>(reader: LineReader<A>) -> Result<usize, TextFault> {
    match reader.finish() {
        Ok(trace) => Ok(trace.len()),
        Err(fault) => Err(fault),
    }
}

// Whether the same fault is told again, by the next piece and at the end.
fn tells_again<A: Allocator + Copy>(mut reader: LineReader<A>, fault: TextFault) -> bool {
    let next = feed(&mut reader);
    let end = finish(reader);
    next == Err(fault) && end == Err(fault)
}

fn fed(heap: &RefusingHeap<Global>, nth: u64) -> Reply
    requires { 0 < nth }
{
    let mut reader = LineReader::new(heap);
    heap.refuse(nth);
    match feed(&mut reader) {
        Ok(()) => Reply::Right,
        Err(fault) => refused_if(tells_again(reader, fault) && fault == fault_of_growth(nth)),
    }
}

fn finished(heap: &RefusingHeap<Global>, nth: u64) -> Reply
    requires { 0 < nth }
{
    let mut reader = LineReader::new(heap);
    let is_fed = feed(&mut reader).is_ok() && reader.feed(b" main a.go:1\n").is_ok();
    heap.refuse(nth);
    let answer = finish(reader);
    right_if(is_fed && answer == Ok(2))
}

fn declare<A: Allocator + Copy>(decls: &mut Decls<A>) -> Result<bool, TextCause> {
    read_declaration(decls, b"var y")
}

fn declared(heap: &RefusingHeap<Global>, start: Start, nth: u64) -> Reply
    requires { 0 < nth }
{
    match (started(heap, start), started(heap, start)) {
        (Some(mut decls), Some(twin)) => {
            heap.refuse(nth);
            match declare(&mut decls) {
                Ok(is_declared) => right_if(is_declared),
                Err(cause) => refused_if(
                    cause == TextCause::OutOfMemory && is_as_started(&decls, &twin, start),
                ),
            }
        }
        _ => Reply::Wrong,
    }
}

impl Growing for Call {
    fn reply<T: Threads + Wait + Sync>(
        self,
        _rt: &T,
        heap: &RefusingHeap<Global>,
        nth: u64,
    ) -> Reply {
        match self {
            Call::Parse => parsed(heap, nth),
            Call::Feed => fed(heap, nth),
            Call::Finish => finished(heap, nth),
            Call::ReadDeclaration(start) => declared(heap, start, nth),
        }
    }
}

static CALLS: [(Call, u64); 5] = [
    (Call::Parse, 12),
    (Call::Feed, 13),
    (Call::Finish, 0),
    (Call::ReadDeclaration(Start::Nothing), 6),
    (Call::ReadDeclaration(Start::Copy), 4),
];

#[test]
fn texts(rt: HostRuntime) {
    assert_each(&rt, &CALLS);
}
