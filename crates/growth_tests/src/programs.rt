//! The calls of race_script.
ghost use Rattle.std.specs.Prelude.{◌<◌};

use crate::calls::{Growing, Reply, assert_each, refused_if, right_if};
use race_records::Kind;
use race_script::{Program, ProgramReader, Script, parse_program};
use race_text::{TextCause, TextFault};
use refusing_heap::RefusingHeap;
use std::alloc::{Allocator, Global};
use std::sync::Wait;
use std::thread::Threads;

/// A call of race_script.
#[derive(Clone, Copy)]
enum Call {
    Parse,
    Feed,
    Finish,
    Script,
}

static TEXT: &[u8] = b"goprogram 1\nvar x\nbody main\nwrite x 7 m:1\nexit m:2\n";

// A function round the call, so that the run's proof needs nothing of its contract.
pub(crate) fn parse<A: Allocator + Copy>(alloc: A) -> Result<Program<A>, TextFault> {
    parse_program(alloc, TEXT)
}

fn parsed(heap: &RefusingHeap<Global>, nth: u64) -> Reply
    requires { 0 < nth }
{
    heap.refuse(nth);
    match parse(heap) {
        Ok(program) => right_if(program.decls().count(Kind::Var) == 1),
        Err(fault) => refused_if(fault.cause == TextCause::OutOfMemory),
    }
}

// Feeds a program, but for its last newline.
fn feed<A: Allocator + Copy>(reader: &mut ProgramReader<A>) -> Result<(), TextFault> {
    reader.feed(b"goprogram 1\nvar x\nbody main\nwrite x 7 m:1\nexit m:2")
}

// What a reader answers at the end: how many variables.
fn finish<A: Allocator + Copy>(reader: ProgramReader<A>) -> Result<u32, TextFault> {
    match reader.finish() {
        Ok(program) => Ok(program.decls().count(Kind::Var)),
        Err(fault) => Err(fault),
    }
}

// Whether the same fault is told again, by the next piece and at the end.
fn tells_again<A: Allocator + Copy>(mut reader: ProgramReader<A>, fault: TextFault) -> bool {
    let next = feed(&mut reader);
    let end = finish(reader);
    next == Err(fault) && end == Err(fault)
}

fn fed(heap: &RefusingHeap<Global>, nth: u64) -> Reply
    requires { 0 < nth }
{
    let mut reader = ProgramReader::new(heap);
    heap.refuse(nth);
    match feed(&mut reader) {
        Ok(()) => Reply::Right,
        Err(fault) => refused_if(
            tells_again(reader, fault) && fault.cause == TextCause::OutOfMemory,
        ),
    }
}

fn finished(heap: &RefusingHeap<Global>, nth: u64) -> Reply
    requires { 0 < nth }
{
    let mut reader = ProgramReader::new(heap);
    let is_fed = feed(&mut reader).is_ok() && reader.feed(b"\n").is_ok();
    heap.refuse(nth);
    let answer = finish(reader);
    right_if(is_fed && answer == Ok(1))
}

// Main's script has two steps.
fn script<A: Allocator + Copy>(alloc: A, program: &Program<A>) -> Reply {
    if program.decls().count(Kind::Goroutine) == 0 {
        return Reply::Wrong;
    }
    match Script::new(alloc, program, 0) {
        Ok(script) => right_if(script.whole().len() == 2),
        Err(_) => Reply::OutOfMemory,
    }
}

fn scripted(heap: &RefusingHeap<Global>, nth: u64) -> Reply
    requires { 0 < nth }
{
    match parse(heap) {
        Ok(program) => {
            heap.refuse(nth);
            script(heap, &program)
        }
        Err(_) => Reply::Wrong,
    }
}

impl Growing for Call {
    fn reply<T: Threads + Wait + Sync>(
        self,
        _rt: &T,
        heap: &RefusingHeap<Global>,
        nth: u64,
    ) -> Reply {
        match self {
            Call::Parse => parsed(heap, nth),
            Call::Feed => fed(heap, nth),
            Call::Finish => finished(heap, nth),
            Call::Script => scripted(heap, nth),
        }
    }
}

static CALLS: [(Call, u64); 4] = [
    // The variable takes six, the first step with its place six, the second place and the list of bodies one each.
    (Call::Parse, 14),
    // The bytes of the second step are kept.
    (Call::Feed, 13),
    (Call::Finish, 0),
    (Call::Script, 1),
];

#[test]
fn programs(rt: HostRuntime) {
    assert_each(&rt, &CALLS);
}
