//! Texts of programs that come in pieces. What is told of a whole text is in tests/run.

use race_script::{Program, ProgramReader, parse_program};
use race_text::TextCause::{
    BadBlock, BadByte, BadHeader, LateDeclaration, NoNewline, Unknown, WrongKind,
};
use race_text::{TextCause, TextFault};
use std::alloc::Global;

// A text with its first fault, where it has one.
type Row = (&'static [u8], Option<(u64, TextCause)>);

static ROWS: [Row; 12] = [
    (b"", Some((1, BadHeader))),
    (b"goprogram 1", Some((1, NoNewline))),
    (b"goprogram 1\n", Some((2, BadBlock))),
    (b"goprogram 1\nbody main\nexit p", Some((3, NoNewline))),
    (b"goprogram 1\nbody main\nexit p\n", None),
    (b"goprogram 1\nbody main\nexit\tp\n", Some((3, BadByte))),
    (b"goprogram 1\nbody main\nread x p\n", Some((3, Unknown))),
    (b"goprogram 1\nvar x\nbody x\n", Some((3, WrongKind))),
    (
        b"goprogram 1\nbody main\nexit p\nvar x\n",
        Some((4, LateDeclaration)),
    ),
    (
        b"goprogram 1\ngoroutine w\nbody main\nexit p\n",
        Some((5, BadBlock)),
    ),
    (
        b"goprogram 1\ngoroutine w\nchan c 0\nvar x\nbody main\ngo w m:1\nrecv c m:2\nread x m:3\nexit m:4\nbody w\nwrite x 8 w:1\nsend c 1 w:2\nexit w:3\n",
        None,
    ),
    (
        b"goprogram 2\nmutex m\nrwmutex l\nbody main\ntrylock m p\ntrylock l p\ntryrlock l p\nexit p\n",
        None,
    ),
];

fn told(judged: Result<Program, TextFault>) -> Option<(u64, TextCause)> {
    match judged {
        Ok(_) => None,
        Err(fault) => Some((fault.line, fault.cause)),
    }
}

// What is told of the piece. A fault that isn't told again then is of no line.
fn fed(reader: &mut ProgramReader, piece: &[u8]) -> Result<(), TextFault> {
    let judged = reader.feed(piece);
    match judged {
        Err(fault) if reader.feed(piece) != judged => Err(TextFault { line: 0, ..fault }),
        _ => judged,
    }
}

fn read(alloc: Global, text: &[u8], len: usize) -> Result<Program, TextFault> {
    let mut reader = ProgramReader::new(alloc);
    for piece in text.chunks(len.max(1)) {
        fed(&mut reader, piece)?;
    }
    reader.finish()
}

static LENGTHS: [usize; 3] = [1, 2, 7];

// Whether the fault is told of the whole text, and of its pieces of each length.
fn is_told(alloc: Global, row: &Row) -> bool {
    if told(parse_program(alloc, row.0)) != row.1 {
        return false;
    }
    for &len in &LENGTHS {
        if told(read(alloc, row.0, len)) != row.1 {
            return false;
        }
    }
    true
}

#[test]
fn each_text_is_judged_whole_and_in_pieces(rt: HostRuntime) {
    for (at, row) in ROWS.iter().enumerate() {
        assert!(rt; is_told(rt.alloc(), row), "row {at}");
    }
}
