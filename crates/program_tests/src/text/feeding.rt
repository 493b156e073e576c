//! A text that is fed in pieces.
ghost use Rattle.std.specs.Prelude.{◌≤◌, length};

use crate::text::reading::TRIES;
use crate::text::writing::{SMALL, is_written_as};
use race_records::Trace;
use race_text::TextCause::{
    BadHeader, BadName, BadNumber, LateDeclaration, NoNewline, Unknown, UnknownWord, WrongCount,
    WrongKind,
};
use race_text::{LineReader, TextCause, TextFault, parse_trace};
use std::alloc::Global;
use std::test::Fail;

// What a reader answers that is fed the text in pieces of this size.
fn in_pieces(alloc: Global, text: &[u8], size: usize) -> Result<Trace, TextFault> {
    let mut reader = LineReader::new(alloc);
    for piece in text.chunks(size.max(1)) {
        reader.feed(piece)?;
    }
    reader.finish()
}

#[test]
fn pieces_of_each_size_give_one_trace(rt: HostRuntime) -> Result<(), Fail> {
    for &size in &[1, 2, 7, 1_000] {
        for &text in &[SMALL, TRIES] {
            let trace = in_pieces(rt.alloc(), text, size)?;
            assert!(rt; trace == parse_trace(rt.alloc(), text)?, "at {size}");
            assert!(rt; is_written_as(rt.alloc(), &trace, text), "at {size}");
        }
    }
    Ok(())
}

const FAULT: TextFault = TextFault {
    line: 3,
    cause: BadNumber,
};

static PIECES: [(&[u8], Result<(), TextFault>); 6] = [
    (b"gotrace 1\nvar x\nwrite ma", Ok(())),
    (b"in x 01 p", Ok(())),
    (b"\njump\n", Err(FAULT)),
    (b"", Err(FAULT)),
    (b"exit main p\n", Err(FAULT)),
    (b"\x80\n", Err(FAULT)),
];

#[test]
fn a_refusal_is_told_again(rt: HostRuntime) {
    let mut reader = LineReader::new(rt.alloc());
    for &(piece, answer) in &PIECES {
        assert_eq!(rt; reader.feed(piece), answer, "{piece:?}");
    }
    assert_eq!(rt; reader.finish().err(), Some(FAULT));
}

/// A text, and the line and the cause of its fault, if it has one.
type Row = (&'static [u8], Option<(u64, TextCause)>);

static ROWS: [Row; 19] = [
    (SMALL, None),
    (b"gotrace 2\n", None),
    (
        b"gotrace 2\ngoroutine w\nmutex m\nrwmutex l\ntrylock main m a\ntryfail w m b\ntryrlock w l c\n",
        None,
    ),
    (b"gotrace 1\n", None),
    (
        b"gotrace 1\ngoroutine w\nchan c 3\nchan u 0\ngo main w a\nsend main c 7 b\nmeet w main u 8 c d\ndefault main send:u,recv:nil p\nclose main u a\n",
        None,
    ),
    (
        b"gotrace 1\ngoroutine w\nmutex m\nonce o\nrwmutex l\nlock main m a\nrlock main l c\noncebegin main o e\nfault w unlock:m h\n",
        None,
    ),
    (b"\n", Some((1, BadHeader))),
    (b"gotrace 1", Some((1, NoNewline))),
    (b"gotrace 1\r\n", Some((1, BadHeader))),
    (b"gotrace 2", Some((1, NoNewline))),
    (b"gotrace 3\n", Some((1, BadHeader))),
    (
        b"gotrace 1\nmutex m\ntrylock main m p\n",
        Some((3, UnknownWord)),
    ),
    (
        b"gotrace 2\nmutex m\ntryrlock main m p\n",
        Some((3, WrongKind)),
    ),
    (
        b"gotrace 1\nvar x\nwrite main x 01 p\nexit main p\n",
        Some((3, BadNumber)),
    ),
    (
        b"gotrace 1\nvar x\nwrite main  x 1 p\njump\n",
        Some((3, WrongCount)),
    ),
    (
        b"gotrace 1\nvar x\nwrite main x 1 p\nvar y\n",
        Some((4, LateDeclaration)),
    ),
    (
        b"gotrace 1\nvar -\nvar x y\nexit main q",
        Some((2, BadName)),
    ),
    (b"gotrace 1\njump\n\x80\n", Some((2, UnknownWord))),
    (b"gotrace 1\nvar x\nread a x 0 p\n", Some((3, Unknown))),
];

// Whether a text in two pieces is read as a whole, or its first piece refused exactly where it ends the faulty line.
fn is_read_in_two(alloc: Global, text: &[u8], cut: usize, fault: Option<TextFault>) -> bool
    requires { cut ≤ length text.now }
{
    let (first, second) = text.split_at(cut);
    let mut reader = LineReader::new(alloc);
    let told = reader.feed(first).err();
    let answer = match reader.feed(second) {
        Ok(()) => reader.finish(),
        Err(fault) => Err(fault),
    };
    let ended = first.iter().filter(|byte| **byte == b'\n').count() as u64;
    match (answer, fault) {
        (Ok(trace), None) => told.is_none() && is_written_as(alloc, &trace, text),
        (Err(answer), Some(fault)) => {
            answer == fault && told == (ended >= fault.line).then_some(fault)
        }
        _ => false,
    }
}

#[test]
fn a_text_may_be_cut_anywhere(rt: HostRuntime) {
    for &(text, fault) in &ROWS {
        let fault = fault.map(|(line, cause)| TextFault { line, cause });
        for cut in 0..text.len() {
            assert!(rt;
                is_read_in_two(rt.alloc(), text, cut, fault),
                "{text:?} at {cut}"
            );
        }
    }
}
