//! What is said of a line as a whole that is at fault.

use crate::count::is_whole;
use crate::cut_off::{line_within, put_cut_before};
use crate::line::put_quoted;
use crate::near::{Guess, is_same};
use crate::operand::object_of;
use crate::put::{put, put_number, put_number_in};
use crate::word::{bad_column, column_in};
use race_records::Trace;
use race_text::{cut_at, word_named};
use std::alloc::{AllocError, Allocator};

/// What is said of a last line that no newline ends, the one of this number.
pub(crate) fn put_unended<A: Allocator>(
    out: &mut Vec<u8, A>,
    line: &[u8],
    number: u64,
) -> Result<(), AllocError> {
    put(
        out,
        &[if number == 1 || is_whole(line) {
            "no newline ends the last line: the text may be cut off within it; if the line is whole, write a newline too"
        } else {
            "no newline ends the last line, and it has too few words: it seems to be cut off"
        }],
    )?;
    if number > 1 {
        put_number_in(
            out,
            "; the lines before it: head -n ",
            number - 1,
            " < FILE | gorace check",
        )?;
    }
    Ok(())
}

/// What is said of a byte that no line may have.
pub(crate) fn put_bad_byte<A: Allocator>(
    out: &mut Vec<u8, A>,
    line: &[u8],
) -> Result<(), AllocError> {
    let column = bad_column(line);
    let byte = match line.get(column) {
        Some(byte) => *byte,
        None => return Ok(()),
    };
    put_number_in(
        out,
        "byte ",
        column as u64,
        " of the line, counted from 0, is ",
    )?;
    put_number(out, u64::from(byte))?;
    let what = match byte {
        0 => ", a zero byte",
        9 => ", a tab, where a blank is wanted: tr '\\t' ' ' < FILE | gorace explain",
        13 => if column + 1 == line.len() {
            ", a carriage return, as Windows ends lines, though no line before has one: tr -d '\\r' < FILE | gorace explain"
        } else {
            ", a carriage return within the line"
        },
        _ => if byte < 128 {
            ""
        } else {
            ", a byte of a letter that isn't ASCII"
        },
    };
    put(out, &[what, "; a line has the bytes 32 to 126 alone"])
}

/// What is said of a line whose first word begins no line.
pub(crate) fn put_unknown_word<A: Allocator, B: Allocator>(
    out: &mut Vec<u8, A>,
    before: Option<&Trace<B>>,
    line: &[u8],
) -> Result<(), AllocError> {
    let (word, rest) = cut_at(line, b' ');
    if word.is_empty() {
        return put(
            out,
            &[if rest.is_none() {
                "the line is empty, and no line of a trace is: leave it out"
            } else {
                "the line begins with a blank, and no line of a trace does"
            }],
        );
    }
    if word[0] == b'#' || word[0] == b'/' {
        return put(out, &["a trace has no comments: leave the line out"]);
    }
    put_quoted(out, word)?;
    if let Some(text) = foreign(word) {
        return put(out, &[text]);
    }
    put(out, &[" begins no line of a trace: "])?;
    put_instead(out, before, line)
}

// What a line may be whose first word is in no text: cut off, or one whose first word stands elsewhere, or is another.
fn put_instead<A: Allocator, B: Allocator>(
    out: &mut Vec<u8, A>,
    before: Option<&Trace<B>>,
    line: &[u8],
) -> Result<(), AllocError> {
    let (word, rest) = cut_at(line, b' ');
    if rest.is_none() && is_cut(word) {
        return put(out, &["the line seems to be cut off"]);
    }
    if let Some(part) = line_in_word(before, line) {
        return put_cut_before(out, part);
    }
    if let Some(second) = later_word(rest) {
        put(out, &["its first word may be "])?;
        return put_quoted(out, second);
    }
    if let Some(front) = front_word(word) {
        put(out, &["a blank is wanted after "])?;
        return put_quoted(out, front);
    }
    if before.is_some_and(|trace| object_of(trace.decls(), word).is_some()) {
        return put(out, &["the word before it may be missing"]);
    }
    put_guess(out, word)
}

/// Where a line within the first word begins, or else the first word.
pub(crate) fn unknown_column<A: Allocator>(before: Option<&Trace<A>>, line: &[u8]) -> usize {
    match line_in_word(before, line) {
        Some(part) => column_in(line, part),
        None => 0,
    }
}

// The line that begins within the first word, after some letters of another. What ends with a known word may be one word,
// as trysend and rwlock.
fn line_in_word<'a, A: Allocator>(before: Option<&Trace<A>>, line: &'a [u8]) -> Option<&'a [u8]> {
    let part = line_within(before, line, 3)?;
    let front = &line[..column_in(line, part).min(line.len())];
    if is_cut(front) && word_named(front).is_none() && front != b"try".as_slice() {
        Some(part)
    } else {
        None
    }
}

// The word that a line may begin with, where a sign follows it, as a comma.
fn front_word(word: &[u8]) -> Option<&[u8]> {
    for index in 0..word.len() {
        if !(word[index].is_ascii_alphanumeric() || word[index] == b'_') {
            let front = &word[..index];
            word_named(front)?;
            return Some(front);
        }
    }
    None
}

// The second word, if a line may begin with it.
fn later_word(rest: Option<&[u8]>) -> Option<&[u8]> {
    let second = cut_at(rest?, b' ').0;
    word_named(second)?;
    Some(second)
}

// What is said of a word that begins a line of another version, or of another text.
fn foreign(word: &[u8]) -> Option<&'static str> {
    if word_named(word).is_some() {
        return Some(" is a word of version 2: line 1 has to be gotrace 2");
    }
    if word == b"gotrace".as_slice() {
        return Some(
            " begins a header, and a trace has one alone: if these are two traces, cut them here",
        );
    }
    if word == b"select".as_slice() {
        return Some(
            " is no event: write what the select did, a send, recv, meet, recvclosed or default",
        );
    }
    if word == b"body".as_slice() || word == b"do".as_slice() || word == b"enddo".as_slice() {
        return Some(" is a word of a program, not of a trace");
    }
    None
}

// Whether a known word begins so.
fn is_cut(word: &[u8]) -> bool {
    KNOWN.iter().any(|known| known.as_bytes().starts_with(word))
}

// What a word may mean that is in no text.
fn put_guess<A: Allocator>(out: &mut Vec<u8, A>, word: &[u8]) -> Result<(), AllocError> {
    if WORDLESS.iter().any(|known| is_same(word, *known)) {
        return put(out, &[NO_WORD]);
    }
    match meant(word) {
        Some(known) => put(out, &["did you mean \"", known, "\"?"]),
        None => put(out, &[WORDS]),
    }
}

// The one word of a trace that means the same as this one, or is nearly this one.
fn meant(word: &[u8]) -> Option<&'static str> {
    for (other, known) in &OTHERS {
        if is_same(word, other) {
            return Some(known);
        }
    }
    let mut guess = Guess::new();
    for known in &KNOWN {
        guess = guess.look_at(word, *known);
    }
    guess.only()
}

// The words that a line may begin with, in both versions.
const KNOWN: [&str; 27] = [
    "goroutine",
    "var",
    "chan",
    "mutex",
    "rwmutex",
    "once",
    "go",
    "exit",
    "read",
    "write",
    "send",
    "recv",
    "meet",
    "recvclosed",
    "close",
    "default",
    "lock",
    "unlock",
    "rlock",
    "runlock",
    "trylock",
    "tryrlock",
    "tryfail",
    "oncebegin",
    "onceend",
    "oncedone",
    "fault",
];

// What a recorder may call what a trace has a word for.
const OTHERS: [(&str, &str); 14] = [
    ("acquire", "lock"),
    ("begin", "oncebegin"),
    ("channel", "chan"),
    ("panic", "fault"),
    ("r", "read"),
    ("receive", "recv"),
    ("release", "unlock"),
    ("return", "exit"),
    ("rwlock", "rwmutex"),
    ("spawn", "go"),
    ("start", "go"),
    ("trylockfail", "tryfail"),
    ("variable", "var"),
    ("w", "write"),
];

// What a recorder may call operations that a trace has no word for.
const WORDLESS: [&str; 20] = [
    "add",
    "atomic",
    "broadcast",
    "cancel",
    "cas",
    "compareandswap",
    "cond",
    "context",
    "done",
    "get",
    "load",
    "pool",
    "put",
    "signal",
    "store",
    "swap",
    "timer",
    "wait",
    "waitgroup",
    "wg",
];

const NO_WORD: &str =
    "WaitGroups, atomics, Conds and the like have no word of their own; what to write for them: docs/RECORDING.md, \"What has no word\"";

const WORDS: &str =
    "declarations begin with goroutine, var, chan, mutex, rwmutex, once, events with go, exit, read, write, send, recv, meet, recvclosed, close, default, lock, unlock, rlock, runlock, oncebegin, onceend, oncedone, fault, in version 2 trylock, tryrlock, tryfail too";
