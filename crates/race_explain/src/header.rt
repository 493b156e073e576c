//! What an input looks like that doesn't begin with a header.

use race_text::{cut_at, word_named};

// How some other kinds of file begin, and what to do with them.
const FRONTS: [(&[u8], &str); 15] = [
    (
        b"\xef\xbb\xbf",
        "the input begins with a byte order mark: tail -c +4 < FILE | gorace explain",
    ),
    (
        b"\xff\xfe",
        "the input is UTF-16: iconv -f utf-16 -t ascii < FILE | gorace explain",
    ),
    (
        b"\xfe\xff",
        "the input is UTF-16: iconv -f utf-16 -t ascii < FILE | gorace explain",
    ),
    (
        b"\x1f\x8b",
        "the input is compressed by gzip: gzip -dc < FILE | gorace explain",
    ),
    (
        b"BZh",
        "the input is compressed by bzip2: bzip2 -dc < FILE | gorace explain",
    ),
    (
        b"\xfd7zXZ",
        "the input is compressed by xz: xz -dc < FILE | gorace explain",
    ),
    (
        b"\x28\xb5\x2f\xfd",
        "the input is compressed by zstd: zstd -dc < FILE | gorace explain",
    ),
    (
        b"\x7fELF",
        "the input is a program file of Linux, not the trace of a run",
    ),
    (
        b"goprogram ",
        "the input is a program: gorace race < FILE runs and judges it",
    ),
    (
        b"package ",
        "the input is a source file of Go: gorec run records and judges a run of its program",
    ),
    (
        b"{",
        "the input looks like JSON: a trace is a text of lines, which begins with gotrace 1 or gotrace 2",
    ),
    (
        b"[",
        "the input looks like JSON: a trace is a text of lines, which begins with gotrace 1 or gotrace 2",
    ),
    (b" ", "a blank comes before the header"),
    (
        b"gotrace\t",
        "a tab separates gotrace from the version, where a blank is wanted: gotrace 1 or gotrace 2",
    ),
    (
        b"#",
        "a trace has no comments: its first line is gotrace 1 or gotrace 2",
    ),
];

/// What the first line looks like, in a sentence.
pub(crate) fn looks_like(line: &[u8]) -> &'static str {
    if line.is_empty() {
        return "the first line is empty, or there is none: a trace begins with the line gotrace 1 or gotrace 2";
    }
    match looked_up(&FRONTS, line) {
        Some(text) => text,
        None => looks_like_header(line),
    }
}

fn looked_up(mut table: &[(&[u8], &'static str)], line: &[u8]) -> Option<&'static str> {
    while let [entry, others @ ..] = table {
        if line.starts_with(entry.0) {
            return Some(entry.1);
        }
        table = others;
    }
    None
}

// The same where it may be a header that is a little wrong, or a line of a trace.
fn looks_like_header(line: &[u8]) -> &'static str {
    let (first, rest) = cut_at(line, b' ');
    if first == b"gotrace".as_slice() {
        return looks_like_version(rest);
    }
    if word_named(first).is_some() {
        return "the header is missing: put the line gotrace 1 before this one, or gotrace 2 where a try is recorded";
    }
    "a trace begins with the line gotrace 1 or gotrace 2"
}

fn looks_like_version(rest: Option<&[u8]>) -> &'static str {
    let Some(version) = rest else {
        return "the version is missing: gotrace 1 or gotrace 2";
    };
    let (first, others) = cut_at(version, b'\r');
    if let Some(others) = others {
        if is_version(first) {
            return returned_text(others);
        }
    }
    let (first, others) = cut_at(version, b' ');
    if others.is_some() && is_version(first) {
        return "a blank or a word comes after the header: the first line is gotrace 1 or gotrace 2 alone";
    }
    if first.is_empty() {
        return "one blank separates gotrace from the version: gotrace 1 or gotrace 2";
    }
    if first.len() > 1 && first[0] == b'0' {
        return "the version has no leading zero: gotrace 1 or gotrace 2";
    }
    "there is no such version: gorace reads gotrace 1 and gotrace 2"
}

fn is_version(word: &[u8]) -> bool {
    word == b"1".as_slice() || word == b"2".as_slice()
}

// What a carriage return after the header says of the lines, by what follows it up to a newline.
fn returned_text(others: &[u8]) -> &'static str {
    if others.is_empty() {
        "the lines end as Windows ends them: tr -d '\\r' < FILE | gorace explain"
    } else {
        "the lines end with a carriage return alone: tr '\\r' '\\n' < FILE | gorace explain"
    }
}

/// Where a first line that begins with gotrace differs from a header; another is wrong from its start.
pub(crate) fn header_column(line: &[u8]) -> usize {
    if !line.starts_with(b"gotrace") {
        return 0;
    }
    let header = if line.len() > 8 && line[8] == b'2' {
        b"gotrace 2"
    } else {
        b"gotrace 1"
    };
    let mut column = 0usize;
    for index in 0..header.len().min(line.len()) {
        if header[index] != line[index] {
            return column;
        }
        column = column.saturating_add(1);
    }
    column
}
