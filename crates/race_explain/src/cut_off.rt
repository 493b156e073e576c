//! A line that ends too early.

use crate::count::{LONGEST, count_words, fitting};
use crate::field::fields_of;
use crate::line::put_quoted;
use crate::names::{name_of, numbered};
use crate::operand::{is_list, wanted_kind};
use crate::put::put;
use crate::word::{FaultyWord, column_in, from_word};
use race_records::{Decls, Kind, Trace};
use race_text::{Field, Word, cut_at, word_named};
use std::alloc::{AllocError, Allocator};

/// Two lines have fewer bytes.
const TWO_LINES: usize = 4096;

/// Whether the line seems to be cut off: its words are what is wanted, the last one maybe a prefix of it, and others are missing.
/// Where only one is missing after whole words, it may have been forgotten.
pub(crate) fn is_cut_off<A: Allocator>(before: &Trace<A>, fields: &[Field], line: &[u8]) -> bool {
    let count = count_words(line);
    let right = fitting(before.decls(), fields, line);
    if right == count {
        return count.saturating_add(1) < fields.len();
    }
    match (fields.get(right), from_word(line, count)) {
        (Some(field), Some(last)) => {
            right.saturating_add(1) == count && count < fields.len() && begins(before, *field, last)
        }
        _ => false,
    }
}

// Whether a word begins so that is wanted there.
fn begins<A: Allocator>(before: &Trace<A>, field: Field, word: &[u8]) -> bool {
    let found = FaultyWord {
        field,
        word,
        column: 0,
    };
    let part = if is_list(field) {
        last_part(word)
    } else {
        word
    };
    word.is_empty()
        || wanted_kind(&found).is_some_and(|kind| begins_name(before, kind, part))
        || is_list(field)
            && FRONTS
                .iter()
                .any(|front| front.as_bytes().starts_with(part))
}

// What comes before a name in a list of cases and in a fault.
const FRONTS: [&str; 5] = ["send", "recv", "close", "unlock", "runlock"];

// What follows the last comma or colon.
fn last_part(word: &[u8]) -> &[u8] {
    let mut start = 0usize;
    for index in 0..word.len() {
        if word[index] == b',' || word[index] == b':' {
            start = index.saturating_add(1);
        }
    }
    &word[start.min(word.len())..]
}

// Whether the name of an object of the kind begins so.
fn begins_name<A: Allocator>(before: &Trace<A>, kind: Kind, part: &[u8]) -> bool {
    for number in 0..before.decls().count(kind) {
        if name_of(before, numbered(kind, number))
            .as_bytes()
            .starts_with(part)
        {
            return true;
        }
    }
    false
}

/// The first line that begins within this one, at this column or later, and of which each word is what is wanted. Within an
/// event it is no declaration: a once may be called once.
pub(crate) fn line_within<'a, A: Allocator>(
    before: Option<&Trace<A>>,
    line: &'a [u8],
    column: usize,
) -> Option<&'a [u8]> {
    let before = before?;
    if line.len() > TWO_LINES {
        return None;
    }
    let is_event = match word_named(cut_at(line, b' ').0) {
        Some(Word::Does(_)) => true,
        _ => false,
    };
    for start in column..line.len() {
        if is_right(before.decls(), &line[start..], is_event) {
            return Some(&line[start..]);
        }
    }
    None
}

/// The same after the first word.
pub(crate) fn line_after_word<'a, A: Allocator>(
    before: Option<&Trace<A>>,
    line: &'a [u8],
) -> Option<&'a [u8]> {
    let rest = cut_at(line, b' ').1?;
    line_within(before, line, column_in(line, rest))
}

// Whether a whole line comes first, of which each word is what is wanted, and maybe an event alone.
fn is_right<A: Allocator>(decls: &Decls<A>, bytes: &[u8], is_event: bool) -> bool {
    let (first, rest) = cut_at(&bytes[..bytes.len().min(LONGEST + 1)], b' ');
    let word = match word_named(first) {
        None => return false,
        Some(Word::Declares(_)) if is_event => return false,
        Some(word) => word,
    };
    let fields = fields_of(word);
    rest.is_some() && fitting(decls, fields.as_slice(), bytes) == fields.len()
}

/// Puts that the line is cut off before another one.
pub(crate) fn put_cut_before<A: Allocator>(
    out: &mut Vec<u8, A>,
    part: &[u8],
) -> Result<(), AllocError> {
    put(out, &["the line seems to be cut off before "])?;
    put_quoted(out, cut_at(part, b' ').0)?;
    put(out, &[", with which a whole one begins"])
}
