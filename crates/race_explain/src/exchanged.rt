//! Two words of a line that may be exchanged.

use crate::count::count_words;
use crate::field::fields_of;
use crate::line::put_quoted;
use crate::put::put;
use crate::word::{FaultyWord, from_word};
use race_records::Decls;
use race_text::{Field, cut_at, fields_cause, word_named};
use std::alloc::{AllocError, Allocator};

/// Puts which word may be exchanged with the one at fault, where all fit then. Says whether there is one.
pub(crate) fn put_exchanged<A: Allocator, B: Allocator>(
    out: &mut Vec<u8, A>,
    decls: &Decls<B>,
    line: &[u8],
    found: &FaultyWord<'_>,
) -> Result<bool, AllocError> {
    let Some(other) = exchanged_with(decls, line, found) else {
        return Ok(false);
    };
    put(out, &["; "])?;
    put_quoted(out, found.word)?;
    put(out, &[" and "])?;
    put_quoted(out, other)?;
    put(out, &[" may be exchanged"])?;
    Ok(true)
}

// The word with which the one at fault may be exchanged.
fn exchanged_with<'a, A: Allocator>(
    decls: &Decls<A>,
    line: &'a [u8],
    found: &FaultyWord<'_>,
) -> Option<&'a [u8]> {
    let fields = fields_of(word_named(cut_at(line, b' ').0)?);
    let front = &line[..found.column.min(line.len())];
    let number = count_words(front).saturating_sub(1);
    for other in 0..fields.len() {
        if other != number && fits(decls, fields.as_slice(), line, number, other) {
            return Some(word_at(line, other));
        }
    }
    None
}

// Whether each word is what is wanted once the two of these numbers are exchanged.
fn fits<A: Allocator>(
    decls: &Decls<A>,
    fields: &[Field],
    line: &[u8],
    first: usize,
    second: usize,
) -> bool {
    let mut number = 0usize;
    for field in fields {
        let from = if number == first {
            second
        } else if number == second {
            first
        } else {
            number
        };
        if fields_cause(decls, &[*field], Some(word_at(line, from))).is_some() {
            return false;
        }
        number = number.saturating_add(1);
    }
    true
}

// The word of this number, counted from 0 after the first one.
fn word_at(line: &[u8], number: usize) -> &[u8] {
    match from_word(line, number.saturating_add(1)) {
        Some(bytes) => cut_at(bytes, b' ').0,
        None => b"",
    }
}
