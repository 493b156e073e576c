//! Which word of a line is at fault.
ghost use Rattle.std.specs.Prelude.{◌≡◌, true, slice_get, option_map, Some};
ghost use Rattle.race_text.specs.Words.{is_bad_byte, has_bad_byte};

use crate::field::fields_of;
use race_records::Decls;
use race_text::{Field, TextCause, cut_at, fields_cause, word_named};
use std::alloc::Allocator;

/// A word after the first that is at fault, as what it is wanted, and where it begins.
#[derive(Clone, Copy)]
pub(crate) struct FaultyWord<'a> {
    /// What is wanted there.
    pub(crate) field: Field,
    /// What is there.
    pub(crate) word: &'a [u8],
    /// The column of its first byte, counted from 0.
    pub(crate) column: usize,
}

/// The first word after the first one at which the cause holds, if there is one.
pub(crate) fn faulty_word<'a, A: Allocator>(
    decls: &Decls<A>,
    line: &'a [u8],
    cause: TextCause,
) -> Option<FaultyWord<'a>> {
    let (first, mut left) = cut_at(line, b' ');
    let fields = fields_of(word_named(first)?);
    for field in fields.as_slice() {
        let bytes = left?;
        let (word, others) = cut_at(bytes, b' ');
        if fields_cause(decls, &[*field], Some(word)) == Some(cause) {
            return Some(FaultyWord {
                field: *field,
                word,
                column: column_in(line, bytes),
            });
        }
        left = others;
    }
    None
}

/// The line from the word of this number on, counted from 0, if it has so many.
pub(crate) fn from_word(line: &[u8], number: usize) -> Option<&[u8]> {
    let mut left = line;
    for _ in 0..number {
        left = cut_at(left, b' ').1?;
    }
    Some(left)
}

/// Where the last bytes of the line begin.
pub(crate) fn column_in(line: &[u8], last: &[u8]) -> usize {
    line.len().saturating_sub(last.len())
}

/// Where the first byte is that no line may have.
pub(crate) fn bad_column(line: &[u8]) -> usize
    ensures { has_bad_byte line.now ≡ true → option_map is_bad_byte (slice_get line.now result) ≡ Some true }
{
    for column in 0..line.len() {
        if !(b' ' <= line[column] && line[column] <= b'~') {
            return column;
        }
    }
    line.len()
}
