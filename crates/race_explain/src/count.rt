//! A line with too many words or too few: where it is marked, and what is said of it.

use crate::cut_off::{is_cut_off, line_after_word, put_cut_before};
use crate::field::{fields_of, one_of, put_fields};
use crate::line::put_quoted;
use crate::operand::object_of;
use crate::put::{put, put_number_in};
use crate::word::{column_in, from_word};
use race_records::{Decls, OperandKind, Trace};
use race_text::{Field, Word, cut_at, fields_cause, split_words, word_named};
use std::alloc::{AllocError, Allocator};

/// The longest word that begins a line.
pub(crate) const LONGEST: usize = 10;

/// The longest place.
const LONGEST_PLACE: usize = 128;

/// Where the line is marked: at a second line in it, where it is cut off, at the first blank or word too many, where a word is
/// missing, or else at the first word that isn't what is wanted.
pub(crate) fn count_column<A: Allocator>(before: Option<&Trace<A>>, line: &[u8]) -> usize {
    let Some(word) = word_named(cut_at(line, b' ').0) else {
        return 0;
    };
    let fields = fields_of(word);
    if let Some(part) = inner_line(before, fields.len(), line) {
        return column_in(line, part);
    }
    if before.is_some_and(|trace| is_cut_off(trace, fields.as_slice(), line)) {
        return line.len();
    }
    match spare_blank(line) {
        Some(column) => column.min(column_of_word(line, fields.len())),
        None => match before {
            Some(trace) => column_of_word(line, wrong_word(trace.decls(), fields.as_slice(), line)),
            None => column_of_word(line, fields.len()),
        },
    }
}

// Before how many words others are missing or too many, or how many there are before one that isn't what is wanted.
fn wrong_word<A: Allocator>(decls: &Decls<A>, fields: &[Field], line: &[u8]) -> usize {
    match misfit(decls, fields, line) {
        Some(number) => number,
        None => fitting(decls, fields, line),
    }
}

// Where the word of this number begins, counted from 0 after the first one, or the end of the line where there is none.
fn column_of_word(line: &[u8], number: usize) -> usize {
    match from_word(line, number.saturating_add(1)) {
        Some(bytes) => column_in(line, bytes),
        None => line.len(),
    }
}

// Where the first blank stands that comes after another one or ends the line.
fn spare_blank(line: &[u8]) -> Option<usize> {
    let mut is_after_blank = false;
    for column in 0..line.len() {
        let is_blank = line[column] == b' ';
        if is_blank && (is_after_blank || column + 1 == line.len()) {
            return Some(column);
        }
        is_after_blank = is_blank;
    }
    None
}

// The line that begins within this one, after a whole one or after one that is cut off.
fn inner_line<'a, A: Allocator>(
    before: Option<&Trace<A>>,
    wanted: usize,
    line: &'a [u8],
) -> Option<&'a [u8]> {
    match joined_line(wanted, line) {
        Some(part) => Some(part),
        None => line_after_word(before, line),
    }
}

// The line that begins after as many words as are wanted, or within the last of them, where a newline is missing. Where
// the last one begins a line itself, none begins within it: runlock ends as unlock.
fn joined_line(wanted: usize, line: &[u8]) -> Option<&[u8]> {
    let last = from_word(line, wanted)?;
    let (word, others) = cut_at(last, b' ');
    let others = others?;
    if is_whole(others) {
        return Some(others);
    }
    if is_whole(last) {
        return None;
    }
    for start in word.len().saturating_sub(LONGEST).max(1)..word.len() {
        let part = &last[start.min(last.len())..];
        if is_whole(part) {
            return Some(part);
        }
    }
    None
}

/// Whether a word that begins a line comes first, and as many as it wants after it.
pub(crate) fn is_whole(bytes: &[u8]) -> bool {
    match word_named(cut_at(bytes, b' ').0) {
        Some(word) => from_word(bytes, fields_of(word).len()).is_some(),
        None => false,
    }
}

// Before how many words others are missing or too many, where all words fit else: of such places the last.
fn misfit<A: Allocator>(decls: &Decls<A>, fields: &[Field], line: &[u8]) -> Option<usize> {
    let count = count_words(line);
    let spare = count.saturating_sub(fields.len());
    let missing = fields.len().saturating_sub(count);
    let mut found = None;
    for number in 0..fitting(decls, fields, line).saturating_add(1) {
        let others = &fields[number.saturating_add(missing).min(fields.len())..];
        let rest = from_word(line, number.saturating_add(spare).saturating_add(1));
        let is_spaced = spare > 0 && number == fields.len();
        if fields_cause(decls, others, rest).is_none()
            && !(is_spaced && found.is_some() && is_operand(decls, line, number))
        {
            found = Some(number);
        }
    }
    found
}

// Whether the word before the one of this number is hardly a part of a place, but a value, a name, or begins a line.
fn is_operand<A: Allocator>(decls: &Decls<A>, line: &[u8], number: usize) -> bool {
    match from_word(line, number) {
        Some(bytes) => {
            let word = cut_at(bytes, b' ').0;
            let value = Field::Operand(OperandKind::Value);
            word_named(word).is_some()
                || fields_cause(decls, &[value], Some(word)).is_none()
                || object_of(decls, word).is_some()
        }
        None => false,
    }
}

/// How many words after the first are what is wanted there, before one that isn't.
pub(crate) fn fitting<A: Allocator>(decls: &Decls<A>, fields: &[Field], line: &[u8]) -> usize {
    let mut left = cut_at(line, b' ').1;
    let mut count = 0usize;
    for field in fields {
        let Some(bytes) = left else {
            return count;
        };
        let (word, others) = cut_at(bytes, b' ');
        if fields_cause(decls, &[*field], Some(word)).is_some() {
            return count;
        }
        count = count.saturating_add(1);
        left = others;
    }
    count
}

/// How many words come after the first.
pub(crate) fn count_words(line: &[u8]) -> usize {
    let mut words = 0usize;
    for _ in split_words(line) {
        words = words.saturating_add(1);
    }
    words.saturating_sub(1)
}

/// Puts how many words are wanted, how many there are, and what may be wrong.
pub(crate) fn put_count<A: Allocator, B: Allocator>(
    out: &mut Vec<u8, A>,
    before: Option<&Trace<B>>,
    line: &[u8],
) -> Result<(), AllocError> {
    let first = cut_at(line, b' ').0;
    let Some(word) = word_named(first) else {
        return Ok(());
    };
    let fields = fields_of(word);
    put_wanted(out, first, fields.as_slice())?;
    put_number_in(out, "; has ", count_words(line) as u64, "")?;
    if let Some(joined) = joined_line(fields.len(), line) {
        put(out, &["; a newline may be missing before "])?;
        return put_quoted(out, cut_at(joined, b' ').0);
    }
    if let Some(part) = line_after_word(before, line) {
        put(out, &["; "])?;
        return put_cut_before(out, part);
    }
    if before.is_some_and(|trace| is_cut_off(trace, fields.as_slice(), line)) {
        return put(out, &["; the line seems to be cut off at the mark"]);
    }
    if let Some(column) = spare_blank(line) {
        return put_spare_blank(out, column.saturating_add(1) == line.len());
    }
    match before {
        Some(trace) => put_misfit(out, trace.decls(), fields.as_slice(), line),
        None => Ok(()),
    }
}

// How many words are wanted, and what each is.
fn put_wanted<A: Allocator>(
    out: &mut Vec<u8, A>,
    first: &[u8],
    fields: &[Field],
) -> Result<(), AllocError> {
    let count = fields.len() as u64;
    let words = if count == 1 {
        " word after "
    } else {
        " words after "
    };
    put_number_in(out, "wants ", count, words)?;
    put_quoted(out, first)?;
    put(out, &[": "])?;
    put_fields(out, fields)
}

// What is said of a blank too many.
fn put_spare_blank<A: Allocator>(out: &mut Vec<u8, A>, is_at_end: bool) -> Result<(), AllocError> {
    put(
        out,
        &[if is_at_end {
            ", with an empty one after the blank at the end, where no blank is wanted"
        } else {
            ", with an empty one between two blanks, where one blank is wanted"
        }],
    )
}

// Which words are too many, which one is missing, or which isn't what is wanted.
fn put_misfit<A: Allocator, B: Allocator>(
    out: &mut Vec<u8, A>,
    decls: &Decls<B>,
    fields: &[Field],
    line: &[u8],
) -> Result<(), AllocError> {
    let count = count_words(line);
    match misfit(decls, fields, line) {
        Some(number) => if count > fields.len() {
            put_spare(out, count - fields.len())?;
            if is_case_apart(fields, line) {
                return put(
                    out,
                    &[", or a blank between cases, which a comma alone separates"],
                );
            }
            if number == fields.len() {
                put_spaced_place(out, fields, line)?;
            }
            Ok(())
        } else if count.saturating_add(1) == fields.len() {
            put_missing(out, fields, number)
        } else {
            Ok(())
        },
        None => put_wrong(out, fields, line, fitting(decls, fields, line)),
    }
}

fn put_spare<A: Allocator>(out: &mut Vec<u8, A>, count: usize) -> Result<(), AllocError> {
    let words = if count == 1 {
        " word too many at the mark"
    } else {
        " words too many at the mark"
    };
    put_number_in(out, "; ", count as u64, words)
}

// Whether a case of a select is apart from the one before it.
fn is_case_apart(fields: &[Field], line: &[u8]) -> bool {
    if !fields.contains(&Field::Operand(OperandKind::Cases)) {
        return false;
    }
    let Some(words) = from_word(line, 2) else {
        return false;
    };
    let (cases, rest) = cut_at(words, b' ');
    cases.ends_with(b",") || rest.is_some_and(|others| begins_case(others))
}

fn begins_case(words: &[u8]) -> bool {
    words.starts_with(b",") || words.starts_with(b"send:") || words.starts_with(b"recv:")
}

// Which word is missing, where all others fit.
fn put_missing<A: Allocator>(
    out: &mut Vec<u8, A>,
    fields: &[Field],
    number: usize,
) -> Result<(), AllocError> {
    match fields.get(number) {
        Some(field) => put(out, &["; ", one_of(*field), " is missing at the mark"]),
        None => Ok(()),
    }
}

// Which word is the first that isn't what is wanted there.
fn put_wrong<A: Allocator>(
    out: &mut Vec<u8, A>,
    fields: &[Field],
    line: &[u8],
    number: usize,
) -> Result<(), AllocError> {
    match (
        fields.get(number),
        from_word(line, number.saturating_add(1)),
    ) {
        (Some(field), Some(bytes)) => {
            put(out, &["; "])?;
            put_quoted(out, cut_at(bytes, b' ').0)?;
            put(out, &[" isn't ", one_of(*field)])
        }
        _ => Ok(()),
    }
}

// That a place has no blank, where others follow the last word that is wanted, and this is a place.
fn put_spaced_place<A: Allocator>(
    out: &mut Vec<u8, A>,
    fields: &[Field],
    line: &[u8],
) -> Result<(), AllocError> {
    if fields.last().copied() != Some(Field::Place) {
        return Ok(());
    }
    let place = from_word(line, fields.len());
    if place.is_some_and(|words| is_twice(words)) {
        return Ok(());
    }
    if from_word(line, fields.len().saturating_add(1)).is_some_and(|words| is_comment(words)) {
        return put(out, &[", or a comment, and a trace has none"]);
    }
    put(out, &[", or a place with a blank, which no place has: "])?;
    match place {
        Some(place) => if place.len() <= LONGEST_PLACE && !has_two_places(fields) {
            put(out, &["write "])?;
            put_joined(out, place)
        } else {
            put(out, &["write _ for it"])
        },
        None => Ok(()),
    }
}

// Whether two words are the same.
fn is_twice(words: &[u8]) -> bool {
    let (first, others) = cut_at(words, b' ');
    others.is_some_and(|second| second == first)
}

// Whether they begin as a comment does in most languages.
fn is_comment(words: &[u8]) -> bool {
    words.starts_with(b"#") || words.starts_with(b"//")
}

fn has_two_places(fields: &[Field]) -> bool {
    fields.len() > 1 && fields[fields.len() - 2] == Field::Place
}

// Puts the words with _ in place of the blanks between them.
fn put_joined<A: Allocator>(out: &mut Vec<u8, A>, words: &[u8]) -> Result<(), AllocError> {
    for byte in words {
        out.push(if *byte == b' ' { b'_' } else { *byte })?;
    }
    Ok(())
}
