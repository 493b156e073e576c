//! A line at fault: where it is marked, and what is wrong.
ghost use Rattle.std.specs.Prelude.{OnOk};
ghost use Rattle.race_explain.specs.Explained as spec;
ghost use Rattle.race_explain.specs.Marked.{IsMarkFor, IsMarked};

use crate::count::{count_column, put_count};
use crate::cut_off::{line_after_word, put_cut_before};
use crate::header::{header_column, looks_like};
use crate::line::put_line;
use crate::operand::{name_in, put_whole_line, put_word};
use crate::put::put;
use crate::sentence::{put_bad_byte, put_unended, put_unknown_word, unknown_column};
use crate::word::{bad_column, column_in, faulty_word};
use race_records::Trace;
use race_text::{TextCause, TextFault};
use std::alloc::{AllocError, Allocator};

/// A line at fault, the trace that is read from the lines before it, and what of the input follows it.
#[derive(Drop)]
pub(crate) struct Faulty<'a, A: Allocator> {
    pub(crate) fault: TextFault,
    pub(crate) line: &'a [u8],
    pub(crate) before: Option<Trace<A>>,
    pub(crate) after: Option<&'a [u8]>,
}

// Where the line is marked: at the byte or the word that is wrong, or at its end where something is missing.
fn column_of<A: Allocator>(faulty: &Faulty<'_, A>) -> usize
    ensures { IsMarkFor faulty.now.fault.cause faulty.now.line.now result }
{
    let line = faulty.line;
    match faulty.fault.cause {
        TextCause::BadHeader => header_column(line),
        TextCause::NoNewline => line.len(),
        TextCause::BadByte => bad_column(line),
        TextCause::WrongCount => count_column(faulty.before.as_ref(), line),
        TextCause::UnknownWord => unknown_column(faulty.before.as_ref(), line),
        cause => match &faulty.before {
            Some(before) => word_column(before, line, cause),
            None => 0,
        },
    }
}

// Where a line within the line begins, or the word or the name at which the cause holds.
fn word_column<A: Allocator>(before: &Trace<A>, line: &[u8], cause: TextCause) -> usize {
    let Some(found) = faulty_word(before.decls(), line, cause) else {
        return 0;
    };
    match line_after_word(Some(before), line) {
        Some(part) => column_in(line, part),
        None => {
            let name_column = name_in(before.decls(), &found, cause).1;
            found.column.saturating_add(name_column)
        }
    }
}

/// Puts the line with its mark, and what is wrong.
pub(crate) fn put_faulty<A: Allocator + Copy, B: Allocator>(
    out: &mut Vec<u8, A>,
    faulty: &Faulty<'_, B>,
) -> Result<(), AllocError>
    ensures { OnOk result (spec.IsPutAfter (IsMarked faulty.now.fault.cause faulty.now.line.now) out.old.items out.new.items) }
{
    let mut words = Vec::new(*out.allocator());
    put_sentence(&mut words, faulty)?;
    put(&mut words, &["\n"])?;
    put_line(out, faulty.line, column_of(faulty))?;
    out.extend_from_slice(words.as_slice())?;
    Ok(())
}

fn put_sentence<A: Allocator, B: Allocator>(
    out: &mut Vec<u8, A>,
    faulty: &Faulty<'_, B>,
) -> Result<(), AllocError> {
    match faulty.fault.cause {
        TextCause::BadHeader => put(out, &[looks_like(faulty.line)]),
        TextCause::NoNewline => put_unended(out, faulty.line, faulty.fault.line),
        TextCause::BadByte => put_bad_byte(out, faulty.line),
        TextCause::UnknownWord => put_unknown_word(out, faulty.before.as_ref(), faulty.line),
        TextCause::WrongCount => put_count(out, faulty.before.as_ref(), faulty.line),
        _ => match &faulty.before {
            Some(before) => put_of_words(out, faulty, before),
            None => Ok(()),
        },
    }
}

// What is said of a line with as many words as are wanted.
fn put_of_words<A: Allocator, B: Allocator>(
    out: &mut Vec<u8, A>,
    faulty: &Faulty<'_, B>,
    before: &Trace<B>,
) -> Result<(), AllocError> {
    let (line, cause) = (faulty.line, faulty.fault.cause);
    let Some(found) = faulty_word(before.decls(), line, cause) else {
        return put_whole_line(out, before, cause, line);
    };
    match line_after_word(Some(before), line) {
        Some(part) => put_cut_before(out, part),
        None => put_word(out, faulty, before, &found),
    }
}
