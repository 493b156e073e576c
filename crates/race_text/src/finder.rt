//! The least cause of a line at fault. It may be slow: no event that fits comes here, and few declarations that do.
ghost use Rattle.std.specs.Prelude.{◌≡◌, ◌==◌, length};
ghost use Rattle.race_text.specs.Words.{parts_left};
ghost use Rattle.race_text.specs.Fault as spec;

use crate::cause::TextCause;
use crate::cut::{cut_at, has_bad_byte};
use crate::fields::fields_cause;
use crate::form::{Word, fields_of, kind_declared, word_in};
use race_records::{Decls, Kind, MAX_EVENTS};
use std::alloc::Allocator;

// The least cause of a line behind the first, where so many events stand before it.
#[tactic(auto, unfolding(crate::specs::Fault::line_cause))]
pub(crate) fn line_cause<A: Allocator>(
    decls: &Decls<A>,
    events: usize,
    line: &[u8],
) -> Option<TextCause>
    ensures { result ≡ spec.line_cause decls.now.version
        (spec.seen_so_far decls.now.declarations events) line.now }
{
    if has_bad_byte(line) {
        return Some(TextCause::BadByte);
    }
    let (first, rest) = cut_at(line, b' ');
    match word_in(decls.version(), first) {
        None => Some(TextCause::UnknownWord),
        Some(word) => word_cause(decls, events, word, rest),
    }
}

/// The least cause of the words behind the first.
pub fn word_cause<A: Allocator>(
    decls: &Decls<A>,
    events: usize,
    word: Word,
    rest: Option<&[u8]>,
) -> Option<TextCause>
    ensures { result ≡ spec.word_cause (spec.seen_so_far decls.now.declarations events) (Some word)
        (parts_left 32 rest.entry) }
{
    let fields = fields_of(word);
    if !has_count(rest, fields.len()) {
        return Some(TextCause::WrongCount);
    }
    match fields_cause(decls, fields.as_slice(), rest) {
        Some(cause) => Some(cause),
        None => room_cause(decls, events, kind_declared(word)),
    }
}

/// Whether so many words are left.
pub fn has_count(rest: Option<&[u8]>, count: usize) -> bool
    ensures { result ≡ (length (parts_left 32 rest.entry) == count) }
{
    let mut left = rest;
    for _i in 0..count {
        match left {
            None => return false,
            Some(bytes) => left = cut_at(bytes, b' ').1,
        }
    }
    left.is_none()
}

// A limit that is reached, or a declaration after an event.
pub(crate) fn room_cause<A: Allocator>(
    decls: &Decls<A>,
    events: usize,
    declared: Option<Kind>,
) -> Option<TextCause>
    ensures { result ≡ spec.room_cause (spec.seen_so_far decls.now.declarations events) declared }
{
    match declared {
        None => {
            if events >= MAX_EVENTS {
                Some(TextCause::TooMany)
            } else {
                None
            }
        }
        Some(kind) => {
            if decls.count(kind) >= kind.limit() {
                Some(TextCause::TooMany)
            } else if events > 0 {
                Some(TextCause::LateDeclaration)
            } else {
                None
            }
        }
    }
}
