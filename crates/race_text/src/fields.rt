//! The words behind the first, and the least cause that holds of them.
ghost use Rattle.std.specs.Prelude.{◌≡◌};
ghost use Rattle.race_text.specs.Words.{parts_left};
ghost use Rattle.race_text.specs.Least as order;
ghost use Rattle.race_text.specs.Fault as spec;

use crate::cause::TextCause;
use crate::cut::cut_at;
use crate::form::Field;
use crate::meaning::{look_up, number_in, operand_in, place_in};
use race_records::{Decls, is_name};
use std::alloc::Allocator;

fn new_name_cause<A: Allocator>(decls: &Decls<A>, word: &[u8]) -> Option<TextCause>
    ensures { result ≡ spec.new_name_cause decls.now.declarations word.now }
{
    if !is_name(word) {
        return Some(TextCause::BadName);
    }
    if look_up(decls, word).is_some() {
        return Some(TextCause::Taken);
    }
    None
}

// The least cause that holds at one word behind the first.
#[tactic(auto, unfolding(crate::specs::Fault::field_cause))]
fn field_cause<A: Allocator>(decls: &Decls<A>, field: Field, word: &[u8]) -> Option<TextCause>
    ensures { result ≡ spec.field_cause decls.now.declarations field word.now }
{
    match field {
        Field::NewName => new_name_cause(decls, word),
        Field::Number(limit) => number_in(word, limit as u64).err(),
        Field::Operand(kind) => operand_in(decls, kind, word).err(),
        Field::Place => place_in(word).err(),
    }
}

// The place of a cause in the order in which a line is tested.
fn rank(cause: TextCause) -> u8
    ensures { result ≡ order.rank cause }
{
    match cause {
        TextCause::BadHeader => 1,
        TextCause::NoNewline => 2,
        TextCause::BadByte => 3,
        TextCause::UnknownWord => 4,
        TextCause::WrongCount => 5,
        TextCause::BadName => 6,
        TextCause::Taken => 7,
        TextCause::Unknown => 8,
        TextCause::WrongKind => 9,
        TextCause::BadNumber => 10,
        TextCause::TooMany => 11,
        TextCause::LateDeclaration => 12,
        TextCause::BadBlock => 13,
        TextCause::OutOfMemory => 14,
    }
}

/// Of two causes the lesser.
pub fn least(first: TextCause, second: TextCause) -> TextCause
    ensures { result ≡ order.least first second }
{
    if rank(first) <= rank(second) {
        first
    } else {
        second
    }
}

/// Of two causes that may hold, the lesser.
pub fn lesser(a: Option<TextCause>, b: Option<TextCause>) -> Option<TextCause>
    ensures { result ≡ order.lesser a b }
{
    match a {
        None => b,
        Some(first) => match b {
            None => Some(first),
            Some(second) => Some(least(first, second)),
        },
    }
}

/// The least cause of the words behind the first.
pub fn fields_cause<A: Allocator>(
    decls: &Decls<A>,
    fields: &[Field],
    rest: Option<&[u8]>,
) -> Option<TextCause>
    ensures { result ≡ spec.fields_cause decls.now.declarations fields.now
        (parts_left 32 rest.entry) }
{
    let mut least = None;
    let mut left = rest;
    for field in fields {
        match left {
            None => return least,
            Some(bytes) => {
                let (word, others) = cut_at(bytes, b' ');
                least = lesser(least, field_cause(decls, *field, word));
                left = others;
            }
        }
    }
    least
}
