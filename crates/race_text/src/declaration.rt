//! Lines that declare.
ghost use Rattle.std.specs.Prelude.{◌≡◌, [], ◌∷◌, true, false, Some, None, Ok, IfOk, OnOk, OnErr, IfSome, OnSome, option_map};
ghost use Rattle.race_records.specs.{DeclKeywords.number_limit, Name.is_name, Refusal.{Refuses, AllowsUnless}};
ghost use Rattle.race_text.specs.Words.{parts_left};
ghost use Rattle.race_text.specs.Fault as fault;
ghost use Rattle.race_text.specs.Declaring as spec;

use crate::cause::TextCause;
use crate::cut::cut_at;
use crate::finder::word_cause;
use crate::form::{Word, word_named};
use crate::number::read_number;
use race_records::{DeclFault, DeclKeyword, Decls, Object, as_text, is_name, object_by};
use std::alloc::Allocator;

/// Adds the declaration that the line is, and answers true. Where the first word declares
/// nothing, the answer is false. A line that declares wrongly gives its least cause.
///
/// The line is one without a bad byte, and no event stands before it.
pub fn read_declaration<A: Allocator + Copy>(
    decls: &mut Decls<A>,
    line: &[u8],
) -> Result<bool, TextCause>
    ensures other { spec.is_declaration_line line.now ≡ false → result ≡ Ok false }
    ensures refused { Refuses (spec.declaration_cause decls.old.declarations line.now) result }
    ensures allowed { AllowsUnless (spec.declaration_cause decls.old.declarations line.now)
        result TextCause.OutOfMemory }
    ensures ok { IfOk result (λ added. added ≡ spec.is_declaration_line line.now) }
    ensures added { result ≡ Ok true → decls.new ≡ spec.with_declaration_in decls.old line.now }
    ensures same { result ≡ Ok false → decls.new ≡ decls.old }
    ensures err { OnErr result (decls.new ≡ decls.old) }
{
    let (first, rest) = cut_at(line, b' ');
    match word_named(first) {
        None => Ok(false),
        Some(word) => match word {
            Word::Declares(keyword) => match declare(decls, keyword, rest) {
                Ok(()) => Ok(true),
                Err(cause) => Err(cause),
            },
            Word::Does(_) => Ok(false),
        },
    }
}

// Adds what the words behind the keyword declare.
fn declare<A: Allocator + Copy>(
    decls: &mut Decls<A>,
    keyword: DeclKeyword,
    rest: Option<&[u8]>,
) -> Result<(), TextCause>
    ensures refused { Refuses (spec.decl_keyword_cause decls.old.declarations keyword (parts_left 32 rest.entry)) result }
    ensures allowed { AllowsUnless
        (spec.decl_keyword_cause decls.old.declarations keyword (parts_left 32 rest.entry)) result TextCause.OutOfMemory }
    ensures added { OnOk result (decls.new ≡ spec.with_declared decls.old
        (fault.declared_as (Some (Word.Declares keyword)) (parts_left 32 rest.entry))) }
    ensures err { OnErr result (decls.new ≡ decls.old) }
{
    match lone_name(keyword, rest) {
        Some(name) => declare_named(decls, keyword, name),
        None => declare_other(decls, keyword, rest),
    }
}

// The name, where it is all that the keyword wants and all that stands behind it.
fn lone_name(keyword: DeclKeyword, rest: Option<&[u8]>) -> Option<&[u8]>
    ensures parts { IfSome result (λ name. parts_left 32 rest.entry ≡ name.now ∷ []) }
    ensures is_name { IfSome result (λ name. is_name name.now ≡ true) }
    ensures alone { OnSome result (number_limit keyword ≡ None) }
{
    if keyword.number_limit().is_some() {
        return None;
    }
    let (name, behind) = cut_at(rest?, b' ');
    if behind.is_none() && is_name(name) {
        Some(name)
    } else {
        None
    }
}

// The same of a name alone. The table of names tests what it could be refused for, and is asked but once.
fn declare_named<A: Allocator + Copy>(
    decls: &mut Decls<A>,
    keyword: DeclKeyword,
    name: &[u8],
) -> Result<(), TextCause>
    requires is_name { is_name name.now ≡ true }
    requires alone { number_limit keyword ≡ None }
    ensures refused { Refuses (spec.decl_keyword_cause decls.old.declarations keyword (name.now ∷ [])) result }
    ensures allowed { AllowsUnless (spec.decl_keyword_cause decls.old.declarations keyword (name.now ∷ []))
        result TextCause.OutOfMemory }
    ensures added { OnOk result (decls.new ≡ spec.with_declared decls.old
        (fault.declared_as (Some (Word.Declares keyword)) (name.now ∷ []))) }
    ensures err { OnErr result (decls.new ≡ decls.old) }
{
    let object = object_by(keyword, None).unwrap();
    match decls.declare(as_text(name), object) {
        Ok(_) => Ok(()),
        Err(refused) => Err(cause_of(refused)),
    }
}

// The same of any words. All that a line can be refused for is looked at before, least cause first, so that
// nothing but memory is left to refuse it.
fn declare_other<A: Allocator + Copy>(
    decls: &mut Decls<A>,
    keyword: DeclKeyword,
    rest: Option<&[u8]>,
) -> Result<(), TextCause>
    ensures refused { Refuses (spec.decl_keyword_cause decls.old.declarations keyword (parts_left 32 rest.entry)) result }
    ensures allowed { AllowsUnless
        (spec.decl_keyword_cause decls.old.declarations keyword (parts_left 32 rest.entry)) result TextCause.OutOfMemory }
    ensures added { OnOk result (decls.new ≡ spec.with_declared decls.old
        (fault.declared_as (Some (Word.Declares keyword)) (parts_left 32 rest.entry))) }
    ensures err { OnErr result (decls.new ≡ decls.old) }
{
    if let Some(cause) = word_cause(decls, 0, Word::Declares(keyword), rest) {
        return Err(cause);
    }
    let (name, behind) = cut_at(rest.unwrap(), b' ');
    let object = object_read(keyword, behind).unwrap();
    match decls.declare(as_text(name), object) {
        Ok(_) => Ok(()),
        Err(refused) => Err(cause_of(refused)),
    }
}

// The object of the keyword, with the number that is left behind the name.
fn object_read(keyword: DeclKeyword, behind: Option<&[u8]>) -> Option<Object>
    ensures { result ≡ spec.object_read keyword (number_limit keyword) (option_map (λ w. w.now) behind.entry) }
{
    match (keyword.number_limit(), behind) {
        (None, None) => object_by(keyword, None),
        (Some(limit), Some(word)) => match read_number(word, limit as u64) {
            Some(number) => object_by(keyword, Some(number as u32)),
            None => None,
        },
        _ => None,
    }
}

/// The cause that a refused declaration or place gives.
pub fn cause_of(fault: DeclFault) -> TextCause
    ensures { result ≡ spec.cause_of fault }
{
    match fault {
        DeclFault::BadName => TextCause::BadName,
        DeclFault::Taken => TextCause::Taken,
        DeclFault::TooMany => TextCause::TooMany,
        DeclFault::BadCapacity => TextCause::BadNumber,
        DeclFault::OutOfMemory => TextCause::OutOfMemory,
    }
}
