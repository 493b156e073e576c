//! What one word of a line says, or the least cause that it says nothing.
ghost use Rattle.std.specs.Prelude.{◌≡◌, ◌<◌, true, Ok, IfOk, IfSome};
ghost use Rattle.race_records.specs.Declarations.{IsDeclared, find_name};
ghost use Rattle.race_text.specs.{Form.is_wanted, Least.{says_by, both_say}};
ghost use Rattle.race_records.specs.Name as name;
ghost use Rattle.race_text.specs.Meaning as spec;

use crate::cause::TextCause;
use crate::cut::cut_at;
use crate::fields::least;
use crate::number::read_number;
use crate::select::{case_spelled, cause_by, failure_spelled, kind_tried};
use race_records::{
    Case, Cases, Cause, Decls, Kind, Named, Operand, OperandKind, is_name, is_place,
};
use std::alloc::Allocator;

/// A number of at most this limit.
pub fn number_in(word: &[u8], limit: u64) -> Result<u64, TextCause>
    ensures { result ≡ spec.number_in limit word.now }
{
    match read_number(word, limit) {
        Some(number) => Ok(number),
        None => Err(TextCause::BadNumber),
    }
}

// What a name stands for.
pub(crate) fn look_up<A: Allocator>(decls: &Decls<A>, word: &[u8]) -> Option<Named>
    requires { name.is_name word.now ≡ true }
    ensures { result ≡ find_name decls.now.declarations word.now }
{
    decls.find_at(word, word.len())
}

// Whether what is named is an object of the kind that is wanted.
#[inline(always)]
pub(crate) fn is_wanted<A: Allocator>(decls: &Decls<A>, kind: OperandKind, named: Named) -> bool
    requires { IsDeclared decls.now.declarations named }
    ensures { result ≡ is_wanted decls.now.declarations kind named }
{
    match (kind, named) {
        (OperandKind::Object(kind), _) => named.is_of(kind),
        (OperandKind::RwMutex, Named::Lock(lock)) => decls.is_rw(lock),
        _ => false,
    }
}

// What is declared by the name, where that is wanted.
fn named_in<A: Allocator>(
    decls: &Decls<A>,
    kind: OperandKind,
    word: &[u8],
) -> Result<Named, TextCause>
    ensures { result ≡ spec.named_in decls.now.declarations kind word.now }
{
    if !is_name(word) {
        return Err(TextCause::BadName);
    }
    match look_up(decls, word) {
        None => Err(TextCause::Unknown),
        Some(named) => {
            if is_wanted(decls, kind, named) {
                Ok(named)
            } else {
                Err(TextCause::WrongKind)
            }
        }
    }
}

/// A channel, or nil.
pub fn chan_in<A: Allocator>(decls: &Decls<A>, word: &[u8]) -> Result<Option<u32>, TextCause>
    ensures chan { result ≡ spec.chan_in decls.now.declarations word.now }
    ensures low { IfOk result (λ chan. IfSome chan (λ c. c < 65_535)) }
{
    if word == b"nil".as_slice() {
        return Ok(None);
    }
    match named_in(decls, OperandKind::Object(Kind::Chan), word) {
        Err(cause) => Err(cause),
        Ok(named) => {
            prove!(named.number() < decls.count(Kind::Chan));
            Ok(Some(named.number()))
        }
    }
}

// One case of a select, whose channel has a number that a case can have.
fn case_in<A: Allocator>(decls: &Decls<A>, piece: &[u8]) -> Result<Case, TextCause>
    ensures case { result ≡ spec.case_in decls.now.declarations piece.now }
    ensures low { IfOk result (λ case. IfSome case.chan (λ c. c < 65_535)) }
{
    match case_spelled(piece) {
        None => Err(TextCause::BadName),
        Some((dir, word)) => match chan_in(decls, word) {
            Err(cause) => Err(cause),
            Ok(chan) => Ok(Case { dir, chan }),
        },
    }
}

// The cases with one more, or the lesser cause.
fn with_case(
    cases: Result<Cases, TextCause>,
    case: Result<Case, TextCause>,
) -> Result<Cases, TextCause>
    requires { IfOk case (λ case. IfSome case.chan (λ c. c < 65_535)) }
    ensures { result ≡ both_say spec.with_piece cases case }
{
    match cases {
        Ok(mut got) => match case {
            Err(cause) => Err(cause),
            Ok(case) => match got.push(case) {
                Ok(()) => Ok(got),
                Err(_) => Err(TextCause::TooMany),
            },
        },
        Err(first) => match case {
            Ok(_) => Err(first),
            Err(second) => Err(least(first, second)),
        },
    }
}

// The cases of a select.
#[cold]
#[inline(never)]
fn cases_in<A: Allocator>(decls: &Decls<A>, word: &[u8]) -> Result<Cases, TextCause>
    ensures { result ≡ spec.cases_in decls.now.declarations word.now }
{
    let mut cases = Ok(Cases::new());
    if word == b"-".as_slice() {
        return cases;
    }
    let mut left = Some(word);
    while let Some(bytes) = left {
        let (piece, others) = cut_at(bytes, b',');
        cases = with_case(cases, case_in(decls, piece));
        left = others;
    }
    cases
}

// Why a run failed.
#[cold]
#[inline(never)]
fn failure_in<A: Allocator>(decls: &Decls<A>, word: &[u8]) -> Result<Cause, TextCause>
    ensures { result ≡ spec.failure_in decls.now.declarations word.now }
{
    if word == b"close:nil".as_slice() {
        return Ok(Cause::CloseNil);
    }
    match failure_spelled(word) {
        None => Err(TextCause::BadName),
        Some((attempt, name)) => match named_in(decls, kind_tried(attempt), name) {
            Err(cause) => Err(cause),
            Ok(named) => Ok(cause_by(attempt, named)),
        },
    }
}

/// A place in the source.
pub fn place_in(word: &[u8]) -> Result<&[u8], TextCause>
    ensures { says_by (λ place. place.now) result ≡ spec.place_in word.now }
{
    if is_place(word) {
        Ok(word)
    } else {
        Err(TextCause::BadName)
    }
}

/// An operand of this kind.
pub fn operand_in<A: Allocator>(
    decls: &Decls<A>,
    kind: OperandKind,
    word: &[u8],
) -> Result<Operand, TextCause>
    ensures { result ≡ spec.operand_in decls.now.declarations kind word.now }
{
    match kind {
        OperandKind::Object(_) | OperandKind::RwMutex => match named_in(decls, kind, word) {
            Err(cause) => Err(cause),
            Ok(named) => Ok(Operand::Object(named)),
        },
        OperandKind::Value => match number_in(word, u64::MAX) {
            Err(cause) => Err(cause),
            Ok(value) => Ok(Operand::Value(value)),
        },
        OperandKind::Cases => match cases_in(decls, word) {
            Err(cause) => Err(cause),
            Ok(cases) => Ok(Operand::Cases(cases)),
        },
        OperandKind::Cause => match failure_in(decls, word) {
            Err(cause) => Err(cause),
            Ok(cause) => Ok(Operand::Cause(cause)),
        },
    }
}
