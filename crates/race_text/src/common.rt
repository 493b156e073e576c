//! Lines of common words. The bytes in front of what is left are looked at together, and a word is
//! cut by the marks of those that can't be seen. What isn't read so is left to the reader of lines.
ghost use Rattle.std.specs.Prelude.{◌≡◌, ◌∷◌, true, false, IfSome};
ghost use Rattle.race_records.specs.Declarations.{IsWellFormed, IsDeclared};
ghost use Rattle.race_records.specs.Operands as operands;
ghost use Rattle.race_text.specs.Form.{is_wanted};
ghost use Rattle.race_text.specs.Common as spec;

use crate::event::{goroutine_of, object_in};
use crate::form::{Word, common_word};
use crate::lanes::unseen_in_front;
use crate::number::read_number;
use race_records::{Decls, Kind, Named, OpKeyword, Operand, OperandKind};
use std::alloc::Allocator;

/// The bytes from a word on, of which those in front are marked.
#[derive(Clone, Copy)]
pub struct Cursor<'a> {
    /// The bytes.
    pub bytes: &'a [u8],
    /// A bit for each of the bytes in front: whether it can't be seen.
    pub marks: u64,
}

/// What a common operation does to its object, and with which value. It is small, while `Op` has
/// room for a select and would go through memory.
#[derive(Clone, Copy)]
pub enum Deed {
    /// Reads a value from a variable.
    Read(u32, u64),
    /// Writes a value to a variable.
    Write(u32, u64),
    /// Sends a value on a channel.
    Send(u32, u64),
    /// Receives a value from a channel.
    Recv(u32, u64),
    /// Locks a lock.
    Lock(u32),
    /// Unlocks a lock.
    Unlock(u32),
    /// Locks a lock for reading.
    RLock(u32),
    /// Unlocks a lock from reading.
    RUnlock(u32),
    /// Found that a once had run.
    OnceDone(u32),
}

/// What a common line says.
#[derive(Clone, Copy)]
pub struct Said<'a> {
    /// The goroutine whose event it is.
    pub who: u32,
    /// What it did.
    pub deed: Deed,
    /// Where in the source.
    pub place: &'a [u8],
}

// The event that the line in front says, and the bytes behind its newline. `R` is who reads: it is used for nothing but that
// each caller has a copy of its own, which is inlined there.
#[inline(always)]
pub(crate) fn read_common<'a, R, A: Allocator>(
    decls: &Decls<A>,
    bytes: &'a [u8],
) -> Option<(Said<'a>, &'a [u8])>
    requires { IsWellFormed decls.now }
    ensures { IfSome result (λ read. spec.SaysEvent decls.now.declarations bytes.now
        (spec.said_of read.0) read.1.now) }
{
    if bytes.len() < 64 {
        return None;
    }
    let marks = unseen_in_front(bytes);
    let (keyword, front) = next_op_keyword(Cursor { bytes, marks })?;
    let (goroutine, front) = next_object(decls, OperandKind::Object(Kind::Goroutine), front)?;
    let who = goroutine_of(Operand::Object(goroutine))?;
    let (deed, front) = next_deed(decls, keyword, front)?;
    let (place, rest) = last_place(front)?;
    Some((Said { who, deed, place }, rest))
}

// The word of an operation.
#[inline(always)]
fn next_op_keyword(front: Cursor<'_>) -> Option<(OpKeyword, Cursor<'_>)>
    requires { spec.IsMarked front.marks front.bytes.now }
    ensures says { IfSome result (λ read. spec.SaysKeyword front.entry.bytes.now read.0 read.1.bytes.now) }
    ensures marked { IfSome result (λ read. spec.IsMarked read.1.marks read.1.bytes.now) }
{
    let (len, behind) = next_word(front)?;
    match common_word(&front.bytes[..len])? {
        // It has two goroutines and two places.
        Word::Does(OpKeyword::Meet) => None,
        Word::Does(keyword) => Some((keyword, behind)),
        Word::Declares(_) => None,
    }
}

// The object of this kind that the next word names.
#[inline(always)]
fn next_object<'a, A: Allocator>(
    decls: &Decls<A>,
    kind: OperandKind,
    front: Cursor<'a>,
) -> Option<(Named, Cursor<'a>)>
    requires decls { IsWellFormed decls.now }
    requires marked { spec.IsMarked front.marks front.bytes.now }
    requires object { spec.names_object kind ≡ true }
    ensures says { IfSome result (λ read. spec.SaysObject decls.now.declarations kind
        front.entry.bytes.now read.0 read.1.bytes.now) }
    ensures marked { IfSome result (λ read. spec.IsMarked read.1.marks read.1.bytes.now) }
{
    let (len, behind) = next_word(front)?;
    let named = object_in(decls, kind, front.bytes, len)?;
    Some((named, behind))
}

// What the operation does, by the object that the next word names and the value behind it.
#[inline(always)]
fn next_deed<'a, A: Allocator>(
    decls: &Decls<A>,
    keyword: OpKeyword,
    front: Cursor<'a>,
) -> Option<(Deed, Cursor<'a>)>
    requires decls { IsWellFormed decls.now }
    requires marked { spec.IsMarked front.marks front.bytes.now }
    ensures says { IfSome result (λ read. spec.SaysDeed decls.now.declarations keyword
        front.entry.bytes.now (spec.op_of read.0) read.1.bytes.now) }
    ensures marked { IfSome result (λ read. spec.IsMarked read.1.marks read.1.bytes.now) }
{
    let has_value = value_wanted(keyword)?;
    let (object, front) = next_named(decls, front)?;
    let (value, front) = next_value(has_value, front)?;
    let deed = deed_said(decls, keyword, object, value)?;
    Some((deed, front))
}

// What the next word names. Whether that is wanted there, the operation tells.
#[inline(always)]
fn next_named<'a, A: Allocator>(decls: &Decls<A>, front: Cursor<'a>) -> Option<(Named, Cursor<'a>)>
    requires decls { IsWellFormed decls.now }
    requires marked { spec.IsMarked front.marks front.bytes.now }
    ensures says { IfSome result (λ read. (kind : OperandKind) → spec.names_object kind ≡ true
        → is_wanted decls.now.declarations kind read.0 ≡ true
        → spec.SaysObject decls.now.declarations kind front.entry.bytes.now read.0 read.1.bytes.now) }
    ensures declared { IfSome result (λ read. IsDeclared decls.now.declarations read.0) }
    ensures marked { IfSome result (λ read. spec.IsMarked read.1.marks read.1.bytes.now) }
{
    let (len, behind) = next_word(front)?;
    let named = decls.find_at(front.bytes, len)?;
    Some((named, behind))
}

// The value that the next word says, where one is wanted.
#[inline(always)]
fn next_value(wanted: bool, front: Cursor<'_>) -> Option<(Option<u64>, Cursor<'_>)>
    requires { spec.IsMarked front.marks front.bytes.now }
    ensures says { IfSome result (λ read. spec.SaysValue wanted
        front.entry.bytes.now read.0 read.1.bytes.now) }
    ensures marked { IfSome result (λ read. spec.IsMarked read.1.marks read.1.bytes.now) }
{
    if !wanted {
        return Some((None, front));
    }
    let (len, behind) = next_word(front)?;
    let value = read_number(&front.bytes[..len], u64::MAX)?;
    Some((Some(value), behind))
}

// The place that is left of the line, and the bytes behind the newline.
#[inline(always)]
fn last_place(front: Cursor<'_>) -> Option<(&[u8], &[u8])>
    requires { spec.IsMarked front.marks front.bytes.now }
    ensures { IfSome result (λ read. spec.SaysPlace front.entry.bytes.now read.0.now read.1.now) }
{
    if front.marks == 0 {
        return None;
    }
    let len = front.marks.trailing_zeros() as usize;
    if len == 0 || front.bytes[len] != b'\n' {
        return None;
    }
    Some((&front.bytes[..len], &front.bytes[len + 1..]))
}

// How long the first word is, and what is left of the line behind it.
#[inline(always)]
fn next_word(front: Cursor<'_>) -> Option<(usize, Cursor<'_>)>
    requires { spec.IsMarked front.marks front.bytes.now }
    ensures cut { IfSome result (λ read. spec.CutsWord front.entry.bytes.now read.0 read.1.bytes.now) }
    ensures marked { IfSome result (λ read. spec.IsMarked read.1.marks read.1.bytes.now) }
{
    if front.marks == 0 {
        return None;
    }
    let len = front.marks.trailing_zeros() as usize;
    if front.bytes[len] != b' ' {
        return None;
    }
    Some((
        len,
        Cursor {
            bytes: &front.bytes[len + 1..],
            marks: front.marks >> len >> 1,
        },
    ))
}

// Whether a value stands behind the goroutine and the object.
#[inline(always)]
fn value_wanted(keyword: OpKeyword) -> Option<bool>
    ensures kinds { IfSome result (λ wanted. operands.operand_kinds keyword ≡ spec.object_kind keyword ∷ spec.value_kinds wanted) }
    ensures object { IfSome result (λ wanted. spec.names_object (spec.object_kind keyword) ≡ true) }
    ensures one_place { IfSome result (λ wanted. operands.has_two_places keyword ≡ false) }
{
    match keyword {
        OpKeyword::Read | OpKeyword::Write | OpKeyword::Send | OpKeyword::Recv => Some(true),
        OpKeyword::Lock
        | OpKeyword::Unlock
        | OpKeyword::RLock
        | OpKeyword::RUnlock
        | OpKeyword::OnceDone => Some(false),
        _ => None,
    }
}

// What the word, its object and its value say, where the object is one that the word wants.
#[inline(always)]
fn deed_said<A: Allocator>(
    decls: &Decls<A>,
    keyword: OpKeyword,
    object: Named,
    value: Option<u64>,
) -> Option<Deed>
    requires { IsDeclared decls.now.declarations object }
    ensures op { IfSome result (λ deed.
        operands.op_by keyword (Operand.Object object ∷ spec.value_operands value) ≡ Some (spec.op_of deed)) }
    ensures wanted { IfSome result (λ deed.
        is_wanted decls.now.declarations (spec.object_kind keyword) object ≡ true) }
{
    match (keyword, object, value) {
        (OpKeyword::Read, Named::Var(x), Some(v)) => Some(Deed::Read(x, v)),
        (OpKeyword::Write, Named::Var(x), Some(v)) => Some(Deed::Write(x, v)),
        (OpKeyword::Send, Named::Chan(c), Some(v)) => Some(Deed::Send(c, v)),
        (OpKeyword::Recv, Named::Chan(c), Some(v)) => Some(Deed::Recv(c, v)),
        (OpKeyword::Lock, Named::Lock(l), None) => Some(Deed::Lock(l)),
        (OpKeyword::Unlock, Named::Lock(l), None) => Some(Deed::Unlock(l)),
        (OpKeyword::RLock, Named::Lock(l), None) if decls.is_rw(l) => Some(Deed::RLock(l)),
        (OpKeyword::RUnlock, Named::Lock(l), None) if decls.is_rw(l) => Some(Deed::RUnlock(l)),
        (OpKeyword::OnceDone, Named::Once(o), None) => Some(Deed::OnceDone(o)),
        _ => None,
    }
}
