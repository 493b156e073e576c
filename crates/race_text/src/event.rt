//! Lines that are events. Slices and operands go through memory at a call, so operations on one object
//! are read by one function, and what a select or a fault says is read by others.
ghost use Rattle.std.specs.{Prelude.{◌≡◌, ◌≤◌, [], ◌∷◌, length, take, true}, List.list_all, Option.option_map};
ghost use Rattle.std.specs.Result.{result_ok};
ghost use Rattle.race_records.specs.{Name.is_place_byte, Declarations.IsWellFormed, Operands.op_by};
ghost use Rattle.race_text.specs.{Words.{parts_left, words_of}, Meaning.{named_in, operand_in}};
ghost use Rattle.race_text.specs.Reading as spec;

use crate::cut::cut_word;
use crate::form::{Word, word_in};
use crate::meaning::{is_wanted, operand_in};
use race_records::{
    Decls, Kind, MAX_PLACE_LEN, Named, Op, OpKeyword, Operand, OperandKind, Operands, op_by,
    operand_kinds,
};
use std::alloc::Allocator;

/// An event with its places as they are spelled.
#[derive(Drop)]
pub struct Draft<'a> {
    /// The goroutine whose event it is.
    pub who: u32,
    /// What it did.
    pub op: Op,
    /// Where in the source.
    pub place: &'a [u8],
    /// The place of its second participant, where it has one.
    pub place2: Option<&'a [u8]>,
}

// The event that the line is. Nothing where the line isn't one.
pub(crate) fn read_event<'a, A: Allocator>(decls: &Decls<A>, line: &'a [u8]) -> Option<Draft<'a>>
    requires { IsWellFormed decls.now }
    ensures { option_map spec.drafted result
        ≡ spec.event_in decls.now.version decls.now.declarations (words_of line.now) }
{
    match cut_word(line) {
        None => None,
        Some((end, rest)) => match word_in(decls.version(), &line[..end]) {
            None => None,
            Some(word) => match word {
                Word::Declares(_) => None,
                Word::Does(keyword) => read_behind(decls, keyword, rest),
            },
        },
    }
}

// The event of this word that the words behind it say.
fn read_behind<'a, A: Allocator>(
    decls: &Decls<A>,
    keyword: OpKeyword,
    rest: Option<&'a [u8]>,
) -> Option<Draft<'a>>
    requires { IsWellFormed decls.now }
    ensures { option_map spec.drafted result ≡ spec.event_behind decls.now.declarations keyword
        (parts_left 32 rest.entry) }
{
    let (first, rest) = next_operand(decls, OperandKind::Object(Kind::Goroutine), rest)?;
    let who = goroutine_of(first)?;
    event_of(decls, keyword, who, rest)
}

// The event of this goroutine that the words behind its name say.
#[inline(always)]
fn event_of<'a, A: Allocator>(
    decls: &Decls<A>,
    keyword: OpKeyword,
    who: u32,
    rest: Option<&'a [u8]>,
) -> Option<Draft<'a>>
    requires { IsWellFormed decls.now }
    ensures { option_map spec.drafted result ≡ spec.event_of decls.now.declarations keyword who
        (parts_left 32 rest.entry) }
{
    let (op, rest) = next_op(decls, keyword, operand_kinds(keyword), rest)?;
    let (place, place2) = last_places(keyword.has_two_places(), rest)?;
    Some(Draft {
        who,
        op,
        place,
        place2,
    })
}

/// The number of a goroutine.
pub fn goroutine_of(operand: Operand) -> Option<u32>
    ensures { result ≡ spec.goroutine_of operand }
{
    match operand {
        Operand::Object(Named::Goroutine(number)) => Some(number),
        _ => None,
    }
}

// The operation of the word whose operands are of these kinds, and what is left behind it. Most are on
// an object, alone or with a value, and these are read with no list of their operands in memory.
#[inline(always)]
fn next_op<'a, A: Allocator>(
    decls: &Decls<A>,
    keyword: OpKeyword,
    kinds: &[OperandKind],
    rest: Option<&'a [u8]>,
) -> Option<(Op, Option<&'a [u8]>)>
    requires decls { IsWellFormed decls.now }
    requires few { length kinds.now ≤ 3 }
    ensures { option_map spec.op_so_far result ≡ spec.op_in decls.now.declarations keyword kinds.now
        (parts_left 32 rest.entry) }
{
    match kinds {
        [OperandKind::Object(kind), OperandKind::Value] => op_with_value(
            decls, keyword, *kind, rest,
        ),
        [kind] => op_on_one(decls, keyword, *kind, rest),
        _ => other_op(decls, keyword, kinds, rest),
    }
}

// An operation on an object of this kind, with a value.
#[inline(always)]
fn op_with_value<'a, A: Allocator>(
    decls: &Decls<A>,
    keyword: OpKeyword,
    kind: Kind,
    rest: Option<&'a [u8]>,
) -> Option<(Op, Option<&'a [u8]>)>
    requires { IsWellFormed decls.now }
    ensures { option_map spec.op_so_far result ≡ spec.op_in decls.now.declarations keyword
        (OperandKind.Object kind ∷ OperandKind.Value ∷ []) (parts_left 32 rest.entry) }
{
    let (object, rest) = next_operand(decls, OperandKind::Object(kind), rest)?;
    let (value, rest) = next_operand(decls, OperandKind::Value, rest)?;
    op_before(keyword, [object, value].as_slice(), rest)
}

// An operation that has one operand.
#[inline(always)]
fn op_on_one<'a, A: Allocator>(
    decls: &Decls<A>,
    keyword: OpKeyword,
    kind: OperandKind,
    rest: Option<&'a [u8]>,
) -> Option<(Op, Option<&'a [u8]>)>
    requires { IsWellFormed decls.now }
    ensures { option_map spec.op_so_far result ≡ spec.op_in decls.now.declarations keyword
        (kind ∷ []) (parts_left 32 rest.entry) }
{
    let (operand, rest) = next_operand(decls, kind, rest)?;
    op_before(keyword, [operand].as_slice(), rest)
}

// Any operation.
#[inline(never)]
fn other_op<'a, A: Allocator>(
    decls: &Decls<A>,
    keyword: OpKeyword,
    kinds: &[OperandKind],
    rest: Option<&'a [u8]>,
) -> Option<(Op, Option<&'a [u8]>)>
    requires decls { IsWellFormed decls.now }
    requires few { length kinds.now ≤ 3 }
    ensures { option_map spec.op_so_far result ≡ spec.op_in decls.now.declarations keyword kinds.now
        (parts_left 32 rest.entry) }
{
    let (operands, rest) = next_operands(decls, kinds, rest)?;
    op_before(keyword, operands.as_slice(), rest)
}

// The operation of the word with these operands, before what is left behind them.
#[inline(always)]
fn op_before<'a>(
    keyword: OpKeyword,
    operands: &[Operand],
    rest: Option<&'a [u8]>,
) -> Option<(Op, Option<&'a [u8]>)>
    ensures { option_map spec.op_so_far result ≡ option_map
        (spec.op_before (parts_left 32 rest.entry)) (op_by keyword operands.now) }
{
    let op = op_by(keyword, operands)?;
    Some((op, rest))
}

/// An operand for each of the kinds, and what is left behind them.
pub fn next_operands<'a, A: Allocator>(
    decls: &Decls<A>,
    mut kinds: &[OperandKind],
    rest: Option<&'a [u8]>,
) -> Option<(Operands, Option<&'a [u8]>)>
    requires decls { IsWellFormed decls.now }
    requires few { length kinds.now ≤ 3 }
    ensures { option_map spec.operands_so_far result ≡ spec.operands_on decls.now.declarations []
        kinds.entry.now (parts_left 32 rest.entry) }
{
    let mut operands = Operands::new();
    let mut left = rest;
    while let [kind, others @ ..] = kinds {
        let (operand, behind) = next_operand(decls, *kind, left)?;
        operands.push(operand);
        left = behind;
        kinds = others;
    }
    Some((operands, left))
}

/// The operand of this kind that the next word says, and what is left behind it.
#[inline(always)]
pub fn next_operand<'a, A: Allocator>(
    decls: &Decls<A>,
    kind: OperandKind,
    rest: Option<&'a [u8]>,
) -> Option<(Operand, Option<&'a [u8]>)>
    requires { IsWellFormed decls.now }
    ensures { option_map spec.operand_so_far result ≡ spec.first_operand decls.now.declarations kind
        (parts_left 32 rest.entry) }
{
    match rest {
        None => None,
        Some(bytes) => match cut_word(bytes) {
            None => None,
            Some((end, others)) => match part_before(decls, kind, bytes, end) {
                None => None,
                Some(operand) => Some((operand, others)),
            },
        },
    }
}

// The operand of this kind that the first `len` bytes say. A name is looked up before its form is tested.
#[inline(always)]
fn part_before<A: Allocator>(
    decls: &Decls<A>,
    kind: OperandKind,
    bytes: &[u8],
    len: usize,
) -> Option<Operand>
    requires decls { IsWellFormed decls.now }
    requires len { len ≤ length bytes.now }
    requires seen { list_all is_place_byte (take len bytes.now) ≡ true }
    ensures { result ≡ result_ok (operand_in decls.now.declarations kind (take len bytes.now)) }
{
    match kind {
        OperandKind::Object(_) | OperandKind::RwMutex => match object_in(decls, kind, bytes, len) {
            None => None,
            Some(named) => Some(Operand::Object(named)),
        },
        _ => operand_in(decls, kind, &bytes[..len]).ok(),
    }
}

// What the first `len` bytes name, where that is wanted. Those behind them let it be found faster.
#[inline(always)]
pub(crate) fn object_in<A: Allocator>(
    decls: &Decls<A>,
    kind: OperandKind,
    bytes: &[u8],
    len: usize,
) -> Option<Named>
    requires decls { IsWellFormed decls.now }
    requires len { len ≤ length bytes.now }
    requires seen { list_all is_place_byte (take len bytes.now) ≡ true }
    ensures { result ≡ result_ok (named_in decls.now.declarations kind (take len bytes.now)) }
{
    match decls.find_at(bytes, len) {
        None => None,
        Some(named) => {
            if is_wanted(decls, kind, named) {
                Some(named)
            } else {
                None
            }
        }
    }
}

// The words that are left, which are a place, or two.
#[inline(always)]
fn last_places<'a>(two: bool, rest: Option<&'a [u8]>) -> Option<(&'a [u8], Option<&'a [u8]>)>
    ensures { option_map spec.places_read result ≡ spec.last_places two (parts_left 32 rest.entry) }
{
    if !two {
        let place = last_place(rest)?;
        return Some((place, None));
    }
    let (place, behind) = first_place(rest)?;
    let second = last_place(behind)?;
    Some((place, Some(second)))
}

/// The one word that is left, which is a place.
#[inline(always)]
pub fn last_place<'a>(rest: Option<&'a [u8]>) -> Option<&'a [u8]>
    ensures { option_map (λ place. place.now) result ≡ spec.last_place (parts_left 32 rest.entry) }
{
    match first_place(rest) {
        None => None,
        Some((place, behind)) => match behind {
            Some(_) => None,
            None => Some(place),
        },
    }
}

// The next word, which is a place, and what is left behind it.
#[inline(always)]
fn first_place<'a>(rest: Option<&'a [u8]>) -> Option<(&'a [u8], Option<&'a [u8]>)>
    ensures { option_map spec.place_so_far result ≡ spec.first_place (parts_left 32 rest.entry) }
{
    match rest {
        None => None,
        Some(bytes) => match cut_word(bytes) {
            None => None,
            Some((end, behind)) => {
                if end == 0 || end > MAX_PLACE_LEN {
                    None
                } else {
                    Some((&bytes[..end], behind))
                }
            }
        },
    }
}
