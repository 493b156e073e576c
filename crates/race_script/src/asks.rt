//! What the words of a line of a body say.
ghost use Rattle.std.specs.{Prelude.{◌≡◌, ◌==◌, length}, Option.option_map};
ghost use Rattle.race_records.specs.Declarations.{IsWellFormed};
ghost use Rattle.race_text.specs.Words.{parts_left};
ghost use Rattle.race_script.specs.Fault as fault;
ghost use Rattle.race_script.specs.Form as form;
ghost use Rattle.race_script.specs.Reading as spec;

use crate::form::{StepKeyword, ask_kinds};
use race_hub::Ask;
use race_records::{Decls, Kind, Operand, OperandKind, object_alone, object_value};
use race_text::{
    Field, TextCause, cut_at, fields_cause, goroutine_of, has_count, last_place, next_operand,
    next_operands,
};
use std::alloc::Allocator;

// The least cause of the words behind the first, by what they have to be.
pub(crate) fn words_cause<A: Allocator>(
    decls: &Decls<A>,
    fields: &[Field],
    rest: Option<&[u8]>,
) -> Option<TextCause>
    ensures { result ≡ fault.words_cause decls.now.declarations fields.now (parts_left 32 rest.entry) }
{
    if !has_count(rest, fields.len()) {
        return Some(TextCause::WrongCount);
    }
    fields_cause(decls, fields, rest)
}

// What the words behind this one ask, and the place.
pub(crate) fn asked_in<'a, A: Allocator>(
    decls: &Decls<A>,
    word: StepKeyword,
    rest: Option<&'a [u8]>,
) -> Option<(Ask, &'a [u8])>
    requires { IsWellFormed decls.now }
    ensures { option_map spec.asked_read result
        ≡ spec.asked_in decls.now.declarations word (parts_left 32 rest.entry) }
{
    let (operands, rest) = next_operands(decls, ask_kinds(word), rest)?;
    let ask = ask_by(word, operands.as_slice())?;
    let place = last_place(rest)?;
    Some((ask, place))
}

// The goroutine that the one word names.
pub(crate) fn begun_in<A: Allocator>(decls: &Decls<A>, rest: Option<&[u8]>) -> Option<u32>
    requires { IsWellFormed decls.now }
    ensures { result ≡ spec.begun_in decls.now.declarations (parts_left 32 rest.entry) }
{
    if !has_count(rest, 1) {
        return None;
    }
    let (operand, _) = next_operand(decls, OperandKind::Object(Kind::Goroutine), rest)?;
    goroutine_of(operand)
}

/// What is asked by the word and its operands, where anything is.
pub fn ask_by(word: StepKeyword, operands: &[Operand]) -> Option<Ask>
    ensures { result ≡ form.ask_by word operands.now }
{
    match word {
        StepKeyword::Go => object_alone(Kind::Goroutine, operands).map(Ask::Go),
        StepKeyword::Exit => if_none(Ask::Exit, operands),
        StepKeyword::Read => object_alone(Kind::Var, operands).map(Ask::Read),
        StepKeyword::Write => object_value(Kind::Var, operands).map(|(x, v)| Ask::Write(x, v)),
        StepKeyword::Send => object_value(Kind::Chan, operands).map(|(c, v)| Ask::Send(Some(c), v)),
        StepKeyword::SendNil => value_alone(operands).map(|v| Ask::Send(None, v)),
        StepKeyword::Recv => object_alone(Kind::Chan, operands).map(|c| Ask::Recv(Some(c))),
        StepKeyword::RecvNil => if_none(Ask::Recv(None), operands),
        StepKeyword::Close => object_alone(Kind::Chan, operands).map(|c| Ask::Close(Some(c))),
        StepKeyword::CloseNil => if_none(Ask::Close(None), operands),
        StepKeyword::Lock => object_alone(Kind::Lock, operands).map(Ask::Lock),
        StepKeyword::Unlock => object_alone(Kind::Lock, operands).map(Ask::Unlock),
        StepKeyword::RLock => object_alone(Kind::Lock, operands).map(Ask::RLock),
        StepKeyword::RUnlock => object_alone(Kind::Lock, operands).map(Ask::RUnlock),
        StepKeyword::TryLock => object_alone(Kind::Lock, operands).map(Ask::TryLock),
        StepKeyword::TryRLock => object_alone(Kind::Lock, operands).map(Ask::TryRLock),
        StepKeyword::Do => object_alone(Kind::Once, operands).map(Ask::Do),
        StepKeyword::EndDo => object_alone(Kind::Once, operands).map(Ask::EndDo),
    }
}

fn value_alone(operands: &[Operand]) -> Option<u64>
    ensures { result ≡ form.value_alone operands.now }
{
    match operands {
        [Operand::Value(value)] => Some(*value),
        _ => None,
    }
}

fn if_none(ask: Ask, operands: &[Operand]) -> Option<Ask>
    ensures { result ≡ form.if_none ask operands.now }
{
    match operands {
        [] => Some(ask),
        _ => None,
    }
}
