//! What a line wants after its first word.
ghost use Rattle.std.specs.Prelude.{◌≡◌};
ghost use Rattle.race_text.specs.Form.{fields_of};

use crate::put::put;
use arrayvec::ArrayVec;
use race_records::{Kind, OperandKind, operand_kinds};
use race_text::{Field, Word};
use std::alloc::{AllocError, Allocator};

/// What comes after the first word, in order.
pub(crate) fn fields_of(word: Word) -> ArrayVec<Field, 6>
    ensures { result.items ≡ fields_of word }
{
    let mut fields = ArrayVec::new();
    match word {
        Word::Declares(decl_keyword) => {
            fields.push(Field::NewName);
            if let Some(limit) = decl_keyword.number_limit() {
                fields.push(Field::Number(limit));
            }
        }
        Word::Does(op_keyword) => {
            fields.push(Field::Operand(OperandKind::Object(Kind::Goroutine)));
            let kinds = operand_kinds(op_keyword);
            for kind in kinds {
                fields.push(Field::Operand(*kind));
            }
            fields.push(Field::Place);
            if op_keyword.has_two_places() {
                fields.push(Field::Place);
            }
        }
    }
    fields
}

/// What a field is called.
pub(crate) fn field_name(field: Field) -> &'static str {
    match field {
        Field::NewName => "name",
        Field::Number(_) => "capacity",
        Field::Operand(kind) => operand_name(kind),
        Field::Place => "place",
    }
}

fn operand_name(kind: OperandKind) -> &'static str {
    match kind {
        OperandKind::Object(kind) => kind_name(kind),
        OperandKind::RwMutex => "rwmutex",
        OperandKind::Value => "value",
        OperandKind::Cases => "cases",
        OperandKind::Cause => "fault",
    }
}

fn kind_name(kind: Kind) -> &'static str {
    match kind {
        Kind::Goroutine => "goroutine",
        Kind::Var => "variable",
        Kind::Chan => "channel",
        Kind::Lock => "lock",
        Kind::Once => "once",
    }
}

/// The same with an article.
pub(crate) fn one_of(field: Field) -> &'static str {
    match field {
        Field::NewName => "a name",
        Field::Number(_) => "a capacity",
        Field::Operand(OperandKind::Object(Kind::Goroutine)) => "a goroutine",
        Field::Operand(OperandKind::Object(Kind::Var)) => "a variable",
        Field::Operand(OperandKind::Object(Kind::Chan)) => "a channel",
        Field::Operand(OperandKind::Object(Kind::Lock)) => "a lock",
        Field::Operand(OperandKind::Object(Kind::Once)) => "a once",
        Field::Operand(OperandKind::RwMutex) => "an rwmutex",
        Field::Operand(OperandKind::Value) => "a value",
        Field::Operand(OperandKind::Cases) => "a list of cases",
        Field::Operand(OperandKind::Cause) => "a fault",
        Field::Place => "a place",
    }
}

/// Puts what each is, with commas between them.
pub(crate) fn put_fields<A: Allocator>(
    out: &mut Vec<u8, A>,
    fields: &[Field],
) -> Result<(), AllocError> {
    let mut first = true;
    for field in fields {
        put(out, &[if first { "" } else { ", " }, field_name(*field)])?;
        first = false;
    }
    Ok(())
}

/// What the word of a field has to be.
pub(crate) fn form_of(field: Field) -> &'static str {
    match field {
        Field::NewName => NAME,
        Field::Number(_) => {
            "a capacity is a number from 0 to 65535, without a sign, a point or a leading zero"
        }
        Field::Operand(kind) => form_of_operand(kind),
        Field::Place => "a place is 1 to 128 bytes without a blank",
    }
}

const NAME: &str = "a name is 1 to 64 letters, digits and _, and isn't nil";

fn form_of_operand(kind: OperandKind) -> &'static str {
    match kind {
        OperandKind::Object(_) | OperandKind::RwMutex => NAME,
        OperandKind::Value => {
            "a value is a number from 0 to 18446744073709551615, without a sign, a point or a leading zero"
        }
        OperandKind::Cases => {
            "it is - or 1 to 16 of send:C and recv:C with commas between them, C a channel or nil"
        }
        OperandKind::Cause => {
            "a fault is send:C, close:C, close:nil, unlock:L or runlock:L, C a channel and L a lock"
        }
    }
}
