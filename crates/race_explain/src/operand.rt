//! What is said of one word of a line that is at fault.
ghost use Rattle.std.specs.Prelude.{◌≡◌, true};
ghost use Rattle.race_records.specs.Name.{is_name};

use crate::exchanged::put_exchanged;
use crate::fault::Faulty;
use crate::field::{form_of, one_of};
use crate::line::{put_quoted, put_visible};
use crate::names::{declared_in, name_of, numbered};
use crate::near::Guess;
use crate::put::{put, put_at, put_number_in};
use crate::word::FaultyWord;
use race_records::{Decls, Kind, Named, Object, OperandKind, Trace, is_name};
use race_text::{Field, TextCause, Word, cut_at, word_named};
use std::alloc::{AllocError, Allocator};

/// What is wrong with a word after the first of the line, where the lines before are read.
pub(crate) fn put_word<A: Allocator, B: Allocator>(
    out: &mut Vec<u8, A>,
    faulty: &Faulty<'_, B>,
    before: &Trace<B>,
    found: &FaultyWord<'_>,
) -> Result<(), AllocError> {
    let cause = faulty.fault.cause;
    let name = name_in(before.decls(), found, cause).0;
    match cause {
        TextCause::Taken => put_taken(out, before.decls(), name),
        TextCause::Unknown => put_unknown(out, faulty, before, found, name),
        TextCause::WrongKind => {
            put_wrong_kind(out, before.decls(), found, name)?;
            put_exchanged(out, before.decls(), faulty.line, found)?;
            Ok(())
        }
        TextCause::TooMany => {
            put_quoted(out, found.word)?;
            put(out, &[" has more than 16 cases"])
        }
        _ => {
            put_bad_form(out, cause, found, faulty.line)?;
            put_exchanged(out, before.decls(), faulty.line, found)?;
            Ok(())
        }
    }
}

/// The name in the word at which the cause holds, and where it begins in the word. Of a list the first one.
pub(crate) fn name_in<'a, A: Allocator>(
    decls: &Decls<A>,
    found: &FaultyWord<'a>,
    cause: TextCause,
) -> (&'a [u8], usize) {
    if !is_list(found.field) {
        return (found.word, 0);
    }
    let mut left = Some(found.word);
    for _ in 0..found.word.len() {
        let Some(bytes) = left else {
            return (found.word, 0);
        };
        let (case, others) = cut_at(bytes, b',');
        if let Some(name) = cut_at(case, b':').1 {
            if is_faulty(decls, found.field, name, cause) {
                let skipped = found.word.len().saturating_sub(bytes.len());
                return (
                    name,
                    skipped.saturating_add(case.len().saturating_sub(name.len())),
                );
            }
        }
        left = others;
    }
    (found.word, 0)
}

/// Whether the word has names after other words.
pub(crate) fn is_list(field: Field) -> bool {
    match field {
        Field::Operand(OperandKind::Cases) => true,
        Field::Operand(OperandKind::Cause) => true,
        _ => false,
    }
}

// Whether the cause holds at the name. Of a fault's one name it does.
fn is_faulty<A: Allocator>(decls: &Decls<A>, field: Field, name: &[u8], cause: TextCause) -> bool {
    if field == Field::Operand(OperandKind::Cause) {
        return cause == TextCause::Unknown || cause == TextCause::WrongKind;
    }
    match object_of(decls, name) {
        None => cause == TextCause::Unknown && name != b"nil".as_slice(),
        Some(Named::Chan(_)) => false,
        Some(_) => cause == TextCause::WrongKind,
    }
}

// What is said of a word that hasn't its form.
fn put_bad_form<A: Allocator>(
    out: &mut Vec<u8, A>,
    cause: TextCause,
    found: &FaultyWord<'_>,
    line: &[u8],
) -> Result<(), AllocError> {
    if found.word.is_empty() {
        return put_empty_word(out, found, line);
    }
    put_quoted(out, found.word)?;
    if found.word.len() > longest(found.field) {
        put_number_in(out, " has ", found.word.len() as u64, " bytes: ")?;
        return put(out, &[form_of(found.field)]);
    }
    if cause == TextCause::BadNumber && is_of_digits(found.word) {
        let what = if found.word.starts_with(b"0") {
            " has a leading zero: "
        } else {
            " is too large: "
        };
        return put(out, &[what, form_of(found.field)]);
    }
    put(
        out,
        &[" isn't ", one_of(found.field), ": ", form_of(found.field)],
    )
}

// How many bytes a name or a place has at most.
fn longest(field: Field) -> usize {
    match field {
        Field::NewName => 64,
        Field::Operand(OperandKind::Object(_)) => 64,
        Field::Operand(OperandKind::RwMutex) => 64,
        Field::Place => 128,
        _ => usize::MAX,
    }
}

// What is said of an empty word.
fn put_empty_word<A: Allocator>(
    out: &mut Vec<u8, A>,
    found: &FaultyWord<'_>,
    line: &[u8],
) -> Result<(), AllocError> {
    let what = one_of(found.field);
    if found.column == line.len() {
        put(
            out,
            &[
                "the line ends with a blank, and ",
                what,
                " is missing after it: ",
            ],
        )?;
    } else {
        put(
            out,
            &[
                "a second blank stands where ",
                what,
                " is wanted, and one blank comes between words: ",
            ],
        )?;
    }
    put(out, &[form_of(found.field)])
}

// Whether the word has digits alone, and at least one.
fn is_of_digits(word: &[u8]) -> bool {
    for byte in word {
        if !(b'0' <= *byte && *byte <= b'9') {
            return false;
        }
    }
    !word.is_empty()
}

/// The object of this name, if there is one.
pub(crate) fn object_of<A: Allocator>(decls: &Decls<A>, word: &[u8]) -> Option<Named> {
    if is_name(word) {
        look_up(decls, word)
    } else {
        None
    }
}

fn look_up<A: Allocator>(decls: &Decls<A>, word: &[u8]) -> Option<Named>
    requires { is_name word.now ≡ true }
{
    decls.find_at(word, word.len())
}

// What is said of a name that is declared again.
fn put_taken<A: Allocator, B: Allocator>(
    out: &mut Vec<u8, A>,
    decls: &Decls<B>,
    word: &[u8],
) -> Result<(), AllocError> {
    put_quoted(out, word)?;
    match object_of(decls, word) {
        Some(Named::Goroutine(0)) => put(out, &[" is the first goroutine, which no line declares"]),
        Some(named) => {
            put(out, &[" is declared before,"])?;
            put_declared(out, decls, named)?;
            put(
                out,
                &["; goroutines, variables, channels, locks and onces share one table of names"],
            )
        }
        None => Ok(()),
    }
}

// Puts as what and in which line it is declared.
fn put_declared<A: Allocator, B: Allocator>(
    out: &mut Vec<u8, A>,
    decls: &Decls<B>,
    named: Named,
) -> Result<(), AllocError> {
    match declared_in(decls, named) {
        Some((object, line)) => {
            put(out, &[" as ", object_name(object)])?;
            put_number_in(out, " in line ", line, "")
        }
        None => Ok(()),
    }
}

fn object_name(object: Object) -> &'static str {
    match object {
        Object::Goroutine => "a goroutine",
        Object::Var => "a variable",
        Object::Chan(_) => "a channel",
        Object::Lock(false) => "a mutex",
        Object::Lock(true) => "an rwmutex",
        Object::Once => "a once",
    }
}

// What is said of a name that isn't declared, and which line declares it only later, or which name may be meant.
fn put_unknown<A: Allocator, B: Allocator>(
    out: &mut Vec<u8, A>,
    faulty: &Faulty<'_, B>,
    before: &Trace<B>,
    found: &FaultyWord<'_>,
    name: &[u8],
) -> Result<(), AllocError> {
    put_quoted(out, name)?;
    put(out, &[" is declared by no line before"])?;
    if put_exchanged(out, before.decls(), faulty.line, found)? {
        return Ok(());
    }
    if let Some(line) = declared_after(faulty, name) {
        return put_number_in(out, "; line ", line, " declares it, but comes later");
    }
    let Some(kind) = wanted_kind(found) else {
        return Ok(());
    };
    match meant(before, kind, name) {
        Some(known) => put(out, &["; did you mean \"", known, "\"?"]),
        None => put_declaring(out, found, kind, name),
    }
}

// Which declaration may be missing.
fn put_declaring<A: Allocator>(
    out: &mut Vec<u8, A>,
    found: &FaultyWord<'_>,
    kind: Kind,
    name: &[u8],
) -> Result<(), AllocError> {
    let is_rw = found.field == Field::Operand(OperandKind::RwMutex)
        || found.word.starts_with(b"runlock:");
    let word = match kind {
        Kind::Goroutine => "goroutine ",
        Kind::Var => "var ",
        Kind::Chan => "chan ",
        Kind::Lock => if is_rw { "rwmutex " } else { "mutex " },
        Kind::Once => "once ",
    };
    put(out, &["; a line may be missing before all events: ", word])?;
    put_visible(out, name)?;
    put(out, &[if kind == Kind::Chan { " CAP" } else { "" }])
}

/// The kind of the name that is wanted in the word.
pub(crate) fn wanted_kind(found: &FaultyWord<'_>) -> Option<Kind> {
    match found.field {
        Field::Operand(OperandKind::Object(kind)) => Some(kind),
        Field::Operand(OperandKind::RwMutex) => Some(Kind::Lock),
        Field::Operand(OperandKind::Cases) => Some(Kind::Chan),
        Field::Operand(OperandKind::Cause) => if is_of_lock(found.word) {
            Some(Kind::Lock)
        } else {
            Some(Kind::Chan)
        },
        _ => None,
    }
}

// Whether the fault is that of an unlock.
fn is_of_lock(fault: &[u8]) -> bool {
    fault.starts_with(b"unlock:") || fault.starts_with(b"runlock:")
}

// The one object of the kind that is called nearly so.
fn meant<'a, A: Allocator>(before: &'a Trace<A>, kind: Kind, name: &[u8]) -> Option<&'a str> {
    let mut guess = Guess::new();
    for number in 0..before.decls().count(kind) {
        guess = guess.look_at(name, name_of(before, numbered(kind, number)));
    }
    guess.only()
}

// Which line after the one at fault declares the name.
fn declared_after<A: Allocator>(faulty: &Faulty<'_, A>, name: &[u8]) -> Option<u64> {
    let mut left = faulty.after?;
    let mut number = faulty.fault.line;
    for _ in 0..left.len() {
        let (line, others) = cut_at(left, b'\n');
        number = number.saturating_add(1);
        if declares(line, name) {
            return Some(number);
        }
        left = others?;
    }
    None
}

// Whether the line declares the name.
fn declares(line: &[u8], name: &[u8]) -> bool {
    let (first, words) = cut_at(line, b' ');
    match (word_named(first), words) {
        (Some(Word::Declares(_)), Some(words)) => cut_at(words, b' ').0 == name,
        _ => false,
    }
}

// What is said of a name that is declared as something else.
fn put_wrong_kind<A: Allocator, B: Allocator>(
    out: &mut Vec<u8, A>,
    decls: &Decls<B>,
    found: &FaultyWord<'_>,
    name: &[u8],
) -> Result<(), AllocError> {
    put_quoted(out, name)?;
    put(
        out,
        &[
            " isn't ",
            wanted(found),
            ", which is wanted here; it is declared",
        ],
    )?;
    match object_of(decls, name) {
        Some(Named::Goroutine(0)) => put(out, &[" as a goroutine from the start"]),
        Some(named) => put_declared(out, decls, named),
        None => Ok(()),
    }
}

// What is wanted where the word has a name.
fn wanted(found: &FaultyWord<'_>) -> &'static str {
    match found.field {
        Field::Operand(OperandKind::Cases) => "a channel",
        Field::Operand(OperandKind::Cause) => if found.word.starts_with(b"unlock:") {
            "a lock"
        } else if found.word.starts_with(b"runlock:") {
            "an rwmutex"
        } else {
            "a channel"
        },
        field => one_of(field),
    }
}

/// What is wrong with a line of which each word is right.
pub(crate) fn put_whole_line<A: Allocator, B: Allocator>(
    out: &mut Vec<u8, A>,
    before: &Trace<B>,
    cause: TextCause,
    line: &[u8],
) -> Result<(), AllocError> {
    match cause {
        TextCause::TooMany => put(out, &[limit_text(word_named(cut_at(line, b' ').0))]),
        TextCause::LateDeclaration => {
            put_at(
                out,
                before,
                "declarations come before all events, and ",
                0,
                "",
            )?;
            put(out, &[" is one"])
        }
        _ => Ok(()),
    }
}

// Which limit a line exceeds that begins so.
fn limit_text(word: Option<Word>) -> &'static str {
    match word {
        Some(Word::Declares(keyword)) => match keyword.kind() {
            Kind::Goroutine => "a trace has at most 1,024 goroutines, main among them",
            Kind::Var => "a trace has at most 65,535 variables",
            Kind::Chan => "a trace has at most 65,535 channels",
            Kind::Lock => "a trace has at most 65,535 mutexes and rwmutexes together",
            Kind::Once => "a trace has at most 65,535 onces",
        },
        _ => "a trace has at most 16,777,216 events",
    }
}
