//! The words that a line of a program may begin with, and what each wants behind it.
ghost use Rattle.std.specs.Prelude.{◌≡◌, ◌≤◌, ◌∷◌, [], length, map, true};
ghost use Rattle.race_text.specs.Words.{parts_left};
ghost use Rattle.race_script.specs.Form as spec;

use arrayvec::ArrayVec;
use race_records::{DeclKeyword, Kind, OpKeyword, OperandKind, Version};
use race_text::{Field, Word, cut_at, word_named};

/// The words of asks. What is asked of a nil channel has words of its own.
#[derive(Clone, Copy, PartialEq, Eq)]
pub enum StepKeyword {
    /// A goroutine is started.
    Go,
    /// The goroutine returns.
    Exit,
    /// A variable is read.
    Read,
    /// A variable is written.
    Write,
    /// A value is sent.
    Send,
    /// A value is sent on nil.
    SendNil,
    /// A value is received.
    Recv,
    /// A value is received from nil.
    RecvNil,
    /// A channel is closed.
    Close,
    /// Nil is closed.
    CloseNil,
    /// A mutex or an rwmutex is locked.
    Lock,
    /// A mutex or an rwmutex is unlocked.
    Unlock,
    /// An rwmutex is locked for reading.
    RLock,
    /// An rwmutex is unlocked from reading.
    RUnlock,
    /// A mutex or an rwmutex is locked, if that can be done at once. Of version 2.
    TryLock,
    /// An rwmutex is locked for reading, if that can be done at once. Of version 2.
    TryRLock,
    /// The function of a once is run, unless that was done.
    Do,
    /// The function of a once ends.
    EndDo,
}

/// What the first word of a line says that the line is.
#[derive(Clone, Copy, PartialEq, Eq)]
pub enum LineKeyword {
    /// An object is declared.
    Declares(DeclKeyword),
    /// The body of a goroutine begins.
    Begins,
    /// The goroutine asks.
    Asks(StepKeyword),
    /// The goroutine asks by a select.
    Selects,
}

/// The words that a line of a body may begin with, of all versions.
pub const BODY_WORDS: [(&[u8], LineKeyword); 17] = [
    (b"body", LineKeyword::Begins),
    (b"go", LineKeyword::Asks(StepKeyword::Go)),
    (b"exit", LineKeyword::Asks(StepKeyword::Exit)),
    (b"read", LineKeyword::Asks(StepKeyword::Read)),
    (b"write", LineKeyword::Asks(StepKeyword::Write)),
    (b"send", LineKeyword::Asks(StepKeyword::Send)),
    (b"recv", LineKeyword::Asks(StepKeyword::Recv)),
    (b"close", LineKeyword::Asks(StepKeyword::Close)),
    (b"select", LineKeyword::Selects),
    (b"lock", LineKeyword::Asks(StepKeyword::Lock)),
    (b"unlock", LineKeyword::Asks(StepKeyword::Unlock)),
    (b"rlock", LineKeyword::Asks(StepKeyword::RLock)),
    (b"runlock", LineKeyword::Asks(StepKeyword::RUnlock)),
    (b"trylock", LineKeyword::Asks(StepKeyword::TryLock)),
    (b"tryrlock", LineKeyword::Asks(StepKeyword::TryRLock)),
    (b"do", LineKeyword::Asks(StepKeyword::Do)),
    (b"enddo", LineKeyword::Asks(StepKeyword::EndDo)),
];

// What the first word of a line says that the line is in a text of the version.
pub(crate) fn line_word_in(version: Version, word: &[u8]) -> Option<LineKeyword>
    ensures { result ≡ spec.line_word_in version word.now }
{
    match line_word(word) {
        None => None,
        Some(found) => {
            if has_line_word(version, found) {
                Some(found)
            } else {
                None
            }
        }
    }
}

// Whether the version has lines of this kind.
fn has_line_word(version: Version, word: LineKeyword) -> bool
    ensures { result ≡ spec.has_line_word version word }
{
    match word {
        LineKeyword::Asks(StepKeyword::TryLock) => version.has(OpKeyword::TryLock),
        LineKeyword::Asks(StepKeyword::TryRLock) => version.has(OpKeyword::TryRLock),
        _ => true,
    }
}

// What the first word of a line says that the line is in some version.
#[tactic(auto, unfolding(crate::specs::Form::line_word))]
fn line_word(word: &[u8]) -> Option<LineKeyword>
    ensures { result ≡ spec.line_word word.now }
{
    match word_named(word) {
        Some(Word::Declares(keyword)) => Some(LineKeyword::Declares(keyword)),
        _ => lookup(&BODY_WORDS, word),
    }
}

fn lookup(mut table: &[(&[u8], LineKeyword)], word: &[u8]) -> Option<LineKeyword>
    ensures { result ≡ spec.lookup (map (λ entry. (entry.0.now, entry.1)) table.entry.now) word.now }
{
    while let [entry, others @ ..] = table {
        if word == entry.0 {
            return Some(entry.1);
        }
        table = others;
    }
    None
}

fn word_on_nil(word: StepKeyword) -> Option<StepKeyword>
    ensures { result ≡ spec.word_on_nil word }
{
    match word {
        StepKeyword::Send => Some(StepKeyword::SendNil),
        StepKeyword::Recv => Some(StepKeyword::RecvNil),
        StepKeyword::Close => Some(StepKeyword::CloseNil),
        _ => None,
    }
}

// The word of what is asked, and the words behind it: a `nil` is taken up in the word.
pub(crate) fn on_nil(word: StepKeyword, rest: Option<&[u8]>) -> (StepKeyword, Option<&[u8]>)
    ensures { (result.0, parts_left 32 result.1) ≡ spec.on_nil word (parts_left 32 rest.entry) }
{
    let Some(bytes) = rest else {
        return (word, rest);
    };
    let (first, others) = cut_at(bytes, b' ');
    if first == b"nil".as_slice() {
        if let Some(other) = word_on_nil(word) {
            return (other, others);
        }
    }
    (word, rest)
}

static NOTHING: [OperandKind; 0] = [];

static GOROUTINE: [OperandKind; 1] = [OperandKind::Object(Kind::Goroutine)];

static VAR: [OperandKind; 1] = [OperandKind::Object(Kind::Var)];

static VAR_VALUE: [OperandKind; 2] = [OperandKind::Object(Kind::Var), OperandKind::Value];

static CHAN: [OperandKind; 1] = [OperandKind::Object(Kind::Chan)];

static CHAN_VALUE: [OperandKind; 2] = [OperandKind::Object(Kind::Chan), OperandKind::Value];

static VALUE: [OperandKind; 1] = [OperandKind::Value];

static LOCK: [OperandKind; 1] = [OperandKind::Object(Kind::Lock)];

static RW_MUTEX: [OperandKind; 1] = [OperandKind::RwMutex];

static ONCE: [OperandKind; 1] = [OperandKind::Object(Kind::Once)];

/// What the operands behind the word are.
pub fn ask_kinds(word: StepKeyword) -> &'static [OperandKind]
    ensures kinds { result.now ≡ spec.ask_kinds word }
    ensures few { length result.now ≤ 2 }
{
    match word {
        StepKeyword::Go => &GOROUTINE,
        StepKeyword::Exit => &NOTHING,
        StepKeyword::Read => &VAR,
        StepKeyword::Write => &VAR_VALUE,
        StepKeyword::Send => &CHAN_VALUE,
        StepKeyword::SendNil => &VALUE,
        StepKeyword::Recv => &CHAN,
        StepKeyword::RecvNil => &NOTHING,
        StepKeyword::Close => &CHAN,
        StepKeyword::CloseNil => &NOTHING,
        StepKeyword::Lock => &LOCK,
        StepKeyword::Unlock => &LOCK,
        StepKeyword::RLock => &RW_MUTEX,
        StepKeyword::RUnlock => &RW_MUTEX,
        StepKeyword::TryLock => &LOCK,
        StepKeyword::TryRLock => &RW_MUTEX,
        StepKeyword::Do => &ONCE,
        StepKeyword::EndDo => &ONCE,
    }
}

// What stands behind the word: its operands, and a place.
pub(crate) fn ask_fields(word: StepKeyword) -> ArrayVec<Field, 3>
    ensures { result.items ≡ spec.ask_fields word }
{
    let mut fields = ArrayVec::new();
    let kinds = ask_kinds(word);
    for kind in kinds {
        fields.push(Field::Operand(*kind));
    }
    fields.push(Field::Place);
    fields
}
