//! The words that a line may begin with, which versions have them, and what each wants behind it.
ghost use Rattle.std.specs.Prelude.{◌≡◌, ◌<◌, ◌≤◌, ◌++◌, ◌∷◌, ℕ, [], length, get_or, map, take, true, IsTrue, Some, IfSome};
ghost use Rattle.std.specs.Int.{from_le_bytes, w32};
ghost use Rattle.race_records.specs.Operands.{since};
ghost use Rattle.race_text.specs.Form as spec;

use arrayvec::ArrayVec;
use race_records::{DeclKeyword, Kind, OpKeyword, OperandKind, Version, operand_kinds};

/// What the first word of a line says that the line is.
#[derive(Clone, Copy, PartialEq, Eq)]
pub enum Word {
    /// An object is declared.
    Declares(DeclKeyword),
    /// An operation happened.
    Does(OpKeyword),
}

/// The words that a line may begin with in any version, the common ones first: they are looked for
/// in this order.
pub const WORDS: [(&[u8], Word); 27] = [
    (b"read", Word::Does(OpKeyword::Read)),
    (b"write", Word::Does(OpKeyword::Write)),
    (b"lock", Word::Does(OpKeyword::Lock)),
    (b"unlock", Word::Does(OpKeyword::Unlock)),
    (b"send", Word::Does(OpKeyword::Send)),
    (b"recv", Word::Does(OpKeyword::Recv)),
    (b"meet", Word::Does(OpKeyword::Meet)),
    (b"go", Word::Does(OpKeyword::Go)),
    (b"exit", Word::Does(OpKeyword::Exit)),
    (b"recvclosed", Word::Does(OpKeyword::RecvClosed)),
    (b"close", Word::Does(OpKeyword::Close)),
    (b"rlock", Word::Does(OpKeyword::RLock)),
    (b"runlock", Word::Does(OpKeyword::RUnlock)),
    (b"oncebegin", Word::Does(OpKeyword::OnceBegin)),
    (b"onceend", Word::Does(OpKeyword::OnceEnd)),
    (b"oncedone", Word::Does(OpKeyword::OnceDone)),
    (b"default", Word::Does(OpKeyword::Default)),
    (b"fault", Word::Does(OpKeyword::Fault)),
    (b"trylock", Word::Does(OpKeyword::TryLock)),
    (b"tryrlock", Word::Does(OpKeyword::TryRLock)),
    (b"tryfail", Word::Does(OpKeyword::TryFail)),
    (b"goroutine", Word::Declares(DeclKeyword::Goroutine)),
    (b"var", Word::Declares(DeclKeyword::Var)),
    (b"chan", Word::Declares(DeclKeyword::Chan)),
    (b"mutex", Word::Declares(DeclKeyword::Mutex)),
    (b"rwmutex", Word::Declares(DeclKeyword::RwMutex)),
    (b"once", Word::Declares(DeclKeyword::Once)),
];

/// What can stand behind the first word.
#[derive(Clone, Copy, PartialEq, Eq)]
pub enum Field {
    /// A name that the line declares.
    NewName,
    /// A number of at most this limit.
    Number(u32),
    /// An operand of what an operation says.
    Operand(OperandKind),
    /// A place in the source.
    Place,
}

impl Default for Field {
    fn default() -> Field {
        Field::NewName
    }
}

/// What a word says that a line is which begins with it, in whichever version that has it.
#[inline(always)]
#[tactic(auto, unfolding(crate::specs::Form::word_named))]
pub fn word_named(word: &[u8]) -> Option<Word>
    ensures { result ≡ spec.word_named word.now }
{
    match common_word(word) {
        Some(found) => Some(found),
        None => lookup(&WORDS, word),
    }
}

/// What the first word of a line says that the line is, in a text of this version.
#[inline(always)]
#[tactic(auto, unfolding(crate::specs::Form::word_in, crate::specs::Form::word_named))]
pub fn word_in(version: Version, word: &[u8]) -> Option<Word>
    ensures { result ≡ spec.word_in version word.now }
{
    match common_word(word) {
        Some(found) => Some(found),
        None => match lookup(&WORDS, word) {
            None => None,
            Some(found) => {
                if has_word(version, found) {
                    Some(found)
                } else {
                    None
                }
            }
        },
    }
}

// Whether the version has the word.
fn has_word(version: Version, word: Word) -> bool
    ensures { result ≡ spec.has_word version word }
{
    match word {
        Word::Declares(_) => true,
        Word::Does(op_keyword) => version.has(op_keyword),
    }
}

// A common word, told by its bytes without a look into the table. Each version has it.
#[inline(always)]
#[tactic(auto, unfolding(crate::specs::Form::word_named))]
pub(crate) fn common_word(word: &[u8]) -> Option<Word>
    ensures named { IfSome result (λ found. spec.word_named word.now ≡ Some found) }
    ensures each { IfSome result (λ found. (version : Version) → spec.has_word version found ≡ true) }
{
    match word {
        [b'r', b'e', b'a', ..] => op_keyword_spelled(word, b"read", OpKeyword::Read),
        [b'r', b'e', ..] => op_keyword_spelled(word, b"recv", OpKeyword::Recv),
        [b'r', b'l', ..] => op_keyword_spelled(word, b"rlock", OpKeyword::RLock),
        [b'r', b'u', ..] => op_keyword_spelled(word, b"runlock", OpKeyword::RUnlock),
        [b'w', ..] => op_keyword_spelled(word, b"write", OpKeyword::Write),
        [b'l', ..] => op_keyword_spelled(word, b"lock", OpKeyword::Lock),
        [b'u', ..] => op_keyword_spelled(word, b"unlock", OpKeyword::Unlock),
        [b's', ..] => op_keyword_spelled(word, b"send", OpKeyword::Send),
        [b'm', ..] => op_keyword_spelled(word, b"meet", OpKeyword::Meet),
        [b'o', ..] => op_keyword_spelled(word, b"oncedone", OpKeyword::OnceDone),
        [b'v', ..] => decl_keyword_spelled(word, b"var", DeclKeyword::Var),
        [b'g', ..] => decl_keyword_spelled(word, b"goroutine", DeclKeyword::Goroutine),
        _ => None,
    }
}

// The keyword of version 1, where the word is its spelling.
#[inline(always)]
fn op_keyword_spelled(word: &[u8], spelling: &[u8], op_keyword: OpKeyword) -> Option<Word>
    requires named { spec.word_named spelling.now ≡ Some (Word.Does op_keyword) }
    requires early { since op_keyword ≡ Version.One }
    ensures named { IfSome result (λ found. spec.word_named word.now ≡ Some found) }
    ensures each { IfSome result (λ found. (version : Version) → spec.has_word version found ≡ true) }
{
    if is_spelled(word, spelling) {
        Some(Word::Does(op_keyword))
    } else {
        None
    }
}

// The same of a keyword that declares.
#[inline(always)]
fn decl_keyword_spelled(word: &[u8], spelling: &[u8], decl_keyword: DeclKeyword) -> Option<Word>
    requires { spec.word_named spelling.now ≡ Some (Word.Declares decl_keyword) }
    ensures named { IfSome result (λ found. spec.word_named word.now ≡ Some found) }
    ensures each { IfSome result (λ found. (version : Version) → spec.has_word version found ≡ true) }
{
    if is_spelled(word, spelling) {
        Some(Word::Declares(decl_keyword))
    } else {
        None
    }
}

// Whether the word is this spelling, which is constant. The first four bytes are compared as one number.
#[inline(always)]
fn is_spelled(word: &[u8], spelling: &[u8]) -> bool
    ensures { IsTrue result → word.now ≡ spelling.now }
{
    if word.len() != spelling.len() {
        return false;
    }
    if word.len() < 4 {
        return is_same_from(word, spelling, 0);
    }
    four_bytes(word) == four_bytes(spelling) && is_same_from(word, spelling, 4)
}

// Whether the bytes from there on are the same. A loop, as the spelling is short.
#[inline(always)]
fn is_same_from(word: &[u8], spelling: &[u8], from: usize) -> bool
    requires { length word.now ≡ length spelling.now }
    ensures { IsTrue result → (k : ℕ) → from ≤ k → k < length word.now → get_or word.now k 0 ≡ get_or spelling.now k 0 }
{
    for i in from..word.len() {
        if word[i] != spelling[i] {
            return false;
        }
    }
    true
}

// The first four bytes.
#[inline(always)]
fn four_bytes(bytes: &[u8]) -> u32
    requires { 4 ≤ length bytes.now }
    ensures { result ≡ from_le_bytes w32 bytes.now }
{
    match bytes.first_chunk::<4>() {
        Some(four) => u32::from_le_bytes(*four),
        None => unreachable!(),
    }
}

#[inline(never)]
fn lookup(mut table: &[(&[u8], Word)], word: &[u8]) -> Option<Word>
    ensures { result ≡ spec.lookup (map (λ entry. (entry.0.now, entry.1)) table.entry.now) word.now }
{
    while let [entry, others @ ..] = table {
        if word == entry.0 {
            return Some(entry.1);
        }
        table = others;
    }
    None
}

// What stands behind the word.
pub(crate) fn fields_of(word: Word) -> ArrayVec<Field, 6>
    ensures { result.items ≡ spec.fields_of word }
{
    let mut fields = ArrayVec::new();
    match word {
        Word::Declares(decl_keyword) => {
            fields.push(Field::NewName);
            if let Some(limit) = decl_keyword.number_limit() {
                fields.push(Field::Number(limit));
            }
        }
        Word::Does(op_keyword) => {
            fields.push(Field::Operand(OperandKind::Object(Kind::Goroutine)));
            let kinds = operand_kinds(op_keyword);
            for kind in kinds {
                fields.push(Field::Operand(*kind));
            }
            fields.push(Field::Place);
            if op_keyword.has_two_places() {
                fields.push(Field::Place);
            }
        }
    }
    fields
}

// The kind of what a line of the word declares, where it declares anything.
pub(crate) fn kind_declared(word: Word) -> Option<Kind>
    ensures { result ≡ spec.kind_declared word }
{
    match word {
        Word::Declares(decl_keyword) => Some(decl_keyword.kind()),
        Word::Does(_) => None,
    }
}
