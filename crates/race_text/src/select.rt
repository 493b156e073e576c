//! The cases of a select, and why a run failed: how the two are spelled.
ghost use Rattle.std.specs.Prelude.{◌≡◌, map, option_map};
ghost use Rattle.race_text.specs.Select as spec;

use race_records::{Cause, Dir, Kind, Named, OperandKind};

/// What a run failed at.
#[derive(Clone, Copy, PartialEq, Eq)]
pub enum Attempt {
    /// A send.
    Send,
    /// A close.
    Close,
    /// An unlock.
    Unlock,
    /// An unlock from reading.
    RUnlock,
}

/// What a run can fail at, by the front of the word that says so.
pub const ATTEMPTS: [(&[u8], Attempt); 4] = [
    (b"send:", Attempt::Send),
    (b"close:", Attempt::Close),
    (b"unlock:", Attempt::Unlock),
    (b"runlock:", Attempt::RUnlock),
];

// What stands behind the front, where the word begins so.
fn behind<'a>(front: &[u8], word: &'a [u8]) -> Option<&'a [u8]>
    ensures { option_map (λ rest. rest.now) result ≡ spec.behind front.now word.now }
{
    word.strip_prefix(front)
}

// What a case would do, and the word of its channel.
pub(crate) fn case_spelled(word: &[u8]) -> Option<(Dir, &[u8])>
    ensures { option_map (λ s. (s.0, s.1.now)) result ≡ spec.case_spelled word.now }
{
    match behind(b"send:", word) {
        Some(sent) => Some((Dir::Send, sent)),
        None => match behind(b"recv:", word) {
            Some(received) => Some((Dir::Recv, received)),
            None => None,
        },
    }
}

// What the run failed at, and the name of the object.
pub(crate) fn failure_spelled(word: &[u8]) -> Option<(Attempt, &[u8])>
    ensures { option_map (λ s. (s.0, s.1.now)) result ≡ spec.failure_spelled word.now }
{
    failure_among(&ATTEMPTS, word)
}

fn failure_among<'a>(mut table: &[(&[u8], Attempt)], word: &'a [u8]) -> Option<(Attempt, &'a [u8])>
    ensures { option_map (λ s. (s.0, s.1.now)) result ≡ spec.failure_among
        (map (λ entry. (entry.0.now, entry.1)) table.entry.now) word.now }
{
    while let [entry, others @ ..] = table {
        if let Some(name) = behind(entry.0, word) {
            return Some((entry.1, name));
        }
        table = others;
    }
    None
}

// What this can fail at.
pub(crate) fn kind_tried(attempt: Attempt) -> OperandKind
    ensures { result ≡ spec.kind_tried attempt }
{
    match attempt {
        Attempt::Send => OperandKind::Object(Kind::Chan),
        Attempt::Close => OperandKind::Object(Kind::Chan),
        Attempt::Unlock => OperandKind::Object(Kind::Lock),
        Attempt::RUnlock => OperandKind::RwMutex,
    }
}

// Why a run failed that tried so with the object.
pub(crate) fn cause_by(attempt: Attempt, named: Named) -> Cause
    ensures { result ≡ spec.cause_by attempt named }
{
    let number = named.number();
    match attempt {
        Attempt::Send => Cause::SendClosed(number),
        Attempt::Close => Cause::CloseClosed(number),
        Attempt::Unlock => Cause::UnlockFree(number),
        Attempt::RUnlock => Cause::RUnlockFree(number),
    }
}
