//! Which known word a misspelt one may be.

/// How a word differs from a known one.
#[derive(Clone, Copy, PartialEq, Eq)]
enum Likeness {
    /// At most in the case of letters.
    Same,
    /// In one letter too many, too few or another, or in two that are exchanged.
    Near,
    /// In more.
    Far,
}

/// The known word that a misspelt one may be, of those that were looked at.
#[derive(Clone, Copy)]
pub(crate) struct Guess<'a> {
    known: &'a str,
    likeness: Likeness,
    count: u32,
}

impl<'a> Guess<'a> {
    /// Before any was looked at.
    pub(crate) fn new() -> Guess<'a> {
        Guess {
            known: "",
            likeness: Likeness::Far,
            count: 0,
        }
    }

    /// Looks at one more known word.
    pub(crate) fn look_at(self, word: &[u8], known: &'a str) -> Guess<'a> {
        let likeness = compared(word, known.as_bytes());
        if likeness == Likeness::Far
            || likeness == Likeness::Near && self.likeness == Likeness::Same
        {
            return self;
        }
        let count = if likeness == self.likeness {
            self.count.saturating_add(1)
        } else {
            1
        };
        Guess {
            known,
            likeness,
            count,
        }
    }

    /// The nearest of them, if no other is as near.
    pub(crate) fn only(self) -> Option<&'a str> {
        if self.count == 1 {
            Some(self.known)
        } else {
            None
        }
    }
}

/// Whether the word is the known one but for the case of its letters.
pub(crate) fn is_same(word: &[u8], known: &str) -> bool {
    compared(word, known.as_bytes()) == Likeness::Same
}

fn compared(word: &[u8], known: &[u8]) -> Likeness {
    let front = common_front(word, known);
    let (word, known) = (after(word, front), after(known, front));
    let back = common_back(word, known);
    let (word, known) = (without(word, back), without(known, back));
    if word.is_empty() && known.is_empty() {
        Likeness::Same
    } else if is_one_slip(word, known, front.saturating_add(back)) {
        Likeness::Near
    } else {
        Likeness::Far
    }
}

// Whether the two parts, beside which the words agree in so many bytes, differ by one slip. Names differ in a digit on
// purpose, and short ones in a letter.
fn is_one_slip(word: &[u8], known: &[u8], agreed: usize) -> bool {
    if has_digit(word) || has_digit(known) {
        return false;
    }
    match (word, known) {
        ([_], []) => agreed > 1,
        ([], [_]) => agreed > 1,
        ([_], [_]) => agreed > 1,
        ([first, second], [third, fourth]) => {
            first.to_ascii_lowercase() == fourth.to_ascii_lowercase()
                && second.to_ascii_lowercase() == third.to_ascii_lowercase()
        }
        _ => false,
    }
}

fn has_digit(bytes: &[u8]) -> bool {
    bytes.iter().any(|byte| byte.is_ascii_digit())
}

// How many bytes the two begin with alike, but for case.
fn common_front(word: &[u8], known: &[u8]) -> usize {
    let most = word.len().min(known.len());
    for index in 0..most {
        if word[index].to_ascii_lowercase() != known[index].to_ascii_lowercase() {
            return index;
        }
    }
    most
}

// How many bytes the two end with alike.
fn common_back(word: &[u8], known: &[u8]) -> usize {
    let most = word.len().min(known.len());
    for count in 0..most {
        let (last, other) = (word[word.len() - 1 - count], known[known.len() - 1 - count]);
        if last.to_ascii_lowercase() != other.to_ascii_lowercase() {
            return count;
        }
    }
    most
}

fn after(bytes: &[u8], count: usize) -> &[u8] {
    &bytes[count.min(bytes.len())..]
}

fn without(bytes: &[u8], count: usize) -> &[u8] {
    &bytes[..bytes.len().saturating_sub(count)]
}
