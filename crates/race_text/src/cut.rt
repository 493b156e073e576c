//! A text is cut into lines, and a line into words.
ghost use Rattle.std.specs.Prelude.{◌≡◌, ◌==◌, ◌≤◌, ◌∷◌, length, take, true, false, MatchOption};
ghost use Rattle.std.specs.List.{slice_split, list_all};
ghost use Rattle.race_records.specs.Name.{is_place_byte};
ghost use Rattle.race_text.specs.Form.{first_word};
ghost use Rattle.race_text.specs.Words as spec;

use crate::lanes::{first_index, first_unseen};

/// What stands before the first such byte, and what stands behind it where there is one.
pub fn cut_at(bytes: &[u8], byte: u8) -> (&[u8], Option<&[u8]>)
    ensures { slice_split (λ b. b == byte) bytes.now ≡ result.0.now ∷ spec.parts_left byte
        result.1 }
{
    match first_index(bytes, byte) {
        Some(end) => (&bytes[..end], Some(&bytes[end + 1..])),
        None => (bytes, None),
    }
}

/// Whether the line has a byte that no line may have.
pub fn has_bad_byte(line: &[u8]) -> bool
    ensures { result ≡ spec.has_bad_byte line.now }
{
    line.iter().any(|byte| is_bad_byte(*byte))
}

fn is_bad_byte(byte: u8) -> bool
    ensures { result ≡ spec.is_bad_byte byte }
{
    !(b' ' <= byte && byte <= b'~')
}

// How long the first word of a line is, and what is left behind it, in one pass. Nothing where the
// word has a byte that can't be seen.
#[inline(always)]
pub(crate) fn cut_word(bytes: &[u8]) -> Option<(usize, Option<&[u8]>)>
    ensures { MatchOption result
        (list_all is_place_byte (first_word (spec.words_of bytes.now)) ≡ false)
        (λ cut. (cut.0 ≤ length bytes.now)
        × (spec.words_of bytes.now ≡ take cut.0 bytes.now ∷ spec.parts_left 32 cut.1)
        × (list_all is_place_byte (take cut.0 bytes.now) ≡ true)) }
{
    match first_unseen(bytes) {
        None => Some((bytes.len(), None)),
        Some(end) => {
            if bytes[end] == b' ' {
                Some((end, Some(&bytes[end + 1..])))
            } else {
                None
            }
        }
    }
}
