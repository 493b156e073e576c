//! Numbers of the command line.
ghost use Rattle.std.specs.Prelude.{◌≡◌, ◌≤◌, IfSome};
ghost use Rattle.race_command.specs.Number as spec;

use race_text::read_number;
use std::alloc::{AllocError, Global};

/// The number that a word is, where it lies in its limits.
pub(crate) fn number_in(word: &str, least: u64, most: u64) -> Option<u64>
    ensures value { result ≡ spec.number_in least most word.now }
    ensures in_limits { IfSome result (λ n. (least ≤ n) × (n ≤ most)) }
{
    let number = read_number(word.as_bytes(), most)?;
    if number < least { None } else { Some(number) }
}

/// The numbers that a word lists, with commas between them, where each is one.
pub(crate) fn picks_in(alloc: Global, word: &str) -> Result<Option<Vec<u64>>, AllocError> {
    let mut picks = Vec::new(alloc);
    for part in word.split(',') {
        let Some(pick) = read_number(part.as_bytes(), u64::MAX) else {
            return Ok(None);
        };
        picks.push(pick)?;
    }
    Ok(Some(picks))
}
