//! The words of a line.
ghost use Rattle.std.specs.Prelude.{◌≡◌};
ghost use Rattle.race_text.specs.Words.{words_of};

use crate::cut::cut_at;
use std::marker::Model;

/// The words of a line, one after another. Two spaces have an empty word between them.
#[derive(Drop)]
pub struct Words<'a> {
    rest: Option<&'a [u8]>,
}

impl<'a> Model for Words<'a> {
    ghost use Rattle.std.specs.Prelude.{ℕ, List};

    ghost Value = { List (List ℕ) };

    ghost use Rattle.race_text.specs.Words.{parts_left};

    ghost view = { λ words. parts_left 32 words.rest };
}

impl<'a> Iterator for Words<'a> {
    type Item = &'a [u8];

    ghost use Rattle.std.specs.Iterator.{YieldsFirstBy, item_count};

    ghost next_gives = { YieldsFirstBy (λ word. word.now) (λ words. words) };

    ghost remaining = { item_count (λ words. words) };

    fn next(&mut self) -> Option<&'a [u8]> {
        let (word, rest) = cut_at(self.rest?, b' ');
        self.rest = rest;
        Some(word)
    }
}

/// The words of a line: it is cut at every space, so two spaces have an empty word between them.
pub fn split_words(line: &[u8]) -> Words<'_>
    ensures { result ≡ words_of line.now }
{
    Words { rest: Some(line) }
}
