//! A text in lines of at most 100 columns.
ghost use Rattle.std.specs.Prelude.{◌≡◌, ℕ, ◌+◌, ◌<◌, ◌≤◌, ◌^◌, ◌++◌, replicate, position, IfOk, OnOk};
ghost use Rattle.race_draw.specs.Fold as spec;

use std::alloc::{AllocError, Allocator};

/// How many columns a line has at most.
pub(crate) const COLUMNS: usize = 100;

/// How much further right than its text a line goes on.
pub(crate) const HANGING: usize = 2;

// Definitions cite these numbers, so each is written down twice.
const _: () = prove!(COLUMNS == 100 && HANGING == 2);

/// Where in a line a byte stands.
#[derive(Clone, Copy, Debug)]
pub(crate) struct Spot {
    /// Whether the line's text has begun.
    pub in_text: bool,
    /// How far a line is indented that goes on with it.
    pub indent: usize,
    /// How many columns stand before the byte.
    pub column: usize,
}

// The begin of a line.
fn line_start() -> Spot
    ensures { result ≡ spec.line_start }
{
    Spot {
        in_text: false,
        indent: 0,
        column: 0,
    }
}

// Whether a word ends before the byte.
fn ends_word(byte: u8) -> bool
    ensures { result ≡ spec.ends_word byte }
{
    byte == b' ' || byte == b'\n'
}

// Where the word ends with which the text begins.
fn word_end(text: &[u8]) -> Option<usize>
    ensures { result ≡ position spec.ends_word text.now }
{
    text.iter().position(|byte| ends_word(*byte))
}

// How long that word is.
fn word_len(text: &[u8]) -> usize
    ensures { result ≡ spec.word_len text.now }
{
    match word_end(text) {
        Some(end) => end,
        None => text.len(),
    }
}

// Whether the line is folded at the byte, behind which this text stands.
fn folds(spot: Spot, byte: u8, text: &[u8]) -> bool
    ensures { result ≡ spec.folds spot byte text.now }
{
    spot.in_text && byte == b' ' && COLUMNS.saturating_sub(spot.column) <= word_len(text)
}

// Puts so many blanks behind the text.
fn put_blanks<A: Allocator>(text: &mut Vec<u8, A>, count: usize) -> Result<(), AllocError>
    ensures { OnOk result (text.new.items ≡ text.old.items ++ replicate count 32) }
{
    for done in 0..count {
        text.push(b' ')?;
    }
    Ok(())
}

// Puts a new line, indented, behind the text.
fn put_fold<A: Allocator>(text: &mut Vec<u8, A>, indent: usize) -> Result<(), AllocError>
    ensures { OnOk result (text.new.items ≡ text.old.items ++ spec.fold indent) }
{
    text.push(b'\n')?;
    put_blanks(text, indent)
}

// Puts what stands for the byte.
fn put_piece<A: Allocator>(
    text: &mut Vec<u8, A>,
    spot: Spot,
    byte: u8,
    folds: bool,
) -> Result<(), AllocError>
    ensures { OnOk result (text.new.items ≡ text.old.items ++ spec.piece spot byte folds) }
{
    if byte == b'\t' {
        return Ok(());
    }
    if folds {
        return put_fold(text, spot.indent);
    }
    text.push(byte)?;
    Ok(())
}

// Where the next byte stands.
fn next(spot: Spot, byte: u8, folds: bool) -> Spot
    requires { spot.column + HANGING < 2 ^ 64 }
    ensures value { result ≡ spec.next spot byte folds }
    ensures near { (most : ℕ) → spot.column ≤ most → spot.indent ≤ most
        → (result.column ≤ most + HANGING) × (result.indent ≤ most + HANGING) }
{
    if byte == b'\t' {
        return Spot {
            in_text: true,
            indent: spot.column + HANGING,
            column: spot.column,
        };
    }
    if byte == b'\n' {
        return line_start();
    }
    Spot {
        in_text: spot.in_text,
        indent: spot.indent,
        column: if folds { spot.indent } else { spot.column + 1 },
    }
}

/// The text, folded.
pub(crate) fn folded<A: Allocator>(alloc: A, text: &[u8]) -> Result<Vec<u8, A>, AllocError>
    ensures { IfOk result (λ folded. folded.items ≡ spec.folded spec.line_start text.now) }
{
    let mut folded = Vec::with_capacity(alloc, text.len())?;
    let mut spot = line_start();
    for (index, byte) in text.iter().enumerate() {
        let is_fold = folds(spot, *byte, &text[index + 1..]);
        put_piece(&mut folded, spot, *byte, is_fold)?;
        spot = next(spot, *byte, is_fold);
    }
    Ok(folded)
}
