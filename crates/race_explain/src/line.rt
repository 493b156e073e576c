//! A line of a text, and a column of it, as both are shown.
ghost use Rattle.std.specs.Prelude.{◌≡◌, ◌≤◌, ◌++◌, length, map, min, replicate, option_map, OnOk};
ghost use Rattle.race_explain.specs.Marked.{line_at, visible, shown_from, marked_line};

use race_text::cut_at;
use std::alloc::{AllocError, Allocator};

/// How many bytes of a line are shown at most.
const SHOWN: usize = 200;

/// How many of them come before the marked column at most.
const SHOWN_BEFORE: usize = 120;

// Definitions cite these numbers, so each is written down twice.
const _: () = prove!(SHOWN == 200 && SHOWN_BEFORE == 120);

/// A line of a text, what comes before it, and what follows it.
#[derive(Clone, Copy)]
pub(crate) struct Cut<'a> {
    pub(crate) before: &'a [u8],
    pub(crate) line: &'a [u8],
    pub(crate) after: Option<&'a [u8]>,
}

/// Cuts the line of this number, counted from 1, out of the text.
pub(crate) fn cut_out(bytes: &[u8], number: u64) -> Option<Cut<'_>>
    ensures { option_map (λ cut. cut.line.now) result ≡ line_at bytes.now number }
{
    let mut left = bytes;
    for _ in 0..number.saturating_sub(1) {
        let Some(rest) = cut_at(left, b'\n').1 else {
            return None;
        };
        left = rest;
    }
    let before = bytes.len().saturating_sub(left.len());
    let (line, after) = cut_at(left, b'\n');
    Some(Cut {
        before: &bytes[..before],
        line,
        after,
    })
}

/// Puts the bytes as they can be shown: each that a line may have as it is, another as a question mark.
pub(crate) fn put_visible<A: Allocator>(
    out: &mut Vec<u8, A>,
    bytes: &[u8],
) -> Result<(), AllocError>
    ensures { OnOk result (out.new.items ≡ out.old.items ++ map visible bytes.now) }
{
    for byte in bytes {
        let shown = if b' ' <= *byte && *byte <= b'~' {
            *byte
        } else {
            b'?'
        };
        out.push(shown)?;
    }
    Ok(())
}

// The part of the line that is shown.
fn window(line: &[u8], from: usize) -> &[u8]
    requires { from ≤ length line.now }
    ensures { result.now ≡ shown_from from line.now }
{
    let rest = &line[from..];
    &rest[..SHOWN.min(rest.len())]
}

/// Puts the line in quotes, of a long one a part, and below it a mark at the column, or at the line's end.
#[tactic(auto, unfolding(crate::specs::Marked::marked_line))]
pub(crate) fn put_line<A: Allocator>(
    out: &mut Vec<u8, A>,
    line: &[u8],
    column: usize,
) -> Result<(), AllocError>
    ensures { OnOk result (out.new.items ≡ out.old.items ++ marked_line line.now (min column (length line.now))) }
{
    let column = column.min(line.len());
    let from = column.saturating_sub(SHOWN_BEFORE);
    out.extend_from_slice(b"  \"")?;
    put_visible(out, window(line, from))?;
    out.extend_from_slice(b"\"\n   ")?;
    put_blanks(out, column - from)?;
    out.extend_from_slice(b"^\n")
}

fn put_blanks<A: Allocator>(out: &mut Vec<u8, A>, count: usize) -> Result<(), AllocError>
    ensures { OnOk result (out.new.items ≡ out.old.items ++ replicate count 32) }
{
    for _ in 0..count {
        out.push(b' ')?;
    }
    Ok(())
}

/// Puts a word in quotes, of a long one a prefix.
pub(crate) fn put_quoted<A: Allocator>(
    out: &mut Vec<u8, A>,
    word: &[u8],
) -> Result<(), AllocError> {
    out.extend_from_slice(b"\"")?;
    put_visible(out, window(word, 0))?;
    if SHOWN < word.len() {
        out.extend_from_slice(b"..")?;
    }
    out.extend_from_slice(b"\"")
}
