//! Lines that are read before the ones in front of them are taken, so that several threads can read a text.
//!
//! What a common line says goes by the declarations and by the places that were met. So it may be read as
//! soon as the declarations stand, and taken later. A line that isn't read ahead is left to the reader of
//! lines, as are those at fault.
ghost use Rattle.std.specs.Prelude.{◌≡◌, ◌<◌, ◌≤◌, length, drop, slice_get, true, All, Some, IfSome};
ghost use Rattle.race_records.specs.{Declarations.IsWellFormed, Name.is_place};
ghost use Rattle.race_text.specs.Ahead.{IsAhead, ahead_of};

use crate::common::{Deed, Said, read_common};
use crate::cut::cut_at;
use crate::guesses::{Guesses, mark_of};
use race_records::{Decls, as_text};
use std::alloc::Allocator;
use std::mem;

/// What a line says that was read ahead, and where in the bytes it stands.
#[derive(Clone, Copy)]
pub struct LineAhead {
    /// The goroutine whose event it is.
    pub who: u32,
    /// What it did.
    pub deed: Deed,
    /// The number of its place.
    pub place: u32,
    /// Where the line begins.
    pub start: usize,
    /// Where the next one begins.
    pub end: usize,
}

// Reads those lines that begin in this part of the bytes, are common, and have a place that was met. Where memory is
// refused, the others are left out.
pub(crate) fn read_lines<A: Allocator + Copy>(
    decls: &Decls<A>,
    guesses: &Guesses<A>,
    bytes: &[u8],
    from: usize,
    to: usize,
    lines: &mut Vec<LineAhead, A>,
)
    requires { IsWellFormed decls.now }
    ensures { All (IsAhead decls.now.declarations decls.now.places bytes.now) lines.new.items }
{
    // Lists of several threads stand side by side, and each push writes a length: into the thread's own memory here, not
    // into a cache line that it shares with the others.
    let blank = Vec::new(*lines.allocator());
    let mut own = mem::replace(lines, blank);
    own.clear();
    push_lines(decls, guesses, bytes, from, to, &mut own);
    *lines = own;
}

// Adds these lines to those that were read ahead.
fn push_lines<A: Allocator + Copy>(
    decls: &Decls<A>,
    guesses: &Guesses<A>,
    bytes: &[u8],
    from: usize,
    to: usize,
    lines: &mut Vec<LineAhead, A>,
)
    requires decls { IsWellFormed decls.now }
    requires ahead { All (IsAhead decls.now.declarations decls.now.places bytes.now) lines.old.items }
    ensures { All (IsAhead decls.now.declarations decls.now.places bytes.now) lines.new.items }
{
    let mut at = first_line(bytes, from);
    while at < to && at < bytes.len() {
        let (line, next) = read_at(decls, guesses, bytes, at);
        if let Some(line) = line {
            if lines.push(line).is_err() {
                return;
            }
        }
        at = next;
    }
}

// Where the first line begins that begins at this place or later.
fn first_line(bytes: &[u8], from: usize) -> usize {
    if from == 0 || from > bytes.len() {
        from
    } else {
        next_line(bytes, from - 1)
    }
}

// What the line at this place says, where it is read ahead, and where the next one begins.
#[inline(always)]
fn read_at<A: Allocator + Copy>(
    decls: &Decls<A>,
    guesses: &Guesses<A>,
    bytes: &[u8],
    at: usize,
) -> (Option<LineAhead>, usize)
    requires decls { IsWellFormed decls.now }
    requires within { at < length bytes.now }
    ensures line { IfSome result.0 (IsAhead decls.now.declarations decls.now.places bytes.now) }
    ensures later { at < result.1 }
    ensures within { result.1 ≤ length bytes.now }
{
    let Some((said, rest)) = read_common::<LineAhead, A>(decls, bytes_from(bytes, at)) else {
        return (None, next_line(bytes, at));
    };
    let end = bytes.len() - rest.len();
    let number = number_met(decls, guesses, said.place);
    (line_said(said, number, at, end), end)
}

// What a line says whose place has this number.
#[inline(always)]
fn line_said(said: Said<'_>, number: Option<u32>, start: usize, end: usize) -> Option<LineAhead>
    ensures { IfSome result (λ line. (number ≡ Some line.place) × (line ≡ ahead_of said.entry line.place start end)) }
{
    let place = number?;
    Some(LineAhead {
        who: said.who,
        deed: said.deed,
        place,
        start,
        end,
    })
}

// The number of a place that was met, where it is guessed.
#[inline(always)]
fn number_met<A: Allocator + Copy>(
    decls: &Decls<A>,
    guesses: &Guesses<A>,
    place: &[u8],
) -> Option<u32>
    requires { is_place place.now ≡ true }
    ensures { IfSome result (λ n. slice_get decls.now.places n ≡ Some place.now) }
{
    guesses.number(decls, as_text(place), mark_of(place))
}

// Where the line after the one at this place begins, or the bytes end.
fn next_line(bytes: &[u8], at: usize) -> usize
    requires { at < length bytes.now }
    ensures later { at < result }
    ensures within { result ≤ length bytes.now }
{
    match cut_at(bytes_from(bytes, at), b'\n').1 {
        None => bytes.len(),
        Some(rest) => bytes.len() - rest.len(),
    }
}

// The bytes from this place on.
#[inline(always)]
pub(crate) fn bytes_from(bytes: &[u8], at: usize) -> &[u8]
    requires { at ≤ length bytes.now }
    ensures { result.now ≡ drop at bytes.now }
{
    &bytes[at..]
}
