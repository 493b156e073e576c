//! The cells of a row, by its strokes: one for each track.
ghost use Rattle.std.specs.{Prelude.{◌≡◌, ◌<◌}, List.find, Option.option_copied};
ghost use Rattle.race_draw.specs.Strokes as spec;

use crate::picture::{MAX_COLUMNS, STRESS, Style, TRACKS};
use crate::strokes::Stroke;
use race_records::Op;

/// An event's mark.
pub(crate) fn mark_of(op: &Op) -> u8
    ensures value { result ≡ spec.mark_of op.now }
    ensures small { result < STRESS }
{
    match op {
        Op::Read(_, _) => b'R',
        Op::Write(_, _) => b'W',
        _ => b'o',
    }
}

// What a byte of a strand looks like.
fn in_style(style: Style, byte: u8) -> u8
    requires { byte < STRESS }
    ensures { result ≡ spec.in_style style byte }
{
    match style {
        Style::Missing => {
            if byte == b'-' || byte == b'+' || byte == b'|' {
                b'.' + STRESS
            } else {
                byte + STRESS
            }
        }
        Style::Way => if byte == b'-' { b'=' } else { byte },
        Style::Plain => byte,
    }
}

// The first stroke over the gap left of the track.
fn first_over(strokes: &[Stroke], track: usize) -> Option<&Stroke>
    ensures { option_copied result ≡ find (spec.covers track) strokes.now }
{
    strokes
        .iter()
        .find(|stroke| stroke.low < track && track <= stroke.high)
}

// What stands in the gap.
fn gap(strokes: &[Stroke], track: usize) -> u8
    ensures { result ≡ spec.gap strokes.now track }
{
    match first_over(strokes, track) {
        Some(stroke) => in_style(stroke.style, b'-'),
        None => b' ',
    }
}

// Whether the stroke points at the track.
fn is_tip(track: usize, stroke: &Stroke) -> bool
    ensures { result ≡ spec.is_tip track stroke.now }
{
    match stroke.tip {
        Some(tip) => tip == track,
        None => false,
    }
}

// The first that does from the left.
fn first_right(strokes: &[Stroke], track: usize) -> Option<&Stroke>
    ensures { option_copied result ≡ find (spec.points_right track) strokes.now }
{
    strokes
        .iter()
        .find(|stroke| is_tip(track, stroke) && stroke.low < track)
}

// The first that does from the right.
fn first_left(strokes: &[Stroke], track: usize) -> Option<&Stroke>
    ensures { option_copied result ≡ find (spec.points_left track) strokes.now }
{
    strokes
        .iter()
        .find(|stroke| is_tip(track, stroke) && track < stroke.high)
}

// The first that ends in the track.
fn first_end(strokes: &[Stroke], track: usize) -> Option<&Stroke>
    ensures { option_copied result ≡ find (spec.ends_in track) strokes.now }
{
    strokes
        .iter()
        .find(|stroke| stroke.low == track || stroke.high == track)
}

// What stands left of the track's middle.
fn left_of(strokes: &[Stroke], track: usize) -> u8
    ensures { result ≡ spec.left_of strokes.now track }
{
    match first_right(strokes, track) {
        Some(stroke) => in_style(stroke.style, b'>'),
        None => gap(strokes, track),
    }
}

// What stands right of it.
fn right_of(strokes: &[Stroke], track: usize) -> u8
    requires { track < TRACKS }
    ensures { result ≡ spec.right_of strokes.now track }
{
    match first_left(strokes, track) {
        Some(stroke) => in_style(stroke.style, b'<'),
        None => gap(strokes, track + 1),
    }
}

// What stands there where a stroke ends.
fn end_of(mark: u8, track: usize, stroke: &Stroke) -> u8
    requires { mark < STRESS }
    ensures value { result ≡ spec.end_of mark track stroke.now }
    ensures small { result < STRESS }
{
    if track < MAX_COLUMNS {
        mark
    } else if stroke.low == stroke.high {
        b'|'
    } else {
        b'+'
    }
}

// What stands there where none does.
fn line_in(strokes: &[Stroke], track: usize) -> u8
    requires { track < TRACKS }
    ensures { result ≡ spec.line_in strokes.now track }
{
    if track < MAX_COLUMNS {
        b'|'
    } else {
        gap(strokes, track + 1)
    }
}

// What stands there.
fn middle_of(strokes: &[Stroke], mark: u8, track: usize) -> u8
    requires mark { mark < STRESS }
    requires track { track < TRACKS }
    ensures { result ≡ spec.middle_of strokes.now mark track }
{
    match first_end(strokes, track) {
        Some(stroke) => in_style(stroke.style, end_of(mark, track, stroke)),
        None => line_in(strokes, track),
    }
}

/// What a row has in a track, with the event's mark.
pub(crate) fn cell(strokes: &[Stroke], mark: u8, track: usize) -> [u8; 4]
    requires mark { mark < STRESS }
    requires track { track < TRACKS }
    ensures { result ≡ spec.cell strokes.now mark track }
{
    [
        left_of(strokes, track),
        middle_of(strokes, mark, track),
        right_of(strokes, track),
        gap(strokes, track + 1),
    ]
}
