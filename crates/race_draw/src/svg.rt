//! A text as it is handed out: as it stands, or as an SVG document, of which each line of the text is one of the picture, in light or dark as the
//! reader has it, and what is stressed has a colour.
ghost use Rattle.std.specs.{Prelude.{◌≡◌, ◌++◌, map, IfOk, OnOk}, List.flat_map};
ghost use Rattle.race_draw.specs.Svg as spec;

use crate::fold::folded;
use crate::picture::STRESS;
use crate::words::put_decimal;
use std::alloc::{AllocError, Allocator};
use std::slice;

// How far so many reach that are this far apart, with a margin.
fn extent(count: usize, each: u64, margin: u64) -> u64
    ensures { result ≡ spec.extent count each margin }
{
    (count as u64).saturating_mul(each).saturating_add(margin)
}

// How many lines the text has.
fn lines(text: &[u8]) -> usize
    ensures { result ≡ spec.lines text.now }
{
    text.iter().filter(|byte| **byte == b'\n').count()
}

// How many columns its longest line has.
fn longest(text: &[u8]) -> usize
    ensures { result ≡ spec.longest 0 text.now }
{
    let (mut column, mut most) = (0usize, 0usize);
    for byte in text {
        if *byte == b'\n' {
            most = most.max(column);
            column = 0;
        } else {
            column += 1;
        }
    }
    most.max(column)
}

/// The text in lines of at most 100 columns, as it stands or as a document. The document has no script and refers to nothing.
pub(crate) fn in_form<A: Allocator + Copy>(
    alloc: A,
    text: &[u8],
    svg: bool,
) -> Result<Vec<u8, A>, AllocError>
    ensures { IfOk result (λ formed. formed.items ≡ spec.in_form svg text.now) }
{
    let text = folded(alloc, text)?;
    if svg {
        document(alloc, text.as_slice())
    } else {
        plain(alloc, text.as_slice())
    }
}

// The byte without its stress.
fn unstressed(byte: u8) -> u8
    ensures { result ≡ spec.unstressed byte }
{
    if STRESS <= byte { byte - STRESS } else { byte }
}

// The text without stress.
fn plain<A: Allocator>(alloc: A, text: &[u8]) -> Result<Vec<u8, A>, AllocError>
    ensures { IfOk result (λ plain. plain.items ≡ map spec.unstressed text.now) }
{
    let plain = text.iter().map(|byte| unstressed(*byte)).collect(alloc)?;
    Ok(plain)
}

// The document of a text.
fn document<A: Allocator>(alloc: A, text: &[u8]) -> Result<Vec<u8, A>, AllocError>
    ensures { IfOk result (λ document. document.items ≡ spec.svg_text text.now) }
{
    let mut out = Vec::with_capacity(alloc, text.len())?;
    put_head(
        &mut out,
        extent(longest(text), 9, 32),
        extent(lines(text), 16, 36),
    )?;
    put_bytes(&mut out, text)?;
    out.extend_from_slice(b"</tspan></text>\n</svg>\n")?;
    Ok(out)
}

// Puts all up to the first line.
fn put_head<A: Allocator>(out: &mut Vec<u8, A>, width: u64, height: u64) -> Result<(), AllocError>
    ensures { OnOk result (out.new.items ≡ out.old.items ++ spec.svg_head width height) }
{
    put_pair(out, open(), width, b"' height='", height)?;
    put_pair(out, b"' viewBox='0 0 ", width, b" ", height)?;
    out.extend_from_slice(style())?;
    Ok(())
}

// Puts two numbers behind these words.
fn put_pair<A: Allocator>(
    out: &mut Vec<u8, A>,
    before: &[u8],
    width: u64,
    between: &[u8],
    height: u64,
) -> Result<(), AllocError>
    ensures { OnOk result (out.new.items ≡ out.old.items
        ++ spec.pair before.now width between.now height) }
{
    out.extend_from_slice(before)?;
    put_decimal(out, width)?;
    out.extend_from_slice(between)?;
    put_decimal(out, height)
}

// How the document begins.
#[tactic(auto, unfolding(crate::specs::Svg::svg_open))]
fn open() -> &'static [u8]
    ensures { result.now ≡ spec.svg_open }
{
    b"<svg xmlns='http://www.w3.org/2000/svg' width='"
}

// What the document says of itself, and its colours.
#[tactic(auto, unfolding(crate::specs::Svg::svg_style))]
fn style() -> &'static [u8]
    ensures { result.now ≡ spec.svg_style }
{
    b"' style='color-scheme:light dark'>\n<title>A run of goroutines</title>\n<desc>Each goroutine has a column, and time goes down. \
    Lines between columns are synchronization; dots are an order that is missing.</desc>\n<style>\nrect { fill: #fff }\n\
    text { font: 14px monospace; white-space: pre; fill: #222 }\n.race { fill: #c00; font-weight: bold }\n\
    @media (prefers-color-scheme: dark) { rect { fill: #111 } text { fill: #ddd } .race { fill: #f66 } }\n\
    </style>\n<rect width='100%' height='100%'/>\n<text xml:space='preserve'><tspan x='16' dy='16'>"
}

// Puts each byte as it stands in the document.
fn put_bytes<A: Allocator>(out: &mut Vec<u8, A>, text: &[u8]) -> Result<(), AllocError>
    ensures { OnOk result (out.new.items ≡ out.old.items ++ flat_map spec.in_svg text.now) }
{
    for byte in text {
        put_byte(out, *byte)?;
    }
    Ok(())
}

// Puts a byte, in colour where it is stressed.
fn put_byte<A: Allocator>(out: &mut Vec<u8, A>, byte: u8) -> Result<(), AllocError>
    ensures { OnOk result (out.new.items ≡ out.old.items ++ spec.in_svg byte) }
{
    if byte < STRESS {
        return out.extend_from_slice(escaped(&byte));
    }
    out.extend_from_slice(b"<tspan class='race'>")?;
    out.extend_from_slice(escaped(&unstressed(byte)))?;
    out.extend_from_slice(b"</tspan>")
}

// What stands in the document for a byte that isn't stressed.
#[tactic(auto, unfolding(crate::specs::Svg::escaped))]
fn escaped(byte: &u8) -> &[u8]
    ensures { result.now ≡ spec.escaped byte.now }
{
    match *byte {
        b'\n' => b" </tspan\n><tspan x='16' dy='16'>",
        b'&' => b"&amp;",
        b'<' => b"&lt;",
        b'>' => b"&gt;",
        b'"' => b"&quot;",
        b'\'' => b"&#39;",
        _ => slice::from_ref(byte),
    }
}
