//! The words of a drawing that come from the trace, and its numbers.
ghost use Rattle.std.specs.Prelude.{◌≡◌, ◌+◌, ◌<◌, ◌++◌, length, decimal, OnOk};
ghost use Rattle.race_draw.specs.Words as spec;

use itoa::Buffer;
use race_records::{Named, Op, Trace};
use std::alloc::{AllocError, Allocator};

/// The name of the goroutine whose event stands at the index.
pub(crate) fn name_at<A: Allocator>(trace: &Trace<A>, index: u32) -> &str
    requires { index < length trace.now.events }
    ensures { result.now ≡ spec.name_at trace.now index }
{
    let event = trace.event(index as usize);
    trace.decls().name(Named::Goroutine(event.who))
}

/// What is done in the event at the index.
pub(crate) fn op_at<A: Allocator>(trace: &Trace<A>, index: u32) -> &Op
    requires { index < length trace.now.events }
    ensures { result.now ≡ spec.op_at trace.now.events index }
{
    &trace.event(index as usize).op
}

/// Puts a number.
pub(crate) fn put_decimal<A: Allocator>(out: &mut Vec<u8, A>, number: u64) -> Result<(), AllocError>
    ensures { OnOk result (out.new.items ≡ out.old.items ++ decimal number) }
{
    out.extend_from_slice(Buffer::new().format(number).as_bytes())
}

/// Puts the number of an event, counted from 1, between these words.
pub(crate) fn put_number_in<A: Allocator>(
    out: &mut Vec<u8, A>,
    before: &[u8],
    event: u32,
    behind: &[u8],
) -> Result<(), AllocError>
    ensures { OnOk result (out.new.items ≡ out.old.items ++ spec.number_in before.now event behind.now) }
{
    out.extend_from_slice(before)?;
    put_decimal(out, u64::from(event) + 1)?;
    out.extend_from_slice(behind)
}

/// Puts it behind two spaces, as wide as any number of these rows.
pub(crate) fn put_aligned<A: Allocator>(
    out: &mut Vec<u8, A>,
    rows: &[u32],
    event: u32,
) -> Result<(), AllocError>
    ensures { OnOk result (out.new.items ≡ out.old.items ++ spec.aligned rows.now event) }
{
    let width = digits(rows.last().copied().unwrap_or(0));
    out.extend_from_slice(b"  ")?;
    out.extend_from_slice(blanks(width.saturating_sub(digits(event))))?;
    put_decimal(out, u64::from(event) + 1)
}

// How many digits the number of an event has.
fn digits(event: u32) -> usize
    ensures { result ≡ length (decimal (event + 1)) }
{
    Buffer::new().format(u64::from(event) + 1).len()
}

// As many blanks, up to ten.
fn blanks(count: usize) -> &'static [u8]
    ensures { result.now ≡ spec.blanks count }
{
    let ten = b"          ".as_slice();
    &ten[..count.min(ten.len())]
}
