//! Words and numbers, put after a text in memory.
ghost use Rattle.std.specs.Prelude.{◌≡◌, ◌++◌, decimal, OnOk};

use crate::names::line_of;
use itoa::Buffer;
use race_records::Trace;
use std::alloc::{AllocError, Allocator};

/// Puts the words, as they are.
pub(crate) fn put<A: Allocator>(out: &mut Vec<u8, A>, words: &[&str]) -> Result<(), AllocError> {
    for word in words {
        out.extend_from_slice(word.as_bytes())?;
    }
    Ok(())
}

/// Puts a number.
pub(crate) fn put_number<A: Allocator>(out: &mut Vec<u8, A>, number: u64) -> Result<(), AllocError>
    ensures { OnOk result (out.new.items ≡ out.old.items ++ decimal number) }
{
    out.extend_from_slice(Buffer::new().format(number).as_bytes())
}

/// Puts a number between these words.
pub(crate) fn put_number_in<A: Allocator>(
    out: &mut Vec<u8, A>,
    before: &str,
    number: u64,
    after: &str,
) -> Result<(), AllocError> {
    out.extend_from_slice(before.as_bytes())?;
    put_number(out, number)?;
    out.extend_from_slice(after.as_bytes())
}

/// Puts which event is at the index, and its line, between these words.
pub(crate) fn put_at<A: Allocator, B: Allocator>(
    out: &mut Vec<u8, A>,
    trace: &Trace<B>,
    before: &str,
    at: u32,
    after: &str,
) -> Result<(), AllocError> {
    put(out, &[before, "event "])?;
    put_number(out, u64::from(at) + 1)?;
    put_number_in(out, " (line ", line_of(trace, at), ")")?;
    put(out, &[after])
}
