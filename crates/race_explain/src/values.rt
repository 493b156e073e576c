//! Values that a read or a receive can't have found.

use crate::names::{event_at, goroutine, line_of, name_of, who_at};
use crate::past::{Deed, does, first_after, last_before};
use crate::put::{put, put_at, put_number, put_number_in};
use race_records::{Event, Named, Op, Trace};
use std::alloc::{AllocError, Allocator};

/// A read of another value than the variable has.
pub(crate) fn put_stale_read<A: Allocator, B: Allocator>(
    out: &mut Vec<u8, A>,
    trace: &Trace<B>,
    at: u32,
    event: &Event,
) -> Result<(), AllocError> {
    let Op::Read(var, value) = event.op else {
        return Ok(());
    };
    let name = name_of(trace, Named::Var(var));
    put(
        out,
        &["read of ", name, " by ", goroutine(trace, event.who)],
    )?;
    put_number_in(out, " finds ", value, "; ")?;
    let write = last_before(trace, at, Deed::Writes(var));
    match write {
        Some(write) => {
            put_at(out, trace, "the last write before it is ", write, ", by ")?;
            put(out, &[who_at(trace, write), ", which wrote "])?;
            put_number(out, value_of(trace, write))?;
        }
        None => put(
            out,
            &[
                "no event before it writes ",
                name,
                ", whose first value is 0",
            ],
        )?,
    }
    put_origin(out, trace, at, var, write)?;
    match write {
        Some(write) => put_either(out, trace, write, at),
        None => put(out, &[", or the value is wrong"]),
    }
}

// Where the value may come from: a write that stands too early or too late, or one that is missing after the last one.
fn put_origin<A: Allocator, B: Allocator>(
    out: &mut Vec<u8, A>,
    trace: &Trace<B>,
    at: u32,
    var: u32,
    write: Option<u32>,
) -> Result<(), AllocError> {
    let value = value_of(trace, at);
    let order = ": the two lines may stand in the wrong order";
    if let Some(next) = overwritten(trace, at, var) {
        if write == Some(next) {
            put(out, &["; before that write "])?;
        } else {
            put_at(out, trace, "; before ", next, " ")?;
        }
        put(out, &[name_of(trace, Named::Var(var))])?;
        return put_number_in(out, " was ", value, order);
    }
    match first_after(trace, at, Deed::WritesValue(var, value)) {
        Some(later) => {
            put_at(out, trace, "; ", later, ", by ")?;
            put(
                out,
                &[
                    who_at(trace, later),
                    ", writes this value, but comes later",
                    order,
                ],
            )
        }
        None => {
            let missing = if write.is_some() {
                " may be missing in between"
            } else {
                " may be missing before it"
            };
            put_number_in(out, "; a write of ", value, missing)
        }
    }
}

// The last write that put another value in place of the one that is read, where another goroutine did.
fn overwritten<A: Allocator>(trace: &Trace<A>, before: u32, var: u32) -> Option<u32> {
    let wanted = value_of(trace, before);
    let mut found = None;
    let mut value = 0u64;
    let mut at = 0;
    for event in trace.events() {
        if at < before && does(event, Deed::Writes(var)) {
            if value == wanted && value_of(trace, at) != wanted {
                found = Some(at);
            }
            value = value_of(trace, at);
        }
        at = at.saturating_add(1u32);
    }
    if found.is_some_and(|write| who_at(trace, write) == who_at(trace, before)) {
        None
    } else {
        found
    }
}

/// Puts that one of two values may be wrong, which should be the same, and which lines have them.
pub(crate) fn put_either<A: Allocator, B: Allocator>(
    out: &mut Vec<u8, A>,
    trace: &Trace<B>,
    given: u32,
    found: u32,
) -> Result<(), AllocError> {
    put(out, &[", or a value is wrong: "])?;
    put_number_in(out, "", value_of(trace, given), " in line ")?;
    put_number_in(out, "", line_of(trace, given), " or ")?;
    put_number_in(out, "", value_of(trace, found), " in line ")?;
    put_number(out, line_of(trace, found))
}

/// The value of an access, a send or a receive.
pub(crate) fn value_of<A: Allocator>(trace: &Trace<A>, at: u32) -> u64 {
    match event_at(trace, at) {
        Some(event) => match event.op {
            Op::Read(_, value) => value,
            Op::Write(_, value) => value,
            Op::Send(_, value) => value,
            Op::Recv(_, value) => value,
            _ => 0,
        },
        None => 0,
    }
}
