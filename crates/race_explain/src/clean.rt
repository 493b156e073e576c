//! What a clean trace has, and what no rule can see of it.

use crate::holding::put_held_at_end;
use crate::names::{name_of, numbered};
use crate::past::{Deed, last_before};
use crate::put::{put, put_at, put_number_in};
use race_records::{Kind, Named, Op, Operand, Trace, failed_at, says};
use std::alloc::{AllocError, Allocator};

/// How many names are listed of a kind at most.
const LISTED: u32 = 8;

// What is declared: how it is counted, and what is said of what isn't used.
const KINDS: [(Kind, &str, &str); 5] = [
    (
        Kind::Goroutine,
        "goroutines ",
        "goroutines that no event starts: ",
    ),
    (Kind::Var, ", variables ", "variables that no event names: "),
    (Kind::Chan, ", channels ", "channels that no event names: "),
    (Kind::Lock, ", locks ", "locks that no event names: "),
    (Kind::Once, ", onces ", "onces that no event names: "),
];

/// Puts how many of what is declared is used, what isn't, which locks are held at the end, and whether the run ended.
pub(crate) fn put_seen<A: Allocator + Copy, B: Allocator>(
    out: &mut Vec<u8, A>,
    trace: &Trace<B>,
) -> Result<(), AllocError> {
    let alloc = *out.allocator();
    let mut unused = Vec::new(alloc);
    put(out, &["used of what is declared: "])?;
    for (kind, counted, what) in &KINDS {
        let used = used(alloc, trace, *kind)?;
        put_count(out, counted, used.as_slice())?;
        put_unused(&mut unused, trace, what, *kind, used.as_slice())?;
    }
    put(out, &["\n"])?;
    out.extend_from_slice(unused.as_slice())?;
    put_held_at_end(out, trace)?;
    put_end(out, trace)
}

// Of each object of the kind whether an event names it; main runs from the start.
fn used<A: Allocator + Copy, B: Allocator>(
    alloc: A,
    trace: &Trace<B>,
    kind: Kind,
) -> Result<Vec<bool, A>, AllocError> {
    let mut used = vec![in alloc; false; trace.decls().count(kind) as usize]?;
    if kind == Kind::Goroutine {
        note(used.as_mut_slice(), 0);
    }
    for event in trace.events() {
        note_op(used.as_mut_slice(), kind, &event.op);
    }
    Ok(used)
}

/// Notes the object of this number.
pub(crate) fn note(used: &mut [bool], number: u32) {
    let index = number as usize;
    if index < used.len() {
        used[index] = true;
    }
}

// Notes what the operation names.
fn note_op(used: &mut [bool], kind: Kind, op: &Op) {
    if let Op::Default(cases) = op {
        for k in 0..cases.len() {
            if let Some(chan) = cases.get(k).chan {
                note_named(used, kind, Named::Chan(chan));
            }
        }
        return;
    }
    if let Op::Fault(cause) = op {
        if let Some(named) = failed_at(*cause) {
            note_named(used, kind, named);
        }
        return;
    }
    let (_, operands) = says(op);
    for operand in operands.as_slice() {
        if let Operand::Object(named) = operand {
            note_named(used, kind, *named);
        }
    }
}

fn note_named(used: &mut [bool], kind: Kind, named: Named) {
    if named.is_of(kind) {
        note(used, named.number());
    }
}

// How many are used, and of how many.
fn put_count<A: Allocator>(
    out: &mut Vec<u8, A>,
    what: &str,
    used: &[bool],
) -> Result<(), AllocError> {
    let mut count = 0u64;
    for is_used in used {
        if *is_used {
            count = count.saturating_add(1);
        }
    }
    put_number_in(out, what, count, " of ")?;
    put_number_in(out, "", used.len() as u64, "")
}

// The names of those that aren't used, of many the first.
fn put_unused<A: Allocator, B: Allocator>(
    out: &mut Vec<u8, A>,
    trace: &Trace<B>,
    what: &str,
    kind: Kind,
    used: &[bool],
) -> Result<(), AllocError> {
    let mut count = 0u32;
    let mut number = 0u32;
    for is_used in used {
        if !*is_used {
            if count < LISTED {
                put(out, &[if count == 0 { what } else { ", " }])?;
                put(out, &[name_of(trace, numbered(kind, number))])?;
            }
            count = count.saturating_add(1);
        }
        number = number.saturating_add(1);
    }
    if count > LISTED {
        put_number_in(out, " and ", u64::from(count - LISTED), " more")?;
    }
    put(out, &[if count == 0 { "" } else { "\n" }])
}

// Whether an event ends the run. Else nothing says that the trace is whole.
fn put_end<A: Allocator, B: Allocator>(
    out: &mut Vec<u8, A>,
    trace: &Trace<B>,
) -> Result<(), AllocError> {
    match last_before(trace, u32::MAX, Deed::EndsRun) {
        Some(end) => put_at(
            out,
            trace,
            "",
            end,
            " ends the run, so no event of it can be missing after that one\n",
        ),
        None => put(
            out,
            &[
                "no event ends the run, so nothing says that the trace is whole: one that was cut off between two lines is judged as a shorter run\n",
            ],
        ),
    }
}
