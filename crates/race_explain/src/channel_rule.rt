//! Why an event on a channel breaks its rule, and which case of a select is ready.

use crate::illegal::{put_later, put_since};
use crate::names::{declared_in, name_of, who_at};
use crate::past::{Deed, count_before, first_after, front, last_before, waiting};
use crate::put::{put, put_at, put_number, put_number_in};
use crate::values::{put_either, value_of};
use race_legal::Rule;
use race_records::{Case, Dir, Kind, Named, Op, Trace};
use std::alloc::{AllocError, Allocator};

/// Why a send, a receive, a meet or a close breaks the rule.
pub(crate) fn put_channel_rule<A: Allocator, B: Allocator>(
    out: &mut Vec<u8, A>,
    trace: &Trace<B>,
    at: u32,
    op: &Op,
    rule: Rule,
) -> Result<(), AllocError> {
    let Some((what, chan)) = on_channel(op) else {
        return Ok(());
    };
    put(out, &[what])?;
    put(out, &[name_of(trace, Named::Chan(chan))])?;
    match rule {
        Rule::WrongForm => put_wrong_form(out, trace, at, op, chan),
        Rule::SendOnClosed | Rule::CloseOfClosed => {
            put(out, &[", which is closed"])?;
            put_since(out, trace, at, Deed::Closes(chan), " closed it")
        }
        Rule::BufferFull => put_full(out, trace, at, chan),
        Rule::BufferEmpty => put_empty(out, trace, at, op, chan),
        Rule::WrongValue => put_wrong_value(out, trace, at, op, chan),
        Rule::NotClosed => put_not_closed(out, trace, at, chan),
        Rule::NotDrained => put_not_drained(out, trace, at, chan),
        _ => Ok(()),
    }
}

// A send to a full buffer.
fn put_full<A: Allocator, B: Allocator>(
    out: &mut Vec<u8, A>,
    trace: &Trace<B>,
    at: u32,
    chan: u32,
) -> Result<(), AllocError> {
    put_capacity(out, trace, chan)?;
    put_waiting(out, trace, at, chan, ", and in whose buffer ")?;
    put_missing_receive(out, trace, at, chan)?;
    put(out, &[", or the capacity is too small"])
}

// A recvclosed from an open channel.
fn put_not_closed<A: Allocator, B: Allocator>(
    out: &mut Vec<u8, A>,
    trace: &Trace<B>,
    at: u32,
    chan: u32,
) -> Result<(), AllocError> {
    put(
        out,
        &[", which is open: no event before this one closes it"],
    )?;
    put_later(
        out,
        trace,
        at,
        Deed::Closes(chan),
        " does",
        "; a close may be missing",
    )
}

// A recvclosed from a channel in whose buffer a value waits.
fn put_not_drained<A: Allocator, B: Allocator>(
    out: &mut Vec<u8, A>,
    trace: &Trace<B>,
    at: u32,
    chan: u32,
) -> Result<(), AllocError> {
    put_waiting(out, trace, at, chan, ", in whose buffer ")?;
    put_front(out, trace, at, chan)?;
    put_missing_receive(out, trace, at, chan)
}

// What the operation does on which channel.
fn on_channel(op: &Op) -> Option<(&'static str, u32)> {
    match op {
        Op::Send(chan, _) => Some(("send on ", *chan)),
        Op::Recv(chan, _) => Some(("recv from ", *chan)),
        Op::Meet(_, chan, _) => Some(("meet on ", *chan)),
        Op::RecvClosed(chan) => Some(("recvclosed from ", *chan)),
        Op::Close(chan) => Some(("close of ", *chan)),
        _ => None,
    }
}

fn capacity<A: Allocator>(trace: &Trace<A>, chan: u32) -> u64 {
    if chan < trace.decls().count(Kind::Chan) {
        u64::from(trace.decls().capacity(chan))
    } else {
        0
    }
}

// Which line declares the channel, and with which capacity.
fn put_capacity<A: Allocator, B: Allocator>(
    out: &mut Vec<u8, A>,
    trace: &Trace<B>,
    chan: u32,
) -> Result<(), AllocError> {
    match declared_in(trace.decls(), Named::Chan(chan)) {
        Some((_, line)) => {
            put_number_in(out, ", which line ", line, " declares with capacity ")?;
            put_number(out, capacity(trace, chan))
        }
        None => Ok(()),
    }
}

// How many values wait in the channel's buffer.
fn put_waiting<A: Allocator, B: Allocator>(
    out: &mut Vec<u8, A>,
    trace: &Trace<B>,
    at: u32,
    chan: u32,
    before: &str,
) -> Result<(), AllocError> {
    put(out, &[before])?;
    match waiting(trace, at, chan) {
        0 => put(out, &["no value waits"]),
        1 => put(out, &["1 value waits"]),
        count => put_number_in(out, "", u64::from(count), " values wait"),
    }
}

fn put_wrong_form<A: Allocator, B: Allocator>(
    out: &mut Vec<u8, A>,
    trace: &Trace<B>,
    at: u32,
    op: &Op,
    chan: u32,
) -> Result<(), AllocError> {
    put_capacity(out, trace, chan)?;
    put(
        out,
        &[if capacity(trace, chan) == 0 {
            ": without a buffer a send and its receive are one event, a meet"
        } else {
            ": with a buffer a send and its receive are two events, and there are no meets"
        }],
    )?;
    match (op, last_before(trace, at, Deed::Closes(chan))) {
        (Op::Recv(_, 0), Some(close)) => put_closed(out, trace, close),
        _ => Ok(()),
    }
}

// By which event the channel of a receive was closed.
fn put_closed<A: Allocator, B: Allocator>(
    out: &mut Vec<u8, A>,
    trace: &Trace<B>,
    close: u32,
) -> Result<(), AllocError> {
    put_at(
        out,
        trace,
        "; ",
        close,
        " closed it, so this may be a recvclosed",
    )
}

// Which event receives only later, and that a receive of the value that waits longest may be missing.
fn put_missing_receive<A: Allocator, B: Allocator>(
    out: &mut Vec<u8, A>,
    trace: &Trace<B>,
    at: u32,
    chan: u32,
) -> Result<(), AllocError> {
    let receives = Deed::Receives(chan);
    match front(trace, at, chan) {
        Some(send) => {
            put_late(out, trace, at, receives, " receives")?;
            put_number_in(
                out,
                "a recv of ",
                value_of(trace, send),
                " may be missing before it",
            )
        }
        None => Ok(()),
    }
}

// Which event sends only later the value that the receive finds, and that a send of it may be missing.
fn put_missing_send<A: Allocator, B: Allocator>(
    out: &mut Vec<u8, A>,
    trace: &Trace<B>,
    at: u32,
    chan: u32,
) -> Result<(), AllocError> {
    let value = value_of(trace, at);
    let sends = Deed::SendsValue(chan, value);
    put_late(out, trace, at, sends, " sends this value")?;
    put_number_in(out, "a send of ", value, " may be missing before it")
}

// Which event does only later what is missing, where one does, before what else may be.
fn put_late<A: Allocator, B: Allocator>(
    out: &mut Vec<u8, A>,
    trace: &Trace<B>,
    at: u32,
    deed: Deed,
    what: &str,
) -> Result<(), AllocError> {
    put_later(out, trace, at, deed, what, "")?;
    let is_late = first_after(trace, at, deed).is_some();
    put(out, &[if is_late { ", or " } else { "; " }])
}

fn put_empty<A: Allocator, B: Allocator>(
    out: &mut Vec<u8, A>,
    trace: &Trace<B>,
    at: u32,
    op: &Op,
    chan: u32,
) -> Result<(), AllocError> {
    let sent = count_before(trace, at, Deed::Sends(chan));
    put_number_in(
        out,
        ", in whose buffer no value waits: ",
        u64::from(sent),
        " sent before, ",
    )?;
    let received = count_before(trace, at, Deed::Receives(chan));
    put_number_in(out, "", u64::from(received), " received")?;
    match (op, last_before(trace, at, Deed::Closes(chan))) {
        (Op::Recv(_, 0), Some(close)) => put_closed(out, trace, close),
        _ => put_missing_send(out, trace, at, chan),
    }
}

fn put_wrong_value<A: Allocator, B: Allocator>(
    out: &mut Vec<u8, A>,
    trace: &Trace<B>,
    at: u32,
    op: &Op,
    chan: u32,
) -> Result<(), AllocError> {
    let Op::Recv(_, value) = op else {
        return Ok(());
    };
    put_number_in(out, " finds ", *value, "")?;
    put_front(out, trace, at, chan)?;
    let Some(send) = front(trace, at, chan) else {
        return Ok(());
    };
    if last_before(trace, at, Deed::SendsValue(chan, *value)).is_none() {
        put_missing_send(out, trace, at, chan)?;
    } else {
        let first = value_of(trace, send);
        let receives = Deed::ReceivesValue(chan, first);
        put_late(out, trace, at, receives, " receives it")?;
        put_number_in(out, "a recv of ", first, " may be missing before it")?;
    }
    put_either(out, trace, send, at)
}

// Which value waits longest, and who sent it.
fn put_front<A: Allocator, B: Allocator>(
    out: &mut Vec<u8, A>,
    trace: &Trace<B>,
    at: u32,
    chan: u32,
) -> Result<(), AllocError> {
    match front(trace, at, chan) {
        Some(send) => {
            put_number_in(
                out,
                "; the value that waits longest is ",
                value_of(trace, send),
                ", which ",
            )?;
            put(out, &[who_at(trace, send)])?;
            put_at(out, trace, " sent in ", send, "")
        }
        None => Ok(()),
    }
}

/// Why a default can't have been taken: which case is ready.
pub(crate) fn put_ready<A: Allocator, B: Allocator>(
    out: &mut Vec<u8, A>,
    trace: &Trace<B>,
    at: u32,
    op: &Op,
) -> Result<(), AllocError> {
    let Op::Default(cases) = op else {
        return Ok(());
    };
    for k in 0..cases.len() {
        let case = cases.get(k);
        if is_ready(trace, at, case) {
            return put_ready_case(out, trace, at, case);
        }
    }
    Ok(())
}

fn is_ready<A: Allocator>(trace: &Trace<A>, at: u32, case: Case) -> bool {
    let Some(chan) = case.chan else {
        return false;
    };
    let waiting = u64::from(waiting(trace, at, chan));
    let is_closed = last_before(trace, at, Deed::Closes(chan)).is_some();
    match case.dir {
        Dir::Send => is_closed || waiting < capacity(trace, chan),
        Dir::Recv => is_closed || waiting > 0,
    }
}

fn put_ready_case<A: Allocator, B: Allocator>(
    out: &mut Vec<u8, A>,
    trace: &Trace<B>,
    at: u32,
    case: Case,
) -> Result<(), AllocError> {
    let Some(chan) = case.chan else {
        return Ok(());
    };
    let front = match case.dir {
        Dir::Send => "the case send:",
        Dir::Recv => "the case recv:",
    };
    put(out, &[front])?;
    put(
        out,
        &[
            name_of(trace, Named::Chan(chan)),
            " is ready, so no default is taken: ",
        ],
    )?;
    let close = last_before(trace, at, Deed::Closes(chan));
    match (close, case.dir) {
        (Some(close), _) => put_at(out, trace, "", close, " closed the channel")?,
        (None, Dir::Send) => put_room(out, trace, at, chan)?,
        (None, Dir::Recv) => {
            put_waiting(out, trace, at, chan, "in its buffer ")?;
            put_front(out, trace, at, chan)?;
            put_missing_receive(out, trace, at, chan)?;
        }
    }
    put(
        out,
        &[
            "; if the select did it, write ",
            word_of(case.dir, close.is_some()),
        ],
    )
}

// How a case is written that was done.
fn word_of(dir: Dir, is_closed: bool) -> &'static str {
    match (dir, is_closed) {
        (Dir::Send, false) => "send",
        (Dir::Recv, false) => "recv",
        (Dir::Send, true) => "fault",
        (Dir::Recv, true) => "recvclosed",
    }
}

// That a buffer has room.
fn put_room<A: Allocator, B: Allocator>(
    out: &mut Vec<u8, A>,
    trace: &Trace<B>,
    at: u32,
    chan: u32,
) -> Result<(), AllocError> {
    put(
        out,
        &["in the buffer of ", name_of(trace, Named::Chan(chan))],
    )?;
    put_capacity(out, trace, chan)?;
    put_waiting(out, trace, at, chan, ", ")?;
    put(
        out,
        &["; a send on it may be missing before, or the capacity is too large"],
    )
}
