ghost use Rattle.std.specs.Prelude.{◌≡◌, ◌≤◌, ◌<◌, true, length, IsTrue, IfOk, IfSome, All};
ghost use Rattle.race_legal.specs.StandsFor.{StandsFor};
ghost use Rattle.race_requests.specs.Waiting.{is_declared};

use crate::asks::{Plain, ask_of};
use race_hub::{Ask, Choice, Request, Waiter, WaitingList};
use race_legal::Replay;
use race_records::{Cause, Decls, Event, Kind, Op, Trace};
use race_text::parse_trace;
use std::alloc::{AllocError, Global};
use std::test::Fail;

/// Who asks what, and the choices in their order: the request's place in the list, and the partner's plus 1 or 0. Requests
/// stand in the source at the places from 5 on.
struct Row {
    asks: &'static [(u32, Plain)],
    choices: &'static [(u32, u32)],
}

// The request at this place by its one branch, with the partner of this number less 1, or with none.
fn choice(place: u32, partner: u32) -> Choice {
    Choice {
        place,
        offer: 0,
        partner,
        partner_offer: partner.min(1),
    }
}

// The operation of the choice of this number in that row.
fn wanted_op(row: usize, number: usize) -> Op {
    match (row, number) {
        (0, 0) => Op::Meet(0, 0, 7),
        (0, 1) => Op::Meet(2, 0, 7),
        (0, 2) => Op::Meet(0, 0, 8),
        (0, _) => Op::Meet(2, 0, 8),
        (1, 0) => Op::Meet(2, 0, 7),
        (1, _) => Op::Read(0, 0),
        (_, 0) => Op::Fault(Cause::SendClosed(2)),
        _ => Op::RecvClosed(2),
    }
}

// The event of the request at this place, with the partner's place where there is one.
fn is_event(event: Option<Event>, place: u32, partner: u32, op: &Op) -> bool {
    let place2 = if partner == 0 {
        None
    } else {
        Some(partner.saturating_add(4))
    };
    match event {
        Some(event) => event.place == place.saturating_add(5)
            && event.op == *op
            && event.place2 == place2,
        None => false,
    }
}

// Channels 0 and 3 are unbuffered and open, channel 1 is empty and has room for one, and channel 2 is closed.
static ROWS: [Row; 7] = [
    Row {
        asks: &[
            (0, Plain::Recv(Some(0))),
            (1, Plain::Send(0, 7)),
            (2, Plain::Recv(Some(0))),
            (3, Plain::Send(0, 8)),
        ],
        choices: &[(1, 1), (1, 3), (3, 1), (3, 3)],
    },
    Row {
        asks: &[
            (0, Plain::Send(0, 7)),
            (1, Plain::Read(0)),
            (2, Plain::Recv(Some(0))),
            (3, Plain::Recv(Some(3))),
        ],
        choices: &[(0, 3), (1, 0)],
    },
    // A send on a closed channel goes on, as a fault, and a receive finds it closed.
    Row {
        asks: &[(1, Plain::Send(2, 7)), (2, Plain::Recv(Some(2)))],
        choices: &[(0, 0), (1, 0)],
    },
    // Nobody asks, or the channel is empty, or who sends is who receives, or the two name different channels.
    Row {
        asks: &[],
        choices: &[],
    },
    Row {
        asks: &[(1, Plain::Recv(Some(1)))],
        choices: &[],
    },
    Row {
        asks: &[(1, Plain::Send(0, 7)), (1, Plain::Recv(Some(0)))],
        choices: &[],
    },
    Row {
        asks: &[(1, Plain::Send(0, 7)), (2, Plain::Recv(Some(3)))],
        choices: &[],
    },
];

// Main started three goroutines and closed channel 2.
static BEFORE: &[u8] =
    b"gotrace 1\ngoroutine g\ngoroutine h\ngoroutine i\nvar x\nchan c 0\nchan b 1\nchan d 0\nchan e 0\ngo main g p\ngo main h p\ngo main i p\nclose main d p\n";

// Where the run stands behind these events, if they are legal.
fn replayed(alloc: Global, trace: &Trace) -> Result<Option<Replay>, AllocError>
    ensures { IfOk result (λ r. IfSome r (λ replay. StandsFor trace.now.decls.declarations replay trace.now.events)) }
{
    let mut replay = Replay::new(alloc, trace.decls())?;
    for at in 0..trace.len() {
        match replay.accept(trace.event(at)) {
            Ok(()) => {}
            Err(_) => return Ok(None),
        }
    }
    Ok(Some(replay))
}

// All that the request names is declared.
fn is_fit(decls: &Decls, waiter: &Waiter) -> bool
    ensures { result ≡ true → IsTrue (is_declared decls.now.declarations waiter.now) }
{
    if waiter.who >= decls.count(Kind::Goroutine) {
        return false;
    }
    match &waiter.asked.ask {
        Ask::Read(var) => *var < decls.count(Kind::Var),
        Ask::Send(Some(chan), _) => *chan < decls.count(Kind::Chan),
        Ask::Recv(Some(chan)) => *chan < decls.count(Kind::Chan),
        _ => false,
    }
}

fn waiter_of(asks: (u32, Plain), place: u32) -> Waiter {
    let (who, plain) = asks;
    let asked = Request {
        ask: ask_of(plain),
        place,
    };
    Waiter { who, asked }
}

// Those of these requests of which all is declared, at the places from 5 on.
fn listed(alloc: Global, decls: &Decls, asks: &[(u32, Plain)]) -> Result<Vec<Waiter>, AllocError>
    ensures { IfOk result (λ v. (All (λ w. IsTrue (is_declared decls.now.declarations w)) v.items) × (length v.items ≤ 8)) }
{
    let mut waiting = Vec::new(alloc);
    for i in 0..asks.len().min(8) {
        let waiter = waiter_of(asks[i], i as u32 + 5);
        if is_fit(decls, &waiter) {
            waiting.push(waiter)?;
        }
    }
    Ok(waiting)
}

// Whether the choice of this number in that row is picked by its number and by one round more, and makes its event.
fn is_picked(
    list: &WaitingList,
    row: usize,
    number: usize,
    wanted: (u32, u32),
    round: u64,
) -> bool {
    let (place, partner) = wanted;
    let wanted = choice(place, partner);
    let pick = number as u64;
    list.pick(pick) == Some(wanted)
        && list.pick(pick.wrapping_add(round)) == Some(wanted)
        && is_event(
            list.event_of(wanted),
            place,
            partner,
            &wanted_op(row, number),
        )
}

// The picks go round the row's choices in their order, and each makes its event.
fn goes_round(list: &WaitingList, row: usize, choices: &[(u32, u32)]) -> bool {
    let round = choices.len();
    for number in 0..round {
        if !is_picked(list, row, number, choices[number], round as u64) {
            return false;
        }
    }
    list.pick(0).is_none() == (round == 0)
}

fn is_kept(
    alloc: Global,
    trace: &Trace,
    replay: &Replay,
    at: usize,
    row: &Row,
) -> Result<bool, AllocError>
    requires { StandsFor trace.now.decls.declarations replay.now trace.now.events }
{
    let waiting = listed(alloc, trace.decls(), row.asks)?;
    let list = WaitingList::new(replay, trace, waiting.as_slice());
    Ok(waiting.len() == row.asks.len() && goes_round(&list, at, row.choices))
}

// The first row that isn't as it is wanted.
fn first_wrong(alloc: Global, trace: &Trace, replay: &Replay) -> Result<Option<usize>, AllocError>
    requires { StandsFor trace.now.decls.declarations replay.now trace.now.events }
{
    for at in 0..ROWS.len() {
        if !is_kept(alloc, trace, replay, at, &ROWS[at])? {
            return Ok(Some(at));
        }
    }
    Ok(None)
}

// The same behind this trace, which has no row where it isn't legal.
fn first_wrong_behind(alloc: Global, trace: &Trace) -> Result<Option<usize>, AllocError> {
    match replayed(alloc, trace)? {
        Some(replay) => first_wrong(alloc, trace, &replay),
        None => Ok(Some(usize::MAX)),
    }
}

fn wrong_in(alloc: Global) -> Result<Option<usize>, Fail> {
    let trace = parse_trace(alloc, BEFORE)?;
    Ok(first_wrong_behind(alloc, &trace)?)
}

#[test]
fn picks_go_round_the_choices_of_a_run(rt: HostRuntime) -> Result<(), Fail> {
    assert_eq!(rt; wrong_in(rt.alloc())?, None);
    Ok(())
}
