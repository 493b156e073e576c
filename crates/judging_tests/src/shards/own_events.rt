//! A trace that a program makes of events of its own, not of a text.

use crate::shards::verdicts::{Told, said_by};
use race_records::{Decls, Event, Op, Trace};
use race_shards::judge_alone;
use race_verdict::Race;
use std::alloc::Global;
use std::test::Fail;

// An event at one place, as all are but a meet.
fn event(who: u32, op: Op, place: u32) -> Event {
    Event {
        who,
        op,
        place,
        place2: None,
    }
}

// Main starts a goroutine, and both write: nothing orders the writes.
fn recorded(alloc: Global) -> Result<Trace, Fail> {
    let mut decls = Decls::new(alloc);
    let child = decls.add_goroutine("child")?;
    let total = decls.add_var("total")?;
    let mut trace = Trace::new(decls);
    let start = trace.add_place("main.ex:3")?;
    let add = trace.add_place("main.ex:9")?;
    trace.push(event(0, Op::Go(child), start))?;
    trace.push(event(child, Op::Write(total, 1), add))?;
    trace.push(event(0, Op::Write(total, 2), start))?;
    Ok(trace)
}

static RACES: [Race; 1] = [Race {
    var: 0,
    first: 1,
    second: 2,
}];

#[test]
fn own_events_are_judged(rt: HostRuntime) -> Result<(), Fail> {
    let trace = recorded(rt.alloc())?;
    let verdict = judge_alone(rt.alloc(), &trace)?;
    assert!(rt; said_by(&verdict) == Told::Races(&RACES));
    Ok(())
}
