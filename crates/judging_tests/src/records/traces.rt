use crate::records::declarations::{Addition, declared, declared_of_version2};
use race_records::{Case, Cases, CasesFull, Cause, DeclFault, Dir, Event, Op, PushFault, Trace};
use std::alloc::Global;
use std::mem::size_of;
use std::process::Abort;
use std::test::Fail;

// A trace with room for an event, to whose declarations all this is added.
fn started(alloc: Global, additions: &[Addition]) -> Result<Trace, Fail> {
    let mut trace = Trace::new(declared(alloc, additions)?);
    trace.reserve()?;
    Ok(trace)
}

fn add_place(trace: &mut Trace, text: &str) -> Result<u32, DeclFault> {
    trace.add_place(text)
}

// How many places and events there are, and the text of the first place.
fn first_place(trace: &Trace) -> (u32, usize, &str) {
    let count = trace.decls().place_count();
    let text = if count == 0 { "" } else { trace.place_text(0) };
    (count, trace.events().len(), text)
}

// Places, and what is answered where they are added one after another.
static PLACES: [(&str, Result<u32, DeclFault>); 3] = [
    ("a.go:1", Ok(0)),
    ("a.go:1", Ok(0)),
    ("nowhere at all", Err(DeclFault::BadName)),
];

// The first of them that is answered otherwise.
fn wrong_place(trace: &mut Trace) -> Option<usize> {
    PLACES
        .iter()
        .position(|(text, number)| add_place(trace, *text) != *number)
}

#[test]
fn a_place_of_a_trace_is_found_again(rt: HostRuntime) -> Result<(), Fail> {
    let mut trace = started(rt.alloc(), &[])?;
    let wrong = wrong_place(&mut trace);
    assert_eq!(rt; (wrong, first_place(&trace)), (None, (1, 0, "a.go:1")));
    Ok(())
}

// A function of its own, so that the proof of a push knows nothing of its event.
fn event(who: u32, op: Op, place: u32, place2: Option<u32>) -> Event {
    Event {
        who,
        op,
        place,
        place2,
    }
}

fn push(trace: &mut Trace, event: Event) -> Option<PushFault> {
    trace.push(event).err()
}

// How many events there are, and what the last one does.
fn last(trace: &Trace) -> Option<(usize, &Op)> {
    let len = trace.len();
    if len == 0 {
        None
    } else {
        Some((len, &trace.event(len - 1).op))
    }
}

// A case of the first channel, or of the second, or of nil.
fn cases_on(dir: Dir, chan: Option<u32>) -> Cases {
    let mut cases = Cases::new();
    let _ = cases.push(Case { dir, chan });
    cases
}

// A variable, a channel, a mutex, an rwmutex, a once and a place.
static EACH: [Addition; 6] = [
    Addition::Var("x"),
    Addition::Chan("c", 0),
    Addition::Lock("m", false),
    Addition::Lock("l", true),
    Addition::Once("o"),
    Addition::Place("a.go:1"),
];

// Events, and why a trace with one of each refuses it.
fn events() -> [(u32, Op, u32, Option<u32>, Option<PushFault>); 35] {
    let refused = Some(PushFault::BadNumber);
    let wrong = Some(PushFault::WrongKind);
    [
        (0, Op::Read(1, 0), 0, None, refused),
        (0, Op::Read(0, 0), 0, None, None),
        (0, Op::Write(0, 7), 0, Some(0), refused),
        (0, Op::Write(0, 7), 1, None, refused),
        (1, Op::Exit, 0, None, refused),
        (0, Op::Go(1), 0, None, refused),
        // There is one channel, and a meet alone has two places.
        (0, Op::Send(0, 7), 0, None, None),
        (0, Op::Send(0, 7), 0, Some(0), refused),
        (0, Op::Recv(1, 7), 0, None, refused),
        (0, Op::Meet(0, 0, 7), 0, Some(0), None),
        (0, Op::Meet(0, 0, 7), 0, None, refused),
        (0, Op::Meet(0, 0, 7), 0, Some(1), refused),
        (0, Op::Meet(1, 0, 7), 0, Some(0), refused),
        (0, Op::Default(cases_on(Dir::Send, None)), 0, None, None),
        (
            0,
            Op::Default(cases_on(Dir::Recv, Some(1))),
            0,
            None,
            refused,
        ),
        // No channel has one of these numbers, of which no list of cases keeps more.
        (
            0,
            Op::Default(cases_on(Dir::Send, Some(65_535))),
            0,
            None,
            refused,
        ),
        (
            0,
            Op::Default(cases_on(Dir::Recv, Some(65_536))),
            0,
            None,
            refused,
        ),
        (
            0,
            Op::Default(cases_on(Dir::Send, Some(u32::MAX))),
            0,
            None,
            refused,
        ),
        (0, Op::Fault(Cause::CloseClosed(1)), 0, None, refused),
        (0, Op::Fault(Cause::CloseNil), 0, None, None),
        // Lock 0 is the mutex, and lock 1 the rwmutex.
        (0, Op::Lock(0), 0, None, None),
        (0, Op::Lock(1), 0, None, None),
        (0, Op::Unlock(1), 0, None, None),
        (0, Op::Unlock(2), 0, None, refused),
        (0, Op::RLock(1), 0, None, None),
        (0, Op::RLock(0), 0, None, wrong),
        (0, Op::RUnlock(1), 0, None, None),
        (0, Op::RUnlock(0), 0, None, wrong),
        (0, Op::Fault(Cause::UnlockFree(0)), 0, None, None),
        (0, Op::Fault(Cause::RUnlockFree(0)), 0, None, wrong),
        // A number out of range is told first.
        (0, Op::RLock(0), 1, None, refused),
        (0, Op::RUnlock(2), 0, None, refused),
        (0, Op::OnceBegin(0), 0, None, None),
        (0, Op::OnceEnd(1), 0, None, refused),
        (0, Op::OnceDone(0), 0, None, None),
    ]
}

// Tests what is answered to each of the events.
fn push_all(rt: &impl Abort, trace: &mut Trace) {
    for (who, op, place, place2, fault) in events() {
        let answer = push(trace, event(who, op, place, place2));
        assert_eq!(rt; answer, fault);
    }
}

#[test]
fn takes_events_that_fit(rt: HostRuntime) -> Result<(), Fail> {
    let mut trace = started(rt.alloc(), &EACH)?;
    push_all(&rt, &mut trace);
    assert_eq!(rt; last(&trace), Some((13, &Op::OnceDone(0))));
    Ok(())
}

// Tries, and why a trace of version 2 refuses them, and one of version 1.
fn tries() -> [(Op, Option<PushFault>, PushFault); 8] {
    let refused = PushFault::BadNumber;
    let wrong = PushFault::WrongKind;
    [
        (Op::TryLock(0), None, wrong),
        (Op::TryLock(1), None, wrong),
        (Op::TryRLock(1), None, wrong),
        (Op::TryRLock(0), Some(wrong), wrong),
        (Op::TryRLock(2), Some(refused), refused),
        (Op::TryFail(0), None, wrong),
        (Op::TryFail(1), None, wrong),
        (Op::TryFail(2), Some(refused), refused),
    ]
}

// Whether the declarations say of each of them whether it fits.
fn are_fitting(trace: &Trace, is_version2: bool) -> bool {
    for (op, fault, _) in tries() {
        let fits = trace.decls().fits(&event(0, op, 0, None));
        if fits != (is_version2 && fault.is_none()) {
            return false;
        }
    }
    true
}

// Tests what is answered to each of them.
fn push_tries(rt: &impl Abort, one: &mut Trace, two: &mut Trace) {
    for (op, fault, _) in tries() {
        let answer = push(two, event(0, op, 0, None));
        assert_eq!(rt; answer, fault);
    }
    for (op, _, fault) in tries() {
        let answer = push(one, event(0, op, 0, None));
        assert_eq!(rt; answer, Some(fault));
    }
}

#[test]
fn takes_tries_in_version_2_alone(rt: HostRuntime) -> Result<(), Fail> {
    let mut one = started(rt.alloc(), &EACH)?;
    let mut two = Trace::new(declared_of_version2(rt.alloc(), &EACH)?);
    assert!(rt; are_fitting(&one, false) && are_fitting(&two, true));
    push_tries(&rt, &mut one, &mut two);
    assert_eq!(rt; last(&one), None);
    assert_eq!(rt; last(&two), Some((5, &Op::TryFail(1))));
    Ok(())
}

// A trace that knows the places, in which main writes at the last of them, and then exits or not.
fn trace_at(alloc: Global, places: [&str; 3], exits: bool) -> Result<Trace, Fail> {
    let mut trace = started(alloc, &[Addition::Var("x")])?;
    let mut place = 0;
    for text in places {
        place = add_place(&mut trace, text)?;
    }
    push(&mut trace, event(0, Op::Write(0, 7), place, None));
    if exits {
        push(&mut trace, event(0, Op::Exit, 0, None));
    }
    Ok(trace)
}

// Whether the trace is equal to the one that knows p and q, with a write at p.
fn is_as_at_p(alloc: Global, places: [&str; 3], exits: bool) -> Result<bool, Fail> {
    Ok(trace_at(alloc, places, exits)? == trace_at(alloc, ["p", "q", "p"], false)?)
}

static ALIKE: [([&str; 3], bool, bool); 6] = [
    (["p", "q", "p"], false, true),
    // In another order, with and without a place that isn't used.
    (["q", "p", "p"], false, true),
    (["p", "p", "p"], false, true),
    // The same number, but another text.
    (["q", "p", "q"], false, false),
    (["p", "q", "q"], false, false),
    // One more event.
    (["p", "q", "p"], true, false),
];

#[test]
fn traces_are_equal_by_the_texts_of_their_places(rt: HostRuntime) -> Result<(), Fail> {
    for (places, exits, equal) in &ALIKE {
        let answer = is_as_at_p(rt.alloc(), *places, *exits)?;
        assert_eq!(rt; answer, *equal, "{places:?} {exits}");
    }
    Ok(())
}

#[test]
fn an_event_is_small(rt: HostRuntime) {
    assert!(rt; size_of::<Event>() <= 56);
}

// What case number k is: all three forms take turns, and no two cases are the same.
fn case_at(k: u32) -> Case {
    let dir = if k % 2 == 0 { Dir::Send } else { Dir::Recv };
    let chan = if k % 3 == 2 {
        None
    } else {
        Some(65_534 - k % 16)
    };
    Case { dir, chan }
}

fn push_case(cases: &mut Cases, k: u32) -> Result<(), CasesFull> {
    let case = case_at(k);
    if case.chan.unwrap_or(0) < 65_535 {
        cases.push(case)
    } else {
        Ok(())
    }
}

// Whether the cases are those numbers 0 to `count`.
fn are_first(cases: &Cases, count: u32) -> bool {
    cases.len() == count as usize
        && (0..cases.len()).all(|k| k < cases.len() && cases.get(k) == case_at(k as u32))
}

#[test]
fn a_list_of_cases_takes_sixteen(rt: HostRuntime) {
    let mut cases = Cases::new();
    for k in 0..18 {
        let full = k >= 16;
        let before = cases.copy();
        let answer = push_case(&mut cases, k);
        assert_eq!(rt;
            (
                answer.is_err(),
                cases == before,
                are_first(&cases, (k + 1).min(16))
            ),
            (full, full, true),
            "{k}"
        );
    }
}
