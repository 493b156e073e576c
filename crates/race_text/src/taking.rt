//! Lines behind the declarations.
ghost use Rattle.std.specs.Prelude.{◌≡◌, ◌+◌, ◌*◌, ◌<◌, ◌≤◌, ◌++◌, List, [], ◌∷◌, drop, true, false, length, None, IsTrue};
ghost use Rattle.std.specs.{Prelude.{IfSome, IfOk, IfErr, MatchResult, OnOk}, Option.option_map};
ghost use Rattle.race_records.specs.{declared.event.Event.Event, Name.is_place};
ghost use Rattle.race_records.specs.{Declarations.{place_number, with_place}, Events.{push_fault, op_is_limited}};
ghost use Rattle.race_text.specs.{Declaring.is_declaration_line, Reading.drafted, Text.lines, Common.GoesOnIfTold};
ghost use Rattle.race_text.specs.{Ahead.IsAhead, Common.{TellsOfCommon, line_in, op_of, said_of, event_at}};
ghost use Rattle.race_text.specs.Taking as spec;

use crate::ahead::LineAhead;
use crate::cause::TextCause;
use crate::common::{Deed, Said, read_common};
use crate::declaration::cause_of;
use crate::event::{Draft, read_event};
use crate::finder::line_cause;
use crate::guesses::{Guesses, mark_of};
use race_records::{Event, MAX_EVENTS, MAX_PLACES, Op, Trace, as_text};
use std::alloc::Allocator;

// Takes a line behind the declarations: an event that fits, or the least cause of what isn't one.
pub(crate) fn take_event<A: Allocator + Copy>(
    trace: &mut Trace<A>,
    guesses: &mut Guesses<A>,
    line: &[u8],
) -> Result<(), TextCause>
    requires read { spec.IsRead trace.old }
    requires ready { trace.old.events ≡ [] → is_declaration_line line.now ≡ false }
    ensures taken { spec.TakesOrTells (lines trace.old) line.now result trace.new }
    ensures grown { OnOk result (0 < length trace.new.events) }
{
    take_event_behind(trace, 0, guesses, line)
}

// The same of a trace of which so many events were handed on.
#[inline(never)]
pub(crate) fn take_event_behind<A: Allocator + Copy>(
    trace: &mut Trace<A>,
    before: usize,
    guesses: &mut Guesses<A>,
    line: &[u8],
) -> Result<(), TextCause>
    requires read { spec.IsReadBehind before trace.old }
    requires ready { before + length trace.old.events ≡ 0 → is_declaration_line line.now ≡ false }
    ensures taken { (past : List Event) → length past ≡ before → spec.IsRead (spec.behind past trace.old)
        → spec.TakesOrTells (lines (spec.behind past trace.old)) line.now result (spec.behind past trace.new) }
    ensures grown { OnOk result (0 < length trace.new.events) }
    ensures declared { OnOk result (trace.new.decls.declarations ≡ trace.old.decls.declarations) }
    ensures places { OnOk result (spec.KeepsPlaces trace.old.decls.places trace.new.decls.places) }
{
    let count = before + trace.len();
    let decls = trace.decls();
    match read_event(decls, line) {
        Some(draft) => append(trace, before, guesses, draft),
        None => Err(line_cause(decls, count, line).unwrap()),
    }
}

// Takes the line in front of the bytes where it is common, and tells what is behind it.
#[inline(always)]
pub(crate) fn take_common<'a, A: Allocator + Copy>(
    trace: &mut Trace<A>,
    guesses: &mut Guesses<A>,
    bytes: &'a [u8],
) -> Result<Option<&'a [u8]>, TextCause>
    requires read { spec.IsRead trace.old }
    requires some { 0 < length trace.old.events }
    ensures taken { MatchResult result
        (λ rest. GoesOnIfTold (lines trace.old) bytes.now rest (lines trace.new))
        (TellsOfCommon (lines trace.old) bytes.now) }
    ensures read { OnOk result (spec.IsRead trace.new) }
    ensures some { OnOk result (0 < length trace.new.events) }
{
    take_common_behind::<Trace<A>, A>(trace, 0, guesses, bytes)
}

// The same of a trace of which so many events were handed on. `G` is who asks, as `R` of `read_common`: it is used for
// nothing but that each caller has a copy of its own. A function of this size is inlined only where it has one caller,
// whatever its attribute says.
#[inline(always)]
pub(crate) fn take_common_behind<'a, G, A: Allocator + Copy>(
    trace: &mut Trace<A>,
    before: usize,
    guesses: &mut Guesses<A>,
    bytes: &'a [u8],
) -> Result<Option<&'a [u8]>, TextCause>
    requires read { spec.IsReadBehind before trace.old }
    ensures taken { (past : List Event) → length past ≡ before → spec.IsRead (spec.behind past trace.old)
        → spec.TakesCommon (spec.behind past trace.old) bytes.now result (spec.behind past trace.new) }
    ensures kept { OnOk result (length trace.old.events ≤ length trace.new.events) }
    ensures declared { OnOk result (trace.new.decls.declarations ≡ trace.old.decls.declarations) }
    ensures places { OnOk result (spec.KeepsPlaces trace.old.decls.places trace.new.decls.places) }
{
    match read_common::<G, A>(trace.decls(), bytes) {
        None => Ok(None),
        Some((said, rest)) => match append_said(trace, before, guesses, said) {
            Ok(()) => Ok(Some(rest)),
            Err(cause) => Err(cause),
        },
    }
}

// Takes a line that was read ahead from these bytes. So many events were handed on.
#[inline(always)]
pub(crate) fn take_ahead_behind<A: Allocator + Copy>(
    trace: &mut Trace<A>,
    before: usize,
    bytes: &[u8],
    line: LineAhead,
) -> Result<(), TextCause>
    requires read { spec.IsReadBehind before trace.old }
    requires ahead { IsAhead trace.old.decls.declarations trace.old.decls.places bytes.now line }
    ensures taken { (past : List Event) → length past ≡ before → spec.IsRead (spec.behind past trace.old)
        → spec.TakesOrTells (lines (spec.behind past trace.old)) (line_in (drop line.start bytes.now)) result (spec.behind past trace.new) }
    ensures grown { OnOk result (0 < length trace.new.events) }
    ensures same { OnOk result (trace.new.decls ≡ trace.old.decls) }
{
    if before + trace.len() >= MAX_EVENTS {
        return Err(TextCause::TooMany);
    }
    append_deed(trace, line.who, line.deed, line.place)
}

// Appends what a common line says, as `append` appends a draft.
#[inline(always)]
fn append_said<A: Allocator + Copy>(
    trace: &mut Trace<A>,
    before: usize,
    guesses: &mut Guesses<A>,
    said: Said<'_>,
) -> Result<(), TextCause>
    requires fits { spec.IsFitting trace.old.decls (said_of said) }
    requires limited { before + length trace.old.events ≤ MAX_EVENTS }
    requires few { length trace.old.decls.places ≤ 2 * (before + length trace.old.events) }
    ensures { MatchResult result
        (λ _. spec.AppendsEvent before trace.old trace.new (said_of said.entry))
        (spec.TellsOfRoom before trace.old) }
{
    let count = before + trace.len();
    if count >= MAX_EVENTS {
        return Err(TextCause::TooMany);
    }
    let place = add_met(trace, guesses, said.place)?;
    append_deed(trace, said.who, said.deed, place)
}

// Appends what was done. Each operation is written where it is to stand.
#[inline(always)]
fn append_deed<A: Allocator + Copy>(
    trace: &mut Trace<A>,
    who: u32,
    deed: Deed,
    place: u32,
) -> Result<(), TextCause>
    requires allowed { push_fault trace.old (event_at who (op_of deed) place) ≡ None }
    ensures events { OnOk result (trace.new.events ≡ trace.old.events ++ event_at who (op_of deed) place ∷ []) }
    ensures decls { OnOk result (trace.new.decls ≡ trace.old.decls) }
    ensures err { IfErr result (λ cause. cause ≡ TextCause.OutOfMemory) }
{
    match deed {
        Deed::Read(x, v) => append_op(trace, who, Op::Read(x, v), place),
        Deed::Write(x, v) => append_op(trace, who, Op::Write(x, v), place),
        Deed::Send(c, v) => append_op(trace, who, Op::Send(c, v), place),
        Deed::Recv(c, v) => append_op(trace, who, Op::Recv(c, v), place),
        Deed::Lock(l) => append_op(trace, who, Op::Lock(l), place),
        Deed::Unlock(l) => append_op(trace, who, Op::Unlock(l), place),
        Deed::RLock(l) => append_op(trace, who, Op::RLock(l), place),
        Deed::RUnlock(l) => append_op(trace, who, Op::RUnlock(l), place),
        Deed::OnceDone(o) => append_op(trace, who, Op::OnceDone(o), place),
    }
}

// Appends an operation at one place.
#[inline(always)]
fn append_op<A: Allocator + Copy>(
    trace: &mut Trace<A>,
    who: u32,
    op: Op,
    place: u32,
) -> Result<(), TextCause>
    requires allowed { push_fault trace.old (event_at who op place) ≡ None }
    requires value { IsTrue (op_is_limited op) }
    ensures events { OnOk result (trace.new.events ≡ trace.old.events ++ event_at who op place ∷ []) }
    ensures decls { OnOk result (trace.new.decls ≡ trace.old.decls) }
    ensures err { IfErr result (λ cause. cause ≡ TextCause.OutOfMemory) }
{
    let event = Event {
        who,
        op,
        place,
        place2: None,
    };
    match trace.append(event) {
        Err(_) => Err(TextCause::OutOfMemory),
        Ok(()) => Ok(()),
    }
}

// Appends an event that fits. Nothing but a full trace and want of memory is in its way.
#[inline(always)]
fn append<A: Allocator + Copy>(
    trace: &mut Trace<A>,
    before: usize,
    guesses: &mut Guesses<A>,
    draft: Draft<'_>,
) -> Result<(), TextCause>
    requires fits { spec.IsFitting trace.old.decls (drafted draft) }
    requires limited { before + length trace.old.events ≤ MAX_EVENTS }
    requires few { length trace.old.decls.places ≤ 2 * (before + length trace.old.events) }
    ensures { MatchResult result
        (λ _. spec.AppendsEvent before trace.old trace.new (drafted draft.entry))
        (spec.TellsOfRoom before trace.old) }
{
    if before + trace.len() >= MAX_EVENTS {
        return Err(TextCause::TooMany);
    }
    let place = add_met(trace, guesses, draft.place)?;
    let place2 = add_second(trace, guesses, draft.place2)?;
    let event = Event {
        who: draft.who,
        op: draft.op,
        place,
        place2,
    };
    match trace.append(event) {
        Err(_) => Err(TextCause::OutOfMemory),
        Ok(()) => Ok(()),
    }
}

// Adds a place for which there is room. Nothing but want of memory is in its way.
#[inline(always)]
fn add_place<A: Allocator + Copy>(trace: &mut Trace<A>, place: &[u8]) -> Result<u32, TextCause>
    requires form { is_place place.now ≡ true }
    requires room { length trace.old.decls.places < MAX_PLACES }
    ensures number { IfOk result (λ n. n ≡ place_number trace.old.decls.places place.now) }
    ensures decls { OnOk result (trace.new.decls ≡ with_place trace.old.decls place.now) }
    ensures events { trace.new.events ≡ trace.old.events }
    ensures err { IfErr result (λ cause. cause ≡ TextCause.OutOfMemory) }
{
    match trace.add_place(as_text(place)) {
        Err(fault) => Err(cause_of(fault)),
        Ok(number) => Ok(number),
    }
}

// The same of a place that may have been met before.
#[inline(always)]
fn add_met<A: Allocator + Copy>(
    trace: &mut Trace<A>,
    guesses: &mut Guesses<A>,
    place: &[u8],
) -> Result<u32, TextCause>
    requires form { is_place place.now ≡ true }
    requires room { length trace.old.decls.places < MAX_PLACES }
    ensures number { IfOk result (λ n. n ≡ place_number trace.old.decls.places place.now) }
    ensures decls { OnOk result (trace.new.decls ≡ with_place trace.old.decls place.now) }
    ensures events { trace.new.events ≡ trace.old.events }
    ensures err { IfErr result (λ cause. cause ≡ TextCause.OutOfMemory) }
{
    let mark = mark_of(place);
    match guesses.number(trace.decls(), as_text(place), mark) {
        Some(number) => Ok(number),
        None => {
            let number = add_place(trace, place)?;
            guesses.note(mark, number);
            Ok(number)
        }
    }
}

// Adds the second place, where there is one.
fn add_second<A: Allocator + Copy>(
    trace: &mut Trace<A>,
    guesses: &mut Guesses<A>,
    place2: Option<&[u8]>,
) -> Result<Option<u32>, TextCause>
    requires form { IfSome (option_map (λ place. place.now) place2) (λ place. is_place place ≡ true) }
    requires room { length trace.old.decls.places < MAX_PLACES }
    ensures number { IfOk result (λ n. n ≡ option_map
        (place_number trace.old.decls.places) (option_map (λ place. place.now) place2.entry)) }
    ensures decls { OnOk result (trace.new.decls ≡
        spec.with_second trace.old.decls (option_map (λ place. place.now) place2.entry)) }
    ensures events { trace.new.events ≡ trace.old.events }
    ensures err { IfErr result (λ cause. cause ≡ TextCause.OutOfMemory) }
{
    match place2 {
        None => Ok(None),
        Some(place) => {
            let number = add_met(trace, guesses, place)?;
            Ok(Some(number))
        }
    }
}
