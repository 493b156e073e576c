//! What is known of a race beside its line: both accesses, and why nothing orders them.
ghost use Rattle.race_verdict.specs.Traces.{capacities};
ghost use Rattle.race_shards.specs.Witness.{RacesInOrder};

use crate::moment::put_moment;
use crate::names::{event_at, goroutine, name_of, place_of, who_at};
use crate::past::{Deed, last_before};
use crate::put::{put, put_number_in};
use crate::shown::put_event;
use crate::unlocking::put_unlocked_by_another;
use race_records::{Named, Trace};
use race_report::access_word;
use race_shards::last_seen;
use race_verdict::Race;
use std::alloc::{AllocError, Allocator};

/// How many events the words on all races may look at, counted once for each race. In a trace of a million events they are on 67 races.
pub(crate) const MOST_STEPS: usize = 67_108_864;

/// Puts why the two race, or else the command that draws it.
pub(crate) fn put_words<A: Allocator + Copy, B: Allocator>(
    out: &mut Vec<u8, A>,
    trace: &Trace<B>,
    race: &Race,
    is_full: bool,
) -> Result<(), AllocError>
    requires { RacesInOrder (capacities trace.now) trace.now.events race.now }
{
    if is_full {
        return put_why(out, trace, race);
    }
    let var = name_of(trace, Named::Var(race.var));
    put(out, &["why: gorace draw ", var, "\n"])
}

// Puts what each of the two had locked, what it was synchronized by last, who started it, and what the second has seen of the first.
fn put_why<A: Allocator + Copy, B: Allocator>(
    out: &mut Vec<u8, A>,
    trace: &Trace<B>,
    race: &Race,
) -> Result<(), AllocError>
    requires { RacesInOrder (capacities trace.now) trace.now.events race.now }
{
    put_access(out, trace, race, race.first)?;
    put_access(out, trace, race, race.second)?;
    put_unlocked_by_another(out, trace, race.first, race.second)?;
    put_starter(out, trace, race.first)?;
    put_starter(out, trace, race.second)?;
    let seen = last_seen(*out.allocator(), trace, race)?;
    put_sentence(out, trace, race, seen)
}

// What the access's goroutine had locked, and what it was synchronized by.
fn put_access<A: Allocator + Copy, B: Allocator>(
    out: &mut Vec<u8, A>,
    trace: &Trace<B>,
    race: &Race,
    at: u32,
) -> Result<(), AllocError> {
    let Some(event) = event_at(trace, at) else {
        return Ok(());
    };
    put(out, &[goroutine(trace, event.who), "'s "])?;
    put(out, &[access_word(&event.op), " of "])?;
    put(out, &[name_of(trace, Named::Var(race.var)), ": "])?;
    put_moment(out, trace, at, event.who)?;
    put(out, &["\n"])
}

// Who started the access's goroutine; nobody started main.
fn put_starter<A: Allocator, B: Allocator>(
    out: &mut Vec<u8, A>,
    trace: &Trace<B>,
    at: u32,
) -> Result<(), AllocError> {
    let Some(event) = event_at(trace, at) else {
        return Ok(());
    };
    let Some(start) = last_before(trace, at, Deed::Starts(event.who)) else {
        return Ok(());
    };
    put(
        out,
        &[
            goroutine(trace, event.who),
            " was started by ",
            who_at(trace, start),
        ],
    )?;
    match event_at(trace, start) {
        Some(go) => put(out, &[" at ", place_of(trace, go.place), "\n"]),
        None => Ok(()),
    }
}

// What the second access has seen of the first one's goroutine.
fn put_sentence<A: Allocator + Copy, B: Allocator>(
    out: &mut Vec<u8, A>,
    trace: &Trace<B>,
    race: &Race,
    seen: Option<u32>,
) -> Result<(), AllocError> {
    put(out, &[who_at(trace, race.first), "'s "])?;
    put(out, &[word_at(trace, race.first)])?;
    put_number_in(out, " is event ", u64::from(race.first) + 1, ", and ")?;
    put(out, &[who_at(trace, race.second), " has seen "])?;
    match seen {
        None => put(out, &["nothing of ", who_at(trace, race.first), "\n"]),
        Some(at) => {
            put(out, &[who_at(trace, race.first)])?;
            put_number_in(out, " up to event ", u64::from(at) + 1, ": ")?;
            put_shown(out, trace, at)
        }
    }
}

// The line of the trace that has the event.
fn put_shown<A: Allocator + Copy, B: Allocator>(
    out: &mut Vec<u8, A>,
    trace: &Trace<B>,
    at: u32,
) -> Result<(), AllocError> {
    if (at as usize) < trace.len() {
        put_event(out, trace, at)
    } else {
        Ok(())
    }
}

fn word_at<A: Allocator>(trace: &Trace<A>, at: u32) -> &'static str {
    match event_at(trace, at) {
        Some(event) => access_word(&event.op),
        None => "",
    }
}
