//! How runs end in which main doesn't return, and where their goroutines stand then.
ghost use Rattle.std.specs.Prelude.{◌≡◌, IfOk, filter_map, option_to_list};
ghost use Rattle.std.specs.List.{range_with_len};
ghost use Rattle.race_records.specs.{declared.kind.Kind.Kind, Declarations.count_of};
ghost use Rattle.race_explore.specs.Standing.{failed_at, standing_of, waits_at};

use race_hub::{End, Recording};
use race_records::Kind;
use std::alloc::{AllocError, Allocator};

/// A goroutine, and the place at which it stands.
#[derive(Clone, Copy, Debug, PartialEq, Eq)]
pub struct Standing {
    /// The goroutine.
    pub who: u32,
    /// The number of the place.
    pub place: u32,
}

/// Runs that ended in the same way and at the same places, where main didn't return.
#[derive(Drop)]
pub struct BadEnd<A: Allocator> {
    /// How they ended.
    pub end: End,
    /// Who waits, in a deadlock; who failed, in a fault; who asked, of a bad request.
    pub standing: Vec<Standing, A>,
    /// How many runs ended so.
    pub runs: u64,
    /// The picks of the first of them.
    pub picks: Vec<u64, A>,
}

/// Who the end of the run is about, and where each stands.
pub(crate) fn standing_at<A: Allocator + Copy>(
    alloc: A,
    recording: &Recording<A>,
) -> Result<Vec<Standing, A>, AllocError>
    ensures { IfOk result (λ standing. standing.items ≡ standing_of recording.now) }
{
    match recording.end() {
        End::Main => Ok(Vec::new(alloc)),
        End::Limit => Ok(Vec::new(alloc)),
        End::Fault => only(alloc, failed(recording)),
        End::Bad(who) => only(alloc, waiting(recording, who)),
        End::Deadlock => all_waiting(alloc, recording),
    }
}

// This one, if there is one.
fn only<A: Allocator + Copy>(
    alloc: A,
    standing: Option<Standing>,
) -> Result<Vec<Standing, A>, AllocError>
    ensures { IfOk result (λ list. list.items ≡ option_to_list standing) }
{
    let mut list = Vec::new(alloc);
    if let Some(one) = standing {
        list.push(one)?;
    }
    Ok(list)
}

// All who wait, by their numbers.
fn all_waiting<A: Allocator + Copy>(
    alloc: A,
    recording: &Recording<A>,
) -> Result<Vec<Standing, A>, AllocError>
    ensures { IfOk result (λ list. list.items
        ≡ filter_map (waits_at recording.now)
        (range_with_len 0 (count_of Kind.Goroutine recording.now.decls.declarations))) }
{
    let mut list = Vec::new(alloc);
    for who in 0..recording.trace().decls().count(Kind::Goroutine) {
        if let Some(standing) = waiting(recording, who) {
            list.push(standing)?;
        }
    }
    Ok(list)
}

// Where the goroutine waits, if it does.
fn waiting<A: Allocator>(recording: &Recording<A>, who: u32) -> Option<Standing>
    ensures { result ≡ waits_at recording.now who }
{
    match recording.waiting(who) {
        Some(asked) => Some(Standing {
            who,
            place: asked.place,
        }),
        None => None,
    }
}

// Who did the last event, and where.
fn failed<A: Allocator>(recording: &Recording<A>) -> Option<Standing>
    ensures { result ≡ failed_at recording.now }
{
    let events = recording.trace().events();
    if events.is_empty() {
        return None;
    }
    let last = &events[events.len() - 1];
    Some(Standing {
        who: last.who,
        place: last.place,
    })
}
