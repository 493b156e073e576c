//! What the second access has seen of the first one's goroutine, in a sentence.
ghost use Rattle.std.specs.Prelude.{◌≡◌, ◌<◌, ◌++◌, length, IfSome, OnOk};
ghost use Rattle.race_draw.specs.Text as spec;

use crate::printed::put_event;
use crate::words::{name_at, op_at, put_number_in};
use race_records::Trace;
use race_report::access_word;
use race_verdict::Race;
use std::alloc::{AllocError, Allocator};

/// Puts in a sentence what the second access has seen of the first one's goroutine.
pub(crate) fn put_sentence<A: Allocator + Copy, B: Allocator>(
    out: &mut Vec<u8, A>,
    trace: &Trace<B>,
    race: &Race,
    seen: Option<u32>,
) -> Result<(), AllocError>
    requires first { race.now.first < length trace.now.events }
    requires second { race.now.second < length trace.now.events }
    requires seen { IfSome seen (λ p. p < length trace.now.events) }
    ensures { OnOk result (out.new.items ≡ out.old.items ++ spec.sentence trace.now race.now seen) }
{
    put_access(out, trace, race)?;
    match seen {
        None => put_none(out, trace, race),
        Some(at) => {
            put_some(out, trace, race, at)?;
            put_event(out, trace, at)
        }
    }
}

// Puts which event the first access is, and who has seen what follows.
#[tactic(auto, unfolding(crate::specs::Text::sentence_front))]
fn put_access<A: Allocator, B: Allocator>(
    out: &mut Vec<u8, A>,
    trace: &Trace<B>,
    race: &Race,
) -> Result<(), AllocError>
    requires first { race.now.first < length trace.now.events }
    requires second { race.now.second < length trace.now.events }
    ensures { OnOk result (out.new.items ≡ out.old.items ++ spec.sentence_front trace.now race.now) }
{
    out.extend_from_slice(b"\n\t")?;
    out.extend_from_slice(name_at(trace, race.first).as_bytes())?;
    out.extend_from_slice(b"'s ")?;
    out.extend_from_slice(access_word(op_at(trace, race.first)).as_bytes())?;
    put_number_in(out, b" is event ", race.first, b", and ")?;
    out.extend_from_slice(name_at(trace, race.second).as_bytes())?;
    out.extend_from_slice(b" has seen ")
}

// Puts that nothing was seen.
fn put_none<A: Allocator, B: Allocator>(
    out: &mut Vec<u8, A>,
    trace: &Trace<B>,
    race: &Race,
) -> Result<(), AllocError>
    requires { race.now.first < length trace.now.events }
    ensures { OnOk result (out.new.items ≡ out.old.items ++ spec.none_seen trace.now race.now) }
{
    out.extend_from_slice(b"nothing of ")?;
    out.extend_from_slice(name_at(trace, race.first).as_bytes())?;
    out.extend_from_slice(b"\n")
}

// Puts up to which event all was.
fn put_some<A: Allocator, B: Allocator>(
    out: &mut Vec<u8, A>,
    trace: &Trace<B>,
    race: &Race,
    at: u32,
) -> Result<(), AllocError>
    requires { race.now.first < length trace.now.events }
    ensures { OnOk result (out.new.items ≡ out.old.items ++ spec.some_seen trace.now race.now at) }
{
    out.extend_from_slice(name_at(trace, race.first).as_bytes())?;
    put_number_in(out, b" up to event ", at, b": ")
}
