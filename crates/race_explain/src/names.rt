//! The names of what an event names, and its line.
ghost use Rattle.std.specs.Prelude.{◌≡◌};
ghost use Rattle.race_explain.specs.Shown.{line_of};

use race_records::{Decls, Event, Kind, Named, Object, Trace};
use std::alloc::Allocator;

/// The name of what is declared; a number that isn't declared has none.
pub(crate) fn name_of<A: Allocator>(trace: &Trace<A>, named: Named) -> &str {
    let decls = trace.decls();
    if named.number() < decls.count(named.kind()) {
        decls.name(named)
    } else {
        ""
    }
}

/// The object of the kind with this number.
pub(crate) fn numbered(kind: Kind, number: u32) -> Named {
    match kind {
        Kind::Goroutine => Named::Goroutine(number),
        Kind::Var => Named::Var(number),
        Kind::Chan => Named::Chan(number),
        Kind::Lock => Named::Lock(number),
        Kind::Once => Named::Once(number),
    }
}

/// The name of a goroutine.
pub(crate) fn goroutine<A: Allocator>(trace: &Trace<A>, number: u32) -> &str {
    name_of(trace, Named::Goroutine(number))
}

/// The text of a place.
pub(crate) fn place_of<A: Allocator>(trace: &Trace<A>, place: u32) -> &str {
    if place < trace.decls().place_count() {
        trace.decls().place_text(place)
    } else {
        ""
    }
}

/// The line of an event: after the header and the declarations each has one.
pub(crate) fn line_of<A: Allocator>(trace: &Trace<A>, at: u32) -> u64
    ensures { result ≡ line_of trace.now at }
{
    trace.decls().len() as u64 + u64::from(at) + 2
}

/// As what and in which line an object is declared; main is in none.
pub(crate) fn declared_in<A: Allocator>(decls: &Decls<A>, named: Named) -> Option<(Object, u64)> {
    for index in 0..decls.len() {
        if decls.declared(index) == named {
            let (object, _) = decls.declaration(index);
            return Some((object, (index as u64).saturating_add(2)));
        }
    }
    None
}

/// The event at the index, if there is one.
pub(crate) fn event_at<A: Allocator>(trace: &Trace<A>, at: u32) -> Option<&Event> {
    trace.events().get(at as usize)
}

/// The goroutine whose event is at the index.
pub(crate) fn who_at<A: Allocator>(trace: &Trace<A>, at: u32) -> &str {
    match event_at(trace, at) {
        Some(event) => goroutine(trace, event.who),
        None => "",
    }
}
