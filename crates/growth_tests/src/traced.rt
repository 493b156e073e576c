//! Traces that are told in lines.

use race_records::Trace;
use race_text::LineReader;
use race_verdict::Race;
use std::alloc::Allocator;

/// The trace of what is declared and of these events.
pub(crate) fn traced<A: Allocator + Copy>(
    heap: A,
    declared: &[u8],
    events: &[u8],
) -> Option<Trace<A>> {
    let mut reader = LineReader::new(heap);
    match (reader.feed(declared), reader.feed(events)) {
        (Ok(()), Ok(())) => reader.finish().ok(),
        _ => None,
    }
}

/// A goroutine, two variables with a race, and a mutex.
pub(crate) const TWO_RACES: &[u8] =
    b"gotrace 1\ngoroutine w\nvar x\nvar y\nmutex m\ngo main w p\nwrite main x 1 p\nread w x 1 p\nwrite main y 1 p\nwrite w y 2 p\nlock w m p\nunlock w m p\n";

pub(crate) const ON_X: Race = Race {
    var: 0,
    first: 1,
    second: 2,
};

pub(crate) const ON_Y: Race = Race {
    var: 1,
    first: 3,
    second: 4,
};
