//! What the search looks at.

use crate::steps::{Part, Steps, part_of};
use crate::wants::Wants;
use race_records::Trace;
use std::alloc::{Allocator, Global};

/// The recorded trace, and what is known of its events.
#[derive(Clone, Copy)]
pub(crate) struct Scene<'a, A: Allocator = Global> {
    pub(crate) trace: &'a Trace<A>,
    pub(crate) wants: &'a Wants<A>,
    pub(crate) steps: &'a Steps<A>,
}

impl<'a, A: Allocator + Copy> Scene<'a, A> {
    /// The part that ends with the event.
    pub(crate) fn part(&self, at: u32) -> Part {
        part_of(self.trace, at)
    }
}
