//! One access that is kept.
ghost use Rattle.std.specs.Prelude.{◌≡◌, ◌↔◌, IsTrue};
ghost use Rattle.race_access.specs.Kept.{access_of, note_of, is_known, Knows};

use race_clock::{Clock, Stamp};
use race_verdict::ReportedAccess;
use std::alloc::Allocator;

/// An access of a variable.
#[derive(Clone, Copy, Debug, PartialEq, Eq)]
pub struct Access {
    /// Which event it is, counted from 0.
    pub at: u32,
    /// The goroutine.
    pub who: u32,
    /// How many events the goroutine took part in, this one included.
    pub count: u32,
    /// The number of its place.
    pub place: u32,
    /// Whether it is a write.
    pub write: bool,
}

impl Access {
    /// No access: its count is 0, so every clock knows it.
    pub const NONE: Access = Access {
        at: 0,
        who: 0,
        count: 0,
        place: 0,
        write: false,
    };

    /// The access with this stamp, at this place.
    #[inline(always)]
    pub(crate) fn of(stamp: &Stamp, place: u32) -> Access
        ensures { result ≡ access_of stamp.now place }
    {
        Access {
            at: stamp.at,
            who: stamp.who,
            count: stamp.count,
            place,
            write: stamp.write,
        }
    }

    /// What is printed of it.
    pub(crate) fn note(&self) -> ReportedAccess
        ensures { result ≡ note_of self.now }
    {
        ReportedAccess {
            at: self.at,
            who: self.who,
            write: self.write,
            place: self.place,
        }
    }

    /// Whether the clock knows it.
    pub(crate) fn is_known<B: Allocator>(&self, clock: &Clock<B>) -> bool
        ensures value { result ≡ is_known clock.now self.now }
        ensures known { IsTrue result ↔ Knows clock.now self.now }
    {
        self.count <= clock.knows(self.who)
    }
}
