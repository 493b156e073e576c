//! Which runs are judged.
ghost use Rattle.std.specs.Prelude.{MatchOption};
ghost use Rattle.race_explore.specs.Orders.{IsSkipped, IsWanted};

use race_exchange::turned_at;
use race_records::Event;

/// Which runs of a program are judged.
#[derive(Clone, Copy, Debug, PartialEq, Eq)]
pub enum Orders {
    /// All.
    All,
    /// Of those that differ only in the order of independent events one at least.
    One,
}

/// Where the run with these events is skipped, after how many of them: each run that begins with these is, too.
pub(crate) fn skipped_after(orders: Orders, events: &[Event]) -> Option<usize>
    ensures { MatchOption result (IsWanted orders events.now) (IsSkipped orders events.now) }
{
    match orders {
        Orders::All => None,
        Orders::One => turned_at(events),
    }
}
