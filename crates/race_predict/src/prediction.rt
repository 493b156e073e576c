//! Predicted races.
ghost use Rattle.std.specs.Prelude.{◌≤◌, length};
ghost use Rattle.race_records.specs.Events.{TraceState};
ghost use Rattle.race_predict.specs.Certified.{IsPredicted, IsPredictedRace};

use race_verdict::Race;
use std::alloc::{Allocator, Global};

/// A race of another run: the variable, and the recorded trace's events that make this run, by their indexes. The last two are the
/// accesses that race.
#[derive(Debug, Drop)]
pub struct Prediction<A: Allocator = Global> {
    /// The variable.
    pub var: u32,
    /// The indexes of the events, counted from 0, in the order of the other run.
    pub order: Vec<u32, A>,
}

impl<A: Allocator> Prediction<A> {
    /// The race, with the earlier one of its accesses in the recorded trace first.
    pub fn race(&self) -> Race
        requires { 2 ≤ length self.now.order.items }
        ensures { (recorded : TraceState) → IsPredicted recorded self.now → IsPredictedRace recorded result }
    {
        let order = self.order.as_slice();
        let before = order.len() - 2;
        let i = order[before];
        let j = order[before + 1];
        let var = self.var;
        if i <= j {
            Race {
                var,
                first: i,
                second: j,
            }
        } else {
            Race {
                var,
                first: j,
                second: i,
            }
        }
    }
}
