//! The law of independent neighbours. Its function does nothing, and its contract is the law.
ghost use Rattle.race_explore.specs.Laws.{IndependentNeighboursChangePlaces};

/// Where two independent events of a run stand one behind the other, and something comes behind them, there is a run by
/// other picks in which the two have changed places, and which ends alike.
pub fn independent_neighbours_change_places()
    ensures { IndependentNeighboursChangePlaces }
{}
