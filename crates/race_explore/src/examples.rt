//! Which run comes next, and what is told of three runs. Each function does nothing, and its contract is the example.
ghost use Rattle.std.specs.Prelude.{◌≡◌, ◌∷◌, [], Some, None, true, false};
ghost use Rattle.race_hub.specs.declared.ending.End.{End};
ghost use Rattle.race_verdict.specs.Examples.{write_and_read};
ghost use Rattle.race_explore.specs.declared.{explored.{Explored.Explored, RacyVariable.RacyVariable}, stuck.BadEnd.BadEnd};
ghost use Rattle.race_explore.specs.Lists.{next_picks, After, HasPicks, IsLeft, Later};
ghost use Rattle.race_explore.specs.{Ends.AreBadEnds, Looked.Counts, Standing.standing_of, Told.AreRacy};
ghost use Rattle.race_explore.specs.{Walk.are_explore_limits, Ways.fork_of};
ghost use Rattle.race_explore.specs.Examples.{more, last, at, ended, three, Says, Tells, Reports, CountsNumber};

/// The next run takes the next choice at the last event that has one.
pub fn the_last_choice_changes_first()
    ensures last_event { next_picks (more 0 ∷ more 1 ∷ []) ≡ Some (0 ∷ 2 ∷ []) }
    ensures earlier_event { next_picks (more 0 ∷ last 1 ∷ []) ≡ Some (1 ∷ []) }
    ensures none { next_picks (last 1 ∷ last 0 ∷ []) ≡ None }
    ensures second_of_three { fork_of 3 1 ≡ more 1 }
    ensures third_of_three { fork_of 3 2 ≡ last 2 }
{}

/// Of two runs that one comes later whose pick is greater where they first differ.
pub fn a_greater_pick_comes_later()
    ensures greater { Later (more 0 ∷ more 5 ∷ []) (last 1 ∷ []) }
    ensures smaller { ¬ Later (last 1 ∷ []) (more 0 ∷ more 5 ∷ []) }
    ensures same { ¬ Later (more 0 ∷ []) (more 0 ∷ []) }
    ensures choice { After (more 0 ∷ []) (last 1 ∷ []) }
    ensures no_choice { ¬ After (last 0 ∷ []) (last 1 ∷ []) }
{}

/// Left are the runs that begin with the picks, and those that come later.
pub fn later_runs_are_left()
    ensures begins { IsLeft (0 ∷ 1 ∷ []) (more 0 ∷ more 1 ∷ last 0 ∷ []) }
    ensures later { IsLeft (0 ∷ 1 ∷ []) (last 1 ∷ []) }
    ensures earlier { ¬ IsLeft (0 ∷ 1 ∷ []) (more 0 ∷ more 0 ∷ []) }
    ensures shorter { ¬ IsLeft (0 ∷ 1 ∷ []) (more 0 ∷ []) }
{}

/// The run by some picks takes choice 0 behind them, and picks may be left over at its end.
pub fn picks_go_on_with_zero()
    ensures zero { HasPicks (1 ∷ []) (last 1 ∷ more 0 ∷ []) }
    ensures one { ¬ HasPicks (1 ∷ []) (last 1 ∷ last 1 ∷ []) }
    ensures another { ¬ HasPicks (1 ∷ []) (more 0 ∷ []) }
    ensures left_over { HasPicks (1 ∷ 2 ∷ []) (last 1 ∷ []) }
{}

/// A deadlock is about all who wait, by their numbers; a fault about who did the last event; a bad request about who asked.
pub fn an_end_is_about_goroutines()
    ensures deadlock { standing_of (ended write_and_read End.Deadlock) ≡ at 0 3 ∷ at 1 4 ∷ [] }
    ensures fault { standing_of (ended write_and_read End.Fault) ≡ at 0 2 ∷ [] }
    ensures bad { standing_of (ended write_and_read (End.Bad 1)) ≡ at 1 4 ∷ [] }
    ensures main { standing_of (ended write_and_read End.Main) ≡ [] }
{}

/// A run is clean where it has no race and main returned.
pub fn runs_are_counted_by_kind()
    ensures counts { (e : Explored (Unit {0})) → Says e 1 2 1 → Counts three e }
    ensures race { (e : Explored (Unit {0})) → Says e 2 2 1 → ¬ Counts three e }
    ensures deadlock { (e : Explored (Unit {0})) → Says e 1 1 1 → ¬ Counts three e }
{}

/// What is there counts one more, and what isn't comes last.
pub fn one_more_is_counted()
    ensures there { CountsNumber 7 ((7, 1) ∷ []) ((7, 2) ∷ []) }
    ensures new { CountsNumber 8 ((7, 1) ∷ []) ((7, 1) ∷ (8, 1) ∷ []) }
    ensures twice { ¬ CountsNumber 7 ((7, 1) ∷ []) ((7, 1) ∷ (7, 1) ∷ []) }
    ensures another { ¬ CountsNumber 8 ((7, 1) ∷ []) ((7, 2) ∷ []) }
{}

/// Each variable with a race is told once, by the first run with one.
pub fn a_racy_variable_is_told_once()
    ensures first { (v : RacyVariable (Unit {0})) → Tells v 2 1 → AreRacy three (v ∷ []) }
    ensures second { (v : RacyVariable (Unit {0})) → Tells v 2 2 → ¬ AreRacy three (v ∷ []) }
    ensures count { (v : RacyVariable (Unit {0})) → Tells v 1 1 → ¬ AreRacy three (v ∷ []) }
    ensures none { ¬ AreRacy {A = Unit {0}} three [] }
    ensures twice { (v : RacyVariable (Unit {0})) → ¬ AreRacy three (v ∷ v ∷ []) }
{}

/// Each end but main's return is reported, with the places of those that it is about.
pub fn each_bad_end_is_reported()
    ensures deadlock { (b : BadEnd (Unit {0})) → Reports b End.Deadlock (at 0 3 ∷ at 1 4 ∷ []) → AreBadEnds three (b ∷ []) }
    ensures elsewhere { (b : BadEnd (Unit {0})) → Reports b End.Deadlock (at 0 3 ∷ []) → ¬ AreBadEnds three (b ∷ []) }
    ensures main { (b : BadEnd (Unit {0})) → Reports b End.Main [] → ¬ AreBadEnds three (b ∷ []) }
    ensures none { ¬ AreBadEnds {A = Unit {0}} three [] }
{}

/// A run has one event at least and as many as a trace at most; one run at least is wanted.
pub fn limits_have_their_own()
    ensures least { are_explore_limits 1 1 ≡ true }
    ensures greatest { are_explore_limits 16777216 1000000000000 ≡ true }
    ensures no_event { are_explore_limits 0 1 ≡ false }
    ensures no_run { are_explore_limits 1 0 ≡ false }
    ensures one_more { are_explore_limits 16777217 1 ≡ false }
{}
