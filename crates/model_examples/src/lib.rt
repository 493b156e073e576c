//! More small lists of events: of several pairs that race which one is reported, and which lists are no reordering. Apart from
//! race_model, so that one more makes no other crate be proved anew. Each function does nothing, and its contract is the example.
#![tactic(auto)]

ghost use Rattle.std.specs.Prelude.{ℕ, [], ◌∷◌};
ghost use Rattle.race_model.specs.{Race.IsReportedRace, Reorder.IsReordering, Verdict.{IsVerdict, Races}};
ghost use Rattle.race_model.specs.Examples.{x, race_on_x, write_then_go};
ghost use Rattle.model_examples.specs.Examples.{y, race_of, on_y_then_on_x, three_writes, two_reads_then_a_write};

/// Each variable that races has its race, in the order of the variables.
pub fn each_variable_has_its_race()
    ensures both { (caps : ℕ → ℕ) → IsVerdict caps on_y_then_on_x (Races (race_of x 3 4 ∷ race_of y 1 2 ∷ [])) }
    ensures turned { (caps : ℕ → ℕ) → ¬ IsVerdict caps on_y_then_on_x (Races (race_of y 1 2 ∷ race_of x 3 4 ∷ [])) }
    ensures one { (caps : ℕ → ℕ) → ¬ IsVerdict caps on_y_then_on_x (Races (race_on_x 3 4)) }
{}

/// Of three writes that race with each other the first two are reported.
pub fn the_least_later_access_is_reported()
    ensures least { (caps : ℕ → ℕ) → IsReportedRace caps three_writes x 2 3 }
    ensures later { (caps : ℕ → ℕ) → ¬ IsReportedRace caps three_writes x 2 4 }
    ensures last { (caps : ℕ → ℕ) → ¬ IsReportedRace caps three_writes x 3 4 }
{}

/// Of two reads that race with a later write the last is reported.
pub fn the_greatest_earlier_access_is_reported()
    ensures greatest { (caps : ℕ → ℕ) → IsReportedRace caps two_reads_then_a_write x 3 4 }
    ensures earlier { (caps : ℕ → ℕ) → ¬ IsReportedRace caps two_reads_then_a_write x 2 4 }
{}

/// A reordering has each access once, and nothing else, and keeps what happens before.
pub fn a_reordering_keeps_happens_before()
    ensures own { (caps : ℕ → ℕ) → IsReordering caps write_then_go (0 ∷ 2 ∷ []) }
    ensures turned { (caps : ℕ → ℕ) → ¬ IsReordering caps write_then_go (2 ∷ 0 ∷ []) }
    ensures left_out { (caps : ℕ → ℕ) → ¬ IsReordering caps write_then_go (0 ∷ []) }
    ensures twice { (caps : ℕ → ℕ) → ¬ IsReordering caps write_then_go (0 ∷ 2 ∷ 2 ∷ []) }
    ensures other { (caps : ℕ → ℕ) → ¬ IsReordering caps write_then_go (0 ∷ 1 ∷ 2 ∷ []) }
{}
