//! What a certificate is made of, and what isn't one. Each function does nothing, and its contract is the example.
ghost use Rattle.std.specs.Prelude.{[], ◌∷◌};
ghost use Rattle.race_records.specs.declared.version.Version.{Version};
ghost use Rattle.race_model.specs.{Examples.{x, go_then_write, write_then_go}, PredictExamples.y};
ghost use Rattle.race_model.specs.PredictExamples.{main_locks_first, main_reads_first, w_writes_another};
ghost use Rattle.race_predict.specs.Certified.{HasNoCertificate, IsCertificate, IsMadeOf, IsPredictedRace};
ghost use Rattle.race_predict.specs.Fronts.{ArePositions};
ghost use Rattle.race_predict.specs.Examples.{trace, trace_in, recorded, locks_first, reads_first, v_reads};
ghost use Rattle.race_predict.specs.Examples.{v_reads_first, read_first, w_writes_twice, w_writes, race, before};

/// The other list is made of the recorded events of the order, but for what reads find. Of two events that are the same a
/// goroutine does the first one first.
pub fn another_run_is_made_of_recorded_events()
    ensures first { IsMadeOf w_writes_twice (0 ∷ 1 ∷ []) w_writes }
    ensures second { ¬ IsMadeOf w_writes_twice (0 ∷ 2 ∷ []) w_writes }
    ensures too_few { ¬ IsMadeOf w_writes_twice (0 ∷ []) w_writes }
    ensures another_value { ¬ IsMadeOf w_writes_twice (0 ∷ 1 ∷ []) w_writes_another }
{}

/// A certificate is such a run, under the recorded declarations, whose last two events race on the variable. Only these two may
/// find other values.
pub fn a_certificate_ends_with_a_race()
    ensures write_first { IsCertificate recorded x locks_first (trace main_locks_first) }
    ensures read_first { IsCertificate recorded x reads_first (trace main_reads_first) }
    ensures another_variable { ¬ IsCertificate recorded y locks_first (trace main_locks_first) }
    ensures another_order { ¬ IsCertificate recorded x reads_first (trace main_locks_first) }
    ensures another_version { ¬ IsCertificate recorded x locks_first (trace_in Version.Two main_locks_first) }
    ensures earlier_read { ¬ IsCertificate (trace v_reads) x read_first (trace v_reads_first) }
{}

/// An order that leaves out what a goroutine did before has none.
pub fn an_order_may_have_no_certificate()
    ensures without_go { HasNoCertificate recorded x (1 ∷ 6 ∷ []) }
    ensures with_go { ¬ HasNoCertificate recorded x locks_first }
{}

/// The race of a prediction is that of its last two events, whichever of them stands first in the recorded trace.
pub fn a_predicted_race_is_that_of_the_last_two()
    ensures last_two { IsPredictedRace recorded (race 1 6) }
    ensures turned { IsPredictedRace recorded (race 6 1) }
    ensures another_event { ¬ IsPredictedRace recorded (race 1 7) }
{}

/// A position counts the events in which a goroutine takes part, its start too.
pub fn a_position_counts_the_events_before()
    ensures each { ArePositions go_then_write 3 (before 0 0 ∷ before 1 0 ∷ before 1 0 ∷ []) }
    ensures without_go { ¬ ArePositions go_then_write 3 (before 0 0 ∷ before 1 0 ∷ before 0 0 ∷ []) }
    ensures partner { ArePositions write_then_go 2 (before 0 0 ∷ before 1 0 ∷ []) }
    ensures both { ¬ ArePositions write_then_go 2 (before 0 0 ∷ before 1 1 ∷ []) }
    ensures too_few { ¬ ArePositions go_then_write 3 (before 0 0 ∷ before 1 0 ∷ []) }
{}
