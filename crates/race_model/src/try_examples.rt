//! Small lists of events with tries to lock, and their verdicts. Each function does nothing, and its contract is the example.
ghost use Rattle.race_records.specs.declared.event.Op.TheVariants.{Fault, Lock, RLock, RUnlock, TryFail, TryLock};
ghost use Rattle.race_records.specs.declared.event.Op.TheVariants.{TryRLock, Unlock};
ghost use Rattle.race_records.specs.declared.event.Cause.TheVariants.{RUnlockFree, UnlockFree};
ghost use Rattle.race_model.specs.{Order.HappensBefore, Verdict.{IsVerdict, Clean, Races}, Examples.{main, w, does}};
ghost use Rattle.race_model.specs.{Examples.{race_on_x, capacities, Breaks, Fits, started}, LockExamples.{l, m}};
ghost use Rattle.race_model.specs.LockExamples.{locked, unlocked, one_reader, locked_by_main_alone, left_read_locked};
ghost use Rattle.race_model.specs.TryExamples as tries;

/// A `TryLock` that succeeds wants what a `Lock` wants, and a `TryRLock` what an `RLock` wants.
pub fn a_try_succeeds_where_the_lock_could_be_locked()
    ensures free { Fits started (does main (TryLock l)) }
    ensures held { Breaks locked (does w (TryLock l)) 13 }
    ensures held_elsewhere { Fits locked (does w (TryLock m)) }
    ensures unlocked { Fits unlocked (does w (TryLock l)) }
    ensures read_held { Breaks one_reader (does w (TryLock l)) 14 }
    ensures read_held_elsewhere { Fits one_reader (does w (TryLock m)) }
    ensures free_to_read { Fits started (does main (TryRLock l)) }
    ensures held_to_read { Breaks locked (does w (TryRLock l)) 13 }
    ensures held_elsewhere_to_read { Fits locked (does w (TryRLock m)) }
    ensures unlocked_to_read { Fits unlocked (does w (TryRLock l)) }
    ensures beside_a_reader { Fits one_reader (does w (TryRLock l)) }
{}

/// A `TryLock` that succeeded counts as a `Lock`, and a `TryRLock` as an `RLock`.
pub fn a_try_that_succeeds_locks()
    ensures held { Breaks tries.try_locked (does w (Lock l)) 13 }
    ensures held_for_another_try { Breaks tries.try_locked (does w (TryLock l)) 13 }
    ensures held_for_readers { Breaks tries.try_locked (does w (RLock l)) 13 }
    ensures unlock { Fits tries.try_locked (does main (Unlock l)) }
    ensures runlock { Breaks tries.try_locked (does main (RUnlock l)) 16 }
    ensures unlock_free { Breaks tries.try_locked (does main (Fault (UnlockFree l))) 23 }
    ensures read_held { Breaks tries.try_locked_for_reading (does w (Lock l)) 14 }
    ensures read_held_for_another_try { Breaks tries.try_locked_for_reading (does w (TryLock l)) 14 }
    ensures another_reader { Fits tries.try_locked_for_reading (does w (RLock l)) }
    ensures reader_unlock { Breaks tries.try_locked_for_reading (does main (Unlock l)) 15 }
    ensures reader_runlock { Fits tries.try_locked_for_reading (does main (RUnlock l)) }
    ensures runlock_free { Breaks tries.try_locked_for_reading (does main (Fault (RUnlockFree l))) 23 }
{}

/// A try that succeeded locks its own lock alone.
pub fn a_try_locks_no_other_lock()
    ensures lock { Fits tries.try_locked (does w (Lock m)) }
    ensures unlock { Breaks tries.try_locked (does main (Unlock m)) 15 }
    ensures unlock_free { Fits tries.try_locked (does main (Fault (UnlockFree m))) }
    ensures beside_a_reader { Fits tries.try_locked_for_reading (does w (Lock m)) }
    ensures reader_runlock { Breaks tries.try_locked_for_reading (does main (RUnlock m)) 16 }
    ensures failed_on_another { Breaks tries.try_failed_on_another (does main (Lock l)) 13 }
{}

/// A try may fail whatever state the lock is in, also where it is free; it changes nothing.
pub fn a_try_may_fail_at_any_time()
    ensures free { Fits started (does main (TryFail l)) }
    ensures held { Fits locked (does w (TryFail l)) }
    ensures read_held { Fits one_reader (does w (TryFail l)) }
    ensures not_held { Fits tries.try_failed (does w (Lock l)) }
    ensures not_locked { Breaks tries.try_failed (does main (Unlock l)) 15 }
    ensures not_read_locked { Breaks tries.try_failed (does main (RUnlock l)) 16 }
    ensures still_held { Breaks tries.try_failed_on_held (does w (Lock l)) 13 }
    ensures still_unlocked_by_its_holder { Fits tries.try_failed_on_held (does main (Unlock l)) }
    ensures still_read_held { Breaks tries.try_failed_beside_a_reader (does w (Lock l)) 14 }
    ensures unstarted { Breaks locked_by_main_alone (does w (TryFail l)) 2 }
    ensures after_the_end { Breaks left_read_locked (does w (TryFail l)) 1 }
{}

/// A `TryLock` that succeeds sees what a `Lock` would, and a `TryRLock` what an `RLock` would; for later ones it counts as one.
pub fn a_try_that_succeeds_sees_what_a_lock_would()
    ensures try_ordered { HappensBefore capacities tries.write_then_try 2 5 }
    ensures try_clean { IsVerdict capacities tries.write_then_try Clean }
    ensures after_a_reader { IsVerdict capacities tries.read_then_try Clean }
    ensures of_a_reader { IsVerdict capacities tries.try_reads_then_lock Clean }
    ensures of_a_writer { IsVerdict capacities tries.try_writes_then_lock Clean }
    ensures counted_as_a_lock { IsVerdict capacities tries.try_between (Races (race_on_x 3 8)) }
    ensures failed_not_counted { IsVerdict capacities tries.failed_try_between Clean }
    ensures to_read { IsVerdict capacities tries.write_then_try_to_read Clean }
    ensures last_unlock_alone { IsVerdict capacities tries.earlier_unlock_then_try (Races (race_on_x 3 8)) }
    ensures of_another_lock { IsVerdict capacities tries.write_then_try_of_another (Races (race_on_x 2 5)) }
    ensures to_read_another_lock { IsVerdict capacities tries.write_then_try_to_read_another (Races (race_on_x 2 5)) }
    ensures by_a_try_of_another { IsVerdict capacities tries.try_of_another_writes_then_lock (Races (race_on_x 2 5)) }
{}

/// No edge enters a try that fails, and none leaves it; a try that succeeds orders nothing by itself.
pub fn a_failed_try_orders_nothing()
    ensures into { IsVerdict capacities tries.write_then_failed_try (Races (race_on_x 2 5)) }
    ensures from { IsVerdict capacities tries.write_then_own_failed_try (Races (race_on_x 1 4)) }
    ensures lock_alone { IsVerdict capacities tries.write_then_own_try (Races (race_on_x 1 5)) }
    ensures readers { IsVerdict capacities tries.reader_then_try_to_read (Races (race_on_x 2 5)) }
{}
