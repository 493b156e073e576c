//! Small lists of events on mutexes and rwmutexes with their verdicts. Each function does nothing, and its contract is the example.
ghost use Rattle.race_records.specs.declared.event.Op.TheVariants.{Exit, Fault, Lock, RLock, RUnlock, Unlock};
ghost use Rattle.race_records.specs.declared.event.Cause.TheVariants.{RUnlockFree, UnlockFree};
ghost use Rattle.race_model.specs.{Order.HappensBefore, Verdict.{IsVerdict, Clean, Races}, Examples.{main, w, does}};
ghost use Rattle.race_model.specs.{Examples.{race_on_x, capacities, Breaks, Fits, started}, LockExamples.{l, m}};
ghost use Rattle.race_model.specs.LockExamples.{locked, unlocked, locked_again, one_reader, two_readers};
ghost use Rattle.race_model.specs.LockExamples.{one_reader_left, no_reader_left, locked_by_main_alone, left_locked};
ghost use Rattle.race_model.specs.LockExamples.{left_read_locked, write_then_unlock, unlock_then_write};
ghost use Rattle.race_model.specs.LockExamples.{unlocked_by_another, two_locks_on, no_second_lock, another_unlocked};
ghost use Rattle.race_model.specs.LockExamples.{both_locked, write_then_rlocks, unlock_then_write_then_rlock};
ghost use Rattle.race_model.specs.LockExamples.{second_unlock, earlier_unlock, no_rlock, another_unlocked_then_rlock};
ghost use Rattle.race_model.specs.LockExamples.{read_then_runlock, runlock_then_read, two_read_then_runlock};
ghost use Rattle.race_model.specs.LockExamples.{others_between, two_locks_on_from_read, another_runlocked};
ghost use Rattle.race_model.specs.LockExamples.{readers_side_by_side, reader_after_reader, write_then_rlocks_alone};
ghost use Rattle.race_model.specs.LockExamples.{write_then_lock, write_then_lock_then_lock, write_then_lock_then_rlock};
ghost use Rattle.race_model.specs.LockExamples.{write_then_rlock_then_lock};

/// A `Lock` wants the lock neither locked nor locked for reading, by whichever goroutine.
pub fn a_lock_wants_a_free_lock()
    ensures free { Fits started (does main (Lock l)) }
    ensures held { Breaks locked (does main (Lock l)) 13 }
    ensures held_by_another { Breaks locked (does w (Lock l)) 13 }
    ensures held_elsewhere { Fits locked (does w (Lock m)) }
    ensures unlocked { Fits unlocked (does w (Lock l)) }
    ensures locked_again { Breaks locked_again (does w (Lock l)) 13 }
    ensures left_locked { Breaks left_locked (does main (Lock l)) 13 }
    ensures read_held { Breaks one_reader (does main (Lock l)) 14 }
    ensures read_held_by_another { Breaks one_reader (does w (Lock l)) 14 }
    ensures read_held_elsewhere { Fits one_reader (does w (Lock m)) }
    ensures two_readers { Breaks two_readers (does w (Lock l)) 14 }
    ensures one_reader_left { Breaks one_reader_left (does w (Lock l)) 14 }
    ensures no_reader_left { Fits no_reader_left (does w (Lock l)) }
{}

/// An `RLock` wants the lock not locked; other readers are no hindrance.
pub fn readers_share_a_lock()
    ensures free { Fits started (does main (RLock l)) }
    ensures held { Breaks locked (does main (RLock l)) 13 }
    ensures held_by_another { Breaks locked (does w (RLock l)) 13 }
    ensures held_elsewhere { Fits locked (does w (RLock m)) }
    ensures unlocked { Fits unlocked (does w (RLock l)) }
    ensures beside_a_reader { Fits one_reader (does w (RLock l)) }
    ensures beside_itself { Fits one_reader (does main (RLock l)) }
{}

/// An `Unlock` wants the lock locked, by whichever goroutine; locked for reading isn't locked.
pub fn an_unlock_wants_a_lock()
    ensures free { Breaks started (does main (Unlock l)) 15 }
    ensures held { Fits locked (does main (Unlock l)) }
    ensures held_by_another { Fits locked (does w (Unlock l)) }
    ensures held_elsewhere { Breaks locked (does main (Unlock m)) 15 }
    ensures unlocked { Breaks unlocked (does main (Unlock l)) 15 }
    ensures locked_again { Fits locked_again (does main (Unlock l)) }
    ensures read_held { Breaks one_reader (does main (Unlock l)) 15 }
{}

/// An `RUnlock` wants a reader left, whichever goroutine it is; locked isn't locked for reading.
pub fn an_runlock_wants_an_rlock()
    ensures free { Breaks started (does main (RUnlock l)) 16 }
    ensures read_held { Fits one_reader (does main (RUnlock l)) }
    ensures read_held_by_another { Fits one_reader (does w (RUnlock l)) }
    ensures read_held_elsewhere { Breaks one_reader (does main (RUnlock m)) 16 }
    ensures one_reader_left { Fits one_reader_left (does main (RUnlock l)) }
    ensures no_reader_left { Breaks no_reader_left (does main (RUnlock l)) 16 }
    ensures held { Breaks locked (does main (RUnlock l)) 16 }
{}

/// An unlock fails where the lock isn't locked, and one from reading where no reader is left.
pub fn an_unlock_fails_where_nothing_is_locked()
    ensures unlock { Fits started (does main (Fault (UnlockFree l))) }
    ensures unlock_of_held { Breaks locked (does main (Fault (UnlockFree l))) 23 }
    ensures unlock_of_held_by_another { Breaks locked (does w (Fault (UnlockFree l))) 23 }
    ensures unlock_elsewhere { Fits locked (does main (Fault (UnlockFree m))) }
    ensures unlock_twice { Fits unlocked (does main (Fault (UnlockFree l))) }
    ensures unlock_of_read_held { Fits one_reader (does main (Fault (UnlockFree l))) }
    ensures runlock { Fits started (does main (Fault (RUnlockFree l))) }
    ensures runlock_of_read_held { Breaks one_reader (does main (Fault (RUnlockFree l))) 23 }
    ensures runlock_of_read_held_by_another { Breaks one_reader (does w (Fault (RUnlockFree l))) 23 }
    ensures runlock_elsewhere { Fits one_reader (does main (Fault (RUnlockFree m))) }
    ensures runlock_of_one_left { Breaks one_reader_left (does main (Fault (RUnlockFree l))) 23 }
    ensures runlock_once_too_often { Fits no_reader_left (does main (Fault (RUnlockFree l))) }
    ensures runlock_of_held { Fits locked (does main (Fault (RUnlockFree l))) }
{}

/// Who doesn't run is told before the lock's own rules; a lock that is held keeps nobody from exiting.
pub fn who_does_not_run_locks_nothing()
    ensures unstarted { Breaks locked_by_main_alone (does w (Lock l)) 2 }
    ensures exited { Breaks left_locked (does w (Lock l)) 2 }
    ensures after_the_end { Breaks left_read_locked (does w (Lock l)) 1 }
    ensures exit_with_a_lock { Fits locked (does main Exit) }
    ensures exit_with_a_reader { Fits one_reader (does main Exit) }
{}

/// Each later `Lock` sees what stands before an `Unlock`, and not the next one alone.
pub fn an_unlock_is_seen_by_each_later_lock()
    ensures ordered { HappensBefore capacities write_then_unlock 2 5 }
    ensures clean { IsVerdict capacities write_then_unlock Clean }
    ensures behind { IsVerdict capacities unlock_then_write (Races (race_on_x 3 5)) }
    ensures by_another { IsVerdict capacities unlocked_by_another Clean }
    ensures two_locks_on { IsVerdict capacities two_locks_on Clean }
    ensures no_second_lock { IsVerdict capacities no_second_lock (Races (race_on_x 3 7)) }
    ensures another_lock { IsVerdict capacities another_unlocked (Races (race_on_x 3 7)) }
    ensures both_locks { IsVerdict capacities both_locked Clean }
{}

/// An `RLock` sees what stands before the last `Unlock`, and an earlier one alone brings it nothing.
pub fn an_rlock_sees_the_last_unlock()
    ensures ordered { HappensBefore capacities write_then_rlocks 3 7 }
    ensures second_reader { HappensBefore capacities write_then_rlocks 3 8 }
    ensures clean { IsVerdict capacities write_then_rlocks Clean }
    ensures behind { IsVerdict capacities unlock_then_write_then_rlock (Races (race_on_x 3 5)) }
    ensures second_unlock { IsVerdict capacities second_unlock Clean }
    ensures earlier_unlock { IsVerdict capacities earlier_unlock (Races (race_on_x 3 8)) }
    ensures no_rlock { IsVerdict capacities no_rlock (Races (race_on_x 2 6)) }
    ensures another_lock { IsVerdict capacities another_unlocked_then_rlock (Races (race_on_x 3 7)) }
{}

/// A `Lock` sees what stands before each `RUnlock` since the last `Lock`, and earlier ones alone bring it nothing.
pub fn an_runlock_is_seen_by_the_next_lock()
    ensures ordered { HappensBefore capacities read_then_runlock 2 5 }
    ensures clean { IsVerdict capacities read_then_runlock Clean }
    ensures behind { IsVerdict capacities runlock_then_read (Races (race_on_x 3 5)) }
    ensures two_readers { IsVerdict capacities two_read_then_runlock Clean }
    ensures others_between { IsVerdict capacities others_between Clean }
    ensures two_locks_on { IsVerdict capacities two_locks_on_from_read (Races (race_on_x 3 8)) }
    ensures another_lock { IsVerdict capacities another_runlocked (Races (race_on_x 3 7)) }
{}

/// Readers don't order one another, and a `Lock` or an `RLock` orders nothing by itself.
pub fn a_lock_alone_orders_nothing()
    ensures readers_side_by_side { IsVerdict capacities readers_side_by_side (Races (race_on_x 3 6)) }
    ensures reader_after_reader { IsVerdict capacities reader_after_reader (Races (race_on_x 2 5)) }
    ensures rlock_then_rlock { IsVerdict capacities write_then_rlocks_alone (Races (race_on_x 1 4)) }
    ensures lock_then_unlock { IsVerdict capacities write_then_lock (Races (race_on_x 1 4)) }
    ensures lock_then_lock { IsVerdict capacities write_then_lock_then_lock (Races (race_on_x 1 5)) }
    ensures lock_then_rlock { IsVerdict capacities write_then_lock_then_rlock (Races (race_on_x 1 5)) }
    ensures rlock_then_lock { IsVerdict capacities write_then_rlock_then_lock (Races (race_on_x 1 5)) }
{}
