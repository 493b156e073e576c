//! The laws of the definitions. Each function does nothing, and its contract is the law.
ghost use Rattle.race_model.specs.Laws.{AsManyLocksAsUnlocksStandBeforeAnRLock, CloseStandsBeforeWhatFindsIt};
ghost use Rattle.race_model.specs.Laws.{EachFrontCouldHaveRun, EndsInARace, HappensBeforeGoesUp};
ghost use Rattle.race_model.specs.Laws.{HappensBeforeIsTransitive, HasOneReportedRace};
ghost use Rattle.race_model.specs.Laws.{HasOneVerdict, OnceEndStandsBeforeEachOnceDone, OwnOrderIsReordering};
ghost use Rattle.race_model.specs.Laws.{ReceiveStandsBeforeTheSendItMakesRoomFor, ReorderingsFindTheSame};
ghost use Rattle.race_model.specs.Laws.{SendStandsBeforeItsReceive, UnlocksOfALowerNumberStandBeforeALock};
ghost use Rattle.race_model.specs.Laws.{VerdictIsOnOperations};

use race_records::Event;

/// What happens before stands before in the list.
pub fn happens_before_goes_up(_events: &[Event])
    ensures { HappensBeforeGoesUp _events.now }
{}

/// Happens before is transitive.
pub fn happens_before_is_transitive(_events: &[Event])
    ensures { HappensBeforeIsTransitive _events.now }
{}

/// The trace's own order of its accesses is a reordering.
pub fn own_order_is_reordering(_events: &[Event])
    ensures { OwnOrderIsReordering _events.now }
{}

/// Without a data race, every read finds the same write in every reordering.
pub fn reorderings_find_the_same(_events: &[Event])
    ensures { ReorderingsFindTheSame _events.now }
{}

/// A variable has at most one reported race.
pub fn has_one_reported_race(_events: &[Event])
    ensures { HasOneReportedRace _events.now }
{}

/// A list of events has at most one verdict.
pub fn has_one_verdict(_events: &[Event])
    ensures { HasOneVerdict _events.now }
{}

/// A verdict is on who does what: lists that differ in places alone have the same ones.
pub fn verdict_is_on_operations(_events: &[Event])
    ensures { VerdictIsOnOperations _events.now }
{}

/// In a legal list the kth send on a channel stands before the kth receive from it.
pub fn send_stands_before_its_receive(_events: &[Event])
    ensures { SendStandsBeforeItsReceive _events.now }
{}

/// In a legal list a receive stands before the send that it makes room for.
pub fn receive_stands_before_the_send_it_makes_room_for(_events: &[Event])
    ensures { ReceiveStandsBeforeTheSendItMakesRoomFor _events.now }
{}

/// In a legal list a close stands before each receive that finds the channel closed.
pub fn close_stands_before_what_finds_it(_events: &[Event])
    ensures { CloseStandsBeforeWhatFindsIt _events.now }
{}

/// In a legal list the unlocks of a lower number than a lock's are those that stand before it.
pub fn unlocks_of_a_lower_number_stand_before_a_lock(_events: &[Event])
    ensures { UnlocksOfALowerNumberStandBeforeALock _events.now }
{}

/// In a legal list as many locks as unlocks stand before a lock for reading.
pub fn as_many_locks_as_unlocks_stand_before_an_rlock(_events: &[Event])
    ensures { AsManyLocksAsUnlocksStandBeforeAnRLock _events.now }
{}

/// In a legal list the end of a once's function stands before each call that finds it ended.
pub fn once_end_stands_before_each_once_done(_events: &[Event])
    ensures { OnceEndStandsBeforeEachOnceDone _events.now }
{}

/// A list that ends with the two accesses of a race, by two goroutines, has this race.
pub fn ends_in_a_race(_events: &[Event])
    ensures { EndsInARace _events.now }
{}

/// Each front of a legal list is a run that its goroutines could have had.
pub fn each_front_could_have_run(_events: &[Event])
    ensures { EachFrontCouldHaveRun _events.now }
{}
