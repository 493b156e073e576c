//! The laws of the table and of the choices. Each function does nothing, and its contract is the law.
ghost use Rattle.race_requests.specs.Laws.{EachMeetGoesOn, EachRowGoesOn, MeetsAreListedBySender, NobodyMeetsItself};
ghost use Rattle.race_requests.specs.Laws.{OthersStandAtTheirPlace, RowsOfCloses, RowsOfGoroutines, RowsOfLocks};
ghost use Rattle.race_requests.specs.Laws.{RowsOfMeets, RowsOfOnces, RowsOfReceives, RowsOfSelects, RowsOfSends};
ghost use Rattle.race_requests.specs.Laws.{RowsOfTries, RowsOfVariables, SelectsMeet, SoundTries};

/// The table has a row for a start and one for an exit, and in a run without events each goes on by it.
pub fn rows_of_goroutines()
    ensures { RowsOfGoroutines }
{}

/// A read finds the last value written, or 0.
pub fn rows_of_variables()
    ensures { RowsOfVariables }
{}

/// A send fails on a closed channel, goes on where the buffer has room, and waits otherwise.
pub fn rows_of_sends()
    ensures { RowsOfSends }
{}

/// A receive takes the first value, then finds the channel closed, and waits otherwise.
pub fn rows_of_receives()
    ensures { RowsOfReceives }
{}

/// A close fails on a closed channel and on nil.
pub fn rows_of_closes()
    ensures { RowsOfCloses }
{}

/// A lock waits for whoever holds it, readers share it, and an unlock of what isn't locked fails.
pub fn rows_of_locks()
    ensures { RowsOfLocks }
{}

/// A try of a lock that can be taken has two choices, the lock and then the failure, and another has the failure alone.
pub fn rows_of_tries()
    ensures { RowsOfTries }
{}

/// A try is sound in version 2 alone, and one to lock for reading where the lock is an rwmutex.
pub fn sound_tries()
    ensures { SoundTries }
{}

/// The function of a once is run once, and who comes while it runs waits.
pub fn rows_of_onces()
    ensures { RowsOfOnces }
{}

/// Who sends on an unbuffered channel meets who receives from it.
pub fn rows_of_meets()
    ensures { RowsOfMeets }
{}

/// A select goes on by an offer as that does alone, and by its default, if it has one, where no offer can.
pub fn rows_of_selects()
    ensures { RowsOfSelects }
{}

/// Two selects meet by each pair of offers that sends and receives; none meets itself, and no default is taken beside a meet.
pub fn selects_meet()
    ensures { SelectsMeet }
{}

/// Of several senders and receivers of one unbuffered channel the meets are listed by sender, and then by receiver.
pub fn meets_are_listed_by_sender()
    ensures { MeetsAreListedBySender }
{}

/// What goes on alone stands among the meets by the place of its request.
pub fn others_stand_at_their_place()
    ensures { OthersStandAtTheirPlace }
{}

/// No goroutine meets itself.
pub fn nobody_meets_itself()
    ensures { NobodyMeetsItself }
{}

/// Each request goes on alone just where the words of the run so far say so.
pub fn each_row_goes_on()
    ensures { EachRowGoesOn }
{}

/// So does a sender with a receiver of the same channel.
pub fn each_meet_goes_on()
    ensures { EachMeetGoesOn }
{}
