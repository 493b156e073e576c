//! Which events are independent, and which lists differ only in the order of such neighbours. Each function does
//! nothing, and its contract is the example.
ghost use Rattle.std.specs.Prelude.{◌≡◌, true, false, [], ◌∷◌};
ghost use Rattle.race_records.specs.declared.event.Op.TheVariants.{Go, Exit, Read, Write, Send, Recv, Meet};
ghost use Rattle.race_records.specs.declared.event.Op.TheVariants.{RecvClosed, Close};
ghost use Rattle.race_records.specs.declared.event.Op.TheVariants.{Default, Lock, Unlock, RLock, TryFail};
ghost use Rattle.race_records.specs.declared.event.Op.TheVariants.{OnceBegin, OnceDone, Fault};
ghost use Rattle.race_records.specs.declared.event.Cause.TheVariants.{CloseNil};
ghost use Rattle.race_model.specs.Examples.{main, w, v, x, does};
ghost use Rattle.race_exchange.specs.Independent.{are_independent, are_turned};
ghost use Rattle.race_exchange.specs.Exchange.{IsExchanged, SameButForOrder, IsInOrder, IsFirstTurned};
ghost use Rattle.race_exchange.specs.Examples.{y, v_writes, w_writes, main_writes, greater_first, lesser_first};
ghost use Rattle.race_exchange.specs.Examples.{greater_first_then_exit, lesser_first_then_exit, three_turned};
ghost use Rattle.race_exchange.specs.Examples.{three_in_order, on_one_variable, on_one_variable_turned};

/// Two accesses of one variable collide, but for two reads.
pub fn accesses_of_one_variable_collide()
    ensures two_reads { are_independent (does main (Read x 0)) (does w (Read x 0)) ≡ true }
    ensures read_and_write { are_independent (does main (Read x 0)) (does w (Write x 1)) ≡ false }
    ensures write_and_read { are_independent (does main (Write x 1)) (does w (Read x 1)) ≡ false }
    ensures two_writes { are_independent (does main (Write x 1)) (does w (Write x 2)) ≡ false }
    ensures two_variables { are_independent (does main (Write x 1)) (does w (Write y 2)) ≡ true }
{}

/// Operations on one channel collide, whatever they are.
pub fn operations_on_one_channel_collide()
    ensures sends { are_independent (does main (Send 0 1)) (does w (Send 0 2)) ≡ false }
    ensures send_and_receive { are_independent (does main (Send 0 1)) (does w (Recv 0 3)) ≡ false }
    ensures close_and_receive { are_independent (does main (Close 0)) (does w (RecvClosed 0)) ≡ false }
    ensures meet_and_close { are_independent (does main (Meet w 0 1)) (does v (Close 0)) ≡ false }
    ensures two_channels { are_independent (does main (Send 0 1)) (does w (Recv 1 3)) ≡ true }
{}

/// So do those on one lock, two locks for reading and failed tries too.
pub fn operations_on_one_lock_collide()
    ensures lock_and_unlock { are_independent (does main (Unlock 0)) (does w (Lock 0)) ≡ false }
    ensures two_readers { are_independent (does main (RLock 0)) (does w (RLock 0)) ≡ false }
    ensures failed_try { are_independent (does main (Unlock 0)) (does w (TryFail 0)) ≡ false }
    ensures two_locks { are_independent (does main (Lock 0)) (does w (Lock 1)) ≡ true }
{}

/// So do calls of one once.
pub fn calls_of_one_once_collide()
    ensures one_once { are_independent (does main (OnceDone 0)) (does w (OnceDone 0)) ≡ false }
    ensures two_onces { are_independent (does main (OnceBegin 0)) (does w (OnceBegin 1)) ≡ true }
    ensures other_kinds { are_independent (does main (Lock 0)) (does w (Close 0)) ≡ true }
{}

/// No goroutine takes part in both: neither as its own, nor as the one that starts, nor as the receiver.
pub fn no_goroutine_takes_part_in_both()
    ensures own { are_independent (does main (Write x 1)) (does main (Write y 1)) ≡ false }
    ensures started { are_independent (does main (Go w)) (does w (Write x 1)) ≡ false }
    ensures another { are_independent (does main (Go w)) (does v (Write x 1)) ≡ true }
    ensures started_twice { are_independent (does main (Go v)) (does w (Go v)) ≡ false }
    ensures receiver { are_independent (does w (Write x 1)) (does main (Meet w 0 1)) ≡ false }
    ensures beside_a_meet { are_independent (does v (Write x 1)) (does main (Meet w 0 1)) ≡ true }
{}

/// A default, a fault and main's exit stay where they are; another exit doesn't.
pub fn some_events_stay()
    ensures default { are_independent (does main (Default [])) (does w (Write x 1)) ≡ false }
    ensures fault { are_independent (does w (Write x 1)) (does main (Fault CloseNil)) ≡ false }
    ensures main_exit { are_independent (does w (Write x 1)) (does main Exit) ≡ false }
    ensures exit { are_independent (does v (Write x 1)) (does w Exit) ≡ true }
{}

/// Independent neighbours are turned where the greater goroutine comes first.
pub fn the_greater_goroutine_first_is_turned()
    ensures greater_first { are_turned w_writes main_writes ≡ true }
    ensures lesser_first { are_turned main_writes w_writes ≡ false }
    ensures dependent { are_turned (does w (Write x 1)) (does main (Write x 2)) ≡ false }
{}

/// Independent neighbours change places, but for the last two events.
pub fn the_last_two_never_change_places()
    ensures something_follows { IsExchanged greater_first_then_exit lesser_first_then_exit }
    ensures last_two { ¬ IsExchanged greater_first lesser_first }
    ensures dependent { ¬ IsExchanged on_one_variable on_one_variable_turned }
{}

/// Several exchanges bring three events into the other order.
pub fn exchanges_follow_one_another()
    ensures none { SameButForOrder greater_first greater_first }
    ensures three { SameButForOrder three_turned three_in_order }
    ensures one_is_not_enough { ¬ IsExchanged three_turned three_in_order }
{}

/// A list is in order where no independent neighbours with something after them are turned.
pub fn turned_neighbours_are_out_of_order()
    ensures turned { ¬ IsInOrder greater_first_then_exit }
    ensures not_turned { IsInOrder lesser_first_then_exit }
    ensures last_two { IsInOrder greater_first }
    ensures dependent { IsInOrder on_one_variable }
    ensures three { IsInOrder three_in_order }
{}

/// The first that are turned are told.
pub fn the_first_turned_are_told()
    ensures first { IsFirstTurned three_turned 2 }
    ensures later { ¬ IsFirstTurned three_turned 3 }
    ensures nothing_follows { ¬ IsFirstTurned greater_first 2 }
{}
