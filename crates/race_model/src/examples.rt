//! Small lists of events with their verdicts. Each function does nothing, and its contract is the example.
ghost use Rattle.std.specs.Prelude.{ℕ, ◌≡◌, [], ◌∷◌};
ghost use Rattle.race_records.specs.declared.event.Op.TheVariants.{Exit, Read, Send, Recv, Meet, RecvClosed, Close};
ghost use Rattle.race_records.specs.declared.event.Op.TheVariants.{Default, Fault};
ghost use Rattle.race_records.specs.declared.event.Cause.TheVariants.{SendClosed, CloseClosed, CloseNil};
ghost use Rattle.race_model.specs.{Order.HappensBefore, Reorder.{IsReordering, own_order, finds}, Verdict.IsVerdict};
ghost use Rattle.race_model.specs.{Verdict.{Clean, Races, Illegal}, Examples.{write_then_go, go_then_write}};
ghost use Rattle.race_model.specs.Examples.{exit_then_read, exit_then_go, two_reads, exit_twice, write_unstarted};
ghost use Rattle.race_model.specs.Examples.{go_main, read_unwritten, go_twice, write_exited, read_overwritten};
ghost use Rattle.race_model.specs.Examples.{read_the_first, race_on_x, x, c, d, e, capacities, Breaks, Fits, main, w};
ghost use Rattle.race_model.specs.Examples.{does, started, gone, one_sent, one_received, second_sent, two_waiting};
ghost use Rattle.race_model.specs.Examples.{closed, unbuffered_closed, sent_and_closed, closed_and_emptied};
ghost use Rattle.race_model.specs.Examples.{write_then_send, send_then_write, first_received, second_received};
ghost use Rattle.race_model.specs.Examples.{another_channel_sent, room_then_read, read_then_no_send, room_then_write};
ghost use Rattle.race_model.specs.Examples.{room_for_two, room_for_a_third, send_as_lock, sender_reads};
ghost use Rattle.race_model.specs.Examples.{next_receiver_reads, sender_writes, receiver_writes, sender_writes_behind};
ghost use Rattle.race_model.specs.Examples.{receiver_writes_behind, another_reads, write_then_close, close_then_write};
ghost use Rattle.race_model.specs.Examples.{another_channel_closed, value_behind_close, close_behind_value, a_send};
ghost use Rattle.race_model.specs.Examples.{a_receive, send_on_nil, receive_on_nil, none_ready, first_ready};
ghost use Rattle.race_model.specs.Examples.{last_ready, one_of_two_sent, full_and_passed, nobody_meets, finds_it_full};
ghost use Rattle.race_model.specs.Examples.{finds_it_empty, defaults_between, main_failed, w_failed, reads_and_fails};
ghost use Rattle.race_model.specs.Examples.{finds_it_closed_and_fails};

/// A write before the `go` happens before what the new goroutine reads.
pub fn write_before_the_go_is_ordered()
    ensures ordered { (caps : ℕ → ℕ) → HappensBefore caps write_then_go 0 2 }
    ensures clean { (caps : ℕ → ℕ) → IsVerdict caps write_then_go Clean }
{}

/// A write behind the `go` races with it.
pub fn write_behind_the_go_races()
    ensures { (caps : ℕ → ℕ) → IsVerdict caps go_then_write (Races (race_on_x 1 2)) }
{}

/// Where there is a race, a reordering may let a read find another write: here none, so the initial value.
pub fn a_race_lets_a_read_find_another_write()
    ensures reordering { (caps : ℕ → ℕ) → IsReordering caps go_then_write (2 ∷ 1 ∷ []) }
    ensures in_own_order { finds go_then_write (own_order go_then_write) x 2 ≡ Some 1 }
    ensures in_the_reordering { finds go_then_write (2 ∷ 1 ∷ []) x 2 ≡ None }
{}

/// A goroutine's exit orders nothing, whatever main does next.
pub fn exit_orders_nothing()
    ensures read { (caps : ℕ → ℕ) → IsVerdict caps exit_then_read (Races (race_on_x 1 3)) }
    ensures go { (caps : ℕ → ℕ) → IsVerdict caps exit_then_go (Races (race_on_x 1 4)) }
{}

/// Two reads don't race, even where nothing orders them.
pub fn reads_do_not_race()
    ensures { (caps : ℕ → ℕ) → IsVerdict caps two_reads Clean }
{}

/// The first event that breaks a rule, with the least rule that it breaks.
pub fn first_broken_rules()
    ensures after_end { (caps : ℕ → ℕ) → IsVerdict caps exit_twice (Illegal 1 1) }
    ensures not_running { (caps : ℕ → ℕ) → IsVerdict caps write_unstarted (Illegal 0 2) }
    ensures already_started { (caps : ℕ → ℕ) → IsVerdict caps go_main (Illegal 0 3) }
    ensures stale_read { (caps : ℕ → ℕ) → IsVerdict caps read_unwritten (Illegal 0 21) }
{}

/// Rules that are broken because of what an earlier event did.
pub fn rules_look_back()
    ensures exited { (caps : ℕ → ℕ) → IsVerdict caps write_exited (Illegal 2 2) }
    ensures started_twice { (caps : ℕ → ℕ) → IsVerdict caps go_twice (Illegal 1 3) }
    ensures overwritten { (caps : ℕ → ℕ) → IsVerdict caps read_overwritten (Illegal 1 21) }
    ensures not_the_last { (caps : ℕ → ℕ) → IsVerdict caps read_the_first (Illegal 2 21) }
{}

/// A communication needs two goroutines that run, and `Send`, `Recv` and `Meet` their kind of channel.
pub fn a_communication_has_its_goroutines_and_its_channel()
    ensures receiver_unstarted { Breaks [] (does main (Meet w d 1)) 2 }
    ensures receiver_gone { Breaks gone (does main (Meet w d 1)) 2 }
    ensures sender_unstarted { Breaks [] (does w (Meet main d 1)) 2 }
    ensures both_run { Fits started (does main (Meet w d 1)) }
    ensures with_itself { Breaks [] (does main (Meet main d 1)) 4 }
    ensures with_itself_on_a_buffer { Breaks [] (does main (Meet main c 1)) 4 }
    ensures meet_on_a_buffer { Breaks started (does main (Meet w c 1)) 5 }
    ensures send_with_no_buffer { Breaks [] (does main (Send d 1)) 5 }
    ensures receive_with_no_buffer { Breaks [] (does main (Recv d 1)) 5 }
{}

/// A buffer takes as many values as its capacity, and gives them in the order sent.
pub fn a_buffer_is_a_queue()
    ensures room { Fits [] (does main (Send c 1)) }
    ensures full { Breaks one_sent (does main (Send c 2)) 7 }
    ensures room_again { Fits one_received (does main (Send c 2)) }
    ensures room_elsewhere { Fits one_sent (does main (Send e 1)) }
    ensures empty { Breaks [] (does main (Recv c 1)) 8 }
    ensures filled { Fits one_sent (does main (Recv c 1)) }
    ensures empty_again { Breaks one_received (does main (Recv c 1)) 8 }
    ensures empty_elsewhere { Breaks one_sent (does main (Recv e 1)) 8 }
    ensures another_value { Breaks one_sent (does main (Recv c 2)) 9 }
    ensures the_second_value { Fits second_sent (does main (Recv c 2)) }
    ensures the_first_value_again { Breaks second_sent (does main (Recv c 1)) 9 }
    ensures in_order { Fits two_waiting (does main (Recv e 1)) }
    ensures out_of_order { Breaks two_waiting (does main (Recv e 2)) 9 }
{}

/// A closed channel takes no value and no other close; a receive finds it closed once its buffer is empty.
pub fn a_closed_channel_takes_nothing()
    ensures send { Breaks closed (does main (Send c 1)) 6 }
    ensures send_when_full { Breaks sent_and_closed (does main (Send c 2)) 6 }
    ensures send_elsewhere { Fits closed (does main (Send e 1)) }
    ensures meet { Breaks unbuffered_closed (does main (Meet w d 1)) 6 }
    ensures receive { Fits sent_and_closed (does main (Recv c 1)) }
    ensures receive_of_nothing { Breaks closed (does main (Recv c 0)) 8 }
    ensures open { Breaks [] (does main (RecvClosed c)) 10 }
    ensures open_with_a_value { Breaks one_sent (does main (RecvClosed c)) 10 }
    ensures open_elsewhere { Breaks closed (does main (RecvClosed e)) 10 }
    ensures a_value_left { Breaks sent_and_closed (does main (RecvClosed c)) 11 }
    ensures nothing_left { Fits closed_and_emptied (does main (RecvClosed c)) }
    ensures never_a_value { Fits closed (does main (RecvClosed c)) }
    ensures unbuffered { Fits unbuffered_closed (does main (RecvClosed d)) }
    ensures close_twice { Breaks closed (does main (Close c)) 12 }
    ensures close_elsewhere { Fits closed (does main (Close d)) }
{}

/// A receive sees what stands before the send of the value that it gets.
pub fn a_value_brings_what_stands_before_its_send()
    ensures ordered { HappensBefore capacities write_then_send 1 4 }
    ensures clean { IsVerdict capacities write_then_send Clean }
    ensures behind { IsVerdict capacities send_then_write (Races (race_on_x 2 4)) }
    ensures first_value { IsVerdict capacities first_received (Races (race_on_x 2 5)) }
    ensures second_value { IsVerdict capacities second_received Clean }
    ensures another_channel { IsVerdict capacities another_channel_sent (Races (race_on_x 2 5)) }
{}

/// A send sees what stands before the receive that made room for it: number k plus the capacity that of number k.
pub fn a_receive_makes_room_for_a_send()
    ensures ordered { HappensBefore capacities room_then_read 2 5 }
    ensures clean { IsVerdict capacities room_then_read Clean }
    ensures no_second_send { IsVerdict capacities read_then_no_send (Races (race_on_x 2 4)) }
    ensures behind { IsVerdict capacities room_then_write (Races (race_on_x 3 5)) }
    ensures room_anyway { IsVerdict capacities room_for_two (Races (race_on_x 2 5)) }
    ensures third_send { IsVerdict capacities room_for_a_third Clean }
    ensures lock { IsVerdict capacities send_as_lock Clean }
{}

/// What comes to the end of a send doesn't go on from its begin, to the receive of its value.
pub fn a_buffered_operation_is_not_one_point()
    ensures sender { IsVerdict capacities sender_reads Clean }
    ensures receiver { IsVerdict capacities next_receiver_reads (Races (race_on_x 3 7)) }
{}

/// On an unbuffered channel sender and receiver see what stands before the other's part, and nobody else does.
pub fn a_meet_orders_both_ways()
    ensures sent { IsVerdict capacities sender_writes Clean }
    ensures received { IsVerdict capacities receiver_writes Clean }
    ensures sender_behind { IsVerdict capacities sender_writes_behind (Races (race_on_x 2 3)) }
    ensures receiver_behind { IsVerdict capacities receiver_writes_behind (Races (race_on_x 2 3)) }
    ensures another { IsVerdict capacities another_reads (Races (race_on_x 2 4)) }
{}

/// Each receive that finds a channel closed sees what stands before the close; a receive of a value doesn't.
pub fn a_close_is_seen_by_who_finds_it()
    ensures first { HappensBefore capacities write_then_close 2 6 }
    ensures second { HappensBefore capacities write_then_close 2 7 }
    ensures clean { IsVerdict capacities write_then_close Clean }
    ensures behind { IsVerdict capacities close_then_write (Races (race_on_x 2 4)) }
    ensures another_channel { IsVerdict capacities another_channel_closed (Races (race_on_x 2 5)) }
    ensures value { IsVerdict capacities value_behind_close (Races (race_on_x 2 5)) }
    ensures found_closed { IsVerdict capacities close_behind_value Clean }
{}

/// A select takes its default only where no case could go on.
pub fn a_default_is_taken_where_no_case_could_go_on()
    ensures send_with_room { Breaks [] (does main (Default (a_send c ∷ []))) 22 }
    ensures send_when_full { Fits one_sent (does main (Default (a_send c ∷ []))) }
    ensures send_with_room_again { Breaks one_received (does main (Default (a_send c ∷ []))) 22 }
    ensures send_with_room_left { Breaks one_of_two_sent (does main (Default (a_send e ∷ []))) 22 }
    ensures send_with_no_room_left { Fits two_waiting (does main (Default (a_send e ∷ []))) }
    ensures send_elsewhere { Breaks one_sent (does main (Default (a_send e ∷ []))) 22 }
    ensures receive_of_nothing { Fits [] (does main (Default (a_receive c ∷ []))) }
    ensures receive_of_a_value { Breaks one_sent (does main (Default (a_receive c ∷ []))) 22 }
    ensures receive_of_nothing_again { Fits one_received (does main (Default (a_receive c ∷ []))) }
    ensures receive_when_full { Breaks two_waiting (does main (Default (a_receive e ∷ []))) 22 }
    ensures receive_elsewhere { Fits one_sent (does main (Default (a_receive e ∷ []))) }
    ensures unbuffered_send { Fits started (does main (Default (a_send d ∷ []))) }
    ensures unbuffered_receive { Fits started (does main (Default (a_receive d ∷ []))) }
    ensures after_exit { Breaks gone (does w (Default [])) 2 }
{}

/// A case on a closed channel could go on, and one on nil never could.
pub fn a_case_on_a_closed_channel_could_go_on()
    ensures send { Breaks closed (does main (Default (a_send c ∷ []))) 22 }
    ensures send_when_full { Breaks sent_and_closed (does main (Default (a_send c ∷ []))) 22 }
    ensures receive { Breaks closed (does main (Default (a_receive c ∷ []))) 22 }
    ensures value_left { Breaks sent_and_closed (does main (Default (a_receive c ∷ []))) 22 }
    ensures emptied { Breaks closed_and_emptied (does main (Default (a_receive c ∷ []))) 22 }
    ensures receive_elsewhere { Fits closed (does main (Default (a_receive e ∷ []))) }
    ensures unbuffered_send { Breaks unbuffered_closed (does main (Default (a_send d ∷ []))) 22 }
    ensures unbuffered { Breaks unbuffered_closed (does main (Default (a_receive d ∷ []))) 22 }
    ensures another_unbuffered { Fits closed (does main (Default (a_send d ∷ a_receive d ∷ []))) }
    ensures nil { Fits closed (does main (Default (send_on_nil ∷ receive_on_nil ∷ []))) }
    ensures no_case { Fits closed (does main (Default [])) }
{}

/// One case that could go on is enough, wherever it stands.
pub fn each_case_of_a_select_counts()
    ensures none { Fits one_sent (does main (Default none_ready)) }
    ensures first { Breaks one_sent (does main (Default first_ready)) 22 }
    ensures last { Breaks one_sent (does main (Default last_ready)) 22 }
{}

/// A send on a channel or a close of it fails where it is closed; a close of nil always does.
pub fn a_fault_has_its_cause()
    ensures send { Fits closed (does main (Fault (SendClosed c))) }
    ensures send_on_open { Breaks [] (does main (Fault (SendClosed c))) 23 }
    ensures send_when_full { Breaks one_sent (does main (Fault (SendClosed c))) 23 }
    ensures send_elsewhere { Breaks closed (does main (Fault (SendClosed e))) 23 }
    ensures unbuffered_send { Fits unbuffered_closed (does w (Fault (SendClosed d))) }
    ensures close { Fits closed (does main (Fault (CloseClosed c))) }
    ensures close_of_open { Breaks [] (does main (Fault (CloseClosed c))) 23 }
    ensures close_elsewhere { Breaks closed (does main (Fault (CloseClosed e))) 23 }
    ensures unbuffered_close { Fits unbuffered_closed (does w (Fault (CloseClosed d))) }
    ensures close_of_nil { Fits [] (does main (Fault CloseNil)) }
    ensures unstarted { Breaks [] (does w (Fault CloseNil)) 2 }
{}

/// Nothing stands behind a fault, whichever goroutine failed; a default ends nothing.
pub fn a_fault_ends_the_run()
    ensures main_after_main { Breaks main_failed (does main (Read x 0)) 1 }
    ensures another_after_main { Breaks main_failed (does w (Read x 0)) 1 }
    ensures main_after_another { Breaks w_failed (does main (Read x 0)) 1 }
    ensures another_after_another { Breaks w_failed (does w Exit) 1 }
    ensures fault_after_fault { Breaks w_failed (does main (Fault CloseNil)) 1 }
    ensures main_after_an_exit { Fits gone (does main (Read x 0)) }
    ensures default_then_receive { Fits full_and_passed (does main (Recv c 1)) }
    ensures default_then_send { Breaks full_and_passed (does main (Send c 2)) 7 }
{}

/// A default orders nothing between goroutines, and a run that failed is judged like any other.
pub fn a_default_orders_nothing()
    ensures nobody_meets { IsVerdict capacities nobody_meets (Races (race_on_x 1 4)) }
    ensures full { IsVerdict capacities finds_it_full (Races (race_on_x 1 4)) }
    ensures empty { IsVerdict capacities finds_it_empty (Races (race_on_x 2 5)) }
    ensures between { IsVerdict capacities defaults_between Clean }
    ensures failed_run { IsVerdict capacities reads_and_fails (Races (race_on_x 1 3)) }
    ensures ordered_in_a_failed_run { IsVerdict capacities finds_it_closed_and_fails Clean }
{}
