//! Small lists of events on onces with their verdicts. Each function does nothing, and its contract is the example.
ghost use Rattle.race_records.specs.declared.event.Op.TheVariants.{Exit, OnceBegin, OnceDone, OnceEnd};
ghost use Rattle.race_model.specs.{Order.HappensBefore, Verdict.{IsVerdict, Clean, Races}, Examples.{main, w, does}};
ghost use Rattle.race_model.specs.{Examples.{race_on_x, capacities, Breaks, Fits, started}, OnceExamples.{o, p, begun}};
ghost use Rattle.race_model.specs.OnceExamples.{ended, nested, inner_ended, side_by_side, found_done, begun_by_w};
ghost use Rattle.race_model.specs.OnceExamples.{left_begun, write_in_function, write_behind_function, read_without_do};
ghost use Rattle.race_model.specs.OnceExamples.{another_ended, both_done, inner_done, outer_done, once_then_begin};
ghost use Rattle.race_model.specs.OnceExamples.{once_then_end, done_then_done};

/// The function of a once begins once.
pub fn a_once_begins_once()
    ensures first { Fits started (does main (OnceBegin o)) }
    ensures begun { Breaks begun (does w (OnceBegin o)) 17 }
    ensures begun_elsewhere { Fits begun (does w (OnceBegin p)) }
    ensures in_its_own_function { Breaks begun (does main (OnceBegin o)) 17 }
    ensures in_the_function_of_another { Fits begun (does main (OnceBegin p)) }
    ensures ended { Breaks ended (does w (OnceBegin o)) 17 }
    ensures ended_elsewhere { Fits ended (does w (OnceBegin p)) }
{}

/// A goroutine ends the function in which it runs: of those that it began and didn't end, the last.
pub fn a_once_ends_where_it_began()
    ensures began { Fits begun (does main (OnceEnd o)) }
    ensures not_begun { Breaks started (does main (OnceEnd o)) 18 }
    ensures begun_by_another { Breaks begun (does w (OnceEnd o)) 18 }
    ensures begun_elsewhere { Breaks begun (does main (OnceEnd p)) 18 }
    ensures ended { Breaks ended (does main (OnceEnd o)) 18 }
    ensures inner { Fits nested (does main (OnceEnd p)) }
    ensures outer_before_inner { Breaks nested (does main (OnceEnd o)) 18 }
    ensures outer_after_inner { Fits inner_ended (does main (OnceEnd o)) }
    ensures inner_again { Breaks inner_ended (does main (OnceEnd p)) 18 }
    ensures beside_another { Fits side_by_side (does main (OnceEnd o)) }
    ensures that_of_another { Breaks side_by_side (does main (OnceEnd p)) 18 }
{}

/// A function is found to have run once it has ended, by whichever goroutine.
pub fn a_once_is_done_when_it_ended()
    ensures not_begun { Breaks started (does main (OnceDone o)) 19 }
    ensures begun { Breaks begun (does w (OnceDone o)) 19 }
    ensures in_its_own_function { Breaks begun (does main (OnceDone o)) 19 }
    ensures ended { Fits ended (does w (OnceDone o)) }
    ensures ended_by_itself { Fits ended (does main (OnceDone o)) }
    ensures ended_elsewhere { Breaks ended (does w (OnceDone p)) 19 }
    ensures inner_ended { Fits inner_ended (does w (OnceDone p)) }
    ensures outer_not_ended { Breaks inner_ended (does w (OnceDone o)) 19 }
    ensures in_the_function_of_another { Fits inner_ended (does main (OnceDone p)) }
    ensures again { Fits found_done (does w (OnceDone o)) }
{}

/// A goroutine doesn't exit from within the function of a once.
pub fn a_once_is_left_before_the_exit()
    ensures inside { Breaks begun (does main Exit) 20 }
    ensures another_inside { Fits begun (does w Exit) }
    ensures main_beside_another { Fits begun_by_w (does main Exit) }
    ensures behind { Fits ended (does main Exit) }
    ensures inner_ended { Breaks inner_ended (does main Exit) 20 }
    ensures another_goroutine { Breaks begun_by_w (does w Exit) 20 }
    ensures after_the_end { Breaks left_begun (does w Exit) 1 }
{}

/// Each `Do` that finds the function ended sees what stands before its end.
pub fn an_end_is_seen_by_who_finds_it()
    ensures ordered { HappensBefore capacities write_in_function 3 7 }
    ensures second { HappensBefore capacities write_in_function 3 8 }
    ensures clean { IsVerdict capacities write_in_function Clean }
    ensures behind { IsVerdict capacities write_behind_function (Races (race_on_x 3 5)) }
    ensures without_do { IsVerdict capacities read_without_do (Races (race_on_x 2 4)) }
    ensures another_once { IsVerdict capacities another_ended (Races (race_on_x 3 7)) }
    ensures both_onces { IsVerdict capacities both_done Clean }
    ensures inner { IsVerdict capacities inner_done (Races (race_on_x 4 7)) }
    ensures outer { IsVerdict capacities outer_done Clean }
{}

/// What begins or ends another function sees nothing of an end, and who found it brings nothing to who finds it next.
pub fn a_once_orders_by_its_end_alone()
    ensures once_then_begin { IsVerdict capacities once_then_begin (Races (race_on_x 1 5)) }
    ensures once_then_end { IsVerdict capacities once_then_end (Races (race_on_x 3 6)) }
    ensures done_then_done { IsVerdict capacities done_then_done (Races (race_on_x 3 6)) }
{}
