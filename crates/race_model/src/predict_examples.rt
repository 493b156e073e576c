//! Other runs of the goroutines of small recorded ones, and what they show. Each function does nothing, and its contract is the
//! example.
ghost use Rattle.race_model.specs.{Examples.{capacities, x, go_then_write, two_reads}, PredictExamples.y};
ghost use Rattle.race_model.specs.Predict.{CouldHaveRun, EndsWithRace, IsPrediction};
ghost use Rattle.race_model.specs.PredictExamples.{w_locks_first, main_locks_first, main_reads_first, main_leaves_out};
ghost use Rattle.race_model.specs.PredictExamples.{w_exchanges, both_lock, main_goes_on, main_reads_another};
ghost use Rattle.race_model.specs.PredictExamples.{w_writes_another, own_accesses, race_then_exit};

/// Each goroutine does first what it did first, in a legal list.
pub fn a_front_of_each_goroutine_could_have_run()
    ensures fronts { CouldHaveRun capacities w_locks_first main_locks_first }
    ensures left_out { ¬ CouldHaveRun capacities w_locks_first main_leaves_out }
    ensures exchanged { ¬ CouldHaveRun capacities w_locks_first w_exchanges }
    ensures illegal { ¬ CouldHaveRun capacities w_locks_first both_lock }
{}

/// A goroutine's last event may be a read that finds another value, and nothing else that differs.
pub fn a_last_read_may_find_another_value()
    ensures last { CouldHaveRun capacities w_locks_first main_reads_first }
    ensures not_last { ¬ CouldHaveRun capacities w_locks_first main_goes_on }
    ensures another_variable { ¬ CouldHaveRun capacities w_locks_first main_reads_another }
    ensures write { ¬ CouldHaveRun capacities w_locks_first w_writes_another }
{}

/// A race ends a list: two accesses of one variable by two goroutines stand last, and one of them writes.
pub fn a_race_ends_a_list()
    ensures ends { EndsWithRace go_then_write x }
    ensures another_variable { ¬ EndsWithRace go_then_write y }
    ensures reads { ¬ EndsWithRace two_reads x }
    ensures one_goroutine { ¬ EndsWithRace own_accesses x }
    ensures not_last { ¬ EndsWithRace race_then_exit x }
{}

/// What is predicted is a race of another run, on a variable without one in the recorded run.
pub fn a_prediction_is_of_a_race_that_was_not_recorded()
    ensures write_first { IsPrediction capacities w_locks_first x main_locks_first }
    ensures read_first { IsPrediction capacities w_locks_first x main_reads_first }
    ensures could_not_run { ¬ IsPrediction capacities w_locks_first x main_leaves_out }
    ensures no_race { ¬ IsPrediction capacities w_locks_first x w_locks_first }
    ensures recorded { ¬ IsPrediction capacities go_then_write x go_then_write }
{}
