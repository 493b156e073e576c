//! The laws of the hub. Each function does nothing, and its contract is the law.
ghost use Rattle.race_hub.specs.Firings.{AFiringIsAnEvent, AGoIsFired, AMeetIsFired, AStarterIsReadyFirst};
ghost use Rattle.race_hub.specs.{Firings.OpeningIsKept, Runs.EachRunIsKept, Laws.EndsComeInOrder};

/// A start is a firing: one event more, and both are ready, the starter first.
pub fn a_go_is_fired()
    ensures { AGoIsFired }
{}

/// A meet is a firing: one event more, and both are ready, the sender first.
pub fn a_meet_is_fired()
    ensures { AMeetIsFired }
{}

/// The state in which the new goroutine is ready before its starter is that of no firing.
pub fn a_starter_is_ready_first()
    ensures { AStarterIsReadyFirst }
{}

/// Neither is a state without an event more.
pub fn a_firing_is_an_event<R>()
    ensures { AFiringIsAnEvent R }
{}

/// The first state is a kept one.
pub fn opening_is_kept<R>()
    ensures { OpeningIsKept R }
{}

/// Whatever jobs are taken and put back, and whichever picks are performed, each state from the first on is a kept one.
pub fn each_run_is_kept<R>()
    ensures { EachRunIsKept R }
{}

/// Of several ends that hold the first is told: main's exit, a failure, a bad request, the limit.
#[tactic(auto, unfolding(crate::specs::Hub::stop_by))]
pub fn ends_come_in_order()
    ensures { EndsComeInOrder }
{}
