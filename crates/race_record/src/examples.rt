//! Which recordings are of a hub, and which stop is told. Each function does nothing, and its contract is the example.
ghost use Rattle.std.specs.Prelude.{◌<◌};
ghost use Rattle.race_record.specs.{declared.shared.Stop.Stop, Examples.{hub_of, main_returns}, Recorded.IsRecordingOf};
ghost use Rattle.race_record.specs.Stops.{rank};

/// A recording has no more events than its hub may make, although main's return ends it whatever the limit is.
pub fn a_recording_keeps_the_limit()
    ensures within { IsRecordingOf (hub_of 1) main_returns }
    ensures beyond { ¬ IsRecordingOf (hub_of 0) main_returns }
{}

/// That a worker couldn't be started is told before want of memory, and that before a job that wasn't taken back.
pub fn stops_are_told_in_order()
    ensures thread { rank Stop.NoThread < rank Stop.OutOfMemory }
    ensures memory { rank Stop.OutOfMemory < rank Stop.Stray }
    ensures not_memory { ¬ (rank Stop.OutOfMemory < rank Stop.NoThread) }
{}
