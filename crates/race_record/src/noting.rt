//! A recording on one thread that notes of each event whether there was another choice.
ghost use Rattle.std.specs.Prelude.{◌≡◌, ◌⊎◌, ◌+◌, ◌<◌, ◌^◌, [], length, Err, IfOk, IfErr, OnOk};
ghost use Rattle.race_record.specs.{Recorded.IsRecordingOf, Noting.{HaveNext, IsNoting, IsNotedOut}};
ghost use Rattle.race_record.specs.Serial.{pick_of, IsSerial, IsTurnedAway};

use crate::RecordFault;
use crate::finished::finished;
use crate::serial::{pick_at, turn_next};
use race_hub::{Hub, Recording, Routine};
use std::alloc::{AllocError, Allocator};

/// An event of a run by picks.
#[derive(Clone, Copy, Debug, PartialEq, Eq)]
pub struct Fork {
    /// The pick by which it happened.
    pub pick: u64,
    /// Whether there was a choice of the next number, too.
    pub more: bool,
}

/// Runs the hub to its end, as [`record_serial`](crate::record_serial) does, and notes the events of the run, one after
/// another. What was noted before is forgotten.
///
/// No job of the hub is out when it starts, and no pick is the greatest that a `u64` can be.
pub fn record_noting<R: Routine, A: Allocator + Copy, B: Allocator>(
    hub: Hub<R, A>,
    picks: &[u64],
    forks: &mut Vec<Fork, B>,
) -> Result<Recording<A>, RecordFault>
    requires back { length hub.out ≡ 0 }
    requires next { HaveNext picks.now }
    ensures noting { IfOk result (λ recording. IsNoting R.asks picks.now hub forks.new.items recording) }
    ensures serial { IfOk result (λ recording. IsSerial R.asks picks.now hub recording) }
    ensures recording { IfOk result (λ recording. IsRecordingOf hub recording) }
    ensures mismatch { result ≡ Err RecordFault.Mismatch → IsTurnedAway R.asks picks.now hub }
    ensures alone { IfErr result (λ fault. (fault ≡ RecordFault.OutOfMemory) ⊎ (fault ≡ RecordFault.Mismatch)) }
{
    let mut hub = hub;
    let Ok(()) = run_noting(&mut hub, picks, forks) else {
        return Err(RecordFault::OutOfMemory);
    };
    match finished(hub) {
        Ok(recording) => Ok(recording),
        Err(fault) => Err(fault),
    }
}

// Until the hub has ended.
fn run_noting<R: Routine, A: Allocator + Copy, B: Allocator>(
    hub: &mut Hub<R, A>,
    picks: &[u64],
    forks: &mut Vec<Fork, B>,
) -> Result<(), AllocError>
    requires back { hub.old.out ≡ [] }
    requires next { HaveNext picks.now }
    ensures { OnOk result (IsNotedOut R.asks picks.now hub.old forks.new.items hub.new) }
{
    forks.clear();
    'events: loop {
        'turns: while turn_next(hub)? {}
        // A proof knows that there is room for one more event once the trace is looked at.
        let _limited = hub.trace();
        let made = forks.as_slice().len();
        let pick = next_pick(picks, made);
        let more = hub.has_choice(pick + 1);
        if !hub.fire(pick)? {
            return Ok(());
        }
        forks.push(Fork { pick, more })?;
    }
}

// The pick of this number, which isn't the greatest that there can be.
fn next_pick(picks: &[u64], number: usize) -> u64
    requires { HaveNext picks.now }
    ensures is { result ≡ pick_of picks.now number }
    ensures next { result + 1 < 2 ^ 64 }
{
    pick_at(picks, number)
}
