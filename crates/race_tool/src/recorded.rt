//! A program's run.
ghost use Rattle.std.specs.Prelude.{◌≡◌, ◌↔◌, length, Err, IfOk, IfErr, IfSome};
ghost use Rattle.race_script.specs.Certificate.{IsCertified};
ghost use Rattle.race_record.specs.{Recorded.IsRecordingOf, Serial.{IsSerial, IsTurnedAway}};
ghost use Rattle.race_text.specs.Text.{HasText};
ghost use Rattle.race_tool.specs.{Options.picks_asked, Run.{trace_of, HasRun, IsRefusedRun}};

use crate::engine::Unanswered;
use crate::run::RunOptions;
use race_explore::program_hub;
use race_hub::{Hub, Recording, Routine};
use race_record::{RecordFault, record, record_serial};
use race_script::{Program, certify};
use std::alloc::Allocator;
use std::sync::Wait;
use std::thread::Threads;

/// Records a run of the program, of at most as many events as are asked for, and holds it against the program.
pub(crate) fn record_program<T: Threads + Wait + Sync, A: Allocator + Copy + Send>(
    rt: &T,
    alloc: A,
    program: &Program<A>,
    options: &RunOptions<A>,
) -> Result<Recording<A>, Unanswered>
    ensures run { IfOk result (λ recording.
        HasRun options.now.limit (picks_asked options.now) recording program.now) }
    ensures unrecorded { result ≡ Err Unanswered.Unrecorded
        → IsRefusedRun options.now.limit (picks_asked options.now) program.now }
{
    let hub = program_hub(alloc, program, options.limit)?;
    match recorded(rt, hub, options) {
        Ok(recording) => certified(program, recording),
        Err(fault) => Err(no_finding(fault)),
    }
}

// The recording of the hub: by the picks on one thread, or else by workers.
fn recorded<T: Threads + Wait + Sync, R: Routine, A: Allocator + Copy + Send>(
    rt: &T,
    hub: Hub<R, A>,
    options: &RunOptions<A>,
) -> Result<Recording<A>, RecordFault>
    requires back { length hub.out ≡ 0 }
    ensures recording { IfOk result (λ recording. IsRecordingOf hub recording) }
    ensures serial { IfOk result (λ recording.
        IfSome (picks_asked options.now) (λ picks. IsSerial R.asks picks hub recording)) }
    ensures mismatch { result ≡ Err RecordFault.Mismatch
        → IfSome (picks_asked options.now) (λ picks. IsTurnedAway R.asks picks hub) }
{
    match &options.picks {
        Some(picks) => record_serial(hub, picks.as_slice()),
        None => record(rt, hub, options.workers, options.seed),
    }
}

// What the fault comes to for an engine.
fn no_finding(fault: RecordFault) -> Unanswered
    ensures { (result ≡ Unanswered.Unrecorded) ↔ (fault ≡ RecordFault.Mismatch) }
{
    match fault {
        RecordFault::Mismatch => Unanswered::Unrecorded,
        RecordFault::OutOfMemory => Unanswered::Refused,
        RecordFault::NoThread => Unanswered::Refused,
        // The engines have tested the number of workers.
        RecordFault::BadWorkers => Unanswered::Refused,
    }
}

// What was recorded, where it is a run of the program.
fn certified<A: Allocator>(
    program: &Program<A>,
    recording: Recording<A>,
) -> Result<Recording<A>, Unanswered>
    ensures same { IfOk result (λ r. r ≡ recording) }
    ensures run { IfOk result (λ r. IsCertified program.now r) }
    ensures text { IfOk result (λ r. HasText (trace_of r)) }
    ensures unrecorded { IfErr result (λ why. why ≡ Unanswered.Unrecorded) }
    ensures none { IfErr result (λ _. IsCertified program.now recording → ⊥) }
{
    let trace = recording.trace();
    // A proof knows that the trace has a text once its parts are looked at.
    let (_decls, _events) = (trace.decls(), trace.events());
    match certify(program, &recording) {
        Ok(()) => Ok(recording),
        Err(_) => Err(Unanswered::Unrecorded),
    }
}
