//! Whether a recording is a run of a program.
ghost use Rattle.std.specs.Prelude.{◌≡◌, ◌<◌, ◌↔◌, IsOk, IfErr, List, Some, slice_get};
ghost use Rattle.race_records.specs.{declared.{kind.{Kind.{Kind as KindValue}}}, Declarations.count_of};
ghost use Rattle.race_requests.specs.declared.request.Request.{Request as RequestValue};
ghost use Rattle.race_hub.specs.Part.{part_of};
ghost use Rattle.race_script.specs.{Certificate.{IsCertified, LeavesProgram, waiting_of}, Course.IsStop};
ghost use Rattle.race_script.specs.Program.{spelled};

use crate::Program;
use crate::course::{Course, last_fault};
use race_hub::Recording;
use race_records::Kind;
use std::alloc::Allocator;
use thiserror::Error;

/// Where a recording leaves the program.
#[derive(Clone, Copy, Debug, PartialEq, Eq, Error)]
#[error("the recording is no run of the program")]
pub struct NotARun {
    /// The least goroutine that doesn't run its body; main where the declarations differ.
    pub g: u32,
    /// The index of its body's step that isn't what the goroutine did or asked there; 0 where the declarations differ.
    pub step: usize,
}

/// Whether the recording is a run of the program: both declare the same, and what each goroutine did, and then the request
/// of it that waits, follows its body. Takes no memory. (The Go Memory Model, "Memory Model", requirement 1)
pub fn certify<A: Allocator>(program: &Program<A>, recording: &Recording<A>) -> Result<(), NotARun>
    ensures run { IsOk result ↔ IsCertified program.now recording.now }
    ensures leaves { IfErr result (λ at. LeavesProgram program.now recording.now at) }
{
    // Places don't count in this.
    if recording.trace().decls() != program.decls() {
        return Err(NotARun { g: 0, step: 0 });
    }
    for g in 0..program.decls().count(Kind::Goroutine) {
        if let Some(step) = stuck_at(program, recording, g) {
            return Err(NotARun { g, step });
        }
    }
    Ok(())
}

// The step of its body at which the goroutine is stuck; none where it runs its body.
fn stuck_at<A: Allocator>(
    program: &Program<A>,
    recording: &Recording<A>,
    goroutine: u32,
) -> Option<usize>
    requires declared { goroutine < count_of KindValue.Goroutine program.now.decls.declarations }
    requires recorded { goroutine < count_of KindValue.Goroutine recording.now.decls.declarations }
    ensures { (body : List RequestValue) → slice_get program.now.bodies goroutine ≡ Some body → IsStop (spelled program.now.decls.places body)
        recording.now.decls.places goroutine (part_of goroutine recording.now.events) (waiting_of goroutine recording.now.waiting) result }
{
    let trace = recording.trace();
    let course = Course {
        body: program.body(goroutine),
        places: program.decls(),
        recorded: trace.decls(),
        goroutine,
        fault: last_fault(trace),
    };
    let log = recording.logs(goroutine);
    let mut position = 0usize;
    for k in 0..log.len() {
        match course.passed(position, &log.step(k)) {
            Some(behind) => position = behind,
            None => return Some(position),
        }
    }
    if course.waits(position, recording.waiting(goroutine)) {
        None
    } else {
        Some(position)
    }
}
