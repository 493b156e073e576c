//! One run of a program, by its picks.
ghost use Rattle.std.specs.Prelude.{◌≡◌, ◌≢◌, ◌↔◌, Err, IfOk, IfErr, length};
ghost use Rattle.race_record.specs.Noting.{HaveNext};
ghost use Rattle.race_script.specs.Certificate.{IsCertified};
ghost use Rattle.race_explore.specs.Walk.{scripts_of, Opens, IsNotedRun, IsRefused};

use crate::fault::{ExploreFault, unrecorded};
use race_hub::{Hub, Recording};
use race_record::{Fork, record_noting};
use race_records::Kind;
use race_script::{Program, Script, certify};
use std::alloc::{AllocError, Allocator};

/// Records the run of the program by these picks, of at most so many events, and notes its events.
pub(crate) fn run_by<A: Allocator + Copy + Send>(
    alloc: A,
    program: &Program<A>,
    limit: u32,
    picks: &[u64],
    forks: &mut Vec<Fork, A>,
) -> Result<Recording<A>, ExploreFault>
    requires { HaveNext picks.now }
    ensures run { IfOk result (λ recording. IsNotedRun program.now limit picks.now forks.new.items recording) }
    ensures refused { result ≡ Err ExploreFault.NotARun → IsRefused program.now limit picks.now }
    ensures in_limits { result ≢ Err ExploreFault.BadLimit }
{
    let hub = program_hub(alloc, program, limit)?;
    match record_noting(hub, picks, forks) {
        Ok(recording) => certified(program, recording),
        Err(fault) => Err(unrecorded(fault)),
    }
}

/// The hub of the program before its first event, of at most so many. There is none where memory is refused, or where
/// the limit is none of a hub's.
pub fn program_hub<A: Allocator + Copy + Send>(
    alloc: A,
    program: &Program<A>,
    limit: u32,
) -> Result<Hub<Script<A>, A>, AllocError>
    ensures opens { IfOk result (λ hub. Opens program.now limit hub) }
    ensures back { IfOk result (λ hub. length hub.out ≡ 0) }
{
    let decls = program.decls().copy()?;
    let scripts = scripts(alloc, program)?;
    match Hub::new(alloc, decls, limit, scripts) {
        Ok(hub) => Ok(hub),
        // There is a script for each goroutine.
        Err(_) => Err(AllocError),
    }
}

// What was recorded, where it is a run of the program.
fn certified<A: Allocator>(
    program: &Program<A>,
    recording: Recording<A>,
) -> Result<Recording<A>, ExploreFault>
    ensures same { IfOk result (λ r. r ≡ recording) }
    ensures run { IfOk result (λ r. IsCertified program.now r) }
    ensures none { IfErr result (λ _. IsCertified program.now recording → ⊥) }
    ensures in_limits { result ≢ Err ExploreFault.BadLimit }
{
    match certify(program, &recording) {
        Ok(()) => Ok(recording),
        Err(_) => Err(ExploreFault::NotARun),
    }
}

// A script for each goroutine.
fn scripts<A: Allocator + Copy>(
    alloc: A,
    program: &Program<A>,
) -> Result<Vec<Script<A>, A>, AllocError>
    ensures { IfOk result (λ scripts. scripts.items ≡ scripts_of program.now) }
{
    let mut scripts = Vec::new(alloc);
    for goroutine in 0..program.decls().count(Kind::Goroutine) {
        scripts.push(Script::new(alloc, program, goroutine)?)?;
    }
    Ok(scripts)
}
