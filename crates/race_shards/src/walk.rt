//! A walk along a legal trace with its stamps.
ghost use Rattle.std.specs.Prelude.{◌+◌, ◌<◌, length, IfOk, OnOk};
ghost use Rattle.race_model.specs.Legal.{IsLegal};
ghost use Rattle.race_verdict.specs.Traces.{capacities};
ghost use Rattle.race_shards.specs.Walking.{StandsAt, IsStampAt};

use race_clock::{Stamp, Stamper};
use race_records::Trace;
use std::alloc::{AllocError, Allocator};

/// Takes event `at`, behind all before it, and stamps it where it is an access.
pub(crate) fn step<A: Allocator + Copy, B: Allocator>(
    stamper: &mut Stamper<A>,
    trace: &Trace<B>,
    at: usize,
) -> Result<Option<Stamp>, AllocError>
    requires legal { IsLegal (capacities trace.now) trace.now.events }
    requires stands { StandsAt trace.now at stamper.old }
    requires inside { at < length trace.now.events }
    ensures stands { OnOk result (StandsAt trace.now (at + 1) stamper.new) }
    ensures stamp { IfOk result (IsStampAt trace.now at stamper.new) }
{
    stamper.step(&trace.events()[at])
}
