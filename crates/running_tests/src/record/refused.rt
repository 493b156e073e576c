//! Hubs that aren't recorded: main of another went on in place of its own, or the number of workers is out of its limits.

use crate::asks::{Asks, Plain, hub_of};
use crate::turns::{By, exchange};
use race_hub::{Hub, Mismatch};
use race_record::{RecordFault, record, record_serial};
use race_records::Object;
use std::alloc::Global;
use std::sync::Wait;
use std::test::Fail;
use std::thread::Threads;

static WRITE: [Plain; 1] = [Plain::Write(0, 5)];

// A hub in which main of another, which exits, went on in place of its own.
fn exchanged(alloc: Global) -> Result<Hub<Asks>, Fail> {
    let mut writes = hub_of(alloc, Object::Var, 8, &WRITE, &[])?;
    let mut exits = hub_of(alloc, Object::Var, 8, &[], &[])?;
    if exchange(&mut writes, &mut exits)? {
        Ok(writes)
    } else {
        Err(Fail::new("main does not go on"))
    }
}

fn mismatch_of(hub: Hub<Asks>) -> Option<Mismatch> {
    match hub.finish() {
        Ok(_) => None,
        Err(mismatch) => Some(mismatch),
    }
}

// Why a hub from which no job is out isn't recorded; none where it is, or a job is out.
fn fault_of<T: Threads + Wait + Sync>(rt: &T, hub: Hub<Asks>, by: By<'_>) -> Option<RecordFault> {
    if hub.out() != 0 {
        return None;
    }
    match by {
        By::Picks(picks) => record_serial(hub, picks).err(),
        By::Workers(workers, seed) => record(rt, hub, workers, seed).err(),
    }
}

#[test]
fn a_job_of_another_hub_is_no_part(rt: HostRuntime) -> Result<(), Fail> {
    assert!(rt; mismatch_of(exchanged(rt.alloc())?) == Some(Mismatch::Log(0)));
    for by in &[By::Picks(&[]), By::Workers(1, 0)] {
        let fault = fault_of(&rt, exchanged(rt.alloc())?, *by);
        assert!(rt; fault == Some(RecordFault::Mismatch));
    }
    Ok(())
}

#[test]
fn workers_are_1_to_16(rt: HostRuntime) -> Result<(), Fail> {
    for workers in [0, 17] {
        let hub = hub_of(rt.alloc(), Object::Var, 8, &WRITE, &[])?;
        let fault = fault_of(&rt, hub, By::Workers(workers, 0));
        assert!(rt; fault == Some(RecordFault::BadWorkers));
    }
    Ok(())
}
