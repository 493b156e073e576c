//! A routine, and the job that holds it.

use crate::asks::{Asks, Plain, hub_of};
use race_hub::{Answer, Ask, Hub, Job};
use race_records::Object;
use std::alloc::AllocError;
use std::test::Fail;

static READS: [Plain; 2] = [Plain::Read(1), Plain::Read(2)];

// Whether the turn asks to read this variable, and that is kept.
fn turns_to(job: &mut Job<Asks>, var: u32) -> Result<bool, AllocError> {
    let asked = job.turn()?;
    Ok(asked.place == 0 && asked.ask == Ask::Read(var) && job.asked() == Some(asked))
}

// Whether main, which is ready, asks the same in its second turn, and is told nothing but to begin.
fn is_called_once(hub: &mut Hub<Asks>) -> Result<bool, AllocError> {
    let Some(mut job) = hub.take() else {
        return Ok(false);
    };
    let asks_once = turns_to(&mut job, 1)? && turns_to(&mut job, 1)?;
    Ok(asks_once && job.who() == 0 && job.answer() == Answer::Begin)
}

#[test]
fn a_box_is_called_once_for_each_answer(rt: HostRuntime) -> Result<(), Fail> {
    let mut hub = hub_of(rt.alloc(), Object::Var, 1, &READS, &[])?;
    assert!(rt; is_called_once(&mut hub)?);
    Ok(())
}
