//! Goroutines of one's own: boxed, recorded by four workers, judged by two shards, and printed.
#![tactic(auto)]

ghost use Rattle.std.specs.Prelude.{◌≡◌, IfOk, length, ⊤};

use anyhow::Result;
use race_hub::{Answer, Ask, Boxed, Hub, Recording, Request, Routine};
use race_record::{record, record_serial};
use race_records::{Decls, Sink};
use race_report::write_report;
use race_shards::{Judge, MAX_BLOCK, OpenGate};
use race_text::write_trace;
use std::alloc::Global;
use std::io;
use std::sync::Wait;
use std::thread::Threads;

// Numbers by kind, in the order of the declarations. Goroutine 0 is main.
const WORKER: u32 = 1;

const JOBS: u32 = 0;

const RESULT: u32 = 0;

/// Hands out a job, waits until it is done, and reads the result.
#[derive(Drop)]
struct Boss {
    asked: u32,
}

impl Routine for Boss {
    // Nothing is promised of what it asks.
    ghost asks = { λ _ _ _ _. ⊤ };

    fn next(&mut self, _answer: Answer) -> Request {
        let ask = match self.asked {
            0 => Ask::Go(WORKER),
            1 => Ask::Send(Some(JOBS), 6),
            2 => Ask::Recv(Some(JOBS)),
            3 => Ask::Read(RESULT),
            _ => Ask::Exit,
        };
        self.asked = self.asked.saturating_add(1);
        Request { ask, place: 0 }
    }
}

/// Squares each job. A hasty worker says that a job is done before it writes the result.
#[derive(Drop)]
struct Worker {
    is_hasty: bool,
    job: u64,
    asked: u32,
}

impl Worker {
    fn new(is_hasty: bool) -> Worker {
        Worker {
            is_hasty,
            job: 0,
            asked: 0,
        }
    }
}

impl Routine for Worker {
    ghost asks = { λ _ _ _ _. ⊤ };

    fn next(&mut self, answer: Answer) -> Request {
        if let Answer::Value(job) = answer {
            self.job = job;
        }
        let ask = match (self.asked % 3, self.is_hasty) {
            (0, _) => Ask::Recv(Some(JOBS)),
            (1, true) | (2, false) => Ask::Send(Some(JOBS), 0),
            _ => Ask::Write(RESULT, self.job.wrapping_mul(self.job)),
        };
        self.asked = self.asked.wrapping_add(1);
        Request { ask, place: 1 }
    }
}

fn hub_of<R: Routine>(alloc: Global, boss: R, worker: R) -> Result<Hub<R>>
    ensures { IfOk result (λ hub. length hub.out ≡ 0) }
{
    let mut decls = Decls::new(alloc);
    decls.add_goroutine("worker")?;
    decls.add_chan("jobs", 0)?;
    decls.add_var("result")?;
    decls.add_place("boss")?;
    decls.add_place("worker")?;
    let mut routines = Vec::new(alloc);
    routines.push(boss)?;
    routines.push(worker)?;
    Ok(Hub::new(alloc, decls, 1_000, routines)?)
}

fn show<T: AllocGlobal + Print + Threads + Wait>(rt: &T, recording: &Recording) -> Result<()> {
    let trace = recording.trace();
    // A proof knows that each event fits once they are looked at.
    let _events = trace.events();
    let verdict = Judge::judge(rt, rt.alloc(), trace, 2, MAX_BLOCK, &OpenGate)?;
    let mut sink = Sink::new(io::writer(rt));
    write_report(trace, &verdict, &mut sink)?;
    Ok(write_trace(trace, &mut sink)?)
}

fn main(rt: HostRuntime) -> Result<()> {
    // Each step waits for the one before, so the recording is the same in whatever order the workers come.
    let boss = Boxed(Box::new(rt.alloc(), Boss { asked: 0 })?);
    let worker = Boxed(Box::new(rt.alloc(), Worker::new(false))?);
    let recording = record(&rt, hub_of(rt.alloc(), boss, worker)?, 4, 7)?;
    show(&rt, &recording)?;

    // What races comes in either order. On one thread the picks say in which.
    let boss = Boxed(Box::new(rt.alloc(), Boss { asked: 0 })?);
    let worker = Boxed(Box::new(rt.alloc(), Worker::new(true))?);
    let recording = record_serial(hub_of(rt.alloc(), boss, worker)?, &[0, 0, 0, 1])?;
    show(&rt, &recording)
}
