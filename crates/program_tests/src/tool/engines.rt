//! The engines on bytes, and what they tell.
use race_records::{Sink, Source};
use race_tool::{
    CheckOptions, ExploreOptions, PredictOptions, RunOptions, run_check, run_draw, run_edges,
    run_explain, run_explore, run_predict, run_race, run_run, run_witness,
};
use std::alloc::{AllocError, AllocGlobal, Global};
use std::io::{Read, Write};
use std::sync::Wait;
use std::thread::Threads;

/// A runtime by which each engine can be run.
pub(crate) trait Runtime: AllocGlobal + Threads + Wait + Sync {}

impl<T: AllocGlobal + Threads + Wait + Sync> Runtime for T {}

/// An engine. A witness is of x, and a drawing of each race, as an SVG document or not.
#[derive(Clone, Copy, Debug)]
pub(crate) enum Engine {
    Check,
    Edges,
    Run,
    Race,
    Witness,
    Draw(bool),
    Explain,
    Predict,
    Explore,
}

/// What the engines that have options may be given.
#[derive(Drop)]
pub(crate) struct Options {
    pub(crate) run: RunOptions,
    pub(crate) check: CheckOptions,
}

/// So many shards, and so many events that they are handed at a time.
pub(crate) fn judged_by(shards: usize, block: usize) -> Options {
    Options {
        run: RunOptions::default(),
        check: CheckOptions {
            shards,
            block,
            plain: false,
        },
    }
}

/// The lines of a row, each with its newline.
pub(crate) fn text_of(alloc: Global, row: &str) -> Result<Vec<u8>, AllocError> {
    let mut text = Vec::new(alloc);
    for line in row.split(" / ") {
        text.extend_from_slice(line.as_bytes())?;
        text.push(b'\n')?;
    }
    Ok(text)
}

/// What the engine answers.
pub(crate) fn answer<R: Read, W: Write>(
    rt: &impl Runtime,
    (engine, options): (Engine, &Options),
    source: &mut Source<R>,
    sink: &mut Sink<W>,
) -> u8 {
    let (run, check) = (&options.run, &options.check);
    match engine {
        Engine::Check => run_check(rt, rt.alloc(), source, sink, check),
        Engine::Edges => run_edges(rt.alloc(), source, sink),
        Engine::Run => run_run(rt, rt.alloc(), source, sink, run),
        Engine::Race => run_race(rt, rt.alloc(), source, sink, run, check),
        Engine::Witness => run_witness(rt.alloc(), source, sink, "x"),
        Engine::Draw(svg) => run_draw(rt.alloc(), source, sink, None, svg),
        Engine::Explain => run_explain(rt.alloc(), source, sink),
        Engine::Predict => run_predict(rt.alloc(), source, sink, &PredictOptions::default()),
        Engine::Explore => run_explore(rt.alloc(), source, sink, &ExploreOptions::default()),
    }
}

/// What the engine answers and writes, and how often it read, with how many failures.
pub(crate) fn ended<R: Read + Drop>(
    rt: &impl Runtime,
    engine: (Engine, &Options),
    reader: R,
) -> (u8, Vec<u8>, u64, u64) {
    let mut source = Source::new(reader);
    let mut output = Vec::new(rt.alloc());
    let mut sink = Sink::new(&mut output);
    let answer = answer(rt, engine, &mut source, &mut sink);
    (answer, output, source.reads(), source.failures())
}
