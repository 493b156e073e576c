//! The engine of `gorace run`: a program's text in, the trace of a run of it out.
ghost use Rattle.std.specs.Prelude.{◌≡◌, true, false, None};
ghost use Rattle.race_script.specs.Text.{IsTextOf};
ghost use Rattle.race_tool.specs.{Options.{are_run_limits, picks_asked}, Outcome.Replies};
ghost use Rattle.race_tool.specs.Run as spec;
ghost use Rattle.race_tool.specs.declared.status.TheConstants as status;

use crate::engine::{Engine, Unanswered, answer};
use crate::input::read_text;
use crate::recorded::record_program;
use crate::reply::{Reply, Shown};
use crate::status;
use race_hub::{End, Recording};
use race_record::MAX_WORKERS;
use race_records::{MAX_EVENTS, Sink, Source, WriteFault};
use race_script::{Program, Reader};
use race_text::write_trace;
use std::alloc::{Allocator, Global};
use std::io::{Read, Write};
use std::sync::Wait;
use std::thread::Threads;

/// How a program is run.
#[derive(Debug, Drop)]
pub struct RunOptions<A: Allocator = Global> {
    /// How many threads run the program, 1 to 16. With a list of picks it runs on one, and this changes nothing.
    pub workers: usize,
    /// What the workers' picks start from. With a list of picks this changes nothing.
    pub seed: u64,
    /// How many events the run may have, 1 to 16,777,216.
    pub limit: u32,
    /// The picks of the events, one after another, and behind the last they are 0. Without a list workers run the program.
    pub picks: Option<Vec<u64, A>>,
}

impl<A: Allocator> Default for RunOptions<A> {
    /// One worker and the seed 0, the greatest limit, and no list of picks.
    fn default() -> RunOptions<A>
        ensures workers { result.workers ≡ 1 }
        ensures seed { result.seed ≡ 0 }
        ensures limit { result.limit ≡ MAX_EVENTS }
        ensures picks { result.picks ≡ None }
    {
        RunOptions {
            workers: 1,
            seed: 0,
            limit: MAX_EVENTS as u32,
            picks: None,
        }
    }
}

impl<A: Allocator> RunOptions<A> {
    // Whether each is in its limits.
    pub(crate) fn are_in_limits(&self) -> bool
        ensures { result ≡ are_run_limits self.now }
    {
        let has_limit = 1 <= self.limit && self.limit as usize <= MAX_EVENTS;
        has_limit && 1 <= self.workers && self.workers <= MAX_WORKERS
    }
}

/// Runs a program, by its picks on one thread or else by workers: reads its text in blocks, and writes the
/// trace of the run. It stops reading behind the block that ends the first faulty line.
///
/// The answer is a status, which tells how the run ended: 0 main returned, 10 a goroutine failed, 11
/// nobody can go on, 12 the limit is reached, 13 a goroutine asked what can't be. 2 a text fault,
/// which is written; 3 an option is out of its limits; 4 memory or a thread was refused; 5 a device
/// failed; 15 nothing was recorded, or what isn't a run of the program.
///
/// Each worker past the first is a thread of its own, and workers wait for one another. So what is
/// promised holds where it returns; which run they record isn't said, nor that it is the same twice.
pub fn run_run<T: Threads + Wait + Sync, R: Read, W: Write, A: Allocator + Copy + Send>(
    rt: &T,
    alloc: A,
    source: &mut Source<R>,
    sink: &mut Sink<W>,
    options: &RunOptions<A>,
) -> u8
    // An option is out of its limits: nothing is read, and nothing is written.
    ensures usage { are_run_limits options.now ≡ false → result ≡ status.USAGE }
    ensures untouched { are_run_limits options.now ≡ false
        → (source.new ≡ source.old) × (sink.new ≡ sink.old) }

    // Otherwise the trace of a run of the program was written and the status is that of its end, or the
    // fault of the text was, unless memory, a thread, a device or a recording was wanting.
    ensures runs { are_run_limits options.now ≡ true
        → spec.Runs options.now.limit (picks_asked options.now)
        R.remaining W.contents source.old source.new sink.old sink.new result }
{
    if !options.are_in_limits() {
        return status::USAGE;
    }
    let running = Running { alloc, options };
    let read = |source: &mut Source<R>| read_text(
        alloc,
        source,
        Reader::keyed(alloc, source.key()),
    );
    let find = |program| running.find(rt, &program);
    answer(&running, read, find, source, sink)
}

// What is a run's own.
#[derive(Drop)]
struct Running<'a, A: Allocator + Copy> {
    alloc: A,
    options: &'a RunOptions<A>,
}

impl<A: Allocator + Copy + Send> Running<'_, A> {
    // What there is to reply to a program.
    fn find<T: Threads + Wait + Sync>(
        &self,
        rt: &T,
        program: &Program<A>,
    ) -> Result<Reply<Recording<A>>, Unanswered>
        ensures { Replies IsTextOf
            (spec.IsRun self.now.options.now.limit (picks_asked self.now.options.now))
            (spec.IsUnrecorded self.now.options.now.limit (picks_asked self.now.options.now)) program.now result }
    {
        let recording = record_program(rt, self.alloc, program, self.options)?;
        Ok(Reply::Found(recording))
    }
}

impl<A: Allocator + Copy> Engine for Running<'_, A> {
    ghost use Rattle.race_tool.specs.{Options.picks_asked, Run.{IsRun, IsUnrecorded}};

    type Reader = Reader<A>;

    type Found = Recording<A>;

    ghost is_right = { λ engine. IsRun engine.options.now.limit (picks_asked engine.options.now) };

    ghost is_unrecorded = { λ engine. IsUnrecorded engine.options.now.limit (picks_asked engine.options.now) };
}

impl<A: Allocator> Shown for Recording<A> {
    ghost use Rattle.std.specs.Prelude.{⊤};
    ghost use Rattle.race_tool.specs.Run.{run_text, run_status};

    ghost is_printable = { λ _. ⊤ };

    ghost text = { run_text };

    ghost status_for = { run_status };

    fn write<W: Write>(&self, sink: &mut Sink<W>) -> Result<(), WriteFault> {
        write_trace(self.trace(), sink)
    }

    fn status(&self) -> u8 {
        status_of_end(self.end())
    }
}

/// The status of an end.
pub(crate) fn status_of_end(end: End) -> u8
    ensures { result ≡ spec.status_of_end end }
{
    match end {
        End::Main => status::CLEAN,
        End::Fault => status::FAILED,
        End::Deadlock => status::DEADLOCK,
        End::Limit => status::LIMIT,
        End::Bad(_) => status::BAD_REQUEST,
    }
}
