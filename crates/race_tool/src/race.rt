//! The engine of `gorace race`: a program's text in, the report of a run of it and its end out.
ghost use Rattle.std.specs.Prelude.{◌≡◌, ◌&&◌, true, false};
ghost use Rattle.race_script.specs.Text.{IsTextOf};
ghost use Rattle.race_tool.specs.{Outcome.{are_in_limits, Replies}, Options.{are_run_limits, picks_asked}};
ghost use Rattle.race_tool.specs.Run.{IsUnrecorded};
ghost use Rattle.race_tool.specs.Race as spec;
ghost use Rattle.race_verdict.specs.Verdicts.{verdict_of};
ghost use Rattle.race_tool.specs.declared.status.TheConstants as status;

use crate::check::CheckOptions;
use crate::engine::{Engine, Unanswered, answer};
use crate::input::read_text;
use crate::judged::judge;
use crate::race_printing::write_judged;
use crate::recorded::record_program;
use crate::reply::{Reply, Shown};
use crate::run::{RunOptions, status_of_end};
use crate::status;
use race_hub::{End, Recording};
use race_records::{Sink, Source, WriteFault};
use race_script::{Program, Reader};
use race_verdict::Verdict;
use std::alloc::Allocator;
use std::io::{Read, Write};
use std::sync::Wait;
use std::thread::Threads;

/// Runs a program, by its picks on one thread or else by workers, and judges the run: reads the program's
/// text in blocks, and writes the report of the run's trace and the line of its end. It stops reading
/// behind the block that ends the first faulty line.
///
/// The answer is a status. 66 says that the run has data races; without any it tells how the run ended: 0
/// main returned, 10 a goroutine failed, 11 nobody can go on, 12 the limit is reached, 13 a goroutine
/// asked what can't be. 2 a text fault, which is written; 3 an option is out of its limits, or there are
/// more events than the plain judge takes, of which alone a line is written then; 4 memory or a thread
/// was refused; 5 a device failed; 15 nothing was recorded, or what isn't a run of the program.
///
/// Each worker and each shard past the first is a thread of its own, workers wait for one another, and the
/// call for all. So what is promised holds where it returns; which run workers record isn't said, nor that
/// it is the same twice.
pub fn run_race<T: Threads + Wait + Sync, R: Read, W: Write, A: Allocator + Copy + Send>(
    rt: &T,
    alloc: A,
    source: &mut Source<R>,
    sink: &mut Sink<W>,
    run: &RunOptions<A>,
    check: &CheckOptions,
) -> u8
    // An option is out of its limits: nothing is read, and nothing is written.
    ensures usage { are_run_limits run.now && are_in_limits check.now ≡ false → result ≡ status.USAGE }
    ensures untouched { are_run_limits run.now && are_in_limits check.now ≡ false
        → (source.new ≡ source.old) × (sink.new ≡ sink.old) }

    // Otherwise the report of a run of the program and the line of its end were written, or the fault of
    // the text, and the status is theirs, unless memory, a thread, a device or a recording was wanting.
    ensures judges { are_run_limits run.now && are_in_limits check.now ≡ true
        → spec.Judges A run.now.limit (picks_asked run.now) check.now.plain
        R.remaining W.contents source.old source.new sink.old sink.new result }
{
    if !run.are_in_limits() || !check.are_in_limits() {
        return status::USAGE;
    }
    let race = JudgedRace { alloc, run, check };
    let read = |source: &mut Source<R>| read_text(
        alloc,
        source,
        Reader::keyed(alloc, source.key()),
    );
    let find = |program| race.find(rt, &program);
    answer(&race, read, find, source, sink)
}

// What is a judged run's own.
#[derive(Drop)]
struct JudgedRace<'a, A: Allocator + Copy> {
    alloc: A,
    run: &'a RunOptions<A>,
    check: &'a CheckOptions,
}

impl<A: Allocator + Copy + Send> JudgedRace<'_, A> {
    // What there is to reply to a program.
    fn find<T: Threads + Wait + Sync>(
        &self,
        rt: &T,
        program: &Program<A>,
    ) -> Result<Reply<JudgedRun<A>>, Unanswered>
        ensures { Replies IsTextOf
            (spec.IsJudgedRun self.now.run.now.limit (picks_asked self.now.run.now) self.now.check.now.plain)
            (IsUnrecorded self.now.run.now.limit (picks_asked self.now.run.now)) program.now result }
    {
        let recording = record_program(rt, self.alloc, program, self.run)?;
        match judge(rt, self.alloc, recording.trace(), self.check)? {
            Some(verdict) => Ok(Reply::Found(JudgedRun { recording, verdict })),
            None => Ok(Reply::TooLong(recording.trace().len())),
        }
    }
}

impl<A: Allocator + Copy> Engine for JudgedRace<'_, A> {
    ghost use Rattle.race_tool.specs.{Options.picks_asked, Race.IsJudgedRun, Run.IsUnrecorded};

    type Reader = Reader<A>;

    type Found = JudgedRun<A>;

    ghost is_right = { λ engine.
        IsJudgedRun engine.run.now.limit (picks_asked engine.run.now) engine.check.now.plain };

    ghost is_unrecorded = { λ engine. IsUnrecorded engine.run.now.limit (picks_asked engine.run.now) };
}

/// A run with the verdict on its trace.
#[derive(Drop)]
pub(crate) struct JudgedRun<A: Allocator> {
    /// What was recorded of the run.
    pub(crate) recording: Recording<A>,
    /// The verdict.
    pub(crate) verdict: Verdict<A>,
}

impl<A: Allocator> Shown for JudgedRun<A> {
    ghost use Rattle.race_tool.specs.Race.{judged_text, judged_status, RacesAreOfRun};

    ghost is_printable = { λ found. RacesAreOfRun found.recording found.verdict };

    ghost text = { judged_text };

    ghost status_for = { judged_status };

    fn write<W: Write>(&self, sink: &mut Sink<W>) -> Result<(), WriteFault> {
        write_judged(
            self.recording.trace(),
            &self.verdict,
            self.recording.end(),
            sink,
        )
    }

    // There are races, or else how the run ended.
    fn status(&self) -> u8 {
        status_of_verdict(&self.verdict, self.recording.end())
    }
}

fn status_of_verdict<A: Allocator>(verdict: &Verdict<A>, end: End) -> u8
    ensures { result ≡ spec.status_of_verdict end (verdict_of verdict.now) }
{
    match verdict {
        Verdict::Races(_) => status::RACES,
        Verdict::Illegal(_) => status::ILLEGAL,
        Verdict::Clean => status_of_end(end),
    }
}
