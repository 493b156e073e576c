//! The engine of `gorace check`: a trace's text in, its report out.
ghost use Rattle.std.specs.Prelude.{◌≡◌, true, false};
ghost use Rattle.race_text.specs.{Fault.trace_causes, Text.IsTextOf};
ghost use Rattle.race_tool.specs.{Finding.Checks, Outcome.{are_in_limits, Answers, Never, Replies}};
ghost use Rattle.race_tool.specs.{Reply.{reply_text, reply_status}, Streams.{IsFoundOf, found_text, found_status}};
ghost use Rattle.race_tool.specs.Findings as spec;
ghost use Rattle.race_tool.specs.declared.status.TheConstants as status;

use crate::engine::{Engine, Unanswered, answer, status_of_fault};
use crate::handed::Judging;
use crate::input::read_text;
use crate::intake::read_judged;
use crate::judged::judge_plainly;
use crate::reply::{Reply, Shown};
use crate::status;
use crate::stream_found::{Noted, find_judged};
use race_records::{Sink, Source, Trace, WriteFault};
use race_report::write_report;
use race_shards::{MAX_BLOCK, MAX_SHARDS};
use race_text::Reader;
use race_verdict::Verdict;
use std::alloc::Allocator;
use std::io::{Read, Write};
use std::sync::Wait;
use std::thread::Threads;

/// How a trace is judged.
#[derive(Clone, Copy, Debug, PartialEq, Eq)]
pub struct CheckOptions {
    /// How many threads share the work, 1 to 64. In a check one judges and the others read; in a judged run each has a shard
    /// of the variables.
    pub shards: usize,
    /// How many events several threads read, at least, before these are judged, 1 to 65,536; of a judged run, how many are
    /// judged at a time. One thread judges what each read gives.
    pub block: usize,
    /// Whether the plain judge is wanted, which takes at most 2,000 events.
    pub plain: bool,
}

impl Default for CheckOptions {
    /// One thread, the longest blocks, and not the plain judge.
    fn default() -> CheckOptions
        ensures shards { result.shards ≡ 1 }
        ensures block { result.block ≡ MAX_BLOCK }
        ensures plain { result.plain ≡ false }
    {
        CheckOptions {
            shards: 1,
            block: MAX_BLOCK,
            plain: false,
        }
    }
}

impl CheckOptions {
    // Whether each is in its limits.
    pub(crate) fn are_in_limits(&self) -> bool
        ensures { result ≡ are_in_limits self.now }
    {
        1 <= self.shards && self.shards <= MAX_SHARDS && 1 <= self.block && self.block <= MAX_BLOCK
    }

    // Who reads and judges.
    fn judging(&self) -> Judging
        ensures threads { result.threads ≡ self.now.shards }
        ensures block { result.block ≡ self.now.block }
    {
        Judging {
            threads: self.shards,
            block: self.block,
        }
    }
}

/// Judges a trace: reads its text in blocks, and writes the report. It stops reading behind the block
/// that ends the first faulty line, since nothing that follows changes the report then. Events are
/// judged behind the bytes in which they stand, and forgotten; the plain judge wants them all.
///
/// The answer is a status. 0 clean, 66 races, 1 illegal and 2 text fault are told by the report; 3
/// says that an option is out of its limits, or that there are more events than the plain judge
/// takes, which the report tells; 4 that memory or a thread was refused; 5 that a device failed.
///
/// Where there are several threads, one judges while the others read on, and this one waits for them. So
/// what is promised holds where it returns, and it returns if its reads, writes and threads do.
pub fn run_check<T: Threads + Wait + Sync, R: Read, W: Write, A: Allocator + Copy + Send + Sync>(
    rt: &T,
    alloc: A,
    source: &mut Source<R>,
    sink: &mut Sink<W>,
    options: &CheckOptions,
) -> u8
    // An option is out of its limits: nothing is read, and nothing is written.
    ensures usage { are_in_limits options.now ≡ false → result ≡ status.USAGE }
    ensures untouched { are_in_limits options.now ≡ false
        → (source.new ≡ source.old) × (sink.new ≡ sink.old) }

    // Otherwise the report of the whole input was written and the status is the report's, unless
    // memory, a thread or a device was wanting.
    ensures checks { are_in_limits options.now ≡ true
        → Checks options.now.plain R.remaining W.contents source.old source.new sink.old sink.new result }
{
    if !options.are_in_limits() {
        return status::USAGE;
    }
    if options.plain {
        let plain = Plain { alloc };
        let read = |source: &mut Source<R>| read_text(
            alloc,
            source,
            Reader::keyed(alloc, source.key()),
        );
        return answer(&plain, read, |trace| plain.find(trace), source, sink);
    }
    check_as_read(rt, alloc, source, sink, options)
}

// The same by threads, of which one judges while the others read on.
fn check_as_read<T: Threads + Wait + Sync, R: Read, W: Write, A: Allocator + Copy + Send + Sync>(
    rt: &T,
    alloc: A,
    source: &mut Source<R>,
    sink: &mut Sink<W>,
    options: &CheckOptions,
) -> u8
    requires { are_in_limits options.now ≡ true }
    ensures { Answers trace_causes (IsFoundOf {A = A}) (reply_text found_text) (reply_status found_status) Never
        R.remaining W.contents source.old source.new sink.old sink.new result }
{
    let judging = options.judging();
    match read_judged(rt, alloc, source, judging) {
        Ok(Ok(whole)) => match find_judged(whole) {
            Ok(noted) => Reply::Found(noted).send(sink),
            Err(_) => status::REFUSED,
        },
        Ok(Err(fault)) => {
            let reply: Reply<Noted<A>> = Reply::Faulty(fault);
            reply.send(sink)
        }
        Err(fault) => status_of_fault(fault),
    }
}

// What is the plain judge's own: it wants the whole trace.
#[derive(Drop)]
struct Plain<A: Allocator + Copy> {
    alloc: A,
}

impl<A: Allocator + Copy> Plain<A> {
    // What there is to reply to a trace.
    fn find(&self, trace: Trace<A>) -> Result<Reply<Judged<A>>, Unanswered>
        ensures { Replies IsTextOf spec.IsJudged Never trace result }
    {
        match judge_plainly(self.alloc, &trace)? {
            Some(verdict) => Ok(Reply::Found(Judged { trace, verdict })),
            None => Ok(Reply::TooLong(trace.len())),
        }
    }
}

impl<A: Allocator + Copy> Engine for Plain<A> {
    ghost use Rattle.race_tool.specs.{Findings.IsJudged, Outcome.Never};

    type Reader = Reader<A>;

    type Found = Judged<A>;

    ghost is_right = { λ _. IsJudged };

    ghost is_unrecorded = { λ _. Never };
}

/// A trace with its verdict.
#[derive(Drop)]
pub(crate) struct Judged<A: Allocator> {
    /// The trace.
    pub(crate) trace: Trace<A>,
    /// The verdict on it.
    pub(crate) verdict: Verdict<A>,
}

impl<A: Allocator> Shown for Judged<A> {
    ghost use Rattle.race_report.specs.Printable.{RacesAreOf};
    ghost use Rattle.race_tool.specs.Findings.{judged_text, judged_status};

    ghost is_printable = { λ found. RacesAreOf found.trace found.verdict };

    ghost text = { judged_text };

    ghost status_for = { judged_status };

    fn write<W: Write>(&self, sink: &mut Sink<W>) -> Result<(), WriteFault> {
        write_report(&self.trace, &self.verdict, sink)
    }

    fn status(&self) -> u8 {
        match &self.verdict {
            Verdict::Illegal(_) => status::ILLEGAL,
            Verdict::Clean => status::CLEAN,
            Verdict::Races(_) => status::RACES,
        }
    }
}
