//! Reading a trace whose events are judged meanwhile, and forgotten.
ghost use Rattle.std.specs.Prelude.{◌≡◌, ◌≢◌, ◌<◌, true, [], Some, IfOk, IfErr, OnOk, OnErr};
ghost use Rattle.race_records.specs.Devices.{unread, source_failures, one_more};
ghost use Rattle.race_shards.specs.Limits.{is_block};
ghost use Rattle.race_text.specs.{Fault.trace_causes, Fed.ForEachFedTo, Lines.first_fault, Stream.{Known, StandsFor}};
ghost use Rattle.race_tool.specs.{Input.ReadsInput, Intake.{CanFinish, IsReadable, ReadsOnAll}};
ghost use Rattle.race_tool.specs.Streams as spec;

use crate::handed::{Handed, Judging};
use crate::input::{MAX_TURNS, ReadFault, blank_block, set_memory_apart};
use crate::round::{Ahead, feed_round};
use race_records::Source;
use race_shards::Judge;
use race_text::{EventStream, Fed, TextFault};
use std::alloc::{AllocError, Allocator};
use std::io::Read;
use std::sync::Wait;
use std::thread;
use std::thread::Threads;

/// A trace that was read, and the judge of all its events.
#[derive(Drop)]
pub(crate) struct JudgedStream<A: Allocator> {
    /// What was read.
    pub(crate) stream: EventStream<A>,
    /// The judge of its events, also of those that were handed on.
    pub(crate) judge: Judge<A>,
}

// What was read so far, and by how many reads.
#[derive(Drop)]
struct Intake<A: Allocator> {
    block: Vec<u8, A>,
    ahead: Ahead<A>,
    reader: Fed<EventStream<A>, A>,
    turns: u64,
    // How many events are read before they are handed on.
    wanted: usize,
}

/// Reads a trace as `read_text` does, and judges its events. Where there are several threads, one judges what was read
/// while the others read on.
pub(crate) fn read_judged<T: Threads + Wait + Sync, R: Read, A: Allocator + Copy + Send + Sync>(
    rt: &T,
    alloc: A,
    source: &mut Source<R>,
    judging: Judging,
) -> Result<Result<JudgedStream<A>, TextFault>, ReadFault>
    requires { is_block judging.block ≡ true }
    ensures { ReadsInput spec.IsReadText trace_causes R.remaining source.old source.new result }
{
    let Ok(block) = blank_block(alloc, judging.block_size()) else {
        return Err(ReadFault::OutOfMemory);
    };
    let Ok(ahead) = Ahead::new(alloc, judging.threads) else {
        return Err(ReadFault::OutOfMemory);
    };
    let mut handed = Handed::new(alloc, judging);
    let first = EventStream::keyed(alloc, source.key());
    let reader = Fed::new(alloc, first);
    let mut intake = Intake {
        block,
        ahead,
        reader,
        turns: 0,
        wanted: judging.wanted(),
    };
    loop {
        match read_next(rt, source, &mut intake, &mut handed)? {
            Ok(true) => {}
            Ok(false) => return finish(rt, alloc, intake, handed),
            Err(fault) => return Ok(Err(fault)),
        }
        let stream = &mut intake.reader.lines.reader;
        let Ok(()) = handed.take(alloc, stream) else {
            return Err(ReadFault::OutOfMemory);
        };
    }
}

// Judges the events that were handed on, and reads on: at the same time where there are several threads.
fn read_next<T: Threads + Wait + Sync, R: Read, A: Allocator + Copy + Send + Sync>(
    rt: &T,
    source: &mut Source<R>,
    intake: &mut Intake<A>,
    handed: &mut Handed<A>,
) -> Result<Result<bool, TextFault>, ReadFault>
    requires can { spec.CanJudgeAll handed.old }
    requires ready { (k : Known) × IsReadable (StandsFor k) intake.old }
    ensures reads { ReadsOnAll R.remaining source.old source.new intake.old intake.new result }
    ensures judges { IfOk result (λ answer. OnOk answer (spec.JudgesAll handed.old handed.new)) }
{
    if handed.judging.threads == 1 || handed.events.is_empty() {
        return match handed.judge_all(rt) {
            Ok(()) => intake.read_on(rt, source),
            Err(_) => Err(ReadFault::OutOfMemory),
        };
    }
    let (judged, read) = judge_and_read(rt, source, intake, handed);
    first_told(judged, read)
}

// What is told of both: a fault of the text, and what kept the reading from going on, before a refusal of the judge.
fn first_told(
    judged: Result<(), AllocError>,
    read: Result<Result<bool, TextFault>, ReadFault>,
) -> Result<Result<bool, TextFault>, ReadFault>
    ensures fault { IfOk read (λ answer. IfErr answer (λ fault. result ≡ Ok (Err fault))) }
    ensures stopped { IfErr read (λ fault. result ≡ Err fault) }
    ensures refused { IfOk read (λ answer. OnOk answer (OnErr judged (result ≡ Err ReadFault.OutOfMemory))) }
    ensures judged { OnOk judged (result ≡ read) }
{
    match read {
        Ok(Ok(more)) => match judged {
            Ok(()) => Ok(Ok(more)),
            Err(_) => Err(ReadFault::OutOfMemory),
        },
        Ok(Err(fault)) => Ok(Err(fault)),
        Err(fault) => Err(fault),
    }
}

// Judges the events that were handed on, and reads on at the same time.
fn judge_and_read<T: Threads + Wait + Sync, R: Read, A: Allocator + Copy + Send + Sync>(
    rt: &T,
    source: &mut Source<R>,
    intake: &mut Intake<A>,
    handed: &mut Handed<A>,
) -> (
    Result<(), AllocError>,
    Result<Result<bool, TextFault>, ReadFault>,
)
    requires can { spec.CanJudgeAll handed.old }
    requires ready { (k : Known) × IsReadable (StandsFor k) intake.old }
    ensures judges { OnOk result.0 (spec.JudgesAll handed.old handed.new) }
    ensures reads { ReadsOnAll R.remaining source.old source.new intake.old intake.new result.1 }
{
    thread::join_mut(
        rt,
        &mut ||
            requires { spec.CanJudgeAll handed.now }
        { handed.judge_all(rt) },
        &mut ||
            requires { (k : Known) × IsReadable (StandsFor k) intake.now }
        { intake.read_on(rt, source) },
    )
}

impl<A: Allocator + Copy + Send + Sync> Intake<A> {
    // Reads until there are as many events as are wanted, and tells whether there are, or to the end of the input or of
    // the block that ends its first faulty line.
    fn read_on<T: Threads + Sync, R: Read>(
        &mut self,
        rt: &T,
        source: &mut Source<R>,
    ) -> Result<Result<bool, TextFault>, ReadFault>
        requires { (k : Known) × IsReadable (StandsFor k) self.old }
        ensures { ReadsOnAll R.remaining source.old source.new self.old self.new result }
    {
        while self.turns < MAX_TURNS {
            match feed_round(
                rt,
                source,
                self.block.as_mut_slice(),
                &mut self.reader,
                &mut self.ahead,
            ) {
                Ok(Ok(true)) => self.turns += 1,
                Ok(Ok(false)) => return Ok(Ok(false)),
                Ok(Err(fault)) => return Ok(Err(fault)),
                Err(fault) => return Err(fault),
            }
            if self.reader.lines.reader.events().len() >= self.wanted {
                return Ok(Ok(true));
            }
        }
        Err(ReadFault::Endless)
    }
}

// What was read as a whole, when its last events are judged too.
fn finish<T: Threads + Wait, A: Allocator + Copy + Send + Sync>(
    rt: &T,
    alloc: A,
    intake: Intake<A>,
    handed: Handed<A>,
) -> Result<Result<JudgedStream<A>, TextFault>, ReadFault>
    requires can { (k : Known) × CanFinish k intake handed }
    requires block { is_block handed.judging.block ≡ true }
    ensures text { IfOk result (λ told. IfOk told (λ whole. (k : Known) → spec.IsHanded k handed.judge handed.events.items
        → ForEachFedTo trace_causes (StandsFor k) intake.reader (spec.IsReadText whole))) }
    ensures fault { IfOk result (λ told. IfErr told
        (λ fault. (k : Known) → ForEachFedTo trace_causes (StandsFor k) intake.reader (λ fed. first_fault trace_causes fed ≡ Some fault))) }
    ensures refused { IfErr result (λ fault. fault ≡ ReadFault.OutOfMemory) }
{
    let read = intake.reader.finish();
    let text = set_memory_apart(read)?;
    match text {
        Ok(stream) => match handed.judge_rest(rt, alloc, &stream) {
            Ok(judge) => Ok(Ok(JudgedStream { stream, judge })),
            Err(_) => Err(ReadFault::OutOfMemory),
        },
        Err(fault) => Ok(Err(fault)),
    }
}
