//! Reading a block of a trace, whose lines several threads read side by side before they are taken in order.
ghost use Rattle.std.specs.{Prelude.{◌≡◌, ◌≢◌, ◌++◌, ◌≤◌, true, length, IsTrue, All, None, IfOk, IfErr, OnOk}, Io.KnownBytes.Keeps};
ghost use Rattle.race_records.specs.Devices.{unread, source_reads, source_failures, one_more};
ghost use Rattle.race_text.specs.{Ahead.AreAhead, Fault.trace_causes, Stream.{Known, StandsFor}};
ghost use Rattle.race_text.specs.Fed as fed;
ghost use Rattle.race_tool.specs.Input.{FeedsMore, IsBetweenFine, IsRoom};

use crate::input::{ReadFault, set_memory_apart};
use race_records::Source;
use race_text::{EventStream, Fed, LineAhead, TextFault};
use std::alloc::{AllocError, Allocator};
use std::io::Read;
use std::thread;
use std::thread::Threads;

// Fewer bytes are read sooner than a thread is started for them.
const PART: usize = 65_536;

// For so many blocks nothing is read ahead where that was of little use.
const PAUSE: u32 = 16;

/// What threads read ahead.
#[derive(Drop)]
pub(crate) struct Ahead<A: Allocator> {
    /// A list for each of them.
    lists: Vec<Vec<LineAhead, A>, A>,
    /// For how many blocks nothing more is read ahead.
    pause: u32,
}

impl<A: Allocator + Copy> Ahead<A> {
    /// A list for each of the threads but the one that judges. There is none where only one is left, which reads each line
    /// when it takes it.
    pub(crate) fn new(alloc: A, threads: usize) -> Result<Ahead<A>, AllocError> {
        let mut lists = Vec::new(alloc);
        if threads > 2 {
            for _ in 1..threads {
                lists.push(Vec::new(alloc))?;
            }
        }
        Ok(Ahead { lists, pause: 0 })
    }

    // In how many parts so many bytes are read.
    fn parts(&self, bytes: usize) -> usize
        ensures { result ≤ length self.now.lists.items }
    {
        self.lists.len().min(bytes / PART)
    }
}

/// Reads once, and feeds what was read, as `feed_block` does.
pub(crate) fn feed_round<T: Threads + Sync, R: Read, A: Allocator + Copy + Send + Sync>(
    rt: &T,
    source: &mut Source<R>,
    block: &mut [u8],
    reader: &mut Fed<EventStream<A>, A>,
    ahead: &mut Ahead<A>,
) -> Result<Result<bool, TextFault>, ReadFault>
    requires block { IsRoom (length block.old) }
    requires ready { (k : Known) × IsBetweenFine (StandsFor k) reader.old }
    ensures ok { IfOk result (λ answer. (k : Known) → FeedsMore trace_causes (unread R.remaining source.old) (unread R.remaining source.new)
        (fed.IsFed trace_causes (StandsFor k) reader.old) (fed.IsFed trace_causes (StandsFor k) reader.new) answer) }
    ensures calm { result ≢ Err ReadFault.Failed
        → source_failures source.new ≡ source_failures source.old }
    ensures failed { result ≡ Err ReadFault.Failed
        → source_failures source.new ≡ one_more (source_failures source.old) }
    ensures kept { result ≡ Err ReadFault.Failed
        → Keeps (unread R.remaining source.old) (unread R.remaining source.new) }
    ensures ends { result ≢ Err ReadFault.Endless }
    ensures reads { source_reads source.new ≡ one_more (source_reads source.old) }
    ensures ready { (k : Known) → fed.IsReady (StandsFor k) reader.old → fed.IsReady (StandsFor k) reader.new }
    ensures fine { IfOk result (λ answer. OnOk answer (reader.new.fault ≡ None)) }
{
    match source.read(block) {
        Ok(taken) => match set_memory_apart(feed_many(rt, &block[..taken], reader, ahead)) {
            Ok(Ok(())) => Ok(Ok(taken > 0)),
            Ok(Err(fault)) => Ok(Err(fault)),
            Err(fault) => Err(fault),
        },
        Err(_) => Err(ReadFault::Failed),
    }
}

// Feeds bytes, whose lines threads read ahead where there are parts enough for several.
fn feed_many<T: Threads + Sync, A: Allocator + Copy + Send + Sync>(
    rt: &T,
    bytes: &[u8],
    reader: &mut Fed<EventStream<A>, A>,
    ahead: &mut Ahead<A>,
) -> Result<(), TextFault>
    requires { (k : Known) × IsBetweenFine (StandsFor k) reader.old }
    ensures ready { (k : Known) → fed.IsReady (StandsFor k) reader.old → fed.IsReady (StandsFor k) reader.new }
    ensures goes_on { (k : Known) → fed.ForEachFedTo trace_causes (StandsFor k) reader.old
        (λ before. fed.IsFed trace_causes (StandsFor k) reader.new (before ++ bytes.now)) }
    ensures ok { IfOk result (λ _. (k : Known) → fed.ForEachFedTo trace_causes (StandsFor k) reader.old
        (λ before. fed.ended_fault trace_causes (before ++ bytes.now) ≡ None)) }
    ensures err { IfErr result (λ told. (k : Known) → fed.ForEachFedTo trace_causes (StandsFor k) reader.old
        (λ before. fed.IsTold trace_causes (before ++ bytes.now) told)) }
    ensures fine { IfOk result (λ _. reader.new.fault ≡ None) }
{
    if ahead.parts(bytes.len()) < 2 {
        return reader.feed(bytes);
    }
    if ahead.pause > 0 {
        ahead.pause -= 1;
        return reader.feed(bytes);
    }
    // The first line may go on from the last block.
    let (first, rest) = bytes.split_at(first_line_len(bytes));
    reader.feed(first)?;
    feed_side_by_side(rt, rest, reader, ahead)
}

// The same, where threads read ahead. If a line is open before the bytes, `feed_ahead` uses nothing that was read ahead.
fn feed_side_by_side<T: Threads + Sync, A: Allocator + Copy + Send + Sync>(
    rt: &T,
    bytes: &[u8],
    reader: &mut Fed<EventStream<A>, A>,
    ahead: &mut Ahead<A>,
) -> Result<(), TextFault>
    requires { (k : Known) × IsBetweenFine (StandsFor k) reader.old }
    ensures ready { (k : Known) → fed.IsReady (StandsFor k) reader.old → fed.IsReady (StandsFor k) reader.new }
    ensures goes_on { (k : Known) → fed.ForEachFedTo trace_causes (StandsFor k) reader.old
        (λ before. fed.IsFed trace_causes (StandsFor k) reader.new (before ++ bytes.now)) }
    ensures ok { IfOk result (λ _. (k : Known) → fed.ForEachFedTo trace_causes (StandsFor k) reader.old
        (λ before. fed.ended_fault trace_causes (before ++ bytes.now) ≡ None)) }
    ensures err { IfErr result (λ told. (k : Known) → fed.ForEachFedTo trace_causes (StandsFor k) reader.old
        (λ before. fed.IsTold trace_causes (before ++ bytes.now) told)) }
    ensures fine { IfOk result (λ _. reader.new.fault ≡ None) }
{
    if !reader.lines.reader.has_events() {
        return reader.feed(bytes);
    }
    let parts = ahead.parts(bytes.len());
    let lists = &mut ahead.lists.as_mut_slice()[..parts];
    read_ahead(rt, &reader.lines.reader, bytes, lists);
    if is_of_little_use(bytes, lists) {
        ahead.pause = PAUSE;
    }
    let at = reader.feed_ahead(bytes, lists)?;
    reader.feed(&bytes[at..])
}

// Whether few of the lines could be read ahead: a common one has some forty bytes.
fn is_of_little_use<A: Allocator>(bytes: &[u8], lists: &[Vec<LineAhead, A>]) -> bool {
    let mut lines = 0usize;
    for list in lists {
        lines = lines.saturating_add(list.len());
    }
    lines < bytes.len() / 128
}

// How long the first line is, with its newline.
fn first_line_len(bytes: &[u8]) -> usize
    ensures { result ≤ length bytes.now }
{
    match bytes.iter().position(|byte| *byte == b'\n') {
        None => bytes.len(),
        Some(at) => at + 1,
    }
}

// Each thread reads lines of its part of the bytes into its list.
fn read_ahead<T: Threads + Sync, A: Allocator + Copy + Send + Sync>(
    rt: &T,
    stream: &EventStream<A>,
    bytes: &[u8],
    ahead: &mut [Vec<LineAhead, A>],
)
    ensures { All (λ lines. AreAhead stream.now bytes.now lines.items) ahead.new }
{
    let threads = ahead.len();
    if threads == 0 {
        return;
    }
    let size = bytes.len() / threads + 1;
    thread::for_each_mut(
        rt,
        ahead,
        threads,
        &|part: usize, lines: &mut Vec<LineAhead, A>|
            ensures { AreAhead stream.entry.now bytes.entry.now lines.new.items }
        {
            let from = part.saturating_mul(size);
            stream.read_ahead(bytes, from, from.saturating_add(size), lines);
        },
    );
}
