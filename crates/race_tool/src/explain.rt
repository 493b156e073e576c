//! The engine of `gorace explain`: a trace's text in, its report and what there is to say of it out.
ghost use Rattle.std.specs.Prelude.{ℕ, List, IfOk};
ghost use Rattle.race_tool.specs.Input.{IsReadAs};
ghost use Rattle.race_tool.specs.Explain as spec;

use crate::engine::status_of_fault;
use crate::input::read_kept;
use crate::reply::{Reply, Shown};
use crate::status;
use race_draw::write_text;
use race_explain::{explain_fault, explain_trace};
use race_records::{Sink, Source, Trace, WriteFault};
use race_shards::judge_alone;
use race_text::{Reader, TextFault};
use race_verdict::Verdict;
use std::alloc::{AllocError, Allocator};
use std::io::{Read, Write};

/// Explains what a check reports: reads a trace's text in blocks, and writes the report, and after it the line, the event or
/// the accesses that it is about, and why. It stops reading after the block that ends the first faulty line.
///
/// The answer is a status, as that of a check: 0 clean, 66 races, 1 illegal and 2 text fault; 4: memory was refused; 5: a
/// device failed.
///
/// It judges by one shard, and waits for no thread. It keeps the text until it has judged it. For each race, up to
/// 67 in a trace of a million events, it takes time in proportion to the events before it.
pub fn run_explain<R: Read, W: Write, A: Allocator + Copy>(
    alloc: A,
    source: &mut Source<R>,
    sink: &mut Sink<W>,
) -> u8
    // The report of the whole input and words after it were written, unless memory or a device was wanting.
    ensures explains { spec.Explains A R.remaining W.contents source.old source.new sink.old sink.new result }
{
    let mut bytes = Vec::new(alloc);
    let reader = Reader::keyed(alloc, source.key());
    match read_kept(alloc, source, reader, &mut bytes) {
        Ok(text) => match explain(alloc, bytes, text) {
            Ok(explained) => Reply::Found(explained).send(sink),
            Err(_) => status::REFUSED,
        },
        Err(fault) => status_of_fault(fault),
    }
}

// What there is to say of what was read.
fn explain<A: Allocator + Copy>(
    alloc: A,
    bytes: Vec<u8, A>,
    text: Result<Trace<A>, TextFault>,
) -> Result<Explained<A>, AllocError>
    ensures { IfOk result (λ explained. (whole : List ℕ) → IsReadAs whole text → spec.IsShownAlike bytes.items whole text
        → spec.IsExplaining whole (spec.found explained)) }
{
    match text {
        Ok(trace) => {
            let verdict = judge_alone(alloc, &trace)?;
            let text = explain_trace(alloc, &trace, &verdict)?;
            Ok(Explained::Judged {
                text,
                trace,
                verdict,
            })
        }
        Err(fault) => {
            let text = explain_fault(alloc, bytes.as_slice(), &fault)?;
            Ok(Explained::Faulty { text, fault })
        }
    }
}

/// A report with what there is to say of it.
#[derive(Drop)]
pub(crate) enum Explained<A: Allocator> {
    /// The text, of this first line at fault.
    Faulty {
        /// The text.
        text: Vec<u8, A>,
        /// The fault.
        fault: TextFault,
    },
    /// The text, of this trace with this verdict.
    Judged {
        /// The text.
        text: Vec<u8, A>,
        /// The trace.
        trace: Trace<A>,
        /// The verdict.
        verdict: Verdict<A>,
    },
}

impl<A: Allocator> Shown for Explained<A> {
    ghost use Rattle.std.specs.Prelude.{⊤};
    ghost use Rattle.race_tool.specs.Explain.{explained_text, explained_status};

    ghost is_printable = { λ _. ⊤ };

    ghost text = { explained_text };

    ghost status_for = { explained_status };

    fn write<W: Write>(&self, sink: &mut Sink<W>) -> Result<(), WriteFault> {
        match self {
            Explained::Faulty { text, .. } => write_text(text.as_slice(), sink),
            Explained::Judged { text, .. } => write_text(text.as_slice(), sink),
        }
    }

    fn status(&self) -> u8 {
        match self {
            Explained::Faulty { .. } => status::TEXT_FAULT,
            Explained::Judged { verdict, .. } => match verdict {
                Verdict::Illegal(_) => status::ILLEGAL,
                Verdict::Clean => status::CLEAN,
                Verdict::Races(_) => status::RACES,
            },
        }
    }
}
