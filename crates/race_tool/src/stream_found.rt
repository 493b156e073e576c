//! What there is to say of a trace of which each event was judged as it was read.
ghost use Rattle.std.specs.Prelude.{ℕ, List, IfOk};
ghost use Rattle.race_tool.specs.Streams as spec;

use crate::intake::JudgedStream;
use crate::reply::Shown;
use crate::status;
use race_records::{Sink, WriteFault};
use race_report::write_noted_report;
use race_text::EventStream;
use race_verdict::Report;
use std::alloc::{AllocError, Allocator};
use std::io::Write;

/// The verdict on what was read and judged.
pub(crate) fn find_judged<A: Allocator + Copy>(
    whole: JudgedStream<A>,
) -> Result<Noted<A>, AllocError>
    ensures { IfOk result (λ noted. (bytes : List ℕ) → spec.IsReadText whole bytes
        → spec.IsJudgedText noted.stream noted.verdict bytes) }
{
    let JudgedStream { stream, judge } = whole;
    match judge.finish_noted() {
        Ok(verdict) => Ok(Noted { stream, verdict }),
        Err(_) => Err(AllocError),
    }
}

/// The verdict on a trace of which the events were forgotten.
#[derive(Drop)]
pub(crate) struct Noted<A: Allocator> {
    /// What is left of the trace.
    pub(crate) stream: EventStream<A>,
    /// The verdict, with what its report tells of events.
    pub(crate) verdict: Report<A>,
}

impl<A: Allocator + Copy> Shown for Noted<A> {
    ghost use Rattle.race_report.specs.Printable.{AreNamed};
    ghost use Rattle.race_text.specs.Stream.{decls_of};
    ghost use Rattle.race_tool.specs.Streams.{found_text, found_status};

    ghost is_printable = { λ found. AreNamed (decls_of found.stream) found.verdict };

    ghost text = { found_text };

    ghost status_for = { found_status };

    fn write<W: Write>(&self, sink: &mut Sink<W>) -> Result<(), WriteFault> {
        write_noted_report(self.stream.decls(), &self.verdict, sink)
    }

    fn status(&self) -> u8 {
        match &self.verdict {
            Report::Illegal(_) => status::ILLEGAL,
            Report::Clean { .. } => status::CLEAN,
            Report::Races(_) => status::RACES,
        }
    }
}
