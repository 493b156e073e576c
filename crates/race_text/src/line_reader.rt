//! A trace from its bytes, piece by piece.
ghost use Rattle.std.specs.Prelude.{◌≡◌, ◌≢◌, ◌++◌, [], Some, None, IfOk, IfErr};
ghost use Rattle.race_text.specs.{Text.{IsTextOf, IsTraceText}, Fault.{trace_causes, text_fault}, Laws.IsOnlyTraceOf};
ghost use Rattle.race_text.specs.{Lines.{IsLineOf, IsNoneBefore}, Owed.HidesNone};
ghost use Rattle.race_text.specs.Fed as spec;

use crate::cause::{TextCause, TextFault};
use crate::fed::Fed;
use crate::reader::Reader;
use race_records::Trace;
use std::alloc::{Allocator, Global};
use std::marker::Model;

/// Reads a trace from its text, which comes in pieces that may be cut anywhere. A line is read as
/// soon as its newline has come.
pub struct LineReader<A: Allocator = Global> {
    fed: Fed<Reader<A>, A>,
}

impl<A: Allocator> Drop for LineReader<A> {
    fn drop(self) {
        let LineReader { fed: _ } = self;
    }
}

impl<A: Allocator> Model for LineReader<A> {
    ghost use Rattle.std.specs.Prelude.{◌≡◌, None};
    ghost use Rattle.race_text.specs.{Reader.{IsReading, lines_read}, Fed.{LinesState, IsUnended}};

    ghost Value = { LinesState };

    ghost view = { λ r. record {
      lines = lines_read r.fed.lines.reader.has_header r.fed.lines.reader.decls r.fed.lines.reader.trace;
      part = r.fed.lines.part.items;
      fault = r.fed.fault;
    } };

    ghost invariant = { λ r. r.fed.fault ≡ None
        → IsReading r.fed.lines.reader.has_header r.fed.lines.reader.decls r.fed.lines.reader.trace
        × IsUnended r.fed.lines.part.items };
}

impl<A: Allocator + Copy> LineReader<A> {
    /// Nothing is fed yet. Takes no memory.
    pub fn new(alloc: A) -> LineReader<A>
        ensures stands { spec.StandsFor trace_causes result [] }
        ensures between { spec.IsBetweenLines result }
    {
        LineReader {
            fed: Fed::new(alloc, Reader::new(alloc)),
        }
    }

    /// Takes the next piece of the text, and tells the first fault of the lines that are ended.
    ///
    /// Memory aside it is Ok exactly where none of them has one. Want of memory hides no fault of its
    /// own line where that line came in one piece. After a refusal each further call refuses in the
    /// same way.
    pub fn feed(&mut self, piece: &[u8]) -> Result<(), TextFault>
        ensures goes_on { spec.GoesOnBy trace_causes self.old self.new piece.now }
        ensures ok { IfOk result (λ _. spec.ForEachFed trace_causes self.old
            (λ fed. spec.ended_fault trace_causes (fed ++ piece.now) ≡ None)) }
        ensures fault { IfErr result (λ told. spec.ForEachFed trace_causes self.old
            (λ fed. told.cause ≢ TextCause.OutOfMemory → spec.ended_fault trace_causes (fed ++ piece.now) ≡ Some told)) }
        ensures memory { IfErr result (λ told. spec.ForEachFed trace_causes self.old
            (λ fed. IsNoneBefore told.line (spec.ended_fault trace_causes (fed ++ piece.now)))) }
        ensures owed { IfErr result (λ told. spec.IsBetweenLines self.old → spec.ForEachFed trace_causes self.old
            (λ fed. HidesNone told (spec.ended_fault trace_causes (fed ++ piece.now)))) }
        ensures line { IfErr result (λ told. spec.ForEachFed trace_causes self.old
            (λ fed. IsLineOf (fed ++ piece.now) told.line)) }
        ensures fine { IfOk result (λ _. self.new.fault ≡ None) }
        ensures told { IfErr result (λ told. self.new.fault ≡ Some told) }
        ensures repeated { (told : TextFault) → self.old.fault ≡ Some told → result ≡ Err told }
    {
        self.fed.feed(piece)
    }

    /// The one trace whose text was fed, or else the first fault, as `parse_trace` tells it.
    pub fn finish(self) -> Result<Trace<A>, TextFault>
        ensures text { IfOk result (λ trace. spec.ForEachFed trace_causes self (IsTextOf trace)) }
        ensures only { IfOk result (λ trace. spec.ForEachFed trace_causes self (λ fed. IsOnlyTraceOf fed trace)) }
        ensures accepted { IfErr result (λ told. spec.ForEachFed trace_causes self
            (λ fed. IsTraceText fed → told.cause ≡ TextCause.OutOfMemory)) }
        ensures fault { IfErr result (λ told. spec.ForEachFed trace_causes self
            (λ fed. told.cause ≢ TextCause.OutOfMemory → text_fault fed ≡ Some told)) }
        ensures memory { IfErr result (λ told. spec.ForEachFed trace_causes self
            (λ fed. IsNoneBefore told.line (text_fault fed))) }
        ensures line { IfErr result (λ told. spec.ForEachFed trace_causes self (λ fed. IsLineOf fed told.line)) }
        ensures repeated { (told : TextFault) → self.fault ≡ Some told → result ≡ Err told }
    {
        let LineReader { fed } = self;
        fed.finish()
    }
}
