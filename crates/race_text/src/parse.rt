//! A text from its bytes, which are there at once.
ghost use Rattle.std.specs.Prelude.{◌≡◌, ◌≢◌, [], Some, IfOk, IfErr};
ghost use Rattle.race_text.specs.{Text.{IsTextOf, IsTraceText}, Fault.{trace_causes, text_fault}, Fed.ended_fault};
ghost use Rattle.race_text.specs.{Laws.IsOnlyTraceOf, Lines.{first_fault, IsLineOf, IsNoneBefore}, Owed.HidesNone};

use crate::cause::{TextCause, TextFault};
use crate::fed::Fed;
use crate::grammar::Grammar;
use crate::reader::Reader;
use race_records::Trace;
use std::alloc::Allocator;

/// The one trace whose text the bytes are, or else their first fault.
///
/// Every text of a trace is read, or refused for want of memory alone, and nothing else is read.
/// Want of memory is told at a line of the text before which none is at fault, and which isn't at
/// fault itself unless it is the last and no newline ends it.
pub fn parse_trace<A: Allocator + Copy>(alloc: A, bytes: &[u8]) -> Result<Trace<A>, TextFault>
    ensures text { IfOk result (λ trace. IsTextOf trace bytes.now) }
    ensures only { IfOk result (λ trace. IsOnlyTraceOf bytes.now trace) }
    ensures accepted { IsTraceText bytes.now
        → IfErr result (λ told. told.cause ≡ TextCause.OutOfMemory) }
    ensures fault { IfErr result
        (λ told. told.cause ≢ TextCause.OutOfMemory → text_fault bytes.now ≡ Some told) }
    ensures memory { IfErr result (λ told. IsNoneBefore told.line (text_fault bytes.now)) }
    ensures owed { IfErr result (λ told. HidesNone told (ended_fault trace_causes bytes.now)) }
    ensures line { IfErr result (λ told. IsLineOf bytes.now told.line) }
{
    parse_by(alloc, Reader::new(alloc), bytes)
}

/// What the bytes are a text of by the grammar, which has taken no line, or else their first fault.
///
/// Want of memory is told as by `parse_trace`.
pub fn parse_by<G: Grammar, A: Allocator + Copy>(
    alloc: A,
    grammar: G,
    bytes: &[u8],
) -> Result<G::Whole, TextFault>
    requires { G.stands_for G.at_start grammar [] }
    ensures text { IfOk result (λ whole. G.is_text_of G.at_start whole bytes.now) }
    ensures fault { IfErr result
        (λ told. told.cause ≢ TextCause.OutOfMemory → first_fault G.causes bytes.now ≡ Some told) }
    ensures memory { IfErr result (λ told. IsNoneBefore told.line (first_fault G.causes bytes.now)) }
    ensures owed { IfErr result (λ told. HidesNone told (ended_fault G.causes bytes.now)) }
    ensures line { IfErr result (λ told. IsLineOf bytes.now told.line) }
{
    let mut fed = Fed::new(alloc, grammar);
    fed.feed(bytes)?;
    fed.finish()
}
