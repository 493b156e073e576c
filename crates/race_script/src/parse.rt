//! A program from its bytes.
ghost use Rattle.std.specs.Prelude.{◌≡◌, ◌≢◌, Some, IfOk, IfErr};
ghost use Rattle.race_script.specs.{Text.{IsTextOf, IsProgramText}, Fault.{program_causes, text_fault}};
ghost use Rattle.race_script.specs.Laws.{IsOnlyProgramOf};
ghost use Rattle.race_text.specs.{Fed.ended_fault, Lines.{IsLineOf, IsNoneBefore}, Owed.HidesNone};

use crate::program::Program;
use crate::reader::Reader;
use race_text::{TextCause, TextFault, parse_by};
use std::alloc::Allocator;

/// The one program whose text the bytes are, or else their first fault.
///
/// Every text of a program is read, or refused for want of memory alone, and nothing else is read.
/// Want of memory is told at a line of the text before which none is at fault, and which isn't at
/// fault itself unless it is the last and no newline ends it. Where the text ends too
/// early, that is told for the line behind the last one.
pub fn parse_program<A: Allocator + Copy>(alloc: A, bytes: &[u8]) -> Result<Program<A>, TextFault>
    ensures text { IfOk result (λ program. IsTextOf program bytes.now) }
    ensures only { IfOk result (λ program. IsOnlyProgramOf bytes.now program) }
    ensures accepted { IsProgramText bytes.now
        → IfErr result (λ told. told.cause ≡ TextCause.OutOfMemory) }
    ensures fault { IfErr result
        (λ told. told.cause ≢ TextCause.OutOfMemory → text_fault bytes.now ≡ Some told) }
    ensures memory { IfErr result (λ told. IsNoneBefore told.line (text_fault bytes.now)) }
    ensures owed { IfErr result (λ told. HidesNone told (ended_fault program_causes bytes.now)) }
    ensures line { IfErr result (λ told. IsLineOf bytes.now told.line) }
{
    parse_by(alloc, Reader::new(alloc), bytes)
}
