//! The line of a text fault.
ghost use Rattle.std.specs.Prelude.{◌≡◌};
ghost use Rattle.race_records.specs.Page.{Printing};
ghost use Rattle.race_text.specs.Output.{Writes};
ghost use Rattle.race_report.specs.Causes.{cause_text};
ghost use Rattle.race_report.specs.Report as spec;

use itoa::Buffer;
use race_records::{Page, Sink, WriteFault};
use race_text::{TextCause, TextFault};
use std::io::Write;

/// Writes the number of the line at fault, and its least cause. Takes no memory.
///
/// A write that fails or takes no byte ends it: then exactly the first `sent` bytes are out.
pub fn write_text_fault<W: Write>(fault: &TextFault, sink: &mut Sink<W>) -> Result<(), WriteFault>
    ensures { Writes W.contents result sink.old sink.new (spec.fault_line fault.now) }
{
    let mut page = Page::new();
    match print_fault(&mut page, sink, *fault) {
        Ok(()) => page.flush(sink),
        Err(told) => Err(told),
    }
}

// Prints the line at fault, and its least cause.
#[tactic(auto, unfolding(crate::specs::Report::fault_line))]
fn print_fault<W: Write>(
    page: &mut Page,
    sink: &mut Sink<W>,
    fault: TextFault,
) -> Result<(), WriteFault>
    ensures { Printing W.contents result sink.old sink.new page.old page.new
        (spec.fault_line fault) }
{
    let mut line = Buffer::new();
    let parts = [
        b"line ".as_slice(),
        line.format(fault.line).as_bytes(),
        b": ".as_slice(),
        cause_text(fault.cause).as_bytes(),
        b"\n".as_slice(),
    ];
    page.put_all(sink, &parts)
}

// The cause in two or three words.
fn cause_text(cause: TextCause) -> &'static str
    ensures { result.now ≡ cause_text cause }
{
    match cause {
        TextCause::BadHeader => "bad header",
        TextCause::NoNewline => "no newline",
        TextCause::BadByte => "bad byte",
        TextCause::UnknownWord => "unknown word",
        TextCause::WrongCount => "wrong count",
        TextCause::BadName => "bad name",
        TextCause::Taken => "taken",
        TextCause::Unknown => "unknown name",
        TextCause::WrongKind => "wrong kind",
        TextCause::BadNumber => "bad number",
        TextCause::TooMany => "too many",
        TextCause::LateDeclaration => "late declaration",
        TextCause::BadBlock => "bad block",
        TextCause::OutOfMemory => "out of memory",
    }
}
