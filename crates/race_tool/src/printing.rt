//! The lines that an engine prints where nothing is found.
ghost use Rattle.race_records.specs.Page.{Printing};
ghost use Rattle.race_legal.specs.Rules.{number_of};
ghost use Rattle.race_text.specs.Output.{Writes};
ghost use Rattle.race_report.specs.Report.{illegal_line};
ghost use Rattle.race_tool.specs.Report.{too_long_line, no_race_line};

use race_legal::Illegal;
use race_records::{Page, Sink, WriteFault};
use race_report::{print_count, print_illegal};
use std::io::Write;

/// Writes that there are more events than are taken.
pub(crate) fn write_too_long<W: Write>(events: usize, sink: &mut Sink<W>) -> Result<(), WriteFault>
    ensures { Writes W.contents result sink.old sink.new (too_long_line events) }
{
    let mut page = Page::new();
    match print_count(&mut page, sink, b"too long: ", events, b" events") {
        Ok(()) => page.flush(sink),
        Err(fault) => Err(fault),
    }
}

/// Writes the first event that breaks a rule, with its rule.
pub(crate) fn write_illegal<W: Write>(
    illegal: Illegal,
    sink: &mut Sink<W>,
) -> Result<(), WriteFault>
    ensures { Writes W.contents result sink.old sink.new (illegal_line illegal.at (number_of illegal.rule)) }
{
    let mut page = Page::new();
    match print_illegal(&mut page, sink, illegal) {
        Ok(()) => page.flush(sink),
        Err(fault) => Err(fault),
    }
}

/// Writes that there is no such race.
pub(crate) fn write_no_race<W: Write>(sink: &mut Sink<W>) -> Result<(), WriteFault>
    ensures { Writes W.contents result sink.old sink.new no_race_line }
{
    let mut page = Page::new();
    match print_no_race(&mut page, sink) {
        Ok(()) => page.flush(sink),
        Err(fault) => Err(fault),
    }
}

#[tactic(auto, unfolding(crate::specs::Report::no_race_line))]
fn print_no_race<W: Write>(page: &mut Page, sink: &mut Sink<W>) -> Result<(), WriteFault>
    ensures { Printing W.contents result sink.old sink.new page.old page.new no_race_line }
{
    let parts = [b"no such race".as_slice(), b"\n".as_slice()];
    page.put_all(sink, &parts)
}
