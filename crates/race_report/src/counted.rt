//! A line that tells how many there are.
ghost use Rattle.race_records.specs.Page.{Printing};
ghost use Rattle.race_report.specs.Report as spec;

use itoa::Buffer;
use race_records::{Page, Sink, WriteFault};
use std::io::Write;

/// Prints on a page a line of a count between these words, behind whatever was printed on it before. Takes no memory.
#[tactic(auto, unfolding(crate::specs::Report::counted_line))]
pub fn print_count<W: Write>(
    page: &mut Page,
    sink: &mut Sink<W>,
    before: &[u8],
    count: usize,
    behind: &[u8],
) -> Result<(), WriteFault>
    ensures { Printing W.contents result sink.old sink.new page.old page.new
        (spec.counted_line before.now count behind.now) }
{
    let mut number = Buffer::new();
    let parts = [
        before,
        number.format(count).as_bytes(),
        behind,
        b"\n".as_slice(),
    ];
    page.put_all(sink, &parts)
}
