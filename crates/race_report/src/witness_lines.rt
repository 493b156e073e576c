//! A witness, a line for each access.
ghost use Rattle.std.specs.Prelude.{◌≡◌, ◌<◌, All, length, slice_get, Some, IfSome};
ghost use Rattle.race_records.specs.{declared.kind.Kind.Kind, Declarations.count_of, Page.Printing};
ghost use Rattle.race_text.specs.{Output.Writes, Text.goroutine_name};
ghost use Rattle.race_verdict.specs.Accesses.{accessed};
ghost use Rattle.race_report.specs.Report.{access_word};
ghost use Rattle.race_report.specs.Witness as spec;

use crate::counted::print_count;
use crate::verdict::access_word;
use itoa::Buffer;
use race_records::{Named, Op, Page, Sink, Trace, WriteFault};
use std::alloc::Allocator;
use std::io::Write;

/// Writes a line for each access, in the order in which they are given, and their count. Takes no
/// memory; writes in blocks of at most 4,096 bytes.
///
/// The accesses are of this trace, by their indexes, as `witness` gives them. A write that fails or takes no byte ends
/// it: then exactly the first `sent` bytes are out.
pub fn write_witness<W: Write, A: Allocator>(
    trace: &Trace<A>,
    order: &[u32],
    sink: &mut Sink<W>,
) -> Result<(), WriteFault>
    requires { All (λ index. index < length trace.now.events) order.now }
    ensures { Writes W.contents result sink.old sink.new (spec.witness_text trace.now order.now) }
{
    let mut page = Page::new();
    match print_witness(&mut page, sink, trace, order) {
        Ok(()) => page.flush(sink),
        Err(fault) => Err(fault),
    }
}

// Prints the accesses, and how many there are.
fn print_witness<W: Write, A: Allocator>(
    page: &mut Page,
    sink: &mut Sink<W>,
    trace: &Trace<A>,
    order: &[u32],
) -> Result<(), WriteFault>
    requires { All (λ index. index < length trace.now.events) order.now }
    ensures { Printing W.contents result sink.old sink.new page.old page.new
        (spec.witness_text trace.now order.now) }
{
    for index in order {
        if let Err(fault) = print_access(page, sink, trace, *index) {
            return Err(fault);
        }
    }
    print_count(page, sink, b"witness: ", order.len(), b" accesses")
}

fn print_access<W: Write, A: Allocator>(
    page: &mut Page,
    sink: &mut Sink<W>,
    trace: &Trace<A>,
    index: u32,
) -> Result<(), WriteFault>
    requires { index < length trace.now.events }
    ensures { Printing W.contents result sink.old sink.new page.old page.new
        (spec.access_line trace.now index) }
{
    let access = line_words(trace, index as usize);
    let mut number = Buffer::new();
    let parts = [
        number.format(u64::from(index) + 1).as_bytes(),
        b" ".as_slice(),
        access.what,
        b" ".as_slice(),
        access.who,
        b" ".as_slice(),
        access.var,
        b"\n".as_slice(),
    ];
    page.put_all(sink, &parts)
}

// How an access is told: what it does, by whom and of which variable.
#[derive(Clone, Copy)]
struct LineWords<'a> {
    what: &'a [u8],
    who: &'a [u8],
    var: &'a [u8],
}

// The words for the event at the index.
fn line_words<A: Allocator>(trace: &Trace<A>, index: usize) -> LineWords<'_>
    requires { index < length trace.now.events }
    ensures { IfSome (slice_get trace.now.events index) (λ e.
        (result.what.now ≡ access_word e.op)
        × (result.who.now ≡ goroutine_name trace.now.decls.declarations e.who)
        × (result.var.now ≡ spec.accessed_name trace.now.decls.declarations e.op)) }
{
    let event = trace.event(index);
    LineWords {
        what: access_word(&event.op).as_bytes(),
        who: trace.decls().name(Named::Goroutine(event.who)).as_bytes(),
        var: accessed_name(trace, &event.op),
    }
}

// The name of the variable that is accessed.
fn accessed_name<'a, A: Allocator>(trace: &'a Trace<A>, op: &Op) -> &'a [u8]
    requires { IfSome (accessed op.now) (λ x. x < count_of Kind.Var trace.now.decls.declarations) }
    ensures { result.now ≡ spec.accessed_name trace.now.decls.declarations op.now }
{
    match op {
        Op::Read(var, _) => trace.decls().name(Named::Var(*var)).as_bytes(),
        Op::Write(var, _) => trace.decls().name(Named::Var(*var)).as_bytes(),
        _ => &[],
    }
}
