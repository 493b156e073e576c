//! The synchronization edges of a trace, a line for each.
ghost use Rattle.std.specs.Prelude.{All};
ghost use Rattle.race_records.specs.Page.{Printing};
ghost use Rattle.race_text.specs.Output.{Writes};
ghost use Rattle.race_report.specs.Printable.{IsEdgeOf};
ghost use Rattle.race_report.specs.Report as spec;

use crate::counted::print_count;
use itoa::Buffer;
use race_edges::Edge;
use race_records::{Named, Page, Sink, Trace, WriteFault};
use std::alloc::Allocator;
use std::io::Write;

/// Writes a line for each edge, in the order in which they are given, and their count. Takes no
/// memory; writes in blocks of at most 4,096 bytes.
///
/// The edges are of this trace, as `edges` lists them. A write that fails or takes no byte ends it: then exactly the
/// first `sent` bytes are out.
pub fn write_edges<W: Write, A: Allocator>(
    trace: &Trace<A>,
    edges: &[Edge],
    sink: &mut Sink<W>,
) -> Result<(), WriteFault>
    requires { All (IsEdgeOf trace.now) edges.now }
    ensures { Writes W.contents result sink.old sink.new (spec.edges_text trace.now edges.now) }
{
    let mut page = Page::new();
    match print_edges(&mut page, sink, trace, edges) {
        Ok(()) => page.flush(sink),
        Err(fault) => Err(fault),
    }
}

// Prints the edges, and how many there are.
fn print_edges<W: Write, A: Allocator>(
    page: &mut Page,
    sink: &mut Sink<W>,
    trace: &Trace<A>,
    edges: &[Edge],
) -> Result<(), WriteFault>
    requires { All (IsEdgeOf trace.now) edges.now }
    ensures { Printing W.contents result sink.old sink.new page.old page.new
        (spec.edges_text trace.now edges.now) }
{
    for edge in edges {
        if let Err(fault) = print_edge(page, sink, trace, *edge) {
            return Err(fault);
        }
    }
    print_count(page, sink, b"edges: ", edges.len(), b"")
}

#[tactic(auto, unfolding(crate::specs::Report::edge_line))]
fn print_edge<W: Write, A: Allocator>(
    page: &mut Page,
    sink: &mut Sink<W>,
    trace: &Trace<A>,
    edge: Edge,
) -> Result<(), WriteFault>
    requires { IsEdgeOf trace.now edge }
    ensures { Printing W.contents result sink.old sink.new page.old page.new
        (spec.edge_line trace.now edge) }
{
    let mut from = Buffer::new();
    let mut to = Buffer::new();
    let decls = trace.decls();
    let parts = [
        b"edge ".as_slice(),
        from.format(u64::from(edge.from) + 1).as_bytes(),
        b" ".as_slice(),
        decls.name(Named::Goroutine(edge.from_who)).as_bytes(),
        b" ".as_slice(),
        to.format(u64::from(edge.to) + 1).as_bytes(),
        b" ".as_slice(),
        decls.name(Named::Goroutine(edge.to_who)).as_bytes(),
        b"\n".as_slice(),
    ];
    page.put_all(sink, &parts)
}
