//! The engine of `gorace edges`: a trace's text in, its synchronization edges out.
ghost use Rattle.std.specs.Prelude.{IfOk};
ghost use Rattle.race_text.specs.Text.{IsTextOf};
ghost use Rattle.race_verdict.specs.Traces.{IsIllegal};
ghost use Rattle.race_tool.specs.{Outcome.{Never, Replies}, Reply.IsBrokenBy};
ghost use Rattle.race_tool.specs.Edges as spec;

use crate::engine::{Engine, Unanswered, answer};
use crate::input::read_text;
use crate::reply::{Reply, Shown};
use crate::status;
use race_edges::{Edge, EdgeFault, edges};
use race_legal::{Illegal, legal};
use race_records::{Sink, Source, Trace, WriteFault};
use race_report::write_edges;
use race_text::Reader;
use std::alloc::{AllocError, Allocator};
use std::io::{Read, Write};

/// Lists what is synchronized before what in a trace: reads its text in blocks, and writes a line for
/// each edge. It stops reading behind the block that ends the first faulty line.
///
/// The answer is a status. 0: the edges and their count are out; 2, 3 and 1: instead of them one
/// line tells the text fault, that there are more than 2,000 events, or the illegal event, looked
/// for in this order; 4: memory was refused; 5: a device failed.
pub fn run_edges<R: Read, W: Write, A: Allocator + Copy>(
    alloc: A,
    source: &mut Source<R>,
    sink: &mut Sink<W>,
) -> u8
    // The listing of the whole input was written, unless memory or a device was wanting.
    ensures lists { spec.Lists A R.remaining W.contents source.old source.new sink.old sink.new result }
{
    let listing = Listing { alloc };
    let read = |source: &mut Source<R>| read_text(
        alloc,
        source,
        Reader::keyed(alloc, source.key()),
    );
    answer(&listing, read, |trace| listing.find(trace), source, sink)
}

// What is a listing's own.
#[derive(Drop)]
struct Listing<A: Allocator + Copy> {
    alloc: A,
}

impl<A: Allocator + Copy> Listing<A> {
    // What there is to reply to a trace.
    fn find(&self, trace: Trace<A>) -> Result<Reply<Edges<A>>, Unanswered>
        ensures { Replies IsTextOf spec.IsListing Never trace result }
    {
        let events = trace.len();
        match edges(self.alloc, &trace) {
            Ok(edges) => Ok(Reply::Found(Edges { trace, edges })),
            Err(EdgeFault::TooLong) => Ok(Reply::TooLong(events)),
            Err(EdgeFault::OutOfMemory) => Err(Unanswered::Refused),
            Err(EdgeFault::Illegal) => Ok(Reply::Broken(self.find_illegal(&trace)?)),
        }
    }

    // Which event of the trace breaks which rule.
    fn find_illegal(&self, trace: &Trace<A>) -> Result<Illegal, AllocError>
        requires { IsIllegal trace.now }
        ensures { IfOk result (λ illegal. IsBrokenBy illegal trace.now) }
    {
        match legal(self.alloc, trace)? {
            Some(illegal) => Ok(illegal),
            None => unreachable!(),
        }
    }
}

impl<A: Allocator + Copy> Engine for Listing<A> {
    ghost use Rattle.race_tool.specs.{Edges.IsListing, Outcome.Never};

    type Reader = Reader<A>;

    type Found = Edges<A>;

    ghost is_right = { λ _. IsListing };

    ghost is_unrecorded = { λ _. Never };
}

/// The edges of a trace.
#[derive(Drop)]
pub(crate) struct Edges<A: Allocator> {
    /// The trace, which is legal.
    pub(crate) trace: Trace<A>,
    /// What is synchronized before what in it.
    pub(crate) edges: Vec<Edge, A>,
}

impl<A: Allocator> Shown for Edges<A> {
    ghost use Rattle.std.specs.Prelude.{All};
    ghost use Rattle.race_report.specs.Printable.{IsEdgeOf};
    ghost use Rattle.race_tool.specs.Edges.{listing_text, listing_status};

    ghost is_printable = { λ found. All (IsEdgeOf found.trace) found.edges.items };

    ghost text = { listing_text };

    ghost status_for = { listing_status };

    fn write<W: Write>(&self, sink: &mut Sink<W>) -> Result<(), WriteFault> {
        write_edges(&self.trace, self.edges.as_slice(), sink)
    }

    fn status(&self) -> u8 {
        status::CLEAN
    }
}
