//! The engine of `gorace witness`: a trace's text in, a witness of the race on a variable out.
ghost use Rattle.std.specs.Prelude.{◌≡◌, IfOk};
ghost use Rattle.race_text.specs.Text.{IsTextOf};
ghost use Rattle.race_verdict.specs.Traces.{capacities};
ghost use Rattle.race_shards.specs.Witness.{IsWitness, RacesInOrder};
ghost use Rattle.race_tool.specs.Outcome.{Never, Replies};
ghost use Rattle.race_tool.specs.Witness as spec;

use crate::engine::{Engine, Unanswered, answer};
use crate::input::read_text;
use crate::reply::{Reply, Shown};
use crate::status;
use race_records::{Named, Sink, Source, Trace, WriteFault};
use race_report::write_witness;
use race_shards::{WitnessFault, judge_alone, witness};
use race_text::Reader;
use race_verdict::{Race, Verdict};
use std::alloc::{AllocError, Allocator};
use std::io::{Read, Write};

/// Shows the race on a variable: reads a trace's text in blocks, and writes all of its accesses in an order in which the
/// two that a check names stand side by side, the second before the first. It stops reading behind the block that ends
/// the first faulty line.
///
/// The answer is a status. 0: the order and its count are out; 2, 1 and 14: instead of them one line tells the text
/// fault, the illegal event, or that there is no such race, looked for in this order; 4: memory was refused; 5: a device
/// failed.
///
/// It judges by one shard, and waits for no thread.
pub fn run_witness<R: Read, W: Write, A: Allocator + Copy>(
    alloc: A,
    source: &mut Source<R>,
    sink: &mut Sink<W>,
    var: &str,
) -> u8
    // What there is to show of the whole input was written, unless memory or a device was wanting.
    ensures shows { spec.Shows A var.now R.remaining W.contents source.old source.new sink.old sink.new result }
{
    let showing = Showing { alloc, name: var };
    let read = |source: &mut Source<R>| read_text(
        alloc,
        source,
        Reader::keyed(alloc, source.key()),
    );
    let find = |trace| Showing { alloc, name: var }.find(trace);
    answer(&showing, read, find, source, sink)
}

// What is a showing's own.
#[derive(Drop)]
struct Showing<'a, A: Allocator + Copy> {
    alloc: A,
    name: &'a str,
}

impl<A: Allocator + Copy> Showing<'_, A> {
    // What there is to reply to a trace.
    fn find(&self, trace: Trace<A>) -> Result<Reply<Witness<A>>, Unanswered>
        ensures { Replies IsTextOf (spec.IsShowing self.now.name.now) Never trace result }
    {
        match judge_alone(self.alloc, &trace)? {
            Verdict::Illegal(illegal) => Ok(Reply::Broken(illegal)),
            Verdict::Clean => Ok(Reply::NoRace),
            Verdict::Races(races) => match race_on(&trace, races.as_slice(), self.name) {
                Some(race) => Ok(Reply::Found(self.witness(trace, &race)?)),
                None => Ok(Reply::NoRace),
            },
        }
    }

    // The witness of a race of the trace.
    fn witness(&self, trace: Trace<A>, race: &Race) -> Result<Witness<A>, AllocError>
        requires { RacesInOrder (capacities trace) trace.events race.now }
        ensures trace { IfOk result (λ w. w.trace ≡ trace) }
        ensures order { IfOk result (λ w. IsWitness (capacities trace) trace.events race.now w.order.items) }
    {
        match witness(self.alloc, &trace, race) {
            Ok(order) => Ok(Witness { trace, order }),
            Err(WitnessFault::NotARace) => unreachable!(),
            Err(WitnessFault::OutOfMemory) => Err(AllocError),
        }
    }
}

/// The race that is listed on the variable of this name.
pub(crate) fn race_on<A: Allocator>(trace: &Trace<A>, races: &[Race], name: &str) -> Option<Race>
    ensures { spec.IsPickedOf trace.now races.now name.now result }
{
    let Some(Named::Var(var)) = trace.decls().find(name) else {
        return None;
    };
    for race in races {
        if race.var == var {
            return Some(*race);
        }
    }
    None
}

impl<'a, A: Allocator + Copy> Engine for Showing<'a, A> {
    ghost use Rattle.race_tool.specs.{Outcome.Never, Witness.IsShowing};

    type Reader = Reader<A>;

    type Found = Witness<A>;

    ghost is_right = { λ engine. IsShowing engine.name.now };

    ghost is_unrecorded = { λ _. Never };
}

/// A witness of a race.
#[derive(Drop)]
pub(crate) struct Witness<A: Allocator> {
    /// The trace that has the race.
    pub(crate) trace: Trace<A>,
    /// Its accesses in an order in which the two that race stand side by side.
    pub(crate) order: Vec<u32, A>,
}

impl<A: Allocator> Shown for Witness<A> {
    ghost use Rattle.std.specs.Prelude.{◌<◌, All, length};
    ghost use Rattle.race_tool.specs.Witness.{showing_text, showing_status};

    ghost is_printable = { λ found. All (λ index. index < length found.trace.events) found.order.items };

    ghost text = { showing_text };

    ghost status_for = { showing_status };

    fn write<W: Write>(&self, sink: &mut Sink<W>) -> Result<(), WriteFault> {
        write_witness(&self.trace, self.order.as_slice(), sink)
    }

    fn status(&self) -> u8 {
        status::CLEAN
    }
}
