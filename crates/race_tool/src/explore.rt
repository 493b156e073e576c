//! The engine of `gorace explore`: a program's text in, what all its runs come to out.
ghost use Rattle.std.specs.Prelude.{◌≡◌, true, false};
ghost use Rattle.race_explore.specs.declared.orders.Orders.{Orders};
ghost use Rattle.race_script.specs.Text.{IsTextOf};
ghost use Rattle.race_tool.specs.Outcome.{Replies};
ghost use Rattle.race_tool.specs.Explore as spec;
ghost use Rattle.race_tool.specs.declared.status.TheConstants as status;

use crate::engine::{Engine, Unanswered, answer};
use crate::explore_printing::write_explored;
use crate::input::read_text;
use crate::reply::{Reply, Shown};
use crate::status;
use race_explore::{BadEnd, ExploreFault, Explored, MAX_RUNS, Orders, explore};
use race_hub::End;
use race_records::{MAX_EVENTS, Sink, Source, WriteFault};
use race_script::{Program, Reader};
use std::alloc::Allocator;
use std::io::{Read, Write};

/// How the runs of a program are looked at.
#[derive(Clone, Copy, Debug, PartialEq, Eq)]
pub struct ExploreOptions {
    /// How many runs are made, at most, 1 to 1,000,000,000,000.
    pub runs: u64,
    /// How many events a run may have, 1 to 16,777,216.
    pub limit: u32,
    /// Whether all runs are judged, or of those that differ only in the order of independent events one at least.
    pub orders: Orders,
}

impl Default for ExploreOptions {
    /// A million runs, the greatest limit, and all orders.
    fn default() -> ExploreOptions
        ensures runs { result.runs ≡ 1_000_000 }
        ensures limit { result.limit ≡ MAX_EVENTS }
        ensures orders { result.orders ≡ Orders.All }
    {
        ExploreOptions {
            runs: 1_000_000,
            limit: MAX_EVENTS as u32,
            orders: Orders::All,
        }
    }
}

impl ExploreOptions {
    // Whether each is in its limits.
    pub(crate) fn are_in_limits(&self) -> bool
        ensures { result ≡ spec.are_explore_limits self.now }
    {
        let has_limit = 1 <= self.limit && self.limit as usize <= MAX_EVENTS;
        has_limit && 1 <= self.runs && self.runs <= MAX_RUNS
    }
}

/// Judges the runs of a program, one after another: reads the program's text in blocks, and writes which variables race
/// in some run, how runs end in which main doesn't return, and how many runs there are. It stops reading after the
/// block that ends the first faulty line.
///
/// The answer is a status. 66: some run has data races. Without any: 10 in some run a goroutine failed; 11 in one, and
/// in none that, nobody can go on; 12 in one, and in none those, the limit is reached, or there are more runs than were
/// asked for; 13 in one, and in none those, a goroutine asked what can't be; 0 all runs are clean and end with main's
/// return. 2 a text fault, which is written; 3 an option is out of its limits; 4 memory was refused; 5 a device failed;
/// 15 what was recorded isn't a run of the program.
///
/// It works on one thread.
pub fn run_explore<R: Read, W: Write, A: Allocator + Copy + Send>(
    alloc: A,
    source: &mut Source<R>,
    sink: &mut Sink<W>,
    options: &ExploreOptions,
) -> u8
    // An option is out of its limits: nothing is read, and nothing is written.
    ensures usage { spec.are_explore_limits options.now ≡ false → result ≡ status.USAGE }
    ensures untouched { spec.are_explore_limits options.now ≡ false
        → (source.new ≡ source.old) × (sink.new ≡ sink.old) }

    // Otherwise what the runs come to was written, or the fault of the text, unless memory, a device or a recording was
    // wanting.
    ensures explores { spec.are_explore_limits options.now ≡ true
        → spec.Explores A options.now R.remaining W.contents source.old source.new sink.old sink.new result }
{
    if !options.are_in_limits() {
        return status::USAGE;
    }
    let exploring = Exploring {
        alloc,
        options: *options,
    };
    let read = |source: &mut Source<R>| read_text(
        alloc,
        source,
        Reader::keyed(alloc, source.key()),
    );
    let find = |program| exploring.find(program);
    answer(&exploring, read, find, source, sink)
}

// What is an exploration's own.
#[derive(Drop)]
struct Exploring<A: Allocator + Copy> {
    alloc: A,
    options: ExploreOptions,
}

impl<A: Allocator + Copy + Send> Exploring<A> {
    // What there is to reply to a program.
    fn find(&self, program: Program<A>) -> Result<Reply<ExploredProgram<A>>, Unanswered>
        ensures { Replies IsTextOf (spec.IsExploring self.now.options)
            (spec.IsUnexplored self.now.options.limit) program result }
    {
        let options = self.options;
        match explore(
            self.alloc,
            &program,
            options.limit,
            options.runs,
            options.orders,
        ) {
            Ok(explored) => Ok(Reply::Found(ExploredProgram { program, explored })),
            Err(fault) => Err(no_finding(fault)),
        }
    }
}

// What the fault comes to for an engine.
fn no_finding(fault: ExploreFault) -> Unanswered
    ensures { result ≡ Unanswered.Unrecorded → fault ≡ ExploreFault.NotARun }
{
    match fault {
        ExploreFault::NotARun => Unanswered::Unrecorded,
        ExploreFault::OutOfMemory => Unanswered::Refused,
        // The engine has tested the limits.
        ExploreFault::BadLimit => Unanswered::Refused,
    }
}

impl<A: Allocator + Copy> Engine for Exploring<A> {
    ghost use Rattle.race_tool.specs.Explore.{IsExploring, IsUnexplored};

    type Reader = Reader<A>;

    type Found = ExploredProgram<A>;

    ghost is_right = { λ engine. IsExploring engine.options };

    ghost is_unrecorded = { λ engine. IsUnexplored engine.options.limit };
}

/// A program with what its runs come to.
#[derive(Drop)]
pub(crate) struct ExploredProgram<A: Allocator> {
    /// The program.
    pub(crate) program: Program<A>,
    /// What its runs come to.
    pub(crate) explored: Explored<A>,
}

impl<A: Allocator> Shown for ExploredProgram<A> {
    ghost use Rattle.std.specs.Prelude.{⊤};
    ghost use Rattle.race_tool.specs.Explore.{explored_text, status_of_explored};

    ghost is_printable = { λ _. ⊤ };

    ghost text = { explored_text };

    ghost status_for = { λ found. status_of_explored found.explored };

    fn write<W: Write>(&self, sink: &mut Sink<W>) -> Result<(), WriteFault> {
        write_explored(self.program.decls(), &self.explored, sink)
    }

    fn status(&self) -> u8 {
        status_of_explored(&self.explored)
    }
}

// There are races, or else how runs end, or else whether all runs were looked at.
fn status_of_explored<A: Allocator>(explored: &Explored<A>) -> u8
    ensures { result ≡ spec.status_of_explored explored.now }
{
    if explored.races > 0 {
        status::RACES
    } else if explored.faults > 0 {
        status::FAILED
    } else if explored.deadlocks > 0 {
        status::DEADLOCK
    } else if !explored.whole || reaches_limit(explored.bad.as_slice()) {
        status::LIMIT
    } else if explored.clean < explored.runs {
        status::BAD_REQUEST
    } else {
        status::CLEAN
    }
}

// Some run has reached the limit.
fn reaches_limit<A: Allocator>(ends: &[BadEnd<A>]) -> bool
    ensures { result ≡ spec.reaches_limit ends.now }
{
    for bad in ends {
        if is_limit(bad.end) {
            return true;
        }
    }
    false
}

fn is_limit(end: End) -> bool
    ensures { result ≡ spec.is_limit_end end }
{
    matches!(end, End::Limit)
}
