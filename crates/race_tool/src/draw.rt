//! The engine of `gorace draw`: a trace's text in, drawings of its races out.
ghost use Rattle.std.specs.Prelude.{◌≡◌, All, ℕ, List, Option, IfOk};
ghost use Rattle.race_model.specs.Legal.{IsLegal};
ghost use Rattle.race_text.specs.Text.{IsTextOf};
ghost use Rattle.race_verdict.specs.Traces.{capacities, HasVerdict};
ghost use Rattle.race_shards.specs.Witness.{RacesInOrder};
ghost use Rattle.race_tool.specs.Outcome.{Never, Replies};
ghost use Rattle.race_model.specs.Verdict as model;
ghost use Rattle.race_tool.specs.Draw as spec;

use crate::engine::{Engine, Unanswered, answer};
use crate::input::read_text;
use crate::reply::{Reply, Shown};
use crate::status;
use crate::witness::race_on;
use race_draw::{draw_clean, draw_races, write_text};
use race_records::{Sink, Source, Trace, WriteFault};
use race_shards::judge_alone;
use race_text::Reader;
use race_verdict::{Race, Verdict};
use std::alloc::{AllocError, Allocator};
use std::io::{Read, Write};

/// Draws the race on a variable, or without a name that of each variable that has one: reads a trace's text in blocks, and
/// writes a text of the two goroutines, what the second access has seen of the first one's, and the way that is missing;
/// or a short clean trace; as an SVG document, if it is asked for. It stops reading behind the block that ends the first faulty line.
///
/// The answer is a status. 0: the drawings are out, or without a name the line of a longer clean trace; 2, 1 and 14: instead of
/// them one line tells the text fault, the illegal event, or that there is no such race, looked for in this order; 4: memory
/// was refused; 5: a device failed.
///
/// It judges by one shard, and waits for no thread. Of a trace of more than 2,000 events no edge is drawn.
pub fn run_draw<R: Read, W: Write, A: Allocator + Copy>(
    alloc: A,
    source: &mut Source<R>,
    sink: &mut Sink<W>,
    var: Option<&str>,
    svg: bool,
) -> u8
    // What there is to draw of the whole input was written, unless memory or a device was wanting.
    ensures draws { spec.Draws A (spec.name_in var.entry) svg R.remaining W.contents
        source.old source.new sink.old sink.new result }
{
    let drawing = Drawing {
        alloc,
        name: var,
        svg,
    };
    let read = |source: &mut Source<R>| read_text(
        alloc,
        source,
        Reader::keyed(alloc, source.key()),
    );
    // A proof knows what a closure finds by a name, and not what it finds by an option of one.
    match var {
        Some(name) => {
            let find = |trace| Drawing::new(alloc, Some(name), svg).find(trace);
            answer(&drawing, read, find, source, sink)
        }
        None => {
            let find = |trace| Drawing::new(alloc, None, svg).find(trace);
            answer(&drawing, read, find, source, sink)
        }
    }
}

// What is a drawing's own.
#[derive(Drop)]
struct Drawing<'a, A: Allocator + Copy> {
    alloc: A,
    name: Option<&'a str>,
    svg: bool,
}

impl<'a, A: Allocator + Copy> Drawing<'a, A> {
    fn new(alloc: A, name: Option<&'a str>, svg: bool) -> Drawing<'a, A>
        ensures name { result.name ≡ name.entry }
        ensures svg { result.svg ≡ svg }
    {
        Drawing { alloc, name, svg }
    }

    // What there is to reply to a trace.
    fn find(&self, trace: Trace<A>) -> Result<Reply<Drawn<A>>, Unanswered>
        ensures { Replies IsTextOf (spec.IsDrawing (spec.name_in self.now.name) self.now.svg) Never trace result }
    {
        match judge_alone(self.alloc, &trace)? {
            Verdict::Illegal(illegal) => Ok(Reply::Broken(illegal)),
            Verdict::Clean => Ok(self.draw_clean(trace)?),
            Verdict::Races(races) => Ok(self.draw_races(&trace, races.as_slice())?),
        }
    }

    // What there is to reply to a clean trace.
    fn draw_clean(&self, trace: Trace<A>) -> Result<Reply<Drawn<A>>, AllocError>
        requires { HasVerdict trace model.Clean }
        ensures { IfOk result (λ reply. (bytes : List ℕ) → IsTextOf trace bytes
            → spec.IsDrawing (spec.name_in self.now.name) self.now.svg bytes reply) }
    {
        match self.name {
            Some(_) => Ok(Reply::NoRace),
            None => {
                let text = draw_clean(self.alloc, &trace, self.svg)?;
                Ok(Reply::Found(Drawn { text }))
            }
        }
    }

    // What there is to reply to a trace with these races.
    fn draw_races(&self, trace: &Trace<A>, races: &[Race]) -> Result<Reply<Drawn<A>>, AllocError>
        requires { spec.AreRacesOf trace.now races.now }
        ensures { IfOk result (λ reply. (bytes : List ℕ) → IsTextOf trace.now bytes
            → spec.IsDrawing (spec.name_in self.now.name) self.now.svg bytes reply) }
    {
        match self.name {
            Some(name) => match race_on(trace, races, name) {
                Some(race) => {
                    let asked = [race];
                    Ok(Reply::Found(self.draw(trace, &asked)?))
                }
                None => Ok(Reply::NoRace),
            },
            None => Ok(Reply::Found(self.draw(trace, races)?)),
        }
    }

    // The drawings of races of the trace.
    fn draw(&self, trace: &Trace<A>, races: &[Race]) -> Result<Drawn<A>, AllocError>
        requires races { All (RacesInOrder (capacities trace.now) trace.now.events) races.now }
        requires legal { IsLegal (capacities trace.now) trace.now.events }
        ensures { IfOk result (λ drawn. (name : Option (List ℕ)) → spec.AreAsked trace.now name races.now
            → spec.IsDrawnOf name self.now.svg trace.now drawn) }
    {
        let text = draw_races(self.alloc, trace, races, self.svg)?;
        Ok(Drawn { text })
    }
}

impl<'a, A: Allocator + Copy> Engine for Drawing<'a, A> {
    ghost use Rattle.race_tool.specs.{Draw.{IsDrawing, name_in}, Outcome.Never};

    type Reader = Reader<A>;

    type Found = Drawn<A>;

    ghost is_right = { λ engine. IsDrawing (name_in engine.name) engine.svg };

    ghost is_unrecorded = { λ _. Never };
}

/// What is drawn of a trace.
#[derive(Drop)]
pub(crate) struct Drawn<A: Allocator> {
    text: Vec<u8, A>,
}

impl<A: Allocator> Shown for Drawn<A> {
    ghost use Rattle.std.specs.Prelude.{⊤};
    ghost use Rattle.race_tool.specs.Draw.{drawing_text, drawing_status};

    ghost is_printable = { λ _. ⊤ };

    ghost text = { drawing_text };

    ghost status_for = { drawing_status };

    fn write<W: Write>(&self, sink: &mut Sink<W>) -> Result<(), WriteFault> {
        write_text(self.text.as_slice(), sink)
    }

    fn status(&self) -> u8 {
        status::CLEAN
    }
}
