//! The engine of `gorace predict VAR`: a trace's text in, a run that shows a predicted race on a variable out.
ghost use Rattle.std.specs.Prelude.{◌≡◌, IfOk, IfSome};
ghost use Rattle.race_text.specs.Text.{IsTextOf};
ghost use Rattle.race_verdict.specs.{Traces.HasVerdict, Verdicts.verdict_of};
ghost use Rattle.race_tool.specs.Outcome.{Never, Replies};
ghost use Rattle.race_tool.specs.{Predict.IsCertificateOn};
ghost use Rattle.race_tool.specs.Predict as spec;

use crate::engine::{Engine, Unanswered, answer};
use crate::input::read_text;
use crate::predict::illegal_event;
use crate::reply::{Reply, Shown};
use crate::status;
use race_predict::{PredictFault, certificate};
use race_records::{Named, Sink, Source, Trace, WriteFault};
use race_search::predict_on;
use race_shards::judge_alone;
use race_text::{Reader, write_trace};
use race_verdict::Verdict;
use std::alloc::{AllocError, Allocator};
use std::io::{Read, Write};

/// Shows a predicted race on a variable: reads a trace's text in blocks, and writes the trace of a run that the same goroutines could have
/// had, and that ends with the race. It stops reading behind the block that ends the first faulty line.
///
/// The answer is a status. 0: the trace is out; 2, 1 and 14: instead of it one line tells the text fault, the illegal event, or that no such
/// race was found, looked for in this order; 4: memory was refused; 5: a device failed.
///
/// Not all such races are found. It judges by one shard, and waits for no thread.
pub fn run_certify<R: Read, W: Write, A: Allocator + Copy>(
    alloc: A,
    source: &mut Source<R>,
    sink: &mut Sink<W>,
    var: &str,
    turned: bool,
) -> u8
    // What there is to show of the whole input was written, unless memory or a device was wanting.
    ensures certifies { spec.Certifies A var.now R.remaining W.contents source.old source.new sink.old sink.new result }
{
    let certifying = Certifying {
        alloc,
        name: var,
        turned,
    };
    let read = |source: &mut Source<R>| read_text(
        alloc,
        source,
        Reader::keyed(alloc, source.key()),
    );
    let find = |trace| Certifying {
        alloc,
        name: var,
        turned,
    }
    .find(&trace);
    answer(&certifying, read, find, source, sink)
}

// What is a certificate's own.
#[derive(Drop)]
struct Certifying<'a, A: Allocator + Copy> {
    alloc: A,
    name: &'a str,
    turned: bool,
}

impl<A: Allocator + Copy> Certifying<'_, A> {
    // What there is to reply to a trace.
    fn find(&self, trace: &Trace<A>) -> Result<Reply<Certified<A>>, Unanswered>
        ensures { Replies IsTextOf (spec.IsCertifying self.now.name.now) Never trace.now result }
    {
        let verdict = judge_alone(self.alloc, trace)?;
        if let Some(illegal) = illegal_event(&verdict) {
            return Ok(Reply::Broken(illegal));
        }
        match self.certified(trace, &verdict)? {
            Some(found) => Ok(Reply::Found(found)),
            None => Ok(Reply::NoRace),
        }
    }

    // A run with a race on the variable, where one is found.
    fn certified(
        &self,
        recorded: &Trace<A>,
        verdict: &Verdict<A>,
    ) -> Result<Option<Certified<A>>, AllocError>
        requires { HasVerdict recorded.now (verdict_of verdict.now) }
        ensures { IfOk result (λ found. IfSome found (λ certified. IsCertificateOn self.now.name.now certified.trace recorded.now)) }
    {
        let Some(Named::Var(var)) = recorded.decls().find(self.name) else {
            return Ok(None);
        };
        let Some(prediction) = predict_on(self.alloc, recorded, verdict, var, self.turned)? else {
            return Ok(None);
        };
        match certificate(self.alloc, recorded, verdict, &prediction) {
            Ok(trace) => {
                // A proof knows that the trace has a text once its parts are looked at.
                let (_decls, _events) = (trace.decls(), trace.events());
                Ok(Some(Certified { trace }))
            }
            Err(PredictFault::OutOfMemory) => Err(AllocError),
            Err(PredictFault::NotAPrediction) => Ok(None),
        }
    }
}

impl<'a, A: Allocator + Copy> Engine for Certifying<'a, A> {
    ghost use Rattle.race_tool.specs.{Outcome.Never, Predict.IsCertifying};

    type Reader = Reader<A>;

    type Found = Certified<A>;

    ghost is_right = { λ engine. IsCertifying engine.name.now };

    ghost is_unrecorded = { λ _. Never };
}

/// A run that shows a predicted race.
#[derive(Drop)]
pub(crate) struct Certified<A: Allocator> {
    /// Its trace.
    pub(crate) trace: Trace<A>,
}

impl<A: Allocator> Shown for Certified<A> {
    ghost use Rattle.std.specs.Prelude.{⊤};
    ghost use Rattle.race_tool.specs.Predict.{certified_text, certified_status};

    ghost is_printable = { λ _. ⊤ };

    ghost text = { certified_text };

    ghost status_for = { certified_status };

    fn write<W: Write>(&self, sink: &mut Sink<W>) -> Result<(), WriteFault> {
        write_trace(&self.trace, sink)
    }

    fn status(&self) -> u8 {
        status::CLEAN
    }
}
