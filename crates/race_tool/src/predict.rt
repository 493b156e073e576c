//! The engine of `gorace predict`: a trace's text in, its report and the races of other runs out.
ghost use Rattle.std.specs.Prelude.{◌≡◌, ◌≤◌, All, IfOk, IfSome, None, length, true, false};
ghost use Rattle.race_records.specs.Events.{TraceState};
ghost use Rattle.race_text.specs.Text.{IsTextOf};
ghost use Rattle.race_model.specs.Legal.{IsLegal};
ghost use Rattle.race_verdict.specs.{Races.race_of, Traces.{capacities, HasVerdict}, Verdicts.verdict_of};
ghost use Rattle.race_tool.specs.{Outcome.{Never, Replies}, Reply.IsBrokenBy};
ghost use Rattle.race_tool.specs.Predict as spec;
ghost use Rattle.race_tool.specs.declared.status.TheConstants as status;

use crate::engine::{Engine, Unanswered, answer};
use crate::input::read_text;
use crate::predict_printing::write_predicted;
use crate::reply::{Reply, Shown};
use crate::status;
use race_legal::Illegal;
use race_records::{Sink, Source, Trace, WriteFault};
use race_search::{Predictions, predict};
use race_shards::judge_alone;
use race_text::Reader;
use race_verdict::{Race, Verdict};
use std::alloc::{AllocError, Allocator};
use std::io::{Read, Write};

/// The most predicted races that may be asked for.
pub const MAX_PREDICTED: usize = 65_535;

// Definitions cite this number, so it is written down twice.
const _: () = prove!(MAX_PREDICTED == 65_535);

/// How races of other runs are looked for.
#[derive(Clone, Copy, Debug, PartialEq, Eq)]
pub struct PredictOptions {
    /// How many are told at most, 1 to 65,535.
    pub most: u32,
    /// Whether the order of critical sections and messages may be another than the recorded one.
    pub turned: bool,
}

impl Default for PredictOptions {
    /// At most 64, in the recorded order.
    fn default() -> PredictOptions
        ensures most { result.most ≡ 64 }
        ensures turned { result.turned ≡ false }
    {
        PredictOptions {
            most: 64,
            turned: false,
        }
    }
}

impl PredictOptions {
    // Whether each is in its limits.
    pub(crate) fn are_in_limits(&self) -> bool
        ensures { result ≡ spec.are_predict_limits self.now }
    {
        1 <= self.most && self.most as usize <= MAX_PREDICTED
    }
}

/// Finds races that other runs of the same goroutines would have: reads a trace's text in blocks, and writes the report of
/// a check and a line for each predicted race, how many variables weren't searched to their end, if there are any, and the
/// count. It stops reading behind the block that ends the first faulty line.
///
/// The answer is a status. 66: the trace has a race or one is predicted; 0: neither; 2 and 1: one line tells the text fault or
/// the illegal event; 3: an option is out of its limits; 4: memory was refused; 5: a device failed.
///
/// Not all such races are found. It judges by one shard, and waits for no thread.
pub fn run_predict<R: Read, W: Write, A: Allocator + Copy>(
    alloc: A,
    source: &mut Source<R>,
    sink: &mut Sink<W>,
    options: &PredictOptions,
) -> u8
    // An option is out of its limits: nothing is read, and nothing is written.
    ensures usage { spec.are_predict_limits options.now ≡ false → result ≡ status.USAGE }
    ensures untouched { spec.are_predict_limits options.now ≡ false
        → (source.new ≡ source.old) × (sink.new ≡ sink.old) }

    // Otherwise the report of the whole input and its predictions were written, unless memory or a device was wanting.
    ensures predicts { spec.are_predict_limits options.now ≡ true
        → spec.Predicts A options.now.most R.remaining W.contents source.old source.new sink.old sink.new result }
{
    if !options.are_in_limits() {
        return status::USAGE;
    }
    let predicting = Predicting {
        alloc,
        options: *options,
    };
    let read = |source: &mut Source<R>| read_text(
        alloc,
        source,
        Reader::keyed(alloc, source.key()),
    );
    let find = |trace| predicting.find(trace);
    answer(&predicting, read, find, source, sink)
}

// What is a prediction's own.
#[derive(Drop)]
struct Predicting<A: Allocator + Copy> {
    alloc: A,
    options: PredictOptions,
}

impl<A: Allocator + Copy> Predicting<A> {
    // What there is to reply to a trace.
    fn find(&self, trace: Trace<A>) -> Result<Reply<Predicted<A>>, Unanswered>
        ensures { Replies IsTextOf (spec.IsPredicting self.now.options.most) Never trace result }
    {
        let verdict = judge_alone(self.alloc, &trace)?;
        match illegal_event(&verdict) {
            Some(illegal) => Ok(Reply::Broken(illegal)),
            None => Ok(Reply::Found(self.predicted(trace, verdict)?)),
        }
    }

    // What is predicted beside the verdict on a legal trace.
    fn predicted(&self, trace: Trace<A>, verdict: Verdict<A>) -> Result<Predicted<A>, AllocError>
        requires verdict { HasVerdict trace (verdict_of verdict) }
        requires legal { IsLegal (capacities trace) trace.events }
        ensures trace { IfOk result (λ found. found.trace ≡ trace) }
        ensures predicted { IfOk result (spec.IsPredictedOf self.now.options.most) }
    {
        let most = self.options.most;
        let turned = self.options.turned;
        let Predictions {
            found,
            not_searched,
        } = predict(self.alloc, &trace, &verdict, most, turned)?;
        Ok(Predicted {
            trace,
            verdict,
            races: found,
            not_searched,
        })
    }
}

/// The illegal event that the verdict tells, if it tells one.
pub(crate) fn illegal_event<A: Allocator>(verdict: &Verdict<A>) -> Option<Illegal>
    ensures some { IfSome result (λ illegal. (trace : TraceState) → HasVerdict trace (verdict_of verdict.now) → IsBrokenBy illegal trace) }
    ensures none { result ≡ None → (trace : TraceState) → HasVerdict trace (verdict_of verdict.now)
        → IsLegal (capacities trace) trace.events }
{
    match verdict {
        Verdict::Illegal(illegal) => Some(*illegal),
        Verdict::Clean => None,
        Verdict::Races(_) => None,
    }
}

impl<A: Allocator + Copy> Engine for Predicting<A> {
    ghost use Rattle.race_tool.specs.{Outcome.Never, Predict.IsPredicting};

    type Reader = Reader<A>;

    type Found = Predicted<A>;

    ghost is_right = { λ engine. IsPredicting engine.options.most };

    ghost is_unrecorded = { λ _. Never };
}

/// A trace with its verdict, and the races that are predicted beside it.
#[derive(Drop)]
pub(crate) struct Predicted<A: Allocator> {
    /// The trace.
    pub(crate) trace: Trace<A>,
    /// The verdict on it.
    pub(crate) verdict: Verdict<A>,
    /// The predicted races, by the indexes of the trace's events.
    pub(crate) races: Vec<Race, A>,
    /// How many variables weren't searched to their end.
    pub(crate) not_searched: u32,
}

impl<A: Allocator> Shown for Predicted<A> {
    ghost use Rattle.std.specs.Prelude.{All};
    ghost use Rattle.race_verdict.specs.Races.{race_of};
    ghost use Rattle.race_report.specs.Printable.{IsOf, RacesAreOf};
    ghost use Rattle.race_tool.specs.Predict.{predicting_text, predicting_status};

    ghost is_printable = { λ found. RacesAreOf found.trace found.verdict × All (λ race. IsOf found.trace (race_of race)) found.races.items };

    ghost text = { predicting_text };

    ghost status_for = { predicting_status };

    fn write<W: Write>(&self, sink: &mut Sink<W>) -> Result<(), WriteFault> {
        write_predicted(
            &self.trace,
            &self.verdict,
            self.races.as_slice(),
            self.not_searched,
            sink,
        )
    }

    fn status(&self) -> u8 {
        if !self.races.is_empty() {
            return status::RACES;
        }
        match &self.verdict {
            Verdict::Illegal(_) => status::ILLEGAL,
            Verdict::Clean => status::CLEAN,
            Verdict::Races(_) => status::RACES,
        }
    }
}
