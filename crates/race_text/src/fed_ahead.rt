//! A trace from its bytes, of which some lines were read ahead.
ghost use Rattle.std.specs.Prelude.{◌≡◌, ◌≢◌, ◌≤◌, ◌++◌, [], length, take, drop, All, Some, None, IfOk, IfErr, OnOk, MatchResult};
ghost use Rattle.std.specs.Prelude.{Vec};
ghost use Rattle.race_text.specs.{Ahead.{AreKnownAhead, IsKnownAhead}, Fault.trace_causes, Grammar.StandsForSome};
ghost use Rattle.race_text.specs.{Owed.HidesNone, Stream.{Known, StandsFor}};
ghost use Rattle.race_text.specs.Fed as spec;

use crate::ahead::{LineAhead, bytes_from};
use crate::cause::TextFault;
use crate::fed::{Fed, Lines, take_other};
use crate::stream::EventStream;
use std::alloc::Allocator;

impl<A: Allocator + Copy> Fed<EventStream<A>, A> {
    /// Takes those lines of the next piece of the text that were read ahead in several parts, and the lines between them, and
    /// tells where the next line begins. `feed` takes the rest. Where a line goes on in the piece, this takes none.
    pub fn feed_ahead(
        &mut self,
        piece: &[u8],
        ahead: &[Vec<LineAhead, A>],
    ) -> Result<usize, TextFault>
        requires { (k : Known) × spec.IsReady (StandsFor k) self.old × AreKnownAhead k piece.now ahead.now }
        ensures ready { (k : Known) → spec.IsReady (StandsFor k) self.old → spec.IsReady (StandsFor k) self.new }
        ensures goes_on { MatchResult result
            (λ at. (k : Known) → spec.ForEachFedTo trace_causes (StandsFor k) self.old
            (λ fed. spec.IsFed trace_causes (StandsFor k) self.new (fed ++ take at piece.now)))
            (λ _. (k : Known) → spec.ForEachFedTo trace_causes (StandsFor k) self.old
            (λ fed. spec.IsFed trace_causes (StandsFor k) self.new (fed ++ piece.now))) }
        ensures ok { IfOk result (λ at. (k : Known) → spec.ForEachFedTo trace_causes (StandsFor k) self.old
            (λ fed. spec.ended_fault trace_causes (fed ++ take at piece.now) ≡ None)) }
        ensures err { IfErr result (λ told. (k : Known) → spec.ForEachFedTo trace_causes (StandsFor k) self.old
            (λ fed. spec.IsTold trace_causes (fed ++ piece.now) told)) }
        ensures owed { IfErr result (λ told. self.old.fault ≡ None → self.old.lines.part.items ≡ []
            → (k : Known) → spec.ForEachFedTo trace_causes (StandsFor k) self.old
            (λ fed. HidesNone told (spec.ended_fault trace_causes (fed ++ piece.now)))) }
        ensures within { IfOk result (λ at. at ≤ length piece.now) }
        ensures fine { IfOk result (λ _. self.new.fault ≡ None) }
        ensures told { IfErr result (λ told. self.new.fault ≡ Some told) }
        ensures repeated { (told : TextFault) → self.old.fault ≡ Some told → result ≡ Err told }
    {
        match self.fault {
            Some(fault) => Err(fault),
            None => match self.lines.take_ahead(piece, ahead) {
                Ok(at) => Ok(at),
                Err(fault) => {
                    self.fault = Some(fault);
                    Err(fault)
                }
            },
        }
    }
}

impl<A: Allocator + Copy> Lines<EventStream<A>, A> {
    // Takes lines of the piece up to the last one that was read ahead, and tells where the next one begins. The rest isn't
    // taken here: each caller of `take_whole` in this impl would make a second instance of it and of `take_common`, which
    // is so large that it is inlined only where it has one caller.
    fn take_ahead(&mut self, piece: &[u8], ahead: &[Vec<LineAhead, A>]) -> Result<usize, TextFault>
        requires { (k : Known) × spec.IsBetween (StandsFor k self.old.reader) self.old.part.items × AreKnownAhead k piece.now ahead.now }
        ensures taken { MatchResult result
            (λ at. (k : Known) → spec.TakesBytes trace_causes (StandsFor k self.old.reader) (self.old.part.items ++ take at piece.now)
            (StandsFor k self.new.reader) self.new.part.items)
            (λ told. (k : Known) → spec.TellsOfBytes trace_causes (StandsFor k self.old.reader) (self.old.part.items ++ piece.now) told) }
        ensures owed { IfErr result (λ told. self.old.part.items ≡ []
            → (k : Known) → spec.HidesNoneOf trace_causes (StandsFor k self.old.reader) piece.now told) }
        ensures some { OnOk result ((k : Known) → StandsForSome (StandsFor k self.old.reader) → StandsForSome (StandsFor k self.new.reader)) }
        ensures same { self.new.part ≡ self.old.part }
        ensures within { IfOk result (λ at. at ≤ length piece.now) }
    {
        if self.is_between_lines() {
            take_parts(&mut self.reader, piece, ahead)
        } else {
            Ok(0)
        }
    }
}

// Takes lines up to the last one that was read ahead, and tells where the next one begins.
fn take_parts<A: Allocator + Copy>(
    reader: &mut EventStream<A>,
    bytes: &[u8],
    ahead: &[Vec<LineAhead, A>],
) -> Result<usize, TextFault>
    requires { (k : Known) × StandsForSome (StandsFor k reader.old) × AreKnownAhead k bytes.now ahead.now }
    ensures taken { MatchResult result
        (λ at. (k : Known) → spec.TakesFront trace_causes (StandsFor k reader.old) bytes.now (StandsFor k reader.new) (drop at bytes.now))
        (λ told. (k : Known) → spec.TellsOfWhole trace_causes (StandsFor k reader.old) bytes.now told) }
    ensures some { OnOk result ((k : Known) → StandsForSome (StandsFor k reader.old) → StandsForSome (StandsFor k reader.new)) }
    ensures within { IfOk result (λ at. at ≤ length bytes.now) }
{
    let mut at = 0;
    for lines in ahead {
        at = take_lines(reader, bytes, at, lines.as_slice())?;
    }
    Ok(at)
}

// The same of lines that were read ahead in one part, from this place on.
fn take_lines<A: Allocator + Copy>(
    reader: &mut EventStream<A>,
    bytes: &[u8],
    from: usize,
    lines: &[LineAhead],
) -> Result<usize, TextFault>
    requires known { (k : Known) × StandsForSome (StandsFor k reader.old) × All (IsKnownAhead k bytes.now) lines.now }
    requires within { from ≤ length bytes.now }
    ensures taken { MatchResult result
        (λ at. (k : Known) → spec.TakesFront trace_causes (StandsFor k reader.old) (drop from bytes.now) (StandsFor k reader.new) (drop at bytes.now))
        (λ told. (k : Known) → spec.TellsOfWhole trace_causes (StandsFor k reader.old) (drop from bytes.now) told) }
    ensures some { OnOk result ((k : Known) → StandsForSome (StandsFor k reader.old) → StandsForSome (StandsFor k reader.new)) }
    ensures within { IfOk result (λ at. at ≤ length bytes.now) }
{
    let mut at = from;
    for line in lines {
        at = take_one(reader, bytes, at, *line)?;
    }
    Ok(at)
}

// Takes lines up to the one that was read ahead, and this one, where they lead to it.
#[inline(always)]
fn take_one<A: Allocator + Copy>(
    reader: &mut EventStream<A>,
    bytes: &[u8],
    from: usize,
    line: LineAhead,
) -> Result<usize, TextFault>
    requires known { (k : Known) × StandsForSome (StandsFor k reader.old) × IsKnownAhead k bytes.now line }
    requires within { from ≤ length bytes.now }
    ensures taken { MatchResult result
        (λ at. (k : Known) → spec.TakesFront trace_causes (StandsFor k reader.old) (drop from bytes.now) (StandsFor k reader.new) (drop at bytes.now))
        (λ told. (k : Known) → spec.TellsOfWhole trace_causes (StandsFor k reader.old) (drop from bytes.now) told) }
    ensures some { OnOk result ((k : Known) → StandsForSome (StandsFor k reader.old) → StandsForSome (StandsFor k reader.new)) }
    ensures within { IfOk result (λ at. at ≤ length bytes.now) }
{
    let at = take_until(reader, bytes, from, line.start)?;
    if at == line.start {
        take_this(reader, bytes, line)?;
        Ok(line.end)
    } else {
        Ok(at)
    }
}

// Takes lines as they come, until one begins at this place or later.
#[inline(always)]
fn take_until<A: Allocator + Copy>(
    reader: &mut EventStream<A>,
    bytes: &[u8],
    from: usize,
    until: usize,
) -> Result<usize, TextFault>
    requires some { (k : Known) × StandsForSome (StandsFor k reader.old) }
    requires within { from ≤ length bytes.now }
    ensures taken { MatchResult result
        (λ at. (k : Known) → spec.TakesFront trace_causes (StandsFor k reader.old) (drop from bytes.now) (StandsFor k reader.new) (drop at bytes.now))
        (λ told. (k : Known) → spec.TellsOfWhole trace_causes (StandsFor k reader.old) (drop from bytes.now) told) }
    ensures some { OnOk result ((k : Known) → StandsForSome (StandsFor k reader.old) → StandsForSome (StandsFor k reader.new)) }
    ensures within { IfOk result (λ at. at ≤ length bytes.now) }
{
    let mut at = from;
    while at < until {
        // Not by `take_common`, whose one caller is `take_commons`.
        match take_other(reader, bytes_from(bytes, at))? {
            None => return Ok(at),
            Some(rest) => at = bytes.len() - rest.len(),
        }
    }
    Ok(at)
}

// Takes the line that was read ahead, or tells why not, with its number.
#[inline(always)]
fn take_this<A: Allocator + Copy>(
    reader: &mut EventStream<A>,
    bytes: &[u8],
    line: LineAhead,
) -> Result<(), TextFault>
    requires { (k : Known) × StandsForSome (StandsFor k reader.old) × IsKnownAhead k bytes.now line }
    ensures taken { MatchResult result
        (λ _. (k : Known) → spec.TakesFront trace_causes (StandsFor k reader.old) (drop line.start bytes.now) (StandsFor k reader.new) (drop line.end bytes.now))
        (λ told. (k : Known) → spec.TellsOfWhole trace_causes (StandsFor k reader.old) (drop line.start bytes.now) told) }
    ensures some { OnOk result ((k : Known) → StandsForSome (StandsFor k reader.old) → StandsForSome (StandsFor k reader.new)) }
{
    let number = reader.line();
    match reader.take_ahead(bytes, line) {
        Ok(()) => Ok(()),
        Err(cause) => Err(TextFault {
            line: number,
            cause,
        }),
    }
}
