//! A text of any kind from its bytes, piece by piece.
ghost use Rattle.std.specs.Prelude.{◌≡◌, ◌≢◌, ◌++◌, ◌↔◌, [], IsTrue, Some, None, IfOk, IfErr, OnOk, MatchResult};
ghost use Rattle.race_text.specs.Lines.{first_fault, IsLineOf, IsNoneBefore};
ghost use Rattle.race_text.specs.{Grammar.{StandsForSome, ForEachLines, Takes}, Owed.HidesNone};
ghost use Rattle.race_text.specs.Fed as spec;

use crate::cause::{TextCause, TextFault};
use crate::cut::cut_at;
use crate::grammar::Grammar;
use std::alloc::Allocator;

/// What was read, and the bytes behind it that no newline has ended yet.
#[derive(Drop)]
pub struct Lines<G, A: Allocator> {
    /// What was read.
    pub reader: G,
    /// The first bytes of the next line.
    pub part: Vec<u8, A>,
}

/// Reads a text by a grammar, in pieces that may be cut anywhere. A line is read as soon as its newline
/// has come.
#[derive(Drop)]
pub struct Fed<G, A: Allocator> {
    /// What was read.
    pub lines: Lines<G, A>,
    /// The fault that was told, behind which nothing is read.
    pub fault: Option<TextFault>,
}

impl<G: Grammar, A: Allocator + Copy> Fed<G, A> {
    /// Nothing is fed yet. Takes no memory.
    pub fn new(alloc: A, grammar: G) -> Fed<G, A>
        requires { G.stands_for G.at_start grammar [] }
        ensures stands { spec.IsFed G.causes (G.stands_for G.at_start) result [] }
        ensures ready { spec.IsReady (G.stands_for G.at_start) result }
        ensures reader { result.lines.reader ≡ grammar }
        ensures none { result.lines.part.items ≡ [] }
        ensures fine { result.fault ≡ None }
    {
        Fed {
            lines: Lines {
                reader: grammar,
                part: Vec::new(alloc),
            },
            fault: None,
        }
    }

    /// Takes the next piece of the text, and tells the first fault of the lines that are ended.
    ///
    /// Memory aside it is Ok exactly where none of them has one. Want of memory hides no fault of its
    /// own line where that line came in one piece. After a refusal each further call refuses in the
    /// same way.
    pub fn feed(&mut self, piece: &[u8]) -> Result<(), TextFault>
        requires { (k : G.Known) × spec.IsReady (G.stands_for k) self.old }
        ensures ready { (k : G.Known) → spec.IsReady (G.stands_for k) self.old → spec.IsReady (G.stands_for k) self.new }
        ensures goes_on { (k : G.Known) → spec.ForEachFedTo G.causes (G.stands_for k) self.old
            (λ fed. spec.IsFed G.causes (G.stands_for k) self.new (fed ++ piece.now)) }
        ensures ok { IfOk result (λ _. (k : G.Known) → spec.ForEachFedTo G.causes (G.stands_for k) self.old
            (λ fed. spec.ended_fault G.causes (fed ++ piece.now) ≡ None)) }
        ensures err { IfErr result (λ told. (k : G.Known) → spec.ForEachFedTo G.causes (G.stands_for k) self.old
            (λ fed. spec.IsTold G.causes (fed ++ piece.now) told)) }
        ensures owed { IfErr result (λ told. self.old.fault ≡ None → self.old.lines.part.items ≡ []
            → (k : G.Known) → spec.ForEachFedTo G.causes (G.stands_for k) self.old
            (λ fed. HidesNone told (spec.ended_fault G.causes (fed ++ piece.now)))) }
        ensures fine { IfOk result (λ _. self.new.fault ≡ None) }
        ensures told { IfErr result (λ told. self.new.fault ≡ Some told) }
        ensures repeated { (told : TextFault) → self.old.fault ≡ Some told → result ≡ Err told }
    {
        match self.fault {
            Some(fault) => Err(fault),
            None => match self.lines.take(piece) {
                Ok(()) => Ok(()),
                Err(fault) => {
                    self.fault = Some(fault);
                    Err(fault)
                }
            },
        }
    }

    /// What was fed as a whole, or its first fault.
    pub fn finish(self) -> Result<G::Whole, TextFault>
        requires { (k : G.Known) × spec.IsReady (G.stands_for k) self }
        ensures text { IfOk result (λ whole. (k : G.Known) → spec.ForEachFedTo G.causes (G.stands_for k) self (G.is_text_of k whole)) }
        ensures fault { IfErr result (λ told. (k : G.Known) → spec.ForEachFedTo G.causes (G.stands_for k) self
            (λ fed. told.cause ≢ TextCause.OutOfMemory → first_fault G.causes fed ≡ Some told)) }
        ensures memory { IfErr result (λ told. (k : G.Known) → spec.ForEachFedTo G.causes (G.stands_for k) self
            (λ fed. IsNoneBefore told.line (first_fault G.causes fed))) }
        ensures line { IfErr result (λ told. (k : G.Known) → spec.ForEachFedTo G.causes (G.stands_for k) self
            (λ fed. IsLineOf fed told.line)) }
        ensures repeated { (told : TextFault) → self.fault ≡ Some told → result ≡ Err told }
    {
        let Fed { lines, fault } = self;
        let Lines { reader, part } = lines;
        match fault {
            Some(fault) => Err(fault),
            None => {
                let line = reader.line();
                match reader.whole(part.as_slice()) {
                    Err(cause) => Err(TextFault { line, cause }),
                    Ok(whole) => Ok(whole),
                }
            }
        }
    }
}

impl<G: Grammar, A: Allocator + Copy> Lines<G, A> {
    // Takes the lines that the piece ends, and keeps what is behind them.
    fn take(&mut self, piece: &[u8]) -> Result<(), TextFault>
        requires { (k : G.Known) × spec.IsBetween (G.stands_for k self.old.reader) self.old.part.items }
        ensures taken { MatchResult result
            (λ _. (k : G.Known) → spec.TakesBytes G.causes (G.stands_for k self.old.reader) (self.old.part.items ++ piece.now)
            (G.stands_for k self.new.reader) self.new.part.items)
            (λ told. (k : G.Known) → spec.TellsOfBytes G.causes (G.stands_for k self.old.reader) (self.old.part.items ++ piece.now) told) }
        ensures owed { IfErr result (λ told. self.old.part.items ≡ []
            → (k : G.Known) → spec.HidesNoneOf G.causes (G.stands_for k self.old.reader) piece.now told) }
        ensures some { OnOk result ((k : G.Known) → StandsForSome (G.stands_for k self.old.reader) → StandsForSome (G.stands_for k self.new.reader)) }
        ensures unended { OnOk result (spec.IsUnended self.new.part.items) }
    {
        if self.is_between_lines() {
            return self.take_whole(piece);
        }
        let (end, rest) = cut_at(piece, b'\n');
        self.keep(end)?;
        match rest {
            None => Ok(()),
            Some(others) => {
                self.take_part()?;
                self.take_whole(others)
            }
        }
    }

    // Whether no part of a line is left.
    pub(crate) fn is_between_lines(&self) -> bool
        ensures { IsTrue result ↔ (self.now.part.items ≡ []) }
    {
        self.part.is_empty()
    }

    // As `take`, where no part of a line is left before. The lines are read where they lie.
    fn take_whole(&mut self, bytes: &[u8]) -> Result<(), TextFault>
        requires some { (k : G.Known) × StandsForSome (G.stands_for k self.old.reader) }
        requires none { self.old.part.items ≡ [] }
        ensures taken { MatchResult result
            (λ _. (k : G.Known) → spec.TakesBytes G.causes (G.stands_for k self.old.reader) bytes.now
            (G.stands_for k self.new.reader) self.new.part.items)
            (λ told. (k : G.Known) → spec.TellsOfWhole G.causes (G.stands_for k self.old.reader) bytes.now told) }
        ensures some { OnOk result ((k : G.Known) → StandsForSome (G.stands_for k self.old.reader) → StandsForSome (G.stands_for k self.new.reader)) }
        ensures unended { OnOk result (spec.IsUnended self.new.part.items) }
    {
        let mut left = bytes;
        loop {
            let rest = self.reader.take_commons(left)?;
            match take_other(&mut self.reader, rest)? {
                None => {
                    self.keep(rest)?;
                    return Ok(());
                }
                Some(others) => left = others,
            }
        }
    }

    // Takes the line that came in pieces.
    fn take_part(&mut self) -> Result<(), TextFault>
        requires { (k : G.Known) × StandsForSome (G.stands_for k self.old.reader) }
        ensures taken { MatchResult result
            (λ _. (k : G.Known) → Takes G.causes (G.stands_for k self.old.reader) self.old.part.items (G.stands_for k self.new.reader))
            (λ told. (k : G.Known) → ForEachLines (G.stands_for k self.old.reader) (spec.TellsOfLine G.causes self.old.part.items told)) }
        ensures none { OnOk result (self.new.part.items ≡ []) }
    {
        take_line(&mut self.reader, self.part.as_slice())?;
        self.part.clear();
        Ok(())
    }

    // Keeps more bytes of a line that no newline has ended yet.
    fn keep(&mut self, bytes: &[u8]) -> Result<(), TextFault>
        requires { (k : G.Known) × StandsForSome (G.stands_for k self.old.reader) }
        ensures kept { OnOk result (self.new.part.items ≡ self.old.part.items ++ bytes.now) }
        ensures told { IfErr result (λ told. (k : G.Known) → ForEachLines (G.stands_for k self.old.reader) (spec.TellsOfMemory told)) }
        ensures same { self.new.reader ≡ self.old.reader }
    {
        match self.part.extend_from_slice(bytes) {
            Ok(()) => Ok(()),
            Err(_) => Err(TextFault {
                line: self.reader.line(),
                cause: TextCause::OutOfMemory,
            }),
        }
    }
}

// Takes the line in front of the bytes, and tells what is behind it; nothing where no newline ends it.
#[inline(never)]
pub(crate) fn take_other<'a, G: Grammar>(
    reader: &mut G,
    bytes: &'a [u8],
) -> Result<Option<&'a [u8]>, TextFault>
    requires { (k : G.Known) × StandsForSome (G.stands_for k reader.old) }
    ensures { MatchResult result
        (λ rest. (k : G.Known) → spec.TakesNext G.causes (G.stands_for k reader.old) bytes.now rest (G.stands_for k reader.new))
        (λ told. (k : G.Known) → spec.TellsOfNext G.causes (G.stands_for k reader.old) bytes.now told) }
{
    let (line, rest) = cut_at(bytes, b'\n');
    match rest {
        None => Ok(None),
        Some(others) => match take_line(reader, line) {
            Ok(()) => Ok(Some(others)),
            Err(fault) => Err(fault),
        },
    }
}

// Takes a line, or tells its least cause with its number.
#[inline(always)]
fn take_line<G: Grammar>(reader: &mut G, line: &[u8]) -> Result<(), TextFault>
    requires { (k : G.Known) × StandsForSome (G.stands_for k reader.old) }
    ensures { MatchResult result
        (λ _. (k : G.Known) → Takes G.causes (G.stands_for k reader.old) line.now (G.stands_for k reader.new))
        (λ told. (k : G.Known) → ForEachLines (G.stands_for k reader.old) (spec.TellsOfLine G.causes line.now told)) }
{
    let number = reader.line();
    match reader.take_line(line) {
        Ok(()) => Ok(()),
        Err(cause) => Err(TextFault {
            line: number,
            cause,
        }),
    }
}
