//! A trace that is read line by line.
ghost use Rattle.std.specs.Prelude.{◌≡◌, ◌+◌, [], length, true, false, Some, None, MatchResult, OnOk};
ghost use Rattle.race_text.specs.{Lines.GoesOn, Owed.owed, Text.{HasText, lines}, Taking.{IsRead, begun}};
ghost use Rattle.race_text.specs.Common.{GoesOnIfTold, TellsOfCommon};
ghost use Rattle.race_text.specs.Fault as fault;
ghost use Rattle.race_text.specs.Reader as spec;

use crate::cause::TextCause;
use crate::cut::has_bad_byte;
use crate::declaration::read_declaration;
use crate::grammar::Grammar;
use crate::guesses::Guesses;
use crate::header::version_said;
use crate::taking::{take_common, take_event};
use race_records::{Decls, Trace, Version};
use std::alloc::Allocator;
use std::mem;

/// What was read so far: the header or not, declarations, and the trace from its first event on.
pub struct Reader<A: Allocator> {
    /// The memory for what is read.
    pub alloc: A,
    /// The key for the hashes of names and places.
    pub key: u64,
    /// Whether the header was read.
    pub has_header: bool,
    /// The declarations, until the first event. They are of the version that the header says.
    pub decls: Decls<A>,
    /// The trace, from the first event on.
    pub trace: Option<Trace<A>>,
    /// Where the places of events likely stand.
    pub guesses: Guesses<A>,
}

impl<A: Allocator> Drop for Reader<A> {
    fn drop(self) {
        let Reader {
            alloc: _,
            key: _,
            has_header: _,
            decls: _,
            trace: _,
            guesses: _,
        } = self;
    }
}

impl<A: Allocator + Copy> Grammar for Reader<A> {
    ghost use Rattle.race_text.specs.{Fault.trace_causes, Reader.StandsFor, Text.IsTextOf};

    type Whole = Trace<A>;

    ghost at_start = { tt };

    ghost causes = { trace_causes };

    ghost stands_for = { λ _. StandsFor };

    ghost is_text_of = { λ _. IsTextOf };

    #[inline(always)]
    fn take_line(&mut self, line: &[u8]) -> Result<(), TextCause> {
        self.take_line(line)
    }

    #[inline(always)]
    fn line(&self) -> u64 {
        self.line()
    }

    fn whole(self, last: &[u8]) -> Result<Trace<A>, TextCause> {
        match self.end_cause(last) {
            Some(cause) => Err(cause),
            None => Ok(self.into_trace()),
        }
    }

    #[inline(always)]
    fn take_common<'b>(&mut self, bytes: &'b [u8]) -> Result<Option<&'b [u8]>, TextCause> {
        self.take_common(bytes)
    }
}

impl<A: Allocator + Copy> Reader<A> {
    /// Nothing is read yet, and the key is 0. Takes no memory.
    pub fn new(alloc: A) -> Reader<A>
        ensures stands { spec.StandsFor result [] }
        ensures none { result.trace ≡ None }
    {
        Reader::keyed(alloc, 0)
    }

    /// Nothing is read yet. Names and places are hashed by the key. Takes no memory.
    pub fn keyed(alloc: A, key: u64) -> Reader<A>
        ensures stands { spec.StandsFor result [] }
        ensures none { result.trace ≡ None }
    {
        Reader {
            alloc,
            key,
            has_header: false,
            decls: Decls::keyed(alloc, Version::One, key),
            trace: None,
            guesses: Guesses::new(alloc),
        }
    }

    // Takes the next line, or tells its least cause: want of memory only where the line has none.
    // After a cause nothing more is to be taken.
    #[inline(always)]
    pub(crate) fn take_line(&mut self, line: &[u8]) -> Result<(), TextCause>
        requires { spec.IsReading self.old.has_header self.old.decls self.old.trace }
        ensures taken { MatchResult result
            (λ _. GoesOn fault.trace_causes (spec.lines_read self.old.has_header self.old.decls self.old.trace) line.now
            (spec.lines_read self.new.has_header self.new.decls self.new.trace))
            (λ told. told ≡ owed
            (fault.cause (spec.lines_read self.old.has_header self.old.decls self.old.trace) line.now true)) }
        ensures reading { OnOk result
            (spec.IsReading self.new.has_header self.new.decls self.new.trace) }
    {
        if !self.has_header {
            return self.take_header(line);
        }
        match &mut self.trace {
            Some(trace) => take_event(trace, &mut self.guesses, line),
            None => self.take_before_events(line),
        }
    }

    // Takes the next line where it is the common one in front of the bytes, and tells what is behind
    // it. Tells nothing, and takes nothing, where it is another.
    #[inline(always)]
    pub(crate) fn take_common<'b>(&mut self, bytes: &'b [u8]) -> Result<Option<&'b [u8]>, TextCause>
        requires { spec.IsReading self.old.has_header self.old.decls self.old.trace }
        ensures taken { MatchResult result
            (λ rest. GoesOnIfTold (spec.lines_read self.old.has_header self.old.decls self.old.trace) bytes.now rest
            (spec.lines_read self.new.has_header self.new.decls self.new.trace))
            (TellsOfCommon (spec.lines_read self.old.has_header self.old.decls self.old.trace) bytes.now) }
        ensures reading { OnOk result
            (spec.IsReading self.new.has_header self.new.decls self.new.trace) }
    {
        match &mut self.trace {
            Some(trace) => take_common(trace, &mut self.guesses, bytes),
            None => Ok(None),
        }
    }

    // The number of the line that comes next, counted from 1.
    #[inline(always)]
    pub(crate) fn line(&self) -> u64
        ensures { result ≡ length (spec.lines_read self.now.has_header self.now.decls self.now.trace) + 1 }
    {
        if !self.has_header {
            return 1;
        }
        match &self.trace {
            Some(trace) => trace.decls().len() as u64 + trace.len() as u64 + 2,
            None => self.decls.len() as u64 + 2,
        }
    }

    // The cause of the last part of a text, which no newline ends.
    pub(crate) fn end_cause(&self, last: &[u8]) -> Option<TextCause>
        ensures { result ≡ fault.end_cause
            (spec.lines_read self.now.has_header self.now.decls self.now.trace) last.now }
    {
        if self.has_header {
            return if last.is_empty() {
                None
            } else {
                Some(TextCause::NoNewline)
            };
        }
        match version_said(last) {
            None => Some(TextCause::BadHeader),
            Some(_) => Some(TextCause::NoNewline),
        }
    }

    // The trace that was read. Takes no memory.
    pub(crate) fn into_trace(self) -> Trace<A>
        requires header { self.has_header ≡ true }
        requires reading { spec.IsReading self.has_header self.decls self.trace }
        ensures lines { lines result ≡ spec.lines_read self.has_header self.decls self.trace }
        ensures has_text { HasText result }
    {
        let Reader {
            alloc: _,
            key: _,
            has_header: _,
            decls,
            trace,
            guesses: _,
        } = self;
        match trace {
            Some(trace) => trace,
            None => Trace::new(decls),
        }
    }

    // Takes the first line.
    #[cold]
    #[inline(never)]
    fn take_header(&mut self, line: &[u8]) -> Result<(), TextCause>
        requires header { self.old.has_header ≡ false }
        requires reading { spec.IsReading self.old.has_header self.old.decls self.old.trace }
        ensures taken { MatchResult result
            (λ _. GoesOn fault.trace_causes [] line.now (spec.lines_read self.new.has_header self.new.decls self.new.trace))
            (λ told. told ≡ owed (fault.cause [] line.now true)) }
        ensures reading { OnOk result
            (spec.IsReading self.new.has_header self.new.decls self.new.trace) }
    {
        match version_said(line) {
            None => Err(TextCause::BadHeader),
            Some(Version::One) => {
                self.has_header = true;
                Ok(())
            }
            Some(Version::Two) => {
                self.decls = Decls::keyed(self.alloc, Version::Two, self.key);
                self.has_header = true;
                Ok(())
            }
        }
    }

    // Takes a line before which no event stands.
    #[inline(never)]
    fn take_before_events(&mut self, line: &[u8]) -> Result<(), TextCause>
        requires header { self.old.has_header ≡ true }
        requires trace { self.old.trace ≡ None }
        requires read { IsRead (begun self.old.decls) }
        ensures taken { MatchResult result
            (λ _. GoesOn fault.trace_causes (lines (begun self.old.decls)) line.now
            (spec.lines_read self.new.has_header self.new.decls self.new.trace))
            (λ told. told ≡ owed (fault.cause (lines (begun self.old.decls)) line.now true)) }
        ensures reading { OnOk result
            (spec.IsReading self.new.has_header self.new.decls self.new.trace) }
    {
        match take_declaration(&mut self.decls, line) {
            Err(cause) => Err(cause),
            Ok(added) => {
                if added {
                    return Ok(());
                }
                let mut trace = Trace::new(mem::replace(&mut self.decls, Decls::new(self.alloc)));
                self.guesses.make_room();
                match take_event(&mut trace, &mut self.guesses, line) {
                    Err(cause) => Err(cause),
                    Ok(()) => {
                        self.trace = Some(trace);
                        Ok(())
                    }
                }
            }
        }
    }
}

// Takes a line that declares, where no event stands before it.
fn take_declaration<A: Allocator + Copy>(
    decls: &mut Decls<A>,
    line: &[u8],
) -> Result<bool, TextCause>
    requires { IsRead (begun decls.old) }
    ensures { spec.TakesDeclaration decls.old line.now result decls.new }
{
    if has_bad_byte(line) {
        return Err(TextCause::BadByte);
    }
    read_declaration(decls, line)
}
