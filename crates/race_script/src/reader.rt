//! A program that is read line by line.
ghost use Rattle.std.specs.Prelude.{◌≡◌, ◌≢◌, ◌+◌, ◌^◌, ◌<◌, [], length, sum_by, reverse, true, false, Some, None, Ok};
ghost use Rattle.std.specs.Prelude.{is_some, IfOk, IfSome, MatchResult, OnOk, OnErr};
ghost use Rattle.race_records.specs.{Declarations.IsWellFormed, Name.is_place};
ghost use Rattle.race_requests.specs.Sound.{has_ask};
ghost use Rattle.race_text.specs.{Lines.GoesOn, Owed.owed, Declaring.{cause_of as place_cause}, Words.parts_left};
ghost use Rattle.race_script.specs.Text.{Asks};
ghost use Rattle.race_script.specs.Bodies as bodies;
ghost use Rattle.race_script.specs.Fault as fault;
ghost use Rattle.race_script.specs.Form as form;
ghost use Rattle.race_script.specs.Program as program;
ghost use Rattle.race_script.specs.Reading as reading;
ghost use Rattle.race_script.specs.Reader as spec;

use crate::asks::{asked_in, begun_in, words_cause};
use crate::form::{LineKeyword, StepKeyword, ask_fields, line_word_in, on_nil};
use crate::header::version_said;
use crate::offers::{select_words, selected_in};
use crate::program::{MAX_STEPS, Program};
use crate::script::is_exit;
use race_hub::{Ask, Request};
use race_records::{DeclFault, DeclKeyword, Decls, Kind, OperandKind, Version, as_text};
use race_requests::RequestList;
use race_text::{
    Field, Grammar, TextCause, Word, cause_of, cut_at, has_bad_byte, read_declaration, word_cause,
};
use std::alloc::{AllocError, Allocator};
use std::marker::Model;
use std::mem;

/// The body that has not ended.
#[derive(Drop)]
pub struct Unended<A: Allocator> {
    /// Its requests so far.
    pub requests: RequestList<A>,
    /// The onces whose functions are open, the innermost last.
    pub onces: Vec<u32, A>,
}

/// What was read so far.
pub struct Reader<A: Allocator> {
    alloc: A,
    // The key for the hashes of names and places.
    key: u64,
    has_header: bool,
    decls: Decls<A>,
    ended: Vec<RequestList<A>, A>,
    unended: Option<Unended<A>>,
}

impl<A: Allocator> Drop for Reader<A> {
    fn drop(self) {
        let Reader {
            alloc: _,
            key: _,
            has_header: _,
            decls: _,
            ended: _,
            unended: _,
        } = self;
    }
}

impl<A: Allocator> Model for Reader<A> {
    ghost use Rattle.std.specs.{Prelude.map, Option.option_map};
    ghost use Rattle.race_script.specs.Reader.{ReadState, state_of};

    ghost Value = { ReadState };

    ghost view = { λ r. record {
      has_header = r.has_header;
      decls = r.decls;
      ended = map (λ body. body.items) r.ended.items;
      unended = option_map state_of r.unended;
    } };
}

// What stands behind `body`.
static BEGIN_FIELDS: [Field; 1] = [Field::Operand(OperandKind::Object(Kind::Goroutine))];

impl<A: Allocator + Copy> Grammar for Reader<A> {
    ghost use Rattle.race_script.specs.{Fault.program_causes, Reader.StandsFor, Text.IsTextOf};

    type Whole = Program<A>;

    ghost at_start = { tt };

    ghost causes = { program_causes };

    ghost stands_for = { λ _. StandsFor };

    ghost is_text_of = { λ _. IsTextOf };

    fn take_line(&mut self, line: &[u8]) -> Result<(), TextCause> {
        self.take_line(line)
    }

    fn line(&self) -> u64 {
        self.line()
    }

    fn whole(self, last: &[u8]) -> Result<Program<A>, TextCause> {
        match self.end_cause(last) {
            Some(cause) => Err(cause),
            None => Ok(self.into_program()),
        }
    }
}

impl<A: Allocator + Copy> Reader<A> {
    /// Nothing is read yet, and the key is 0. Takes no memory.
    pub fn new(alloc: A) -> Reader<A>
        ensures { spec.StandsFor result [] }
    {
        Reader::keyed(alloc, 0)
    }

    /// Nothing is read yet. Names and places are hashed by the key. Takes no memory.
    pub fn keyed(alloc: A, key: u64) -> Reader<A>
        ensures { spec.StandsFor result [] }
    {
        Reader {
            alloc,
            key,
            has_header: false,
            decls: Decls::keyed(alloc, Version::One, key),
            ended: Vec::new(alloc),
            unended: None,
        }
    }

    // Takes the next line, or tells its least cause: want of memory only where the line has none.
    // After a cause nothing more is to be taken.
    pub(crate) fn take_line(&mut self, line: &[u8]) -> Result<(), TextCause>
        requires { spec.IsReading self.old }
        ensures taken { MatchResult result
            (λ _. GoesOn fault.program_causes (spec.lines_read self.old) line.now (spec.lines_read self.new))
            (λ told. told ≡ owed (fault.cause (spec.lines_read self.old) line.now true)) }
        ensures reading { OnOk result (spec.IsReading self.new) }
    {
        if !self.has_header {
            return self.take_header(line);
        }
        if has_bad_byte(line) {
            return Err(TextCause::BadByte);
        }
        let (first, rest) = cut_at(line, b' ');
        match line_word_in(self.decls.version(), first) {
            None => Err(TextCause::UnknownWord),
            Some(word) => self.take_words(word, line, rest),
        }
    }

    // The number of the line that comes next, counted from 1.
    pub(crate) fn line(&self) -> u64
        requires { spec.IsReading self.now }
        ensures { result ≡ length (spec.lines_read self.now) + 1 }
    {
        if !self.has_header {
            return 1;
        }
        let before = self.decls.len() as u64 + 2 + count_lines(self.ended.as_slice());
        match &self.unended {
            None => before,
            Some(unended) => before + 1 + unended.requests.len() as u64,
        }
    }

    // The cause of what stands behind the last newline.
    pub(crate) fn end_cause(&self, last: &[u8]) -> Option<TextCause>
        requires { spec.IsReading self.now }
        ensures { result ≡ fault.end_cause (spec.lines_read self.now) last.now }
    {
        if !self.has_header {
            return match version_said(last) {
                None => Some(TextCause::BadHeader),
                Some(_) => Some(TextCause::NoNewline),
            };
        }
        if !last.is_empty() {
            return Some(TextCause::NoNewline);
        }
        if self.is_whole() {
            None
        } else {
            Some(TextCause::BadBlock)
        }
    }

    // Whether each goroutine's body has ended.
    fn is_whole(&self) -> bool
        ensures { result ≡ fault.is_whole (spec.draft_read self.now) }
    {
        self.unended.is_none() && self.ended.len() == self.decls.count(Kind::Goroutine) as usize
    }

    // The program that was read. Takes no memory.
    pub(crate) fn into_program(self) -> Program<A>
        requires header { self.has_header ≡ true }
        requires reading { spec.IsReading self }
        requires whole { fault.is_whole (spec.draft_read self) ≡ true }
        ensures { result ≡ spec.program_read self }
    {
        let Reader {
            alloc: _,
            key: _,
            has_header: _,
            decls,
            ended,
            unended: _,
        } = self;
        Program::new(decls, ended)
    }

    // Takes the first line.
    fn take_header(&mut self, line: &[u8]) -> Result<(), TextCause>
        requires header { self.old.has_header ≡ false }
        requires reading { spec.IsReading self.old }
        ensures taken { MatchResult result
            (λ _. GoesOn fault.program_causes [] line.now (spec.lines_read self.new))
            (λ told. told ≡ owed (fault.cause [] line.now true)) }
        ensures reading { OnOk result (spec.IsReading self.new) }
    {
        match version_said(line) {
            None => Err(TextCause::BadHeader),
            Some(Version::One) => {
                self.has_header = true;
                Ok(())
            }
            Some(Version::Two) => {
                self.decls = Decls::keyed(self.alloc, Version::Two, self.key);
                self.has_header = true;
                Ok(())
            }
        }
    }

    // Takes a line of this first word.
    fn take_words(
        &mut self,
        word: LineKeyword,
        line: &[u8],
        rest: Option<&[u8]>,
    ) -> Result<(), TextCause>
        requires header { self.old.has_header ≡ true }
        requires read { spec.IsRead self.old }
        requires words { spec.HasWords self.old.decls.version line.now word (parts_left 32 rest) }
        ensures taken { spec.TakesOrTells self.old line.now result self.new }
    {
        match word {
            LineKeyword::Declares(keyword) => self.take_declaration(keyword, line, rest),
            LineKeyword::Begins => self.take_begin(line, rest),
            LineKeyword::Asks(word) => self.take_asks(word, line, rest),
            LineKeyword::Selects => self.take_select(line, rest),
        }
    }

    // How many bodies have begun.
    fn begun(&self) -> usize
        ensures { result ≡ length (program.bodies_of (spec.draft_read self.now)) }
    {
        match &self.unended {
            None => self.ended.len(),
            Some(_) => self.ended.len() + 1,
        }
    }

    // Takes a line that declares.
    fn take_declaration(
        &mut self,
        keyword: DeclKeyword,
        line: &[u8],
        rest: Option<&[u8]>,
    ) -> Result<(), TextCause>
        requires header { self.old.has_header ≡ true }
        requires read { spec.IsRead self.old }
        requires words { spec.HasWords self.old.decls.version line.now (LineKeyword.Declares keyword) (parts_left 32 rest) }
        ensures taken { spec.TakesOrTells self.old line.now result self.new }
    {
        let begun = self.begun();
        if begun > 0 {
            return Err(word_cause(&self.decls, begun, Word::Declares(keyword), rest).unwrap());
        }
        match read_declaration(&mut self.decls, line) {
            Ok(_) => Ok(()),
            Err(cause) => Err(cause),
        }
    }

    // Takes a line that begins a body.
    fn take_begin(&mut self, line: &[u8], rest: Option<&[u8]>) -> Result<(), TextCause>
        requires header { self.old.has_header ≡ true }
        requires read { spec.IsRead self.old }
        requires words { spec.HasWords self.old.decls.version line.now LineKeyword.Begins (parts_left 32 rest) }
        ensures taken { spec.TakesOrTells self.old line.now result self.new }
    {
        if let Some(cause) = words_cause(&self.decls, &BEGIN_FIELDS, rest) {
            return Err(cause);
        }
        let goroutine = begun_in(&self.decls, rest).unwrap();
        if !self.may_begin(goroutine) {
            return Err(TextCause::BadBlock);
        }
        self.unended = Some(Unended::new(self.alloc));
        Ok(())
    }

    // Whether the body of the goroutine is the next one.
    fn may_begin(&self, goroutine: u32) -> bool
        ensures { result ≡ fault.may_begin (spec.draft_read self.now) goroutine }
    {
        self.unended.is_none() && self.ended.len() == goroutine as usize
    }

    // Takes a line that asks.
    fn take_asks(
        &mut self,
        word: StepKeyword,
        line: &[u8],
        rest: Option<&[u8]>,
    ) -> Result<(), TextCause>
        requires header { self.old.has_header ≡ true }
        requires read { spec.IsRead self.old }
        requires words { spec.HasWords self.old.decls.version line.now (LineKeyword.Asks word) (parts_left 32 rest) }
        ensures taken { spec.TakesOrTells self.old line.now result self.new }
    {
        let (word, rest) = on_nil(word, rest);
        let fields = ask_fields(word);
        if let Some(cause) = words_cause(&self.decls, fields.as_slice(), rest) {
            return Err(cause);
        }
        let (ask, place) = asked_in(&self.decls, word, rest).unwrap();
        self.add(ask, place)
    }

    // Takes a line that asks by a select.
    fn take_select(&mut self, line: &[u8], rest: Option<&[u8]>) -> Result<(), TextCause>
        requires header { self.old.has_header ≡ true }
        requires read { spec.IsRead self.old }
        requires words { spec.HasWords self.old.decls.version line.now LineKeyword.Selects (parts_left 32 rest) }
        ensures taken { spec.TakesOrTells self.old line.now result self.new }
    {
        match selected_in(&self.decls, select_words(rest)) {
            Err(cause) => Err(cause),
            Ok((ask, place)) => self.add(ask, place),
        }
    }

    // Adds a request to the body that has not ended.
    fn add(&mut self, ask: Ask, place: &[u8]) -> Result<(), TextCause>
        requires header { self.old.has_header ≡ true }
        requires sound { spec.IsSound self.old }
        requires known { has_ask self.old.decls.version ask ≡ true }
        requires fits { program.ask_fits self.old.decls.declarations ask ≡ true }
        requires form { is_place place.now ≡ true }
        ensures { MatchResult result
            (λ _. spec.TakesSaid self.old (Asks (reading.asked_at ask place.now)) self.new)
            (λ told. told ≡ owed (fault.said_cause (spec.draft_read self.old)
            (Asks (reading.asked_at ask place.now)))) }
    {
        let Some(mut unended) = mem::replace(&mut self.unended, None) else {
            return Err(TextCause::BadBlock);
        };
        let exits = is_exit(&ask);
        unended.add(&mut self.decls, ask, place)?;
        if !exits {
            self.unended = Some(unended);
            return Ok(());
        }
        let Unended { requests, onces: _ } = unended;
        match self.ended.push(requests) {
            Ok(()) => Ok(()),
            Err(_) => Err(TextCause::OutOfMemory),
        }
    }
}

impl<A: Allocator> Unended<A> {
    // Nothing is asked yet. Takes no memory.
    fn new(alloc: A) -> Unended<A>
    where
        A: Copy,
        ensures requests { result.requests.items ≡ [] }
        ensures onces { result.onces.items ≡ [] }
    {
        Unended {
            requests: RequestList::new(alloc),
            onces: Vec::new(alloc),
        }
    }

    // Adds a request, whose place is declared where it wasn't, or tells the least cause of why not.
    fn add(&mut self, decls: &mut Decls<A>, ask: Ask, place: &[u8]) -> Result<(), TextCause>
    where
        A: Copy,
        requires { is_place place.now ≡ true }
        ensures { MatchResult result
            (λ _. spec.Adds decls.old (spec.state_of self.old) (reading.asked_at ask place.now) decls.new (spec.state_of self.new))
            (λ told. told ≡ owed (spec.added_cause decls.old (spec.state_of self.old) (reading.asked_at ask place.now))) }
    {
        if self.requests.len() >= MAX_STEPS {
            return Err(TextCause::TooMany);
        }
        match decls.add_place(as_text(place)) {
            Ok(place) => self.push(Request { ask, place }),
            Err(refused) => Err(self.refused_cause(refused, &ask)),
        }
    }

    // Adds a request that may follow.
    fn push(&mut self, request: Request) -> Result<(), TextCause>
        ensures { MatchResult result
            (λ _. spec.Pushes self.old.requests.items self.old.onces.items request
            self.new.requests.items self.new.onces.items)
            (λ told. told ≡ owed (fault.follow_cause (Some (reverse self.old.onces.items)) request.ask)) }
    {
        match enter(&mut self.onces, &request.ask) {
            Err(_) => return Err(TextCause::OutOfMemory),
            Ok(follows) => {
                if !follows {
                    return Err(TextCause::BadBlock);
                }
            }
        }
        match self.requests.push(request) {
            Ok(()) => Ok(()),
            Err(_) => Err(TextCause::OutOfMemory),
        }
    }

    // The cause of an ask whose place was refused. That it may not follow is told without memory.
    // Nothing more is to be pushed then.
    fn refused_cause(&mut self, refused: DeclFault, ask: &Ask) -> TextCause
        ensures other { refused ≢ DeclFault.OutOfMemory → result ≡ place_cause refused }
        ensures memory { refused ≡ DeclFault.OutOfMemory
            → result ≡ owed (fault.follow_cause (Some (reverse self.old.onces.items)) ask.now) }
    {
        match refused {
            DeclFault::OutOfMemory => match enter(&mut self.onces, ask) {
                Ok(false) => TextCause::BadBlock,
                Ok(true) => TextCause::OutOfMemory,
                Err(_) => TextCause::OutOfMemory,
            },
            other => cause_of(other),
        }
    }
}

// Whether the ask may follow where these functions are open; those behind it are then.
fn enter<A: Allocator>(onces: &mut Vec<u32, A>, ask: &Ask) -> Result<bool, AllocError>
    ensures follows { IfOk result (λ follows. follows ≡ fault.may_follow (Some (reverse onces.old.items)) ask.now) }
    ensures memory { OnErr result (fault.may_follow (Some (reverse onces.old.items)) ask.now ≡ true) }
    ensures inside { result ≡ Ok true → bodies.is_exit ask.now ≡ false
        → bodies.after_ask (reverse onces.old.items) ask.now ≡ Some (reverse onces.new.items) }
{
    match ask {
        Ask::Exit => Ok(onces.is_empty()),
        Ask::Do(once) => {
            onces.push(*once)?;
            Ok(true)
        }
        Ask::EndDo(once) => match onces.pop() {
            None => Ok(false),
            Some(innermost) => Ok(innermost == *once),
        },
        _ => Ok(true),
    }
}

// How many lines the bodies have.
fn count_lines<A: Allocator>(bodies: &[RequestList<A>]) -> u64
    requires { sum_by (λ body. 1 + length body.items) bodies.now < 2 ^ 64 }
    ensures { result ≡ sum_by (λ body. 1 + length body.items) bodies.now }
{
    let mut count = 0u64;
    for body in bodies {
        count += 1 + body.len() as u64;
    }
    count
}
