//! A trace's text, written.
ghost use Rattle.std.specs.Prelude.{◌≡◌, ◌<◌, [], ◌∷◌, ◌++◌, true, length, take, All, IsTrue, IfSome, IfErr};
ghost use Rattle.std.specs.{Io.KnownBytes.Appends, List.list_all, Option.option_map};
ghost use Rattle.race_records.specs.{Devices.written, Events.fits, Page.Printing, Operands.{operand_fits, chan_is_in_range}};
ghost use Rattle.race_records.specs.Declarations.{count_of};
ghost use Rattle.race_text.specs.{Output.Writes, Writing.{body, declarations_text, declaration_text, events_text}};
ghost use Rattle.race_text.specs.Text as text;
ghost use Rattle.race_text.specs.Writing as spec;

use crate::header::header_line;
use itoa::Buffer;
use race_records::{
    Case, Cases, Cause, DeclKeyword, Decls, Dir, Event, Kind, Named, OpKeyword, Operand, Page,
    Sink, Trace, WriteFault, failed_at, object_says, says,
};
use std::alloc::Allocator;
use std::io::Write;

/// Writes the trace's one text, in blocks of at most 4,096 bytes. Takes no memory.
///
/// A write that fails or takes no byte ends it: then exactly the first `sent` bytes are out.
pub fn write_trace<W: Write, A: Allocator>(
    trace: &Trace<A>,
    sink: &mut Sink<W>,
) -> Result<(), WriteFault>
    ensures written { Writes W.contents result sink.old sink.new (text.text trace.now) }

    // The text is short enough for all its bytes to be counted.
    ensures exact { IfErr result (λ fault. Appends (written W.contents sink.old) (written W.contents sink.new)
        (take fault.sent (text.text trace.now)) × (fault.sent < length (text.text trace.now))) }
{
    let mut page = Page::new();
    match print_trace(&mut page, sink, trace.decls(), trace.events()) {
        Ok(()) => page.flush(sink),
        Err(fault) => Err(fault),
    }
}

// Prints the header, the declarations and the events.
fn print_trace<W: Write, A: Allocator>(
    page: &mut Page,
    sink: &mut Sink<W>,
    decls: &Decls<A>,
    events: &[Event],
) -> Result<(), WriteFault>
    requires { All (λ e. IsTrue (fits decls.now e)) events.now }
    ensures { Printing W.contents result sink.old sink.new page.old page.new
        (text.ended (text.header decls.now.version) ++ body decls.now events.now) }
{
    match page.put(sink, header_line(decls.version())) {
        Ok(()) => print_body(page, sink, decls, events),
        Err(fault) => Err(fault),
    }
}

// Prints all behind the header.
fn print_body<W: Write, A: Allocator>(
    page: &mut Page,
    sink: &mut Sink<W>,
    decls: &Decls<A>,
    events: &[Event],
) -> Result<(), WriteFault>
    requires { All (λ e. IsTrue (fits decls.now e)) events.now }
    ensures { Printing W.contents result sink.old sink.new page.old page.new
        (body decls.now events.now) }
{
    match print_declarations(page, sink, decls) {
        Ok(()) => print_events(page, sink, decls, events),
        Err(fault) => Err(fault),
    }
}

fn print_declarations<W: Write, A: Allocator>(
    page: &mut Page,
    sink: &mut Sink<W>,
    decls: &Decls<A>,
) -> Result<(), WriteFault>
    ensures { Printing W.contents result sink.old sink.new page.old page.new
        (declarations_text decls.now.declarations) }
{
    for index in 0..decls.len() {
        if let Err(fault) = print_declaration(page, sink, decls, index) {
            return Err(fault);
        }
    }
    Ok(())
}

fn print_events<W: Write, A: Allocator>(
    page: &mut Page,
    sink: &mut Sink<W>,
    decls: &Decls<A>,
    events: &[Event],
) -> Result<(), WriteFault>
    requires { All (λ e. IsTrue (fits decls.now e)) events.now }
    ensures { Printing W.contents result sink.old sink.new page.old page.new
        (events_text decls.now events.now) }
{
    for event in events {
        if let Err(fault) = print_event(page, sink, decls, event) {
            return Err(fault);
        }
    }
    Ok(())
}

// Prints a declaration.
pub(crate) fn print_declaration<W: Write, A: Allocator>(
    page: &mut Page,
    sink: &mut Sink<W>,
    decls: &Decls<A>,
    index: usize,
) -> Result<(), WriteFault>
    requires { index < length decls.now.declarations }
    ensures { Printing W.contents result sink.old sink.new page.old page.new
        (declaration_text decls.now.declarations index) }
{
    let (object, name) = decls.declaration(index);
    let (decl_keyword, number) = object_says(object);
    match print_first(page, sink, decl_keyword_text(decl_keyword), name) {
        Ok(()) => print_number(page, sink, number),
        Err(fault) => Err(fault),
    }
}

// The word of a declaration.
fn decl_keyword_text(decl_keyword: DeclKeyword) -> &'static str
    ensures { result.now ≡ spec.decl_keyword_text decl_keyword }
{
    match decl_keyword {
        DeclKeyword::Goroutine => "goroutine",
        DeclKeyword::Var => "var",
        DeclKeyword::Chan => "chan",
        DeclKeyword::Mutex => "mutex",
        DeclKeyword::RwMutex => "rwmutex",
        DeclKeyword::Once => "once",
    }
}

// Prints the number behind a name, where there is one, and ends the line.
fn print_number<W: Write>(
    page: &mut Page,
    sink: &mut Sink<W>,
    number: Option<u32>,
) -> Result<(), WriteFault>
    ensures { Printing W.contents result sink.old sink.new page.old page.new
        (spec.number_end number) }
{
    match number {
        None => page.put(sink, b"\n"),
        Some(number) => {
            let mut digits = Buffer::new();
            let operands = [
                b" ".as_slice(),
                digits.format(number).as_bytes(),
                b"\n".as_slice(),
            ];
            page.put_all(sink, &operands)
        }
    }
}

/// Prints the line of an event that fits the declarations, behind whatever was printed on the page before. Takes no
/// memory.
pub fn print_event<W: Write, A: Allocator>(
    page: &mut Page,
    sink: &mut Sink<W>,
    decls: &Decls<A>,
    event: &Event,
) -> Result<(), WriteFault>
    requires { IsTrue (fits decls.now event.now) }
    ensures { Printing W.contents result sink.old sink.new page.old page.new
        (text.ended (text.event_line decls.now event.now)) }
{
    let who = decls.name(Named::Goroutine(event.who));
    let place = decls.place_text(event.place);
    let place2 = second_text(decls, event.place2);
    let (op_keyword, operands) = says(&event.op);
    match print_first(page, sink, op_keyword_text(op_keyword), who) {
        Ok(()) => print_behind(page, sink, decls, operands.as_slice(), place, place2),
        Err(fault) => Err(fault),
    }
}

// The text of the second place, where there is one.
fn second_text<A: Allocator>(decls: &Decls<A>, place2: Option<u32>) -> Option<&str>
    requires { IfSome place2 (λ place. place < length decls.now.places) }
    ensures { option_map (λ place. place.now) result ≡ text.second_text decls.now.places place2 }
{
    match place2 {
        None => None,
        Some(place) => Some(decls.place_text(place)),
    }
}

// The word of an operation.
fn op_keyword_text(op_keyword: OpKeyword) -> &'static str
    ensures { result.now ≡ spec.op_keyword_text op_keyword }
{
    match op_keyword {
        OpKeyword::Go => "go",
        OpKeyword::Exit => "exit",
        OpKeyword::Read => "read",
        OpKeyword::Write => "write",
        OpKeyword::Send => "send",
        OpKeyword::Recv => "recv",
        OpKeyword::Meet => "meet",
        OpKeyword::RecvClosed => "recvclosed",
        OpKeyword::Close => "close",
        OpKeyword::Default => "default",
        OpKeyword::Lock => "lock",
        OpKeyword::Unlock => "unlock",
        OpKeyword::RLock => "rlock",
        OpKeyword::RUnlock => "runlock",
        OpKeyword::TryLock => "trylock",
        OpKeyword::TryRLock => "tryrlock",
        OpKeyword::TryFail => "tryfail",
        OpKeyword::OnceBegin => "oncebegin",
        OpKeyword::OnceEnd => "onceend",
        OpKeyword::OnceDone => "oncedone",
        OpKeyword::Fault => "fault",
    }
}

// Prints the word of a line and what it is of: the name that is declared, or the goroutine.
fn print_first<W: Write>(
    page: &mut Page,
    sink: &mut Sink<W>,
    word: &str,
    who: &str,
) -> Result<(), WriteFault>
    ensures { Printing W.contents result sink.old sink.new page.old page.new
        (word.now ++ 32 ∷ who.now) }
{
    let operands = [word.as_bytes(), b" ".as_slice(), who.as_bytes()];
    page.put_all(sink, &operands)
}

// Prints the operands of an operation and the places.
fn print_behind<W: Write, A: Allocator>(
    page: &mut Page,
    sink: &mut Sink<W>,
    decls: &Decls<A>,
    operands: &[Operand],
    place: &str,
    place2: Option<&str>,
) -> Result<(), WriteFault>
    requires { list_all (operand_fits decls.now.declarations) operands.now ≡ true }
    ensures { Printing W.contents result sink.old sink.new page.old page.new
        (spec.operands_text decls.now.declarations operands.now
        ++ spec.place_end place.now (option_map (λ place. place.now) place2.entry)) }
{
    match print_operands(page, sink, decls, operands) {
        Ok(()) => print_places(page, sink, place, place2),
        Err(fault) => Err(fault),
    }
}

// Prints each operand behind a space.
fn print_operands<W: Write, A: Allocator>(
    page: &mut Page,
    sink: &mut Sink<W>,
    decls: &Decls<A>,
    operands: &[Operand],
) -> Result<(), WriteFault>
    requires { list_all (operand_fits decls.now.declarations) operands.now ≡ true }
    ensures { Printing W.contents result sink.old sink.new page.old page.new
        (spec.operands_text decls.now.declarations operands.now) }
{
    for operand in operands {
        if let Err(fault) = print_operand(page, sink, decls, operand) {
            return Err(fault);
        }
    }
    Ok(())
}

fn print_operand<W: Write, A: Allocator>(
    page: &mut Page,
    sink: &mut Sink<W>,
    decls: &Decls<A>,
    operand: &Operand,
) -> Result<(), WriteFault>
    requires { operand_fits decls.now.declarations operand.now ≡ true }
    ensures { Printing W.contents result sink.old sink.new page.old page.new
        (spec.behind_space decls.now.declarations operand.now) }
{
    match operand {
        Operand::Object(named) => {
            let operands = [b" ".as_slice(), decls.name(*named).as_bytes()];
            page.put_all(sink, &operands)
        }
        Operand::Value(value) => {
            let mut digits = Buffer::new();
            let operands = [b" ".as_slice(), digits.format(*value).as_bytes()];
            page.put_all(sink, &operands)
        }
        Operand::Cases(cases) => print_cases(page, sink, decls, cases),
        Operand::Cause(cause) => print_failure(page, sink, decls, *cause),
    }
}

// Prints the cases of a select behind a space.
fn print_cases<W: Write, A: Allocator>(
    page: &mut Page,
    sink: &mut Sink<W>,
    decls: &Decls<A>,
    cases: &Cases,
) -> Result<(), WriteFault>
    requires { operand_fits decls.now.declarations (Operand.Cases cases.now) ≡ true }
    ensures { Printing W.contents result sink.old sink.new page.old page.new
        (spec.behind_space decls.now.declarations (Operand.Cases cases.now)) }
{
    if cases.is_empty() {
        return page.put(sink, b" -");
    }
    for k in 0..cases.len() {
        if let Err(fault) = print_case(page, sink, decls, k, cases.get(k)) {
            return Err(fault);
        }
    }
    Ok(())
}

// Prints case k behind a space or a comma.
fn print_case<W: Write, A: Allocator>(
    page: &mut Page,
    sink: &mut Sink<W>,
    decls: &Decls<A>,
    k: usize,
    case: Case,
) -> Result<(), WriteFault>
    requires { chan_is_in_range (count_of Kind.Chan decls.now.declarations) case.chan ≡ true }
    ensures { Printing W.contents result sink.old sink.new page.old page.new
        (spec.separator k ∷ text.case_text decls.now.declarations case) }
{
    let before = if k == 0 { b" " } else { b"," };
    let dir = match case.dir {
        Dir::Send => "send:",
        Dir::Recv => "recv:",
    };
    let operands = [
        before.as_slice(),
        dir.as_bytes(),
        chan_text(decls, case.chan).as_bytes(),
    ];
    page.put_all(sink, &operands)
}

// The name of a channel, or nil.
fn chan_text<A: Allocator>(decls: &Decls<A>, chan: Option<u32>) -> &str
    requires { chan_is_in_range (count_of Kind.Chan decls.now.declarations) chan ≡ true }
    ensures { result.now ≡ text.chan_text decls.now.declarations chan }
{
    match chan {
        None => "nil",
        Some(chan) => decls.name(Named::Chan(chan)),
    }
}

// Prints behind a space why the run failed.
fn print_failure<W: Write, A: Allocator>(
    page: &mut Page,
    sink: &mut Sink<W>,
    decls: &Decls<A>,
    cause: Cause,
) -> Result<(), WriteFault>
    requires { operand_fits decls.now.declarations (Operand.Cause cause) ≡ true }
    ensures { Printing W.contents result sink.old sink.new page.old page.new
        (spec.behind_space decls.now.declarations (Operand.Cause cause)) }
{
    let tried = match cause {
        Cause::SendClosed(_) => "send:",
        Cause::CloseClosed(_) => "close:",
        Cause::CloseNil => "close:",
        Cause::UnlockFree(_) => "unlock:",
        Cause::RUnlockFree(_) => "runlock:",
    };
    let name = match failed_at(cause) {
        None => "nil",
        Some(named) => decls.name(named),
    };
    let operands = [b" ".as_slice(), tried.as_bytes(), name.as_bytes()];
    page.put_all(sink, &operands)
}

// Prints the place, and the second one where there is one, and ends the line.
fn print_places<W: Write>(
    page: &mut Page,
    sink: &mut Sink<W>,
    place: &str,
    place2: Option<&str>,
) -> Result<(), WriteFault>
    ensures { Printing W.contents result sink.old sink.new page.old page.new
        (spec.place_end place.now (option_map (λ place. place.now) place2.entry)) }
{
    match place2 {
        None => {
            let operands = [b" ".as_slice(), place.as_bytes(), b"\n".as_slice()];
            page.put_all(sink, &operands)
        }
        Some(second) => {
            let operands = [
                b" ".as_slice(),
                place.as_bytes(),
                b" ".as_slice(),
                second.as_bytes(),
                b"\n".as_slice(),
            ];
            page.put_all(sink, &operands)
        }
    }
}
