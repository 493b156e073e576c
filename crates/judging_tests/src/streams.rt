//! A stream of events, which are handed on.
ghost use Rattle.std.specs.Prelude.{OnOk};
ghost use Rattle.race_text.specs.Stream.{StandsWith, StandsForSome};

use race_text::{EventStream, TextCause};
use std::alloc::Global;
use std::test::Fail;

// A line, whether the events are handed on behind it, how many there are then, and the number of the next line.
static LINES: [(&str, bool, usize, u64); 8] = [
    ("gotrace 1", false, 0, 2),
    ("goroutine w", false, 0, 3),
    ("var x", true, 0, 4),
    ("go main w p", false, 1, 5),
    ("write main x 1 p", true, 0, 6),
    ("read w x 1 q", false, 1, 7),
    ("exit w q", false, 2, 8),
    ("exit main p", true, 0, 9),
];

// Takes a line, and hands the events on where that is wanted.
fn take(stream: &mut EventStream<Global>, line: &str, hands_on: bool) -> Result<(), TextCause>
    requires { StandsForSome stream.old }
    ensures { OnOk result (StandsForSome stream.new) }
{
    stream.take_line(line.as_bytes())?;
    if hands_on {
        let mut list = Vec::new(stream.reader.alloc);
        stream.hand_over(&mut list);
    }
    Ok(())
}

// The first row behind which the stream says something else, or how many rows there are.
fn first_wrong(stream: &mut EventStream<Global>) -> Result<usize, TextCause>
    requires { StandsForSome stream.old }
    ensures { OnOk result (StandsForSome stream.new) }
{
    let mut at = 0;
    while at < LINES.len() {
        let (line, hands_on, events, next) = LINES[at];
        take(stream, line, hands_on)?;
        if stream.events().len() != events || stream.line() != next {
            return Ok(at);
        }
        at += 1;
    }
    Ok(at)
}

#[test]
fn events_are_handed_on(rt: HostRuntime) -> Result<(), Fail> {
    let mut stream = EventStream::keyed(rt.alloc(), 7);
    assert!(rt; first_wrong(&mut stream) == Ok(8));
    assert!(rt; stream.end_cause(b"") == None);
    assert!(rt; stream.end_cause(b"exit") == Some(TextCause::NoNewline));
    assert!(rt; stream.decls().len() == 2 && stream.has_events());
    assert!(rt; take(&mut stream, "var y", false) == Err(TextCause::LateDeclaration));
    Ok(())
}
