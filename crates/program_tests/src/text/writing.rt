//! Traces that are written again.
use crate::devices::SlowWriter;
use race_records::{Sink, Trace};
use race_text::{parse_trace, write_trace};
use std::alloc::Global;
use std::io;
use std::test::Fail;

pub(crate) const SMALL: &[u8] =
    b"gotrace 1\ngoroutine w\nvar x\nwrite main x 7 a.go:1\ngo main w a.go:2\nread w x 7 a.go:5\nexit main a.go:3\n";

/// Whether the trace is written as this text.
pub(crate) fn is_written_as(alloc: Global, trace: &Trace, text: &[u8]) -> bool {
    let mut written = Vec::new(alloc);
    let mut sink = Sink::new(&mut written);
    write_trace(trace, &mut sink).is_ok() && written.as_slice() == text
}

// How many bytes the writer takes a call and in all, and how many are sent where that is too few.
static WRITERS: [(usize, usize, Option<u64>); 5] = [
    (1, 1_000, None),
    (7, 1_000, None),
    (1_000, 1_000, None),
    (1_000, 10, Some(10)),
    (7, 10, Some(10)),
];

#[test]
fn a_slow_writer_is_sent_all_and_a_full_one_what_it_takes(rt: HostRuntime) -> Result<(), Fail> {
    let trace = parse_trace(rt.alloc(), SMALL)?;
    for &(step, room, sent) in &WRITERS {
        let mut writer = SlowWriter {
            taken: Vec::new(rt.alloc()),
            step,
            room,
            fault: Some(io::ErrorKind::Other),
        };
        let mut sink = Sink::new(&mut writer);
        let answer = write_trace(&trace, &mut sink).err();
        assert_eq!(rt; answer.map(|fault| fault.sent), sent, "{step} {room}");
        let end = SMALL.len().min(room);
        assert_eq!(rt; writer.taken.as_slice(), &SMALL[..end], "{step} {room}");
    }
    Ok(())
}
