use race_records::{BLOCK, Page, Sink, Source, WriteFault};
use std::io;
use std::io::{Read, Write};
use std::test::Fail;

// A device that gives and takes two bytes a call, fails at each third call and then has nothing.
#[derive(Drop)]
struct Broken {
    calls: u8,
}

impl Read for Broken {
    fn read(&mut self, buf: &mut [u8]) -> io::Result<usize> {
        self.calls = self.calls.saturating_add(1);
        if self.calls == 3 {
            return Err(io::ErrorKind::TimedOut.into());
        }
        if self.calls > 3 || buf.len() < 2 {
            return Ok(0);
        }
        Ok(2)
    }
}

impl Write for Broken {
    fn write(&mut self, buf: &[u8]) -> io::Result<usize> {
        self.calls = self.calls.saturating_add(1);
        if self.calls == 3 {
            return Err(io::ErrorKind::TimedOut.into());
        }
        if self.calls > 3 || buf.len() < 2 {
            return Ok(0);
        }
        Ok(2)
    }

    fn flush(&mut self) -> io::Result<()> {
        Ok(())
    }
}

#[test]
fn a_call_answers_as_the_device_does(rt: HostRuntime) {
    let mut source = Source::new(Broken { calls: 0 });
    let mut sink = Sink::new(Broken { calls: 0 });
    let mut block = [0u8; 2];
    for &(answer, reads, writes) in &[
        (Ok(2), 0, 0),
        (Ok(2), 0, 0),
        (Err(io::ErrorKind::TimedOut), 1, 1),
        (Ok(0), 1, 2),
    ] {
        let read = source.read(&mut block).map_err(|error| error.kind());
        assert_eq!(rt; (read, source.failures()), (answer, reads));
        let written = sink.write(b"ab").map_err(|error| error.kind());
        assert_eq!(rt; (written, sink.failures()), (answer, writes));
    }
}

#[test]
fn failed_writes_are_counted(rt: HostRuntime) {
    let mut sink = Sink::new(Broken { calls: 0 });
    for &(text, answer, failures) in &[
        ("ab", Ok(()), 0),
        ("abcd", Err(WriteFault { sent: 2 }), 1),
        ("", Ok(()), 1),
        ("ab", Err(WriteFault { sent: 0 }), 2),
    ] {
        let told = sink.send(text.as_bytes());
        assert_eq!(rt; (told, sink.failures()), (answer, failures), "{text}");
    }
}

// A device that gives what it is asked for, takes two bytes a call, and fails at one call alone.
#[derive(Drop)]
struct FailsOnce {
    calls: u64,
    fails_at: u64,
}

impl FailsOnce {
    fn fails(&mut self) -> bool {
        self.calls = self.calls.saturating_add(1);
        self.calls == self.fails_at
    }
}

impl Read for FailsOnce {
    fn read(&mut self, buf: &mut [u8]) -> io::Result<usize> {
        if self.fails() {
            return Err(io::ErrorKind::Other.into());
        }
        Ok(buf.len())
    }
}

impl Write for FailsOnce {
    fn write(&mut self, buf: &[u8]) -> io::Result<usize> {
        if self.fails() {
            return Err(io::ErrorKind::Other.into());
        }
        Ok(buf.len().min(2))
    }

    fn flush(&mut self) -> io::Result<()> {
        Ok(())
    }
}

#[test]
fn a_failed_write_is_not_tried_again(rt: HostRuntime) {
    for &fails_at in &[1, 2] {
        let mut device = FailsOnce { calls: 0, fails_at };
        let mut sink = Sink::new(&mut device);
        let told = sink.send(b"abcdef");
        let failures = sink.failures();
        let sent = 2 * (fails_at - 1);
        assert_eq!(rt;
            (told, failures, device.calls),
            (Err(WriteFault { sent }), 1, fails_at)
        );
    }
}

#[test]
fn a_failed_read_is_not_tried_again(rt: HostRuntime) {
    let mut block = [0u8; 2];
    for &fails_at in &[1, 2] {
        let mut source = Source::new(FailsOnce { calls: 0, fails_at });
        for reads in 1..4 {
            let failed = source.read(&mut block).is_err();
            assert_eq!(rt;
                (failed, source.reads(), source.failures()),
                (reads == fails_at, reads, u64::from(reads >= fails_at))
            );
        }
    }
}

// What is answered to a text that is sent to a list, with how many failures.
fn sent(text: &mut Vec<u8>, bytes: &[u8]) -> (Result<(), WriteFault>, u64) {
    let mut sink = Sink::new(text);
    let told = sink.send(bytes);
    (told, sink.failures())
}

#[test]
fn a_whole_text_is_sent(rt: HostRuntime) {
    let mut text = Vec::new(rt.alloc());
    let told = sent(&mut text, b"gotrace 1\n");
    assert_eq!(rt;
        (told, text.as_slice()),
        ((Ok(()), 0), b"gotrace 1\n".as_slice())
    );
}

// Prints the parts one behind the other.
fn print(text: &mut Vec<u8>, parts: &[&[u8]]) -> Result<(), WriteFault> {
    let mut sink = Sink::new(text);
    let mut page = Page::new();
    page.put_all(&mut sink, parts)?;
    page.flush(&mut sink)
}

#[test]
fn a_text_is_printed_in_blocks(rt: HostRuntime) -> Result<(), Fail> {
    let long = Vec::from_array(rt.alloc(), [b'x'; BLOCK + 1])?;
    let mut text = Vec::new(rt.alloc());
    let answer = print(&mut text, &[b"events: ", long.as_slice(), b"\n"]);
    let is_whole = text.len() == 8 + BLOCK + 1 + 1
        && text.as_slice().starts_with(b"events: x")
        && text.as_slice().ends_with(b"x\n");
    assert_eq!(rt; (answer, is_whole), (Ok(()), true));
    Ok(())
}

#[test]
fn a_broken_print_tells_how_much_is_out(rt: HostRuntime) {
    let mut sink = Sink::new(Broken { calls: 0 });
    let mut page = Page::new();
    assert_eq!(rt; page.put(&mut sink, b"abcdef"), Ok(()));
    assert_eq!(rt; page.flush(&mut sink), Err(WriteFault { sent: 4 }));
}
