//! A writer with a count of failures, and the loop that writes a whole text.
ghost use Rattle.std.specs.{Prelude.{◌≡◌, ◌<◌, length, take, IfErr, OnOk, OnErr}, Io.WritesAtMost};
ghost use Rattle.std.specs.Io.KnownBytes.{WriteAppends, Appends};

use std::io;
use std::io::Write;
use thiserror::Error;

/// A text that went out in part: the device failed, or took no byte.
#[derive(Clone, Copy, Debug, PartialEq, Eq, Error)]
#[error("writing failed after {sent} bytes")]
pub struct WriteFault {
    /// How many bytes of the text are out.
    pub sent: u64,
}

/// A writer, and how many of its writes failed or took none of some bytes.
///
/// The count lets a caller tell whether a refusal came from the device.
#[derive(Drop)]
pub struct Sink<W: Write> {
    writer: W,
    failures: u64,
}

impl<W: Write> Sink<W> {
    ghost use Rattle.race_records.specs.Devices.{writer_of, written, sink_failures, is_failed_write, counted, one_more};

    /// The writer with no failure so far.
    pub fn new(writer: W) -> Sink<W>
        ensures writer { writer_of result ≡ writer }
        ensures failures { sink_failures result ≡ 0 }
    {
        Sink {
            writer,
            failures: 0,
        }
    }

    /// Writes as the writer does, maybe only the first bytes.
    pub fn write(&mut self, buf: &[u8]) -> io::Result<usize>
        ensures bound { WritesAtMost result buf.now }
        ensures bytes { WriteAppends (written W.contents self.old) (written W.contents self.new)
            result buf.now }
        ensures failures { sink_failures self.new ≡ counted (is_failed_write result buf.now)
            (sink_failures self.old) }
    {
        let outcome = self.writer.write(buf);
        let failed = match &outcome {
            Ok(taken) => *taken == 0 && !buf.is_empty(),
            Err(_) => true,
        };
        if failed {
            self.failures = self.failures.saturating_add(1);
        }
        outcome
    }

    /// Writes all the bytes by a loop over `write`, which ends at the first failure and at a write
    /// that takes none.
    pub fn send(&mut self, bytes: &[u8]) -> Result<(), WriteFault>
        ensures ok { OnOk result
            (Appends (written W.contents self.old) (written W.contents self.new) bytes.now) }
        ensures sent { IfErr result (λ fault.
            Appends (written W.contents self.old) (written W.contents self.new) (take fault.sent bytes.now)) }
        ensures short { IfErr result (λ fault. fault.sent < length bytes.now) }

        // A fault is one failure more of the device, and without one the count stays.
        ensures calm { OnOk result (sink_failures self.new ≡ sink_failures self.old) }
        ensures failed { OnErr result (sink_failures self.new ≡ one_more (sink_failures self.old)) }
    {
        let mut sent = 0;
        while sent < bytes.len() {
            match self.write(&bytes[sent..]) {
                Ok(taken) => {
                    if taken == 0 {
                        return Err(WriteFault { sent: sent as u64 });
                    }
                    sent += taken;
                }
                Err(_) => return Err(WriteFault { sent: sent as u64 }),
            }
        }
        Ok(())
    }

    /// The writer, with what it took.
    pub fn into_writer(self) -> W
        ensures { result ≡ writer_of self }
    {
        self.writer
    }

    /// How many writes failed, or took none of some bytes, since `new`; it stays at `u64::MAX`.
    pub fn failures(&self) -> u64
        ensures { result ≡ sink_failures self.now }
    {
        self.failures
    }
}
