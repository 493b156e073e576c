//! A text on its way to a writer, gathered into blocks so that a short word costs no write.
ghost use Rattle.std.specs.Prelude.{◌≡◌, ◌≤◌, ℕ, ◌+◌, ◌<◌, [], ◌++◌, length, min, ◌^◌, ◌-◌, List, Option, OnOk, OnErr};
ghost use Rattle.std.specs.Prelude.{IfErr};
ghost use Rattle.arrayvec.specs.ArrayVec.{array_vec_len};
ghost use Rattle.race_records.specs.{Devices.{written, sink_failures, one_more}, Page.{IsPrinted, IsCutOff, Printing}};
ghost use Rattle.race_records.specs.Page.{joined};

use crate::{Sink, WriteFault};
use arrayvec::ArrayVec;
use std::io::Write;
use std::marker::Model;

/// How many bytes go out in one write at most.
pub const BLOCK: usize = 4096;

// Definitions cite this number, so it is written down twice.
const _: () = prove!(BLOCK == 4096);

/// The bytes of a text that wait for the next write, and how many went out before.
///
/// Takes no memory. After a fault the page is of no more use.
#[derive(Drop)]
pub struct Page {
    waiting: ArrayVec<u8, BLOCK>,
    sent: u64,
}

impl Model for Page {
    ghost use Rattle.race_records.specs.Page.{PageState};

    ghost Value = { PageState };

    ghost view = { λ p. record { waiting = p.waiting.items; sent = p.sent } };
}

impl Page {
    /// A page on which nothing waits.
    pub fn new() -> Page
        ensures waiting { result.waiting ≡ [] }
        ensures sent { result.sent ≡ 0 }
    {
        Page {
            waiting: ArrayVec::new(),
            sent: 0,
        }
    }

    /// Puts the bytes behind the text so far.
    pub fn put<W: Write>(&mut self, sink: &mut Sink<W>, bytes: &[u8]) -> Result<(), WriteFault>
        ensures { Printing W.contents result sink.old sink.new self.old self.new bytes.now }
    {
        if self.waiting.remaining_capacity() < bytes.len() {
            if let Err(fault) = self.flush(sink) {
                return Err(fault);
            }
        }
        if BLOCK < bytes.len() {
            return self.send(sink, bytes);
        }
        let _ = self.waiting.try_extend_from_slice(bytes);
        Ok(())
    }

    /// Puts all the parts behind the text so far, in order.
    pub fn put_all<W: Write>(
        &mut self,
        sink: &mut Sink<W>,
        parts: &[&[u8]],
    ) -> Result<(), WriteFault>
        ensures { Printing W.contents result sink.old sink.new self.old self.new (joined parts.now) }
    {
        for part in parts {
            if let Err(fault) = self.put(sink, *part) {
                return Err(fault);
            }
        }
        Ok(())
    }

    /// Sends what waits.
    pub fn flush<W: Write>(&mut self, sink: &mut Sink<W>) -> Result<(), WriteFault>
        ensures empty { OnOk result (self.new.waiting ≡ []) }
        ensures ok { OnOk result ((start : Option (List ℕ)) (text : List ℕ)
            → IsPrinted start (written W.contents sink.old) self.old text
            → IsPrinted start (written W.contents sink.new) self.new text) }
        ensures sent { IfErr result (λ fault. (start : Option (List ℕ)) (text : List ℕ)
            → IsPrinted start (written W.contents sink.old) self.old text
            → IsCutOff start (written W.contents sink.new) fault.sent text) }
        ensures calm { OnOk result (sink_failures sink.new ≡ sink_failures sink.old) }
        ensures failed { OnErr result (sink_failures sink.new ≡ one_more (sink_failures sink.old)) }
    {
        match sink.send(self.waiting.as_slice()) {
            Ok(()) => {
                self.sent = self.sent.saturating_add(self.waiting.len() as u64);
                self.waiting.clear();
                Ok(())
            }
            Err(fault) => Err(self.fault(fault)),
        }
    }

    // Sends bytes that no block can hold, where nothing waits.
    fn send<W: Write>(&mut self, sink: &mut Sink<W>, bytes: &[u8]) -> Result<(), WriteFault>
        requires empty { self.old.waiting ≡ [] }
        requires long { BLOCK < length bytes.now }
        ensures { Printing W.contents result sink.old sink.new self.old self.new bytes.now }
    {
        match sink.send(bytes) {
            Ok(()) => {
                self.sent = self.sent.saturating_add(bytes.len() as u64);
                Ok(())
            }
            Err(fault) => Err(self.fault(fault)),
        }
    }

    // The fault of the whole text, from that of one write.
    fn fault(&self, fault: WriteFault) -> WriteFault
        ensures { result.sent ≡ min (self.now.sent + fault.sent) (2 ^ 64 - 1) }
    {
        WriteFault {
            sent: self.sent.saturating_add(fault.sent),
        }
    }
}
