//! A reader with a count of its reads, and of those that failed.
ghost use Rattle.std.specs.{Prelude.◌≡◌, Io.{ReadsAtMost, KnownBytes.ReadConsumes}};

use std::io;
use std::io::Read;

/// A reader, how often it was read, how many of its reads failed, and the key by which names of its text are hashed.
///
/// The counts let a caller tell whether a refusal came from the device, and how long it was tried.
#[derive(Drop)]
pub struct Source<R: Read> {
    reader: R,
    reads: u64,
    failures: u64,
    key: u64,
}

impl<R: Read> Source<R> {
    ghost use Rattle.race_records.specs.Devices.{reader_of, unread, source_reads, source_failures, source_key, is_failed_read};
    ghost use Rattle.race_records.specs.Devices.{counted, one_more};

    /// The reader with no read so far, and the key 0.
    pub fn new(reader: R) -> Source<R>
        ensures reader { reader_of result ≡ reader }
        ensures reads { source_reads result ≡ 0 }
        ensures failures { source_failures result ≡ 0 }
    {
        Source::keyed(reader, 0)
    }

    /// The same with a key for the hashes of names and places (`Decls::keyed`). It should be secret where somebody else
    /// writes the text.
    pub fn keyed(reader: R, key: u64) -> Source<R>
        ensures reader { reader_of result ≡ reader }
        ensures reads { source_reads result ≡ 0 }
        ensures failures { source_failures result ≡ 0 }
        ensures key { source_key result ≡ key }
    {
        Source {
            reader,
            reads: 0,
            failures: 0,
            key,
        }
    }

    /// The key for the hashes of the text's names and places.
    pub fn key(&self) -> u64
        ensures { result ≡ source_key self.now }
    {
        self.key
    }

    /// Reads as the reader does.
    pub fn read(&mut self, buf: &mut [u8]) -> io::Result<usize>
        ensures bound { ReadsAtMost result buf.new }
        ensures bytes { ReadConsumes (unread R.remaining self.old) (unread R.remaining self.new)
            result buf.new }
        ensures key { source_key self.new ≡ source_key self.old }
        ensures reads { source_reads self.new ≡ one_more (source_reads self.old) }
        ensures failures { source_failures self.new ≡ counted (is_failed_read result)
            (source_failures self.old) }
    {
        let outcome = self.reader.read(buf);
        self.reads = self.reads.saturating_add(1);
        if outcome.is_err() {
            self.failures = self.failures.saturating_add(1);
        }
        outcome
    }

    /// How often the reader was read since `new`; it stays at `u64::MAX`.
    pub fn reads(&self) -> u64
        ensures { result ≡ source_reads self.now }
    {
        self.reads
    }

    /// How many reads failed since `new`; it stays at `u64::MAX`.
    pub fn failures(&self) -> u64
        ensures { result ≡ source_failures self.now }
    {
        self.failures
    }
}
